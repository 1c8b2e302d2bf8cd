//! The look of goroutines: eight colours that differ for colour-blind eyes too (Okabe and Ito, 2008, with grey for black), and bands
//! along the edges where there are more goroutines. Text on each colour has a contrast of at least 4.5.

ghost use Rattle.std.specs.Prelude.{◌≡◌, ◌%◌, ◌/◌, ◌+◌, [], ◌∷◌, ◌++◌, codes, nat_eq};

use gmp_base::GNo;

/// The class of a goroutine's colour.
pub fn colour(g: GNo) -> &'static [u8]
    ensures { result.now ≡ codes "c" ++ (48 + g.0 % 8) ∷ [] }
{
    match g.0 % 8 {
        0 => b"c0",
        1 => b"c1",
        2 => b"c2",
        3 => b"c3",
        4 => b"c4",
        5 => b"c5",
        6 => b"c6",
        _ => b"c7",
    }
}

/// The class of text on it.
pub fn text_on(g: GNo) -> &'static [u8] {
    if g.0 % 8 == 6 { b"w" } else { b"k" }
}

/// Whether a band is along its upper edge, and whether one is along the lower.
pub fn bands(g: GNo) -> (bool, bool)
    ensures { result ≡ (nat_eq (g.0 / 16 % 2) 1, nat_eq (g.0 / 8 % 2) 1) }
{
    (g.0 / 16 % 2 == 1, g.0 / 8 % 2 == 1)
}
