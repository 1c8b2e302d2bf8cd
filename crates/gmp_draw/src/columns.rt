//! Where entries are from left to right: a column for each, behind the names of the lanes.

ghost use Rattle.std.specs.Prelude.{◌≡◌, ℕ, ◌≤◌, ◌+◌, ◌-◌};
ghost use Rattle.gmp_draw.specs.Position.{position};

use crate::svg::digits;
use gmp_lanes::Range;

/// A picture is at least so wide.
const WIDTH: u64 = 1_280;

/// A letter takes no more than this.
pub const LETTER: u64 = 8;

/// How wide a column is where so many share this width.
fn column_width(width: u64, count: u64) -> u64
    ensures least { 6 ≤ result }
    ensures most { result ≤ 120 }
{
    if count == 0 {
        return 120;
    }
    (width / count).clamp(6, 120)
}

/// Where the column of an entry begins, where so many pixels are left of all columns.
#[tactic(auto, unfolding(crate::specs::Position::position))]
fn position_of(left: u64, column: u64, entries: Range, number: u64) -> u64
    ensures { result ≡ position left column entries.from entries.to number }
{
    let place = number.saturating_sub(entries.from).min(entries.count());
    left.saturating_add(column.saturating_mul(place))
}

/// The columns.
#[derive(Clone, Copy)]
pub struct Columns {
    /// The entries that are drawn.
    pub entries: Range,
    /// Where the first column begins.
    pub left: u64,
    /// How wide a column is.
    pub column: u64,
    /// How wide the picture is.
    pub width: u64,
    // The last column ends in the picture.
    ghost inside: { position left column entries.from entries.to entries.to ≤ width },
}

impl Columns {
    /// Columns for these entries, where the longest name of a lane has so many letters.
    pub fn new(entries: Range, letters: u64) -> Self
        ensures entries { result.entries ≡ entries }
        ensures column { 6 ≤ result.column }
        ensures width { 1280 ≤ result.width }
    {
        let left = letters.saturating_mul(LETTER).saturating_add(20);
        let right = digits(entries.to).saturating_mul(LETTER).saturating_add(24);
        let free = WIDTH.saturating_sub(left).saturating_sub(right);
        let column = column_width(free, entries.count());
        let end = position_of(left, column, entries, entries.to);
        Columns {
            entries,
            left,
            column,
            width: end.saturating_add(right).max(WIDTH),
        }
    }

    /// Where the column of an entry begins. Those before all that are drawn begin with the first, and those behind where the last ends.
    #[tactic(auto, using(crate::proofs::Position::position_ends))]
    pub fn x(&self, number: u64) -> u64
        ensures value { result ≡ position self.now.left self.now.column self.now.entries.from self.now.entries.to number }
        ensures inside { result ≤ self.now.width }
    {
        position_of(self.left, self.column, self.entries, number)
    }

    /// The middle of the column of an entry.
    pub fn middle(&self, number: u64) -> u64 {
        self.x(number).saturating_add(self.column / 2)
    }

    /// Where the columns of some entries begin, and how wide they are together.
    #[tactic(auto, using(crate::proofs::Position::position_rises))]
    pub fn across(&self, entries: Range) -> (u64, u64)
        ensures left { result.0 ≡ position self.now.left self.now.column self.now.entries.from self.now.entries.to entries.from }
        ensures right { result.1 ≡ position self.now.left self.now.column self.now.entries.from self.now.entries.to entries.to - result.0 }
        // What comes after them begins where they end, or further right.
        ensures apart { (n : ℕ) → entries.from ≤ entries.to → entries.to ≤ n → result.0 + result.1 ≤ position self.now.left self.now.column self.now.entries.from self.now.entries.to n }
    {
        let x = self.x(entries.from);
        (x, self.x(entries.to).saturating_sub(x))
    }
}
