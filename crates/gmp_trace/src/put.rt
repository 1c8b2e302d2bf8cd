//! Puts words at the end of a text. Each of them may want memory, as long as the text has no room left.

ghost use Rattle.std.specs.Prelude.{◌≡◌, ◌++◌, ◌∷◌, OnOk, decimal};

use crate::digits::place_digits;
use std::alloc::AllocError;

/// These bytes.
pub fn put(out: &mut Vec<u8>, bytes: &[u8]) -> Result<(), AllocError>
    ensures { OnOk result (out.new.items ≡ out.old.items ++ bytes.now) }
{
    out.extend_from_slice(bytes)
}

/// The digits of a number.
pub fn put_digits(out: &mut Vec<u8>, n: u64) -> Result<(), AllocError>
    ensures { OnOk result (out.new.items ≡ out.old.items ++ decimal n) }
{
    let mut room = [0; 20];
    let end = place_digits(&mut room, 0, n);
    out.extend_from_slice(&room[..end])
}

/// A space and a word.
pub fn put_word(out: &mut Vec<u8>, word: &[u8]) -> Result<(), AllocError>
    ensures { OnOk result (out.new.items ≡ out.old.items ++ 32 ∷ word.now) }
{
    out.push(b' ')?;
    put(out, word)
}

/// A space and a number.
pub fn put_number(out: &mut Vec<u8>, n: u64) -> Result<(), AllocError>
    ensures { OnOk result (out.new.items ≡ out.old.items ++ 32 ∷ decimal n) }
{
    out.push(b' ')?;
    put_digits(out, n)
}

/// A word, and then a number.
pub fn put_named(out: &mut Vec<u8>, word: &[u8], n: u64) -> Result<(), AllocError>
    ensures { OnOk result (out.new.items ≡ out.old.items ++ 32 ∷ (word.now ++ 32 ∷ decimal n)) }
{
    put_word(out, word)?;
    put_number(out, n)
}
