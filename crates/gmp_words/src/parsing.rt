//! Reads a script, line by line.

ghost use Rattle.std.specs.Prelude.{◌≡◌, ◌<◌, ◌≤◌, ◌||◌, ℕ, true, false, All, length, IfOk, IfErr, IfSome};
ghost use Rattle.gmp_words.specs.Said.{is_of_input, is_of_script};
ghost use Rattle.gmp_script.specs.Lines.{lines, IsScript, IsFirstBadLine};
ghost use Rattle.gmp_words.specs.declared.said.Said.TheVariants.{BadLine, InputTooLong};

use crate::ended::Ended;
use crate::reading::{MAX_SCRIPT, input};
use gmp_script::Script;
use std::alloc::Global;
use std::io::Read;

/// The script that a text is.
fn parsed(alloc: Global, text: &[u8]) -> Result<Script, Ended>
    requires { length text.now ≤ 1048576 }
    ensures ok { IfOk result (λ s. IsScript (lines text.now) s.capacities.items s.readings.items s.bodies.items) }
    ensures kinds { IfErr result (λ e. is_of_script e.said ≡ true) }
    ensures first { IfErr result (λ e. (line : ℕ) → e.said ≡ BadLine line → IsFirstBadLine (lines text.now) line) }
{
    let mut script = Script::new(alloc);
    let mut number = 0u64;
    for line in text.split(|byte| *byte == b'\n') {
        number += 1;
        if !script.add(alloc, line)? {
            return Err(Ended::bad_line(number));
        }
    }
    Ok(script)
}

/// Reads a script whole.
///
/// An error says which: too long, unreadable, the first bad line, or out of memory.
pub fn script<R: Read>(alloc: Global, reader: &mut R) -> Result<Script, Ended>
    ensures ok { IfOk result (λ s. IfSome (R.remaining reader.old) (λ all. IsScript (lines all) s.capacities.items s.readings.items s.bodies.items)) }

    // No body has asked anything yet.
    ensures fresh { IfOk result (λ s. All (λ b. b.next ≡ 0) s.bodies.items) }

    ensures kinds { IfErr result (λ e. (is_of_input e.said || is_of_script e.said) ≡ true) }
    ensures first { IfErr result (λ e. (line : ℕ) → e.said ≡ BadLine line
        → IfSome (R.remaining reader.old) (λ all. IsFirstBadLine (lines all) line)) }
    ensures too_long { IfErr result (λ e. e.said ≡ InputTooLong
        → IfSome (R.remaining reader.old) (λ all. 1048576 < length all)) }

    // An input that is too long is said to be so, or unreadable, or memory ends before.
    ensures short_ok { IfOk result (λ _. IfSome (R.remaining reader.old) (λ all. length all ≤ 1048576)) }
    ensures short { IfErr result (λ e. is_of_input e.said ≡ false → IfSome (R.remaining reader.old) (λ all. length all ≤ 1048576)) }
{
    let text = input(alloc, reader, MAX_SCRIPT)?;
    parsed(alloc, &text)
}
