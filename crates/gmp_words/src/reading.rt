//! Reads the input whole, up to a limit. A loop with a bound, so that it can be shown to end whatever the reader does.

ghost use Rattle.std.specs.Prelude.{◌≡◌, ◌≤◌, ◌<◌, length, true, IfOk, IfErr, IfSome};
ghost use Rattle.gmp_words.specs.Said.{is_of_input};
ghost use Rattle.gmp_words.specs.declared.said.Said.TheVariants.{InputTooLong};

use crate::ended::Ended;
use std::alloc::Global;
use std::io::{ErrorKind, Read};

/// The most bytes that a script may have.
pub const MAX_SCRIPT: usize = 1_048_576;

/// The most bytes that a trace may have.
pub const MAX_TRACE: usize = 1_073_741_824;

/// All that the reader has left, if that is no more than `most` bytes.
///
/// A read that was interrupted is tried again. On an error the reader is somewhere within its input.
pub fn input<R: Read>(alloc: Global, reader: &mut R, most: usize) -> Result<Vec<u8>, Ended>
    ensures whole { IfOk result (λ text. IfSome (R.remaining reader.old) (λ all. text.items ≡ all)) }
    ensures short { IfOk result (λ text. length text.items ≤ most) }

    ensures kinds { IfErr result (λ e. is_of_input e.said ≡ true) }
    ensures too_long { IfErr result (λ e. e.said ≡ InputTooLong
        → IfSome (R.remaining reader.old) (λ all. most < length all)) }
{
    let mut text = Vec::new(alloc);
    let mut chunk = [0u8; 4096];
    'reads: for _ in 0..u64::MAX {
        match reader.read(&mut chunk) {
            Ok(0) => return Ok(text),
            Ok(n) => {
                // So an input is known to be too long as soon as it is, and no more of it is read.
                if n > most - text.len() {
                    return Err(Ended::too_long());
                }
                if text.extend_from_slice(&chunk[..n]).is_err() {
                    return Err(Ended::out_of_memory());
                }
            }
            Err(error) => {
                if error.kind() != ErrorKind::Interrupted {
                    return Err(Ended::unreadable());
                }
            }
        }
    }
    Err(Ended::unreadable())
}
