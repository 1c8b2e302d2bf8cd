//! Takes the input in parts. A part goes up to the first line that begins with `end `: each trace has one such line, and it is the last. No
//! clause says where a part is cut, for each is judged by its bytes alone: what is cut elsewhere can be refused, and nothing else comes of it.

ghost use Rattle.std.specs.Prelude.{◌≡◌, ◌≤◌, ◌<◌, ◌++◌, [], length, true, IfOk, IfErr, IfSome};
ghost use Rattle.std.specs.Io.KnownBytes.{Consumes, IsAtEnd};
ghost use Rattle.gmp_words.specs.Said.{is_of_input};
ghost use Rattle.gmp_words.specs.declared.said.Said.TheVariants.{InputTooLong};
ghost use Rattle.gmp_join_cli.specs.Takes.{left};

use gmp_words::{Ended, MAX_TRACE};
use std::alloc::{AllocError, Global};
use std::io::{ErrorKind, Read};
use std::mem;

/// As many bytes are read at a time.
const CHUNK: usize = 4096;

/// The place behind the first line of an end, or where the last line begins. The first line that is looked at begins at `line`, and has no
/// line feed before `from`.
fn line_of_end(bytes: &[u8], line: usize, from: usize) -> Result<usize, usize>
    requires { line ≤ length bytes.now }
    ensures found { IfOk result (λ n. (0 < n) × (n ≤ length bytes.now)) }
    ensures last { IfErr result (λ n. n ≤ length bytes.now) }
{
    let mut last = line;
    for i in from..bytes.len() {
        if bytes[i] == b'\n' {
            if bytes[last..].starts_with(b"end ") {
                return Ok(i + 1);
            }
            last = i + 1;
        }
    }
    Err(last)
}

/// Takes the first n bytes.
fn cut_off(alloc: Global, held: &mut Vec<u8>, n: usize) -> Result<Vec<u8>, AllocError>
    requires { n ≤ length held.old.items }
    ensures taken { IfOk result (λ part. held.old.items ≡ part.items ++ held.new.items) }
    ensures len { IfOk result (λ part. length part.items ≡ n) }
{
    let rest = Vec::from_slice(alloc, &held[n..])?;
    let mut part = mem::replace(held, rest);
    part.truncate(n);
    Ok(part)
}

/// The next part: what is to come up to the line of an end, or all of it. It is empty only where nothing is to come. What was read behind it
/// is held.
///
/// A read that was interrupted is tried again.
pub(crate) fn next_part<R: Read>(
    alloc: Global,
    reader: &mut R,
    held: &mut Vec<u8>,
) -> Result<Vec<u8>, Ended>
    ensures taken { IfOk result (λ part. Consumes (left held.old.items (R.remaining reader.old)) (left held.new.items (R.remaining reader.new)) part.items) }
    ensures last { IfOk result (λ part. part.items ≡ [] → IsAtEnd (left held.old.items (R.remaining reader.old))) }

    ensures kinds { IfErr result (λ e. is_of_input e.said ≡ true) }
    ensures too_long { IfErr result (λ e. e.said ≡ InputTooLong
        → IfSome (left held.old.items (R.remaining reader.old)) (λ all. MAX_TRACE < length all)) }
{
    let mut line = 0;
    let mut from = 0;
    let mut chunk = [0u8; CHUNK];
    'reads: for _ in 0..u64::MAX {
        match line_of_end(held, line, from) {
            Ok(n) if n <= MAX_TRACE => return Ok(cut_off(alloc, held, n)?),
            Ok(_) => return Err(Ended::too_long()),
            Err(last) => line = last,
        }
        from = held.len();
        if from > MAX_TRACE {
            return Err(Ended::too_long());
        }
        match reader.read(&mut chunk) {
            Ok(0) => return Ok(mem::replace(held, Vec::new(alloc))),
            Ok(n) => {
                if held.extend_from_slice(&chunk[..n]).is_err() {
                    return Err(Ended::out_of_memory());
                }
            }
            Err(error) => {
                if error.kind() != ErrorKind::Interrupted {
                    return Err(Ended::unreadable());
                }
            }
        }
    }
    Err(Ended::unreadable())
}
