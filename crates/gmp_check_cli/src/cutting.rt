//! A part of a trace: it begins at the state before its first entry, so anybody can check it alone.

ghost use Rattle.std.specs.Prelude.{◌≡◌, ◌↔◌, true, IfSome};
ghost use Rattle.gmp_judge.specs.Judged.{SaysOfTrace};
ghost use Rattle.gmp_check_cli.specs.Cut.{HasNoPart, HasPart, WritesPart};
ghost use Rattle.gmp_words.specs.Said.{is_before_writing, is_of_cut};
ghost use Rattle.gmp_words.specs.declared.said.Said.TheVariants.{BadLimits, Nothing, OutputFailed};

use gmp_check::{SplitError, split};
use gmp_judge::right_trace;
use gmp_trace::write;
use gmp_words::Ended;
use std::alloc::Global;
use std::io::{Read, Write};

/// Reads a trace, checks it, and writes the part of it from entry `at` on, counted from 0 at the trace's own first entry: a trace that
/// begins at the state before that entry.
///
/// It ends with what is wrong where something is: the input, the first bad line, no such part, the output, or memory.
pub fn cut<R: Read, W: Write>(alloc: Global, at: u64, reader: &mut R, writer: &mut W) -> Ended
    ensures passed { result.said ≡ Nothing → WritesPart at (R.remaining reader.old) (W.contents writer.old) (W.contents writer.new) }
    ensures status { result.status ≡ 0 ↔ result.said ≡ Nothing }

    // What is wrong is said by one of the program's own texts, and nothing is written but where the output or memory fails.
    ensures kinds { is_of_cut result.said ≡ true }
    ensures quiet { is_before_writing result.said ≡ true → W.contents writer.new ≡ W.contents writer.old }

    ensures failed { result.said ≡ OutputFailed → IfSome (R.remaining reader.old) (HasPart at) }
    ensures past { result.said ≡ BadLimits → IfSome (R.remaining reader.old) (HasNoPart at) }

    // A line that is called bad is, and so is an input that is called too long.
    ensures says { SaysOfTrace (R.remaining reader.old) result.said }
{
    let trace = match right_trace(alloc, reader, &mut ()) {
        Ok(trace) => trace,
        Err(ended) => return ended,
    };
    let part = match split(alloc, &trace, at) {
        Ok(part) => part,
        // No such part is an error of the command line, and not of the trace.
        Err(SplitError::Past) => return Ended::bad_limits(),
        Err(SplitError::OutOfMemory) => return Ended::out_of_memory(),
    };
    match write(alloc, &part, writer) {
        Ok(()) => Ended::passed(),
        Err(error) => Ended::from(error),
    }
}
