//! The check of a trace.

ghost use Rattle.std.specs.Prelude.{◌≡◌, ◌≢◌, ◌↔◌, true, IfSome};
ghost use Rattle.gmp_check_cli.specs.Check.{WritesSummary};
ghost use Rattle.gmp_judge.specs.Judged.{HasRightTrace, SaysOfTrace};
ghost use Rattle.gmp_words.specs.Said.{is_of_check};
ghost use Rattle.gmp_words.specs.declared.said.Said.TheVariants.{Nothing, OutputFailed};

use gmp_judge::{Progress, right_trace};
use gmp_trace::summary;
use gmp_words::Ended;
use std::alloc::Global;
use std::io::{Read, Write};

/// Reads a trace, checks it, and writes its summary. What is told of its progress ends before anything is written.
///
/// It ends with what is wrong where something is: the input, the first bad line, the output, or memory.
pub fn check<R: Read, W: Write, P: Progress>(
    alloc: Global,
    reader: &mut R,
    writer: &mut W,
    progress: &mut P,
) -> Ended
    ensures passed { result.said ≡ Nothing → WritesSummary (R.remaining reader.old) (W.contents writer.old) (W.contents writer.new) }
    ensures status { result.status ≡ 0 ↔ result.said ≡ Nothing }

    // What is wrong is said by one of the program's own texts, and nothing is written but where the output fails.
    ensures kinds { is_of_check result.said ≡ true }
    ensures quiet { result.said ≢ Nothing → result.said ≢ OutputFailed → W.contents writer.new ≡ W.contents writer.old }
    // The output is tried last: what was read is the text of a right trace.
    ensures failed { result.said ≡ OutputFailed → IfSome (R.remaining reader.old) HasRightTrace }

    // A line that is called bad is, and so is an input that is called too long.
    ensures says { SaysOfTrace (R.remaining reader.old) result.said }
{
    let trace = match right_trace(alloc, reader, progress) {
        Ok(trace) => trace,
        Err(ended) => return ended,
    };
    match summary(alloc, &trace, writer) {
        Ok(()) => Ended::passed(),
        Err(error) => Ended::from(error),
    }
}
