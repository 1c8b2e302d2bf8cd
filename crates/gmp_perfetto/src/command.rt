//! The command `draw --perfetto` as a function: it reads and checks a trace as `check` does, and writes it as the Trace Event format.
ghost use Rattle.std.specs.Prelude.{◌≡◌, ◌≢◌, ◌↔◌, true, IfSome};
ghost use Rattle.gmp_judge.specs.Judged.{HasRightTrace, SaysOfTrace};
ghost use Rattle.gmp_perfetto.specs.Json.{WritesJson};
ghost use Rattle.gmp_words.specs.Said.{is_of_check};
ghost use Rattle.gmp_words.specs.declared.said.Said.TheVariants.{Nothing, OutputFailed};

use crate::document::text_of;
use gmp_judge::{Progress, right_trace};
use gmp_lanes::Range;
use gmp_words::Ended;
use std::alloc::Global;
use std::io::{Read, Write};

/// Reads a trace, checks it, and writes its entries from `from` on to before `to` as one JSON object; where `to` is the greatest number, of
/// 5,000 at most. What is told of its progress ends before anything is written.
///
/// It ends with what is wrong where something is: the input, the first bad line, the output, or memory.
pub fn perfetto<R: Read, W: Write, P: Progress>(
    alloc: Global,
    from: u64,
    to: u64,
    reader: &mut R,
    writer: &mut W,
    progress: &mut P,
) -> Ended
    ensures passed { result.said ≡ Nothing → IfSome (R.remaining reader.old) HasRightTrace }
    ensures json { result.said ≡ Nothing → WritesJson (W.contents writer.old) (W.contents writer.new) }
    ensures status { result.status ≡ 0 ↔ result.said ≡ Nothing }

    // What is wrong is said by one of the program's own texts, and nothing is written but where the output fails.
    ensures kinds { is_of_check result.said ≡ true }
    ensures quiet { result.said ≢ Nothing → result.said ≢ OutputFailed → W.contents writer.new ≡ W.contents writer.old }
    ensures failed { result.said ≡ OutputFailed → IfSome (R.remaining reader.old) HasRightTrace }

    // A line that is called bad is, and so is an input that is called too long.
    ensures says { SaysOfTrace (R.remaining reader.old) result.said }
{
    let trace = match right_trace(alloc, reader, progress) {
        Ok(trace) => trace,
        Err(ended) => return ended,
    };
    let first = trace.view().beginning.first_number();
    let range = Range::asked(first, from, to);
    let Ok(text) = text_of(alloc, trace.view(), first, range) else {
        return Ended::out_of_memory();
    };
    match writer.write_all(text.as_bytes()) {
        Ok(()) => Ended::passed(),
        Err(_) => Ended::output_failed(),
    }
}
