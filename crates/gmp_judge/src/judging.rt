//! The reading of a trace, and the judging that goes with it: the same for each command that takes one.

ghost use Rattle.std.specs.Prelude.{◌≡◌, ◌||◌, None, true, IfErr, IfOk, IfSome, IsSomeAnd};
ghost use Rattle.gmp_trace.specs.declared.bad.Bad.{Bad};
ghost use Rattle.gmp_trace.specs.HasText.{HasText};
ghost use Rattle.gmp_trace.specs.Reading.{IsFault};
ghost use Rattle.gmp_trace.specs.Text.{content};
ghost use Rattle.gmp_parts.specs.Parts.{IsRightTrace};
ghost use Rattle.gmp_judge.specs.Judged.{IsJudged, IsRead, IsWrong, SaysOfTrace, said_of};
ghost use Rattle.gmp_words.specs.Said.{is_of_input, is_of_trace};
ghost use Rattle.gmp_words.specs.declared.said.Said.TheVariants.{BadTrace, Nothing, OutOfMemory};

use crate::progress::Progress;
use gmp_check::check_view;
use gmp_trace::{Bad, Trace, Why, read_watched};
use gmp_words::{Ended, MAX_TRACE, input};
use std::alloc::Global;
use std::io::Read;

/// A trace that was read, and whether it is right.
#[derive(Drop)]
pub struct Judgement {
    pub trace: Trace,
    /// The first wrong line, if one is.
    pub wrong: Option<Bad>,
}

impl Judgement {
    /// The trace, judged. An error is want of memory.
    fn of<P: Progress>(alloc: Global, trace: Trace, progress: &mut P) -> Result<Self, Ended>
        requires { HasText (content trace) }
        ensures trace { IfOk result (λ found. found.trace ≡ trace) }
        ensures judged { IfOk result (λ found. IsJudged (content trace) found.wrong) }
        ensures memory { IfErr result (λ e. e.said ≡ OutOfMemory) }
    {
        match check_view(alloc, trace.view(), progress) {
            Ok(_) => Ok(Judgement { trace, wrong: None }),
            Err(bad) => match bad.why {
                Why::OutOfMemory => Err(Ended::out_of_memory()),
                _ => Ok(Judgement {
                    trace,
                    wrong: Some(bad),
                }),
            },
        }
    }

    /// The trace, if it is right, or how a command ends that takes no other.
    pub fn right(self) -> Result<Trace, Ended>
        requires { IsJudged (content self.trace) self.wrong }
        ensures right { IfOk result (λ trace. IsRightTrace (content trace)) }
        ensures trace { IfOk result (λ trace. trace ≡ self.trace) }
        ensures none { IfOk result (λ _. self.wrong ≡ None) }

        ensures kinds { IfErr result (λ e. is_of_trace e.said ≡ true) }
        ensures wrong { IfErr result (λ e. IsSomeAnd self.wrong (λ bad. e.said ≡ BadTrace bad)) }
    {
        match self.wrong {
            None => Ok(self.trace),
            Some(bad) => Err(Ended::bad_trace(bad)),
        }
    }
}

/// The trace whose text the bytes are, right or not.
/// Progress ends with it, whatever came of it, so that a line that is shown is gone before anything is written.
fn judge<P: Progress>(alloc: Global, bytes: &[u8], progress: &mut P) -> Result<Judgement, Ended>
    ensures judged { IfOk result (λ found. IsJudged (content found.trace) found.wrong) }
    ensures read { IfOk result (λ found. IsRead bytes.now (content found.trace)) }
    ensures text { IfOk result (λ found. HasText (content found.trace)) }
    ensures wrong { IfOk result (λ found. IfSome found.wrong (IsWrong bytes.now)) }

    ensures kinds { IfErr result (λ e. is_of_trace e.said ≡ true) }
    ensures bad { IfErr result (λ e. (bad : Bad) → e.said ≡ BadTrace bad → IsWrong bytes.now bad) }
    ensures unread { IfErr result (λ e. (bad : Bad) → e.said ≡ BadTrace bad → IsFault bytes.now bad.line bad.why) }
{
    progress.begin(bytes.len());
    let found = match read_watched(alloc, bytes, progress) {
        Ok(trace) => Judgement::of(alloc, trace, progress),
        Err(bad) => Err(Ended::from(bad)),
    };
    progress.end();
    found
}

/// The right trace whose text the bytes are, or how `check` ends on them.
pub fn judged<P: Progress>(alloc: Global, bytes: &[u8], progress: &mut P) -> Result<Trace, Ended>
    ensures right { IfOk result (λ trace. IsRightTrace (content trace)) }
    ensures read { IfOk result (λ trace. IsRead bytes.now (content trace)) }

    ensures kinds { IfErr result (λ e. is_of_trace e.said ≡ true) }
    ensures wrong { IfErr result (λ e. (bad : Bad) → e.said ≡ BadTrace bad → IsWrong bytes.now bad) }
{
    judge(alloc, bytes, progress)?.right()
}

/// Reads a trace, right or not, and judges it. Nothing is told of its progress behind that.
///
/// An error is how `check` ends on an input that isn't had, or is no trace's text, and for want of memory.
pub fn read_trace<R: Read, P: Progress>(
    alloc: Global,
    reader: &mut R,
    progress: &mut P,
) -> Result<Judgement, Ended>
    ensures judged { IfOk result (λ found. IsJudged (content found.trace) found.wrong) }
    ensures read { IfOk result (λ found. IfSome (R.remaining reader.old) (λ all. IsRead all (content found.trace))) }
    // No other trace has that text.
    ensures text { IfOk result (λ found. HasText (content found.trace)) }
    ensures wrong { IfOk result (λ found. SaysOfTrace (R.remaining reader.old) (said_of found.wrong)) }

    ensures kinds { IfErr result (λ e. (is_of_input e.said || is_of_trace e.said) ≡ true) }
    ensures says { IfErr result (λ e. SaysOfTrace (R.remaining reader.old) e.said) }
    ensures unread { IfErr result (λ e. (bad : Bad) → e.said ≡ BadTrace bad → IfSome (R.remaining reader.old) (λ all. IsFault all bad.line bad.why)) }
{
    let bytes = input(alloc, reader, MAX_TRACE)?;
    judge(alloc, &bytes, progress)
}

/// Reads a right trace. Nothing is told of its progress behind that.
///
/// An error is how `check` ends on the input.
pub fn right_trace<R: Read, P: Progress>(
    alloc: Global,
    reader: &mut R,
    progress: &mut P,
) -> Result<Trace, Ended>
    ensures right { IfOk result (λ trace. IsRightTrace (content trace)) }
    ensures read { IfOk result (λ trace. IfSome (R.remaining reader.old) (λ all. IsRead all (content trace))) }
    ensures short { IfOk result (λ _. SaysOfTrace (R.remaining reader.old) Nothing) }

    ensures kinds { IfErr result (λ e. (is_of_input e.said || is_of_trace e.said) ≡ true) }
    ensures says { IfErr result (λ e. SaysOfTrace (R.remaining reader.old) e.said) }
{
    read_trace(alloc, reader, progress)?.right()
}
