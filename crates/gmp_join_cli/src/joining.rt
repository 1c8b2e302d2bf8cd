//! The run in parts: one part after another is judged. What is known of those before is where the last one stops, and how long they are
//! together.

ghost use Rattle.std.specs.Prelude.{◌≡◌, ◌≢◌, ◌↔◌, ℕ, ◌+◌, ◌<◌, [], ◌||◌, ◌^◌, true, false, IfErr, IfOk, IfSome, IsTrue, Option};
ghost use Rattle.gmp_seq.specs.declared.call.Outcome.{Outcome};
ghost use Rattle.gmp_trace.specs.declared.bad.Bad.{Bad};
ghost use Rattle.gmp_trace.specs.Text.{content};
ghost use Rattle.gmp_check.specs.Checked.{IsRight};
ghost use Rattle.gmp_parts.specs.Parts.{Follows, IsRightTrace, Parts};
ghost use Rattle.gmp_judge.specs.Judged.{IsBadLine, IsRead, IsWrong};
ghost use Rattle.gmp_words.specs.Said.{is_of_input, is_of_join, is_of_next, is_of_part, is_of_trace};
ghost use Rattle.gmp_words.specs.declared.said.Said.TheVariants.{Apart, BadPart, BadTrace, InputTooLong, Nothing, OutputFailed};
ghost use Rattle.gmp_join_cli.specs.Join.{HasRunInParts, IsApart, IsBadPart, IsLongBehind, IsNextApart, IsTold, JoinsNext, Tells, WritesJoined};

use crate::stopping::{Stop, goes_on, stop_of};
use crate::taking::next_part;
use gmp_judge::{Progress, judged};
use gmp_parts::tell;
use gmp_trace::{Bad, Trace, Why};
use gmp_words::{Ended, MAX_TRACE, Said};
use std::alloc::{AllocError, Global};
use std::io::{Read, Write};

/// What `check` says of an input without a byte.
const EMPTY: Bad = Bad {
    line: 1,
    why: Why::Header,
};

/// How it ends where a part is not right: as `check` ends on it, with the number of the part.
fn in_part(number: u64, ended: &Ended) -> Ended
    requires { is_of_trace ended.now.said ≡ true }
    ensures kinds { is_of_part result.said ≡ true }
    ensures bad { (n : ℕ) (bad : Bad) → result.said ≡ BadPart n bad → (n ≡ number) × (ended.now.said ≡ BadTrace bad) }
{
    match &ended.said {
        Said::BadTrace(bad) => Ended::bad_part(number, *bad),
        _ => Ended::out_of_memory(),
    }
}

/// The right trace whose text the part is. The part's bytes are gone with it.
fn right_part<P: Progress>(
    alloc: Global,
    number: u64,
    bytes: Vec<u8>,
    progress: &mut P,
) -> Result<Trace, Ended>
    ensures right { IfOk result (λ trace. IsRightTrace (content trace)) }
    ensures read { IfOk result (λ trace. IsRead bytes.items (content trace)) }
    ensures kinds { IfErr result (λ e. is_of_part e.said ≡ true) }
    ensures bad { IfErr result (λ e. (n : ℕ) (bad : Bad) → e.said ≡ BadPart n bad
        → (n ≡ number) × IsWrong bytes.items bad) }
{
    match judged(alloc, &bytes, progress) {
        Ok(trace) => Ok(trace),
        Err(ended) => Err(in_part(number, &ended)),
    }
}

/// What is known of the parts that were judged.
#[derive(Drop)]
struct Joined {
    /// How many entries they have together.
    entries: u64,
    /// How many they are.
    parts: u64,
    /// Where the last one stops. None before the first.
    last: Option<Stop>,
}

impl Joined {
    /// Whether a right trace may be the next part: the first may be any, and another one goes on where the one before stops.
    fn may_have(&self, alloc: Global, trace: &Trace) -> Result<bool, AllocError>
        requires { (o : Option Outcome) × IsRight (content trace.now) o }
        ensures meets { IfOk result (λ b. IsTrue b → (parts : Parts) → Tells self.now parts → Follows parts (content trace.now)) }
        ensures apart { IfOk result (λ b. b ≡ false → (parts : Parts) → Tells self.now parts → Follows parts (content trace.now) → ⊥) }
    {
        match &self.last {
            Some(last) => goes_on(alloc, last, trace),
            None => Ok(true),
        }
    }

    /// The parts with one more, if that is right and goes on where they stop.
    fn with<P: Progress>(
        self,
        alloc: Global,
        bytes: Vec<u8>,
        progress: &mut P,
    ) -> Result<Joined, Ended>
        requires told { (parts : Parts) × Tells self parts }
        requires few { self.parts + 1 < 2 ^ 64 }
        ensures joined { IfOk result (λ joined. (parts : Parts) → Tells self parts → JoinsNext joined parts bytes.items) }
        ensures one_more { IfOk result (λ joined. joined.parts ≡ self.parts + 1) }

        ensures kinds { IfErr result (λ e. is_of_next e.said ≡ true) }
        ensures bad { IfErr result (λ e. (n : ℕ) (bad : Bad) → e.said ≡ BadPart n bad
            → (n ≡ self.parts + 1) × IsWrong bytes.items bad) }
        ensures apart { IfErr result (λ e. (n : ℕ) → e.said ≡ Apart n
            → (n ≡ self.parts + 1) × ((parts : Parts) → Tells self parts → IsNextApart parts bytes.items)) }
    {
        let number = self.parts + 1;
        let trace = right_part(alloc, number, bytes, progress)?;
        if !self.may_have(alloc, &trace)? {
            return Err(Ended::apart(number));
        }
        let Ok(last) = stop_of(alloc, &trace) else {
            return Err(Ended::out_of_memory());
        };
        Ok(Joined {
            entries: self.entries + trace.entries.len() as u64,
            parts: number,
            last: Some(last),
        })
    }
}

/// What is known of all parts that the reader has.
fn all_parts<R: Read, P: Progress>(
    alloc: Global,
    reader: &mut R,
    progress: &mut P,
) -> Result<Joined, Ended>
    ensures told { IfOk result (IsTold (R.remaining reader.old)) }

    ensures kinds { IfErr result (λ e. (is_of_input e.said || is_of_next e.said) ≡ true) }
    ensures first { IfErr result (λ e. (n : ℕ) (bad : Bad) → e.said ≡ BadPart n bad → IfSome (R.remaining reader.old) (IsBadPart n bad)) }
    ensures apart { IfErr result (λ e. (n : ℕ) → e.said ≡ Apart n → IfSome (R.remaining reader.old) (IsApart n)) }
    ensures too_long { IfErr result (λ e. e.said ≡ InputTooLong → IfSome (R.remaining reader.old) (IsLongBehind MAX_TRACE)) }
{
    let mut held = Vec::new(alloc);
    let mut joined = Joined {
        entries: 0,
        parts: 0,
        last: None,
    };
    'parts: for _ in 0..u64::MAX {
        let bytes = next_part(alloc, reader, &mut held)?;
        if bytes.is_empty() {
            return Ok(joined);
        }
        joined = joined.with(alloc, bytes, progress)?;
    }
    Err(Ended::unreadable())
}

/// Reads the parts of a run, one behind another, and judges each as `check` does; each but the first has to go on where the one before
/// stops. Then it writes how the last one ends, how many entries they have together, and how many they are.
///
/// It ends with what is wrong where something is: the input, the first part that is not right, with its first bad line, counted from its
/// own first line; the first part that doesn't go on; the output; or memory. An input without a byte is refused as `check` refuses it.
pub fn join<R: Read, W: Write, P: Progress>(
    alloc: Global,
    reader: &mut R,
    writer: &mut W,
    progress: &mut P,
) -> Ended
    ensures passed { result.said ≡ Nothing → WritesJoined (R.remaining reader.old) (W.contents writer.old) (W.contents writer.new) }
    ensures status { result.status ≡ 0 ↔ result.said ≡ Nothing }

    // What is wrong is said by one of the program's own texts, and nothing is written but where the output fails.
    ensures kinds { is_of_join result.said ≡ true }
    ensures quiet { result.said ≢ Nothing → result.said ≢ OutputFailed → W.contents writer.new ≡ W.contents writer.old }
    // The output is tried last: what was read is a run in parts.
    ensures failed { result.said ≡ OutputFailed → IfSome (R.remaining reader.old) HasRunInParts }

    ensures empty { (bad : Bad) → result.said ≡ BadTrace bad → IfSome (R.remaining reader.old) (λ all. (all ≡ []) × IsBadLine all bad) }
    ensures first { (n : ℕ) (bad : Bad) → result.said ≡ BadPart n bad → IfSome (R.remaining reader.old) (IsBadPart n bad) }
    ensures apart { (n : ℕ) → result.said ≡ Apart n → IfSome (R.remaining reader.old) (IsApart n) }
    ensures too_long { result.said ≡ InputTooLong → IfSome (R.remaining reader.old) (IsLongBehind MAX_TRACE) }
{
    let joined = match all_parts(alloc, reader, progress) {
        Ok(joined) => joined,
        Err(ended) => return ended,
    };
    let Some(last) = &joined.last else {
        return Ended::bad_trace(EMPTY);
    };
    match tell(alloc, last.end, joined.entries, joined.parts, writer) {
        Ok(()) => Ended::passed(),
        Err(error) => Ended::from(error),
    }
}
