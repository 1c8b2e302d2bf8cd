//! Reads a whole trace, line by line, into a `Trace`; or says the first bad line.
//! `First` is where entries begin, behind the lines of either version.

ghost use Rattle.std.specs.Prelude.{◌≡◌, ◌≢◌, ◌↔◌, ◌+◌, ◌<◌, ◌≤◌, ◌++◌, ◌^◌, [], true, ℕ, List, IsTrue, IfOk, IfErr, IfSome, IsSomeAnd, MatchOption, MatchResult, slice_index};
ghost use Rattle.gmp_base.specs.declared.number.MNo.{MNo};
ghost use Rattle.gmp_seq.specs.declared.call.Entry.{Entry};
ghost use Rattle.gmp_seq.specs.declared.call.Limits.{Limits};
ghost use Rattle.gmp_seq.specs.Fits.{AreLimits};
ghost use Rattle.gmp_seq.specs.State.{State};
ghost use Rattle.gmp_start.specs.Start.{state_of};
ghost use Rattle.gmp_trace.specs.declared.trace.End.{End};
ghost use Rattle.gmp_trace.specs.declared.trace.Version.{Version};
ghost use Rattle.gmp_trace.specs.Beginning.{BeginsSo, IsFirst, IsSmall};
ghost use Rattle.gmp_trace.specs.HasText.{HasText, Origin, answers, origin, turns};
ghost use Rattle.gmp_trace.specs.Pieces.{capacities_text, end_text, entries_text, entry_text, limits_text};
ghost use Rattle.gmp_trace.specs.Reading.{AreEntries, HasLimits, IsBody, IsBodyFault, IsEntry, IsFault, IsHeaderFault, IsLastFault, IsNext};
ghost use Rattle.gmp_trace.specs.StartWhole.{IsStart};
ghost use Rattle.gmp_trace.specs.Text.{Begins, Content, IsCounted, begins_at, begins_text, content, header, start_version, suits, text};
ghost use Rattle.gmp_trace.specs.Text.Begins.{AtOpening, AtState};

use crate::at::{behind, blank, capacities_at, end_at, entry_at, limits_at};
use crate::bad::{Bad, Why};
use crate::start::{begin_line, read_whole_start};
use crate::trace::{Beginning, End, Trace, Version};
use crate::watch::{Watch, Work, tell};
use gmp_base::Fault;
use gmp_history::History;
use gmp_seq::{Call, Entry, Limits, Reply};
use gmp_start::Start;
use std::alloc::{AllocError, Global};

/// What is said where memory was refused: of no line.
const OUT_OF_MEMORY: Bad = Bad {
    line: 0,
    why: Why::OutOfMemory,
};

/// The limits in range, and of this version, whose line the text begins with, and the text behind it.
fn allowed_limits_at<'a>(
    version: Version,
    text: &'a [u8],
    words: &mut Vec<&'a [u8]>,
    line: &mut Vec<u8>,
) -> Result<Option<(Limits, u16, &'a [u8])>, AllocError>
    ensures found { IfOk result (λ o. IfSome o (λ r. (text.now ≡ limits_text r.0 r.1 ++ r.2.now) × AreLimits r.0 r.1 [] × (suits version r.0 ≡ true))) }
    ensures only { IfOk result (λ o. (limits : Limits) (bodies : ℕ) (more : List ℕ) → AreLimits limits bodies [] → suits version limits ≡ true → text.now ≡ limits_text limits bodies ++ more
        → IsSomeAnd o (λ r. (r.0 ≡ limits) × (r.1 ≡ bodies) × (r.2.now ≡ more))) }
{
    let Some((limits, bodies, rest)) = limits_at(text, words, line)? else {
        return Ok(None);
    };
    if !limits.allow(usize::from(bodies), &[]) {
        return Ok(None);
    }
    if !version.suits(&limits) {
        return Ok(None);
    }
    Ok(Some((limits, bodies, rest)))
}

/// The capacities within the limits whose line the text begins with, and the text behind it.
fn allowed_capacities_at<'a>(
    alloc: Global,
    limits: Limits,
    bodies: u16,
    text: &'a [u8],
    words: &mut Vec<&'a [u8]>,
    line: &mut Vec<u8>,
) -> Result<Option<(Vec<u32>, &'a [u8])>, AllocError>
    ensures found { IfOk result (λ o. IfSome o (λ r. (text.now ≡ capacities_text r.0.items ++ r.1.now) × AreLimits limits bodies r.0.items)) }
    ensures only { IfOk result (λ o. (capacities : List ℕ) (more : List ℕ) → AreLimits limits bodies capacities → text.now ≡ capacities_text capacities ++ more
        → IsSomeAnd o (λ r. (r.0.items ≡ capacities) × (r.1.now ≡ more))) }
{
    let Some((capacities, rest)) = capacities_at(alloc, text, words, line)? else {
        return Ok(None);
    };
    if !limits.allow(usize::from(bodies), &capacities) {
        return Ok(None);
    }
    Ok(Some((capacities, rest)))
}

/// May the call be answered so?
/// Every reply has a spelling, but not every call has every reply: a send is never answered `parked`.
fn is_answered(call: &Call, reply: &Reply) -> bool
    ensures { result ≡ answers call.now reply.now }
{
    match call {
        Call::Acquire => matches!(reply, Reply::Proc(_) | Reply::Nothing),
        Call::Take => matches!(reply, Reply::Ticket(_) | Reply::Nothing),
        Call::Put(_) => matches!(reply, Reply::Shelf),
        Call::Claim(_) => matches!(reply, Reply::Held),
        Call::Go(_) => matches!(
            reply,
            Reply::Ticket(_) | Reply::Fault(Fault::NoSuchBody | Fault::AlreadyStarted)
        ),
        Call::Spawn => matches!(reply, Reply::Ticket(_) | Reply::Fault(Fault::NoSuchBody)),
        Call::Yield => matches!(reply, Reply::Shelved(_)),
        Call::Exit => matches!(reply, Reply::Dead | Reply::MainEnded),
        Call::Make(_) => matches!(
            reply,
            Reply::Channel(_) | Reply::Fault(Fault::BadCapacity | Fault::TooManyChannels)
        ),
        Call::Send(..) => matches!(
            reply,
            Reply::Sent(_) | Reply::Waits | Reply::Fault(Fault::NoSuchChannel | Fault::SendOnClosed)
        ),
        Call::Recv(_) => matches!(
            reply,
            Reply::Got(..) | Reply::Waits | Reply::Fault(Fault::NoSuchChannel)
        ),
        Call::Close(_) => matches!(
            reply,
            Reply::Closed(_)
                | Reply::Fault(Fault::NoSuchChannel | Fault::CloseOfClosed | Fault::CloseOfNil)
        ),
        Call::Len(_) | Call::Cap(_) => matches!(
            reply,
            Reply::Number(_) | Reply::Fault(Fault::NoSuchChannel)
        ),
        Call::Procs(_) => matches!(reply, Reply::Number(_) | Reply::Fault(Fault::BadProcs)),
        Call::Select(..) => matches!(
            reply,
            Reply::Chose(..) | Reply::Default | Reply::Waits | Reply::Fault(Fault::NoSuchChannel)
        ),
        Call::Sleep(_) | Call::Gopark => matches!(reply, Reply::Waits),
        Call::Ready(_) => matches!(
            reply,
            Reply::Ticket(_) | Reply::Fault(Fault::NoSuchBody | Fault::NotParked)
        ),
        Call::Enter => matches!(reply, Reply::Entered(..)),
        Call::Leave(_) => matches!(reply, Reply::Runs(_) | Reply::Shelved(_)),
        Call::Spin | Call::Woken | Call::Keep => matches!(reply, Reply::Answer(_)),
        Call::Unspin | Call::Bare => matches!(reply, Reply::Done),
        Call::Poke => matches!(reply, Reply::Wakes(_) | Reply::Nothing),
        Call::Declare => matches!(reply, Reply::Idle(_)),
        Call::Park => matches!(
            reply,
            Reply::Parked | Reply::Work | Reply::Mind(_) | Reply::AllAsleep | Reply::LookAgain
        ),
        Call::Tick(_) => matches!(reply, Reply::Woke(_)),
    }
}

/// Reads the entry by the table whose line the text begins with. It answers the number before it, and the text behind the line.
fn answered_at<'a>(
    text: &'a [u8],
    words: &mut Vec<&'a [u8]>,
    line: &mut Vec<u8>,
    entry: &mut Entry,
) -> Result<Option<(u64, &'a [u8])>, AllocError>
    ensures found { IfOk result (λ o. IfSome o (λ r. (text.now ≡ entry_text r.0 entry.new ++ r.1.now) × IsEntry r.0 entry.new)) }
    ensures only { IfOk result (λ o. (n : ℕ) (e : Entry) (more : List ℕ) → IsEntry n e → text.now ≡ entry_text n e ++ more
        → IsSomeAnd o (λ r. (r.0 ≡ n) × (entry.new ≡ e) × (r.1.now ≡ more))) }
{
    let Some((n, rest)) = entry_at(text, words, line, entry)? else {
        return Ok(None);
    };
    if !is_answered(&entry.call, &entry.reply) {
        return Ok(None);
    }
    Ok(Some((n, rest)))
}

/// The end that the text says behind so many lines.
fn last<'a>(
    lines: u64,
    text: &'a [u8],
    words: &mut Vec<&'a [u8]>,
    line: &mut Vec<u8>,
) -> Result<End, Bad>
    requires { lines < 2 ^ 63 }
    ensures found { IfOk result (λ end. text.now ≡ end_text end) }
    ensures only { (end : End) → text.now ≡ end_text end → MatchResult result (λ e. e ≡ end) (λ bad. bad.why ≡ Why.OutOfMemory) }
    ensures fault { IfErr result (λ bad. IsLastFault lines text.now bad.line bad.why) }
{
    let Ok(found) = end_at(text, words, line) else {
        return Err(OUT_OF_MEMORY);
    };
    let Some((end, more)) = found else {
        return Err(Bad {
            line: lines + 1,
            why: Why::Grammar,
        });
    };
    if !more.is_empty() {
        return Err(Bad {
            line: lines + 2,
            why: Why::Extra,
        });
    }
    Ok(end)
}

/// Where the entries of a text begin.
#[derive(Drop)]
struct First {
    machines: u8,
    /// The first entry's number.
    number: u64,
    /// How many lines stand before it.
    lines: u64,
    /// How many entries each machine made before it.
    made: [u64; 64],
}

/// The entry's number is the next, the machine is there, and this is its next entry.
fn is_next(machines: u8, counts: &[u64; 64], next: u64, n: u64, entry: &Entry) -> bool
    requires { machines ≤ 64 }
    ensures { (from : Origin) (es : List Entry) → from.machines ≡ machines
        → ((m : MNo) → m.0 < 64 → slice_index counts.now m.0 ≡ from.made m + turns m es)
        → IsTrue result ↔ ((n ≡ next) × IsNext from es entry.now) }
{
    let m = entry.m.0;
    n == next && m < machines && counts[usize::from(m)] == entry.k
}

/// The entries and the end that a text says behind the lines before the first entry.
fn body<W: Watch>(
    alloc: Global,
    first: &First,
    text: &[u8],
    watch: &mut W,
) -> Result<(History, End), Bad>
    requires { IsSmall first.now }
    ensures found { IfOk result (λ r. (from : Origin) → IsFirst first.now from
        → AreEntries from r.0.list × (text.now ≡ entries_text from.number r.0.list ++ end_text r.1)) }
    ensures only { (from : Origin) (es : List Entry) (end : End) → IsFirst first.now from → IsBody from text.now es end
        → MatchResult result (λ r. (r.0.list ≡ es) × (r.1 ≡ end)) (λ bad. bad.why ≡ Why.OutOfMemory) }
    ensures fault { IfErr result (λ bad. (from : Origin) → IsFirst first.now from → IsBodyFault from text.now bad.line bad.why) }
{
    let mut entries = History::new(alloc);
    let mut entry = blank();
    let mut counts = first.made;
    let mut words = Vec::new(alloc);
    let mut line = Vec::new(alloc);
    let mut rest = text;
    // A line each, until one is no entry: then it is the end, or bad.
    while !rest.is_empty() {
        let read = entries.len() as u64;
        tell(watch, Work::Reading, read);
        let Ok(found) = answered_at(rest, &mut words, &mut line, &mut entry) else {
            return Err(OUT_OF_MEMORY);
        };
        let Some((n, more)) = found else {
            return match last(first.lines + read, rest, &mut words, &mut line) {
                Ok(end) => Ok((entries, end)),
                Err(bad) => Err(bad),
            };
        };
        if !is_next(first.machines, &counts, first.number + read, n, &entry) {
            return Err(Bad {
                line: first.lines + read + 1,
                why: Why::Number,
            });
        }
        counts[usize::from(entry.m.0)] += 1;
        let Ok(()) = entries.make_room() else {
            return Err(OUT_OF_MEMORY);
        };
        entries.push(entry.m, entry.k, &entry.call, &entry.reply);
        rest = more;
    }
    Err(Bad {
        line: first.lines + entries.len() as u64 + 1,
        why: Why::End,
    })
}

/// The version in line 1, and the text behind the line.
fn version_at(text: &[u8]) -> Option<(Version, &[u8])>
    ensures { MatchOption result (IsHeaderFault text.now) (λ r. text.now ≡ header r.0 ++ r.1.now) }
{
    if let Some(rest) = behind(text, b"gmp-trace 1\n") {
        return Some((Version::One, rest));
    }
    if let Some(rest) = behind(text, b"gmp-trace 2\n") {
        return Some((Version::Two, rest));
    }
    match behind(text, b"gmp-trace 4\n") {
        Some(rest) => Some((Version::Four, rest)),
        None => None,
    }
}

/// What lines 1 and 2 say, and the text behind them.
fn limited<'a>(
    bytes: &'a [u8],
    words: &mut Vec<&'a [u8]>,
    line: &mut Vec<u8>,
) -> Result<(Version, Limits, u16, &'a [u8]), Bad>
    ensures found { IfOk result (λ r. HasLimits bytes.now r.0 r.1 r.2 r.3.now) }
    ensures only { (v : Version) (limits : Limits) (bodies : ℕ) (rest : List ℕ) → HasLimits bytes.now v limits bodies rest
        → MatchResult result (λ r. (r.0 ≡ v) × (r.1 ≡ limits) × (r.2 ≡ bodies) × (r.3.now ≡ rest)) (λ bad. bad.why ≡ Why.OutOfMemory) }
    ensures fault { IfErr result (λ bad. IsFault bytes.now bad.line bad.why) }
{
    let Some((version, rest)) = version_at(bytes) else {
        return Err(Bad {
            line: 1,
            why: Why::Header,
        });
    };
    let Ok(found) = allowed_limits_at(version, rest, words, line) else {
        return Err(OUT_OF_MEMORY);
    };
    let Some((limits, bodies, rest)) = found else {
        return Err(Bad {
            line: 2,
            why: Why::Limits,
        });
    };
    Ok((version, limits, bodies, rest))
}

/// The capacities that line 3 of version 1 says, and where the entries begin behind it.
fn opened<'a>(
    alloc: Global,
    limits: Limits,
    bodies: u16,
    text: &'a [u8],
    words: &mut Vec<&'a [u8]>,
    line: &mut Vec<u8>,
) -> Result<(Vec<u32>, First, &'a [u8]), Bad>
    ensures found { IfOk result (λ r. AreLimits limits bodies r.0.items × (text.now ≡ capacities_text r.0.items ++ r.2.now)) }
    ensures first { IfOk result (λ r. IsFirst r.1 (origin limits.machines (AtOpening r.0.items))) }
    ensures only { (capacities rest : List ℕ) → AreLimits limits bodies capacities → text.now ≡ capacities_text capacities ++ rest
        → MatchResult result (λ r. (r.0.items ≡ capacities) × (r.2.now ≡ rest)) (λ bad. bad.why ≡ Why.OutOfMemory) }
    ensures fault { (bytes : List ℕ) → HasLimits bytes Version.One limits bodies text.now → IfErr result (λ bad. IsFault bytes bad.line bad.why) }
{
    let Ok(found) = allowed_capacities_at(alloc, limits, bodies, text, words, line) else {
        return Err(OUT_OF_MEMORY);
    };
    let Some((capacities, rest)) = found else {
        return Err(Bad {
            line: 3,
            why: Why::Caps,
        });
    };
    let first = First {
        machines: limits.machines,
        number: 0,
        lines: 3,
        made: [0; 64],
    };
    Ok((capacities, first, rest))
}

/// How many entries each machine made.
fn made_by(counts: &[u64]) -> [u64; 64]
    ensures { (m : ℕ) → m < 64 → slice_index result m ≡ slice_index counts.now m }
{
    let mut made = [0; 64];
    for m in 0..64 {
        made[m] = counts.get(m).copied().unwrap_or(0);
    }
    made
}

/// The start whose lines versions 2 and 4 have, and where the entries begin behind them.
fn started<'a>(
    alloc: Global,
    limits: Limits,
    bodies: u16,
    text: &'a [u8],
) -> Result<(Start, First, &'a [u8]), Bad>
    requires range { AreLimits limits bodies [] }
    ensures found { IfOk result (λ r. IsStart limits bodies (state_of r.0) × (text.now ≡ begins_text (AtState (state_of r.0)) ++ r.2.now)) }
    ensures first { IfOk result (λ r. IsFirst r.1 (origin limits.machines (AtState (state_of r.0)))) }
    ensures only { (s : State) (rest : List ℕ) → IsStart limits bodies s → text.now ≡ begins_text (AtState s) ++ rest
        → MatchResult result (λ r. (state_of r.0 ≡ s) × (r.2.now ≡ rest)) (λ bad. bad.why ≡ Why.OutOfMemory) }
    ensures fault { (bytes : List ℕ) → HasLimits bytes (start_version limits) limits bodies text.now → IfErr result (λ bad. IsFault bytes bad.line bad.why) }
{
    let Ok(found) = read_whole_start(alloc, limits, bodies, text) else {
        return Err(OUT_OF_MEMORY);
    };
    let (start, rest) = match found {
        Ok(found) => found,
        Err(line) => {
            return Err(Bad {
                line: u64::from(line),
                why: Why::Start,
            });
        }
    };
    let first = First {
        machines: limits.machines,
        number: start.made(),
        lines: u64::from(begin_line(&start)),
        made: made_by(&start.counts),
    };
    Ok((start, first, rest))
}

/// How the run begins that a text says behind line 2, where its entries begin, and the text from there.
fn begun<'a>(
    alloc: Global,
    version: Version,
    limits: Limits,
    bodies: u16,
    text: &'a [u8],
    words: &mut Vec<&'a [u8]>,
    line: &mut Vec<u8>,
) -> Result<(Beginning, First, &'a [u8]), Bad>
    requires range { AreLimits limits bodies [] }
    requires suits { suits version limits ≡ true }
    ensures found { IfOk result (λ r. BeginsSo version limits bodies text.now (begins_at r.0) r.2.now) }
    ensures first { IfOk result (λ r. IsFirst r.1 (origin limits.machines (begins_at r.0))) }
    ensures only { (b : Begins) (rest : List ℕ) → BeginsSo version limits bodies text.now b rest
        → MatchResult result (λ r. (begins_at r.0 ≡ b) × (r.2.now ≡ rest)) (λ bad. bad.why ≡ Why.OutOfMemory) }
    ensures fault { (bytes : List ℕ) → HasLimits bytes version limits bodies text.now → IfErr result (λ bad. IsFault bytes bad.line bad.why) }
{
    match version {
        Version::One => {
            let (capacities, first, rest) = opened(alloc, limits, bodies, text, words, line)?;
            Ok((Beginning::Opening(capacities), first, rest))
        }
        Version::Two | Version::Four => {
            let (start, first, rest) = started(alloc, limits, bodies, text)?;
            Ok((Beginning::Start(start), first, rest))
        }
    }
}

/// The trace whose text the bytes are, or the first bad line.
///
/// It goes over the bytes once, and takes memory for the entries, the beginning, the words of one line and that line written anew.
/// `OutOfMemory` comes only where memory was refused.
pub fn read(alloc: Global, bytes: &[u8]) -> Result<Trace, Bad>
    ensures found { IfOk result (λ x. HasText (content x) × (bytes.now ≡ text (content x))) }
    ensures only { (x : Content) → HasText x → bytes.now ≡ text x → MatchResult result (λ y. content y ≡ x) (λ bad. bad.why ≡ Why.OutOfMemory) }
    ensures fault { IfErr result (λ bad. IsFault bytes.now bad.line bad.why) }
    // What was read can be written.
    ensures counted { IfOk result (λ x. IsCounted (begins_at x.beginning)) }
{
    read_watched(alloc, bytes, &mut ())
}

/// Reads as `read` does, and tells the watch how many entries were read, at each 65,536th.
pub fn read_watched<W: Watch>(alloc: Global, bytes: &[u8], watch: &mut W) -> Result<Trace, Bad>
    ensures found { IfOk result (λ x. HasText (content x) × (bytes.now ≡ text (content x))) }
    ensures only { (x : Content) → HasText x → bytes.now ≡ text x → MatchResult result (λ y. content y ≡ x) (λ bad. bad.why ≡ Why.OutOfMemory) }
    ensures fault { IfErr result (λ bad. IsFault bytes.now bad.line bad.why) }
    ensures counted { IfOk result (λ x. IsCounted (begins_at x.beginning)) }
{
    let mut words = Vec::new(alloc);
    let mut line = Vec::new(alloc);
    let (version, limits, bodies, behind_limits) = limited(bytes, &mut words, &mut line)?;
    let (beginning, first, rest) = begun(
        alloc,
        version,
        limits,
        bodies,
        behind_limits,
        &mut words,
        &mut line,
    )?;
    match body(alloc, &first, rest, watch) {
        Err(bad) => Err(bad),
        Ok((entries, end)) => Ok(Trace {
            limits,
            bodies,
            beginning,
            entries,
            end,
        }),
    }
}
