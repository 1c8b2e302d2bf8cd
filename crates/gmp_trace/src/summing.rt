//! The summary of a trace: how it ended, and how many entries it has, by machine and by call.
//! Of a part of a run it counts the entries that stand there, so the summaries of two parts add up to that of the whole.

ghost use Rattle.std.specs.Prelude.{◌≡◌, ◌<◌, ◌++◌, [], List, replicate, slice_index_or, OnOk, IfOk, IfErr};
ghost use Rattle.std.specs.Io.KnownBytes.{Appends};
ghost use Rattle.gmp_seq.specs.declared.call.Entry.{Entry};
ghost use Rattle.gmp_trace.specs.declared.writing.WriteError.TheVariants.{OutOfMemory};
ghost use Rattle.gmp_trace.specs.Summary.{CountsCalls, CountsMachines, call_line, call_lines, entries_line, machine_line, machine_lines, call_name, kind_name, names, outcome_line, summary_text};
ghost use Rattle.gmp_trace.specs.Text.{content};

use crate::put::{put, put_digits, put_number};
use crate::trace::{End, Trace};
use crate::writing::WriteError;
use gmp_base::MNo;
use gmp_history::{CallKind, History};
use gmp_seq::Call;
use itoa::Buffer;
use std::alloc::{AllocError, Global};
use std::io::Write;

/// How many calls there are, and so how long a table of them is.
pub const CALLS: usize = 30;

/// The place of a call in a table of all, in the order of the definitions, but `spawn` last.
pub fn call_place(call: &Call) -> usize
    ensures bound { result < 30 }
    ensures name { slice_index_or names result [] ≡ call_name call.now }
{
    kind_place(CallKind::of(call))
}

/// The place of the calls of this kind.
#[tactic(auto, unfolding(crate::specs::Summary::names))]
fn kind_place(kind: CallKind) -> usize
    ensures bound { result < 30 }
    ensures name { slice_index_or names result [] ≡ kind_name kind }
{
    match kind {
        CallKind::Acquire => 0,
        CallKind::Take => 1,
        CallKind::Put => 2,
        CallKind::Claim => 3,
        CallKind::Go => 4,
        CallKind::Yield => 5,
        CallKind::Exit => 6,
        CallKind::Make => 7,
        CallKind::Send | CallKind::SendNil => 8,
        CallKind::Recv | CallKind::RecvNil => 9,
        CallKind::Close | CallKind::CloseNil => 10,
        CallKind::Len | CallKind::LenNil => 11,
        CallKind::Cap | CallKind::CapNil => 12,
        CallKind::Procs => 13,
        CallKind::Select => 14,
        CallKind::Sleep => 15,
        CallKind::Gopark => 16,
        CallKind::Ready => 17,
        CallKind::Enter => 18,
        CallKind::Leave => 19,
        CallKind::Spin => 20,
        CallKind::Woken => 21,
        CallKind::Keep => 22,
        CallKind::Unspin => 23,
        CallKind::Poke => 24,
        CallKind::Declare => 25,
        CallKind::Bare => 26,
        CallKind::Park => 27,
        CallKind::Tick => 28,
        CallKind::Spawn => 29,
    }
}

/// The first word of the call at a place in the table.
#[tactic(auto, unfolding(crate::specs::Summary::names))]
pub fn call_name(place: usize) -> &'static [u8]
    requires { place < 30 }
    ensures { result.now ≡ slice_index_or names place [] }
{
    match place {
        0 => b"acquire",
        1 => b"take",
        2 => b"put",
        3 => b"claim",
        4 => b"go",
        5 => b"yield",
        6 => b"exit",
        7 => b"make",
        8 => b"send",
        9 => b"recv",
        10 => b"close",
        11 => b"len",
        12 => b"cap",
        13 => b"procs",
        14 => b"select",
        15 => b"sleep",
        16 => b"gopark",
        17 => b"ready",
        18 => b"enter",
        19 => b"leave",
        20 => b"spin",
        21 => b"woken",
        22 => b"keep",
        23 => b"unspin",
        24 => b"poke",
        25 => b"declare",
        26 => b"bare",
        27 => b"park",
        28 => b"tick",
        _ => b"spawn",
    }
}

/// How many entries each machine has, and how many make each call.
#[derive(Drop)]
struct Counts {
    machines: [u64; 256],
    calls: [u64; CALLS],
}

/// The machine's place in an array of all that a number can name.
fn machine_place(m: MNo) -> usize
    ensures value { result ≡ m.0 }
    ensures bound { result < 256 }
{
    usize::from(m.0)
}

/// One walk over the entries.
fn count(entries: &History) -> Counts
    ensures machines { CountsMachines result.machines entries.now.list }
    ensures calls { CountsCalls result.calls entries.now.list }
{
    let mut machines = [0u64; 256];
    let mut calls = [0u64; CALLS];
    for head in entries.heads() {
        machines[machine_place(head.m)] += 1;
        calls[kind_place(head.call)] += 1;
    }
    Counts { machines, calls }
}

/// The line of the end.
#[tactic(auto, unfolding(crate::specs::Summary::outcome_line))]
fn put_outcome(out: &mut Vec<u8>, end: End) -> Result<(), AllocError>
    ensures { OnOk result (out.new.items ≡ out.old.items ++ outcome_line end) }
{
    match end {
        End::MainEnded => put(out, b"outcome: main ended\n"),
        End::AllAsleep => put(out, b"outcome: all asleep\n"),
        End::BookFull => put(out, b"outcome: book full\n"),
        End::Running => put(out, b"outcome: running\n"),
    }
}

/// The line with the number of all entries.
#[tactic(auto, unfolding(crate::specs::Summary::entries_line))]
fn put_entries(out: &mut Vec<u8>, n: u64) -> Result<(), AllocError>
    ensures { OnOk result (out.new.items ≡ out.old.items ++ entries_line n) }
{
    put(out, b"entries:")?;
    put_number(out, n)?;
    out.push(b'\n')?;
    Ok(())
}

/// The line of one machine.
#[tactic(auto, unfolding(crate::specs::Summary::machine_line))]
fn put_machine(out: &mut Vec<u8>, m: u8, n: u64) -> Result<(), AllocError>
    ensures { OnOk result (out.new.items ≡ out.old.items ++ machine_line m n) }
{
    put(out, b"machine ")?;
    put_digits(out, u64::from(m))?;
    out.push(b':')?;
    put_number(out, n)?;
    out.push(b'\n')?;
    Ok(())
}

/// A line for each machine, with those that made none.
fn put_machines(out: &mut Vec<u8>, machines: u8, counts: &[u64; 256]) -> Result<(), AllocError>
    ensures { (es : List Entry) → CountsMachines counts.now es → OnOk result (out.new.items ≡ out.old.items ++ machine_lines 0 machines es) }
{
    for m in 0..machines {
        put_machine(out, m, counts[usize::from(m)])?;
    }
    Ok(())
}

/// So many spaces, which put the numbers of calls below one another.
fn put_spaces(out: &mut Vec<u8>, n: usize) -> Result<(), AllocError>
    ensures { OnOk result (out.new.items ≡ out.old.items ++ replicate n 32) }
{
    for _ in 0..n {
        out.push(b' ')?;
    }
    Ok(())
}

/// The line of one call; of one that no entry makes there is none.
#[tactic(auto, unfolding(crate::specs::Summary::call_line))]
fn put_call_line(out: &mut Vec<u8>, name: &[u8], n: u64) -> Result<(), AllocError>
    ensures { OnOk result (out.new.items ≡ out.old.items ++ call_line name.now n) }
{
    if n == 0 {
        return Ok(());
    }
    put(out, name)?;
    put_spaces(out, 8usize.saturating_sub(name.len()))?;
    let mut buffer = Buffer::new();
    let digits = buffer.format(n).as_bytes();
    put_spaces(out, 8usize.saturating_sub(digits.len()))?;
    put(out, digits)?;
    out.push(b'\n')?;
    Ok(())
}

/// A line for each call that some entry makes, in the order of the table.
fn put_call_lines(out: &mut Vec<u8>, counts: &[u64; CALLS]) -> Result<(), AllocError>
    ensures { (es : List Entry) → CountsCalls counts.now es → OnOk result (out.new.items ≡ out.old.items ++ call_lines names es) }
{
    for (place, n) in counts.iter().enumerate() {
        put_call_line(out, call_name(place), *n)?;
    }
    Ok(())
}

/// The lines of the summary.
fn lines(alloc: Global, trace: &Trace) -> Result<Vec<u8>, AllocError>
    ensures { IfOk result (λ v. v.items ≡ summary_text (content trace.now)) }
{
    let counts = count(&trace.entries);
    let mut out = Vec::new(alloc);
    put_outcome(&mut out, trace.end)?;
    put_entries(&mut out, trace.entries.len() as u64)?;
    put_machines(&mut out, trace.limits.machines, &counts.machines)?;
    put_call_lines(&mut out, &counts.calls)?;
    Ok(out)
}

/// Writes the summary of a trace: its end, how many entries it has, how many each machine has, and how many make each call.
///
/// It goes over the entries once, and takes memory for the summary alone. `Device` comes only where the writer failed, and `OutOfMemory`
/// only where memory was refused: nothing went out then.
pub fn summary<W: Write>(alloc: Global, trace: &Trace, writer: &mut W) -> Result<(), WriteError>
    ensures written { OnOk result (Appends (W.contents writer.old) (W.contents writer.new) (summary_text (content trace.now))) }
    ensures unsent { IfErr result (λ e. e ≡ OutOfMemory → W.contents writer.new ≡ W.contents writer.old) }
{
    let out = lines(alloc, trace)?;
    if writer.write_all(out.as_slice()).is_err() {
        return Err(WriteError::Device);
    }
    Ok(())
}
