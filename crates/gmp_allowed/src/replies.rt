//! Which replies a call could have, by the numbers of the state. They are more than are allowed, and none of those is left out: each is tried
//! by the checker.
ghost use Rattle.std.specs.Prelude.{◌≡◌, ◌⊎◌, ◌∷◌, ◌++◌, [], Some, IfOk, OnOk, is_some, length, map};
ghost use Rattle.gmp_seq.specs.declared.call.Reply.{Reply};
ghost use Rattle.std.specs.Option.{option_map_or};
ghost use Rattle.gmp_seq.specs.Channels.{capacity_at, items_at};
ghost use Rattle.gmp_seq.specs.Table.{Table, due_answer, earlier, how_many_woken, least_of};
ghost use Rattle.gmp_seq.specs.Waits.{close_answer};
ghost use Rattle.gmp_start.specs.Start.{channel_of, state_of, table_of};
ghost use Rattle.gmp_allowed.specs.declared.numbered.Naming.TheVariants as Naming;
ghost use Rattle.gmp_allowed.specs.Tried.{AddsEach, Before, HasAll, IsNamed, IsOfRow, next_word, raised, row_reply};

use crate::dealing::{of_plain, of_select};
use crate::numbered::{Naming, of_enter, of_numbers, of_numbers_or_nothing};
use gmp_base::{CNo, Case, Fault, GNo, MNo, Readiness};
use gmp_seq::{Call, Goroutine, Reply, Status};
use gmp_start::{Start, StartChannel};
use gmp_walk::{channel_at, goroutine_at};
use std::alloc::{AllocError, Global};

/// Adds a reply.
pub(crate) fn add(out: &mut Vec<Reply>, reply: Reply) -> Result<(), AllocError>
    ensures { OnOk result (out.new.items ≡ out.old.items ++ reply ∷ []) }
{
    out.push(reply)?;
    Ok(())
}

/// Adds replies.
pub(crate) fn add_all(out: &mut Vec<Reply>, more: &[Reply]) -> Result<(), AllocError>
    ensures { OnOk result (out.new.items ≡ out.old.items ++ more.now) }
{
    out.extend_from_slice(more)?;
    Ok(())
}

/// Adds a reply, if there is one.
pub(crate) fn add_some(out: &mut Vec<Reply>, reply: Option<Reply>) -> Result<(), AllocError>
    ensures { OnOk result (AddsEach (λ r. reply ≡ Some r) out.old.items out.new.items) }
{
    match reply {
        Some(reply) => add(out, reply),
        None => Ok(()),
    }
}

/// The readiness behind that of this epoch.
pub(crate) fn raised(g: GNo, epoch: u64) -> Readiness
    ensures { result ≡ raised g epoch }
{
    Readiness {
        g,
        epoch: epoch.wrapping_add(1),
    }
}

/// The next readiness of a goroutine.
fn next(rows: &[Goroutine], g: GNo) -> Readiness
    ensures { (t : Table) → t.goroutines ≡ rows.now → result ≡ next_word t g }
{
    let epoch = match rows.get(usize::from(g.0)) {
        Some(row) => row.epoch,
        None => 0,
    };
    raised(g, epoch)
}

/// What a call that could be about any goroutine could be answered of this one.
fn of_row(m: MNo, call: &Call, g: GNo, row: &Goroutine) -> Option<Reply>
    ensures { result ≡ row_reply m call.now g row.now }
{
    let status = &row.status;
    match call {
        Call::Take => status.is_shelved().then_some(Reply::Ticket(Readiness {
            g,
            epoch: row.epoch,
        })),
        Call::Spawn => status
            .is_startable()
            .then_some(Reply::Ticket(raised(g, row.epoch))),
        Call::Yield => status
            .is_running_on(m)
            .then_some(Reply::Shelved(raised(g, row.epoch))),
        Call::Leave(_) => status
            .is_calling_on(m)
            .then_some(Reply::Shelved(raised(g, row.epoch))),
        _ => None,
    }
}

/// Of each goroutine.
fn of_rows(rows: &[Goroutine], m: MNo, call: &Call, out: &mut Vec<Reply>) -> Result<(), AllocError>
    ensures { OnOk result (AddsEach (Before (IsOfRow m call.now rows.now) (length rows.now)) out.old.items out.new.items) }
{
    for (g, row) in rows.iter().enumerate() {
        add_some(out, of_row(m, call, goroutine_at(g), row))?;
    }
    Ok(())
}

/// The same, or this where there is none.
fn of_rows_or(
    rows: &[Goroutine],
    m: MNo,
    call: &Call,
    none: Reply,
    out: &mut Vec<Reply>,
) -> Result<(), AllocError>
    ensures { OnOk result (AddsEach (λ (r : Reply). Before (IsOfRow m call.now rows.now) (length rows.now) r ⊎ (none ≡ r)) out.old.items out.new.items) }
{
    of_rows(rows, m, call, out)?;
    add(out, none)
}

/// Whether it waits on the channel.
fn is_waiting_on(status: &Status, c: CNo) -> bool
    ensures { result ≡ is_some (close_answer c status.now) }
{
    match status {
        Status::Waiting(wait) => wait.offers.first_offer_on(c).is_some(),
        _ => false,
    }
}

/// How many wait on the channel.
fn how_many_wait(rows: &[Goroutine], c: CNo) -> u64
    ensures { (t : Table) → t.goroutines ≡ rows.now → result ≡ how_many_woken (close_answer c) t }
{
    rows.iter()
        .filter(|row| is_waiting_on(&row.status, c))
        .count() as u64
}

/// Whether its deadline has come at this moment.
fn is_due(status: &Status, now: u64) -> bool
    ensures { result ≡ is_some (due_answer now status.now) }
{
    match status {
        Status::Waiting(wait) => match wait.until {
            Some(until) => until <= now,
            None => false,
        },
        _ => false,
    }
}

/// How many deadlines have come at this moment.
fn how_many_due(rows: &[Goroutine], now: u64) -> u64
    ensures { (t : Table) → t.goroutines ≡ rows.now → result ≡ how_many_woken (due_answer now) t }
{
    rows.iter().filter(|row| is_due(&row.status, now)).count() as u64
}

/// The lesser of two deadlines, where there are two.
fn earlier(a: Option<u64>, b: Option<u64>) -> Option<u64>
    ensures { result ≡ earlier a b }
{
    match (a, b) {
        (None, b) => b,
        (a, None) => a,
        (Some(x), Some(y)) => Some(x.min(y)),
    }
}

/// The least deadline.
fn least_deadline(rows: &[Goroutine]) -> Option<u64>
    ensures { result ≡ least_of rows.now }
{
    let mut least = None;
    for row in rows {
        least = earlier(least, row.status.deadline());
    }
    least
}

/// How many values the channel holds; none where it isn't there.
fn length_of(channels: &[StartChannel], c: Option<CNo>) -> u64
    ensures { result ≡ option_map_or (λ n. length (items_at (map channel_of channels.now) n)) c 0 }
{
    let Some(c) = c else {
        return 0;
    };
    match channels.get(usize::from(c.0)) {
        Some(channel) => channel.items.len() as u64,
        None => 0,
    }
}

/// For how many it has room.
fn capacity_of(channels: &[StartChannel], c: Option<CNo>) -> u64
    ensures { result ≡ option_map_or (λ n. capacity_at (map channel_of channels.now) n) c 0 }
{
    let Some(c) = c else {
        return 0;
    };
    match channels.get(usize::from(c.0)) {
        Some(channel) => u64::from(channel.capacity),
        None => 0,
    }
}

/// A start and a `ready` of a goroutine, by its next readiness.
fn of_readied(next: Readiness, out: &mut Vec<Reply>) -> Result<(), AllocError>
    ensures { OnOk result (out.new.items ≡ out.old.items ++ Reply.Ticket next ∷ Reply.Fault Fault.NoSuchBody ∷ Reply.Fault Fault.AlreadyStarted ∷ Reply.Fault Fault.NotParked ∷ []) }
{
    add_all(
        out,
        &[
            Reply::Ticket(next),
            Reply::Fault(Fault::NoSuchBody),
            Reply::Fault(Fault::AlreadyStarted),
            Reply::Fault(Fault::NotParked),
        ],
    )
}

/// A make of this channel.
fn of_make(c: CNo, out: &mut Vec<Reply>) -> Result<(), AllocError>
    ensures { OnOk result (out.new.items ≡ out.old.items ++ Reply.Channel c ∷ Reply.Fault Fault.BadCapacity ∷ Reply.Fault Fault.TooManyChannels ∷ []) }
{
    add_all(
        out,
        &[
            Reply::Channel(c),
            Reply::Fault(Fault::BadCapacity),
            Reply::Fault(Fault::TooManyChannels),
        ],
    )
}

/// A close that wakes so many.
fn of_close(n: u64, out: &mut Vec<Reply>) -> Result<(), AllocError>
    ensures { OnOk result (out.new.items ≡ out.old.items ++ Reply.Closed n ∷ Reply.Fault Fault.CloseOfClosed ∷ Reply.Fault Fault.NoSuchChannel ∷ []) }
{
    add_all(
        out,
        &[
            Reply::Closed(n),
            Reply::Fault(Fault::CloseOfClosed),
            Reply::Fault(Fault::NoSuchChannel),
        ],
    )
}

/// A number, or a fault.
fn of_number(n: u64, fault: Fault, out: &mut Vec<Reply>) -> Result<(), AllocError>
    ensures { OnOk result (out.new.items ≡ out.old.items ++ Reply.Number n ∷ Reply.Fault fault ∷ []) }
{
    add_all(out, &[Reply::Number(n), Reply::Fault(fault)])
}

/// A park, at this least deadline.
fn of_park(until: u64, out: &mut Vec<Reply>) -> Result<(), AllocError>
    ensures { OnOk result (out.new.items ≡ out.old.items ++ Reply.Parked ∷ Reply.Work ∷ Reply.LookAgain ∷ Reply.AllAsleep ∷ Reply.Mind until ∷ []) }
{
    add_all(
        out,
        &[
            Reply::Parked,
            Reply::Work,
            Reply::LookAgain,
            Reply::AllAsleep,
            Reply::Mind(until),
        ],
    )
}

/// A leave: its goroutine runs on by any processor, or goes onto the shelf.
fn of_leave(last: &Start, m: MNo, call: &Call, out: &mut Vec<Reply>) -> Result<(), AllocError>
    ensures { OnOk result (AddsEach (λ (r : Reply). Before (IsNamed Naming.Runs) (length last.now.holders.items) r
        ⊎ Before (IsOfRow m call.now last.now.goroutines.items) (length last.now.goroutines.items) r) out.old.items out.new.items) }
{
    of_numbers(Naming::Runs, last.holders.len(), out)?;
    of_rows(&last.goroutines, m, call, out)
}

/// Adds the replies that a call of this kind could have.
fn add_candidates(last: &Start, m: MNo, call: &Call, out: &mut Vec<Reply>) -> Result<(), AllocError>
    ensures { OnOk result (HasAll m call.now (state_of last.now) out.new.items) }
{
    let rows = &last.goroutines;
    let channels = &last.channels;
    match call {
        Call::Take => of_rows_or(rows, m, call, Reply::Nothing, out),
        Call::Spawn => of_rows_or(rows, m, call, Reply::Fault(Fault::NoSuchBody), out),
        Call::Yield => of_rows(rows, m, call, out),
        Call::Leave(_) => of_leave(last, m, call, out),
        Call::Acquire => of_numbers_or_nothing(Naming::Proc, last.holders.len(), out),
        Call::Poke => of_numbers_or_nothing(Naming::Wakes, last.modes.len(), out),
        Call::Declare => of_numbers(Naming::Idle, last.holders.len(), out),
        Call::Enter => of_enter(&last.holders, m, last.modes.len(), out),
        Call::Send(c, v) => of_plain(last, Case::Send(*c, *v), out),
        Call::Recv(c) => of_plain(last, Case::Recv(*c), out),
        Call::Select(cases, _, _) => of_select(last, cases.as_slice(), out),
        Call::Make(_) => of_make(channel_at(channels.len()), out),
        Call::Close(Some(c)) => of_close(how_many_wait(rows, *c), out),
        Call::Close(None) => add(out, Reply::Fault(Fault::CloseOfNil)),
        Call::Len(c) => of_number(length_of(channels, *c), Fault::NoSuchChannel, out),
        Call::Cap(c) => of_number(capacity_of(channels, *c), Fault::NoSuchChannel, out),
        Call::Procs(_) => of_number(u64::from(last.active), Fault::BadProcs, out),
        Call::Go(h) | Call::Ready(h) => of_readied(next(rows, *h), out),
        Call::Exit => add_all(out, &[Reply::Dead, Reply::MainEnded]),
        Call::Sleep(_) | Call::Gopark => add(out, Reply::Waits),
        Call::Park => of_park(least_deadline(rows).unwrap_or(0), out),
        Call::Tick(moment) => {
            let now = last.clock.max(*moment);
            add(out, Reply::Woke(how_many_due(rows, now)))
        }
        Call::Put(_) => add(out, Reply::Shelf),
        Call::Claim(_) => add(out, Reply::Held),
        Call::Unspin | Call::Bare => add(out, Reply::Done),
        Call::Spin | Call::Woken | Call::Keep => {
            add_all(out, &[Reply::Answer(true), Reply::Answer(false)])
        }
    }
}

/// The replies that a call of this kind could have.
pub(crate) fn candidates(
    alloc: Global,
    last: &Start,
    m: MNo,
    call: &Call,
) -> Result<Vec<Reply>, AllocError>
    ensures { IfOk result (λ v. HasAll m call.now (state_of last.now) v.items) }
{
    let mut out = Vec::new(alloc);
    add_candidates(last, m, call, &mut out)?;
    Ok(out)
}
