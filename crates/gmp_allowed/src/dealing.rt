//! Which replies a communication could have: a plain send or receive, and a select.
ghost use Rattle.std.specs.Prelude.{◌≡◌, ◌<◌, ◌^◌, ◌∷◌, ◌++◌, [], ℕ, List, None, Some, map, length, slice_get, OnOk};
ghost use Rattle.gmp_seq.specs.declared.call.Reply.{Reply};
ghost use Rattle.gmp_seq.specs.declared.status.Goroutine.{Goroutine};
ghost use Rattle.gmp_seq.specs.Channels.{items_at};
ghost use Rattle.gmp_start.specs.Start.{channel_of, state_of};
ghost use Rattle.gmp_allowed.specs.Tried.{AddsEach, Before, HasEach, IsChoice, IsDeal, IsDealt, IsServed, dealt, served, waiter_at};

use crate::replies::{add_all, add_some, raised};
use gmp_base::{CNo, Case, Fault, GNo, Readiness};
use gmp_seq::{Direction, Goroutine, Relay, Reply, Status, Taken, Waiter};
use gmp_start::{Start, StartChannel};
use gmp_walk::goroutine_at;
use std::alloc::AllocError;

/// What a communication is told: of a case of a select with its number.
fn dealt(i: Option<u8>, taken: Taken) -> Reply
    ensures { result ≡ dealt i taken }
{
    match (i, taken) {
        (Some(i), taken) => Reply::Chose(i, taken),
        (None, Taken::Sent(to)) => Reply::Sent(to),
        (None, Taken::Got(v, sent, from)) => Reply::Got(v, sent, from),
        (None, Taken::Failed) => Reply::Fault(Fault::SendOnClosed),
    }
}

/// The first value of the channel.
fn first_item(channels: &[StartChannel], c: CNo) -> Option<u64>
    ensures { result ≡ slice_get (items_at (map channel_of channels.now) c) 0 }
{
    match channels.get(usize::from(c.0)) {
        Some(channel) => channel.items.first().copied(),
        None => None,
    }
}

/// The first offer on the channel in this direction of a goroutine with this status, if it waits there.
pub fn waiter_at(g: GNo, status: &Status, c: CNo, direction: Direction) -> Option<Waiter>
    ensures { result ≡ waiter_at g status.now c direction }
{
    let Status::Waiting(wait) = status else {
        return None;
    };
    for offer in wait.offers.as_slice() {
        let w = Waiter {
            g,
            arrival: wait.arrival,
            kind: wait.kind,
            offer: *offer,
        };
        if w.is_on(c, direction) {
            return Some(w);
        }
    }
    None
}

/// What serves this waiter, where the channel's first value is this.
fn served(first: Option<u64>, to: Readiness, w: Waiter, direction: Direction) -> Taken
    ensures { result ≡ served first to w direction }
{
    match direction {
        Direction::Receiving => Taken::Sent(Some(to)),
        Direction::Sending => {
            let relay = Relay {
                sender: to,
                value: w.offered(),
            };
            Taken::Got(first.unwrap_or(relay.value), true, Some(relay))
        }
    }
}

/// What serves this goroutine, where it waits on the channel.
fn of_waiter(
    i: Option<u8>,
    c: CNo,
    direction: Direction,
    first: Option<u64>,
    g: usize,
    row: &Goroutine,
) -> Option<Reply>
    ensures { (rows : List Goroutine) (r : Reply) → slice_get rows g ≡ Some row.now → IsServed i c direction first rows g r → result ≡ Some r }
{
    let n = goroutine_at(g);
    let w = waiter_at(n, &row.status, c, direction)?;
    Some(dealt(i, served(first, raised(n, row.epoch), w, direction)))
}

/// What serves each goroutine that waits on the channel.
fn of_waiters(
    rows: &[Goroutine],
    i: Option<u8>,
    c: CNo,
    direction: Direction,
    first: Option<u64>,
    out: &mut Vec<Reply>,
) -> Result<(), AllocError>
    ensures { OnOk result (AddsEach (Before (IsServed i c direction first rows.now) (length rows.now)) out.old.items out.new.items) }
{
    for (g, row) in rows.iter().enumerate() {
        add_some(out, of_waiter(i, c, direction, first, g, row))?;
    }
    Ok(())
}

/// A send.
fn of_send(last: &Start, i: Option<u8>, c: CNo, out: &mut Vec<Reply>) -> Result<(), AllocError>
    ensures { OnOk result ((v : ℕ) → AddsEach (IsDealt i (Case.Send (Some c) v) (state_of last.now)) out.old.items out.new.items) }
{
    add_all(out, &[dealt(i, Taken::Failed), dealt(i, Taken::Sent(None))])?;
    of_waiters(&last.goroutines, i, c, Direction::Receiving, None, out)
}

/// A receive.
fn of_receive(last: &Start, i: Option<u8>, c: CNo, out: &mut Vec<Reply>) -> Result<(), AllocError>
    ensures { OnOk result (AddsEach (IsDealt i (Case.Recv (Some c)) (state_of last.now)) out.old.items out.new.items) }
{
    let first = first_item(&last.channels, c);
    add_all(
        out,
        &[
            dealt(i, Taken::Got(0, false, None)),
            dealt(i, Taken::Got(first.unwrap_or(0), true, None)),
        ],
    )?;
    of_waiters(&last.goroutines, i, c, Direction::Sending, first, out)
}

/// A communication.
fn of_case(last: &Start, i: Option<u8>, case: Case, out: &mut Vec<Reply>) -> Result<(), AllocError>
    ensures { OnOk result (AddsEach (IsDealt i case (state_of last.now)) out.old.items out.new.items) }
{
    match case {
        Case::Send(Some(c), _) => of_send(last, i, c, out),
        Case::Recv(Some(c)) => of_receive(last, i, c, out),
        Case::Send(None, _) | Case::Recv(None) => Ok(()),
    }
}

/// A plain send or receive.
pub(crate) fn of_plain(last: &Start, case: Case, out: &mut Vec<Reply>) -> Result<(), AllocError>
    ensures { OnOk result (HasEach (IsDeal case (state_of last.now)) out.new.items) }
{
    of_case(last, None, case, out)?;
    add_all(out, &[Reply::Waits, Reply::Fault(Fault::NoSuchChannel)])
}

/// The number of the case at this place; there are fewer than numbers.
fn number_of(place: usize) -> u8
    ensures { place < 2 ^ 8 → result ≡ place }
{
    u8::try_from(place).unwrap_or(u8::MAX)
}

/// A select.
pub(crate) fn of_select(
    last: &Start,
    cases: &[Case],
    out: &mut Vec<Reply>,
) -> Result<(), AllocError>
    ensures { OnOk result (HasEach (IsChoice cases.now (state_of last.now)) out.new.items) }
{
    add_all(
        out,
        &[
            Reply::Waits,
            Reply::Default,
            Reply::Fault(Fault::NoSuchChannel),
        ],
    )?;
    for (i, case) in cases.iter().enumerate() {
        of_case(last, Some(number_of(i)), *case, out)?;
    }
    Ok(())
}
