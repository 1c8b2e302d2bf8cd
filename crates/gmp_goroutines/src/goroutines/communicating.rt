//! What a running goroutine does with channels. A send, a receive or a case of a select proceeds and serves who waits for it, or the
//! goroutine waits itself: a plain one by gmp_chan, a select by gmp_select.
//!
//! A plain send has nothing to ask of selects. But whoever is served is made ready and told by the same functions (`hand_over`, `take_over`),
//! and a case of a select proceeds as a plain communication does.
ghost use Rattle.std.specs.Prelude.{ℕ, ◌≡◌, ◌<◌, ◌≤◌, ◌^◌, ◌∷◌, [], Some, None, IfNone, IfOk, IfSome, OnErr, OnOk, is_some, true, false, length, slice_get};
ghost use Rattle.gmp_base.specs.declared.cases.Case.{Case};
ghost use Rattle.gmp_base.specs.declared.number.GNo.{GNo};
ghost use Rattle.gmp_base.specs.declared.number.MNo.{MNo};
ghost use Rattle.gmp_base.specs.declared.number.CNo.{CNo};
ghost use Rattle.gmp_seq.specs.declared.call.Call.{Call};
ghost use Rattle.gmp_seq.specs.declared.call.Limits.{Limits};
ghost use Rattle.gmp_seq.specs.declared.call.Reply.{Reply};
ghost use Rattle.gmp_seq.specs.declared.status.Kind.{Kind};
ghost use Rattle.gmp_seq.specs.declared.status.Transfer.TheVariants.{Handed, Relayed};
ghost use Rattle.gmp_seq.specs.declared.status.Waiter.{Waiter};
ghost use Rattle.gmp_seq.specs.Channels.{capacity_at, items_at};
ghost use Rattle.gmp_seq.specs.Step.{Closes, Communicates, Deals, Makes, Selects, Tells, none_missing, served_by, some_can, told_of};
ghost use Rattle.gmp_seq.specs.Table.{IsOffShelf, IsRunning, epoch_at, made_wait, next_of};
ghost use Rattle.gmp_seq.specs.Waits.{can, channel_of, names_no_missing, offered, offers_of, waiters};
ghost use Rattle.gmp_chan.specs.Served.{served};
ghost use Rattle.gmp_goroutines.specs.Choice.{IsChoice, choice};
ghost use Rattle.gmp_goroutines.specs.Present.{state_of};
ghost use Rattle.gmp_goroutines.specs.Served.{IsWayOf, plain_reply};
ghost use Rattle.gmp_goroutines.specs.Shelf.{Shelves};

use crate::goroutines::Goroutines;
use gmp_base::{CNo, Case, Cases, Fault, GNo, Readiness};
use gmp_select::{choose, complete, none_missing, ready_cases, register};
use gmp_seq::{Kind, MOST_CAPACITY, Offers, Relay, Reply, Taken, Transfer, Waiter, channel_of};
use gmp_table::{StatusTable, Wake};
use std::alloc::{AllocError, Global};

/// Makes a receiver ready that waited and is handed this value by a send. It is told what it would have been told without waiting.
#[inline(always)]
fn hand_over(table: &mut StatusTable, case: Case, w: &Waiter) -> Readiness
    requires way { IsWayOf case (Handed w.now) }
    requires off { IsOffShelf table.old.table w.now.g }
    requires young { (h : GNo) → epoch_at table.old.table h < 2 ^ 63 }
    ensures told { result ≡ next_of table.old.table w.now.g }
    ensures table { table.new.table ≡ served_by table.old.table case (Handed w.now) }
    ensures shelf { table.new.shelf ≡ table.old.shelf }
{
    // A receiver is served by a send alone.
    let Case::Send(_, v) = case else {
        unreachable!()
    };
    table.ready(w.g, w.offer.receiver_answer(w.kind, v, true))
}

/// Makes a sender ready that waited and whose value a receive takes, and answers who it is and which value. It is told so as well.
#[inline(always)]
fn take_over(table: &mut StatusTable, case: Case, w: &Waiter) -> Relay
    requires way { (v : ℕ) → IsWayOf case (Relayed v w.now) }
    requires off { IsOffShelf table.old.table w.now.g }
    requires young { (h : GNo) → epoch_at table.old.table h < 2 ^ 63 }
    ensures told { result ≡ record { sender = next_of table.old.table w.now.g; value = offered w.now } }
    ensures table { (v : ℕ) → table.new.table ≡ served_by table.old.table case (Relayed v w.now) }
    ensures shelf { table.new.shelf ≡ table.old.shelf }
{
    // A sender is served by a receive alone.
    let Case::Recv(_) = case else { unreachable!() };
    let sender = table.ready(w.g, w.sender_answer());
    Relay {
        sender,
        value: w.offered(),
    }
}

/// Makes ready who was served by a communication of a select, and answers what it comes to. Its offers are gone already: the channels took
/// them out.
fn serve(table: &mut StatusTable, case: Case, how: Transfer) -> Taken
    requires way { IsWayOf case how }
    requires off { (w : Waiter) → served how ≡ Some w → IsOffShelf table.old.table w.g }
    requires young { (h : GNo) → epoch_at table.old.table h < 2 ^ 63 }
    ensures told { result ≡ told_of table.old.table how }
    ensures table { table.new.table ≡ served_by table.old.table case how }
    ensures shelf { table.new.shelf ≡ table.old.shelf }
{
    match how {
        Transfer::Failed => Taken::Failed,
        Transfer::Handed(w) => Taken::Sent(Some(hand_over(table, case, &w))),
        Transfer::Stored => Taken::Sent(None),
        Transfer::First(v) => Taken::Got(v, true, None),
        Transfer::Relayed(v, w) => Taken::Got(v, true, Some(take_over(table, case, &w))),
        // Zero, and that it was not sent (Go specification, Close).
        Transfer::Drained => Taken::Got(0, false, None),
    }
}

/// Makes ready who was served by a plain send or receive, and writes its reply in place, so that no wide value is moved. A send on a closed
/// channel is a fault at once.
#[inline(always)]
fn serve_plain(table: &mut StatusTable, case: Case, how: &Transfer, out: &mut Reply)
    requires way { IsWayOf case how.now }
    requires off { (w : Waiter) → served how.now ≡ Some w → IsOffShelf table.old.table w.g }
    requires young { (h : GNo) → epoch_at table.old.table h < 2 ^ 63 }
    ensures told { out.new ≡ plain_reply (told_of table.old.table how.now) }
    ensures table { table.new.table ≡ served_by table.old.table case how.now }
    ensures shelf { table.new.shelf ≡ table.old.shelf }
{
    match how {
        Transfer::Failed => *out = Reply::Fault(Fault::SendOnClosed),
        Transfer::Handed(w) => *out = Reply::Sent(Some(hand_over(table, case, w))),
        Transfer::Stored => *out = Reply::Sent(None),
        Transfer::First(v) => *out = Reply::Got(*v, true, None),
        Transfer::Relayed(v, w) => *out = Reply::Got(*v, true, Some(take_over(table, case, w))),
        Transfer::Drained => *out = Reply::Got(0, false, None),
    }
}

impl Goroutines {
    /// Makes an open, empty channel with this capacity, by the next number, or answers the fault (Go specification, Making slices, maps and
    /// channels). Only a channel takes memory: a fault is answered without any. Refused memory, nothing has changed.
    pub fn make(&mut self, alloc: Global, capacity: u32) -> Result<Reply, AllocError>
        ensures makes { IfOk result (λ reply. (limits : Limits) → limits.channels ≡ self.old.limit → Makes limits capacity reply self.old.channels self.new.channels) }
        ensures table { OnOk result (self.new ≡ record self.old { channels = self.new.channels }) }
        ensures err { OnErr result (self.new ≡ self.old) }
        ensures needed { OnErr result ((capacity ≤ 4096) × (length self.old.channels < self.old.limit)) }
    {
        // The capacity is judged before the number of channels, and both before memory is taken.
        if capacity > MOST_CAPACITY {
            return Ok(Reply::Fault(Fault::BadCapacity));
        }
        if self.channels.is_full() {
            return Ok(Reply::Fault(Fault::TooManyChannels));
        }
        let c = self.channels.make(alloc, capacity)?;
        Ok(Reply::Channel(c))
    }

    /// Closes a channel (Go specification, Close). All that wait on it go onto the shelf, by their arrivals; the answer counts them.
    /// Receivers are told zero and false, senders the fault. nil, and a channel that was closed before, is a fault.
    pub fn close(&mut self, c: Option<CNo>) -> Reply
        requires young { (g : GNo) → epoch_at self.old.table g < 2 ^ 63 }
        ensures closes { Closes c result (state_of self.old) (state_of self.new) }
        ensures shelf { Shelves (Call.Close c) result self.old.table self.new.table self.old.shelf self.new.shelf }
        ensures rest { self.new ≡ record self.old { table = self.new.table; shelf = self.new.shelf; channels = self.new.channels } }
    {
        let Some(c) = c else {
            return Reply::Fault(Fault::CloseOfNil);
        };
        if !self.channels.has(Some(c)) {
            return Reply::Fault(Fault::NoSuchChannel);
        }
        if self.channels.is_closed(c) {
            return Reply::Fault(Fault::CloseOfClosed);
        }
        // Closed first: whoever is woken finds the channel closed.
        self.channels.close(c);
        Reply::Closed(self.wake_all(Wake::Closed(c)))
    }

    /// How many values the channel holds, 0 for nil (Go specification, Length and capacity).
    pub fn len(&self, c: Option<CNo>) -> Reply
        ensures { Tells (λ n. length (items_at self.now.channels n)) c result self.now.channels self.now.channels }
    {
        if !self.channels.has(c) {
            return Reply::Fault(Fault::NoSuchChannel);
        }
        match c {
            Some(c) => Reply::Number(self.channels.len(c)),
            None => Reply::Number(0),
        }
    }

    /// For how many values the channel has room, 0 for nil (Go specification, Length and capacity).
    pub fn cap(&self, c: Option<CNo>) -> Reply
        ensures { Tells (capacity_at self.now.channels) c result self.now.channels self.now.channels }
    {
        if !self.channels.has(c) {
            return Reply::Fault(Fault::NoSuchChannel);
        }
        match c {
            Some(c) => Reply::Number(self.channels.cap(c)),
            None => Reply::Number(0),
        }
    }

    /// A plain send or receive proceeds, if it can, and is answered; it tells whether it did. Who is served is made ready.
    #[inline(always)]
    fn proceed(&mut self, case: Case, out: &mut Reply) -> bool
        requires made { names_no_missing self.old.channels (channel_of case) ≡ true }
        requires young { (h : GNo) → epoch_at self.old.table h < 2 ^ 63 }
        ensures exact { result ≡ can self.old.channels (waiters self.old.table) case }
        ensures deals { result ≡ true → (g : GNo) → Deals g case out.new (state_of self.old) (state_of self.new) }
        ensures none { result ≡ false → self.new ≡ self.old }
        ensures rest { self.new ≡ record self.old { table = self.new.table; channels = self.new.channels } }
    {
        match self.channels.proceed(case) {
            Some(how) => {
                serve_plain(&mut self.table, case, &how, out);
                true
            }
            None => false,
        }
    }

    /// g, which runs, sends or receives, or waits until it can (Go specification, Send statements and Receive operator). On nil it waits
    /// for good. The reply is written in place, so that the frequent call moves no wide value.
    pub fn deal(&mut self, g: GNo, case: Case, out: &mut Reply)
        requires runs { (m : MNo) × IsRunning self.old.table g m }
        requires young { (h : GNo) → epoch_at self.old.table h < 2 ^ 63 }
        requires few { self.old.table.arrivals < 2 ^ 63 }
        ensures deals { Deals g case out.new (state_of self.old) (state_of self.new) }
        ensures rest { self.new ≡ record self.old { table = self.new.table; channels = self.new.channels } }
    {
        if !self.channels.has(channel_of(case)) {
            *out = Reply::Fault(Fault::NoSuchChannel);
            return;
        }
        if !self.proceed(case, out) {
            self.begin(g, case);
            *out = Reply::Waits;
        }
    }

    /// g, which runs, begins to wait until it can send or receive.
    // Apart: whoever goes on pays for no offers.
    #[inline(never)]
    fn begin(&mut self, g: GNo, case: Case)
        requires runs { (m : MNo) × IsRunning self.old.table g m }
        requires few { self.old.table.arrivals < 2 ^ 63 }
        requires made { names_no_missing self.old.channels (channel_of case) ≡ true }
        ensures table { self.new.table ≡ made_wait self.old.table g Kind.Plain (offers_of (case ∷ [])) None }
        ensures rest { self.new ≡ record self.old { table = self.new.table } }
    {
        self.wait(g, Kind::Plain, Offers::of(&[case]), None);
    }

    /// Which case is taken: of the r that can proceed, in order, number `word mod r`. Go's choice is uniform; here the word decides, so
    /// that a run can be made again from its words.
    fn chosen(&self, cases: &Cases, word: u64) -> Option<u8>
        requires { length cases.now ≤ 8 }
        ensures number { result ≡ choice (state_of self.now) cases.now word }
        ensures able { IfSome result (λ i. (c : Case) × (slice_get cases.now i ≡ Some c) × (can self.now.channels (waiters self.now.table) c ≡ true)) }
        ensures none { IfNone result (some_can (state_of self.now) cases.now ≡ false) }
    {
        choose(ready_cases(&self.channels, cases), word)
    }

    /// A case of a select, which can proceed, does so. Who is served is made ready.
    fn take_case(&mut self, case: Case) -> Taken
        requires made { names_no_missing self.old.channels (channel_of case) ≡ true }
        requires able { can self.old.channels (waiters self.old.table) case ≡ true }
        requires young { (h : GNo) → epoch_at self.old.table h < 2 ^ 63 }
        ensures communicates { Communicates case result (state_of self.old) (state_of self.new) }
        ensures rest { self.new ≡ record self.old { table = self.new.table; channels = self.new.channels } }
    {
        // The case was chosen among those that can proceed, and nothing has changed since.
        let how = complete(&mut self.channels, case).unwrap();
        serve(&mut self.table, case, how)
    }

    /// g, which runs, begins to wait for any of these cases, until this moment. The first that can proceed, or the moment, ends it.
    fn wait_for_any(&mut self, g: GNo, cases: &Cases, until: Option<u64>)
        requires runs { (m : MNo) × IsRunning self.old.table g m }
        requires few { self.old.table.arrivals < 2 ^ 63 }
        requires made { none_missing self.old.channels cases.now ≡ true }
        ensures table { self.new.table ≡ made_wait self.old.table g Kind.Select (offers_of cases.now) until }
        ensures rest { self.new ≡ record self.old { table = self.new.table } }
    {
        let offers = register(&mut self.channels, g, self.table.arrivals(), cases);
        self.table.wait(g, Kind::Select, offers, until);
    }

    /// g, which runs, takes one of the cases that can proceed, or else the default, where it has one, or else waits for any of them, until
    /// this moment, in nanoseconds (Go specification, Select statements). A channel that was not made is a fault before any case is looked
    /// at. The word is the caller's, drawn before the call.
    pub fn select(
        &mut self,
        g: GNo,
        cases: &Cases,
        has_default: bool,
        until: Option<u64>,
        word: u64,
    ) -> Reply
        requires runs { (m : MNo) × IsRunning self.old.table g m }
        requires young { (h : GNo) → epoch_at self.old.table h < 2 ^ 63 }
        requires few { self.old.table.arrivals < 2 ^ 63 }
        ensures selects { Selects g cases.now has_default until result (state_of self.old) (state_of self.new) }
        ensures choice { IsChoice (state_of self.old) cases.now word result }
        ensures eight { length cases.now ≤ 8 }
        ensures rest { self.new ≡ record self.old { table = self.new.table; channels = self.new.channels } }
    {
        if !none_missing(&self.channels, cases) {
            return Reply::Fault(Fault::NoSuchChannel);
        }
        match self.chosen(cases, word) {
            Some(i) => Reply::Chose(i, self.take_case(cases.as_slice()[i as usize])),
            // A default keeps the select from waiting, whatever its deadline (Go specification, Select statements).
            None if has_default => Reply::Default,
            None => {
                self.wait_for_any(g, cases, until);
                Reply::Waits
            }
        }
    }
}
