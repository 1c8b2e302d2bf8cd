//! The book.
ghost use Rattle.std.specs.Prelude.{◌≡◌, ◌↔◌, ◌≤◌, ◌<◌, [], None, false, true, length, slice_index, IsTrue, OnOk, OnErr, IfOk, IfErr, IfNone};
ghost use Rattle.gmp_seq.specs.Laws.{IsInOrder, NobodyCouldProceed};
ghost use Rattle.gmp_seq.specs.Table.{is_shelved};
ghost use Rattle.gmp_start.specs.Start.{state_of};
ghost use Rattle.gmp_table.specs.Kept.{IsListing};
ghost use Rattle.gmp_seq.specs.Needs.{WantsMemory};
ghost use Rattle.gmp_journal.specs.Grants.{Chooses, Grants, NeedsMemory, Suits};
ghost use Rattle.gmp_journal.specs.Done.{IsDoneTo};
ghost use Rattle.gmp_journal.specs.Handed.{goroutine_in, names_other, processor_in};
ghost use Rattle.gmp_journal.specs.Log.{Records, entries_made, is_over};
ghost use Rattle.gmp_journal.specs.Refusals.{Says, refusal_in, refusal_of};
ghost use Rattle.gmp_journal.specs.Segments.{IsSegment, MayGoOn, WhyNoSegment, handed_out};
ghost use Rattle.gmp_book.specs.Hands.{handed_of};

mod asking;
mod channels;
mod ending;
mod goroutines;
mod in_hand;
mod machines;

use crate::opening::{Unopened, first_passes, may_open};
use crate::settling::{settle_body, settle_owner};
use crate::slots::Slots;
use crate::values::{Values, claimed, handed, ticket_out, told_by, way_of};
use gmp_base::{MNo, Pass, Refusal};
use gmp_goroutines::Goroutines;
use gmp_history::History;
use gmp_idle::Machines;
use gmp_journal::{Journal, Segment};
use gmp_seq::{Call, Limits, Outcome, Reply};
use gmp_start::Start;
use std::alloc::{AllocError, Global};
use std::marker::Model;

/// A run of the scheduler, with the bodies `T` of its goroutines and the owners `Q` of its processors.
///
/// A contract sees the run, and which bodies and owners are in the book. What it keeps is always a legal run. Each call is made
/// by a pass. It adds one entry, or it is refused: then nothing has changed, and what it was handed comes back.
///
/// Where several refusals hold, a call answers the first of `WrongRun`, `OutOfTurn`, `Behind`, `Over`, `Busy`, `NoProcessor`,
/// `NotOutstanding`, `NotHeld`, `Full`; a surrender of `WrongRun`, `NotOver`, and then `NotOutstanding` or `NotHeld`; the report of `NotOver`,
/// `Busy`.
// Bodies and owners lie beside the journal and not in it: what a step does is proved once, of plain data.
#[derive(Drop)]
pub struct Book<T, Q> {
    journal: Journal,
    bodies: Slots<T>,
    owners: Slots<Q>,
}

impl<T, Q> Model for Book<T, Q> {
    ghost use Rattle.gmp_book.specs.Book.{BookContents, IsBook};

    ghost Value = { BookContents T Q };

    ghost view = { λ b. record { log = b.journal; bodies = b.bodies; owners = b.owners } };

    ghost invariant = { λ b. IsBook (record { log = b.journal; bodies = b.bodies; owners = b.owners }) };
}

impl<T, Q> Book<T, Q> {
    ghost use Rattle.gmp_book.specs.Book.{IsBook, IsBookPart, MayOpen, SameValues, WhyUnopened, opening_book, opening_passes};
    ghost use Rattle.gmp_book.specs.Hands.{Hands, values_back};

    /// A book of a run that has made no call, and one pass for each machine, in order.
    ///
    /// It takes memory for a history's entries, the shelf, the channels, all who may wait, and all that is counted; but for it only `make`,
    /// `start` and `segment` take any. `capacities` are those of the channels that the run begins with. There is a body for each goroutine,
    /// and an owner for each processor. Refused, by `BadLimits` or `OutOfMemory`, it hands both back.
    pub fn open(
        alloc: Global,
        run: u64,
        limits: Limits,
        capacities: &[u32],
        bodies: Vec<T>,
        owners: Vec<Q>,
    ) -> Result<(Self, Vec<Pass>), Unopened<T, Q>>
        ensures within { OnOk result (MayOpen limits (length bodies.items) capacities.now (length owners.items)) }
        ensures why { IfErr result (λ u. WhyUnopened (MayOpen limits (length bodies.items) capacities.now (length owners.items)) u.why) }
        ensures back { IfErr result (λ u. (u.bodies.items ≡ bodies.items) × (u.owners.items ≡ owners.items)) }
        ensures book { IfOk result (λ r. r.0 ≡ opening_book run limits capacities.now bodies.items owners.items) }
        ensures passes { IfOk result (λ r. r.1.items ≡ opening_passes run limits.machines) }
    {
        if !may_open(limits, bodies.len(), capacities, owners.len()) {
            return Err(Unopened::of(Refusal::BadLimits, bodies, owners));
        }
        let why = Refusal::OutOfMemory;
        let Ok(capacities) = capacities.to_vec(alloc) else {
            return Err(Unopened::of(why, bodies, owners));
        };
        let count = bodies.len() as u16;
        let Ok(journal) = Journal::open(alloc, run, limits, count, capacities) else {
            return Err(Unopened::of(why, bodies, owners));
        };
        let Ok(room) = Vec::with_capacity(alloc, limits.machines as usize) else {
            return Err(Unopened::of(why, bodies, owners));
        };
        let bodies = match Slots::of(alloc, bodies) {
            Ok(slots) => slots,
            Err(bodies) => {
                room.destroy_empty();
                return Err(Unopened::of(why, bodies, owners));
            }
        };
        let owners = match Slots::of(alloc, owners) {
            Ok(slots) => slots,
            Err(owners) => {
                room.destroy_empty();
                let bodies = bodies.into_items();
                return Err(Unopened::of(why, bodies, owners));
            }
        };
        let passes = first_passes(room, run, limits.machines);
        let book = Book {
            journal,
            bodies,
            owners,
        };
        Ok((book, passes))
    }

    /// Every accepted call that was not handed out, with its reply, in order.
    pub fn history(&self) -> &History
        ensures entries { result.now.list ≡ self.now.log.history }
        ensures part { IsBookPart self.now.log }
        ensures values { IsBook self.now }
        ensures waiting { NobodyCouldProceed self.now.log.state }
        // The shelf has each goroutine on it once, and no other.
        ensures listing { IsListing is_shelved self.now.log.state.table.goroutines self.now.log.shelf }
    {
        self.journal.history()
    }

    /// Whether as many entries as the history holds at a time wait to be handed out: then no call is accepted.
    #[inline(always)]
    pub fn is_full(&self) -> bool
        ensures { IsTrue result ↔ (length self.now.log.history ≡ self.now.log.limits.room) }
    {
        self.journal.is_full()
    }

    /// Hands out the entries since the last time, and takes the spare in their place. It takes no pass, makes no entry and takes no memory,
    /// and may be called whenever one likes, after the outcome too. Emptied, what was handed out is a spare again. The state at which the
    /// next entries begin is not kept, so there is no `segment` of them.
    pub fn hand_out(&mut self, spare: &mut History)
        requires empty { spare.old.list ≡ [] }
        requires room { self.old.log.limits.room ≤ spare.old.room }
        requires lasting { self.old.log.limits.room ≤ spare.old.lasting }
        ensures out { spare.new.list ≡ self.old.log.history }
        ensures lasting { self.old.log.limits.room ≤ spare.new.lasting }
        ensures rest { self.new.log ≡ handed_out self.old.log }
        ensures values { SameValues self.old self.new }
    {
        self.journal.hand_out(spare);
    }

    /// The present state, copied but for its outcome. A start takes memory for each of its lists.
    pub fn start(&self, alloc: Global) -> Result<Start, AllocError>
        ensures state { IfOk result (λ s. state_of s ≡ record self.now.log.state { outcome = None }) }
        // While the run lasts one may go on from it.
        ensures together { IfOk result (λ s. self.now.log.state.outcome ≡ None → MayGoOn self.now.log (state_of s)) }
    {
        self.journal.start(alloc)
    }

    /// Hands out the entries since the last time, with the state before the first of them, and how the run ended, if it did. It takes no
    /// pass and makes no entry.
    ///
    /// Refused, it has changed nothing: `Over` where entries were handed out since the outcome, `Busy` where there are entries since a
    /// `hand_out`, and else `OutOfMemory`. Directly after a `hand_out` a segment has no entries.
    pub fn segment(&mut self, alloc: Global) -> Result<Segment, Refusal>
        ensures taken { IfOk result (λ x. IsSegment self.old.log x self.new.log) }
        ensures why { IfErr result (WhyNoSegment self.old.log) }
        ensures values { SameValues self.old self.new }
        ensures err { OnErr result (self.new ≡ self.old) }
    {
        self.journal.segment(alloc)
    }

    /// How the run ended, if it did.
    pub fn outcome(&self) -> Option<Outcome>
        ensures outcome { result ≡ self.now.log.state.outcome }
        // While the run lasts another entry fits.
        ensures ongoing { IfNone result (entries_made self.now.log < self.now.log.limits.entries) }
    {
        self.journal.outcome()
    }

    /// Whether no call is accepted any more: the run has come to its outcome, or was stopped.
    #[inline(always)]
    pub fn is_over(&self) -> bool
        ensures { result ≡ is_over self.now.log }
    {
        self.journal.is_over()
    }

    /// Stops the run where it stands: no call is accepted any more, and what is out may be surrendered, as after an outcome.
    pub fn stop(&mut self)
        ensures log { self.new.log ≡ record self.old.log { stopped = true } }
        ensures values { SameValues self.old self.new }
    {
        self.journal.stop();
    }

    /// The goroutines as they stand: who is on the shelf, how many go on, until when they wait.
    pub fn goroutines(&self) -> &Goroutines
        ensures table { result.now.table ≡ self.now.log.state.table }
        ensures shelf { result.now.shelf ≡ self.now.log.shelf }
    {
        self.journal.goroutines()
    }

    /// The machines as they stand: which are parked, and who holds which processor.
    pub fn machines(&self) -> &Machines
        ensures { result.now ≡ self.now.log.state.machines }
    {
        self.journal.machines()
    }

    /// How many calls the machine made. Of one that isn't there 0.
    pub fn calls(&self, m: MNo) -> u64
        ensures { result ≡ slice_index self.now.log.state.counts m.0 }
    {
        self.journal.calls(m)
    }

    /// The machine of the pass makes the call, with these values, or it is refused and hands them back. A make, and no other call, is given
    /// memory: where that is refused, its goroutine is to be told `NoMemory`. `word` chooses among the cases of a select.
    // The word is handed in: the book has no generator, so that a run can be made again from its words.
    #[inline(always)]
    pub fn call(
        &mut self,
        memory: Option<Global>,
        pass: &mut Pass,
        call: Call,
        values: Values<T, Q>,
        word: u64,
    ) -> (Values<T, Q>, Result<Reply, Refusal>)
        requires suits { Suits call (handed_of values) }
        requires memory { NeedsMemory call memory }
        ensures refused { Says (WantsMemory self.old.log.limits call self.old.log.state) (refusal_of self.old.log pass.old call (handed_of values)) (refusal_in result.1) }
        ensures back { IfErr result.1 (λ why. result.0 ≡ values_back call why values) }
        ensures err { OnErr result.1 ((self.new ≡ self.old) × (pass.new ≡ pass.old)) }
        ensures records { IfOk result.1 (λ reply. Records self.old.log pass.old call reply self.new.log pass.new) }
        ensures choice { IfOk result.1 (λ reply. Chooses call word reply self.old.log.state self.old.log.shelf) }
        ensures hands { IfOk result.1 (λ reply. Hands call reply values result.0 self.old self.new) }
        ensures grants { OnOk result.1 (Grants pass.old.m (goroutine_in (handed_of values)) (processor_in (handed_of values)) call self.old.log.state) }
        ensures order { OnOk result.1 (IsInOrder self.old.log.limits self.old.log.state) }
        ensures ours { OnOk result.1 (names_other self.old.log.run (handed_of values) ≡ false) }
        ensures done { IfOk result.1 (λ reply. IsDoneTo call pass.old.m (goroutine_in (handed_of values)) (processor_in (handed_of values)) reply self.old.log.state self.new.log.state) }
    {
        let given = handed(&values);
        let g = claimed(&call);
        let known = self.journal.known(&call);
        let makes = memory.is_some();
        let mut reply = Reply::Done;
        let made = self
            .journal
            .call(memory, pass, &call, &given, word, false, &mut reply);
        match made {
            Err(why) => (values.refused(makes, why), Err(why)),
            Ok(()) => {
                let (held, called, ticket, proc) = values.parts();
                if let Some(ticket) = ticket {
                    ticket.open();
                }
                let run = self.journal.run();
                let told = told_by(known, reply);
                let way = way_of(reply);
                let (held, called) = settle_body(&mut self.bodies, way, run, g, told, held, called);
                let proc = settle_owner(&mut self.owners, run, reply, proc);
                let ticket = ticket_out(run, reply);
                (Values::of(held, called, ticket, proc), Ok(reply))
            }
        }
    }
}
