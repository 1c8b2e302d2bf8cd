//! The run so far, and the call that goes on with it.
//! One function makes all calls (`Journal::call`): refusal, effect, count and entry are stated and proved once, and not 29 times.
ghost use Rattle.std.specs.Prelude.{◌≡◌, ◌↔◌, ◌+◌, ◌<◌, ◌≤◌, [], None, Some, true, false, length, slice_index, IfErr, IfNone, IfOk, IfSome, IsTrue, OnErr, OnOk};
ghost use Rattle.gmp_seq.specs.Fits.{AreLimits};
ghost use Rattle.gmp_seq.specs.Table.{is_outstanding, is_shelved};
ghost use Rattle.gmp_start.specs.Start.{state_of};
ghost use Rattle.gmp_table.specs.Kept.{IsListing};
ghost use Rattle.std.specs.Option.{option_map};
ghost use Rattle.gmp_seq.specs.Needs.{WantsMemory};
ghost use Rattle.gmp_journal.specs.Frequent.{is_frequent};
ghost use Rattle.gmp_journal.specs.Grants.{Chooses, Grants, NeedsMemory, Suits};
ghost use Rattle.gmp_journal.specs.Handed.{goroutine_in, names_other, processor_in};
ghost use Rattle.gmp_journal.specs.Known.{known_by};
ghost use Rattle.gmp_seq.specs.Laws.{IsInOrder};
ghost use Rattle.gmp_journal.specs.Log.{Records, entries_made, is_over, opening_log};
ghost use Rattle.gmp_journal.specs.Refusals.{IsAllowed, IsCurrent, Says, first_refusal, is_foreign, refusal_in, refusal_of, turn_lines};
ghost use Rattle.gmp_journal.specs.Segments.{IsPart, IsSegment, MayGoOn, WhyNoSegment, begin_of, handed_out, lasting_state};

use crate::handed::Handed;
use crate::scheduler::Scheduler;
use crate::segment::{Begun, Segment};
use gmp_base::{MNo, Pass, Readiness, Refusal, Woke};
use gmp_goroutines::Goroutines;
use gmp_history::History;
use gmp_idle::Machines;
use gmp_seq::{Call, Limits, Outcome, Reply};
use gmp_start::Start;
use std::alloc::{AllocError, Global};
use std::marker::Model;
use std::mem;

/// A run of the scheduler. A contract sees what it was opened with, its history, and its present state.
///
/// The history is a run to the present state, whatever is called: from the opening, or from the state at which entries were last handed out.
/// It holds so many at a time (`limits.room`); where it is full no call is accepted until they are handed out. Only the opening, a make, a
/// start and a segment take memory.
#[derive(Drop)]
pub struct Journal {
    /// Which run this is. Values and passes name it, so that none of another run is taken.
    run: u64,
    limits: Limits,
    bodies: u16,
    /// Of the channels that the opening made, in order.
    capacities: Vec<u32>,
    scheduler: Scheduler,
    /// So many entries may follow before room, limit and outcome are looked at again: none once the run is over.
    left: u64,
    /// The entries that were not handed out. Room for as many as there may be at a time is taken at the opening and left untouched: its first
    /// write costs as much later, and a run that ends early never pays.
    entries: History,
    /// No call is accepted any more, whether or not the run has an outcome.
    stopped: bool,
    /// Entries were handed out since the outcome: there will be no more.
    is_closed: bool,
    /// Where the entries begin.
    begun: Begun,
}

impl Model for Journal {
    ghost use Rattle.gmp_journal.specs.Kept.{IsJournal, IsLeft, IsSized};
    ghost use Rattle.gmp_journal.specs.JournalView.{log_of};
    ghost use Rattle.gmp_journal.specs.Log.{Log};

    ghost Value = { Log };

    ghost view = { log_of };

    ghost invariant = { λ l. IsJournal (log_of l) l.entries.room l.entries.lasting × IsSized l.limits l.scheduler × IsLeft (log_of l) l.left };
}

/// How many entries may follow once so many were made and none waits to be handed out.
fn left_of(limits: &Limits, made: u64, is_over: bool) -> u64
    ensures room { result ≤ limits.now.room }
    ensures lasts { 0 < result → is_over ≡ false }
    ensures fits { 0 < result → made + result ≤ limits.now.entries }
{
    if is_over {
        return 0;
    }
    let rest = limits.entries.saturating_sub(made);
    rest.min(u64::from(limits.room))
}

impl Journal {
    /// A run that has made no call yet. All memory is taken here, but that of channels that are made later, of starts and of segments;
    /// where it is refused nothing is left behind.
    pub fn open(
        alloc: Global,
        run: u64,
        limits: Limits,
        bodies: u16,
        capacities: Vec<u32>,
    ) -> Result<Self, AllocError>
        requires { AreLimits limits bodies capacities.items }
        ensures { IfOk result (λ l. l ≡ opening_log run limits bodies capacities.items) }
    {
        let scheduler = Scheduler::open(alloc, limits, bodies, &capacities)?;
        let entries = History::with_room(alloc, limits.room)?;
        Ok(Journal {
            run,
            limits,
            bodies,
            capacities,
            scheduler,
            left: left_of(&limits, 0, false),
            entries,
            stopped: false,
            is_closed: false,
            begun: Begun::Opening,
        })
    }

    /// The run's number.
    #[inline(always)]
    pub fn run(&self) -> u64
        ensures { result ≡ self.now.run }
    {
        self.run
    }

    /// How the run ended, if it did.
    pub fn outcome(&self) -> Option<Outcome>
        ensures outcome { result ≡ self.now.state.outcome }
        // While the run lasts another entry fits.
        ensures ongoing { IfNone result (entries_made self.now < self.now.limits.entries) }
    {
        self.scheduler.outcome
    }

    /// Whether no call is accepted any more: the run has come to its outcome, or was stopped.
    #[inline(always)]
    pub fn is_over(&self) -> bool
        ensures { result ≡ is_over self.now }
    {
        self.left == 0 && (self.scheduler.outcome.is_some() || self.stopped)
    }

    /// Stops the run where it stands: no call is accepted any more, as after an outcome.
    pub fn stop(&mut self)
        ensures { self.new ≡ record self.old { stopped = true } }
    {
        self.stopped = true;
        self.left = 0;
    }

    /// Every accepted call that was not handed out, with its reply, in order.
    pub fn history(&self) -> &History
        ensures entries { result.now.list ≡ self.now.history }
        ensures part { IsPart self.now }
        // The shelf has each goroutine on it once, and no other.
        ensures listing { IsListing is_shelved self.now.state.table.goroutines self.now.shelf }
    {
        // It tells that the shelf lists those on it.
        let _ = self.scheduler.goroutines.has_shelved();
        &self.entries
    }

    /// Whether the ticket of this readiness is given out, and not yet claimed or put back.
    pub fn is_outstanding(&self, r: Readiness) -> bool
        ensures { result ≡ is_outstanding self.now.state.table r }
    {
        self.scheduler.goroutines.is_outstanding(r)
    }

    /// The goroutines as they stand.
    pub fn goroutines(&self) -> &Goroutines
        ensures table { result.now.table ≡ self.now.state.table }
        ensures shelf { result.now.shelf ≡ self.now.shelf }
    {
        &self.scheduler.goroutines
    }

    /// The machines as they stand.
    pub fn machines(&self) -> &Machines
        ensures { result.now ≡ self.now.state.machines }
    {
        &self.scheduler.machines
    }

    /// How many calls the machine made. Of one that isn't there 0.
    pub fn calls(&self, m: MNo) -> u64
        ensures { result ≡ slice_index self.now.state.counts m.0 }
    {
        self.scheduler.counts.of(m)
    }

    /// What a call has for a goroutine to be told, whatever the reply: of a claim what was stored for the goroutine when it became ready,
    /// of a `leave` the number that its blocking call brought.
    #[inline(always)]
    pub fn known(&self, call: &Call) -> Option<Woke>
        ensures { result ≡ known_by call.now self.now.state.table }
    {
        match call {
            Call::Claim(r) => Some(self.scheduler.goroutines.stored(r.g)),
            Call::Leave(number) => Some(Woke::Number(*number)),
            _ => None,
        }
    }

    /// Why a call with these values is refused, if it is: first by the pass and the values' runs, then by the state, and last for want of
    /// room in the history.
    #[inline(always)]
    fn refusal(&self, pass: &Pass, call: &Call, values: &Handed) -> Option<Refusal>
        ensures why { result ≡ refusal_of self.now pass.now call.now values.now }
        ensures allowed { IfNone result (IsAllowed self.now pass.now call.now values.now) }
    {
        if let Some(why) = self.turn_refusal(pass, values) {
            return Some(why);
        }
        // What the state forbids comes before want of room.
        if self.is_full() {
            return match self.scheduler.need_refusal(pass.m, call, values) {
                Some(why) => Some(why),
                None => Some(Refusal::Full),
            };
        }
        self.scheduler.need_refusal(pass.m, call, values)
    }

    /// Why the pass or the values' runs forbid the call, if they do: is the pass the machine's latest, of this run, and does the run last?
    /// A pass that has seen more entries than there are was forged.
    #[inline(always)]
    fn turn_refusal(&self, pass: &Pass, values: &Handed) -> Option<Refusal>
        ensures why { result ≡ first_refusal (turn_lines self.now pass.now values.now) }
        ensures current { IfNone result (IsCurrent self.now pass.now) }
        ensures ours { IfNone result (names_other self.now.run values.now ≡ false) }
    {
        if self.is_foreign(pass, values) {
            return Some(Refusal::WrongRun);
        }
        let calls = self.scheduler.counts.of(pass.m);
        if pass.calls != calls {
            return Some(Refusal::OutOfTurn(calls));
        }
        let made = self.scheduler.counts.all();
        if pass.seen > made {
            return Some(Refusal::Behind(made, pass.seen));
        }
        if self.is_over() {
            return Some(Refusal::Over);
        }
        None
    }

    /// Whether the pass or a value is of another run. A machine that the limits don't have is one too.
    #[inline(always)]
    fn is_foreign(&self, pass: &Pass, values: &Handed) -> bool
        ensures { result ≡ is_foreign self.now pass.now values.now }
    {
        pass.run != self.run || pass.m.0 >= self.limits.machines || values.names_other(self.run)
    }

    /// The machine of the pass makes the call, which is allowed. Where that is refused memory there is no entry.
    /// What a refusal would have to find was looked at before; here nothing is tested again.
    #[inline(always)]
    fn accept(
        &mut self,
        memory: Option<Global>,
        pass: &mut Pass,
        call: &Call,
        values: &Handed,
        word: u64,
        frequent: bool,
        out: &mut Reply,
    ) -> Result<(), AllocError>
        requires often { frequent ≡ true → is_frequent call.now ≡ true }
        requires suits { Suits call.now values.now }
        requires memory { NeedsMemory call.now memory }
        requires allowed { IsAllowed self.old pass.old call.now values.now }
        ensures records { OnOk result (Records self.old pass.old call.now out.new self.new pass.new) }
        ensures choice { OnOk result (Chooses call.now word out.new self.old.state self.old.shelf) }
        ensures grants { Grants pass.old.m (goroutine_in values.now) (processor_in values.now) call.now self.old.state }
        ensures ours { names_other self.old.run values.now ≡ false }
        ensures order { OnOk result (IsInOrder self.old.limits self.old.state) }
        ensures err { OnErr result ((self.new ≡ self.old) × (pass.new ≡ pass.old)) }
        ensures wanted { OnErr result (WantsMemory self.old.limits call.now self.old.state) }
    {
        let (m, k) = (pass.m, pass.calls);
        let (g, p) = (values.goroutine(), values.processor());
        self.scheduler
            .effect(memory, &self.limits, m, g, p, call, word, frequent, out)?;
        // The count comes after the effect and before the entry: the entry has the count before (`k`), the pass the one after.
        self.scheduler
            .count_one(&mut self.left, &self.limits, m, *out);
        self.entries.add(m, k, call, out, frequent);
        pass.advance(self.scheduler.counts.all());
        Ok(())
    }

    /// The machine of the pass makes the call, with these values, and the reply is written in place; or it is refused. `word` chooses among
    /// the cases of a select. Whoever says that the call is a frequent one, at compile time, has no arm of another compiled in.
    /// A refusal leaves journal and pass as they were, and `out` without meaning.
    // Inlined, here and below: of a call whose kind is known its own arms alone are left.
    #[inline(always)]
    pub fn call(
        &mut self,
        memory: Option<Global>,
        pass: &mut Pass,
        call: &Call,
        values: &Handed,
        word: u64,
        frequent: bool,
        out: &mut Reply,
    ) -> Result<(), Refusal>
        requires often { frequent ≡ true → is_frequent call.now ≡ true }
        requires suits { Suits call.now values.now }
        requires memory { NeedsMemory call.now memory }
        ensures refused { Says (WantsMemory self.old.limits call.now self.old.state) (refusal_of self.old pass.old call.now values.now) (refusal_in result) }
        ensures err { OnErr result ((self.new ≡ self.old) × (pass.new ≡ pass.old)) }
        ensures records { OnOk result (Records self.old pass.old call.now out.new self.new pass.new) }
        ensures choice { OnOk result (Chooses call.now word out.new self.old.state self.old.shelf) }
        ensures grants { OnOk result (Grants pass.old.m (goroutine_in values.now) (processor_in values.now) call.now self.old.state) }
        ensures order { OnOk result (IsInOrder self.old.limits self.old.state) }
        ensures ours { OnOk result (names_other self.old.run values.now ≡ false) }
    {
        if let Some(why) = self.refusal(pass, call, values) {
            return Err(why);
        }
        self.accept(memory, pass, call, values, word, frequent, out)
            .map_err(|_| Refusal::OutOfMemory)
    }

    /// Whether as many entries as the history holds at a time wait to be handed out: then no call is accepted.
    #[inline(always)]
    pub fn is_full(&self) -> bool
        ensures { IsTrue result ↔ (length self.now.history ≡ self.now.limits.room) }
    {
        self.left == 0 && self.entries.len() >= self.limits.room as usize
    }

    /// Hands out the entries since the last time, and takes the spare in their place. It takes no pass, makes no entry and takes no memory,
    /// and may be called whenever one likes, after the outcome too. Emptied, what was handed out is a spare again. The state at which the
    /// next entries begin is not kept, so there is no `segment` of them.
    pub fn hand_out(&mut self, spare: &mut History)
        requires empty { spare.old.list ≡ [] }
        requires room { self.old.limits.room ≤ spare.old.room }
        requires lasting { self.old.limits.room ≤ spare.old.lasting }
        ensures out { spare.new.list ≡ self.old.history }
        ensures lasting { self.old.limits.room ≤ spare.new.lasting }
        ensures rest { self.new ≡ handed_out self.old }
    {
        self.begin_anew(spare, None);
    }

    /// The same; the next entries begin at this state, where it is kept.
    fn begin_anew(&mut self, spare: &mut History, next: Option<Start>)
        requires empty { spare.old.list ≡ [] }
        requires room { self.old.limits.room ≤ spare.old.room }
        requires lasting { self.old.limits.room ≤ spare.old.lasting }
        requires next { IfSome next (λ s. state_of s ≡ self.old.state) }
        ensures out { spare.new.list ≡ self.old.history }
        ensures lasting { self.old.limits.room ≤ spare.new.lasting }
        ensures rest { self.new ≡ record (handed_out self.old) { begun = option_map state_of next } }
    {
        mem::swap(&mut self.entries, spare);
        self.begun = Begun::of(next);
        self.is_closed = self.scheduler.outcome.is_some();
        let is_over = self.is_closed | self.stopped;
        self.left = left_of(&self.limits, self.scheduler.counts.all(), is_over);
    }

    /// The state before the first entry once more, for the segment that begins there.
    fn begin(&self, alloc: Global) -> Result<Start, Refusal>
        requires { self.now.closed ≡ false }
        ensures start { IfOk result (λ s. begin_of self.now ≡ Some (state_of s)) }
        ensures why { IfErr result (WhyNoSegment self.now) }
    {
        let copied = match &self.begun {
            Begun::Opening => Start::opening(alloc, self.limits, self.bodies, &self.capacities),
            Begun::At(start) => start.copied(alloc),
            // Without an entry it is the present state.
            Begun::Unknown if self.entries.is_empty() => self.scheduler.copied(alloc),
            Begun::Unknown => return Err(Refusal::Busy),
        };
        copied.map_err(|_| Refusal::OutOfMemory)
    }

    /// Where the next segment begins, while the run lasts.
    fn next_start(&self, alloc: Global) -> Result<Option<Start>, AllocError>
        ensures { IfOk result (λ next. option_map state_of next ≡ lasting_state self.now.state) }
    {
        if self.scheduler.outcome.is_some() {
            return Ok(None);
        }
        Ok(Some(self.scheduler.copied(alloc)?))
    }

    /// What the next segment needs, where the run goes on: its start, and an empty history.
    fn next_segment(&self, alloc: Global) -> Result<(Option<Start>, History), AllocError>
        ensures next { IfOk result (λ r. option_map state_of r.0 ≡ lasting_state self.now.state) }
        ensures empty { IfOk result (λ r. r.1 ≡ record { list = []; room = self.now.limits.room; lasting = self.now.limits.room }) }
    {
        let next = self.next_start(alloc)?;
        Ok((next, History::with_room(alloc, self.limits.room)?))
    }

    /// Hands out the entries since the last time with the state before them, of which it keeps the next. It takes no pass and makes no
    /// entry; refused, it has changed nothing. Behind the outcome one segment is given, the last. Of entries since a `hand_out` none is: the
    /// state before them is not kept.
    pub fn segment(&mut self, alloc: Global) -> Result<Segment, Refusal>
        ensures taken { IfOk result (λ x. IsSegment self.old x self.new) }
        ensures why { IfErr result (WhyNoSegment self.old) }
        ensures err { OnErr result (self.new ≡ self.old) }
    {
        if self.is_closed {
            return Err(Refusal::Over);
        }
        // Each of the three may want memory, and until all are there nothing is changed.
        let start = self.begin(alloc)?;
        let Ok((next, entries)) = self.next_segment(alloc) else {
            return Err(Refusal::OutOfMemory);
        };
        let mut entries = entries;
        let end = self.scheduler.outcome;
        self.begin_anew(&mut entries, next);
        Ok(Segment {
            start,
            entries,
            end,
        })
    }

    /// The present state, copied but for its outcome. A start takes memory for each of its lists.
    pub fn start(&self, alloc: Global) -> Result<Start, AllocError>
        ensures state { IfOk result (λ s. state_of s ≡ record self.now.state { outcome = None }) }
        // While the run lasts one may go on from it.
        ensures together { IfOk result (λ s. self.now.state.outcome ≡ None → MayGoOn self.now (state_of s)) }
    {
        self.scheduler.copied(alloc)
    }

    /// The limits, what the channels of the opening could hold, and the entries that were not handed out. The run ends here, whatever its
    /// outcome.
    pub fn into_parts(self) -> (Limits, Vec<u32>, History)
        ensures limits { result.0 ≡ self.limits }
        ensures capacities { result.1.items ≡ self.capacities }
        ensures history { result.2.list ≡ self.history }
        ensures part { IsPart self }
    {
        let Journal {
            run: _,
            limits,
            bodies: _,
            capacities,
            scheduler: _,
            left: _,
            entries,
            stopped: _,
            is_closed: _,
            begun: _,
        } = self;
        (limits, capacities, entries)
    }
}
