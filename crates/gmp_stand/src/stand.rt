//! The core with what an act of it reads, as one value: turns of machines, and what is told of them.
ghost use Rattle.std.specs.Prelude.{◌≡◌, ◌<◌, ◌↔◌, ℕ, All, IfErr, IfOk, IfSome, IsSome, None, OnErr, OnOk, Some, [], length, map, option_copied, true, false};
ghost use Rattle.std.specs.Int.{bit_at};
ghost use Rattle.std.specs.Option.{option_map};
ghost use Rattle.gmp_seq.specs.Fits.{AreLimits, Fits};
ghost use Rattle.gmp_seq.specs.Table.{least_deadline, status_at};
ghost use Rattle.gmp_book.specs.Book.{WhyUnopened};
ghost use Rattle.gmp_acts.specs.Headline.{SameOpening};
ghost use Rattle.gmp_acts.specs.Lookouts.{NoWorkIsAsleep};
ghost use Rattle.gmp_acts.specs.System.{machine_at};
ghost use Rattle.gmp_driver.specs.Machine.{held_at};
ghost use Rattle.gmp_fair.specs.Fair.{AllSteady};
ghost use Rattle.gmp_core.specs.Stage.{parked};
ghost use Rattle.gmp_core.specs.Waits.{PassesNobodyOver};
ghost use Rattle.gmp_core.specs.Whole.{HeadlineOf, IsKept, IsWhole, emptied, goroutine_in_hand};
ghost use Rattle.gmp_stand.specs.Standing.{numbers, opening_standing};
ghost use Rattle.gmp_trace.specs.Text.{text};
ghost use Rattle.gmp_waits.specs.Doing.{doing_text};
ghost use Rattle.gmp_stand.specs.Told.{trace_of};
ghost use Rattle.gmp_stand.specs.Turns.{Advances, EndsAt, GoesOn, Resumes, Suffices, TakesTurn, wanted_at};

use crate::dealing::deal;
use crate::event::{Event, Handed};
use crate::telling::{TextError, text_of};
use gmp_acts::Choice;
use gmp_base::{GNo, MNo, Refusal, Refused};
use gmp_core::{Core, Want};
use gmp_history::History;
use gmp_seq::{Limits, Outcome, Status};
use gmp_trace::is_whole;
use gmp_waits::Doing;
use std::alloc::{AllocError, Global};
use std::marker::Model;

/// The number of the run: there is one.
const RUN: u64 = 0;

/// So many acts a turn has at most.
const MOST_ACTS: u32 = 4096;

/// The scheduler of a host. It is let go by its drop.
///
/// A contract sees the core, whose bodies are the goroutines' numbers, and the entries that were handed out last.
pub struct Stand {
    alloc: Global,
    core: Core<GNo>,
    /// What the last act was dealt. Each act writes what it reads, in place.
    choice: Choice,
    limits: Limits,
    goroutines: u16,
    capacities: Vec<u32>,
    /// None before the first hand-out.
    piece: Option<History>,
}

impl Model for Stand {
    ghost use Rattle.gmp_stand.specs.Standing.{IsStanding, Standing, piece_of};

    ghost Value = { Standing };

    ghost view = { λ s. record { core = s.core; piece = piece_of s.piece } };

    ghost invariant = { λ s. IsStanding s.limits s.goroutines s.capacities.items s.piece s.core };
}

impl Drop for Stand {
    fn drop(self) {
        let Self {
            alloc: _,
            core,
            choice: _,
            limits: _,
            goroutines: _,
            capacities: _,
            piece: _,
        } = self;
        let _ = core.close();
    }
}

/// The numbers of so many goroutines.
fn numbers(alloc: Global, count: u16) -> Result<Vec<GNo>, AllocError>
    ensures { IfOk result (λ all. all.items ≡ numbers count) }
{
    let mut all = Vec::new(alloc);
    for g in 0..count {
        all.push(GNo(g))?;
    }
    Ok(all)
}

impl Stand {
    /// A scheduler that made no act, of machines that are all fair, or none is. `BadLimits` comes before `OutOfMemory`.
    pub fn open(
        alloc: Global,
        limits: Limits,
        goroutines: u16,
        capacities: &[u32],
        is_fair: bool,
    ) -> Result<Self, Refusal>
        ensures within { OnOk result (AreLimits limits goroutines capacities.now) }
        ensures why { IfErr result (WhyUnopened (AreLimits limits goroutines capacities.now)) }
        ensures opened { IfOk result (λ s. s ≡ opening_standing is_fair limits goroutines capacities.now) }
        ensures steady { IfOk result (λ s. is_fair ≡ true → AllSteady s.core.system) }
    {
        if !limits.allow(goroutines as usize, capacities) {
            return Err(Refusal::BadLimits);
        }
        let (Ok(bodies), Ok(kept)) = (numbers(alloc, goroutines), capacities.to_vec(alloc)) else {
            return Err(Refusal::OutOfMemory);
        };
        match Core::open_fair(alloc, RUN, limits, capacities, bodies, is_fair) {
            Ok(core) => Ok(Stand {
                alloc,
                core,
                choice: Choice::default(),
                limits,
                goroutines,
                capacities: kept,
                piece: None,
            }),
            Err(Refused { why, back: _ }) => Err(why),
        }
    }

    /// Machine m acts until it needs something from outside, is parked or done, or the history is full; and what that is. What is handed
    /// in serves the turn's first act, or is let go where that doesn't want it.
    pub fn turn(&mut self, m: MNo, handed: Handed) -> Event
        ensures turn { TakesTurn m handed result self.old.core self.new.core }
        ensures served { PassesNobodyOver self.old.core }
        ensures steady { AllSteady self.old.core.system → AllSteady self.new.core.system }
        ensures headline { HeadlineOf self.new.core.system }
        ensures awake { NoWorkIsAsleep self.new.core.system }
        ensures opened { SameOpening self.old.core.system.book self.new.core.system.book }
        ensures piece { self.new.piece ≡ self.old.piece }
    {
        let mut handed = handed;
        self.keeps();
        for made in 0..MOST_ACTS {
            if let Some(event) = self.end(m, &handed, made) {
                return event;
            }
            self.advance(m, &mut handed, made);
        }
        Event::More
    }

    /// The headline holds, no work is left asleep, and fair machines pass nobody over: so it is told of a core that makes no act.
    fn keeps(&mut self)
        ensures same { self.new ≡ self.old }
        ensures served { PassesNobodyOver self.old.core }
        ensures headline { HeadlineOf self.new.core.system }
        ensures awake { NoWorkIsAsleep self.new.core.system }
    {
        self.core.serves();
        let _ = self.core.run(&[]);
    }

    /// The machine makes one act, so many of its turn having been made.
    fn advance(&mut self, m: MNo, handed: &mut Handed, made: u32)
        requires { GoesOn self.old.core.system m handed.old made }
        ensures advances { Advances m made (record { core = self.old.core; handed = handed.old }) (record { core = self.new.core; handed = handed.new }) }
        ensures steady { AllSteady self.old.core.system → AllSteady self.new.core.system }
        ensures headline { HeadlineOf self.new.core.system }
        ensures awake { NoWorkIsAsleep self.new.core.system }
        ensures opened { SameOpening self.old.core.system.book self.new.core.system.book }
        ensures piece { self.new.piece ≡ self.old.piece }
    {
        deal(self.core.wants(m), handed, &mut self.choice);
        // There is room.
        let _ = self.core.act(m, &self.choice);
    }

    /// Why the machine's turn ends here, so many acts of it having been made, if it does.
    fn end(&mut self, m: MNo, handed: &Handed, made: u32) -> Option<Event>
        ensures same { self.new ≡ self.old }
        ensures ends { IfSome result (λ event. EndsAt event self.new.core.system m handed.now made) }
        ensures goes_on { result ≡ None → GoesOn self.new.core.system m handed.now made }
    {
        if m.0 >= self.limits.machines {
            return Some(Event::Done);
        }
        let awaited = self.awaited(m, handed, made);
        if awaited.is_none() && self.core.is_full() {
            return Some(Event::Full);
        }
        awaited
    }

    /// What the machine needs from outside, or that it is parked or done, so many acts of its turn having been made.
    fn awaited(&mut self, m: MNo, handed: &Handed, made: u32) -> Option<Event>
        ensures same { self.new ≡ self.old }
        ensures ends { IfSome result (λ event. EndsAt event self.new.core.system m handed.now made) }
        ensures suffices { result ≡ None → Suffices (wanted_at self.new.core.system m) self.new.core.system m handed.now made }
    {
        match self.core.wants(m) {
            Want::Ask if made > 0 || handed.ask.is_none() => Some(self.resume(m)),
            Want::Number if made > 0 || handed.number.is_none() => {
                Some(Event::Call(self.goroutine(m)))
            }
            Want::Moment(Some(deadline)) if made > 0 && handed.moment < deadline => {
                Some(Event::Wait(deadline))
            }
            Want::Nothing if self.core.parked(m) => Some(Event::Parked),
            Want::Nothing if self.core.done(m) => Some(Event::Done),
            _ => None,
        }
    }

    /// What the goroutine in the machine's hand is to be told, where that waits to go on.
    fn resume(&mut self, m: MNo) -> Event
        requires { IsSome (held_at (machine_at self.old.core.system m).place (machine_at self.old.core.system m).hand.held) }
        ensures same { self.new ≡ self.old }
        ensures resumes { Resumes self.new.core.system m result }
    {
        let Some(woke) = self.core.held(m) else {
            unreachable!()
        };
        Event::Resume(self.goroutine(m), woke)
    }

    /// The goroutine in the machine's hand.
    fn goroutine(&mut self, m: MNo) -> GNo
        requires { IsSome (held_at (machine_at self.old.core.system m).place (machine_at self.old.core.system m).hand.held) }
        ensures same { self.new ≡ self.old }
        ensures its { goroutine_in_hand self.new.core.system m ≡ Some result }
    {
        match self.core.body(m) {
            Some(g) => *g,
            None => unreachable!(),
        }
    }

    /// Whether the machine is parked: it needs no turn until another wakes it.
    pub fn parked(&self, m: MNo) -> bool
        ensures { result ≡ parked self.now.core.system m.0 }
    {
        self.core.parked(m)
    }

    /// The machines that are parked, each by the bit of its number.
    pub fn parked_set(&self) -> u64
        ensures { (m : ℕ) → m < 64 → (bit_at result m ≡ 1) ↔ (parked self.now.core.system m ≡ true) }
    {
        let mut set = 0u64;
        for m in 0..64u8 {
            if self.core.parked(MNo(m)) {
                set |= 1 << m;
            }
        }
        set
    }

    /// The least deadline of all goroutines that wait, in nanoseconds.
    pub fn deadline(&self) -> Option<u64>
        ensures { result ≡ least_deadline self.now.core.system.book.state.table }
    {
        self.core.least_deadline()
    }

    /// How the run ended, if it did.
    pub fn outcome(&self) -> Option<Outcome>
        ensures { result ≡ self.now.core.system.book.state.outcome }
    {
        self.core.outcome()
    }

    /// The entries since the last hand-out.
    pub fn history(&self) -> &History
        ensures entries { result.now.list ≡ self.now.core.system.book.history }
        ensures headline { HeadlineOf self.now.core.system }
        ensures within { AreLimits self.now.core.system.book.limits self.now.core.system.book.bodies self.now.core.system.book.capacities }
        ensures fits { All Fits self.now.core.system.book.history }
    {
        self.core.history()
    }

    /// What the goroutine does. None where there is no goroutine of this number.
    pub fn status(&self, g: GNo) -> Option<&Status>
        ensures status { option_copied result ≡ status_at self.now.core.system.book.state.table g }
        ensures headline { HeadlineOf self.now.core.system }
    {
        let _ = self.core.history();
        match self.core.goroutine(g) {
            Some(row) => Some(&row.status),
            None => None,
        }
    }

    /// What the goroutine does, in the words of `gmp explain`, as `waits to receive from channel 2`. None where there is no goroutine of this
    /// number.
    pub fn status_text(&self, g: GNo) -> Result<Option<String>, AllocError>
        ensures words { IfOk result (λ told. option_map (λ x. x.bytes.items) told ≡ option_map doing_text (status_at self.now.core.system.book.state.table g)) }
        ensures headline { HeadlineOf self.now.core.system }
    {
        match self.status(g) {
            Some(status) => Ok(Some(format!(in self.alloc; "{}", Doing(status))?)),
            None => Ok(None),
        }
    }

    /// The run so far as the text of a trace, from the opening on. Its history is to be kept whole: there is room for as many entries as there
    /// may be, and none was handed out.
    pub fn text(&self) -> Result<Vec<u8>, TextError>
        ensures text { IfOk result (λ told. told.items ≡ text (trace_of self.now.core.system)) }
        ensures whole { OnOk result (IsWhole self.now.core.system × IsKept self.now.core.system.book.limits) }
    {
        if self.piece.is_some() || !is_whole(&self.limits) {
            return Err(TextError::NotWhole);
        }
        Ok(text_of(
            self.alloc,
            self.limits,
            self.goroutines,
            &self.capacities,
            self.core.history(),
            self.core.outcome(),
        )?)
    }

    /// Hands out the entries since the last time, in place of those that were handed out then, so that the history has room again. It takes
    /// memory the first time alone.
    pub fn hand_out(&mut self) -> Result<(), AllocError>
        ensures out { OnOk result (self.new ≡ record { core = record self.old.core { system = emptied self.old.core.system }; piece = self.old.core.system.book.history }) }
        ensures refused { OnErr result (self.new ≡ self.old) }
    {
        if self.piece.is_none() {
            self.piece = Some(History::with_room(self.alloc, self.limits.room)?);
        }
        let Some(piece) = &mut self.piece else {
            unreachable!()
        };
        piece.clear();
        self.core.hand_out(piece);
        Ok(())
    }

    /// The entries that were handed out last; none before the first time.
    pub fn piece(&self) -> Option<&History>
        ensures some { IfSome result (λ piece. piece.now.list ≡ self.now.piece) }
        ensures none { result ≡ None → self.now.piece ≡ [] }
    {
        self.piece.as_ref()
    }
}
