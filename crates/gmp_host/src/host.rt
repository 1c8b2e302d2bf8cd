//! A host's goroutines and channels, and their run.
ghost use Rattle.std.specs.Prelude.{◌≡◌, ◌≢◌, ◌↔◌, ◌++◌, ◌∷◌, ◌+◌, ◌<◌, ◌≤◌, ◌^◌, [], IfErr, IfOk, IsTrue, OnErr, OnOk, Some, length};
ghost use Rattle.gmp_turn.specs.Whole.{IsWholeRun};
ghost use Rattle.gmp_seq.specs.Fits.{AreLimits};
ghost use Rattle.gmp_host.specs.Ends.{IsOfLegalRun, IsOfPieces, IsSaidInPieces, IsSaidRun, IsSaidToStop, StopsPieces, TakesLeft};
ghost use Rattle.gmp_host.specs.Played.{BoxAnswers, BoxAsks};
ghost use Rattle.gmp_base.specs.declared.number.GNo.{GNo};
ghost use Rattle.gmp_host.specs.Openings.{IsCovered, IsMissing, NamesMissing, limits_of};
ghost use Rattle.gmp_host.specs.Traced.{IsSaidTrace, IsTraced};
ghost use Rattle.gmp_run.specs.Counts.{all_calls};

use crate::channel::Channel;
use crate::ending::{Ended, Lost, Short};
use crate::goroutine::{Go, Goroutine, Loss};
use crate::group::Group;
use crate::note::{Note, Time};
use crate::settings::Settings;
use crate::spawner::{Outputs, Spawner, Task};
use crate::stamps::Stamps;
use crate::traced::Traced;
use crate::waits::told_at_end;
use gmp_base::{CNo, GNo};
use gmp_history::{History, PassLog};
use gmp_run::{Clock, Gate, Open, Since, Sink, Stop, run_fair, run_into_fair};
use gmp_worker::Boxed;
use std::alloc::Global;
use std::sync::atomic::{AtomicBool, Ordering};
use std::sync::{Arc, Mutex, Wait};
use std::thread::Threads;
use std::time;

/// The number of the run: a host has one.
const RUN: u64 = 0;

/// Goroutines and channels that a program hands over to be run. `channel` adds to the capacities, and `push` to the bodies.
#[derive(Drop)]
pub struct Host {
    pub(crate) alloc: Global,
    pub settings: Settings,
    /// How much room each channel has, by its number.
    pub capacities: Vec<u32>,
    /// The goroutines, by their numbers.
    pub bodies: Vec<Boxed>,
    /// How many goroutines were boxed. Each is to be pushed.
    pub boxed: u64,
    /// How many goroutines behind main were reserved. Each is to be pushed.
    pub reserved: u16,
    pub(crate) loss: Loss,
    pub(crate) shown: Note,
    /// Whether a goroutine reads the time.
    is_timed: AtomicBool,
}

/// Which goroutine was lost first, if one was.
pub(crate) fn first(loss: &Loss) -> Option<Lost> {
    *loss.try_lock()?
}

/// How many calls all machines made.
fn made(logs: &[PassLog]) -> u64
    requires few { all_calls logs.now < 2 ^ 64 }
    ensures { result ≡ all_calls logs.now }
{
    logs.iter().map(|log| log.calls).sum()
}

/// Hands the sink what is left, if there is anything.
fn hand_rest<S: Sink>(sink: &mut S, history: &mut History) -> Result<(), Stop>
    ensures taken { OnOk result (TakesLeft S.takes sink.old history.old.list sink.new) }
    ensures refused { OnErr result (S.refuses sink.old history.old.list sink.new) }
    ensures some { OnErr result (history.old.list ≢ []) }
{
    if history.is_empty() {
        return Ok(());
    }
    sink.take(history)
}

impl Host {
    /// A host with no goroutine and no channel.
    pub fn new(alloc: Global, settings: Settings) -> Result<Self, Short>
        ensures { IfOk result (λ h. (h.settings ≡ settings) × (h.capacities.items ≡ []) × (h.bodies.items ≡ []) × (h.boxed ≡ 0) × (h.reserved ≡ 0)) }
    {
        Ok(Host {
            alloc,
            settings,
            capacities: Vec::new(alloc),
            bodies: Vec::new(alloc),
            boxed: 0,
            reserved: 0,
            loss: Arc::new(alloc, Mutex::new(None))?,
            shown: Note::new(alloc)?,
            is_timed: AtomicBool::new(false),
        })
    }

    /// One more channel, with room for so many values, at most 4096: `make(chan T, capacity)`.
    pub fn channel(&mut self, capacity: u32) -> Result<Channel, Short>
        ensures number { IfOk result (λ c. c.0 ≡ Some (record { 0 = length self.old.capacities.items })) }
        ensures capacities { OnOk result (self.new.capacities.items ≡ self.old.capacities.items ++ capacity ∷ []) }
        ensures limits { (result ≡ Err Short.BadLimits) ↔ (65536 ≤ length self.old.capacities.items) }
        ensures memory { IfErr result (λ e. e ≢ Short.BadLimits → e ≡ Short.OutOfMemory) }
        ensures err { OnErr result (self.new.capacities.items ≡ self.old.capacities.items) }
        ensures bodies { (self.new.bodies ≡ self.old.bodies) × (self.new.boxed ≡ self.old.boxed) }
        ensures settings { self.new.settings ≡ self.old.settings }
    {
        let number = u16::try_from(self.capacities.len()).map_err(|_| Short::BadLimits)?;
        self.capacities.push(capacity)?;
        Ok(Channel::of(CNo(number)))
    }

    /// So many goroutines that are waited for, by a channel of their own, on which none of them waits.
    pub fn group(&mut self, members: u16) -> Result<Group, Short>
        ensures members { IfOk result (λ g. g.left ≡ members) }
        ensures number { IfOk result (λ g. g.channel.0 ≡ Some (record { 0 = length self.old.capacities.items })) }
        ensures capacities { OnOk result (self.new.capacities.items ≡ self.old.capacities.items ++ members ∷ []) }
        ensures limits { (result ≡ Err Short.BadLimits) ↔ (65536 ≤ length self.old.capacities.items) }
        ensures memory { IfErr result (λ e. e ≢ Short.BadLimits → e ≡ Short.OutOfMemory) }
        ensures err { OnErr result (self.new.capacities.items ≡ self.old.capacities.items) }
        ensures bodies { (self.new.bodies ≡ self.old.bodies) × (self.new.boxed ≡ self.old.boxed) }
        ensures settings { self.new.settings ≡ self.old.settings }
    {
        Ok(Group {
            channel: self.channel(u32::from(members))?,
            left: u32::from(members),
        })
    }

    /// A number that goroutines leave for the host.
    pub fn note(&self) -> Result<Note, Short> {
        Note::new(self.alloc)
    }

    /// The time, for a goroutine that reads it.
    pub fn time(&self) -> Result<Time, Short> {
        self.is_timed.store(true, Ordering::SeqCst);
        Ok(Time::of(self.shown.share()?))
    }

    /// Where bodies leave their outputs, with memory for so many, at least one. Each goroutine that left one tells of it on this channel. One
    /// that finds no room yields again and again, which uses entries up.
    pub fn outputs<O: Drop>(&self, room: u32, told: Channel) -> Result<Outputs<O>, Short>
        ensures room { IfOk result (λ it. it.room ≡ room) }
        ensures told { IfOk result (λ it. it.told ≡ told) }
        ensures limits { (result ≡ Err Short.BadLimits) ↔ (room ≡ 0) }
        ensures memory { IfErr result (λ e. e ≢ Short.BadLimits → e ≡ Short.OutOfMemory) }
    {
        Outputs::new(self.alloc, room, told)
    }

    /// What starts goroutines and hands over their bodies, with memory for so many that no goroutine took yet.
    pub fn spawner<T: Task>(&self, room: u32) -> Result<Spawner<T>, Short>
        ensures room { IfOk result (λ it. it.room ≡ room) }
        ensures memory { IfErr result (λ e. e ≡ Short.OutOfMemory) }
    {
        Spawner::new(self.alloc, room)
    }

    /// Boxes a goroutine. What is boxed is pushed, in the same order.
    pub fn boxed<B: Goroutine>(&mut self, goroutine: B) -> Result<Box<Go<B>>, Short>
        ensures boxed { OnOk result (self.new.boxed ≡ self.old.boxed + 1) }
        ensures limits { (result ≡ Err Short.BadLimits) ↔ (65536 ≤ self.old.boxed) }
        ensures memory { IfErr result (λ e. e ≢ Short.BadLimits → e ≡ Short.OutOfMemory) }
        ensures err { OnErr result (self.new.boxed ≡ self.old.boxed) }
        ensures bodies { self.new.bodies ≡ self.old.bodies }
        ensures capacities { self.new.capacities ≡ self.old.capacities }
        ensures settings { self.new.settings ≡ self.old.settings }
    {
        let number = u16::try_from(self.boxed).map_err(|_| Short::BadLimits)?;
        let loss = Arc::try_clone(&self.loss)?;
        let go = Box::new(self.alloc, Go::of(goroutine, GNo(number), loss))?;
        self.boxed = u64::from(number) + 1;
        Ok(go)
    }

    /// One more goroutine, in the box that `boxed` made for it. The first is main, which alone runs at the start.
    pub fn push(&mut self, goroutine: Boxed) -> Result<GNo, Short>
        ensures number { IfOk result (λ g. g.0 ≡ length self.old.bodies.items) }
        ensures bodies { OnOk result (self.new.bodies.items ≡ self.old.bodies.items ++ goroutine ∷ []) }
        ensures limits { (result ≡ Err Short.BadLimits) ↔ (65536 ≤ length self.old.bodies.items) }
        ensures memory { IfErr result (λ e. e ≢ Short.BadLimits → e ≡ Short.OutOfMemory) }
        ensures err { OnErr result (self.new.bodies.items ≡ self.old.bodies.items) }
        ensures boxed { self.new.boxed ≡ self.old.boxed }
        ensures capacities { self.new.capacities ≡ self.old.capacities }
        ensures settings { self.new.settings ≡ self.old.settings }
    {
        let number = u16::try_from(self.bodies.len()).map_err(|_| Short::BadLimits)?;
        self.bodies.push(goroutine)?;
        Ok(GNo(number))
    }

    /// Whether all that was boxed was pushed, and all that was reserved.
    pub(crate) fn ready(&self) -> Result<(), Short>
        ensures pushed { (result ≡ Err Short.NotPushed) ↔ (self.now.boxed ≢ length self.now.bodies.items) }
        ensures reserved { OnOk result (IsCovered self.now.reserved (length self.now.bodies.items)) }
        ensures missing { IfErr result (λ e. e ≢ Short.NotPushed → (g : GNo) × (e ≡ Short.NoBody g) × IsMissing self.now.reserved (length self.now.bodies.items) g) }
    {
        if self.bodies.len() as u64 != self.boxed {
            return Err(Short::NotPushed);
        }
        match self.missing() {
            Some(missing) => Err(Short::NoBody(missing)),
            None => Ok(()),
        }
    }

    /// Runs the goroutines by machines in threads, until the run is over and each thread has ended. Who goes first is the threads' own
    /// affair. All entries have to be kept.
    pub fn run<R: Threads + Wait + time::Clock + Sync>(self, rt: &R) -> Result<Ended, Short>
        ensures ended { IfOk result (IsOfLegalRun (limits_of self.settings) self.capacities.items (length self.bodies.items)) }
        ensures said { IfOk result (IsSaidRun (BoxAsks (λ box body. record box { value = body }) resumed) (BoxAnswers (λ box body. record box { value = body }) blocked) (limits_of self.settings) self.capacities.items self.bodies.items) }
        ensures whole { OnOk result (self.settings.entries ≤ self.settings.room) }
        ensures above { IfErr result (λ e. e ≡ Short.AboveRoom → self.settings.room < self.settings.entries) }
        ensures limits { IfErr result (λ e. e ≡ Short.BadLimits
            → AreLimits (limits_of self.settings) (length self.bodies.items) self.capacities.items → ⊥) }
        ensures memory { IfErr result (λ e. e ≡ Short.OutOfMemory
            → IsWholeRun (limits_of self.settings) (length self.bodies.items) self.capacities.items) }
        ensures pushed { (result ≡ Err Short.NotPushed) ↔ (self.boxed ≢ length self.bodies.items) }
        ensures reserved { OnOk result (IsCovered self.reserved (length self.bodies.items)) }
        ensures missing { IfErr result (NamesMissing self.reserved (length self.bodies.items)) }
        ensures kinds { IfErr result (λ e. (e ≢ Short.NoEnd) × (e ≢ Short.Stopped)) }
    {
        let clock = Since::now(rt);
        self.run_by(rt, &clock, &Open)
    }

    /// The same, and its trace.
    pub fn run_traced<R: Threads + Wait + time::Clock + Sync>(self, rt: &R) -> Result<Traced, Short>
        ensures traced { IfOk result (IsTraced (limits_of self.settings) self.capacities.items (length self.bodies.items)) }
        ensures said { IfOk result (IsSaidTrace (BoxAsks (λ box body. record box { value = body }) resumed) (BoxAnswers (λ box body. record box { value = body }) blocked) (limits_of self.settings) self.capacities.items self.bodies.items) }
        ensures whole { OnOk result (self.settings.entries ≤ self.settings.room) }
        ensures above { IfErr result (λ e. e ≡ Short.AboveRoom → self.settings.room < self.settings.entries) }
        ensures limits { IfErr result (λ e. e ≡ Short.BadLimits
            → AreLimits (limits_of self.settings) (length self.bodies.items) self.capacities.items → ⊥) }
        ensures memory { IfErr result (λ e. e ≡ Short.OutOfMemory
            → IsWholeRun (limits_of self.settings) (length self.bodies.items) self.capacities.items) }
        ensures pushed { (result ≡ Err Short.NotPushed) ↔ (self.boxed ≢ length self.bodies.items) }
        ensures reserved { OnOk result (IsCovered self.reserved (length self.bodies.items)) }
        ensures missing { IfErr result (NamesMissing self.reserved (length self.bodies.items)) }
        ensures kinds { IfErr result (λ e. (e ≢ Short.NoEnd) × (e ≢ Short.Stopped)) }
    {
        let clock = Since::now(rt);
        self.ran(rt, &clock, &Open)
    }

    /// Runs them by a clock and a gate of one's own.
    pub fn run_by<R: Threads + Wait + Sync, C: Clock + Sync, G: Gate + Sync>(
        self,
        rt: &R,
        clock: &C,
        gate: &G,
    ) -> Result<Ended, Short>
        ensures ended { IfOk result (IsOfLegalRun (limits_of self.settings) self.capacities.items (length self.bodies.items)) }
        ensures said { IfOk result (IsSaidRun (BoxAsks (λ box body. record box { value = body }) resumed) (BoxAnswers (λ box body. record box { value = body }) blocked) (limits_of self.settings) self.capacities.items self.bodies.items) }
        ensures whole { OnOk result (self.settings.entries ≤ self.settings.room) }
        ensures above { IfErr result (λ e. e ≡ Short.AboveRoom → self.settings.room < self.settings.entries) }
        ensures limits { IfErr result (λ e. e ≡ Short.BadLimits
            → AreLimits (limits_of self.settings) (length self.bodies.items) self.capacities.items → ⊥) }
        ensures memory { IfErr result (λ e. e ≡ Short.OutOfMemory
            → IsWholeRun (limits_of self.settings) (length self.bodies.items) self.capacities.items) }
        ensures pushed { (result ≡ Err Short.NotPushed) ↔ (self.boxed ≢ length self.bodies.items) }
        ensures reserved { OnOk result (IsCovered self.reserved (length self.bodies.items)) }
        ensures missing { IfErr result (NamesMissing self.reserved (length self.bodies.items)) }
        ensures kinds { IfErr result (λ e. (e ≢ Short.NoEnd) × (e ≢ Short.Stopped)) }
    {
        Ok(self.ran(rt, clock, gate)?.ended)
    }

    /// The run by machines in threads, by this clock and this gate, and its trace.
    fn ran<R: Threads + Wait + Sync, C: Clock + Sync, G: Gate + Sync>(
        self,
        rt: &R,
        clock: &C,
        gate: &G,
    ) -> Result<Traced, Short>
        ensures traced { IfOk result (IsTraced (limits_of self.settings) self.capacities.items (length self.bodies.items)) }
        ensures said { IfOk result (IsSaidTrace (BoxAsks (λ box body. record box { value = body }) resumed) (BoxAnswers (λ box body. record box { value = body }) blocked) (limits_of self.settings) self.capacities.items self.bodies.items) }
        ensures whole { OnOk result (self.settings.entries ≤ self.settings.room) }
        ensures above { IfErr result (λ e. e ≡ Short.AboveRoom → self.settings.room < self.settings.entries) }
        ensures limits { IfErr result (λ e. e ≡ Short.BadLimits
            → AreLimits (limits_of self.settings) (length self.bodies.items) self.capacities.items → ⊥) }
        ensures memory { IfErr result (λ e. e ≡ Short.OutOfMemory
            → IsWholeRun (limits_of self.settings) (length self.bodies.items) self.capacities.items) }
        ensures pushed { (result ≡ Err Short.NotPushed) ↔ (self.boxed ≢ length self.bodies.items) }
        ensures reserved { OnOk result (IsCovered self.reserved (length self.bodies.items)) }
        ensures missing { IfErr result (NamesMissing self.reserved (length self.bodies.items)) }
        ensures kinds { IfErr result (λ e. (e ≢ Short.NoEnd) × (e ≢ Short.Stopped)) }
    {
        self.ready()?;
        if self.settings.entries > u64::from(self.settings.room) {
            return Err(Short::AboveRoom);
        }
        let alloc = self.alloc;
        let limits = self.settings.limits();
        let is_timed = self.is_timed.load(Ordering::SeqCst);
        let bodies = self.bodies;
        let count = bodies.len();
        let gate = Stamps::of(clock, &self.shown, is_timed, gate);
        let ran = run_fair(
            rt,
            alloc,
            RUN,
            limits,
            self.capacities.as_slice(),
            bodies,
            clock,
            &gate,
            self.settings.random,
            self.settings.fair,
        );
        let report = match ran {
            Ok(report) => report,
            Err(unrun) => return Err(unrun.why.into()),
        };
        let outcome = report.outcome.unwrap();
        let history = report.history;
        let capacities = self.capacities;
        let told = told_at_end(alloc, limits, count, &capacities, outcome, &history)?;
        let ended = Ended {
            outcome,
            entries: history.len() as u64,
            lost: first(&self.loss),
            waiting: told.waiting,
            lately: told.lately,
        };
        Ok(Traced {
            alloc,
            ended,
            limits,
            bodies: count as u16,
            capacities,
            history,
        })
    }

    /// Runs the goroutines as `run` does, and hands the history to the sink piece by piece, the last piece when the run is over. No more
    /// entries are kept at a time than the settings say. The sink comes back, also where the run was not begun. One that does not take a piece
    /// stops the run, which is `Stopped` then: the entries that it left go with the run, where `run_into` of gmp_run hands them back.
    pub fn run_into<R: Threads + Wait + time::Clock + Sync, S: Sink + Send>(
        self,
        rt: &R,
        sink: S,
    ) -> (Result<Ended, Short>, S)
        ensures ended { IfOk result.0 (λ e. IsOfPieces S.takes (limits_of self.settings) self.capacities.items (length self.bodies.items) sink e result.1) }
        ensures said { IfOk result.0 (λ e. IsSaidInPieces (BoxAsks (λ box body. record box { value = body }) resumed) (BoxAnswers (λ box body. record box { value = body }) blocked) S.takes (limits_of self.settings) self.capacities.items self.bodies.items sink e result.1) }
        ensures limits { IfErr result.0 (λ e. e ≡ Short.BadLimits
            → AreLimits (limits_of self.settings) (length self.bodies.items) self.capacities.items → ⊥) }
        ensures memory { IfErr result.0 (λ e. e ≡ Short.OutOfMemory
            → AreLimits (limits_of self.settings) (length self.bodies.items) self.capacities.items) }
        ensures pushed { (result.0 ≡ Err Short.NotPushed) ↔ (self.boxed ≢ length self.bodies.items) }
        ensures reserved { OnOk result.0 (IsCovered self.reserved (length self.bodies.items)) }
        ensures missing { IfErr result.0 (NamesMissing self.reserved (length self.bodies.items)) }
        ensures kinds { IfErr result.0 (λ e. (e ≢ Short.NoEnd) × (e ≢ Short.AboveRoom)) }
        ensures unused { IfErr result.0 (λ e. e ≢ Short.Stopped → result.1 ≡ sink) }
        ensures stopped { IfErr result.0 (λ e. e ≡ Short.Stopped
            → StopsPieces S.takes S.refuses (limits_of self.settings) self.capacities.items (length self.bodies.items) sink result.1) }
        ensures said_so_far { IfErr result.0 (λ e. e ≡ Short.Stopped
            → IsSaidToStop (BoxAsks (λ box body. record box { value = body }) resumed) (BoxAnswers (λ box body. record box { value = body }) blocked) S.takes S.refuses (limits_of self.settings) self.capacities.items self.bodies.items sink result.1) }
    {
        if let Err(why) = self.ready() {
            return (Err(why), sink);
        }
        let clock = Since::now(rt);
        let is_timed = self.is_timed.load(Ordering::SeqCst);
        let bodies = self.bodies;
        let gate = Stamps::of(&clock, &self.shown, is_timed, &Open);
        let (ran, mut sink) = run_into_fair(
            rt,
            self.alloc,
            RUN,
            self.settings.limits(),
            self.capacities.as_slice(),
            bodies,
            &clock,
            &gate,
            self.settings.random,
            sink,
            self.settings.fair,
        );
        let mut report = match ran {
            Ok(report) => report,
            Err(unrun) => return (Err(unrun.why.into()), sink),
        };
        let Some(outcome) = report.outcome else {
            return (Err(Short::Stopped), sink);
        };
        if hand_rest(&mut sink, &mut report.history).is_err() {
            return (Err(Short::Stopped), sink);
        }
        let ended = Ended {
            outcome,
            entries: made(&report.logs),
            lost: first(&self.loss),
            waiting: Vec::new(self.alloc),
            lately: Vec::new(self.alloc),
        };
        (Ok(ended), sink)
    }
}
