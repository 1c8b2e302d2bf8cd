//! Goroutines, channels and machines together: the effect of each call on them.
ghost use Rattle.std.specs.Prelude.{◌≡◌, ℕ, [], ◌∷◌, ◌+◌, ◌-◌, ◌<◌, ◌≤◌, ◌^◌, nat_le, List, None, Option, Some, true, false, length, slice_get, sum, IfOk, OnErr, OnOk};
ghost use Rattle.gmp_seq.specs.declared.call.Call.{Call};
ghost use Rattle.gmp_seq.specs.declared.call.Outcome.{Outcome};
ghost use Rattle.gmp_seq.specs.declared.status.Mode.{Mode};
ghost use Rattle.gmp_seq.specs.declared.status.Status.{Status};
ghost use Rattle.gmp_seq.specs.Fits.{AreLimits};
ghost use Rattle.gmp_seq.specs.Machines.{Enters, Holds, IsAwake, IsBare};
ghost use Rattle.gmp_seq.specs.State.{SameChannels, main, opening};
ghost use Rattle.gmp_seq.specs.Step.{Effect, Exits, OnTable, Parks, counted_one, outcome_after, LeavesBy};
ghost use Rattle.gmp_seq.specs.Table.{IsCalling, IsRunning, RunsNothing, set_status};
ghost use Rattle.gmp_goroutines.specs.Shelf.{Shelves};
ghost use Rattle.gmp_start.specs.Start.{state_of};
ghost use Rattle.gmp_seq.specs.Needs.{WantsMemory};
ghost use Rattle.gmp_journal.specs.Grants.{Chooses, Grants, NeedsMemory};
ghost use Rattle.gmp_journal.specs.Frequent.{is_frequent};
ghost use Rattle.gmp_journal.specs.Kept.{IsSized};
ghost use Rattle.gmp_journal.specs.Scene.{IsYoung, KeepsCounts, scheduler_state};

mod refusing;

use crate::counts::Counts;
use gmp_base::{Case, Fault, GNo, MNo, PNo};
use gmp_goroutines::Goroutines;
use gmp_idle::Machines;
use gmp_seq::{Call, Limits, Outcome, Reply};
use gmp_start::{Start, copied_rows};
use std::alloc::{AllocError, Global};

/// Together the parts make a state as `gmp_seq` has it. They know nothing of passes, runs and refusals: whoever calls has asked whether the
/// call is allowed.
#[derive(Drop)]
pub(crate) struct Scheduler {
    /// With their channels, the shelf and the clock.
    pub(crate) goroutines: Goroutines,
    pub(crate) machines: Machines,
    pub(crate) counts: Counts,
    /// Some from the entry on that ended the run.
    pub(crate) outcome: Option<Outcome>,
}

impl Scheduler {
    /// No call was made, and the first goroutine is on the shelf.
    pub(crate) fn open(
        alloc: Global,
        limits: Limits,
        bodies: u16,
        capacities: &[u32],
    ) -> Result<Self, AllocError>
        requires { AreLimits limits bodies capacities.now }
        ensures state { IfOk result (λ s. scheduler_state s ≡ opening limits bodies capacities.now) }
        ensures shelf { IfOk result (λ s. s.goroutines.shelf ≡ main ∷ []) }
        ensures sized { IfOk result (IsSized limits) }
    {
        let (machines, channels) = (limits.machines, limits.channels);
        Ok(Scheduler {
            goroutines: Goroutines::open(alloc, machines, channels, bodies, capacities)?,
            machines: Machines::opening(alloc, limits.procs, machines)?,
            counts: Counts::none(alloc, machines)?,
            outcome: None,
        })
    }

    /// The same state as a start, but for its outcome. It takes memory for each list.
    pub(crate) fn copied(&self, alloc: Global) -> Result<Start, AllocError>
        ensures { IfOk result (λ s. state_of s ≡ record (scheduler_state self.now) { outcome = None }) }
    {
        Ok(Start {
            counts: self.counts.as_slice().to_vec(alloc)?,
            clock: self.goroutines.clock(),
            arrivals: self.goroutines.arrivals(),
            holders: self.machines.holders().to_vec(alloc)?,
            modes: self.machines.modes().to_vec(alloc)?,
            spinning: self.machines.spinning(alloc)?,
            marked: self.machines.marked(alloc)?,
            active: self.machines.active(),
            channels: self.goroutines.channels_copied(alloc)?,
            goroutines: copied_rows(alloc, self.goroutines.rows())?,
        })
    }

    /// A call of m has its effect, and its reply is written in place. g and p are a goroutine and a processor of m's, where the call is by
    /// one. Of a call that is known to be frequent no arm of another is compiled in.
    /// What the scheduler leaves open is chosen so: the least idle processor, the ticket on the shelf for longest, the least parked
    /// machine, and of a select the case that `word` picks (`Chooses`).
    #[inline(always)]
    pub(crate) fn effect(
        &mut self,
        memory: Option<Global>,
        limits: &Limits,
        m: MNo,
        g: GNo,
        p: PNo,
        call: &Call,
        word: u64,
        frequent: bool,
        out: &mut Reply,
    ) -> Result<(), AllocError>
        requires often { frequent ≡ true → is_frequent call.now ≡ true }
        requires memory { NeedsMemory call.now memory }
        requires grants { Grants m g p call.now (scheduler_state self.old) }
        requires young { IsYoung (scheduler_state self.old) }
        requires there { m.0 < self.old.goroutines.machines }
        requires limit { self.old.goroutines.limit ≡ limits.now.channels }
        // It doesn't matter how the entry is counted, nor how the run stands afterwards.
        ensures effect { OnOk result ((counts : List ℕ) (outcome : Option Outcome) → Effect limits.now m call.now out.new (scheduler_state self.old) (record (scheduler_state self.new) { counts = counts; outcome = outcome })) }
        ensures shelf { OnOk result (Shelves call.now out.new self.old.goroutines.table self.new.goroutines.table self.old.goroutines.shelf self.new.goroutines.shelf) }
        ensures choice { OnOk result (Chooses call.now word out.new (scheduler_state self.old) self.old.goroutines.shelf) }
        ensures rest { KeepsCounts self.old self.new }
        ensures err { OnErr result (self.new ≡ self.old) }
        ensures wanted { OnErr result (WantsMemory limits.now call.now (scheduler_state self.old)) }
    {
        match call {
            Call::Take => self.goroutines.take(out),
            Call::Claim(r) => {
                self.goroutines.claim(m, *r);
                *out = Reply::Held;
            }
            Call::Yield => {
                let r = self.goroutines.yield_to(g);
                *out = Reply::Shelved(r);
            }
            Call::Send(c, v) => self.goroutines.deal(g, Case::Send(*c, *v), out),
            Call::Recv(c) => self.goroutines.deal(g, Case::Recv(*c), out),
            Call::Poke => match self.machines.poke(m) {
                Some(n) => *out = Reply::Wakes(n),
                None => *out = Reply::Nothing,
            },
            // `frequent` is a constant of whoever calls, so this arm leaves none of the others in that copy.
            _ if frequent => unreachable!(),
            _ => *out = self.other_effect(memory, limits, m, g, p, call, word)?,
        }
        Ok(())
    }

    /// The same of a call that is not frequent. Apart: whoever makes a frequent one pays for no local of another.
    #[inline(never)]
    fn other_effect(
        &mut self,
        memory: Option<Global>,
        limits: &Limits,
        m: MNo,
        g: GNo,
        p: PNo,
        call: &Call,
        word: u64,
    ) -> Result<Reply, AllocError>
        requires other { is_frequent call.now ≡ false }
        requires memory { NeedsMemory call.now memory }
        requires grants { Grants m g p call.now (scheduler_state self.old) }
        requires young { IsYoung (scheduler_state self.old) }
        requires there { m.0 < self.old.goroutines.machines }
        requires limit { self.old.goroutines.limit ≡ limits.now.channels }
        // It doesn't matter how the entry is counted, nor how the run stands afterwards.
        ensures effect { IfOk result (λ reply. (counts : List ℕ) (outcome : Option Outcome) → Effect limits.now m call.now reply (scheduler_state self.old) (record (scheduler_state self.new) { counts = counts; outcome = outcome })) }
        ensures shelf { IfOk result (λ reply. Shelves call.now reply self.old.goroutines.table self.new.goroutines.table self.old.goroutines.shelf self.new.goroutines.shelf) }
        ensures choice { IfOk result (λ reply. Chooses call.now word reply (scheduler_state self.old) self.old.goroutines.shelf) }
        ensures rest { KeepsCounts self.old self.new }
        ensures err { OnErr result (self.new ≡ self.old) }
        ensures wanted { OnErr result (WantsMemory limits.now call.now (scheduler_state self.old)) }
    {
        Ok(match call {
            Call::Acquire => match self.machines.acquire(m) {
                Some(p) => Reply::Proc(p),
                None => Reply::Nothing,
            },
            Call::Put(r) => {
                self.goroutines.put(*r);
                Reply::Shelf
            }
            Call::Go(body) => self.goroutines.go(*body),
            Call::Spawn => self.goroutines.spawn(),
            Call::Exit => self.exit(m, g),
            // A make has memory, by `NeedsMemory`.
            Call::Make(capacity) => self.goroutines.make(memory.unwrap(), *capacity)?,
            Call::Close(c) => self.goroutines.close(*c),
            Call::Len(c) => self.goroutines.len(*c),
            Call::Cap(c) => self.goroutines.cap(*c),
            Call::Procs(n) => match self.machines.set_active(*n) {
                Some(before) => Reply::Number(before.into()),
                None => Reply::Fault(Fault::BadProcs),
            },
            Call::Select(cases, has_default, until) => {
                self.goroutines.select(g, cases, *has_default, *until, word)
            }
            Call::Sleep(until) => {
                self.goroutines.sleep(g, *until);
                Reply::Waits
            }
            Call::Gopark => {
                self.goroutines.park(g);
                Reply::Waits
            }
            Call::Ready(h) => self.goroutines.ready(*h),
            Call::Enter => self.enter(m, g, p),
            Call::Leave(number) => self.leave(m, g, *number),
            Call::Spin => Reply::Answer(self.machines.spin(m)),
            Call::Woken => Reply::Answer(self.machines.woken(m)),
            Call::Keep => Reply::Answer(self.machines.keep(m)),
            Call::Unspin => {
                self.machines.unspin(m);
                Reply::Done
            }
            Call::Declare => {
                self.machines.declare(m, p);
                Reply::Idle(p)
            }
            Call::Bare => {
                self.machines.bare(m);
                Reply::Done
            }
            Call::Park => self.park(m),
            Call::Tick(moment) => Reply::Woke(self.goroutines.tick(*moment)),
            Call::Take
            | Call::Claim(_)
            | Call::Yield
            | Call::Send(_, _)
            | Call::Recv(_)
            | Call::Poke => unreachable!(),
        })
    }

    /// The goroutine g that m runs ends, and with goroutine 0, which is main, the run: others are left where they are, as in Go.
    fn exit(&mut self, m: MNo, g: GNo) -> Reply
        requires runs { IsRunning self.old.goroutines.table g m }
        ensures exits { OnTable (Exits g result) (scheduler_state self.old) (scheduler_state self.new) }
        ensures shelf { self.new.goroutines.shelf ≡ self.old.goroutines.shelf }
        ensures rest { KeepsCounts self.old self.new }
    {
        self.goroutines.exit(g);
        if g.0 == 0 {
            Reply::MainEnded
        } else {
            Reply::Dead
        }
    }

    /// m has nothing to do: it parks, unless there is work, or a deadline to mind, or all are asleep, or it is to look again.
    /// The order of the answers is a rule of the definitions: work, all asleep, a deadline, a mark. What a marked machine saw when it
    /// looked at the queues may be old.
    fn park(&mut self, m: MNo) -> Reply
        requires { IsBare self.old.machines m }
        ensures parks { Parks m result (scheduler_state self.old) (scheduler_state self.new) }
        ensures rest { self.new ≡ record self.old { machines = self.new.machines } }
    {
        if self.goroutines.has_shelved() && self.machines.has_idle() {
            return Reply::Work;
        }
        // From counts that are kept with the rows: a park looks at no goroutine.
        if !self.goroutines.has_astir() {
            return Reply::AllAsleep;
        }
        if let Some(until) = self.goroutines.minded() {
            return Reply::Mind(until);
        }
        if self.machines.is_marked(m) {
            return Reply::LookAgain;
        }
        self.machines.park(m);
        Reply::Parked
    }

    /// The goroutine g that m runs begins a blocking call, which m makes. m gives the processor p up, and the least parked machine
    /// wakes, where one is parked.
    fn enter(&mut self, m: MNo, g: GNo, p: PNo) -> Reply
        requires runs { IsRunning self.old.goroutines.table g m }
        requires holds { Holds self.old.machines m p }
        requires awake { IsAwake self.old.machines m }
        ensures table { self.new.goroutines.table ≡ set_status self.old.goroutines.table g (Status.Calling m) }
        ensures machines { Enters m result self.old.machines self.new.machines }
        ensures channels { SameChannels (scheduler_state self.old) (scheduler_state self.new) }
        ensures shelf { self.new.goroutines.shelf ≡ self.old.goroutines.shelf }
        ensures choice { Chooses Call.Enter 0 result (scheduler_state self.old) self.old.goroutines.shelf }
        ensures rest { KeepsCounts self.old self.new }
    {
        self.goroutines.enter(m, g);
        Reply::Entered(p, self.machines.enter(m, p))
    }

    /// The goroutine g comes back from the blocking call that m makes. It runs on, and m holds the least idle processor, where one is
    /// idle; else it goes onto the shelf, to be told the number.
    fn leave(&mut self, m: MNo, g: GNo, number: u64) -> Reply
        requires calls { IsCalling self.old.goroutines.table g m }
        requires free { RunsNothing self.old.goroutines.table m }
        requires mode { slice_get self.old.machines.modes m.0 ≡ Some Mode.Calling }
        requires young { IsYoung (scheduler_state self.old) }
        requires there { m.0 < self.old.goroutines.machines }
        ensures leaves { LeavesBy m g number result (scheduler_state self.old) (scheduler_state self.new) }
        ensures shelf { Shelves (Call.Leave number) result self.old.goroutines.table self.new.goroutines.table self.old.goroutines.shelf self.new.goroutines.shelf }
        ensures choice { Chooses (Call.Leave number) 0 result (scheduler_state self.old) self.old.goroutines.shelf }
        ensures rest { KeepsCounts self.old self.new }
    {
        match self.machines.leave(m) {
            Some(p) => {
                self.goroutines.run_on(m, g);
                Reply::Runs(p)
            }
            None => Reply::Shelved(self.goroutines.come_back(m, g, number)),
        }
    }

    /// m made one entry more, which was answered so; with it the run may come to its outcome. A full book is the last to be asked: the
    /// entry that fills it may end the run by itself. While more entries are left, and the reply ends nothing, the outcome isn't written.
    #[inline(always)]
    pub(crate) fn count_one(&mut self, left: &mut u64, limits: &Limits, m: MNo, reply: Reply)
        requires there { m.0 < length self.old.counts }
        requires few { sum self.old.counts < 2 ^ 63 }
        requires lasts { 0 < left.old → self.old.outcome ≡ None }
        requires fits { 0 < left.old → sum self.old.counts + left.old ≤ limits.now.entries }
        ensures counted { scheduler_state self.new ≡ counted_one limits.now m reply (scheduler_state self.old) }
        ensures rest { self.new ≡ record self.old { counts = self.new.counts; outcome = self.new.outcome } }
        ensures made { sum self.new.counts ≡ sum self.old.counts + 1 }
        ensures less { left.new ≤ left.old - 1 }
        ensures goes_on { 0 < left.new → self.new.outcome ≡ None }
    {
        self.counts.add_one(m);
        if *left > 1 && !is_last(reply) {
            *left -= 1;
            return;
        }
        *left = 0;
        self.outcome = outcome_of(limits, reply, self.counts.all());
    }
}

/// Whether a run ends by this reply, whatever its limit.
#[inline(always)]
fn is_last(reply: Reply) -> bool
    ensures { result ≡ false → (limits : Limits) (counts : List ℕ) → nat_le limits.entries (sum counts) ≡ false → outcome_after limits reply counts ≡ None }
{
    matches!(reply, Reply::MainEnded | Reply::AllAsleep)
}

/// How the run ended by its latest entry, if it did. Apart: few entries may end one.
#[inline(never)]
fn outcome_of(limits: &Limits, reply: Reply, made: u64) -> Option<Outcome>
    ensures { (counts : List ℕ) → sum counts ≡ made → result ≡ outcome_after limits.now reply counts }
{
    let is_full = made >= limits.entries;
    match reply {
        Reply::MainEnded => Some(Outcome::MainEnded),
        Reply::AllAsleep => Some(Outcome::AllAsleep),
        _ if is_full => Some(Outcome::BookFull),
        _ => None,
    }
}
