//! What the thread of a machine does: a loop of acts (`Works`), each made in the way that it needs (`Floor`). A thread waits in four
//! places: for the lock (`Shared::take`; its holder ends that), at Rest (`make`; whoever pokes the machine, or the run's end), at Mind
//! (`mind`; a call, the watched deadline, or the run's end), and in a hunt (`lie_in_wait`; a push, a call, or so many looks).

ghost use Rattle.std.specs.Prelude.{◌≡◌, IfSome};
ghost use Rattle.gmp_driver.specs.Fits.{IsDriver};
ghost use Rattle.gmp_driver.specs.Table.{next_act};
ghost use Rattle.gmp_turn.specs.Turns.{HasMemory};
ghost use Rattle.gmp_worker.specs.Turn.{IsAtBook};

use crate::desk::{DeskLedger, RunLedger};
use crate::machine::Machine;
use crate::outside::{Clock, Gate, Sink};
use crate::set::Set;
use crate::shared::Shared;
use crate::watch::Stay;
use crossbeam_utils::sync::Unparker;
use gmp_base::MNo;
use gmp_driver::{Act, Frequent};
use gmp_journal::memory_for;
use gmp_seq::Call;
use gmp_worker::Runs;
use std::alloc::Global;
use std::sync::{Mutex, Wait};

/// Where a machine waits for its thread, and where its thread leaves it.
pub(crate) type Seat<T, L> = Mutex<Option<Machine<T, L>>>;

/// What the threads of a run share.
#[derive(Drop)]
pub(crate) struct Floor<'a, T: Runs, C, G, L: DeskLedger<T, S>, S: Sink> {
    pub shared: &'a Shared<T, L, S>,
    /// Machine m's at place m.
    pub unparkers: &'a [Unparker],
    /// Read and waited on by all threads.
    pub clock: &'a C,
    /// Asked and told by all threads.
    pub gate: &'a G,
}

impl<'a, T: Runs, C: Clock, G: Gate, L: DeskLedger<T, S>, S: Sink> Floor<'a, T, C, G, L, S> {
    /// Wakes these machines. With no lock held: who is woken wants it at once.
    fn wake(&self, machines: Set) {
        let mut left = machines;
        for unparker in self.unparkers {
            if left.is_empty() {
                break;
            }
            if left.take_first() {
                unparker.unpark();
            }
        }
    }

    /// Makes the act at the book under the lock, and then wakes whom its answer names and who is called. One that is lent is made first; a
    /// frequent one is the first of those that follow.
    ///
    /// Where the gate is open, the acts that follow are made under the same hold, as long as they are at the book or at the own queue and
    /// nobody is to be woken (`Bench::hold`). Where all other machines are parked too, bodies are resumed under it. A make alone is handed
    /// memory. A gate that was closed since the act was asked for is to be told of it first, so then no frequent one is made.
    /// What keeps the others waiting is bounded: thirteen acts, none of which runs a body, steals or parks. Where they are parked nobody waits,
    /// but a thread that was unparked for nothing: for it the lock is let go once in so many acts, if bodies come back.
    fn at_book<R: Wait>(
        &self,
        rt: &R,
        alloc: Global,
        memory: Option<Global>,
        machine: &mut Machine<T, L>,
        act: Option<&Act>,
    )
        requires fits { IsDriver machine.old.driver }
        requires act { IsAtBook (next_act machine.old.driver) }
        requires lent { IfSome act (λ a. a.now ≡ next_act machine.old.driver) }
        requires memory { HasMemory (next_act machine.old.driver) memory }
    {
        // Asked with no lock held.
        let is_open = self.gate.is_open();
        let mut bench = self.shared.take(rt);
        // It stays so: who is parked is woken by an act of this hold alone, which is its last then.
        let is_alone = is_open && bench.is_alone(machine.m);
        let mut woken = None;
        if let Some(act) = act {
            woken = bench.turn(memory, machine, Frequent::Other, Some(act));
        }
        if is_open && woken.is_none() {
            woken = bench.hold(alloc, machine, is_alone);
        }
        let told = bench.settle(machine);
        self.shared.let_go(bench);
        self.wake(woken.map_or(told, |m| told.with(m)));
    }

    /// Waits until the machine is called, the deadline that it watches is reached or the run is over, and answers the clock's last reading.
    /// Any reading is fine at Mind. Each wait ends by the unpark of a later hold, which its `settle` or `end` decides, and the watcher's by
    /// the clock too; then it looks again under the lock, and comes back where it waits no more.
    fn mind<R: Wait>(&self, rt: &R, machine: &Machine<T, L>) -> u64 {
        // Not each for itself until the deadline that it was told: a goroutine asleep until far would make every idle machine deaf to work.
        let mut now = self.clock.now();
        for _ in rt.forever() {
            let mut bench = self.shared.take(rt);
            let stay = bench.watch.stays(machine.m, now);
            self.shared.let_go(bench);
            match stay {
                Stay::Back => break,
                Stay::Waits => machine.parker.park(rt),
                Stay::Watches(most) => self.clock.wait(&machine.parker, most),
            }
            now = self.clock.now();
        }
        now
    }

    /// Makes the act that comes next, if it is one of those that come most often, and tells whether it is. No wide act is made for it.
    #[inline(always)]
    fn make_frequent<R: Wait>(&self, rt: &R, alloc: Global, machine: &mut Machine<T, L>) -> bool {
        match machine.driver.frequent() {
            Frequent::Pop | Frequent::Push => machine.queue_turn(),
            Frequent::Resume => machine.local_turn(0),
            Frequent::Other => return false,
            _ => self.at_book(rt, alloc, None, machine, None),
        }
        true
    }

    /// Makes the act that the machine's driver names next.
    // Not inlined: whoever makes a frequent act pays for no local of another.
    #[inline(never)]
    fn make<R: Wait>(&self, rt: &R, alloc: Global, machine: &mut Machine<T, L>, act: &Act)
        requires fits { IsDriver machine.old.driver }
        requires act { act.now ≡ next_act machine.old.driver }
    {
        match act {
            Act::Nothing => {}
            Act::Call(call) => {
                // At Rest, until another machine wakes this one.
                if matches!(call, Call::Woken) {
                    machine.parker.park(rt);
                }
                self.at_book(rt, alloc, memory_for(call, alloc), machine, Some(act));
            }
            Act::Surrender(_) => self.at_book(rt, alloc, None, machine, Some(act)),
            Act::Pop | Act::Drain | Act::Push => machine.queue_turn(),
            Act::Hunt => {
                machine.lie_in_wait(self.clock, self.shared);
                machine.queue_turn();
            }
            Act::Steal(victim) => {
                machine.leave_to_owner(*victim);
                machine.queue_turn();
            }
            Act::Resume | Act::Block => machine.local_turn(0),
            Act::Clock(None) => machine.local_turn(self.clock.now()),
            Act::Clock(Some(_)) => {
                let now = self.mind(rt, machine);
                machine.local_turn(now);
            }
        }
    }
}

/// Where the machines of a run work. The threads' code has it as a parameter: of whatever it is made, it is one that threads may share.
pub(crate) trait Works<T: Runs, L: RunLedger> {
    /// Whether the machine is let in.
    fn admits(&self, m: MNo) -> bool;

    /// Makes the acts of the machine in the seat, one after another, until nothing is left to do.
    fn works<R: Wait>(&self, rt: &R, alloc: Global, seat: &Seat<T, L>);
}

impl<'a, T: Runs, C: Clock, G: Gate, L: DeskLedger<T, S>, S: Sink> Works<T, L>
    for Floor<'a, T, C, G, L, S> {
    fn admits(&self, m: MNo) -> bool {
        self.gate.admits(m)
    }

    fn works<R: Wait>(&self, rt: &R, alloc: Global, seat: &Seat<T, L>) {
        let Some(mut machine) = seat.lock(rt).take() else {
            return;
        };
        let mut over = false;
        // It ends with the run: then the table names surrenders, as many as the machine holds values, and Nothing.
        for _ in rt.forever() {
            // Where the gate is open it need not be told.
            if self.gate.is_open() && self.make_frequent(rt, alloc, &mut machine) {
                continue;
            }
            let act = machine.driver.next();
            // Where the run is over, surrenders come next, and then nothing.
            if !over && matches!(act, Act::Surrender(_) | Act::Nothing) {
                over = true;
                self.wake(Set::all());
            }
            self.gate.before(machine.m, &act);
            if matches!(act, Act::Nothing) {
                break;
            }
            self.make(rt, alloc, &mut machine, &act);
        }
        // The seat is empty, since this thread emptied it; were it not, its machine's values had to be spent.
        if let Some(other) = seat.lock(rt).replace(machine) {
            other.into_log();
        }
    }
}
