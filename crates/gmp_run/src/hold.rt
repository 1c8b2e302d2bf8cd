//! One hold of the lock: the acts that a machine makes in it, one after another.
//!
//! They stand here in the order in which they mostly follow one another. Each frequent call is made by name, so that between two of them lies no
//! match over all acts, and which one comes next is looked at where it is likely. An act that isn't likely where it comes waits for the next
//! round.
ghost use Rattle.std.specs.Prelude.{◌≡◌, None, IfSome};
ghost use Rattle.gmp_driver.specs.Fits.{IsDriver};
ghost use Rattle.gmp_driver.specs.Frequent.{act_of};
ghost use Rattle.gmp_driver.specs.Table.{next_act};
ghost use Rattle.gmp_turn.specs.Turns.{HasMemory};
ghost use Rattle.gmp_worker.specs.Turn.{IsAtBook};

use crate::desk::{Bench, DeskLedger};
use crate::machine::Machine;
use crate::outside::Sink;
use gmp_base::MNo;
use gmp_driver::{Act, Frequent};
use gmp_journal::memory_for;
use gmp_seq::Call;
use gmp_worker::Runs;
use std::alloc::Global;

/// The most rounds of acts under one hold of the lock, where another machine isn't parked: a round ends before a body is resumed then.
const MOST_ROUNDS: u32 = 2;

/// The same where all others are parked.
const MOST_ALONE: u32 = 32;

impl<T: Runs, L: DeskLedger<T, S>, S: Sink> Bench<T, L, S> {
    /// Makes the acts that follow under this hold, and answers the machine to wake. The last act is the one that names it, or the last round
    /// is over, or what comes next isn't made under the lock.
    pub fn hold(
        &mut self,
        alloc: Global,
        machine: &mut Machine<T, L>,
        is_alone: bool,
    ) -> Option<MNo> {
        let mut woken = None;
        let most = if is_alone { MOST_ALONE } else { MOST_ROUNDS };
        for _ in 0..most {
            if !self.round(alloc, machine, is_alone, &mut woken) {
                break;
            }
        }
        woken
    }

    /// The acts from what a body asked to what the next one is told. It says whether another round may follow, as do the parts of a round.
    #[inline(always)]
    fn round(
        &mut self,
        alloc: Global,
        machine: &mut Machine<T, L>,
        is_alone: bool,
        woken: &mut Option<MNo>,
    ) -> bool {
        if !self.asks(alloc, machine, woken)
            || !self.stores(machine, woken)
            || !self.looks(machine, woken)
        {
            return false;
        }
        match machine.driver.frequent() {
            Frequent::Resume if is_alone => {
                machine.local_turn(0);
                true
            }
            // A body may take its time, and nothing can take the lock from it.
            Frequent::Resume => false,
            _ => true,
        }
    }

    /// What a body asked for, or any other act that isn't frequent.
    #[inline(always)]
    fn asks(
        &mut self,
        alloc: Global,
        machine: &mut Machine<T, L>,
        woken: &mut Option<MNo>,
    ) -> bool {
        match machine.driver.frequent() {
            Frequent::Yield => self.known(machine, Frequent::Yield, woken),
            Frequent::Send(c, v) => self.known(machine, Frequent::Send(c, v), woken),
            Frequent::Recv(c) => self.known(machine, Frequent::Recv(c), woken),
            Frequent::Other => self.rare_turn(alloc, machine, woken),
            _ => true,
        }
    }

    /// The push of a ticket, and the poke.
    #[inline(always)]
    fn stores(&mut self, machine: &mut Machine<T, L>, woken: &mut Option<MNo>) -> bool {
        if let Frequent::Push = machine.driver.frequent() {
            machine.queue_turn_of(Frequent::Push);
        }
        match machine.driver.frequent() {
            Frequent::Poke => self.known(machine, Frequent::Poke, woken),
            _ => true,
        }
    }

    /// The look into the own queue and onto the shelf, and the claim of what was found.
    #[inline(always)]
    fn looks(&mut self, machine: &mut Machine<T, L>, woken: &mut Option<MNo>) -> bool {
        if let Frequent::Pop = machine.driver.frequent() {
            machine.queue_turn_of(Frequent::Pop);
        }
        if let Frequent::Take = machine.driver.frequent() {
            if !self.known(machine, Frequent::Take, woken) {
                return false;
            }
        }
        match machine.driver.frequent() {
            Frequent::Claim(g, epoch) => self.known(machine, Frequent::Claim(g, epoch), woken),
            _ => true,
        }
    }

    /// Makes a frequent call, which is known where this is compiled.
    #[inline(always)]
    fn known(
        &mut self,
        machine: &mut Machine<T, L>,
        which: Frequent,
        woken: &mut Option<MNo>,
    ) -> bool
        requires fits { IsDriver machine.old.driver }
        requires act { IsAtBook (next_act machine.old.driver) }
        requires named { IfSome (act_of which) (λ named. next_act machine.old.driver ≡ named) }
        requires memory { HasMemory (next_act machine.old.driver) None }
    {
        *woken = self.turn(None, machine, which, None);
        woken.is_none()
    }

    /// Makes the act that the machine's driver names next, which isn't frequent, if it may be made under the lock.
    // Not inlined: whoever makes a frequent act pays for no wide one.
    #[inline(never)]
    fn rare_turn(
        &mut self,
        alloc: Global,
        machine: &mut Machine<T, L>,
        woken: &mut Option<MNo>,
    ) -> bool
        requires fits { IsDriver machine.old.driver }
    {
        let act = machine.driver.next();
        match &act {
            // At Rest a machine waits first, and no thread waits with the lock.
            Act::Call(Call::Woken) => false,
            Act::Call(call) => {
                let memory = memory_for(call, alloc);
                *woken = self.turn(memory, machine, Frequent::Other, Some(&act));
                // Nor does one make a blocking call with it, which follows `enter`.
                woken.is_none() && !matches!(call, Call::Enter)
            }
            Act::Drain => {
                machine.queue_turn();
                true
            }
            _ => false,
        }
    }
}
