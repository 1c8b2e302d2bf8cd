//! What an act is handed, and what comes back of it.
ghost use Rattle.std.specs.Prelude.{◌≡◌};
ghost use Rattle.std.specs.Option.{option_map};
ghost use Rattle.gmp_base.specs.Values.{readiness_of, ticket_by};
ghost use Rattle.gmp_driver.specs.Registers.{AreFilledOnce, but, joined, nothing, only, unused, used};
ghost use Rattle.gmp_driver.specs.Loads.{called_of, called_parts, held_of, held_parts, load_of, parts_of, proc_of, proc_parts};

use crate::act::{Act, Value};
use crate::registers::{CalledParts, HeldParts, ProcParts, Registers, fill_if};
use gmp_base::{Called, Held, Pass, Proc, Readiness, Ticket};
use gmp_seq::Call;

/// The pass, and the values that an act uses; afterwards those that it left, or was answered. `fill` adds a value. It can't be dropped, so
/// whoever makes the act brings it back.
pub struct Load<T, Q> {
    pub pass: Pass,
    pub held: Option<Held<T>>,
    pub called: Option<Called<T>>,
    pub to_claim: Option<Ticket>,
    pub to_store: Option<Ticket>,
    pub proc: Option<Proc<Q>>,
}

impl<T, Q> Load<T, Q> {
    /// The pass alone.
    fn of_pass(pass: Pass) -> Self
        ensures { result ≡ load_of 0 pass nothing }
    {
        Load {
            pass,
            held: None,
            called: None,
            to_claim: None,
            to_store: None,
            proc: None,
        }
    }
}

impl<T, Q> Registers<T, Q> {
    /// Takes this value out, of this run, beside the pass.
    // Each value moves once, from its register into its place.
    #[inline(always)]
    fn take_one(&mut self, run: u64, pass: Pass, which: Option<Value>) -> Load<T, Q>
        ensures taken { result ≡ load_of run pass (only which self.old) }
        ensures left { self.new ≡ but which self.old }
    {
        let mut load = Load::of_pass(pass);
        match which {
            Some(Value::Held) => fill_if(&mut load.held, HeldParts::wrap(self.held.take(), run)),
            Some(Value::Called) => {
                fill_if(&mut load.called, CalledParts::wrap(self.called.take(), run));
            }
            Some(Value::ToClaim) => fill_if(&mut load.to_claim, ticket(run, self.to_claim.take())),
            Some(Value::ToStore) => fill_if(&mut load.to_store, ticket(run, self.to_store.take())),
            Some(Value::Proc) => fill_if(
                &mut load.proc,
                ProcParts::wrap(self.processor.take(), run),
            ),
            None => {}
        }
        load
    }

    /// Takes out what an act uses, of this run, beside the pass.
    #[inline(always)]
    pub(crate) fn take_used(&mut self, run: u64, pass: Pass, act: &Act) -> Load<T, Q>
        ensures used { result ≡ load_of run pass (used act.now self.old) }
        ensures left { self.new ≡ unused act.now self.old }
    {
        let which = self.one_used(act);
        let mut load = self.take_one(run, pass, which);
        if matches!(act, Act::Push | Act::Call(Call::Enter)) {
            fill_if(&mut load.proc, ProcParts::wrap(self.processor.take(), run));
        }
        load
    }

    /// Puts what came into its registers, and answers the pass. Each register is empty, or nothing comes for it: else a value would be
    /// lost.
    #[inline(always)]
    pub(crate) fn take_back(&mut self, load: Load<T, Q>) -> Pass
        requires { AreFilledOnce self.old (parts_of load) }
        ensures hand { self.new ≡ joined (parts_of load) self.old }
        ensures pass { result ≡ load.pass }
    {
        let Load {
            pass,
            held,
            called,
            to_claim,
            to_store,
            proc,
        } = load;
        fill_if(&mut self.processor, ProcParts::of(proc));
        fill_if(&mut self.held, HeldParts::of(held));
        fill_if(&mut self.called, CalledParts::of(called));
        fill_if(&mut self.to_claim, opened(to_claim));
        fill_if(&mut self.to_store, opened(to_store));
        pass
    }
}

impl<T> HeldParts<T> {
    /// The parts of a goroutine, where there is one.
    #[inline(always)]
    pub(crate) fn of(held: Option<Held<T>>) -> Option<Self>
        ensures { result ≡ option_map held_parts held }
    {
        let (_, g, woke, body) = held?.open();
        Some(HeldParts { g, woke, body })
    }

    /// The goroutine of these parts, where there are some.
    #[inline(always)]
    pub(crate) fn wrap(parts: Option<Self>, run: u64) -> Option<Held<T>>
        ensures { result ≡ option_map (held_of run) parts }
    {
        let HeldParts { g, woke, body } = parts?;
        Some(Held::of(run, g, woke, body))
    }
}

impl<T> CalledParts<T> {
    /// The parts of a goroutine in its blocking call, where there is one.
    #[inline(always)]
    fn of(called: Option<Called<T>>) -> Option<Self>
        ensures { result ≡ option_map called_parts called }
    {
        let (_, g, body) = called?.open();
        Some(CalledParts { g, body })
    }

    /// The goroutine of these parts, where there are some.
    #[inline(always)]
    fn wrap(parts: Option<Self>, run: u64) -> Option<Called<T>>
        ensures { result ≡ option_map (called_of run) parts }
    {
        let CalledParts { g, body } = parts?;
        Some(Called::of(run, g, body))
    }
}

impl<Q> ProcParts<Q> {
    /// The parts of a processor, where there is one.
    #[inline(always)]
    fn of(proc: Option<Proc<Q>>) -> Option<Self>
        ensures { result ≡ option_map proc_parts proc }
    {
        let (_, p, owner) = proc?.open();
        Some(ProcParts { p, owner })
    }

    /// The processor of these parts, where there are some.
    #[inline(always)]
    fn wrap(parts: Option<Self>, run: u64) -> Option<Proc<Q>>
        ensures { result ≡ option_map (proc_of run) parts }
    {
        let ProcParts { p, owner } = parts?;
        Some(Proc::of(run, p, owner))
    }
}

/// The ticket of a readiness, where there is one.
#[inline(always)]
fn ticket(run: u64, readiness: Option<Readiness>) -> Option<Ticket>
    ensures { result ≡ option_map (ticket_by run) readiness }
{
    readiness.map(|r| Ticket::by(run, r))
}

/// The readiness of a ticket, where there is one, which is spent.
#[inline(always)]
fn opened(ticket: Option<Ticket>) -> Option<Readiness>
    ensures { result ≡ option_map readiness_of ticket }
{
    let (_, g, epoch) = ticket?.open();
    Some(Readiness { g, epoch })
}
