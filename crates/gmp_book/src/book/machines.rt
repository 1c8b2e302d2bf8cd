//! Machines, their processors and blocking calls, and the clock.
ghost use Rattle.std.specs.Prelude.{◌≡◌, ◌↔◌, ℕ, Some, is_none, position, option_map, OnOk, OnErr, IfOk, IfErr, IfSome, MatchOption};
ghost use Rattle.gmp_idle.specs.Replies.{acquire_reply, poke_reply};
ghost use Rattle.gmp_seq.specs.declared.status.Status.{Status};
ghost use Rattle.gmp_seq.specs.Machines.{is_parked_mode};
ghost use Rattle.gmp_seq.specs.Step.{Resumes};
ghost use Rattle.gmp_seq.specs.Table.{IsAsleep, minded, set_status};
ghost use Rattle.gmp_journal.specs.Handed.{by_called, by_held_and_proc, by_proc, nothing_handed};
ghost use Rattle.gmp_journal.specs.Log.{Records};
ghost use Rattle.gmp_journal.specs.Refusals.{refusal_in, refusal_of, why_refused};
ghost use Rattle.gmp_book.specs.Replies.{park_reply};

use crate::answers::Parking;
use crate::book::Book;
use crate::returned::Returned;
use crate::values::Values;
use gmp_base::{Called, Held, MNo, Pass, Proc, Refusal, Refused};
use gmp_seq::{Call, Reply};

impl<T, Q> Book<T, Q> {
    ghost use Rattle.gmp_book.specs.Book.{HandsOutOwner, SameValues, TakesBackOwner};
    ghost use Rattle.gmp_book.specs.Returns.{ByLeast, ComesBack, leave_reply};

    /// Lets the machine hold the least idle processor, if that is active.
    pub fn acquire(&mut self, pass: &mut Pass) -> Result<Option<Proc<Q>>, Refusal>
        ensures refused { refusal_in result ≡ refusal_of self.old.log pass.old Call.Acquire nothing_handed }
        ensures err { OnErr result ((self.new ≡ self.old) × (pass.new ≡ pass.old)) }
        ensures entry { IfOk result (λ proc. Records self.old.log pass.old Call.Acquire (acquire_reply (option_map (λ x. x.p) proc)) self.new.log pass.new) }
        ensures proc { IfOk result (λ proc. MatchOption proc (SameValues self.old self.new) (HandsOutOwner self.old self.new)) }
        ensures least { IfOk result (λ proc. IfSome proc (λ x. position is_none self.old.log.state.machines.holders ≡ Some x.p.0)) }
    {
        let values = Values::of(None, None, None, None);
        let (values, result) = self.call(None, pass, Call::Acquire, values, 0);
        let (held, called, ticket, proc) = values.parts();
        match (held, called, ticket, proc, result) {
            (None, None, None, None, Err(why)) => Err(why),
            (None, None, None, proc, Ok(_)) => Ok(proc),
            (_held, _called, _ticket, _proc, _) => unreachable!(),
        }
    }

    /// Gives up the processor that the machine holds.
    pub fn declare(&mut self, pass: &mut Pass, proc: Proc<Q>) -> Result<(), Refused<Proc<Q>>>
        ensures refused { why_refused result ≡ refusal_of self.old.log pass.old Call.Declare (by_proc proc) }
        ensures back { IfErr result (λ r. r.back ≡ proc) }
        ensures err { OnErr result ((self.new ≡ self.old) × (pass.new ≡ pass.old)) }
        ensures entry { OnOk result (Records self.old.log pass.old Call.Declare (Reply.Idle proc.p) self.new.log pass.new) }
        ensures owner { OnOk result (TakesBackOwner self.old self.new proc) }
    {
        let values = Values::of(None, None, None, Some(proc));
        let (values, result) = self.call(None, pass, Call::Declare, values, 0);
        let (held, called, ticket, proc) = values.parts();
        match (held, called, ticket, proc, result) {
            (None, None, None, Some(back), Err(why)) => Err(Refused { why, back }),
            (None, None, None, None, Ok(_)) => Ok(()),
            (_held, _called, _ticket, _proc, _) => unreachable!(),
        }
    }

    /// Wakes the least parked machine, where nobody spins and an active processor is idle.
    pub fn poke(&mut self, pass: &mut Pass) -> Result<Option<MNo>, Refusal>
        ensures refused { refusal_in result ≡ refusal_of self.old.log pass.old Call.Poke nothing_handed }
        ensures err { OnErr result ((self.new ≡ self.old) × (pass.new ≡ pass.old)) }
        ensures entry { IfOk result (λ m. Records self.old.log pass.old Call.Poke (poke_reply m) self.new.log pass.new) }
        ensures least { IfOk result (λ m. IfSome m (λ n. position is_parked_mode self.old.log.state.machines.modes ≡ Some n.0)) }
        ensures values { OnOk result (SameValues self.old self.new) }
    {
        match self.note(pass, Call::Poke)? {
            (None, Reply::Wakes(m)) => Ok(Some(m)),
            (None, Reply::Nothing) => Ok(None),
            (_left, _) => unreachable!(),
        }
    }

    /// Parks the machine, which holds no processor and has nothing to do, unless there is work, a deadline to mind, or it is to look again.
    /// Where nobody can ever go on, all are asleep and the run is over.
    pub fn park(&mut self, pass: &mut Pass) -> Result<Parking, Refusal>
        ensures refused { refusal_in result ≡ refusal_of self.old.log pass.old Call.Park nothing_handed }
        ensures err { OnErr result ((self.new ≡ self.old) × (pass.new ≡ pass.old)) }
        ensures entry { IfOk result (λ answer. Records self.old.log pass.old Call.Park (park_reply answer) self.new.log pass.new) }
        ensures asleep { IfOk result (λ answer. answer ≡ Parking.AllAsleep ↔ IsAsleep self.old.log.state.table) }
        // It minds the least deadline exactly where one stands and nobody is ready or running.
        ensures minds { IfOk result (λ answer. (until : ℕ) → answer ≡ Parking.Mind until ↔ (minded self.old.log.state.table ≡ Some until)) }
        ensures values { OnOk result (SameValues self.old self.new) }
    {
        match self.note(pass, Call::Park)? {
            (None, Reply::Work) => Ok(Parking::Work),
            (None, Reply::LookAgain) => Ok(Parking::LookAgain),
            (None, Reply::Mind(until)) => Ok(Parking::Mind(until)),
            (None, Reply::AllAsleep) => Ok(Parking::AllAsleep),
            (None, Reply::Parked) => Ok(Parking::Parked),
            (_left, _) => unreachable!(),
        }
    }

    /// Lets the clock show this moment, in nanoseconds, unless it showed a later one. All whose deadline is due go onto the shelf, by
    /// their deadlines, and then by the beginnings of their waits. The answer counts them.
    pub fn tick(&mut self, pass: &mut Pass, now: u64) -> Result<u64, Refusal>
        ensures refused { refusal_in result ≡ refusal_of self.old.log pass.old (Call.Tick now) nothing_handed }
        ensures err { OnErr result ((self.new ≡ self.old) × (pass.new ≡ pass.old)) }
        ensures entry { IfOk result (λ n. Records self.old.log pass.old (Call.Tick now) (Reply.Woke n) self.new.log pass.new) }
        ensures values { OnOk result (SameValues self.old self.new) }
    {
        match self.note(pass, Call::Tick(now))? {
            (None, Reply::Woke(n)) => Ok(n),
            (_left, _) => unreachable!(),
        }
    }

    /// The machine, which runs nothing, begins to look for work, unless it does already or as many machines do as
    /// processors are active. The answer is whether it begins.
    pub fn spin(&mut self, pass: &mut Pass) -> Result<bool, Refusal>
        ensures refused { refusal_in result ≡ refusal_of self.old.log pass.old Call.Spin nothing_handed }
        ensures err { OnErr result ((self.new ≡ self.old) × (pass.new ≡ pass.old)) }
        ensures entry { IfOk result (λ begins. Records self.old.log pass.old Call.Spin (Reply.Answer begins) self.new.log pass.new) }
        ensures values { OnOk result (SameValues self.old self.new) }
    {
        match self.note(pass, Call::Spin)? {
            (None, Reply::Answer(begins)) => Ok(begins),
            (_left, _) => unreachable!(),
        }
    }

    /// The machine doesn't look for work from now on.
    pub fn unspin(&mut self, pass: &mut Pass) -> Result<(), Refusal>
        ensures refused { refusal_in result ≡ refusal_of self.old.log pass.old Call.Unspin nothing_handed }
        ensures err { OnErr result ((self.new ≡ self.old) × (pass.new ≡ pass.old)) }
        ensures entry { OnOk result (Records self.old.log pass.old Call.Unspin Reply.Done self.new.log pass.new) }
        ensures values { OnOk result (SameValues self.old self.new) }
    {
        match self.note(pass, Call::Unspin)? {
            (None, Reply::Done) => Ok(()),
            (_left, _) => unreachable!(),
        }
    }

    /// Whether the machine is awake: it may ask that once it has parked. Nothing changes but the history.
    pub fn woken(&mut self, pass: &mut Pass) -> Result<bool, Refusal>
        ensures refused { refusal_in result ≡ refusal_of self.old.log pass.old Call.Woken nothing_handed }
        ensures err { OnErr result ((self.new ≡ self.old) × (pass.new ≡ pass.old)) }
        ensures entry { IfOk result (λ awake. Records self.old.log pass.old Call.Woken (Reply.Answer awake) self.new.log pass.new) }
        ensures values { OnOk result (SameValues self.old self.new) }
    {
        match self.note(pass, Call::Woken)? {
            (None, Reply::Answer(awake)) => Ok(awake),
            (_left, _) => unreachable!(),
        }
    }

    /// Whether the machine may keep its processor: whether that is active. Nothing changes but the history.
    pub fn keep(&mut self, pass: &mut Pass) -> Result<bool, Refusal>
        ensures refused { refusal_in result ≡ refusal_of self.old.log pass.old Call.Keep nothing_handed }
        ensures err { OnErr result ((self.new ≡ self.old) × (pass.new ≡ pass.old)) }
        ensures entry { IfOk result (λ may. Records self.old.log pass.old Call.Keep (Reply.Answer may) self.new.log pass.new) }
        ensures values { OnOk result (SameValues self.old self.new) }
    {
        match self.note(pass, Call::Keep)? {
            (None, Reply::Answer(may)) => Ok(may),
            (_left, _) => unreachable!(),
        }
    }

    /// Says in the history that the machine holds no processor and doesn't look for work. It is marked no more, and nothing else
    /// changes.
    pub fn declare_bare(&mut self, pass: &mut Pass) -> Result<(), Refusal>
        ensures refused { refusal_in result ≡ refusal_of self.old.log pass.old Call.Bare nothing_handed }
        ensures err { OnErr result ((self.new ≡ self.old) × (pass.new ≡ pass.old)) }
        ensures entry { OnOk result (Records self.old.log pass.old Call.Bare Reply.Done self.new.log pass.new) }
        ensures values { OnOk result (SameValues self.old self.new) }
    {
        match self.note(pass, Call::Bare)? {
            (None, Reply::Done) => Ok(()),
            (_left, _) => unreachable!(),
        }
    }

    /// The goroutine that asks goes into a blocking call, which its machine makes. The machine gives up its processor, and the least
    /// parked machine wakes, where one is parked. Refused, it hands both values back.
    // A refusal doesn't say which of the two it means: refusals are those of all calls, and whoever has both back can look.
    pub fn enter(
        &mut self,
        pass: &mut Pass,
        held: Held<T>,
        proc: Proc<Q>,
    ) -> Result<(Called<T>, Option<MNo>), Refused<(Held<T>, Proc<Q>)>>
        ensures refused { why_refused result ≡ refusal_of self.old.log pass.old Call.Enter (by_held_and_proc held proc) }
        ensures back { IfErr result (λ r. (r.back.0 ≡ held) × (r.back.1 ≡ proc)) }
        ensures err { OnErr result ((self.new ≡ self.old) × (pass.new ≡ pass.old)) }
        ensures entry { IfOk result (λ x. Records self.old.log pass.old Call.Enter (Reply.Entered proc.p x.1) self.new.log pass.new) }
        ensures calls { OnOk result (self.new.log.state.table ≡ set_status self.old.log.state.table held.g (Status.Calling pass.old.m)) }
        ensures called { IfOk result (λ x. x.0 ≡ record { run = held.run; g = held.g; body = held.body }) }
        ensures least { IfOk result (λ x. IfSome x.1 (λ n. position is_parked_mode self.old.log.state.machines.modes ≡ Some n.0)) }
        ensures owner { OnOk result (TakesBackOwner self.old self.new proc) }
    {
        let values = Values::of(Some(held), None, None, Some(proc));
        let (values, result) = self.call(None, pass, Call::Enter, values, 0);
        let (held, called, ticket, proc) = values.parts();
        match (held, called, ticket, proc, result) {
            (Some(held), None, None, Some(proc), Err(why)) => {
                let back = (held, proc);
                Err(Refused { why, back })
            }
            (None, Some(called), None, None, Ok(Reply::Entered(_, woken))) => Ok((called, woken)),
            (_held, _called, _ticket, _proc, _) => unreachable!(),
        }
    }

    /// The goroutine comes back from its blocking call with this number. It runs on where an active processor is idle, and its machine
    /// holds the least of these; else it goes onto the shelf, last, and its body into the book. It is told the number.
    pub fn leave(
        &mut self,
        pass: &mut Pass,
        called: Called<T>,
        number: u64,
    ) -> Result<Returned<T, Q>, Refused<Called<T>>>
        ensures refused { why_refused result ≡ refusal_of self.old.log pass.old (Call.Leave number) (by_called called) }
        ensures back { IfErr result (λ r. r.back ≡ called) }
        ensures err { OnErr result ((self.new ≡ self.old) × (pass.new ≡ pass.old)) }
        ensures entry { IfOk result (λ x. Records self.old.log pass.old (Call.Leave number) (leave_reply self.old.log.state.table called.g x) self.new.log pass.new) }
        ensures resumes { IfOk result (λ x. Resumes called.g pass.old.m number (leave_reply self.old.log.state.table called.g x) self.old.log.state.table self.new.log.state.table) }
        ensures comes_back { IfOk result (ComesBack self.old self.new called number) }
        ensures least { IfOk result (ByLeast self.old.log.state.machines) }
    {
        let values = Values::of(None, Some(called), None, None);
        let (values, result) = self.call(None, pass, Call::Leave(number), values, 0);
        let (held, called, ticket, proc) = values.parts();
        match (held, called, ticket, proc, result) {
            (None, Some(back), None, None, Err(why)) => Err(Refused { why, back }),
            (Some(held), None, None, Some(proc), Ok(Reply::Runs(_))) => {
                Ok(Returned::Runs(held, proc))
            }
            (None, None, None, None, Ok(Reply::Shelved(_))) => Ok(Returned::Shelved),
            (_held, _called, _ticket, _proc, _) => unreachable!(),
        }
    }
}
