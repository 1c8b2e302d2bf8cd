//! What a call needs before it: `Need` is one of the things that may be missing.
//! Where one is, no reply is right; a step says no without a reason, and who reads a trace wants the reason.
ghost use Rattle.std.specs.Prelude.{◌≡◌, ◌≤◌, true, false, length};
ghost use Rattle.gmp_base.specs.declared.number.Readiness.{Readiness};
ghost use Rattle.gmp_seq.specs.Machines.{IsAwake, IsBare, IsParked, has_processor, spins};
ghost use Rattle.gmp_seq.specs.Needs.{CallsForSome, IsOutstanding, Needs, RunsSome};
ghost use Rattle.gmp_seq.specs.Step.{IsFree};
ghost use Rattle.gmp_seq.specs.Table.{RunsNothing};
ghost use Rattle.gmp_check.specs.Missing.{IsByTicket, Lacks};

use super::State;
use gmp_base::{Cases, MNo, Readiness};
use gmp_seq::Call;

/// What a call needs.
#[derive(Clone, Copy)]
pub enum Need {
    /// The machine is awake: neither parked nor in a blocking call.
    Awake,
    /// The machine is awake or parked.
    AwakeOrParked,
    /// The machine holds a processor.
    Processor,
    /// The machine holds no processor.
    NoProcessor,
    /// The machine runs a goroutine.
    Goroutine,
    /// The machine runs no goroutine.
    NoGoroutine,
    /// The machine makes a goroutine's blocking call.
    BlockingCall,
    /// The machine doesn't spin.
    NoSpin,
    /// The ticket that the call names is given out.
    Ticket,
}

impl State {
    /// That m is awake.
    fn lacks_awake(&self, m: MNo, call: &Call) -> Option<Need>
        ensures { Lacks m call.now self.now (IsAwake self.now.machines m) result }
    {
        if self.machines.is_awake(m) {
            None
        } else {
            Some(Need::Awake)
        }
    }

    /// That m runs a goroutine.
    fn lacks_goroutine(&self, m: MNo, call: &Call) -> Option<Need>
        ensures { Lacks m call.now self.now (RunsSome self.now m) result }
    {
        match self.table.running(m) {
            Some(_) => None,
            None => Some(Need::Goroutine),
        }
    }

    /// That m makes a blocking call.
    fn lacks_blocking_call(&self, m: MNo, call: &Call) -> Option<Need>
        ensures { Lacks m call.now self.now (CallsForSome self.now m) result }
    {
        match self.table.calling(m) {
            Some(_) => None,
            None => Some(Need::BlockingCall),
        }
    }

    /// That m holds a processor.
    fn lacks_processor(&self, m: MNo, call: &Call) -> Option<Need>
        ensures { Lacks m call.now self.now (has_processor self.now.machines m ≡ true) result }
    {
        if self.machines.has_processor(m) {
            None
        } else {
            Some(Need::Processor)
        }
    }

    /// That m holds none.
    fn lacks_no_processor(&self, m: MNo, call: &Call) -> Option<Need>
        ensures { Lacks m call.now self.now (has_processor self.now.machines m ≡ false) result }
    {
        if self.machines.has_processor(m) {
            Some(Need::NoProcessor)
        } else {
            None
        }
    }

    /// That m runs nothing.
    fn lacks_no_goroutine(&self, m: MNo, call: &Call) -> Option<Need>
        ensures { Lacks m call.now self.now (RunsNothing self.now.table m) result }
    {
        if self.table.runs_some(m) {
            Some(Need::NoGoroutine)
        } else {
            None
        }
    }

    /// That m doesn't spin.
    fn lacks_no_spin(&self, m: MNo, call: &Call) -> Option<Need>
        ensures { Lacks m call.now self.now (spins self.now.machines m ≡ false) result }
    {
        if self.machines.spins(m) {
            Some(Need::NoSpin)
        } else {
            None
        }
    }

    /// That the call's ticket is given out.
    fn lacks_ticket(&self, m: MNo, call: &Call, r: Readiness) -> Option<Need>
        requires { IsByTicket call.now r }
        ensures { Lacks m call.now self.now (IsOutstanding self.now.table r) result }
    {
        if self.table.is_outstanding(r) {
            None
        } else {
            Some(Need::Ticket)
        }
    }

    /// That m is awake, holds no processor and doesn't spin.
    fn lacks_bare(&self, m: MNo, call: &Call) -> Option<Need>
        ensures { Lacks m call.now self.now (IsBare self.now.machines m) result }
    {
        if let Some(need) = self.lacks_awake(m, call) {
            return Some(need);
        }
        if let Some(need) = self.lacks_no_processor(m, call) {
            return Some(need);
        }
        self.lacks_no_spin(m, call)
    }

    /// That m is awake, runs nothing and doesn't spin.
    fn lacks_free(&self, m: MNo, call: &Call) -> Option<Need>
        ensures { Lacks m call.now self.now (IsFree self.now m) result }
    {
        if let Some(need) = self.lacks_awake(m, call) {
            return Some(need);
        }
        if let Some(need) = self.lacks_no_goroutine(m, call) {
            return Some(need);
        }
        self.lacks_no_spin(m, call)
    }

    /// What a claim needs: m is free, has a processor, and the ticket is given out.
    fn lacks_to_claim(&self, m: MNo, call: &Call, r: Readiness) -> Option<Need>
        requires { IsByTicket call.now r }
        ensures { Lacks m call.now self.now (IsFree self.now m × (has_processor self.now.machines m ≡ true) × IsOutstanding self.now.table r) result }
    {
        if let Some(need) = self.lacks_free(m, call) {
            return Some(need);
        }
        if let Some(need) = self.lacks_processor(m, call) {
            return Some(need);
        }
        self.lacks_ticket(m, call, r)
    }

    /// What a declaration needs: m runs nothing, doesn't spin, and has a processor.
    fn lacks_to_declare(&self, m: MNo, call: &Call) -> Option<Need>
        ensures { Lacks m call.now self.now (RunsNothing self.now.table m × (spins self.now.machines m ≡ false) × (has_processor self.now.machines m ≡ true)) result }
    {
        if let Some(need) = self.lacks_no_goroutine(m, call) {
            return Some(need);
        }
        if let Some(need) = self.lacks_no_spin(m, call) {
            return Some(need);
        }
        self.lacks_processor(m, call)
    }

    /// What a select needs: m runs a goroutine. That the cases are few is known of all `Cases`.
    fn lacks_to_select(&self, m: MNo, call: &Call, cases: &Cases) -> Option<Need>
        ensures { Lacks m call.now self.now ((length cases.now ≤ 8) × RunsSome self.now m) result }
    {
        let _few = cases.len();
        self.lacks_goroutine(m, call)
    }

    /// What the call of m needs and doesn't have: the first of what is missing.
    pub(crate) fn lacks(&self, m: MNo, call: &Call) -> Option<Need>
        ensures { Lacks m call.now self.now (Needs m call.now self.now) result }
    {
        match call {
            Call::Take | Call::Unspin | Call::Poke | Call::Tick(_) => self.lacks_awake(m, call),
            Call::Acquire => match self.lacks_awake(m, call) {
                Some(need) => Some(need),
                None => self.lacks_no_processor(m, call),
            },
            Call::Put(r) => match self.lacks_awake(m, call) {
                Some(need) => Some(need),
                None => self.lacks_ticket(m, call, *r),
            },
            Call::Claim(r) => self.lacks_to_claim(m, call, *r),
            Call::Enter => match self.lacks_goroutine(m, call) {
                Some(need) => Some(need),
                None => self.lacks_processor(m, call),
            },
            Call::Leave(_) => self.lacks_blocking_call(m, call),
            Call::Spin => match self.lacks_awake(m, call) {
                Some(need) => Some(need),
                None => self.lacks_no_goroutine(m, call),
            },
            Call::Woken if self.machines.is_parked(m) => None,
            Call::Woken if self.machines.is_awake(m) => None,
            Call::Woken => Some(Need::AwakeOrParked),
            Call::Keep => match self.lacks_awake(m, call) {
                Some(need) => Some(need),
                None => self.lacks_processor(m, call),
            },
            Call::Declare => self.lacks_to_declare(m, call),
            Call::Bare | Call::Park => self.lacks_bare(m, call),
            Call::Select(cases, _, _) => self.lacks_to_select(m, call, cases),
            _ => self.lacks_goroutine(m, call),
        }
    }
}
