//! Calls that concern machines alone. Each answers whether the reply is one that the definitions allow, and changes the tables only where
//! it is. Where the definitions leave a choice (any idle processor, any parked machine) the reply names it, and any that they allow is
//! right.
ghost use Rattle.gmp_seq.specs.Machines.{Acquires, Spins, Unspins, Pokes, Declares, Bares, Looks, MayKeep, Sets, Enters};
ghost use Rattle.gmp_check.specs.Decides.{Decides};

use super::Machines;
use gmp_base::{Fault, MNo};
use gmp_seq::{Mode, Reply};

impl Machines {
    /// m, which is awake and holds no processor, is given any that is idle and active; or none, where there is none.
    pub(crate) fn acquire(&mut self, m: MNo, reply: Reply) -> bool
        ensures { Decides (Acquires m reply) self.old self.new result }
    {
        if !self.is_awake(m) || self.has_processor(m) {
            return false;
        }
        match reply {
            Reply::Proc(p) if self.is_open(p) => {
                self.set_holder(p, Some(m));
                true
            }
            Reply::Nothing => !self.has_idle(),
            _ => false,
        }
    }

    /// m, which is awake, spins from now on, exactly where it may.
    pub(crate) fn spin(&mut self, m: MNo, reply: Reply) -> bool
        ensures { Decides (Spins m reply) self.old self.new result }
    {
        if !self.is_awake(m) {
            return false;
        }
        match reply {
            Reply::Answer(true) if self.may_spin(m) => {
                self.set_spinning(m, true);
                true
            }
            Reply::Answer(false) => !self.may_spin(m),
            _ => false,
        }
    }

    /// m, which is awake, spins no more. One that didn't may say so too.
    pub(crate) fn unspin(&mut self, m: MNo, reply: Reply) -> bool
        ensures { Decides (Unspins m reply) self.old self.new result }
    {
        match reply {
            Reply::Done if self.is_awake(m) => {
                self.set_spinning(m, false);
                true
            }
            _ => false,
        }
    }

    /// Any parked machine wakes, where somebody is wanted; else nobody does.
    pub(crate) fn poke(&mut self, m: MNo, reply: Reply) -> bool
        ensures { Decides (Pokes m reply) self.old self.new result }
    {
        if !self.is_awake(m) {
            return false;
        }
        match reply {
            Reply::Wakes(n) if self.wants_poke() && self.is_parked(n) => {
                self.set_mode(n, Mode::Awake);
                true
            }
            Reply::Nothing => !self.wants_poke(),
            _ => false,
        }
    }

    /// m gives up the processor that it holds, and its mark with it: it is to look at all queues from here on.
    pub(crate) fn declare(&mut self, m: MNo, reply: Reply) -> bool
        ensures { Decides (Declares m reply) self.old self.new result }
    {
        match reply {
            Reply::Idle(p) if !self.spins(m) && self.holds(m, p) => {
                self.set_holder(p, None);
                self.unmark(m);
                true
            }
            _ => false,
        }
    }

    /// m, which holds no processor and doesn't spin, begins to look at all queues: what marked it before is looked at now.
    pub(crate) fn bare(&mut self, m: MNo, reply: Reply) -> bool
        ensures { Decides (Bares m reply) self.old self.new result }
    {
        match reply {
            Reply::Done if self.is_bare(m) => {
                self.unmark(m);
                true
            }
            _ => false,
        }
    }

    /// Whether m is awake. In a blocking call it isn't asked.
    pub(crate) fn woken(&self, m: MNo, reply: Reply) -> bool
        ensures { Decides (Looks m reply) self.now self.now result }
    {
        match reply {
            Reply::Answer(true) => self.is_awake(m),
            Reply::Answer(false) => self.is_parked(m),
            _ => false,
        }
    }

    /// m may keep its processor exactly where that is active.
    pub(crate) fn keep(&self, m: MNo, reply: Reply) -> bool
        ensures { Decides (MayKeep m reply) self.now self.now result }
    {
        match reply {
            Reply::Answer(may) => self.is_awake(m) && self.holds_some(m, may),
            _ => false,
        }
    }

    /// So many processors are active from now on, and the number before is told. Nobody loses one here: who holds too high a number asks
    /// `keep`.
    pub(crate) fn procs(&mut self, n: u8, reply: Reply) -> bool
        ensures { Decides (Sets n reply) self.old self.new result }
    {
        match reply {
            Reply::Number(before) if self.is_good_number(n) && before == u64::from(self.active) => {
                self.active = n;
                true
            }
            Reply::Fault(Fault::BadProcs) => !self.is_good_number(n),
            _ => false,
        }
    }

    /// m goes into a blocking call: it gives its processor up, any parked machine wakes, where one is parked, and all that are awake then
    /// are marked.
    pub(crate) fn enter(&mut self, m: MNo, reply: Reply) -> bool
        ensures { Decides (Enters m reply) self.old self.new result }
    {
        match reply {
            Reply::Entered(p, None) if self.holds(m, p) && !self.has_parked() => {
                self.set_holder(p, None);
                self.set_mode(m, Mode::Calling);
                self.mark_awake();
                true
            }
            Reply::Entered(p, Some(n)) if self.holds(m, p) && self.is_parked(n) => {
                self.set_holder(p, None);
                self.set_mode(m, Mode::Calling);
                self.set_mode(n, Mode::Awake);
                self.mark_awake();
                true
            }
            _ => false,
        }
    }
}
