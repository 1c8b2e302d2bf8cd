//! The effect of each call, by one match in the order of the definitions: what g asks, and what m does for itself.
ghost use Rattle.std.specs.Prelude.{◌≡◌, ◌↔◌, true, IsTrue, IfOk, OnErr};
ghost use Rattle.gmp_seq.specs.declared.call.Call.TheVariants as call;
ghost use Rattle.gmp_seq.specs.Step.{Effect, IsFree, Parks, has_work, EntersBy, LeavesBy};
ghost use Rattle.gmp_seq.specs.Table.{IsCalling, IsRunning};
ghost use Rattle.gmp_check.specs.Calls.{IsMake, is_ask};
ghost use Rattle.gmp_check.specs.Decides.{Decides, Leads};
ghost use Rattle.gmp_check.specs.Consistent.{IsConsistent, SameCounts};

use super::State;
use gmp_base::{Case, GNo, MNo, Woke};
use gmp_seq::{Call, Limits, Mode, Reply, Status, TicketPlace};
use std::alloc::AllocError;

impl State {
    /// Whether m is awake, runs nothing and doesn't spin.
    fn is_free(&self, m: MNo) -> bool
        ensures { IsTrue result ↔ IsFree self.now m }
    {
        self.machines.is_awake(m) && !self.table.runs_some(m) && !self.machines.spins(m)
    }

    /// Whether a ticket is on the shelf beside an idle processor: then nobody parks.
    fn has_work(&self) -> bool
        ensures { result ≡ has_work self.now }
    {
        self.table.has_shelved() && self.machines.has_idle()
    }

    /// m parks, or is told why not: work, all asleep, a deadline, or a mark, in this order.
    fn park(&mut self, m: MNo, reply: Reply) -> bool
        ensures decides { Decides (Parks m reply) self.old self.new result }
        ensures rest { SameCounts self.old self.new }
    {
        let has_work = self.has_work();
        let has_astir = self.table.has_astir();
        match reply {
            Reply::Work => has_work,
            Reply::AllAsleep => !has_work && !has_astir,
            Reply::Mind(until) => !has_work && has_astir && self.table.minded() == Some(until),
            Reply::LookAgain => {
                !has_work
                    && has_astir
                    && self.table.minded().is_none()
                    && self.machines.is_marked(m)
            }
            Reply::Parked
                if !has_work
                    && has_astir
                    && self.table.minded().is_none()
                    && !self.machines.is_marked(m) => {
                self.machines.set_mode(m, Mode::Parked);
                true
            }
            _ => false,
        }
    }

    /// g, which m runs, goes into a blocking call.
    fn enter(&mut self, m: MNo, g: GNo, reply: Reply) -> bool
        requires consistent { IsConsistent self.old }
        requires runs { IsRunning self.old.table g m }
        ensures decides { Decides (EntersBy m g reply) self.old self.new result }
        ensures rest { SameCounts self.old self.new }
    {
        if !self.machines.enter(m, reply) {
            return false;
        }
        self.table.set_status(g, Status::Calling(m));
        true
    }

    /// g comes back from the blocking call that m makes.
    fn leave(&mut self, m: MNo, g: GNo, number: u64, reply: Reply) -> bool
        requires consistent { IsConsistent self.old }
        requires calls { IsCalling self.old.table g m }
        ensures decides { Decides (LeavesBy m g number reply) self.old self.new result }
        ensures rest { SameCounts self.old self.new }
    {
        match reply {
            Reply::Runs(p) if self.machines.is_open(p) => {
                self.machines.set_mode(m, Mode::Awake);
                self.machines.set_holder(p, Some(m));
                self.table.set_status(g, Status::Running(m));
                true
            }
            Reply::Shelved(r) if !self.machines.has_idle() && r == self.table.next(g) => {
                self.machines.set_mode(m, Mode::Awake);
                self.table
                    .make_ready(g, TicketPlace::Shelf, Woke::Number(number));
                true
            }
            _ => false,
        }
    }

    /// What m asks for g, which it runs.
    fn ask(
        &mut self,
        limits: Limits,
        m: MNo,
        g: GNo,
        call: &Call,
        reply: Reply,
    ) -> Result<bool, AllocError>
        requires consistent { IsConsistent self.old }
        requires runs { IsRunning self.old.table g m }
        requires ask { is_ask call.now ≡ true }
        ensures decides { IfOk result (Decides (Effect limits m call.now reply) self.old self.new) }
        ensures refused { OnErr result (self.new ≡ self.old) }
        ensures needed { OnErr result (IsMake call.now × Leads (Effect limits m call.now reply) self.old) }
        ensures rest { SameCounts self.old self.new }
    {
        Ok(match call {
            Call::Go(h) => self.table.start(*h, reply),
            Call::Spawn => self.table.spawn(reply),
            Call::Yield => self.table.give_way(g, reply),
            Call::Exit => self.table.exit(g, reply),
            Call::Make(capacity) => self.channels.make(limits, *capacity, reply)?,
            Call::Send(c, v) => self.deal(g, Case::Send(*c, *v), reply),
            Call::Recv(c) => self.deal(g, Case::Recv(*c), reply),
            Call::Close(c) => self.close(*c, reply),
            Call::Len(c) => self.channels.tells_len(*c, reply),
            Call::Cap(c) => self.channels.tells_cap(*c, reply),
            Call::Select(cases, has_default, until) => self.select(
                g,
                cases.as_slice(),
                *has_default,
                *until,
                reply,
            ),
            Call::Procs(n) => self.machines.procs(*n, reply),
            Call::Sleep(until) => self.table.sleep(g, *until, reply),
            Call::Gopark => self.table.gopark(g, reply),
            Call::Ready(h) => self.table.ready(*h, reply),
            Call::Enter => self.enter(m, g, reply),
            _ => false,
        })
    }

    /// A call of m has its effect, where it is answered so.
    pub(super) fn effect(
        &mut self,
        limits: Limits,
        m: MNo,
        call: &Call,
        reply: Reply,
    ) -> Result<bool, AllocError>
        requires { IsConsistent self.old }
        ensures decides { IfOk result (Decides (Effect limits m call.now reply) self.old self.new) }
        ensures refused { OnErr result (self.new ≡ self.old) }
        ensures needed { OnErr result (IsMake call.now × Leads (Effect limits m call.now reply) self.old) }
        ensures rest { SameCounts self.old self.new }
    {
        Ok(match call {
            Call::Acquire => self.machines.acquire(m, reply),
            Call::Take => self.machines.is_awake(m) && self.table.take(reply),
            Call::Put(r) => self.machines.is_awake(m) && self.table.put(*r, reply),
            Call::Claim(r) => self.is_free(m)
                && self.machines.has_processor(m)
                && self.table.claim(m, *r, reply),
            Call::Leave(number) => match self.table.calling(m) {
                Some(g) => self.leave(m, g, *number, reply),
                None => false,
            },
            Call::Spin => !self.table.runs_some(m) && self.machines.spin(m, reply),
            Call::Woken => self.machines.woken(m, reply),
            Call::Keep => self.machines.keep(m, reply),
            Call::Unspin => self.machines.unspin(m, reply),
            Call::Poke => self.machines.poke(m, reply),
            Call::Declare => !self.table.runs_some(m) && self.machines.declare(m, reply),
            Call::Bare => self.machines.bare(m, reply),
            Call::Park => self.machines.is_bare(m) && self.park(m, reply),
            Call::Tick(moment) => self.machines.is_awake(m) && self.table.tick(*moment, reply),
            _ => match self.table.running(m) {
                Some(g) => self.ask(limits, m, g, call, reply)?,
                None => false,
            },
        })
    }
}
