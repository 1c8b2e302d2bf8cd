//! Machines, the processors that they hold, how many of these are active, and which machines spin or are marked: one value, since most
//! calls change two of these together.
//!
//! Go's runtime (proc.go) has the like: `acquire` is `pidleget` with `acquirep`, `declare` `releasep` with `pidleput`, `poke` `wakep`,
//! `park` `stopm`, `enter` `entersyscallblock`, `leave` `exitsyscall`, `spin` and `unspin` the count `nmspinning`. Go's lists of idle Ps
//! and Ms are stacks; here the least number is taken.
ghost use Rattle.std.specs.Prelude.{◌≡◌, ◌↔◌, true, ◌⊎◌, ◌≤◌, ◌==◌, ◌&&◌, false, None, Some, ◌<◌, length, is_none, position, replicate, slice_get, IfNone, IfOk, IfSome};
ghost use Rattle.std.specs.Option.{option_map_or};
ghost use Rattle.gmp_base.specs.declared.number.Readiness.{Readiness};
ghost use Rattle.gmp_seq.specs.declared.call.Reply.{Reply};
ghost use Rattle.gmp_seq.specs.declared.status.Mode.{Mode};
ghost use Rattle.gmp_seq.specs.Machines.{Acquires, Bares, Declares, Enters, Holds, MayKeep, Sets, is_good_number, IsAwake, IsBare, IsParked, Looks, Pokes, Returns, Spins, Unspins, has_processor, how_many_spin, is_held_by, is_marked, unmarked, is_parked_mode, may_spin, set_holder, set_mode, some_idle, spins, is_awake_mode, is_calling_mode};
ghost use Rattle.gmp_idle.specs.Replies.{acquire_reply, poke_reply, procs_reply};
ghost use Rattle.gmp_idle.specs.Tables.{AreOthersParked};

use crate::modes::Modes;
use crate::processors::Processors;
use crate::small_set::SmallSet;
use gmp_base::{MNo, PNo};
use gmp_seq::Mode;
use std::alloc::{AllocError, Global};
use std::marker::Model;

/// Who holds each processor, how many are active, what each machine does, which of them spin, and which are marked.
///
/// A machine holds one processor at most. Spinning is looking for work at others, which uses a processor's time, so its number is bounded.
/// A mark says that what a machine saw of the queues may be old: whoever is marked looks once more before it parks.
#[derive(Drop)]
pub struct Machines {
    processors: Processors,
    modes: Modes,
    /// Those that hold a processor.
    holding: SmallSet,
    /// Those that look for work at others.
    spinning: SmallSet,
    /// Those that are to look at all queues once more before they park.
    marked: SmallSet,
    /// How many processors are given out: those below this number.
    active: u8,
}

impl Model for Machines {
    ghost use Rattle.std.specs.Prelude.{◌≡◌, length};
    ghost use Rattle.gmp_seq.specs.Machines.{Machines as MachinesValue};
    ghost use Rattle.gmp_idle.specs.Kept.{HaveFlags};

    ghost Value = { MachinesValue };

    ghost view = { λ w. record { holders = w.processors; modes = w.modes; spinning = w.spinning; marked = w.marked; active = w.active } };

    // A machine holds one processor where its flag says so, and else none; one in a blocking call holds none; there is a flag of each kind
    // for each machine.
    ghost invariant = { λ w. HaveFlags w.processors w.modes w.holding w.spinning × (length w.marked ≡ length w.modes) };
}

impl Machines {
    /// No processor is held, all machines are awake, nobody spins and nobody is marked. It takes memory, and its cost is linear.
    pub fn opening(alloc: Global, procs: u8, machines: u8) -> Result<Self, AllocError>
        requires some { 1 ≤ procs }
        requires procs { procs ≤ 32 }
        requires machines { machines ≤ 64 }
        ensures { IfOk result (λ w. w ≡ record { holders = replicate procs None; modes = replicate machines Mode.Awake; spinning = replicate machines false; marked = replicate machines false; active = procs }) }
    {
        Ok(Machines {
            processors: Processors::idle(alloc, procs)?,
            modes: Modes::all_awake(alloc, machines)?,
            holding: SmallSet::none(machines),
            spinning: SmallSet::none(machines),
            marked: SmallSet::none(machines),
            active: procs,
        })
    }

    /// Who holds each processor.
    pub fn holders(&self) -> &[Option<MNo>]
        ensures { result.now ≡ self.now.holders }
    {
        self.processors.as_slice()
    }

    /// What each machine does.
    pub fn modes(&self) -> &[Mode]
        ensures { result.now ≡ self.now.modes }
    {
        self.modes.as_slice()
    }

    /// Which machines look for work. It takes memory, and its cost is linear.
    pub fn spinning(&self, alloc: Global) -> Result<Vec<bool>, AllocError>
        ensures { IfOk result (λ v. v.items ≡ self.now.spinning) }
    {
        self.spinning.to_vec(alloc)
    }

    /// Which machines are to look again. It takes memory, and its cost is linear.
    pub fn marked(&self, alloc: Global) -> Result<Vec<bool>, AllocError>
        ensures { IfOk result (λ v. v.items ≡ self.now.marked) }
    {
        self.marked.to_vec(alloc)
    }

    /// How many processors are active.
    pub fn active(&self) -> u8
        ensures { result ≡ self.now.active }
    {
        self.active
    }

    /// Whether m is neither parked nor in a blocking call.
    pub fn is_awake(&self, m: MNo) -> bool
        ensures { result ≡ option_map_or is_awake_mode (slice_get self.now.modes m.0) false }
    {
        matches!(self.modes.of(m), Some(Mode::Awake))
    }

    /// Whether m is in a blocking call.
    pub fn is_calling(&self, m: MNo) -> bool
        ensures { result ≡ option_map_or is_calling_mode (slice_get self.now.modes m.0) false }
    {
        matches!(self.modes.of(m), Some(Mode::Calling))
    }

    /// Whether m is parked.
    pub fn is_parked(&self, m: MNo) -> bool
        ensures { result ≡ option_map_or is_parked_mode (slice_get self.now.modes m.0) false }
    {
        matches!(self.modes.of(m), Some(Mode::Parked))
    }

    /// Whether all machines but m are parked. Of a machine that isn't there: no.
    pub fn is_alone(&self, m: MNo) -> bool
        ensures { (result ≡ true) ↔ ((m.0 < length self.now.modes) × AreOthersParked m self.now.modes) }
    {
        usize::from(m.0) < self.modes.as_slice().len() && self.modes.are_others_parked(m)
    }

    /// Whether m looks for work.
    pub fn spins(&self, m: MNo) -> bool
        ensures { result ≡ spins self.now m }
    {
        self.spinning.contains(m.0)
    }

    /// Whether m is to look again.
    pub fn is_marked(&self, m: MNo) -> bool
        ensures { result ≡ is_marked self.now m }
    {
        self.marked.contains(m.0)
    }

    /// Whether m holds p.
    pub fn holds(&self, m: MNo, p: PNo) -> bool
        ensures { result ≡ option_map_or (is_held_by m) (slice_get self.now.holders p.0) false }
    {
        self.processors.holds(m, p)
    }

    /// Whether m holds a processor.
    pub fn has_processor(&self, m: MNo) -> bool
        ensures { result ≡ has_processor self.now m }
    {
        self.holding.contains(m.0)
    }

    /// Whether an active processor is idle, so that somebody could be woken to use it.
    pub fn has_idle(&self) -> bool
        ensures { result ≡ some_idle self.now }
    {
        self.processors.has_idle(self.active)
    }

    /// Whether the processor that m holds is active. The cost is linear in the processors: it is asked after a tick alone, and no list says
    /// which one m holds.
    pub fn keep(&self, m: MNo) -> bool
        requires awake { IsAwake self.now m }
        requires holds { has_processor self.now m ≡ true }
        ensures { MayKeep m (Reply.Answer result) self.now self.now }
    {
        self.processors.holds_below(m, self.active)
    }

    /// Whether so many processors can be active.
    fn is_good(&self, n: u8) -> bool
        ensures { result ≡ is_good_number self.now n }
    {
        // With none active nobody could run the goroutine that asked.
        1 <= n && n as usize <= self.processors.len()
    }

    /// So many processors are active from here on, if there are as many and at least one. The answer is how many were. Who holds one that
    /// is active no more keeps it until it asks (`keep`): nobody is stopped.
    pub fn set_active(&mut self, n: u8) -> Option<u8>
        ensures { Sets n (procs_reply result) self.old self.new }
    {
        if !self.is_good(n) {
            return None;
        }
        let before = self.active;
        self.active = n;
        Some(before)
    }

    /// Lets m, which holds none, hold the least idle processor, where it is active. None is an answer, and not a wait.
    pub fn acquire(&mut self, m: MNo) -> Option<PNo>
        requires awake { IsAwake self.old m }
        requires bare { has_processor self.old m ≡ false }
        ensures acquires { Acquires m (acquire_reply result) self.old self.new }
        ensures least { IfSome result (λ p. position is_none self.old.holders ≡ Some p.0) }
    {
        // Refused, nothing has changed: `holding` is written where there is a processor.
        let p = self.processors.take(m, self.active)?;
        self.holding.insert(m.0);
        Some(p)
    }

    /// Nobody holds p from here on, which m held.
    fn release(&mut self, m: MNo, p: PNo)
        requires { Holds self.old m p }
        ensures idle { self.new ≡ set_holder self.old p None }
        ensures bare { has_processor self.new m ≡ false }
        ensures there { m.0 < length self.new.modes }
    {
        self.processors.release(p);
        self.holding.remove(m.0);
    }

    /// m is marked no more.
    fn unmark(&mut self, m: MNo)
        requires { m.0 < length self.old.modes }
        ensures { self.new ≡ unmarked self.old m }
    {
        self.marked.remove(m.0);
    }

    /// m, which holds no processor, is marked no more: it is about to look at all queues.
    pub fn bare(&mut self, m: MNo)
        requires { IsBare self.old m }
        ensures { Bares m Reply.Done self.old self.new }
    {
        self.unmark(m)
    }

    /// m gives up p, which it holds, and is marked no more: it is about to look at all queues.
    pub fn declare(&mut self, m: MNo, p: PNo)
        requires calm { spins self.old m ≡ false }
        requires holds { Holds self.old m p }
        ensures { Declares m (Reply.Idle p) self.old self.new }
    {
        self.release(m, p);
        self.unmark(m)
    }

    /// m has nothing to do, and is to be woken by a `poke` or an `enter`. Whether there is work after all, or m is marked, was asked
    /// before.
    pub fn park(&mut self, m: MNo)
        requires { IsAwake self.old m }
        ensures { self.new ≡ set_mode self.old m Mode.Parked }
    {
        self.modes.put(m, Mode::Parked);
    }

    /// m goes into a blocking call, and gives up p, which it holds (Scalable Go Scheduler Design Doc, Syscalls/M Parking and Unparking).
    /// The least parked machine wakes, where one is parked, and all that are awake then are marked, the one that wakes too: m may have
    /// pushed onto its queue what they have passed.
    pub fn enter(&mut self, m: MNo, p: PNo) -> Option<MNo>
        requires awake { IsAwake self.old m }
        requires holds { Holds self.old m p }
        ensures enters { Enters m (Reply.Entered p result) self.old self.new }
        ensures least { IfSome result (λ n. position is_parked_mode self.old.modes ≡ Some n.0) }
    {
        self.release(m, p);
        let woken = self.modes.wake_least();
        self.modes.put(m, Mode::Calling);
        // One copy, since whoever is marked is awake. To mark the woken one alone would let another park that has looked already.
        self.marked = self.modes.awake();
        woken
    }

    /// m comes back from its blocking call, and holds the least idle processor, where it is active. Where it gets none it holds none, and
    /// its goroutine goes onto the shelf.
    pub fn leave(&mut self, m: MNo) -> Option<PNo>
        requires { slice_get self.old.modes m.0 ≡ Some Mode.Calling }
        ensures runs { IfSome result (λ p. Returns m (Reply.Runs p) self.old self.new) }
        ensures shelved { IfNone result ((r : Readiness) → Returns m (Reply.Shelved r) self.old self.new) }
        ensures least { IfSome result (λ p. position is_none self.old.holders ≡ Some p.0) }
    {
        // Awake first, since only who is awake may hold a processor; without one it stays awake, and looks at the queues.
        self.modes.put(m, Mode::Awake);
        self.acquire(m)
    }

    /// Whether m may begin to spin: it doesn't spin, and fewer machines spin than processors are active.
    fn may_spin(&self, m: MNo) -> bool
        ensures { result ≡ may_spin self.now m }
    {
        !self.spinning.contains(m.0) && self.spinning.len() < self.active as usize
    }

    /// m begins to look for work, unless it does already or as many do as processors are active (Scalable Go Scheduler Design Doc,
    /// Syscalls/M Parking and Unparking). The answer is whether it begins.
    pub fn spin(&mut self, m: MNo) -> bool
        requires { IsAwake self.old m }
        ensures { Spins m (Reply.Answer result) self.old self.new }
    {
        if !self.may_spin(m) {
            return false;
        }
        self.spinning.insert(m.0);
        true
    }

    /// m doesn't look for work from here on. It need not have.
    pub fn unspin(&mut self, m: MNo)
        requires { IsAwake self.old m }
        ensures { Unspins m Reply.Done self.old self.new }
    {
        self.spinning.remove(m.0);
    }

    /// Whether a machine may be woken: nobody spins, and an active processor is idle.
    fn may_wake(&self) -> bool
        ensures { result ≡ ((how_many_spin self.now == 0) && some_idle self.now) }
    {
        self.spinning.is_empty() && self.has_idle()
    }

    /// m wakes the least parked machine, where nobody spins and an active processor is idle. Where somebody spins, that one finds the work.
    /// A machine that is only about to park isn't told: to wait for it would hold up who has work.
    pub fn poke(&mut self, m: MNo) -> Option<MNo>
        requires { IsAwake self.old m }
        ensures pokes { Pokes m (poke_reply result) self.old self.new }
        ensures least { IfSome result (λ n. position is_parked_mode self.old.modes ≡ Some n.0) }
    {
        if !self.may_wake() {
            return None;
        }
        self.modes.wake_least()
    }

    /// Whether m, which is not in a blocking call, is awake: a parked machine asks it until another has woken it.
    pub fn woken(&self, m: MNo) -> bool
        requires { IsAwake self.now m ⊎ IsParked self.now m }
        ensures { Looks m (Reply.Answer result) self.now self.now }
    {
        self.is_awake(m)
    }
}
