//! Processors and machines, in plain tables: who holds each processor, how many are active, what each machine does, which of them spin, and
//! which are marked. No masks and no counts: each question is a look through the lists.
ghost use Rattle.std.specs.Prelude.{◌≡◌, ◌↔◌, false, None, drop, length, map, replicate, slice_set, take, IsTrue, IfOk};
ghost use Rattle.std.specs.List.{list_any};
ghost use Rattle.gmp_seq.specs.declared.status.Mode.{Mode};
ghost use Rattle.gmp_seq.specs.Machines.{IsAwake, IsIdle, IsOpen, IsParked, Holds, IsBare, awake_marked, is_good_number, is_marked, unmarked, set_holder, set_mode, set_spinning, has_processor, how_many_spin, is_awake_mode, is_held_by, is_parked_mode, some_idle, some_parked, may_spin, spins, wants_poke};
ghost use Rattle.gmp_start.specs.Start.{machines_of};
ghost use Rattle.gmp_check.specs.Active.{HoldsSo};

mod calls;

use gmp_base::{MNo, PNo};
use gmp_seq::Mode;
use gmp_start::Start;
use std::alloc::{AllocError, Global};
use std::marker::Model;

/// A contract sees who is awake by the modes, and all else as it stands.
#[derive(Drop)]
pub(crate) struct Machines {
    holders: Vec<Option<MNo>>,
    modes: Vec<Mode>,
    spinning: Vec<bool>,
    marked: Vec<bool>,
    /// Which machines are awake.
    awake: Vec<bool>,
    active: u8,
}

impl Model for Machines {
    ghost use Rattle.std.specs.Prelude.{◌≡◌, length, map};
    ghost use Rattle.gmp_seq.specs.Machines.{Machines as MachinesValue, is_awake_mode};

    ghost Value = { MachinesValue };

    ghost view = { λ w. record { holders = w.holders.items; modes = w.modes.items; spinning = w.spinning.items; marked = w.marked.items; active = w.active } };

    ghost invariant = { λ w. (w.awake.items ≡ map is_awake_mode w.modes.items) × (length w.marked.items ≡ length w.modes.items) };
}

/// Puts x at a place, if there is that place.
fn set<T: Copy>(list: &mut [T], place: usize, x: T)
    ensures { list.new ≡ slice_set list.old place x }
{
    if place < list.len() {
        list[place] = x;
    }
}

/// Whether m is this holder.
fn is_held_by(m: MNo, holder: Option<MNo>) -> bool
    ensures { result ≡ is_held_by m holder }
{
    match holder {
        Some(n) => m.0 == n.0,
        None => false,
    }
}

/// Whether a machine with this mode is awake.
fn is_awake_mode(mode: Mode) -> bool
    ensures { result ≡ is_awake_mode mode }
{
    matches!(mode, Mode::Awake)
}

/// Which machines are awake.
fn awake_of(alloc: Global, modes: &[Mode]) -> Result<Vec<bool>, AllocError>
    ensures { IfOk result (λ v. v.items ≡ map is_awake_mode modes.now) }
{
    let mut awake = Vec::new(alloc);
    for mode in modes {
        awake.push(is_awake_mode(*mode))?;
    }
    Ok(awake)
}

impl Machines {
    /// No processor is held, all are active, all machines are awake, nobody spins and nobody is marked.
    pub(crate) fn opening(alloc: Global, procs: u8, machines: u8) -> Result<Self, AllocError>
        ensures { IfOk result (λ w. w ≡ record { holders = replicate procs None; modes = replicate machines Mode.Awake; spinning = replicate machines false; marked = replicate machines false; active = procs }) }
    {
        Ok(Machines {
            holders: vec![in alloc; None; procs as usize]?,
            modes: vec![in alloc; Mode::Awake; machines as usize]?,
            spinning: vec![in alloc; false; machines as usize]?,
            marked: vec![in alloc; false; machines as usize]?,
            awake: vec![in alloc; true; machines as usize]?,
            active: procs,
        })
    }

    /// The machines of a start.
    pub(crate) fn begin(alloc: Global, start: &Start) -> Result<Self, AllocError>
        requires { length start.now.marked.items ≡ length start.now.modes.items }
        ensures { IfOk result (λ w. w ≡ machines_of start.now) }
    {
        Ok(Machines {
            holders: start.holders.to_vec(alloc)?,
            modes: start.modes.to_vec(alloc)?,
            spinning: start.spinning.to_vec(alloc)?,
            marked: start.marked.to_vec(alloc)?,
            awake: awake_of(alloc, &start.modes)?,
            active: start.active,
        })
    }

    /// The same machines once more.
    pub(crate) fn cloned(&self, alloc: Global) -> Result<Self, AllocError>
        ensures { IfOk result (λ w. w ≡ self.now) }
    {
        Ok(Machines {
            holders: self.holders.to_vec(alloc)?,
            modes: self.modes.to_vec(alloc)?,
            spinning: self.spinning.to_vec(alloc)?,
            marked: self.marked.to_vec(alloc)?,
            awake: self.awake.to_vec(alloc)?,
            active: self.active,
        })
    }

    pub(crate) fn holders(&self) -> &[Option<MNo>]
        ensures { result.now ≡ self.now.holders }
    {
        &self.holders
    }

    pub(crate) fn modes(&self) -> &[Mode]
        ensures { result.now ≡ self.now.modes }
    {
        &self.modes
    }

    pub(crate) fn spinning(&self) -> &[bool]
        ensures { result.now ≡ self.now.spinning }
    {
        &self.spinning
    }

    pub(crate) fn marked(&self) -> &[bool]
        ensures { result.now ≡ self.now.marked }
    {
        &self.marked
    }

    pub(crate) fn active(&self) -> u8
        ensures { result ≡ self.now.active }
    {
        self.active
    }

    pub(crate) fn is_awake(&self, m: MNo) -> bool
        ensures { IsTrue result ↔ IsAwake self.now m }
    {
        matches!(self.modes.get(m.0 as usize), Some(Mode::Awake))
    }

    pub(crate) fn is_parked(&self, m: MNo) -> bool
        ensures { IsTrue result ↔ IsParked self.now m }
    {
        matches!(self.modes.get(m.0 as usize), Some(Mode::Parked))
    }

    /// Whether nobody holds the processor, be it active or not.
    pub(crate) fn is_idle(&self, p: PNo) -> bool
        ensures { IsTrue result ↔ IsIdle self.now p }
    {
        matches!(self.holders.get(p.0 as usize), Some(None))
    }

    /// Whether the processor may be given out: it is idle, and active.
    pub(crate) fn is_open(&self, p: PNo) -> bool
        ensures { IsTrue result ↔ IsOpen self.now p }
    {
        self.is_idle(p) && p.0 < self.active
    }

    /// Whether m holds this processor.
    pub(crate) fn holds(&self, m: MNo, p: PNo) -> bool
        ensures { IsTrue result ↔ Holds self.now m p }
    {
        match self.holders.get(p.0 as usize) {
            Some(Some(n)) => m.0 == n.0,
            _ => false,
        }
    }

    /// Whether m holds some processor, active or not.
    pub(crate) fn has_processor(&self, m: MNo) -> bool
        ensures { result ≡ has_processor self.now m }
    {
        self.holders.iter().any(|holder| is_held_by(m, *holder))
    }

    pub(crate) fn spins(&self, m: MNo) -> bool
        ensures { result ≡ spins self.now m }
    {
        self.spinning.get(m.0 as usize).copied().unwrap_or(false)
    }

    pub(crate) fn is_marked(&self, m: MNo) -> bool
        ensures { result ≡ is_marked self.now m }
    {
        self.marked.get(m.0 as usize).copied().unwrap_or(false)
    }

    /// Whether m holds a processor that is active.
    fn holds_below(&self, m: MNo) -> bool
        ensures { result ≡ list_any (is_held_by m) (take self.now.active self.now.holders) }
    {
        self.holders
            .iter()
            .take(self.active as usize)
            .any(|holder| is_held_by(m, *holder))
    }

    /// Whether m holds a processor that is not active.
    fn holds_above(&self, m: MNo) -> bool
        ensures { result ≡ list_any (is_held_by m) (drop self.now.active self.now.holders) }
    {
        self.holders
            .iter()
            .skip(self.active as usize)
            .any(|holder| is_held_by(m, *holder))
    }

    /// Whether m holds a processor that is active, or one that is not.
    /// Two looks decide a keep: to find m's processor first would need that it holds one at most.
    fn holds_some(&self, m: MNo, active: bool) -> bool
        ensures { IsTrue result ↔ HoldsSo self.now m active }
    {
        if active {
            self.holds_below(m)
        } else {
            self.holds_above(m)
        }
    }

    /// Whether so many processors may be active.
    fn is_good_number(&self, n: u8) -> bool
        ensures { result ≡ is_good_number self.now n }
    {
        1 <= n && n as usize <= self.holders.len()
    }

    /// Whether some processor may be given out.
    pub(crate) fn has_idle(&self) -> bool
        ensures { result ≡ some_idle self.now }
    {
        self.holders
            .iter()
            .take(self.active as usize)
            .any(|holder| holder.is_none())
    }

    pub(crate) fn has_parked(&self) -> bool
        ensures { result ≡ some_parked self.now }
    {
        self.modes.iter().any(|mode| matches!(mode, Mode::Parked))
    }

    /// Whether m is awake, holds no processor and doesn't spin, as a park asks.
    pub(crate) fn is_bare(&self, m: MNo) -> bool
        ensures { IsTrue result ↔ IsBare self.now m }
    {
        self.is_awake(m) && !self.has_processor(m) && !self.spins(m)
    }

    /// Counted anew each time.
    fn how_many_spin(&self) -> usize
        ensures { result ≡ how_many_spin self.now }
    {
        self.spinning.iter().filter(|spins| **spins).count()
    }

    /// Whether m may begin to spin: it doesn't, and fewer do than processors are active.
    fn may_spin(&self, m: MNo) -> bool
        ensures { result ≡ may_spin self.now m }
    {
        !self.spins(m) && self.how_many_spin() < self.active as usize
    }

    /// Whether a poke wakes somebody: nobody spins, a processor is idle, and a machine is parked.
    fn wants_poke(&self) -> bool
        ensures { result ≡ wants_poke self.now }
    {
        self.how_many_spin() == 0 && self.has_idle() && self.has_parked()
    }

    /// Who holds the processor from now on.
    pub(crate) fn set_holder(&mut self, p: PNo, holder: Option<MNo>)
        ensures { self.new ≡ set_holder self.old p holder }
    {
        set(&mut self.holders, p.0 as usize, holder);
    }

    /// What m does from now on. Both lists are written, so that who is awake is one look.
    pub(crate) fn set_mode(&mut self, m: MNo, mode: Mode)
        ensures { self.new ≡ set_mode self.old m mode }
    {
        let place = m.0 as usize;
        if place < self.modes.len() {
            self.modes[place] = mode;
            self.awake[place] = is_awake_mode(mode);
        }
    }

    fn set_spinning(&mut self, m: MNo, spinning: bool)
        ensures { self.new ≡ set_spinning self.old m spinning }
    {
        set(&mut self.spinning, m.0 as usize, spinning);
    }

    /// m is marked no more.
    fn unmark(&mut self, m: MNo)
        ensures { self.new ≡ unmarked self.old m }
    {
        set(&mut self.marked, m.0 as usize, false);
    }

    /// Marks each machine that is awake, and no other.
    fn mark_awake(&mut self)
        ensures { self.new ≡ awake_marked self.old }
    {
        self.marked.copy_from_slice(&self.awake);
    }
}
