//! Processors, and the machines that hold them (Scalable Go Scheduler Design Doc, Processors).
ghost use Rattle.std.specs.Prelude.{◌≡◌, ◌≤◌, ◌<◌, false, None, is_none, length, replicate, take, slice_get, slice_set, IfOk};
ghost use Rattle.std.specs.List.{list_any};
ghost use Rattle.std.specs.Option.{option_map_or};
ghost use Rattle.gmp_seq.specs.Machines.{is_held_by};
ghost use Rattle.gmp_idle.specs.Tables.{TakesLeast};

use crate::small_set::SmallSet;
use gmp_base::{MNo, PNo};
use std::alloc::{AllocError, Global};
use std::marker::Model;

/// Who holds each processor. A contract sees the list of the holders.
///
/// Each call but `idle` and `holds_below` is constant.
#[derive(Drop)]
pub(crate) struct Processors {
    holders: Vec<Option<MNo>>,
    /// Those that nobody holds.
    idle: SmallSet,
}

impl Model for Processors {
    ghost use Rattle.std.specs.Prelude.{◌≡◌, List, Option, is_none, map};
    ghost use Rattle.gmp_base.specs.declared.number.MNo.{MNo as Machine};

    ghost Value = { List (Option Machine) };

    ghost view = { λ w. w.holders.items };

    // Idle are those that nobody holds, and no others.
    ghost invariant = { λ w. w.idle ≡ map is_none w.holders.items };
}

impl Processors {
    /// Nobody holds any of the processors. The cost is linear.
    pub(crate) fn idle(alloc: Global, procs: u8) -> Result<Self, AllocError>
        requires some { 1 ≤ procs }
        requires room { procs ≤ 64 }
        ensures { IfOk result (λ w. w ≡ replicate procs None) }
    {
        Ok(Processors {
            holders: vec![in alloc; None; procs as usize]?,
            idle: SmallSet::all(procs),
        })
    }

    /// The holders, by processor.
    pub(crate) fn as_slice(&self) -> &[Option<MNo>]
        ensures { result.now ≡ self.now }
    {
        &self.holders
    }

    /// How many processors there are, active or not.
    pub(crate) fn len(&self) -> usize
        ensures { result ≡ length self.now }
    {
        self.holders.len()
    }

    /// Whether nobody holds some processor below `active`. The least of all tells it: where that isn't below, none is.
    pub(crate) fn has_idle(&self, active: u8) -> bool
        ensures { result ≡ list_any is_none (take active self.now) }
    {
        match self.idle.least() {
            Some(p) => p < active,
            None => false,
        }
    }

    /// Whether m holds p.
    pub(crate) fn holds(&self, m: MNo, p: PNo) -> bool
        ensures { result ≡ option_map_or (is_held_by m) (slice_get self.now p.0) false }
    {
        match self.holders.get(p.0 as usize) {
            Some(Some(n)) => m.0 == n.0,
            _ => false,
        }
    }

    /// Whether m holds a processor below `active`. The cost is linear.
    pub(crate) fn holds_below(&self, m: MNo, active: u8) -> bool
        ensures { result ≡ list_any (is_held_by m) (take active self.now) }
    {
        self.holders
            .iter()
            .take(active as usize)
            .any(|holder| matches!(holder, Some(n) if m.0 == n.0))
    }

    /// Lets m hold the least idle processor, where it is below `active`. That is the least of the active ones too, which have the least
    /// numbers.
    pub(crate) fn take(&mut self, m: MNo, active: u8) -> Option<PNo>
        ensures { TakesLeast m active result self.old self.new }
    {
        // The least of all: where it isn't active, no active one is idle.
        let p = self.idle.least()?;
        if p >= active {
            return None;
        }
        self.idle.remove(p);
        self.holders[p as usize] = Some(m);
        Some(PNo(p))
    }

    /// Nobody holds p from here on.
    pub(crate) fn release(&mut self, p: PNo)
        requires { p.0 < length self.old }
        ensures { self.new ≡ slice_set self.old p.0 None }
    {
        self.idle.insert(p.0);
        self.holders[p.0 as usize] = None;
    }
}
