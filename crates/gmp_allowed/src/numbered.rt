//! Which replies could name a processor or a machine, by how many there are.
ghost use Rattle.std.specs.Prelude.{◌≡◌, ◌⊎◌, ◌<◌, ◌^◌, List, Option, Some, OnOk, length, slice_get};
ghost use Rattle.gmp_base.specs.declared.number.MNo.{MNo};
ghost use Rattle.gmp_seq.specs.declared.call.Reply.{Reply};
ghost use Rattle.gmp_seq.specs.Machines.{is_held_by};
ghost use Rattle.gmp_allowed.specs.Tried.{AddsEach, Before, IsEntered, IsNamed, named};

use crate::replies::add;
use gmp_base::{MNo, PNo};
use gmp_seq::Reply;
use gmp_walk::{machine_at, processor_at};
use std::alloc::AllocError;

/// A reply that names a processor or a machine.
#[derive(Clone, Copy)]
pub(crate) enum Naming {
    Proc,
    Runs,
    Idle,
    Wakes,
    Entered(PNo),
}

/// The reply with this number.
fn named(naming: Naming, k: usize) -> Reply
    ensures { k < 2 ^ 8 → result ≡ named naming k }
{
    match naming {
        Naming::Proc => Reply::Proc(processor_at(k)),
        Naming::Runs => Reply::Runs(processor_at(k)),
        Naming::Idle => Reply::Idle(processor_at(k)),
        Naming::Wakes => Reply::Wakes(machine_at(k)),
        Naming::Entered(p) => Reply::Entered(p, Some(machine_at(k))),
    }
}

/// The reply with each number below n.
pub(crate) fn of_numbers(naming: Naming, n: usize, out: &mut Vec<Reply>) -> Result<(), AllocError>
    ensures { OnOk result (AddsEach (Before (IsNamed naming) n) out.old.items out.new.items) }
{
    for k in 0..n {
        add(out, named(naming, k))?;
    }
    Ok(())
}

/// The same, or nothing.
pub(crate) fn of_numbers_or_nothing(
    naming: Naming,
    n: usize,
    out: &mut Vec<Reply>,
) -> Result<(), AllocError>
    ensures { OnOk result (AddsEach (λ (r : Reply). Before (IsNamed naming) n r ⊎ (Reply.Nothing ≡ r)) out.old.items out.new.items) }
{
    of_numbers(naming, n, out)?;
    add(out, Reply::Nothing)
}

/// Whether it is the machine that holds a processor.
fn is_held_by(m: MNo, holder: Option<MNo>) -> bool
    ensures { result ≡ is_held_by m holder }
{
    match holder {
        Some(n) => m.0 == n.0,
        None => false,
    }
}

/// What gives up this processor: whoever holds it, and any machine or none is woken.
fn of_entered(
    m: MNo,
    p: usize,
    holder: Option<MNo>,
    machines: usize,
    out: &mut Vec<Reply>,
) -> Result<(), AllocError>
    ensures { (holders : List (Option MNo)) → slice_get holders p ≡ Some holder → OnOk result (AddsEach (IsEntered m machines holders p) out.old.items out.new.items) }
{
    if !is_held_by(m, holder) {
        return Ok(());
    }
    add(out, Reply::Entered(processor_at(p), None))?;
    of_numbers(Naming::Entered(processor_at(p)), machines, out)
}

/// A blocking call is entered.
pub(crate) fn of_enter(
    holders: &[Option<MNo>],
    m: MNo,
    machines: usize,
    out: &mut Vec<Reply>,
) -> Result<(), AllocError>
    ensures { OnOk result (AddsEach (Before (IsEntered m machines holders.now) (length holders.now)) out.old.items out.new.items) }
{
    for (p, holder) in holders.iter().enumerate() {
        of_entered(m, p, *holder, machines, out)?;
    }
    Ok(())
}
