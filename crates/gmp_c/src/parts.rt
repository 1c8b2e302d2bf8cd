//! A run's pieces as parts, by their handle.
ghost use Rattle.std.specs.Prelude.{◌≡◌};
ghost use Rattle.std.specs.declared.alloc.Global.{Global};
ghost use Rattle.gmp_stand.specs.Parting.{Parting};

use crate::handle::Opaque;
use crate::loose::Loose;
use gmp_stand::PartText;
use std::alloc::Global;
use std::marker::Model;

/// What writes the parts, as the pointer of its box.
#[repr(C)]
pub struct Parts {
    at: *mut Opaque,
    ghost alloc: { Global },
    /// What was written.
    pub ghost value: { Parting },
}

impl Model for Parts {
    ghost use Rattle.gmp_stand.specs.contracts.parting.PartText.{the_row};
    ghost use Rattle.std.specs.Box.Ownership.{box_owns};
    ghost use Rattle.std.specs.contracts.impls.GlobalAllocator.TheImpl.{ghosts};

    ghost also_owns = { λ p. box_owns (ghosts.dealloc_token p.alloc) the_row p.at p.value };
}

/// The box of the parts, as its pointer and its allocator.
pub(crate) fn loosened(p: Parts, alloc: Global) -> Loose<PartText, Global>
    ensures { result.value ≡ p.value }
{
    let Parts { at } = p;
    Loose {
        at: at as *mut PartText,
        alloc,
    }
}

impl Parts {
    ghost use Rattle.gmp_c.specs.contracts.parts.Parts.{the_row as parts_row};
    ghost use Rattle.gmp_stand.specs.contracts.parting.PartText.{the_row as text_row};
    ghost use Rattle.gmp_c.specs.Keeping.{with_parting};
    ghost use Rattle.std.specs.Prelude.{◌≡◌};
    ghost use Rattle.std.specs.Borrow.{Lends, sem};

    /// What the box holds.
    pub(crate) fn get(&mut self) -> &mut PartText
        ensures* writes_back { sem 𝓛 (Lends parts_row text_row self.entry result (with_parting self.old)) }
        ensures value { result.now ≡ self.old.value }
    {
        unsafe { &mut *(self.at as *mut PartText) }
    }
}
