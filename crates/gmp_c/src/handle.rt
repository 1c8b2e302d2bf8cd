//! A box as its pointer, which C can hold.
ghost use Rattle.std.specs.Prelude.{◌≡◌};
ghost use Rattle.gmp_stand.specs.Standing.{Standing};
ghost use Rattle.std.specs.declared.alloc.Global.{Global};

use crate::loose::Loose;
use gmp_stand::Stand;
use std::alloc::{Allocator, Global};
use std::marker::Model;

/// What C holds a pointer to.
#[repr(C)]
pub struct Opaque {
    word: u64,
}

/// A box as its pointer.
#[repr(C)]
pub struct Handle {
    at: *mut Opaque,
    ghost alloc: { Global },
    /// What the box holds.
    pub ghost value: { Standing },
}

impl Model for Handle {
    ghost use Rattle.gmp_stand.specs.contracts.stand.Stand.{the_row};
    ghost use Rattle.gmp_stand.specs.Standing.{Standing};
    ghost use Rattle.std.specs.Box.Ownership.{box_owns};
    ghost use Rattle.std.specs.declared.alloc.Global.{Global};
    ghost use Rattle.std.specs.contracts.impls.GlobalAllocator.TheImpl.{ghosts};

    ghost also_owns = { λ h. box_owns (ghosts.dealloc_token h.alloc) the_row h.at h.value };
}

/// The pointer of a box, which goes to C with the box.
pub(crate) fn put<T: Drop, A: Allocator>(value: Box<T, A>) -> *mut Opaque {
    Box::into_raw(value) as *mut Opaque
}

/// The handle's box, as its pointer and its allocator.
pub(crate) fn loosened(h: Handle, alloc: Global) -> Loose<Stand, Global>
    ensures { result.value ≡ h.value }
{
    let Handle { at } = h;
    Loose {
        at: at as *mut Stand,
        alloc,
    }
}

impl Handle {
    ghost use Rattle.gmp_c.specs.contracts.handle.Handle.{the_row as handle_row};
    ghost use Rattle.gmp_stand.specs.contracts.stand.Stand.{the_row as stand_row};
    ghost use Rattle.gmp_c.specs.Keeping.{with_value};
    ghost use Rattle.std.specs.Prelude.{◌≡◌};
    ghost use Rattle.std.specs.Borrow.{Lends, sem};

    /// What the handle's box holds.
    pub(crate) fn get(&mut self) -> &mut Stand
        ensures* writes_back { sem 𝓛 (Lends handle_row stand_row self.entry result (with_value self.old)) }
        ensures value { result.now ≡ self.old.value }
    {
        unsafe { &mut *(self.at as *mut Stand) }
    }
}
