//! A text that C feeds in chunks, and its handle.
ghost use Rattle.std.specs.Prelude.{◌≡◌, ◌++◌, [], List, OnErr, OnOk, ℕ};
ghost use Rattle.std.specs.declared.alloc.Global.{Global};

use crate::handle::Opaque;
use crate::loose::Loose;
use std::alloc::{AllocError, Global};
use std::marker::Model;

/// The bytes that were fed so far, one behind another.
#[derive(Drop)]
pub struct Fed {
    text: Vec<u8>,
}

impl Model for Fed {
    ghost use Rattle.std.specs.Prelude.{List, ℕ};

    ghost Value = { List ℕ };

    ghost view = { λ f. f.text.items };
}

impl Fed {
    /// Nothing was fed yet.
    pub(crate) fn new(alloc: Global) -> Fed
        ensures { result ≡ [] }
    {
        Fed {
            text: Vec::new(alloc),
        }
    }

    /// Feeds this too.
    pub(crate) fn feed(&mut self, text: &[u8]) -> Result<(), AllocError>
        ensures fed { OnOk result (self.new ≡ self.old ++ text.now) }
        ensures refused { OnErr result (self.new ≡ self.old) }
    {
        self.text.extend_from_slice(text)
    }

    /// What was fed.
    pub(crate) fn text(&self) -> &[u8]
        ensures { result.now ≡ self.now }
    {
        &self.text
    }
}

/// What was fed, as the pointer of its box.
#[repr(C)]
pub struct Checker {
    at: *mut Opaque,
    ghost alloc: { Global },
    /// What was fed.
    pub ghost value: { List ℕ },
}

impl Model for Checker {
    ghost use Rattle.gmp_c.specs.contracts.checker.Fed.{the_row};
    ghost use Rattle.std.specs.Box.Ownership.{box_owns};
    ghost use Rattle.std.specs.contracts.impls.GlobalAllocator.TheImpl.{ghosts};

    ghost also_owns = { λ c. box_owns (ghosts.dealloc_token c.alloc) the_row c.at c.value };
}

/// The checker's box, as its pointer and its allocator.
pub(crate) fn loosened(c: Checker, alloc: Global) -> Loose<Fed, Global>
    ensures { result.value ≡ c.value }
{
    let Checker { at } = c;
    Loose {
        at: at as *mut Fed,
        alloc,
    }
}

impl Checker {
    ghost use Rattle.gmp_c.specs.contracts.checker.Checker.{the_row as checker_row};
    ghost use Rattle.gmp_c.specs.contracts.checker.Fed.{the_row as fed_row};
    ghost use Rattle.gmp_c.specs.Keeping.{with_text};
    ghost use Rattle.std.specs.Prelude.{◌≡◌};
    ghost use Rattle.std.specs.Borrow.{Lends, sem};

    /// What the checker's box holds.
    pub(crate) fn get(&mut self) -> &mut Fed
        ensures* writes_back { sem 𝓛 (Lends checker_row fed_row self.entry result (with_text self.old)) }
        ensures value { result.now ≡ self.old.value }
    {
        unsafe { &mut *(self.at as *mut Fed) }
    }
}
