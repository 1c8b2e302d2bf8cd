//! The rule of a local queue (`InOrder`), and its five kinds of step: a push, a pop, a pop that finds none, a steal, a steal that finds
//! none. `View` is what a pass knows, with `Taken` for what it took; `Lend` parts and joins passes. A pass is one end's handle on the
//! deque.

use crossbeam_deque::protocol::{Join, Outcome, Protocol, Split};
use gmp_base::Readiness;
use std::collections::LinkedList;

/// A readiness with the position that it was taken from: the number of pushes before its own.
#[derive(Clone, Copy)]
pub struct Taken {
    pub at: u64,
    pub readiness: Readiness,
}

/// What a pass knows: what it has put and taken, and its parts of the right to know the whole. No value of it is made. That all was taken
/// is a fact over all passes, so it is known to who has every part: the owner, once it has taken in all its thieves. A fact at each pop
/// that finds none would not be true of a queue from which others take.
pub struct View {
    /// Whether it is the one that pushes.
    pub owner: bool,
    /// Of 66 in all: one for each of 64 thieves at most, and at least two for the owner.
    pub parts: u64,
    /// What it has put, the first first.
    pub put: LinkedList<Readiness>,
    /// What it has taken.
    pub took: LinkedList<Taken>,
}

/// The rule of a queue: the invariant of all passes together, and what the owner and a thief begin with.
pub struct InOrder;

impl Protocol<Readiness, View> for InOrder {
    ghost use Rattle.std.specs.Prelude.{true, false, []};
    ghost use Rattle.gmp_queue.specs.Queue.{view_with, all_parts, IsQueue};

    ghost holds = { IsQueue };

    ghost first = { view_with true all_parts [] [] };

    ghost guest = { view_with false 0 [] [] };
}

// A push: what is put goes last.
pub(crate) struct Push;

impl Outcome<Readiness, View> for Push {
    ghost use Rattle.gmp_queue.specs.Queue.{PutLast};

    ghost then = { PutLast };
}

// A pop, and one that finds none.
pub(crate) struct Pop;

impl Outcome<Readiness, View> for Pop {
    ghost use Rattle.gmp_queue.specs.Queue.{PoppedFirst, FoundNone};

    ghost then = { PoppedFirst };

    ghost empty = { FoundNone };
}

// A steal, and one that finds none, which tells nothing: another may push at once.
pub(crate) struct Steal;

impl Outcome<Readiness, View> for Steal {
    ghost use Rattle.gmp_queue.specs.Queue.{StoleFirst};

    ghost then = { StoleFirst };
}

// At the opening a thief gets a pass of its own, and at the closing it gives it back. No ticket moves.
pub(crate) struct Lend;

impl Split<View> for Lend {
    ghost use Rattle.gmp_queue.specs.Queue.{kept, lent};

    ghost left = { kept };

    ghost right = { λ _. lent };
}

impl Join<View> for Lend {
    ghost use Rattle.gmp_queue.specs.Queue.{both, spent};

    ghost both = { both };

    ghost spent = { spent };
}
