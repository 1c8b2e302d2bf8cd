//! One book call of one machine: its driver names the call, the book makes it or refuses it, and the driver is told. At the end of a run
//! the same of a value that is given back.
//!
//! Exactly the call that the driver names is made, with the values that it hands out, and the driver holds then what its new place says:
//! what the call gave out, or where it was refused what it had before. So no body and no owner is lost or doubled, and in plain parts a
//! turn is an act of `gmp_acts` (`laws`).
//!
//! Nothing is refused but what the book refuses, and the driver is told so. A caller has to see to it that the driver and the book are of
//! one run, that the act that comes next is a call or a surrender, and that a make, and no other call, is handed memory.
#![tactic(auto)]

mod calling;
mod frequent;
mod known;
pub mod laws;
mod surrendering;

pub use calling::{memory_at, turn, woken};
pub use frequent::frequent_turn;
pub use surrendering::surrender;
