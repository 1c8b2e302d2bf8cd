//! What becomes of a goroutine that comes back from a blocking call.
use gmp_base::{Held, Proc};

/// Whether the goroutine runs on.
// No Held with an optional Proc, by which it could run without a processor.
pub enum Returned<T, Q> {
    /// It runs on, on the least active processor that was idle.
    Runs(Held<T>, Proc<Q>),
    /// No active processor was idle: it is on the shelf, last, and its body is in the book.
    Shelved,
}
