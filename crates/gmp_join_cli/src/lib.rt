//! The command `gmp join` as a function: it reads the parts of a run, one behind another as they are written, judges each as `gmp check`
//! does, and sees that each but the first goes on where the one before stops. So it says of a run what `check` would say of it as one trace,
//! whatever its length.
//!
//! **Invariant**: at no time is more in memory than one part and the state where the part before stops. Nothing is written before all parts
//! are found right and in order.
//!
//! `taking` takes the next part off the input, `stopping` is the state where a trace stops and whether another begins there, `joining` the
//! command.
#![tactic(auto)]

mod joining;
mod stopping;
mod taking;

pub use joining::join;
