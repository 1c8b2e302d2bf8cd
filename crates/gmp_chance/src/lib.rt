//! A run over a core whose machines and words are drawn: a dealer picks each act's machine, among those that are not parked, and its word.
//! The same dealer makes the same run of the same bodies, where these get the same from outside and the same memory.
//!
//! A `Drawn` runs a core as `Player` of gmp_core does, which goes round by number. What bodies ask and the clock shows comes from an
//! `Outside`. Its run is the one that the definitions name (`IsDrawn`): each act is one of `Player`'s, of the machine whose turn was dealt.
//! A `Dealer` says by a relation of its own what it deals. `Even` draws each machine as often as another; `Ranked` draws a rank for each
//! goroutine and the clock, and now and then lets one fall behind.
#![tactic(auto)]

mod choosing;
mod dealer;
mod drawn;
mod ranked;

pub use dealer::{Dealer, Even, Next, Whose};
pub use drawn::Drawn;
pub use ranked::Ranked;
