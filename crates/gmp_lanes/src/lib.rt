//! What a trace tells of a run, side by side by entries, for whoever shows it: a lane for each machine, what goroutines it runs and which of
//! them are in blocking calls, where it spins and is parked; or one for each goroutine, where it runs, is ready and waits, and for what. Then
//! from who made a goroutine ready to its claim, how full each channel was, and the clock's moments.
//!
//! A walk along the trace (gmp_walk) tells a `scene` of each entry: it collects `spans` of `machines` or goroutines (`lives`), `arrows`,
//! levels of `channels` and the clock's `moments`.
//!
//! **Invariant**: on each lane one span is open at most, so no two of its spans overlap; that of a goroutine is at each entry what the
//! scheduler's row says. The work is that of the walk, with a look at each row where goroutines have lanes.
//!
//! Refused are traces at whose beginning no run may begin, and want of memory.
#![tactic(auto)]

mod arrows;
mod channels;
mod lives;
mod machines;
mod moments;
mod range;
mod scene;
mod spans;
mod words;

pub use arrows::{Arrow, Arrows, Spot};
pub use channels::{Channel, Channels, Event, Happening, Level};
pub use moments::{Moment, Moments};
pub use range::Range;
pub use scene::{Scene, scene_of};
pub use spans::{Doing, Reason, Span, Spans};
