//! A picture of a trace, as SVG, from left to right by entries: a lane for each machine, what goroutines it runs and which of them are in
//! blocking calls, where it spins and is parked; or one for each goroutine, where it runs, is ready and waits, and for what. Then arrows
//! from who made a goroutine ready to its claim, and below a lane for each channel with how full it is. No script and no font comes with
//! it, and each shape has a title.
//!
//! gmp_lanes tells what is drawn. `layout` says where each of them is, and `lanes`, `levels`, `moments` and `frame` write them by a `pen`, in
//! the pieces of `svg`.
//!
//! **Invariant**: what comes behind an entry stands right of it, or there; a label stands only where it fits its span. The work is that of
//! gmp_lanes, and linear in what is drawn.
//!
//! Refused is what `gmp check` refuses (`command`), an output that fails, and want of memory.
#![tactic(auto)]

mod colours;
mod columns;
mod command;
mod drawing;
mod frame;
mod lanes;
mod layout;
mod levels;
mod moments;
mod pen;
mod rows;
mod svg;

pub use command::draw;
pub use drawing::picture;
