//! The lines of a start: a state as a text, from which a run may go on. They stand behind the limits, in place of the capacities.
//!
//! - `start N now X arrivals A active P`: how many entries were made, the latest moment that was told, how many waits began, and how many
//!   processors are active.
//! - `counts`, and of each machine how many entries it made. `procs`, and of each processor `idle` or the machine that holds it.
//!   `machines`, and of each `awake`, `parked` or `calling`. `spinning`, and which machines spin; `marked`, and which have to look at all
//!   queues once more.
//! - Of each channel `chan C CAPACITY open` or `chan C CAPACITY closed`, and its values, the first first.
//! - Of each goroutine `g G E`, with its latest epoch, and what it does: `dormant`, `dead`, `running M`, `calling M`, `shelf WOKE`,
//!   `out WOKE`, or `waits A KIND`, with its arrival, then `until D` where it has a deadline, and its offers, each `I:send:C:V` or
//!   `I:recv:C` by its case. KIND is `plain`, `select`, `sleep` or `parked`. WOKE, what it is to be told, is `first`, `done`, `got V B`,
//!   `chose I`, `chose I V B`, `late`, `number N` or `fault 4`.
//! - `begin`.

mod at;
mod begin;
mod channels;
mod guess;
mod heads;
mod put;
mod rows;
mod whole;

pub use begin::begin_line;
pub use put::put_start;
pub use whole::read_whole_start;
