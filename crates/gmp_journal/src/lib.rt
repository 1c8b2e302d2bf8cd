//! The journal: the scheduler over plain data, without bodies and owners, which stand around it in gmp_book. Each call of a machine is made
//! whole here, or refused.
//!
//! It keeps goroutines, channels and machines, how many calls each machine has made, and the history: every accepted call with its reply,
//! until it is handed out. **Invariant:** the history is a run of gmp_seq's definitions to the present state, from the opening or from where
//! entries were last handed out, which is reached by a legal run; and the entries made are no more than the limit.
//!
//! A call comes with a pass, which names machine, run and the machine's count of calls, and with the values that it spends, in plain parts.
//! It is refused (`Refusal`) where a value or the pass is of another run, the pass isn't the machine's latest, the run is over, or what the
//! scheduler needs isn't so: a ticket that is out, a goroutine and a processor that are the machine's, a state that allows the call. Last
//! it is refused where the history is full. A refusal changes nothing and has no entry. A make may be refused for want of memory; no other
//! call takes any.
//!
//! A history holds so many entries at a time (`Limits::room`). Whoever runs for longer hands them out (`Journal::hand_out`), with no copy:
//! the history goes out, and an empty one comes in its place. Or segments are taken (`Journal::segment`): each has the state before its
//! entries besides, so the next one's is copied and kept.
//!
//! `journal` has the calls in order, `scheduler` what each does, `scheduler/refusing` what it needs, `counts` the calls made, `handed` what
//! comes with a call, `segment` what is handed out with its state, `laws` what holds of any journal.
#![tactic(auto)]

mod counts;
mod handed;
mod journal;
pub mod laws;
mod scheduler;
mod segment;

pub use handed::{Handed, memory_for};
pub use journal::Journal;
pub use segment::Segment;
