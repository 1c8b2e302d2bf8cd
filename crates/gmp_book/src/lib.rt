//! The book: a run of the scheduler as a thing to call, with a body for each goroutine and an owner for each processor. A machine calls it
//! by its pass, with the values that it was handed out: tickets, goroutines with their bodies, processors with their owners.
//!
//! A call is made whole and adds one entry, or it is refused: then nothing has changed, and what it was handed comes back. Whatever is
//! called, with whatever values, the history leads by legal steps to the present state: from the opening, or from where its entries were
//! last handed out. Each body and each owner has a place; while the run lasts a place is vacant exactly where its goroutine runs or makes
//! its blocking call, or its processor is held.
//!
//! Refused are: a pass or a value of another run; a pass that is not at its machine's count, or has seen entries that were not made; every
//! call once the run is over; one that the machine's state forbids, as a claim without a processor; a ticket that is not given out; a value
//! that is not the machine's; last, every call while the history is full; and a make that memory is refused. A surrender is refused while
//! the run lasts or where the value's place is not vacant, the report while the run lasts or a place is vacant. What a goroutine asks in
//! vain is no refusal: it is told a fault, as a reply.
//!
//! What the calls cost:
//!
//! - `take`, `put`, `claim`, `go`, `yield_to`, `exit`, `make`, `len`, `cap`, `park_g`, `ready`, `enter`, `leave` are constant: a row of the
//!   status table, an end of the shelf, a place of bodies, one entry.
//! - `acquire`, `declare`, `declare_bare`, `spin`, `unspin`, `poke`, `woken` are constant: a mask of processors or of machines, one entry.
//! - `send`, `recv` and each case of a `select` are constant: who waits first on the channel, the offers of a goroutine that is served, and
//!   no row but those of the two.
//! - `sleep`, and a `select` that waits until a moment, find the place of their deadline by halves, and move those that are sooner; so does
//!   the end of such a wait.
//! - `park` answers from counts and the least deadline. `close` and `tick` are constant for each that is woken: who waits first on the
//!   channel, or has the least deadline.
//! - `outcome`, `history`, `is_full` and the surrenders are constant.
//! - `open` takes memory for the entries of a history and all goroutines; `into_report` moves each body and owner once.
//! - `hand_out` is constant and copies nothing; `start` copies the state, `segment` twice, and takes memory for the entries of a history.
//!   No call but `open`, a make, `start` and `segment` takes memory.
#![tactic(auto)]

mod answers;
mod book;
mod in_hand;
mod opening;
mod report;
mod returned;
mod settling;
mod slots;
mod values;
mod went;

pub use answers::{Exited, Parking};
pub use book::Book;
pub use gmp_journal::Segment;
pub use opening::Unopened;
pub use report::Report;
pub use returned::Returned;
pub use values::Values;
pub use went::{Moved, Went};
