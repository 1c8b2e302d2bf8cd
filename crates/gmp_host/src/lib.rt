//! For a program that embeds the runtime: goroutines, channels and selects of its own, run by machines in threads or by a core.
//!
//! A `Host` takes the goroutines, the first of which is main, and runs them: `run` by machines in threads, `step` in one thread, the same
//! every time, and `step_by` in one thread, machines and words drawn from a seed. Each tells how it `Ended`, as a legal run from the opening
//! ended; `step_traced`, `run_traced` and `replay` hand its trace out, and `run_saved` writes it to a file. `run_into` runs them for as long
//! as they like, and hands the history to a `Sink` piece by piece. `search` looks for a seed whose run does not end well, `shortest` for the
//! shortest such run.
//!
//! A `Spawner` starts goroutines while the run goes on, and hands each its body over, a `Task`, whose output it leaves in `Outputs`.
//!
//! A channel carries numbers. On a `Typed` goroutines send values of any type: each lies at a number, in `Slots`. A `Handle` is a goroutine whose
//! number is known before it is boxed.
//!
//! A goroutine is a `Goroutine`: a state machine without clauses. `Go` makes a body of it, whose clauses say nothing, and notes where it
//! was lost. Boxes are made where the goroutine's type is known: no function hands out a box of a type parameter. So `Host::boxed` gives a
//! box of its own type, and the caller of `Host::push` makes it a box of any.
#![tactic(auto)]

mod channel;
mod drawing;
mod ending;
mod goroutine;
mod group;
mod handle;
mod host;
mod note;
mod queue;
mod saving;
mod searching;
mod select;
mod settings;
mod single;
mod slots;
mod spawner;
mod stamps;
mod stepping;
mod told;
mod traced;
mod waits;

pub use channel::Channel;
pub use ending::{Ended, Lost, Short};
pub use gmp_base::{Ask, CNo, Case, Cases, Fault, GNo, MNo, Woke};
pub use gmp_chance::{Dealer, Next, Ranked, Whose};
pub use gmp_driver::Act;
pub use gmp_history::History;
pub use gmp_run::{Clock, Gate, MOST_REST, Open, Since, Sink, Stop};
pub use gmp_seq::{Limits, Outcome};
pub use gmp_trace::WriteError;
pub use gmp_waits::{AtEnd, Does, Waiting};
pub use goroutine::{Go, Goroutine, Nonsense};
pub use group::Group;
pub use handle::Handle;
pub use host::Host;
pub use note::{Note, Time};
pub use saving::SaveError;
pub use searching::{FellShort, Found, search, shortest};
pub use select::Select;
pub use settings::Settings;
pub use slots::{Slots, Typed};
pub use spawner::{Outputs, Spawned, Spawner, Task};
pub use traced::Traced;
