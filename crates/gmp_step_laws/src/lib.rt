//! That runs of the core by a script's bodies are runs of the scheduler by these bodies, as the small system of the script knows them, and that
//! what `gmp step` plays of a script has one end.
//!
//! A body's ask is taken when its machine resumes it, and its call is made by a later act of the same machine. Between the two the body
//! stands one ask ahead of the history (`laws`).
//!
//! A make that memory refuses has no entry, but the goroutine that asked it goes on. So the run is one of these bodies where no make was
//! refused so, and else one in which they pass over such makes.
#![tactic(auto)]

pub mod laws;
