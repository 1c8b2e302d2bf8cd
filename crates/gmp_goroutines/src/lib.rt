//! Goroutines, the channels on which they wait, and who runs where, tied together: what each call does to them, whichever machine makes it.
//! Channels and selects do what the Go specification says; blocking calls are the Scalable Go Scheduler Design Doc's (Syscalls/M Parking
//! and Unparking).
//!
//! The invariant: who waits on channels is, in order, who waits by the statuses; who is parked has no offer; each machine's note says whom
//! it ran last; each wait's arrival is below the next. A call changes two or three of these at once, and between its steps they don't fit,
//! so they are one value.
//!
//! Refused is a make for want of memory alone, by which nothing changes. What a body does wrong is an answer, the fault of the Go
//! specification (Run-time panics) or of the project. What a call needs of the goroutine that makes it, as that it runs, is required, and
//! tested by the journal above.
//!
//! Only `open` and `make` take memory. No call looks at all goroutines: a close and a tick look at those that they wake.
#![tactic(auto)]

mod goroutines;

pub use goroutines::Goroutines;
