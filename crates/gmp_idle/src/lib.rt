//! Which machine holds each processor, what each machine does, and which of them spin: the P and M of the Scalable Go Scheduler Design Doc
//! (Vyukov, 2012), Processors and Syscalls/M Parking and Unparking. Goroutines are not known here.
//!
//! The invariant: a machine holds one processor at most, and each mask says what its list says: who is idle, parked, awake, holds a
//! processor. Whether a machine may do what it asks is required, and tested by the journal above; what is answered "none" or "no" is no
//! refusal: there is no idle processor, nobody to wake, as many spin as may.
//!
//! An idle processor and a parked machine are found by a mask, one bit each: 32 processors and 64 machines fit a word, and the least is one
//! instruction. Rejected: a scan of the lists; a queue of idle ones, as the design document has, which keeps an order that nobody asks for.
//!
//! Only `opening`, `spinning` and `marked` take memory; these and `keep` are linear, each other call is constant.
#![tactic(auto)]

mod machines;
mod modes;
mod processors;
mod small_set;

pub use machines::Machines;
