//! Nobody is passed over for ever, where machines are fair: how many tickets one machine may claim while another ticket waits. A fair machine
//! looks aside after each 16 claims, in turn at the shelf and at one queue after another, and steals one ticket a hunt (`gmp_driver`).
//!
//! The laws bound others' claims for every order of acts of all machines, whatever is chosen. Of one line: the shelf, any local queue, the
//! machine's own. Of the whole wait: a ticket is in one queue at most, then on the shelf at most once, and then in a hand that claims it.
//!
//! Nothing is said of time, of a machine that makes no act, or of a body that doesn't come back. It stands on definitions alone, as
//! `gmp_acts` does; that the book's shelf is first in, first out is a law as well.
#![tactic(auto)]

pub mod laws;
