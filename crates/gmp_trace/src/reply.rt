//! The words of a reply, placed in a line. `guess_reply` is their mirror. Each bound is that of the longest words that a function places.

ghost use Rattle.std.specs.Prelude.{◌≡◌, ◌+◌, ◌≤◌, ◌++◌, length, take};
ghost use Rattle.gmp_trace.specs.Pieces.{fields, served_pieces, moved_pieces, woken_pieces, sent_pieces, got_pieces, fault_pieces, taken_pieces, reply_pieces};

use crate::place::{
    place_bool, place_named, place_named_channel, place_named_readiness, place_word,
};
use gmp_base::{Fault, MNo, Readiness};
use gmp_seq::{Relay, Reply, Taken};

/// A send that proceeded, and whom it woke, if anybody.
fn place_sent(line: &mut [u8], at: usize, to: Option<Readiness>) -> usize
    requires { at + 53 ≤ length line.old }
    ensures text { take result line.new ≡ take at line.old ++ fields (sent_pieces to) }
    ensures end { result ≤ at + 53 }
{
    let at = place_word(line, at, b"sent");
    match to {
        None => at,
        Some(r) => place_named_readiness(line, at, b"wakes", r),
    }
}

/// Whom a receive woke, and which value of his went into the buffer.
fn place_moved(line: &mut [u8], at: usize, from: Option<Relay>) -> usize
    requires { at + 75 ≤ length line.old }
    ensures text { take result line.new ≡ take at line.old ++ fields (moved_pieces from) }
    ensures end { result ≤ at + 75 }
{
    let Some(relay) = from else {
        return at;
    };
    let at = place_named_readiness(line, at, b"wakes", relay.sender);
    place_named(line, at, b"moves", relay.value)
}

/// A receive that proceeded: the value, and whether it was sent or the channel is closed.
fn place_got(line: &mut [u8], at: usize, value: u64, sent: bool, from: Option<Relay>) -> usize
    requires { at + 106 ≤ length line.old }
    ensures text { take result line.new ≡ take at line.old ++ fields (got_pieces value sent from) }
    ensures end { result ≤ at + 106 }
{
    let at = place_named(line, at, b"got", value);
    let at = place_bool(line, at, sent);
    place_moved(line, at, from)
}

/// A fault by its number.
fn place_fault(line: &mut [u8], at: usize, fault: Fault) -> usize
    requires { at + 27 ≤ length line.old }
    ensures text { take result line.new ≡ take at line.old ++ fields (fault_pieces fault) }
    ensures end { result ≤ at + 27 }
{
    place_named(line, at, b"fault", u64::from(fault.number()))
}

/// What the chosen case of a select came to.
fn place_taken(line: &mut [u8], at: usize, taken: Taken) -> usize
    requires { at + 106 ≤ length line.old }
    ensures text { take result line.new ≡ take at line.old ++ fields (taken_pieces taken) }
    ensures end { result ≤ at + 106 }
{
    match taken {
        Taken::Sent(to) => place_sent(line, at, to),
        Taken::Got(value, sent, from) => place_got(line, at, value, sent, from),
        Taken::Failed => place_fault(line, at, Fault::SendOnClosed),
    }
}

/// Which machine woke, if one did.
fn place_woken(line: &mut [u8], at: usize, machine: Option<MNo>) -> usize
    requires { at + 27 ≤ length line.old }
    ensures text { take result line.new ≡ take at line.old ++ fields (woken_pieces machine) }
    ensures end { result ≤ at + 27 }
{
    match machine {
        None => at,
        Some(m) => place_named(line, at, b"wakes", u64::from(m.0)),
    }
}

/// The words of a reply, each with a space before it.
pub fn place_reply(line: &mut [u8], at: usize, reply: &Reply) -> usize
    requires { at + 140 ≤ length line.old }
    ensures text { take result line.new ≡ take at line.old ++ fields (reply_pieces reply.now) }
    ensures end { result ≤ at + 140 }
{
    match *reply {
        Reply::Proc(p) => place_named(line, at, b"proc", u64::from(p.0)),
        Reply::Nothing => place_word(line, at, b"none"),
        Reply::Ticket(r) => place_named_readiness(line, at, b"ticket", r),
        Reply::Shelf => place_word(line, at, b"shelf"),
        Reply::Held => place_word(line, at, b"held"),
        Reply::Fault(fault) => place_fault(line, at, fault),
        Reply::Shelved(r) => place_named_readiness(line, at, b"shelf", r),
        Reply::Dead => place_word(line, at, b"dead"),
        Reply::MainEnded => place_word(line, at, b"main ended"),
        Reply::Channel(c) => place_named_channel(line, at, b"chan", Some(c)),
        Reply::Sent(to) => place_sent(line, at, to),
        Reply::Waits => place_word(line, at, b"waits"),
        Reply::Got(value, sent, from) => place_got(line, at, value, sent, from),
        Reply::Closed(count) => place_named(line, at, b"closed", count),
        Reply::Number(n) => place_named(line, at, b"number", n),
        Reply::Chose(case, taken) => {
            let at = place_named(line, at, b"chose", u64::from(case));
            place_taken(line, at, taken)
        }
        Reply::Default => place_word(line, at, b"default"),
        Reply::Entered(p, machine) => {
            let at = place_named(line, at, b"idle", u64::from(p.0));
            place_woken(line, at, machine)
        }
        Reply::Runs(p) => place_named(line, at, b"runs", u64::from(p.0)),
        Reply::Answer(b) => place_bool(line, at, b),
        Reply::Done => place_word(line, at, b"done"),
        Reply::Wakes(m) => place_named(line, at, b"wakes", u64::from(m.0)),
        Reply::Idle(p) => place_named(line, at, b"idle", u64::from(p.0)),
        Reply::Parked => place_word(line, at, b"parked"),
        Reply::Work => place_word(line, at, b"work"),
        Reply::LookAgain => place_word(line, at, b"look again"),
        Reply::Mind(until) => place_named(line, at, b"mind", until),
        Reply::AllAsleep => place_word(line, at, b"all asleep"),
        Reply::Woke(count) => place_named(line, at, b"woke", count),
    }
}
