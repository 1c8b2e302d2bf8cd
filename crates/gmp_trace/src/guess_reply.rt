//! The reply that words may say. Nothing is refused: who reads writes the guess, and compares.
//! Two replies have one spelling, `idle P`: which of them it is, the call says.

ghost use Rattle.std.specs.Prelude.{◌≡◌, map};
ghost use Rattle.gmp_trace.specs.Guess.{fault_of, served_of, relay_of, woken_of, taken_of, idle_of, shelf_of, reply_named, reply_of};

use crate::words::{byte, letter, narrow8, narrow16, number, readiness, skip, word};
use gmp_base::{CNo, Fault, MNo, PNo, Readiness};
use gmp_seq::{Call, Relay, Reply, Taken};

/// The fault of this number; of a number that none has, some fault.
#[tactic(auto, unfolding(crate::specs::Guess::fault_of))]
fn fault(n: u64) -> Fault
    ensures { result ≡ fault_of n }
{
    match n {
        1 => Fault::NoSuchBody,
        2 => Fault::AlreadyStarted,
        3 => Fault::NoSuchChannel,
        4 => Fault::SendOnClosed,
        5 => Fault::CloseOfClosed,
        6 => Fault::CloseOfNil,
        7 => Fault::NotParked,
        8 => Fault::BadCapacity,
        9 => Fault::TooManyChannels,
        _ => Fault::BadProcs,
    }
}

/// Of `sent`, who was served.
fn served(words: &[&[u8]]) -> Option<Readiness>
    ensures { result ≡ served_of (map (λ w. w.now) words.now) }
{
    if letter(words, 1) == b'w' {
        Some(readiness(word(words, 2)))
    } else {
        None
    }
}

/// Of `got` with its value, who was served.
fn relay(words: &[&[u8]]) -> Option<Relay>
    ensures { result ≡ relay_of (map (λ w. w.now) words.now) }
{
    if letter(words, 3) == b'w' {
        Some(Relay {
            sender: readiness(word(words, 4)),
            value: number(word(words, 6)),
        })
    } else {
        None
    }
}

/// Of `idle` with its processor, which machine was woken.
fn woken(words: &[&[u8]]) -> Option<MNo>
    ensures { result ≡ woken_of (map (λ w. w.now) words.now) }
{
    if letter(words, 2) == b'w' {
        Some(MNo(narrow8(number(word(words, 3)))))
    } else {
        None
    }
}

/// What the words behind the case of a select say.
#[tactic(auto, unfolding(crate::specs::Guess::taken_of))]
fn taken(words: &[&[u8]]) -> Taken
    ensures { result ≡ taken_of (map (λ w. w.now) words.now) }
{
    match letter(words, 0) {
        b's' => Taken::Sent(served(words)),
        b'g' => Taken::Got(
            number(word(words, 1)),
            letter(words, 2) == b't',
            relay(words),
        ),
        _ => Taken::Failed,
    }
}

/// What `idle` with its processor says: of a declare that it was given up, of any other call what an enter is answered.
#[tactic(auto, unfolding(crate::specs::Guess::idle_of))]
fn idle(call: &Call, p: PNo, woken: Option<MNo>) -> Reply
    ensures { result ≡ idle_of call.now p woken }
{
    match (call, woken) {
        (Call::Declare, None) => Reply::Idle(p),
        _ => Reply::Entered(p, woken),
    }
}

/// What `shelf` says: alone, or with a ticket.
fn shelf(word: &[u8]) -> Reply
    ensures { result ≡ shelf_of word.now }
{
    if word == b"".as_slice() {
        Reply::Shelf
    } else {
        Reply::Shelved(readiness(word))
    }
}

/// By the first three letters, where one or two do not tell replies apart.
#[tactic(auto, unfolding(crate::specs::Guess::reply_named))]
fn named(call: &Call, first: u8, second: u8, third: u8, words: &[&[u8]]) -> Reply
    ensures { result ≡ reply_named call.now first second third (map (λ w. w.now) words.now) }
{
    let about = word(words, 1);
    match (first, second, third) {
        (b'a', _, _) => Reply::AllAsleep,
        (b'c', _, b'a') => Reply::Channel(CNo(narrow16(number(about)))),
        (b'c', b'l', _) => Reply::Closed(number(about)),
        (b'c', _, _) => Reply::Chose(narrow8(number(about)), taken(skip(words, 2))),
        (b'd', _, b'a') => Reply::Dead,
        (b'd', _, b'f') => Reply::Default,
        (b'd', _, _) => Reply::Done,
        (b'f', _, b'u') => Reply::Fault(fault(number(about))),
        (b'f', _, _) => Reply::Answer(false),
        (b'g', _, _) => Reply::Got(number(about), letter(words, 2) == b't', relay(words)),
        (b'h', _, _) => Reply::Held,
        (b'i', _, _) => idle(call, PNo(narrow8(number(about))), woken(words)),
        (b'l', _, _) => Reply::LookAgain,
        (b'm', _, b'i') => Reply::MainEnded,
        (b'm', _, _) => Reply::Mind(number(about)),
        (b'n', _, b'n') => Reply::Nothing,
        (b'n', _, _) => Reply::Number(number(about)),
        (b'p', _, b'o') => Reply::Proc(PNo(narrow8(number(about)))),
        (b'p', _, _) => Reply::Parked,
        (b'r', _, _) => Reply::Runs(PNo(narrow8(number(about)))),
        (b's', _, b'e') => shelf(about),
        (b's', _, _) => Reply::Sent(served(words)),
        (b't', _, b'c') => Reply::Ticket(readiness(about)),
        (b't', _, _) => Reply::Answer(true),
        (_, _, b'i') => Reply::Waits,
        (_, _, b'r') => Reply::Work,
        (_, b'a', _) => Reply::Wakes(MNo(narrow8(number(about)))),
        _ => Reply::Woke(number(about)),
    }
}

/// The reply of this call that these words may say. The first three letters of its name tell it from the others.
pub fn guess_reply(call: &Call, words: &[&[u8]]) -> Reply
    ensures { result ≡ reply_of call.now (map (λ w. w.now) words.now) }
{
    let name = word(words, 0);
    named(call, byte(name, 0), byte(name, 1), byte(name, 2), words)
}
