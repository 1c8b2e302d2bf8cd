//! What the words of a start's line may say. Nothing is refused: who reads writes the guess, and compares.
//! A word that says nothing of its kind stands for the last kind in the match, whose text it is not.

ghost use Rattle.std.specs.Prelude.{◌≡◌, ◌<◌, ◌++◌, ◌∷◌, [], length, map, IfOk};
ghost use Rattle.gmp_trace.specs.Guess.{number_read};
ghost use Rattle.gmp_start.specs.Start.{channel_of};
ghost use Rattle.gmp_trace.specs.StartGuess.{behind_until, channel_read, closed_read, flags_read, holder_read, kind_read, machine_read, mode_read, named, offer_read, offers_read, row_read, status_read, wait_read, woke_read};

use crate::guess::until;
use crate::words::{byte, letter, narrow8, narrow16, narrow32, number, part, skip, word};
use gmp_base::{CNo, Fault, MNo, Woke};
use gmp_seq::{Deal, Goroutine, Kind, Mode, Offer, Offers, Status, TicketPlace, Wait};
use gmp_start::StartChannel;
use std::alloc::{AllocError, Global};

/// A machine by its number.
fn machine(word: &[u8]) -> MNo
    ensures { result ≡ machine_read word.now }
{
    MNo(narrow8(number(word)))
}

/// The holder of a processor.
#[tactic(auto, unfolding(crate::specs::StartGuess::holder_read))]
fn holder(word: &[u8]) -> Option<MNo>
    ensures { result ≡ holder_read word.now }
{
    if word == b"idle".as_slice() {
        None
    } else {
        Some(machine(word))
    }
}

/// What a machine does.
#[tactic(auto, unfolding(crate::specs::StartGuess::mode_read))]
fn mode(word: &[u8]) -> Mode
    ensures { result ≡ mode_read word.now }
{
    match byte(word, 0) {
        b'a' => Mode::Awake,
        b'p' => Mode::Parked,
        _ => Mode::Calling,
    }
}

/// The numbers that words may say.
pub fn guess_counts(alloc: Global, words: &[&[u8]]) -> Result<Vec<u64>, AllocError>
    ensures { IfOk result (λ v. v.items ≡ map number_read (map (λ w. w.now) words.now)) }
{
    let mut list = Vec::new(alloc);
    for word in words {
        list.push(number(word))?;
    }
    Ok(list)
}

/// Who holds each processor.
pub fn guess_procs(alloc: Global, words: &[&[u8]]) -> Result<Vec<Option<MNo>>, AllocError>
    ensures { IfOk result (λ v. v.items ≡ map holder_read (map (λ w. w.now) words.now)) }
{
    let mut list = Vec::new(alloc);
    for word in words {
        list.push(holder(word))?;
    }
    Ok(list)
}

/// What each machine does.
pub fn guess_modes(alloc: Global, words: &[&[u8]]) -> Result<Vec<Mode>, AllocError>
    ensures { IfOk result (λ v. v.items ≡ map mode_read (map (λ w. w.now) words.now)) }
{
    let mut list = Vec::new(alloc);
    for word in words {
        list.push(mode(word))?;
    }
    Ok(list)
}

/// What one that is ready is to be told.
#[tactic(auto, unfolding(crate::specs::StartGuess::woke_read))]
fn woke(words: &[&[u8]]) -> Woke
    ensures { result ≡ woke_read (map (λ w. w.now) words.now) }
{
    match (letter(words, 0), byte(word(words, 0), 1)) {
        (b'd', _) => Woke::Done,
        (b'g', _) => Woke::Got(number(word(words, 1)), letter(words, 2) == b't'),
        (b'c', _) => {
            let case = narrow8(number(word(words, 1)));
            if word(words, 2) == b"".as_slice() {
                Woke::Chose(case, None)
            } else {
                Woke::Chose(
                    case,
                    Some((number(word(words, 2)), letter(words, 3) == b't')),
                )
            }
        }
        (b'l', _) => Woke::Late,
        (b'n', _) => Woke::Number(number(word(words, 1))),
        (_, b'i') => Woke::First,
        _ => Woke::Fault(Fault::SendOnClosed),
    }
}

/// What a goroutine waits by.
#[tactic(auto, unfolding(crate::specs::StartGuess::kind_read))]
fn kind(word: &[u8]) -> Kind
    ensures { result ≡ kind_read word.now }
{
    match (byte(word, 0), byte(word, 1)) {
        (b'p', b'l') => Kind::Plain,
        (b'p', _) => Kind::Parked,
        (_, b'e') => Kind::Select,
        _ => Kind::Sleep,
    }
}

/// An offer: its case, what is done, the channel, and of a send the value.
#[tactic(auto, unfolding(crate::specs::StartGuess::offer_read))]
fn offer(word: &[u8]) -> Offer
    ensures { result ≡ offer_read word.now }
{
    let (number_word, rest) = part(word, b':');
    let (what, rest) = part(rest, b':');
    let case = narrow8(number(number_word));
    if what == b"send".as_slice() {
        let (c, value) = part(rest, b':');
        Offer {
            case,
            channel: CNo(narrow16(number(c))),
            deal: Deal::Send(number(value)),
        }
    } else {
        Offer {
            case,
            channel: CNo(narrow16(number(rest))),
            deal: Deal::Receive,
        }
    }
}

/// The first eight offers.
fn offers(words: &[&[u8]]) -> Offers
    ensures { result ≡ offers_read (map (λ w. w.now) words.now) }
{
    let mut offers = Offers::new();
    for (i, word) in words.iter().enumerate() {
        if i >= 8 {
            return offers;
        }
        offers.push(offer(word));
    }
    offers
}

/// The words behind a deadline.
fn behind_until<'b, 'a>(words: &'b [&'a [u8]]) -> &'b [&'a [u8]]
    ensures { map (λ w. w.now) result.now ≡ behind_until (map (λ w. w.now) words.now) }
{
    if word(words, 0) == b"until".as_slice() {
        skip(words, 2)
    } else {
        words
    }
}

/// What stands behind `waits`.
#[tactic(auto, unfolding(crate::specs::StartGuess::wait_read))]
fn wait(words: &[&[u8]]) -> Status
    ensures { result ≡ wait_read (map (λ w. w.now) words.now) }
{
    let rest = skip(words, 2);
    Status::Waiting(Wait {
        arrival: number(word(words, 0)),
        kind: kind(word(words, 1)),
        offers: offers(behind_until(rest)),
        until: until(rest),
    })
}

/// What a goroutine does.
#[tactic(auto, unfolding(crate::specs::StartGuess::status_read))]
fn status(words: &[&[u8]]) -> Status
    ensures { result ≡ status_read (map (λ w. w.now) words.now) }
{
    match (letter(words, 0), byte(word(words, 0), 1)) {
        (b'd', b'o') => Status::Dormant,
        (b'd', _) => Status::Dead,
        (b'r', _) => Status::Running(machine(word(words, 1))),
        (b'c', _) => Status::Calling(machine(word(words, 1))),
        (b's', _) => Status::Ready(TicketPlace::Shelf, woke(skip(words, 1))),
        (b'o', _) => Status::Ready(TicketPlace::Out, woke(skip(words, 1))),
        _ => wait(skip(words, 1)),
    }
}

/// The goroutine that the words of a line may say, the first word too.
#[tactic(auto, unfolding(crate::specs::StartGuess::row_read))]
pub fn guess_row(words: &[&[u8]]) -> Goroutine
    ensures { result ≡ row_read (map (λ w. w.now) words.now) }
{
    Goroutine {
        status: status(skip(words, 3)),
        epoch: number(word(words, 2)),
    }
}

/// Whether a word says this number.
fn is_named(words: &[&[u8]], m: u8) -> bool
    ensures { result ≡ named (map (λ w. w.now) words.now) m }
{
    for word in words {
        if number(word) == u64::from(m) {
            return true;
        }
    }
    false
}

/// Of so many machines, those whose number a word says.
pub fn guess_flags(alloc: Global, machines: u8, words: &[&[u8]]) -> Result<Vec<bool>, AllocError>
    ensures { IfOk result (λ v. v.items ≡ flags_read machines (map (λ w. w.now) words.now)) }
{
    let mut list = Vec::new(alloc);
    for m in 0..machines {
        list.push(is_named(words, m))?;
    }
    Ok(list)
}

/// Whether a channel is closed.
#[tactic(auto, unfolding(crate::specs::StartGuess::closed_read))]
fn closed(word: &[u8]) -> bool
    ensures { result ≡ closed_read word.now }
{
    byte(word, 0) == b'c'
}

/// The channel that the words of a line may say, the first word too.
pub fn guess_channel(alloc: Global, words: &[&[u8]]) -> Result<StartChannel, AllocError>
    ensures { IfOk result (λ c. channel_of c ≡ channel_read (map (λ w. w.now) words.now)) }
{
    Ok(StartChannel {
        capacity: narrow32(number(word(words, 2))),
        closed: closed(word(words, 3)),
        items: guess_counts(alloc, skip(words, 4))?,
    })
}
