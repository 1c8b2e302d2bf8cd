//! The call that words may say. Nothing is refused: who reads writes the guess, and compares.
//! So a letter or two of a name decide, and words that say no call give some call, whose text isn't theirs.

ghost use Rattle.std.specs.Prelude.{◌≡◌, ◌<◌, ◌++◌, ◌∷◌, [], length, map};
ghost use Rattle.gmp_seq.specs.Fits.{FitsCall};
ghost use Rattle.gmp_trace.specs.Guess.{is_case, case_read, leading_cases, default_of, until_of, select_read, call_named, call_of};

use crate::words::{
    byte, channel, letter, narrow8, narrow16, narrow32, number, part, readiness, skip, word,
};
use gmp_base::{Case, Cases, GNo};
use gmp_seq::Call;

/// Whether a word begins as a case does.
#[tactic(auto, unfolding(crate::specs::Guess::is_case))]
fn is_case(word: &[u8]) -> bool
    ensures { result ≡ is_case word.now }
{
    let (kind, _) = part(word, b':');
    kind == b"send".as_slice() || kind == b"recv".as_slice()
}

/// The case that a word may say.
#[tactic(auto, unfolding(crate::specs::Guess::case_read))]
fn case(word: &[u8]) -> Case
    ensures { result ≡ case_read word.now }
{
    let (kind, rest) = part(word, b':');
    if kind == b"send".as_slice() {
        let (c, value) = part(rest, b':');
        Case::Send(channel(c), number(value))
    } else {
        Case::Recv(channel(rest))
    }
}

/// One case more. At the ninth there is no room, but nobody comes so far.
fn add(cases: &mut Cases, case: Case)
    requires { length cases.old < 8 }
    ensures { cases.new ≡ cases.old ++ case ∷ [] }
{
    let _ = cases.push(case);
}

/// The cases that the words begin with, eight at most, and the words behind them.
fn cases<'b, 'a>(words: &'b [&'a [u8]]) -> (Cases, &'b [&'a [u8]])
    ensures { (result.0, map (λ w. w.now) result.1.now) ≡ leading_cases 8 (map (λ w. w.now) words.now) }
{
    let mut cases = Cases::new();
    for (i, word) in words.iter().enumerate() {
        if i >= 8 {
            return (cases, skip(words, i));
        }
        if !is_case(word) {
            return (cases, skip(words, i));
        }
        add(&mut cases, case(word));
    }
    (cases, skip(words, words.len()))
}

/// Whether the words begin with `default`, and the words behind it.
fn default<'b, 'a>(words: &'b [&'a [u8]]) -> (bool, &'b [&'a [u8]])
    ensures { (result.0, map (λ w. w.now) result.1.now) ≡ default_of (map (λ w. w.now) words.now) }
{
    if word(words, 0) == b"default".as_slice() {
        (true, skip(words, 1))
    } else {
        (false, words)
    }
}

/// The deadline that the words begin with.
pub fn until(words: &[&[u8]]) -> Option<u64>
    ensures { result ≡ until_of (map (λ w. w.now) words.now) }
{
    if word(words, 0) == b"until".as_slice() {
        Some(number(word(words, 1)))
    } else {
        None
    }
}

/// The cases, the default and the deadline of a select.
#[tactic(auto, unfolding(crate::specs::Guess::select_read))]
fn select(words: &[&[u8]]) -> Call
    ensures { result ≡ select_read (map (λ w. w.now) words.now) }
{
    let (cases, words) = cases(words);
    let (has_default, words) = default(words);
    Call::Select(cases, has_default, until(words))
}

/// By the first and the third letter, which tell all 30 names apart.
#[tactic(auto, unfolding(crate::specs::Guess::call_named))]
fn named(first: u8, third: u8, words: &[&[u8]], call: &mut Call)
    ensures value { call.new ≡ call_named first third (map (λ w. w.now) words.now) }
    ensures fits { FitsCall call.new }
{
    let about = word(words, 1);
    match (first, third) {
        (b'a', _) => *call = Call::Acquire,
        (b'b', _) => *call = Call::Bare,
        (b'c', b'a') => *call = Call::Claim(readiness(about)),
        (b'c', b'o') => *call = Call::Close(channel(about)),
        (b'c', _) => *call = Call::Cap(channel(about)),
        (b'd', _) => *call = Call::Declare,
        (b'e', b'i') => *call = Call::Exit,
        (b'e', _) => *call = Call::Enter,
        (b'g', b'p') => *call = Call::Gopark,
        (b'g', _) => *call = Call::Go(GNo(narrow16(number(about)))),
        (b'k', _) => *call = Call::Keep,
        (b'l', b'a') => *call = Call::Leave(number(about)),
        (b'l', _) => *call = Call::Len(channel(about)),
        (b'm', _) => *call = Call::Make(narrow32(number(about))),
        (b'p', b't') => *call = Call::Put(readiness(about)),
        (b'p', b'k') => *call = Call::Poke,
        (b'p', b'o') => *call = Call::Procs(narrow8(number(about))),
        (b'p', _) => *call = Call::Park,
        (b'r', b'a') => *call = Call::Ready(GNo(narrow16(number(about)))),
        (b'r', _) => *call = Call::Recv(channel(about)),
        (b's', b'n') => *call = Call::Send(channel(about), number(word(words, 2))),
        (b's', b'l') => *call = select(skip(words, 1)),
        (b's', b'e') => *call = Call::Sleep(number(about)),
        (b's', b'a') => *call = Call::Spawn,
        (b's', _) => *call = Call::Spin,
        (b't', b'k') => *call = Call::Take,
        (b't', _) => *call = Call::Tick(number(about)),
        (b'u', _) => *call = Call::Unspin,
        (b'w', _) => *call = Call::Woken,
        _ => *call = Call::Yield,
    }
}

/// The call that these words may say. The first and the third letter of its name decide.
pub fn guess_call(words: &[&[u8]], call: &mut Call)
    ensures value { call.new ≡ call_of (map (λ w. w.now) words.now) }
    ensures fits { FitsCall call.new }
{
    named(letter(words, 0), byte(word(words, 0), 2), words, call);
}
