//! The words of a call, placed in a line or put at the end of a text. Each call has one spelling, and `guess` is its mirror.

ghost use Rattle.std.specs.Prelude.{◌≡◌, ◌+◌, ◌*◌, ◌≤◌, ◌++◌, OnOk, length, take, map};
ghost use Rattle.gmp_trace.specs.Pieces.{fields, call_pieces, default_pieces, until_pieces};
ghost use Rattle.gmp_trace.specs.Pieces.Piece.{OfCase};

use crate::place::{
    place_case, place_named, place_named_channel, place_named_readiness, place_number, place_word,
};
use gmp_base::Case;
use gmp_seq::Call;
use std::alloc::AllocError;

/// The cases of a select, each a word.
fn place_cases(line: &mut [u8], at: usize, cases: &[Case]) -> usize
    requires { at + 47 * length cases.now ≤ length line.old }
    ensures text { take result line.new ≡ take at line.old ++ fields (map OfCase cases.now) }
    ensures end { result ≤ at + 47 * length cases.now }
{
    let mut end = at;
    for case in cases {
        end = place_case(line, end, *case);
    }
    end
}

/// What may stand behind the cases: a default, and then a deadline.
fn place_options(line: &mut [u8], at: usize, has_default: bool, until: Option<u64>) -> usize
    requires { at + 35 ≤ length line.old }
    ensures text { take result line.new ≡ take at line.old ++ fields (default_pieces has_default ++ until_pieces until) }
    ensures end { result ≤ at + 35 }
{
    let at = if has_default {
        place_word(line, at, b"default")
    } else {
        at
    };
    match until {
        None => at,
        Some(moment) => place_named(line, at, b"until", moment),
    }
}

/// The words of a call, each with a space before it.
pub fn place_call(line: &mut [u8], at: usize, call: &Call) -> usize
    requires { at + 420 ≤ length line.old }
    ensures text { take result line.new ≡ take at line.old ++ fields (call_pieces call.now) }
    ensures end { result ≤ at + 420 }
{
    match call {
        Call::Acquire => place_word(line, at, b"acquire"),
        Call::Take => place_word(line, at, b"take"),
        Call::Put(r) => place_named_readiness(line, at, b"put", *r),
        Call::Claim(r) => place_named_readiness(line, at, b"claim", *r),
        Call::Go(g) => place_named(line, at, b"go", u64::from(g.0)),
        Call::Spawn => place_word(line, at, b"spawn"),
        Call::Yield => place_word(line, at, b"yield"),
        Call::Exit => place_word(line, at, b"exit"),
        Call::Make(capacity) => place_named(line, at, b"make", u64::from(*capacity)),
        Call::Send(c, value) => {
            let at = place_named_channel(line, at, b"send", *c);
            place_number(line, at, *value)
        }
        Call::Recv(c) => place_named_channel(line, at, b"recv", *c),
        Call::Close(c) => place_named_channel(line, at, b"close", *c),
        Call::Len(c) => place_named_channel(line, at, b"len", *c),
        Call::Cap(c) => place_named_channel(line, at, b"cap", *c),
        Call::Procs(n) => place_named(line, at, b"procs", u64::from(*n)),
        Call::Select(cases, has_default, until) => {
            let at = place_word(line, at, b"select");
            let at = place_cases(line, at, cases.as_slice());
            place_options(line, at, *has_default, *until)
        }
        Call::Sleep(until) => place_named(line, at, b"sleep", *until),
        Call::Gopark => place_word(line, at, b"gopark"),
        Call::Ready(g) => place_named(line, at, b"ready", u64::from(g.0)),
        Call::Enter => place_word(line, at, b"enter"),
        Call::Leave(number) => place_named(line, at, b"leave", *number),
        Call::Spin => place_word(line, at, b"spin"),
        Call::Woken => place_word(line, at, b"woken"),
        Call::Keep => place_word(line, at, b"keep"),
        Call::Unspin => place_word(line, at, b"unspin"),
        Call::Poke => place_word(line, at, b"poke"),
        Call::Declare => place_word(line, at, b"declare"),
        Call::Bare => place_word(line, at, b"bare"),
        Call::Park => place_word(line, at, b"park"),
        Call::Tick(moment) => place_named(line, at, b"tick", *moment),
    }
}

/// The words of a call, at the end of a text.
pub fn put_call(out: &mut Vec<u8>, call: &Call) -> Result<(), AllocError>
    ensures { OnOk result (out.new.items ≡ out.old.items ++ fields (call_pieces call.now)) }
{
    // The longest call is a select of 8 sends with a deadline.
    let mut room = [0; 420];
    let end = place_call(&mut room, 0, call);
    out.extend_from_slice(&room[..end])
}
