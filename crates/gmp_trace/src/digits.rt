//! The digits of a number, placed in a line. Most numbers of a trace are short, so those below 10,000 and 100,000,000 have ways of their
//! own, two digits at a time; any other goes by `itoa`.

ghost use Rattle.std.specs.Prelude.{◌≡◌, ◌+◌, ◌/◌, ◌%◌, ◌<◌, ◌≤◌, [], ◌∷◌, ◌++◌, length, take, decimal};

use crate::place::{place, place_byte};
use itoa::Buffer;

/// The two digits of each number below 100, one behind the other.
static PAIRS: [u8; 200] =
    *b"00010203040506070809101112131415161718192021222324252627282930313233343536373839404142434445464748495051525354555657585960616263646566676869707172737475767778798081828384858687888990919293949596979899";

/// The tens and the ones.
#[inline(always)]
fn two_digits(n: u64) -> (u8, u8)
    requires { n < 100 }
    ensures { result ≡ (48 + n / 10, 48 + n % 10) }
{
    let at = n as usize * 2;
    (PAIRS[at], PAIRS[at + 1])
}

/// Two digits of a number below 100.
#[inline(always)]
fn place_two(line: &mut [u8], at: usize, n: u64) -> usize
    requires room { at + 2 ≤ length line.old }
    requires small { n < 100 }
    ensures text { take result line.new ≡ take at line.old ++ (48 + n / 10) ∷ (48 + n % 10) ∷ [] }
    ensures end { result ≡ at + 2 }
{
    let (tens, ones) = two_digits(n);
    place(line, at, &[tens, ones])
}

/// The digits of a number below 100.
#[inline(always)]
fn place_first(line: &mut [u8], at: usize, n: u64) -> usize
    requires room { at + 2 ≤ length line.old }
    requires small { n < 100 }
    ensures text { take result line.new ≡ take at line.old ++ decimal n }
    ensures end { result ≤ at + 2 }
{
    if n >= 10 {
        return place_two(line, at, n);
    }
    place_byte(line, at, b'0' + n as u8)
}

/// The digits of a number below 10,000.
#[inline(always)]
fn place_short(line: &mut [u8], at: usize, n: u64) -> usize
    requires room { at + 4 ≤ length line.old }
    requires small { n < 10000 }
    ensures text { take result line.new ≡ take at line.old ++ decimal n }
    ensures end { result ≤ at + 4 }
{
    if n < 100 {
        return place_first(line, at, n);
    }
    let at = place_first(line, at, n / 100);
    place_two(line, at, n % 100)
}

/// The digits of a number of any size, by way of a buffer.
#[inline(never)]
fn place_long(line: &mut [u8], at: usize, n: u64) -> usize
    requires { at + 20 ≤ length line.old }
    ensures text { take result line.new ≡ take at line.old ++ decimal n }
    ensures end { result ≤ at + 20 }
{
    let mut buffer = Buffer::new();
    place(line, at, buffer.format(n).as_bytes())
}

/// The digits of a number. It stands apart, so that the test for one digit alone is inlined.
#[inline(never)]
fn place_more(line: &mut [u8], at: usize, n: u64) -> usize
    requires { at + 20 ≤ length line.old }
    ensures text { take result line.new ≡ take at line.old ++ decimal n }
    ensures end { result ≤ at + 20 }
{
    if n < 10_000 {
        return place_short(line, at, n);
    }
    if n >= 100_000_000 {
        return place_long(line, at, n);
    }
    let low = n % 10_000;
    let at = place_short(line, at, n / 10_000);
    let at = place_two(line, at, low / 100);
    place_two(line, at, low % 100)
}

/// The digits of a number.
#[inline(always)]
pub fn place_digits(line: &mut [u8], at: usize, n: u64) -> usize
    requires { at + 20 ≤ length line.old }
    ensures text { take result line.new ≡ take at line.old ++ decimal n }
    ensures end { result ≤ at + 20 }
{
    if n < 10 {
        return place_byte(line, at, b'0' + n as u8);
    }
    place_more(line, at, n)
}
