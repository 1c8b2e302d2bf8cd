//! Which case is taken: first what can proceed, as bits, and then a choice among these by a word. Apart, since the first doesn't depend on
//! the word, and can be asked alone.
ghost use Rattle.std.specs.Prelude.{◌≡◌, ◌≢◌, ◌<◌, ℕ, true, IfNone, IfSome};
ghost use Rattle.gmp_select.specs.Choosing.{case_can, is_set, pick};

use gmp_base::Cases;
use gmp_chan::Channels;

/// The bits with this one set.
fn with_bit(bits: u8, i: u8) -> u8
    requires { i < 8 }
    ensures same { is_set result i ≡ true }
    ensures others { (j : ℕ) → j ≢ i → is_set result j ≡ is_set bits j }
{
    bits | 1 << i
}

/// Whether bit i is set.
fn is_set(bits: u8, i: u8) -> bool
    requires { i < 8 }
    ensures { result ≡ is_set bits i }
{
    bits >> i & 1 == 1
}

/// Which cases can proceed: one bit for each case, the lowest for the first. Nothing is changed, and who waits is only looked at.
pub fn ready_cases(channels: &Channels, cases: &Cases) -> u8
    ensures { (i : ℕ) → is_set result i ≡ case_can channels.now.channels channels.now.waiters cases.now i }
{
    let mut bits = 0;
    let mut i = 0;
    for case in cases.as_slice() {
        if channels.can(*case) {
            bits = with_bit(bits, i);
        }
        i += 1;
    }
    bits
}

/// Chooses among the bits that are set: number `word mod r` of the r of them, from the lowest on. None is chosen where none is set. Each
/// bit that is set is chosen by some word, and by nearly as many as any other.
pub fn choose(bits: u8, word: u64) -> Option<u8>
    ensures number { result ≡ pick (is_set bits) word }
    ensures set { IfSome result (λ i. is_set bits i ≡ true) }
    ensures none { IfNone result (bits ≡ 0) }
{
    // The word is drawn by the caller before the call, whether it is needed or not: it is a part of what is called, and the choice a
    // function of it.
    let count = (0..8u8).filter(|i| is_set(bits, *i)).count() as u64;
    if count == 0 {
        return None;
    }
    (0..8u8)
        .filter(|i| is_set(bits, *i))
        .nth((word % count) as usize)
}
