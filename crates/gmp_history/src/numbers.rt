//! Numbers that are handed over, to be written into a row, and those that are read from one.
ghost use Rattle.std.specs.Prelude.{◌≡◌, ◌%◌, ◌^◌, IfSome};
ghost use Rattle.gmp_base.specs.Fits.{IsChannelNumber, IsWord};
ghost use Rattle.gmp_seq.specs.Fits.{FitsReadiness, IsGoroutineNumber, IsMachineNumber, IsProcessorNumber};
ghost use Rattle.gmp_history.specs.Brief.{ready_of};

use gmp_base::{CNo, GNo, MNo, PNo, Readiness};

// That a number is within its type is known of a value that is handed over, and not of one behind a reference. So each is handed over, to
// one of the functions below, which do nothing else and cost nothing: that entries fit their types is known from here on.

/// A readiness, and that its numbers fit.
#[inline(always)]
pub(crate) fn ready(r: Readiness) -> Readiness
    ensures same { result ≡ r }
    ensures fits { FitsReadiness r }
{
    r
}

#[inline(always)]
pub(crate) fn goroutine(g: GNo) -> GNo
    ensures same { result ≡ g }
    ensures fits { IsGoroutineNumber g }
{
    g
}

#[inline(always)]
pub(crate) fn channel(c: CNo) -> CNo
    ensures same { result ≡ c }
    ensures fits { IsChannelNumber c }
{
    c
}

#[inline(always)]
pub(crate) fn processor(p: PNo) -> PNo
    ensures same { result ≡ p }
    ensures fits { IsProcessorNumber p }
{
    p
}

#[inline(always)]
pub(crate) fn machine(m: MNo) -> MNo
    ensures same { result ≡ m }
    ensures fits { IsMachineNumber m }
{
    m
}

/// A moment in nanoseconds or none, and that it fits 64 bits.
#[inline(always)]
pub(crate) fn moment_or_none(until: Option<u64>) -> Option<u64>
    ensures same { result ≡ until }
    ensures fits { IfSome until IsWord }
{
    match until {
        Some(at) => Some(at),
        None => None,
    }
}

/// The readiness of these numbers.
#[inline(always)]
pub(crate) fn readiness(number: u16, word: u64) -> Readiness
    ensures { result ≡ ready_of number word }
{
    Readiness {
        g: GNo(number),
        epoch: word,
    }
}

/// The machine of this number.
#[inline(always)]
pub(crate) fn machine_of(number: u16) -> MNo
    ensures { result ≡ record { 0 = number % 2 ^ 8 } }
{
    MNo((number % (1 << 8)) as u8)
}
