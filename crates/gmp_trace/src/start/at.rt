//! Reads the line of a start that a text begins with. What it may say is guessed, the guess is written, and the text must begin with what
//! was written: so what is read is spelled so, to the byte. Whether it is within the limits `heads`, `channels` and `rows` ask.

ghost use Rattle.std.specs.Prelude.{◌≡◌, ◌++◌, ◌<◌, ◌≤◌, ◌^◌, ℕ, List, Bool, Option, true, length, map, All, IfOk, IfSome, IsSomeAnd};
ghost use Rattle.gmp_base.specs.declared.number.MNo.{MNo};
ghost use Rattle.gmp_base.specs.Fits.{IsWord};
ghost use Rattle.gmp_seq.specs.declared.status.Goroutine.{Goroutine};
ghost use Rattle.gmp_seq.specs.declared.status.Mode.{Mode};
ghost use Rattle.gmp_trace.specs.StartForms.{BelowAll, FitsStatus};
ghost use Rattle.gmp_seq.specs.Channels.{Channel};
ghost use Rattle.gmp_start.specs.Start.{channel_of};
ghost use Rattle.gmp_trace.specs.Guess.{is_plain};
ghost use Rattle.gmp_trace.specs.StartText.{channel_line, counts_text, goroutine_line, head_text, machines_text, members_text, procs_text};

use crate::at::behind;
use crate::start::guess::{
    guess_channel, guess_counts, guess_flags, guess_modes, guess_procs, guess_row,
};
use crate::start::put::{
    put_channel_line, put_counts, put_goroutine_line, put_head, put_machines, put_members,
    put_procs,
};
use crate::words::{narrow8, narrow16, number, skip, split, word};
use gmp_base::MNo;
use gmp_seq::{Goroutine, Mode};
use gmp_start::StartChannel;
use std::alloc::{AllocError, Global};

/// What line 3 says: how many entries were made, the moment, how many waits began, how many processors are active.
#[derive(Clone, Copy, Debug, PartialEq, Eq)]
pub struct Head {
    /// The sum of the counts, which `begin` compares.
    pub made: u64,
    /// In nanoseconds.
    pub clock: u64,
    /// The number that the next wait has.
    pub arrivals: u64,
    /// How many processors are active.
    pub active: u8,
}

/// The head whose line the text begins with, and the text behind it.
pub fn head_at<'a>(
    text: &'a [u8],
    words: &mut Vec<&'a [u8]>,
    line: &mut Vec<u8>,
) -> Result<Option<(Head, &'a [u8])>, AllocError>
    ensures found { IfOk result (λ o. IfSome o (λ r. text.now ≡ head_text r.0.made r.0.clock r.0.arrivals r.0.active ++ r.1.now)) }
    ensures only { IfOk result (λ o. (made now arrivals active : ℕ) (more : List ℕ) → IsWord made → IsWord now → IsWord arrivals → active < 2 ^ 8
        → text.now ≡ head_text made now arrivals active ++ more
        → IsSomeAnd o (λ r. (r.0 ≡ record { made = made; clock = now; arrivals = arrivals; active = active }) × (r.1.now ≡ more))) }
{
    split(text, words)?;
    let made = number(word(words, 1));
    let clock = number(word(words, 3));
    let arrivals = number(word(words, 5));
    let active = narrow8(number(word(words, 7)));
    line.clear();
    put_head(line, made, clock, arrivals, active)?;
    let Some(rest) = behind(text, line) else {
        return Ok(None);
    };
    let head = Head {
        made,
        clock,
        arrivals,
        active,
    };
    Ok(Some((head, rest)))
}

/// The counts whose line the text begins with, and the text behind it.
pub fn counts_at<'a>(
    alloc: Global,
    text: &'a [u8],
    words: &mut Vec<&'a [u8]>,
    line: &mut Vec<u8>,
) -> Result<Option<(Vec<u64>, &'a [u8])>, AllocError>
    ensures found { IfOk result (λ o. IfSome o (λ r. text.now ≡ counts_text r.0.items ++ r.1.now)) }
    ensures only { IfOk result (λ o. (counts more : List ℕ) → All IsWord counts → length counts < 4100 → text.now ≡ counts_text counts ++ more
        → IsSomeAnd o (λ r. (r.0.items ≡ counts) × (r.1.now ≡ more))) }
{
    split(text, words)?;
    let counts = guess_counts(alloc, skip(words, 1))?;
    line.clear();
    put_counts(line, &counts)?;
    let Some(rest) = behind(text, line) else {
        return Ok(None);
    };
    Ok(Some((counts, rest)))
}

/// The holders of processors whose line the text begins with, and the text behind it.
pub fn procs_at<'a>(
    alloc: Global,
    text: &'a [u8],
    words: &mut Vec<&'a [u8]>,
    line: &mut Vec<u8>,
) -> Result<Option<(Vec<Option<MNo>>, &'a [u8])>, AllocError>
    ensures found { IfOk result (λ o. IfSome o (λ r. text.now ≡ procs_text r.0.items ++ r.1.now)) }
    ensures only { IfOk result (λ o. (holders : List (Option MNo)) (more : List ℕ) → BelowAll 256 holders → length holders < 4100
        → text.now ≡ procs_text holders ++ more → IsSomeAnd o (λ r. (r.0.items ≡ holders) × (r.1.now ≡ more))) }
{
    split(text, words)?;
    let holders = guess_procs(alloc, skip(words, 1))?;
    line.clear();
    put_procs(line, &holders)?;
    let Some(rest) = behind(text, line) else {
        return Ok(None);
    };
    Ok(Some((holders, rest)))
}

/// What each machine does, by the line that the text begins with, and the text behind it.
pub fn machines_at<'a>(
    alloc: Global,
    text: &'a [u8],
    words: &mut Vec<&'a [u8]>,
    line: &mut Vec<u8>,
) -> Result<Option<(Vec<Mode>, &'a [u8])>, AllocError>
    ensures found { IfOk result (λ o. IfSome o (λ r. text.now ≡ machines_text r.0.items ++ r.1.now)) }
    ensures only { IfOk result (λ o. (modes : List Mode) (more : List ℕ) → length modes < 4100
        → text.now ≡ machines_text modes ++ more → IsSomeAnd o (λ r. (r.0.items ≡ modes) × (r.1.now ≡ more))) }
{
    split(text, words)?;
    let modes = guess_modes(alloc, skip(words, 1))?;
    line.clear();
    put_machines(line, &modes)?;
    let Some(rest) = behind(text, line) else {
        return Ok(None);
    };
    Ok(Some((modes, rest)))
}

/// The goroutine whose line the text begins with, its number before it, and the text behind the line.
pub fn row_at<'a>(
    text: &'a [u8],
    words: &mut Vec<&'a [u8]>,
    line: &mut Vec<u8>,
) -> Result<Option<(u16, Goroutine, &'a [u8])>, AllocError>
    ensures found { IfOk result (λ o. IfSome o (λ r. text.now ≡ goroutine_line r.0 r.1 ++ r.2.now)) }
    ensures only { IfOk result (λ o. (g machines channels : ℕ) (x : Goroutine) (more : List ℕ) → g < 2 ^ 16 → machines ≤ 64 → channels ≤ 1024 → IsWord x.epoch
        → FitsStatus machines channels x.status → text.now ≡ goroutine_line g x ++ more
        → IsSomeAnd o (λ r. (r.0 ≡ g) × (r.1 ≡ x) × (r.2.now ≡ more))) }
{
    split(text, words)?;
    let g = narrow16(number(word(words, 1)));
    let row = guess_row(words);
    line.clear();
    put_goroutine_line(line, u64::from(g), &row)?;
    let Some(rest) = behind(text, line) else {
        return Ok(None);
    };
    Ok(Some((g, row, rest)))
}

/// Which of so many machines the line names that the text begins with, behind this word, and the text behind it.
pub fn members_at<'a>(
    alloc: Global,
    name: &[u8],
    machines: u8,
    text: &'a [u8],
    words: &mut Vec<&'a [u8]>,
    line: &mut Vec<u8>,
) -> Result<Option<(Vec<bool>, &'a [u8])>, AllocError>
    requires { is_plain name.now ≡ true }
    ensures found { IfOk result (λ o. IfSome o (λ r. (text.now ≡ members_text name.now r.0.items ++ r.1.now) × (length r.0.items ≡ machines))) }
    ensures only { IfOk result (λ o. (flags : List Bool) (more : List ℕ) → length flags ≡ machines → text.now ≡ members_text name.now flags ++ more
        → IsSomeAnd o (λ r. (r.0.items ≡ flags) × (r.1.now ≡ more))) }
{
    split(text, words)?;
    let flags = guess_flags(alloc, machines, skip(words, 1))?;
    line.clear();
    put_members(line, name, &flags)?;
    let Some(rest) = behind(text, line) else {
        return Ok(None);
    };
    Ok(Some((flags, rest)))
}

/// The channel whose line the text begins with, its number before it, and the text behind the line.
pub fn channel_at<'a>(
    alloc: Global,
    text: &'a [u8],
    words: &mut Vec<&'a [u8]>,
    line: &mut Vec<u8>,
) -> Result<Option<(u16, StartChannel, &'a [u8])>, AllocError>
    ensures found { IfOk result (λ o. IfSome o (λ r. text.now ≡ channel_line r.0 (channel_of r.1) ++ r.2.now)) }
    ensures only { IfOk result (λ o. (c : ℕ) (x : Channel) (more : List ℕ) → c < 2 ^ 16 → x.capacity < 2 ^ 32 → All IsWord x.items → length x.items ≤ 4096
        → text.now ≡ channel_line c x ++ more → IsSomeAnd o (λ r. (r.0 ≡ c) × (channel_of r.1 ≡ x) × (r.2.now ≡ more))) }
{
    split(text, words)?;
    let c = narrow16(number(word(words, 1)));
    let channel = guess_channel(alloc, words)?;
    line.clear();
    put_channel_line(line, u64::from(c), &channel)?;
    let Some(rest) = behind(text, line) else {
        return Ok(None);
    };
    Ok(Some((c, channel, rest)))
}
