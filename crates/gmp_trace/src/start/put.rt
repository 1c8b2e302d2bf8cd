//! Puts the lines of a start at the end of a text. `guess` is their mirror, word by word.

ghost use Rattle.std.specs.Prelude.{◌≡◌, ◌++◌, ◌∷◌, OnOk, map};
ghost use Rattle.gmp_trace.specs.Pieces.{boolean, fields, piece_text};
ghost use Rattle.gmp_start.specs.Start.{channel_of, state_of};
ghost use Rattle.gmp_trace.specs.StartText.{channel_line, channels_text, counts_text, goroutine_line, goroutines_text, head_text, holder_piece, kind_piece, machines_text, members_text, mode_piece, offer_piece, offer_text, procs_text, start_text, status_pieces, woke_pieces};

use crate::put::{put, put_digits, put_named, put_number, put_word};
use gmp_base::{MNo, Woke};
use gmp_seq::{Deal, Goroutine, Kind, Mode, Offer, Status, TicketPlace, Wait};
use gmp_start::{Start, StartChannel};
use std::alloc::AllocError;

/// The first line: how many entries were made, the moment, how many waits began, how many processors are active.
#[tactic(auto, unfolding(crate::specs::StartText::head_text))]
pub fn put_head(
    out: &mut Vec<u8>,
    made: u64,
    now: u64,
    arrivals: u64,
    active: u8,
) -> Result<(), AllocError>
    ensures { OnOk result (out.new.items ≡ out.old.items ++ head_text made now arrivals active) }
{
    put(out, b"start")?;
    put_number(out, made)?;
    put_named(out, b"now", now)?;
    put_named(out, b"arrivals", arrivals)?;
    put_named(out, b"active", u64::from(active))?;
    out.push(b'\n')?;
    Ok(())
}

/// How many entries each machine made.
#[tactic(auto, unfolding(crate::specs::StartText::counts_text))]
pub fn put_counts(out: &mut Vec<u8>, counts: &[u64]) -> Result<(), AllocError>
    ensures { OnOk result (out.new.items ≡ out.old.items ++ counts_text counts.now) }
{
    put(out, b"counts")?;
    for count in counts {
        put_number(out, *count)?;
    }
    out.push(b'\n')?;
    Ok(())
}

/// The machine that holds a processor, or `idle`.
fn put_holder(out: &mut Vec<u8>, holder: Option<MNo>) -> Result<(), AllocError>
    ensures { OnOk result (out.new.items ≡ out.old.items ++ 32 ∷ piece_text (holder_piece holder)) }
{
    match holder {
        None => put_word(out, b"idle"),
        Some(m) => put_number(out, u64::from(m.0)),
    }
}

/// Who holds each processor.
#[tactic(auto, unfolding(crate::specs::StartText::procs_text))]
pub fn put_procs(out: &mut Vec<u8>, holders: &[Option<MNo>]) -> Result<(), AllocError>
    ensures { OnOk result (out.new.items ≡ out.old.items ++ procs_text holders.now) }
{
    put(out, b"procs")?;
    for holder in holders {
        put_holder(out, *holder)?;
    }
    out.push(b'\n')?;
    Ok(())
}

/// What a machine does.
fn put_mode(out: &mut Vec<u8>, mode: Mode) -> Result<(), AllocError>
    ensures { OnOk result (out.new.items ≡ out.old.items ++ 32 ∷ piece_text (mode_piece mode)) }
{
    match mode {
        Mode::Awake => put_word(out, b"awake"),
        Mode::Parked => put_word(out, b"parked"),
        Mode::Calling => put_word(out, b"calling"),
    }
}

/// What each machine does.
#[tactic(auto, unfolding(crate::specs::StartText::machines_text))]
pub fn put_machines(out: &mut Vec<u8>, modes: &[Mode]) -> Result<(), AllocError>
    ensures { OnOk result (out.new.items ≡ out.old.items ++ machines_text modes.now) }
{
    put(out, b"machines")?;
    for mode in modes {
        put_mode(out, *mode)?;
    }
    out.push(b'\n')?;
    Ok(())
}

/// Which of the machines are set, behind this word.
#[tactic(auto, unfolding(crate::specs::StartText::members_text))]
pub fn put_members(out: &mut Vec<u8>, name: &[u8], flags: &[bool]) -> Result<(), AllocError>
    ensures { OnOk result (out.new.items ≡ out.old.items ++ members_text name.now flags.now) }
{
    put(out, name)?;
    for (m, is_set) in flags.iter().enumerate() {
        if *is_set {
            put_number(out, m as u64)?;
        }
    }
    out.push(b'\n')?;
    Ok(())
}

/// A channel, and its number before it.
#[tactic(auto, unfolding(crate::specs::StartText::channel_line))]
pub fn put_channel_line(out: &mut Vec<u8>, c: u64, channel: &StartChannel) -> Result<(), AllocError>
    ensures { OnOk result (out.new.items ≡ out.old.items ++ channel_line c (channel_of channel.now)) }
{
    put(out, b"chan")?;
    put_number(out, c)?;
    put_number(out, u64::from(channel.capacity))?;
    if channel.closed {
        put_word(out, b"closed")?;
    } else {
        put_word(out, b"open")?;
    }
    for value in &channel.items {
        put_number(out, *value)?;
    }
    out.push(b'\n')?;
    Ok(())
}

/// `true` or `false`.
fn put_bool(out: &mut Vec<u8>, b: bool) -> Result<(), AllocError>
    ensures { OnOk result (out.new.items ≡ out.old.items ++ 32 ∷ piece_text (boolean b)) }
{
    if b {
        put_word(out, b"true")
    } else {
        put_word(out, b"false")
    }
}

/// What one that is ready is to be told.
fn put_woke(out: &mut Vec<u8>, woke: Woke) -> Result<(), AllocError>
    ensures { OnOk result (out.new.items ≡ out.old.items ++ fields (woke_pieces woke)) }
{
    match woke {
        Woke::First => put_word(out, b"first"),
        Woke::Done => put_word(out, b"done"),
        Woke::Got(v, sent) => {
            put_named(out, b"got", v)?;
            put_bool(out, sent)
        }
        Woke::Chose(i, None) => put_named(out, b"chose", u64::from(i)),
        Woke::Chose(i, Some((v, sent))) => {
            put_named(out, b"chose", u64::from(i))?;
            put_number(out, v)?;
            put_bool(out, sent)
        }
        Woke::Late => put_word(out, b"late"),
        Woke::Number(n) => put_named(out, b"number", n),
        Woke::Fault(fault) => put_named(out, b"fault", u64::from(fault.number())),
        Woke::Default | Woke::Made(_) | Woke::NoMemory => Ok(()),
    }
}

/// What a goroutine waits by.
fn put_kind(out: &mut Vec<u8>, kind: Kind) -> Result<(), AllocError>
    ensures { OnOk result (out.new.items ≡ out.old.items ++ 32 ∷ piece_text (kind_piece kind)) }
{
    match kind {
        Kind::Plain => put_word(out, b"plain"),
        Kind::Select => put_word(out, b"select"),
        Kind::Sleep => put_word(out, b"sleep"),
        Kind::Parked => put_word(out, b"parked"),
    }
}

/// An offer by its case: what is done, the channel, and of a send the value.
fn put_offer(out: &mut Vec<u8>, offer: Offer) -> Result<(), AllocError>
    ensures { OnOk result (out.new.items ≡ out.old.items ++ 32 ∷ offer_text offer) }
{
    put_number(out, u64::from(offer.case))?;
    match offer.deal {
        Deal::Send(v) => {
            put(out, b":send:")?;
            put_digits(out, u64::from(offer.channel.0))?;
            put(out, b":")?;
            put_digits(out, v)
        }
        Deal::Receive => {
            put(out, b":recv:")?;
            put_digits(out, u64::from(offer.channel.0))
        }
    }
}

/// All offers of one that waits.
fn put_offers(out: &mut Vec<u8>, offers: &[Offer]) -> Result<(), AllocError>
    ensures { OnOk result (out.new.items ≡ out.old.items ++ fields (map offer_piece offers.now)) }
{
    for offer in offers {
        put_offer(out, *offer)?;
    }
    Ok(())
}

/// What stands behind `waits`: the arrival, the kind, the deadline and the offers.
fn put_wait(out: &mut Vec<u8>, wait: &Wait) -> Result<(), AllocError>
    ensures { OnOk result (out.new.items ≡ out.old.items ++ fields (status_pieces (Status.Waiting wait.now))) }
{
    put_named(out, b"waits", wait.arrival)?;
    put_kind(out, wait.kind)?;
    if let Some(until) = wait.until {
        put_named(out, b"until", until)?;
    }
    put_offers(out, wait.offers.as_slice())
}

/// What a goroutine does.
fn put_status(out: &mut Vec<u8>, status: &Status) -> Result<(), AllocError>
    ensures { OnOk result (out.new.items ≡ out.old.items ++ fields (status_pieces status.now)) }
{
    match status {
        Status::Dormant => put_word(out, b"dormant"),
        Status::Dead => put_word(out, b"dead"),
        Status::Running(m) => put_named(out, b"running", u64::from(m.0)),
        Status::Calling(m) => put_named(out, b"calling", u64::from(m.0)),
        Status::Ready(TicketPlace::Shelf, woke) => {
            put_word(out, b"shelf")?;
            put_woke(out, *woke)
        }
        Status::Ready(TicketPlace::Out, woke) => {
            put_word(out, b"out")?;
            put_woke(out, *woke)
        }
        Status::Waiting(wait) => put_wait(out, wait),
    }
}

/// A goroutine, and its number before it.
#[tactic(auto, unfolding(crate::specs::StartText::goroutine_line))]
pub fn put_goroutine_line(out: &mut Vec<u8>, g: u64, row: &Goroutine) -> Result<(), AllocError>
    ensures { OnOk result (out.new.items ≡ out.old.items ++ goroutine_line g row.now) }
{
    put(out, b"g")?;
    put_number(out, g)?;
    put_number(out, row.epoch)?;
    put_status(out, &row.status)?;
    out.push(b'\n')?;
    Ok(())
}

/// A line for each channel.
fn put_channels(out: &mut Vec<u8>, channels: &[StartChannel]) -> Result<(), AllocError>
    ensures { OnOk result (out.new.items ≡ out.old.items ++ channels_text 0 (map channel_of channels.now)) }
{
    for (c, channel) in channels.iter().enumerate() {
        put_channel_line(out, c as u64, channel)?;
    }
    Ok(())
}

/// A line for each goroutine.
fn put_rows(out: &mut Vec<u8>, rows: &[Goroutine]) -> Result<(), AllocError>
    ensures { OnOk result (out.new.items ≡ out.old.items ++ goroutines_text 0 rows.now) }
{
    for (g, row) in rows.iter().enumerate() {
        put_goroutine_line(out, g as u64, row)?;
    }
    Ok(())
}

/// Puts the lines of a start, from `start` to `begin`, at the end of a text. The first says that `made` entries were made before it; who
/// reads them wants the sum of the counts there. They can be read where the start's state has the forms that `gmp_start` defines.
pub fn put_start(out: &mut Vec<u8>, made: u64, start: &Start) -> Result<(), AllocError>
    ensures { OnOk result (out.new.items ≡ out.old.items ++ start_text made (state_of start.now)) }
{
    put_head(out, made, start.clock, start.arrivals, start.active)?;
    put_counts(out, &start.counts)?;
    put_procs(out, &start.holders)?;
    put_machines(out, &start.modes)?;
    put_members(out, b"spinning", &start.spinning)?;
    put_members(out, b"marked", &start.marked)?;
    put_channels(out, &start.channels)?;
    put_rows(out, &start.goroutines)?;
    put(out, b"begin\n")?;
    Ok(())
}
