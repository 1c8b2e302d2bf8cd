//! Lines of the text, each put at the end of what is gathered.
//! An entry's line is placed in an array first and copied once. Pushed piece by piece, each piece would ask for room and could want memory.

ghost use Rattle.std.specs.Prelude.{◌≡◌, ◌≤◌, ◌++◌, OnOk, length, take};
ghost use Rattle.gmp_trace.specs.Pieces.{limit, limits_text, capacities_text, end_text, entry_text, fields, room_pieces};
ghost use Rattle.gmp_trace.specs.Text.{IsCounted, begins_of, beginning_text, header, start_version};

use crate::call::place_call;
use crate::digits::place_digits;
use crate::place::{place_byte, place_pair, place_word};
use crate::put::{put, put_named, put_number};
use crate::reply::place_reply;
use crate::start::put_start;
use crate::trace::{BeginningView, End, is_whole};
use gmp_seq::{Entry, Limits};
use std::alloc::AllocError;

/// A line of an entry is no longer: its longest has a select of 8 sends.
pub const LONGEST: usize = 640;

/// The name of a limit, and its number.
#[tactic(auto, unfolding(crate::specs::Pieces::limit))]
fn put_limit(out: &mut Vec<u8>, name: &[u8], n: u64) -> Result<(), AllocError>
    ensures { OnOk result (out.new.items ≡ out.old.items ++ limit name.now n) }
{
    put_named(out, name, n)
}

/// Of a history that is handed out in segments, its room.
#[tactic(auto, unfolding(crate::specs::Pieces::room_pieces))]
fn put_room(out: &mut Vec<u8>, limits: &Limits) -> Result<(), AllocError>
    ensures { OnOk result (out.new.items ≡ out.old.items ++ fields (room_pieces limits.now)) }
{
    if is_whole(limits) {
        return Ok(());
    }
    put_named(out, b"room", u64::from(limits.room))
}

/// The second line.
#[tactic(auto, unfolding(crate::specs::Pieces::limits_text))]
pub fn put_limits(out: &mut Vec<u8>, limits: &Limits, bodies: u16) -> Result<(), AllocError>
    ensures { OnOk result (out.new.items ≡ out.old.items ++ limits_text limits.now bodies) }
{
    put(out, b"limits")?;
    put_limit(out, b"procs", u64::from(limits.procs))?;
    put_limit(out, b"machines", u64::from(limits.machines))?;
    put_limit(out, b"bodies", u64::from(bodies))?;
    put_limit(out, b"channels", u64::from(limits.channels))?;
    put_limit(out, b"entries", limits.entries)?;
    put_room(out, limits)?;
    out.push(b'\n')?;
    Ok(())
}

/// The third line.
#[tactic(auto, unfolding(crate::specs::Pieces::capacities_text))]
pub fn put_capacities(out: &mut Vec<u8>, capacities: &[u32]) -> Result<(), AllocError>
    ensures { OnOk result (out.new.items ≡ out.old.items ++ capacities_text capacities.now) }
{
    put(out, b"caps")?;
    for capacity in capacities {
        put_number(out, u64::from(*capacity))?;
    }
    out.push(b'\n')?;
    Ok(())
}

/// The first line of what begins at a state.
fn start_header(limits: &Limits) -> &'static [u8]
    ensures { result.now ≡ header (start_version limits.now) }
{
    if is_whole(limits) {
        b"gmp-trace 2\n"
    } else {
        b"gmp-trace 4\n"
    }
}

/// The lines before the entries. It takes no more memory than they have bytes.
pub fn put_beginning(
    out: &mut Vec<u8>,
    limits: &Limits,
    bodies: u16,
    beginning: BeginningView,
) -> Result<(), AllocError>
    requires { IsCounted (begins_of beginning) }
    ensures { OnOk result (out.new.items ≡ out.old.items ++ beginning_text limits.now bodies (begins_of beginning.entry)) }
{
    match beginning {
        BeginningView::Opening(capacities) => {
            put(out, b"gmp-trace 1\n")?;
            put_limits(out, limits, bodies)?;
            put_capacities(out, capacities)
        }
        BeginningView::Start(start) => {
            put(out, start_header(limits))?;
            put_limits(out, limits, bodies)?;
            put_start(out, start.made(), start)
        }
    }
}

/// The line of an entry, at the beginning of the room: its number, its machine and which of the machine's it is, the call and the reply. It
/// answers where the line ends.
#[tactic(auto, unfolding(crate::specs::Pieces::entry_text))]
fn place_entry(line: &mut [u8], number: u64, entry: &Entry) -> usize
    requires { 640 ≤ length line.old }
    ensures text { take result line.new ≡ entry_text number entry.now }
    ensures end { result ≤ 640 }
{
    let at = place_digits(line, 0, number);
    let at = place_pair(line, at, u64::from(entry.m.0), entry.k);
    let at = place_call(line, at, &entry.call);
    let at = place_word(line, at, b"->");
    let at = place_reply(line, at, &entry.reply);
    place_byte(line, at, b'\n')
}

/// The same as `put_entry`, by room for a line that is there.
pub fn put_entry_by(
    out: &mut Vec<u8>,
    line: &mut [u8; LONGEST],
    number: u64,
    entry: &Entry,
) -> Result<(), AllocError>
    ensures { OnOk result (out.new.items ≡ out.old.items ++ entry_text number entry.now) }
{
    let end = place_entry(line, number, entry);
    out.extend_from_slice(&line[..end])
}

/// The line of an entry: its number, its machine and which of the machine's it is, the call and the reply.
pub fn put_entry(out: &mut Vec<u8>, number: u64, entry: &Entry) -> Result<(), AllocError>
    ensures { OnOk result (out.new.items ≡ out.old.items ++ entry_text number entry.now) }
{
    put_entry_by(out, &mut [0; LONGEST], number, entry)
}

/// The last line.
#[tactic(auto, unfolding(crate::specs::Pieces::end_text))]
pub fn put_end(out: &mut Vec<u8>, end: End) -> Result<(), AllocError>
    ensures { OnOk result (out.new.items ≡ out.old.items ++ end_text end) }
{
    match end {
        End::MainEnded => put(out, b"end main ended\n"),
        End::AllAsleep => put(out, b"end all asleep\n"),
        End::BookFull => put(out, b"end book full\n"),
        End::Running => put(out, b"end running\n"),
    }
}
