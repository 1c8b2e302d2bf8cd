//! The scheduler for C: handles, numbers, and the functions of native/c/gmp.h. Each is one call of gmp_stand, or a check of a text, and its
//! clauses stand here over what the handle's box holds.
//!
//! What C passes is trusted to be what the header says: a handle that an opening made and no close took, pointers that are valid, and counts
//! that are right. What the numbers say is judged here: no number is refused but limits.
#![tactic(auto)]

ghost use Rattle.std.specs.Prelude.{◌≡◌, ◌≢◌, ◌⊎◌, ◌<◌, ◌↔◌, ◌++◌, ℕ, None, Some, [], length, true, unwrap_or};
ghost use Rattle.std.specs.Int.{bit_at};
ghost use Rattle.std.specs.Option.{option_map_or};
ghost use Rattle.gmp_seq.specs.Fits.{AreLimits};
ghost use Rattle.gmp_seq.specs.Table.{least_deadline, status_at};
ghost use Rattle.gmp_acts.specs.Headline.{SameOpening};
ghost use Rattle.gmp_acts.specs.Lookouts.{NoWorkIsAsleep};
ghost use Rattle.gmp_fair.specs.Fair.{AllSteady};
ghost use Rattle.gmp_core.specs.Stage.{parked};
ghost use Rattle.gmp_core.specs.Waits.{PassesNobodyOver};
ghost use Rattle.gmp_core.specs.Whole.{HeadlineOf, emptied};
ghost use Rattle.gmp_parts.specs.Writing.{GoesOn, WritesPart};
ghost use Rattle.gmp_stand.specs.Parting.{textless};
ghost use Rattle.gmp_trace.specs.Text.{text};
ghost use Rattle.gmp_stand.specs.Told.{trace_of};
ghost use Rattle.gmp_waits.specs.Doing.{doing_text};
ghost use Rattle.gmp_c.specs.Checking.{IsJudged};
ghost use Rattle.gmp_c.specs.Words.{IsOpening, IsWritten, Turned, failed_number, handed_of, limits_of, outcome_number, status_number};

mod checker;
mod checking;
mod copying;
mod handle;
mod loose;
mod parts;
mod words;

use crate::checker::{Checker, Fed};
use crate::checking::judged;
use crate::copying::copied;
use crate::handle::{Handle, Opaque, loosened, put};
use crate::parts::Parts;
use crate::words::{
    AskWords, CaseWords, EventWords, LimitWords, handed, number_of, number_of_status, words_of,
};
use gmp_base::{GNo, MNo};
use gmp_check::OpenError;
use gmp_parts::PartError;
use gmp_stand::{PartText, Stand, TextError};
use std::alloc::Global;

/// The version of the header's functions.
const VERSION: u32 = 1;

/// Want of memory, as a refusal's number.
const OUT_OF_MEMORY: u32 = 28;

/// That limits are out of range.
const BAD_LIMITS: u32 = 29;

/// That a history is not kept whole.
const NOT_WHOLE: u32 = 32;

/// That a piece doesn't go on where the last part stops.
const NO_STEP: u32 = 33;

/// That there is no such goroutine, among the numbers of what one does.
const NOBODY: u32 = 6;

/// That C may pass the handle to another thread.
fn crosses<T: Send>(_value: &T) {}

/// Opens a run of so many goroutines and channels of these capacities, and writes the handle's word. Answers 0, or the number of the
/// refusal.
#[unsafe(no_mangle)]
pub extern "C" fn gmp_open(
    alloc: Global,
    limits: &LimitWords,
    goroutines: u16,
    capacities: &[u32],
    fair: bool,
    out: &mut *mut Opaque,
) -> u32
    ensures opening { IsOpening (AreLimits (limits_of limits.now) goroutines capacities.now) result }
    ensures none { result ≢ 0 → out.new ≡ out.old }
{
    match Stand::open(alloc, limits.limits(), goroutines, capacities, fair) {
        Ok(stand) => {
            crosses(&stand);
            match Box::new(alloc, stand) {
                Ok(stand) => {
                    *out = put(stand);
                    0
                }
                Err(_) => OUT_OF_MEMORY,
            }
        }
        Err(why) => u32::from(why.number()),
    }
}

/// Lets the run go.
#[unsafe(no_mangle)]
pub extern "C" fn gmp_close(alloc: Global, h: Handle) {
    let _ = loosened(h, alloc).into_box();
}

/// The version of the header's functions.
#[unsafe(no_mangle)]
pub extern "C" fn gmp_version() -> u32
    ensures { result ≡ 1 }
{
    VERSION
}

/// Machine m acts until it needs something from outside, and writes what that is.
#[unsafe(no_mangle)]
pub extern "C" fn gmp_turn(
    h: &mut Handle,
    m: u8,
    ask: &AskWords,
    cases: &[CaseWords],
    moment: u64,
    word: u64,
    event: &mut EventWords,
)
    ensures turn { Turned m (handed_of ask.now cases.now moment word) h.old.value.core h.new.value.core event.new }
    ensures served { PassesNobodyOver h.old.value.core }
    ensures steady { AllSteady h.old.value.core.system → AllSteady h.new.value.core.system }
    ensures headline { HeadlineOf h.new.value.core.system }
    ensures awake { NoWorkIsAsleep h.new.value.core.system }
    ensures opened { SameOpening h.old.value.core.system.book h.new.value.core.system.book }
    ensures piece { h.new.value.piece ≡ h.old.value.piece }
{
    let handed = handed(ask, cases, moment, word);
    *event = words_of(h.get().turn(MNo(m), handed));
}

/// Which machines are parked: bit m is machine m's.
#[unsafe(no_mangle)]
pub extern "C" fn gmp_parked(h: &mut Handle) -> u64
    ensures set { (m : ℕ) → m < 64 → (bit_at result m ≡ 1) ↔ (parked h.old.value.core.system m ≡ true) }
    ensures same { h.new.value ≡ h.old.value }
{
    h.get().parked_set()
}

/// The least moment until which a goroutine waits; the greatest number, where none waits until one.
#[unsafe(no_mangle)]
pub extern "C" fn gmp_deadline(h: &mut Handle) -> u64
    ensures deadline { result ≡ unwrap_or (least_deadline h.old.value.core.system.book.state.table) 18446744073709551615 }
    ensures same { h.new.value ≡ h.old.value }
{
    h.get().deadline().unwrap_or(u64::MAX)
}

/// How the run ended: 0, if it did not; 1, main ended; 2, all are asleep; 3, there are as many entries as there may be.
#[unsafe(no_mangle)]
pub extern "C" fn gmp_outcome(h: &mut Handle) -> u32
    ensures outcome { result ≡ outcome_number h.old.value.core.system.book.state.outcome }
    ensures same { h.new.value ≡ h.old.value }
{
    number_of(h.get().outcome())
}

/// How many entries the history has since the last hand-out.
#[unsafe(no_mangle)]
pub extern "C" fn gmp_entries(h: &mut Handle) -> u64
    ensures entries { result ≡ length h.old.value.core.system.book.history }
    ensures same { h.new.value ≡ h.old.value }
{
    h.get().history().len() as u64
}

/// What goroutine g does, by its number; 6 where there is no goroutine g.
#[unsafe(no_mangle)]
pub extern "C" fn gmp_status(h: &mut Handle, g: u16) -> u32
    ensures status { result ≡ option_map_or status_number (status_at h.old.value.core.system.book.state.table (record { 0 = g })) 6 }
    ensures headline { HeadlineOf h.old.value.core.system }
    ensures same { h.new.value ≡ h.old.value }
{
    match h.get().status(GNo(g)) {
        Some(status) => number_of_status(status),
        None => NOBODY,
    }
}

/// Writes what goroutine g does, in words, into the buffer, as much as there is room for, and how long it is: 0, where there is no goroutine
/// g. Answers 0, or 28 for want of memory: then nothing is written.
#[unsafe(no_mangle)]
pub extern "C" fn gmp_status_text(h: &mut Handle, g: u16, buffer: &mut [u8], len: &mut u64) -> u32
    ensures words { result ≡ 0 → IsWritten (option_map_or doing_text (status_at h.old.value.core.system.book.state.table (record { 0 = g })) []) buffer.old buffer.new len.new }
    ensures refused { result ≢ 0 → (result ≡ 28) × (buffer.new ≡ buffer.old) × (len.new ≡ len.old) }
    ensures headline { HeadlineOf h.old.value.core.system }
    ensures same { h.new.value ≡ h.old.value }
{
    match h.get().status_text(GNo(g)) {
        Ok(Some(words)) => *len = copied(words.as_bytes(), buffer) as u64,
        Ok(None) => *len = copied(&[], buffer) as u64,
        Err(_) => return OUT_OF_MEMORY,
    }
    0
}

/// Hands out the entries since the last time, as a piece, so that the history has room again. Answers 0, or 28 for want of memory.
#[unsafe(no_mangle)]
pub extern "C" fn gmp_hand_out(h: &mut Handle) -> u32
    ensures out { result ≡ 0
        → h.new.value ≡ record { core = record h.old.value.core { system = emptied h.old.value.core.system }; piece = h.old.value.core.system.book.history } }
    ensures refused { result ≢ 0 → (result ≡ 28) × (h.new.value ≡ h.old.value) }
{
    match h.get().hand_out() {
        Ok(()) => 0,
        Err(_) => OUT_OF_MEMORY,
    }
}

/// How many entries the piece has that was handed out last.
#[unsafe(no_mangle)]
pub extern "C" fn gmp_piece_len(h: &mut Handle) -> u64
    ensures length { result ≡ length h.old.value.piece }
    ensures same { h.new.value ≡ h.old.value }
{
    match h.get().piece() {
        Some(piece) => piece.len() as u64,
        None => 0,
    }
}

/// Writes the text of the run's trace into the buffer, as much as there is room for, and how long it is. Answers 0, or 28 for want of memory,
/// or 32 where the history is not kept whole: then nothing is written.
#[unsafe(no_mangle)]
pub extern "C" fn gmp_text(h: &mut Handle, buffer: &mut [u8], len: &mut u64) -> u32
    ensures text { result ≡ 0 → IsWritten (text (trace_of h.old.value.core.system)) buffer.old buffer.new len.new }
    ensures refused { result ≢ 0 → ((result ≡ 28) ⊎ (result ≡ 32)) × (buffer.new ≡ buffer.old) × (len.new ≡ len.old) }
    ensures same { h.new.value ≡ h.old.value }
{
    match h.get().text() {
        Ok(text) => {
            *len = copied(&text, buffer) as u64;
            0
        }
        Err(TextError::OutOfMemory) => OUT_OF_MEMORY,
        Err(TextError::NotWhole) => NOT_WHOLE,
    }
}

/// Whether this is the text of a right trace, of whichever scheduler: 0, if it is; 1, if it is not, and the line is the first bad one; 28 for
/// want of memory.
#[unsafe(no_mangle)]
pub extern "C" fn gmp_check_text(alloc: Global, text: &[u8], line: &mut u64) -> u32
    ensures { IsJudged text.now result line.new }
{
    judged(alloc, text, line)
}

/// Opens a checker that was fed nothing, and writes its word. Answers 0, or 28 for want of memory.
#[unsafe(no_mangle)]
pub extern "C" fn gmp_check_open(alloc: Global, out: &mut *mut Opaque) -> u32
    ensures kinds { (result ≡ 0) ⊎ (result ≡ 28) }
    ensures none { result ≢ 0 → out.new ≡ out.old }
{
    let fed = Fed::new(alloc);
    crosses(&fed);
    match Box::new(alloc, fed) {
        Ok(fed) => {
            *out = put(fed);
            0
        }
        Err(_) => OUT_OF_MEMORY,
    }
}

/// Feeds this text behind what was fed before. Answers 0, or 28 for want of memory.
#[unsafe(no_mangle)]
pub extern "C" fn gmp_check_feed(c: &mut Checker, text: &[u8]) -> u32
    ensures fed { result ≡ 0 → c.new.value ≡ c.old.value ++ text.now }
    ensures refused { result ≢ 0 → (result ≡ 28) × (c.new.value ≡ c.old.value) }
{
    match c.get().feed(text) {
        Ok(()) => 0,
        Err(_) => OUT_OF_MEMORY,
    }
}

/// Whether what was fed is the text of a right trace, as of `gmp_check_text`.
#[unsafe(no_mangle)]
pub extern "C" fn gmp_check_end(alloc: Global, c: &mut Checker, line: &mut u64) -> u32
    ensures judged { IsJudged c.old.value result line.new }
    ensures same { c.new.value ≡ c.old.value }
{
    judged(alloc, c.get().text(), line)
}

/// Lets the checker go.
#[unsafe(no_mangle)]
pub extern "C" fn gmp_check_close(alloc: Global, c: Checker) {
    let _ = checker::loosened(c, alloc).into_box();
}

/// Opens a writer of the parts of a run with so many goroutines and channels of these capacities, and writes its word. Nothing is written
/// yet. Answers 0, or the number of the refusal.
#[unsafe(no_mangle)]
pub extern "C" fn gmp_parts_open(
    alloc: Global,
    limits: &LimitWords,
    goroutines: u16,
    capacities: &[u32],
    out: &mut *mut Opaque,
) -> u32
    ensures opening { IsOpening (AreLimits (limits_of limits.now) goroutines capacities.now) result }
    ensures none { result ≢ 0 → out.new ≡ out.old }
{
    match PartText::open(alloc, limits.limits(), goroutines, capacities) {
        Ok(parts) => {
            crosses(&parts);
            match Box::new(alloc, parts) {
                Ok(parts) => {
                    *out = put(parts);
                    0
                }
                Err(_) => OUT_OF_MEMORY,
            }
        }
        Err(OpenError::BadLimits) => BAD_LIMITS,
        Err(OpenError::OutOfMemory) => OUT_OF_MEMORY,
    }
}

/// Writes the piece that was handed out last as the next part. Answers 0, or 28 for want of memory, or 33 where the piece doesn't go on where
/// the last part stops: then there is no text, and it answers so each time.
#[unsafe(no_mangle)]
pub extern "C" fn gmp_parts_write(p: &mut Parts, h: &mut Handle) -> u32
    ensures written { result ≡ 0 → WritesPart Some (textless p.old.value) h.old.value.piece p.new.value }
    ensures goes_on { result ≡ 0 → GoesOn p.old.value h.old.value.piece }
    ensures no_step { result ≡ 33 → p.old.value.failed ≡ None → GoesOn p.old.value h.old.value.piece → ⊥ }
    ensures refused { result ≢ 0 → p.new.value ≡ record (textless p.old.value) { failed = p.new.value.failed } }
    ensures why { result ≡ failed_number p.new.value.failed }
    ensures again { p.old.value.failed ≢ None → result ≡ failed_number p.old.value.failed }
    ensures same { h.new.value ≡ h.old.value }
{
    match p.get().write(h.get()) {
        Ok(()) => 0,
        Err(PartError::NoStep) => NO_STEP,
        Err(PartError::OutOfMemory | PartError::Device) => OUT_OF_MEMORY,
    }
}

/// Writes the text of the part that was written last into the buffer, as much as there is room for, and how long it is. Answers 0.
#[unsafe(no_mangle)]
pub extern "C" fn gmp_parts_text(p: &mut Parts, buffer: &mut [u8], len: &mut u64) -> u32
    ensures text { IsWritten p.old.value.out buffer.old buffer.new len.new }
    ensures number { result ≡ 0 }
    ensures same { p.new.value ≡ p.old.value }
{
    *len = copied(p.get().text(), buffer) as u64;
    0
}

/// Lets the writer of the parts go.
#[unsafe(no_mangle)]
pub extern "C" fn gmp_parts_close(alloc: Global, p: Parts) {
    let _ = parts::loosened(p, alloc).into_box();
}
