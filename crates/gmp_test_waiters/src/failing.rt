//! `gmp run` with a reader that fails at each of its reads (`Fails`), with a writer that fails behind each number of bytes, and with an outlet
//! of parts that does (`Narrow`).

use crate::row::Row;
use crate::waiting::Stopped;
use crate::wrong::{Wrong, held};
use gmp_parts::Outlet;
use gmp_run_cli::{run, run_in_segments};
use gmp_words::{Ended, Said, Segments, Settings};
use std::alloc::Global;
use std::io;
use std::io::{ErrorKind, Read, Write};
use std::sync::Wait;
use std::thread::Threads;

/// No text of a row has more bytes.
const ROOM: usize = 1024;

/// More bytes than all parts of a row have.
const ENOUGH: usize = 100_000;

/// A reader that gives a byte at each read, and fails behind the last.
#[derive(Drop)]
struct Fails<'a> {
    text: &'a [u8],
}

impl Read for Fails<'_> {
    fn read(&mut self, buf: &mut [u8]) -> io::Result<usize> {
        let ([first, rest @ ..], [to, ..]) = (self.text, buf) else {
            return Err(io::Error::from(ErrorKind::TimedOut));
        };
        *to = *first;
        self.text = rest;
        Ok(1)
    }
}

/// Where the input fails behind this text, that is said, with status 1.
fn is_unreadable<R: Threads + Wait + Sync>(
    rt: &R,
    alloc: Global,
    settings: &Settings,
    text: &[u8],
) -> bool {
    let mut output: &mut [u8] = &mut [];
    let mut reader = Fails { text };
    let ended = run(rt, alloc, settings, &mut reader, &mut output, &Stopped);
    ended.status == 1 && matches!(ended.said, Said::InputUnreadable)
}

/// Whether it is said that the output failed, or where it is whole that nothing did, with this status.
fn is_told(ended: &Ended, is_whole: bool, status: u8) -> bool {
    if is_whole {
        ended.status == status && matches!(ended.said, Said::Nothing)
    } else {
        ended.status == 1 && matches!(ended.said, Said::OutputFailed)
    }
}

/// With room for so many bytes that many of the text are written, and it is said whether that was all.
fn is_cut<R: Threads + Wait + Sync>(
    rt: &R,
    alloc: Global,
    settings: &Settings,
    mut script: &[u8],
    text: &[u8],
    room: usize,
) -> bool {
    let mut written = [0u8; ROOM];
    let Some(mut output) = written.get_mut(..room) else {
        return false;
    };
    let ended = run(rt, alloc, settings, &mut script, &mut output, &Stopped);
    let is_full = output.is_empty();
    is_full && is_told(&ended, room == text.len(), 0) && text.get(..room) == written.get(..room)
}

/// An outlet that takes so many bytes, and then fails.
#[derive(Drop)]
struct Narrow {
    left: usize,
}

impl Write for Narrow {
    fn write(&mut self, buf: &[u8]) -> io::Result<usize> {
        if self.left == 0 {
            return Err(io::Error::from(ErrorKind::StorageFull));
        }
        let taken = buf.len().min(self.left);
        self.left -= taken;
        Ok(taken)
    }

    fn flush(&mut self) -> io::Result<()> {
        Ok(())
    }
}

impl Outlet for Narrow {
    fn begin(&mut self, _number: u64) -> io::Result<()> {
        Ok(())
    }
}

/// How a run in parts ends whose outlet takes so many bytes and whose writer so many, and how many the outlet would still take. None where
/// what was written isn't the beginning of the text.
fn in_parts<R: Threads + Wait + Sync>(
    rt: &R,
    alloc: Global,
    settings: &Settings,
    segments: Segments,
    mut script: &[u8],
    text: &[u8],
    (room, told): (usize, usize),
) -> Option<(u8, usize)> {
    let mut written = [0u8; ROOM];
    let mut output = written.get_mut(..told)?;
    let ran = run_in_segments(
        rt,
        alloc,
        settings,
        segments,
        Narrow { left: room },
        &mut script,
        &mut output,
        &Stopped,
    );
    let count = told.saturating_sub(output.len());
    if written.get(..count) != text.get(..count) {
        return None;
    }
    Some((ran.ended.status, ran.outlet?.left))
}

/// Parts and what is told of them may fail behind each byte.
fn parts_fail<R: Threads + Wait + Sync>(
    rt: &R,
    alloc: Global,
    settings: &Settings,
    segments: Segments,
    script: &[u8],
    text: &[u8],
    status: u8,
) -> Result<(), Wrong> {
    let all = text.len();
    let ends = |room, told| in_parts(rt, alloc, settings, segments, script, text, (room, told));
    let length = match ends(ENOUGH, all) {
        Some((ended, left)) if ended == status => ENOUGH.saturating_sub(left),
        _ => return Err(Wrong::OtherEnd),
    };
    for room in 0..=length {
        let wanted = if room < length { 1 } else { status };
        held(
            ends(room, all) == Some((wanted, 0)),
            Wrong::Number("where input or output fails behind byte", room as u64),
        )?;
    }
    for told in 0..all {
        held(
            ends(length, told) == Some((1, 0)),
            Wrong::Number("where input or output fails behind byte", told as u64),
        )?;
    }
    Ok(())
}

/// Tries the row.
pub fn tried<R: Threads + Wait + Sync>(rt: &R, alloc: Global, row: &str) -> Result<(), Wrong> {
    let row = Row::read(row)?;
    let settings = row.settings(alloc)?;
    let script = row.lines(alloc)?;
    let text = format!(in alloc; "{}\n", row.text)?;
    let text = text.as_bytes();
    if let Some(segments) = settings.segments {
        let status = row.status()?;
        return parts_fail(rt, alloc, &settings, segments, &script, text, status);
    }
    for reads in 0..=script.len() {
        let read = script.get(..reads).unwrap_or(&[]);
        held(
            is_unreadable(rt, alloc, &settings, read),
            Wrong::Number("where input or output fails behind byte", reads as u64),
        )?;
    }
    for room in 0..=text.len() {
        let is_right = is_cut(rt, alloc, &settings, &script, text, room);
        held(
            is_right,
            Wrong::Number("where input or output fails behind byte", room as u64),
        )?;
    }
    Ok(())
}
