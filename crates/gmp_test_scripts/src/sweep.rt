//! Tables of limits of entries, each with how much of a script's trace is written then: under a limit the trace is the beginning of the
//! whole one, with another end, so no limit needs a trace of its own. `Row` is a limit, `Base` the script with its trace.

use crate::error::ScriptError;
use crate::program::{checked, stepped_within};
use crate::script::{read_beside, same};
use std::alloc::{AllocError, Global};
use std::fs;

/// The lines of a trace before its entries.
const HEAD: usize = 3;

/// A row `LIMIT: COUNT END`: under this limit the history is that of the script's trace up to so many entries, and the run ends so.
#[derive(Clone, Copy)]
struct Row<'a> {
    /// Its line in the table.
    number: usize,
    limit: &'a str,
    count: usize,
    end: &'a str,
}

/// A script, its trace under a limit that it does not reach, and the name of its file.
#[derive(Drop)]
struct Base<'a> {
    name: &'a str,
    script: String,
    trace: String,
}

/// Adds a line of these pieces.
fn put_line(out: &mut Vec<u8>, pieces: &[&[u8]]) -> Result<(), AllocError> {
    for piece in pieces {
        out.extend_from_slice(piece)?;
    }
    out.push(b'\n')?;
    Ok(())
}

impl<'a> Row<'a> {
    fn read(number: usize, line: &'a str) -> Option<Self> {
        let (limit, rest) = line.split_once(": ")?;
        let (count, end) = rest.split_once(' ')?;
        Some(Row {
            number,
            limit,
            count: count.parse().ok()?,
            end,
        })
    }

    /// The status of a run that ends so.
    fn status(&self) -> u8 {
        match self.end {
            "main ended" => 0,
            "all asleep" => 2,
            "book full" => 3,
            _ => 4,
        }
    }

    /// What is written of this trace under the limit: the limit stands last in line 2.
    fn cut(&self, alloc: Global, trace: &str) -> Result<Vec<u8>, AllocError> {
        let mut out = Vec::new(alloc);
        self.put_head(&mut out, trace)?;
        put_line(&mut out, &[b"end ", self.end.as_bytes()])?;
        Ok(out)
    }

    /// Adds the lines before the end.
    fn put_head(&self, out: &mut Vec<u8>, trace: &str) -> Result<(), AllocError> {
        let lines = trace.lines().take(self.count.wrapping_add(HEAD));
        for (index, line) in lines.enumerate() {
            match line.rsplit_once(' ') {
                Some((head, _)) if index == 1 => {
                    put_line(out, &[head.as_bytes(), b" ", self.limit.as_bytes()])?;
                }
                _ => put_line(out, &[line.as_bytes()])?,
            }
        }
        Ok(())
    }
}

impl<'a> Base<'a> {
    fn read(rt: &HostRuntime, name: &'a str) -> Result<Self, ScriptError> {
        let stem = name.strip_suffix(".gmp").unwrap_or(name);
        Ok(Base {
            name,
            script: fs::read_to_string(rt, name)?,
            trace: read_beside(rt, stem, ".trace")?,
        })
    }

    /// `gmp step` writes under the row's limit what the row says, and `gmp check` passes it.
    fn judge(&self, alloc: Global, row: &Row) -> Result<(), ScriptError> {
        let ran = stepped_within(alloc, self.script.as_bytes(), row.limit)?;
        self.judge_status(alloc, row, ran.status)?;
        self.judge_trace(alloc, row, &ran.written)?;
        judge_right(alloc, row.number, &ran.written)
    }

    /// It ended with the row's status.
    fn judge_status(&self, alloc: Global, row: &Row, status: u8) -> Result<(), ScriptError> {
        if status == row.status() {
            return Ok(());
        }
        let said = format!(in alloc; "{}: status {status}", self.name)?;
        Err(ScriptError::Line(row.number, said))
    }

    /// The trace is the beginning that the row says.
    fn judge_trace(&self, alloc: Global, row: &Row, written: &[u8]) -> Result<(), ScriptError> {
        let cut = row.cut(alloc, self.trace.as_str())?;
        same(alloc, written, &cut, "the line of a trace that is another")
    }
}

/// `gmp check` passes the trace of the row on this line.
fn judge_right(alloc: Global, number: usize, trace: &[u8]) -> Result<(), ScriptError> {
    let ran = checked(alloc, trace)?;
    if ran.status == 0 {
        Ok(())
    } else {
        Err(ScriptError::line(alloc, number, ran.said.trim_end()))
    }
}

/// The script goes by the row on this line.
fn judge_line(
    alloc: Global,
    base: &Option<Base>,
    number: usize,
    line: &str,
) -> Result<(), ScriptError> {
    match (base, Row::read(number, line)) {
        (Some(base), Some(row)) => base.judge(alloc, &row),
        _ => Err(ScriptError::line(alloc, number, "no row")),
    }
}

/// How many rows the table has, or what falls short.
fn judge_table(rt: &HostRuntime, table: &str) -> Result<usize, ScriptError> {
    let mut base = None;
    let mut rows = 0usize;
    for (index, line) in table.lines().enumerate() {
        if let Some(name) = line.strip_prefix("of ") {
            base = Some(Base::read(rt, name)?);
        } else if !line.is_empty() && !line.starts_with('#') {
            judge_line(rt.alloc(), &base, index.wrapping_add(1), line)?;
            rows = rows.wrapping_add(1);
        }
    }
    Ok(rows)
}

/// Runs the scripts of the table of this name under its limits: how many rows there are, or the first that falls short.
pub fn judged(rt: &HostRuntime, name: &str) -> Result<usize, ScriptError> {
    let table = fs::read_to_string(rt, name)?;
    judge_table(rt, table.as_str())
}
