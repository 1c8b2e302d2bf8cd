//! Tables of changes of a text, each with what the program is to say then. `Row` is a line of the table, `Base` the text that it changes.

use crate::edit::{Edit, Site};
use crate::error::ScriptError;
use crate::program::{Ran, checked, stepped};
use std::alloc::{AllocError, Global};
use std::fs;

/// A row: an edit made in each of these lines, in turn.
#[derive(Clone, Copy)]
struct Row<'a> {
    /// Its line in the table.
    number: usize,
    want: &'a str,
    edit: Edit<'a>,
    first: usize,
    last: usize,
}

/// The numbers of the first and the last of the lines `4-11`, or `4`.
fn numbers(lines: &str) -> Option<(usize, usize)> {
    let (first, last) = lines.split_once('-').unwrap_or((lines, lines));
    Some((first.parse().ok()?, last.parse().ok()?))
}

/// What is said of this line.
fn said_of(alloc: Global, line: usize, word: &str) -> Result<String, AllocError> {
    format!(in alloc; "gmp: line {line}: {word}\n")
}

impl<'a> Row<'a> {
    /// The row `WANT: EDIT LINES ..`.
    fn read(number: usize, line: &'a str) -> Option<Self> {
        let (want, change) = line.split_once(": ")?;
        let (name, rest) = change.split_once(' ')?;
        let (lines, more) = rest.split_once(' ').unwrap_or((rest, ""));
        let edit = Edit::named(name, more)?;
        let (first, last) = numbers(lines)?;
        Some(Row {
            number,
            want,
            edit,
            first,
            last,
        })
    }

    /// What is to be said of a change in this line.
    fn text(&self, alloc: Global, line: usize) -> Result<String, AllocError> {
        match self.want.split_once(' ') {
            Some(("L", word)) => said_of(alloc, line, word),
            Some(("L+1", word)) => said_of(alloc, line.wrapping_add(1), word),
            Some((digit, word)) if digit.parse::<u64>().is_ok() => {
                format!(in alloc; "gmp: line {digit}: {word}\n")
            }
            _ if self.want == "right" => Ok(String::new(alloc)),
            _ => format!(in alloc; "gmp: {}\n", self.want),
        }
    }
}

/// A text whose changes are judged, and the name of its file.
#[derive(Drop)]
struct Base<'a> {
    alloc: Global,
    name: &'a str,
    text: String,
}

impl<'a> Base<'a> {
    /// `gmp step` on a script, and `gmp check` on a trace, where the edit is made at this place in the line.
    fn run(&self, edit: Edit, site: &Site, at: usize) -> Result<Ran, AllocError> {
        let changed = edit.made(self.alloc, site, at)?;
        if self.name.ends_with(".gmp") {
            stepped(self.alloc, &changed)
        } else {
            checked(self.alloc, &changed)
        }
    }

    /// The program says what is wanted where the row's edit is made at this place in the line.
    fn judge_text(&self, row: &Row, site: &Site, at: usize, want: &str) -> Result<(), ScriptError> {
        let ran = self.run(row.edit, site, at)?;
        if ran.said.as_str() == want && ran.written.is_empty() != want.is_empty() {
            return Ok(());
        }
        let (line, said) = (site.number, ran.said.trim_end());
        let said = format!(in self.alloc; "line {line} at {at}: {said}")?;
        Err(ScriptError::Line(row.number, said))
    }

    /// How many texts the row makes by this line.
    fn judge_line(&self, row: &Row, site: &Site) -> Result<usize, ScriptError> {
        let want = row.text(self.alloc, site.number)?;
        let places = row.edit.places(site.line.len());
        let texts = places.len();
        for at in places {
            self.judge_text(row, site, at, want.as_str())?;
        }
        Ok(texts)
    }

    /// How many texts the row makes.
    fn judge(&self, row: &Row) -> Result<usize, ScriptError> {
        let text = self.text.as_bytes();
        let mut texts = 0usize;
        let mut start = 0usize;
        for (index, line) in text.split_inclusive(|byte| *byte == b'\n').enumerate() {
            let end = start.wrapping_add(line.len());
            let site = Site {
                number: index.wrapping_add(1),
                before: text.get(..start).unwrap_or(&[]),
                line,
                behind: text.get(end..).unwrap_or(&[]),
            };
            if row.first <= site.number && site.number <= row.last {
                texts = texts.wrapping_add(self.judge_line(row, &site)?);
            }
            start = end;
        }
        Ok(texts)
    }

    /// How many texts the row in this line of the table makes.
    fn judge_row(&self, number: usize, line: &str) -> Result<usize, ScriptError> {
        let Some(row) = Row::read(number, line) else {
            return Err(ScriptError::line(self.alloc, number, "no row"));
        };
        match self.judge(&row) {
            Ok(0) => Err(ScriptError::line(self.alloc, number, "there is no such line")),
            judged => judged,
        }
    }
}

/// How many texts the rows of a table make.
fn judge_table(rt: &HostRuntime, table: &str) -> Result<usize, ScriptError> {
    let alloc = rt.alloc();
    let mut base = Base {
        alloc,
        name: "",
        text: String::new(alloc),
    };
    let mut texts = 0usize;
    for (index, line) in table.lines().enumerate() {
        if let Some(name) = line.strip_prefix("of ") {
            base.name = name;
            base.text = fs::read_to_string(rt, name)?;
        } else if !line.is_empty() && !line.starts_with('#') {
            texts = texts.wrapping_add(base.judge_row(index.wrapping_add(1), line)?);
        }
    }
    Ok(texts)
}

/// Makes the changes of the table of this name: how many there are, or the first row that falls short.
pub fn judged(rt: &HostRuntime, name: &str) -> Result<usize, ScriptError> {
    let table = fs::read_to_string(rt, name)?;
    judge_table(rt, table.as_str())
}
