//! Reads a line of the clock's readings: one at least, each in nanoseconds. They need not go up.

ghost use Rattle.std.specs.Prelude.{◌≡◌, IfOk, map, option_map};
ghost use Rattle.gmp_script.specs.Lines.{clocked, values};

use crate::lines::{Line, value};
use std::alloc::{AllocError, Global};
use std::marker::Model;

/// Readings of the clock in nanoseconds, in order. A contract sees the list of them.
#[derive(Debug, Drop)]
pub struct Readings {
    /// As they stand in the line.
    list: Vec<u64>,
}

impl Model for Readings {
    ghost use Rattle.std.specs.Prelude.{ℕ, List};

    ghost Value = { List ℕ };

    ghost view = { λ r. r.list.items };
}

impl Readings {
    /// The readings, in order.
    pub fn as_slice(&self) -> &[u64]
        ensures { result.now ≡ self.now }
    {
        self.list.as_slice()
    }
}

/// The numbers that the words write, where each writes one.
fn values(alloc: Global, words: &[&[u8]]) -> Result<Option<Vec<u64>>, AllocError>
    ensures { IfOk result (λ written. option_map (λ v. v.items) written ≡ values (map (λ word. word.now) words.now)) }
{
    let mut values = Vec::new(alloc);
    for word in words {
        let Some(value) = value(word) else {
            return Ok(None);
        };
        values.push(value)?;
    }
    Ok(Some(values))
}

/// What a line says that has these words after `clock`.
pub(super) fn clocked(alloc: Global, words: &[&[u8]]) -> Result<Option<Line>, AllocError>
    ensures { IfOk result (λ said. said ≡ clocked (map (λ word. word.now) words.now)) }
{
    if words.is_empty() {
        return Ok(None);
    }
    let written = values(alloc, words)?;
    Ok(written.map(|list| Line::Clock(Readings { list })))
}
