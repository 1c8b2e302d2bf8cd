//! Facts as lines. A line has at most 120 columns: `Lines` tells a longer list on several.
ghost use Rattle.std.specs.Prelude.{◌≡◌, ◌<◌, ◌≤◌, [], ◌++◌, IfSome, OnOk, codes, length, string_bytes, take};
ghost use Rattle.std.specs.List.{flat_map};
ghost use Rattle.std.specs.Option.{option_map};
ghost use Rattle.gmp_explain.specs.Lines.{AddsLines, last_space, parts, split_of, who_parts, words_up_to};
ghost use Rattle.gmp_explain.specs.Text.{calls_text, dealers_text, fact_text, no_step_text, values_text};

use crate::fact::{Caller, Fact, Made, Role, Sink};
use gmp_base::{CNo, GNo};
use std::alloc::{AllocError, Global};

/// So many values of a channel stand on a line.
const VALUES: usize = 4;

/// So many goroutines.
const NAMES: usize = 16;

/// So many calls.
const CALLS_A_LINE: usize = 6;

/// So many bytes of an entry's line.
const WIDTH: usize = 100;

/// The place of the last space among the first n bytes.
fn last_space(line: &[u8], n: usize) -> Option<usize>
    requires { n ≤ length line.now }
    ensures value { result ≡ last_space (take n line.now) }
    ensures within { IfSome result (λ i. i < n) }
{
    let mut last = None;
    for i in 0..n {
        if line[i] == b' ' {
            last = Some(i);
        }
    }
    last
}

/// The first words of an entry's line, as many as stand on one line, and those behind them.
fn split(line: &[u8]) -> Option<(&[u8], &[u8])>
    ensures value { option_map (λ s. (s.0.now, s.1.now)) result ≡ split_of line.now }
    ensures shorter { IfSome result (λ s. length s.1.now < length line.now) }
{
    if line.len() < WIDTH {
        return None;
    }
    let end = last_space(line, WIDTH)?;
    Some((&line[..end], &line[end + 1..]))
}

/// Gathers the lines.
#[derive(Drop)]
pub struct Lines {
    pub text: String,
}

impl Lines {
    /// No line yet.
    pub fn new(alloc: Global) -> Self
        ensures { string_bytes result.text ≡ [] }
    {
        Lines {
            text: String::new(alloc),
        }
    }

    /// Adds a line.
    fn put(&mut self, fact: &Fact) -> Result<(), AllocError>
        ensures { OnOk result (string_bytes self.new.text ≡ string_bytes self.old.text ++ (fact_text fact.now ++ codes "\n")) }
    {
        let line = format!(in *self.text.allocator(); "{fact}\n")?;
        self.text.push_str(line.as_str())
    }

    /// Adds the values of a channel.
    fn put_values(&mut self, c: CNo, values: &[u64]) -> Result<(), AllocError>
        ensures { OnOk result (string_bytes self.new.text ≡ string_bytes self.old.text ++ flat_map (λ some. values_text c some ++ codes "\n") (parts 4 values.now)) }
    {
        for some in values.chunks(VALUES) {
            self.put(&Fact::Values(c, some))?;
        }
        Ok(())
    }

    /// Adds those that have this to do with a channel.
    fn put_dealers(&mut self, c: CNo, role: Role, who: &[GNo]) -> Result<(), AllocError>
        ensures { OnOk result (string_bytes self.new.text ≡ string_bytes self.old.text ++ flat_map (λ some. dealers_text c role some ++ codes "\n") (who_parts who.now)) }
    {
        if who.is_empty() {
            return self.put(&Fact::Dealers(c, role, who));
        }
        for some in who.chunks(NAMES) {
            self.put(&Fact::Dealers(c, role, some))?;
        }
        Ok(())
    }

    /// Adds how often each call was made.
    fn put_calls(&mut self, who: Caller, calls: &[Made]) -> Result<(), AllocError>
        ensures { OnOk result (string_bytes self.new.text ≡ string_bytes self.old.text ++ flat_map (λ some. calls_text who some ++ codes "\n") (parts 6 calls.now)) }
    {
        for some in calls.chunks(CALLS_A_LINE) {
            self.put(&Fact::Calls(who, some))?;
        }
        Ok(())
    }

    /// Adds the words of an entry's line.
    fn put_words(&mut self, line: &[u8]) -> Result<(), AllocError>
        ensures { OnOk result (string_bytes self.new.text ≡ string_bytes self.old.text ++ flat_map (λ some. no_step_text some ++ codes "\n") (words_up_to (length line.now) line.now)) }
    {
        let mut rest = line;
        while let Some((words, more)) = split(rest) {
            self.put(&Fact::NoStep(words))?;
            rest = more;
        }
        self.put(&Fact::NoStep(rest))
    }
}

impl Sink for Lines {
    ghost use Rattle.std.specs.Prelude.{string_bytes};
    ghost use Rattle.gmp_explain.specs.Lines.{AddsLines};

    ghost told = { λ old x new. AddsLines (string_bytes old.text) x (string_bytes new.text) };

    fn tell(&mut self, fact: &Fact) -> Result<(), AllocError> {
        match fact {
            Fact::Values(c, values) => self.put_values(*c, values),
            Fact::Dealers(c, role, who) => self.put_dealers(*c, *role, who),
            Fact::Calls(who, calls) => self.put_calls(*who, calls),
            Fact::NoStep(line) => self.put_words(line),
            other => self.put(other),
        }
    }
}
