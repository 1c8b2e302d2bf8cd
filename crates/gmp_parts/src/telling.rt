//! How a run in parts is told.
ghost use Rattle.std.specs.Prelude.{◌≡◌, ◌++◌, ◌∷◌, [], codes, IfErr, OnOk};
ghost use Rattle.std.specs.Io.KnownBytes.{Appends};
ghost use Rattle.gmp_trace.specs.declared.writing.WriteError.TheVariants.{OutOfMemory};
ghost use Rattle.gmp_trace.specs.Summary.{entries_line, outcome_line};
ghost use Rattle.gmp_parts.specs.Parts.{parts_line};

use gmp_trace::{End, WriteError};
use std::alloc::Global;
use std::io::Write;

/// The words of an end, as the summary has them.
#[tactic(auto, unfolding(gmp_trace::specs::Summary::outcome_line))]
fn words_of(end: End) -> &'static str
    ensures { codes "outcome: " ++ (result.now ++ 10 ∷ []) ≡ outcome_line end }
{
    match end {
        End::MainEnded => "main ended",
        End::AllAsleep => "all asleep",
        End::BookFull => "book full",
        End::Running => "running",
    }
}

/// Writes the three lines by which `gmp join` tells a run in parts: how it ends, how many entries it has, and how many parts they are.
pub fn tell<W: Write>(
    alloc: Global,
    end: End,
    entries: u64,
    parts: u64,
    writer: &mut W,
) -> Result<(), WriteError>
    ensures written { OnOk result (Appends (W.contents writer.old) (W.contents writer.new) (outcome_line end ++ entries_line entries ++ parts_line parts)) }
    ensures unsent { IfErr result (λ e. e ≡ OutOfMemory → W.contents writer.new ≡ W.contents writer.old) }
{
    let words = words_of(end);
    let text = format!(in alloc; "outcome: {words}\nentries: {entries}\nparts: {parts}\n")?;
    if writer.write_all(text.as_bytes()).is_err() {
        return Err(WriteError::Device);
    }
    Ok(())
}
