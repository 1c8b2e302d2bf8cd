//! One run of a script: read, played, written. A script with limits out of range is refused once all its lines are read.

ghost use Rattle.std.specs.Prelude.{◌≡◌, ◌<◌, ◌≤◌, ℕ, true, false, length, IfSome};
ghost use Rattle.gmp_words.specs.declared.said.Said.TheVariants.{BadLine, InputTooLong, BadLimits, OutputFailed};
ghost use Rattle.gmp_script.specs.Lines.{lines, IsFirstBadLine};
ghost use Rattle.gmp_seq.specs.Fits.{AreLimits};
ghost use Rattle.gmp_words.specs.Said.{is_before_writing, is_of_input, is_of_run, is_of_step};
ghost use Rattle.gmp_words.specs.Runs.{limits_of, IsOutOfLimits, IsWithinLimits};
ghost use Rattle.gmp_cli.specs.Step.{WritesRun, WritesTrace};

use crate::clock::Clock;
use gmp_base::Refusal;
use gmp_core::Player;
use gmp_script::Script;
use gmp_trace::{BeginningView, End, TraceView, write_view};
use gmp_words::{Ended, MAX_SCRIPT, Said, Settings, script};
use std::alloc::Global;
use std::io::{Read, Write};

/// Plays the script, and writes the trace.
fn run<W: Write>(alloc: Global, settings: &Settings, script: Script, writer: &mut W) -> Ended
    ensures traced { result.said ≡ Said.Nothing
        → WritesRun settings.now script.capacities.items script.readings.items script.bodies.items result.status (W.contents writer.old) (W.contents writer.new) }
    ensures kinds { is_of_run result.said ≡ true }
    ensures quiet { is_before_writing result.said ≡ true → W.contents writer.new ≡ W.contents writer.old }
    ensures limits { result.said ≡ BadLimits → ¬ (AreLimits (limits_of settings.now) (length script.bodies.items) script.capacities.items) }
    ensures failed { result.said ≡ OutputFailed → AreLimits (limits_of settings.now) (length script.bodies.items) script.capacities.items }
{
    let Script {
        capacities,
        bodies,
        readings,
    } = script;
    let limits = settings.limits();
    let count = bodies.len();
    let clock = Clock::of(readings);
    let mut player = match Player::open(alloc, limits, &capacities, bodies, clock, settings.fair) {
        Ok(player) => player,
        Err(Refusal::BadLimits) => return Ended::bad_limits(),
        Err(_) => return Ended::out_of_memory(),
    };
    player.play(settings.acts, settings.word);
    let end = End::of(player.outcome());
    // The history is written where it lies: a copy would take as much memory again.
    let trace = TraceView {
        limits,
        bodies: count as u16,
        beginning: BeginningView::Opening(&capacities),
        entries: player.history(),
        end,
    };
    let written = write_view(alloc, trace, writer);
    player.close();
    match written {
        Ok(()) => Ended::written(end),
        Err(error) => Ended::from(error),
    }
}

/// Reads a script, plays it by several machines over one core, and writes the trace.
///
/// It ends with what is wrong where something is: the input, the script's first bad line, the limits, the output, or memory.
pub fn step<R: Read, W: Write>(
    alloc: Global,
    settings: &Settings,
    reader: &mut R,
    writer: &mut W,
) -> Ended
    ensures traced { result.said ≡ Said.Nothing
        → WritesTrace settings.now (R.remaining reader.old) result.status (W.contents writer.old) (W.contents writer.new) }

    // What is wrong is said by one of the program's own texts, and nothing is written but where the output or memory fails.
    ensures kinds { is_of_step result.said ≡ true }
    ensures quiet { is_before_writing result.said ≡ true → W.contents writer.new ≡ W.contents writer.old }

    ensures first { (line : ℕ) → result.said ≡ BadLine line
        → IfSome (R.remaining reader.old) (λ all. IsFirstBadLine (lines all) line) }
    ensures too_long { result.said ≡ InputTooLong
        → IfSome (R.remaining reader.old) (λ all. MAX_SCRIPT < length all) }
    ensures short { is_of_input result.said ≡ false
        → IfSome (R.remaining reader.old) (λ all. length all ≤ MAX_SCRIPT) }
    ensures limits { result.said ≡ BadLimits
        → IfSome (R.remaining reader.old) (λ all. IsOutOfLimits (limits_of settings.now) all) }
    // The output is tried last.
    ensures failed { result.said ≡ OutputFailed
        → IfSome (R.remaining reader.old) (λ all. IsWithinLimits (limits_of settings.now) all) }
{
    match script(alloc, reader) {
        Ok(script) => run(alloc, settings, script, writer),
        Err(ended) => ended,
    }
}
