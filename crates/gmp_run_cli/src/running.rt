//! One run of a script in threads. The script's readings of the clock are passed over: a thread's clock is the system's.

ghost use Rattle.std.specs.Prelude.{◌≡◌, ◌≢◌, ◌<◌, ◌≤◌, ℕ, true, false, All, None, Some, if◌then◌else◌, length, option_map, IfOk, IfSome};
ghost use Rattle.gmp_base.specs.declared.number.MNo.{MNo};
ghost use Rattle.gmp_script.specs.Lines.{lines, IsFirstBadLine};
ghost use Rattle.gmp_words.specs.declared.said.Said.TheVariants.{BadLine, BadLimits, InputTooLong, Mismatch, NoRun, Nothing, OutOfMemory, OutputFailed};
ghost use Rattle.gmp_words.specs.Said.{is_of_input};
ghost use Rattle.gmp_words.specs.Runs.{IsOutOfLimits, IsWithinLimits, limits_of};
ghost use Rattle.gmp_run_cli.specs.Runs.{HasMakes, WritesReport, WritesTraceOrSummary, is_of_threads};
ghost use Rattle.gmp_step_laws.specs.Refused.{HasNoMake};
ghost use Rattle.gmp_run_cli.specs.Told.{is_of_report};
ghost use Rattle.gmp_seq.specs.Fits.{AreLimits};

use crate::owning::owned;
use crate::telling::told;
use gmp_run::{Clock, Open};
use gmp_script::{Script, ScriptBody};
use gmp_words::{Ended, MAX_SCRIPT, Settings, script};
use std::alloc::{AllocError, Global};
use std::io::{Read, Write};
use std::sync::Wait;
use std::thread::Threads;

/// The number of the run: the program has one.
pub(crate) const RUN: u64 = 0;

/// The same bodies once more.
fn copied(alloc: Global, bodies: &[ScriptBody]) -> Result<Vec<ScriptBody>, AllocError>
    ensures { IfOk result (λ copies. copies.items ≡ bodies.now) }
{
    let mut copies = Vec::with_capacity(alloc, bodies.len())?;
    for body in bodies {
        copies.push(body.copied(alloc)?)?;
    }
    Ok(copies)
}

/// The bodies against which the run is to be held, if it is.
fn kept(
    alloc: Global,
    scripted: bool,
    bodies: &[ScriptBody],
) -> Result<Option<Vec<ScriptBody>>, AllocError>
    ensures { IfOk result (λ kept. option_map (λ copies. copies.items) kept ≡ (if scripted then Some bodies.now else None)) }
{
    if !scripted {
        return Ok(None);
    }
    Ok(Some(copied(alloc, bodies)?))
}

/// The bodies that were kept, lent.
fn lent(kept: &Option<Vec<ScriptBody>>) -> Option<&[ScriptBody]>
    ensures { option_map (λ bodies. bodies.now) result ≡ option_map (λ copies. copies.items) kept.now }
{
    kept.as_deref()
}

/// Runs the script's bodies in threads, and tells what came of it.
fn threaded<H: Threads + Wait + Sync, W: Write, C: Clock + Sync>(
    rt: &H,
    alloc: Global,
    settings: &Settings,
    script: Script,
    writer: &mut W,
    clock: &C,
) -> Ended
    ensures written { result.said ≡ Nothing
        → WritesTraceOrSummary settings.now script.capacities.items script.bodies.items result.status (W.contents writer.old) (W.contents writer.new) }
    ensures kinds { is_of_report result.said ≡ true }
    ensures quiet { result.said ≢ Nothing → result.said ≢ OutputFailed → result.said ≢ OutOfMemory → W.contents writer.new ≡ W.contents writer.old }
    ensures audit { result.said ≡ NoRun → (settings.now.scripted ≡ true) × AreLimits (limits_of settings.now) (length script.bodies.items) script.capacities.items }
    ensures makes { result.said ≡ NoRun → ¬ (All HasNoMake script.bodies.items) }
    ensures mismatch { (m : MNo) → result.said ≢ Mismatch m }
    ensures limits { result.said ≡ BadLimits → ¬ (AreLimits (limits_of settings.now) (length script.bodies.items) script.capacities.items) }
    ensures failed { result.said ≡ OutputFailed → AreLimits (limits_of settings.now) (length script.bodies.items) script.capacities.items }
{
    let Script {
        capacities,
        bodies,
        ..
    } = script;
    let Ok(kept) = kept(alloc, settings.scripted, &bodies) else {
        return Ended::out_of_memory();
    };
    let against = lent(&kept);
    let Ok(owned) = owned(alloc, bodies) else {
        return Ended::out_of_memory();
    };
    let ran = gmp_run::run_fair(
        rt,
        alloc,
        RUN,
        settings.limits(),
        &capacities,
        owned,
        clock,
        // Nobody is held up: the gate is for tests.
        &Open,
        settings.random,
        settings.fair,
    );
    told(alloc, settings, &capacities, against, ran, writer)
}

/// Reads a script, runs its bodies by machines in threads, audits the run, and writes its trace or its summary, as the settings say.
/// The run is one of the script's, so what no run of it has (`gmp explore`), this one hasn't, where no make is refused. Where the settings ask
/// for it, the audit shows that as well; it fails of no script without makes.
///
/// It ends with what is wrong where something is: the input, the script's first bad line, the limits, the audit, the output, or memory. The
/// script's readings of the clock are passed over. Where main waits for good among goroutines that go on for good, the run ends once the
/// history is full. That it comes back no clause says, since it waits for threads.
pub fn run<H: Threads + Wait + Sync, R: Read, W: Write, C: Clock + Sync>(
    rt: &H,
    alloc: Global,
    settings: &Settings,
    reader: &mut R,
    writer: &mut W,
    clock: &C,
) -> Ended
    ensures written { result.said ≡ Nothing
        → WritesReport settings.now (R.remaining reader.old) result.status (W.contents writer.old) (W.contents writer.new) }

    // What is wrong is said by one of the program's own texts, and nothing is written but where the output or memory fails.
    ensures kinds { is_of_threads result.said ≡ true }
    ensures quiet { result.said ≢ Nothing → result.said ≢ OutputFailed → result.said ≢ OutOfMemory → W.contents writer.new ≡ W.contents writer.old }

    // No run is said to be none of its script where nobody asks.
    ensures audit { result.said ≡ NoRun
        → (settings.now.scripted ≡ true) × IfSome (R.remaining reader.old) (λ all. IsWithinLimits (limits_of settings.now) all) }

    // Nor of a script that makes no channel: what it does is what is run.
    ensures makes { result.said ≡ NoRun → IfSome (R.remaining reader.old) HasMakes }

    // No machine is found to have another count than its entries.
    ensures mismatch { (m : MNo) → result.said ≢ Mismatch m }

    ensures first { (line : ℕ) → result.said ≡ BadLine line
        → IfSome (R.remaining reader.old) (λ all. IsFirstBadLine (lines all) line) }
    ensures too_long { result.said ≡ InputTooLong
        → IfSome (R.remaining reader.old) (λ all. MAX_SCRIPT < length all) }
    ensures short { is_of_input result.said ≡ false
        → IfSome (R.remaining reader.old) (λ all. length all ≤ MAX_SCRIPT) }
    ensures limits { result.said ≡ BadLimits
        → IfSome (R.remaining reader.old) (λ all. IsOutOfLimits (limits_of settings.now) all) }
    // The output is tried last.
    ensures failed { result.said ≡ OutputFailed
        → IfSome (R.remaining reader.old) (λ all. IsWithinLimits (limits_of settings.now) all) }
{
    match script(alloc, reader) {
        Ok(script) => threaded(rt, alloc, settings, script, writer, clock),
        Err(ended) => ended,
    }
}
