//! What is told of a run in threads. It takes any report, with no condition, and judges it by its logs, and by the script where that is
//! asked for, before anything is printed: so what is said of a wrong one can be tried.

ghost use Rattle.std.specs.Prelude.{◌≡◌, ◌≢◌, ◌<◌, ◌≤◌, ◌⊎◌, IfOk, IfErr, IfSome, IsSomeAnd, OnOk, length, true};
ghost use Rattle.gmp_base.specs.declared.number.MNo.{MNo};
ghost use Rattle.gmp_words.specs.declared.said.Said.TheVariants.{BadLimits, Mismatch, NoRun, Nothing, OutOfMemory, OutputFailed};
ghost use Rattle.gmp_run_cli.specs.Told.{AllAgree, IsLeast, IsOfScript, IsPrinted, Prints, TellsEnd, is_of_print, is_of_report, is_short, said_of_unrun, trace_of};
ghost use Rattle.gmp_trace.specs.Text.{IsCounted, begins_at, content};

use gmp_base::Refusal;
use gmp_check::OpenError;
use gmp_follow::follows;
use gmp_history::audit;
use gmp_run::{Report, Unrun};
use gmp_script::ScriptBody;
use gmp_trace::{Beginning, End, Trace, summary, write};
use gmp_words::{Ended, Settings};
use std::alloc::{AllocError, Global};
use std::io::Write;

/// What is said of a run that was not begun.
pub(crate) fn unrun(why: Refusal) -> Ended
    ensures { result.said ≡ said_of_unrun why }
{
    match why {
        Refusal::BadLimits => Ended::bad_limits(),
        _ => Ended::out_of_memory(),
    }
}

/// Whether the run is one of these bodies, where it is held against any.
fn judged<T>(
    alloc: Global,
    capacities: &[u32],
    against: Option<&[ScriptBody]>,
    report: &Report<T>,
) -> Result<(), Ended>
    ensures right { OnOk result (IfSome against.entry (λ script. IsOfScript report.now.limits capacities.now script.now report.now.history.list)) }
    ensures wrong { IfErr result (λ e. e.said ≡ NoRun
        → IsSomeAnd against.entry (λ script. IsOfScript report.now.limits capacities.now script.now report.now.history.list → ⊥)) }
    ensures kinds { IfErr result (λ e. (e.said ≡ NoRun) ⊎ (e.said ≡ OutOfMemory)) }
{
    let Some(script) = against else {
        return Ok(());
    };
    match follows(alloc, report.limits, script, capacities, &report.history) {
        Ok(true) => Ok(()),
        Ok(false) | Err(OpenError::BadLimits) => Err(Ended::no_run()),
        Err(OpenError::OutOfMemory) => Err(Ended::out_of_memory()),
    }
}

/// The trace of the report.
fn trace_of<T: Drop>(
    alloc: Global,
    capacities: &[u32],
    report: Report<T>,
    bodies: u16,
) -> Result<Trace, AllocError>
    requires { bodies ≡ length report.bodies.items }
    ensures { IfOk result (λ trace. content trace ≡ trace_of capacities.now report) }
{
    let mut copied = Vec::new(alloc);
    copied.extend_from_slice(capacities)?;
    let Report {
        limits,
        history,
        outcome,
        ..
    } = report;
    Ok(Trace {
        limits,
        bodies,
        beginning: Beginning::Opening(copied),
        entries: history,
        end: End::of(outcome),
    })
}

/// Writes the trace or the summary, and says how the run ended.
fn print<W: Write>(
    alloc: Global,
    shows_trace: bool,
    trace: &Trace,
    writer: &mut W,
) -> Result<End, Ended>
    requires { IsCounted (begins_at trace.now.beginning) }
    ensures written { IfOk result (λ end. (end ≡ trace.now.end) × IsPrinted shows_trace (content trace.now) (W.contents writer.old) (W.contents writer.new)) }
    ensures kinds { IfErr result (λ e. is_of_print e.said ≡ true) }
{
    if shows_trace {
        write(alloc, trace, writer)?;
    } else {
        summary(alloc, trace, writer)?;
    }
    Ok(trace.end)
}

/// Audits a report, and writes its trace or its summary: how the run ended, or what ended the program instead.
fn reported<T: Drop, W: Write>(
    alloc: Global,
    shows_trace: bool,
    capacities: &[u32],
    against: Option<&[ScriptBody]>,
    report: Report<T>,
    writer: &mut W,
) -> Result<End, Ended>
    ensures printed { IfOk result (λ end. Prints shows_trace capacities.now report end (W.contents writer.old) (W.contents writer.new)) }
    ensures scripted { IfOk result (λ _. IfSome against.entry (λ script. IsOfScript report.limits capacities.now script.now report.history.list)) }
    ensures kinds { IfErr result (λ e. is_short e.said ≡ true) }
    ensures no_run { IfErr result (λ e. e.said ≡ NoRun
        → IsSomeAnd against.entry (λ script. IsOfScript report.limits capacities.now script.now report.history.list → ⊥)) }
    ensures limits { IfErr result (λ e. e.said ≡ BadLimits → 65535 < length report.bodies.items) }
    ensures mismatch { IfErr result (λ e. (m : MNo) → e.said ≡ Mismatch m → IsLeast report m) }
    // The output is tried last.
    ensures failed { IfErr result (λ e. e.said ≡ OutputFailed
        → AllAgree report × (length report.bodies.items ≤ 65535)
        × IfSome against.entry (λ script. IsOfScript report.limits capacities.now script.now report.history.list)) }
    ensures quiet { IfErr result (λ e. e.said ≢ OutputFailed → e.said ≢ OutOfMemory → W.contents writer.new ≡ W.contents writer.old) }
{
    // More bodies than a trace can count.
    let Ok(bodies) = u16::try_from(report.bodies.len()) else {
        return Err(Ended::bad_limits());
    };
    if let Err(mismatch) = audit(&report.history, &report.logs) {
        return Err(Ended::mismatch(mismatch.m));
    }
    judged(alloc, capacities, against, &report)?;
    let trace = trace_of(alloc, capacities, report, bodies)?;
    print(alloc, shows_trace, &trace, writer)
}

/// Audits the report of a run that was opened with these capacities, and writes its trace or its summary, as the settings say. Where bodies
/// of a script are given, the audit is too that the run is one of them.
///
/// It ends with what is wrong where something is: more bodies than a trace can count, the audit, the output, or memory. Of a run that was
/// not begun it says why.
pub fn told<T: Drop, W: Write>(
    alloc: Global,
    settings: &Settings,
    capacities: &[u32],
    against: Option<&[ScriptBody]>,
    ran: Result<Report<T>, Unrun<T>>,
    writer: &mut W,
) -> Ended
    ensures printed { IfOk ran (λ report. result.said ≡ Nothing
        → TellsEnd settings.now.trace capacities.now report result.status (W.contents writer.old) (W.contents writer.new)) }
    ensures scripted { IfOk ran (λ report. result.said ≡ Nothing
        → IfSome against.entry (λ script. IsOfScript report.limits capacities.now script.now report.history.list)) }
    ensures kinds { IfOk ran (λ report. is_of_report result.said ≡ true) }
    ensures no_run { IfOk ran (λ report. result.said ≡ NoRun
        → IsSomeAnd against.entry (λ script. IsOfScript report.limits capacities.now script.now report.history.list → ⊥)) }
    ensures limits { IfOk ran (λ report. result.said ≡ BadLimits → 65535 < length report.bodies.items) }
    ensures mismatch { IfOk ran (λ report. (m : MNo) → result.said ≡ Mismatch m → IsLeast report m) }
    // The output is tried last, once the audits are passed.
    ensures failed { IfOk ran (λ report. result.said ≡ OutputFailed
        → AllAgree report × (length report.bodies.items ≤ 65535)
        × IfSome against.entry (λ script. IsOfScript report.limits capacities.now script.now report.history.list)) }
    ensures unrun { IfErr ran (λ u. result.said ≡ said_of_unrun u.why) }

    // Where it is not begun, or falls short before it is written, nothing is written.
    ensures quiet { result.said ≢ Nothing → result.said ≢ OutputFailed → result.said ≢ OutOfMemory → W.contents writer.new ≡ W.contents writer.old }
    ensures silent { IfErr ran (λ u. W.contents writer.new ≡ W.contents writer.old) }
{
    match ran {
        Ok(report) => match reported(alloc, settings.trace, capacities, against, report, writer) {
            Ok(end) => Ended::written(end),
            Err(ended) => ended,
        },
        Err(refused) => unrun(refused.why),
    }
}
