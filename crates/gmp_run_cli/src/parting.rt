//! What is told of a run whose history went out in parts. It takes any report and any writer of parts, and judges the run by them.

ghost use Rattle.std.specs.Prelude.{◌≡◌, ◌≢◌, ◌^◌, ◌≤◌, IfErr, IfNone, IfOk, IfSome, IsErrAnd, true};
ghost use Rattle.gmp_run.specs.Counts.{all_calls};
ghost use Rattle.gmp_trace.specs.declared.trace.End.{End};
ghost use Rattle.gmp_words.specs.declared.said.Said.TheVariants.{NoRun, Nothing, OutputFailed};
ghost use Rattle.gmp_words.specs.Runs.{status_of};
ghost use Rattle.gmp_run_cli.specs.Segments.{IsNoRun, TellsParts, is_of_end_in_parts, is_of_parts, said_of_part};
ghost use Rattle.gmp_run_cli.specs.Told.{said_of_unrun};

use crate::telling::unrun;
use gmp_history::PassLog;
use gmp_parts::{Outlet, PartError, tell};
use gmp_pieces::Pieces;
use gmp_run::{Report, Unrun};
use gmp_trace::End;
use gmp_words::Ended;
use std::alloc::Global;
use std::io::Write;

/// How it ends where a part could not be written.
fn unwritten(error: PartError) -> Ended
    ensures { result.said ≡ said_of_part error }
{
    match error {
        PartError::NoStep => Ended::no_run(),
        PartError::OutOfMemory => Ended::out_of_memory(),
        PartError::Device => Ended::output_failed(),
    }
}

/// How many calls the logs say; none where they are more than a `u64` counts.
fn calls_of(logs: &[PassLog]) -> Option<u64>
    ensures some { IfSome result (λ calls. calls ≡ all_calls logs.now) }
    ensures none { IfNone result (2 ^ 64 ≤ all_calls logs.now) }
{
    let mut calls = 0u64;
    for log in logs {
        calls = calls.checked_add(log.calls)?;
    }
    Some(calls)
}

/// Writes what the run left as the last part, audits the run, and writes the lines by which `gmp join` tells it: how the run ended, or what
/// ended the program instead.
///
/// The audit is that the run is over, and that there are as many entries as the machines made calls.
fn ended<T, O: Outlet, W: Write>(
    alloc: Global,
    report: &Report<T>,
    pieces: &mut Pieces<O>,
    writer: &mut W,
) -> Result<End, Ended>
    ensures told { IfOk result (λ end. TellsParts O.contents pieces.old.0 report.now pieces.new.0 end (W.contents writer.old) (W.contents writer.new)) }
    ensures kinds { IfErr result (λ e. is_of_parts e.said ≡ true) }
    ensures no_run { IfErr result (λ e. e.said ≡ NoRun → IsNoRun O.contents pieces.old.0 report.now pieces.new.0) }
    ensures stopped { IfSome pieces.old.0.failed (λ error. IsErrAnd result (λ e. e.said ≡ said_of_part error)) }
    ensures quiet { IfErr result (λ e. e.said ≢ OutputFailed → W.contents writer.new ≡ W.contents writer.old) }
{
    if let Err(error) = pieces.finish(&report.history) {
        return Err(unwritten(error));
    }
    let parts = &pieces.0;
    let end = parts.end();
    if end == End::Running || calls_of(&report.logs) != Some(parts.entries()) {
        return Err(Ended::no_run());
    }
    tell(alloc, end, parts.entries(), parts.parts(), writer)?;
    Ok(end)
}

/// The same of a run that may not have been begun: of such a one it says why.
pub(crate) fn told_in_parts<T: Drop, O: Outlet, W: Write>(
    alloc: Global,
    ran: Result<Report<T>, Unrun<T>>,
    pieces: &mut Pieces<O>,
    writer: &mut W,
) -> Ended
    ensures told { IfOk ran (λ report. result.said ≡ Nothing
        → (end : End) × TellsParts O.contents pieces.old.0 report pieces.new.0 end (W.contents writer.old) (W.contents writer.new) × result.status ≡ status_of end) }
    ensures kinds { IfOk ran (λ report. is_of_end_in_parts result.said ≡ true) }
    ensures no_run { IfOk ran (λ report. result.said ≡ NoRun → IsNoRun O.contents pieces.old.0 report pieces.new.0) }
    ensures stopped { IfOk ran (λ report. IfSome pieces.old.0.failed (λ error. result.said ≡ said_of_part error)) }
    ensures quiet { result.said ≢ Nothing → result.said ≢ OutputFailed → W.contents writer.new ≡ W.contents writer.old }
    ensures unrun { IfErr ran (λ u. result.said ≡ said_of_unrun u.why) }
    ensures unsent { IfErr ran (λ u. pieces.new ≡ pieces.old) }
{
    match ran {
        Ok(report) => match ended(alloc, &report, pieces, writer) {
            Ok(end) => Ended::written(end),
            Err(ended) => ended,
        },
        Err(refused) => unrun(refused.why),
    }
}
