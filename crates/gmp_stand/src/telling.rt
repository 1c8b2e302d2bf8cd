//! The text of a run that is kept whole.
ghost use Rattle.std.specs.Prelude.{◌≡◌, IfOk};
ghost use Rattle.gmp_trace.specs.Text.{end_of, text};
ghost use Rattle.gmp_trace.specs.Text.Begins.{AtOpening};
ghost use Rattle.gmp_stand.specs.declared.telling.TextError.TheVariants.{OutOfMemory};

use gmp_history::History;
use gmp_seq::{Limits, Outcome};
use gmp_trace::{BeginningView, End, TraceView, write_view};
use std::alloc::{AllocError, Global};
use thiserror::Error;

/// Why a run's text is not told.
#[derive(Clone, Copy, Debug, PartialEq, Eq, Error)]
pub enum TextError {
    /// Entries were handed out, or the history has less room than there may be entries.
    #[error("the history is not kept whole")]
    NotWhole,
    #[error("out of memory")]
    OutOfMemory,
}

impl From<AllocError> for TextError {
    ghost from_gives = { λ _ e. e ≡ OutOfMemory };

    fn from(_error: AllocError) -> TextError {
        TextError::OutOfMemory
    }
}

/// The trace's text of a run from the opening, with these entries and this outcome. It takes memory for the text twice at most.
pub(crate) fn text_of(
    alloc: Global,
    limits: Limits,
    goroutines: u16,
    capacities: &[u32],
    history: &History,
    outcome: Option<Outcome>,
) -> Result<Vec<u8>, AllocError>
    ensures { IfOk result (λ t. t.items ≡ text (record { limits = limits; bodies = goroutines; begins = AtOpening capacities.now; entries = history.now.list; end = end_of outcome })) }
{
    let mut out = Vec::new(alloc);
    let trace = TraceView {
        limits,
        bodies: goroutines,
        beginning: BeginningView::Opening(capacities),
        entries: history,
        end: End::of(outcome),
    };
    match write_view(alloc, trace, &mut out) {
        Ok(()) => Ok(out),
        Err(_) => Err(AllocError),
    }
}
