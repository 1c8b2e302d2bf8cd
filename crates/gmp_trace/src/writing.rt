//! Writes the text of a trace to a writer, and gathers some 64 KiB before each write: the memory that it takes doesn't grow with the trace.
//! Not `Display` for each type, nor the whole text in memory: pushes onto one buffer are quicker, and the buffer is cleared.

ghost use Rattle.std.specs.Prelude.{◌≡◌, [], OnOk, IfErr};
ghost use Rattle.std.specs.Io.KnownBytes.{Appends};
ghost use Rattle.gmp_trace.specs.declared.writing.WriteError.TheVariants.{Device, OutOfMemory};
ghost use Rattle.gmp_trace.specs.Text.{text, begins_at, begins_of, content, content_of, AppendsStart, IsCounted};

use crate::line::{LONGEST, put_beginning, put_end, put_entry_by};
use crate::trace::{Trace, TraceView};
use std::alloc::{AllocError, Global};
use std::io::Write;
use thiserror::Error;

/// Why a text was not written whole.
#[derive(Clone, Copy, Debug, PartialEq, Eq, Error)]
pub enum WriteError {
    /// The writer failed. How much went out is not known.
    #[error("the trace could not be written")]
    Device,
    /// What went out is the beginning of the text.
    #[error("out of memory")]
    OutOfMemory,
}

impl From<AllocError> for WriteError {
    ghost from_gives = { λ _ e. e ≡ OutOfMemory };

    fn from(_error: AllocError) -> WriteError {
        WriteError::OutOfMemory
    }
}

/// As many bytes are gathered before they go out.
const GATHERED: usize = 65_536;

/// Sends what is gathered, and clears it; its room stays.
fn send<W: Write>(out: &mut Vec<u8>, writer: &mut W) -> Result<(), WriteError>
    ensures sent { OnOk result (Appends (W.contents writer.old) (W.contents writer.new) out.old.items) }
    ensures empty { OnOk result (out.new.items ≡ []) }
    ensures failed { IfErr result (λ e. e ≡ Device) }
{
    if writer.write_all(out.as_slice()).is_err() {
        return Err(WriteError::Device);
    }
    out.clear();
    Ok(())
}

/// Writes the text of a trace.
///
/// It takes room for some 64 KiB once, and of a start for its lines, and needs no more for a trace whose limits are in range, however
/// long it is. `Device` comes only where the writer failed, and `OutOfMemory` only where memory was refused.
pub fn write<W: Write>(alloc: Global, trace: &Trace, writer: &mut W) -> Result<(), WriteError>
    requires counted { IsCounted (begins_at trace.now.beginning) }
    ensures written { OnOk result (Appends (W.contents writer.old) (W.contents writer.new) (text (content trace.now))) }
    ensures begun { IfErr result (λ e. e ≡ OutOfMemory → AppendsStart (W.contents writer.old) (W.contents writer.new) (text (content trace.now))) }
{
    write_view(alloc, trace.view(), writer)
}

/// Writes the same text of a trace that lies elsewhere.
pub fn write_view<W: Write>(
    alloc: Global,
    trace: TraceView,
    writer: &mut W,
) -> Result<(), WriteError>
    requires counted { IsCounted (begins_of trace.beginning) }
    ensures written { OnOk result (Appends (W.contents writer.old) (W.contents writer.new) (text (content_of trace.entry))) }
    ensures begun { IfErr result (λ e. e ≡ OutOfMemory → AppendsStart (W.contents writer.old) (W.contents writer.new) (text (content_of trace.entry))) }
{
    let mut out = Vec::with_capacity(alloc, GATHERED + LONGEST)?;
    put_beginning(&mut out, &trace.limits, trace.bodies, trace.beginning)?;
    let mut line = [0; LONGEST];
    let first = trace.beginning.first_number();
    for (i, entry) in trace.entries.iter().enumerate() {
        put_entry_by(&mut out, &mut line, first + i as u64, &entry)?;
        if out.len() >= GATHERED {
            send(&mut out, writer)?;
        }
    }
    put_end(&mut out, trace.end)?;
    send(&mut out, writer)?;
    Ok(())
}
