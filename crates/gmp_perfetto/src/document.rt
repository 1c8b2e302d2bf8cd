//! The whole text.

ghost use Rattle.std.specs.Prelude.{IfOk, string_bytes};
ghost use Rattle.gmp_perfetto.specs.Json.{IsJson};

use crate::event::Event;
use crate::sheet::Sheet;
use gmp_check::OutOfMemory;
use gmp_lanes::{Range, scene_of};
use gmp_trace::TraceView;
use gmp_words::By;
use serde::Serialize;
use serde_json::to_value;
use std::alloc::Global;

/// What is told beside the events.
#[derive(Drop, Serialize)]
struct Notes {
    time: &'static str,
}

/// The object.
#[derive(Drop, Serialize)]
#[serde(rename_all = "camelCase")]
struct Document {
    trace_events: Vec<Event>,
    other_data: Notes,
}

/// The events of these entries of a trace, whose first has this number.
fn events(
    alloc: Global,
    trace: TraceView,
    first: u64,
    range: Range,
) -> Result<Vec<Event>, OutOfMemory> {
    let Ok(goroutines) = scene_of(alloc, trace, By::Goroutine, range, &mut ()) else {
        return Err(OutOfMemory);
    };
    let Ok(machines) = scene_of(alloc, trace, By::Machine, range, &mut ()) else {
        return Err(OutOfMemory);
    };
    let mut sheet = Sheet::new(alloc, trace.entries, first, goroutines.entries());
    // A slice comes before those in it, and an arrow behind its slices: readers take events of one time in their order.
    sheet.put_lanes(trace, &goroutines)?;
    sheet.put_lanes(trace, &machines)?;
    sheet.put_entries()?;
    sheet.put_arrows(goroutines.arrows.all())?;
    sheet.put_channels(&goroutines.channels)?;
    sheet.put_moments(&goroutines.moments.list)?;
    Ok(sheet.events)
}

/// The text of these entries of a trace, whose first has this number, and a line feed. The caller has checked it: at an entry that is no step it
/// ends.
pub fn text_of(
    alloc: Global,
    trace: TraceView,
    first: u64,
    range: Range,
) -> Result<String, OutOfMemory>
    ensures { IfOk result (λ text. IsJson (string_bytes text)) }
{
    let document = Document {
        trace_events: events(alloc, trace, first, range)?,
        other_data: Notes {
            time: "an entry is a microsecond",
        },
    };
    let Ok(value) = to_value(alloc, &document) else {
        return Err(OutOfMemory);
    };
    let mut text = value.to_string(alloc)?;
    text.push_str("\n")?;
    Ok(text)
}
