//! The whole picture.

ghost use Rattle.std.specs.Prelude.{◌≢◌, IfErr};
ghost use Rattle.gmp_trace.specs.Text.{content_of};
ghost use Rattle.gmp_trace.specs.declared.bad.Why.TheVariants.{OutOfMemory};
ghost use Rattle.gmp_check.specs.Checked.{IsFirstBad};

use crate::columns::Columns;
use crate::frame::{open_picture, put_axis, put_heading, put_legend};
use crate::lanes::{put_arrows, put_blanks, put_lanes, put_spans};
use crate::layout::Layout;
use crate::levels::put_channels;
use crate::moments::put_moments;
use crate::pen::Pen;
use crate::rows::{Rows, longest_name};
use crate::svg::digits;
use gmp_lanes::{Range, Scene, scene_of};
use gmp_trace::{Bad, TraceView, Watch, Why};
use gmp_words::By;
use std::alloc::{AllocError, Global};

/// How many letters the longest name of a machine's or goroutine's lane has.
fn letters(by: By, bodies: u16) -> u64 {
    match by {
        By::Machine => 11,
        By::Goroutine => digits(u64::from(bodies)).saturating_add(10),
    }
}

/// Writes all that is drawn.
fn put_all(
    pen: &mut Pen,
    layout: &Layout,
    trace: TraceView,
    scene: &Scene,
) -> Result<(), AllocError> {
    let spans = &scene.spans.closed;
    open_picture(pen, layout)?;
    put_heading(
        pen,
        layout,
        trace.entries.len() as u64,
        scene.told.from,
        trace.end,
    )?;
    put_legend(pen, layout.by)?;
    put_axis(pen, layout)?;
    put_moments(pen, layout, &scene.moments.list)?;
    put_lanes(pen, layout)?;
    put_blanks(pen, layout, spans)?;
    put_arrows(pen, layout, scene.arrows.all())?;
    put_spans(pen, layout, spans)?;
    put_channels(pen, layout, &scene.channels)?;
    pen.put(b"</svg>\n")
}

/// The SVG of what a walk told.
fn drawn(alloc: Global, trace: TraceView, scene: &Scene) -> Result<Vec<u8>, AllocError> {
    let by = scene.by;
    let has_moments = matches!(by, By::Goroutine) && !scene.moments.list.is_empty();
    let list = &scene.channels.list;
    let layout = Layout {
        by,
        columns: Columns::new(
            scene.entries(),
            longest_name(letters(by, trace.bodies), list),
        ),
        rows: Rows::new(alloc, has_moments, &scene.shown(alloc, trace)?, list)?,
    };
    let mut pen = Pen::new(alloc, trace.entries, scene.told.from);
    put_all(&mut pen, &layout, trace, scene)?;
    Ok(pen.finish())
}

/// A picture of these entries of a trace, as SVG, with a lane for each machine or goroutine. The caller has checked the trace: at an entry that is no step it ends.
///
/// An error is that of a trace at whose beginning no run may begin, or of memory.
pub fn picture<W: Watch>(
    alloc: Global,
    trace: TraceView,
    by: By,
    range: Range,
    watch: &mut W,
) -> Result<Vec<u8>, Bad>
    ensures wrong { IfErr result (λ bad. bad.why ≢ OutOfMemory → IsFirstBad (content_of trace.entry) bad) }
{
    let scene = scene_of(alloc, trace, by, range, watch)?;
    match drawn(alloc, trace, &scene) {
        Ok(svg) => Ok(svg),
        Err(_) => Err(Bad {
            line: 0,
            why: Why::OutOfMemory,
        }),
    }
}
