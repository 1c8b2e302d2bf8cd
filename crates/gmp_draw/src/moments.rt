//! The line of the clock's moments above the lanes.

ghost use Rattle.std.specs.Prelude.{◌≡◌, ◌+◌, ◌*◌, ◌≤◌, ◌<◌, IfNone, IfSome};
ghost use Rattle.gmp_draw.specs.Position.{capped};

use crate::columns::LETTER;
use crate::layout::Layout;
use crate::pen::Pen;
use crate::svg::{Area, digits, open_text, put_rect};
use gmp_lanes::Moment;
use std::alloc::AllocError;

/// How high the labels are, and the marks below them.
const LABELS: u64 = 12;

const MARK: u64 = 7;

/// The room behind a label.
const ROOM: u64 = 4;

/// The upper and the lower edge of the marks of a line whose upper edge is there.
pub fn mark_edges(y: u64) -> (u64, u64) {
    let upper = y.saturating_add(LABELS);
    (upper, upper.saturating_add(MARK))
}

/// Where a label of so many letters ends that begins at x, if what stands before it ends there at most.
fn label_end(taken: u64, x: u64, letters: u64) -> Option<u64>
    ensures fits { IfSome result (λ end. taken ≤ x) }
    ensures end { IfSome result (λ end. end ≡ capped (x + capped (letters * 8))) }
    ensures none { IfNone result (x < taken) }
{
    if x < taken {
        return None;
    }
    Some(x.saturating_add(letters.saturating_mul(LETTER)))
}

/// A mark for each tick, and the moment above it where no other label stands.
pub fn put_moments(pen: &mut Pen, layout: &Layout, moments: &[Moment]) -> Result<(), AllocError> {
    let Some(y) = layout.rows.moments else {
        return Ok(());
    };
    open_text(&mut pen.out, b"n", 12, y.saturating_add(LABELS))?;
    pen.put(b"moment</text>\n")?;
    let mut taken = 0;
    for moment in moments {
        let x = layout.columns.middle(moment.number);
        put_mark(pen, moment, x, y)?;
        if let Some(end) = label_end(taken, x, digits(moment.clock)) {
            open_text(&mut pen.out, b"p", x, y.saturating_add(LABELS - 2))?;
            pen.put_number(moment.clock)?;
            pen.put(b"</text>\n")?;
            taken = end.saturating_add(ROOM);
        }
    }
    Ok(())
}

/// The mark of a tick.
fn put_mark(pen: &mut Pen, moment: &Moment, x: u64, y: u64) -> Result<(), AllocError> {
    pen.put_named(b"<g><title>moment ", moment.clock)?;
    pen.put_line(Some(moment.number))?;
    pen.put(b"</title>")?;
    let mark = Area {
        x: x.saturating_sub(1),
        y: mark_edges(y).0,
        width: 2,
        height: MARK,
    };
    put_rect(&mut pen.out, b"t", mark)?;
    pen.put(b"</g>\n")
}
