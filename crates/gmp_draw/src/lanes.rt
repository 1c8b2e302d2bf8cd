//! The lanes of the machines or goroutines: arrows, and over them the spans.

ghost use Rattle.std.specs.Prelude.{◌+◌, ◌*◌, ◌≤◌, ◌↔◌, IsTrue};

use crate::colours::{bands, colour, text_on};
use crate::columns::LETTER;
use crate::layout::Layout;
use crate::moments::mark_edges;
use crate::pen::Pen;
use crate::rows::{GUTTER, SPAN};
use crate::svg::{Area, digits, open_text, put_point, put_rect};
use gmp_base::GNo;
use gmp_lanes::{Arrow, Doing, Span, Spot};
use gmp_words::By;
use std::alloc::AllocError;

/// How thick a band and a machine that spins are.
const BAND: u64 = 4;

const THIN: u64 = 8;

/// A label begins so far right of its span's edge.
const LABEL: u64 = 3;

/// The name of each lane, and a line along that of a machine.
pub fn put_lanes(pen: &mut Pen, layout: &Layout) -> Result<(), AllocError> {
    for (lane, place) in layout.rows.lanes.iter().enumerate() {
        if let Some(y) = *place {
            put_name(pen, layout, lane as u64, y.saturating_add(SPAN / 2))?;
        }
    }
    Ok(())
}

/// The name of a lane whose middle is there, and a line along that of a machine.
fn put_name(pen: &mut Pen, layout: &Layout, lane: u64, middle: u64) -> Result<(), AllocError> {
    open_text(&mut pen.out, b"n", 12, middle.saturating_add(4))?;
    if matches!(layout.by, By::Goroutine) {
        pen.put_named(b"goroutine ", lane)?;
        return pen.put(b"</text>\n");
    }
    pen.put_named(b"machine ", lane)?;
    pen.put(b"</text>\n")?;
    let line = Area {
        x: layout.columns.left,
        y: middle,
        width: layout.columns.across(layout.columns.entries).1,
        height: 1,
    };
    put_rect(&mut pen.out, b"i", line)?;
    pen.put(b"\n")
}

/// No line where a machine is parked. It goes below the arrows.
pub fn put_blanks(pen: &mut Pen, layout: &Layout, spans: &[Span]) -> Result<(), AllocError> {
    for span in spans {
        if matches!(span.doing, Doing::Parked) {
            if let Some(y) = layout.rows.lane(span.lane) {
                let (x, width) = layout.columns.across(span.entries);
                let area = Area {
                    x,
                    y,
                    width,
                    height: SPAN,
                };
                put_rect(&mut pen.out, b"b", thin(area))?;
                pen.put(b"\n")?;
            }
        }
    }
    Ok(())
}

/// The upper and the lower edge of what an arrow's end stands at: its lane's spans, or the mark of a tick that no goroutine made.
fn edges_of(layout: &Layout, spot: Spot) -> Option<(u64, u64)> {
    match spot.lane {
        Some(lane) => {
            let y = layout.rows.lane(lane)?;
            Some((y, y.saturating_add(SPAN)))
        }
        None => Some(mark_edges(layout.rows.moments?)),
    }
}

/// Arrows from who made a goroutine ready to its claim.
pub fn put_arrows(pen: &mut Pen, layout: &Layout, arrows: &[Arrow]) -> Result<(), AllocError> {
    for arrow in arrows {
        let ends = (edges_of(layout, arrow.from), edges_of(layout, arrow.to));
        if let (Some(from), Some(to)) = ends {
            put_arrow(pen, layout, arrow, from, to)?;
        }
    }
    Ok(())
}

/// One arrow, between what has these edges. It leaves a lane where the other one is, and bends in the room beside the lanes.
fn put_arrow(
    pen: &mut Pen,
    layout: &Layout,
    arrow: &Arrow,
    from: (u64, u64),
    to: (u64, u64),
) -> Result<(), AllocError> {
    let bend = GUTTER * 3 / 4;
    let (x1, x2) = (
        layout.columns.middle(arrow.from.number),
        layout.columns.middle(arrow.to.number),
    );
    let is_down = from.0 < to.0;
    let y1 = if is_down { from.1 } else { from.0 };
    let y2 = if from.0 > to.0 { to.1 } else { to.0 };
    let (c1, c2) = if is_down {
        (y1.saturating_add(bend), y2.saturating_sub(bend))
    } else if from.0 > to.0 {
        (y1.saturating_sub(bend), y2.saturating_add(bend))
    } else {
        (y1.saturating_sub(bend), y2.saturating_sub(bend))
    };
    pen.put(b"<path class=\"a\" d=\"M")?;
    put_point(&mut pen.out, x1, y1)?;
    pen.put(b"C")?;
    put_point(&mut pen.out, x1, c1)?;
    put_point(&mut pen.out, x2, c2)?;
    put_point(&mut pen.out, x2, y2)?;
    pen.put_named(b"\"><title>goroutine ", u64::from(arrow.g.0))?;
    pen.put_named(b": ready by entry ", arrow.from.number)?;
    pen.put_named(b", claimed by ", arrow.to.number)?;
    pen.put(b"</title></path>\n")
}

/// The spans.
pub fn put_spans(pen: &mut Pen, layout: &Layout, spans: &[Span]) -> Result<(), AllocError> {
    for span in spans {
        if let Some(y) = layout.rows.lane(span.lane) {
            let (x, width) = layout.columns.across(span.entries);
            let area = Area {
                x,
                y,
                width,
                height: SPAN,
            };
            pen.put(b"<g>")?;
            put_title(pen, layout.by, span)?;
            put_span(pen, layout.by, span, area)?;
            pen.put(b"</g>\n")?;
        }
    }
    Ok(())
}

/// What a span is, its entries, and the lines of its first entry and of the goroutine's first call.
fn put_title(pen: &mut Pen, by: By, span: &Span) -> Result<(), AllocError> {
    pen.put(b"<title>")?;
    if matches!(by, By::Goroutine) {
        pen.put_named(b"goroutine ", u64::from(span.lane))?;
        pen.put(b": ")?;
    }
    let words = pen.words(by, span.doing)?;
    pen.put(words.as_bytes())?;
    if matches!(span.doing, Doing::Stuck(_)) {
        pen.put(b", to the end")?;
    }
    let first = span.opening.map(|_| span.entries.from);
    pen.put_entries(first, span.entries.to)?;
    pen.put_line(span.opening)?;
    if span.call != span.opening {
        pen.put_line(span.call)?;
    }
    pen.put(b"</title>")
}

/// The shape of a span.
fn put_span(pen: &mut Pen, by: By, span: &Span, area: Area) -> Result<(), AllocError> {
    match span.doing {
        Doing::Runs(g, _) => {
            put_coloured(pen, g, area)?;
            put_call(pen, by, g, span, text_on(g), area)
        }
        Doing::Calls(g, _) => {
            put_coloured(pen, g, area)?;
            put_rect(&mut pen.out, b"h", area)?;
            put_call(pen, by, g, span, b"o", area)
        }
        Doing::Spins => put_rect(&mut pen.out, b"s", thin(area)),
        Doing::Parked => put_rect(&mut pen.out, b"q", area),
        Doing::Ready => put_rect(&mut pen.out, b"y", thin(area)),
        Doing::Waits(_) => put_waiting(pen, b"u", span.doing, area),
        Doing::Stuck(_) => put_waiting(pen, b"z", span.doing, area),
    }
}

/// A goroutine that waits, and for what, where that fits.
fn put_waiting(pen: &mut Pen, class: &[u8], doing: Doing, area: Area) -> Result<(), AllocError> {
    put_rect(&mut pen.out, class, area)?;
    let words = pen.words(By::Goroutine, doing)?;
    if fits(words.len() as u64, area.width) {
        open_label(pen, b"g", area)?;
        pen.put(words.as_bytes())?;
        pen.put(b"</text>")?;
    }
    Ok(())
}

/// The middle of an area.
fn thin(area: Area) -> Area {
    Area {
        y: area.y.saturating_add((SPAN - THIN) / 2),
        height: THIN,
        ..area
    }
}

/// An area in the colour of a goroutine, with its bands.
fn put_coloured(pen: &mut Pen, g: GNo, area: Area) -> Result<(), AllocError> {
    put_rect(&mut pen.out, colour(g), area)?;
    let (upper, lower) = bands(g);
    if upper {
        let band = Area {
            height: BAND,
            ..area
        };
        put_rect(&mut pen.out, b"e", band)?;
    }
    if lower {
        let band = Area {
            y: area.y.saturating_add(SPAN - BAND),
            height: BAND,
            ..area
        };
        put_rect(&mut pen.out, b"e", band)?;
    }
    Ok(())
}

/// Whether so many letters fit a span, behind the room before them.
fn fits(letters: u64, width: u64) -> bool
    ensures { IsTrue result ↔ (3 + 8 * letters ≤ width) }
{
    LABEL <= width && letters <= (width - LABEL) / LETTER
}

/// Where the label of a span begins.
fn open_label(pen: &mut Pen, class: &[u8], area: Area) -> Result<(), AllocError> {
    let y = area.y.saturating_add(SPAN / 2 + 4);
    open_text(&mut pen.out, class, area.x.saturating_add(LABEL), y)
}

/// The word of a goroutine's first call, with its number on a machine's lane, as far as they fit.
fn put_call(
    pen: &mut Pen,
    by: By,
    g: GNo,
    span: &Span,
    class: &[u8],
    area: Area,
) -> Result<(), AllocError> {
    let word = match span.call {
        Some(number) => pen.call_of(number).unwrap_or(b""),
        None => b"",
    };
    match by {
        By::Machine => put_label(pen, u64::from(g.0), word, class, area),
        By::Goroutine if fits(word.len() as u64, area.width) => {
            open_label(pen, class, area)?;
            pen.put(word)?;
            pen.put(b"</text>")
        }
        By::Goroutine => Ok(()),
    }
}

/// A number and a word, as far as they fit.
fn put_label(
    pen: &mut Pen,
    g: u64,
    word: &[u8],
    class: &[u8],
    area: Area,
) -> Result<(), AllocError> {
    let short = digits(g);
    let long = short.saturating_add(1).saturating_add(word.len() as u64);
    if !fits(short, area.width) {
        return Ok(());
    }
    open_label(pen, class, area)?;
    pen.put_number(g)?;
    if !word.is_empty() && fits(long, area.width) {
        pen.put(b" ")?;
        pen.put(word)?;
    }
    pen.put(b"</text>")
}
