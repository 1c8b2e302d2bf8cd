//! What stands around the lanes: the looks of all classes, the line that says what is drawn, the legend, and the numbers of the entries.

ghost use Rattle.std.specs.Prelude.{◌≤◌};

use crate::columns::LETTER;
use crate::layout::Layout;
use crate::pen::Pen;
use crate::svg::{Area, digits, open_text, put_rect};
use gmp_trace::End;
use gmp_words::By;
use std::alloc::AllocError;

/// The looks of all classes, the hatching and the arrow's head.
static LOOKS: [&[u8]; 34] = [
    b"<style>\n",
    b"text{font:12px monospace;fill:#000}\n",
    b".g{font-size:11px}\n",
    b".p{font-size:11px;fill:#555}\n",
    b".w{fill:#fff}\n",
    b".o{paint-order:stroke;stroke:#fff;stroke-width:4px;stroke-linejoin:round}\n",
    b".c0{fill:#e69f00}\n",
    b".c1{fill:#56b4e9}\n",
    b".c2{fill:#009e73}\n",
    b".c3{fill:#f0e442}\n",
    b".c4{fill:#d55e00}\n",
    b".c5{fill:#cc79a7}\n",
    b".c6{fill:#0072b2}\n",
    b".c7{fill:#bbb}\n",
    b".c0,.c1,.c2,.c3,.c4,.c5,.c6,.c7{stroke:#fff}\n",
    b".e,.s{fill:#333}\n",
    b".h{fill:url(#hatch)}\n",
    b".b{fill:#fff}\n",
    b".q{fill:none;pointer-events:all}\n",
    b".i{fill:#999}\n",
    b".r{fill:#eee}\n",
    b".f{fill:#f4f4f4}\n",
    b".l{fill:#9fb0c6}\n",
    b".t{fill:#000}\n",
    b".x{stroke:#000;stroke-width:2;fill:none}\n",
    b".a{stroke:#333;fill:none;marker-end:url(#head)}\n",
    b"</style>\n<defs>\n",
    b"<pattern id=\"hatch\" width=\"7\" height=\"7\" ",
    b"patternUnits=\"userSpaceOnUse\" patternTransform=\"rotate(45)\">",
    b"<rect width=\"3\" height=\"7\" fill=\"#fff\"/></pattern>\n",
    b"<marker id=\"head\" viewBox=\"0 0 6 6\" refX=\"6\" refY=\"3\" ",
    b"markerWidth=\"6\" markerHeight=\"6\" orient=\"auto\">",
    b"<path d=\"M0 0L6 3L0 6z\" fill=\"#333\"/></marker>\n",
    b"</defs>\n",
];

/// What goroutines' lanes have besides.
static LOOKS_OF_GOROUTINES: &[u8] = b"<style>\n\
.y{fill:#999}\n\
.u{fill:#edf1f7;stroke:#fff}\n\
.z{fill:#ffb3b3;stroke:#c00000}\n\
</style>\n";

/// What each look of goroutines' lanes means, in one line.
static LEGEND_OF_GOROUTINES: [&[u8]; 20] = [
    b"<rect class=\"c3\" x=\"12\" y=\"34\" width=\"46\" height=\"18\"/>",
    b"<text x=\"16\" y=\"47\">send</text>",
    b"<text class=\"g\" x=\"64\" y=\"47\">runs, its first call</text>\n",
    b"<rect class=\"c0\" x=\"216\" y=\"34\" width=\"30\" height=\"18\"/>",
    b"<rect class=\"h\" x=\"216\" y=\"34\" width=\"30\" height=\"18\"/>",
    b"<text class=\"g\" x=\"252\" y=\"47\">blocking call</text>\n",
    b"<rect class=\"y\" x=\"360\" y=\"39\" width=\"30\" height=\"8\"/>",
    b"<text class=\"g\" x=\"396\" y=\"47\">ready</text>\n",
    b"<rect class=\"u\" x=\"450\" y=\"34\" width=\"30\" height=\"18\"/>",
    b"<text class=\"g\" x=\"486\" y=\"47\">waits</text>\n",
    b"<rect class=\"z\" x=\"540\" y=\"34\" width=\"30\" height=\"18\"/>",
    b"<text class=\"g\" x=\"576\" y=\"47\">waits to the end</text>\n",
    b"<path class=\"a\" d=\"M710 43L742 43\"/>",
    b"<text class=\"g\" x=\"750\" y=\"47\">made ready, claimed</text>\n",
    b"<rect class=\"f\" x=\"900\" y=\"34\" width=\"30\" height=\"18\"/><rect class=\"l\" x=\"900\" y=\"43\" width=\"30\" height=\"9\"/>",
    b"<text class=\"g\" x=\"936\" y=\"47\">fill level</text>\n",
    b"<rect class=\"t\" x=\"1032\" y=\"34\" width=\"2\" height=\"18\"/>",
    b"<text class=\"g\" x=\"1040\" y=\"47\">value passed</text>\n",
    b"<path class=\"x\" d=\"M1148 38L1158 48M1158 38L1148 48\"/>",
    b"<text class=\"g\" x=\"1164\" y=\"47\">closed</text>\n",
];

/// What each look means, in one line.
static LEGEND: [&[u8]; 19] = [
    b"<rect class=\"c3\" x=\"12\" y=\"34\" width=\"60\" height=\"18\"/>",
    b"<text x=\"16\" y=\"47\">3 send</text>",
    b"<text class=\"g\" x=\"78\" y=\"47\">goroutine 3 runs, its first call</text>\n",
    b"<rect class=\"c0\" x=\"316\" y=\"34\" width=\"30\" height=\"18\"/>",
    b"<rect class=\"h\" x=\"316\" y=\"34\" width=\"30\" height=\"18\"/>",
    b"<text class=\"g\" x=\"352\" y=\"47\">blocking call</text>\n",
    b"<rect class=\"s\" x=\"460\" y=\"39\" width=\"30\" height=\"8\"/>",
    b"<text class=\"g\" x=\"496\" y=\"47\">spins</text>\n",
    b"<rect class=\"i\" x=\"550\" y=\"43\" width=\"30\" height=\"1\"/>",
    b"<text class=\"g\" x=\"586\" y=\"47\">awake; no line: parked</text>\n",
    b"<path class=\"a\" d=\"M754 43L786 43\"/>",
    b"<text class=\"g\" x=\"794\" y=\"47\">made ready, claimed</text>\n",
    b"<rect class=\"f\" x=\"940\" y=\"34\" width=\"30\" height=\"18\"/>",
    b"<rect class=\"l\" x=\"940\" y=\"43\" width=\"30\" height=\"9\"/>",
    b"<text class=\"g\" x=\"976\" y=\"47\">fill level</text>\n",
    b"<rect class=\"t\" x=\"1064\" y=\"34\" width=\"2\" height=\"18\"/>",
    b"<text class=\"g\" x=\"1072\" y=\"47\">value passed</text>\n",
    b"<path class=\"x\" d=\"M1168 38L1178 48M1178 38L1168 48\"/>",
    b"<text class=\"g\" x=\"1184\" y=\"47\">closed</text>\n",
];

/// The head of the picture, and a white ground.
pub fn open_picture(pen: &mut Pen, layout: &Layout) -> Result<(), AllocError> {
    pen.put_named(
        b"<svg xmlns=\"http://www.w3.org/2000/svg\" width=\"",
        layout.columns.width,
    )?;
    pen.put_named(b"\" height=\"", layout.rows.height)?;
    pen.put_named(b"\" viewBox=\"0 0 ", layout.columns.width)?;
    pen.put_named(b" ", layout.rows.height)?;
    pen.put(b"\">\n")?;
    for look in &LOOKS {
        pen.put(look)?;
    }
    if matches!(layout.by, By::Goroutine) {
        pen.put(LOOKS_OF_GOROUTINES)?;
    }
    let ground = Area {
        x: 0,
        y: 0,
        width: layout.columns.width,
        height: layout.rows.height,
    };
    put_rect(&mut pen.out, b"b", ground)?;
    pen.put(b"\n")
}

/// The legend.
pub fn put_legend(pen: &mut Pen, by: By) -> Result<(), AllocError> {
    let pieces: &[&[u8]] = match by {
        By::Machine => &LEGEND,
        By::Goroutine => &LEGEND_OF_GOROUTINES,
    };
    for piece in pieces {
        pen.put(piece)?;
    }
    Ok(())
}

/// Which entries of how many are drawn, how the run ended, and what has no lane.
pub fn put_heading(
    pen: &mut Pen,
    layout: &Layout,
    all: u64,
    first: u64,
    end: End,
) -> Result<(), AllocError> {
    open_text(&mut pen.out, b"k", 12, 22)?;
    if layout.columns.entries.is_empty() {
        pen.put_named(b"no entry of ", all)?;
    } else {
        pen.put_named(b"entries ", layout.columns.entries.from)?;
        pen.put_named(b" to ", layout.columns.entries.to.saturating_sub(1))?;
        pen.put_named(b" of ", all)?;
    }
    if first > 0 {
        pen.put_named(b", from ", first)?;
        pen.put(b" on")?;
    }
    pen.put(match end {
        End::MainEnded => b"; main ended",
        End::AllAsleep => b"; all asleep",
        End::BookFull => b"; book full",
        End::Running => b"; running",
    })?;
    put_hidden(pen, layout)?;
    pen.put(b"</text>\n")
}

/// What has no lane.
fn put_hidden(pen: &mut Pen, layout: &Layout) -> Result<(), AllocError> {
    if layout.rows.hidden_lanes > 0 {
        pen.put(match layout.by {
            By::Machine => b"; machines without an entry here, left out: ",
            By::Goroutine => b"; goroutines not started here or done, left out: ",
        })?;
        pen.put_number(layout.rows.hidden_lanes)?;
    }
    if layout.rows.hidden_channels > 0 {
        pen.put_named(
            b"; further channels, left out: ",
            layout.rows.hidden_channels,
        )?;
    }
    Ok(())
}

/// The least round number of entries that are as wide as the number of one, and room.
fn round_step(column: u64, last: u64) -> u64
    ensures { 1 ≤ result }
{
    let wanted = digits(last).saturating_mul(LETTER).saturating_add(12);
    for step in [1, 2, 5, 10, 20] {
        if column.saturating_mul(step) >= wanted {
            return step;
        }
    }
    50
}

/// The numbers of entries, each with a line down.
pub fn put_axis(pen: &mut Pen, layout: &Layout) -> Result<(), AllocError> {
    let step = round_step(layout.columns.column, layout.columns.entries.to);
    let first = layout
        .columns
        .entries
        .from
        .div_ceil(step)
        .saturating_mul(step);
    let steps = layout.columns.entries.count() / step;
    for k in 0..steps.saturating_add(1) {
        let number = first.saturating_add(k.saturating_mul(step));
        if layout.columns.entries.contains(number) {
            let x = layout.columns.x(number);
            open_text(&mut pen.out, b"p", x.saturating_add(3), 74)?;
            pen.put_number(number)?;
            pen.put(b"</text>")?;
            let line = Area {
                x,
                y: 64,
                width: 1,
                height: layout.rows.height.saturating_sub(72),
            };
            put_rect(&mut pen.out, b"r", line)?;
            pen.put(b"\n")?;
        }
    }
    Ok(())
}
