//! The lanes of the channels: how full each is, and what else befalls it.

ghost use Rattle.std.specs.Prelude.{◌≤◌};

use crate::layout::Layout;
use crate::pen::Pen;
use crate::rows::LEVELS;
use crate::svg::{Area, open_text, put_point, put_rect};
use gmp_lanes::{Channel, Channels, Event, Happening, Level};
use std::alloc::AllocError;

/// The lanes of the channels.
pub fn put_channels(pen: &mut Pen, layout: &Layout, channels: &Channels) -> Result<(), AllocError> {
    for (c, channel) in channels.list.iter().enumerate() {
        if let Some(y) = layout.rows.channel(c) {
            put_lane(pen, layout, c as u64, channel, y)?;
        }
    }
    for level in &channels.levels {
        let c = usize::from(level.channel.0);
        if let (Some(y), Some(channel)) = (layout.rows.channel(c), channels.list.get(c)) {
            if level.values > 0 {
                put_level(pen, layout, level, u64::from(channel.capacity), y)?;
            }
        }
    }
    for event in &channels.events {
        if let Some(y) = layout.rows.channel(usize::from(event.channel.0)) {
            put_event(pen, layout, event, y)?;
        }
    }
    Ok(())
}

/// The name of a lane, and its frame.
fn put_lane(
    pen: &mut Pen,
    layout: &Layout,
    c: u64,
    channel: &Channel,
    y: u64,
) -> Result<(), AllocError> {
    open_text(&mut pen.out, b"n", 12, y.saturating_add(LEVELS / 2 + 4))?;
    pen.put_named(b"channel ", c)?;
    pen.put_named(b", room ", u64::from(channel.capacity))?;
    pen.put(b"</text>\n")?;
    let frame = Area {
        x: layout.columns.left,
        y,
        width: layout.columns.across(layout.columns.entries).1,
        height: LEVELS,
    };
    put_rect(&mut pen.out, b"f", frame)?;
    pen.put(b"\n")
}

/// How high so many values stand, of so many that there is room for.
fn height_of(values: u64, capacity: u64) -> u64
    ensures least { 1 ≤ result }
    ensures most { result ≤ 32 }
{
    if capacity == 0 {
        return LEVELS;
    }
    (values.saturating_mul(LEVELS) / capacity).clamp(1, LEVELS)
}

/// One level.
fn put_level(
    pen: &mut Pen,
    layout: &Layout,
    level: &Level,
    capacity: u64,
    y: u64,
) -> Result<(), AllocError> {
    let (x, width) = layout.columns.across(level.entries);
    let height = height_of(level.values, capacity);
    pen.put_named(b"<g><title>", level.values)?;
    pen.put_named(b" of ", capacity)?;
    pen.put_entries(level.opening, level.entries.to)?;
    pen.put_line(level.opening)?;
    pen.put(b"</title>")?;
    let area = Area {
        x,
        y: y.saturating_add(LEVELS.saturating_sub(height)),
        width,
        height,
    };
    put_rect(&mut pen.out, b"l", area)?;
    pen.put(b"</g>\n")
}

/// A bar where a value passes from a sender to a receiver or to a full buffer, and a cross where the channel is closed.
fn put_event(pen: &mut Pen, layout: &Layout, event: &Event, y: u64) -> Result<(), AllocError> {
    let x = layout.columns.middle(event.number);
    pen.put(b"<g><title>")?;
    match event.happening {
        Happening::Handed => pen.put(b"handed over")?,
        Happening::Moved => pen.put(b"one out, one in")?,
        Happening::Closed => pen.put(b"closed")?,
    }
    pen.put_line(Some(event.number))?;
    pen.put(b"</title>")?;
    match event.happening {
        Happening::Handed | Happening::Moved => {
            let bar = Area {
                x: x.saturating_sub(1),
                y,
                width: 2,
                height: LEVELS,
            };
            put_rect(&mut pen.out, b"t", bar)?;
        }
        Happening::Closed => put_cross(pen, x, y.saturating_add(LEVELS / 2))?,
    }
    pen.put(b"</g>\n")
}

/// A cross around a point.
fn put_cross(pen: &mut Pen, x: u64, y: u64) -> Result<(), AllocError> {
    let (left, right) = (x.saturating_sub(5), x.saturating_add(5));
    let (upper, lower) = (y.saturating_sub(5), y.saturating_add(5));
    pen.put(b"<path class=\"x\" d=\"M")?;
    put_point(&mut pen.out, left, upper)?;
    pen.put(b"L")?;
    put_point(&mut pen.out, right, lower)?;
    pen.put(b"M")?;
    put_point(&mut pen.out, right, upper)?;
    pen.put(b"L")?;
    put_point(&mut pen.out, left, lower)?;
    pen.put(b"\"/>")
}
