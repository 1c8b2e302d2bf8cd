//! Where lanes are from top to bottom: one for each machine or goroutine, and below them one for each channel.

use crate::svg::digits;
use gmp_lanes::Channel;
use std::alloc::{AllocError, Global};

/// Where the lanes begin.
const TOP: u64 = 84;

/// The line of moments, where there is one.
const MOMENTS: u64 = 20;

/// A machine's or goroutine's lane: room for arrows, and then the spans.
const LANE: u64 = 56;

pub const GUTTER: u64 = 24;

pub const SPAN: u64 = 30;

/// A channel's lane: room, and then the levels.
const CHANNEL_LANE: u64 = 46;

const CHANNEL_GUTTER: u64 = 14;

pub const LEVELS: u64 = 32;

/// So many channels have a lane at most.
const CHANNELS: u64 = 32;

/// The lanes.
#[derive(Drop)]
pub struct Rows {
    /// How high the picture is.
    pub height: u64,
    /// The upper edge of the line of moments.
    pub moments: Option<u64>,
    /// The upper edge of each lane's spans.
    pub lanes: Vec<Option<u64>>,
    /// The upper edge of each channel's levels.
    channels: Vec<Option<u64>>,
    /// How many machines or goroutines and how many touched channels have no lane.
    pub hidden_lanes: u64,
    pub hidden_channels: u64,
}

/// The length of the longest name of a lane, where that of a machine's or goroutine's lane has so many letters.
pub fn longest_name(letters: u64, channels: &[Channel]) -> u64 {
    let mut longest = letters;
    for (c, channel) in channels.iter().enumerate() {
        if channel.is_touched {
            let numbers = digits(c as u64).saturating_add(digits(u64::from(channel.capacity)));
            longest = longest.max(numbers.saturating_add(15));
        }
    }
    longest
}

impl Rows {
    /// A line of moments, if there are any, a lane for each machine or goroutine that is shown, and for these channels, as far as they have
    /// one.
    pub fn new(
        alloc: Global,
        has_moments: bool,
        shown: &[bool],
        channels: &[Channel],
    ) -> Result<Self, AllocError> {
        let mut rows = Rows {
            height: TOP,
            moments: None,
            lanes: Vec::new(alloc),
            channels: Vec::new(alloc),
            hidden_lanes: 0,
            hidden_channels: 0,
        };
        if has_moments {
            rows.moments = Some(TOP);
            rows.height = TOP + MOMENTS;
        }
        rows.place_lanes(shown)?;
        rows.place_channels(channels)?;
        Ok(rows)
    }

    /// The upper edge of the spans of a machine or goroutine, where it has a lane.
    pub fn lane(&self, lane: u16) -> Option<u64> {
        *self.lanes.get(usize::from(lane))?
    }

    /// The upper edge of a channel's levels, where it has a lane.
    pub fn channel(&self, c: usize) -> Option<u64> {
        *self.channels.get(c)?
    }

    /// Gives each machine or goroutine that is shown its lane.
    fn place_lanes(&mut self, shown: &[bool]) -> Result<(), AllocError> {
        for is_shown in shown {
            if *is_shown {
                self.lanes.push(Some(self.height.saturating_add(GUTTER)))?;
                self.height = self.height.saturating_add(LANE);
            } else {
                self.lanes.push(None)?;
                self.hidden_lanes = self.hidden_lanes.saturating_add(1);
            }
        }
        self.height = self.height.saturating_add(CHANNEL_GUTTER);
        Ok(())
    }

    /// Gives each channel that is touched its lane.
    fn place_channels(&mut self, channels: &[Channel]) -> Result<(), AllocError> {
        let mut placed: u64 = 0;
        for channel in channels {
            let mut lane = None;
            if channel.is_touched && placed < CHANNELS {
                lane = Some(self.height.saturating_add(CHANNEL_GUTTER));
                self.height = self.height.saturating_add(CHANNEL_LANE);
                placed = placed.saturating_add(1);
            } else if channel.is_touched {
                self.hidden_channels = self.hidden_channels.saturating_add(1);
            }
            self.channels.push(lane)?;
        }
        self.height = self.height.saturating_add(CHANNEL_GUTTER);
        Ok(())
    }
}
