//! How full each channel was (`Level`), and what else befell it (`Event`), as a walk tells it (`Channels`).

use crate::range::Range;
use gmp_base::{CNo, Case};
use gmp_seq::{Call, Reply, Taken};
use gmp_start::StartChannel;
use gmp_walk::{Deed, communication};
use std::alloc::{AllocError, Global};

/// A channel was so full for a while.
#[derive(Clone, Copy)]
pub struct Level {
    pub channel: CNo,
    /// How many values it had.
    pub values: u64,
    /// From the entry by which it had so many to the one before the next change.
    pub entries: Range,
    /// The entry by which it had so many; none where it began so.
    pub opening: Option<u64>,
}

/// What an entry did beside a change of the level.
#[derive(Clone, Copy)]
pub enum Happening {
    /// A value went from a sender to a receiver, past the buffer.
    Handed,
    /// A value went out of the buffer, and that of a sender that waited came in.
    Moved,
    Closed,
}

/// A happening, and its entry.
#[derive(Clone, Copy)]
pub struct Event {
    pub channel: CNo,
    pub number: u64,
    pub happening: Happening,
}

/// A channel as far as the walk came.
#[derive(Clone, Copy)]
pub struct Channel {
    pub capacity: u32,
    /// Whether an entry of the range is about it.
    pub is_touched: bool,
    /// How many values it has, since when.
    values: u64,
    since: u64,
    opening: Option<u64>,
}

/// The channels, in order, with what a walk told of them.
#[derive(Drop)]
pub struct Channels {
    range: Range,
    pub list: Vec<Channel>,
    pub levels: Vec<Level>,
    pub events: Vec<Event>,
}

/// What a communication does to the number of values.
enum Change {
    Up,
    Down,
    Handed,
    Relayed,
    Nothing,
}

/// The channel of a case.
fn channel_of(case: &Case) -> Option<CNo> {
    match case {
        Case::Send(c, _) | Case::Recv(c) => *c,
    }
}

/// What a communication does to the number of values of its channel.
fn change_by(taken: Taken) -> Change {
    match taken {
        Taken::Sent(None) => Change::Up,
        Taken::Got(_, true, None) => Change::Down,
        Taken::Sent(Some(_)) => Change::Handed,
        Taken::Got(_, true, Some(_)) => Change::Relayed,
        Taken::Got(_, false, _) | Taken::Failed => Change::Nothing,
    }
}

impl Channels {
    /// None yet, of these entries.
    pub fn new(alloc: Global, range: Range) -> Self {
        Channels {
            range,
            list: Vec::new(alloc),
            levels: Vec::new(alloc),
            events: Vec::new(alloc),
        }
    }

    /// The channels of an opening.
    pub fn open(&mut self, capacities: &[u32]) -> Result<(), AllocError> {
        for capacity in capacities {
            self.add(*capacity, 0, 0, None)?;
        }
        Ok(())
    }

    /// The channels of a start.
    pub fn begin(&mut self, channels: &[StartChannel]) -> Result<(), AllocError> {
        for channel in channels {
            self.add(channel.capacity, channel.items.len() as u64, 0, None)?;
        }
        Ok(())
    }

    /// Notes what an entry did to channels.
    pub fn hear(&mut self, deed: &Deed) -> Result<(), AllocError> {
        let (entry, number) = (deed.entry, deed.number);
        match (&entry.call, entry.reply) {
            (Call::Make(capacity), Reply::Channel(c)) => {
                self.add(*capacity, 0, number, Some(number))?;
                self.touch(Some(c), number);
            }
            (Call::Close(Some(c)), Reply::Closed(_)) => {
                self.touch(Some(*c), number);
                self.note(*c, number, Happening::Closed)?;
            }
            (Call::Send(c, _) | Call::Recv(c), _) => self.touch(*c, number),
            (Call::Select(cases, _, _), Reply::Waits) => {
                for case in cases.as_slice() {
                    self.touch(channel_of(case), number);
                }
            }
            _ => {}
        }
        if let Some((case, taken)) = communication(entry) {
            if let Some(c) = channel_of(&case) {
                self.touch(Some(c), number);
                self.meet(c, number, taken)?;
            }
        }
        Ok(())
    }

    /// Ends each level before this entry.
    pub fn finish(&mut self, to: u64) -> Result<(), AllocError> {
        for c in 0..self.list.len() {
            if let Ok(c) = u16::try_from(c) {
                self.end_level(CNo(c), to)?;
            }
        }
        Ok(())
    }

    /// Adds a channel.
    fn add(
        &mut self,
        capacity: u32,
        values: u64,
        since: u64,
        opening: Option<u64>,
    ) -> Result<(), AllocError> {
        self.list.push(Channel {
            capacity,
            is_touched: false,
            values,
            since,
            opening,
        })?;
        Ok(())
    }

    /// Notes that an entry is about a channel.
    fn touch(&mut self, c: Option<CNo>, number: u64) {
        if let Some(c) = c {
            if self.range.contains(number) {
                if let Some(channel) = self.list.get_mut(usize::from(c.0)) {
                    channel.is_touched = true;
                }
            }
        }
    }

    /// Notes what a communication did.
    fn meet(&mut self, c: CNo, number: u64, taken: Taken) -> Result<(), AllocError> {
        match change_by(taken) {
            Change::Up => self.shift(c, number, true),
            Change::Down => self.shift(c, number, false),
            Change::Handed => self.note(c, number, Happening::Handed),
            Change::Relayed if self.has_buffer(c) => self.note(c, number, Happening::Moved),
            Change::Relayed => self.note(c, number, Happening::Handed),
            Change::Nothing => Ok(()),
        }
    }

    /// Whether the channel has a buffer.
    fn has_buffer(&self, c: CNo) -> bool {
        match self.list.get(usize::from(c.0)) {
            Some(channel) => channel.capacity > 0,
            None => false,
        }
    }

    /// One value more or less from an entry on.
    fn shift(&mut self, c: CNo, number: u64, is_more: bool) -> Result<(), AllocError> {
        self.end_level(c, number)?;
        if let Some(channel) = self.list.get_mut(usize::from(c.0)) {
            channel.values = if is_more {
                channel.values.saturating_add(1)
            } else {
                channel.values.saturating_sub(1)
            };
            channel.since = number;
            channel.opening = Some(number);
        }
        Ok(())
    }

    /// Ends the level of a channel before an entry. It is kept if a part of it is shown.
    fn end_level(&mut self, channel: CNo, to: u64) -> Result<(), AllocError> {
        if let Some(now) = self.list.get(usize::from(channel.0)) {
            let entries = Range {
                from: now.since,
                to,
            };
            if !entries.and(self.range).is_empty() {
                self.levels.push(Level {
                    channel,
                    values: now.values,
                    entries,
                    opening: now.opening,
                })?;
            }
        }
        Ok(())
    }

    /// Notes an event, if its entry is shown.
    fn note(&mut self, channel: CNo, number: u64, happening: Happening) -> Result<(), AllocError> {
        if self.range.contains(number) {
            self.events.push(Event {
                channel,
                number,
                happening,
            })?;
        }
        Ok(())
    }
}
