//! The events of what gmp_lanes tells.

use crate::event::{CHANNELS, Event, GOROUTINES, Label, Lines, MACHINES, Values};
use gmp_history::History;
use gmp_lanes::{Arrow, Channels, Doing, Moment, Range, Scene, Span, Spot};
use gmp_trace::{TraceView, call_name, call_place, put_entry};
use gmp_words::By;
use std::alloc::{AllocError, Global};

/// The events so far, and the entries that they cite.
#[derive(Drop)]
pub struct Sheet<'a> {
    alloc: Global,
    pub events: Vec<Event>,
    history: &'a History,
    /// The number of its first entry.
    first: u64,
    /// Those that are shown.
    entries: Range,
}

/// The text of bytes that are ASCII.
fn text(alloc: Global, bytes: &[u8]) -> Result<String, AllocError> {
    String::from_str(alloc, str::from_utf8(bytes).unwrap_or(""))
}

/// The process of lanes.
fn process_of(by: By) -> u64 {
    match by {
        By::Machine => MACHINES,
        By::Goroutine => GOROUTINES,
    }
}

impl<'a> Sheet<'a> {
    /// No event yet, of what these entries of a history did, whose first has this number.
    pub fn new(alloc: Global, history: &'a History, first: u64, entries: Range) -> Self {
        Sheet {
            alloc,
            events: Vec::new(alloc),
            history,
            first,
            entries,
        }
    }

    /// The names of the process and the threads of lanes, and their slices.
    pub fn put_lanes(&mut self, trace: TraceView, scene: &Scene) -> Result<(), AllocError> {
        let pid = process_of(scene.by);
        let (process, thread) = match scene.by {
            By::Machine => ("machines", "machine"),
            By::Goroutine => ("goroutines", "goroutine"),
        };
        self.put_process(pid, process)?;
        let shown = scene.shown(self.alloc, trace)?;
        for (lane, is_shown) in shown.iter().enumerate() {
            if *is_shown {
                self.put_thread(pid, thread, lane as u64)?;
            }
        }
        for span in &scene.spans.closed {
            if shown.get(usize::from(span.lane)) == Some(&true) {
                self.put_span(scene.by, span)?;
            }
        }
        Ok(())
    }

    /// The name of a process.
    fn put_process(&mut self, pid: u64, name: &str) -> Result<(), AllocError> {
        let name = String::from_str(self.alloc, name)?;
        self.put_told("process_name", pid, 0, Label::Name { name })
    }

    /// The name of a thread, and its place: they are in the order of their numbers.
    fn put_thread(&mut self, pid: u64, of: &str, tid: u64) -> Result<(), AllocError> {
        let name = format!(in self.alloc; "{of} {tid}")?;
        self.put_told("thread_name", pid, tid, Label::Name { name })?;
        let place = Label::Place { sort_index: tid };
        self.put_told("thread_sort_index", pid, tid, place)
    }

    fn put_told(
        &mut self,
        name: &'static str,
        pid: u64,
        tid: u64,
        args: Label,
    ) -> Result<(), AllocError> {
        self.events.push(Event::Told {
            name,
            pid,
            tid,
            ts: 0,
            args,
        })?;
        Ok(())
    }

    /// The line of an entry as the trace has it, where there is one.
    fn line(&self, number: Option<u64>) -> Result<Option<String>, AllocError> {
        let Some(number) = number else {
            return Ok(None);
        };
        let Some(entry) = self.history.get(number.wrapping_sub(self.first) as usize) else {
            return Ok(None);
        };
        let mut line = Vec::new(self.alloc);
        put_entry(&mut line, number, &entry)?;
        line.pop();
        Ok(Some(text(self.alloc, &line)?))
    }

    /// The lines of a span.
    fn lines(&self, span: &Span) -> Result<Lines, AllocError> {
        let call = if span.call == span.opening {
            None
        } else {
            span.call
        };
        Ok(Lines {
            entry: self.line(span.opening)?,
            call: self.line(call)?,
        })
    }

    /// The slice of a span, as far as it is shown.
    fn put_span(&mut self, by: By, span: &Span) -> Result<(), AllocError> {
        let entries = span.entries.and(self.entries);
        let mut name = match by {
            By::Machine => span.doing.of_machine(self.alloc)?,
            By::Goroutine => span.doing.of_goroutine(self.alloc)?,
        };
        let mut cname = None;
        if let Doing::Stuck(_) = span.doing {
            name.push_str(", to the end")?;
            cname = Some("terrible");
        }
        let args = self.lines(span)?;
        self.events.push(Event::Slice {
            name,
            cat: "lane",
            pid: process_of(by),
            tid: u64::from(span.lane),
            ts: entries.from,
            dur: entries.count(),
            cname,
            args,
        })?;
        Ok(())
    }

    /// A slice for each entry, at its machine.
    pub fn put_entries(&mut self) -> Result<(), AllocError> {
        for number in self.entries.from..self.entries.to {
            if let Some(entry) = self.history.get(number.wrapping_sub(self.first) as usize) {
                let name = text(self.alloc, call_name(call_place(&entry.call)))?;
                let args = Lines {
                    entry: self.line(Some(number))?,
                    call: None,
                };
                self.events.push(Event::Slice {
                    name,
                    cat: "entry",
                    pid: MACHINES,
                    tid: u64::from(entry.m.0),
                    ts: number,
                    dur: 1,
                    cname: None,
                    args,
                })?;
            }
        }
        Ok(())
    }

    /// The thread of an entry's machine.
    fn machine_of(&self, number: u64) -> u64 {
        match self.history.get(number.wrapping_sub(self.first) as usize) {
            Some(entry) => u64::from(entry.m.0),
            None => 0,
        }
    }

    /// Where an end of an arrow is: at its goroutine, or, where its machine ran nobody, at the entry's own slice.
    fn place_of(&self, spot: Spot) -> (u64, u64) {
        match spot.lane {
            Some(g) => (GOROUTINES, u64::from(g)),
            None => (MACHINES, self.machine_of(spot.number)),
        }
    }

    /// The arrows, between goroutines.
    pub fn put_arrows(&mut self, arrows: &[Arrow]) -> Result<(), AllocError> {
        for (id, arrow) in (0..=u64::MAX).zip(arrows.iter()) {
            let (pid, tid) = self.place_of(arrow.from);
            self.events.push(Event::Leaves {
                name: "ready",
                cat: "ready",
                id,
                pid,
                tid,
                ts: arrow.from.number,
            })?;
            let (pid, tid) = self.place_of(arrow.to);
            self.events.push(Event::Comes {
                name: "ready",
                cat: "ready",
                id,
                pid,
                tid,
                ts: arrow.to.number,
                bp: "e",
            })?;
        }
        Ok(())
    }

    /// How many values each channel holds that an entry is about.
    pub fn put_channels(&mut self, channels: &Channels) -> Result<(), AllocError> {
        if channels.list.iter().any(|channel| channel.is_touched) {
            self.put_process(CHANNELS, "channels")?;
        }
        for level in &channels.levels {
            let c = level.channel.0;
            if let Some(channel) = channels.list.get(usize::from(c)) {
                if channel.is_touched {
                    let name = format!(in self.alloc; "channel {c}")?;
                    self.events.push(Event::Holds {
                        name,
                        pid: CHANNELS,
                        ts: level.entries.and(self.entries).from,
                        args: Values {
                            values: level.values,
                        },
                    })?;
                }
            }
        }
        Ok(())
    }

    /// The clock's moments, each at its tick's machine.
    pub fn put_moments(&mut self, moments: &[Moment]) -> Result<(), AllocError> {
        for moment in moments {
            let name = format!(in self.alloc; "moment {}", moment.clock)?;
            let tid = self.machine_of(moment.number);
            self.events.push(Event::Moment {
                name,
                pid: MACHINES,
                tid,
                ts: moment.number,
                s: "g",
            })?;
        }
        Ok(())
    }
}
