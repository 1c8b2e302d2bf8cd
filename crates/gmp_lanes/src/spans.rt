//! What is done on each lane for a while (`Span`), and which span is open (`Spans`).

ghost use Rattle.std.specs.Prelude.{◌≡◌, OnOk};

use crate::range::Range;
use gmp_base::{GNo, MNo};
use gmp_seq::{Call, Kind, Offer};
use std::alloc::{AllocError, Global};

/// What a goroutine waits for: as much of a `Wait` as its words say.
#[derive(Clone, Copy)]
pub struct Reason {
    pub kind: Kind,
    /// The first of its offers.
    pub offer: Option<Offer>,
    pub until: Option<u64>,
}

/// What is done for a while.
#[derive(Clone, Copy)]
pub enum Doing {
    /// The machine runs the goroutine.
    Runs(GNo, MNo),
    /// The machine makes a blocking call of the goroutine.
    Calls(GNo, MNo),
    /// A machine looks for work at other processors.
    Spins,
    /// A machine has nothing to do.
    Parked,
    /// A goroutine waits for a machine.
    Ready,
    Waits(Reason),
    /// It waits, and the run is over.
    Stuck(Reason),
}

/// A while of a lane.
#[derive(Clone, Copy)]
pub struct Span {
    /// The number of the machine or goroutine.
    pub lane: u16,
    pub doing: Doing,
    /// From its first entry to the one behind its last.
    pub entries: Range,
    /// The entry by which it began; none where the trace begins in it.
    pub opening: Option<u64>,
    /// The first entry in it that the goroutine asked for.
    pub call: Option<u64>,
}

/// The spans so far. Of each lane one is open at most.
#[derive(Drop)]
pub struct Spans {
    pub range: Range,
    pub current: Vec<Option<Span>>,
    pub closed: Vec<Span>,
}

/// Whether a goroutine asks for this call, and not its machine.
pub fn is_asked(call: &Call) -> bool {
    match call {
        Call::Go(_) | Call::Spawn | Call::Yield | Call::Exit | Call::Make(_) => true,
        Call::Send(_, _) | Call::Recv(_) | Call::Close(_) | Call::Len(_) | Call::Cap(_) => true,
        Call::Select(_, _, _) | Call::Sleep(_) | Call::Procs(_) | Call::Gopark => true,
        Call::Ready(_) => true,
        _ => false,
    }
}

impl Span {
    /// One that begins before this entry.
    pub fn new(lane: u16, doing: Doing, from: u64, opening: Option<u64>) -> Self
        ensures lane { result.lane ≡ lane }
        ensures doing { result.doing ≡ doing }
    {
        let call = match doing {
            Doing::Calls(_, _) => opening,
            _ => None,
        };
        Span {
            lane,
            doing,
            entries: Range { from, to: from },
            opening,
            call,
        }
    }

    /// It as the last of its lane. Who waits then is stuck where the run is over.
    fn last(&self, is_over: bool) -> Span {
        match self.doing {
            Doing::Waits(reason) if is_over => Span {
                doing: Doing::Stuck(reason),
                ..*self
            },
            _ => *self,
        }
    }
}

impl Spans {
    /// None yet, of these entries.
    pub fn new(alloc: Global, range: Range) -> Self {
        Spans {
            range,
            current: Vec::new(alloc),
            closed: Vec::new(alloc),
        }
    }

    /// Notes that the goroutine of the lane's span asked for an entry.
    pub fn ask(&mut self, lane: u16, number: u64) {
        if let Some(Some(span)) = self.current.get_mut(usize::from(lane)) {
            if span.call.is_none() {
                span.call = Some(number);
            }
        }
    }

    /// Keeps a span that ends before this entry, if a part of it is shown.
    pub fn keep(&mut self, span: Option<Span>, to: u64) -> Result<(), AllocError>
        ensures current { OnOk result (self.new.current.items ≡ self.old.current.items) }
    {
        if let Some(mut span) = span {
            span.entries.to = to;
            if !span.entries.and(self.range).is_empty() {
                self.closed.push(span)?;
            }
        }
        Ok(())
    }

    /// Ends what is open, before this entry.
    pub fn finish(&mut self, to: u64, is_over: bool) -> Result<(), AllocError> {
        for lane in 0..self.current.len() {
            if let Some(Some(span)) = self.current.get(lane) {
                let last = span.last(is_over);
                self.keep(Some(last), to)?;
            }
        }
        Ok(())
    }
}
