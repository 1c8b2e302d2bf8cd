//! A whole trace: how it begins (`Beginning`), its entries, and how it ended (`End`). `Version` is the number in line 1.
//! `TraceView` and `BeginningView` are the same of a run that lies elsewhere: a history of a million entries is written where it lies, and
//! not copied.

ghost use Rattle.std.specs.Prelude.{◌≡◌};
ghost use Rattle.gmp_trace.specs.Pieces.{is_whole};
ghost use Rattle.gmp_trace.specs.Text.{IsCounted, begins_at, begins_of, content, content_of, end_of, first_number, suits};

use gmp_history::History;
use gmp_seq::{Limits, Outcome};
use gmp_start::Start;

/// How a run ended. `Running` is no outcome: the run was left before it had one.
#[derive(Clone, Copy, Debug, PartialEq, Eq)]
pub enum End {
    MainEnded,
    AllAsleep,
    BookFull,
    /// It had not ended.
    Running,
}

impl End {
    /// The end of a run with this outcome.
    pub fn of(outcome: Option<Outcome>) -> End
        ensures { result ≡ end_of outcome }
    {
        match outcome {
            Some(Outcome::MainEnded) => End::MainEnded,
            Some(Outcome::AllAsleep) => End::AllAsleep,
            Some(Outcome::BookFull) => End::BookFull,
            None => End::Running,
        }
    }
}

/// The version of a text.
#[derive(Clone, Copy, Debug, PartialEq, Eq)]
pub enum Version {
    /// It begins at the opening.
    One,
    /// It begins at a state.
    Two,
    /// So it does, and it is of a run whose history is handed out in segments.
    Four,
}

/// Whether the history has room for all entries, and so is kept whole.
pub fn is_whole(limits: &Limits) -> bool
    ensures { result ≡ is_whole limits.now }
{
    limits.entries == u64::from(limits.room)
}

impl Version {
    /// Whether a text of the version may have these limits.
    pub fn suits(self, limits: &Limits) -> bool
        ensures { result ≡ suits self limits.now }
    {
        match self {
            Version::One | Version::Two => is_whole(limits),
            Version::Four => !is_whole(limits),
        }
    }
}

/// How a run begins.
#[derive(Debug, Drop)]
pub enum Beginning {
    /// At the opening, with channels of these capacities.
    Opening(Vec<u32>),
    /// At a state that another run led to.
    Start(Start),
}

/// The same of a run that lies elsewhere.
#[derive(Clone, Copy, Debug)]
pub enum BeginningView<'a> {
    Opening(&'a [u32]),
    Start(&'a Start),
}

impl Beginning {
    /// The beginning where it lies.
    pub fn view(&self) -> BeginningView<'_>
        ensures { begins_of result ≡ begins_at self.now }
    {
        match self {
            Beginning::Opening(capacities) => BeginningView::Opening(capacities),
            Beginning::Start(start) => BeginningView::Start(start),
        }
    }
}

impl BeginningView<'_> {
    /// The number of the first entry: so many were made before.
    pub fn first_number(&self) -> u64
        requires { IsCounted (begins_of self.now) }
        ensures { result ≡ first_number (begins_of self.now) }
    {
        match self {
            BeginningView::Opening(_) => 0,
            BeginningView::Start(start) => start.made(),
        }
    }
}

/// A run, and how it begins.
#[derive(Debug, Drop)]
pub struct Trace {
    pub limits: Limits,
    /// How many goroutines there are.
    pub bodies: u16,
    pub beginning: Beginning,
    /// The calls in order, each with its reply.
    pub entries: History,
    pub end: End,
}

/// The same of a run that lies elsewhere.
#[derive(Clone, Copy, Debug)]
pub struct TraceView<'a> {
    pub limits: Limits,
    /// How many goroutines there are.
    pub bodies: u16,
    pub beginning: BeginningView<'a>,
    /// The calls in order, each with its reply.
    pub entries: &'a History,
    pub end: End,
}

impl Trace {
    /// The trace where it lies.
    pub fn view(&self) -> TraceView<'_>
        ensures { content_of result ≡ content self.now }
    {
        TraceView {
            limits: self.limits,
            bodies: self.bodies,
            beginning: self.beginning.view(),
            entries: &self.entries,
            end: self.end,
        }
    }
}
