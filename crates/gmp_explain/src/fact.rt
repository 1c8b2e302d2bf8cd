//! A fact of a run (`Fact`), and who is told it (`Sink`). `Lines` has its line, `Json` its object.

ghost use Rattle.std.specs.Prelude.{◌≡◌};
ghost use Rattle.gmp_explain.specs.Text.{call_words, end_words, mode_words, need_words, role_words};

use crate::heard::{Lost, Way};
use gmp_base::{CNo, GNo, MNo, PNo, Readiness};
use gmp_check::Need;
use gmp_seq::{Mode, Offer, Status};
use gmp_trace::{CALLS, End, call_name};
use std::alloc::AllocError;

/// What goroutines have to do with a channel.
#[derive(Clone, Copy)]
pub enum Role {
    WaitsToSend,
    WaitsToReceive,
    Sent,
    Received,
    Closed,
}

/// What a goroutine alone did in a trace that another waits for.
#[derive(Clone, Copy)]
pub enum Help {
    Sent(CNo),
    Received(CNo),
    /// Sent on the channel, which is full.
    Filled(CNo),
    Readied,
}

/// Whose calls are counted.
#[derive(Clone, Copy)]
pub enum Caller {
    Machine(MNo),
    Processor(PNo),
}

/// A call's place in the table of calls, and how often it was made.
pub type Made = (usize, u64);

/// What is told of a goroutine.
#[derive(Clone, Copy)]
pub struct Told<'a> {
    pub g: GNo,
    /// What it does.
    pub status: &'a Status,
    /// The entry since which it does that. None: since before the trace's first.
    pub since: Option<u64>,
    /// Whether it waits though main ended.
    pub leak: bool,
}

/// One fact.
#[derive(Clone, Copy)]
pub enum Fact<'a> {
    /// How the run ended, after so many entries of the trace, which begins with this one where it begins at a state.
    End {
        end: End,
        entries: usize,
        first: Option<u64>,
    },
    /// What a goroutine does.
    Goroutine(Told<'a>),
    /// A case of the select in which a goroutine waits.
    Case {
        g: GNo,
        offer: &'a Offer,
    },
    /// A `ready` of the goroutine that found it not parked.
    Lost {
        g: GNo,
        lost: Lost,
    },
    /// The latest ticket of a goroutine.
    Latest(Readiness),
    /// What a channel is.
    Channel {
        c: CNo,
        closed: bool,
        room: u32,
        holds: usize,
    },
    /// The values that a channel holds, the first first.
    Values(CNo, &'a [u64]),
    /// Those that have this to do with the channel.
    Dealers(CNo, Role, &'a [GNo]),
    /// A goroutine waits for what another alone did.
    Link {
        g: GNo,
        by: GNo,
        help: Help,
    },
    /// The links are circles.
    Cycles,
    /// How many entries a machine or a processor has.
    Entries(Caller, u64),
    /// How often each call was made there.
    Calls(Caller, &'a [Made]),
    /// The longest way of a ticket.
    Longest(Way),
    /// An entry that is no step, as the trace has it.
    NoStep(&'a [u8]),
    /// What a machine does before that.
    Machine {
        m: MNo,
        mode: Mode,
        holds: Option<PNo>,
        spins: bool,
    },
    /// A reply that is allowed, as a trace has it.
    Allowed(&'a [u8]),
    /// No reply is allowed, since this is missing.
    Lacks(Need),
    /// No reply is allowed, since the run was over.
    Over,
    /// The end to which the entries lead.
    Leads(End),
}

/// Is told facts, one after another. Each says by a relation of its own what a fact makes of it.
pub trait Sink {
    ghost use Rattle.std.specs.Prelude.{OnOk};
    ghost use Rattle.gmp_explain.specs.declared.fact.Fact.{Fact};

    /// From itself before, by the fact, to itself after.
    ghost told: { Self → Fact → Self → Type 0 };

    fn tell(&mut self, fact: &Fact) -> Result<(), AllocError>
        ensures { OnOk result (told self.old fact.now self.new) };
}

/// How a run ended, in the words of a trace.
pub fn end_words(end: End) -> &'static str
    ensures { result.now ≡ end_words end }
{
    match end {
        End::MainEnded => "main ended",
        End::AllAsleep => "all asleep",
        End::BookFull => "book full",
        End::Running => "running",
    }
}

/// What is missing, in words.
pub fn need_words(need: Need) -> &'static str
    ensures { result.now ≡ need_words need }
{
    match need {
        Need::Awake => "the machine is not awake",
        Need::AwakeOrParked => "the machine is neither awake nor parked",
        Need::Processor => "the machine holds no processor",
        Need::NoProcessor => "the machine holds a processor",
        Need::Goroutine => "the machine runs no goroutine",
        Need::NoGoroutine => "the machine runs a goroutine",
        Need::BlockingCall => "the machine makes no blocking call",
        Need::NoSpin => "the machine spins",
        Need::Ticket => "the ticket is not given out",
    }
}

/// What a machine does, in words.
pub fn mode_words(mode: Mode) -> &'static str
    ensures { result.now ≡ mode_words mode }
{
    match mode {
        Mode::Awake => "awake",
        Mode::Parked => "parked",
        Mode::Calling => "in a blocking call",
    }
}

/// What goroutines have to do with a channel, in words.
pub fn role_words(role: Role) -> &'static str
    ensures { result.now ≡ role_words role }
{
    match role {
        Role::WaitsToSend => "waiting to send",
        Role::WaitsToReceive => "waiting to receive",
        Role::Sent => "sent on in this trace by",
        Role::Received => "received from in this trace by",
        Role::Closed => "closed in this trace by",
    }
}

/// A call's word.
pub fn call_words(call: usize) -> &'static [u8]
    ensures { result.now ≡ call_words call }
{
    if call < CALLS { call_name(call) } else { b"" }
}
