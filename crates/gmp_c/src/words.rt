//! What C and the library say to each other, in numbers.
ghost use Rattle.std.specs.Prelude.{◌≡◌, ◌≤◌, length, map, min};
ghost use Rattle.gmp_c.specs.Words.{answer_of, ask_of, case_of, channel_of, event_words, handed_of, limits_of, outcome_number, plain_words, select_of, status_number, until_of, woke_words};

use gmp_base::{Ask, CNo, Case, Cases, GNo, Woke};
use gmp_seq::{Limits, Outcome, Status};
use gmp_stand::{Event, Handed};

/// How large a run may be.
#[repr(C)]
#[derive(Clone, Copy)]
pub struct LimitWords {
    pub procs: u8,
    pub machines: u8,
    pub channels: u16,
    pub room: u32,
    pub entries: u64,
}

/// What a goroutine asks, or what its blocking call answered, by its kind.
#[repr(C)]
#[derive(Clone, Copy)]
pub struct AskWords {
    pub kind: u32,
    pub channel: u32,
    /// A value, a number, or a moment.
    pub value: u64,
}

/// One case of a select.
#[repr(C)]
#[derive(Clone, Copy)]
pub struct CaseWords {
    pub sends: bool,
    pub channel: u32,
    pub value: u64,
}

/// What a turn came to, by its kind.
#[repr(C)]
#[derive(Clone, Copy)]
pub struct EventWords {
    pub kind: u32,
    pub goroutine: u32,
    pub woke: u32,
    pub ok: bool,
    pub value: u64,
}

impl LimitWords {
    /// The limits of these words.
    pub(crate) fn limits(&self) -> Limits
        ensures { result ≡ limits_of self.now }
    {
        Limits {
            procs: self.procs,
            machines: self.machines,
            channels: self.channels,
            entries: self.entries,
            room: self.room,
        }
    }
}

/// The channel of this number.
fn channel(number: u32) -> Option<CNo>
    ensures { result ≡ channel_of number }
{
    if number == u32::MAX {
        return None;
    }
    Some(CNo(number.min(65535) as u16))
}

/// The goroutine of this number.
fn goroutine(number: u64) -> GNo
    ensures { result ≡ record { 0 = min number 65535 } }
{
    GNo(number.min(65535) as u16)
}

/// The deadline of this moment.
fn until(moment: u64) -> Option<u64>
    ensures { result ≡ until_of moment }
{
    if moment == u64::MAX {
        return None;
    }
    Some(moment)
}

/// The case of these words.
fn case(words: &CaseWords) -> Case
    ensures { result ≡ case_of words.now }
{
    if words.sends {
        Case::Send(channel(words.channel), words.value)
    } else {
        Case::Recv(channel(words.channel))
    }
}

/// The cases of these words, of which there are few enough.
fn cases_of(words: &[CaseWords]) -> Cases
    requires { length words.now ≤ 8 }
    ensures { result ≡ map case_of words.now }
{
    let mut cases = Cases::new();
    for one in words {
        let _ = cases.push(case(one));
    }
    cases
}

/// The select of these words, unless the cases are too many.
fn select(ask: &AskWords, cases: &[CaseWords]) -> Option<Ask>
    ensures { result ≡ select_of ask.now cases.now }
{
    if cases.len() > 8 {
        return None;
    }
    Some(Ask::Select(cases_of(cases), ask.channel == 1, until(ask.value)))
}

/// The ask of these words, if they are of one.
fn asked(ask: &AskWords, cases: &[CaseWords]) -> Option<Ask>
    ensures { result ≡ ask_of ask.now cases.now }
{
    let AskWords {
        kind,
        channel: number,
        value,
    } = *ask;
    match kind {
        1 => Some(Ask::Yield),
        2 => Some(Ask::Go(goroutine(value))),
        3 => Some(Ask::Spawn),
        4 => Some(Ask::Make(value.min(4294967295) as u32)),
        5 => Some(Ask::Send(channel(number), value)),
        6 => Some(Ask::Recv(channel(number))),
        7 => Some(Ask::Close(channel(number))),
        8 => Some(Ask::Len(channel(number))),
        9 => Some(Ask::Cap(channel(number))),
        10 => select(ask, cases),
        11 => Some(Ask::Sleep(value)),
        12 => Some(Ask::Procs(value.min(255) as u8)),
        13 => Some(Ask::Park),
        14 => Some(Ask::Ready(goroutine(value))),
        15 => Some(Ask::Block),
        16 => Some(Ask::Exit),
        _ => None,
    }
}

/// What is handed in with a turn, by these words.
pub(crate) fn handed(ask: &AskWords, cases: &[CaseWords], moment: u64, word: u64) -> Handed
    ensures { result ≡ handed_of ask.now cases.now moment word }
{
    let number = if ask.kind == 17 {
        Some(ask.value)
    } else {
        None
    };
    Handed {
        ask: asked(ask, cases),
        number,
        moment,
        word,
    }
}

/// An event with nothing but these.
fn plain(kind: u32, goroutine: u32, value: u64) -> EventWords
    ensures { result ≡ plain_words kind goroutine value }
{
    EventWords {
        kind,
        goroutine,
        woke: 0,
        ok: false,
        value,
    }
}

/// What the goroutine is to be told.
fn told(goroutine: u32, woke: Woke) -> EventWords
    ensures { result ≡ woke_words goroutine woke }
{
    let (woke, ok, value) = match woke {
        Woke::First => (1, false, 0),
        Woke::Done => (2, false, 0),
        Woke::Got(v, sent) => (3, sent, v),
        Woke::Chose(case, None) => (16 + u32::from(case), false, 0),
        Woke::Chose(case, Some((v, sent))) => (512 + u32::from(case), sent, v),
        Woke::Default => (4, false, 0),
        Woke::Late => (5, false, 0),
        Woke::Number(n) => (6, false, n),
        Woke::Made(c) => (7, false, u64::from(c.0)),
        Woke::Fault(fault) => (8, false, u64::from(fault.number())),
        Woke::NoMemory => (9, false, 0),
    };
    EventWords {
        kind: 3,
        goroutine,
        woke,
        ok,
        value,
    }
}

/// The words of an event.
pub(crate) fn words_of(event: Event) -> EventWords
    ensures { result ≡ event_words event }
{
    match event {
        Event::More => plain(0, 0, 0),
        Event::Parked => plain(1, 0, 0),
        Event::Done => plain(2, 0, 0),
        Event::Resume(g, woke) => told(u32::from(g.0), woke),
        Event::Call(g) => plain(4, u32::from(g.0), 0),
        Event::Wait(moment) => plain(5, 0, moment),
        Event::Full => plain(6, 0, 0),
    }
}

/// The number of an outcome; 0 where there is none.
pub(crate) fn number_of(outcome: Option<Outcome>) -> u32
    ensures { result ≡ outcome_number outcome }
{
    match outcome {
        None => 0,
        Some(Outcome::MainEnded) => 1,
        Some(Outcome::AllAsleep) => 2,
        Some(Outcome::BookFull) => 3,
    }
}

/// The number of what a goroutine does.
pub(crate) fn number_of_status(status: &Status) -> u32
    ensures { result ≡ status_number status.now }
{
    match status {
        Status::Dormant => 0,
        Status::Ready(_, _) => 1,
        Status::Running(_) => 2,
        Status::Calling(_) => 3,
        Status::Waiting(_) => 4,
        Status::Dead => 5,
    }
}
