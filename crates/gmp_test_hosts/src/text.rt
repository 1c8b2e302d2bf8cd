//! A run whose trace is handed out, by a core and by a thread: its text, and the file that has it.

use anyhow::Result;
use gmp_host::{
    Ask, Channel, Goroutine, Handle, Host, Nonsense, Note, Settings, Short, Time, Traced, Woke,
    WriteError,
};
use std::alloc::Global;
use std::fs;
use std::rt::Files;
use std::sync::Wait;
use std::thread::Threads;
use std::time::Clock;

/// Sends a value, which nobody receives, and waits to send another.
#[derive(Drop)]
struct Sender(Channel);

impl Goroutine for Sender {
    fn resume(&mut self, woke: Woke) -> Result<Ask, Nonsense> {
        match woke {
            Woke::First => Ok(self.0.send(7)),
            Woke::Done => Ok(self.0.send(8)),
            _ => Err(Nonsense),
        }
    }
}

/// What runs it, and where its trace goes.
#[derive(Clone, Copy, Drop)]
enum Way {
    Core,
    Thread,
    /// A thread, and to the file of this name.
    Saved(&'static str),
}

/// Its run by one machine, but where its trace went to a file.
fn run<R: Threads + Wait + Clock + Files + Sync>(
    rt: &R,
    alloc: Global,
    way: Way,
) -> Result<Option<Traced>> {
    let settings = Settings {
        procs: 1,
        machines: 1,
        channels: 1,
        entries: 16,
        ..Settings::default()
    };
    let mut host = Host::new(alloc, settings)?;
    let channel = host.channel(1)?;
    let sender = host.boxed(Sender(channel))?;
    host.push(sender)?;
    match way {
        Way::Core => Ok(Some(host.step_traced()?)),
        Way::Thread => Ok(Some(host.run_traced(rt)?)),
        Way::Saved(name) => {
            host.run_saved(rt, name)?;
            Ok(None)
        }
    }
}

/// The text of its trace, if it was handed out.
fn text(alloc: Global, run: &Option<Traced>) -> Result<Vec<u8>, WriteError> {
    let mut text = Vec::new(alloc);
    if let Some(run) = run {
        run.write(&mut text)?;
    }
    Ok(text)
}

/// Sleeps so many microseconds, notes the time, and then asks for a length until the book is full.
#[derive(Drop)]
struct Poller(Time, Note);

impl Goroutine for Poller {
    fn resume(&mut self, woke: Woke) -> Result<Ask, Nonsense> {
        match woke {
            Woke::First => Ok(Ask::Sleep(self.0.in_us(1500))),
            Woke::Done => {
                self.1.set(self.0.now());
                Ok(Ask::Len(Channel::NIL.0))
            }
            _ => Ok(Ask::Len(Channel::NIL.0)),
        }
    }
}

/// How the run of one who polls ends, and when it began to; and what a note answers to two that add.
pub fn show_poller<R: Print>(rt: &R, alloc: Global) -> Result<()> {
    let settings = Settings {
        entries: 200,
        ..Settings::default()
    };
    let mut host = Host::new(alloc, settings)?;
    let woke = host.note()?;
    let poller = host.boxed(Poller(host.time()?, woke.share()?))?;
    host.push(poller)?;
    let ended = host.step()?;
    println!(rt; "polls: {ended}, since {} ns", woke.get())?;
    let note = Note::new(alloc)?;
    let (first, second) = (note.add(3), note.add(4));
    println!(rt; "a note: {first}, {second}, {}", note.get())?;
    Ok(())
}

/// Main of a run that leaves another behind: it starts that, yields until it waits, and ends.
#[derive(Drop)]
struct Leaver(Handle, u8);

impl Goroutine for Leaver {
    fn resume(&mut self, _woke: Woke) -> Result<Ask, Nonsense> {
        self.1 = self.1.saturating_add(1);
        match self.1 {
            1 => Ok(self.0.go()),
            2 => Ok(Ask::Yield),
            _ => Ok(Ask::Exit),
        }
    }
}

/// How a run ends that main ends while another waits, and who that is.
pub fn show_left<R: Print>(rt: &R, alloc: Global) -> Result<()> {
    let settings = Settings {
        procs: 1,
        machines: 1,
        ..Settings::default()
    };
    let mut host = Host::new(alloc, settings)?;
    let (channel, handle) = (host.channel(0)?, host.reserve()?);
    let leaver = host.boxed(Leaver(handle, 0))?;
    host.push(leaver)?;
    let sender = host.boxed(Sender(channel))?;
    host.push(sender)?;
    let run = host.step_traced()?;
    print!(rt; "left behind: {}", run.ended)?;
    let told = run.at_end()?;
    for waiting in &told.waiting {
        print!(rt; "; {waiting}")?;
    }
    println!(rt; "; {} entries are somebody's", told.lately.len())?;
    Ok(())
}

/// How its run by a core ended, the text of that, whether a thread's run has the same, and whether files have.
pub fn show_text<R: Threads + Wait + Clock + Files + Alloc + Print + Sync>(
    rt: &R,
    alloc: Global,
) -> Result<()> {
    let by_core = run(rt, alloc, Way::Core)?;
    let by_thread = run(rt, alloc, Way::Thread)?;
    let (one, other) = (text(alloc, &by_core)?, text(alloc, &by_thread)?);
    let Some(by_core) = by_core else {
        return Ok(());
    };
    by_core.save(rt, "core.trace")?;
    run(rt, alloc, Way::Saved("thread.trace"))?;
    let saved = fs::read(rt, "core.trace")?;
    let saved_at_once = fs::read(rt, "thread.trace")?;
    print!(rt; "{}", str::from_utf8(&one)?)?;
    println!(rt;
        "its end: {}; the same by a thread: {}, in a file: {}, in one call: {}",
        by_core.ended,
        one.as_slice() == other.as_slice(),
        one.as_slice() == saved.as_slice(),
        one.as_slice() == saved_at_once.as_slice()
    )?;
    Ok(())
}
