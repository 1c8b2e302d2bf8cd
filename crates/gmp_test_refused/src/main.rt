//! Runs the commands of `gmp` on small inputs where one allocation may be refused, and says how each ended (`.ci/refusals` has each
//! allocation refused in turn): docs/HACKING.md.
//!
//! Standard input has a number. Memory is taken and given back so often before the first command, so that of two numbers one after the
//! other the greater has an allocation refused that comes one earlier. The toolchain refuses the Nth, with N fixed when the program is
//! built: so the program's own allocations move, and one build does for all.
#![tactic(auto)]

mod judging;
mod texts;

use crate::judging::{Way, judged};
use crate::texts::{
    FACTS, FOUND, PART, PARTS, PARTS_TOLD, PICTURE, SCRIPT, STUCK, SUMMARY, TRACE, UNMADE,
};
use gmp_check_cli::{check, cut};
use gmp_cli::step;
use gmp_draw::draw;
use gmp_explain::explain;
use gmp_explore_cli::explore;
use gmp_join_cli::join;
use gmp_run::Clock;
use gmp_run_cli::run;
use gmp_words::{Ended, Settings, Task, arguments, command_line};
use std::alloc::{AllocError, Global};
use std::io;
use std::io::{Read, Write};
use std::process::ExitCode;
use std::sync::Wait;
use std::thread::Threads;

/// The command line of a run that prints its trace; the other commands have no use for the flag.
const LINE: &str = "gmp run --trace --entries 16";

/// The command line of one that is held against its script.
const SCRIPTED: &str = "gmp run --trace --scripted --entries 16";

/// The command line of an exploration that tells what it finds.
const WORDS: &str = "gmp explore";

/// The entry from which `cut` prints.
const AT: u64 = 4;

/// What a command writes has no more bytes.
const ROOM: usize = 8192;

/// A clock that stands still.
struct Stopped;

impl Clock for Stopped {
    fn now(&self) -> u64 {
        0
    }

    fn rest(&self, _most: u64) {}
}

/// The number that the input has.
fn number(rt: &HostRuntime) -> io::Result<u32> {
    let mut digits = [0u8; 16];
    let count = rt.reader().read(&mut digits)?;
    let text = str::from_utf8(digits.get(..count).unwrap_or(&[])).unwrap_or("");
    match text.trim_end().parse() {
        Ok(number) => Ok(number),
        Err(_) => Err(io::Error::from(io::ErrorKind::InvalidData)),
    }
}

/// Takes memory so often, and gives it back.
fn burn(alloc: Global, times: u32) -> Result<(), AllocError> {
    for _ in 0..times {
        let _taken = Box::new(alloc, 0u8)?;
    }
    Ok(())
}

/// What the words of a command line say, which are parted by single spaces.
fn settings_of(alloc: Global, line: &str) -> Result<Settings, Ended> {
    let mut words = Vec::new(alloc);
    for word in line.split(' ') {
        let word = String::from_str(alloc, word)?;
        if words.push(word).is_err() {
            return Err(Ended::out_of_memory());
        }
    }
    command_line(alloc, &words).map(|line| line.settings)
}

/// A command, with what it writes, and what it writes where a make is refused memory: nothing where that is then no run of the script.
#[derive(Clone, Copy)]
struct Command {
    name: &'static str,
    task: Task,
    /// Whether the run is held against its script.
    scripted: bool,
    /// The status where nothing is refused.
    status: u8,
    whole: &'static str,
    unmade: &'static str,
}

const COMMANDS: [Command; 9] = [
    Command {
        name: "step",
        task: Task::Step,
        scripted: false,
        status: 0,
        whole: TRACE,
        unmade: UNMADE,
    },
    Command {
        name: "run",
        task: Task::Run,
        scripted: false,
        status: 0,
        whole: TRACE,
        unmade: UNMADE,
    },
    Command {
        name: "scripted",
        task: Task::Run,
        scripted: true,
        status: 0,
        whole: TRACE,
        unmade: "",
    },
    Command {
        name: "check",
        task: Task::Check,
        scripted: false,
        status: 0,
        whole: SUMMARY,
        unmade: SUMMARY,
    },
    Command {
        name: "join",
        task: Task::Join,
        scripted: false,
        status: 0,
        whole: PARTS_TOLD,
        unmade: PARTS_TOLD,
    },
    Command {
        name: "cut",
        task: Task::Cut,
        scripted: false,
        status: 0,
        whole: PART,
        unmade: PART,
    },
    Command {
        name: "explain",
        task: Task::Explain,
        scripted: false,
        status: 0,
        whole: FACTS,
        unmade: FACTS,
    },
    Command {
        name: "draw",
        task: Task::Draw,
        scripted: false,
        status: 0,
        whole: PICTURE,
        unmade: PICTURE,
    },
    Command {
        name: "explore",
        task: Task::Explore,
        scripted: false,
        status: 2,
        whole: FOUND,
        unmade: FOUND,
    },
];

/// Runs the script and holds the run against it; the trace goes to `output`.
fn held<R: Threads + Wait + Sync>(rt: &R, alloc: Global, output: &mut &mut [u8]) -> Ended {
    match settings_of(alloc, SCRIPTED) {
        Ok(settings) => run(
            rt,
            alloc,
            &settings,
            &mut SCRIPT.as_bytes(),
            output,
            &Stopped,
        ),
        Err(ended) => ended,
    }
}

/// What `explain` tells goes to `output`.
fn told(alloc: Global, output: &mut &mut [u8]) -> Ended {
    let explained = explain(alloc, false, true, &mut TRACE.as_bytes(), &mut ());
    match output.write_all(explained.text().as_bytes()) {
        Ok(()) => explained.ended,
        Err(_) => Ended::output_failed(),
    }
}

/// What `explore` finds goes to `output`: in words, and behind that as the trace that the settings want.
fn looked(alloc: Global, settings: &Settings, output: &mut &mut [u8]) -> Ended {
    let words = match settings_of(alloc, WORDS) {
        Ok(words) => words,
        Err(ended) => return ended,
    };
    let found = explore(alloc, &words, &mut STUCK.as_bytes(), output);
    if found.ended.status != 2 {
        return found.ended;
    }
    explore(alloc, settings, &mut STUCK.as_bytes(), output).ended
}

impl Command {
    /// Does what the settings say; what is written goes to `output`.
    fn done<R: Threads + Wait + Sync>(
        &self,
        rt: &R,
        alloc: Global,
        settings: &Settings,
        output: &mut &mut [u8],
    ) -> Ended {
        let mut script = SCRIPT.as_bytes();
        match self.task {
            Task::Step => step(alloc, settings, &mut script, output),
            Task::Run if self.scripted => held(rt, alloc, output),
            Task::Run => run(rt, alloc, settings, &mut script, output, &Stopped),
            Task::Check => check(alloc, &mut TRACE.as_bytes(), output, &mut ()),
            Task::Join => join(alloc, &mut PARTS.as_bytes(), output, &mut ()),
            Task::Cut => cut(alloc, AT, &mut TRACE.as_bytes(), output),
            Task::Explain => told(alloc, output),
            Task::Draw => draw(
                alloc,
                settings.by,
                0,
                2,
                &mut TRACE.as_bytes(),
                output,
                &mut (),
            ),
            Task::Explore => looked(alloc, settings, output),
        }
    }

    /// How the command ends.
    fn way<R: Threads + Wait + Sync>(&self, rt: &R, alloc: Global, settings: &Settings) -> Way {
        let mut room = [0u8; ROOM];
        let mut output = &mut room[..];
        let ended = self.done(rt, alloc, settings, &mut output);
        let count = ROOM.saturating_sub(output.len());
        let written = room.get(..count).unwrap_or(&[]);
        judged(&ended, self.status, written, self.whole, self.unmade)
    }
}

/// Says how the command line is read, and gives what it says where that is fine.
fn line(rt: &impl Print, ended: Result<Settings, Ended>) -> io::Result<Option<Settings>> {
    match ended {
        Ok(settings) => {
            println!(rt; "line: whole")?;
            Ok(Some(settings))
        }
        Err(ended) => {
            println!(rt; "line: {}", judged(&ended, 0, b"", "", ""))?;
            Ok(None)
        }
    }
}

/// The line of each command, in order, and how it ended.
fn main(rt: HostRuntime) -> io::Result<ExitCode> {
    let alloc = rt.alloc();
    if burn(alloc, number(&rt)?).is_err() {
        println!(rt; "refused before")?;
        return Ok(ExitCode::SUCCESS);
    }
    let read = match arguments(&rt) {
        Ok(_) => settings_of(alloc, LINE),
        Err(ended) => Err(ended),
    };
    let Some(settings) = line(&rt, read)? else {
        return Ok(ExitCode::SUCCESS);
    };
    for command in COMMANDS {
        let way = command.way(&rt, alloc, &settings);
        println!(rt; "{}: {way}", command.name)?;
    }
    Ok(ExitCode::SUCCESS)
}
