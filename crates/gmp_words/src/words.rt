//! Reads the words of the command line. `clap` parses it and finds each option's text; the numbers and names in those texts are judged here.

ghost use Rattle.std.specs.Prelude.{◌≡◌, ◌≢◌, ◌≤◌, ◌⊎◌, ℕ, [], codes, map, string_bytes, true, Option, Some, IfOk, IfErr, IfNone, IfSome};
ghost use Rattle.gmp_words.specs.Said.{is_of_words};
ghost use Rattle.gmp_words.specs.Program.{gmp};
ghost use Rattle.gmp_words.specs.Words.{AreEntries, AreGiven, AreSaid, AreWanted, AskForHelp, AskForHelpAlone, IsHelp, entered, go_together, is_given, lanes_by, name_of, names_folder, number_given};
ghost use Rattle.gmp_words.specs.declared.options.CommandLine.{CommandLine as Line};
ghost use Rattle.clap.specs.Words.{fault_of, found_of, kind_of, rows_of, subcommand_rows_of};

use crate::commands::{
    ACTS, AT, CHANNELS, ENTRIES, ENTRIES_IN_SEGMENTS, FROM, MACHINES, PROCS, RANDOM, ROOM, STATES,
    TO, WORD, command,
};
use crate::ended::Ended;
use crate::numeric::given;
use crate::options::{By, CommandLine, Segments, Settings, Task, Wanted};
use crate::said::Said;
use crate::{drawing, wanting};
use clap::error::ErrorKind;
use clap::{ArgMatches, Command};
use std::alloc::Global;

/// What a refusal by `clap` ends with: its own text, and for help or the version that was asked for status 0.
fn refused(alloc: Global, error: &clap::Error) -> Ended
    ensures said { is_of_words result.said ≡ true }
    ensures help { IsHelp (kind_of error.now) → (result.status ≡ 0) ⊎ (result.said ≡ Said.OutOfMemory) }
    ensures asked { result.status ≡ 0 → IsHelp (kind_of error.now) }
    ensures memory { kind_of error.now ≡ ErrorKind.OutOfMemory → result.said ≡ Said.OutOfMemory }
{
    if error.kind() == ErrorKind::OutOfMemory {
        return Ended::out_of_memory();
    }
    match error.to_string(alloc) {
        Ok(text) if error.use_stderr() => Ended::usage(text),
        Ok(text) => Ended::help(text),
        Err(_) => Ended::out_of_memory(),
    }
}

/// The task of a command.
fn task(name: &str) -> Option<Task>
    ensures some { IfSome result (λ task. name.now ≡ name_of task) }
    ensures none { IfNone result ((t : Task) → name.now ≢ name_of t) }
{
    match name.as_bytes() {
        b"step" => Some(Task::Step),
        b"run" => Some(Task::Run),
        b"check" => Some(Task::Check),
        b"join" => Some(Task::Join),
        b"cut" => Some(Task::Cut),
        b"explain" => Some(Task::Explain),
        b"draw" => Some(Task::Draw),
        b"explore" => Some(Task::Explore),
        _ => None,
    }
}

/// Whether the flag is given.
fn is_given(options: &ArgMatches, flag: &str) -> bool
    ensures { result ≡ is_given (rows_of (found_of options.now)) flag.now }
{
    match given(options, flag) {
        Some(text) => text == "true",
        None => false,
    }
}

/// What the options say to a command that reads a trace.
#[derive(Clone, Copy)]
struct OfTrace {
    at: u64,
    json: bool,
    all: bool,
    perfetto: bool,
    from: u64,
    to: u64,
}

/// What the options say to a command that reads a trace.
///
/// None where a number is not written in digits alone, or is too great.
fn of_trace(options: &ArgMatches) -> Option<OfTrace>
    ensures at { IfSome result (λ x. number_given (rows_of (found_of options.now)) (codes "at") 0 ≡ Some x.at) }
    ensures json { IfSome result (λ x. x.json ≡ is_given (rows_of (found_of options.now)) (codes "json")) }
    ensures all { IfSome result (λ x. x.all ≡ is_given (rows_of (found_of options.now)) (codes "all")) }
    ensures perfetto { IfSome result (λ x. x.perfetto ≡ is_given (rows_of (found_of options.now)) (codes "perfetto")) }
    ensures from { IfSome result (λ x. number_given (rows_of (found_of options.now)) (codes "from") 0 ≡ Some x.from) }
    ensures to { IfSome result (λ x. number_given (rows_of (found_of options.now)) (codes "to") 18446744073709551615 ≡ Some x.to) }
    ensures none { IfNone result ((s : Settings) → AreGiven (rows_of (found_of options.now)) s → ⊥) }
{
    Some(OfTrace {
        at: AT.read(options)?,
        json: is_given(options, "json"),
        all: is_given(options, "all"),
        perfetto: is_given(options, "perfetto"),
        from: FROM.read(options)?,
        to: TO.read(options)?,
    })
}

/// Whether a folder is named for the segments of the history.
fn names_folder(options: &ArgMatches) -> bool
    ensures { result ≡ names_folder (rows_of (found_of options.now)) }
{
    given(options, "segments").is_some()
}

/// Whether no option is given that another one excludes, or that wants another one.
fn go_together(options: &ArgMatches) -> bool
    ensures { result ≡ go_together (rows_of (found_of options.now)) }
{
    if is_given(options, "perfetto") && given(options, "by").is_some() {
        return false;
    }
    if names_folder(options) {
        !is_given(options, "trace") && !is_given(options, "scripted")
    } else {
        given(options, "room").is_none()
    }
}

/// How long a run is: of a whole history the first, of segments the second.
#[derive(Clone, Copy)]
struct Length {
    entries: u32,
    segments: Option<Segments>,
}

/// What the options say of a run's length.
///
/// None where a number is out of range, or is not written in digits alone.
fn length_of(options: &ArgMatches) -> Option<Length>
    ensures said { IfSome result (λ x. AreEntries (rows_of (found_of options.now)) x.entries x.segments) }
    ensures in_range { IfSome result (λ x. (16 ≤ x.entries) × (x.entries ≤ 1000000)) }
    ensures none { IfNone result ((s : Settings) → AreGiven (rows_of (found_of options.now)) s → ⊥) }
{
    if !names_folder(options) {
        return Some(Length {
            entries: ENTRIES.read(options)? as u32,
            segments: None,
        });
    }
    let entries = ENTRIES_IN_SEGMENTS.read(options)?;
    let room = ROOM.read(options)?.min(entries) as u32;
    Some(Length {
        entries: ENTRIES.default as u32,
        segments: Some(Segments { entries, room }),
    })
}

/// What the options say of machines' choices and acts.
#[derive(Clone, Copy)]
struct OfActs {
    word: u64,
    acts: u32,
    random: u64,
}

/// What the options say of machines' choices and acts.
///
/// None where a number is out of range, or is not written in digits alone.
fn of_acts(options: &ArgMatches) -> Option<OfActs>
    ensures word { IfSome result (λ x. number_given (rows_of (found_of options.now)) (codes "word") 0 ≡ Some x.word) }
    ensures acts { IfSome result (λ x. number_given (rows_of (found_of options.now)) (codes "acts") 10000000 ≡ Some x.acts) }
    ensures in_range { IfSome result (λ x. (1 ≤ x.acts) × (x.acts ≤ 1000000000)) }
    ensures random { IfSome result (λ x. number_given (rows_of (found_of options.now)) (codes "random") 0 ≡ Some x.random) }
    ensures none { IfNone result ((s : Settings) → AreGiven (rows_of (found_of options.now)) s → ⊥) }
{
    Some(OfActs {
        word: WORD.read(options)?,
        acts: ACTS.read(options)? as u32,
        random: RANDOM.read(options)?,
    })
}

/// What the options say for this task.
///
/// None where a number is out of range, or is not written in digits alone.
fn settings_of(task: Task, wanted: Wanted, by: By, options: &ArgMatches) -> Option<Settings>
    requires by { lanes_by (rows_of (found_of options.now)) ≡ Some by }
    requires wanted { AreWanted (rows_of (found_of options.now)) wanted }
    requires together { go_together (rows_of (found_of options.now)) ≡ true }
    ensures task { IfSome result (λ s. s.task ≡ task) }
    ensures given { IfSome result (AreGiven (rows_of (found_of options.now))) }
    ensures none { IfNone result ((s : Settings) → AreGiven (rows_of (found_of options.now)) s → ⊥) }
{
    let of_trace = of_trace(options)?;
    let length = length_of(options)?;
    let of_acts = of_acts(options)?;
    Some(Settings {
        task,
        procs: PROCS.read(options)? as u8,
        has_procs: given(options, "procs").is_some(),
        machines: MACHINES.read(options)? as u8,
        channels: CHANNELS.read(options)? as u16,
        entries: length.entries,
        segments: length.segments,
        word: of_acts.word,
        acts: of_acts.acts,
        random: of_acts.random,
        trace: is_given(options, "trace"),
        scripted: is_given(options, "scripted"),
        fair: is_given(options, "fair"),
        at: of_trace.at,
        json: of_trace.json,
        all: of_trace.all,
        by,
        perfetto: of_trace.perfetto,
        from: of_trace.from,
        to: of_trace.to,
        states: STATES.read(options)? as u32,
        wanted,
    })
}

/// Why a line is refused that `clap` takes.
#[derive(Clone, Copy)]
struct Refusal {
    kind: ErrorKind,
    text: &'static str,
}

/// No line comes to this: `clap` asks for a command, and has these alone.
const NO_COMMAND: Refusal = Refusal {
    kind: ErrorKind::InvalidSubcommand,
    text: "there is no such command",
};

const NO_NAME: Refusal = Refusal {
    kind: ErrorKind::InvalidValue,
    text: "--want takes no-deadlock, no-fault, no-leak and main-ends, parted by commas",
};

const NO_LANE: Refusal = Refusal {
    kind: ErrorKind::InvalidValue,
    text: "--by takes machine or goroutine",
};

const APART: Refusal = Refusal {
    kind: ErrorKind::ArgumentConflict,
    text: "--room goes with --segments, and --trace and --scripted do not; nor does --by with --perfetto",
};

const NO_NUMBER: Refusal = Refusal {
    kind: ErrorKind::InvalidValue,
    text: "a number is written in digits alone, and without --segments --entries goes to 1000000",
};

/// What the matches say.
fn line_of<'a>(matches: &ArgMatches<'a>) -> Result<CommandLine<'a>, Refusal>
    ensures ok { IfOk result (AreSaid (subcommand_rows_of matches.now)) }
    ensures err { IfErr result (λ _. (line : Line) → AreSaid (subcommand_rows_of matches.now) line → ⊥) }
    ensures kinds { IfErr result (λ refusal. IsHelp refusal.kind → ⊥) }
{
    let Some((name, options)) = matches.subcommand() else {
        return Err(NO_COMMAND);
    };
    let task = task(name).ok_or(NO_COMMAND)?;
    let wanted = wanting::wanted(options).ok_or(NO_NAME)?;
    let by = drawing::by(options).ok_or(NO_LANE)?;
    if !go_together(options) {
        return Err(APART);
    }
    let settings = settings_of(task, wanted, by, options).ok_or(NO_NUMBER)?;
    Ok(CommandLine {
        settings,
        folder: given(options, "segments"),
        file: given(options, "file"),
    })
}

/// What a line ends with that is refused behind `clap`: the reason, as `clap` tells its own.
fn told(alloc: Global, command: &mut Command, refusal: Refusal) -> Ended
    requires { IsHelp refusal.kind → ⊥ }
    ensures said { is_of_words result.said ≡ true }
    ensures help { result.status ≡ 0 → ⊥ }
{
    match command.error(refusal.kind, refusal.text) {
        Ok(error) => refused(alloc, &error),
        Err(_) => Ended::out_of_memory(),
    }
}

/// What the command line says, the program's name first.
///
/// A line that is refused ends with status 64 and `clap`'s text, help or the version that was asked for with 0.
pub fn command_line<'a>(alloc: Global, words: &'a [String]) -> Result<CommandLine<'a>, Ended>
    ensures ok { IfOk result (AreSaid (entered (map string_bytes words.now))) }

    // Each word is known, each option has its value, in its range, and none comes twice.
    ensures taken { IfOk result (λ _. fault_of gmp (map string_bytes words.now) ≡ []) }

    // Such a line is refused where it says nothing, or memory is.
    ensures refused { IfErr result (λ e. fault_of gmp (map string_bytes words.now) ≡ [] → e.said ≢ Said.OutOfMemory
        → (line : Line) → AreSaid (entered (map string_bytes words.now)) line → ⊥) }

    ensures err { IfErr result (λ e. is_of_words e.said ≡ true) }
    ensures help { IfErr result (λ e. e.status ≡ 0 → AskForHelp (map string_bytes words.now)) }
    ensures shown { IfErr result (λ e. AskForHelpAlone (map string_bytes words.now) → (e.status ≡ 0) ⊎ (e.said ≡ Said.OutOfMemory)) }
{
    let mut command: Command<'a> = command(alloc)?;
    let matches = match command.try_get_matches_from_mut(words) {
        Ok(matches) => matches,
        Err(error) => return Err(refused(alloc, &error)),
    };
    match line_of(&matches) {
        Ok(line) => Ok(line),
        Err(refusal) => Err(told(alloc, &mut command, refusal)),
    }
}
