//! The commands as `clap` has them: each option and each command is a function or a constant here, with its texts.

ghost use Rattle.std.specs.Prelude.{◌≡◌, [], IfOk, IsOkAnd, codes, false, map, true};
ghost use Rattle.clap.specs.Words.{AddsSubcommand, app_of, rule_of, shape_of};
ghost use Rattle.clap.specs.declared.builder.command.Command.TheViews.{out-Command as fields_of};
ghost use Rattle.gmp_words.specs.Program.{flag, folder, gmp, numeric_of, with_more};
ghost use Rattle.gmp_words.specs.Program as line;

use crate::helps::{
    CHECK_INPUT, CUT_INPUT, DRAW_INPUT, EXPLAIN_INPUT, EXPLORE_INPUT, JOIN_INPUT, RUN_INPUT,
    STATUSES, STEP_INPUT,
};
use crate::numeric::Numeric;
use crate::{drawing, wanting};
use clap::builder::ValueParser;
use clap::{Arg, ArgAction, Command};
use gmp_seq::{LEAST_ROOM, MOST_CHANNELS, MOST_MACHINES, MOST_PROCS};
use std::alloc::{AllocError, Global};

/// The most entries that are kept at once: those of a trace, or of a part of one.
pub const MOST_ENTRIES: u32 = 1_000_000;

// The options, each with the range that its type of settings has: what is read is narrowed without a loss.
pub(crate) const PROCS: Numeric = Numeric {
    id: "procs",
    help: "Processors, 1 to 32 [default: 1]",
    least: 1,
    most: MOST_PROCS as u64,
    default: 1,
};

/// The same for `explore`.
const PROCS_OF_ALL: Numeric = Numeric {
    help: "Processors, 1 to 32 [default: one for each goroutine, but 32 at most]",
    ..PROCS
};

pub(crate) const MACHINES: Numeric = Numeric {
    id: "machines",
    help: "Machines, 1 to 64 [default: 1]",
    least: 1,
    most: MOST_MACHINES as u64,
    default: 1,
};

pub(crate) const CHANNELS: Numeric = Numeric {
    id: "channels",
    help: "The most channels, 0 to 1024 [default: 16]",
    least: 0,
    most: MOST_CHANNELS as u64,
    default: 16,
};

pub(crate) const ENTRIES: Numeric = Numeric {
    id: "entries",
    help: "The most entries, 16 to 1000000 [default: 10000]",
    least: LEAST_ROOM as u64,
    most: MOST_ENTRIES as u64,
    default: 10_000,
};

/// The same for `run`, of which those beyond `ENTRIES` are for a run in segments.
pub(crate) const ENTRIES_IN_SEGMENTS: Numeric = Numeric {
    help: "The most entries, 16 to 1000000, with --segments to 9223372036854775807 [default: 10000]",
    most: gmp_seq::MOST_ENTRIES,
    ..ENTRIES
};

pub(crate) const ROOM: Numeric = Numeric {
    id: "room",
    help: "With --segments, the most entries that are kept, 16 to 1000000 [default: 1000000]",
    least: LEAST_ROOM as u64,
    most: MOST_ENTRIES as u64,
    default: MOST_ENTRIES as u64,
};

pub(crate) const WORD: Numeric = Numeric {
    id: "word",
    help: "The word that every choice draws, 0 to 18446744073709551615 [default: 0]",
    least: 0,
    most: u64::MAX,
    default: 0,
};

pub(crate) const ACTS: Numeric = Numeric {
    id: "acts",
    help: "The most acts of machines, 1 to 1000000000 [default: 10000000]",
    least: 1,
    most: 1_000_000_000,
    default: 10_000_000,
};

pub(crate) const RANDOM: Numeric = Numeric {
    id: "random",
    help: "The number that seeds each machine's words, 0 to 18446744073709551615 [default: 0]",
    least: 0,
    most: u64::MAX,
    default: 0,
};

pub(crate) const AT: Numeric = Numeric {
    id: "at",
    help: "The entry from which the part begins, 0 to 18446744073709551615 [default: 0]",
    least: 0,
    most: u64::MAX,
    default: 0,
};

pub(crate) const FROM: Numeric = Numeric {
    id: "from",
    help: "The first entry that is drawn, 0 to 18446744073709551615 [default: 0]",
    least: 0,
    most: u64::MAX,
    default: 0,
};

pub(crate) const TO: Numeric = Numeric {
    id: "to",
    help: "The entry before which the picture ends [default: 5000 entries behind the first]",
    least: 0,
    most: u64::MAX,
    default: u64::MAX,
};

pub(crate) const STATES: Numeric = Numeric {
    id: "states",
    help: "The most states that are looked at, 1 to 100000000 [default: 1000000]",
    least: 1,
    most: 100_000_000,
    default: 1_000_000,
};

/// The program's version, and that of the traces that it writes and reads.
const VERSION: &str = "0.1.0 (gmp-trace 1, 2, 4)";

/// The name of the file that a command reads.
fn file<'a>(alloc: Global) -> Arg<'a>
    ensures rule { rule_of result ≡ line.file }
    ensures local { result.global ≡ false }
{
    Arg::new(alloc, "file")
        .value_name("FILE")
        .action(ArgAction::Set)
        .value_parser(ValueParser::NonEmptyString)
        .help("The file with the script or the trace [default: -, standard input]")
}

/// A command with its texts, which reads a file, and no options.
fn bare<'a>(
    alloc: Global,
    name: &'a str,
    about: &'a str,
    input: &'a str,
) -> Result<Command<'a>, AllocError>
    ensures shape { IfOk result (λ r. shape_of r ≡ line.command name.now []) }
    ensures local { IfOk result (λ r. (fields_of r).has_globals ≡ false) }
{
    let command = Command::new(alloc, name).about(about).after_help(input);
    command.arg(file(alloc))
}

/// The command with these options too.
fn with<'a>(
    alloc: Global,
    command: Command<'a>,
    options: &[Numeric],
) -> Result<Command<'a>, AllocError>
    ensures shape { IfOk result (λ r. shape_of r ≡ with_more (shape_of command.entry) (map numeric_of options.now)) }
    ensures local { (fields_of command.entry).has_globals ≡ false → IfOk result (λ r. (fields_of r).has_globals ≡ false) }
{
    let mut command = command;
    for option in options {
        command = command.arg(option.arg(alloc))?;
    }
    Ok(command)
}

/// The command `step`, with its options.
fn step<'a>(alloc: Global) -> Result<Command<'a>, AllocError>
    ensures shape { IfOk result (λ r. shape_of r ≡ line.step) }
    ensures local { IfOk result (λ r. (fields_of r).has_globals ≡ false) }
{
    let about = "Runs a script in one thread and prints the trace";
    with(
        alloc,
        bare(alloc, "step", about, STEP_INPUT)?,
        &[PROCS, MACHINES, CHANNELS, ENTRIES, WORD, ACTS],
    )?
    .arg(fair(alloc))
}

/// The command `run`, with its options.
fn run<'a>(alloc: Global) -> Result<Command<'a>, AllocError>
    ensures shape { IfOk result (λ r. shape_of r ≡ line.run) }
    ensures local { IfOk result (λ r. (fields_of r).has_globals ≡ false) }
{
    let about = "Runs a script by machines in threads and prints the summary";
    with(
        alloc,
        bare(alloc, "run", about, RUN_INPUT)?,
        &[PROCS, MACHINES, CHANNELS, ENTRIES_IN_SEGMENTS, RANDOM, ROOM],
    )?
    .arg(segments(alloc))?
    .arg(flag(
        alloc,
        "trace",
        "Prints the trace, and not the summary; not with --segments",
    ))?
    .arg(flag(
        alloc,
        "scripted",
        "Audits too that each goroutine asked what its body says, in order; not with --segments",
    ))?
    .arg(fair(alloc))
}

/// The option `--segments`.
fn segments<'a>(alloc: Global) -> Arg<'a>
    ensures rule { rule_of result ≡ folder (codes "segments") }
    ensures local { result.global ≡ false }
{
    Arg::new(alloc, "segments")
        .long("segments")
        .value_name("DIR")
        .action(ArgAction::Set)
        .value_parser(ValueParser::NonEmptyString)
        .help("Writes the history into files of this folder, and keeps --room entries of it")
}

/// The flag `--fair`.
fn fair<'a>(alloc: Global) -> Arg<'a>
    ensures rule { rule_of result ≡ flag (codes "fair") }
    ensures local { result.global ≡ false }
{
    flag(
        alloc,
        "fair",
        "Has machines look aside after each 16 claims, so that nobody is passed over for ever",
    )
}

/// A flag, with what `--help` says of it.
fn flag<'a>(alloc: Global, id: &'a str, help: &'a str) -> Arg<'a>
    ensures rule { rule_of result ≡ flag id.now }
    ensures local { result.global ≡ false }
{
    Arg::new(alloc, id)
        .long(id)
        .action(ArgAction::SetTrue)
        .help(help)
}

/// The command `check`, which has no options.
fn check<'a>(alloc: Global) -> Result<Command<'a>, AllocError>
    ensures shape { IfOk result (λ r. shape_of r ≡ line.check) }
    ensures local { IfOk result (λ r. (fields_of r).has_globals ≡ false) }
{
    bare(
        alloc,
        "check",
        "Reads a trace, checks it and prints its summary",
        CHECK_INPUT,
    )
}

/// The command `join`, which has no options.
fn join<'a>(alloc: Global) -> Result<Command<'a>, AllocError>
    ensures shape { IfOk result (λ r. shape_of r ≡ line.join) }
    ensures local { IfOk result (λ r. (fields_of r).has_globals ≡ false) }
{
    bare(
        alloc,
        "join",
        "Reads the parts of a run, checks that they are one run and prints how long it is",
        JOIN_INPUT,
    )
}

/// The command `cut`, with its option.
fn cut<'a>(alloc: Global) -> Result<Command<'a>, AllocError>
    ensures shape { IfOk result (λ r. shape_of r ≡ line.cut) }
    ensures local { IfOk result (λ r. (fields_of r).has_globals ≡ false) }
{
    let about = "Reads a trace, checks it and prints the part from an entry on";
    with(alloc, bare(alloc, "cut", about, CUT_INPUT)?, &[AT])
}

/// The command `explain`, with its flags.
fn explain<'a>(alloc: Global) -> Result<Command<'a>, AllocError>
    ensures shape { IfOk result (λ r. shape_of r ≡ line.explain) }
    ensures local { IfOk result (λ r. (fields_of r).has_globals ≡ false) }
{
    let about = "Reads a trace, checks it and says what it tells of its run";
    bare(alloc, "explain", about, EXPLAIN_INPUT)?
        .arg(flag(alloc, "json", "Prints one JSON object, and not lines"))?
        .arg(flag(
            alloc,
            "all",
            "Tells too how many entries each machine and processor has, of which kinds",
        ))
}

/// The command `draw`, with its options.
fn draw<'a>(alloc: Global) -> Result<Command<'a>, AllocError>
    ensures shape { IfOk result (λ r. shape_of r ≡ line.draw) }
    ensures local { IfOk result (λ r. (fields_of r).has_globals ≡ false) }
{
    let about = "Reads a trace, checks it and prints a picture of it";
    with(alloc, bare(alloc, "draw", about, DRAW_INPUT)?, &[FROM, TO])?
        .arg(drawing::arg(alloc))?
        .arg(flag(
            alloc,
            "perfetto",
            "Writes the Trace Event format, which Perfetto opens, and no picture; not with --by",
        ))
}

/// The command `explore`, with its options.
fn explore<'a>(alloc: Global) -> Result<Command<'a>, AllocError>
    ensures shape { IfOk result (λ r. shape_of r ≡ line.explore) }
    ensures local { IfOk result (λ r. (fields_of r).has_globals ≡ false) }
{
    let about =
        "Looks at all runs of a script and prints what goes wrong in one, or that nothing does";
    let explore = bare(alloc, "explore", about, EXPLORE_INPUT)?;
    with(alloc, explore, &[PROCS_OF_ALL, CHANNELS, STATES])?
        .arg(wanting::arg(alloc))?
        .arg(flag(alloc, "trace", "Prints a trace of what goes wrong"))
}

/// The program with no commands.
fn program<'a>(alloc: Global) -> Command<'a>
    ensures app { app_of result ≡ record gmp { top = record gmp.top { is_leaf = true }; subs = [] } }
    ensures local { (fields_of result).has_globals ≡ false }
{
    Command::new(alloc, "gmp")
        .version(VERSION)
        .about(
            "Runs scripts of goroutines, logs each call of their scheduler, and checks such logs",
        )
        .after_help(STATUSES)
        .subcommand_required(true)
}

/// The program with one command more, if that could be made.
fn with_command<'a>(
    program: Command<'a>,
    made: Result<Command<'a>, AllocError>,
) -> Result<Command<'a>, AllocError>
    ensures { IfOk result (λ r. IsOkAnd made.entry (λ command. AddsSubcommand program.entry command r)) }
{
    program.subcommand(made?)
}

/// The program with all its commands.
pub(crate) fn command<'a>(alloc: Global) -> Result<Command<'a>, AllocError>
    ensures { IfOk result (λ r. app_of r ≡ gmp) }
{
    let gmp = with_command(program(alloc), step(alloc))?;
    let gmp = with_command(gmp, run(alloc))?;
    let gmp = with_command(gmp, check(alloc))?;
    let gmp = with_command(gmp, join(alloc))?;
    let gmp = with_command(gmp, cut(alloc))?;
    let gmp = with_command(gmp, explain(alloc))?;
    let gmp = with_command(gmp, draw(alloc))?;
    with_command(gmp, explore(alloc))
}
