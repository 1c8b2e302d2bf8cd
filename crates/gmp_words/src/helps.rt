//! What stands behind the help of the program and of each command: what it reads and writes, and how it ends.

/// Of the program.
pub const STATUSES: &str =
    "A script, or for check, join, cut, explain and draw a trace, is read from FILE or standard input; what is asked for
goes to standard output.

Exit status:
  0   main ended, the trace is right, or help or the version was asked for
  1   the input is bad or can't be read, or the output can't be written
  2   all goroutines are asleep: deadlock; explore: in some run
  3   the history is full
  4   step: no end yet, by --acts or since all machines are parked
  5   memory was refused
  6   run: a machine's count of its calls is not that of the history, the parts are no run, or the history is none of the
      script (--scripted); explore: no trace of what was found
  7   explore: in some run a goroutine is told a fault
  8   explore: some run leaves a goroutine or a value behind
  9   explore: not known, since there are more states than --states says
  10  explore: some run comes to where main can't end any more
  64  the command line or the limits are bad

Try: gmp step examples/hello.gmp | gmp check";

/// Of `step`; those of the other commands follow.
pub const STEP_INPUT: &str =
    "The script is read from FILE or standard input, and the trace goes to standard output.

Exit status: 0 main ended, 2 deadlock, 3 the history is full, 4 no end yet (--acts, or all machines are parked),
1 bad script, input or output, 5 out of memory, 64 bad command line or limits.";

pub const RUN_INPUT: &str =
    "The script is read from FILE or standard input, and the summary or the trace goes to standard output.
The lines `clock` of a script are passed over: a moment is in nanoseconds since the program's start.
With --segments DIR the history goes into files DIR/part-000000001.trace and so on as it grows: traces that are one run
by `cat DIR/part-* | gmp join`. What join would say of them goes to standard output. DIR has to be there.

Exit status: 0 main ended, 2 deadlock, 3 the history is full, 1 bad script, input or output, 5 out of memory,
6 a count of calls that is not that of the history, with --segments parts that are no run, with --scripted a history that is
none of the script, 64 bad command line or limits.";

pub const CHECK_INPUT: &str =
    "The trace is read from FILE or standard input, and its summary goes to standard output.

Exit status: 0 the trace is right, 1 it is not (the first bad line is named), or bad input or output,
5 out of memory, 64 bad command line.";

pub const JOIN_INPUT: &str =
    "Traces are read from FILE or standard input, one behind another as they are written: the parts of one run, each of which
begins at the state where the one before stops. How the last one ends, how many entries there are and how many parts goes to standard
output once all of them are read.

Exit status: 0 the parts are one run, 1 one of them is not right or doesn't go on where the one before stops (the first
such part is named), or bad input or output, 5 out of memory, 64 bad command line.";

pub const CUT_INPUT: &str =
    "The trace is read from FILE or standard input, and the part of it goes to standard output: a trace that begins at
the state before entry N, which anybody can check alone.

Exit status: 0 the part was written, 1 the trace is not right (the first bad line is named), or bad input or output,
5 out of memory, 64 bad command line, or there is no such part.";

pub const EXPLAIN_INPUT: &str =
    "The trace is read from FILE or standard input, and what it tells of its run goes to standard output, one fact a
line: how it ended, what each goroutine does and since when, who waits for whom, and with --all what each machine did. Of an
entry that is no step it says which replies are allowed there, or what is missing.

Exit status: as of check.";

pub const DRAW_INPUT: &str =
    "The trace is read from FILE or standard input, and a picture of it (SVG) goes to standard output: a lane
for each machine, or for each goroutine, and for each channel, from left to right by entries. With --perfetto it is a
file in the Trace Event format, which Perfetto and chrome://tracing open.

Exit status: as of check.";

pub const EXPLORE_INPUT: &str =
    "The script is read from FILE or standard input. What no run is to have is looked for in all runs of it, by any
machines, processors and clock: what goes wrong goes to standard output with the choices that lead there, or how many
states were looked at.

Exit status: 0 no run has it, 2 a deadlock, 7 a fault, 8 a leak, 9 not known (there are more states), 10 main can't end,
1 bad script, input or output, 5 out of memory, 6 no trace of what was found, 64 bad command line or limits.";
