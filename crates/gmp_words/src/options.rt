//! What is to be done (`Task`), and with which numbers and names (`Settings`). One type for all tasks: an option that a task doesn't have has its
//! default.

ghost use Rattle.std.specs.Prelude.{◌≤◌};

use gmp_seq::Limits;

/// What the program is to do.
#[derive(Clone, Copy)]
pub enum Task {
    /// Runs a script in one thread, and prints the trace.
    Step,
    /// Runs a script by machines in threads, and prints the trace or its summary.
    Run,
    /// Reads a trace, checks it, and prints its summary.
    Check,
    /// Reads the parts of a run, checks them and that each goes on where the one before stops, and prints how long the run is.
    Join,
    /// Reads a trace, checks it, and prints the part of it from an entry on.
    Cut,
    /// Reads a trace, checks it, and says in words what it tells of its run.
    Explain,
    /// Reads a trace, checks it, and prints a picture of it.
    Draw,
    /// Looks at all that may happen in any run of a script, and prints what goes wrong, or that nothing does.
    Explore,
}

/// What has a lane in a picture.
#[derive(Clone, Copy)]
pub enum By {
    Machine,
    Goroutine,
}

/// What no run of a script is to do. One or more of these are wanted.
#[derive(Clone, Copy)]
pub struct Wanted {
    /// End since all goroutines are asleep.
    pub no_deadlock: bool,
    /// Tell a goroutine a fault.
    pub no_fault: bool,
    /// Leave a goroutine that waits for good, or a value on a channel, behind at main's end.
    pub no_leak: bool,
    /// Come to where main can't end any more.
    pub main_ends: bool,
}

/// How long a run is whose history is handed out in segments, and how much of it is kept.
#[derive(Clone, Copy)]
pub struct Segments {
    /// The most entries that the run may have: 16 to 9,223,372,036,854,775,807.
    pub entries: u64,
    /// The most of them that are kept at a time: 16 to 1,000,000, and no more than the run may have.
    pub room: u32,
    pub ghost entries_in_range: { (16 ≤ entries) × (entries ≤ 9223372036854775807) },
    pub ghost room_in_range: { (16 ≤ room) × (room ≤ 1000000) },
    pub ghost room_within: { room ≤ entries },
}

/// What the command line says: the task, and the number of each option.
#[derive(Clone, Copy)]
pub struct Settings {
    pub task: Task,
    /// Processors: 1 to 32.
    pub procs: u8,
    /// Whether the line says how many.
    pub has_procs: bool,
    /// Machines: 1 to 64.
    pub machines: u8,
    /// The most channels that a run may have: 0 to 1,024.
    pub channels: u16,
    /// The most entries that a history may have: 16 to 1,000,000. Of a run in segments, those say it.
    pub entries: u32,
    /// The segments of a run whose history is not kept whole. `CommandLine` says which folder they go to.
    pub segments: Option<Segments>,
    /// The word that every choice draws.
    pub word: u64,
    /// The most acts that the machines may make: 1 to 1,000,000,000.
    pub acts: u32,
    /// Machine m draws its words in threads from a generator that is seeded by this number and m.
    pub random: u64,
    /// Whether a run in threads prints its trace, and not its summary.
    pub trace: bool,
    /// Whether its audit holds it against the script.
    pub scripted: bool,
    /// Whether machines are fair: every 16 claims one looks aside, at the shelf or at a local queue, in turn.
    pub fair: bool,
    /// The entry from which the part of a trace begins, counted from 0.
    pub at: u64,
    /// Whether facts are told as one JSON object, and not as lines.
    pub json: bool,
    /// Whether facts of machines and processors are told too.
    pub all: bool,
    /// What has a lane in a picture.
    pub by: By,
    /// Whether the Trace Event format is written, and no picture.
    pub perfetto: bool,
    /// The first entry of a picture.
    pub from: u64,
    /// The entry before which a picture ends.
    pub to: u64,
    /// The most states of a script that are looked at: 1 to 100,000,000.
    pub states: u32,
    /// What is looked for in them.
    pub wanted: Wanted,
    pub ghost procs_in_range: { (1 ≤ procs) × (procs ≤ 32) },
    pub ghost machines_in_range: { (1 ≤ machines) × (machines ≤ 64) },
    pub ghost channels_in_range: { channels ≤ 1024 },
    pub ghost entries_in_range: { (16 ≤ entries) × (entries ≤ 1000000) },
    pub ghost acts_in_range: { (1 ≤ acts) × (acts ≤ 1000000000) },
    pub ghost states_in_range: { (1 ≤ states) × (states ≤ 100000000) },
}

/// What the command line says.
#[derive(Clone, Copy)]
pub struct CommandLine<'a> {
    pub settings: Settings,
    /// The folder that a run in segments writes into.
    pub folder: Option<&'a str>,
    /// The file that the script or the trace is read from, if one is named.
    pub file: Option<&'a str>,
}

impl Settings {
    ghost use Rattle.std.specs.Prelude.{◌≡◌};
    ghost use Rattle.gmp_words.specs.Runs.{limits_in, limits_of};

    /// The limits of a run whose history is kept whole.
    pub fn limits(&self) -> Limits
        ensures { result ≡ limits_of self.now }
    {
        Limits {
            procs: self.procs,
            machines: self.machines,
            channels: self.channels,
            entries: u64::from(self.entries),
            room: self.entries,
        }
    }

    /// The limits of a run in these segments.
    pub fn limits_in(&self, segments: Segments) -> Limits
        ensures { result ≡ limits_in segments self.now }
    {
        Limits {
            entries: segments.entries,
            room: segments.room,
            ..self.limits()
        }
    }
}
