//! Events of the Trace Event format, each with the members that its phase has there.

use serde::Serialize;

/// The processes. Their numbers begin at 1, since readers may keep 0 for themselves.
pub const GOROUTINES: u64 = 1;

pub const MACHINES: u64 = 2;

pub const CHANNELS: u64 = 3;

/// One event. Times are in microseconds: the number of an entry.
#[derive(Drop, Serialize)]
#[serde(tag = "ph")]
pub enum Event {
    /// What is done for a while.
    #[serde(rename = "X")]
    Slice {
        name: String,
        cat: &'static str,
        pid: u64,
        tid: u64,
        ts: u64,
        dur: u64,
        /// The colour of a slice that waits for good, by its name in chrome://tracing.
        #[serde(skip_serializing_if = "Option::is_none")]
        cname: Option<&'static str>,
        args: Lines,
    },
    /// The slice in which an arrow begins: the topmost of the thread at this time.
    #[serde(rename = "s")]
    Leaves {
        name: &'static str,
        cat: &'static str,
        id: u64,
        pid: u64,
        tid: u64,
        ts: u64,
    },
    /// The slice to which it comes, by `bp` that at this time, too.
    #[serde(rename = "f")]
    Comes {
        name: &'static str,
        cat: &'static str,
        id: u64,
        pid: u64,
        tid: u64,
        ts: u64,
        bp: &'static str,
    },
    /// How many values a channel holds from then on.
    #[serde(rename = "C")]
    Holds {
        name: String,
        pid: u64,
        ts: u64,
        args: Values,
    },
    /// A moment of the clock.
    #[serde(rename = "i")]
    Moment {
        name: String,
        pid: u64,
        tid: u64,
        ts: u64,
        /// Whose moment it is: `g`, that of all processes.
        s: &'static str,
    },
    /// The name of a process or thread, or where a thread stands among others.
    #[serde(rename = "M")]
    Told {
        name: &'static str,
        pid: u64,
        tid: u64,
        ts: u64,
        args: Label,
    },
}

/// The lines of a slice's first entry, where it began in the trace, and of the first call of its goroutine, where that is another one.
#[derive(Drop, Serialize)]
pub struct Lines {
    #[serde(skip_serializing_if = "Option::is_none")]
    pub entry: Option<String>,
    #[serde(skip_serializing_if = "Option::is_none")]
    pub call: Option<String>,
}

#[derive(Drop, Serialize)]
pub struct Values {
    pub values: u64,
}

/// What metadata says.
#[derive(Drop, Serialize)]
#[serde(untagged)]
pub enum Label {
    Name { name: String },
    Place { sort_index: u64 },
}
