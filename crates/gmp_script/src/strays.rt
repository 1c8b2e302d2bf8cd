//! Names of what no run of a script has: a goroutine without a body, a channel that can't be there. A line that has one isn't bad; each of its
//! calls is answered a fault.

use crate::commands::{Command, ScriptBody};
use crate::lines::{Line, line_of};
use crate::scripts::Script;
use gmp_base::{CNo, Case, GNo};
use std::alloc::{AllocError, Global};
use std::fmt;

/// What a line names that isn't there. Its text, by `Display`, says so.
#[derive(Clone, Copy)]
pub enum Stray {
    Body(GNo),
    Channel(CNo),
}

impl fmt::Display for Stray {
    fn fmt<W: fmt::Write>(&self, f: &mut fmt::Formatter<W>) -> fmt::Result {
        match self {
            Stray::Body(g) => write!(f, "there is no body {}", g.0),
            Stray::Channel(c) => write!(f, "there is no channel {}", c.0),
        }
    }
}

/// How many goroutines there are, and how many channels there may be.
#[derive(Clone, Copy)]
struct Stock {
    bodies: usize,
    channels: usize,
}

/// How many channels a body may make. One that begins anew may make any number.
fn makes(body: &ScriptBody) -> usize {
    let mut count = 0usize;
    let mut begins_anew = false;
    for command in body.commands() {
        match command {
            Command::Make(_) => count = count.saturating_add(1),
            Command::Again => begins_anew = true,
            _ => {}
        }
    }
    if begins_anew && count > 0 {
        usize::MAX
    } else {
        count
    }
}

impl Stock {
    /// That of a script whose runs may have so many channels at most.
    fn of(script: &Script, most: u16) -> Self {
        let mut channels = script.capacities.len();
        for body in &script.bodies {
            channels = channels.saturating_add(makes(body));
        }
        Stock {
            bodies: script.bodies.len(),
            channels: channels.min(usize::from(most)),
        }
    }

    /// The channel, if it can't be there. Nil is no channel that is missing.
    fn lacks(self, c: Option<CNo>) -> Option<Stray> {
        match c {
            Some(c) if usize::from(c.0) >= self.channels => Some(Stray::Channel(c)),
            _ => None,
        }
    }

    /// The first name in a command that isn't there.
    fn first_in(self, command: &Command) -> Option<Stray> {
        match command {
            Command::Go(g) | Command::Ready(g) if usize::from(g.0) >= self.bodies => Some(
                Stray::Body(*g),
            ),
            Command::Send(c, ..)
            | Command::Recv(c, ..)
            | Command::Close(c)
            | Command::Len(c)
            | Command::Cap(c) => self.lacks(*c),
            Command::Select(cases, ..) => cases.as_slice().iter().find_map(|case| match case {
                Case::Send(c, _) | Case::Recv(c) => self.lacks(*c),
            }),
            _ => None,
        }
    }
}

/// The number of the first line, counted from 1, that names what isn't there, and what that is. The text is that of the script, whose runs may
/// have so many channels at most.
pub fn first_stray(
    alloc: Global,
    text: &[u8],
    script: &Script,
    most: u16,
) -> Result<Option<(u64, Stray)>, AllocError> {
    let stock = Stock::of(script, most);
    let mut number = 0u64;
    for line in text.split(|byte| *byte == b'\n') {
        number = number.saturating_add(1);
        let said = line_of(alloc, line)?;
        if let Some(Line::Command(command)) = &said
            && let Some(stray) = stock.first_in(command)
        {
            return Ok(Some((number, stray)));
        }
    }
    Ok(None)
}
