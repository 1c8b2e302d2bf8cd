//! What a body of a script says: `Command` is one ask, `ScriptBody` the body with its list.
ghost use Rattle.std.specs.Prelude.{◌≡◌};

use crate::reader::Reader;
use gmp_base::{Ask, Body, CNo, Cases, GNo, Woke};
use std::alloc::{AllocError, Global};
use std::marker::Model;

/// A command of a script's body: what it asks next. `None` for a channel is nil.
#[derive(Debug, Drop)]
pub enum Command {
    Yield,
    Go(GNo),
    /// A channel of this capacity.
    Make(u32),
    Send(Option<CNo>, u64),
    /// The channel, and how many of the commands behind it are skipped where it is closed and empty.
    Recv(Option<CNo>, u16),
    Close(Option<CNo>),
    Len(Option<CNo>),
    Cap(Option<CNo>),
    /// How many processors are active from now on.
    Procs(u8),
    /// The cases, whether there is a default, and the moment at which the wait ends, in nanoseconds.
    Select(Cases, bool, Option<u64>),
    /// The moment until which it sleeps, in nanoseconds.
    Sleep(u64),
    /// Waits until another goroutine readies it.
    Park,
    Ready(GNo),
    /// A blocking call that answers this number.
    Block(u64),
    Exit,
    /// No ask: goes on with the body's first command.
    Again,
}

/// A body of a script. It asks `Exit` once its commands are spent. Of what it is told it minds one thing: where a receive found its channel closed
/// and empty, the commands that this one skips are passed over.
///
/// A contract sees its commands and the place of the next one. The first command is never `Again`.
#[derive(Debug, Drop)]
pub struct ScriptBody {
    /// What it asks, in order, with its `Again`s.
    commands: Vec<Command>,
    /// The place of the next command; behind a blocking call it is the one after it, so `blocking` looks one back.
    next: usize,
}

impl Command {
    ghost use Rattle.std.specs.Prelude.{◌≡◌, Some};
    ghost use Rattle.gmp_script.specs.Script.{ask_of};

    /// Writes what the command asks. No body asks by its `Again`.
    #[inline(always)]
    fn ask(&self, out: &mut Ask)
        ensures { out.new ≡ ask_of (Some self.now) }
    {
        match self {
            Command::Yield => *out = Ask::Yield,
            Command::Go(g) => *out = Ask::Go(*g),
            Command::Make(capacity) => *out = Ask::Make(*capacity),
            Command::Send(c, value) => *out = Ask::Send(*c, *value),
            Command::Recv(c, _) => *out = Ask::Recv(*c),
            Command::Close(c) => *out = Ask::Close(*c),
            Command::Len(c) => *out = Ask::Len(*c),
            Command::Cap(c) => *out = Ask::Cap(*c),
            Command::Procs(n) => *out = Ask::Procs(*n),
            Command::Select(cases, has_default, until) => {
                select_ask(cases, *has_default, *until, out);
            }
            Command::Sleep(until) => *out = Ask::Sleep(*until),
            Command::Park => *out = Ask::Park,
            Command::Ready(g) => *out = Ask::Ready(*g),
            Command::Block(_) => *out = Ask::Block,
            Command::Exit | Command::Again => *out = Ask::Exit,
        }
    }

    /// The same command once more. It takes no memory.
    fn copied(&self) -> Self
        ensures { result ≡ self.now }
    {
        match self {
            Command::Yield => Command::Yield,
            Command::Go(g) => Command::Go(*g),
            Command::Make(capacity) => Command::Make(*capacity),
            Command::Send(c, value) => Command::Send(*c, *value),
            Command::Recv(c, skip) => Command::Recv(*c, *skip),
            Command::Close(c) => Command::Close(*c),
            Command::Len(c) => Command::Len(*c),
            Command::Cap(c) => Command::Cap(*c),
            Command::Procs(n) => Command::Procs(*n),
            Command::Select(cases, has_default, until) => {
                Command::Select(cases.copied(), *has_default, *until)
            }
            Command::Sleep(until) => Command::Sleep(*until),
            Command::Park => Command::Park,
            Command::Ready(g) => Command::Ready(*g),
            Command::Block(number) => Command::Block(*number),
            Command::Exit => Command::Exit,
            Command::Again => Command::Again,
        }
    }
}

/// The ask of a select. It has a function of its own, since it is wide: whoever asks something else makes none.
#[inline(never)]
fn select_ask(cases: &Cases, has_default: bool, until: Option<u64>, out: &mut Ask)
    ensures { out.new ≡ Ask.Select cases.now has_default until }
{
    *out = Ask::Select(cases.copied(), has_default, until);
}

impl Model for ScriptBody {
    ghost use Rattle.std.specs.Prelude.{◌≡◌, false};
    ghost use Rattle.gmp_script.specs.Script.{Commands, begins_again};

    ghost Value = { Commands };

    ghost view = { λ b. record { commands = b.commands.items; next = b.next } };

    ghost invariant = { λ b. begins_again b.commands.items ≡ false };
}

impl ScriptBody {
    ghost use Rattle.std.specs.Prelude.{◌≡◌, ◌++◌, ◌∷◌, ◌<◌, [], false, length, IfOk, OnOk, OnErr, IsTrue, ◌↔◌};
    ghost use Rattle.gmp_script.specs.Read.{body_of};
    ghost use Rattle.gmp_script.specs.Script.{begins_again};

    /// A body with no command.
    pub fn new(alloc: Global) -> Self
        ensures { result ≡ record { commands = []; next = 0 } }
    {
        ScriptBody {
            commands: Vec::new(alloc),
            next: 0,
        }
    }

    /// The commands, in order.
    pub fn commands(&self) -> &[Command]
        ensures value { result.now ≡ self.now.commands }
        ensures begin { begins_again self.now.commands ≡ false }
    {
        &self.commands
    }

    /// The body, to be read on from where it is.
    pub fn reader(&self) -> Reader<'_>
        ensures { body_of result ≡ self.now }
    {
        Reader {
            commands: &self.commands,
            next: self.next,
        }
    }

    /// Whether the command may come next: `Again` may not come first.
    pub fn accepts(&self, command: &Command) -> bool
        ensures { IsTrue result ↔ (begins_again (self.now.commands ++ command.now ∷ []) ≡ false) }
    {
        !matches!(command, Command::Again) || !self.commands.is_empty()
    }

    /// Adds a command at the end, which the body accepts. Where memory is refused, nothing changes.
    pub fn push(&mut self, command: Command) -> Result<(), AllocError>
        requires { begins_again (self.old.commands ++ command ∷ []) ≡ false }
        ensures ok { OnOk result (self.new ≡ record self.old { commands = self.old.commands ++ command ∷ [] }) }
        ensures err { OnErr result (self.new ≡ self.old) }
    {
        self.commands.push(command)?;
        Ok(())
    }

    /// The same body once more, which has come as far.
    pub fn copied(&self, alloc: Global) -> Result<Self, AllocError>
        ensures { IfOk result (λ body. body ≡ self.now) }
    {
        let mut commands = Vec::with_capacity(alloc, self.commands.len())?;
        for command in &self.commands {
            commands.push(command.copied())?;
        }
        Ok(ScriptBody {
            commands,
            next: self.next,
        })
    }
}

impl Body for ScriptBody {
    ghost use Rattle.gmp_script.specs.Script.{AsksTold, BringsLast};

    ghost resumed = { λ before woke ask after. AsksTold before woke ask after };

    ghost blocked = { λ before n after. BringsLast before n after };

    fn resume(&mut self, woke: Woke) -> Ask {
        let mut ask = Ask::Exit;
        self.resume_into(woke, &mut ask);
        ask
    }

    // A fault, too, is passed over. Where a machine resumes it, nothing is copied of what it is told.
    #[inline(always)]
    fn resume_into(&mut self, woke: Woke, out: &mut Ask) {
        let mut reader = self.reader();
        reader.hear(woke);
        match reader.go_on() {
            Some(command) => command.ask(out),
            None => *out = Ask::Exit,
        }
        self.next = reader.next;
    }

    fn blocking(&mut self) -> u64 {
        self.reader().asked_last()
    }
}
