//! A body that is read where its commands stand: what it asks from a place on, by what it is told.
ghost use Rattle.std.specs.Prelude.{◌≡◌};
ghost use Rattle.std.specs.Option.{option_copied};
ghost use Rattle.gmp_script.specs.Read.{body_of};
ghost use Rattle.gmp_script.specs.Script.{AsksNext, ask_of, asked_last, heard, place_of, skipped};

use crate::commands::Command;
use gmp_base::Woke;

/// A body of these commands, which takes no memory, and asks what a `ScriptBody` of them asks. `body_of` is what contracts see of it.
#[derive(Clone, Copy, Debug)]
pub struct Reader<'a> {
    pub commands: &'a [Command],
    /// The place of the next one.
    pub next: usize,
}

/// The place behind the commands that the last one before this place skips. Whoever is told anything else never comes here.
#[inline(never)]
fn skipped(commands: &[Command], next: usize) -> usize
    ensures { result ≡ skipped (record { commands = commands.now; next = next }) }
{
    let Some(place) = next.checked_sub(1) else {
        return 0;
    };
    match commands.get(place) {
        Some(Command::Recv(_, skip)) => next + usize::from(*skip),
        _ => next,
    }
}

impl<'a> Reader<'a> {
    /// The place of the command that is asked next: after the last one before `Again` comes the first.
    #[inline(always)]
    pub fn place(&self) -> usize
        ensures { result ≡ place_of (body_of self.now) }
    {
        match self.commands.get(self.next) {
            Some(Command::Again) => 0,
            _ => self.next,
        }
    }

    /// Goes on behind the command that is asked next, which it gives: none, where they are spent.
    #[inline(always)]
    pub fn go_on(&mut self) -> Option<&'a Command>
        ensures { AsksNext (body_of self.old) (ask_of (option_copied result)) (body_of self.new) }
    {
        self.next = self.place();
        let command = self.commands.get(self.next)?;
        self.next += 1;
        Some(command)
    }

    /// Minds what it is told.
    #[inline(always)]
    pub fn hear(&mut self, woke: Woke)
        ensures { body_of self.new ≡ heard woke (body_of self.old) }
    {
        if matches!(woke, Woke::Got(_, false)) {
            self.next = skipped(self.commands, self.next);
        }
    }

    /// The number that its last command says, where that is a `block`, and else 0.
    pub fn asked_last(&self) -> u64
        ensures { result ≡ asked_last (body_of self.now) }
    {
        let Some(place) = self.next.checked_sub(1) else {
            return 0;
        };
        match self.commands.get(place) {
            Some(Command::Block(number)) => *number,
            _ => 0,
        }
    }
}
