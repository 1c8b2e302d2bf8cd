//! Goroutines that are waited for.
ghost use Rattle.std.specs.Prelude.{◌≡◌, ◌+◌, IfSome, None, OnSome};

use crate::channel::Channel;
use gmp_base::Ask;

/// Goroutines that are waited for, as by Go's `sync.WaitGroup`: each sends on a channel when it is done, and who waits receives as often.
#[derive(Clone, Copy, Debug, PartialEq, Eq)]
pub struct Group {
    pub channel: Channel,
    /// How many are still waited for.
    pub left: u32,
}

impl Group {
    /// What one of them asks when it is done.
    pub fn done(self) -> Ask
        ensures { result ≡ Ask.Send self.channel.0 1 }
    {
        self.channel.send(1)
    }

    /// What who waits asks, again after each answer, until all are done.
    pub fn wait(&mut self) -> Option<Ask>
        ensures none { result ≡ None → (self.old.left ≡ 0) × (self.new.left ≡ 0) }
        ensures ask { IfSome result (λ ask. ask ≡ Ask.Recv self.old.channel.0) }
        ensures left { OnSome result (self.new.left + 1 ≡ self.old.left) }
        ensures channel { self.new.channel ≡ self.old.channel }
    {
        self.left = self.left.checked_sub(1)?;
        Some(self.channel.recv())
    }
}
