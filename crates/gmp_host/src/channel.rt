//! A channel, and what is asked of it.
ghost use Rattle.std.specs.Prelude.{◌≡◌, Some};

use gmp_base::{Ask, CNo};

/// A channel of a host, or one that was made, or nil, on which nothing ever proceeds.
#[derive(Clone, Copy, Debug, PartialEq, Eq)]
pub struct Channel(pub Option<CNo>);

impl Channel {
    /// The nil channel.
    pub const NIL: Channel = Channel(None);

    /// The channel of this number, as `Woke::Made` tells it.
    pub fn of(number: CNo) -> Self
        ensures { result.0 ≡ Some number }
    {
        Channel(Some(number))
    }

    /// Sends the value: `c <- value`.
    pub fn send(self, value: u64) -> Ask
        ensures { result ≡ Ask.Send self.0 value }
    {
        Ask::Send(self.0, value)
    }

    /// Receives a value: `<-c`.
    pub fn recv(self) -> Ask
        ensures { result ≡ Ask.Recv self.0 }
    {
        Ask::Recv(self.0)
    }

    /// Closes the channel: `close(c)`.
    pub fn close(self) -> Ask
        ensures { result ≡ Ask.Close self.0 }
    {
        Ask::Close(self.0)
    }
}
