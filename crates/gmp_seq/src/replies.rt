//! What a reply says and gives out: the ticket, what the goroutine is told, the count. All of it follows from the reply, which is entered,
//! so what a body was told can be read off the history. Inlined, since the reply's kind is known where most of them are asked.
ghost use Rattle.std.specs.Prelude.{◌≡◌};
ghost use Rattle.gmp_seq.specs.Step.{closed_in, is_wait, sender_in, ticket_in, ticket_of, woke_after};

use crate::call::{Relay, Reply, Taken};
use gmp_base::{Fault, Readiness, Woke};

/// The sender that a receive served.
#[inline(always)]
fn sender_in(from: Option<Relay>) -> Option<Readiness>
    ensures { result ≡ sender_in from }
{
    from.map(|relay| relay.sender)
}

impl Taken {
    /// The ticket that a communication of a select gave out.
    #[inline(always)]
    fn ticket(self) -> Option<Readiness>
        ensures { result ≡ ticket_of self }
    {
        match self {
            Taken::Sent(to) => to,
            Taken::Got(_, _, from) => sender_in(from),
            Taken::Failed => None,
        }
    }

    /// What the goroutine is told whose select took this case.
    #[inline(always)]
    fn woke(self, case: u8) -> Woke
        ensures { result ≡ woke_after (Reply.Chose case self) }
    {
        match self {
            Taken::Sent(_) => Woke::Chose(case, None),
            Taken::Got(v, sent, _) => Woke::Chose(case, Some((v, sent))),
            Taken::Failed => Woke::Fault(Fault::SendOnClosed),
        }
    }
}

impl Reply {
    /// The ticket that the call gave out. `go`, `ready` and a served waiter give one to the machine, which fits a reply; a close or a tick
    /// may wake as many as there are bodies, and puts them onto the shelf, which has room for all.
    #[inline(always)]
    pub fn ticket(self) -> Option<Readiness>
        ensures { result ≡ ticket_in self }
    {
        match self {
            Reply::Ticket(r) => Some(r),
            Reply::Sent(to) => to,
            Reply::Got(_, _, from) => sender_in(from),
            Reply::Chose(_, taken) => taken.ticket(),
            _ => None,
        }
    }

    /// What the goroutine that asked is told, where it goes on.
    #[inline(always)]
    pub fn woke(self) -> Woke
        ensures { result ≡ woke_after self }
    {
        match self {
            Reply::Fault(fault) => Woke::Fault(fault),
            Reply::Got(v, sent, _) => Woke::Got(v, sent),
            Reply::Chose(case, taken) => taken.woke(case),
            Reply::Default => Woke::Default,
            Reply::Number(n) => Woke::Number(n),
            Reply::Channel(c) => Woke::Made(c),
            _ => Woke::Done,
        }
    }

    /// How many a close woke, and 0 for any other reply.
    #[inline(always)]
    pub fn closed(self) -> u64
        ensures { result ≡ closed_in self }
    {
        match self {
            Reply::Closed(count) => count,
            _ => 0,
        }
    }

    /// Whether the goroutine that asked waits.
    pub fn is_wait(self) -> bool
        ensures { result ≡ is_wait self }
    {
        matches!(self, Reply::Waits)
    }
}
