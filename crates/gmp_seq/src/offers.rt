//! What a case offers, what an offer would do, and what one that waited is told: functions on `Offer`, `Offers`, `Waiter` and `Kind` of
//! status.rt. They say nothing of tables, and each is proved equal to a word of the definitions, so the book and the plain scheduler that
//! checks it share them.
ghost use Rattle.std.specs.Prelude.{◌≡◌, ◌≤◌, ◌∷◌, [], length, option_to_list};
ghost use Rattle.gmp_seq.specs.Table.{late_answer};
ghost use Rattle.gmp_seq.specs.Waits.{channel_of, closed_answer, direction_of, first_offer_on, is_on, is_select, offered, offers_from, offers_of, receiver_answer, same_direction, sender_answer};

use crate::status::{Deal, Direction, Kind, Offer, Offers, Waiter};
use gmp_base::{CNo, Case, Fault, Woke};

/// The channel that a case names: none is nil.
pub fn channel_of(case: Case) -> Option<CNo>
    ensures { result ≡ channel_of case }
{
    match case {
        Case::Send(c, _) => c,
        Case::Recv(c) => c,
    }
}

/// Directions, compared.
fn same_direction(a: Direction, b: Direction) -> bool
    ensures { result ≡ same_direction a b }
{
    matches!(
        (a, b),
        (Direction::Sending, Direction::Sending) | (Direction::Receiving, Direction::Receiving)
    )
}

impl Deal {
    /// Which end of the channel it is.
    pub fn direction(self) -> Direction
        ensures { result ≡ direction_of self }
    {
        match self {
            Deal::Send(_) => Direction::Sending,
            Deal::Receive => Direction::Receiving,
        }
    }
}

impl Kind {
    /// A select is told its case's number, a plain send or receive isn't.
    fn is_select(self) -> bool
        ensures { result ≡ is_select self }
    {
        matches!(self, Kind::Select)
    }

    /// What one that waits so is told when its deadline comes: a sleep is done, a select is late.
    pub fn late_answer(self) -> Woke
        ensures { result ≡ late_answer self }
    {
        match self {
            Kind::Sleep => Woke::Done,
            _ => Woke::Late,
        }
    }
}

impl Offer {
    /// What the case of this number offers once it waits: nothing on nil, on which no communication ever proceeds (Go specification, Send
    /// statements and Receive operator).
    pub fn of(number: u8, case: Case) -> Option<Self>
        ensures { option_to_list result ≡ offers_from number (case ∷ []) }
    {
        let (channel, deal) = match case {
            Case::Send(c, v) => (c?, Deal::Send(v)),
            Case::Recv(c) => (c?, Deal::Receive),
        };
        Some(Offer {
            case: number,
            channel,
            deal,
        })
    }

    /// What a receiver is told that gets v, which was sent or not: what it would have been told without waiting (`laws::told_alike`).
    pub fn receiver_answer(self, kind: Kind, v: u64, sent: bool) -> Woke
        ensures { result ≡ receiver_answer kind self v sent }
    {
        if kind.is_select() {
            Woke::Chose(self.case, Some((v, sent)))
        } else {
            Woke::Got(v, sent)
        }
    }

    /// What one is told whose channel is closed (Go specification, Close): a receiver gets the zero value, a sender the fault. The fault
    /// names no case, as Go's panic names none.
    pub fn closed_answer(self, kind: Kind) -> Woke
        ensures { result ≡ closed_answer kind self }
    {
        match self.deal {
            Deal::Send(_) => Woke::Fault(Fault::SendOnClosed),
            Deal::Receive => self.receiver_answer(kind, 0, false),
        }
    }
}

impl Offers {
    /// An offer for each case that isn't on nil, by its number. A plain send or receive waits as a select of one case does, so that
    /// waiting, serving and closing are stated once.
    pub fn of(cases: &[Case]) -> Self
        requires { length cases.now ≤ 8 }
        ensures { result ≡ offers_of cases.now }
    {
        let mut offers = Offers::new();
        for (i, case) in cases.iter().enumerate() {
            if let Some(offer) = Offer::of(i as u8, *case) {
                offers.push(offer);
            }
        }
        offers
    }

    /// The first that is on this channel. A close tells a select this one, where Go may tell any: the reply is a count, so the next state
    /// would not follow from it otherwise.
    pub fn first_offer_on(&self, c: CNo) -> Option<Offer>
        ensures { result ≡ first_offer_on c self.now }
    {
        self.as_slice()
            .iter()
            .copied()
            .find(|offer| offer.channel.0 == c.0)
    }
}

impl Waiter {
    /// Whether the offer is on this channel, in this direction.
    pub fn is_on(self, c: CNo, direction: Direction) -> bool
        ensures { result ≡ is_on c direction self }
    {
        self.offer.channel.0 == c.0 && same_direction(direction, self.offer.deal.direction())
    }

    /// The value that a waiting sender offers, and 0 for a receiver.
    pub fn offered(self) -> u64
        ensures { result ≡ offered self }
    {
        match self.offer.deal {
            Deal::Send(v) => v,
            Deal::Receive => 0,
        }
    }

    /// What a sender is told whose value is taken.
    pub fn sender_answer(self) -> Woke
        ensures { result ≡ sender_answer self }
    {
        if self.kind.is_select() {
            Woke::Chose(self.offer.case, None)
        } else {
            Woke::Done
        }
    }
}
