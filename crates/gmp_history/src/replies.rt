//! A reply made brief (`brief_reply`) and whole again (`whole_reply`): one arm for each variant, and the second undoes the first. What a
//! receive got that served a waiting sender stands in functions that are not inlined, as what is wide of a call.
ghost use Rattle.std.specs.Prelude.{◌≡◌, ℕ, true, false, ◌<◌, ◌∷◌, ◌++◌, [], List, length, slice_get, vec_capacity};
ghost use Rattle.gmp_base.specs.Fits.{IsWord};
ghost use Rattle.gmp_seq.specs.Fits.{FitsRelay, FitsReply};
ghost use Rattle.gmp_history.specs.Brief.{IsReplyIn, reply_of, served_by, served_of};

use crate::brief::{BriefReply, ReplyKind, Served};
use crate::numbers::{channel, machine, machine_of, processor, readiness, ready};
use gmp_base::{CNo, Fault, PNo};
use gmp_seq::{Relay, Reply, Taken};

/// The number that a sender gets who was served, with what the receive got; it goes last among those. Apart, since a receive that serves
/// nobody is the common one.
#[inline(never)]
fn numbered(served: &mut Vec<Served>, value: u64, was_sent: bool, from: Relay) -> u64
    requires room { length served.old.items < vec_capacity served.old }
    ensures value { result ≡ length served.old.items }
    ensures served { served.new.items ≡ served.old.items ++ record { value = value; was_sent = was_sent; from = from } ∷ [] }
    ensures fits { IsWord value × FitsRelay from }
    ensures room { vec_capacity served.new ≡ vec_capacity served.old }
{
    let number = served.len() as u64;
    served.push_reserved(Served {
        value,
        was_sent,
        from,
    });
    number
}

/// The kind of a reply that is this fault.
#[inline(never)]
fn fault_kind(fault: Fault) -> ReplyKind
    ensures value { (served : List Served) (small number word : ℕ) → reply_of served result small number word ≡ Reply.Fault fault }
    ensures there { (n word : ℕ) → IsReplyIn n result word }
{
    match fault {
        Fault::NoSuchBody => ReplyKind::NoSuchBody,
        Fault::AlreadyStarted => ReplyKind::AlreadyStarted,
        Fault::NoSuchChannel => ReplyKind::NoSuchChannel,
        Fault::SendOnClosed => ReplyKind::SendOnClosed,
        Fault::CloseOfClosed => ReplyKind::CloseOfClosed,
        Fault::CloseOfNil => ReplyKind::CloseOfNil,
        Fault::NotParked => ReplyKind::NotParked,
        Fault::BadCapacity => ReplyKind::BadCapacity,
        Fault::TooManyChannels => ReplyKind::TooManyChannels,
        Fault::BadProcs => ReplyKind::BadProcs,
    }
}

/// The reply made brief. What a receive got that served a sender goes last among those.
#[inline(always)]
pub(crate) fn brief_reply(served: &mut Vec<Served>, reply: &Reply) -> BriefReply
    requires room { length served.old.items < vec_capacity served.old }
    ensures value { reply_of served.new.items result.kind result.small result.number result.word ≡ reply.now }
    ensures served { served.new.items ≡ served.old.items ++ served_by reply.now }
    ensures there { IsReplyIn (length served.new.items) result.kind result.word }
    ensures fits { FitsReply reply.now }
    ensures room { vec_capacity served.new ≡ vec_capacity served.old }
{
    match reply {
        Reply::Proc(p) => BriefReply::new(ReplyKind::Proc, processor(*p).0, 0, 0),
        Reply::Nothing => BriefReply::new(ReplyKind::Nothing, 0, 0, 0),
        Reply::Ticket(r) => {
            let r = ready(*r);
            BriefReply::new(ReplyKind::Ticket, 0, r.g.0, r.epoch)
        }
        Reply::Shelf => BriefReply::new(ReplyKind::Shelf, 0, 0, 0),
        Reply::Held => BriefReply::new(ReplyKind::Held, 0, 0, 0),
        Reply::Shelved(r) => {
            let r = ready(*r);
            BriefReply::new(ReplyKind::Shelved, 0, r.g.0, r.epoch)
        }
        Reply::Dead => BriefReply::new(ReplyKind::Dead, 0, 0, 0),
        Reply::MainEnded => BriefReply::new(ReplyKind::MainEnded, 0, 0, 0),
        Reply::Channel(c) => BriefReply::new(ReplyKind::Channel, 0, channel(*c).0, 0),
        Reply::Sent(None) => BriefReply::new(ReplyKind::Sent, 0, 0, 0),
        Reply::Sent(Some(r)) => {
            let r = ready(*r);
            BriefReply::new(ReplyKind::SentTo, 0, r.g.0, r.epoch)
        }
        // A receive that serves nobody takes no number: most do, and then nothing is written beside the row.
        Reply::Got(v, true, None) => BriefReply::new(ReplyKind::Got, 0, 0, *v),
        Reply::Got(v, false, None) => BriefReply::new(ReplyKind::GotUnsent, 0, 0, *v),
        Reply::Got(v, sent, Some(from)) => {
            BriefReply::new(ReplyKind::GotFrom, 0, 0, numbered(served, *v, *sent, *from))
        }
        Reply::Waits => BriefReply::new(ReplyKind::Waits, 0, 0, 0),
        Reply::Closed(count) => BriefReply::new(ReplyKind::Closed, 0, 0, *count),
        Reply::Number(n) => BriefReply::new(ReplyKind::Number, 0, 0, *n),
        Reply::Chose(i, Taken::Sent(None)) => BriefReply::new(ReplyKind::ChoseSent, *i, 0, 0),
        Reply::Chose(i, Taken::Sent(Some(r))) => {
            let r = ready(*r);
            BriefReply::new(ReplyKind::ChoseSentTo, *i, r.g.0, r.epoch)
        }
        Reply::Chose(i, Taken::Got(v, true, None)) => {
            BriefReply::new(ReplyKind::ChoseGot, *i, 0, *v)
        }
        Reply::Chose(i, Taken::Got(v, false, None)) => {
            BriefReply::new(ReplyKind::ChoseGotUnsent, *i, 0, *v)
        }
        Reply::Chose(i, Taken::Got(v, sent, Some(from))) => {
            BriefReply::new(
                ReplyKind::ChoseGotFrom,
                *i,
                0,
                numbered(served, *v, *sent, *from),
            )
        }
        Reply::Chose(i, Taken::Failed) => BriefReply::new(ReplyKind::ChoseFailed, *i, 0, 0),
        Reply::Default => BriefReply::new(ReplyKind::Default, 0, 0, 0),
        Reply::Entered(p, None) => BriefReply::new(ReplyKind::Entered, processor(*p).0, 0, 0),
        Reply::Entered(p, Some(m)) => BriefReply::new(
            ReplyKind::EnteredWaking,
            processor(*p).0,
            u16::from(machine(*m).0),
            0,
        ),
        Reply::Runs(p) => BriefReply::new(ReplyKind::Runs, processor(*p).0, 0, 0),
        Reply::Idle(p) => BriefReply::new(ReplyKind::Idle, processor(*p).0, 0, 0),
        Reply::Answer(true) => BriefReply::new(ReplyKind::Yes, 0, 0, 0),
        Reply::Answer(false) => BriefReply::new(ReplyKind::No, 0, 0, 0),
        Reply::Done => BriefReply::new(ReplyKind::Done, 0, 0, 0),
        Reply::Wakes(m) => BriefReply::new(ReplyKind::Wakes, 0, u16::from(machine(*m).0), 0),
        Reply::Parked => BriefReply::new(ReplyKind::Parked, 0, 0, 0),
        Reply::Work => BriefReply::new(ReplyKind::Work, 0, 0, 0),
        Reply::LookAgain => BriefReply::new(ReplyKind::LookAgain, 0, 0, 0),
        Reply::Mind(until) => BriefReply::new(ReplyKind::Mind, 0, 0, *until),
        Reply::AllAsleep => BriefReply::new(ReplyKind::AllAsleep, 0, 0, 0),
        Reply::Woke(count) => BriefReply::new(ReplyKind::Woke, 0, 0, *count),
        Reply::Fault(fault) => BriefReply::new(fault_kind(*fault), 0, 0, 0),
    }
}

/// What the receive got of this number. No row of a history has the number of none; the definition says the same, so that the equation holds
/// of any.
#[inline(never)]
fn served_in(served: &[Served], number: u64) -> Served
    ensures { result ≡ served_of (slice_get served.now number) }
{
    match served.get(number as usize) {
        Some(x) => *x,
        None => Served {
            value: 0,
            was_sent: false,
            from: Relay {
                sender: readiness(0, 0),
                value: 0,
            },
        },
    }
}

/// The reply that was made brief.
#[inline(always)]
pub(crate) fn whole_reply(served: &[Served], brief: BriefReply) -> Reply
    ensures { result ≡ reply_of served.now brief.kind brief.small brief.number brief.word }
{
    let BriefReply {
        kind,
        small,
        number,
        word,
    } = brief;
    match kind {
        ReplyKind::Proc => Reply::Proc(PNo(small)),
        ReplyKind::Nothing => Reply::Nothing,
        ReplyKind::Ticket => Reply::Ticket(readiness(number, word)),
        ReplyKind::Shelf => Reply::Shelf,
        ReplyKind::Held => Reply::Held,
        ReplyKind::Shelved => Reply::Shelved(readiness(number, word)),
        ReplyKind::Dead => Reply::Dead,
        ReplyKind::MainEnded => Reply::MainEnded,
        ReplyKind::Channel => Reply::Channel(CNo(number)),
        ReplyKind::Sent => Reply::Sent(None),
        ReplyKind::SentTo => Reply::Sent(Some(readiness(number, word))),
        ReplyKind::Got => Reply::Got(word, true, None),
        ReplyKind::GotUnsent => Reply::Got(word, false, None),
        ReplyKind::GotFrom => {
            let x = served_in(served, word);
            Reply::Got(x.value, x.was_sent, Some(x.from))
        }
        ReplyKind::Waits => Reply::Waits,
        ReplyKind::Closed => Reply::Closed(word),
        ReplyKind::Number => Reply::Number(word),
        ReplyKind::ChoseSent => Reply::Chose(small, Taken::Sent(None)),
        ReplyKind::ChoseSentTo => Reply::Chose(small, Taken::Sent(Some(readiness(number, word)))),
        ReplyKind::ChoseGot => Reply::Chose(small, Taken::Got(word, true, None)),
        ReplyKind::ChoseGotUnsent => Reply::Chose(small, Taken::Got(word, false, None)),
        ReplyKind::ChoseGotFrom => {
            let x = served_in(served, word);
            Reply::Chose(small, Taken::Got(x.value, x.was_sent, Some(x.from)))
        }
        ReplyKind::ChoseFailed => Reply::Chose(small, Taken::Failed),
        ReplyKind::Default => Reply::Default,
        ReplyKind::Entered => Reply::Entered(PNo(small), None),
        ReplyKind::EnteredWaking => Reply::Entered(PNo(small), Some(machine_of(number))),
        ReplyKind::Runs => Reply::Runs(PNo(small)),
        ReplyKind::Idle => Reply::Idle(PNo(small)),
        ReplyKind::Yes => Reply::Answer(true),
        ReplyKind::No => Reply::Answer(false),
        ReplyKind::Done => Reply::Done,
        ReplyKind::Wakes => Reply::Wakes(machine_of(number)),
        ReplyKind::Parked => Reply::Parked,
        ReplyKind::Work => Reply::Work,
        ReplyKind::LookAgain => Reply::LookAgain,
        ReplyKind::Mind => Reply::Mind(word),
        ReplyKind::AllAsleep => Reply::AllAsleep,
        ReplyKind::Woke => Reply::Woke(word),
        ReplyKind::NoSuchBody => Reply::Fault(Fault::NoSuchBody),
        ReplyKind::AlreadyStarted => Reply::Fault(Fault::AlreadyStarted),
        ReplyKind::NoSuchChannel => Reply::Fault(Fault::NoSuchChannel),
        ReplyKind::SendOnClosed => Reply::Fault(Fault::SendOnClosed),
        ReplyKind::CloseOfClosed => Reply::Fault(Fault::CloseOfClosed),
        ReplyKind::CloseOfNil => Reply::Fault(Fault::CloseOfNil),
        ReplyKind::NotParked => Reply::Fault(Fault::NotParked),
        ReplyKind::BadCapacity => Reply::Fault(Fault::BadCapacity),
        ReplyKind::TooManyChannels => Reply::Fault(Fault::TooManyChannels),
        ReplyKind::BadProcs => Reply::Fault(Fault::BadProcs),
    }
}
