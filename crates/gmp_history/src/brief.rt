//! An entry in 32 bytes: its `Row`, with the call (`BriefCall`) and the reply (`BriefReply`) each as a kind and its numbers. What a select
//! asks (`Choosing`) and what a receive that served a waiting sender got (`Served`) lie apart.
ghost use Rattle.std.specs.Prelude.{◌≡◌};
ghost use Rattle.gmp_history.specs.Brief.{call_part, reply_part};

use gmp_base::{Cases, MNo};
use gmp_seq::Relay;

/// What a select asks: 136 bytes of cases, and so wider than all else that is asked.
#[derive(Debug, Drop)]
pub(crate) struct Choosing {
    pub(crate) cases: Cases,
    pub(crate) has_default: bool,
    pub(crate) until: Option<u64>,
}

/// What a receive got that served a waiting sender: the value, whether it was sent, and whom it served.
#[derive(Clone, Copy, Debug)]
pub(crate) struct Served {
    pub(crate) value: u64,
    pub(crate) was_sent: bool,
    pub(crate) from: Relay,
}

/// Which call it is, by the variants of `Call` of gmp_seq. A call on the nil channel has a kind of its own, so that no number stands for
/// nil.
#[derive(Clone, Copy, Debug)]
pub enum CallKind {
    Acquire,
    Take,
    Put,
    Claim,
    Go,
    Spawn,
    Yield,
    Exit,
    Make,
    Send,
    SendNil,
    Recv,
    RecvNil,
    Close,
    CloseNil,
    Len,
    LenNil,
    Cap,
    CapNil,
    Select,
    Sleep,
    Procs,
    Gopark,
    Ready,
    Enter,
    Leave,
    Spin,
    Woken,
    Keep,
    Unspin,
    Poke,
    Declare,
    Bare,
    Park,
    Tick,
}

/// Which reply it is, by the variants of `Reply` of gmp_seq and of what stands in them.
#[derive(Clone, Copy, Debug)]
pub(crate) enum ReplyKind {
    Proc,
    Nothing,
    Ticket,
    Shelf,
    Held,
    Shelved,
    Dead,
    MainEnded,
    Channel,
    Sent,
    SentTo,
    Got,
    /// Got what was not sent.
    GotUnsent,
    GotFrom,
    Waits,
    Closed,
    Number,
    ChoseSent,
    ChoseSentTo,
    ChoseGot,
    ChoseGotUnsent,
    ChoseGotFrom,
    ChoseFailed,
    Default,
    Entered,
    EnteredWaking,
    Runs,
    Idle,
    Yes,
    No,
    Done,
    Wakes,
    Parked,
    Work,
    LookAgain,
    Mind,
    AllAsleep,
    Woke,
    NoSuchBody,
    AlreadyStarted,
    NoSuchChannel,
    SendOnClosed,
    CloseOfClosed,
    CloseOfNil,
    NotParked,
    BadCapacity,
    TooManyChannels,
    BadProcs,
}

/// A call as a row has it.
#[derive(Clone, Copy)]
pub(crate) struct BriefCall {
    pub(crate) kind: CallKind,
    /// The channel or the goroutine.
    pub(crate) number: u16,
    /// The epoch, the value, the capacity, the moment, the count, or the number of a blocking call; of a select the number of its choosing,
    /// from 0.
    pub(crate) word: u64,
}

/// A reply as a row has it.
#[derive(Clone, Copy)]
pub(crate) struct BriefReply {
    pub(crate) kind: ReplyKind,
    /// The case or the processor.
    pub(crate) small: u8,
    /// The channel, the goroutine or the machine.
    pub(crate) number: u16,
    /// The epoch, the value, the count or the moment; where a waiting sender was served the number of that, from 0.
    pub(crate) word: u64,
}

/// An entry. Fields lie as they stand here: 8 bytes of small ones, then three words.
#[derive(Clone, Copy, Debug)]
pub(crate) struct Row {
    pub(crate) m: MNo,
    pub(crate) call: CallKind,
    pub(crate) reply: ReplyKind,
    pub(crate) reply_small: u8,
    pub(crate) call_number: u16,
    pub(crate) reply_number: u16,
    pub(crate) k: u64,
    pub(crate) call_word: u64,
    pub(crate) reply_word: u64,
}

impl BriefCall {
    #[inline(always)]
    pub(crate) fn new(kind: CallKind, number: u16, word: u64) -> Self
        ensures { result ≡ record { kind = kind; number = number; word = word } }
    {
        BriefCall { kind, number, word }
    }
}

impl BriefReply {
    #[inline(always)]
    pub(crate) fn new(kind: ReplyKind, small: u8, number: u16, word: u64) -> Self
        ensures { result ≡ record { kind = kind; small = small; number = number; word = word } }
    {
        BriefReply {
            kind,
            small,
            number,
            word,
        }
    }
}

impl Row {
    /// The call, as the row has it.
    #[inline(always)]
    pub(crate) fn brief_call(&self) -> BriefCall
        ensures { result ≡ call_part self.now }
    {
        BriefCall::new(self.call, self.call_number, self.call_word)
    }

    /// The reply, as the row has it.
    #[inline(always)]
    pub(crate) fn brief_reply(&self) -> BriefReply
        ensures { result ≡ reply_part self.now }
    {
        BriefReply::new(
            self.reply,
            self.reply_small,
            self.reply_number,
            self.reply_word,
        )
    }
}
