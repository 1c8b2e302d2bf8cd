//! A place in few bytes, as the driver keeps it (`Spot`), and how an ask is kept.
ghost use Rattle.std.specs.Prelude.{◌≡◌};
ghost use Rattle.gmp_driver.specs.declared.act.Told.TheVariants as Told;
ghost use Rattle.gmp_driver.specs.declared.seen.Seen.{Seen};
ghost use Rattle.gmp_driver.specs.Spot.{place_of};
ghost use Rattle.gmp_driver.specs.Table as table;

use gmp_base::{Ask, CNo, PNo};

/// Where a machine stands, in 16 bytes: a place has room for a select's cases, and each move would write all of it. A variant is the place
/// of its name, but for those that say what they are.
#[derive(Clone, Copy)]
pub(crate) enum Spot {
    Start,
    Look,
    Ticking(u64),
    Keep,
    Glance,
    Peek(PNo),
    Drain,
    PutDrain,
    Global,
    Spin,
    /// A hunt before its first act, which draws its word.
    Hunt,
    /// A hunt at this number of the order that this word began.
    HuntOn(u8, u64),
    More(PNo, u8),
    StoreMore(PNo, u8),
    PutMore(PNo, u8),
    Unspin,
    Claim,
    Run,
    /// Makes the call of a yield, a send or a receive. These asks come most often, and stand here whole.
    Yield,
    Send(Option<CNo>, u64),
    Recv(Option<CNo>),
    /// Makes the call of the ask that the driver keeps beside it.
    Do,
    Store,
    PutStore,
    Poke,
    Block,
    Leave(u64),
    Drop,
    Bare,
    Scan(PNo),
    Have,
    PutHave,
    Park,
    Rest,
    Mind(u64),
    MindTick(u64),
    Over,
    Done,
}

/// Goes where an ask of the body leads. An ask that is not kept in the spot is kept in `beside`.
#[inline(always)]
pub(crate) fn ask_on(here: &mut Spot, beside: &mut Ask, ask: &Ask)
    ensures { (x : Seen) → place_of here.new beside.new ≡ table.next_place x (place_of here.old beside.old) (Told.Asked ask.now) }
{
    if !matches!(here, Spot::Run) {
        return;
    }
    match ask {
        Ask::Yield => *here = Spot::Yield,
        Ask::Send(c, v) => *here = Spot::Send(*c, *v),
        Ask::Recv(c) => *here = Spot::Recv(*c),
        _ => {
            *here = Spot::Do;
            keep(beside, ask);
        }
    }
}

/// Keeps a copy of this ask.
// Not inlined: whoever asks something narrow pays for no wide local.
#[inline(never)]
fn keep(beside: &mut Ask, ask: &Ask)
    ensures { beside.new ≡ ask.now }
{
    *beside = ask.copied();
}
