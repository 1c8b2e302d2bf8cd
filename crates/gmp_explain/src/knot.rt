//! Who waits for whom: cycles of goroutines each of which waits for what the next alone did in this trace.
//! It is what was seen, and no proof of what could be: another schedule may have another sender.
ghost use Rattle.std.specs.Prelude.{[], OnOk};
ghost use Rattle.gmp_explain.specs.Spoken.{TellsOf};

use crate::fact::{Fact, Help, Sink};
use crate::heard::{Heard, Parted, Party};
use crate::told::Story;
use gmp_base::{CNo, GNo};
use gmp_seq::{Deal, Goroutine, Kind, Offer, Status, Wait};
use gmp_walk::goroutine_at;
use std::alloc::{AllocError, Global};

/// Who alone could have helped a goroutine, as far as was seen, and by what.
#[derive(Clone, Copy)]
struct Helper {
    g: GNo,
    help: Help,
}

/// Which of so many goroutines did this on the channel.
fn who(heard: &Heard, bodies: usize, c: CNo, party: Party) -> Parted {
    let mut who = Parted::Nobody;
    for g in 0..bodies {
        let g = goroutine_at(g);
        if heard.parties.has(c, g, party) {
            who = who.and(g);
        }
    }
    who
}

/// Who alone did what an offer waits for: a send for a receiver, a receive for a sender. Where nobody ever received, the channel is full of what
/// was sent, as a lock that is held, and whoever alone sent it could take it back. Nobody waits on a channel that was closed.
fn helper_on(heard: &Heard, bodies: usize, offer: &Offer) -> Option<Helper> {
    let c = offer.channel;
    let (received, sent) = (
        who(heard, bodies, c, Party::Received),
        who(heard, bodies, c, Party::Sent),
    );
    let (g, help) = match (offer.deal, received, sent) {
        (Deal::Send(_), Parted::One(g), _) => (g, Help::Received(c)),
        (Deal::Send(_), Parted::Nobody, Parted::One(g)) => (g, Help::Filled(c)),
        (Deal::Receive, _, Parted::One(g)) => (g, Help::Sent(c)),
        _ => return None,
    };
    Some(Helper { g, help })
}

/// Who alone could have ended the wait. Of several cases any could be taken, and at a deadline the clock ends it.
fn helper_of(heard: &Heard, bodies: usize, g: GNo, wait: &Wait) -> Option<Helper> {
    if wait.until.is_some() {
        return None;
    }
    match (wait.kind, wait.offers.as_slice()) {
        (Kind::Parked, _) => match heard.readiers.get(usize::from(g.0)) {
            Some(Parted::One(by)) => Some(Helper {
                g: *by,
                help: Help::Readied,
            }),
            _ => None,
        },
        (_, [offer]) => helper_on(heard, bodies, offer),
        _ => None,
    }
}

/// By goroutine, who alone could have helped it, where both wait.
fn helpers(alloc: Global, story: &Story) -> Result<Vec<Option<Helper>>, AllocError> {
    let rows = &story.last.goroutines;
    let mut all = Vec::with_capacity(alloc, rows.len())?;
    for (g, row) in rows.iter().enumerate() {
        let helper = match &row.status {
            Status::Waiting(wait) => helper_of(&story.heard, rows.len(), goroutine_at(g), wait),
            _ => None,
        };
        all.push(helper.filter(|helper| is_waiting(rows, helper.g)))?;
    }
    Ok(all)
}

/// Whether the goroutine waits.
fn is_waiting(rows: &[Goroutine], g: GNo) -> bool {
    match rows.get(usize::from(g.0)) {
        Some(row) => matches!(row.status, Status::Waiting(_)),
        None => false,
    }
}

/// Whom the goroutine waits for.
fn next(helpers: &[Option<Helper>], g: GNo) -> Option<Helper> {
    *helpers.get(usize::from(g.0))?
}

/// The first goroutine that a way from g comes to twice, where no way before came along: marks those on the way by its number.
fn first_again(helpers: &[Option<Helper>], marks: &mut [usize], g: GNo, way: usize) -> Option<GNo> {
    let mut here = g;
    for _ in 0..=helpers.len() {
        let mark = marks.get_mut(usize::from(here.0))?;
        if *mark != 0 {
            return if *mark == way { Some(here) } else { None };
        }
        *mark = way;
        here = next(helpers, here)?.g;
    }
    None
}

/// The links of the cycle that the goroutine is on.
fn tell_cycle<S: Sink>(
    helpers: &[Option<Helper>],
    first: GNo,
    sink: &mut S,
) -> Result<(), AllocError>
    ensures { OnOk result (TellsOf S.told [] sink.old sink.new) }
{
    let mut here = first;
    for _ in 0..helpers.len() {
        let Some(helper) = next(helpers, here) else {
            return Ok(());
        };
        sink.tell(&Fact::Link {
            g: here,
            by: helper.g,
            help: helper.help,
        })?;
        here = helper.g;
        if here == first {
            return Ok(());
        }
    }
    Ok(())
}

/// Each cycle of goroutines that wait for one another.
pub fn tell_cycles<S: Sink>(alloc: Global, story: &Story, sink: &mut S) -> Result<(), AllocError>
    ensures { OnOk result (TellsOf S.told [] sink.old sink.new) }
{
    let helpers = helpers(alloc, story)?;
    let mut marks = vec![in alloc; 0usize; helpers.len()]?;
    let mut found = false;
    for g in 0..helpers.len() {
        let g = goroutine_at(g);
        if let Some(first) = first_again(&helpers, &mut marks, g, usize::from(g.0) + 1) {
            tell_cycle(&helpers, first, sink)?;
            found = true;
        }
    }
    if found {
        sink.tell(&Fact::Cycles)?;
    }
    Ok(())
}
