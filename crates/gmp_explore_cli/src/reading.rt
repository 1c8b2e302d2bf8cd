//! What a scene says of an ask: which cases can proceed, whether it waits, and which fault it is told.

use crate::asking::Asking;
use gmp_base::{CNo, Case, Fault, GNo};
use gmp_explore::{Channel, Scene};
use gmp_scene::Doing;
use gmp_script::Command;
use gmp_seq::{MOST_CAPACITY, channel_of};

/// How many channels there may be, and how many processors there are: more are faults.
#[derive(Clone, Copy)]
pub(crate) struct Bounds {
    pub(crate) channels: u16,
    pub(crate) procs: u8,
}

/// The goroutine at this place: a script has no more than 4,096.
pub(crate) fn goroutine_at(place: usize) -> GNo {
    GNo(u16::try_from(place).unwrap_or(u16::MAX))
}

/// The channel that a name means; none for nil, and for one that was not made.
pub(crate) fn channel_at(scene: &Scene, name: Option<CNo>) -> Option<&Channel> {
    scene.channels().get(usize::from(name?.0))
}

/// Whether a channel of this name was not made. Nil is no such one.
fn is_missing(scene: &Scene, name: Option<CNo>) -> bool {
    name.is_some() && channel_at(scene, name).is_none()
}

/// Whether a case can proceed by itself, while nobody waits.
fn can(scene: &Scene, case: Case) -> bool {
    match channel_at(scene, channel_of(case)) {
        None => false,
        Some(channel) => {
            channel.is_closed()
                || match case {
                    Case::Send(_, _) => channel.items().len() < channel.capacity() as usize,
                    Case::Recv(_) => !channel.items().is_empty(),
                }
        }
    }
}

/// Whether one of the two sends what the other receives.
fn fit(one: Case, other: Case) -> bool {
    match (one, other) {
        (Case::Send(Some(c), _), Case::Recv(Some(d))) => c == d,
        (Case::Recv(Some(c)), Case::Send(Some(d), _)) => c == d,
        _ => false,
    }
}

/// Whether a case can proceed with one who waits by this ask.
pub(crate) fn meets(case: Case, waiting: Asking) -> bool {
    waiting
        .cases()
        .as_slice()
        .iter()
        .any(|other| fit(case, *other))
}

/// Whether an ask can proceed with one who waits by that one.
pub(crate) fn meet(asking: Asking, waiting: Asking) -> bool {
    asking
        .cases()
        .as_slice()
        .iter()
        .any(|case| meets(*case, waiting))
}

/// Whether an ask waits, if it is made while nobody waits.
pub(crate) fn rests(scene: &Scene, asking: Asking) -> bool {
    let cases = asking.cases();
    let cases = cases.as_slice();
    let may_wait = match asking.command() {
        Some(Command::Send(_, _) | Command::Recv(_, _) | Command::Park) => true,
        Some(Command::Select(_, has_default, _)) => !*has_default,
        _ => false,
    };
    may_wait
        && !cases
            .iter()
            .any(|case| is_missing(scene, channel_of(*case)))
        && !cases.iter().any(|case| can(scene, *case))
}

/// Whether an ask waits for another goroutine, if it is made while nobody waits, and no deadline ends that.
pub(crate) fn is_abandoned(scene: &Scene, asking: Asking) -> bool {
    rests(scene, asking) && asking.deadline().is_none()
}

/// Whether an ask offers a communication on the channel of this number.
pub(crate) fn is_on(asking: Asking, c: usize) -> bool {
    asking.cases().as_slice().iter().any(|case| channel_of(*case).is_some_and(|name| usize::from(
        name.0,
    ) == c))
}

/// The word by which a select takes this case: how many before it can proceed, while nobody waits but one, by this ask.
pub(crate) fn word_for(scene: &Scene, asking: Asking, case: usize, waiting: Option<Asking>) -> u64 {
    let mut word = 0u64;
    for other in asking.cases().as_slice().iter().take(case) {
        let is_met = match waiting {
            Some(waiting) => meets(*other, waiting),
            None => false,
        };
        if is_met || can(scene, *other) {
            word = word.wrapping_add(1);
        }
    }
    word
}

/// Whether the case sends on a closed channel.
fn fails(scene: &Scene, case: Case) -> bool {
    match (case, channel_at(scene, channel_of(case))) {
        (Case::Send(_, _), Some(channel)) => channel.is_closed(),
        _ => false,
    }
}

/// The first case that sends on a closed channel.
pub(crate) fn failing(scene: &Scene, asking: Asking) -> Option<usize> {
    asking
        .cases()
        .as_slice()
        .iter()
        .position(|case| fails(scene, *case))
}

/// The fault that is told where the case of this number is taken.
pub(crate) fn fault_of_case(scene: &Scene, asking: Asking, case: usize) -> Option<Fault> {
    match asking.cases().as_slice().get(case) {
        Some(case) if fails(scene, *case) => Some(Fault::SendOnClosed),
        _ => None,
    }
}

/// The fault of an ask that names a channel.
fn fault_of_name(scene: &Scene, name: Option<CNo>) -> Option<Fault> {
    if is_missing(scene, name) {
        Some(Fault::NoSuchChannel)
    } else {
        None
    }
}

/// The fault of a close.
fn fault_of_close(scene: &Scene, name: Option<CNo>) -> Option<Fault> {
    match (name, channel_at(scene, name)) {
        (None, _) => Some(Fault::CloseOfNil),
        (Some(_), None) => Some(Fault::NoSuchChannel),
        (Some(_), Some(channel)) if channel.is_closed() => Some(Fault::CloseOfClosed),
        (Some(_), Some(_)) => None,
    }
}

/// The fault of an ask that starts a goroutine, or readies one that is not parked.
fn fault_of_goroutine(scene: &Scene, h: GNo, starts: bool) -> Option<Fault> {
    match scene.actors().get(usize::from(h.0)) {
        None => Some(Fault::NoSuchBody),
        Some(actor) if starts && actor.does == Doing::Unstarted => None,
        Some(_) if starts => Some(Fault::AlreadyStarted),
        Some(_) => Some(Fault::NotParked),
    }
}

/// The fault that an ask is told which has its effect by itself, and no case of which is taken.
pub(crate) fn fault_by_itself(scene: &Scene, bounds: Bounds, asking: Asking) -> Option<Fault> {
    match asking.command()? {
        Command::Go(h) => fault_of_goroutine(scene, *h, true),
        Command::Ready(h) => fault_of_goroutine(scene, *h, false),
        Command::Make(n) if *n > MOST_CAPACITY => Some(Fault::BadCapacity),
        Command::Make(_) if scene.channels().len() >= usize::from(bounds.channels) => {
            Some(Fault::TooManyChannels)
        }
        Command::Close(c) => fault_of_close(scene, *c),
        Command::Len(c) | Command::Cap(c) => fault_of_name(scene, *c),
        Command::Procs(n) if *n == 0 || *n > bounds.procs => Some(Fault::BadProcs),
        Command::Send(_, _) | Command::Recv(_, _) | Command::Select(_, _, _) => {
            let cases = asking.cases();
            cases
                .as_slice()
                .iter()
                .find_map(|case| fault_of_name(scene, channel_of(*case)))
        }
        _ => None,
    }
}

/// The fault that an ask is told, be it by a case.
pub(crate) fn fault_next(scene: &Scene, bounds: Bounds, asking: Asking) -> Option<Fault> {
    match fault_by_itself(scene, bounds, asking) {
        Some(fault) => Some(fault),
        None => fault_of_case(scene, asking, failing(scene, asking)?),
    }
}
