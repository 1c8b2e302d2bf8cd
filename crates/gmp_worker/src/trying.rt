//! One try at a queue, made in place: what came of it changes the register that it is of, and the machine is told. To hand out all
//! registers and take them back would cost a pop that finds nothing most of its time.
ghost use Rattle.std.specs.Prelude.{◌≡◌, [], ◌∷◌, IfNone, IfSome, IsSome};
ghost use Rattle.gmp_base.specs.Values.{readiness_of};
ghost use Rattle.gmp_driver.specs.declared.act.Act.TheVariants as Act;
ghost use Rattle.gmp_driver.specs.Fits.{SuitsPlace};
ghost use Rattle.gmp_driver.specs.Local.{IsSteal, pop_for};
ghost use Rattle.gmp_driver.specs.Table.{next_act};
ghost use Rattle.gmp_queue.specs.Ends.{KeepsOwner, KeepsThief, MatchStole, owner_run, owner_view, thief_run, thief_view};
ghost use Rattle.gmp_queue.specs.Queue.{FoundNone, PoppedFirst, StoleFirst};
ghost use Rattle.gmp_worker.specs.AtQueue.{IsToldOf, PopsFor, Pushes, StealsFrom};

use gmp_base::{PNo, Readiness, Ticket};
use gmp_driver::{Driver, QueueTold, Tried};
use gmp_queue::{Owner, Stole, Thief};

/// The readiness of a ticket, which is spent.
#[inline(always)]
fn spent(ticket: Ticket) -> Readiness
    ensures { result ≡ readiness_of ticket }
{
    let (_, g, epoch) = ticket.open();
    Readiness { g, epoch }
}

/// The first ticket of a queue, unless the queue is of another run.
// The run is compared here and not required: of an owner that comes out of the book nothing is known but what its type keeps.
#[inline(always)]
fn pop_of(owner: &mut Owner, run: u64) -> Option<Ticket>
    ensures same { KeepsOwner owner.old owner.new }
    ensures got { IfSome result (λ t. (t.run ≡ run) × (owner_run owner.old ≡ run) × PoppedFirst (owner_view owner.old) (readiness_of t ∷ []) (owner_view owner.new)) }
    ensures none { IfNone result ((owner_view owner.new ≡ owner_view owner.old) × (owner_run owner.old ≡ run → FoundNone (owner_view owner.old))) }
{
    if owner.run() == run {
        owner.pop()
    } else {
        None
    }
}

/// Pops the own queue. The ticket is one to claim, or one to store.
#[inline(always)]
pub(crate) fn pop<T>(driver: &mut Driver<T, Owner>, is_to_store: bool)
    requires next { next_act driver.old ≡ pop_for is_to_store }
    requires fits { SuitsPlace driver.old.place driver.old.hand }
    ensures pops { IsToldOf driver.old (PopsFor is_to_store driver.old.run driver.old.hand) driver.new }
    ensures fits { SuitsPlace driver.new.place driver.new.hand }
{
    let run = driver.run();
    let popped = match driver.owner() {
        Some(owner) => pop_of(owner, run),
        None => unreachable!(),
    };
    match popped {
        Some(ticket) => {
            let told = QueueTold::Popped(is_to_store);
            driver.tell_found(spent(ticket), is_to_store, told);
        }
        None => driver.tell_queue(QueueTold::Empty),
    }
}

/// Pushes the ticket to store onto the own queue.
#[inline(always)]
pub(crate) fn push<T>(driver: &mut Driver<T, Owner>)
    requires next { next_act driver.old ≡ Act.Push }
    requires fits { SuitsPlace driver.old.place driver.old.hand }
    ensures pushes { IsToldOf driver.old (Pushes driver.old.run driver.old.hand) driver.new }
    ensures fits { SuitsPlace driver.new.place driver.new.hand }
{
    let run = driver.run();
    let Some(r) = driver.to_store() else {
        unreachable!()
    };
    let pushed = match driver.owner() {
        Some(owner) => owner.push(Ticket::by(run, r)),
        None => unreachable!(),
    };
    match pushed {
        Ok(()) => driver.tell_stored(QueueTold::Pushed),
        Err(back) => {
            back.open();
            driver.tell_queue(QueueTold::PushRefused);
        }
    }
}

/// The length that is said of a queue, and one try to steal from it, unless the queue is of another run.
fn steal_of(thief: &mut Thief, run: u64) -> (u32, Stole)
    ensures same { KeepsThief thief.old thief.new }
    ensures step { MatchStole result.1 (λ t. (t.run ≡ run) × (thief_run thief.old ≡ run) × StoleFirst (thief_view thief.old) (readiness_of t ∷ []) (thief_view thief.new)) (thief_view thief.new ≡ thief_view thief.old) ((thief_run thief.old ≡ run) × (thief_view thief.new ≡ thief_view thief.old)) }
{
    if thief.run() == run {
        (thief.hint(), thief.steal())
    } else {
        (0, Stole::Empty)
    }
}

/// Steals from the victim's queue, whose length is read before. The ticket is one to claim, or one to store, where the machine has one to
/// claim. With the word that was drawn for it, where one was.
#[inline(never)]
pub(crate) fn steal<T>(
    driver: &mut Driver<T, Owner>,
    thieves: &mut [Thief],
    drawn: Option<u64>,
    victim: PNo,
)
    requires next { IsSteal (next_act driver.old) drawn }
    requires fits { SuitsPlace driver.old.place driver.old.hand }
    ensures steals { IsToldOf driver.old (StealsFrom driver.old drawn victim thieves.old thieves.new) driver.new }
    ensures fits { SuitsPlace driver.new.place driver.new.hand }
{
    let v = usize::from(victim.0);
    if v >= thieves.len() {
        driver.tell_queue(QueueTold::Stole(drawn, Tried::Empty));
        return;
    }
    let has_to_claim = driver.has_to_claim();
    let (hint, stole) = steal_of(&mut thieves[v], driver.run());
    match stole {
        Stole::Got(ticket) => {
            let told = QueueTold::Stole(drawn, Tried::Got(hint));
            driver.tell_found(spent(ticket), has_to_claim, told);
        }
        Stole::Empty => driver.tell_queue(QueueTold::Stole(drawn, Tried::Empty)),
        Stole::Unsure => driver.tell_queue(QueueTold::Stole(drawn, Tried::Unsure)),
    }
}
