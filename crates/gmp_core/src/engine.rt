//! The core as a value: opened, acted upon, read, and closed.
//! The calls that machines made have no list here: they are those of the history, each with the reply that its machine was told. A list
//! beside it would copy each call once more.
ghost use Rattle.std.specs.Borrow.{sem};
ghost use Rattle.std.specs.Prelude.{ℕ, ◌≡◌, ◌↔◌, ◌≤◌, ◌<◌, ◌+◌, ◌*◌, [], ◌∷◌, All, IsTrue, Some, false, true, is_some, length, map, option_copied, slice_get, take, IfErr, IfOk, IfSome, IsSome, OnOk};
ghost use Rattle.std.specs.Option.{option_map_or};
ghost use Rattle.gmp_base.specs.declared.number.MNo.{MNo};
ghost use Rattle.gmp_base.specs.declared.number.Readiness.{Readiness};
ghost use Rattle.gmp_seq.specs.Fits.{AreLimits, Fits};
ghost use Rattle.gmp_seq.specs.Machines.{is_parked_mode};
ghost use Rattle.gmp_seq.specs.State.{main};
ghost use Rattle.gmp_seq.specs.Table.{least_deadline};
ghost use Rattle.gmp_book.specs.Book.{WhyUnopened};
ghost use Rattle.gmp_acts.specs.System.{made_of};
ghost use Rattle.gmp_core.specs.Whole.{wanted_by};
ghost use Rattle.gmp_driver.specs.Table.{next_act};

use crate::acting::act;
use crate::few::has_few;
use crate::opening::{let_go, starting};
use crate::queues::Queues;
use crate::want::Want;
use gmp_acts::Choice;
use gmp_base::{GNo, MNo, Refusal, Refused, Woke};
use gmp_book::{Book, Unopened};
use gmp_driver::{Act, Driver, Frequent};
use gmp_history::History;
use gmp_seq::{Goroutine, Limits, Outcome};
use std::alloc::Global;
use std::marker::Model;

/// Several machines by their programs, over one book and their local queues. Whatever they do, and in any order, the headline holds.
///
/// A contract sees the state of all together, the stock of bodies, wherever each body is, and who is on the shelf, in order.
pub struct Core<T> {
    alloc: Global,
    /// Its owners are nothing: the queues lie beside it, and not in the hands of who holds a processor.
    book: Book<T, ()>,
    queues: Queues,
    /// Machine m is at place m.
    drivers: Vec<Driver<T, ()>>,
}

impl<T> Model for Core<T> {
    ghost use Rattle.gmp_core.specs.Whole.{Whole, stock_of};
    ghost use Rattle.gmp_core.specs.Inside.{IsCore, system_of};

    ghost Value = { Whole T };

    ghost view = { λ c. record {
      system = system_of (record { book = c.book; rings = c.queues; machines = c.drivers.items });
      stock = stock_of c.drivers.items c.book.bodies;
      shelf = c.book.log.shelf;
    } };

    ghost invariant = { λ c. IsCore (record { book = c.book; rings = c.queues; machines = c.drivers.items }) };
}

/// What an act reads of a choice.
// Inlined, here and in the other files: of an act whose kind is known its own arms alone are left.
#[inline(always)]
fn wanted(act: Act) -> Want
    ensures { result ≡ wanted_by act }
{
    match act {
        Act::Resume => Want::Ask,
        Act::Block => Want::Number,
        Act::Clock(minded) => Want::Moment(minded),
        _ => Want::Nothing,
    }
}

/// What the machine's next act reads of a choice.
#[inline(always)]
fn wanted_next<T>(driver: &Driver<T, ()>) -> Want
    requires { IsSome driver.now.pass }
    ensures { result ≡ wanted_by (next_act driver.now) }
{
    // The 16 bytes of `Frequent` first: an act holds a whole call, which is written each time that somebody asks for it.
    match driver.frequent() {
        Frequent::Resume => Want::Ask,
        Frequent::Other => wanted_of_any(driver),
        _ => Want::Nothing,
    }
}

/// By the act itself, which is wide. Apart: of a frequent act nobody makes it.
#[inline(never)]
fn wanted_of_any<T>(driver: &Driver<T, ()>) -> Want
    requires { IsSome driver.now.pass }
    ensures { result ≡ wanted_by (next_act driver.now) }
{
    wanted(driver.next())
}

impl<T> Core<T> {
    ghost use Rattle.gmp_acts.specs.Acts.{Acts, ActsAll};
    ghost use Rattle.gmp_acts.specs.Headline.{NoClaimIsRefused, SameOpening, opening_system};
    ghost use Rattle.gmp_acts.specs.Lookouts.{NoWorkIsAsleep};
    ghost use Rattle.gmp_acts.specs.System.{machine_at};
    ghost use Rattle.gmp_driver.specs.Bodies.{speaker_at};
    ghost use Rattle.gmp_driver.specs.Machine.{held_at, is_done};
    ghost use Rattle.gmp_fair.specs.Fair.{AllSteady};
    ghost use Rattle.gmp_core.specs.Lending.{lends_body};
    ghost use Rattle.gmp_core.specs.Waits.{PassesNobodyOver, WaitsThrough};
    ghost use Rattle.gmp_core.specs.Whole.{GrantsAll, HasRoom, HeadlineOf, IsBodyInHand, IsKept, IsWhole, NoCallIsRefused, TakesFixed, emptied, is_of_body};

    /// Machines that have made no act and are not fair, each at its start with nothing in hand. There is a body for each goroutine. It takes all the memory
    /// that acts need, but for a make. Refused, it hands the bodies back.
    /// `BadLimits` comes before `OutOfMemory`. With other limits numbers of the history might not fit their types.
    pub fn open(
        alloc: Global,
        run: u64,
        limits: Limits,
        capacities: &[u32],
        bodies: Vec<T>,
    ) -> Result<Self, Refused<Vec<T>>>
        ensures within { OnOk result (AreLimits limits (length bodies.items) capacities.now) }
        ensures why { IfErr result (λ r. WhyUnopened (AreLimits limits (length bodies.items) capacities.now) r.why) }
        ensures back { IfErr result (λ r. r.back.items ≡ bodies.items) }
        ensures system { IfOk result (λ k. k.system ≡ opening_system false run limits (length bodies.items) capacities.now) }
        ensures stock { IfOk result (λ k. k.stock ≡ map Some bodies.items) }
        ensures shelf { IfOk result (λ k. k.shelf ≡ main ∷ []) }
        ensures whole { IfOk result (λ k. IsWhole k.system) }
    {
        Core::open_fair(alloc, run, limits, capacities, bodies, false)
    }

    /// The same, of machines that are all fair, or none is: a fair one looks aside each 16 claims.
    pub fn open_fair(
        alloc: Global,
        run: u64,
        limits: Limits,
        capacities: &[u32],
        bodies: Vec<T>,
        is_fair: bool,
    ) -> Result<Self, Refused<Vec<T>>>
        ensures within { OnOk result (AreLimits limits (length bodies.items) capacities.now) }
        ensures why { IfErr result (λ r. WhyUnopened (AreLimits limits (length bodies.items) capacities.now) r.why) }
        ensures back { IfErr result (λ r. r.back.items ≡ bodies.items) }
        ensures system { IfOk result (λ k. k.system ≡ opening_system is_fair run limits (length bodies.items) capacities.now) }
        ensures stock { IfOk result (λ k. k.stock ≡ map Some bodies.items) }
        ensures shelf { IfOk result (λ k. k.shelf ≡ main ∷ []) }
        ensures steady { IfOk result (λ k. is_fair ≡ true → AllSteady k.system) }
        ensures whole { IfOk result (λ k. IsWhole k.system) }
    {
        if !limits.allow(bodies.len(), capacities) {
            return Err(Refused::of(Refusal::BadLimits, bodies));
        }
        let why = Refusal::OutOfMemory;
        // All that can want memory comes before the book, which takes the bodies.
        let Ok(queues) = Queues::open(alloc, limits.procs, bodies.len() as u16) else {
            return Err(Refused::of(why, bodies));
        };
        let Ok(owners) = vec![in alloc; (); limits.procs as usize] else {
            return Err(Refused::of(why, bodies));
        };
        let Ok(room) = Vec::with_capacity(alloc, limits.machines as usize) else {
            return Err(Refused::of(why, bodies));
        };
        match Book::open(alloc, run, limits, capacities, bodies, owners) {
            Err(unopened) => {
                let Unopened { why, bodies, .. } = unopened;
                room.destroy_empty();
                Err(Refused::of(why, bodies))
            }
            Ok((book, passes)) => Ok(Core {
                alloc,
                book,
                queues,
                drivers: starting(room, passes, limits.procs, is_fair),
            }),
        }
    }

    /// One act of machine m, which the place of its program names, and whether there was room for it. An act of a machine that isn't there
    /// changes nothing.
    /// While the run lasts none is made where the history is full: `hand_out` makes room. Where there is as much room as entries it never is.
    /// What the body, its blocking call or the clock is to say, `wants` tells beforehand; of the rest it reads the word, and what is to go
    /// wrong. A make that is refused memory is told to the body, and the run goes on.
    #[inline(always)]
    pub fn act(&mut self, m: MNo, choice: &Choice) -> bool
        ensures room { IsTrue result ↔ HasRoom self.old.system }
        ensures kept { IsKept self.old.system.book.limits → IsWhole self.old.system → result ≡ true }
        ensures whole { IsWhole self.old.system → IsWhole self.new.system }
        ensures full { result ≡ false → self.new ≡ self.old }
        ensures acts { result ≡ true → Acts self.old.system m choice.now self.new.system }
        ensures stock { self.new.stock ≡ self.old.stock }
        ensures claims { result ≡ true → NoClaimIsRefused self.old.system m self.new.system }
        ensures calls { result ≡ true → NoCallIsRefused self.old.system m self.new.system }
        ensures fixed { result ≡ true → TakesFixed self.old m choice.now.word self.new }
        ensures steady { AllSteady self.old.system → AllSteady self.new.system }
        ensures headline { HeadlineOf self.new.system }
        ensures awake { NoWorkIsAsleep self.new.system }
        ensures opened { SameOpening self.old.system.book self.new.system.book }
    {
        has_few(&choice.ask);
        if self.is_full() {
            self.keeps();
            return false;
        }
        // The book lists who is on the shelf.
        let _ = self.book.history();
        let Some(driver) = self.drivers.get_mut(m.0 as usize) else {
            return true;
        };
        act(
            self.alloc,
            driver,
            &mut self.book,
            &mut self.queues,
            m,
            choice,
        );
        true
    }

    /// Whether an act has to wait for a hand-out: the run lasts, and there is no room for another entry.
    #[inline(always)]
    pub fn is_full(&self) -> bool
        ensures room { result ≡ false ↔ HasRoom self.now.system }
        ensures kept { IsKept self.now.system.book.limits → IsWhole self.now.system → result ≡ false }
    {
        // Once the run is over the history may be full, and machines still give back what they hold.
        self.book.is_full() && !self.book.is_over()
    }

    /// Hands out the entries since the last time, in their order, and takes the spare in their place. It takes no memory, and may be called
    /// between any acts, also once the run is over. Emptied, what was handed out is a spare again.
    pub fn hand_out(&mut self, spare: &mut History)
        requires empty { spare.old.list ≡ [] }
        requires room { self.old.system.book.limits.room ≤ spare.old.room }
        requires lasting { self.old.system.book.limits.room ≤ spare.old.lasting }
        ensures out { spare.new.list ≡ self.old.system.book.history }
        ensures lasting { self.old.system.book.limits.room ≤ spare.new.lasting }
        ensures rest { self.new.system ≡ emptied self.old.system }
        ensures stock { self.new.stock ≡ self.old.stock }
        ensures shelf { self.new.shelf ≡ self.old.shelf }
    {
        // The history tells that its numbers fit their types.
        let _ = self.book.history();
        self.book.hand_out(spare);
    }

    /// The headline holds, and no work is left asleep: the type keeps it.
    fn keeps(&self)
        ensures headline { HeadlineOf self.now.system }
        ensures awake { NoWorkIsAsleep self.now.system }
    {
        let _ = &self.book;
    }

    /// Of fair machines none claims without bound while another's ticket stands in a line, whichever acts follow.
    pub fn serves(&self)
        ensures served { PassesNobodyOver self.now }
    {
        // The core keeps what acts need from its beginning on.
        let _ = &self.book;
    }

    /// Acts in a row, each of the machine beside it, as long as there is room, and how many of them there were. Whatever they are, the
    /// headline holds after them, and no work is left asleep.
    pub fn run(&mut self, moves: &[(MNo, Choice)]) -> usize
        ensures acts { ActsAll self.old.system (take result moves.now) self.new.system }
        ensures calls { GrantsAll self.old (take result moves.now) self.new }
        ensures few { result ≤ length moves.now }
        ensures full { result < length moves.now → ¬ (HasRoom self.new.system) }
        ensures kept { IsKept self.old.system.book.limits → IsWhole self.old.system → result ≡ length moves.now }
        ensures whole { IsWhole self.old.system → IsWhole self.new.system }
        ensures stock { self.new.stock ≡ self.old.stock }
        // Of fair machines each claims at most so many tickets while another waits in lines: the shelf, or a local queue. It follows from
        // `calls`, and is said for whoever has no laws of gmp_fair at hand.
        ensures served { (m : MNo) (r : Readiness) (count : ℕ) → AllSteady self.old.system → m.0 < length self.old.system.machines
            → WaitsThrough m r self.old (take result moves.now) count self.new → count ≤ 32 * (self.old.system.book.limits.procs + 1) * self.old.system.book.bodies }
        ensures steady { AllSteady self.old.system → AllSteady self.new.system }
        ensures headline { HeadlineOf self.new.system }
        ensures awake { NoWorkIsAsleep self.new.system }
        ensures opened { SameOpening self.old.system.book self.new.system.book }
    {
        // The core keeps what acts need from its beginning on.
        let _ = &self.book;
        for (i, (m, choice)) in moves.iter().enumerate() {
            if !self.act(*m, choice) {
                return i;
            }
        }
        self.keeps();
        moves.len()
    }

    /// At Run what the machine's body is to be told; at Block Done, which has no meaning; else nothing.
    pub fn held(&self, m: MNo) -> Option<Woke>
        ensures { result ≡ held_at (machine_at self.now.system m).place (machine_at self.now.system m).hand.held }
    {
        self.drivers.get(m.0 as usize)?.woke()
    }

    /// The goroutine whose step the machine makes next: it is resumed, or its call or its blocking call is made. None where the machine acts
    /// of itself.
    pub fn speaker(&self, m: MNo) -> Option<GNo>
        ensures { result ≡ speaker_at (machine_at self.now.system m).place (machine_at self.now.system m).hand }
    {
        self.drivers.get(m.0 as usize)?.speaker()
    }

    /// Lends the body in the machine's hand, exactly where `held` is some. Whatever is left behind the loan, the state stays, and the
    /// stock has that body in this one's place.
    /// Its `resumed` and `blocked` are for whoever drives to call: the core knows no trait of bodies.
    pub fn body(&mut self, m: MNo) -> Option<&mut T>
        ensures* lends { sem 𝓛 (lends_body T.row self.entry m result) }
        ensures some { is_some result ≡ is_some (held_at (machine_at self.old.system m).place (machine_at self.old.system m).hand.held) }
        ensures body { IfSome result (λ b. IsBodyInHand self.old m b.now) }
    {
        self.drivers.get_mut(m.0 as usize)?.body()
    }

    /// What the machine's next act reads of a choice: an ask or a number exactly where a body is in hand. One that isn't there reads
    /// nothing.
    pub fn wants(&self, m: MNo) -> Want
        ensures wants { result ≡ wanted_by (next_act (machine_at self.now.system m)) }
        ensures body { is_of_body result ≡ is_some (held_at (machine_at self.now.system m).place (machine_at self.now.system m).hand.held) }
    {
        match self.drivers.get(m.0 as usize) {
            Some(driver) => wanted_next(driver),
            None => Want::Nothing,
        }
    }

    /// Whether the book has parked the machine. Its one act is then to ask whether it was woken, so a driver may pass it over.
    pub fn parked(&self, m: MNo) -> bool
        ensures { result ≡ option_map_or is_parked_mode (slice_get self.now.system.book.state.machines.modes m.0) false }
    {
        self.book.machines().is_parked(m)
    }

    /// Whether the machine's program is done: the run has its outcome, and the machine has given back all that it held. That of one that
    /// isn't there is not.
    pub fn done(&self, m: MNo) -> bool
        ensures { result ≡ is_done (machine_at self.now.system m).place }
    {
        match self.drivers.get(m.0 as usize) {
            Some(driver) => driver.is_done(),
            None => false,
        }
    }

    /// The least deadline of all goroutines that wait, in nanoseconds.
    pub fn least_deadline(&self) -> Option<u64>
        ensures { result ≡ least_deadline self.now.system.book.state.table }
    {
        self.book.goroutines().least_deadline()
    }

    /// What the goroutine of this number does, and how often it became ready. None where there is no such goroutine.
    pub fn goroutine(&self, g: GNo) -> Option<&Goroutine>
        ensures { option_copied result ≡ slice_get self.now.system.book.state.table.goroutines g.0 }
    {
        self.book.goroutines().get(g)
    }

    /// Every call that the book accepted since the last hand-out with its reply, in order: each machine's are those that it made, with the
    /// replies that it was told. Its numbers are within their types.
    pub fn history(&self) -> &History
        ensures entries { result.now.list ≡ self.now.system.book.history }
        ensures own { map made_of result.now.list ≡ self.now.system.own }
        ensures headline { HeadlineOf self.now.system }
        ensures within { AreLimits self.now.system.book.limits self.now.system.book.bodies self.now.system.book.capacities }
        ensures fits { All Fits self.now.system.book.history }
    {
        self.book.history()
    }

    /// How the run ended, if it did.
    pub fn outcome(&self) -> Option<Outcome>
        ensures { result ≡ self.now.system.book.state.outcome }
    {
        self.book.outcome()
    }
}

impl<T: Drop> Core<T> {
    /// Lets all go, and tells how the run ended, if it did. It takes no memory.
    /// No report as of a book: bodies and tickets may be out then, and nobody is to be made to bring them back.
    pub fn close(self) -> Option<Outcome>
        ensures { result ≡ self.system.book.state.outcome }
    {
        let outcome = self.outcome();
        let Core {
            alloc: _,
            book: _,
            queues: _,
            drivers,
        } = self;
        let_go(drivers);
        outcome
    }
}
