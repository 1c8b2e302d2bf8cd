//! What becomes of a book whose run is over.
ghost use Rattle.std.specs.Prelude.{◌≡◌, Some, not, slice_set, OnOk, IfOk, IfErr};
ghost use Rattle.gmp_base.specs.Values.{readiness_of};
ghost use Rattle.gmp_seq.specs.Table.{is_outstanding};
ghost use Rattle.gmp_book.specs.Slots.{is_vacant};
ghost use Rattle.gmp_journal.specs.Refusals.{first_refusal, why_refused};

use crate::book::Book;
use crate::report::Report;
use gmp_base::{Called, Held, Proc, Refusal, Refused, Ticket};

impl<T, Q> Book<T, Q> {
    ghost use Rattle.gmp_book.specs.Book.{IsReport, surrender_lines, report_lines};

    /// Gives a body back once the run is over, by its outcome or a stop.
    pub fn surrender_held(&mut self, held: Held<T>) -> Result<(), Refused<Held<T>>>
        ensures refused { why_refused result ≡ first_refusal (surrender_lines self.old.log held.run (not (is_vacant self.old.bodies held.g.0)) Refusal.NotHeld) }
        ensures err { IfErr result (λ r. (r.back ≡ held) × (self.new ≡ self.old)) }
        ensures ok { OnOk result (self.new ≡ record self.old { bodies = slice_set self.old.bodies held.g.0 (Some held.body) }) }
    {
        let astray = !self.bodies.is_vacant(held.g.0 as usize);
        if let Some(why) = self.surrender_refusal(held.run, astray, Refusal::NotHeld) {
            return Err(Refused { why, back: held });
        }
        let (_, g, _, own) = held.open();
        self.bodies.put(g.0 as usize, own);
        Ok(())
    }

    /// Gives the body of a goroutine in a blocking call back once the run is over.
    pub fn surrender_called(&mut self, called: Called<T>) -> Result<(), Refused<Called<T>>>
        ensures refused { why_refused result ≡ first_refusal (surrender_lines self.old.log called.run (not (is_vacant self.old.bodies called.g.0)) Refusal.NotHeld) }
        ensures err { IfErr result (λ r. (r.back ≡ called) × (self.new ≡ self.old)) }
        ensures ok { OnOk result (self.new ≡ record self.old { bodies = slice_set self.old.bodies called.g.0 (Some called.body) }) }
    {
        let astray = !self.bodies.is_vacant(called.g.0 as usize);
        if let Some(why) = self.surrender_refusal(called.run, astray, Refusal::NotHeld) {
            return Err(Refused { why, back: called });
        }
        let (_, g, own) = called.open();
        self.bodies.put(g.0 as usize, own);
        Ok(())
    }

    /// Gives a ticket back once the run is over. It stays as it is in the book, which knows that it is out.
    // It isn't put back onto the shelf: state and history stay after the outcome. So a ticket and one forged like it are both taken.
    pub fn surrender_ticket(&mut self, ticket: Ticket) -> Result<(), Refused<Ticket>>
        ensures refused { why_refused result ≡ first_refusal (surrender_lines self.old.log ticket.run (not (is_outstanding self.old.log.state.table (readiness_of ticket))) Refusal.NotOutstanding) }
        ensures err { IfErr result (λ r. r.back ≡ ticket) }
        ensures same { self.new ≡ self.old }
    {
        let astray = !self.journal.is_outstanding(ticket.readiness());
        if let Some(why) = self.surrender_refusal(ticket.run, astray, Refusal::NotOutstanding) {
            return Err(Refused { why, back: ticket });
        }
        ticket.open();
        Ok(())
    }

    /// Gives a processor's owner back once the run is over.
    pub fn surrender_proc(&mut self, proc: Proc<Q>) -> Result<(), Refused<Proc<Q>>>
        ensures refused { why_refused result ≡ first_refusal (surrender_lines self.old.log proc.run (not (is_vacant self.old.owners proc.p.0)) Refusal.NotHeld) }
        ensures err { IfErr result (λ r. (r.back ≡ proc) × (self.new ≡ self.old)) }
        ensures ok { OnOk result (self.new ≡ record self.old { owners = slice_set self.old.owners proc.p.0 (Some proc.owner) }) }
    {
        let astray = !self.owners.is_vacant(proc.p.0 as usize);
        if let Some(why) = self.surrender_refusal(proc.run, astray, Refusal::NotHeld) {
            return Err(Refused { why, back: proc });
        }
        let (_, p, owner) = proc.open();
        self.owners.put(p.0 as usize, owner);
        Ok(())
    }

    /// Why the surrender of a value of this run is refused, if it is.
    fn surrender_refusal(&self, run: u64, astray: bool, why: Refusal) -> Option<Refusal>
        ensures { result ≡ first_refusal (surrender_lines self.now.log run astray why) }
    {
        if run != self.journal.run() {
            return Some(Refusal::WrongRun);
        }
        if !self.journal.is_over() {
            return Some(Refusal::NotOver);
        }
        if astray {
            return Some(why);
        }
        None
    }

    /// The run, with all bodies and owners, once it is over and they are in. It takes no memory: they come out in the vectors that
    /// were handed in.
    pub fn into_report(self) -> Result<Report<T, Q>, Refused<Book<T, Q>>>
        ensures refused { why_refused result ≡ first_refusal (report_lines self) }
        ensures back { IfErr result (λ r. r.back ≡ self) }
        ensures report { IfOk result (IsReport self) }
    {
        if !self.is_over() {
            return Err(Refused {
                why: Refusal::NotOver,
                back: self,
            });
        }
        if !(self.bodies.all_filled() && self.owners.all_filled()) {
            return Err(Refused {
                why: Refusal::Busy,
                back: self,
            });
        }
        let Book {
            journal,
            bodies,
            owners,
        } = self;
        let outcome = journal.outcome();
        let (limits, capacities, history) = journal.into_parts();
        Ok(Report {
            limits,
            capacities,
            history,
            outcome,
            bodies: bodies.into_items(),
            owners: owners.into_items(),
        })
    }
}
