//! The values that a call is handed, and those that it hands out: `Values` is all of them, `Way` where the body among them goes.
ghost use Rattle.std.specs.Prelude.{◌≡◌, None};
ghost use Rattle.std.specs.Option.{option_map};
ghost use Rattle.gmp_base.specs.Values.{ticket_by};
ghost use Rattle.gmp_seq.specs.Step.{ticket_in};
ghost use Rattle.gmp_book.specs.Hands as hands;
ghost use Rattle.gmp_book.specs.Hands.{back_where, claimed, handed_back, handed_of, way_of};

use gmp_base::{Called, GNo, Held, Proc, Refusal, Ticket, Woke};
use gmp_journal::Handed;
use gmp_seq::{Call, Reply};

/// What a call is handed or hands out: each kind of value once at most. None can be let go.
pub struct Values<T, Q> {
    /// The goroutine that runs.
    pub held: Option<Held<T>>,
    /// The goroutine in its blocking call.
    pub called: Option<Called<T>>,
    pub ticket: Option<Ticket>,
    pub proc: Option<Proc<Q>>,
}

/// There is nothing.
pub(crate) fn spent<X>(value: Option<X>)
    requires { value ≡ None }
{
    match value {
        None => {}
        Some(_) => unreachable!(),
    }
}

impl<T, Q> Values<T, Q> {
    /// These values.
    pub fn of(
        held: Option<Held<T>>,
        called: Option<Called<T>>,
        ticket: Option<Ticket>,
        proc: Option<Proc<Q>>,
    ) -> Self
        ensures { result ≡ record { held = held; called = called; ticket = ticket; proc = proc } }
    {
        Values {
            held,
            called,
            ticket,
            proc,
        }
    }

    /// What there is, in the order of the fields.
    pub fn parts(
        self,
    ) -> (
        Option<Held<T>>,
        Option<Called<T>>,
        Option<Ticket>,
        Option<Proc<Q>>,
    )
        ensures { result ≡ record { 0 = self.held; 1 = self.called; 2 = self.ticket; 3 = self.proc } }
    {
        let Values {
            held,
            called,
            ticket,
            proc,
        } = self;
        (held, called, ticket, proc)
    }

    /// The values of a call that was refused.
    pub(crate) fn refused(self, makes: bool, why: Refusal) -> Self
        ensures { result ≡ back_where makes why self }
    {
        if !makes {
            return self;
        }
        let (held, called, ticket, proc) = self.parts();
        Values::of(
            held.map(|held| handed_back(why, held)),
            called,
            ticket,
            proc,
        )
    }
}

/// The goroutine that runs, which is told this.
pub(crate) fn retold<T>(held: Held<T>, told: Woke) -> Held<T>
    ensures { result ≡ record held { woke = told } }
{
    let (run, g, _, body) = held.open();
    Held::of(run, g, told, body)
}

/// What comes back of a make that was refused: where it wanted memory, its goroutine is told so.
fn handed_back<T>(why: Refusal, held: Held<T>) -> Held<T>
    ensures { result ≡ handed_back why held }
{
    match why {
        Refusal::OutOfMemory => retold(held, Woke::NoMemory),
        _ => held,
    }
}

/// Where a body goes by a reply.
// By the reply and not by the call: whoever drives is proved over one relation, and not over one for each call.
#[derive(Clone, Copy)]
pub enum Way {
    /// It stays with the goroutine that asked.
    Stays,
    /// Into its place in the book.
    Home,
    /// Out of its place.
    OutOfPlace,
    /// Into a blocking call.
    IntoCall,
    /// Back from a blocking call.
    OutOfCall,
}

/// Where the body goes by this reply.
#[inline(always)]
pub(crate) fn way_of(reply: Reply) -> Way
    ensures { result ≡ way_of reply }
{
    match reply {
        Reply::Held => Way::OutOfPlace,
        Reply::Shelved(_) | Reply::Waits | Reply::Dead | Reply::MainEnded => Way::Home,
        Reply::Entered(_, _) => Way::IntoCall,
        Reply::Runs(_) => Way::OutOfCall,
        _ => Way::Stays,
    }
}

/// The goroutine that a claim is of.
pub(crate) fn claimed(call: &Call) -> GNo
    ensures { result ≡ claimed call.now }
{
    match call {
        Call::Claim(r) => r.g,
        _ => GNo(0),
    }
}

/// What the goroutine is told that goes on by the reply.
#[inline(always)]
pub(crate) fn told_by(known: Option<Woke>, reply: Reply) -> Woke
    ensures { result ≡ hands.told_by known reply }
{
    known.unwrap_or(reply.woke())
}

/// The ticket that a call of the run gave out.
pub(crate) fn ticket_out(run: u64, reply: Reply) -> Option<Ticket>
    ensures { result ≡ option_map (ticket_by run) (ticket_in reply) }
{
    reply.ticket().map(|r| Ticket::by(run, r))
}

/// What the values are of.
pub(crate) fn handed<T, Q>(values: &Values<T, Q>) -> Handed
    ensures { result ≡ handed_of values.now }
{
    let ticket = values.ticket.as_ref().map(|t| (t.run, t.readiness()));
    let held = values.held.as_ref().map(|h| (h.run, h.g));
    let called = values.called.as_ref().map(|c| (c.run, c.g));
    let proc = values.proc.as_ref().map(|x| (x.run, x.p));
    Handed {
        ticket,
        held,
        called,
        proc,
    }
}
