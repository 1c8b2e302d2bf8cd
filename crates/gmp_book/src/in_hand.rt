//! What a call is handed of the registers of a machine, and where values go by its reply: a body or an owner moves from its register into its
//! place, or out of it, and nothing else moves.
ghost use Rattle.std.specs.Prelude.{◌≡◌, ◌⊎◌, true, false, None, Some, IsNone};
ghost use Rattle.gmp_book.specs.Hands.{FitsBody, FitsOwner};
ghost use Rattle.gmp_book.specs.InHand as in_hand;
ghost use Rattle.gmp_book.specs.InHand.{SettlesBody, SettlesOwner, called_by, given_by, hand_refused, held_by, proc_by, retold, to_claim_after, to_store_after};
ghost use Rattle.gmp_book.specs.Hands.{handed_of};
ghost use Rattle.gmp_book.specs.Kinds as kinds;
ghost use Rattle.gmp_book.specs.declared.values.Way.TheVariants as Way;

use crate::slots::Slots;
use crate::values::Way;
use gmp_base::{GNo, PNo, Readiness, Refusal, Woke};
use gmp_driver::{CalledParts, HeldParts, ProcParts, Registers, fill};
use gmp_journal::Handed;
use gmp_seq::{Call, Reply};

/// Whether the call is handed the goroutine that runs.
#[inline(always)]
pub(crate) fn hands_held(call: &Call) -> bool
    ensures { result ≡ kinds.hands_held call.now }
{
    match call {
        Call::Acquire
        | Call::Take
        | Call::Put(_)
        | Call::Claim(_)
        | Call::Leave(_)
        | Call::Spin
        | Call::Woken
        | Call::Keep
        | Call::Unspin
        | Call::Poke
        | Call::Declare
        | Call::Bare
        | Call::Park
        | Call::Tick(_) => false,
        _ => true,
    }
}

/// Whether the call is handed the goroutine in its blocking call.
#[inline(always)]
pub(crate) fn hands_called(call: &Call) -> bool
    ensures { result ≡ kinds.hands_called call.now }
{
    matches!(call, Call::Leave(_))
}

/// Whether the call is handed the processor.
#[inline(always)]
pub(crate) fn hands_proc(call: &Call) -> bool
    ensures { result ≡ kinds.hands_proc call.now }
{
    matches!(call, Call::Enter | Call::Declare)
}

/// The ticket that the call is handed.
#[inline(always)]
fn ticket_used(
    call: &Call,
    to_claim: Option<Readiness>,
    to_store: Option<Readiness>,
) -> Option<Readiness>
    ensures { result ≡ in_hand.ticket_used call.now to_claim to_store }
{
    match call {
        Call::Put(_) => to_store.or(to_claim),
        Call::Claim(_) => to_claim,
        _ => None,
    }
}

/// What the call is handed, as a call of this run sees it.
#[inline(always)]
pub(crate) fn handed_in<T, Q>(run: u64, call: &Call, hand: &Registers<T, Q>) -> Handed
    ensures { result ≡ handed_of (given_by run call.now hand.now) }
{
    let ticket = ticket_used(call, hand.to_claim, hand.to_store);
    Handed {
        ticket: ticket.map(|r| (run, r)),
        held: match &hand.held {
            Some(held) if hands_held(call) => Some((run, held.g)),
            _ => None,
        },
        called: match &hand.called {
            Some(called) if hands_called(call) => Some((run, called.g)),
            _ => None,
        },
        proc: match &hand.processor {
            Some(proc) if hands_proc(call) => Some((run, proc.p)),
            _ => None,
        },
    }
}

/// The goroutine, if there is one, is to be told this.
#[inline(always)]
fn tell<T>(held: &mut Option<HeldParts<T>>, told: Woke)
    ensures { held.new ≡ retold told held.old }
{
    if let Some(parts) = held {
        parts.woke = told;
    }
}

/// The body of the goroutine that runs goes into its place.
#[inline(always)]
fn put_held<T>(bodies: &mut Slots<T>, held: &mut Option<HeldParts<T>>)
    requires { in_hand.FitsHeld held.old bodies.old }
    ensures held { held.new ≡ None }
    ensures bodies { bodies.new ≡ in_hand.with_held_home held.old bodies.old }
{
    if let Some(parts) = held.take() {
        let HeldParts { g, woke: _, body } = parts;
        bodies.put(g.0 as usize, body);
    }
}

/// The body of the goroutine in its blocking call goes into its place.
#[inline(never)]
fn put_called<T>(bodies: &mut Slots<T>, called: &mut Option<CalledParts<T>>)
    requires { in_hand.FitsCalled called.old bodies.old }
    ensures called { called.new ≡ None }
    ensures bodies { bodies.new ≡ in_hand.with_called_home called.old bodies.old }
{
    if let Some(parts) = called.take() {
        let CalledParts { g, body } = parts;
        bodies.put(g.0 as usize, body);
    }
}

/// The goroutine that runs goes into its blocking call.
#[inline(always)]
fn go_into_call<T>(held: &mut Option<HeldParts<T>>, called: &mut Option<CalledParts<T>>)
    requires { IsNone called.old }
    ensures held { held.new ≡ None }
    ensures called { called.new ≡ in_hand.gone_into_call held.old }
{
    if let Some(parts) = held.take() {
        let HeldParts { g, woke: _, body } = parts;
        fill(called, CalledParts { g, body });
    }
}

/// The goroutine in its blocking call runs on, and is told this.
#[inline(always)]
fn come_out_of_call<T>(
    told: Woke,
    held: &mut Option<HeldParts<T>>,
    called: &mut Option<CalledParts<T>>,
)
    requires { IsNone held.old }
    ensures held { held.new ≡ in_hand.come_out_of_call told called.old }
    ensures called { called.new ≡ None }
{
    if let Some(parts) = called.take() {
        let CalledParts { g, body } = parts;
        fill(
            held,
            HeldParts {
                g,
                woke: told,
                body,
            },
        );
    }
}

/// The body goes this way: of the goroutine that asked, if the call was handed one, which is told this, or of g, which comes out.
#[inline(always)]
pub(crate) fn settle_body_in<T>(
    bodies: &mut Slots<T>,
    way: Way,
    run: u64,
    g: GNo,
    told: Woke,
    is_held: bool,
    is_called: bool,
    held: &mut Option<HeldParts<T>>,
    called: &mut Option<CalledParts<T>>,
)
    requires fits { FitsBody way g (held_by run is_held held.old) (called_by run is_called called.old) bodies.old }
    requires free { in_hand.IsBodyFree way held.old called.old }
    requires apart { in_hand.AreApart is_held is_called }
    ensures { SettlesBody way run g told is_held is_called held.old called.old bodies.old held.new called.new bodies.new }
{
    match way {
        Way::Stays => {
            if is_held {
                tell(held, told);
            }
        }
        Way::Home => {
            if is_held {
                put_held(bodies, held);
            } else if is_called {
                put_called(bodies, called);
            }
        }
        Way::OutOfPlace => {
            let body = bodies.take(g.0 as usize);
            fill(
                held,
                HeldParts {
                    g,
                    woke: told,
                    body,
                },
            );
        }
        Way::IntoCall => {
            if is_held {
                go_into_call(held, called);
            }
        }
        Way::OutOfCall => {
            if is_called {
                come_out_of_call(told, held, called);
            }
        }
    }
}

/// The processor's owner comes out of its place.
#[inline(always)]
fn take_owner<Q>(owners: &mut Slots<Q>, p: PNo, processor: &mut Option<ProcParts<Q>>)
    requires fits { in_hand.IsFilledAt owners.old p }
    requires free { IsNone processor.old }
    ensures { in_hand.ComesOut p owners.old processor.new owners.new }
{
    let owner = owners.take(p.0 as usize);
    fill(processor, ProcParts { p, owner });
}

/// The processor's owner goes into its place.
#[inline(always)]
fn put_owner<Q>(owners: &mut Slots<Q>, processor: &mut Option<ProcParts<Q>>)
    requires { in_hand.FitsProc processor.old owners.old }
    ensures processor { processor.new ≡ None }
    ensures owners { owners.new ≡ in_hand.with_owner_home processor.old owners.old }
{
    if let Some(parts) = processor.take() {
        let ProcParts { p, owner } = parts;
        owners.put(p.0 as usize, owner);
    }
}

/// The owner of a processor goes as the reply says.
#[inline(always)]
pub(crate) fn settle_owner_in<Q>(
    owners: &mut Slots<Q>,
    reply: &Reply,
    run: u64,
    is_handed: bool,
    processor: &mut Option<ProcParts<Q>>,
)
    requires fits { FitsOwner reply.now (proc_by run is_handed processor.old) owners.old }
    requires free { in_hand.IsOwnerFree reply.now processor.old }
    ensures { SettlesOwner reply.now run is_handed processor.old owners.old processor.new owners.new }
{
    match reply {
        Reply::Proc(p) | Reply::Runs(p) => take_owner(owners, *p, processor),
        Reply::Entered(_, _) | Reply::Idle(_) => {
            if is_handed {
                put_owner(owners, processor);
            }
        }
        _ => {}
    }
}

/// The tickets that are held behind the call, which gave this one out.
#[inline(always)]
pub(crate) fn settle_tickets_in(
    call: &Call,
    out: Option<Readiness>,
    to_claim: &mut Option<Readiness>,
    to_store: &mut Option<Readiness>,
)
    ensures to_claim { to_claim.new ≡ to_claim_after call.now out to_claim.old to_store.old }
    ensures to_store { to_store.new ≡ to_store_after call.now out to_store.old }
{
    match call {
        Call::Claim(_) => *to_claim = None,
        Call::Put(_) => {
            if to_store.is_none() {
                *to_claim = None;
            }
            *to_store = None;
        }
        Call::Take => {
            if let Some(r) = out {
                *to_claim = Some(r);
            }
        }
        _ => {
            if let Some(r) = out {
                *to_store = Some(r);
            }
        }
    }
}

/// The goroutine of a make that had no memory is told so.
// Not inlined: whoever makes a call that is accepted pays for no refusal.
#[inline(never)]
pub(crate) fn refuse_in<T, Q>(call: &Call, why: Refusal, hand: &mut Registers<T, Q>)
    ensures { hand.new ≡ hand_refused call.now why hand.old }
{
    if let (Call::Make(_), Refusal::OutOfMemory) = (call, why) {
        tell(&mut hand.held, Woke::NoMemory);
    }
}
