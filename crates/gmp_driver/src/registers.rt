//! What a machine holds, in plain parts: `Registers` has a place for each kind of value, `ProcParts`, `HeldParts` and `CalledParts` are
//! such values without their run. The run is the driver's and stands once; who hands a value out makes it anew.
ghost use Rattle.std.specs.Prelude.{◌≡◌, ◌⊎◌, IsNone, Some};
ghost use Rattle.std.specs.Borrow.{sem};
ghost use Rattle.std.specs.Option.{option_copied_mut, option_map};
ghost use Rattle.gmp_driver.specs.Registers.{first_of, first_value, nothing, one_used};

use crate::act::{Act, Value};
use crate::spot::Spot;
use gmp_base::{Ask, GNo, PNo, Readiness, Woke};
use gmp_seq::Call;

/// A processor that the machine holds, with its owner.
#[derive(Drop)]
pub struct ProcParts<Q> {
    pub p: PNo,
    pub owner: Q,
}

/// A goroutine that the machine runs, with its body and what the body is to be told.
#[derive(Drop)]
pub struct HeldParts<T> {
    pub g: GNo,
    pub woke: Woke,
    pub body: T,
}

/// A goroutine whose blocking call the machine makes, with its body.
#[derive(Drop)]
pub struct CalledParts<T> {
    pub g: GNo,
    pub body: T,
}

/// The registers for values: the processor, the goroutine that runs or is in its blocking call, a ticket to claim and a ticket to store.
/// Which of them are filled follows from the place.
#[derive(Drop)]
pub struct Registers<T, Q> {
    pub processor: Option<ProcParts<Q>>,
    pub held: Option<HeldParts<T>>,
    pub called: Option<CalledParts<T>>,
    /// The ticket that is claimed next.
    pub to_claim: Option<Readiness>,
    /// The ticket that goes to the own queue or the shelf next.
    pub to_store: Option<Readiness>,
}

/// Puts a value into its register, which is empty. Written so since a value can't be dropped: an assignment would drop what was there,
/// which the `requires` excludes.
#[inline(always)]
pub fn fill<X>(register: &mut Option<X>, value: X)
    requires { IsNone register.old }
    ensures { register.new ≡ Some value }
{
    match register.replace(value) {
        None => {}
        Some(_) => unreachable!(),
    }
}

/// Puts a value, where there is one, into its register, which is empty then.
#[inline(always)]
pub(crate) fn fill_if<X>(register: &mut Option<X>, value: Option<X>)
    requires { IsNone register.old ⊎ IsNone value }
    ensures { register.new ≡ first_of value register.old }
{
    match value {
        None => {}
        Some(value) => fill(register, value),
    }
}

impl<T, Q> Registers<T, Q> {
    ghost use Rattle.gmp_driver.specs.Bodies.{body_at, lends_at};
    ghost use Rattle.gmp_driver.specs.Own.{lends_owner_held, owner_held, with_found};
    ghost use Rattle.gmp_driver.specs.Spot.{place_of};
    ghost use Rattle.gmp_driver.specs.declared.registers.CalledParts.{CalledParts};
    ghost use Rattle.gmp_driver.specs.declared.registers.HeldParts.{HeldParts};

    /// What a machine holds at its start.
    pub(crate) fn empty() -> Self
        ensures { result ≡ nothing }
    {
        Registers {
            processor: None,
            held: None,
            called: None,
            to_claim: None,
            to_store: None,
        }
    }

    /// The goroutine that runs.
    pub(crate) fn running(&self) -> Option<GNo>
        ensures { result ≡ option_map (λ (h : HeldParts T). h.g) self.now.held }
    {
        match &self.held {
            Some(held) => Some(held.g),
            None => None,
        }
    }

    /// The goroutine in its blocking call.
    pub(crate) fn calling(&self) -> Option<GNo>
        ensures { result ≡ option_map (λ (c : CalledParts T). c.g) self.now.called }
    {
        match &self.called {
            Some(called) => Some(called.g),
            None => None,
        }
    }

    /// The first value that is there, in the order in which they are given back at the end: goroutines, tickets, and the processor last.
    pub(crate) fn first_value(&self) -> Option<Value>
        ensures { result ≡ first_value self.now }
    {
        if self.held.is_some() {
            Some(Value::Held)
        } else if self.called.is_some() {
            Some(Value::Called)
        } else if self.to_claim.is_some() {
            Some(Value::ToClaim)
        } else if self.to_store.is_some() {
            Some(Value::ToStore)
        } else if self.processor.is_some() {
            Some(Value::Proc)
        } else {
            None
        }
    }

    /// Which value an act uses, beside the processor. An `enter` and a push use two: theirs, and the processor.
    #[inline(always)]
    pub(crate) fn one_used(&self, act: &Act) -> Option<Value>
        ensures { result ≡ one_used act.now self.now }
    {
        match act {
            Act::Call(Call::Put(_)) => {
                if self.to_store.is_some() {
                    Some(Value::ToStore)
                } else {
                    Some(Value::ToClaim)
                }
            }
            Act::Call(Call::Claim(_)) => Some(Value::ToClaim),
            Act::Call(Call::Leave(_)) | Act::Block => Some(Value::Called),
            Act::Call(Call::Declare) | Act::Pop | Act::Drain => Some(Value::Proc),
            Act::Call(
                Call::Acquire
                | Call::Take
                | Call::Spin
                | Call::Woken
                | Call::Keep
                | Call::Unspin
                | Call::Poke
                | Call::Bare
                | Call::Park
                | Call::Tick(_),
            ) => None,
            Act::Call(_) | Act::Resume => Some(Value::Held),
            Act::Push => Some(Value::ToStore),
            Act::Surrender(which) => *which,
            _ => None,
        }
    }

    /// Lends the body that is in hand at this place: bodies stay in their register while they are resumed, and don't move.
    // The ask is for the contract alone, which speaks of the place.
    pub(crate) fn body(&mut self, here: Spot, ask: &Ask) -> Option<&mut T>
        ensures* lends { sem 𝓛 (lends_at T.row Q.row self.entry (place_of here ask.now) result) }
        ensures body { option_copied_mut result ≡ body_at (place_of here ask.now) self.old }
    {
        match here {
            Spot::Run => match &mut self.held {
                Some(parts) => Some(&mut parts.body),
                None => None,
            },
            Spot::Block => match &mut self.called {
                Some(parts) => Some(&mut parts.body),
                None => None,
            },
            _ => None,
        }
    }

    /// Lends the owner of the processor that is in hand, for an act at the queue in place.
    #[inline(always)]
    pub(crate) fn owner(&mut self) -> Option<&mut Q>
        ensures* lends { sem 𝓛 (lends_owner_held T.row Q.row self.entry result) }
        ensures owner { option_copied_mut result ≡ owner_held self.old }
    {
        match &mut self.processor {
            Some(parts) => Some(&mut parts.owner),
            None => None,
        }
    }

    /// Holds this ticket, to claim or to store.
    #[inline(always)]
    pub(crate) fn hold(&mut self, r: Readiness, is_to_store: bool)
        ensures { self.new ≡ with_found r is_to_store self.old }
    {
        if is_to_store {
            self.to_store = Some(r);
        } else {
            self.to_claim = Some(r);
        }
    }
}
