//! Calls that are known where their turns are compiled: a turn is compiled once for each of these types, and of a match on the call the one
//! arm alone is left there.
ghost use Rattle.std.specs.Prelude.{◌≡◌};
ghost use Rattle.gmp_seq.specs.declared.call.Call.{Call as CallValue};
ghost use Rattle.gmp_seq.specs.declared.call.Call.TheVariants as variant;

use gmp_base::{CNo, GNo, Readiness};
use gmp_seq::Call;

/// A call as a type of its own.
pub(crate) trait Known: Drop {
    /// The call, as contracts see it.
    ghost call: { Self → CallValue };

    /// The call.
    fn call(&self) -> Call
        ensures { result ≡ call self.now };
}

/// The call `take`.
#[derive(Drop)]
pub(crate) struct TakeCall;

/// The call `poke`.
#[derive(Drop)]
pub(crate) struct PokeCall;

/// The call `claim` of the ticket of this goroutine and epoch.
#[derive(Drop)]
pub(crate) struct ClaimCall(pub GNo, pub u64);

/// The call `yield`.
#[derive(Drop)]
pub(crate) struct YieldCall;

/// The call `send`.
#[derive(Drop)]
pub(crate) struct SendCall(pub Option<CNo>, pub u64);

/// The call `recv`.
#[derive(Drop)]
pub(crate) struct RecvCall(pub Option<CNo>);

/// The call `enter`.
#[derive(Drop)]
pub(crate) struct EnterCall;

/// The call `leave` with this number.
#[derive(Drop)]
pub(crate) struct LeaveCall(pub u64);

/// The call `sleep` until this moment.
#[derive(Drop)]
pub(crate) struct SleepCall(pub u64);

/// The call `tick` of this moment.
#[derive(Drop)]
pub(crate) struct TickCall(pub u64);

impl Known for TakeCall {
    ghost call = { λ known. variant.Take };

    #[inline(always)]
    fn call(&self) -> Call {
        Call::Take
    }
}

impl Known for PokeCall {
    ghost call = { λ known. variant.Poke };

    #[inline(always)]
    fn call(&self) -> Call {
        Call::Poke
    }
}

impl Known for ClaimCall {
    ghost use Rattle.gmp_base.specs.declared.number.Readiness.{Readiness};

    ghost call = { λ known. let r : Readiness = record { g = known.0; epoch = known.1 } in variant.Claim r };

    #[inline(always)]
    fn call(&self) -> Call {
        Call::Claim(Readiness {
            g: self.0,
            epoch: self.1,
        })
    }
}

impl Known for YieldCall {
    ghost call = { λ known. variant.Yield };

    #[inline(always)]
    fn call(&self) -> Call {
        Call::Yield
    }
}

impl Known for SendCall {
    ghost call = { λ known. variant.Send known.0 known.1 };

    #[inline(always)]
    fn call(&self) -> Call {
        Call::Send(self.0, self.1)
    }
}

impl Known for RecvCall {
    ghost call = { λ known. variant.Recv known.0 };

    #[inline(always)]
    fn call(&self) -> Call {
        Call::Recv(self.0)
    }
}

impl Known for EnterCall {
    ghost call = { λ known. variant.Enter };

    #[inline(always)]
    fn call(&self) -> Call {
        Call::Enter
    }
}

impl Known for LeaveCall {
    ghost call = { λ known. variant.Leave known.0 };

    #[inline(always)]
    fn call(&self) -> Call {
        Call::Leave(self.0)
    }
}

impl Known for SleepCall {
    ghost call = { λ known. variant.Sleep known.0 };

    #[inline(always)]
    fn call(&self) -> Call {
        Call::Sleep(self.0)
    }
}

impl Known for TickCall {
    ghost call = { λ known. variant.Tick known.0 };

    #[inline(always)]
    fn call(&self) -> Call {
        Call::Tick(self.0)
    }
}
