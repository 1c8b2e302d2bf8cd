//! Why a run does not follow what was found.

ghost use Rattle.std.specs.Prelude.{◌≡◌, OnOk, true};

use gmp_check::OpenError;
use gmp_words::{Ended, Untraced};
use std::alloc::AllocError;

/// Why a run does not follow what was found.
#[derive(Clone, Copy)]
pub(crate) enum Unplayed {
    /// There is no such run, or none was found.
    Untraced(Untraced),
    OutOfMemory,
}

/// A call was refused, or answered otherwise than what was found says.
pub(crate) const ASTRAY: Unplayed = Unplayed::Untraced(Untraced::Astray);

impl From<AllocError> for Unplayed {
    fn from(_error: AllocError) -> Unplayed {
        Unplayed::OutOfMemory
    }
}

impl From<OpenError> for Unplayed {
    fn from(error: OpenError) -> Unplayed {
        match error {
            OpenError::BadLimits => ASTRAY,
            OpenError::OutOfMemory => Unplayed::OutOfMemory,
        }
    }
}

/// It is as what was found says, or the run is astray.
pub(crate) fn expect(is_so: bool) -> Result<(), Unplayed>
    ensures { OnOk result (is_so ≡ true) }
{
    if is_so { Ok(()) } else { Err(ASTRAY) }
}

impl Unplayed {
    ghost use Rattle.std.specs.Prelude.{◌≡◌};
    ghost use Rattle.gmp_explore_cli.specs.Played.{said_of};

    /// How the command ends then.
    pub(crate) fn ended(self) -> Ended
        ensures { result.said ≡ said_of self }
    {
        match self {
            Unplayed::Untraced(why) => Ended::no_trace(why),
            Unplayed::OutOfMemory => Ended::out_of_memory(),
        }
    }
}
