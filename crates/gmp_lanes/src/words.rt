//! What is done, in words.

use crate::spans::{Doing, Reason};
use gmp_seq::{Offers, Status, Wait};
use std::alloc::{AllocError, Global};

impl Reason {
    /// That of a wait.
    pub fn of(wait: &Wait) -> Self {
        Reason {
            kind: wait.kind,
            offer: wait.offers.as_slice().first().copied(),
            until: wait.until,
        }
    }

    /// A wait with the same words.
    fn wait(self) -> Wait {
        let mut offers = Offers::new();
        if let Some(offer) = self.offer {
            offers.push(offer);
        }
        Wait {
            arrival: 0,
            kind: self.kind,
            offers,
            until: self.until,
        }
    }
}

impl Doing {
    /// What a goroutine does, in the words of `gmp explain`.
    pub fn of_goroutine(self, alloc: Global) -> Result<String, AllocError> {
        let status = match self {
            Doing::Runs(_, m) => Status::Running(m),
            Doing::Calls(_, m) => Status::Calling(m),
            Doing::Waits(reason) | Doing::Stuck(reason) => Status::Waiting(reason.wait()),
            _ => return String::from_str(alloc, "ready"),
        };
        format!(in alloc; "{}", gmp_waits::Doing(&status))
    }

    /// What a machine does.
    pub fn of_machine(self, alloc: Global) -> Result<String, AllocError> {
        match self {
            Doing::Runs(g, _) => format!(in alloc; "goroutine {}", g.0),
            Doing::Calls(g, _) => format!(in alloc; "blocking call of goroutine {}", g.0),
            Doing::Spins => String::from_str(alloc, "spinning"),
            _ => String::from_str(alloc, "parked"),
        }
    }
}
