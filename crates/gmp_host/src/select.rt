//! A select.
ghost use Rattle.std.specs.Prelude.{◌≡◌, ◌<◌, ◌∷◌, ◌++◌, [], false, true, Some, None, length};

use crate::channel::Channel;
use gmp_base::{Ask, Case, Cases};
use std::marker::Model;

/// A select that is put together, of at most 8 cases, which are numbered from 0 on. One that can proceed does. A contract sees the list of
/// them.
#[derive(Drop)]
pub struct Select {
    cases: Cases,
}

impl Model for Select {
    ghost use Rattle.std.specs.Prelude.{List};
    ghost use Rattle.gmp_base.specs.declared.cases.Case.{Case};

    ghost Value = { List Case };

    ghost view = { λ s. s.cases };
}

impl Select {
    /// No case.
    pub fn new() -> Self
        ensures { result ≡ [] }
    {
        Select {
            cases: Cases::new(),
        }
    }

    /// With a receive: `case v := <-from`.
    pub fn recv(self, from: Channel) -> Self
        requires { length self < 8 }
        ensures { result ≡ self ++ Case.Recv from.0 ∷ [] }
    {
        self.case(Case::Recv(from.0))
    }

    /// With a send of the value: `case to <- value`.
    pub fn send(self, to: Channel, value: u64) -> Self
        requires { length self < 8 }
        ensures { result ≡ self ++ Case.Send to.0 value ∷ [] }
    {
        self.case(Case::Send(to.0, value))
    }

    /// With this case.
    fn case(self, case: Case) -> Self
        requires { length self < 8 }
        ensures { result ≡ self ++ case ∷ [] }
    {
        let Select { mut cases } = self;
        let _ = cases.push(case);
        Select { cases }
    }

    /// Waits until one can proceed.
    pub fn wait(self) -> Ask
        ensures { result ≡ Ask.Select self false None }
    {
        Ask::Select(self.cases, false, None)
    }

    /// Waits until this moment at most: `case <-time.After(..)`.
    pub fn until(self, moment: u64) -> Ask
        ensures { result ≡ Ask.Select self false (Some moment) }
    {
        Ask::Select(self.cases, false, Some(moment))
    }

    /// Doesn't wait: `default`.
    pub fn or_default(self) -> Ask
        ensures { result ≡ Ask.Select self true None }
    {
        Ask::Select(self.cases, true, None)
    }
}
