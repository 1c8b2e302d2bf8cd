//! Sends, receives, selects and closes. Each answers whether the reply is one that the definitions allow, and changes the state only where
//! it is. Of a select any case that can proceed is right: which word was drawn no history says.
ghost use Rattle.std.specs.Prelude.{◌≡◌, ◌≤◌, length, slice_get};
ghost use Rattle.gmp_seq.specs.Step.{Blocks, Closes, Deals, Selects, none_missing};
ghost use Rattle.gmp_check.specs.Decides.{Decides};
ghost use Rattle.gmp_check.specs.Consistent.{IsConsistent, SameCounts};

use super::State;
use crate::answers::Cause;
use gmp_base::{CNo, Case, Fault, GNo};
use gmp_seq::{Kind, Offers, Reply, Taken, channel_of};

/// The case of this number, if there is one.
fn case_at(cases: &[Case], i: u8) -> Option<Case>
    ensures { result ≡ slice_get cases.now i }
{
    cases.get(i as usize).copied()
}

impl State {
    /// Whether each case names nil or a channel that was made.
    fn none_missing(&self, cases: &[Case]) -> bool
        ensures { result ≡ none_missing self.now.channels cases.now }
    {
        cases
            .iter()
            .all(|case| self.channels.has(channel_of(*case)))
    }

    /// None of the cases can proceed, and g waits for any of them.
    fn block(&mut self, g: GNo, kind: Kind, cases: &[Case], until: Option<u64>) -> bool
        requires consistent { IsConsistent self.old }
        requires few { length cases.now ≤ 8 }
        ensures decides { Decides (Blocks g kind cases.now until) self.old self.new result }
        ensures rest { SameCounts self.old self.new }
    {
        if self.some_can(cases) {
            return false;
        }
        self.table.make_wait(g, kind, Offers::of(cases), until);
        true
    }

    /// A plain send or receive of g: it proceeds, or fails, or waits as a select of one case does.
    pub(super) fn deal(&mut self, g: GNo, case: Case, reply: Reply) -> bool
        requires { IsConsistent self.old }
        ensures decides { Decides (Deals g case reply) self.old self.new result }
        ensures rest { SameCounts self.old self.new }
    {
        let has = self.channels.has(channel_of(case));
        match reply {
            Reply::Fault(fault) => match fault {
                Fault::NoSuchChannel => !has,
                Fault::SendOnClosed if has => self.communicate(case, Taken::Failed),
                _ => false,
            },
            Reply::Sent(to) if has => self.communicate(case, Taken::Sent(to)),
            Reply::Got(v, sent, from) if has => self.communicate(case, Taken::Got(v, sent, from)),
            Reply::Waits if has => self.block(g, Kind::Plain, &[case], None),
            _ => false,
        }
    }

    /// A select of g: any case that can proceed does, or the default where none can, or g waits. A channel that was not made comes first,
    /// also before a case that could proceed.
    pub(super) fn select(
        &mut self,
        g: GNo,
        cases: &[Case],
        has_default: bool,
        until: Option<u64>,
        reply: Reply,
    ) -> bool
        requires consistent { IsConsistent self.old }
        requires few { length cases.now ≤ 8 }
        ensures decides { Decides (Selects g cases.now has_default until reply) self.old self.new result }
        ensures rest { SameCounts self.old self.new }
    {
        let has = self.none_missing(cases);
        match reply {
            Reply::Fault(Fault::NoSuchChannel) => !has,
            Reply::Chose(i, told) if has => match case_at(cases, i) {
                Some(case) => self.communicate(case, told),
                None => false,
            },
            Reply::Default if has && has_default => !self.some_can(cases),
            Reply::Waits if has && !has_default => self.block(g, Kind::Select, cases, until),
            _ => false,
        }
    }

    /// A channel that is made and open is closed, and all that wait on it become ready on the shelf; the reply counts them.
    pub(super) fn close(&mut self, c: Option<CNo>, reply: Reply) -> bool
        requires { IsConsistent self.old }
        ensures decides { Decides (Closes c reply) self.old self.new result }
        ensures rest { SameCounts self.old self.new }
    {
        let Some(c) = c else {
            return matches!(reply, Reply::Fault(Fault::CloseOfNil));
        };
        let has = self.channels.has(Some(c));
        let is_closed = self.channels.is_closed(c);
        match reply {
            Reply::Fault(Fault::NoSuchChannel) => !has,
            Reply::Fault(Fault::CloseOfClosed) => has && is_closed,
            Reply::Closed(n)
                if has && !is_closed && n == self.table.how_many_woken(Cause::Closed(c)) as u64 => {
                self.channels.close(c);
                self.table.wake(Cause::Closed(c));
                true
            }
            _ => false,
        }
    }
}
