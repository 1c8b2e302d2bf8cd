//! Who waits for any of its cases, and the case that proceeds.
ghost use Rattle.std.specs.Prelude.{◌≡◌, ◌<◌, ◌≤◌, ◌++◌, Some, true, count_by, length, is_some, IfNone, IfSome};
ghost use Rattle.gmp_seq.specs.declared.status.Kind.{Kind};
ghost use Rattle.gmp_seq.specs.declared.status.Waiter.{Waiter};
ghost use Rattle.gmp_seq.specs.Step.{none_missing};
ghost use Rattle.gmp_seq.specs.Waits.{Proceeds, as_waiters, can, channel_of, names_no_missing, offers_of};
ghost use Rattle.gmp_chan.specs.Contents.{is_of, without, without_served};
ghost use Rattle.gmp_chan.specs.Order.{is_later};
ghost use Rattle.gmp_chan.specs.Served.{served};

use gmp_base::{Case, Cases, GNo};
use gmp_chan::Channels;
use gmp_seq::{Kind, Offers, Transfer, channel_of};

/// Whether each case names nil or a channel that was made. It is asked of all cases before any is taken: whether an ask is well formed
/// doesn't depend on the choice.
pub fn none_missing(channels: &Channels, cases: &Cases) -> bool
    ensures made { result ≡ none_missing channels.now.channels cases.now }
    ensures eight { length cases.now ≤ 8 }
{
    cases
        .as_slice()
        .iter()
        .all(|case| channels.has(channel_of(*case)))
}

/// Goroutine g begins to wait for any of these cases, since this arrival, and answers what it waits for: an offer for each case that isn't
/// on nil. It has no offer yet. Where all are on nil it waits for its deadline, or for good.
pub fn register(channels: &mut Channels, g: GNo, arrival: u64, cases: &Cases) -> Offers
    requires known { g.0 < channels.old.bodies }
    requires fresh { count_by (is_of g) channels.old.waiters ≡ 0 }
    requires later { is_later arrival channels.old.waiters ≡ true }
    requires made { none_missing channels.old.channels cases.now ≡ true }
    ensures offers { result ≡ offers_of cases.now }
    ensures waiters { channels.new ≡ record channels.old { waiters = channels.old.waiters ++ as_waiters g arrival Kind.Select (offers_of cases.now) } }
{
    let offers = Offers::of(cases.as_slice());
    channels.wait_on(g, arrival, Kind::Select, &offers);
    offers
}

/// Goroutine g waits for none of its cases any more: no offer of its own is left. A close and a tick call it for whoever they wake, however
/// it waits, since a plain wait is that of a select of one case.
pub fn withdraw_all(channels: &mut Channels, g: GNo)
    ensures rest { channels.new ≡ record channels.old { waiters = without g channels.old.waiters } }
    ensures gone { count_by (is_of g) channels.new.waiters ≡ 0 }
{
    channels.withdraw(g);
}

/// A case does its send or receive, if it can proceed, as a plain one does. Who is served by it waits no more, for none of its cases.
pub fn complete(channels: &mut Channels, case: Case) -> Option<Transfer>
    requires { names_no_missing channels.old.channels (channel_of case) ≡ true }
    ensures exact { is_some result ≡ can channels.old.channels channels.old.waiters case }
    ensures proceeds { IfSome result (λ how. Proceeds channels.old.channels channels.old.waiters case how channels.new.channels) }
    ensures waiters { IfSome result (λ how. channels.new.waiters ≡ without_served how channels.old.waiters) }
    ensures gone { IfSome result (λ how. (w : Waiter) → served how ≡ Some w → count_by (is_of w.g) channels.new.waiters ≡ 0) }
    ensures none { IfNone result (channels.new ≡ channels.old) }
    ensures limit { channels.new.limit ≡ channels.old.limit }
    ensures bodies { channels.new.bodies ≡ channels.old.bodies }
{
    channels.proceed(case)
}
