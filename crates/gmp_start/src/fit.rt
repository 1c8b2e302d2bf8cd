//! Whether a state is one from which a run may go on. The tests stand as the definition does: on channels, on each goroutine's row, on each
//! two rows, and on machines. What each looks at: `wait_fits`, `epoch_fits` and `machine_fits` one row; `clash` two; `holders_fit`,
//! `callers_fit`, `spinners_fit` and `marked_fit` the lists of machines.
//!
//! Pairs are compared one by one: a start is read once in a run, and no list of who was seen is needed.
ghost use Rattle.std.specs.Prelude.{◌≡◌, ◌↔◌, ◌&&◌, ◌+◌, ◌<◌, ◌≤◌, ◌^◌, length, sum, IsTrue, MatchOption};
ghost use Rattle.std.specs.List.{list_all, list_any};
ghost use Rattle.gmp_seq.specs.Laws.{HasSizes};
ghost use Rattle.gmp_seq.specs.Machines.{has_processor, is_held_by};
ghost use Rattle.gmp_seq.specs.Table.{is_calling_on, is_running_on, some_status};
ghost use Rattle.gmp_start.specs.Start.{channel_of, machines_of, state_of, table_of};
ghost use Rattle.gmp_start.specs.Fit.{arrival_of, awake_at, calling_at, callers_from, channel_fits, clash, epoch_fits, fits, flagged_from, holder_fits, machine_fits, machine_of, machines_fit, pairs_apart, rise_from, row_fits, same_arrival, same_machine, spinner_fits, table_fits, wait_fits};

use crate::start::{Start, StartChannel};
use gmp_base::MNo;
use gmp_seq::{Goroutine, Limits, Mode, Offer, Status};

/// Whether the offers rise by case, so that each case has one at most.
pub fn rise(offers: &[Offer]) -> bool
    ensures { result ≡ rise_from 0 offers.now }
{
    // The next case that may come: one more than the last, which may be 256.
    let mut least = 0u16;
    for offer in offers {
        if u16::from(offer.case) < least {
            return false;
        }
        least = u16::from(offer.case) + 1;
    }
    true
}

/// A wait began before the next one, and its offers rise.
fn wait_fits(arrivals: u64, status: &Status) -> bool
    ensures { result ≡ wait_fits arrivals status.now }
{
    match status {
        Status::Waiting(wait) => wait.arrival < arrivals && rise(wait.offers.as_slice()),
        _ => true,
    }
}

/// One that was never started was never ready; any other was at least once. Each entry makes a goroutine ready once at most, and main was
/// before the first, so the epoch is at most one more than the entries.
fn epoch_fits(made: u64, row: &Goroutine) -> bool
    requires { made + 1 < 2 ^ 64 }
    ensures { result ≡ epoch_fits made row.now }
{
    if row.epoch > made + 1 {
        return false;
    }
    if row.status.is_dormant() {
        row.epoch == 0
    } else {
        row.epoch > 0
    }
}

/// The machine that runs it, or makes its blocking call.
fn machine_of(status: &Status) -> Option<MNo>
    ensures { result ≡ machine_of status.now }
{
    match status {
        Status::Running(m) => Some(*m),
        Status::Calling(m) => Some(*m),
        _ => None,
    }
}

/// When it began to wait, as a number among all waits.
fn arrival_of(status: &Status) -> Option<u64>
    ensures { result ≡ arrival_of status.now }
{
    match status {
        Status::Waiting(wait) => Some(wait.arrival),
        _ => None,
    }
}

/// Two that are at no machine are not at the same.
fn same_machine(a: Option<MNo>, b: Option<MNo>) -> bool
    ensures { result ≡ same_machine a b }
{
    match (a, b) {
        (Some(m), Some(n)) => m.0 == n.0,
        _ => false,
    }
}

/// Two that don't wait have no arrival in common.
fn same_arrival(a: Option<u64>, b: Option<u64>) -> bool
    ensures { result ≡ same_arrival a b }
{
    match (a, b) {
        (Some(m), Some(n)) => m == n,
        _ => false,
    }
}

/// Whether two goroutines are at one machine, or arrived at once. Neither can be: a machine has one goroutine, and arrivals are counted.
fn clash(x: &Goroutine, y: &Goroutine) -> bool
    ensures { result ≡ clash x.now y.now }
{
    same_machine(machine_of(&x.status), machine_of(&y.status))
        || same_arrival(arrival_of(&x.status), arrival_of(&y.status))
}

/// Whether the row clashes with any of these.
fn clashes(row: &Goroutine, others: &[Goroutine]) -> bool
    ensures { result ≡ list_any (clash row.now) others.now }
{
    others.iter().any(|other| clash(row, other))
}

/// Whether no two rows clash.
fn are_apart(rows: &[Goroutine]) -> bool
    ensures { result ≡ pairs_apart clash rows.now }
{
    for (i, row) in rows.iter().enumerate() {
        if clashes(row, &rows[i + 1..]) {
            return false;
        }
    }
    true
}

/// Whether one of these is the same machine.
fn holds_again(holder: Option<MNo>, others: &[Option<MNo>]) -> bool
    ensures { result ≡ list_any (same_machine holder) others.now }
{
    others.iter().any(|other| same_machine(holder, *other))
}

/// Whether no machine holds two processors.
fn hold_apart(holders: &[Option<MNo>]) -> bool
    ensures { result ≡ pairs_apart same_machine holders.now }
{
    for (p, holder) in holders.iter().enumerate() {
        if holds_again(*holder, &holders[p + 1..]) {
            return false;
        }
    }
    true
}

/// An idle processor is held by nobody.
fn is_held_by(m: MNo, holder: Option<MNo>) -> bool
    ensures { result ≡ is_held_by m holder }
{
    match holder {
        Some(n) => m.0 == n.0,
        None => false,
    }
}

/// Whether the channel has room for what is on its list.
fn channel_fits(channel: &StartChannel) -> bool
    ensures { result ≡ channel_fits (channel_of channel.now) }
{
    channel.items.len() <= channel.capacity as usize
}

/// The sum, where it is below `most`. It never adds beyond: each count is compared with what is left.
fn total(counts: &[u64], most: u64) -> Option<u64>
    ensures { MatchOption result (most ≤ sum counts.now) (λ n. (n ≡ sum counts.now) × (n < most)) }
{
    let mut total = 0u64;
    for count in counts {
        if *count >= most - total {
            return None;
        }
        total += *count;
    }
    if total < most { Some(total) } else { None }
}

impl Start {
    /// A machine that isn't there is not awake.
    fn is_awake(&self, m: MNo) -> bool
        ensures { result ≡ awake_at (machines_of self.now) m }
    {
        matches!(self.modes.get(m.0 as usize), Some(Mode::Awake))
    }

    fn is_calling(&self, m: MNo) -> bool
        ensures { result ≡ calling_at (machines_of self.now) m }
    {
        matches!(self.modes.get(m.0 as usize), Some(Mode::Calling))
    }

    /// Whether m holds a processor, active or not.
    fn has_processor(&self, m: MNo) -> bool
        ensures { result ≡ has_processor (machines_of self.now) m }
    {
        self.holders.iter().any(|holder| is_held_by(m, *holder))
    }

    /// Whoever runs one is awake and holds a processor; whoever makes a blocking call is in one.
    fn machine_fits(&self, status: &Status) -> bool
        ensures { result ≡ machine_fits (machines_of self.now) status.now }
    {
        match status {
            Status::Running(m) => self.is_awake(*m) && self.has_processor(*m),
            Status::Calling(m) => self.is_calling(*m),
            _ => true,
        }
    }

    /// One row by itself: its epoch, its wait, its machine.
    fn row_fits(&self, made: u64, row: &Goroutine) -> bool
        requires { made + 1 < 2 ^ 64 }
        ensures { result ≡ row_fits made self.now.arrivals (machines_of self.now) row.now }
    {
        epoch_fits(made, row)
            && wait_fits(self.arrivals, &row.status)
            && self.machine_fits(&row.status)
    }

    fn rows_fit(&self, made: u64) -> bool
        requires { made + 1 < 2 ^ 64 }
        ensures { result ≡ list_all (row_fits made self.now.arrivals (machines_of self.now)) self.now.goroutines.items }
    {
        self.goroutines.iter().all(|row| self.row_fits(made, row))
    }

    /// No more waits began than entries were made.
    fn table_fits(&self, made: u64) -> bool
        requires { made + 1 < 2 ^ 64 }
        ensures { result ≡ table_fits made (machines_of self.now) (table_of self.now) }
    {
        self.arrivals <= made && self.rows_fit(made) && are_apart(&self.goroutines)
    }

    /// Whether m makes somebody's blocking call.
    fn calls_for_some(&self, m: MNo) -> bool
        ensures { result ≡ some_status (is_calling_on m) (table_of self.now) }
    {
        self.goroutines
            .iter()
            .any(|row| row.status.is_calling_on(m))
    }

    /// Whether m runs somebody.
    fn runs_some(&self, m: MNo) -> bool
        ensures { result ≡ some_status (is_running_on m) (table_of self.now) }
    {
        self.goroutines
            .iter()
            .any(|row| row.status.is_running_on(m))
    }

    /// Each machine in a blocking call has a goroutine that it makes it for.
    fn callers_fit(&self) -> bool
        requires { length self.now.modes.items ≤ 256 }
        ensures { result ≡ callers_from (table_of self.now) 0 self.now.modes.items }
    {
        for (m, mode) in self.modes.iter().enumerate() {
            if matches!(mode, Mode::Calling) && !self.calls_for_some(MNo(m as u8)) {
                return false;
            }
        }
        true
    }

    /// Whoever looks for work is awake and runs nobody.
    fn spinner_fits(&self, m: MNo) -> bool
        ensures { result ≡ spinner_fits (machines_of self.now) (table_of self.now) m }
    {
        self.is_awake(m) && !self.runs_some(m)
    }

    /// Machines are numbered by place, of which there are 256 at most, so the number fits.
    fn spinners_fit(&self) -> bool
        requires { length self.now.spinning.items ≤ 256 }
        ensures { result ≡ flagged_from (spinner_fits (machines_of self.now) (table_of self.now)) 0 self.now.spinning.items }
    {
        for (m, spins) in self.spinning.iter().enumerate() {
            if *spins && !self.spinner_fits(MNo(m as u8)) {
                return false;
            }
        }
        true
    }

    /// Whoever is to look again is awake: a machine that is parked or in a blocking call bears no mark.
    fn marked_fit(&self) -> bool
        requires { length self.now.marked.items ≤ 256 }
        ensures { result ≡ flagged_from (awake_at (machines_of self.now)) 0 self.now.marked.items }
    {
        for (m, is_marked) in self.marked.iter().enumerate() {
            if *is_marked && !self.is_awake(MNo(m as u8)) {
                return false;
            }
        }
        true
    }

    /// Whoever holds a processor is awake: in a blocking call it is given up (Scalable Go Scheduler Design Doc, Syscalls/M Parking and
    /// Unparking).
    fn holder_fits(&self, holder: Option<MNo>) -> bool
        ensures { result ≡ holder_fits (machines_of self.now) holder }
    {
        match holder {
            Some(m) => self.is_awake(m),
            None => true,
        }
    }

    fn holders_fit(&self) -> bool
        ensures { result ≡ list_all (holder_fits (machines_of self.now)) self.now.holders.items }
    {
        self.holders.iter().all(|holder| self.holder_fits(*holder))
    }

    /// Holders are awake and apart, and modes, spinning and marks suit the rows.
    fn machines_fit(&self) -> bool
        requires modes { length self.now.modes.items ≤ 256 }
        requires spinning { length self.now.spinning.items ≤ 256 }
        requires marked { length self.now.marked.items ≤ 256 }
        ensures { result ≡ machines_fit (machines_of self.now) (table_of self.now) }
    {
        self.holders_fit()
            && hold_apart(&self.holders)
            && self.callers_fit()
            && self.spinners_fit()
            && self.marked_fit()
    }

    fn channels_fit(&self) -> bool
        ensures { result ≡ list_all (λ c. channel_fits (channel_of c)) self.now.channels.items }
    {
        self.channels.iter().all(|channel| channel_fits(channel))
    }

    /// All that is asked beside the number of entries, which the others are compared with.
    fn parts_fit(&self, made: u64) -> bool
        requires few { made + 1 < 2 ^ 64 }
        requires modes { length self.now.modes.items ≤ 256 }
        requires spinning { length self.now.spinning.items ≤ 256 }
        requires marked { length self.now.marked.items ≤ 256 }
        ensures { result ≡ (list_all (λ c. channel_fits (channel_of c)) self.now.channels.items && table_fits made (machines_of self.now) (table_of self.now) && machines_fit (machines_of self.now) (table_of self.now)) }
    {
        self.channels_fit() && self.table_fits(made) && self.machines_fit()
    }

    /// Whether there is a row for each of so many goroutines, and for each processor and machine. `fits` doesn't ask it, but for 256
    /// machines at most; whoever reads a start asks both.
    pub fn has_sizes(&self, limits: Limits, bodies: u16) -> bool
        ensures { IsTrue result ↔ HasSizes limits bodies (state_of self.now) }
    {
        let machines = limits.machines as usize;
        self.goroutines.len() == bodies as usize
            && self.holders.len() == limits.procs as usize
            && self.modes.len() == machines
            && self.spinning.len() == machines
            && self.marked.len() == machines
            && self.counts.len() == machines
    }

    /// Whether the parts fit together, as those of a state of a legal run do while it lasts. It compares each two goroutines, and goes
    /// through them once for each machine that spins or is in a blocking call.
    pub fn fits(&self, limits: Limits) -> bool
        requires modes { length self.now.modes.items ≤ 256 }
        requires spinning { length self.now.spinning.items ≤ 256 }
        requires marked { length self.now.marked.items ≤ 256 }
        ensures { result ≡ fits limits (state_of self.now) }
    {
        // As many entries as the limit allows, or more, would have an outcome: no run goes on from there.
        match total(&self.counts, limits.entries) {
            Some(made) => self.parts_fit(made),
            None => false,
        }
    }
}
