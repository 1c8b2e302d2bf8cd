//! The goroutines, the channels on which they wait, and who runs on each machine: `Goroutines`, with the calls that concern the table and
//! who is woken. What goroutines do with channels stands in goroutines/communicating.rt.
//!
//! Go's runtime (proc.go) has the like: `go` is `newproc`, `yield_to` `Gosched`, `exit` `goexit`, `park` `gopark`, `ready` `goready`,
//! `sleep` `time.Sleep`, `take` `globrunqget`. Goroutines here are numbers and rows: which body each has, and where it is, is known above.
ghost use Rattle.std.specs.Prelude.{◌≡◌, ◌<◌, ◌≤◌, ◌^◌, ◌++◌, ◌∷◌, [], true, false, Some, IfOk, map, option_copied, length, position, slice_get};
ghost use Rattle.std.specs.Option.{option_map_or};
ghost use Rattle.gmp_base.specs.declared.number.GNo.{GNo};
ghost use Rattle.gmp_base.specs.declared.number.MNo.{MNo};
ghost use Rattle.gmp_base.specs.declared.number.Readiness.{Readiness};
ghost use Rattle.gmp_seq.specs.declared.call.Reply.{Reply};
ghost use Rattle.gmp_seq.specs.declared.status.Goroutine.{Goroutine};
ghost use Rattle.gmp_seq.specs.declared.status.Kind.{Kind};
ghost use Rattle.gmp_seq.specs.declared.status.Status.{Status};
ghost use Rattle.gmp_seq.specs.Step.{Claims, Goparks, Puts, Readies, Resumes, Sleeps, Spawns, Starts, Takes, Ticks, Yields};
ghost use Rattle.gmp_seq.specs.Table.{IsCalling, IsRunning, RunsNothing, all_woken, epoch_at, how_many_woken, is_astir, is_outstanding, is_ready_or_running, is_running_on, is_shelved, is_startable, least_deadline, made_wait, minded, set_status, some_status, status_at, stored_at};
ghost use Rattle.gmp_start.specs.Start.{channel_of};
ghost use Rattle.gmp_seq.specs.declared.call.Call.{Call};
ghost use Rattle.gmp_seq.specs.Waits.{waiters};
ghost use Rattle.gmp_table.specs.declared.wake.Wake.{Wake};
ghost use Rattle.gmp_table.specs.Waking.{IsFirst, answer_of};
ghost use Rattle.gmp_table.specs.Kept.{IsListing, count_status};
ghost use Rattle.gmp_chan.specs.Order.{are_made, rise};
ghost use Rattle.gmp_goroutines.specs.Shelf.{Shelves, WokenLast};
ghost use Rattle.gmp_goroutines.specs.Present.{opening_present};
ghost use Rattle.gmp_goroutines.specs.Tied.{IsEarly};

mod communicating;

use gmp_base::{Fault, GNo, MNo, Readiness, Woke};
use gmp_chan::Channels;
use gmp_select::withdraw_all;
use gmp_seq::{Goroutine, Kind, Offers, Reply, Status};
use gmp_start::StartChannel;
use gmp_table::{Candidate, Rank, StatusTable, Wake};
use std::alloc::{AllocError, Global};
use std::marker::Model;

/// A contract sees the table, the shelf in order, the channels, how many channels there may be, and how many machines there are.
///
/// Who waits stands twice, as a status in the table and as offers with the channels: definitions read the statuses, and a send must not
/// look at goroutines. The invariant ties both.
#[derive(Drop)]
pub struct Goroutines {
    table: StatusTable,
    channels: Channels,
    /// The goroutine that each machine ran last, or 0 where it ran none, so that nobody has to look for the one that it runs. A note is
    /// never taken back: whether it still runs, the row says.
    runners: Vec<GNo>,
}

impl Model for Goroutines {
    ghost use Rattle.std.specs.Prelude.{length};
    ghost use Rattle.gmp_goroutines.specs.Present.{Present};
    ghost use Rattle.gmp_goroutines.specs.Tied.{IsTied};

    ghost Value = { Present };

    ghost view = { λ g. record { table = g.table.table; shelf = g.table.shelf; channels = g.channels.channels; limit = g.channels.limit; machines = length g.runners.items } };

    // Who waits with the channels is who waits by the rows, each wait arrived before the next one, who is parked offers nothing, and
    // whoever a machine runs is noted at it.
    ghost invariant = { λ g. IsTied g.table.table g.channels.waiters g.channels.bodies g.runners.items };
}

/// Who is woken next, and what it is told. Each is asked of who keeps it in order: of a tick the table, by deadline, and of a close the
/// channels, by arrival. One look at the table for both would look at all goroutines.
fn next_to_wake(table: &StatusTable, channels: &Channels, wake: Wake) -> Option<Candidate>
    requires same { channels.now.waiters ≡ waiters table.now.table }
    requires early { IsEarly table.now.table }
    ensures { IsFirst wake table.now.table.goroutines (length table.now.table.goroutines) result }
{
    match wake {
        Wake::Due(now) => table.due(now),
        Wake::Closed(c) => {
            let w = channels.first_waiting(c)?;
            Some(Candidate {
                g: w.g,
                rank: Rank {
                    moment: 0,
                    arrival: w.arrival,
                },
                woke: w.offer.closed_answer(w.kind),
            })
        }
    }
}

/// Whom m ran last, where there is such a machine.
fn last_on(runners: &[GNo], m: MNo) -> Option<GNo>
    ensures { result ≡ slice_get runners.now m.0 }
{
    runners.get(m.0 as usize).copied()
}

impl Goroutines {
    /// Goroutine 0, which is main, is on the shelf, all others are dormant, and the channels are open and empty. It is refused where memory
    /// is.
    pub fn open(
        alloc: Global,
        machines: u8,
        limit: u16,
        bodies: u16,
        capacities: &[u32],
    ) -> Result<Self, AllocError>
        requires some { 1 ≤ bodies }
        requires few { length capacities.now ≤ limit }
        ensures { IfOk result (λ g. g ≡ opening_present machines limit bodies capacities.now) }
    {
        Ok(Goroutines {
            table: StatusTable::open(alloc, bodies)?,
            channels: Channels::open(alloc, limit, bodies, capacities)?,
            runners: vec![in alloc; GNo(0); machines as usize]?,
        })
    }

    /// What g does and how often it became ready, if there is such a goroutine.
    pub fn get(&self, g: GNo) -> Option<&Goroutine>
        ensures { option_copied result ≡ slice_get self.now.table.goroutines g.0 }
    {
        self.table.get(g)
    }

    /// What is stored for g, where it is ready: what it is told when it runs. Done for any other, which has no meaning.
    pub fn stored(&self, g: GNo) -> Woke
        ensures { result ≡ stored_at self.now.table g }
    {
        match self.table.get(g) {
            Some(row) => row.status.answer().unwrap_or(Woke::Done),
            None => Woke::Done,
        }
    }

    /// Whether the ticket of this readiness is given out, and not yet claimed or put back.
    pub fn is_outstanding(&self, r: Readiness) -> bool
        ensures { result ≡ is_outstanding self.now.table r }
    {
        self.table.is_outstanding(r)
    }

    /// Whether m runs g.
    pub fn runs(&self, m: MNo, g: GNo) -> bool
        ensures { result ≡ option_map_or (is_running_on m) (status_at self.now.table g) false }
    {
        self.table.runs(m, g)
    }

    /// Whether m runs some goroutine. One row is looked at, by the note of whom it ran last.
    pub fn runs_some(&self, m: MNo) -> bool
        ensures { result ≡ some_status (is_running_on m) self.now.table }
    {
        match last_on(&self.runners, m) {
            Some(g) => self.table.runs(m, g),
            None => false,
        }
    }

    /// All goroutines, by number.
    pub fn rows(&self) -> &[Goroutine]
        ensures { result.now ≡ self.now.table.goroutines }
    {
        self.table.rows()
    }

    /// How many waits began.
    pub fn arrivals(&self) -> u64
        ensures { result ≡ self.now.table.arrivals }
    {
        self.table.arrivals()
    }

    /// The latest moment that a tick told, in nanoseconds.
    pub fn clock(&self) -> u64
        ensures { result ≡ self.now.table.clock }
    {
        self.table.clock()
    }

    /// The channels for a start.
    pub fn channels_copied(&self, alloc: Global) -> Result<Vec<StartChannel>, AllocError>
        ensures { IfOk result (λ v. map channel_of v.items ≡ self.now.channels) }
    {
        self.channels.copied(alloc)
    }

    /// Whether somebody is on the shelf.
    pub fn has_shelved(&self) -> bool
        ensures some { result ≡ some_status is_shelved self.now.table }
        // The shelf has each goroutine on it once, and no other.
        ensures listing { IsListing is_shelved self.now.table.goroutines self.now.shelf }
    {
        self.table.has_shelved()
    }

    /// How many are ready or running.
    pub fn count_going(&self) -> usize
        ensures { result ≡ count_status is_ready_or_running self.now.table.goroutines }
    {
        self.table.count_going()
    }

    /// The least deadline of all that wait, in nanoseconds.
    pub fn least_deadline(&self) -> Option<u64>
        ensures { result ≡ least_deadline self.now.table }
    {
        self.table.least_deadline()
    }

    /// Whether somebody is ready, running or calling, or waits with a deadline.
    pub fn has_astir(&self) -> bool
        ensures { result ≡ some_status is_astir self.now.table }
    {
        self.table.has_astir()
    }

    /// The least deadline, in nanoseconds, where nobody is ready or running: then a machine has to mind it.
    pub fn minded(&self) -> Option<u64>
        ensures { result ≡ minded self.now.table }
    {
        if self.table.has_going() {
            return None;
        }
        self.table.least_deadline()
    }

    /// Gives out the ticket of the goroutine that is on the shelf for longest, or says that there is none. The reply is written in place.
    #[inline(always)]
    pub fn take(&mut self, out: &mut Reply)
        ensures takes { Takes out.new self.old.table self.new.table }
        ensures shelf { Shelves Call.Take out.new self.old.table self.new.table self.old.shelf self.new.shelf }
        ensures rest { self.new ≡ record self.old { table = self.new.table; shelf = self.new.shelf } }
    {
        match self.table.unshelve() {
            Some(r) => *out = Reply::Ticket(r),
            None => *out = Reply::Nothing,
        }
    }

    /// Puts a ticket that is out onto the shelf, last.
    pub fn put(&mut self, r: Readiness)
        requires { is_outstanding self.old.table r ≡ true }
        ensures puts { Puts r Reply.Shelf self.old.table self.new.table }
        ensures last { self.new.shelf ≡ self.old.shelf ++ r.g ∷ [] }
        ensures rest { self.new ≡ record self.old { table = self.new.table; shelf = self.new.shelf } }
    {
        self.table.shelve(r);
    }

    /// Spends a ticket that is out: m, which runs nothing, runs its goroutine.
    pub fn claim(&mut self, m: MNo, r: Readiness)
        requires out { is_outstanding self.old.table r ≡ true }
        requires free { RunsNothing self.old.table m }
        requires there { m.0 < self.old.machines }
        ensures claims { Claims m r Reply.Held self.old.table self.new.table }
        ensures rest { self.new ≡ record self.old { table = self.new.table } }
    {
        self.table.claim(m, r);
        self.runners[m.0 as usize] = r.g;
    }

    /// Starts a body, whose ticket is given out (Go specification, Go statements). A body that isn't there, or was started before, is a
    /// fault.
    pub fn go(&mut self, body: GNo) -> Reply
        requires young { epoch_at self.old.table body < 2 ^ 63 }
        ensures starts { Starts body result self.old.table self.new.table }
        ensures rest { self.new ≡ record self.old { table = self.new.table } }
    {
        match self.table.get(body) {
            None => Reply::Fault(Fault::NoSuchBody),
            Some(row) => match row.status {
                Status::Dormant => Reply::Ticket(self.table.start(body)),
                _ => Reply::Fault(Fault::AlreadyStarted),
            },
        }
    }

    /// Starts the least body that was not started or has ended, whose ticket is given out; that there is none is a fault. Which one it is the
    /// definitions leave open.
    pub fn spawn(&mut self) -> Reply
        requires young { (g : GNo) → epoch_at self.old.table g < 2 ^ 63 }
        ensures spawns { Spawns result self.old.table self.new.table }
        ensures least { (r : Readiness) → result ≡ Reply.Ticket r → position (λ (x : Goroutine). is_startable x.status) self.old.table.goroutines ≡ Some r.g.0 }
        ensures rest { self.new ≡ record self.old { table = self.new.table } }
    {
        match self.table.spawn() {
            Some(r) => Reply::Ticket(r),
            None => Reply::Fault(Fault::NoSuchBody),
        }
    }

    /// g, which runs, goes onto the shelf, last.
    pub fn yield_to(&mut self, g: GNo) -> Readiness
        requires runs { (m : MNo) × IsRunning self.old.table g m }
        requires young { epoch_at self.old.table g < 2 ^ 63 }
        ensures yields { Yields g (Reply.Shelved result) self.old.table self.new.table }
        ensures last { self.new.shelf ≡ self.old.shelf ++ g ∷ [] }
        ensures rest { self.new ≡ record self.old { table = self.new.table; shelf = self.new.shelf } }
    {
        self.table.requeue(g, Woke::Done)
    }

    /// g, which runs, ends. Of main it is told above: the run is over then (Go specification, Program execution).
    pub fn exit(&mut self, g: GNo)
        requires runs { (m : MNo) × IsRunning self.old.table g m }
        ensures table { self.new.table ≡ set_status self.old.table g Status.Dead }
        ensures rest { self.new ≡ record self.old { table = self.new.table } }
    {
        self.table.dead(g);
    }

    /// g, which runs, begins to wait, with these offers, until this moment. The arrival is the table's count, later than all before, so
    /// that the offers go last.
    fn wait(&mut self, g: GNo, kind: Kind, offers: Offers, until: Option<u64>)
        requires runs { (m : MNo) × IsRunning self.old.table g m }
        requires few { self.old.table.arrivals < 2 ^ 63 }
        // Who is parked offers nothing.
        requires bare { kind ≡ Kind.Parked → offers ≡ [] }
        requires rising { rise offers ≡ true }
        requires made { are_made self.old.channels offers ≡ true }
        ensures table { self.new.table ≡ made_wait self.old.table g kind offers until }
        ensures rest { self.new ≡ record self.old { table = self.new.table } }
    {
        self.channels
            .wait_on(g, self.table.arrivals(), kind, &offers);
        self.table.wait(g, kind, offers, until);
    }

    /// g, which runs, waits until this moment, in nanoseconds. A moment that is past ends at the next tick.
    pub fn sleep(&mut self, g: GNo, until: u64)
        requires runs { (m : MNo) × IsRunning self.old.table g m }
        requires few { self.old.table.arrivals < 2 ^ 63 }
        ensures sleeps { Sleeps g until Reply.Waits self.old.table self.new.table }
        ensures rest { self.new ≡ record self.old { table = self.new.table } }
    {
        self.wait(g, Kind::Sleep, Offers::new(), Some(until));
    }

    /// g, which runs, waits until it is made ready. A ready that comes before is a fault, and isn't kept for it.
    pub fn park(&mut self, g: GNo)
        requires runs { (m : MNo) × IsRunning self.old.table g m }
        requires few { self.old.table.arrivals < 2 ^ 63 }
        ensures parks { Goparks g Reply.Waits self.old.table self.new.table }
        ensures rest { self.new ≡ record self.old { table = self.new.table } }
    {
        self.wait(g, Kind::Parked, Offers::new(), None);
    }

    /// Makes a goroutine ready that is parked, to be told Done, or answers the fault. Its ticket is given out. One row is looked at and no
    /// offer taken out: who is parked has none.
    pub fn ready(&mut self, h: GNo) -> Reply
        requires young { epoch_at self.old.table h < 2 ^ 63 }
        ensures readies { Readies h result self.old.table self.new.table }
        ensures rest { self.new ≡ record self.old { table = self.new.table } }
    {
        // Who is not there can't be parked: that fault comes first.
        let Some(row) = self.table.get(h) else {
            return Reply::Fault(Fault::NoSuchBody);
        };
        if !row.status.is_parked() {
            return Reply::Fault(Fault::NotParked);
        }
        Reply::Ticket(self.table.ready(h, Woke::Done))
    }

    /// g, which m runs, goes into a blocking call, which m makes. Its processor is given up elsewhere.
    pub fn enter(&mut self, m: MNo, g: GNo)
        requires runs { IsRunning self.old.table g m }
        ensures table { self.new.table ≡ set_status self.old.table g (Status.Calling m) }
        ensures rest { self.new ≡ record self.old { table = self.new.table } }
    {
        self.table.enter(m, g);
    }

    /// g comes back from the blocking call that m makes, and runs on, since m found a processor.
    pub fn run_on(&mut self, m: MNo, g: GNo)
        requires calls { IsCalling self.old.table g m }
        requires free { RunsNothing self.old.table m }
        requires there { m.0 < self.old.machines }
        ensures table { self.new.table ≡ set_status self.old.table g (Status.Running m) }
        ensures rest { self.new ≡ record self.old { table = self.new.table } }
    {
        self.table.leave(m, g);
        self.runners[m.0 as usize] = g;
    }

    /// g comes back from the blocking call that m makes, and goes onto the shelf, last, to be told the number: m found no processor.
    pub fn come_back(&mut self, m: MNo, g: GNo, number: u64) -> Readiness
        requires calls { IsCalling self.old.table g m }
        requires young { epoch_at self.old.table g < 2 ^ 63 }
        ensures resumes { Resumes g m number (Reply.Shelved result) self.old.table self.new.table }
        ensures last { self.new.shelf ≡ self.old.shelf ++ g ∷ [] }
        ensures rest { self.new ≡ record self.old { table = self.new.table; shelf = self.new.shelf } }
    {
        self.table.requeue(g, Woke::Number(number))
    }

    /// Wakes all these onto the shelf, one after another, and counts them. The next one is asked for each time, so nothing is gathered or
    /// sorted, and no memory is taken. Each that is woken waits no more, on no channel, so the loop ends.
    fn wake_all(&mut self, wake: Wake) -> u64
        requires young { (g : GNo) → epoch_at self.old.table g < 2 ^ 63 }
        ensures table { self.new.table ≡ all_woken (answer_of wake) self.old.table }
        ensures count { result ≡ how_many_woken (answer_of wake) self.old.table }
        ensures order { WokenLast wake self.old.table self.old.shelf self.new.shelf }
        ensures rest { self.new ≡ record self.old { table = self.new.table; shelf = self.new.shelf } }
    {
        // Each that is woken becomes ready, so the count is at most that of the goroutines, and fits.
        let bodies = u64::from(self.table.len());
        let mut count = 0;
        while let Some(next) = next_to_wake(&self.table, &self.channels, wake) {
            self.table.requeue(next.g, next.woke);
            withdraw_all(&mut self.channels, next.g);
            count += 1;
            prove!(count <= bodies);
        }
        count
    }

    /// Lets the clock show this moment, in nanoseconds, unless it showed a later one. All that wait until then or a moment before go onto
    /// the shelf, by their deadlines, and then by their arrivals. It counts them. A sleep is told Done, a select that it is late.
    pub fn tick(&mut self, moment: u64) -> u64
        requires young { (g : GNo) → epoch_at self.old.table g < 2 ^ 63 }
        ensures ticks { Ticks moment (Reply.Woke result) self.old.table self.new.table }
        ensures order { WokenLast (Wake.Due self.new.table.clock) self.old.table self.old.shelf self.new.shelf }
        ensures rest { self.new ≡ record self.old { table = self.new.table; shelf = self.new.shelf } }
    {
        // By the clock, and not by the moment that was told: an earlier one wakes nobody who wasn't due.
        let now = self.table.advance_clock(moment);
        self.wake_all(Wake::Due(now))
    }
}
