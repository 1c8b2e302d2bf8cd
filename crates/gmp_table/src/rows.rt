//! The rows of the table, with counts and the deadlines in order, so that a question about all of them needs no scan. A park asks who goes
//! on, and a park must not look at all goroutines.
ghost use Rattle.std.specs.Prelude.{◌≡◌, ◌+◌, ◌<◌, ◌≤◌, ◌^◌, true, position, replicate, length, slice_get, slice_set, option_copied, nat_lt, is_some, IfOk, IfSome};
ghost use Rattle.gmp_base.specs.declared.number.GNo.{GNo};
ghost use Rattle.gmp_base.specs.declared.ask.Woke.{Woke};
ghost use Rattle.gmp_seq.specs.declared.status.Goroutine.{Goroutine};
ghost use Rattle.gmp_seq.specs.declared.status.Status.{Status};
ghost use Rattle.gmp_seq.specs.declared.status.TicketPlace.{TicketPlace};
ghost use Rattle.gmp_seq.specs.State.{dormant};
ghost use Rattle.std.specs.Option.{option_map};
ghost use Rattle.gmp_seq.specs.Table.{is_calling, is_ready_or_running, is_startable, least_of};
ghost use Rattle.gmp_table.specs.Contents.{epoch_in, answer_in, turned, risen, has_deadline};
ghost use Rattle.gmp_table.specs.Due.{NoneStartableBelow};
ghost use Rattle.gmp_table.specs.Kept.{count_status};
ghost use Rattle.gmp_table.specs.declared.wake.Wake.{Wake};
ghost use Rattle.gmp_table.specs.Waking.{IsFirst};

use crate::deadlines::{Deadline, Deadlines};
use crate::wake::Candidate;
use gmp_base::{GNo, Woke};
use gmp_seq::{Goroutine, Status, TicketPlace};
use std::alloc::{AllocError, Global};
use std::marker::Model;

/// The rows, by goroutine. A contract sees the list of them. `set` alone writes a row, and moves the counts and the deadline with it, so
/// that no caller can forget one.
#[derive(Drop)]
pub(crate) struct Rows {
    list: Vec<Goroutine>,
    /// How many rows there are.
    bodies: u16,
    /// How many are ready or running.
    going: usize,
    /// How many are in a blocking call.
    calling: usize,
    /// Those of all who wait with one.
    deadlines: Deadlines,
    /// Nobody below this number is dormant or dead, so that who is looked for is found by few looks.
    low: u16,
}

impl Model for Rows {
    ghost use Rattle.std.specs.Prelude.{List};
    ghost use Rattle.gmp_seq.specs.declared.status.Goroutine.{Goroutine};
    ghost use Rattle.gmp_table.specs.Due.{IsTimed};

    ghost Value = { List Goroutine };

    ghost view = { λ r. r.list.items };

    // The counts are those of the rows, the deadlines are those of all who wait with one, there is room for one each, and who may be started
    // isn't below `low`.
    ghost invariant = { λ r. IsTimed r.list.items r.bodies r.going r.calling r.deadlines r.low };
}

/// The number below which nobody may be started, once g has this status.
#[inline(always)]
fn lowered(low: u16, g: GNo, status: &Status) -> u16
    ensures below { result ≤ low }
    ensures at { is_startable status.now ≡ true → result ≤ g.0 }
{
    if status.is_startable() {
        low.min(g.0)
    } else {
        low
    }
}

/// The ticket of one that is ready goes to this place. Its answer stays, and isn't written again.
#[inline(always)]
fn set_place(status: &mut Status, to: TicketPlace)
    ensures { (from : TicketPlace) (woke : Woke) → status.old ≡ Status.Ready from woke → status.new ≡ Status.Ready to woke }
{
    if let Status::Ready(place, _) = status {
        *place = to;
    }
}

/// The least number, of those from here on, of a goroutine that is dormant or dead.
fn first_startable(rows: &[Goroutine], from: u16, bodies: u16) -> Option<u16>
    requires below { NoneStartableBelow from rows.now }
    requires size { length rows.now ≡ bodies }
    ensures { result ≡ position (λ (x : Goroutine). is_startable x.status) rows.now }
{
    for i in from..bodies {
        if rows[i as usize].status.is_startable() {
            return Some(i);
        }
    }
    None
}

impl Rows {
    /// As many dormant goroutines.
    pub(crate) fn dormant(alloc: Global, bodies: u16) -> Result<Self, AllocError>
        ensures { IfOk result (λ r. r ≡ replicate bodies dormant) }
    {
        let mut list = Vec::with_capacity(alloc, bodies as usize)?;
        for _ in 0..bodies {
            list.push_reserved(Goroutine {
                status: Status::Dormant,
                epoch: 0,
            });
        }
        let deadlines = Deadlines::open(alloc, bodies)?;
        Ok(Rows {
            list,
            bodies,
            going: 0,
            calling: 0,
            deadlines,
            low: 0,
        })
    }

    /// How many there are.
    pub(crate) fn len(&self) -> u16
        ensures { result ≡ length self.now }
    {
        self.bodies
    }

    /// All rows, by number.
    pub(crate) fn as_slice(&self) -> &[Goroutine]
        ensures { result.now ≡ self.now }
    {
        &self.list
    }

    /// The row of g, if there is one.
    pub(crate) fn get(&self, g: GNo) -> Option<&Goroutine>
        ensures { option_copied result ≡ slice_get self.now g.0 }
    {
        self.list.get(g.0 as usize)
    }

    /// What a ready goroutine is to be told.
    pub(crate) fn answer(&self, g: GNo) -> Option<Woke>
        ensures { result ≡ answer_in self.now g }
    {
        match self.get(g) {
            Some(row) => row.status.answer(),
            None => None,
        }
    }

    /// How often it was made ready, and 0 where there is no such goroutine.
    pub(crate) fn epoch(&self, g: GNo) -> u64
        ensures { result ≡ epoch_in self.now g }
    {
        match self.get(g) {
            Some(row) => row.epoch,
            None => 0,
        }
    }

    /// Writes a row, and brings what is kept beside the rows in step.
    #[inline(always)]
    fn set(&mut self, g: GNo, row: Goroutine)
        requires { g.0 < length self.old }
        ensures { self.new ≡ slice_set self.old g.0 row }
    {
        let i = g.0 as usize;
        // The old row goes out of counts and deadlines, and the new one in: where neither has a deadline, none is moved.
        let was = &self.list[i].status;
        let (going, calling) = (was.is_ready_or_running(), was.is_calling());
        self.deadlines.withdraw(Deadline::of(g, was));
        self.deadlines.add(Deadline::of(g, &row.status));
        self.going = self.going - going as usize + row.status.is_ready_or_running() as usize;
        self.calling = self.calling - calling as usize + row.status.is_calling() as usize;
        self.low = lowered(self.low, g, &row.status);
        self.list[i] = row;
    }

    /// Gives a goroutine another status by the same epoch: its ticket moves, or is spent, or it stops.
    #[inline(always)]
    pub(crate) fn put_status(&mut self, g: GNo, status: Status)
        requires { g.0 < length self.old }
        ensures { self.new ≡ turned self.old g status }
    {
        let epoch = self.epoch(g);
        self.set(g, Goroutine { status, epoch });
    }

    /// Moves the ticket of one that is ready to this place. Neither counts nor deadlines change.
    #[inline(always)]
    pub(crate) fn move_ticket(&mut self, g: GNo, to: TicketPlace)
        requires { is_some (answer_in self.old g) ≡ true }
        ensures { IfSome (answer_in self.old g) (λ woke. self.new ≡ turned self.old g (Status.Ready to woke)) }
    {
        set_place(&mut self.list[g.0 as usize].status, to);
    }

    /// Makes a goroutine ready by its next epoch, which is answered: an epoch is given out once.
    #[inline(always)]
    pub(crate) fn rise(&mut self, g: GNo, place: TicketPlace, woke: Woke) -> u64
        requires within { g.0 < length self.old }
        requires young { epoch_in self.old g < 2 ^ 63 }
        ensures epoch { result ≡ epoch_in self.old g + 1 }
        ensures rows { self.new ≡ risen self.old g place woke }
    {
        let epoch = self.epoch(g) + 1;
        self.set(
            g,
            Goroutine {
                status: Status::Ready(place, woke),
                epoch,
            },
        );
        epoch
    }

    /// The least number of those that are dormant or dead. It looks at those between the one that it found before and this one, and at those
    /// that ended since.
    pub(crate) fn least_startable(&mut self) -> Option<GNo>
        ensures least { option_map (λ (g : GNo). g.0) result ≡ position (λ (x : Goroutine). is_startable x.status) self.old }
        ensures same { self.new ≡ self.old }
    {
        let found = first_startable(&self.list, self.low, self.bodies);
        self.low = found.unwrap_or(self.bodies);
        found.map(GNo)
    }

    /// How many are ready or running.
    pub(crate) fn count_going(&self) -> usize
        ensures { result ≡ count_status is_ready_or_running self.now }
    {
        self.going
    }

    /// Whether anybody is ready or running.
    pub(crate) fn any_going(&self) -> bool
        ensures { result ≡ nat_lt 0 (count_status is_ready_or_running self.now) }
    {
        self.going > 0
    }

    /// Whether anybody is in a blocking call.
    pub(crate) fn any_calling(&self) -> bool
        ensures { result ≡ nat_lt 0 (count_status is_calling self.now) }
    {
        self.calling > 0
    }

    /// Whether anybody waits with a deadline.
    pub(crate) fn any_timed(&self) -> bool
        ensures { result ≡ nat_lt 0 (count_status has_deadline self.now) }
    {
        !self.deadlines.is_empty()
    }

    /// Who is woken next by a tick, and what it is told: the soonest of all, if its moment has come.
    pub(crate) fn due(&self, now: u64) -> Option<Candidate>
        ensures first { IsFirst (Wake.Due now) self.now (length self.now) result }
        ensures few { length self.now < 2 ^ 16 }
    {
        // If the soonest isn't due, nobody is.
        let soonest = self.deadlines.least()?;
        let row = &self.list[soonest.g.0 as usize];
        Candidate::due(now, soonest.g, &row.status)
    }

    /// The least deadline.
    pub(crate) fn least_deadline(&self) -> Option<u64>
        ensures { result ≡ least_of self.now }
    {
        Some(self.deadlines.least()?.rank.moment)
    }
}
