//! The status table as a plain list of goroutines, and the latest moment and the number of waits that began. `table/calls` has the calls,
//! `waking` changes of many, `waiting` who waits on a channel.
//! Who was last at each machine is noted beside the rows: with a look through all of them for whom a machine has, a check of 4,096
//! goroutines took seven times as long.
ghost use Rattle.std.specs.Prelude.{◌≡◌, ◌↔◌, ◌<◌, ◌≤◌, ◌^◌, ◌∷◌, ◌-◌, Some, None, Option, option_copied, replicate, length, slice_get, slice_set, IfOk, IfSome, IfNone, IsTrue};
ghost use Rattle.gmp_base.specs.declared.ask.Woke.{Woke};
ghost use Rattle.gmp_base.specs.declared.number.GNo.{GNo};
ghost use Rattle.gmp_base.specs.declared.number.MNo.{MNo};
ghost use Rattle.gmp_seq.specs.declared.status.TicketPlace.{TicketPlace};
ghost use Rattle.gmp_seq.specs.declared.status.Status.{Status};
ghost use Rattle.gmp_check.specs.Last.{AreLast, IsAlone, IsAt};
ghost use Rattle.gmp_start.specs.Start.{table_of};
ghost use Rattle.gmp_seq.specs.Needs.{IsOutstanding};
ghost use Rattle.gmp_seq.specs.State.{first_goroutine, dormant};
ghost use Rattle.gmp_seq.specs.Table.{IsReady, IsRunning, IsCalling, IsHeld, epoch_at, is_astir, is_ready_or_running, is_running_on, is_shelved, is_startable, made_ready, made_wait, next_of, set_status, some_status, status_at};

mod calls;
mod waiting;
mod waking;

use gmp_base::{GNo, MNo, Readiness, Woke};
use gmp_seq::{Goroutine, Kind, Offers, Status, TicketPlace, Wait};
use gmp_start::{Start, copied_rows};
use std::alloc::{AllocError, Global};
use std::marker::Model;

/// A contract sees the table as `gmp_seq` has it.
#[derive(Drop)]
pub(crate) struct Table {
    goroutines: Vec<Goroutine>,
    arrivals: u64,
    clock: u64,
    // By machine, who runs there or is in its blocking call, so that nobody is looked for. Where nobody is, it may be one that has left.
    last: [GNo; 256],
}

impl Model for Table {
    ghost use Rattle.std.specs.Prelude.{◌<◌, ◌^◌, length};
    ghost use Rattle.gmp_check.specs.Last.{AreLast};
    ghost use Rattle.gmp_seq.specs.Table.{Table as TableValue};

    ghost Value = { TableValue };

    ghost view = { λ t. record { goroutines = t.goroutines.items; arrivals = t.arrivals; clock = t.clock } };

    ghost invariant = { λ t. (length t.goroutines.items < 2 ^ 16)
        × AreLast t.last (record { goroutines = t.goroutines.items; arrivals = t.arrivals; clock = t.clock }) };
}

/// The machine that runs the goroutine of this status, or makes its blocking call.
fn machine_of(status: &Status) -> Option<MNo>
    ensures { (m : MNo) → IsAt m status.now ↔ (result ≡ Some m) }
{
    match status {
        Status::Running(m) => Some(*m),
        Status::Calling(m) => Some(*m),
        _ => None,
    }
}

/// The goroutine comes to the machine where this status has it.
fn come(last: &mut [GNo; 256], g: GNo, status: &Status)
    ensures here { (m : MNo) → IsAt m status.now → slice_get last.new m.0 ≡ Some g }
    ensures there { (m : MNo) → (IsAt m status.now → ⊥) → slice_get last.new m.0 ≡ slice_get last.old m.0 }
{
    if let Some(m) = machine_of(status) {
        last[usize::from(m.0)] = g;
    }
}

/// Of each machine the goroutine that is there, where one is.
fn last_of(start: &Start) -> [GNo; 256]
    requires few { length start.now.goroutines.items < 2 ^ 16 }
    requires one { (m : MNo) (g h : GNo) → IsHeld (table_of start.now) g m → IsHeld (table_of start.now) h m → g ≡ h }
    ensures { AreLast result (table_of start.now) }
{
    let mut last = [GNo(0); 256];
    for (g, row) in start.goroutines.iter().enumerate() {
        come(&mut last, GNo(g as u16), &row.status);
    }
    last
}

impl Table {
    /// Goroutine 0 is on the shelf, and all others are dormant.
    pub(crate) fn open(alloc: Global, bodies: u16) -> Result<Self, AllocError>
        requires { 0 < bodies }
        ensures { IfOk result (λ t. t ≡ record { goroutines = first_goroutine ∷ replicate (bodies - 1) dormant; arrivals = 0; clock = 0 }) }
    {
        let mut goroutines = Vec::with_capacity(alloc, bodies as usize)?;
        goroutines.push_reserved(Goroutine {
            status: Status::Ready(TicketPlace::Shelf, Woke::First),
            epoch: 1,
        });
        for _ in 1..bodies {
            goroutines.push_reserved(Goroutine {
                status: Status::Dormant,
                epoch: 0,
            });
        }
        Ok(Table {
            goroutines,
            arrivals: 0,
            clock: 0,
            last: [GNo(0); 256],
        })
    }

    /// The goroutines of a start.
    pub(crate) fn begin(alloc: Global, start: &Start) -> Result<Self, AllocError>
        requires few { length start.now.goroutines.items < 2 ^ 16 }
        requires one { (m : MNo) (g h : GNo) → IsHeld (table_of start.now) g m → IsHeld (table_of start.now) h m → g ≡ h }
        ensures { IfOk result (λ t. t ≡ table_of start.now) }
    {
        let goroutines = copied_rows(alloc, &start.goroutines)?;
        Ok(Table {
            goroutines,
            arrivals: start.arrivals,
            clock: start.clock,
            last: last_of(start),
        })
    }

    /// The same table once more.
    pub(crate) fn cloned(&self, alloc: Global) -> Result<Self, AllocError>
        ensures { IfOk result (λ t. t ≡ self.now) }
    {
        Ok(Table {
            goroutines: copied_rows(alloc, &self.goroutines)?,
            arrivals: self.arrivals,
            clock: self.clock,
            last: self.last,
        })
    }

    pub(crate) fn rows(&self) -> &[Goroutine]
        ensures { result.now ≡ self.now.goroutines }
    {
        &self.goroutines
    }

    /// How many waits began: the number of the next.
    pub(crate) fn arrivals(&self) -> u64
        ensures { result ≡ self.now.arrivals }
    {
        self.arrivals
    }

    /// The latest moment that was told.
    pub(crate) fn clock(&self) -> u64
        ensures { result ≡ self.now.clock }
    {
        self.clock
    }

    /// The row of a goroutine, if it is there.
    fn get(&self, g: GNo) -> Option<&Goroutine>
        ensures { option_copied result ≡ slice_get self.now.goroutines g.0 }
    {
        self.goroutines.get(g.0 as usize)
    }

    pub(crate) fn status(&self, g: GNo) -> Option<&Status>
        ensures { option_copied result ≡ status_at self.now g }
    {
        match self.get(g) {
            Some(row) => Some(&row.status),
            None => None,
        }
    }

    /// The latest epoch of a goroutine, and 0 of one that isn't there.
    fn epoch(&self, g: GNo) -> u64
        ensures { result ≡ epoch_at self.now g }
    {
        match self.get(g) {
            Some(row) => row.epoch,
            None => 0,
        }
    }

    /// What the goroutine of this readiness is to be told, where its ticket is at this place.
    fn answer(&self, r: Readiness, place: TicketPlace) -> Option<Woke>
        ensures some { IfSome result (λ answer. IsReady self.now r place answer) }
        ensures none { IfNone result ((answer : Woke) → IsReady self.now r place answer → ⊥) }
    {
        match self.get(r.g) {
            Some(row) => match row.status {
                Status::Ready(at, woke) if at == place && row.epoch == r.epoch => Some(woke),
                _ => None,
            },
            None => None,
        }
    }

    /// Whether some ticket is on the shelf.
    pub(crate) fn has_shelved(&self) -> bool
        ensures { result ≡ some_status is_shelved self.now }
    {
        self.goroutines.iter().any(|row| row.status.is_shelved())
    }

    /// Whether somebody can go on, or comes back from a blocking call or at a deadline.
    pub(crate) fn has_astir(&self) -> bool
        ensures { result ≡ some_status is_astir self.now }
    {
        self.goroutines.iter().any(|row| row.status.is_astir())
    }

    /// Whether somebody was not started, or has ended.
    fn has_startable(&self) -> bool
        ensures { result ≡ some_status is_startable self.now }
    {
        self.goroutines.iter().any(|row| row.status.is_startable())
    }

    /// Whether the ticket of this readiness is given out.
    pub(crate) fn is_outstanding(&self, r: Readiness) -> bool
        ensures { IsTrue result ↔ IsOutstanding self.now r }
    {
        self.answer(r, TicketPlace::Out).is_some()
    }

    /// Whether some goroutine is ready or runs, by a look at all.
    fn has_ready_or_running(&self) -> bool
        ensures { result ≡ some_status is_ready_or_running self.now }
    {
        self.goroutines
            .iter()
            .any(|row| row.status.is_ready_or_running())
    }

    /// Whether m runs a goroutine.
    pub(crate) fn runs_some(&self, m: MNo) -> bool
        ensures { result ≡ some_status (is_running_on m) self.now }
    {
        self.running(m).is_some()
    }

    /// Whom m runs.
    pub(crate) fn running(&self, m: MNo) -> Option<GNo>
        ensures some { IfSome result (λ g. IsRunning self.now g m) }
        ensures none { IfNone result ((g : GNo) → IsRunning self.now g m → ⊥) }
    {
        let g = self.last[usize::from(m.0)];
        match self.status(g) {
            Some(status) if status.is_running_on(m) => Some(g),
            _ => None,
        }
    }

    /// Whose blocking call m makes.
    pub(crate) fn calling(&self, m: MNo) -> Option<GNo>
        ensures some { IfSome result (λ g. IsCalling self.now g m) }
        ensures none { IfNone result ((g : GNo) → IsCalling self.now g m → ⊥) }
    {
        let g = self.last[usize::from(m.0)];
        match self.status(g) {
            Some(status) if status.is_calling_on(m) => Some(g),
            _ => None,
        }
    }

    /// The next readiness of g.
    pub(crate) fn next(&self, g: GNo) -> Readiness
        requires { epoch_at self.now g ≤ 2 ^ 63 }
        ensures { result ≡ next_of self.now g }
    {
        Readiness {
            g,
            epoch: self.epoch(g) + 1,
        }
    }

    /// Writes a row, and notes who is at which machine. To wake many needs no note: it brings nobody to a machine.
    fn set(&mut self, g: GNo, row: Goroutine)
        requires { IsAlone self.old g row.status }
        ensures { self.new ≡ record self.old { goroutines = slice_set self.old.goroutines g.0 row } }
    {
        let place = g.0 as usize;
        if place >= self.goroutines.len() {
            return;
        }
        come(&mut self.last, g, &row.status);
        self.goroutines[place] = row;
    }

    /// The goroutine does this from now on, in its present epoch.
    pub(crate) fn set_status(&mut self, g: GNo, status: Status)
        requires { IsAlone self.old g status }
        ensures { self.new ≡ set_status self.old g status }
    {
        let epoch = self.epoch(g);
        self.set(g, Goroutine { status, epoch });
    }

    /// The goroutine's ticket is at this place, with a new epoch, and this is stored for it.
    pub(crate) fn make_ready(&mut self, g: GNo, place: TicketPlace, woke: Woke)
        requires { epoch_at self.old g ≤ 2 ^ 63 }
        ensures { self.new ≡ made_ready self.old g place woke }
    {
        let epoch = self.epoch(g) + 1;
        let status = Status::Ready(place, woke);
        self.set(g, Goroutine { status, epoch });
    }

    /// The goroutine waits with these offers, and is one more that began to.
    pub(crate) fn make_wait(&mut self, g: GNo, kind: Kind, offers: Offers, until: Option<u64>)
        requires { self.old.arrivals < 2 ^ 63 }
        ensures { self.new ≡ made_wait self.old g kind offers until }
    {
        let wait = Wait {
            arrival: self.arrivals,
            kind,
            offers,
            until,
        };
        self.set_status(g, Status::Waiting(wait));
        self.arrivals += 1;
    }
}
