//! What a walk hears and keeps (`Heard`): since when each goroutine does what it does, who ever dealt on each channel, what each machine and
//! processor did, and the longest way of a ticket. `Parties` has who dealt, `Counts` the calls.

ghost use Rattle.std.specs.Prelude.{◌≡◌, ◌-◌};

use gmp_base::{CNo, Case, Fault, GNo, MNo, PNo, Readiness};
use gmp_seq::{Call, Goroutine, Limits, Reply, Taken};
use gmp_trace::{CALLS, call_place};
use gmp_walk::{Deed, Listener, communication};
use std::alloc::{AllocError, Global};

/// What a goroutine ever did on a channel.
#[derive(Clone, Copy)]
pub enum Party {
    Sent,
    Received,
    Closed,
}

impl Party {
    /// Its bit in a mark.
    fn bit(self) -> u8 {
        match self {
            Party::Sent => 1,
            Party::Received => 2,
            Party::Closed => 4,
        }
    }
}

/// Who ever dealt on each channel: a mark for each channel and goroutine.
#[derive(Drop)]
pub struct Parties {
    bodies: usize,
    marks: Vec<u8>,
}

impl Parties {
    fn new(alloc: Global, channels: u16, bodies: usize) -> Result<Self, AllocError> {
        let all = usize::from(channels).wrapping_mul(bodies);
        Ok(Parties {
            bodies,
            marks: vec![in alloc; 0; all]?,
        })
    }

    fn place(&self, c: CNo, g: GNo) -> usize {
        usize::from(c.0)
            .wrapping_mul(self.bodies)
            .wrapping_add(usize::from(g.0))
    }

    fn mark(&mut self, c: CNo, g: GNo, party: Party) {
        let place = self.place(c, g);
        if let Some(mark) = self.marks.get_mut(place) {
            *mark |= party.bit();
        }
    }

    /// Whether the goroutine ever did that on the channel.
    pub fn has(&self, c: CNo, g: GNo, party: Party) -> bool {
        match self.marks.get(self.place(c, g)) {
            Some(mark) => mark & party.bit() != 0,
            None => false,
        }
    }
}

/// How often each call was made, by its place in the table of calls.
pub type Counts = [u64; CALLS];

/// A `ready` that found its goroutine not parked: who called it, and in which entry.
#[derive(Clone, Copy)]
pub struct Lost {
    pub by: GNo,
    pub at: u64,
}

/// Who had a part in something.
#[derive(Clone, Copy)]
pub enum Parted {
    Nobody,
    One(GNo),
    Several,
}

impl Parted {
    /// This one too.
    pub fn and(self, g: GNo) -> Parted {
        match self {
            Parted::Nobody => Parted::One(g),
            Parted::One(by) if by == g => Parted::One(g),
            _ => Parted::Several,
        }
    }
}

/// The way of a ticket from ready to claimed, by the numbers of the entries.
#[derive(Clone, Copy)]
pub struct Way {
    pub g: GNo,
    pub ready: u64,
    pub claimed: u64,
}

impl Way {
    /// How many entries it took.
    pub fn length(self) -> u64
        ensures { result ≡ self.claimed - self.ready }
    {
        self.claimed.saturating_sub(self.ready)
    }
}

/// What was heard.
#[derive(Drop)]
pub struct Heard {
    /// By goroutine, the entry since which it does what it does; None: since before the first.
    pub since: Vec<Option<u64>>,
    /// By goroutine, the entry at which it became ready, until it is claimed.
    ready: Vec<Option<u64>>,
    /// By goroutine, the last `ready` that was lost, if none was taken since.
    pub lost: Vec<Option<Lost>>,
    /// By goroutine, who made it ready by `ready`.
    pub readiers: Vec<Parted>,
    pub parties: Parties,
    pub machines: Vec<Counts>,
    pub processors: Vec<Counts>,
    pub longest: Option<Way>,
}

/// Counts one call more.
fn count(all: &mut [Counts], i: usize, call: &Call) {
    if let Some(counts) = all.get_mut(i) {
        let n = &mut counts[call_place(call)];
        *n = n.saturating_add(1);
    }
}

/// Whether the goroutine does something else from the entry on, by its own call or its claim.
fn moves_on(call: &Call, reply: Reply) -> bool {
    match call {
        Call::Claim(_) | Call::Exit | Call::Enter | Call::Leave(_) => true,
        _ => reply == Reply::Waits,
    }
}

/// The ticket that comes from the shelf or goes onto it.
fn moved(call: &Call, reply: Reply) -> Option<Readiness> {
    match (call, reply) {
        (Call::Take, Reply::Ticket(r)) => Some(r),
        (Call::Put(r), _) => Some(*r),
        _ => None,
    }
}

impl Heard {
    /// Nothing was heard yet.
    pub fn new(alloc: Global, limits: Limits, bodies: u16) -> Result<Self, AllocError> {
        let all = usize::from(bodies);
        Ok(Heard {
            since: vec![in alloc; None; all]?,
            ready: vec![in alloc; None; all]?,
            lost: vec![in alloc; None; all]?,
            readiers: vec![in alloc; Parted::Nobody; all]?,
            parties: Parties::new(alloc, limits.channels, all)?,
            machines: vec![in alloc; [0; CALLS]; usize::from(limits.machines)]?,
            processors: vec![in alloc; [0; CALLS]; usize::from(limits.procs)]?,
            longest: None,
        })
    }

    /// From this entry on the goroutine does something else.
    fn changed(&mut self, g: GNo, number: u64) {
        if let Some(since) = self.since.get_mut(usize::from(g.0)) {
            *since = Some(number);
        }
    }

    /// The goroutine is ready from this entry on.
    fn became_ready(&mut self, g: GNo, number: u64) {
        self.changed(g, number);
        if let Some(ready) = self.ready.get_mut(usize::from(g.0)) {
            *ready = Some(number);
        }
    }

    /// The goroutine is claimed: its ticket's way ends.
    fn claimed(&mut self, g: GNo, number: u64) {
        let Some(place) = self.ready.get_mut(usize::from(g.0)) else {
            return;
        };
        let Some(ready) = *place else {
            return;
        };
        *place = None;
        let way = Way {
            g,
            ready,
            claimed: number,
        };
        match self.longest {
            Some(longest) if way.length() <= longest.length() => {}
            _ => self.longest = Some(way),
        }
    }

    /// A communication of g.
    fn dealt(&mut self, g: GNo, case: Case, taken: Taken) {
        match (case, taken) {
            (Case::Send(Some(c), _), Taken::Sent(to)) => {
                self.parties.mark(c, g, Party::Sent);
                if let Some(r) = to {
                    self.parties.mark(c, r.g, Party::Received);
                }
            }
            (Case::Recv(Some(c)), Taken::Got(_, true, from)) => {
                self.parties.mark(c, g, Party::Received);
                if let Some(relay) = from {
                    self.parties.mark(c, relay.sender.g, Party::Sent);
                }
            }
            _ => {}
        }
    }

    /// A `ready` of g for h.
    fn readied(&mut self, g: GNo, h: GNo, number: u64, reply: Reply) {
        let i = usize::from(h.0);
        match reply {
            Reply::Ticket(_) => {
                if let Some(readier) = self.readiers.get_mut(i) {
                    let before = *readier;
                    *readier = before.and(g);
                }
                if let Some(lost) = self.lost.get_mut(i) {
                    *lost = None;
                }
            }
            Reply::Fault(Fault::NotParked) => {
                if let Some(lost) = self.lost.get_mut(i) {
                    *lost = Some(Lost { by: g, at: number });
                }
            }
            _ => {}
        }
    }

    /// What the goroutine at the machine did.
    fn did(&mut self, g: GNo, deed: &Deed) {
        let entry = deed.entry;
        if moves_on(&entry.call, entry.reply) {
            self.changed(g, deed.number);
        }
        match (&entry.call, entry.reply) {
            (Call::Claim(_), _) => self.claimed(g, deed.number),
            (Call::Close(Some(c)), Reply::Closed(_)) => self.parties.mark(*c, g, Party::Closed),
            (Call::Ready(h), reply) => self.readied(g, *h, deed.number, reply),
            _ => {}
        }
        if let Some((case, taken)) = communication(entry) {
            self.dealt(g, case, taken);
        }
    }

    /// Counts the call for its machine and the processor that this held.
    fn count(&mut self, m: MNo, p: Option<PNo>, call: &Call) {
        count(&mut self.machines, usize::from(m.0), call);
        if let Some(p) = p {
            count(&mut self.processors, usize::from(p.0), call);
        }
    }
}

impl Listener for Heard {
    // What it keeps no clause says.
    ghost hears = { λ before entry rows after. Unit {0} };

    fn hear(&mut self, deed: &Deed, _rows: &[Goroutine]) -> Result<(), AllocError> {
        self.count(deed.entry.m, deed.p, &deed.entry.call);
        if let Some(g) = deed.g {
            self.did(g, deed);
        }
        if let Some(r) = moved(&deed.entry.call, deed.entry.reply) {
            self.changed(r.g, deed.number);
        }
        for g in deed.readied {
            self.became_ready(*g, deed.number);
        }
        Ok(())
    }
}
