//! Channels whose waiters are one list: who waits on a channel is found by a scan. Plain enough to be seen to be right, and slow. `Row` is
//! a channel.

use gmp_base::{CNo, Case, GNo};
use gmp_seq::{Direction, Kind, Offers, Transfer, Waiter};
use std::alloc::{AllocError, Global};

/// A channel with its values, the first first.
#[derive(Drop)]
struct Row {
    capacity: u32,
    items: Vec<u64>,
    is_closed: bool,
}

/// The channels, and who waits on them, in order.
#[derive(Drop)]
pub struct Scanned {
    rows: Vec<Row>,
    waiters: Vec<Waiter>,
}

impl Scanned {
    /// Open and empty channels, one of each capacity.
    pub fn open(alloc: Global, capacities: &[u32]) -> Result<Self, AllocError> {
        let mut rows = Vec::new(alloc);
        for capacity in capacities {
            rows.push(Row {
                capacity: *capacity,
                items: Vec::new(alloc),
                is_closed: false,
            })?;
        }
        let waiters = Vec::new(alloc);
        Ok(Scanned { rows, waiters })
    }

    /// Who waits first on the channel in this direction.
    fn first_on(&self, c: CNo, direction: Direction) -> Option<Waiter> {
        self.waiters.iter().copied().find(|w| w.is_on(c, direction))
    }

    /// Who waits first on the channel, in either direction.
    pub fn first_waiting(&self, c: CNo) -> Option<Waiter> {
        self.waiters.iter().copied().find(|w| w.offer.channel == c)
    }

    /// Whether the goroutine waits.
    pub fn has_offer(&self, g: GNo) -> bool {
        self.waiters.iter().any(|w| w.g == g)
    }

    /// The goroutine waits with these offers, last of all.
    pub fn wait_on(
        &mut self,
        g: GNo,
        arrival: u64,
        kind: Kind,
        offers: &Offers,
    ) -> Result<(), AllocError> {
        for offer in offers.as_slice() {
            self.waiters.push(Waiter {
                g,
                arrival,
                kind,
                offer: *offer,
            })?;
        }
        Ok(())
    }

    /// The goroutine waits no more.
    pub fn withdraw(&mut self, g: GNo) {
        self.waiters.retain(|w| w.g != g);
    }

    pub fn is_closed(&self, c: CNo) -> bool {
        match self.rows.get(c.0 as usize) {
            Some(row) => row.is_closed,
            None => false,
        }
    }

    /// How many values the channel holds.
    pub fn len(&self, c: CNo) -> u64 {
        match self.rows.get(c.0 as usize) {
            Some(row) => row.items.len() as u64,
            None => 0,
        }
    }

    /// Closes the channel. Who waits on it is withdrawn by whoever wakes them.
    pub fn close(&mut self, c: CNo) {
        if let Some(row) = self.rows.get_mut(c.0 as usize) {
            row.is_closed = true;
        }
    }

    /// Whether the communication can proceed.
    pub fn can(&self, case: Case) -> bool {
        let (Case::Send(Some(c), _) | Case::Recv(Some(c))) = case else {
            return false;
        };
        let Some(row) = self.rows.get(c.0 as usize) else {
            return false;
        };
        match case {
            Case::Send(..) => {
                row.is_closed
                    || row.items.len() < row.capacity as usize
                    || self.first_on(c, Direction::Receiving).is_some()
            }
            Case::Recv(_) => {
                row.is_closed
                    || !row.items.is_empty()
                    || self.first_on(c, Direction::Sending).is_some()
            }
        }
    }

    /// A send proceeds, if it can: it fails on a closed channel, serves the first that receives, or finds room.
    fn send(&mut self, c: CNo, v: u64) -> Result<Option<Transfer>, AllocError> {
        if self.is_closed(c) {
            return Ok(Some(Transfer::Failed));
        }
        if let Some(w) = self.first_on(c, Direction::Receiving) {
            self.withdraw(w.g);
            return Ok(Some(Transfer::Handed(w)));
        }
        match self.rows.get_mut(c.0 as usize) {
            Some(row) if row.items.len() < row.capacity as usize => {
                row.items.push(v)?;
                Ok(Some(Transfer::Stored))
            }
            _ => Ok(None),
        }
    }

    /// A receive proceeds, if it can: a sender that waits has his value put last then.
    fn receive(&mut self, c: CNo) -> Result<Option<Transfer>, AllocError> {
        let sender = self.first_on(c, Direction::Sending);
        let Some(row) = self.rows.get_mut(c.0 as usize) else {
            return Ok(None);
        };
        if let Some(w) = sender {
            row.items.push(w.offered())?;
            let v = row.items.remove(0);
            self.withdraw(w.g);
            return Ok(Some(Transfer::Relayed(v, w)));
        }
        if !row.items.is_empty() {
            return Ok(Some(Transfer::First(row.items.remove(0))));
        }
        Ok(row.is_closed.then_some(Transfer::Drained))
    }

    /// A case does its send or receive, if it can proceed. The waiter that is served waits no more.
    pub fn proceed(&mut self, case: Case) -> Result<Option<Transfer>, AllocError> {
        match case {
            Case::Send(Some(c), v) => self.send(c, v),
            Case::Recv(Some(c)) => self.receive(c),
            _ => Ok(None),
        }
    }
}
