//! Both kinds of channels, side by side (`Pair`), and what came of an ask of both (`Came`). Each function asks both, and falls short where
//! their answers differ.

use crate::drawing::{Asked, BODIES, CHANNELS};
use crate::error::ScanError;
use crate::scanned::Scanned;
use gmp_base::{CNo, Case, GNo};
use gmp_chan::{Channels, cases_rise};
use gmp_seq::{Kind, Offers, Transfer, channel_of};
use std::alloc::Global;

/// What came of an ask, of both alike.
#[derive(Clone, Copy)]
pub enum Came {
    /// It proceeded, and served one that waited, or none.
    Proceeded(bool),
    /// The goroutine waits.
    Waits,
    /// It waited, and does so no more.
    Left,
    /// The channel is closed, which woke so many.
    Closed(u32),
}

/// The same channels twice.
#[derive(Drop)]
pub struct Pair {
    linked: Channels,
    scanned: Scanned,
    arrivals: u64,
}

impl Pair {
    /// Both, open and empty, with these capacities.
    pub fn open(alloc: Global, capacities: &[u32; CHANNELS as usize]) -> Result<Self, ScanError> {
        let linked = Channels::open(alloc, CHANNELS, BODIES, capacities)?;
        let scanned = Scanned::open(alloc, capacities)?;
        Ok(Pair {
            linked,
            scanned,
            arrivals: 0,
        })
    }

    /// Whether the goroutine waits.
    fn has_offer(&self, g: GNo) -> Result<bool, ScanError> {
        let waits = self.linked.has_offer(g);
        if self.scanned.has_offer(g) == waits {
            Ok(waits)
        } else {
            Err(ScanError::Differ)
        }
    }

    /// Whether the communication can proceed.
    fn can(&self, case: Case) -> Result<bool, ScanError> {
        let can = self.linked.can(case);
        if self.scanned.can(case) == can {
            Ok(can)
        } else {
            Err(ScanError::Differ)
        }
    }

    /// The communication proceeds, if it can.
    fn proceed(&mut self, case: Case) -> Result<Option<Transfer>, ScanError> {
        if !self.linked.has(channel_of(case)) {
            return Err(ScanError::Unfit);
        }
        let how = self.linked.proceed(case);
        if self.scanned.proceed(case)? == how {
            Ok(how)
        } else {
            Err(ScanError::Differ)
        }
    }

    /// The goroutine waits no more.
    fn withdraw(&mut self, g: GNo) {
        self.linked.withdraw(g);
        self.scanned.withdraw(g);
    }

    /// The goroutine waits with these offers.
    fn wait_on(&mut self, g: GNo, kind: Kind, offers: &Offers) -> Result<Came, ScanError> {
        let arrival = self.arrivals;
        self.arrivals = arrival.wrapping_add(1);
        let suits = g.0 < self.linked.bodies()
            && !self.linked.has_offer(g)
            && self.linked.is_later(arrival)
            && self.linked.has_all(offers)
            && cases_rise(offers);
        if !suits {
            return Err(ScanError::Unfit);
        }
        self.linked.wait_on(g, arrival, kind, offers);
        self.scanned.wait_on(g, arrival, kind, offers)?;
        Ok(Came::Waits)
    }

    /// A plain send or receive proceeds, or the goroutine waits.
    fn deal(&mut self, g: GNo, case: Case) -> Result<Came, ScanError> {
        match self.proceed(case)? {
            Some(how) => Ok(proceeded(how)),
            None => self.wait_on(g, Kind::Plain, &Offers::of(&[case])),
        }
    }

    /// Of the r cases that can proceed, number `word mod r` does.
    fn select(&mut self, g: GNo, cases: &[Case], word: u64) -> Result<Came, ScanError> {
        let mut count = 0u64;
        for case in cases {
            count = count.wrapping_add(u64::from(self.can(*case)?));
        }
        if count == 0 {
            if cases.len() > 8 {
                return Err(ScanError::Unfit);
            }
            return self.wait_on(g, Kind::Select, &Offers::of(cases));
        }
        let mut passed = word % count;
        for case in cases {
            if !self.can(*case)? {
                continue;
            }
            if passed == 0 {
                return self.deal(g, *case);
            }
            passed -= 1;
        }
        Err(ScanError::Differ)
    }

    /// Closes the channel, and wakes those who wait on it, one after another.
    fn close(&mut self, c: CNo) -> Result<Came, ScanError> {
        if !self.linked.has(Some(c)) {
            return Err(ScanError::Unfit);
        }
        self.linked.close(c);
        self.scanned.close(c);
        for woken in 0..=u32::from(BODIES) {
            let first = self.linked.first_waiting(c);
            if self.scanned.first_waiting(c) != first {
                return Err(ScanError::Differ);
            }
            match first {
                Some(w) => self.withdraw(w.g),
                None => return Ok(Came::Closed(woken)),
            }
        }
        Err(ScanError::Differ)
    }

    /// Both say the same of a channel: who waits on it first, what can proceed, how many values it holds, and whether it is closed.
    fn agree_on(&self, c: CNo) -> Result<(), ScanError> {
        self.can(Case::Send(Some(c), 0))?;
        self.can(Case::Recv(Some(c)))?;
        if self.linked.first_waiting(c) == self.scanned.first_waiting(c)
            && self.linked.len(c) == self.scanned.len(c)
            && self.linked.is_closed(c) == self.scanned.is_closed(c)
        {
            Ok(())
        } else {
            Err(ScanError::Differ)
        }
    }

    /// Both say the same of every channel, and of every goroutine whether it waits.
    pub fn agree(&self) -> Result<(), ScanError> {
        for c in 0..CHANNELS {
            self.agree_on(CNo(c))?;
        }
        for g in 0..BODIES {
            self.has_offer(GNo(g))?;
        }
        Ok(())
    }

    /// What comes of what g asks, or, where it waits, of the end of its wait.
    pub fn ask(&mut self, g: GNo, asked: &Asked, word: u64) -> Result<Came, ScanError> {
        if self.has_offer(g)? {
            self.withdraw(g);
            return Ok(Came::Left);
        }
        match asked {
            Asked::Deal(case) => self.deal(g, *case),
            Asked::Select(cases) => self.select(g, cases.as_slice(), word),
            Asked::Close(c) => self.close(*c),
        }
    }
}

/// What came of a communication that proceeded in this way.
fn proceeded(how: Transfer) -> Came {
    Came::Proceeded(matches!(how, Transfer::Handed(_) | Transfer::Relayed(..)))
}
