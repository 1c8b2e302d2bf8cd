//! From who made a goroutine ready to its claim (`Arrow`), as a walk tells it (`Arrows`).

use crate::range::Range;
use gmp_base::GNo;
use gmp_seq::Call;
use gmp_walk::Deed;
use gmp_words::By;
use std::alloc::{AllocError, Global};

/// An entry on a lane.
#[derive(Clone, Copy)]
pub struct Spot {
    /// The lane of its machine, or of the goroutine that this ran; none where it ran nobody.
    pub lane: Option<u16>,
    pub number: u64,
}

/// One time that a goroutine became ready and was claimed.
#[derive(Clone, Copy)]
pub struct Arrow {
    pub g: GNo,
    /// The entry that made it ready.
    pub from: Spot,
    /// Its claim.
    pub to: Spot,
}

/// The arrows that a walk told of.
#[derive(Drop)]
pub struct Arrows {
    range: Range,
    by: By,
    /// The entry that made each goroutine ready, until it is claimed.
    sources: Vec<Option<Spot>>,
    closed: Vec<Arrow>,
}

/// On which lane an entry is.
fn lane_of(by: By, deed: &Deed) -> Option<u16> {
    match by {
        By::Machine => Some(u16::from(deed.entry.m.0)),
        By::Goroutine => Some(deed.g?.0),
    }
}

impl Arrows {
    /// None yet, of these entries and so many goroutines.
    pub fn new(alloc: Global, range: Range, by: By, bodies: u16) -> Result<Self, AllocError> {
        Ok(Arrows {
            range,
            by,
            sources: vec![in alloc; None; usize::from(bodies)]?,
            closed: Vec::new(alloc),
        })
    }

    /// Notes who became ready by an entry, and who was claimed.
    pub fn hear(&mut self, deed: &Deed) -> Result<(), AllocError> {
        let spot = Spot {
            lane: lane_of(self.by, deed),
            number: deed.number,
        };
        if let Call::Claim(r) = deed.entry.call {
            self.claim(r.g, spot)?;
        }
        for g in deed.readied {
            if let Some(source) = self.sources.get_mut(usize::from(g.0)) {
                *source = Some(spot);
            }
        }
        Ok(())
    }

    /// Whether both ends are among the entries. A goroutine that made itself ready has no arrow on its own lane.
    fn is_shown(&self, from: Spot, to: Spot) -> bool {
        let is_own = matches!(self.by, By::Goroutine) && from.lane == to.lane;
        !is_own && self.range.contains(from.number) && self.range.contains(to.number)
    }

    /// The arrows with both ends among the entries.
    pub fn all(&self) -> &[Arrow] {
        &self.closed
    }

    /// Notes a claim.
    fn claim(&mut self, g: GNo, to: Spot) -> Result<(), AllocError> {
        if let Some(source) = self.sources.get_mut(usize::from(g.0)) {
            if let Some(from) = *source {
                *source = None;
                if self.is_shown(from, to) {
                    self.closed.push(Arrow { g, from, to })?;
                }
            }
        }
        Ok(())
    }
}
