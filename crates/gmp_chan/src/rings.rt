//! Nodes in rings, linked both ways. Each ring has an end, a node that is no record: a ring with nobody in it is its end, linked with
//! itself. So no link is ever missing, and neither the first nor the last of a ring is a case of its own.
ghost use Rattle.std.specs.Prelude.{◌≡◌, ◌<◌, ◌+◌, length, set, get_or, IfOk};
ghost use Rattle.gmp_chan.specs.Rings.{AreAlone};

use std::alloc::{AllocError, Global};

/// The links lie in vectors beside the records, by key. Queues of a channel and chains of a goroutine are two values of this type, which
/// knows nothing of either.
#[derive(Drop)]
pub(crate) struct Rings {
    /// The node after each, by number.
    pub(crate) next: Vec<usize>,
    /// The node before each.
    pub(crate) prev: Vec<usize>,
}

/// Nodes that are each linked with themselves.
fn alone(alloc: Global, nodes: usize) -> Result<Vec<usize>, AllocError>
    ensures { IfOk result (λ links. AreAlone nodes links.items) }
{
    let mut links = Vec::with_capacity(alloc, nodes)?;
    for n in 0..nodes {
        links.push_reserved(n);
    }
    Ok(links)
}

impl Rings {
    /// So many records and so many ends, each alone. It is refused where memory is, and where the two have no sum.
    pub(crate) fn open(alloc: Global, records: usize, ends: usize) -> Result<Self, AllocError>
        ensures next { IfOk result (λ r. AreAlone (records + ends) r.next.items) }
        ensures prev { IfOk result (λ r. AreAlone (records + ends) r.prev.items) }
    {
        let Some(nodes) = records.checked_add(ends) else {
            return Err(AllocError);
        };
        let next = alone(alloc, nodes)?;
        let prev = alone(alloc, nodes)?;
        Ok(Rings { next, prev })
    }

    /// The first of the ring with this end, which is the end itself where the ring has nobody.
    pub(crate) fn first(&self, end: usize) -> usize
        requires { end < length self.now.next.items }
        ensures { result ≡ get_or self.now.next.items end 0 }
    {
        self.next[end]
    }

    /// Takes node i out of its ring: its neighbours are linked. What it was linked with itself stays written, and is not read again before
    /// `link_last`.
    pub(crate) fn unlink(&mut self, i: usize)
        requires node { i < length self.old.next.items }
        requires node_back { i < length self.old.prev.items }
        requires before { get_or self.old.prev.items i 0 < length self.old.next.items }
        requires after { get_or self.old.next.items i 0 < length self.old.prev.items }
        ensures next { self.new.next.items ≡ set self.old.next.items (get_or self.old.prev.items i 0) (get_or self.old.next.items i 0) }
        ensures prev { self.new.prev.items ≡ set self.old.prev.items (get_or self.old.next.items i 0) (get_or self.old.prev.items i 0) }
    {
        let after = self.next[i];
        let before = self.prev[i];
        self.next[before] = after;
        self.prev[after] = before;
    }

    /// Links node i last before the end of a ring.
    pub(crate) fn link_last(&mut self, i: usize, end: usize)
        requires node { i < length self.old.next.items }
        requires node_back { i < length self.old.prev.items }
        requires end { end < length self.old.prev.items }
        requires last { get_or self.old.prev.items end 0 < length self.old.next.items }
        ensures next { self.new.next.items ≡ set (set self.old.next.items (get_or self.old.prev.items end 0) i) i end }
        ensures prev { self.new.prev.items ≡ set (set self.old.prev.items i (get_or self.old.prev.items end 0)) end i }
    {
        // The end is linked with the last, which is the end itself where the ring has nobody: the four lines fit both.
        let last = self.prev[end];
        self.next[last] = i;
        self.next[i] = end;
        self.prev[i] = last;
        self.prev[end] = i;
    }
}
