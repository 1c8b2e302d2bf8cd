//! Who is told how far a long work is: `Watch` hears of `Work`, and `()` is nobody.
//! A watch has no clause, and what is read or judged doesn't depend on it. Not a closure: its calls would need a condition at each layer.

/// What is done with entries.
#[derive(Clone, Copy, Debug, PartialEq, Eq)]
pub enum Work {
    Reading,
    Checking,
}

/// Is told now and then how many entries were read, and then how many were checked, in order.
pub trait Watch {
    /// So many entries of this work are done, counted from its beginning.
    fn entries(&mut self, work: Work, count: u64);
}

/// Nobody.
impl Watch for () {
    fn entries(&mut self, _work: Work, _count: u64) {}
}

/// So many entries are done between two calls of a watch.
const EVERY: u64 = 65_536;

/// Tells at each 65,536th entry how many are done.
pub fn tell<W: Watch>(watch: &mut W, work: Work, count: u64) {
    if count % EVERY == 0 {
        watch.entries(work, count);
    }
}
