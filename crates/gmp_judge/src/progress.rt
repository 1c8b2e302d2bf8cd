//! Who is told how far a check is: `Watch` hears of entries, `Progress` of the input's length and of the end besides.

use gmp_trace::Watch;

/// Is told how far a check is.
pub trait Progress: Watch {
    /// The input has so many bytes.
    fn begin(&mut self, bytes: usize);

    /// Nothing more is told, and what was shown has to go.
    fn end(&mut self);
}

/// Nobody.
impl Progress for () {
    fn begin(&mut self, _bytes: usize) {}

    fn end(&mut self) {}
}
