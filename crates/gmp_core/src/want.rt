//! What an act needs of whoever makes it.

/// What the next act of a machine reads of a choice.
/// Asked by `Core::wants` before the act; the other fields of a choice are its word, and what is to go wrong.
#[derive(Clone, Copy, Debug, PartialEq, Eq)]
pub enum Want {
    /// What its body asks.
    Ask,
    /// What its body's blocking call answers.
    Number,
    /// What the clock shows; it minds this deadline, in nanoseconds, where there is one.
    Moment(Option<u64>),
    /// Nothing.
    Nothing,
}
