//! Which entries are shown.

ghost use Rattle.std.specs.Prelude.{◌≡◌, ◌+◌, ◌-◌, ◌^◌, ◌<◌, ◌≤◌, ◌↔◌, IsTrue, IfSome, IfNone, min, max};

/// So many entries are shown at most, where nobody says which.
const MOST: u64 = 5_000;

/// Entries by their numbers in the run.
#[derive(Clone, Copy)]
pub struct Range {
    /// The first.
    pub from: u64,
    /// The one behind the last.
    pub to: u64,
}

impl Range {
    /// Those that are asked for of a trace whose first entry has this number: from this one on to before that, or as many as are shown
    /// at most where nobody says to which, by the greatest number.
    pub fn asked(first: u64, from: u64, to: u64) -> Self
        ensures from { result.from ≡ max from first }
        ensures to { to < 2 ^ 64 - 1 → result.to ≡ to }
        ensures most { to ≡ 2 ^ 64 - 1 → result.to ≡ min (max from first + 5000) (2 ^ 64 - 1) }
    {
        let from = from.max(first);
        let to = if to == u64::MAX {
            from.saturating_add(MOST)
        } else {
            to
        };
        Range { from, to }
    }

    /// Whether an entry is one of them.
    pub fn contains(self, number: u64) -> bool
        ensures { IsTrue result ↔ ((self.from ≤ number) × (number < self.to)) }
    {
        self.from <= number && number < self.to
    }

    /// How many entries these are.
    pub fn count(self) -> u64
        ensures { result ≡ self.to - self.from }
    {
        self.to.saturating_sub(self.from)
    }

    /// Those that are in both.
    pub fn and(self, other: Range) -> Range
        ensures { result ≡ record { from = max self.from other.from; to = min self.to other.to } }
    {
        Range {
            from: self.from.max(other.from),
            to: self.to.min(other.to),
        }
    }

    /// Whether there is none.
    pub fn is_empty(self) -> bool
        ensures { IsTrue result ↔ (self.to ≤ self.from) }
    {
        self.to <= self.from
    }
}
