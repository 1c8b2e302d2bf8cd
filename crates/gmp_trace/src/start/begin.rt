//! What has to hold at `begin`, where all lines before it are right: that the counts add up, and the parts of the state fit together.
//! Whether a run from an opening leads to that state isn't asked, and the state doesn't say.
ghost use Rattle.std.specs.Prelude.{◌≡◌, ◌↔◌, ◌+◌, ◌≤◌, IsTrue, length, sum};
ghost use Rattle.gmp_seq.specs.Laws.{FitsTogether};
ghost use Rattle.gmp_start.specs.Start.{state_of};

use gmp_seq::Limits;
use gmp_start::Start;

/// Whether this is the sum of the counts, however large that is.
fn add_up(counts: &[u64], made: u64) -> bool
    ensures { IsTrue result ↔ (sum counts.now ≡ made) }
{
    let mut rest = made;
    for count in counts {
        if *count > rest {
            return false;
        }
        rest -= *count;
    }
    rest == 0
}

/// Whether a run may go on from the start, before which line 3 says this number of entries.
pub fn may_go_on(limits: Limits, made: u64, start: &Start) -> bool
    requires modes { length start.now.modes.items ≤ 256 }
    requires spinning { length start.now.spinning.items ≤ 256 }
    requires marked { length start.now.marked.items ≤ 256 }
    ensures { IsTrue result ↔ ((sum start.now.counts.items ≡ made) × FitsTogether limits (state_of start.now)) }
{
    add_up(&start.counts, made) && start.fits(limits)
}

/// The line that has `begin`.
pub fn begin_line(start: &Start) -> u32
    requires channels { length start.now.channels.items ≤ 1024 }
    requires stock { length start.now.goroutines.items ≤ 4096 }
    ensures { result ≡ 9 + length start.now.channels.items + length start.now.goroutines.items }
{
    9 + start.channels.len() as u32 + start.goroutines.len() as u32
}
