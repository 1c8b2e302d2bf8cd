//! Scripts that end alike, however their machines go (`Row`), one for each remainder of the seed.

use gmp_seq::Outcome;

/// A script, its lines parted by `/`, how it ends, by how many processors and machines it is run, and whether the machines meet.
#[derive(Drop)]
pub struct Row {
    pub script: &'static [u8],
    pub ends: Outcome,
    pub sizes: [(u8, u8); 2],
    pub meets: bool,
}

/// A script at whose end main has ended.
fn ends(script: &'static [u8]) -> Row {
    Row {
        script,
        ends: Outcome::MainEnded,
        sizes: [(1, 1), (4, 6)],
        meets: false,
    }
}

/// A script at whose end all are asleep.
fn sleeps(script: &'static [u8]) -> Row {
    Row {
        ends: Outcome::AllAsleep,
        ..ends(script)
    }
}

/// A script of which main's first asks are a go and a blocking call.
fn meets(script: &'static [u8]) -> Row {
    Row {
        sizes: [(1, 2), (4, 6)],
        meets: true,
        ..ends(script)
    }
}

/// The row of a seed.
pub fn of_seed(seed: u64) -> Row {
    match seed % 16 {
        // Nobody sends.
        0 => sleeps(b"chan 0/body/recv 0"),
        // A buffer of two, and a sender that waits.
        1 => ends(
            b"chan 2/body/go 1/yield/recv 0/recv 0/recv 0/exit/body/send 0 1/send 0 2/send 0 3",
        ),
        // A sender that waits meets a close, or the close comes first.
        2 => ends(b"chan 1/body/go 1/yield/close 0/recv 0/recv 0/exit/body/send 0 5/send 0 6"),
        // Two selects that may meet, and main waits for one that comes.
        3 => ends(
            b"chan 0/chan 0/body/go 1/go 2/recv 1/recv 1/exit/body/select send:0:7 recv:0/send 1 1/body/select send:0:8 recv:0/send 1 2",
        ),
        // A machine goes into a blocking call while others work.
        4 => ends(
            b"chan 0/body/go 1/go 2/block 9/recv 0/recv 0/exit/body/block 3/send 0 1/body/yield/yield/send 0 2",
        ),
        // Back and forth.
        5 => ends(
            b"chan 0/chan 0/body/go 1/send 0 1/recv 1/send 0 2/recv 1/send 0 3/recv 1/exit/body/recv 0/send 1 1/again",
        ),
        // Sleepers, of which one is woken with a select's deadline.
        6 => ends(
            b"chan 0/body/go 1/go 2/sleep 1000/recv 0/recv 0/exit/body/sleep 2000/send 0 1/body/select recv:nil until 1500/send 0 2",
        ),
        // Many at once.
        7 => ends(
            b"chan 3/body/go 1/go 2/go 3/go 4/go 5/recv 0/recv 0/recv 0/recv 0/recv 0/exit/body/send 0 1/body/yield/send 0 2/body/yield/yield/send 0 3/body/send 0 4/body/send 0 5",
        ),
        // All wait on one another.
        8 => sleeps(b"chan 0/chan 0/body/go 1/recv 0/body/recv 1/send 0 1"),
        // Those who park are readied by whoever comes later, or are left.
        9 => sleeps(b"body/go 1/yield/ready 1/park/body/park/park"),
        // Each push comes just before a blocking call.
        10 => ends(
            b"chan 0/body/go 1/block 1/go 2/block 2/go 3/block 3/recv 0/recv 0/recv 0/exit/body/send 0 1/body/send 0 2/body/send 0 3",
        ),
        // The same by one that was started, and main waits for whom that one starts.
        11 => ends(
            b"chan 0/body/go 1/recv 0/recv 0/exit/body/go 2/block 1/go 3/block 2/body/send 0 1/body/send 0 2",
        ),
        // A sleeper beside blocking calls.
        12 => ends(
            b"chan 0/body/go 1/block 1/go 2/block 2/recv 0/recv 0/exit/body/sleep 2000/send 0 1/body/send 0 2",
        ),
        // Fewer processors are active, and then more.
        13 => ends(
            b"chan 0/body/procs 1/go 1/block 1/go 2/procs 3/block 2/recv 0/recv 0/exit/body/block 3/send 0 1/body/procs 2/send 0 2",
        ),
        // The others are about to park when main pushes and goes into its blocking call.
        14 => meets(b"body/go 1/block 1/exit/body"),
        // One pushes while others are on their way, and main waits for all.
        _ => meets(
            b"chan 0/body/go 1/block 1/go 2/go 3/block 2/recv 0/recv 0/recv 0/exit/body/send 0 1/body/block 3/send 0 2/body/send 0 3",
        ),
    }
}
