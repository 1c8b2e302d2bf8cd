//! What an entry did (`Deed`, and `communication` on a channel), and who is told (`Listener`).
ghost use Rattle.std.specs.Prelude.{◌≡◌};
ghost use Rattle.gmp_seq.specs.Run.{communication};

use gmp_base::{Case, GNo, PNo};
use gmp_seq::{Call, Entry, Goroutine, Reply, Taken};
use std::alloc::AllocError;

/// What one entry did.
#[derive(Clone, Copy)]
pub struct Deed<'a> {
    /// The entry's number in the run, from 0.
    pub number: u64,
    pub entry: &'a Entry,
    /// Whom its machine ran before it, or had in a blocking call; of a claim, who is claimed.
    pub g: Option<GNo>,
    /// The processor that its machine held before it.
    pub p: Option<PNo>,
    /// Who became ready by it.
    pub readied: &'a [GNo],
}

/// Is told of the entries of a run, one after another. Each says by a relation of its own what an entry makes of it; a walk rests on none.
pub trait Listener {
    ghost use Rattle.std.specs.Prelude.{List, OnOk};
    ghost use Rattle.gmp_seq.specs.declared.call.Entry.{Entry};
    ghost use Rattle.gmp_seq.specs.declared.status.Goroutine.{Goroutine};

    /// From itself before, by this entry and what each goroutine does after it, to itself after.
    ghost hears: { Self → Entry → List Goroutine → Self → Type 0 };

    /// An entry was a step. The rows are what each goroutine does after it.
    fn hear(&mut self, deed: &Deed, rows: &[Goroutine]) -> Result<(), AllocError>
        ensures { OnOk result (hears self.old deed.now.entry.now rows.now self.new) };
}

/// The communication that an entry records: what was offered, and what became of it. A select's is that of the case it took.
pub fn communication(entry: &Entry) -> Option<(Case, Taken)>
    ensures { result ≡ communication entry.now.call entry.now.reply }
{
    match (&entry.call, entry.reply) {
        (Call::Send(c, v), Reply::Sent(to)) => Some((Case::Send(*c, *v), Taken::Sent(to))),
        (Call::Recv(c), Reply::Got(v, sent, from)) => {
            Some((Case::Recv(*c), Taken::Got(v, sent, from)))
        }
        (Call::Select(cases, _, _), Reply::Chose(i, taken)) => {
            match cases.as_slice().get(usize::from(i)) {
                Some(case) => Some((*case, taken)),
                None => None,
            }
        }
        _ => None,
    }
}
