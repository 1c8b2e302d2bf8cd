//! What a call is handed: memory, and what its values are of.
//! Values that must be spent lie in gmp_book's hands; here come their parts alone, which can be copied and compared.
ghost use Rattle.std.specs.Prelude.{◌≡◌};
ghost use Rattle.gmp_journal.specs.Grants.{NeedsMemory};
ghost use Rattle.gmp_journal.specs.Handed.{goroutine_in, names_other, processor_in};

use gmp_base::{GNo, PNo, Readiness};
use gmp_seq::Call;
use std::alloc::Global;

/// The memory that a call is handed: a make has some, and no other call any.
/// Not an allocator in every call: so where one is handed on, a reader sees who may take memory.
#[inline(always)]
pub fn memory_for(call: &Call, alloc: Global) -> Option<Global>
    ensures { NeedsMemory call.now result }
{
    match call {
        Call::Make(_) => Some(alloc),
        _ => None,
    }
}

/// What a call is handed, in plain parts: the run that each value names, and what it is of.
/// Four options and not a list of values: no call is handed two of a kind, and which ones a call takes is one equation of records.
#[derive(Clone, Copy)]
pub struct Handed {
    /// The ticket that is claimed or put: its goroutine with the epoch.
    pub ticket: Option<(u64, Readiness)>,
    /// The goroutine that runs.
    pub held: Option<(u64, GNo)>,
    /// The goroutine of a blocking call.
    pub called: Option<(u64, GNo)>,
    /// The processor that the machine gives up or works by.
    pub proc: Option<(u64, PNo)>,
}

impl Handed {
    /// Whether a value names another run. Then the call is refused, whatever else is wrong.
    #[inline(always)]
    pub(crate) fn names_other(&self, run: u64) -> bool
        ensures { result ≡ names_other run self.now }
    {
        self.ticket.is_some_and(|(named, _)| named != run)
            || self.held.is_some_and(|(named, _)| named != run)
            || self.called.is_some_and(|(named, _)| named != run)
            || self.proc.is_some_and(|(named, _)| named != run)
    }

    /// The goroutine that a value is of, be it one that runs or one of a blocking call. Where there is none 0, which no such call reads.
    #[inline(always)]
    pub(crate) fn goroutine(&self) -> GNo
        ensures { result ≡ goroutine_in self.now }
    {
        match (self.held, self.called) {
            (Some((_, g)), _) => g,
            (None, Some((_, g))) => g,
            (None, None) => GNo(0),
        }
    }

    /// The processor that a value is of. Where there is none 0, which no such call reads.
    #[inline(always)]
    pub(crate) fn processor(&self) -> PNo
        ensures { result ≡ processor_in self.now }
    {
        match self.proc {
            Some((_, p)) => p,
            None => PNo(0),
        }
    }
}
