//! Whether the state allows what a machine asks. Each question is a line, and the first that holds refuses: one order for all calls, and
//! what a change needs is stated beside the change (`Grants`). That no line leaves a need open is proved once, in proofs/Granted.
ghost use Rattle.std.specs.Prelude.{◌≡◌, false};
ghost use Rattle.std.specs.Option.{option_map_or};
ghost use Rattle.gmp_seq.specs.Table.{is_calling_on, status_at};
ghost use Rattle.gmp_journal.specs.Refusals.{first_refusal, need_lines, is_busy, lacks_processor, is_spent, is_anothers};
ghost use Rattle.gmp_journal.specs.Scene.{scheduler_state};

use crate::handed::Handed;
use crate::scheduler::Scheduler;
use gmp_base::{GNo, MNo, Refusal};
use gmp_seq::Call;

impl Scheduler {
    /// Why the state forbids what the machine asks, if it does. It looks at one machine and at the rows of the values alone.
    #[inline(always)]
    pub(crate) fn need_refusal(&self, m: MNo, call: &Call, values: &Handed) -> Option<Refusal>
        ensures { result ≡ first_refusal (need_lines (scheduler_state self.now) m call.now values.now) }
    {
        if self.is_busy(m, call) {
            return Some(Refusal::Busy);
        }
        if self.lacks_processor(m, call) {
            return Some(Refusal::NoProcessor);
        }
        if self.is_spent(values) {
            return Some(Refusal::NotOutstanding);
        }
        if self.is_anothers(m, values) {
            return Some(Refusal::NotHeld);
        }
        None
    }

    /// Whether m's state forbids the call. The calls of a goroutine are never busy: whoever runs one is awake.
    #[inline(always)]
    fn is_busy(&self, m: MNo, call: &Call) -> bool
        ensures { result ≡ is_busy (scheduler_state self.now) m call.now }
    {
        match call {
            Call::Acquire => !self.machines.is_awake(m) || self.machines.has_processor(m),
            Call::Take | Call::Put(_) | Call::Keep | Call::Unspin | Call::Poke | Call::Tick(_) => {
                !self.machines.is_awake(m)
            }
            Call::Claim(_) => {
                !self.machines.is_awake(m) || self.goroutines.runs_some(m) || self.machines.spins(m)
            }
            Call::Spin => !self.machines.is_awake(m) || self.goroutines.runs_some(m),
            Call::Woken => self.machines.is_calling(m),
            Call::Declare => self.goroutines.runs_some(m) || self.machines.spins(m),
            Call::Bare | Call::Park => {
                !self.machines.is_awake(m)
                    || self.machines.has_processor(m)
                    || self.machines.spins(m)
            }
            _ => false,
        }
    }

    /// Whether the call is by a processor that m lacks. Other calls by one hand it in, and `is_anothers` looks at it.
    #[inline(always)]
    fn lacks_processor(&self, m: MNo, call: &Call) -> bool
        ensures { result ≡ lacks_processor (scheduler_state self.now) m call.now }
    {
        match call {
            Call::Claim(_) | Call::Keep => !self.machines.has_processor(m),
            _ => false,
        }
    }

    /// Whether a ticket is not outstanding: it was claimed or put back before, or nobody ever gave it out.
    #[inline(always)]
    fn is_spent(&self, values: &Handed) -> bool
        ensures { result ≡ is_spent (scheduler_state self.now) values.now }
    {
        values
            .ticket
            .is_some_and(|(_, r)| !self.goroutines.is_outstanding(r))
    }

    /// Whether a value, no ticket, is not m's: one that was forged, or went to another machine.
    #[inline(always)]
    fn is_anothers(&self, m: MNo, values: &Handed) -> bool
        ensures { result ≡ is_anothers (scheduler_state self.now) m values.now }
    {
        values
            .held
            .is_some_and(|(_, g)| !self.goroutines.runs(m, g))
            || values.called.is_some_and(|(_, g)| !self.calls_for(m, g))
            || values.proc.is_some_and(|(_, p)| !self.machines.holds(m, p))
    }

    /// Whether m makes the blocking call of g.
    #[inline(always)]
    fn calls_for(&self, m: MNo, g: GNo) -> bool
        ensures { result ≡ option_map_or (is_calling_on m) (status_at self.now.goroutines.table g) false }
    {
        match self.goroutines.get(g) {
            Some(row) => row.status.is_calling_on(m),
            None => false,
        }
    }
}
