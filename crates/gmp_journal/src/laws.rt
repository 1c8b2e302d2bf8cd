//! Laws of the journal. Each is the contract of a function that does nothing.
ghost use Rattle.std.specs.Prelude.{◌≡◌, ◌↔◌, ◌<◌, ℕ, List, false, length, None};
ghost use Rattle.gmp_base.specs.declared.pass.Pass.{Pass};
ghost use Rattle.gmp_seq.specs.declared.call.Call.{Call};
ghost use Rattle.gmp_seq.specs.declared.call.Limits.{Limits};
ghost use Rattle.gmp_seq.specs.Run.{IsLegal, Run};
ghost use Rattle.gmp_seq.specs.State.{State, opening};
ghost use Rattle.gmp_journal.specs.declared.handed.Handed.{Handed};
ghost use Rattle.gmp_journal.specs.Done.{IsDoneTo};
ghost use Rattle.gmp_journal.specs.Grants.{Suits};
ghost use Rattle.gmp_journal.specs.Handed.{goroutine_in, names_other, processor_in};
ghost use Rattle.gmp_journal.specs.Laws.{StepsAre, NeedsOf};
ghost use Rattle.gmp_journal.specs.Log.{IsWhole, Log};
ghost use Rattle.gmp_journal.specs.Refusals.{IsCurrent, refusal_of};
ghost use Rattle.gmp_journal.specs.Segments.{AreSegments, IsPart, Piece, entries_of};

/// A call by a pass that may call, with values of the run that suit it, where there is room for its entry, is granted exactly where the
/// scheduler's needs are met: a ticket that is out, a goroutine that the machine runs or calls for, a processor that it holds, and a machine
/// whose state allows it. A `make` that is granted may still want memory. `woken` is granted to each machine that is in no blocking call.
pub fn granted_where_needed()
    ensures { (log : Log) (pass : Pass) (asked : Call) (values : Handed) → pass.run ≡ log.run → IsCurrent log pass → length log.history < log.limits.room → Suits asked values → names_other log.run values ≡ false → (refusal_of log pass asked values ≡ None) ↔ NeedsOf pass.m (goroutine_in values) (processor_in values) asked log.state }
{}

/// What a step does, it does to the goroutine, the processor and the ticket that the call was handed: who yields is ready, who exits is
/// dead, who waits does so until the moment and for the offers that the call names, and whose blocking call begins or ends is that
/// goroutine. A park is answered that all are asleep exactly where they are, and a moment to mind exactly where nobody is ready or running
/// and it is the least deadline.
pub fn done_to_what_is_handed()
    ensures { (asked : Call) → StepsAre asked (IsDoneTo asked) }
{}

/// Where no entry was handed out, the history is a legal run from the opening to the present state.
pub fn whole_from_opening()
    ensures { (log : Log) → IsPart log → IsWhole log → IsLegal log.limits log.bodies log.capacities log.history log.state }
{}

/// Segments, each from the state at which the one before it stops, are together one run; those from the opening on are one legal run.
pub fn segments_join()
    ensures run { (limits : Limits) (a b : State) (pieces : List Piece) → AreSegments limits a pieces b → Run limits a (entries_of pieces) b }
    ensures legal { (limits : Limits) (bodies : ℕ) (capacities : List ℕ) (b : State) (pieces : List Piece) → AreSegments limits (opening limits bodies capacities) pieces b → IsLegal limits bodies capacities (entries_of pieces) b }
{}
