//! Laws of starts. Each is the contract of a function that does nothing.
ghost use Rattle.std.specs.Prelude.{◌≡◌, ◌↔◌, ◌≤◌, ℕ, true, None, List, All};
ghost use Rattle.gmp_base.specs.declared.number.MNo.{MNo};
ghost use Rattle.gmp_seq.specs.declared.call.Call.{Call};
ghost use Rattle.gmp_seq.specs.declared.call.Entry.{Entry};
ghost use Rattle.gmp_seq.specs.declared.call.Limits.{Limits};
ghost use Rattle.gmp_seq.specs.declared.call.Reply.{Reply};
ghost use Rattle.gmp_seq.specs.Fits.{AreLimits, FitsCall};
ghost use Rattle.gmp_seq.specs.Laws.{FitsTogether, HasSizes};
ghost use Rattle.gmp_seq.specs.Run.{IsStep, IsLegal, Run};
ghost use Rattle.gmp_seq.specs.State.{State, opening};
ghost use Rattle.gmp_seq.specs.Step.{Step};
ghost use Rattle.gmp_start.specs.Active.{HasActive};
ghost use Rattle.gmp_start.specs.Fit.{fits};
ghost use Rattle.gmp_start.specs.Forms.{HasForms};

/// While the run lasts the test is passed exactly where the parts of a state fit together. Each step keeps that: `steps_keep_order` of
/// gmp_seq. That a run from the opening leads to the state isn't asked, and the state doesn't tell it: for a checker that goes on by the
/// steps' own rules the parts are enough.
pub fn fitting()
    ensures { (limits : Limits) (s : State) → s.outcome ≡ None → (fits limits s ≡ true) ↔ FitsTogether limits s }
{}

/// The opening has the forms, and each step keeps them whose call fits, wherever the run began.
pub fn steps_keep_forms()
    ensures opening { (limits : Limits) (bodies : ℕ) (capacities : List ℕ) → AreLimits limits bodies capacities
        → HasForms limits (opening limits bodies capacities) }
    ensures step { (limits : Limits) (m : MNo) (call : Call) (reply : Reply) (old new : State) → HasForms limits old → FitsCall call
        → Step limits m call reply old new → HasForms limits new }
{}

/// So does each run whose calls fit; and each legal run ends in a state that has them.
pub fn runs_keep_forms()
    ensures run { (limits : Limits) (old new : State) (h : List Entry) → HasForms limits old → All (λ (e : Entry). FitsCall e.call) h
        → Run limits old h new → HasForms limits new }
    ensures legal { (limits : Limits) (bodies : ℕ) (capacities : List ℕ) (h : List Entry) (s : State) → AreLimits limits bodies capacities
        → All (λ (e : Entry). FitsCall e.call) h → IsLegal limits bodies capacities h s → HasForms limits s }
{}

/// At the opening from one processor on to all are active; each step and each run keeps that, wherever it began.
pub fn steps_keep_active()
    ensures opening { (limits : Limits) (bodies : ℕ) (capacities : List ℕ) → AreLimits limits bodies capacities
        → HasActive (opening limits bodies capacities).machines }
    ensures step { (limits : Limits) (e : Entry) (old new : State) → HasActive old.machines → IsStep limits e old new → HasActive new.machines }
    ensures run { (limits : Limits) (old new : State) (h : List Entry) → HasActive old.machines → Run limits old h new → HasActive new.machines }
{}

/// Each run keeps how many rows there are, wherever it began.
pub fn runs_keep_sizes()
    ensures { (limits : Limits) (bodies : ℕ) (old new : State) (h : List Entry) → HasSizes limits bodies old → Run limits old h new
        → HasSizes limits bodies new }
{}
