//! Laws of what a replay keeps, and of what is wrong with a trace. Each is the contract of a function that does nothing.
ghost use Rattle.std.specs.Prelude.{◌≡◌, ◌≢◌, ℕ, All, List, Option, None};
ghost use Rattle.gmp_seq.specs.declared.call.Entry.{Entry};
ghost use Rattle.gmp_seq.specs.declared.call.Limits.{Limits};
ghost use Rattle.gmp_seq.specs.declared.call.Outcome.{Outcome};
ghost use Rattle.gmp_seq.specs.Fits.{AreLimits, Fits};
ghost use Rattle.gmp_seq.specs.Run.{IsLegal, IsStep, Run};
ghost use Rattle.gmp_seq.specs.State.{State, opening};
ghost use Rattle.gmp_trace.specs.declared.bad.Bad.{Bad};
ghost use Rattle.gmp_trace.specs.declared.bad.Why.TheVariants.{OutOfMemory};
ghost use Rattle.gmp_trace.specs.HasText.{HasText};
ghost use Rattle.gmp_trace.specs.Text.{Content, end_of};
ghost use Rattle.gmp_trace.specs.Text.Begins.{AtState};
ghost use Rattle.gmp_check.specs.Checked.{IsFirstBad, IsRight};
ghost use Rattle.gmp_check.specs.Consistent.{IsConsistentUnder, MayBegin};
ghost use Rattle.gmp_check.specs.Parts.{IsJoined, IsPart};

/// An opening is consistent, and each step from a consistent state leads to one.
pub fn kept()
    ensures opening { (limits : Limits) (bodies : ℕ) (capacities : List ℕ) → AreLimits limits bodies capacities
        → IsConsistentUnder limits (opening limits bodies capacities) }
    ensures step { (limits : Limits) (e : Entry) (old new : State) → IsConsistentUnder limits old → IsStep limits e old new
        → IsConsistentUnder limits new }
{}

/// A replay may begin at an opening, and at each state to which a run leads from where one may begin.
pub fn beginnings()
    ensures opening { (limits : Limits) (bodies : ℕ) (capacities : List ℕ) → AreLimits limits bodies capacities
        → MayBegin limits (opening limits bodies capacities) }
    ensures later { (limits : Limits) (old new : State) (h : List Entry) → MayBegin limits old → Run limits old h new → MayBegin limits new }
{}

/// Want of memory aside, a trace has at most one first line that is wrong, and one thing is wrong there.
pub fn one_first_bad()
    ensures { (x : Content) (a b : Bad) → IsFirstBad x a → IsFirstBad x b → a.why ≢ OutOfMemory → b.why ≢ OutOfMemory → a ≡ b }
{}

/// A part of a right trace that has a text has one too.
pub fn parts_have_text()
    ensures { (x y : Content) (n : ℕ) (o : Option Outcome) → HasText x → IsRight x o → IsPart x n y → HasText y }
{}

/// So has one trace of two that have texts, where the second is right.
pub fn joins_have_text()
    ensures { (x y z : Content) (o : Option Outcome) → HasText x → HasText y → IsRight y o → IsJoined x y z → HasText z }
{}

/// A segment of a legal run whose numbers are within their types, as the book hands it out: its trace is right, and has a text.
pub fn segments_are_right()
    ensures right { (x : Content) (capacities : List ℕ) (h : List Entry) (start s : State) → AreLimits x.limits x.bodies capacities → All Fits h
        → IsLegal x.limits x.bodies capacities h start → start.outcome ≡ None → x.begins ≡ AtState start → Run x.limits start x.entries s
        → x.end ≡ end_of s.outcome → IsRight x s.outcome }
    ensures text { (x : Content) (capacities : List ℕ) (h : List Entry) (start s : State) → AreLimits x.limits x.bodies capacities → All Fits h
        → IsLegal x.limits x.bodies capacities h start → start.outcome ≡ None → x.begins ≡ AtState start → Run x.limits start x.entries s
        → All Fits x.entries → HasText x }
{}
