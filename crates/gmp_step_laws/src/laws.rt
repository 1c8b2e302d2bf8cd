//! Laws of the core's runs by a script's bodies. Each is the contract of a function that does nothing.
ghost use Rattle.std.specs.Prelude.{◌≡◌, ℕ, Bool, List, All, Option, Some, length, map};
ghost use Rattle.gmp_base.specs.declared.number.MNo.{MNo};
ghost use Rattle.gmp_script.specs.Script.{Commands};
ghost use Rattle.gmp_seq.specs.declared.call.Entry.{Entry};
ghost use Rattle.gmp_seq.specs.declared.call.Limits.{Limits};
ghost use Rattle.gmp_seq.specs.Fits.{AreLimits};
ghost use Rattle.gmp_seq.specs.State.{State};
ghost use Rattle.gmp_acts.specs.declared.choice.Choice.{Choice};
ghost use Rattle.gmp_acts.specs.Headline.{opening_system};
ghost use Rattle.gmp_acts.specs.System.{System};
ghost use Rattle.gmp_scene.specs.Reached.{IsRunOf};
ghost use Rattle.gmp_scene.specs.Scripted.{Speakers};
ghost use Rattle.gmp_cli.specs.Plays.{IsPlayed, Stage, opening_stage};
ghost use Rattle.gmp_step_laws.specs.Played.{MakesAll};
ghost use Rattle.gmp_step_laws.specs.Refused.{HasNoMake, IsRunButMakes};
ghost use Rattle.gmp_step_laws.specs.Scheduled.{ActsBy, NoneUnmade};

/// What `step` plays of a script is a run of the scheduler by the script's bodies, where memory was refused for no make of it. Of any other
/// the same holds, but that the bodies pass over the makes that were refused.
pub fn step_plays_the_script()
    ensures whole { (is_fair : Bool) (acts word : ℕ) (limits : Limits) (capacities readings : List ℕ) (bodies : List Commands) (last : Stage) → AreLimits limits (length bodies) capacities
        → (played : IsPlayed acts word (opening_stage is_fair limits capacities readings bodies) last) → MakesAll word played.made (opening_stage is_fair limits capacities readings bodies) last played.plays
        → (after : Speakers) × IsRunOf limits capacities bodies last.core.system.book.history last.core.system.book.state after }
    ensures any { (is_fair : Bool) (acts word : ℕ) (limits : Limits) (capacities readings : List ℕ) (bodies : List Commands) (last : Stage) → AreLimits limits (length bodies) capacities
        → IsPlayed acts word (opening_stage is_fair limits capacities readings bodies) last
        → (after : Speakers) × IsRunButMakes limits capacities bodies last.core.system.book.history last.core.system.book.state after }
{}

/// A script has one end: whatever is played of it, where memory is refused for no make, is the same, entry for entry.
pub fn script_has_one_end()
    ensures { (is_fair : Bool) (acts word : ℕ) (limits : Limits) (capacities readings : List ℕ) (bodies : List Commands) (one other : Stage) → AreLimits limits (length bodies) capacities
        → (played : IsPlayed acts word (opening_stage is_fair limits capacities readings bodies) one) → MakesAll word played.made (opening_stage is_fair limits capacities readings bodies) one played.plays
        → (again : IsPlayed acts word (opening_stage is_fair limits capacities readings bodies) other) → MakesAll word again.made (opening_stage is_fair limits capacities readings bodies) other again.plays
        → one ≡ other }
{}

/// What `step_plays_the_script` says, of the core under any scheduling: whichever machines act, in any order, with any choices but that a body that is resumed asks
/// what its next command asks by what it is told, and whatever the scheduler chooses.
pub fn any_scheduling_plays_the_script()
    ensures whole { (is_fair : Bool) (run : ℕ) (limits : Limits) (capacities : List ℕ) (bodies : List Commands) (moves : List (MNo × Choice)) (last : System) (stock : List (Option Commands))
        → AreLimits limits (length bodies) capacities → (acts : ActsBy (opening_system is_fair run limits (length bodies) capacities) (map Some bodies) moves last stock)
        → NoneUnmade (opening_system is_fair run limits (length bodies) capacities) (map Some bodies) moves last stock acts
        → (after : Speakers) × IsRunOf limits capacities bodies last.book.history last.book.state after }
    ensures any { (is_fair : Bool) (run : ℕ) (limits : Limits) (capacities : List ℕ) (bodies : List Commands) (moves : List (MNo × Choice)) (last : System) (stock : List (Option Commands))
        → AreLimits limits (length bodies) capacities → ActsBy (opening_system is_fair run limits (length bodies) capacities) (map Some bodies) moves last stock
        → (after : Speakers) × IsRunButMakes limits capacities bodies last.book.history last.book.state after }
{}

/// Where no command of the script is a make, none can be refused: so each run of the two laws above is one by these bodies.
pub fn without_makes_none_is_refused()
    ensures { (limits : Limits) (capacities : List ℕ) (script : List Commands) (h : List Entry) (s : State) (after : Speakers) → All HasNoMake script
        → IsRunButMakes limits capacities script h s after → IsRunOf limits capacities script h s after }
{}
