//! What a core hands out and what is left are one history. The law is the contract of a function that does nothing.
ghost use Rattle.std.specs.Prelude.{Bool, ℕ, List};
ghost use Rattle.gmp_seq.specs.declared.call.Entry.{Entry};
ghost use Rattle.gmp_seq.specs.declared.call.Limits.{Limits};
ghost use Rattle.gmp_seq.specs.Fits.{AreLimits};
ghost use Rattle.gmp_acts.specs.Acts.{ActsAll};
ghost use Rattle.gmp_acts.specs.Headline.{Headline, opening_system};
ghost use Rattle.gmp_acts.specs.Lookouts.{NoWorkIsAsleep};
ghost use Rattle.gmp_acts.specs.System.{System};
ghost use Rattle.gmp_core.specs.Pieces.{Move, MovesAll, acts_of};
ghost use Rattle.gmp_core.specs.Whole.{with_before};

/// Whatever acts are made from the opening, and wherever entries are handed out between them: what was handed out, in order, and what is left
/// are the history that the acts alone make. So the headline holds of both together, and no work is left asleep.
pub fn pieces_are_one_history()
    ensures alone { (is_fair : Bool) (run : ℕ) (limits : Limits) (bodies : ℕ) (capacities : List ℕ) (moves : List Move) (out : List Entry) (k : System)
        → AreLimits limits bodies capacities → MovesAll (opening_system is_fair run limits bodies capacities) moves out k
        → ActsAll (opening_system is_fair run limits bodies capacities) (acts_of moves) (with_before out k) }
    ensures headline { (is_fair : Bool) (run : ℕ) (limits : Limits) (bodies : ℕ) (capacities : List ℕ) (moves : List Move) (out : List Entry) (k : System)
        → AreLimits limits bodies capacities → MovesAll (opening_system is_fair run limits bodies capacities) moves out k
        → Headline run limits bodies capacities (with_before out k) }
    ensures awake { (is_fair : Bool) (run : ℕ) (limits : Limits) (bodies : ℕ) (capacities : List ℕ) (moves : List Move) (out : List Entry) (k : System)
        → AreLimits limits bodies capacities → MovesAll (opening_system is_fair run limits bodies capacities) moves out k
        → NoWorkIsAsleep k }
{}
