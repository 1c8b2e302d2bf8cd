//! Laws of traces. Each is the contract of a function that does nothing.

ghost use Rattle.std.specs.Prelude.{◌≡◌, ◌≢◌, ◌<◌, ◌≤◌, ◌^◌, ◌++◌, [], true, None, ℕ, List, length, sum, codes, All};
ghost use Rattle.gmp_seq.specs.declared.call.Entry.{Entry};
ghost use Rattle.gmp_seq.specs.declared.call.Limits.{Limits};
ghost use Rattle.gmp_seq.specs.Fits.{AreLimits, Fits, FitsCall};
ghost use Rattle.gmp_seq.specs.Laws.{FitsTogether, HasSizes};
ghost use Rattle.gmp_seq.specs.Run.{IsLegal, Run};
ghost use Rattle.gmp_seq.specs.State.{State};
ghost use Rattle.gmp_start.specs.Forms.{HasForms};
ghost use Rattle.gmp_trace.specs.declared.bad.Why.{Why};
ghost use Rattle.gmp_trace.specs.declared.bad.Why.TheVariants.{OutOfMemory};
ghost use Rattle.gmp_trace.specs.HasText.{HasText};
ghost use Rattle.gmp_trace.specs.Pieces.{is_whole};
ghost use Rattle.gmp_trace.specs.Reading.{IsFault};
ghost use Rattle.gmp_trace.specs.StartForms.{HasLines, lines_text, state_lines};
ghost use Rattle.gmp_trace.specs.StartText.{start_text};
ghost use Rattle.gmp_trace.specs.StartWhole.{IsStart, IsStartFault, IsStartText};
ghost use Rattle.gmp_trace.specs.Text.{Content, text};
ghost use Rattle.gmp_trace.specs.Text.Begins.{AtOpening, AtState};

/// A trace of a legal run whose history is kept whole has a text, where the numbers of its entries are within their types.
pub fn legal_has_text()
    ensures { (x : Content) (capacities : List ℕ) (s : State) → x.begins ≡ AtOpening capacities → AreLimits x.limits x.bodies capacities → is_whole x.limits ≡ true
        → IsLegal x.limits x.bodies capacities x.entries s → All Fits x.entries → HasText x }
{}

/// So has a trace of a run from a state that may be a start.
pub fn run_has_text()
    ensures { (x : Content) (start s : State) → x.begins ≡ AtState start → AreLimits x.limits x.bodies [] → IsStart x.limits x.bodies start
        → Run x.limits start x.entries s → All Fits x.entries → HasText x }
{}

/// Want of memory aside, at most one line and one word fit a text, and none fits the text of a trace. The texts are shorter than 2 ^ 64
/// bytes, as all are that lie in memory.
pub fn one_first_fault()
    ensures one { (bytes : List ℕ) (m n : ℕ) (a b : Why) → length bytes < 2 ^ 64 → IsFault bytes m a → IsFault bytes n b → a ≢ OutOfMemory → b ≢ OutOfMemory
        → (m ≡ n) × (a ≡ b) }
    ensures none_of_a_trace { (x : Content) (line : ℕ) (what : Why) → length (text x) < 2 ^ 64 → HasText x → IsFault (text x) line what → what ≡ OutOfMemory }
{}

/// The text of a state is that of its lines and `begin`.
pub fn lines_are_text()
    ensures { (made : ℕ) (s : State) → start_text made s ≡ lines_text (state_lines made s) ++ codes "begin\n" }
{}

/// A state whose parts fit together and have their sizes can be said by the lines of a start exactly where it has the forms.
pub fn lines_are_forms()
    ensures said { (limits : Limits) (bodies : ℕ) (s : State) → limits.entries < 2 ^ 63 → 1 ≤ s.machines.active → s.machines.active ≤ limits.procs
        → FitsTogether limits s → HasSizes limits bodies s → HasForms limits s → HasLines limits bodies (sum s.counts) s }
    ensures forms { (limits : Limits) (bodies made : ℕ) (s : State) → HasLines limits bodies made s → HasForms limits s }
    ensures sizes { (limits : Limits) (bodies made : ℕ) (s : State) → HasLines limits bodies made s → HasSizes limits bodies s }
{}

/// A run from an accepted start, or from the opening, whose calls fit, ends in a state that the lines of a start can say.
pub fn runs_keep_lines()
    ensures start { (limits : Limits) (bodies made : ℕ) (old new : State) (h : List Entry) → limits.entries < 2 ^ 63 → HasLines limits bodies made old
        → FitsTogether limits old → All (λ (e : Entry). FitsCall e.call) h → Run limits old h new → HasLines limits bodies (sum new.counts) new }
    ensures opening { (limits : Limits) (bodies : ℕ) (capacities : List ℕ) (h : List Entry) (s : State) → AreLimits limits bodies capacities
        → All (λ (e : Entry). FitsCall e.call) h → IsLegal limits bodies capacities h s → HasLines limits bodies (sum s.counts) s }
{}

/// So while it lasts a run from a start, or from the opening, leads to a start.
pub fn runs_keep_starts()
    ensures start { (limits : Limits) (bodies : ℕ) (old new : State) (h : List Entry) → limits.entries < 2 ^ 63 → IsStart limits bodies old
        → All (λ (e : Entry). FitsCall e.call) h → Run limits old h new → new.outcome ≡ None → IsStart limits bodies new }
    ensures opening { (limits : Limits) (bodies : ℕ) (capacities : List ℕ) (h : List Entry) (s : State) → AreLimits limits bodies capacities
        → All (λ (e : Entry). FitsCall e.call) h → IsLegal limits bodies capacities h s → s.outcome ≡ None → IsStart limits bodies s }
{}

/// At most one line is the bad one of a text as that of a start, and none is where a start stands.
pub fn one_bad_start_line()
    ensures one { (limits : Limits) (bodies : ℕ) (text : List ℕ) (m n : ℕ) → AreLimits limits bodies [] → IsStartFault limits bodies text m
        → IsStartFault limits bodies text n → m ≡ n }
    ensures none_of_a_start { (limits : Limits) (bodies : ℕ) (text : List ℕ) (s : State) (rest : List ℕ) (line : ℕ) → AreLimits limits bodies []
        → IsStartText limits bodies text s rest → IsStartFault limits bodies text line → ⊥ }
{}
