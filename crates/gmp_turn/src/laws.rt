//! What a turn is among the acts of several machines, and what it does with bodies and owners. Each law is the contract of a function
//! that does nothing.
ghost use Rattle.std.specs.Prelude.{◌≡◌, ◌≢◌, ◌<◌, ◌⊎◌, ℕ, List, [], ◌∷◌, ◌++◌, length, false, true, None, Some, Ok, Err, Option, Result, IsNone};
ghost use Rattle.gmp_base.specs.declared.number.MNo.{MNo};
ghost use Rattle.gmp_base.specs.declared.number.Readiness.{Readiness};
ghost use Rattle.gmp_base.specs.declared.refusal.Refusal.{Refusal};
ghost use Rattle.gmp_seq.specs.declared.call.Call.{Call};
ghost use Rattle.gmp_seq.specs.declared.call.Reply.{Reply};
ghost use Rattle.gmp_seq.specs.Table.{is_outstanding};
ghost use Rattle.gmp_book.specs.Book.{BookContents};
ghost use Rattle.gmp_driver.specs.declared.act.Act.TheVariants as Act;
ghost use Rattle.gmp_driver.specs.declared.act.Value.{Value};
ghost use Rattle.gmp_driver.specs.Fits.{SuitsPlace};
ghost use Rattle.gmp_driver.specs.Machine.{Machine};
ghost use Rattle.gmp_driver.specs.Table.{next_act};
ghost use Rattle.gmp_acts.specs.declared.made.Made.{Made};
ghost use Rattle.gmp_acts.specs.Acts.{Accepted, IsGranted, MayCall, Stopped, Unmade, given_back};
ghost use Rattle.gmp_acts.specs.Hands.{plain_machine};
ghost use Rattle.gmp_turn.specs.Acts.{run_of};
ghost use Rattle.gmp_turn.specs.Surrenders.{Surrenders};
ghost use Rattle.gmp_turn.specs.Turns.{Turns};
ghost use Rattle.gmp_turn.specs.Values.{AreOut, KeepsValues, body_in, owner_in};

/// A turn that is answered is the book call of gmp_acts's definitions: its entry goes last, the call and its reply go last in what was
/// made, and in plain parts the machine is at that place, with those flags, and holds what they say.
pub fn answers_are_acts<T, Q>()
    ensures { (x x' : Machine T Q) (book book' : BookContents T Q) (m : MNo) (asked : Call) (word : ℕ) (answer : Reply) (own : List Made) → next_act x ≡ Act.Call asked → SuitsPlace x.place x.hand
        → IsGranted (plain_machine x) m asked (run_of book.log) → Turns x book asked word (Ok answer) x' book'
        → Accepted (plain_machine x) m asked (run_of book.log) own (plain_machine x') (run_of book'.log) (own ++ record { m = m; call = asked; reply = answer } ∷ []) }
{}

/// A turn that is refused is the book call of gmp_acts's definitions too, of a machine that may call: where the run is over it is told so;
/// and while it lasts and wasn't stopped, where the call is granted and the history has room for its entry, it is a make that was refused
/// memory. Nothing else
/// has changed.
pub fn refusals_are_acts<T, Q>()
    ensures over { (x x' : Machine T Q) (book book' : BookContents T Q) (m : MNo) (asked : Call) (word : ℕ) (why : Refusal) (own : List Made) → next_act x ≡ Act.Call asked → SuitsPlace x.place x.hand
        → x.run ≡ book.log.run → m.0 < book.log.limits.machines → MayCall (plain_machine x) m (run_of book.log) → Turns x book asked word (Err why) x' book' → book.log.state.outcome ≢ None
        → Stopped (plain_machine x) (run_of book.log) own (plain_machine x') (run_of book'.log) own }
    ensures wanted { (x x' : Machine T Q) (book book' : BookContents T Q) (m : MNo) (asked : Call) (word : ℕ) (why : Refusal) (own : List Made) → next_act x ≡ Act.Call asked → SuitsPlace x.place x.hand
        → x.run ≡ book.log.run → m.0 < book.log.limits.machines → IsGranted (plain_machine x) m asked (run_of book.log) → Turns x book asked word (Err why) x' book' → book.log.state.outcome ≡ None
        → book.log.stopped ≡ false → length book.log.history < book.log.limits.room
        → Unmade (plain_machine x) m asked (run_of book.log) own (plain_machine x') (run_of book'.log) own }
{}

/// A surrender that is taken is the one of gmp_acts's definitions: in plain parts the machine holds that value no more, and the run stays.
pub fn surrenders_are_acts<T, Q>()
    ensures { (x x' : Machine T Q) (book book' : BookContents T Q) (which : Option Value) → Surrenders x book which (Ok tt) x' book'
        → (plain_machine x' ≡ given_back (plain_machine x) which) × (run_of book'.log ≡ run_of book.log) }
{}

/// A turn loses no body and no owner and doubles none: each is in the machine's hand or in its place in the book, and all other places are
/// as they were. So does a surrender, of a machine with one goroutine at most.
pub fn values_are_kept<T, Q>()
    ensures turn { (x x' : Machine T Q) (book book' : BookContents T Q) (asked : Call) (word : ℕ) (result : Result Reply Refusal) → next_act x ≡ Act.Call asked → SuitsPlace x.place x.hand
        → AreOut (body_in x.hand) book.bodies → AreOut (owner_in x.hand) book.owners → Turns x book asked word result x' book'
        → KeepsValues (body_in x.hand) (body_in x'.hand) book.bodies book'.bodies × KeepsValues (owner_in x.hand) (owner_in x'.hand) book.owners book'.owners }
    ensures surrender { (x x' : Machine T Q) (book book' : BookContents T Q) (which : Option Value) (result : Result Unit Refusal) → IsNone x.hand.held ⊎ IsNone x.hand.called
        → AreOut (body_in x.hand) book.bodies → AreOut (owner_in x.hand) book.owners → Surrenders x book which result x' book'
        → KeepsValues (body_in x.hand) (body_in x'.hand) book.bodies book'.bodies × KeepsValues (owner_in x.hand) (owner_in x'.hand) book.owners book'.owners }
{}

/// While what is in hand is out of its place, and tickets in hand are given out, no surrender is refused once the run is over.
pub fn surrenders_are_taken<T, Q>()
    ensures { (x x' : Machine T Q) (book book' : BookContents T Q) (which : Option Value) (result : Result Unit Refusal) → x.run ≡ book.log.run → book.log.state.outcome ≢ None
        → AreOut (body_in x.hand) book.bodies → AreOut (owner_in x.hand) book.owners
        → ((r : Readiness) → (x.hand.to_claim ≡ Some r) ⊎ (x.hand.to_store ≡ Some r) → is_outstanding book.log.state.table r ≡ true)
        → Surrenders x book which result x' book' → result ≡ Ok tt }
{}
