//! Laws of the table. Each is the contract of a function that does nothing.
ghost use Rattle.std.specs.Prelude.{◌≡◌, Option, None, false, is_some};
ghost use Rattle.gmp_seq.specs.declared.call.Call.{Call};
ghost use Rattle.gmp_driver.specs.declared.act.Act.{Act};
ghost use Rattle.gmp_driver.specs.declared.act.Act.TheVariants as Act;
ghost use Rattle.gmp_driver.specs.declared.act.Told.{Told};
ghost use Rattle.gmp_driver.specs.declared.place.Aside.{Aside};
ghost use Rattle.gmp_driver.specs.declared.place.Place.{Place};
ghost use Rattle.gmp_driver.specs.declared.registers.Registers.{Registers};
ghost use Rattle.gmp_driver.specs.declared.seen.Seen.{Seen};
ghost use Rattle.gmp_driver.specs.Fits.{SuitsPlace};
ghost use Rattle.gmp_driver.specs.Local.{MayCome, come_back, filled};
ghost use Rattle.gmp_driver.specs.Machine.{Machine};
ghost use Rattle.gmp_driver.specs.Registers.{AreFilledOnce, joined, unused, used};
ghost use Rattle.gmp_driver.specs.Table.{act_at, after, next_act, next_aside, next_fresh, next_place, next_turns};
ghost use Rattle.gmp_driver.specs.Unfair.{is_aside, unfair_place, unfair_turns};
ghost use Rattle.gmp_driver.specs.Uses.{Uses};

/// A call that a machine is to make finds the registers that it uses filled, and those that its reply fills free. So no call is refused for
/// a value that isn't there.
pub fn calls_find_what_they_use<T, Q>()
    ensures { (x : Machine T Q) (call : Call) → next_act x ≡ Act.Call call → SuitsPlace x.place x.hand → Uses call x.hand }
{}

/// No value is lost, and none is twice: what an act is handed and what it leaves are together what the machine held.
pub fn nothing_is_lost<T, Q>()
    ensures apart { (act : Act) (hand : Registers T Q) → AreFilledOnce (unused act hand) (used act hand) }
    ensures whole { (act : Act) (hand : Registers T Q) → joined (used act hand) (unused act hand) ≡ hand }
{}

/// What came of a pop, a push, a steal, a resumed body, a blocking call or a reading of the clock can be told: it fills no register twice,
/// and the machine holds then what its next place says. Bodies and owners may have changed meanwhile. `holds` is the same of an act that is
/// made in place.
pub fn acts_lead_on<T, Q>()
    ensures apart { (x : Machine T Q) (what : Told) (came : Registers T Q) → SuitsPlace x.place x.hand → MayCome (next_act x) what
        → filled came ≡ come_back what (is_some x.hand.to_claim) (filled (used (next_act x) x.hand))
        → AreFilledOnce (unused (next_act x) x.hand) came }
    ensures fits { (x : Machine T Q) (what : Told) (came : Registers T Q) → SuitsPlace x.place x.hand → MayCome (next_act x) what
        → filled came ≡ come_back what (is_some x.hand.to_claim) (filled (used (next_act x) x.hand))
        → SuitsPlace (after (record x { hand = joined came (unused (next_act x) x.hand) }) what).place (joined came (unused (next_act x) x.hand)) }
    ensures holds { (x : Machine T Q) (what : Told) (hand : Registers T Q) → SuitsPlace x.place x.hand → MayCome (next_act x) what
        → filled hand ≡ come_back what (is_some x.hand.to_claim) (filled x.hand) → SuitsPlace (after (record x { hand = hand }) what).place hand }
{}

/// A machine is fair for good, or never. One that is not never looks aside, and follows a table that knows nothing of looks aside: its act,
/// `fresh` and the rows that `Unfair` doesn't name are the same, fair or not.
pub fn unfair_is_as_before()
    ensures stays { (s : Seen) (here : Place) (what : Told) → is_some (next_aside s here what) ≡ is_some s.aside }
    ensures never { (s : Seen) (here : Place) (what : Told) → s.aside ≡ None → is_aside here ≡ false → is_aside (next_place s here what) ≡ false }
    ensures place { (s : Seen) (looks : Option Aside) (here : Place) (what : Told) → s.aside ≡ None → next_place s here what ≡ unfair_place (record s { aside = looks }) here what }
    ensures turns { (s : Seen) (looks : Option Aside) (here : Place) (what : Told) → s.aside ≡ None → next_turns s here what ≡ unfair_turns (record s { aside = looks }) here what }
    ensures fresh { (s : Seen) (looks : Option Aside) (here : Place) (what : Told) → next_fresh s here what ≡ next_fresh (record s { aside = looks }) here what }
    ensures act { (s : Seen) (looks : Option Aside) (here : Place) → act_at s here ≡ act_at (record s { aside = looks }) here }
{}
