//! A host's runs in one thread: in turn, and as a seed draws them.
ghost use Rattle.std.specs.Prelude.{◌≡◌, ◌≢◌, ◌↔◌, ◌<◌, ◌≤◌, IfErr, IfOk, OnOk, length, true};
ghost use Rattle.gmp_turn.specs.Whole.{IsWholeRun};
ghost use Rattle.gmp_seq.specs.Fits.{AreLimits};
ghost use Rattle.gmp_chance.specs.Even.{DealsEvenly, seeded};
ghost use Rattle.gmp_host.specs.Ends.{IsOfLegalRun};
ghost use Rattle.gmp_host.specs.Openings.{IsCovered, NamesMissing, limits_of};
ghost use Rattle.gmp_host.specs.Played.{BoxAnswers, BoxAsks, HasNoDrawnEnd, HasNoEnd, IsDrawnOut, IsPlayedOut};
ghost use Rattle.gmp_host.specs.Traced.{IsTraced};

use crate::drawing::draw_all;
use crate::ending::{Ended, Short};
use crate::host::{Host, first};
use crate::stepping::play_all;
use crate::traced::Traced;
use gmp_chance::{Dealer, Even};

impl Host {
    /// The run in turn, and its history, if that is to be kept.
    fn played(self, keeps: bool) -> Result<Traced, Short>
        ensures ended { IfOk result (λ t. IsOfLegalRun (limits_of self.settings) self.capacities.items (length self.bodies.items) t.ended) }
        ensures traced { IfOk result (λ t. keeps ≡ true → IsTraced (limits_of self.settings) self.capacities.items (length self.bodies.items) t) }
        ensures played { IfOk result (λ t. (p : IsPlayedOut (BoxAsks (λ box body. record box { value = body }) resumed) (BoxAnswers (λ box body. record box { value = body }) blocked)
            self.settings.fair (limits_of self.settings) self.capacities.items self.bodies.items t.ended)
            × (keeps ≡ true → t.history.list ≡ p.last.core.system.book.history)) }
        ensures endless { IfErr result (λ e. e ≡ Short.NoEnd
            → HasNoEnd (BoxAsks (λ box body. record box { value = body }) resumed) (BoxAnswers (λ box body. record box { value = body }) blocked)
            self.settings.fair (limits_of self.settings) self.capacities.items self.bodies.items) }
        ensures whole { OnOk result (self.settings.entries ≤ self.settings.room) }
        ensures above { IfErr result (λ e. e ≡ Short.AboveRoom → self.settings.room < self.settings.entries) }
        ensures limits { IfErr result (λ e. e ≡ Short.BadLimits
            → AreLimits (limits_of self.settings) (length self.bodies.items) self.capacities.items → ⊥) }
        ensures memory { IfErr result (λ e. e ≡ Short.OutOfMemory
            → IsWholeRun (limits_of self.settings) (length self.bodies.items) self.capacities.items) }
        ensures pushed { (result ≡ Err Short.NotPushed) ↔ (self.boxed ≢ length self.bodies.items) }
        ensures reserved { OnOk result (IsCovered self.reserved (length self.bodies.items)) }
        ensures missing { IfErr result (NamesMissing self.reserved (length self.bodies.items)) }
        ensures kinds { IfErr result (λ e. (e ≢ Short.Stopped)) }
    {
        self.ready()?;
        let Host {
            alloc,
            settings,
            capacities,
            bodies,
            loss,
            shown,
            ..
        } = self;
        let limits = settings.limits();
        let count = bodies.len();
        let (ended, history) = play_all(
            alloc,
            limits,
            capacities.as_slice(),
            bodies,
            shown,
            settings.fair,
            keeps,
        )?;
        let ended = Ended {
            lost: first(&loss),
            ..ended
        };
        Ok(Traced {
            alloc,
            ended,
            limits,
            bodies: count as u16,
            capacities,
            history,
        })
    }

    /// The run as it is dealt, and its history, if that is to be kept.
    fn drawn<D: Dealer + Drop>(self, dealer: D, keeps: bool) -> Result<Traced, Short>
        ensures ended { IfOk result (λ t. IsOfLegalRun (limits_of self.settings) self.capacities.items (length self.bodies.items) t.ended) }
        ensures traced { IfOk result (λ t. keeps ≡ true → IsTraced (limits_of self.settings) self.capacities.items (length self.bodies.items) t) }
        ensures drawn { IfOk result (λ t. (d : IsDrawnOut (BoxAsks (λ box body. record box { value = body }) resumed) (BoxAnswers (λ box body. record box { value = body }) blocked) D.deals
            dealer self.settings.fair (limits_of self.settings) self.capacities.items self.bodies.items t.ended)
            × (keeps ≡ true → t.history.list ≡ d.last.core.system.book.history)) }
        ensures endless { IfErr result (λ e. e ≡ Short.NoEnd
            → HasNoDrawnEnd (BoxAsks (λ box body. record box { value = body }) resumed) (BoxAnswers (λ box body. record box { value = body }) blocked) D.deals
            dealer self.settings.fair (limits_of self.settings) self.capacities.items self.bodies.items) }
        ensures whole { OnOk result (self.settings.entries ≤ self.settings.room) }
        ensures above { IfErr result (λ e. e ≡ Short.AboveRoom → self.settings.room < self.settings.entries) }
        ensures limits { IfErr result (λ e. e ≡ Short.BadLimits
            → AreLimits (limits_of self.settings) (length self.bodies.items) self.capacities.items → ⊥) }
        ensures memory { IfErr result (λ e. e ≡ Short.OutOfMemory
            → IsWholeRun (limits_of self.settings) (length self.bodies.items) self.capacities.items) }
        ensures pushed { (result ≡ Err Short.NotPushed) ↔ (self.boxed ≢ length self.bodies.items) }
        ensures reserved { OnOk result (IsCovered self.reserved (length self.bodies.items)) }
        ensures missing { IfErr result (NamesMissing self.reserved (length self.bodies.items)) }
        ensures kinds { IfErr result (λ e. (e ≢ Short.Stopped)) }
    {
        self.ready()?;
        let Host {
            alloc,
            settings,
            capacities,
            bodies,
            loss,
            shown,
            ..
        } = self;
        let limits = settings.limits();
        let count = bodies.len();
        let (ended, history) = draw_all(
            alloc,
            limits,
            capacities.as_slice(),
            bodies,
            shown,
            settings.fair,
            dealer,
            keeps,
        )?;
        let ended = Ended {
            lost: first(&loss),
            ..ended
        };
        Ok(Traced {
            alloc,
            ended,
            limits,
            bodies: count as u16,
            capacities,
            history,
        })
    }

    /// Runs the goroutines by a core in this thread, the same every time. All entries have to be kept.
    pub fn step(self) -> Result<Ended, Short>
        ensures ended { IfOk result (IsOfLegalRun (limits_of self.settings) self.capacities.items (length self.bodies.items)) }
        // Its machines, which are fair as the settings say, act in turn, and each choice is the first. What a body asks when it is resumed, and
        // what its blocking call answers, is what the body in the box says of itself.
        ensures played { IfOk result (IsPlayedOut (BoxAsks (λ box body. record box { value = body }) resumed) (BoxAnswers (λ box body. record box { value = body }) blocked)
            self.settings.fair (limits_of self.settings) self.capacities.items self.bodies.items) }
        ensures endless { IfErr result (λ e. e ≡ Short.NoEnd
            → HasNoEnd (BoxAsks (λ box body. record box { value = body }) resumed) (BoxAnswers (λ box body. record box { value = body }) blocked)
            self.settings.fair (limits_of self.settings) self.capacities.items self.bodies.items) }
        ensures whole { OnOk result (self.settings.entries ≤ self.settings.room) }
        ensures above { IfErr result (λ e. e ≡ Short.AboveRoom → self.settings.room < self.settings.entries) }
        ensures limits { IfErr result (λ e. e ≡ Short.BadLimits
            → AreLimits (limits_of self.settings) (length self.bodies.items) self.capacities.items → ⊥) }
        ensures memory { IfErr result (λ e. e ≡ Short.OutOfMemory
            → IsWholeRun (limits_of self.settings) (length self.bodies.items) self.capacities.items) }
        ensures pushed { (result ≡ Err Short.NotPushed) ↔ (self.boxed ≢ length self.bodies.items) }
        ensures reserved { OnOk result (IsCovered self.reserved (length self.bodies.items)) }
        ensures missing { IfErr result (NamesMissing self.reserved (length self.bodies.items)) }
        ensures kinds { IfErr result (λ e. (e ≢ Short.Stopped)) }
    {
        Ok(self.played(false)?.ended)
    }

    /// The same run, and its trace.
    pub fn step_traced(self) -> Result<Traced, Short>
        ensures traced { IfOk result (IsTraced (limits_of self.settings) self.capacities.items (length self.bodies.items)) }
        ensures played { IfOk result (λ t. (p : IsPlayedOut (BoxAsks (λ box body. record box { value = body }) resumed) (BoxAnswers (λ box body. record box { value = body }) blocked)
            self.settings.fair (limits_of self.settings) self.capacities.items self.bodies.items t.ended)
            × (t.history.list ≡ p.last.core.system.book.history)) }
        ensures endless { IfErr result (λ e. e ≡ Short.NoEnd
            → HasNoEnd (BoxAsks (λ box body. record box { value = body }) resumed) (BoxAnswers (λ box body. record box { value = body }) blocked)
            self.settings.fair (limits_of self.settings) self.capacities.items self.bodies.items) }
        ensures whole { OnOk result (self.settings.entries ≤ self.settings.room) }
        ensures above { IfErr result (λ e. e ≡ Short.AboveRoom → self.settings.room < self.settings.entries) }
        ensures limits { IfErr result (λ e. e ≡ Short.BadLimits
            → AreLimits (limits_of self.settings) (length self.bodies.items) self.capacities.items → ⊥) }
        ensures memory { IfErr result (λ e. e ≡ Short.OutOfMemory
            → IsWholeRun (limits_of self.settings) (length self.bodies.items) self.capacities.items) }
        ensures pushed { (result ≡ Err Short.NotPushed) ↔ (self.boxed ≢ length self.bodies.items) }
        ensures reserved { OnOk result (IsCovered self.reserved (length self.bodies.items)) }
        ensures missing { IfErr result (NamesMissing self.reserved (length self.bodies.items)) }
        ensures kinds { IfErr result (λ e. (e ≢ Short.Stopped)) }
    {
        self.played(true)
    }

    /// Runs the goroutines by a core in this thread, the machine and the word of each act drawn from the seed: the same every time. Of
    /// the machines that are awake each is as likely as another. All entries have to be kept.
    pub fn step_by(self, seed: u64) -> Result<Ended, Short>
        ensures ended { IfOk result (IsOfLegalRun (limits_of self.settings) self.capacities.items (length self.bodies.items)) }
        // Its run is as `step` says of its own, but for the machines and words.
        ensures drawn { IfOk result (IsDrawnOut (BoxAsks (λ box body. record box { value = body }) resumed) (BoxAnswers (λ box body. record box { value = body }) blocked) DealsEvenly
            (seeded seed) self.settings.fair (limits_of self.settings) self.capacities.items self.bodies.items) }
        ensures endless { IfErr result (λ e. e ≡ Short.NoEnd
            → HasNoDrawnEnd (BoxAsks (λ box body. record box { value = body }) resumed) (BoxAnswers (λ box body. record box { value = body }) blocked) DealsEvenly
            (seeded seed) self.settings.fair (limits_of self.settings) self.capacities.items self.bodies.items) }
        ensures whole { OnOk result (self.settings.entries ≤ self.settings.room) }
        ensures above { IfErr result (λ e. e ≡ Short.AboveRoom → self.settings.room < self.settings.entries) }
        ensures limits { IfErr result (λ e. e ≡ Short.BadLimits
            → AreLimits (limits_of self.settings) (length self.bodies.items) self.capacities.items → ⊥) }
        ensures memory { IfErr result (λ e. e ≡ Short.OutOfMemory
            → IsWholeRun (limits_of self.settings) (length self.bodies.items) self.capacities.items) }
        ensures pushed { (result ≡ Err Short.NotPushed) ↔ (self.boxed ≢ length self.bodies.items) }
        ensures reserved { OnOk result (IsCovered self.reserved (length self.bodies.items)) }
        ensures missing { IfErr result (NamesMissing self.reserved (length self.bodies.items)) }
        ensures kinds { IfErr result (λ e. (e ≢ Short.Stopped)) }
    {
        self.step_dealt(Even::new(seed))
    }

    /// The run of `step_by` by this seed, and its trace.
    pub fn replay(self, seed: u64) -> Result<Traced, Short>
        ensures traced { IfOk result (IsTraced (limits_of self.settings) self.capacities.items (length self.bodies.items)) }
        ensures drawn { IfOk result (λ t. (d : IsDrawnOut (BoxAsks (λ box body. record box { value = body }) resumed) (BoxAnswers (λ box body. record box { value = body }) blocked) DealsEvenly
            (seeded seed) self.settings.fair (limits_of self.settings) self.capacities.items self.bodies.items t.ended)
            × (t.history.list ≡ d.last.core.system.book.history)) }
        ensures endless { IfErr result (λ e. e ≡ Short.NoEnd
            → HasNoDrawnEnd (BoxAsks (λ box body. record box { value = body }) resumed) (BoxAnswers (λ box body. record box { value = body }) blocked) DealsEvenly
            (seeded seed) self.settings.fair (limits_of self.settings) self.capacities.items self.bodies.items) }
        ensures whole { OnOk result (self.settings.entries ≤ self.settings.room) }
        ensures above { IfErr result (λ e. e ≡ Short.AboveRoom → self.settings.room < self.settings.entries) }
        ensures limits { IfErr result (λ e. e ≡ Short.BadLimits
            → AreLimits (limits_of self.settings) (length self.bodies.items) self.capacities.items → ⊥) }
        ensures memory { IfErr result (λ e. e ≡ Short.OutOfMemory
            → IsWholeRun (limits_of self.settings) (length self.bodies.items) self.capacities.items) }
        ensures pushed { (result ≡ Err Short.NotPushed) ↔ (self.boxed ≢ length self.bodies.items) }
        ensures reserved { OnOk result (IsCovered self.reserved (length self.bodies.items)) }
        ensures missing { IfErr result (NamesMissing self.reserved (length self.bodies.items)) }
        ensures kinds { IfErr result (λ e. (e ≢ Short.Stopped)) }
    {
        self.replay_dealt(Even::new(seed))
    }

    /// The same by a dealer, which says of each act whose it is and by which word: `Ranked`, or one of your own.
    pub fn step_dealt<D: Dealer + Drop>(self, dealer: D) -> Result<Ended, Short>
        ensures ended { IfOk result (IsOfLegalRun (limits_of self.settings) self.capacities.items (length self.bodies.items)) }
        ensures drawn { IfOk result (IsDrawnOut (BoxAsks (λ box body. record box { value = body }) resumed) (BoxAnswers (λ box body. record box { value = body }) blocked) D.deals
            dealer self.settings.fair (limits_of self.settings) self.capacities.items self.bodies.items) }
        ensures endless { IfErr result (λ e. e ≡ Short.NoEnd
            → HasNoDrawnEnd (BoxAsks (λ box body. record box { value = body }) resumed) (BoxAnswers (λ box body. record box { value = body }) blocked) D.deals
            dealer self.settings.fair (limits_of self.settings) self.capacities.items self.bodies.items) }
        ensures whole { OnOk result (self.settings.entries ≤ self.settings.room) }
        ensures above { IfErr result (λ e. e ≡ Short.AboveRoom → self.settings.room < self.settings.entries) }
        ensures limits { IfErr result (λ e. e ≡ Short.BadLimits
            → AreLimits (limits_of self.settings) (length self.bodies.items) self.capacities.items → ⊥) }
        ensures memory { IfErr result (λ e. e ≡ Short.OutOfMemory
            → IsWholeRun (limits_of self.settings) (length self.bodies.items) self.capacities.items) }
        ensures pushed { (result ≡ Err Short.NotPushed) ↔ (self.boxed ≢ length self.bodies.items) }
        ensures reserved { OnOk result (IsCovered self.reserved (length self.bodies.items)) }
        ensures missing { IfErr result (NamesMissing self.reserved (length self.bodies.items)) }
        ensures kinds { IfErr result (λ e. (e ≢ Short.Stopped)) }
    {
        Ok(self.drawn(dealer, false)?.ended)
    }

    /// The run of `step_dealt` by this dealer, and its trace.
    pub fn replay_dealt<D: Dealer + Drop>(self, dealer: D) -> Result<Traced, Short>
        ensures traced { IfOk result (IsTraced (limits_of self.settings) self.capacities.items (length self.bodies.items)) }
        ensures drawn { IfOk result (λ t. (d : IsDrawnOut (BoxAsks (λ box body. record box { value = body }) resumed) (BoxAnswers (λ box body. record box { value = body }) blocked) D.deals
            dealer self.settings.fair (limits_of self.settings) self.capacities.items self.bodies.items t.ended)
            × (t.history.list ≡ d.last.core.system.book.history)) }
        ensures endless { IfErr result (λ e. e ≡ Short.NoEnd
            → HasNoDrawnEnd (BoxAsks (λ box body. record box { value = body }) resumed) (BoxAnswers (λ box body. record box { value = body }) blocked) D.deals
            dealer self.settings.fair (limits_of self.settings) self.capacities.items self.bodies.items) }
        ensures whole { OnOk result (self.settings.entries ≤ self.settings.room) }
        ensures above { IfErr result (λ e. e ≡ Short.AboveRoom → self.settings.room < self.settings.entries) }
        ensures limits { IfErr result (λ e. e ≡ Short.BadLimits
            → AreLimits (limits_of self.settings) (length self.bodies.items) self.capacities.items → ⊥) }
        ensures memory { IfErr result (λ e. e ≡ Short.OutOfMemory
            → IsWholeRun (limits_of self.settings) (length self.bodies.items) self.capacities.items) }
        ensures pushed { (result ≡ Err Short.NotPushed) ↔ (self.boxed ≢ length self.bodies.items) }
        ensures reserved { OnOk result (IsCovered self.reserved (length self.bodies.items)) }
        ensures missing { IfErr result (NamesMissing self.reserved (length self.bodies.items)) }
        ensures kinds { IfErr result (λ e. (e ≢ Short.Stopped)) }
    {
        self.drawn(dealer, true)
    }
}
