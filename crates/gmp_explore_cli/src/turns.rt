//! Turns of goroutines in words: `Turn` is an ask with what came of it, `Choice` a step of the path.

use crate::asking::Asking;
use crate::reading::{Bounds, fault_by_itself, fault_of_case};
use gmp_base::{Fault, GNo};
use gmp_explore::Scene;
use gmp_scene::Move;
use gmp_script::ScriptBody;
use std::fmt;

/// What is told of an ask besides itself.
#[derive(Clone, Copy)]
enum Chosen {
    /// There is no choice.
    Plainly,
    /// This case of a select proceeds.
    Case(u8),
    /// The default of a select.
    Default,
    /// The deadline of a select.
    Late,
    /// It is told this fault.
    Fault(Fault),
}

impl fmt::Display for Chosen {
    fn fmt<W: fmt::Write>(&self, f: &mut fmt::Formatter<W>) -> fmt::Result {
        match self {
            Chosen::Plainly => Ok(()),
            Chosen::Case(i) => write!(f, " -> case {i}"),
            Chosen::Default => f.write_str(" -> default"),
            Chosen::Late => f.write_str(" -> late"),
            Chosen::Fault(fault) => write!(f, " -> fault: {fault}"),
        }
    }
}

/// A goroutine's ask, with what was chosen.
#[derive(Clone, Copy)]
pub(crate) struct Turn<'a> {
    g: GNo,
    asking: Asking<'a>,
    chosen: Chosen,
}

impl fmt::Display for Turn<'_> {
    fn fmt<W: fmt::Write>(&self, f: &mut fmt::Formatter<W>) -> fmt::Result {
        write!(f, "goroutine {}: {}{}", self.g.0, self.asking, self.chosen)
    }
}

impl<'a> Turn<'a> {
    /// What was chosen is this fault, if there is one, or else that.
    fn of(g: GNo, asking: Asking<'a>, fault: Option<Fault>, chosen: Chosen) -> Self {
        let chosen = match fault {
            Some(fault) => Chosen::Fault(fault),
            None => chosen,
        };
        Turn { g, asking, chosen }
    }

    /// There is no choice, and no fault but this.
    pub(crate) fn plain(g: GNo, asking: Asking<'a>, fault: Option<Fault>) -> Self {
        Turn::of(g, asking, fault, Chosen::Plainly)
    }

    /// This case of the ask proceeds.
    fn by_case(scene: &Scene, g: GNo, asking: Asking<'a>, i: u8) -> Self {
        let chosen = if asking.is_select() {
            Chosen::Case(i)
        } else {
            Chosen::Plainly
        };
        let fault = fault_of_case(scene, asking, usize::from(i));
        Turn::of(g, asking, fault, chosen)
    }

    /// No case of the ask proceeds.
    fn passing(g: GNo, asking: Asking<'a>) -> Self {
        let chosen = if asking.has_default() {
            Chosen::Default
        } else {
            Chosen::Late
        };
        Turn::of(g, asking, None, chosen)
    }
}

/// A step of a path: its number, a turn, and that of the partner.
#[derive(Clone, Copy)]
pub(crate) struct Choice<'a>(usize, Turn<'a>, Option<Turn<'a>>);

impl fmt::Display for Choice<'_> {
    fn fmt<W: fmt::Write>(&self, f: &mut fmt::Formatter<W>) -> fmt::Result {
        let Choice(number, turn, partner) = self;
        write!(f, "{number} {turn}")?;
        match partner {
            Some(partner) => write!(f, ", with {partner}"),
            None => Ok(()),
        }
    }
}

impl<'a> Choice<'a> {
    /// The step in this scene, which has this number; none where a goroutine of it asks nothing.
    pub(crate) fn of(
        script: &'a [ScriptBody],
        bounds: Bounds,
        scene: &Scene,
        number: usize,
        what: Move,
    ) -> Option<Self> {
        let asking = |g: GNo| Asking::of(script, scene, g);
        Some(match what {
            Move::Alone(g) => {
                let asking = asking(g)?;
                let fault = fault_by_itself(scene, bounds, asking);
                Choice(number, Turn::plain(g, asking, fault), None)
            }
            Move::Takes(g, i) => Choice(number, Turn::by_case(scene, g, asking(g)?, i), None),
            Move::Passes(g) => Choice(number, Turn::passing(g, asking(g)?), None),
            Move::Meets(g, i, h, j) => Choice(
                number,
                Turn::by_case(scene, g, asking(g)?, i),
                Some(Turn::by_case(scene, h, asking(h)?, j)),
            ),
            Move::Rouses(g, h) => Choice(
                number,
                Turn::plain(g, asking(g)?, None),
                Some(Turn::plain(h, asking(h)?, None)),
            ),
        })
    }
}
