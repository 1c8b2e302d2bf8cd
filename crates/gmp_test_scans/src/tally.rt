//! How often what came of an ask: printed at the end, so that what was drawn is seen to reach everything.

use crate::pair::Came;
use std::fmt;

/// How often what came of an ask.
#[derive(Default, Drop)]
pub struct Tally {
    proceeded: u32,
    served: u32,
    waited: u32,
    left: u32,
    closed: u32,
    woken: u32,
}

impl Tally {
    pub fn add(&mut self, came: Came) {
        match came {
            Came::Proceeded(false) => self.proceeded = self.proceeded.wrapping_add(1),
            Came::Proceeded(true) => self.served = self.served.wrapping_add(1),
            Came::Waits => self.waited = self.waited.wrapping_add(1),
            Came::Left => self.left = self.left.wrapping_add(1),
            Came::Closed(woken) => {
                self.closed = self.closed.wrapping_add(1);
                self.woken = self.woken.wrapping_add(woken);
            }
        }
    }
}

impl fmt::Display for Tally {
    fn fmt<W: fmt::Write>(&self, f: &mut fmt::Formatter<W>) -> fmt::Result {
        let Tally {
            proceeded,
            served,
            waited,
            left,
            closed,
            woken,
        } = self;
        write!(
            f,
            "{proceeded} proceeded, {served} served one that waited, {waited} waited, {left} ended a wait, {closed} closed, which woke {woken}"
        )
    }
}
