//! Bodies of scripts with three more lines: `set A`, by which flag A is set, `await A`, which waits for it, and `meet`, which waits for another
//! that meets. They are done before the ask that follows; behind `block`, in the blocking call.

use crate::row::lines;
use crate::waiting::{Seen, flag_of};
use crate::wrong::Wrong;
use gmp_base::{Ask, Body, Woke};
use gmp_script::ScriptBody;
use gmp_words::script;
use std::alloc::Global;
use std::sync::Arc;

/// A line of a body.
#[derive(Clone, Copy)]
enum Step {
    Sets(u64),
    Awaits(u64),
    Meets,
    /// What the script's body asks next.
    Asks,
}

/// A script's body, and what it does between its asks.
#[derive(Drop)]
pub struct Hooked {
    asks: ScriptBody,
    steps: Vec<Step>,
    at: usize,
    seen: Arc<Seen, Global>,
}

impl Hooked {
    /// Does what stands before the next ask.
    fn go_on(&mut self) {
        for _ in self.at..self.steps.len() {
            match self.steps.get(self.at) {
                Some(Step::Sets(flag)) => self.seen.set(*flag),
                Some(Step::Awaits(flag)) => self.seen.wait_for(*flag),
                Some(Step::Meets) => self.seen.meet(),
                Some(Step::Asks) | None => return,
            }
            self.at = self.at.saturating_add(1);
        }
    }
}

impl Body for Hooked {
    ghost resumed = { λ _ _ _ _. Unit {0} };

    ghost blocked = { λ _ _ _. Unit {0} };

    fn resume(&mut self, woke: Woke) -> Ask {
        self.go_on();
        self.at = self.at.saturating_add(1);
        self.asks.resume(woke)
    }

    fn blocking(&mut self) -> u64 {
        self.go_on();
        self.asks.blocking()
    }
}

impl Step {
    fn of(line: &str) -> Result<Self, Wrong> {
        let (word, flag) = line.split_once(' ').unwrap_or((line, ""));
        match (word, flag_of(flag)) {
            ("set", Some(flag)) => Ok(Step::Sets(flag)),
            ("await", Some(flag)) => Ok(Step::Awaits(flag)),
            ("meet", None) => Ok(Step::Meets),
            ("set" | "await" | "meet", _) => Err(Wrong::Unreadable),
            _ => Ok(Step::Asks),
        }
    }
}

/// The asks of these lines, the first of which is `body`.
fn asks_of(alloc: Global, lines: &[u8]) -> Result<ScriptBody, Wrong> {
    match script(alloc, &mut &*lines) {
        Ok(mut script) => script.bodies.pop().ok_or(Wrong::Unreadable),
        Err(_) => Err(Wrong::Unreadable),
    }
}

impl Hooked {
    /// A body whose lines are parted by `/`.
    pub fn of(alloc: Global, body: &str, seen: &Arc<Seen, Global>) -> Result<Self, Wrong> {
        let mut steps = Vec::new(alloc);
        let mut asks = String::new(alloc);
        for line in body.split('/') {
            let step = Step::of(line)?;
            if matches!(step, Step::Asks) {
                asks.push_str(line)?;
                asks.push('\n')?;
            }
            // No step stands for the first line, which asks nothing.
            if line != "body" {
                steps.push(step)?;
            }
        }
        Ok(Hooked {
            asks: asks_of(alloc, asks.as_bytes())?,
            steps,
            at: 0,
            seen: Arc::try_clone(seen)?,
        })
    }
}
