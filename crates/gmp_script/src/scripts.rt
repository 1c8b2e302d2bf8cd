//! A script, which its lines make one by one: whoever has them hands them in, in order, and is told of each whether it is bad.

ghost use Rattle.std.specs.Prelude.{◌≡◌, ◌++◌, ◌∷◌, [], ℕ, List, true, false, IfOk, IfErr};
ghost use Rattle.gmp_script.specs.Lines.{IsScript};
ghost use Rattle.gmp_script.specs.Script.{Commands};

use crate::commands::ScriptBody;
use crate::lines::{Line, line_of};
use std::alloc::{AllocError, Global};

/// A script.
#[derive(Debug, Drop)]
pub struct Script {
    /// The capacities of its opening channels, from channel 0.
    pub capacities: Vec<u32>,
    /// The clock's readings in nanoseconds, in order.
    pub readings: Vec<u64>,
    /// Its bodies, from that of goroutine 0.
    pub bodies: Vec<ScriptBody>,
}

impl Script {
    /// The script of no lines.
    pub fn new(alloc: Global) -> Self
        ensures capacities { result.capacities.items ≡ [] }
        ensures readings { result.readings.items ≡ [] }
        ensures bodies { result.bodies.items ≡ [] }
    {
        Script {
            capacities: Vec::new(alloc),
            readings: Vec::new(alloc),
            bodies: Vec::new(alloc),
        }
    }

    /// Adds what the next line says, without its line feed, or answers false where the line is bad: where it says nothing that is known, a
    /// channel or the clock comes after a body has begun, a command before one has, or `again` first in a body.
    ///
    /// By a bad line, and where memory ends, the script stays as it was.
    pub fn add(&mut self, alloc: Global, line: &[u8]) -> Result<bool, AllocError>
        ensures good { IfOk result (λ good. good ≡ true → (before : List (List ℕ))
            → IsScript before self.old.capacities.items self.old.readings.items self.old.bodies.items
            → IsScript (before ++ line.now ∷ []) self.new.capacities.items self.new.readings.items self.new.bodies.items) }
        ensures bad { IfOk result (λ good. good ≡ false → (before : List (List ℕ))
            → IsScript before self.old.capacities.items self.old.readings.items self.old.bodies.items
            → (cs rs : List ℕ) (b : List Commands) → ¬ (IsScript (before ++ line.now ∷ []) cs rs b)) }
        ensures passed_over { IfOk result (λ good. good ≡ false → (self.new.capacities.items ≡ self.old.capacities.items) × (self.new.readings.items ≡ self.old.readings.items) × (self.new.bodies.items ≡ self.old.bodies.items)) }
        ensures kept { IfErr result (λ e. (self.new.capacities.items ≡ self.old.capacities.items) × (self.new.readings.items ≡ self.old.readings.items) × (self.new.bodies.items ≡ self.old.bodies.items)) }
    {
        match line_of(alloc, line)? {
            None => Ok(false),
            Some(Line::Nothing) => Ok(true),
            Some(Line::Body) => {
                self.bodies.push(ScriptBody::new(alloc))?;
                Ok(true)
            }
            Some(Line::Channel(capacity)) => {
                if !self.bodies.is_empty() {
                    return Ok(false);
                }
                self.capacities.push(capacity)?;
                Ok(true)
            }
            Some(Line::Clock(readings)) => {
                if !self.bodies.is_empty() {
                    return Ok(false);
                }
                self.readings.extend_from_slice(readings.as_slice())?;
                Ok(true)
            }
            Some(Line::Command(command)) => {
                let Some(body) = self.bodies.last_mut() else {
                    return Ok(false);
                };
                if !body.accepts(&command) {
                    return Ok(false);
                }
                body.push(command)?;
                Ok(true)
            }
        }
    }
}
