//! A history beside a script.
ghost use Rattle.std.specs.Prelude.{◌≡◌, ◌↔◌, IfErr, IfOk, IsTrue, OnOk, length};
ghost use Rattle.gmp_check.specs.Replayed.{IsOpenError};
ghost use Rattle.gmp_scene.specs.Reached.{IsRunOf};
ghost use Rattle.gmp_scene.specs.Scripted.{Speakers};
ghost use Rattle.gmp_seq.specs.Fits.{AreLimits};
ghost use Rattle.gmp_seq.specs.State.{State};

use crate::bodies::Bodies;
use gmp_check::{OpenError, Replay};
use gmp_history::History;
use gmp_script::ScriptBody;
use gmp_seq::Limits;
use std::alloc::Global;

/// Whether the history is a legal run, from its opening on, in which each goroutine asks what its body says, in order and by what it is told,
/// and each blocking call brings what its body says.
///
/// Beside a `Replay` it takes memory for the bodies' places, and none for the entries. An entry takes time at most in proportion to the
/// goroutines, machines and processors. Memory is wanted at the opening and by a make.
pub fn follows(
    alloc: Global,
    limits: Limits,
    script: &[ScriptBody],
    capacities: &[u32],
    entries: &History,
) -> Result<bool, OpenError>
    ensures exact { IfOk result (λ b. IsTrue b ↔ ((s : State) × (after : Speakers) × IsRunOf limits capacities.now script.now entries.now.list s after)) }
    ensures within { OnOk result (AreLimits limits (length script.now) capacities.now) }
    ensures why { IfErr result (IsOpenError limits (length script.now) capacities.now) }
{
    if !limits.allow(script.len(), capacities) {
        return Err(OpenError::BadLimits);
    }
    let mut replay = Replay::open(alloc, limits, script.len() as u16, capacities)?;
    let mut bodies = Bodies::of(alloc, script)?;
    for entry in entries.iter() {
        if !bodies.lead(&replay, entry.m, &entry.call, entry.reply) {
            return Ok(false);
        }
        match replay.step(&entry) {
            Ok(true) => {}
            Ok(false) => return Ok(false),
            Err(_) => return Err(OpenError::OutOfMemory),
        }
    }
    Ok(true)
}
