//! What comes behind the last choice of a path, so that the run shows what was found.

ghost use Rattle.gmp_explore_cli.specs.Played.{Keeps};

use crate::asking::Asking;
use crate::playing::Player;
use crate::reading::{Bounds, failing, fault_by_itself, goroutine_at, is_abandoned, meet};
use crate::unplayed::{ASTRAY, Unplayed, expect};
use gmp_base::{GNo, MNo};
use gmp_explore::{Scene, faulty};
use gmp_script::ScriptBody;
use gmp_seq::{Call, Reply};
use std::alloc::Global;

impl<'a> Player<'a> {
    /// All that can ask do so and wait. Then a machine gives its processor up, and is told that all are asleep.
    pub(crate) fn fall_asleep(
        &mut self,
        script: &'a [ScriptBody],
        scene: &Scene,
    ) -> Result<(), Unplayed>
        ensures { Keeps self.old.stage.journal self.new.stage.journal }
    {
        for g in 0..self.goroutines() {
            let g = goroutine_at(g);
            if Asking::of(script, scene, g).is_some() {
                self.gets(scene, g, Reply::Waits)?;
            }
        }
        let (m, nobody) = (MNo(0), GNo(0));
        if self.stage.holds(m) {
            let reply = self.stage.call(m, nobody, &Call::Declare, 0)?;
            expect(matches!(reply, Reply::Idle(_)))?;
        }
        let reply = self.stage.call(m, nobody, &Call::Bare, 0)?;
        expect(reply == Reply::Done)?;
        let reply = self.stage.call(m, nobody, &Call::Park, 0)?;
        expect(reply == Reply::AllAsleep)
    }

    /// The goroutine asks whose ask is a fault.
    pub(crate) fn fault(
        &mut self,
        script: &'a [ScriptBody],
        bounds: Bounds,
        scene: &Scene,
    ) -> Result<(), Unplayed>
        ensures { Keeps self.old.stage.journal self.new.stage.journal }
    {
        let Some(g) = faulty(script, bounds.channels, bounds.procs, scene) else {
            return Err(ASTRAY);
        };
        let asking = self.asking(scene, g)?;
        if let Some(fault) = fault_by_itself(scene, bounds, asking) {
            return self.gets(scene, g, Reply::Fault(fault));
        }
        let Some(case) = failing(scene, asking) else {
            return Err(ASTRAY);
        };
        self.takes(scene, g, case, None)?;
        Ok(())
    }

    /// Those ask and wait that would wait for good: each of them that none can meet of those before it.
    pub(crate) fn stay_behind(
        &mut self,
        alloc: Global,
        script: &'a [ScriptBody],
        scene: &Scene,
    ) -> Result<(), Unplayed>
        ensures { Keeps self.old.stage.journal self.new.stage.journal }
    {
        let mut waiting: Vec<Asking<'a>> = Vec::new(alloc);
        for g in 0..self.goroutines() {
            let g = goroutine_at(g);
            let Some(asking) = Asking::of(script, scene, g) else {
                continue;
            };
            if is_abandoned(scene, asking) && !waiting.iter().any(|other| meet(asking, *other)) {
                self.gets(scene, g, Reply::Waits)?;
                if waiting.push(asking).is_err() {
                    return Err(Unplayed::OutOfMemory);
                }
            }
        }
        Ok(())
    }
}
