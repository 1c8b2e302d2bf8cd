//! What was found, in words: the path that leads to it, a choice a line, and what stands at its end.

ghost use Rattle.std.specs.Prelude.{◌≤◌, length};

use crate::asking::Asking;
use crate::lines::Lines;
use crate::reading::{Bounds, fault_next, goroutine_at, is_abandoned, is_on};
use crate::turns::{Choice, Turn};
use gmp_base::GNo;
use gmp_explore::{Badness, Channel, Scene, Size, faulty};
use gmp_scene::Move;
use gmp_script::{Script, ScriptBody};
use std::alloc::{AllocError, Global};
use std::fmt;

/// What a goroutine does at the end, in words, and what it asks.
#[derive(Clone, Copy)]
struct Ending<'a>(GNo, &'static str, Asking<'a>);

impl fmt::Display for Ending<'_> {
    fn fmt<W: fmt::Write>(&self, f: &mut fmt::Formatter<W>) -> fmt::Result {
        let Ending(g, does, asking) = self;
        write!(f, "goroutine {} {does}: {asking}", g.0)
    }
}

/// What a goroutine that asks something does at such an end, where it waits for good or does not. None where that is not told.
fn does_at(badness: Badness, waits: bool) -> Option<&'static str> {
    match badness {
        Badness::Deadlock => Some("waits"),
        Badness::Leak if waits => Some("is left, and waits"),
        Badness::Stranded if waits => Some("waits"),
        Badness::Stranded => Some("goes on"),
        Badness::Fault | Badness::Leak => None,
    }
}

/// How a channel stands at the end.
#[derive(Clone, Copy)]
struct Standing<'a>(usize, &'a Channel);

impl fmt::Display for Standing<'_> {
    fn fmt<W: fmt::Write>(&self, f: &mut fmt::Formatter<W>) -> fmt::Result {
        let Standing(c, channel) = self;
        let is = if channel.is_closed() {
            "closed"
        } else {
            "open"
        };
        let (room, holds) = (channel.capacity(), channel.items().len());
        write!(f, "channel {c}: {is}, room {room}, holds {holds}")
    }
}

/// What was found, after how many choices, and how much was looked at.
#[derive(Clone, Copy)]
struct Heading(Badness, usize, Size);

impl fmt::Display for Heading {
    fn fmt<W: fmt::Write>(&self, f: &mut fmt::Formatter<W>) -> fmt::Result {
        let Heading(badness, choices, size) = self;
        let what = match badness {
            Badness::Deadlock => "deadlock",
            Badness::Fault => "fault",
            Badness::Leak => "leak",
            Badness::Stranded => "main can't end",
        };
        let (states, steps) = (size.states, size.steps);
        write!(
            f,
            "{what} after {choices} steps: {states} states, {steps} steps"
        )
    }
}

/// Tells a path, scene by scene.
#[derive(Drop)]
struct Teller<'a> {
    script: &'a [ScriptBody],
    bounds: Bounds,
    lines: Lines,
}

impl<'a> Teller<'a> {
    /// The choice that leads out of the scene.
    fn put_choice(&mut self, scene: &Scene, number: usize, what: Move) -> Result<(), AllocError> {
        match Choice::of(self.script, self.bounds, scene, number, what) {
            Some(choice) => self.lines.put(&choice),
            None => Ok(()),
        }
    }

    /// What each goroutine of the scene does that asks something, as far as that is told of such an end.
    fn put_goroutines(&mut self, scene: &Scene, badness: Badness) -> Result<(), AllocError> {
        for g in 0..self.script.len() {
            let g = goroutine_at(g);
            if let Some(asking) = Asking::of(self.script, scene, g) {
                if let Some(does) = does_at(badness, is_abandoned(scene, asking)) {
                    self.lines.put(&Ending(g, does, asking))?;
                }
            }
        }
        Ok(())
    }

    /// Whether a goroutine of the scene asks something of this channel.
    fn is_asked(&self, scene: &Scene, c: usize) -> bool {
        for g in 0..self.script.len() {
            if let Some(asking) = Asking::of(self.script, scene, goroutine_at(g)) {
                if is_on(asking, c) {
                    return true;
                }
            }
        }
        false
    }

    /// Each channel that holds values, or that somebody waits on where that is asked for.
    fn put_channels(&mut self, scene: &Scene, is_left: bool) -> Result<(), AllocError> {
        for (c, channel) in scene.channels().iter().enumerate() {
            if !channel.items().is_empty() || !is_left && self.is_asked(scene, c) {
                self.lines.put(&Standing(c, channel))?;
            }
        }
        Ok(())
    }

    /// The ask that is told a fault in the scene.
    fn put_fault(&mut self, scene: &Scene) -> Result<(), AllocError> {
        let Bounds { channels, procs } = self.bounds;
        let Some(g) = faulty(self.script, channels, procs, scene) else {
            return Ok(());
        };
        match Asking::of(self.script, scene, g) {
            Some(asking) => {
                let fault = fault_next(scene, self.bounds, asking);
                self.lines.put(&Turn::plain(g, asking, fault))
            }
            None => Ok(()),
        }
    }

    /// The choices of the path, from scene to scene.
    fn put_path(&mut self, scene: &mut Scene, path: &[Move]) -> Result<(), AllocError> {
        for (i, what) in path.iter().enumerate() {
            self.put_choice(scene, i.wrapping_add(1), *what)?;
            scene.make(self.script, self.bounds.channels, *what)?;
        }
        Ok(())
    }

    /// What stands at the end of the path.
    fn put_end(&mut self, scene: &Scene, badness: Badness) -> Result<(), AllocError> {
        match badness {
            Badness::Fault => self.put_fault(scene),
            Badness::Deadlock | Badness::Leak | Badness::Stranded => {
                self.put_goroutines(scene, badness)?;
                self.put_channels(scene, badness == Badness::Leak)
            }
        }
    }
}

/// The choices that lead to what was found, and what stands behind them.
pub(crate) fn told(
    alloc: Global,
    script: &Script,
    bounds: Bounds,
    badness: Badness,
    path: &[Move],
    size: Size,
) -> Result<String, AllocError>
    requires { length script.now.bodies.items ≤ 65536 }
{
    let bodies = script.bodies.as_slice();
    let mut scene = Scene::opening(alloc, bodies, &script.capacities)?;
    let mut teller = Teller {
        script: bodies,
        bounds,
        lines: Lines::new(alloc),
    };
    teller.lines.put(&Heading(badness, path.len(), size))?;
    teller.put_path(&mut scene, path)?;
    teller.put_end(&scene, badness)?;
    Ok(teller.lines.text())
}
