//! Bodies that wait for one another in threads, under gates that bring about who comes first: a row is a scene. How long anything takes makes
//! no difference.

mod hooked;
mod stage;

use crate::boxing::boxed;
use crate::row::{first_line, number, unless_none};
use crate::waiting::Seen;
use crate::wrong::{Wrong, held};
use gmp_history::audit;
use gmp_run::{Report, run};
use gmp_seq::{Limits, Outcome};
use gmp_worker::Boxed;
use hooked::Hooked;
use stage::{Stage, Way, rules_of};
use std::alloc::Global;
use std::sync::{Arc, Wait};
use std::thread::Threads;
use std::time::Clock;

/// A scene, line by line: what it is about; processors and machines; by which clocks it is played; what the gate does; the capacities of its
/// channels; how many entries there are, from which number to which; whose each entry is, a digit for each. Then its bodies, each with how
/// many goroutines it is of; its lines are parted by `/`. Where a line is `-` there is none.
#[derive(Clone, Copy)]
struct Scene<'a> {
    procs: u8,
    machines: u8,
    ways: &'a str,
    rules: &'a str,
    capacities: &'a str,
    entries: (usize, usize),
    order: &'a str,
    bodies: &'a str,
}

/// What is before the first space, and what is behind it.
fn pair(line: &str) -> Option<(&str, &str)> {
    line.split_once(' ')
}

impl<'a> Scene<'a> {
    fn read(row: &'a str) -> Option<Self> {
        let (_about, rest) = first_line(row);
        let (size, rest) = first_line(rest);
        let (ways, rest) = first_line(rest);
        let (rules, rest) = first_line(rest);
        let (capacities, rest) = first_line(rest);
        let (entries, rest) = first_line(rest);
        let (order, bodies) = first_line(rest);
        let (procs, machines) = pair(size)?;
        let (least, most) = pair(entries)?;
        Some(Scene {
            procs: procs.parse().ok()?,
            machines: machines.parse().ok()?,
            ways,
            rules: unless_none(rules),
            capacities: unless_none(capacities),
            entries: (least.parse().ok()?, most.parse().ok()?),
            order: unless_none(order),
            bodies,
        })
    }

    fn limits(&self) -> Limits {
        Limits {
            procs: self.procs,
            machines: self.machines,
            channels: 2,
            entries: 100_000,
            room: 100_000,
        }
    }

    /// Its bodies, each as often as it says.
    fn hooked(&self, alloc: Global, seen: &Arc<Seen, Global>) -> Result<Vec<Hooked>, Wrong> {
        let mut bodies = Vec::new(alloc);
        for line in self.bodies.lines() {
            let Some((count, body)) = pair(line) else {
                return Err(Wrong::Unreadable);
            };
            for _ in 0..number(count)? {
                bodies.push(Hooked::of(alloc, body, seen)?)?;
            }
        }
        Ok(bodies)
    }

    /// Plays it by this clock, and judges it.
    fn is_played<R: Threads + Wait + Clock + Sync>(
        &self,
        rt: &R,
        alloc: Global,
        way: Way,
    ) -> Result<(), Wrong> {
        let seen = Arc::new(alloc, Seen::nothing())?;
        let bodies = boxed!(alloc, self.hooked(alloc, &seen)?);
        let count = bodies.len();
        let capacities = capacities_of(alloc, self.capacities)?;
        let stage = Stage::new(rt, way, rules_of(alloc, self.rules)?, &seen);
        let limits = self.limits();
        let ran = run(rt, alloc, 0, limits, &capacities, bodies, &stage, &stage, 0);
        let Ok(report) = ran else {
            return Err(Wrong::NotBegun);
        };
        held(report.bodies.len() == count, Wrong::BodyLost)?;
        held(!seen.is_late(), Wrong::Late)?;
        self.is_right(&report)
    }

    /// All machines were started and main ended, the logs agree with the entries, and there are as many of them as there may be.
    fn is_right(&self, report: &Report<Boxed>) -> Result<(), Wrong> {
        held(
            report.started == self.machines,
            Wrong::Number("machines that were started", u64::from(report.started)),
        )?;
        held(report.outcome == Some(Outcome::MainEnded), Wrong::OtherEnd)?;
        held(
            audit(&report.history, &report.logs).is_ok(),
            Wrong::OtherLog,
        )?;
        let count = report.history.len();
        let (least, most) = self.entries;
        held(
            least <= count && count <= most,
            Wrong::Number("entries", count as u64),
        )?;
        self.is_ordered(report)
    }

    /// Each entry is the machine's that the scene says, if it says that.
    fn is_ordered(&self, report: &Report<Boxed>) -> Result<(), Wrong> {
        for (at, digit) in self.order.bytes().enumerate() {
            let m = report.history.get(at).map(|entry| entry.m.0);
            held(
                m == Some(digit.wrapping_sub(b'0')),
                Wrong::Number("whose entry", at as u64),
            )?;
        }
        Ok(())
    }
}

fn capacities_of(alloc: Global, words: &str) -> Result<Vec<u32>, Wrong> {
    let mut capacities = Vec::new(alloc);
    for word in words.split_whitespace() {
        capacities.push(u32::from(number(word)?))?;
    }
    Ok(capacities)
}

/// Plays the scene by each of its clocks.
pub fn tried<R: Threads + Wait + Clock + Sync>(
    rt: &R,
    alloc: Global,
    row: &str,
) -> Result<(), Wrong> {
    let Some(scene) = Scene::read(row) else {
        return Err(Wrong::Unreadable);
    };
    for word in scene.ways.split(' ') {
        let Some(way) = Way::of(word) else {
            return Err(Wrong::Unreadable);
        };
        scene.is_played(rt, alloc, way)?;
    }
    Ok(())
}
