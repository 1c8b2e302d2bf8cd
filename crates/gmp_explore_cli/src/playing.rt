//! A run of the scheduler that follows choices: `Player` has each goroutine ask when its choice comes, and not before, so nobody waits
//! between two choices. A goroutine that is between two asks keeps its machine.

ghost use Rattle.std.specs.Prelude.{IfOk, OnOk, length};
ghost use Rattle.gmp_seq.specs.Fits.{AreLimits};
ghost use Rattle.gmp_explore_cli.specs.Played.{IsOpened, Keeps};

use crate::asking::Asking;
use crate::reading::{Bounds, fault_by_itself, fault_of_case, rests, word_for};
use crate::stage::Stage;
use crate::unplayed::{ASTRAY, Unplayed, expect};
use gmp_base::{GNo, MNo, Readiness};
use gmp_explore::Scene;
use gmp_scene::Move;
use gmp_script::{Command, ScriptBody};
use gmp_seq::{Call, Limits, Reply};
use gmp_words::Untraced;
use std::alloc::Global;

/// What a goroutine does.
#[derive(Clone, Copy, PartialEq, Eq)]
enum Does {
    /// It was not started, waits, or has ended.
    Nothing,
    /// This ticket of it is given out.
    Ready(Readiness),
    /// This machine runs it.
    Runs(MNo),
}

/// A run with its goroutines.
#[derive(Drop)]
pub(crate) struct Player<'a> {
    pub(crate) stage: Stage,
    script: &'a [ScriptBody],
    does: Vec<Does>,
}

impl<'a> Player<'a> {
    /// A run that has made no call.
    pub(crate) fn open(
        alloc: Global,
        limits: Limits,
        script: &'a [ScriptBody],
        capacities: &[u32],
    ) -> Result<Self, Unplayed>
        ensures opened { IfOk result (λ p. IsOpened limits (length script.now) capacities.now p.stage.journal) }
        ensures within { OnOk result (AreLimits limits (length script.now) capacities.now) }
    {
        let does = vec![in alloc; Does::Nothing; script.len()]?;
        let stage = Stage::open(alloc, limits, script.len(), capacities)?;
        Ok(Player {
            stage,
            script,
            does,
        })
    }

    /// Each of so many machines takes a processor, and the first one the ticket of main.
    pub(crate) fn begin(&mut self, machines: u8) -> Result<(), Unplayed>
        ensures { Keeps self.old.stage.journal self.new.stage.journal }
    {
        for m in 0..machines {
            expect(self.acquires(MNo(m))?)?;
        }
        self.take(MNo(0))
    }

    /// What the goroutine asks next in the scene.
    pub(crate) fn asking(&self, scene: &Scene, g: GNo) -> Result<Asking<'a>, Unplayed> {
        Asking::of(self.script, scene, g).ok_or(ASTRAY)
    }

    /// The goroutines.
    pub(crate) fn goroutines(&self) -> usize {
        self.does.len()
    }

    /// What the goroutine does from now on.
    fn set(&mut self, g: GNo, does: Does)
        ensures { Keeps self.old.stage.journal self.new.stage.journal }
    {
        if let Some(place) = self.does.get_mut(usize::from(g.0)) {
            *place = does;
        }
    }

    /// Whether the machine holds a processor now, be it one that it takes.
    fn acquires(&mut self, m: MNo) -> Result<bool, Unplayed>
        ensures { Keeps self.old.stage.journal self.new.stage.journal }
    {
        if self.stage.holds(m) {
            return Ok(true);
        }
        let reply = self.stage.call(m, GNo(0), &Call::Acquire, 0)?;
        Ok(matches!(reply, Reply::Proc(_)))
    }

    /// The machine takes the ticket that is on the shelf.
    fn take(&mut self, m: MNo) -> Result<(), Unplayed>
        ensures { Keeps self.old.stage.journal self.new.stage.journal }
    {
        match self.stage.call(m, GNo(0), &Call::Take, 0)? {
            Reply::Ticket(r) => {
                self.set(r.g, Does::Ready(r));
                Ok(())
            }
            _ => Err(ASTRAY),
        }
    }

    /// A machine that runs nobody: that of the goroutine's own number, or else the first one, of those that hold a processor where one does.
    fn free(&self, g: GNo) -> Option<MNo> {
        let machines = self.stage.machines();
        let own = u8::try_from(g.0).unwrap_or(machines).min(machines);
        let mut spare = None;
        for m in (own..machines).chain(0..own) {
            let m = MNo(m);
            if !self.does.contains(&Does::Runs(m)) {
                if self.stage.holds(m) {
                    return Some(m);
                }
                spare = Some(m);
            }
        }
        spare
    }

    /// A machine that runs nobody and holds a processor.
    fn ready(&mut self, g: GNo) -> Result<MNo, Unplayed>
        ensures { Keeps self.old.stage.journal self.new.stage.journal }
    {
        let crowded = Unplayed::Untraced(Untraced::Crowded(self.stage.machines()));
        let m = self.free(g).ok_or(crowded)?;
        if self.acquires(m)? {
            Ok(m)
        } else {
            Err(crowded)
        }
    }

    /// The machine that runs the goroutine, which claims its ticket where that is given out.
    fn run(&mut self, g: GNo) -> Result<MNo, Unplayed>
        ensures { Keeps self.old.stage.journal self.new.stage.journal }
    {
        match self.does.get(usize::from(g.0)).copied() {
            Some(Does::Runs(m)) => Ok(m),
            Some(Does::Ready(r)) => {
                let m = self.ready(g)?;
                let reply = self.stage.call(m, g, &Call::Claim(r), 0)?;
                expect(reply == Reply::Held)?;
                self.set(g, Does::Runs(m));
                Ok(m)
            }
            Some(Does::Nothing) | None => Err(ASTRAY),
        }
    }

    /// The machine that runs the goroutine makes this call for it. A ticket that is given out is kept, and one on the shelf is taken.
    fn call(&mut self, m: MNo, g: GNo, call: &Call, word: u64) -> Result<Reply, Unplayed>
        ensures { Keeps self.old.stage.journal self.new.stage.journal }
    {
        let reply = self.stage.call(m, g, call, word)?;
        match reply {
            Reply::Waits | Reply::Dead | Reply::MainEnded => self.set(g, Does::Nothing),
            Reply::Shelved(_) => self.take(m)?,
            _ => {
                if let Some(r) = reply.ticket() {
                    self.set(r.g, Does::Ready(r));
                }
            }
        }
        Ok(reply)
    }

    /// The goroutine makes its next ask in the scene, and comes back from it where it is a blocking call: by which machine, and the reply.
    fn ask(&mut self, scene: &Scene, g: GNo, word: u64) -> Result<(MNo, Reply), Unplayed>
        ensures { Keeps self.old.stage.journal self.new.stage.journal }
    {
        let asking = self.asking(scene, g)?;
        let m = self.run(g)?;
        let reply = self.call(m, g, &asking.call(), word)?;
        if let Some(Command::Block(number)) = asking.command() {
            let reply = self.call(m, g, &Call::Leave(*number), 0)?;
            expect(matches!(reply, Reply::Runs(_) | Reply::Shelved(_)))?;
        }
        Ok((m, reply))
    }

    /// The goroutine asks, and is answered that.
    pub(crate) fn gets(&mut self, scene: &Scene, g: GNo, want: Reply) -> Result<(), Unplayed>
        ensures { Keeps self.old.stage.journal self.new.stage.journal }
    {
        let (_, reply) = self.ask(scene, g, 0)?;
        expect(reply == want)
    }

    /// The goroutine asks and waits, until the clock shows its deadline.
    fn outwaits(&mut self, scene: &Scene, g: GNo) -> Result<(), Unplayed>
        ensures { Keeps self.old.stage.journal self.new.stage.journal }
    {
        let Some(until) = self.asking(scene, g)?.deadline() else {
            return Err(ASTRAY);
        };
        let (m, reply) = self.ask(scene, g, 0)?;
        expect(reply == Reply::Waits)?;
        let woke = self.stage.call(m, g, &Call::Tick(until), 0)?;
        expect(woke == Reply::Woke(1))?;
        self.take(m)
    }

    /// The goroutine's ask has its effect by itself, or is a fault.
    fn alone(&mut self, scene: &Scene, bounds: Bounds, g: GNo) -> Result<(), Unplayed>
        ensures { Keeps self.old.stage.journal self.new.stage.journal }
    {
        let asking = self.asking(scene, g)?;
        if let Some(fault) = fault_by_itself(scene, bounds, asking) {
            return self.gets(scene, g, Reply::Fault(fault));
        }
        if asking.deadline().is_some() {
            return self.outwaits(scene, g);
        }
        let (_, reply) = self.ask(scene, g, 0)?;
        expect(!matches!(reply, Reply::Waits | Reply::Fault(_)))
    }

    /// This case of the goroutine's ask proceeds, by itself or with one who waits.
    pub(crate) fn takes(
        &mut self,
        scene: &Scene,
        g: GNo,
        case: usize,
        waiting: Option<Asking>,
    ) -> Result<Reply, Unplayed>
        ensures { Keeps self.old.stage.journal self.new.stage.journal }
    {
        let asking = self.asking(scene, g)?;
        let word = word_for(scene, asking, case, waiting);
        let (_, reply) = self.ask(scene, g, word)?;
        let is_so = match reply {
            Reply::Sent(_) | Reply::Got(_, _, _) => true,
            Reply::Chose(i, _) => usize::from(i) == case,
            Reply::Fault(fault) => fault_of_case(scene, asking, case) == Some(fault),
            _ => false,
        };
        expect(is_so)?;
        Ok(reply)
    }

    /// No case of the goroutine's select can proceed: it takes its default, or waits until its deadline.
    fn passes(&mut self, scene: &Scene, g: GNo) -> Result<(), Unplayed>
        ensures { Keeps self.old.stage.journal self.new.stage.journal }
    {
        if self.asking(scene, g)?.has_default() {
            self.gets(scene, g, Reply::Default)
        } else {
            self.outwaits(scene, g)
        }
    }

    /// The first asks and waits, and then the second takes this case of its own, by which the first is ready.
    fn meets(&mut self, scene: &Scene, first: GNo, second: GNo, case: u8) -> Result<(), Unplayed>
        ensures { Keeps self.old.stage.journal self.new.stage.journal }
    {
        let waiting = self.asking(scene, first)?;
        self.gets(scene, first, Reply::Waits)?;
        let reply = self.takes(scene, second, usize::from(case), Some(waiting))?;
        expect(reply.ticket().is_some_and(|r| r.g == first))
    }

    /// The first parks, and the second readies it.
    fn rouses(&mut self, scene: &Scene, first: GNo, second: GNo) -> Result<(), Unplayed>
        ensures { Keeps self.old.stage.journal self.new.stage.journal }
    {
        self.gets(scene, first, Reply::Waits)?;
        let (_, reply) = self.ask(scene, second, 0)?;
        expect(reply.ticket().is_some_and(|r| r.g == first))
    }

    /// Makes a step of the scene.
    pub(crate) fn follow(
        &mut self,
        scene: &Scene,
        bounds: Bounds,
        what: Move,
    ) -> Result<(), Unplayed>
        ensures { Keeps self.old.stage.journal self.new.stage.journal }
    {
        match what {
            Move::Alone(g) => self.alone(scene, bounds, g),
            Move::Takes(g, i) => {
                let reply = self.takes(scene, g, usize::from(i), None)?;
                expect(reply.ticket().is_none())
            }
            Move::Passes(g) => self.passes(scene, g),
            Move::Meets(g, i, h, j) => {
                // Where both would wait, the receiver comes first.
                if rests(scene, self.asking(scene, h)?) {
                    self.meets(scene, h, g, i)
                } else {
                    self.meets(scene, g, h, j)
                }
            }
            Move::Rouses(g, h) => self.rouses(scene, h, g),
        }
    }
}
