//! The bodies of a script as the entries so far left them: `Speaker` is one, with what it is told next, `Bodies` the list by goroutine.
ghost use Rattle.std.specs.Prelude.{◌≡◌, IfNone, IfOk, IfSome, map};
ghost use Rattle.gmp_base.specs.declared.number.GNo.{GNo};
ghost use Rattle.gmp_check.specs.Decides.{Decides};
ghost use Rattle.gmp_follow.specs.Follows.{AsksCall, BringsNumber};
ghost use Rattle.gmp_said.specs.Said.{AsksFor, Brings, TakesUp, unheard};
ghost use Rattle.gmp_scene.specs.Scripted.{LeadsBodies};
ghost use Rattle.gmp_script.specs.Script.{AsksTold, BringsLast};
ghost use Rattle.gmp_seq.specs.Table.{IsCalling, IsRunning, stored_at};

use crate::calls::{Part, is_next, part_of};
use gmp_base::{GNo, MNo, Readiness, Woke};
use gmp_check::Replay;
use gmp_script::{Reader, ScriptBody};
use gmp_seq::{Call, Reply};
use std::alloc::{AllocError, Global};
use std::marker::Model;

/// A body, and what it is told when it is resumed next.
#[derive(Drop)]
struct Speaker<'a> {
    body: Reader<'a>,
    woke: Woke,
}

impl<'a> Model for Speaker<'a> {
    ghost use Rattle.gmp_said.specs.Said.{Speaker as SpeakerValue};
    ghost use Rattle.gmp_script.specs.Read.{body_of};
    ghost use Rattle.gmp_script.specs.Script.{Commands};

    ghost Value = { SpeakerValue Commands };

    ghost view = { λ s. record { body = body_of s.body; woke = s.woke } };
}

impl<'a> Speaker<'a> {
    /// A body that made no call.
    fn of(body: &'a ScriptBody) -> Self
        ensures { result ≡ unheard body.now }
    {
        Speaker {
            body: body.reader(),
            woke: Woke::Done,
        }
    }

    /// Whether the body asks for the call next. Where it does, it goes on, and is to be told the reply.
    fn asks(&mut self, call: &Call, reply: Reply) -> bool
        ensures { Decides (AsksCall call.now reply) self.old self.new result }
    {
        let mut body = self.body;
        body.hear(self.woke);
        let command = body.go_on();
        if !is_next(command, call) {
            return false;
        }
        self.body = body;
        self.woke = reply.woke();
        true
    }

    /// Whether its blocking call brings this number, which it is to be told then.
    fn brings(&mut self, number: u64) -> bool
        ensures { Decides (BringsNumber number) self.old self.new result }
    {
        if self.body.asked_last() != number {
            return false;
        }
        self.woke = Woke::Number(number);
        true
    }

    /// It is to be told this.
    fn is_told(&mut self, woke: Woke)
        ensures { self.new ≡ record self.old { woke = woke } }
    {
        self.woke = woke;
    }
}

/// The bodies, by goroutine. A contract sees the list of them.
#[derive(Drop)]
pub(crate) struct Bodies<'a> {
    list: Vec<Speaker<'a>>,
}

impl<'a> Model for Bodies<'a> {
    ghost use Rattle.gmp_scene.specs.Scripted.{Speakers};

    ghost Value = { Speakers };

    ghost view = { λ b. b.list.items };
}

/// Whom the machine runs: the first such goroutine, by a look at all.
fn running(replay: &Replay, m: MNo) -> Option<usize>
    ensures some { IfSome result (λ g. IsRunning replay.now.state.table (record { 0 = g }) m) }
    ensures none { IfNone result ((g : GNo) → IsRunning replay.now.state.table g m → ⊥) }
{
    replay
        .goroutines()
        .iter()
        .position(|row| row.status.is_running_on(m))
}

/// Whose blocking call the machine makes: the first such goroutine, by a look at all.
fn calling(replay: &Replay, m: MNo) -> Option<usize>
    ensures some { IfSome result (λ g. IsCalling replay.now.state.table (record { 0 = g }) m) }
    ensures none { IfNone result ((g : GNo) → IsCalling replay.now.state.table g m → ⊥) }
{
    replay
        .goroutines()
        .iter()
        .position(|row| row.status.is_calling_on(m))
}

/// What is stored for the goroutine, and done where it isn't ready.
fn stored(replay: &Replay, g: GNo) -> Woke
    ensures { result ≡ stored_at replay.now.state.table g }
{
    match replay.goroutines().get(g.0 as usize) {
        Some(row) => row.status.answer().unwrap_or(Woke::Done),
        None => Woke::Done,
    }
}

impl<'a> Bodies<'a> {
    /// The bodies of a script, which made no call yet.
    pub(crate) fn of(alloc: Global, script: &'a [ScriptBody]) -> Result<Self, AllocError>
        ensures { IfOk result (λ b. b ≡ map unheard script.now) }
    {
        let mut list = Vec::new(alloc);
        for body in script {
            list.push(Speaker::of(body))?;
        }
        Ok(Bodies { list })
    }

    /// Whether m's call, with this reply, is what the goroutine that m runs asks next, or a `Leave` with the number that the body says whose
    /// blocking call m makes, or one that no body asks for. Where it is, that body goes on, and is to be told what the entry gives it.
    pub(crate) fn lead(&mut self, replay: &Replay, m: MNo, call: &Call, reply: Reply) -> bool
        requires runs { (g h : GNo) → IsRunning replay.now.state.table g m → IsRunning replay.now.state.table h m → g ≡ h }
        requires calls { (g h : GNo) → IsCalling replay.now.state.table g m → IsCalling replay.now.state.table h m → g ≡ h }
        ensures { Decides (LeadsBodies m call.now reply replay.now.state.table) self.old self.new result }
    {
        match part_of(call) {
            Part::Asked => self.ask(replay, m, call, reply),
            Part::Claims(r) => self.take_up(replay, r),
            Part::Brings(number) => self.bring(replay, m, number),
            Part::Own => true,
        }
    }

    /// Whether the goroutine that m runs asks for the call next. Where it does, it goes on, and is to be told the reply.
    fn ask(&mut self, replay: &Replay, m: MNo, call: &Call, reply: Reply) -> bool
        requires { (g h : GNo) → IsRunning replay.now.state.table g m → IsRunning replay.now.state.table h m → g ≡ h }
        ensures { Decides (AsksFor AsksTold BringsLast m call.now reply replay.now.state.table) self.old self.new result }
    {
        let Some(g) = running(replay, m) else {
            return false;
        };
        match self.list.get_mut(g) {
            Some(speaker) => speaker.asks(call, reply),
            None => false,
        }
    }

    /// Whether there is this goroutine. Where there is, it is to be told what is stored for it.
    fn take_up(&mut self, replay: &Replay, r: Readiness) -> bool
        ensures { Decides (TakesUp AsksTold BringsLast r replay.now.state.table) self.old self.new result }
    {
        let woke = stored(replay, r.g);
        match self.list.get_mut(r.g.0 as usize) {
            Some(speaker) => {
                speaker.is_told(woke);
                true
            }
            None => false,
        }
    }

    /// Whether the body whose blocking call m makes brings this number. Where it does, it is to be told it.
    fn bring(&mut self, replay: &Replay, m: MNo, number: u64) -> bool
        requires { (g h : GNo) → IsCalling replay.now.state.table g m → IsCalling replay.now.state.table h m → g ≡ h }
        ensures { Decides (Brings AsksTold BringsLast m number replay.now.state.table) self.old self.new result }
    {
        let Some(g) = calling(replay, m) else {
            return false;
        };
        match self.list.get_mut(g) {
            Some(speaker) => speaker.brings(number),
            None => false,
        }
    }
}
