//! Two machines that act in a given order, by their programs, on the bodies of a script.

use crate::words::{first, put_line, range};
use gmp_acts::Choice;
use gmp_base::{Body, MNo, Woke};
use gmp_check::Replay;
use gmp_core::{Core, Want};
use gmp_history::History;
use gmp_script::ScriptBody;
use gmp_seq::{Limits, Outcome};
use gmp_trace::{BeginningView, End, TraceView, write_view};
use gmp_words::Ended;
use std::alloc::{AllocError, Global};

const MACHINES: [MNo; 2] = [MNo(0), MNo(1)];

/// More than the acts that a machine makes in a run that a limit of entries ends.
const ROUNDS: usize = 100;

/// The limits of so many processors, or how it ends where that is no number.
fn limits_of(procs: &str, entries: u32, room: u32) -> Result<Limits, Ended> {
    Ok(Limits {
        procs: procs.parse().ok().ok_or(Ended::bad_limits())?,
        machines: 2,
        channels: 16,
        entries: u64::from(entries),
        room,
    })
}

/// The bodies of a script.
fn bodies_of(alloc: Global, script: &[u8]) -> Result<Vec<ScriptBody>, Ended> {
    let mut reader = script;
    Ok(gmp_words::script(alloc, &mut reader)?.bodies)
}

/// A core of these bodies, before its first act.
fn opened(
    alloc: Global,
    bodies: Vec<ScriptBody>,
    limits: Limits,
) -> Result<Core<ScriptBody>, Ended> {
    match Core::open(alloc, 1, limits, &[], bodies) {
        Ok(core) => Ok(core),
        Err(refused) => {
            refused.open();
            Err(Ended::bad_limits())
        }
    }
}

/// What the machine reads at its next act: what its body asks or answers, and word and moment 0.
fn choice(core: &mut Core<ScriptBody>, m: MNo) -> Choice {
    let mut choice = Choice::default();
    let wants = core.wants(m);
    let Some(woke) = core.held(m) else {
        return choice;
    };
    match (wants, core.body(m)) {
        (Want::Ask, Some(body)) => choice.ask = body.resume(woke),
        (Want::Number, Some(body)) => choice.number = body.blocking(),
        _ => {}
    }
    choice
}

/// Acts of a machine, as `1:3` says it, or `1:3!` where its pushes are refused: they are made one by one, and added.
fn put_moves(
    core: &mut Core<ScriptBody>,
    moves: &mut Vec<(MNo, Choice)>,
    word: &str,
) -> Result<(), Ended> {
    let (m, times) = word.split_once(':').ok_or(Ended::bad_limits())?;
    let m = MNo(m.parse().ok().ok_or(Ended::bad_limits())?);
    let times: u8 = times
        .trim_end_matches('!')
        .parse()
        .ok()
        .ok_or(Ended::bad_limits())?;
    for _ in 0..times {
        let mut choice = choice(core, m);
        choice.push_refused = word.ends_with('!');
        core.act(m, &choice);
        if moves.push((m, choice)).is_err() {
            return Err(Ended::out_of_memory());
        }
    }
    Ok(())
}

/// The acts of these words.
fn moves_of(
    alloc: Global,
    core: &mut Core<ScriptBody>,
    words: &str,
) -> Result<Vec<(MNo, Choice)>, Ended> {
    let mut moves = Vec::new(alloc);
    for word in words.split(' ') {
        put_moves(core, &mut moves, word)?;
    }
    Ok(moves)
}

/// A core of the script on which these acts were made at once, as they were made one by one on another.
fn acted(alloc: Global, words: &str, script: &[u8]) -> Result<(Core<ScriptBody>, Limits), Ended> {
    let (procs, words) = first(words);
    let limits = limits_of(procs, 10_000, 10_000)?;
    let mut core = opened(alloc, bodies_of(alloc, script)?, limits)?;
    let moves = moves_of(alloc, &mut core, words);
    core.close();
    let moves = moves?;
    let mut core = opened(alloc, bodies_of(alloc, script)?, limits)?;
    core.run(&moves);
    Ok((core, limits))
}

/// The trace of these acts.
pub fn acts(alloc: Global, words: &str, script: &[u8], out: &mut Vec<u8>) -> Result<(), Ended> {
    let bodies = u16::try_from(bodies_of(alloc, script)?.len()).unwrap_or(0);
    let (core, limits) = acted(alloc, words, script)?;
    let trace = TraceView {
        limits,
        bodies,
        beginning: BeginningView::Opening(&[]),
        entries: core.history(),
        end: End::of(core.outcome()),
    };
    let written = write_view(alloc, trace, out);
    core.close();
    Ok(written?)
}

/// What the machine wants, and what the body in its hand asks, if it has one: twice, since its first answer changes it.
fn put_hand(
    alloc: Global,
    core: &mut Core<ScriptBody>,
    m: MNo,
    out: &mut Vec<u8>,
) -> Result<(), AllocError> {
    let text = format!(in alloc; "{} {:?}", m.0, core.wants(m))?;
    out.extend_from_slice(text.as_bytes())?;
    for _ in 0..2 {
        if let Some(body) = core.body(m) {
            let text = format!(in alloc; " {:?}", body.resume(Woke::Done))?;
            out.extend_from_slice(text.as_bytes())?;
        }
    }
    put_line(out, &[])
}

/// Who has which body after these acts, and the outcome.
pub fn hands(alloc: Global, words: &str, script: &[u8], out: &mut Vec<u8>) -> Result<(), Ended> {
    let (mut core, _) = acted(alloc, words, script)?;
    let (first, second) = (
        put_hand(alloc, &mut core, MNo(0), out),
        put_hand(alloc, &mut core, MNo(1), out),
    );
    let outcome = core.close();
    let (_, _) = (first?, second?);
    let text = format!(in alloc; "{outcome:?}")?;
    Ok(put_line(out, &[text.as_str()])?)
}

/// Each machine that isn't parked is done, and none has a goroutine in its hand.
fn are_done(core: &Core<ScriptBody>) -> bool {
    MACHINES.iter().all(|m| (core.parked(*m) || core.done(*m)) && core.held(*m).is_none())
}

/// What the core hands out: steps that go on where those before stop. How many there are, if they are.
fn follow(alloc: Global, core: &mut Core<ScriptBody>, replay: &mut Replay) -> Result<usize, Ended> {
    // As much room as a core may have; that it has no more, its history tells.
    let _ = core.history();
    let mut piece = History::with_room(alloc, 1_000_000)?;
    core.hand_out(&mut piece);
    for entry in piece.iter() {
        if replay.step(&entry) != Ok(true) {
            return Err(Ended::no_run());
        }
    }
    if core.history().is_empty() {
        Ok(piece.len())
    } else {
        Err(Ended::no_run())
    }
}

/// The machines act in turn, but for those that are parked, and each time that there is no room for another entry all are handed out; so are
/// those that are left. How many were handed out for want of room, and how many in all.
fn play(
    alloc: Global,
    core: &mut Core<ScriptBody>,
    replay: &mut Replay,
) -> Result<(usize, usize), Ended> {
    let mut count = 0usize;
    for _ in 0..ROUNDS {
        for m in MACHINES {
            if core.is_full() {
                count = count.saturating_add(follow(alloc, core, replay)?);
            }
            if !core.parked(m) {
                let choice = choice(core, m);
                if !core.act(m, &choice) {
                    return Err(Ended::no_run());
                }
            }
        }
    }
    let left = follow(alloc, core, replay)?;
    Ok((count, count.saturating_add(left)))
}

/// How a run under a limit of entries went: how many entries it had, how it ended, and whether some were handed out for want of room.
fn filled(
    alloc: Global,
    script: &[u8],
    limits: Limits,
) -> Result<(usize, Option<Outcome>, bool), Ended> {
    let bodies = bodies_of(alloc, script)?;
    let count = u16::try_from(bodies.len()).unwrap_or(0);
    let Ok(mut replay) = Replay::open(alloc, limits, count, &[]) else {
        return Err(Ended::bad_limits());
    };
    let mut core = opened(alloc, bodies, limits)?;
    let played = play(alloc, &mut core, &mut replay);
    let is_done = are_done(&core);
    let outcome = core.close();
    let (handed, all) = played?;
    if is_done && replay.outcome() == outcome {
        Ok((all, outcome, handed > 0))
    } else {
        Err(Ended::no_run())
    }
}

/// A line for each limit of entries: how a run goes that keeps all of them, and one that keeps 16 at a time.
pub fn full(alloc: Global, words: &str, script: &[u8], out: &mut Vec<u8>) -> Result<(), Ended> {
    let (procs, limits) = first(words);
    let (from, to) = range(limits).ok_or(Ended::bad_limits())?;
    for entries in from..to.saturating_add(1) {
        let entries = u32::try_from(entries).unwrap_or(0);
        let whole = filled(alloc, script, limits_of(procs, entries, entries)?)?;
        let pieces = filled(alloc, script, limits_of(procs, entries, 16)?)?;
        let text = format!(in alloc; "{entries}: {whole:?} {pieces:?}")?;
        put_line(out, &[text.as_str()])?;
    }
    Ok(())
}
