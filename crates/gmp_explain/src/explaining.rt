//! The command `explain` as a function: it reads and checks a trace as `check` does, and tells its facts.
ghost use Rattle.std.specs.Prelude.{◌≡◌, ◌≢◌, ◌↔◌, ◌⊎◌, ◌<◌, ◌^◌, [], false, true, IfOk, IfSome, IsOk, None, OnOk, Some, length, slice_get, string_bytes};
ghost use Rattle.std.specs.Result.{MatchResult};
ghost use Rattle.gmp_start.specs.Start.{state_of};
ghost use Rattle.gmp_trace.specs.Text.{content};
ghost use Rattle.gmp_trace.specs.declared.bad.Bad.{Bad};
ghost use Rattle.gmp_trace.specs.declared.bad.Why.TheVariants as why;
ghost use Rattle.gmp_explain.specs.Lines.{IsWrongText, SaysEnd, SaysRiddle, TellsEnd, TellsRiddle, TellsState, TellsText, TellsTrace, has_facts};
ghost use Rattle.gmp_explain.specs.Told.{TellsEntry};
ghost use Rattle.gmp_judge.specs.Judged.{HasRightTrace, SaysOfTrace, said_of};
ghost use Rattle.gmp_words.specs.Said.{is_of_check};
ghost use Rattle.gmp_words.specs.declared.said.Said.TheVariants as said;
ghost use Rattle.gmp_words.specs.declared.said.Said.TheVariants.{Nothing, OutputFailed};

use crate::fact::{Fact, Sink};
use crate::json::Json;
use crate::lines::Lines;
use crate::riddle::tell_riddle;
use crate::telling::tell_story;
use crate::told::{Story, story_of};
use gmp_check::OutOfMemory;
use gmp_judge::{Judgement, Progress, read_trace};
use gmp_trace::{End, Trace, Why};
use gmp_words::Ended;
use std::alloc::Global;
use std::io::Read;

/// How the command ended, and what is told behind that.
#[derive(Drop)]
pub struct Explained {
    pub ended: Ended,
    /// The facts, of some inputs none, or that there was no memory to tell them.
    pub facts: Result<String, OutOfMemory>,
}

impl Explained {
    /// What is to be written: the facts, and without memory for them nothing.
    pub fn text(&self) -> &str
        ensures { MatchResult self.now.facts (λ facts. result.now ≡ string_bytes facts) (λ _. result.now ≡ []) }
    {
        match &self.facts {
            Ok(facts) => facts.as_str(),
            Err(OutOfMemory) => "",
        }
    }
}

/// Why the entry at which the story ends is no step, if there is one.
fn tell_next<S: Sink>(
    alloc: Global,
    trace: &Trace,
    story: &Story,
    sink: &mut S,
) -> Result<(), OutOfMemory>
    requires few { length story.now.last.goroutines.items < 2 ^ 16 }
    requires same { state_of story.now.last ≡ record story.now.replay.state { outcome = None } }
    ensures { OnOk result (IfSome (slice_get trace.now.entries.list story.now.steps) (λ e. TellsEntry S.told story.now.replay.limits story.now.replay.state e sink.old sink.new)) }
{
    match trace.entries.get(story.steps) {
        Some(entry) => tell_riddle(alloc, story, entry, sink),
        None => Ok(()),
    }
}

/// The facts of a right trace, or why the first wrong line of another is wrong.
fn tell<S: Sink>(
    alloc: Global,
    all: bool,
    judgement: &Judgement,
    sink: &mut S,
) -> Result<(), OutOfMemory>
    ensures right { OnOk result (judgement.now.wrong ≡ None → TellsState S.told (content judgement.now.trace) sink.old sink.new) }
    ensures riddle { OnOk result ((bad : Bad) → judgement.now.wrong ≡ Some bad → bad.why ≡ why.Step → TellsRiddle S.told (content judgement.now.trace) sink.old sink.new) }
    ensures leads { OnOk result ((bad : Bad) → judgement.now.wrong ≡ Some bad → bad.why ≡ why.Outcome → TellsEnd S.told (content judgement.now.trace) sink.old sink.new) }
{
    let Ok(story) = story_of(alloc, judgement.trace.view(), &mut ()) else {
        return Err(OutOfMemory);
    };
    match judgement.wrong {
        None => Ok(tell_story(alloc, all, &story, sink)?),
        Some(bad) if bad.why == Why::Step => tell_next(alloc, &judgement.trace, &story, sink),
        Some(_) => Ok(sink.tell(&Fact::Leads(End::of(story.replay.outcome())))?),
    }
}

/// Whether there are facts: of a right trace, and where an entry is no step or the end is not that of the run.
fn has_facts(judgement: &Judgement) -> bool
    ensures { result ≡ has_facts (said_of judgement.now.wrong) }
{
    match judgement.wrong {
        None => true,
        Some(bad) => matches!(bad.why, Why::Step | Why::Outcome),
    }
}

/// The facts, as lines or as one JSON object; with `all` also those of machines and processors.
fn facts(alloc: Global, json: bool, all: bool, judgement: &Judgement) -> Result<String, OutOfMemory>
    ensures told { IfOk result (λ text. json ≡ false → judgement.now.wrong ≡ None → TellsTrace (content judgement.now.trace) (string_bytes text)) }
    ensures riddle { IfOk result (λ text. json ≡ false → (bad : Bad) → judgement.now.wrong ≡ Some bad → bad.why ≡ why.Step
        → SaysRiddle (content judgement.now.trace) (string_bytes text)) }
    ensures leads { IfOk result (λ text. json ≡ false → (bad : Bad) → judgement.now.wrong ≡ Some bad → bad.why ≡ why.Outcome
        → SaysEnd (content judgement.now.trace) (string_bytes text)) }
    ensures none { IfOk result (λ text. has_facts (said_of judgement.now.wrong) ≡ false → string_bytes text ≡ []) }
{
    if !has_facts(judgement) {
        return Ok(String::new(alloc));
    }
    if json {
        let mut object = Json::new(alloc);
        tell(alloc, all, judgement, &mut object)?;
        return Ok(object.text()?);
    }
    let mut lines = Lines::new(alloc);
    tell(alloc, all, judgement, &mut lines)?;
    Ok(lines.text)
}

/// How it ends on a trace, and the facts. A wrong line is named even where there is no memory to say why it is wrong.
fn explain_trace(alloc: Global, json: bool, all: bool, judgement: &Judgement) -> Explained
    ensures said { (result.ended.said ≡ said_of judgement.now.wrong) ⊎ (result.ended.said ≡ said.OutOfMemory) }
    ensures status { result.ended.status ≡ 0 ↔ result.ended.said ≡ Nothing }
    ensures there { result.ended.said ≡ Nothing → IsOk result.facts }
    ensures told { IfOk result.facts (λ text. result.ended.said ≡ Nothing → json ≡ false → TellsTrace (content judgement.now.trace) (string_bytes text)) }
    ensures riddle { IfOk result.facts (λ text. json ≡ false → (bad : Bad) → judgement.now.wrong ≡ Some bad → bad.why ≡ why.Step
        → SaysRiddle (content judgement.now.trace) (string_bytes text)) }
    ensures leads { IfOk result.facts (λ text. json ≡ false → (bad : Bad) → judgement.now.wrong ≡ Some bad → bad.why ≡ why.Outcome
        → SaysEnd (content judgement.now.trace) (string_bytes text)) }
    ensures none { IfOk result.facts (λ text. has_facts result.ended.said ≡ false → string_bytes text ≡ []) }
{
    let facts = facts(alloc, json, all, judgement);
    let ended = match (judgement.wrong, &facts) {
        (Some(bad), _) => Ended::bad_trace(bad),
        (None, Ok(_)) => Ended::passed(),
        (None, Err(OutOfMemory)) => Ended::out_of_memory(),
    };
    Explained { ended, facts }
}

/// Reads a trace, checks it, and tells its facts, as lines or as one JSON object; with `all` also how many entries each machine and processor has.
///
/// It ends as `check` does, but for the output, which it doesn't write: the facts of a right trace, and those that say why a step or an end
/// is none, are to be written behind what is said of the end. What is told of its progress ends before that.
///
/// Where memory for them was wanting there are no facts: of a right trace it ends so, and a wrong line is named all the same.
pub fn explain<R: Read, P: Progress>(
    alloc: Global,
    json: bool,
    all: bool,
    reader: &mut R,
    progress: &mut P,
) -> Explained
    ensures passed { result.ended.said ≡ Nothing → IfSome (R.remaining reader.old) HasRightTrace }
    ensures status { result.ended.status ≡ 0 ↔ result.ended.said ≡ Nothing }
    // Where nothing is wrong there are facts.
    ensures there { result.ended.said ≡ Nothing → IsOk result.facts }
    // The remarks on the state to which the entries lead are there, in order, and no others, as on a wrong entry.
    ensures told { IfOk result.facts (λ text. result.ended.said ≡ Nothing → json ≡ false → IfSome (R.remaining reader.old) (λ all. TellsText all (string_bytes text))) }
    // Where an entry is no step, its line, under some number; what was before it; and then that the run was over, what its call lacks, or which replies are
    // allowed: those that are called so are, and they are all that fit a trace. No other remarks.
    ensures riddle { IfOk result.facts (λ text. json ≡ false → IfSome (R.remaining reader.old) (λ all. (bad : Bad) → result.ended.said ≡ said.BadTrace bad → bad.why ≡ why.Step
        → IsWrongText bad (λ x. SaysRiddle x (string_bytes text)) all)) }
    // Where the end is not that of the run, the end to which the entries lead.
    ensures leads { IfOk result.facts (λ text. json ≡ false → IfSome (R.remaining reader.old) (λ all. (bad : Bad) → result.ended.said ≡ said.BadTrace bad → bad.why ≡ why.Outcome
        → IsWrongText bad (λ x. SaysEnd x (string_bytes text)) all)) }
    // Where anything else is said there are none.
    ensures none { IfOk result.facts (λ text. has_facts result.ended.said ≡ false → string_bytes text ≡ []) }

    // What is wrong is said by one of the program's own texts.
    ensures kinds { is_of_check result.ended.said ≡ true }
    ensures written { result.ended.said ≢ OutputFailed }
    // A line that is called bad is, and so is an input that is called too long.
    ensures says { SaysOfTrace (R.remaining reader.old) result.ended.said }
{
    match read_trace(alloc, reader, progress) {
        Ok(judgement) => explain_trace(alloc, json, all, &judgement),
        Err(ended) => Explained {
            ended,
            facts: Ok(String::new(alloc)),
        },
    }
}
