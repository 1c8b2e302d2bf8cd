//! Facts as one JSON object: a list of objects, each with the name of its kind of fact under `fact`.

use crate::fact::{
    Caller, Fact, Help, Made, Sink, call_words, end_words, mode_words, need_words, role_words,
};
use gmp_base::GNo;
use gmp_seq::{Offer, Status};
use gmp_waits::{Dealing, Doing};
use serde_json::{Map, Value};
use std::alloc::{AllocError, Global};

/// Gathers the facts.
#[derive(Drop)]
pub struct Json {
    alloc: Global,
    facts: Vec<Value>,
}

/// The numbers of goroutines.
fn goroutines(alloc: Global, list: &[GNo]) -> Result<Value, AllocError> {
    let mut all = Vec::with_capacity(alloc, list.len())?;
    for g in list {
        all.push(Value::from(g.0))?;
    }
    Ok(Value::Array(all))
}

/// Values of a channel.
fn values(alloc: Global, list: &[u64]) -> Result<Value, AllocError> {
    let mut all = Vec::with_capacity(alloc, list.len())?;
    for value in list {
        all.push(Value::from(*value))?;
    }
    Ok(Value::Array(all))
}

/// The text of bytes that are ASCII.
fn text(alloc: Global, bytes: &[u8]) -> Result<String, AllocError> {
    match str::from_utf8(bytes) {
        Ok(text) => String::from_str(alloc, text),
        Err(_) => Ok(String::new(alloc)),
    }
}

/// What an object has under a name, but for a list.
#[derive(Clone, Copy)]
enum Member<'a> {
    Nothing,
    Is(bool),
    Number(u64),
    Text(&'a str),
}

impl Member<'_> {
    /// The number, if there is one.
    fn maybe(number: Option<u64>) -> Self {
        match number {
            Some(number) => Member::Number(number),
            None => Member::Nothing,
        }
    }

    /// It as a value.
    fn value(self, alloc: Global) -> Result<Value, AllocError> {
        Ok(match self {
            Member::Nothing => Value::Null,
            Member::Is(is) => Value::Bool(is),
            Member::Number(number) => Value::from(number),
            Member::Text(text) => Value::String(String::from_str(alloc, text)?),
        })
    }
}

/// Adds a member.
fn put(
    alloc: Global,
    map: &mut Map<String, Value>,
    name: &str,
    value: Value,
) -> Result<(), AllocError> {
    let name = String::from_str(alloc, name)?;
    map.insert(name, value)?;
    Ok(())
}

/// These members.
fn map_of(alloc: Global, members: &[(&str, Member)]) -> Result<Map<String, Value>, AllocError> {
    let mut map = Map::new(alloc);
    for (name, member) in members {
        put(alloc, &mut map, name, member.value(alloc)?)?;
    }
    Ok(map)
}

/// An object of these members.
fn object(alloc: Global, members: &[(&str, Member)]) -> Result<Value, AllocError> {
    Ok(Value::Object(map_of(alloc, members)?))
}

/// An object of these members and this list.
fn listed(
    alloc: Global,
    members: &[(&str, Member)],
    name: &str,
    list: Value,
) -> Result<Value, AllocError> {
    let mut map = map_of(alloc, members)?;
    put(alloc, &mut map, name, list)?;
    Ok(Value::Object(map))
}

/// How often each call was made.
fn calls(alloc: Global, list: &[Made]) -> Result<Value, AllocError> {
    let mut all = Vec::with_capacity(alloc, list.len())?;
    for (call, n) in list {
        let name = text(alloc, call_words(*call))?;
        let members = [
            ("call", Member::Text(name.as_str())),
            ("times", Member::Number(*n)),
        ];
        all.push(object(alloc, &members)?)?;
    }
    Ok(Value::Array(all))
}

fn goroutine(
    alloc: Global,
    g: GNo,
    status: &Status,
    since: Option<u64>,
    leak: bool,
) -> Result<Value, AllocError> {
    let does = format!(in alloc; "{}", Doing(status))?;
    object(
        alloc,
        &[
            ("fact", Member::Text("goroutine")),
            ("goroutine", Member::Number(u64::from(g.0))),
            ("does", Member::Text(does.as_str())),
            ("since", Member::maybe(since)),
            ("leak", Member::Is(leak)),
        ],
    )
}

fn case(alloc: Global, g: GNo, offer: &Offer) -> Result<Value, AllocError> {
    let would = format!(in alloc; "{}", Dealing(offer))?;
    object(
        alloc,
        &[
            ("fact", Member::Text("case")),
            ("goroutine", Member::Number(u64::from(g.0))),
            ("case", Member::Number(u64::from(offer.case))),
            ("would", Member::Text(would.as_str())),
        ],
    )
}

fn link(alloc: Global, g: GNo, by: GNo, help: Help) -> Result<Value, AllocError> {
    let only = format!(in alloc; "{help}")?;
    object(
        alloc,
        &[
            ("fact", Member::Text("link")),
            ("goroutine", Member::Number(u64::from(g.0))),
            ("waits_for", Member::Number(u64::from(by.0))),
            ("the_only_one_that", Member::Text(only.as_str())),
        ],
    )
}

/// What the name of a machine or a processor is.
fn named(alloc: Global, unit: Caller) -> Result<String, AllocError> {
    format!(in alloc; "{unit}")
}

/// A fact of one word.
fn word(alloc: Global, fact: &str, key: &str, word: &str) -> Result<Value, AllocError> {
    object(
        alloc,
        &[("fact", Member::Text(fact)), (key, Member::Text(word))],
    )
}

/// The object of a goroutine, a channel or a cycle.
fn of_goroutine(alloc: Global, fact: &Fact) -> Result<Value, AllocError> {
    match *fact {
        Fact::Goroutine(told) => goroutine(alloc, told.g, told.status, told.since, told.leak),
        Fact::Case { g, offer } => case(alloc, g, offer),
        Fact::Lost { g, lost } => object(
            alloc,
            &[
                ("fact", Member::Text("lost ready")),
                ("goroutine", Member::Number(u64::from(g.0))),
                ("by", Member::Number(u64::from(lost.by.0))),
                ("at", Member::Number(lost.at)),
            ],
        ),
        Fact::Latest(r) => object(
            alloc,
            &[
                ("fact", Member::Text("latest ticket")),
                ("goroutine", Member::Number(u64::from(r.g.0))),
                ("epoch", Member::Number(r.epoch)),
            ],
        ),
        Fact::Link { g, by, help } => link(alloc, g, by, help),
        _ => of_channel(alloc, fact),
    }
}

/// The object of a channel.
fn of_channel(alloc: Global, fact: &Fact) -> Result<Value, AllocError> {
    match *fact {
        Fact::Channel {
            c,
            closed,
            room,
            holds,
        } => object(
            alloc,
            &[
                ("fact", Member::Text("channel")),
                ("channel", Member::Number(u64::from(c.0))),
                ("closed", Member::Is(closed)),
                ("room", Member::Number(u64::from(room))),
                ("holds", Member::Number(holds as u64)),
            ],
        ),
        Fact::Values(c, list) => {
            let members = [
                ("fact", Member::Text("values")),
                ("channel", Member::Number(u64::from(c.0))),
            ];
            listed(alloc, &members, "values", values(alloc, list)?)
        }
        Fact::Dealers(c, role, who) => {
            let members = [
                ("fact", Member::Text(role_words(role))),
                ("channel", Member::Number(u64::from(c.0))),
            ];
            listed(alloc, &members, "goroutines", goroutines(alloc, who)?)
        }
        _ => of_rest(alloc, fact),
    }
}

/// How many entries a machine or a processor has.
fn entries(alloc: Global, unit: Caller, n: u64) -> Result<Value, AllocError> {
    let of = named(alloc, unit)?;
    object(
        alloc,
        &[
            ("fact", Member::Text("entries")),
            ("of", Member::Text(of.as_str())),
            ("entries", Member::Number(n)),
        ],
    )
}

/// Of which calls these are.
fn made(alloc: Global, unit: Caller, list: &[Made]) -> Result<Value, AllocError> {
    let of = named(alloc, unit)?;
    let members = [
        ("fact", Member::Text("calls")),
        ("of", Member::Text(of.as_str())),
    ];
    listed(alloc, &members, "calls", calls(alloc, list)?)
}

/// A fact of bytes that are ASCII.
fn spelled(alloc: Global, fact: &str, key: &str, bytes: &[u8]) -> Result<Value, AllocError> {
    let text = text(alloc, bytes)?;
    word(alloc, fact, key, text.as_str())
}

/// The object of any other fact.
fn of_rest(alloc: Global, fact: &Fact) -> Result<Value, AllocError> {
    match *fact {
        Fact::Entries(unit, n) => entries(alloc, unit, n),
        Fact::Calls(unit, list) => made(alloc, unit, list),
        Fact::Longest(way) => object(
            alloc,
            &[
                ("fact", Member::Text("longest")),
                ("goroutine", Member::Number(u64::from(way.g.0))),
                ("ready", Member::Number(way.ready)),
                ("claimed", Member::Number(way.claimed)),
            ],
        ),
        Fact::NoStep(line) => spelled(alloc, "no step", "entry", line),
        Fact::Machine {
            m,
            mode,
            holds,
            spins,
        } => object(
            alloc,
            &[
                ("fact", Member::Text("machine before it")),
                ("machine", Member::Number(u64::from(m.0))),
                ("is", Member::Text(mode_words(mode))),
                ("processor", Member::maybe(holds.map(|p| u64::from(p.0)))),
                ("spins", Member::Is(spins)),
            ],
        ),
        Fact::Allowed(reply) => spelled(alloc, "allowed", "reply", reply),
        Fact::Lacks(need) => word(alloc, "none allowed", "since", need_words(need)),
        Fact::Over => word(alloc, "none allowed", "since", "the run was over"),
        Fact::Leads(end) => word(alloc, "leads to", "outcome", end_words(end)),
        _ => object(alloc, &[("fact", Member::Text("cycle"))]),
    }
}

/// The fact as an object.
fn object_of(alloc: Global, fact: &Fact) -> Result<Value, AllocError> {
    match *fact {
        Fact::End {
            end,
            entries,
            first,
        } => object(
            alloc,
            &[
                ("fact", Member::Text("outcome")),
                ("outcome", Member::Text(end_words(end))),
                ("entries", Member::Number(entries as u64)),
                ("from", Member::maybe(first)),
            ],
        ),
        _ => of_goroutine(alloc, fact),
    }
}

impl Json {
    /// No fact yet.
    pub fn new(alloc: Global) -> Self {
        Json {
            alloc,
            facts: Vec::new(alloc),
        }
    }

    /// The object's text, with a line feed.
    pub fn text(self) -> Result<String, AllocError> {
        let Json { alloc, facts } = self;
        let whole = listed(alloc, &[], "facts", Value::Array(facts))?;
        let mut text = whole.to_string(alloc)?;
        text.push('\n')?;
        Ok(text)
    }
}

impl Sink for Json {
    ghost told = { λ _ _ _. Unit {0} };

    fn tell(&mut self, fact: &Fact) -> Result<(), AllocError> {
        let object = object_of(self.alloc, fact)?;
        self.facts.push(object)?;
        Ok(())
    }
}
