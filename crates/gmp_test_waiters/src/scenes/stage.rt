//! The gate of a scene and its clock in one (`Stage`). What the gate does is a list of rules (`Rule`).

use crate::row::number;
use crate::waiting::{Seen, bit, flag_of};
use crate::wrong::Wrong;
use crossbeam_utils::sync::Parker;
use gmp_base::MNo;
use gmp_driver::Act;
use gmp_run::{Clock, Gate, MOST_REST};
use gmp_seq::Call;
use std::alloc::Global;
use std::sync::Wait;
use std::sync::atomic::{AtomicU64, Ordering};
use std::thread::yield_now;
use std::time::Duration;

/// The last moment that a clock shows that counts, or that waits.
const LAST: u64 = 500;

/// How a clock goes.
#[derive(Clone, Copy, PartialEq, Eq)]
enum Goes {
    /// It stands still.
    Stands,
    /// It goes on by one at each reading. It knows no parker.
    Counts,
    /// A wait to a moment that comes takes no time, and one to a moment that never comes lasts until the machine is called.
    Waits,
    /// Where all machines are at rest or mind a deadline a rest has passed at once, as if it were a long one.
    Rests,
}

/// How a scene is played: how its clock goes, and whether its gate says that it is open.
#[derive(Clone, Copy)]
pub struct Way {
    goes: Goes,
    is_open: bool,
}

impl Way {
    /// The way that this word names.
    pub fn of(word: &str) -> Option<Self> {
        let (goes, is_open) = match word {
            "stands" => (Goes::Stands, false),
            "counts" => (Goes::Counts, false),
            "counts,open" => (Goes::Counts, true),
            "waits" => (Goes::Waits, false),
            "waits,open" => (Goes::Waits, true),
            "rests" => (Goes::Rests, false),
            _ => return None,
        };
        Some(Way { goes, is_open })
    }
}

/// Acts that a rule tells apart.
#[derive(Clone, Copy)]
enum Kind {
    Any,
    Resume,
    Hunt,
    Poke,
    /// The first behind a park.
    Woken,
    /// To mind a deadline.
    Mind,
    Surrender,
}

impl Kind {
    fn of(word: &str) -> Option<Self> {
        match word {
            "any" => Some(Kind::Any),
            "resume" => Some(Kind::Resume),
            "hunt" => Some(Kind::Hunt),
            "poke" => Some(Kind::Poke),
            "woken" => Some(Kind::Woken),
            "mind" => Some(Kind::Mind),
            "surrender" => Some(Kind::Surrender),
            _ => None,
        }
    }

    fn has(self, act: &Act) -> bool {
        match self {
            Kind::Any => true,
            Kind::Resume => matches!(act, Act::Resume),
            Kind::Hunt => matches!(act, Act::Hunt),
            Kind::Poke => matches!(act, Act::Call(Call::Poke)),
            Kind::Woken => matches!(act, Act::Call(Call::Woken)),
            Kind::Mind => matches!(act, Act::Clock(Some(_))),
            Kind::Surrender => matches!(act, Act::Surrender(_)),
        }
    }
}

/// Before such an act of this machine, or of each, this flag is set, or waited for.
#[derive(Clone, Copy)]
pub struct Rule {
    machine: Option<u8>,
    kind: Kind,
    sets: bool,
    flag: u64,
}

impl Rule {
    /// The rule of four words, as `1 any await a`. The first is `each` or the number of a machine.
    fn of(words: &str) -> Option<Self> {
        let mut words = words.split(' ');
        let machine = match words.next()? {
            "each" => None,
            word => Some(number(word).ok()?),
        };
        let kind = Kind::of(words.next()?)?;
        let sets = match words.next()? {
            "set" => true,
            "await" => false,
            _ => return None,
        };
        let flag = flag_of(words.next()?)?;
        Some(Rule {
            machine,
            kind,
            sets,
            flag,
        })
    }

    fn is_for(&self, m: MNo, act: &Act) -> bool {
        self.machine.is_none_or(|it| it == m.0) && self.kind.has(act)
    }
}

/// The rules of a line, which are parted by commas.
pub fn rules_of(alloc: Global, line: &str) -> Result<Vec<Rule>, Wrong> {
    let mut rules = Vec::new(alloc);
    if line.is_empty() {
        return Ok(rules);
    }
    for words in line.split(", ") {
        match Rule::of(words) {
            Some(rule) => rules.push(rule)?,
            None => return Err(Wrong::Unreadable),
        }
    }
    Ok(rules)
}

/// Gate and clock.
#[derive(Drop)]
pub struct Stage<'a, R> {
    rt: &'a R,
    way: Way,
    rules: Vec<Rule>,
    seen: &'a Seen,
    now: AtomicU64,
    /// Who is at work, a bit for each machine.
    works: AtomicU64,
}

impl<'a, R> Stage<'a, R> {
    pub fn new(rt: &'a R, way: Way, rules: Vec<Rule>, seen: &'a Seen) -> Self {
        Stage {
            rt,
            way,
            rules,
            seen,
            now: AtomicU64::new(1),
            works: AtomicU64::new(0),
        }
    }

    /// Notes whether the machine is at work.
    fn note(&self, m: MNo, act: &Act) {
        let bit = bit(m.0);
        if Kind::Woken.has(act) || Kind::Mind.has(act) {
            self.works.fetch_and(!bit, Ordering::SeqCst);
        } else {
            self.works.fetch_or(bit, Ordering::SeqCst);
        }
    }
}

impl<R> Gate for Stage<'_, R> {
    fn before(&self, m: MNo, act: &Act) {
        self.note(m, act);
        for rule in &self.rules {
            if !rule.is_for(m, act) {
                continue;
            }
            if rule.sets {
                self.seen.set(rule.flag);
            } else {
                self.seen.wait_for(rule.flag);
            }
        }
    }

    fn is_open(&self) -> bool {
        self.way.is_open
    }
}

impl<R: Wait + std::time::Clock> Clock for Stage<'_, R> {
    fn now(&self) -> u64 {
        match self.way.goes {
            Goes::Counts => self.now.fetch_add(1, Ordering::SeqCst).min(LAST),
            _ => self.now.load(Ordering::SeqCst),
        }
    }

    fn rest(&self, most: u64) {
        match self.way.goes {
            Goes::Stands => {}
            Goes::Rests if self.works.load(Ordering::SeqCst) == 0 => {
                self.now.fetch_add(most, Ordering::SeqCst);
            }
            _ => yield_now(),
        }
    }

    fn wait(&self, parker: &Parker, most: u64) {
        if self.way.goes != Goes::Waits {
            return self.rest(most.min(MOST_REST));
        }
        let until = self.now().saturating_add(most);
        if until <= LAST {
            self.now.store(until, Ordering::SeqCst);
        } else {
            parker.park_timeout(self.rt, Duration::from_secs(600));
        }
    }
}
