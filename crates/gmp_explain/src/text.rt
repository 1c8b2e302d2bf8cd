//! The text of a fact, on one line.

use crate::fact::{
    Caller, Fact, Help, Made, Told, call_words, end_words, mode_words, need_words, role_words,
};
use crate::heard::Lost;
use gmp_base::{GNo, PNo};
use gmp_seq::Status;
use gmp_waits::{Dealing, Doing};
use std::fmt;

/// Since when a goroutine does what it does.
#[derive(Clone, Copy)]
struct Since<'a>(&'a Status, Option<u64>);

impl fmt::Display for Since<'_> {
    ghost use Rattle.std.specs.Prelude.{Some};
    ghost use Rattle.gmp_explain.specs.Doing.{since_text};

    ghost output = { λ s. Some (since_text s.0.now s.1) };

    fn fmt<W: fmt::Write>(&self, f: &mut fmt::Formatter<W>) -> fmt::Result {
        match (self.0, self.1) {
            (Status::Dormant, _) => Ok(()),
            (Status::Dead, Some(n)) => write!(f, " at entry {n}"),
            (_, Some(n)) => write!(f, ", since entry {n}"),
            (_, None) => f.write_str(", since before the first entry"),
        }
    }
}

impl fmt::Display for Told<'_> {
    ghost use Rattle.std.specs.Prelude.{Some};
    ghost use Rattle.gmp_explain.specs.Doing.{goroutine_text};

    ghost output = { λ t. Some (goroutine_text t.g t.status.now t.since t.leak) };

    fn fmt<W: fmt::Write>(&self, f: &mut fmt::Formatter<W>) -> fmt::Result {
        let since = Since(self.status, self.since);
        let leak = if self.leak { ", a leak" } else { "" };
        write!(
            f,
            "goroutine {}: {}{since}{leak}",
            self.g.0,
            Doing(self.status)
        )
    }
}

/// With which entry a trace begins, where it begins at a state.
#[derive(Clone, Copy)]
struct FromEntry(Option<u64>);

impl fmt::Display for FromEntry {
    ghost use Rattle.std.specs.Prelude.{Some};
    ghost use Rattle.gmp_explain.specs.Text.{from_text};

    ghost output = { λ e. Some (from_text e.0) };

    fn fmt<W: fmt::Write>(&self, f: &mut fmt::Formatter<W>) -> fmt::Result {
        match self.0 {
            Some(first) => write!(f, ", from entry {first} on"),
            None => Ok(()),
        }
    }
}

impl fmt::Display for Help {
    ghost use Rattle.std.specs.Prelude.{Some};
    ghost use Rattle.gmp_explain.specs.Text.{help_text};

    ghost output = { λ h. Some (help_text h) };

    fn fmt<W: fmt::Write>(&self, f: &mut fmt::Formatter<W>) -> fmt::Result {
        match self {
            Help::Sent(c) => write!(f, "sent on channel {}", c.0),
            Help::Received(c) => write!(f, "received from channel {}", c.0),
            Help::Filled(c) => write!(f, "sent on channel {}, which is full", c.0),
            Help::Readied => f.write_str("called ready for it"),
        }
    }
}

impl fmt::Display for Caller {
    ghost use Rattle.std.specs.Prelude.{Some};
    ghost use Rattle.gmp_explain.specs.Text.{caller_text};

    ghost output = { λ c. Some (caller_text c) };

    fn fmt<W: fmt::Write>(&self, f: &mut fmt::Formatter<W>) -> fmt::Result {
        match self {
            Caller::Machine(m) => write!(f, "machine {}", m.0),
            Caller::Processor(p) => write!(f, "processor {}", p.0),
        }
    }
}

/// Goroutines, or that there is none.
#[derive(Clone, Copy)]
struct Who<'a>(&'a [GNo]);

impl fmt::Display for Who<'_> {
    ghost use Rattle.std.specs.Prelude.{Some};
    ghost use Rattle.gmp_explain.specs.Text.{who_text};

    ghost output = { λ w. Some (who_text w.0.now) };

    fn fmt<W: fmt::Write>(&self, f: &mut fmt::Formatter<W>) -> fmt::Result {
        if self.0.is_empty() {
            return f.write_str(" nobody");
        }
        for g in self.0 {
            write!(f, " {}", g.0)?;
        }
        Ok(())
    }
}

/// Values of a channel.
#[derive(Clone, Copy)]
struct Numbers<'a>(&'a [u64]);

impl fmt::Display for Numbers<'_> {
    ghost use Rattle.std.specs.Prelude.{Some};
    ghost use Rattle.gmp_explain.specs.Text.{numbers_text};

    ghost output = { λ n. Some (numbers_text n.0.now) };

    fn fmt<W: fmt::Write>(&self, f: &mut fmt::Formatter<W>) -> fmt::Result {
        for value in self.0 {
            write!(f, " {value}")?;
        }
        Ok(())
    }
}

/// A call and how often it was made, behind a comma but for the first.
#[derive(Clone, Copy)]
struct Times(usize, Made);

impl fmt::Display for Times {
    ghost use Rattle.std.specs.Prelude.{Some};
    ghost use Rattle.gmp_explain.specs.Text.{times_text};

    ghost output = { λ t. Some (times_text t.0 t.1) };

    fn fmt<W: fmt::Write>(&self, f: &mut fmt::Formatter<W>) -> fmt::Result {
        let comma = if self.0 == 0 { "" } else { "," };
        let (call, n) = self.1;
        write!(f, "{comma} {} {n}", Ascii(call_words(call)))
    }
}

/// Calls, each with how often it was made.
#[derive(Clone, Copy)]
struct Often<'a>(&'a [Made]);

impl fmt::Display for Often<'_> {
    ghost use Rattle.std.specs.Prelude.{Some};
    ghost use Rattle.gmp_explain.specs.Text.{often_text};

    ghost output = { λ o. Some (often_text o.0.now) };

    fn fmt<W: fmt::Write>(&self, f: &mut fmt::Formatter<W>) -> fmt::Result {
        for (i, made) in self.0.iter().enumerate() {
            write!(f, "{}", Times(i, *made))?;
        }
        Ok(())
    }
}

/// A text that is ASCII.
#[derive(Clone, Copy)]
struct Ascii<'a>(&'a [u8]);

impl fmt::Display for Ascii<'_> {
    ghost use Rattle.std.specs.Prelude.{Some};
    ghost use Rattle.gmp_explain.specs.Text.{text_of};

    ghost output = { λ a. Some (text_of a.0.now) };

    fn fmt<W: fmt::Write>(&self, f: &mut fmt::Formatter<W>) -> fmt::Result {
        match str::from_utf8(self.0) {
            Ok(text) => f.write_str(text),
            Err(_) => Ok(()),
        }
    }
}

impl fmt::Display for Lost {
    ghost use Rattle.std.specs.Prelude.{Some};
    ghost use Rattle.gmp_explain.specs.Text.{lost_text};

    ghost output = { λ l. Some (lost_text l) };

    fn fmt<W: fmt::Write>(&self, f: &mut fmt::Formatter<W>) -> fmt::Result {
        let (by, at) = (self.by.0, self.at);
        write!(f, "a ready by {by} at entry {at} found it not parked")
    }
}

/// Which processor a machine holds.
#[derive(Clone, Copy)]
struct Holds(Option<PNo>);

impl fmt::Display for Holds {
    ghost use Rattle.std.specs.Prelude.{Some};
    ghost use Rattle.gmp_explain.specs.Text.{holds_text};

    ghost output = { λ h. Some (holds_text h.0) };

    fn fmt<W: fmt::Write>(&self, f: &mut fmt::Formatter<W>) -> fmt::Result {
        match self.0 {
            Some(p) => write!(f, ", holds processor {}", p.0),
            None => f.write_str(", holds no processor"),
        }
    }
}

/// What was counted, and what is said of an entry that is no step.
#[derive(Clone, Copy)]
struct Rest<'a>(&'a Fact<'a>);

impl fmt::Display for Rest<'_> {
    ghost use Rattle.std.specs.Prelude.{Some};
    ghost use Rattle.gmp_explain.specs.Text.{rest_text};

    ghost output = { λ x. Some (rest_text x.0.now) };

    fn fmt<W: fmt::Write>(&self, f: &mut fmt::Formatter<W>) -> fmt::Result {
        match self.0 {
            Fact::Entries(who, n) => write!(f, "{who}: {n} entries"),
            Fact::Calls(who, calls) => write!(f, "{who}:{}", Often(calls)),
            Fact::Longest(way) => {
                let (n, g) = (way.length(), way.g.0);
                let (ready, claimed) = (way.ready, way.claimed);
                f.write_str("longest from ready to claimed: ")?;
                write!(
                    f,
                    "{n} entries, goroutine {g}, from entry {ready} to {claimed}"
                )
            }
            Fact::NoStep(line) => write!(f, "no step: {}", Ascii(line)),
            Fact::Machine {
                m,
                mode,
                holds,
                spins,
            } => {
                let (is, holds) = (mode_words(*mode), Holds(*holds));
                let spins = if *spins { ", spins" } else { "" };
                write!(f, "before it: machine {} is {is}{holds}{spins}", m.0)
            }
            Fact::Allowed(reply) => write!(f, "allowed: {}", Ascii(reply)),
            Fact::Lacks(need) => write!(f, "allowed: none, since {}", need_words(*need)),
            Fact::Over => f.write_str("allowed: none, since the run was over"),
            Fact::Leads(end) => write!(f, "the entries lead to: {}", end_words(*end)),
            _ => Ok(()),
        }
    }
}

/// What is said of channels and cycles, and the rest.
#[derive(Clone, Copy)]
struct OfChannel<'a>(&'a Fact<'a>);

impl fmt::Display for OfChannel<'_> {
    ghost use Rattle.std.specs.Prelude.{Some};
    ghost use Rattle.gmp_explain.specs.Text.{channel_text};

    ghost output = { λ x. Some (channel_text x.0.now) };

    fn fmt<W: fmt::Write>(&self, f: &mut fmt::Formatter<W>) -> fmt::Result {
        match self.0 {
            Fact::Channel {
                c,
                closed,
                room,
                holds,
            } => {
                let is = if *closed { "closed" } else { "open" };
                write!(f, "channel {}: {is}, room {room}, holds {holds}", c.0)
            }
            Fact::Values(c, values) => write!(f, "channel {}: values{}", c.0, Numbers(values)),
            Fact::Dealers(c, role, who) => {
                write!(f, "channel {}: {}:{}", c.0, role_words(*role), Who(who))
            }
            Fact::Link { g, by, help } => {
                write!(
                    f,
                    "cycle: {} waits for {}, in this trace the only one that {help}",
                    g.0, by.0
                )
            }
            Fact::Cycles => f.write_str(
                "cycle: so it was seen here; it proves nothing of other runs",
            ),
            other => write!(f, "{}", Rest(other)),
        }
    }
}

impl fmt::Display for Fact<'_> {
    ghost use Rattle.std.specs.Prelude.{Some};
    ghost use Rattle.gmp_explain.specs.Text.{fact_text};

    ghost output = { λ x. Some (fact_text x) };

    fn fmt<W: fmt::Write>(&self, f: &mut fmt::Formatter<W>) -> fmt::Result {
        match self {
            Fact::End {
                end,
                entries,
                first,
            } => {
                let (end, from) = (end_words(*end), FromEntry(*first));
                write!(f, "outcome: {end}, after {entries} entries{from}")
            }
            Fact::Goroutine(told) => write!(f, "{told}"),
            Fact::Case { g, offer } => {
                let would = Dealing(offer);
                write!(f, "goroutine {}: case {} would {would}", g.0, offer.case)
            }
            Fact::Lost { g, lost } => { write!(f, "goroutine {}: {lost}", g.0) }
            Fact::Latest(r) => write!(
                f,
                "goroutine {}: its latest ticket is {}.{}",
                r.g.0, r.g.0, r.epoch
            ),
            other => write!(f, "{}", OfChannel(other)),
        }
    }
}
