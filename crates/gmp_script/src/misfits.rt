//! What is wrong with a bad line, for the person who wrote it: by the command that its first word names, and where it stands.
//! That it is bad was found before, and nothing is decided here.

use crate::lines::{capacity, channel, narrow, processors, value};
use std::fmt;

/// What stands behind a command's word.
#[derive(Clone, Copy)]
pub enum Operand {
    Goroutine,
    Channel,
    Capacity,
    Processors,
    Value,
    Number,
    Moment,
    /// How many commands are skipped.
    Skip,
    /// Moments, one or more.
    Moments,
    /// What stands behind `select`.
    Cases,
}

impl Operand {
    /// Whether the word is one. Of those that are many it is not asked: the line is bad, so one of them is.
    fn is(self, word: &[u8]) -> bool {
        match self {
            Operand::Goroutine | Operand::Skip => narrow(word).is_some(),
            Operand::Channel => channel(word).is_some(),
            Operand::Capacity => capacity(word).is_some(),
            Operand::Processors => processors(word).is_some(),
            Operand::Value | Operand::Number | Operand::Moment => value(word).is_some(),
            Operand::Moments | Operand::Cases => false,
        }
    }

    /// What it has to be.
    fn words(self) -> &'static str {
        match self {
            Operand::Goroutine => "K is a number from 0 to 65535",
            Operand::Channel => "C is a number from 0 to 65535, or nil",
            Operand::Capacity => "CAP is a number from 0 to 4294967295",
            Operand::Processors => "N is a number from 0 to 255",
            Operand::Value => "V is a number from 0 to 18446744073709551615",
            Operand::Number => "N is a number from 0 to 18446744073709551615",
            Operand::Moment => "D is a number from 0 to 18446744073709551615",
            Operand::Skip => "N is a number from 0 to 65535",
            Operand::Moments =>
                "each N is a number from 0 to 18446744073709551615, and there is one or more",
            Operand::Cases =>
                "a CASE is recv:C or send:C:V, 8 at most; C is a number or nil, V and D are numbers",
        }
    }
}

/// Where a line may stand.
#[derive(Clone, Copy)]
enum Place {
    Anywhere,
    Opening,
    Body,
}

/// What a line has to be that begins with a command's word.
#[derive(Clone, Copy)]
struct Form {
    place: Place,
    usage: &'static str,
    operands: &'static [Operand],
    /// What stands behind the word `else`, where that may follow.
    otherwise: Option<Operand>,
}

/// A form in a body.
const fn in_body(usage: &'static str, operands: &'static [Operand]) -> Form {
    Form {
        place: Place::Body,
        usage,
        operands,
        otherwise: None,
    }
}

/// The form of the lines that begin with this word, if it is a command's.
fn form_of(word: &[u8]) -> Option<Form> {
    let form = match word {
        b"chan" => Form {
            place: Place::Opening,
            usage: "chan CAP",
            operands: &[Operand::Capacity],
            otherwise: None,
        },
        b"clock" => Form {
            place: Place::Opening,
            usage: "clock N ..",
            operands: &[Operand::Moments],
            otherwise: None,
        },
        b"body" => Form {
            place: Place::Anywhere,
            usage: "body",
            operands: &[],
            otherwise: None,
        },
        b"yield" => in_body("yield", &[]),
        b"go" => in_body("go K", &[Operand::Goroutine]),
        b"make" => in_body("make CAP", &[Operand::Capacity]),
        b"send" => in_body("send C V", &[Operand::Channel, Operand::Value]),
        b"recv" => Form {
            place: Place::Body,
            usage: "recv C[ else N]",
            operands: &[Operand::Channel],
            otherwise: Some(Operand::Skip),
        },
        b"close" => in_body("close C", &[Operand::Channel]),
        b"len" => in_body("len C", &[Operand::Channel]),
        b"cap" => in_body("cap C", &[Operand::Channel]),
        b"select" => in_body("select[ CASE]..[ default][ until D]", &[Operand::Cases]),
        b"sleep" => in_body("sleep D", &[Operand::Moment]),
        b"procs" => in_body("procs N", &[Operand::Processors]),
        b"park" => in_body("park", &[]),
        b"ready" => in_body("ready K", &[Operand::Goroutine]),
        b"block" => in_body("block N", &[Operand::Number]),
        b"exit" => in_body("exit", &[]),
        b"again" => in_body("again", &[]),
        _ => return None,
    };
    Some(form)
}

/// What is wrong with a bad line. Its text, by `Display`, has no line feed.
#[derive(Clone, Copy)]
pub enum Misfit {
    /// It is the first line of a trace.
    Trace,
    /// A tab or a carriage return stands in it.
    Blank,
    /// Its first word is no command. Behind a line `body` there are others than before.
    Unknown { in_body: bool },
    /// The line stands only before the first line `body`.
    Late(&'static str),
    /// The line stands only behind one.
    Early(&'static str),
    /// This is missing, or not what it has to be.
    Operand(&'static str, Operand),
    /// A comment stands behind the command.
    Comment,
    /// There is a word too many.
    More(&'static str),
    /// It is a body's first command.
    First(&'static str),
}

impl fmt::Display for Misfit {
    fn fmt<W: fmt::Write>(&self, f: &mut fmt::Formatter<W>) -> fmt::Result {
        match self {
            Misfit::Trace => f.write_str("this is a trace: gmp explain says what it tells"),
            Misfit::Blank => f.write_str(
                "words are parted by spaces, with no tab and no carriage return",
            ),
            Misfit::Unknown { in_body: false } => f.write_str(
                "before the first body: chan CAP, clock N .., body",
            ),
            Misfit::Unknown { in_body: true } => f.write_str(
                "yield, go, make, send, recv, close, len, cap, select, sleep, procs, park, ready, block, exit, again, body",
            ),
            Misfit::Late(usage) => write!(f, "{usage}: only before the first body"),
            Misfit::Early(usage) => write!(f, "{usage}: only behind a line body"),
            Misfit::Operand(usage, operand) => write!(f, "{usage}: {}", operand.words()),
            Misfit::Comment => f.write_str("a comment has a line of its own"),
            Misfit::More(usage) => write!(f, "{usage}: one word too many"),
            Misfit::First(usage) => write!(f, "{usage}: not a body's first command"),
        }
    }
}

/// What is wrong with this line, which is bad where it stands: behind a line `body`, or before the first.
pub fn misfit_of(line: &[u8], in_body: bool) -> Misfit {
    if line.contains(&b'\t') || line.contains(&b'\r') {
        return Misfit::Blank;
    }
    let mut words = line
        .split(|byte| *byte == b' ')
        .filter(|word| !word.is_empty());
    let first = words.next().unwrap_or(b"");
    let Some(form) = form_of(first) else {
        return if first == b"gmp-trace".as_slice() {
            Misfit::Trace
        } else {
            Misfit::Unknown { in_body }
        };
    };
    match form.place {
        Place::Opening if in_body => return Misfit::Late(form.usage),
        Place::Body if !in_body => return Misfit::Early(form.usage),
        _ => {}
    }
    for operand in form.operands {
        match words.next() {
            Some(word) if operand.is(word) => {}
            _ => return Misfit::Operand(form.usage, *operand),
        }
    }
    let mut rest = words.next();
    if let Some(operand) = form.otherwise
        && rest.is_some_and(|word| word == b"else".as_slice())
    {
        match words.next() {
            Some(word) if operand.is(word) => rest = words.next(),
            _ => return Misfit::Operand(form.usage, operand),
        }
    }
    match rest {
        Some(word) if word.starts_with(b"#") => Misfit::Comment,
        Some(_) => Misfit::More(form.usage),
        None => Misfit::First(form.usage),
    }
}
