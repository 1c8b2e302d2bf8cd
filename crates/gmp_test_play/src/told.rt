//! What a goroutine is told, as a line writes it: no trace prints that, so it may follow a call.

use gmp_base::Woke;
use std::alloc::{AllocError, Global};

/// What a line writes of it.
pub fn text_of(alloc: Global, told: Option<Woke>) -> Result<String, AllocError> {
    let Some(woke) = told else {
        return format!(in alloc; "nothing");
    };
    match woke {
        Woke::First => format!(in alloc; "first"),
        Woke::Done => format!(in alloc; "done"),
        Woke::Got(value, sent) => format!(in alloc; "got {value} {sent}"),
        Woke::Chose(case, None) => format!(in alloc; "chose {case}"),
        Woke::Chose(case, Some((value, sent))) => {
            format!(in alloc; "chose {case} got {value} {sent}")
        }
        Woke::Default => format!(in alloc; "default"),
        Woke::Late => format!(in alloc; "late"),
        Woke::Number(n) => format!(in alloc; "number {n}"),
        Woke::Made(c) => format!(in alloc; "chan {}", c.0),
        Woke::Fault(fault) => format!(in alloc; "fault {}", fault.number()),
        Woke::NoMemory => format!(in alloc; "no memory"),
    }
}
