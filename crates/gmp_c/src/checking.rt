//! What the plain scheduler says of a text.
ghost use Rattle.std.specs.Prelude.{◌≡◌, ◌⊎◌, None, IfSome};
ghost use Rattle.gmp_trace.specs.declared.bad.Why.TheVariants.{OutOfMemory};
ghost use Rattle.gmp_trace.specs.Reading.{IsFault};
ghost use Rattle.gmp_c.specs.Checking.{IsJudged, IsRightText, IsWrongText};

use crate::OUT_OF_MEMORY;
use gmp_check::check;
use gmp_trace::{Bad, Why, read};
use std::alloc::Global;

/// That a text is no right trace's.
const WRONG: u32 = 1;

/// The first bad line of a text, if it has one. Its word is `OutOfMemory` where memory was refused, and then the text may be right.
fn first_bad(alloc: Global, text: &[u8]) -> Option<Bad>
    ensures right { result ≡ None → IsRightText text.now }
    ensures wrong { IfSome result (λ bad. IsFault text.now bad.line bad.why ⊎ IsWrongText text.now bad) }
    ensures exact { IsRightText text.now → IfSome result (λ bad. bad.why ≡ OutOfMemory) }
{
    match read(alloc, text) {
        Ok(trace) => check(alloc, &trace).err(),
        Err(bad) => Some(bad),
    }
}

/// The number of what is found of a text, and its first bad line where that is `WRONG`.
pub(crate) fn judged(alloc: Global, text: &[u8], line: &mut u64) -> u32
    ensures { IsJudged text.now result line.new }
{
    match first_bad(alloc, text) {
        None => 0,
        Some(
            Bad {
                why: Why::OutOfMemory,
                ..
            },
        ) => OUT_OF_MEMORY,
        Some(bad) => {
            *line = bad.line;
            WRONG
        }
    }
}
