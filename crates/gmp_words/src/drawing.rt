//! The option `--by`: what has a lane in a picture.

ghost use Rattle.std.specs.Prelude.{◌≡◌, codes, false};
ghost use Rattle.clap.specs.Words.{found_of, rows_of, rule_of};
ghost use Rattle.gmp_words.specs.Program.{option};
ghost use Rattle.gmp_words.specs.Words.{lanes_by};

use crate::numeric::given;
use crate::options::By;
use clap::{Arg, ArgAction, ArgMatches};
use std::alloc::Global;

/// The option as `clap` has it, which takes any text: the name is judged here.
pub fn arg<'a>(alloc: Global) -> Arg<'a>
    ensures rule { rule_of result ≡ option (codes "by") }
    ensures local { result.global ≡ false }
{
    Arg::new(alloc, "by").long("by").action(ArgAction::Set).help(
        "What has a lane in the picture: machine or goroutine [default: machine]",
    )
}

/// What the option names.
///
/// None where that has no lane.
pub fn by(matches: &ArgMatches) -> Option<By>
    ensures { result ≡ lanes_by (rows_of (found_of matches.now)) }
{
    let Some(name) = given(matches, "by") else {
        return Some(By::Machine);
    };
    if name == "machine" {
        Some(By::Machine)
    } else if name == "goroutine" {
        Some(By::Goroutine)
    } else {
        None
    }
}
