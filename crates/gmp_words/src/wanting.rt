//! The option `--want`: names of what is wanted of all runs of a script, parted by commas.

ghost use Rattle.std.specs.Prelude.{◌≡◌, ◌==◌, IfNone, IfSome, codes, false};
ghost use Rattle.std.specs.List.{list_all, list_any, slice_split};
ghost use Rattle.std.specs.Str.{bytes_eq};
ghost use Rattle.clap.specs.Words.{found_of, rows_of, rule_of};
ghost use Rattle.gmp_words.specs.Program.{option};
ghost use Rattle.gmp_words.specs.Words.{AreWanted, is_name, names_wanted};

use crate::numeric::given;
use crate::options::Wanted;
use clap::{Arg, ArgAction, ArgMatches};
use std::alloc::Global;

// What can be wanted. The first is where the option is not given.
const NO_DEADLOCK: &[u8] = b"no-deadlock";

const NO_FAULT: &[u8] = b"no-fault";

const NO_LEAK: &[u8] = b"no-leak";

const MAIN_ENDS: &[u8] = b"main-ends";

/// The option as `clap` has it, which takes any text: the names are parted and judged here.
pub fn arg<'a>(alloc: Global) -> Arg<'a>
    ensures rule { rule_of result ≡ option (codes "want") }
    ensures local { result.global ≡ false }
{
    Arg::new(alloc, "want")
        .long("want")
        .action(ArgAction::Set)
        .help(
            "What is wanted of all runs, parted by commas: no-deadlock, no-fault, no-leak, main-ends [default: no-deadlock]",
        )
}

/// Whether the text is a name of what can be wanted.
fn is_name(text: &[u8]) -> bool
    ensures { result ≡ is_name text.now }
{
    text == NO_DEADLOCK || text == NO_FAULT || text == NO_LEAK || text == MAIN_ENDS
}

/// Whether each part of the list is such a name.
fn are_names(list: &[u8]) -> bool
    ensures { result ≡ list_all is_name (slice_split (λ b. b == 44) list.now) }
{
    list.split(|byte| *byte == b',').all(is_name)
}

/// Whether the name is a part of the list.
fn has(list: &[u8], name: &[u8]) -> bool
    ensures { result ≡ list_any (λ part. bytes_eq part name.now) (slice_split (λ b. b == 44) list.now) }
{
    list.split(|byte| *byte == b',').any(|one| one == name)
}

/// The names that the option gives, parted by commas.
fn names_of<'a>(matches: &'a ArgMatches) -> &'a [u8]
    ensures { slice_split (λ b. b == 44) result.now ≡ names_wanted (rows_of (found_of matches.now)) }
{
    match given(matches, "want") {
        Some(names) => names.as_bytes(),
        None => NO_DEADLOCK,
    }
}

/// What the option names.
///
/// None where something is no name of what can be wanted.
pub fn wanted(matches: &ArgMatches) -> Option<Wanted>
    ensures some { IfSome result (AreWanted (rows_of (found_of matches.now))) }
    ensures none { IfNone result ((w : Wanted) → AreWanted (rows_of (found_of matches.now)) w → ⊥) }
{
    let list = names_of(matches);
    if !are_names(list) {
        return None;
    }
    Some(Wanted {
        no_deadlock: has(list, NO_DEADLOCK),
        no_fault: has(list, NO_FAULT),
        no_leak: has(list, NO_LEAK),
        main_ends: has(list, MAIN_ENDS),
    })
}
