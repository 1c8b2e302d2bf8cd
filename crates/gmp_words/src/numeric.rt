//! Options that take a number. `clap` finds the text of each and says what is wrong with a command line; the number is read here, from that
//! text, since `clap`'s parser takes `--procs +4` too.

ghost use Rattle.std.specs.Prelude.{◌≡◌, ◌≤◌, ℕ, IsSome, IfSome, Some, false, option_map};
ghost use Rattle.clap.specs.Words.{found_of, rows_of, rule_of};
ghost use Rattle.gmp_words.specs.Program.{numeric_of};
ghost use Rattle.gmp_words.specs.Words.{given, number_given};

use clap::builder::ValueParser;
use clap::{Arg, ArgAction, ArgMatches};
use gmp_script::number;
use std::alloc::Global;

/// An option that takes a number.
#[derive(Clone, Copy)]
pub struct Numeric {
    /// The option without its dashes.
    pub id: &'static str,
    /// What `--help` says of it, with its range and its default.
    pub help: &'static str,
    /// The range, with both ends.
    pub least: u64,
    pub most: u64,
    /// The number where the option is not given.
    pub default: u64,
}

impl Numeric {
    /// The option as `clap` has it, with no default: the default is `read`'s.
    pub fn arg<'a>(&self, alloc: Global) -> Arg<'a>
        ensures rule { rule_of result ≡ numeric_of self.now }
        ensures local { result.global ≡ false }
    {
        Arg::new(alloc, self.id)
            .long(self.id)
            .action(ArgAction::Set)
            .value_parser(ValueParser::unsigned(self.least, self.most))
            .help(self.help)
    }

    /// The number that the option is given, or the default where it is not.
    ///
    /// None where it is out of range, or is not written in digits alone.
    pub fn read(&self, matches: &ArgMatches) -> Option<u64>
        ensures in_range { IfSome result (λ n. (self.now.least ≤ n) × (n ≤ self.now.most)) }
        ensures value { IfSome result (λ n. number_given (rows_of (found_of matches.now)) self.now.id.now self.now.default ≡ Some n) }
        ensures succeeds { (n : ℕ) → number_given (rows_of (found_of matches.now)) self.now.id.now self.now.default ≡ Some n
            → self.now.least ≤ n → n ≤ self.now.most → IsSome result }
    {
        let n = match given(matches, self.id) {
            None => self.default,
            Some(digits) => number(digits.as_bytes())?,
        };
        if self.least <= n && n <= self.most {
            Some(n)
        } else {
            None
        }
    }
}

/// The text that an option is given.
pub fn given<'a>(matches: &ArgMatches<'a>, option: &str) -> Option<&'a str>
    ensures { option_map (λ text. text.now) result ≡ given (rows_of (found_of matches.now)) option.now }
{
    matches.get_str(option)
}
