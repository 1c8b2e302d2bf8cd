//! How many cases an ask has.
ghost use Rattle.gmp_acts.specs.Acts.{HasFewCases};

use gmp_base::Ask;

/// A select has at most 8 cases: its type holds no more. It does nothing; its contract tells the definitions what the type knows.
pub(crate) fn has_few(ask: &Ask)
    ensures { HasFewCases ask.now }
{
    if let Ask::Select(cases, _, _) = ask {
        prove!(cases.len() <= 8);
    }
}
