//! Numbers that are written in digits. Leading zeros are fine here: a person writes them. A trace has one spelling of each number.

ghost use Rattle.std.specs.Prelude.{◌≡◌};
ghost use Rattle.gmp_script.specs.Numbers.{parsed_number};

/// The number that digits write, or none where there is another byte, no digit, or a number above 2^64 - 1.
pub fn number(word: &[u8]) -> Option<u64>
    ensures { result ≡ parsed_number word.now }
{
    // `parse` reads a leading plus too.
    if matches!(word, [b'+', ..]) {
        return None;
    }
    std::str::from_utf8(word).ok()?.parse().ok()
}
