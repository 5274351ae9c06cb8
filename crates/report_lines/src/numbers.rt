//! Numbers that are not 0.

ghost use Rattle.std.specs.Prelude.{◌≡◌, option_map};
ghost use Rattle.verdicts.specs.Numbers.{saturated};
ghost use Rattle.verdicts.specs.Reading.{read_positive};

use verdicts::read_number;

/// The number of a word, where it is not 0.
pub(crate) fn read_positive(word: &[u8]) -> Option<u64>
    ensures { result ≡ option_map saturated (read_positive word.now) }
{
    match read_number(word) {
        Some(number) => { if number == 0 { None } else { Some(number) } }
        None => None,
    }
}
