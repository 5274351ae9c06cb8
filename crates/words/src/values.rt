//! The values of words in what `clap` found.

ghost use Rattle.std.specs.Prelude.{◌≡◌, option_map};
ghost use Rattle.verdicts.specs.Numbers.{number_within};
ghost use Rattle.clap.specs.Words.{first_of, found_of, rows_of};
ghost use Rattle.words.specs.Values.{workers_in, number_in};

use clap::ArgMatches;
use verdicts::number_within;

/// The value of an argument, by its id, in what `clap` found: None where it has none.
pub fn value_at<'a>(matches: &ArgMatches<'a>, id: &str) -> Option<&'a str>
    ensures { option_map (λ value. value.now) result ≡ first_of id.now (rows_of (found_of matches.now)) }
{
    matches.get_str(id)
}

/// A number of workers.
fn workers_of(word: &str) -> Option<u8>
    ensures { result ≡ number_within 1 16 word.now }
{
    number_within(word.as_bytes(), 1, 16).map(|workers| workers as u8)
}

/// The number of workers, the value of `workers`, from 1 to 16: None where there is no value, or where it is no
/// such number.
pub fn workers_in(matches: &ArgMatches<'_>) -> Option<u8>
    ensures { result ≡ workers_in (rows_of (found_of matches.now)) }
{
    workers_of(value_at(matches, "workers")?)
}

/// A number of 32 bits.
fn number_of(word: &str) -> Option<u32>
    ensures { result ≡ number_within 0 4294967295 word.now }
{
    number_within(word.as_bytes(), 0, 4_294_967_295).map(|number| number as u32)
}

/// The value of `number`, a number of 32 bits: None where there is no value, or where it is no such number.
pub fn number_in(matches: &ArgMatches<'_>) -> Option<u32>
    ensures { result ≡ number_in (rows_of (found_of matches.now)) }
{
    number_of(value_at(matches, "number")?)
}
