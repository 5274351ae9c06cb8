//! The number of a word of decimal digits.

ghost use Rattle.std.specs.Prelude.{◌≡◌, ◌-◌, ◌^◌, ◌<◌, option_map};
ghost use Rattle.std.specs.List.{list_all};
ghost use Rattle.vocab.specs.Name.{is_digit};
ghost use Rattle.verdicts.specs.Numbers.{is_number, value_after, read_number, number_within, saturated};

fn is_digit(c: u8) -> bool
    ensures { result ≡ is_digit c }
{
    48 <= c && c <= 57
}

fn are_digits(word: &[u8]) -> bool
    ensures { result ≡ list_all is_digit word.now }
{
    word.iter().all(|c| is_digit(*c))
}

fn is_number(word: &[u8]) -> bool
    ensures { result ≡ is_number word.now }
{
    match word.split_first() {
        None => false,
        Some((first, rest)) => is_digit(*first)
            && (rest.is_empty() || *first != b'0' && are_digits(rest)),
    }
}

/// The number of a word of digits, which stands still at the end of `u64`.
fn value(word: &[u8]) -> u64
    ensures { result ≡ saturated (value_after 0 word.now) }
{
    let mut value: u64 = 0;
    for digit in word {
        value = value
            .saturating_mul(10)
            .saturating_add(u64::from(digit.saturating_sub(b'0')));
    }
    value
}

/// The number of a word in decimal digits, without a sign and without a leading zero, except `0` itself: None
/// of any other word. It stands still at the end of `u64`.
pub fn read_number(word: &[u8]) -> Option<u64>
    ensures { result ≡ option_map saturated (read_number word.now) }
{
    if is_number(word) {
        Some(value(word))
    } else {
        None
    }
}

/// The number of a word in decimal digits, where it is one from `least` to `most`, which is less than the
/// greatest `u64`: None of any other word.
pub fn number_within(word: &[u8], least: u64, most: u64) -> Option<u64>
    requires { most < 2 ^ 64 - 1 }
    ensures { result ≡ number_within least most word.now }
{
    match read_number(word) {
        Some(number) => {
            if least <= number && number <= most {
                Some(number)
            } else {
                None
            }
        }
        None => None,
    }
}
