//! The words of clauses.

ghost use Rattle.std.specs.Prelude.{◌≡◌, ◌≤◌};
ghost use Rattle.verdicts.specs.Numbers.{number_within};
ghost use Rattle.clause_text.specs.Tokens.{read_as};
ghost use Rattle.clause_text.specs.Words.{token_of, minus_token, plain_token};

use cnf::Lit;
use verdicts::number_within;

/// What a word is in a clause: none of its words, 0, which ends it, or a literal.
#[derive(Clone, Copy)]
pub(crate) enum Word {
    Stray,
    Ends,
    Says(Lit),
}

/// A number after a minus; `-0` is none.
fn minus_token(most: u32, word: &[u8]) -> Word
    requires { most ≤ 10000000 }
    ensures { read_as result ≡ minus_token (number_within 0 most word.now) }
{
    match number_within(word, 0, u64::from(most)) {
        None => Word::Stray,
        Some(0) => Word::Stray,
        Some(number) => Word::Says(Lit::new(number as u32, false)),
    }
}

/// A number without a sign.
fn plain_token(most: u32, word: &[u8]) -> Word
    requires { most ≤ 10000000 }
    ensures { read_as result ≡ plain_token (number_within 0 most word.now) }
{
    match number_within(word, 0, u64::from(most)) {
        None => Word::Stray,
        Some(0) => Word::Ends,
        Some(number) => Word::Says(Lit::new(number as u32, true)),
    }
}

/// What a word is in a clause whose variables are at most this one.
pub(crate) fn token_of(most: u32, word: &[u8]) -> Word
    requires { most ≤ 10000000 }
    ensures { read_as result ≡ token_of most word.now }
{
    match word.split_first() {
        None => Word::Stray,
        Some((first, rest)) => {
            if *first == b'-' {
                minus_token(most, rest)
            } else {
                plain_token(most, word)
            }
        }
    }
}
