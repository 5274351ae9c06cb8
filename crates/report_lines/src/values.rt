//! Values, rankings and outcomes by their texts.

ghost use Rattle.std.specs.Prelude.{◌≡◌, ◌≢◌, ℕ, ◌<◌, [], ◌∷◌, MatchOption};
ghost use Rattle.vocab.specs.declared.kinds.Sort.TheVariants.{Voter, Alt, Ballot};
ghost use Rattle.meaning.specs.Texts.{letter};
ghost use Rattle.verdicts.specs.Reading.{read_place};
ghost use Rattle.verdicts.specs.Texts.{read_profile, read_outcome, read_value};

use outcomes::OutcomeKind;
use profiles::{Space, place_of};
use verdicts::read_number;
use vocab::Sort;

/// The alternative of a letter.
pub(crate) fn alternative_of(space: &Space, byte: u8) -> Option<u8>
    ensures { MatchOption result
        ((x : ℕ) → x < space.now.alternatives → byte ≢ letter x)
        (λ x. (x < space.now.alternatives) × (byte ≡ letter x)) }
{
    if byte < b'a' || space.size().alternatives() <= byte - b'a' {
        None
    } else {
        Some(byte - b'a')
    }
}

/// The profile of a word.
pub(crate) fn read_profile(space: &Space, word: &[u8]) -> Option<u32>
    ensures { result ≡ read_profile space.now word.now }
{
    profiles::laws::spaces_have_sizes(space);
    match space.read_profile(word) {
        Ok(profile) => Some(profile),
        Err(_) => None,
    }
}

/// The outcome of a word.
pub(crate) fn read_outcome<K: OutcomeKind>(kind: &K, word: &[u8]) -> Option<u8>
    ensures { result ≡ read_outcome (K.size kind.now) word.now }
{
    outcomes::laws::kinds_have_sizes(kind);
    match kind.read(word) {
        Some(outcome) => Some(outcome as u8),
        None => None,
    }
}

fn read_voter(space: &Space, word: &[u8]) -> Option<u32>
    ensures { result ≡ read_value space.now Voter word.now }
{
    profiles::laws::spaces_have_sizes(space);
    let voters = u64::from(space.size().voters());
    let Some(number) = read_number(word) else {
        return None;
    };
    if number == 0 {
        return None;
    }
    if voters < number {
        return None;
    }
    Some((number - 1) as u32)
}

fn read_alternative(space: &Space, word: &[u8]) -> Option<u32>
    ensures { result ≡ read_value space.now Alt word.now }
{
    profiles::laws::spaces_have_sizes(space);
    if word.len() != 1 {
        return None;
    }
    match alternative_of(space, word[0]) {
        Some(alternative) => Some(u32::from(alternative)),
        None => None,
    }
}

/// The place of the ranking of a word among all rankings of the size's alternatives, whether voters may cast
/// it or not.
pub(crate) fn read_place(space: &Space, word: &[u8]) -> Option<u32>
    ensures { result ≡ read_place space.now.alternatives word.now }
{
    profiles::laws::spaces_have_sizes(space);
    place_of(space.alternatives(), word)
}

fn read_ballot(space: &Space, word: &[u8]) -> Option<u32>
    ensures { result ≡ read_value space.now Ballot word.now }
{
    profiles::laws::spaces_have_sizes(space);
    space.read_ballot(word)
}

/// The value of a sort that a word names: a voter is a number from 1, and an alternative its letter.
pub(crate) fn read_value(space: &Space, sort: Sort, word: &[u8]) -> Option<u32>
    ensures { result ≡ read_value space.now sort word.now }
{
    match sort {
        Sort::Voter => read_voter(space, word),
        Sort::Alt => read_alternative(space, word),
        Sort::Ballot => read_ballot(space, word),
        Sort::Profile => read_profile(space, word),
    }
}
