//! Literals by their texts.

ghost use Rattle.std.specs.Prelude.{◌≡◌, ◌≢◌, ℕ, ◌<◌, List, ◌∷◌, MatchOption, IsTrue};
ghost use Rattle.vocab.specs.declared.kinds.Sort.TheVariants.{Profile};
ghost use Rattle.vocab.specs.declared.literals.Literal.{Literal};
ghost use Rattle.vocab.specs.Size.{sort_count};
ghost use Rattle.meaning.specs.Literals.{is_comparison, is_of_winner};
ghost use Rattle.meaning.specs.Texts.{letter, profile_text};
ghost use Rattle.verdicts.specs.Texts.{literal_text, read_literal};

use crate::values::{alternative_of, read_profile};
use profiles::Space;
use vocab::{Kind, Literal};

/// The byte before a mark at the second place of a word, and what follows the mark.
fn cut_mark(word: &[u8], mark: u8) -> Option<(u8, &[u8])>
    ensures { MatchOption result
        ((byte : ℕ) (rest : List ℕ) → word.now ≢ byte ∷ mark ∷ rest)
        (λ cut. word.now ≡ cut.0 ∷ mark ∷ cut.1.now) }
{
    let [byte, second, rest @ ..] = word else {
        return None;
    };
    if *second == mark {
        Some((*byte, rest))
    } else {
        None
    }
}

/// What follows the mark `!`.
fn cut_not(word: &[u8]) -> Option<&[u8]>
    ensures { MatchOption result
        ((rest : List ℕ) → word.now ≢ 33 ∷ rest)
        (λ rest. word.now ≡ 33 ∷ rest.now) }
{
    let Some((first, rest)) = word.split_first() else {
        return None;
    };
    if *first == b'!' { Some(rest) } else { None }
}

/// The alternative and the profile of a word `x@PROFILE`.
fn read_winner(space: &Space, word: &[u8]) -> Option<(u8, u32)>
    ensures { MatchOption result
        ((x p : ℕ) → x < space.now.alternatives → p < sort_count space.now Profile →
        word.now ≢ letter x ∷ 64 ∷ profile_text space.now p)
        (λ found. (found.0 < space.now.alternatives) × (found.1 < sort_count space.now Profile) ×
        (word.now ≡ letter found.0 ∷ 64 ∷ profile_text space.now found.1)) }
{
    let Some((byte, text)) = cut_mark(word, b'@') else {
        return None;
    };
    let Some(alternative) = alternative_of(space, byte) else {
        return None;
    };
    match read_profile(space, text) {
        Some(profile) => Some((alternative, profile)),
        None => None,
    }
}

/// A literal of a kind with winners: `x@PROFILE` where x wins, and `!x@PROFILE` where it does not.
fn read_winning(space: &Space, word: &[u8]) -> Option<Literal>
    ensures { MatchOption result
        ((l : Literal) → IsTrue (is_of_winner space.now l) → word.now ≢ literal_text space.now l)
        (λ l. IsTrue (is_of_winner space.now l) × (word.now ≡ literal_text space.now l)) }
{
    if let Some(text) = cut_not(word) {
        let Some((alternative, profile)) = read_winner(space, text) else {
            return None;
        };
        return Some(Literal::Loses(alternative, profile));
    }
    let Some((alternative, profile)) = read_winner(space, word) else {
        return None;
    };
    Some(Literal::Wins(alternative, profile))
}

/// A literal of rankings: `x>y@PROFILE` where x stands above y.
fn read_ranking(space: &Space, word: &[u8]) -> Option<Literal>
    ensures { MatchOption result
        ((l : Literal) → IsTrue (is_comparison space.now l) → word.now ≢ literal_text space.now l)
        (λ l. IsTrue (is_comparison space.now l) × (word.now ≡ literal_text space.now l)) }
{
    let Some((byte, text)) = cut_mark(word, b'>') else {
        return None;
    };
    let Some(upper) = alternative_of(space, byte) else {
        return None;
    };
    let Some((lower, profile)) = read_winner(space, text) else {
        return None;
    };
    if upper == lower {
        None
    } else {
        Some(Literal::Above(upper, lower, profile))
    }
}

/// The literal of a word.
pub(crate) fn read_literal(space: &Space, word: &[u8]) -> Option<Literal>
    ensures { result ≡ read_literal space.now word.now }
{
    profiles::laws::spaces_have_sizes(space);
    match space.size().kind() {
        Kind::Choice => read_winning(space, word),
        Kind::Ranking => read_ranking(space, word),
        Kind::Sets => read_winning(space, word),
    }
}
