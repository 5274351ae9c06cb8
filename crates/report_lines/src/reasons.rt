//! Reasons by their words.

ghost use Rattle.std.specs.Prelude.{◌≡◌, ◌-◌, ◌+◌, ◌^◌, ◌≤◌, [], ◌∷◌, min, codes, option_map, MatchOption};
ghost use Rattle.vocab.specs.Formula.{prefix_of, quantifier_depth};
ghost use Rattle.vocab.specs.Study.{Question};
ghost use Rattle.vocab.specs.Tree.{tree_of};
ghost use Rattle.meaning.specs.declared.stories.Reason.TheVariants.{Outcome as ByOutcome, Lemma as ByLemma};
ghost use Rattle.verdicts.specs.Texts.{read_profile};
ghost use Rattle.verdicts.specs.Reading.{keyed, one_word, read_positive, read_values, read_cited, read_reason};
ghost use Rattle.report_lines.specs.Held.{held_reason};
ghost use Rattle.report_lines.specs.Rest.{words_after};

use crate::indexed::IndexedStudy;
use crate::numbers::read_positive;
use crate::values::{read_profile, read_value};
use crate::words::{after_key, next_keyed, next_word};
use meaning::Reason;
use profiles::Space;
use vocab::{Env, Formula, Sort};

/// The sort of the first leading universal of a sentence, and what follows it.
fn leading(sentence: &Formula) -> Option<(Sort, &Formula)>
    ensures { MatchOption result
        (prefix_of (tree_of sentence.now) ≡ [])
        (λ first. (prefix_of (tree_of sentence.now) ≡ first.0 ∷ prefix_of (tree_of first.1.now))
        × (quantifier_depth (tree_of sentence.now) ≡ quantifier_depth (tree_of first.1.now) + 1)) }
{
    match sentence {
        Formula::All(sort, inner) => Some((*sort, inner)),
        _ => None,
    }
}

/// A value for each leading universal of a sentence.
fn read_values(space: &Space, sentence: &Formula, rest: &[u8]) -> Option<Env>
    requires { quantifier_depth (tree_of sentence.now) ≤ 12 }
    ensures { (study : Question) → space.now ≡ study.size →
        result ≡ read_values study (prefix_of (tree_of sentence.now)) (words_after rest.now) }
{
    let mut values = Env::none();
    let mut body = sentence;
    let mut left = rest;
    while let Some((sort, inner)) = leading(body) {
        let Some((word, more)) = next_word(left) else {
            return None;
        };
        let Some(value) = read_value(space, sort, word) else {
            return None;
        };
        values = values.with(value);
        body = inner;
        left = more;
    }
    if left.is_empty() { Some(values) } else { None }
}

/// An axiom of the study by its name, with one value in range for each leading universal, by the words that
/// are left of a line.
pub fn read_cited(study: &IndexedStudy, space: &Space, rest: &[u8]) -> Option<Reason>
    requires { space.now ≡ study.now.size }
    ensures { result ≡ read_cited study.now (words_after rest.now) }
{
    let axioms = study.axioms();
    let Some((word, more)) = next_word(rest) else {
        return None;
    };
    let Some(place) = study.place_of(word) else {
        return None;
    };
    match read_values(space, axioms.get(place as usize).sentence(), more) {
        Some(values) => Some(Reason::Axiom(place, values)),
        None => None,
    }
}

fn read_by_axiom(study: &IndexedStudy, space: &Space, rest: &[u8]) -> Option<Reason>
    requires { space.now ≡ study.now.size }
    ensures { result ≡ keyed (codes "axiom") (read_cited study.now) (words_after rest.now) }
{
    let Some(more) = after_key(rest, b"axiom") else {
        return None;
    };
    read_cited(study, space, more)
}

fn read_by_outcome(space: &Space, rest: &[u8]) -> Option<Reason>
    ensures { result ≡
        keyed (codes "outcome") (one_word (λ w. option_map ByOutcome (read_profile space.now w)))
        (words_after rest.now) }
{
    let Some(word) = next_keyed(rest, b"outcome") else {
        return None;
    };
    match read_profile(space, word) {
        Some(profile) => Some(Reason::Outcome(profile)),
        None => None,
    }
}

/// The place of the lemma of a number from 1, which stands still at the end of `u32`.
fn place_of(number: u64) -> u32
    ensures { result ≡ min (number - 1) (2 ^ 32 - 1) }
{
    number.saturating_sub(1).min(u64::from(u32::MAX)) as u32
}

fn read_by_lemma(rest: &[u8]) -> Option<Reason>
    ensures { result ≡
        option_map held_reason (keyed (codes "lemma") (one_word (λ w. option_map (λ j. ByLemma (j - 1))
        (read_positive w))) (words_after rest.now)) }
{
    let Some(word) = next_keyed(rest, b"lemma") else {
        return None;
    };
    match read_positive(word) {
        Some(number) => Some(Reason::Lemma(place_of(number))),
        None => None,
    }
}

/// An axiom of the study with its values, a profile, or the number of a lemma.
pub(crate) fn read_reason(study: &IndexedStudy, space: &Space, rest: &[u8]) -> Option<Reason>
    requires { space.now ≡ study.now.size }
    ensures { result ≡ option_map held_reason (read_reason study.now (words_after rest.now)) }
{
    if let Some(reason) = read_by_axiom(study, space, rest) {
        return Some(reason);
    }
    if let Some(reason) = read_by_outcome(space, rest) {
        return Some(reason);
    }
    read_by_lemma(rest)
}
