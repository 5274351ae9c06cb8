//! Lines of rules and of witnesses.

ghost use Rattle.std.specs.Prelude.{◌≡◌, ℕ, option_map};
ghost use Rattle.vocab.specs.Study.{Question};
ghost use Rattle.verdicts.specs.Numbers.{read_number, saturated};
ghost use Rattle.verdicts.specs.Texts.{words_of};
ghost use Rattle.verdicts.specs.Lines.{Row};
ghost use Rattle.verdicts.specs.Reading.{keyed, one_word, read_row};
ghost use Rattle.report_lines.specs.Rest.{words_after};
ghost use Rattle.report_lines.specs.Wanted.{held_wanted};

use crate::head::read_count;
use crate::lines::Line;
use crate::places::Place;
use crate::values::{read_outcome, read_profile};
use crate::words::{after_first, cut_word, next_keyed, next_word, only_word};
use outcomes::OutcomeKind;
use verdicts::read_number;
use vocab::Name;

/// The line before the rows of a rule.
pub(crate) fn read_rule(text: &[u8]) -> Option<Line>
    ensures { (study : Question) (number : ℕ) →
        result ≡ held_wanted study Place.AtRule number (words_of text.now) }
{
    match read_count(text, b"rule") {
        Some(count) => Some(Line::RuleOf(count)),
        None => None,
    }
}

/// The profile and the outcome of a row.
pub fn read_row_parts<K: OutcomeKind>(kind: &K, text: &[u8]) -> Option<(u32, u8)>
    ensures { (study : Question) → study.size ≡ K.size kind.now →
        read_row study (words_of text.now) ≡ option_map (λ row. Row row.0 row.1) result }
{
    let (word, rest) = cut_word(text);
    let profile = read_profile(kind.space(), word)?;
    let outcome = read_outcome(kind, only_word(rest)?)?;
    Some((profile, outcome))
}

/// A row: a profile and its outcome.
pub(crate) fn read_row<K: OutcomeKind>(kind: &K, text: &[u8]) -> Option<Line>
    ensures { (study : Question) (number : ℕ) → study.size ≡ K.size kind.now →
        result ≡ held_wanted study Place.AtRow number (words_of text.now) }
{
    match read_row_parts(kind, text) {
        Some((profile, outcome)) => Some(Line::Row(profile, outcome)),
        None => None,
    }
}

fn read_next_count(rest: &[u8], key: &[u8]) -> Option<u64>
    ensures { result ≡ option_map saturated (keyed key.now (one_word read_number) (words_after rest.now)) }
{
    read_number(next_keyed(rest, key)?)
}

/// The first line of a witness: the name of an axiom, and a rule or an open mark.
pub(crate) fn read_witness(text: &[u8]) -> Option<Line>
    ensures { (study : Question) (number : ℕ) →
        result ≡ held_wanted study Place.AtWitness number (words_of text.now) }
{
    let Some(rest) = after_first(text, b"without") else {
        return None;
    };
    let Some((word, more)) = next_word(rest) else {
        return None;
    };
    let Some(name) = Name::new(word) else {
        return None;
    };
    if let Some(count) = read_next_count(more, b"rule") {
        return Some(Line::WithRule(name, count));
    }
    match read_next_count(more, b"open") {
        Some(limit) => Some(Line::WithOpen(name, limit)),
        None => None,
    }
}
