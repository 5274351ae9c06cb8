//! Lines of the study, and of the verdict.

ghost use Rattle.std.specs.Prelude.{◌≡◌, ℕ, Option, option_map};
ghost use Rattle.vocab.specs.Study.{Question};
ghost use Rattle.verdicts.specs.Numbers.{read_number, saturated};
ghost use Rattle.verdicts.specs.Texts.{words_of};
ghost use Rattle.verdicts.specs.Reading.{keyed, one_word};
ghost use Rattle.report_lines.specs.Wanted.{held_wanted};

use crate::all_axioms::are_all_axioms;
use crate::ballots::{are_all_ballots, are_rankings};
use crate::indexed::IndexedStudy;
use crate::lines::Line;
use crate::places::Place;
use crate::words::{after_first, are_names, first_keyed, is_same};
use profiles::Space;
use verdicts::{Confirmed, read_number};
use vocab::Kind;

/// The first line, with the version of the report.
pub(crate) fn read_title(text: &[u8]) -> Option<Line>
    ensures { (study : Question) (number : ℕ) →
        result ≡ held_wanted study Place.AtTitle number (words_of text.now) }
{
    if is_same(text, b"bench report 1") {
        Some(Line::Title(1))
    } else if is_same(text, b"bench report 2") {
        Some(Line::Title(2))
    } else {
        None
    }
}

/// The line of the kind.
pub(crate) fn read_kind(text: &[u8]) -> Option<Line>
    ensures { (study : Question) (number : ℕ) →
        result ≡ held_wanted study Place.AtKind number (words_of text.now) }
{
    let word = first_keyed(text, b"kind")?;
    if is_same(word, b"choice") {
        Some(Line::KindIs(Kind::Choice))
    } else if is_same(word, b"ranking") {
        Some(Line::KindIs(Kind::Ranking))
    } else if is_same(word, b"sets") {
        Some(Line::KindIs(Kind::Sets))
    } else {
        None
    }
}

/// The number of a line that has a key and a number. It stands still at the end of `u64`.
pub fn read_count(text: &[u8], key: &[u8]) -> Option<u64>
    ensures { result ≡ option_map saturated (keyed key.now (one_word read_number) (words_of text.now)) }
{
    read_number(first_keyed(text, key)?)
}

/// The line of how many voters there are.
pub(crate) fn read_voters(text: &[u8]) -> Option<Line>
    ensures { (study : Question) (number : ℕ) →
        result ≡ held_wanted study Place.AtVoters number (words_of text.now) }
{
    read_count(text, b"voters").map(Line::VotersAre)
}

/// The line of how many alternatives there are.
pub(crate) fn read_alternatives(text: &[u8]) -> Option<Line>
    ensures { (study : Question) (number : ℕ) →
        result ≡ held_wanted study Place.AtAlternatives number (words_of text.now) }
{
    Some(Line::AlternativesAre(read_count(text, b"alternatives")?))
}

/// The line of the rankings that voters may cast: one or more.
pub(crate) fn read_ballots(space: &Space, text: &[u8]) -> Option<Line>
    ensures { (study : Question) (number : ℕ) → study.size ≡ space.now →
        result ≡ held_wanted study Place.AtBallots number (words_of text.now) }
{
    profiles::laws::spaces_have_sizes(space);
    let Some(rest) = after_first(text, b"ballots") else {
        return None;
    };
    if rest.is_empty() {
        return None;
    }
    if are_rankings(space, rest) {
        Some(Line::BallotsAre(are_all_ballots(space, rest)))
    } else {
        None
    }
}

/// The line of whether voters may be absent.
pub(crate) fn read_absent(text: &[u8]) -> Option<Line>
    ensures { (study : Question) (number : ℕ) →
        result ≡ held_wanted study Place.AtAbsent number (words_of text.now) }
{
    let word = first_keyed(text, b"absent")?;
    if is_same(word, b"yes") {
        Some(Line::AbsentIs(true))
    } else if is_same(word, b"no") {
        Some(Line::AbsentIs(false))
    } else {
        None
    }
}

/// The line of the axioms' names.
pub(crate) fn read_axioms(study: &IndexedStudy, text: &[u8]) -> Option<Line>
    ensures { (number : ℕ) → result ≡ held_wanted study.now Place.AtAxioms number (words_of text.now) }
{
    let Some(rest) = after_first(text, b"axioms") else {
        return None;
    };
    if are_names(rest) {
        Some(Line::AxiomsAre(are_all_axioms(study, rest)))
    } else {
        None
    }
}

/// The line of the verdict.
pub(crate) fn read_verdict(text: &[u8]) -> Option<Line>
    ensures { (study : Question) (number : ℕ) →
        result ≡ held_wanted study Place.AtVerdict number (words_of text.now) }
{
    let Some(word) = first_keyed(text, b"verdict") else {
        return None;
    };
    if is_same(word, b"possible") {
        Some(Line::SaysPossible)
    } else if is_same(word, b"impossible") {
        Some(Line::SaysImpossible)
    } else if is_same(word, b"undecided") {
        Some(Line::SaysUndecided)
    } else {
        None
    }
}

/// The line of the limit within which nothing was decided.
pub(crate) fn read_limit(text: &[u8]) -> Option<Line>
    ensures { (study : Question) (number : ℕ) →
        result ≡ held_wanted study Place.AtLimit number (words_of text.now) }
{
    read_count(text, b"conflicts").map(|limit| Line::LimitIs(limit))
}

/// The line of the core.
pub(crate) fn read_core_line(text: &[u8]) -> Option<Line>
    ensures { (study : Question) (number : ℕ) →
        result ≡ held_wanted study Place.AtCore number (words_of text.now) }
{
    let Some(rest) = after_first(text, b"core") else {
        return None;
    };
    if are_names(rest) {
        Some(Line::CoreIs)
    } else {
        None
    }
}

/// The last line.
pub(crate) fn read_end(text: &[u8]) -> Option<Line>
    ensures { (study : Question) (number : ℕ) (claim : Option Confirmed) →
        result ≡ held_wanted study (Place.AtEnd claim) number (words_of text.now) }
{
    if is_same(text, b"end") {
        Some(Line::End)
    } else {
        None
    }
}
