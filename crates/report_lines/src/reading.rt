//! What a line says at its place.

ghost use Rattle.std.specs.Prelude.{◌≡◌, ◌+◌, length, option_map};
ghost use Rattle.verdicts.specs.Places.{Standing};
ghost use Rattle.verdicts.specs.Judge.{read_line};
ghost use Rattle.verdicts.specs.Texts.{words_of};
ghost use Rattle.report_lines.specs.Held.{held_place, held_line};
ghost use Rattle.report_lines.specs.Wanted.{held_wanted};

use crate::indexed::IndexedStudy;
use crate::lines::Line;
use crate::places::Place;
use crate::{head, rules, story};
use outcomes::OutcomeKind;

/// The most bytes of a line.
const LONGEST: usize = 4096;

/// The line that is wanted at the place.
fn read_at<K: OutcomeKind>(
    kind: &K,
    study: &IndexedStudy,
    place: Place,
    number: u64,
    text: &[u8],
) -> Option<Line>
    requires { study.now.size ≡ K.size kind.now }
    ensures { result ≡ held_wanted study.now place number (words_of text.now) }
{
    let space = kind.space();
    match place {
        Place::AtTitle => head::read_title(text),
        Place::AtKind => head::read_kind(text),
        Place::AtVoters => head::read_voters(text),
        Place::AtAlternatives => head::read_alternatives(text),
        Place::AtBallots => head::read_ballots(space, text),
        Place::AtAbsent => head::read_absent(text),
        Place::AtAxioms => head::read_axioms(study, text),
        Place::AtVerdict => head::read_verdict(text),
        Place::AtLimit => head::read_limit(text),
        Place::AtRule => rules::read_rule(text),
        Place::AtRow => rules::read_row(kind, text),
        Place::AtCore => head::read_core_line(text),
        Place::AtLemmas => story::read_lemmas(text),
        Place::AtLemma => story::read_heading(text, number),
        Place::AtSuppose => story::read_suppose_or_step(study, space, text),
        Place::AtStep => story::read_step(study, space, text),
        Place::AtWitness => rules::read_witness(text),
        Place::AtWitnessRow => rules::read_row(kind, text),
        Place::AtEnd(_) => head::read_end(text),
        Place::AtNothing(_) => None,
    }
}

/// What a line says, without its line end, where it is the one that is wanted at the place and has at most
/// 4,096 bytes. `number` is the number of the lemma that is being read, or comes next, from 1. No memory is
/// taken.
pub fn read_line<K: OutcomeKind>(
    kind: &K,
    study: &IndexedStudy,
    place: Place,
    number: u64,
    text: &[u8],
) -> Option<Line>
    requires size { study.now.size ≡ K.size kind.now }
    ensures { (s : Standing) → place ≡ held_place s.place → number ≡ length s.earlier + 1 →
        result ≡ option_map (held_line study.now) (read_line study.now s text.now) }
{
    if text.len() > LONGEST {
        None
    } else {
        read_at(kind, study, place, number, text)
    }
}
