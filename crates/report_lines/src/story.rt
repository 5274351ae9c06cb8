//! Lines of stories.

ghost use Rattle.std.specs.Prelude.{◌≡◌, ℕ, codes, option_map};
ghost use Rattle.vocab.specs.Study.{Question};
ghost use Rattle.verdicts.specs.Lines.{Clash};
ghost use Rattle.verdicts.specs.Texts.{words_of};
ghost use Rattle.verdicts.specs.Reading.{keyed, read_so, read_suppose, read_step, read_reason};
ghost use Rattle.report_lines.specs.Held.{held_line};
ghost use Rattle.report_lines.specs.Wanted.{held_wanted};

use crate::indexed::IndexedStudy;
use crate::lines::Line;
use crate::literals::read_literal;
use crate::numbers::read_positive;
use crate::places::Place;
use crate::reasons::read_reason;
use crate::words::{after_first, after_key, first_keyed, is_same, next_word};
use profiles::Space;

/// The line of how many lemmas there are.
pub(crate) fn read_lemmas(text: &[u8]) -> Option<Line>
    ensures { (study : Question) (number : ℕ) →
        result ≡ held_wanted study Place.AtLemmas number (words_of text.now) }
{
    let Some(word) = first_keyed(text, b"lemmas") else {
        return None;
    };
    match read_positive(word) {
        Some(count) => Some(Line::LemmasAre(count)),
        None => None,
    }
}

/// The heading of the lemma of this number.
pub(crate) fn read_heading(text: &[u8], number: u64) -> Option<Line>
    ensures { (study : Question) → result ≡ held_wanted study Place.AtLemma number (words_of text.now) }
{
    let Some(word) = first_keyed(text, b"lemma") else {
        return None;
    };
    let mut buffer = itoa::Buffer::new();
    if is_same(word, buffer.format(number).as_bytes()) {
        Some(Line::Heading(number))
    } else {
        None
    }
}

fn read_so(study: &IndexedStudy, space: &Space, text: &[u8]) -> Option<Line>
    requires { space.now ≡ study.now.size }
    ensures { result ≡
        option_map (held_line study.now) (keyed (codes "so") (read_so study.now) (words_of text.now)) }
{
    let Some(rest) = after_first(text, b"so") else {
        return None;
    };
    let Some((word, more)) = next_word(rest) else {
        return None;
    };
    let Some(literal) = read_literal(space, word) else {
        return None;
    };
    let Some(words) = after_key(more, b"by") else {
        return None;
    };
    match read_reason(study, space, words) {
        Some(reason) => Some(Line::So(literal, reason)),
        None => None,
    }
}

fn read_clash(study: &IndexedStudy, space: &Space, text: &[u8]) -> Option<Line>
    requires { space.now ≡ study.now.size }
    ensures { result ≡
        option_map (held_line study.now) (keyed (codes "clash") (keyed (codes "by") (λ ws. option_map Clash
        (read_reason study.now ws))) (words_of text.now)) }
{
    let Some(rest) = after_first(text, b"clash") else {
        return None;
    };
    let Some(words) = after_key(rest, b"by") else {
        return None;
    };
    match read_reason(study, space, words) {
        Some(reason) => Some(Line::Clash(reason)),
        None => None,
    }
}

/// A step of a lemma, or its last reason.
pub(crate) fn read_step(study: &IndexedStudy, space: &Space, text: &[u8]) -> Option<Line>
    requires { space.now ≡ study.now.size }
    ensures { (number : ℕ) → result ≡ held_wanted study.now Place.AtStep number (words_of text.now) }
{
    if let Some(line) = read_so(study, space, text) {
        return Some(line);
    }
    read_clash(study, space, text)
}

fn read_suppose(study: &IndexedStudy, space: &Space, text: &[u8]) -> Option<Line>
    requires { space.now ≡ study.now.size }
    ensures { result ≡ option_map (held_line study.now) (read_suppose study.now (words_of text.now)) }
{
    let Some(word) = first_keyed(text, b"suppose") else {
        return None;
    };
    match read_literal(space, word) {
        Some(literal) => Some(Line::Suppose(literal)),
        None => None,
    }
}

/// A supposition of a lemma, or what follows all of them.
pub(crate) fn read_suppose_or_step(study: &IndexedStudy, space: &Space, text: &[u8]) -> Option<Line>
    requires { space.now ≡ study.now.size }
    ensures { (number : ℕ) → result ≡ held_wanted study.now Place.AtSuppose number (words_of text.now) }
{
    if let Some(line) = read_suppose(study, space, text) {
        return Some(line);
    }
    read_step(study, space, text)
}
