//! The line with which a mark begins.

ghost use Rattle.std.specs.Prelude.{◌≡◌, [], ◌∷◌};
ghost use Rattle.verdicts.specs.Texts.{words_of};
ghost use Rattle.sharp_verdicts.specs.SharpPlaces.{AtNeed, read_mark, wanted_past};
ghost use Rattle.sharp_lines.specs.Said.{IsNeedOf, IsNeed};

use crate::last::last_two;
use crate::marks::LONGEST;
use meaning::Reason;
use profiles::Space;
use report_lines::{IndexedStudy, after_first, is_same, read_cited};
use verdicts::read_number;

/// The line with which the mark of an instance begins: a reason that cites the instance, and the number of
/// rows of a rule, or the limit of an open mark. A number stands still at the end of `u64`.
#[derive(Clone, Copy, Debug, PartialEq, Eq)]
pub enum Need {
    Rule(Reason, u64),
    Open(Reason, u64),
}

/// The mark of the instance that a reason cites, by its two words.
fn read_mark(reason: Reason, word: &[u8], last: &[u8]) -> Option<Need>
    ensures { IsNeedOf (read_mark reason (word.now ∷ last.now ∷ [])) result }
{
    let Some(number) = read_number(last) else {
        return None;
    };
    if is_same(word, b"rule") {
        return Some(Need::Rule(reason, number));
    }
    if is_same(word, b"open") {
        return Some(Need::Open(reason, number));
    }
    None
}

/// The first line of a mark.
fn read_words(study: &IndexedStudy, space: &Space, text: &[u8]) -> Option<Need>
    requires { space.now ≡ study.now.size }
    ensures { IsNeedOf (wanted_past study.now AtNeed (words_of text.now)) result }
{
    let Some(rest) = after_first(text, b"needs") else {
        return None;
    };
    let Some((cited, word, last)) = last_two(rest) else {
        return None;
    };
    let Some(reason) = read_cited(study, space, cited) else {
        return None;
    };
    read_mark(reason, word, last)
}

/// What the first line of a mark says, where the line is one and has at most 4,096 bytes: the axiom of the
/// study of that name with a value in range for each leading universal, as in a reason, and then `rule` or
/// `open` with a number.
pub fn read_need(study: &IndexedStudy, space: &Space, text: &[u8]) -> Option<Need>
    requires { space.now ≡ study.now.size }
    ensures { IsNeed study.now text.now result }
{
    if text.len() > LONGEST {
        None
    } else {
        read_words(study, space, text)
    }
}
