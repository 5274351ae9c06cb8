//! Sets of alternatives by their codes, and their texts.

ghost use Rattle.std.specs.Prelude.{◌≡◌, ◌≢◌, ℕ, ◌^◌, ◌-◌, ◌<◌, ◌≤◌, map, IfSome, IfNone};
ghost use Rattle.meaning.specs.Subsets.{elements, is_element};
ghost use Rattle.meaning.specs.Texts.{letter};

use profiles::Alternatives;
use vocab::Name;

/// How many sets of so many alternatives are not empty.
pub(crate) fn set_count(alternatives: Alternatives) -> u32
    ensures value { result ≡ 2 ^ alternatives.number - 1 }
    ensures few { result ≤ 31 }
{
    (1 << alternatives.number) - 1
}

/// Whether an alternative is an element of a set.
pub(crate) fn is_element(set: u32, x: u8) -> bool
    requires set { set < 31 }
    requires x { x < 5 }
    ensures { result ≡ is_element set x }
{
    ((set + 1) >> x) & 1 == 1
}

/// The text of a set: the letters of its elements, rising.
pub(crate) fn set_text(alternatives: Alternatives, set: u32) -> Name
    requires { set < 2 ^ alternatives.number - 1 }
    ensures { result ≡ map letter (elements alternatives.number set) }
{
    let mut letters = [0; 5];
    let mut count = 0;
    for x in 0..alternatives.number {
        if is_element(set, x) {
            letters[count] = b'a' + x;
            count += 1;
        }
    }
    Name::new(&letters[..count]).unwrap()
}

/// The set of a text, or None where it is the text of none. Each set is tried in turn.
pub(crate) fn set_of(alternatives: Alternatives, text: &[u8]) -> Option<u32>
    ensures found { IfSome result (λ set. (set < 2 ^ alternatives.number - 1) ×
        (text.now ≡ map letter (elements alternatives.number set))) }
    ensures none { IfNone result ((set : ℕ) → set < 2 ^ alternatives.number - 1 →
        text.now ≢ map letter (elements alternatives.number set)) }
{
    for set in 0..set_count(alternatives) {
        if set_text(alternatives, set).bytes() == text {
            return Some(set);
        }
    }
    None
}
