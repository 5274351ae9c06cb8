//! Rankings, and the ballots of a size.

ghost use Rattle.std.specs.Prelude.{◌≡◌, map, is_some};
ghost use Rattle.std.specs.Cmp.Lexicographic.{pointwise};
ghost use Rattle.std.specs.List.{list_all};
ghost use Rattle.std.specs.Str.{bytes_eq};
ghost use Rattle.vocab.specs.Size.{ballot_places};
ghost use Rattle.meaning.specs.Texts.{ranking_text};
ghost use Rattle.verdicts.specs.Reading.{read_place};
ghost use Rattle.report_lines.specs.Rest.{words_after};

use crate::values::read_place;
use crate::words::{is_same, next_word};
use profiles::Space;

fn is_ranking(space: &Space, word: &[u8]) -> bool
    ensures { result ≡ is_some (read_place space.now.alternatives word.now) }
{
    read_place(space, word).is_some()
}

/// Whether the words that are left are rankings.
pub(crate) fn are_rankings(space: &Space, rest: &[u8]) -> bool
    ensures { result ≡
        list_all (λ word. is_some (read_place space.now.alternatives word)) (words_after rest.now) }
{
    let mut left = rest;
    while let Some((word, more)) = next_word(left) {
        if !is_ranking(space, word) {
            return false;
        }
        left = more;
    }
    true
}

/// Whether the words that are left are the ballots of the size, in order.
pub(crate) fn are_all_ballots(space: &Space, rest: &[u8]) -> bool
    ensures { result ≡ pointwise bytes_eq (words_after rest.now)
        (map (ranking_text space.now.alternatives) (ballot_places space.now)) }
{
    let mut left = rest;
    for b in 0..space.ballots() {
        let text = space.ballot_text(b);
        let Some((word, more)) = next_word(left) else {
            return false;
        };
        if !is_same(word, text.bytes()) {
            return false;
        }
        left = more;
    }
    next_word(left).is_none()
}
