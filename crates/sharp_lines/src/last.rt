//! The words of a line, cut off its end.

ghost use Rattle.std.specs.Prelude.{◌≡◌, ◌≤◌, [], ◌∷◌, ◌++◌, length, MatchOption};
ghost use Rattle.report_lines.specs.Rest.{words_after};
ghost use Rattle.sharp_lines.specs.Said.{HasNoBlank, IsLastBlank};

/// The place of the last blank.
fn last_blank(rest: &[u8]) -> Option<usize>
    ensures { MatchOption result (HasNoBlank rest.now) (IsLastBlank rest.now) }
{
    for place in (0..rest.len()).rev() {
        if rest[place] == b' ' {
            return Some(place);
        }
    }
    None
}

/// What stands before the last blank, and the word after it.
fn last_word(rest: &[u8]) -> Option<(&[u8], &[u8])>
    ensures { MatchOption result
        (length (words_after rest.now) ≤ 1)
        (λ cut. words_after rest.now ≡ words_after cut.0.now ++ cut.1.now ∷ []) }
{
    let Some(place) = last_blank(rest) else {
        return None;
    };
    Some((&rest[..place], &rest[place + 1..]))
}

/// The last two words of what is left, and what is left before them.
pub(crate) fn last_two(rest: &[u8]) -> Option<(&[u8], &[u8], &[u8])>
    ensures { MatchOption result
        (length (words_after rest.now) ≤ 2)
        (λ cut. words_after rest.now ≡ words_after cut.0.now ++ cut.1.now ∷ cut.2.now ∷ []) }
{
    let Some((front, last)) = last_word(rest) else {
        return None;
    };
    let Some((before, word)) = last_word(front) else {
        return None;
    };
    Some((before, word, last))
}
