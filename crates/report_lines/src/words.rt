//! The words of a line, cut off its front one by one. What is left of a line after a word is nothing, or a
//! blank with the other words.

ghost use Rattle.std.specs.Prelude.{◌≡◌, ◌<◌, ◌≤◌, ◌==◌, [], ◌∷◌, length, Some, None, MatchOption, position};
ghost use Rattle.std.specs.List.{list_all, position_or_len};
ghost use Rattle.std.specs.Str.{bytes_eq};
ghost use Rattle.vocab.specs.Name.{is_name};
ghost use Rattle.verdicts.specs.Texts.{words_of};
ghost use Rattle.verdicts.specs.Reading.{keyed, one_word};
ghost use Rattle.report_lines.specs.Rest.{words_after};

use vocab::Name;

/// Whether two texts are the same.
pub fn is_same(text: &[u8], other: &[u8]) -> bool
    ensures { result ≡ bytes_eq text.now other.now }
{
    text == other
}

fn blank_of(text: &[u8]) -> Option<usize>
    ensures { result ≡ position (λ b. b == 32) text.now }
{
    text.iter().position(|b| *b == b' ')
}

fn end_of_word(text: &[u8]) -> usize
    ensures place { result ≡ position_or_len (λ b. b == 32) text.now }
    ensures within { result ≤ length text.now }
{
    match blank_of(text) {
        Some(place) => place,
        None => text.len(),
    }
}

/// The first word of a text, and what is left of it.
pub(crate) fn cut_word(text: &[u8]) -> (&[u8], &[u8])
    ensures words { words_of text.now ≡ result.0.now ∷ words_after result.1.now }
    ensures shorter { length result.1.now ≤ length text.now }
{
    text.split_at(end_of_word(text))
}

/// The next word of what is left, and what is left after it.
pub(crate) fn next_word(rest: &[u8]) -> Option<(&[u8], &[u8])>
    ensures { MatchOption result
        (words_after rest.now ≡ [])
        (λ cut. (words_after rest.now ≡ cut.0.now ∷ words_after cut.1.now) ×
        (length cut.1.now < length rest.now)) }
{
    let (_, text) = rest.split_first()?;
    Some(cut_word(text))
}

/// What is left after the first word of a text, where that is the key: nothing, or a blank with the other
/// words.
pub fn after_first<'a>(text: &'a [u8], key: &[u8]) -> Option<&'a [u8]>
    ensures { MatchOption result
        (keyed key.now Some (words_of text.now) ≡ None)
        (λ rest. keyed key.now Some (words_of text.now) ≡ Some (words_after rest.now)) }
{
    let (word, rest) = cut_word(text);
    if is_same(word, key) { Some(rest) } else { None }
}

/// What is left after the next word, where that is the key.
pub(crate) fn after_key<'a>(rest: &'a [u8], key: &[u8]) -> Option<&'a [u8]>
    ensures { MatchOption result
        (keyed key.now Some (words_after rest.now) ≡ None)
        (λ more. keyed key.now Some (words_after rest.now) ≡ Some (words_after more.now)) }
{
    let (word, more) = next_word(rest)?;
    if is_same(word, key) { Some(more) } else { None }
}

/// The one word that is left.
pub(crate) fn only_word(rest: &[u8]) -> Option<&[u8]>
    ensures { MatchOption result
        (one_word Some (words_after rest.now) ≡ None)
        (λ word. one_word Some (words_after rest.now) ≡ Some word.now) }
{
    let (word, more) = next_word(rest)?;
    if more.is_empty() { Some(word) } else { None }
}

/// The word after the key, where a text is these two words.
pub(crate) fn first_keyed<'a>(text: &'a [u8], key: &[u8]) -> Option<&'a [u8]>
    ensures { MatchOption result
        (keyed key.now (one_word Some) (words_of text.now) ≡ None)
        (λ word. keyed key.now (one_word Some) (words_of text.now) ≡ Some word.now) }
{
    only_word(after_first(text, key)?)
}

/// The word after the key, where these two words are left.
pub(crate) fn next_keyed<'a>(rest: &'a [u8], key: &[u8]) -> Option<&'a [u8]>
    ensures { MatchOption result
        (keyed key.now (one_word Some) (words_after rest.now) ≡ None)
        (λ word. keyed key.now (one_word Some) (words_after rest.now) ≡ Some word.now) }
{
    only_word(after_key(rest, key)?)
}

fn is_name_text(word: &[u8]) -> bool
    ensures { result ≡ is_name word.now }
{
    Name::new(word).is_some()
}

/// Whether the words that are left are names.
pub(crate) fn are_names(rest: &[u8]) -> bool
    ensures { result ≡ list_all is_name (words_after rest.now) }
{
    let mut left = rest;
    while let Some((word, more)) = next_word(left) {
        if !is_name_text(word) {
            return false;
        }
        left = more;
    }
    true
}
