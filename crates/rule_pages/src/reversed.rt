//! Texts turned round.

ghost use Rattle.std.specs.Prelude.{◌≡◌, take, reverse};
ghost use Rattle.std.specs.Str.{bytes_eq};

/// Whether a text is another one turned round.
pub(crate) fn is_reversed(text: &[u8], other: &[u8]) -> bool
    ensures { result ≡ bytes_eq text.now (reverse other.now) }
{
    match other.split_last() {
        None => text.is_empty(),
        Some((last, front)) => match text.split_first() {
            None => false,
            Some((first, rest)) => *first == *last && is_reversed(rest, front),
        },
    }
}

/// Whether a text is the first letter of another, alone.
pub(crate) fn is_first(text: &[u8], other: &[u8]) -> bool
    ensures { result ≡ bytes_eq text.now (take 1 other.now) }
{
    match other.first() {
        None => text.is_empty(),
        Some(first) => text == [*first].as_slice(),
    }
}

/// Whether a text is the last letter of another, alone.
pub(crate) fn is_last(text: &[u8], other: &[u8]) -> bool
    ensures { result ≡ bytes_eq text.now (take 1 (reverse other.now)) }
{
    match other.split_last() {
        None => text.is_empty(),
        Some((last, _)) => text == [*last].as_slice(),
    }
}
