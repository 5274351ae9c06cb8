//! The strong connectives of Kleene.

ghost use Rattle.std.specs.Prelude.{◌≡◌};
ghost use Rattle.meaning.specs.Kleene.{three_of, three_not, three_and, three_or, three_same};

use meaning::Three;

/// What is known of a truth value.
pub(crate) fn three_of(truth: bool) -> Three
    ensures { result ≡ three_of truth }
{
    if truth { Three::True } else { Three::False }
}

/// Not.
pub(crate) fn three_not(a: Three) -> Three
    ensures { result ≡ three_not a }
{
    match a {
        Three::True => Three::False,
        Three::False => Three::True,
        Three::Unknown => Three::Unknown,
    }
}

/// And.
pub(crate) fn three_and(a: Three, b: Three) -> Three
    ensures { result ≡ three_and a b }
{
    match (a, b) {
        (Three::False, _) => Three::False,
        (Three::True, _) => b,
        (Three::Unknown, Three::False) => Three::False,
        (Three::Unknown, _) => Three::Unknown,
    }
}

/// Or.
pub(crate) fn three_or(a: Three, b: Three) -> Three
    ensures { result ≡ three_or a b }
{
    match (a, b) {
        (Three::True, _) => Three::True,
        (Three::False, _) => b,
        (Three::Unknown, Three::True) => Three::True,
        (Three::Unknown, _) => Three::Unknown,
    }
}

/// If and only if.
pub(crate) fn three_same(a: Three, b: Three) -> Three
    ensures { result ≡ three_same a b }
{
    match a {
        Three::Unknown => Three::Unknown,
        Three::True => b,
        Three::False => three_not(b),
    }
}
