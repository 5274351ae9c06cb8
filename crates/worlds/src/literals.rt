//! Literals.

ghost use Rattle.std.specs.Prelude.{◌≡◌};
ghost use Rattle.vocab.specs.Literal.{profile_of, same_literal};

use vocab::Literal;

/// The profile that a literal speaks of.
pub(crate) fn profile_of(literal: &Literal) -> u32
    ensures { result ≡ profile_of literal.now }
{
    match *literal {
        Literal::Wins(_, p) | Literal::Loses(_, p) | Literal::Above(_, _, p) => p,
    }
}

/// Whether two literals are one and the same.
pub(crate) fn is_same(a: &Literal, b: &Literal) -> bool
    ensures { result ≡ same_literal a.now b.now }
{
    match (*a, *b) {
        (Literal::Wins(x, p), Literal::Wins(y, q)) => x == y && p == q,
        (Literal::Loses(x, p), Literal::Loses(y, q)) => x == y && p == q,
        (Literal::Above(x, y, p), Literal::Above(v, w, q)) => x == v && y == w && p == q,
        _ => false,
    }
}
