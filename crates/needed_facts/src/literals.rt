//! Literals.

ghost use Rattle.std.specs.Prelude.{◌≡◌};
ghost use Rattle.vocab.specs.Literal.{profile_of};
ghost use Rattle.meaning.specs.Literals.{is_literal};

use vocab::{Kind, Literal, Size, Sort};

/// The profile that a literal speaks of.
pub fn profile_of(literal: &Literal) -> u32
    ensures { result ≡ profile_of literal.now }
{
    match *literal {
        Literal::Wins(_, p) => p,
        Literal::Loses(_, p) => p,
        Literal::Above(_, _, p) => p,
    }
}

/// Whether a literal is one of the size.
pub fn is_literal(size: Size, literal: &Literal) -> bool
    ensures { result ≡ is_literal size literal.now }
{
    let alternatives = size.alternatives();
    let profiles = size.sort_len(Sort::Profile);
    match (size.kind(), *literal) {
        (Kind::Choice, Literal::Wins(x, p)) => x < alternatives && p < profiles,
        (Kind::Choice, Literal::Loses(x, p)) => x < alternatives && p < profiles,
        (Kind::Sets, Literal::Wins(x, p)) => x < alternatives && p < profiles,
        (Kind::Sets, Literal::Loses(x, p)) => x < alternatives && p < profiles,
        (Kind::Ranking, Literal::Above(x, y, p)) => {
            x < alternatives && y < alternatives && x != y && p < profiles
        }
        _ => false,
    }
}
