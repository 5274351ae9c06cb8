//! Facts compared, and a place for each.

ghost use Rattle.std.specs.Prelude.{◌≡◌, IsTrue};
ghost use Rattle.vocab.specs.Literal.{same_literal};

use vocab::{Literal, Size, Sort};

/// Whether two facts are the same.
pub(crate) fn is_same(left: &Literal, right: &Literal) -> bool
    ensures value { result ≡ same_literal left.now right.now }
    ensures equal { IsTrue result → left.now ≡ right.now }
{
    match (*left, *right) {
        (Literal::Wins(x, p), Literal::Wins(y, q)) => x == y && p == q,
        (Literal::Loses(x, p), Literal::Loses(y, q)) => x == y && p == q,
        (Literal::Above(x, y, p), Literal::Above(v, w, q)) => x == v && y == w && p == q,
        _ => false,
    }
}

/// Whether two facts make the same claim, be it at one profile or at two.
pub(crate) fn is_same_claim(left: &Literal, right: &Literal) -> bool {
    match (*left, *right) {
        (Literal::Wins(x, _), Literal::Wins(y, _)) => x == y,
        (Literal::Loses(x, _), Literal::Loses(y, _)) => x == y,
        (Literal::Above(x, y, _), Literal::Above(v, w, _)) => x == v && y == w,
        _ => false,
    }
}

/// How many places a table has that is read by `place_of`: 25 for each profile.
pub(crate) fn places(size: Size) -> usize {
    size.sort_len(Sort::Profile) as usize * 25
}

/// The place of a literal in a table. Literals of one size have places of their own.
pub(crate) fn place_of(literal: &Literal) -> usize {
    match *literal {
        Literal::Wins(x, p) => p as usize * 25 + x as usize * 5,
        Literal::Loses(x, p) => p as usize * 25 + x as usize * 5 + 1,
        Literal::Above(x, y, p) => p as usize * 25 + x as usize * 5 + y as usize,
    }
}
