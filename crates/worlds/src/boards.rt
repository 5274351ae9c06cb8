//! Known literals, each found at once.

ghost use Rattle.std.specs.Prelude.{◌≡◌, ◌<◌, ◌+◌, ◌*◌, List, [], ◌∷◌, ◌++◌, length, slice_get, Some, IsTrue, IsFalse, IfOk};
ghost use Rattle.std.specs.List.{list_all};
ghost use Rattle.vocab.specs.declared.kinds.Sort.TheVariants.{Profile};
ghost use Rattle.vocab.specs.declared.literals.Literal.{Literal};
ghost use Rattle.vocab.specs.Literal.{has};
ghost use Rattle.vocab.specs.Size.{Extent, IsSize, sort_count};
ghost use Rattle.meaning.specs.Literals.{is_literal};
ghost use Rattle.worlds.specs.Boards.{are_distinct, mark_of, without_literal};

use crate::literals::is_same;
use lists::NoMemory;
use outcomes::OutcomeKind;
use std::alloc::Global;
use std::marker::Model;
use vocab::{Literal, Size, Sort};

/// A list of known literals of a size, none twice, in the order in which they came.
///
/// `has` and `add` take a few steps however many there are, and so does `remove` of what came last.
#[derive(Drop)]
pub struct Board {
    size: Size,
    literals: Vec<Literal>,
    marks: Vec<bool>,
}

impl Model for Board {
    ghost use Rattle.std.specs.Prelude.{vec_capacity};
    ghost use Rattle.worlds.specs.Boards.{Known, IsBoard};

    ghost Value = { Known };

    ghost view = { λ b. record { size = b.size; literals = b.literals.items } };

    ghost invariant = { λ b. IsBoard b.size b.literals.items (vec_capacity b.literals) b.marks.items };
}

impl Board {
    /// The empty board of the kind's size, with room for all its literals.
    pub fn new<K: OutcomeKind>(alloc: Global, kind: &K) -> Result<Board, NoMemory>
        ensures size { IfOk result (λ b. b.size ≡ K.size kind.now) }
        ensures literals { IfOk result (λ b. b.literals ≡ []) }
    {
        Board::of(alloc, kind.space().size())
    }

    /// The empty board of a size.
    fn of(alloc: Global, size: Size) -> Result<Board, NoMemory>
        requires { IsSize size }
        ensures size { IfOk result (λ b. b.size ≡ size) }
        ensures literals { IfOk result (λ b. b.literals ≡ []) }
    {
        let count = size.sort_len(Sort::Profile) as usize * 25;
        let literals = Vec::with_capacity(alloc, count)?;
        let marks = vec![in alloc; false; count]?;
        Ok(Board {
            size,
            literals,
            marks,
        })
    }

    /// Appends a literal that is not there. No memory is taken.
    pub fn add(&mut self, literal: &Literal)
        requires literal { IsTrue (is_literal self.old.size literal.now) }
        requires fresh { IsFalse (has self.old.literals literal.now) }
        ensures size { self.new.size ≡ self.old.size }
        ensures literals { self.new.literals ≡ self.old.literals ++ literal.now ∷ [] }
    {
        let mark = mark_of(literal);
        self.marks[mark] = true;
        match self.literals.push(*literal) {
            Ok(()) => {}
            Err(_) => unreachable!(),
        }
    }

    /// Takes a literal away, if it is there. No memory is taken.
    pub fn remove(&mut self, literal: &Literal)
        requires { IsTrue (is_literal self.old.size literal.now) }
        ensures size { self.new.size ≡ self.old.size }
        ensures literals { self.new.literals ≡ without_literal literal.now self.old.literals }
        ensures undoes { (known : List Literal) → self.old.literals ≡ known ++ literal.now ∷ [] →
            self.new.literals ≡ known }
    {
        if self.has(literal) {
            let place = place_of(self.literals.as_slice(), literal);
            let mark = mark_of(literal);
            self.marks[mark] = false;
            let _gone = self.literals.remove(place);
        }
    }

    /// Takes all literals away. No memory is taken.
    pub fn clear(&mut self)
        ensures size { self.new.size ≡ self.old.size }
        ensures literals { self.new.literals ≡ [] }
    {
        while let Some(literal) = self.literals.pop() {
            let mark = mark_of(&literal);
            self.marks[mark] = false;
        }
    }

    /// Whether a literal is there. No memory is taken.
    pub fn has(&self, literal: &Literal) -> bool
        requires { IsTrue (is_literal self.now.size literal.now) }
        ensures { result ≡ has self.now.literals literal.now }
    {
        self.marks[mark_of(literal)]
    }

    /// All literals in order: they are of the size, and none stands twice.
    pub fn as_slice(&self) -> &[Literal]
        ensures value { result.now ≡ self.now.literals }
        ensures ours { IsTrue (list_all (is_literal self.now.size) self.now.literals) }
        ensures distinct { IsTrue (are_distinct self.now.literals) }
    {
        self.literals.as_slice()
    }
}

/// The place of a literal's mark.
fn mark_of(literal: &Literal) -> usize
    ensures { result ≡ mark_of literal.now }
{
    match *literal {
        Literal::Wins(x, p) => p as usize * 25 + x as usize * 5,
        Literal::Loses(x, p) => p as usize * 25 + x as usize * 5 + 1,
        Literal::Above(x, y, p) => p as usize * 25 + x as usize * 5 + y as usize,
    }
}

/// The last place of a literal that is there.
fn place_of(literals: &[Literal], literal: &Literal) -> usize
    requires { IsTrue (has literals.now literal.now) }
    ensures within { result < length literals.now }
    ensures there { slice_get literals.now result ≡ Some literal.now }
{
    let mut place = literals.len() - 1;
    'going_back: while !is_same(&literals[place], literal) {
        place -= 1;
    }
    place
}
