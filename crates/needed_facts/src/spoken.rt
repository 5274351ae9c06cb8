//! The known literals that a formula speaks of.

ghost use Rattle.std.specs.Prelude.{◌≡◌};
ghost use Rattle.vocab.specs.Tree.{tree_of};
ghost use Rattle.worlds.specs.Conditions.{IsFormulaAt};

use crate::literals::is_literal;
use lists::NoMemory;
use meaning::Literals;
use profiles::Space;
use std::alloc::Global;
use vocab::{Env, Formula, Literal, Size};
use worlds::{Algebra, Board, eval};

/// Keeps each literal that it meets, and its opposite, if it is known.
#[derive(Drop)]
struct Spoken<'a> {
    size: Size,
    known: &'a Board,
    seen: Literals,
    ghost same: { known.now.size ≡ size },
}

impl Spoken<'_> {
    /// Keeps a literal of the size that is known.
    fn keep(&mut self, literal: &Literal) -> Result<(), NoMemory> {
        if is_literal(self.size, literal) && self.known.has(literal) {
            self.seen.push(*literal)?;
        }
        Ok(())
    }
}

impl Algebra for Spoken<'_> {
    type V = ();

    type Stop = NoMemory;

    ghost stands = { λ a v w. Unit {0} };

    ghost may_stop = { λ _. Unit {0} };

    ghost takes = { λ a l. Unit {0} };

    fn known(&mut self, _truth: bool) -> Result<(), NoMemory> {
        Ok(())
    }

    fn literal(&mut self, literal: &Literal) -> Result<(), NoMemory> {
        self.keep(literal)?;
        self.keep(&literal.opposite())?;
        Ok(())
    }

    fn not(&mut self, _a: ()) -> Result<(), NoMemory> {
        Ok(())
    }

    fn and(&mut self, _a: (), _b: ()) -> Result<(), NoMemory> {
        Ok(())
    }

    fn or(&mut self, _a: (), _b: ()) -> Result<(), NoMemory> {
        Ok(())
    }

    fn same(&mut self, _a: (), _b: ()) -> Result<(), NoMemory> {
        Ok(())
    }
}

/// Those of the known literals of which, or of whose opposites, a formula speaks at the values of its free
/// variables.
pub(crate) fn literals_of(
    alloc: Global,
    space: &Space,
    known: &Board,
    body: &Formula,
    values: &Env,
) -> Result<Literals, NoMemory>
    requires size { known.now.size ≡ space.now }
    requires body { IsFormulaAt space.now (tree_of body.now) values.now }
{
    let mut algebra = Spoken {
        size: space.size(),
        known,
        seen: Literals::new(alloc),
    };
    match eval(space, body, values, &mut algebra) {
        Ok(()) => {}
        Err(NoMemory) => return Err(NoMemory),
    }
    let Spoken {
        size: _,
        known: _,
        seen,
    } = algebra;
    Ok(seen)
}
