//! Constants.

ghost use Rattle.std.specs.Prelude.{◌≡◌};
ghost use Rattle.std.specs.Option.{unwrap_or};
ghost use Rattle.vocab.specs.Tree.{term_tree, Const};
ghost use Rattle.sorts.specs.Constants.{voter_value, alternative_value, ballot_value, voter_text, alternative_text, ballot_constant_text};
ghost use Rattle.sorts.specs.Faults.{where_none};
ghost use Rattle.sorts.specs.Visits.{IsVisit};

use crate::faults::SortFault;
use crate::texts::ConstantText;
use profiles::Space;
use profiles::laws::texts_are_distinct;
use vocab::{Name, Term};

/// The voter of a number from 1.
pub fn voter(space: &Space, number: u16) -> Result<Term, SortFault>
    ensures { IsVisit (where_none (voter_value space.now number) (SortFault.Constant (voter_text number)))
        (λ t. term_tree t ≡ Const (unwrap_or (voter_value space.now number) 0)) result }
{
    let size = space.size();
    if 1 <= number && number <= size.voters() as u16 {
        Ok(Term::Const(number as u32 - 1))
    } else {
        Err(SortFault::Constant(ConstantText::voter(number)))
    }
}

/// The alternative of a number from 0.
pub fn alternative(space: &Space, number: u8) -> Result<Term, SortFault>
    ensures { IsVisit (where_none (alternative_value space.now number)
        (SortFault.Constant (alternative_text number)))
        (λ t. term_tree t ≡ Const (unwrap_or (alternative_value space.now number) 0)) result }
{
    let size = space.size();
    if number < size.alternatives() {
        Ok(Term::Const(number as u32))
    } else {
        Err(SortFault::Constant(ConstantText::alternative(number)))
    }
}

/// The number of the ballot of these letters.
fn ballot_number(space: &Space, letters: &Name) -> Option<u32>
    ensures { result ≡ ballot_value space.now letters.now }
{
    texts_are_distinct(space);
    space.read_ballot(letters.bytes())
}

/// The ballot of these letters.
pub fn ballot(space: &Space, letters: &Name) -> Result<Term, SortFault>
    ensures { IsVisit (where_none (ballot_value space.now letters.now)
        (SortFault.Constant (ballot_constant_text letters.now)))
        (λ t. term_tree t ≡ Const (unwrap_or (ballot_value space.now letters.now) 0)) result }
{
    match ballot_number(space, letters) {
        Some(number) => Ok(Term::Const(number)),
        None => Err(SortFault::Constant(ConstantText::ballot(*letters))),
    }
}
