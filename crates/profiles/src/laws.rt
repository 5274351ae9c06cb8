//! What holds of every space.

ghost use Rattle.vocab.specs.Size.{IsSize};
ghost use Rattle.profiles.specs.Distinct.{HaveTextsOfTheirOwn};

use crate::space::Space;

/// A space is of a size that the bench takes.
pub fn spaces_have_sizes(space: &Space)
    ensures { IsSize space.now }
{
    let _size = space.size();
}

/// Different ballots have different texts, and so have different profiles.
pub fn texts_are_distinct(space: &Space)
    ensures { HaveTextsOfTheirOwn space.now }
{
    spaces_have_sizes(space);
}
