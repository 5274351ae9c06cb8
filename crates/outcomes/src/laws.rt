//! What holds of every kind of outcomes. Each law is the contract of a function that does nothing.

ghost use Rattle.meaning.specs.Laws.{AreVariables};
ghost use Rattle.vocab.specs.Size.{IsSize};
ghost use Rattle.outcomes.specs.Laws.{FramesSayOneOutcome, BitsSayLiterals, AreFramesSmall, HaveTextsOfLetters};

use crate::kind::OutcomeKind;

/// A kind is over a size that the bench takes.
pub fn kinds_have_sizes<K: OutcomeKind>(_kind: &K)
    ensures { IsSize (K.size _kind.now) }
{}

/// The literals of a kind and the variables with signs are one to one, opposites are opposites, and the
/// literals at a profile are those of its own stretch of variables.
pub fn literals_are_variables<K: OutcomeKind>(kind: &K)
    ensures { AreVariables (K.size kind.now) }
{
    kinds_have_sizes(kind);
}

/// The bits of an outcome satisfy the frame of a profile, and bits that satisfy it are those of exactly one
/// outcome.
pub fn frames_say_one_outcome<K: OutcomeKind>(kind: &K)
    ensures { FramesSayOneOutcome (K.size kind.now) }
{
    kinds_have_sizes(kind);
}

/// A literal is true in the bits of an outcome exactly where it holds of it.
pub fn bits_say_literals<K: OutcomeKind>(kind: &K)
    ensures { BitsSayLiterals (K.size kind.now) }
{
    kinds_have_sizes(kind);
}

/// A profile has at most 10 variables, and its frame no others, at most 20 clauses, and at most 60 literals
/// together.
pub fn frames_are_small<K: OutcomeKind>(kind: &K)
    ensures { AreFramesSmall (K.size kind.now) }
{
    kinds_have_sizes(kind);
}

/// The text of an outcome is one to five small letters, and no other outcome has it.
pub fn outcomes_have_texts<K: OutcomeKind>(kind: &K)
    ensures { HaveTextsOfLetters (K.size kind.now) }
{
    kinds_have_sizes(kind);
}
