//! What holds of renumbered derivations. Each law is the contract of a function that does nothing.

ghost use Rattle.renumbering.specs.Laws.{RenumberedIsTrimmed};

/// A trimmed derivation is trimmed over each list in which the clauses stand that its hints name, once their
/// ids are those there.
pub fn renumbered_is_trimmed()
    ensures { RenumberedIsTrimmed }
{}
