//! What holds of closed formulas. Each law is the contract of a function that does nothing.

ghost use Rattle.closing.specs.Laws.{ClosedAreWritten, ClosedAreTrue, ClosedBodiesSayBodies, ClosedBodiesAreInstances, ClosedBodiesAreSentences};

/// A closed formula is written out as the formula, where the values that close it come first.
pub fn closed_are_written()
    ensures { ClosedAreWritten }
{}

/// It is true of a rule exactly where the formula is.
pub fn closed_are_true()
    ensures { ClosedAreTrue }
{}

/// The closed body of an instance says what the body says at its values: the same is known of it, and it is
/// true of the same rules.
pub fn closed_bodies_say_bodies()
    ensures { ClosedBodiesSayBodies }
{}

/// It is a sentence with one instance, which has the clauses of the instance that was closed.
pub fn closed_bodies_are_instances()
    ensures { ClosedBodiesAreInstances }
{}

/// Of a sentence of a study within the limits it is one too, whatever its name.
pub fn closed_bodies_are_sentences()
    ensures { ClosedBodiesAreSentences }
{}
