//! What holds of the conditions. Each law is the contract of a function that does nothing.

ghost use Rattle.worlds.specs.Laws.{BodiesHaveValues};

/// The body of a sentence can be evaluated at values of its leading universals.
pub fn bodies_have_values()
    ensures { BodiesHaveValues }
{}
