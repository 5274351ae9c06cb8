//! What holds of the clauses of derived studies. Each law is the contract of a function that does nothing.

ghost use Rattle.instance_grounds.specs.Laws.{DerivedClausesFit, InstanceClausesStand};

/// Each clause of a study whose origin is a frame or one of some instances stands among the clauses of the
/// study of these instances.
pub fn instance_clauses_stand()
    ensures { InstanceClausesStand }
{}

/// The clauses of the study of some instances of a study within the limits are never refused.
pub fn derived_clauses_fit()
    ensures { DerivedClausesFit }
{}
