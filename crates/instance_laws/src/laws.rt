//! What holds of bodies in words. The law is the contract of a function that does nothing.

ghost use Rattle.instance_laws.specs.Laws.{BodiesSayInstances};

/// Where the variables have the values that are told of them, the body in words is true of the same rules as the
/// instance.
pub fn bodies_say_instances()
    ensures { BodiesSayInstances }
{}
