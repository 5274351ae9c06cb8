//! What holds of maps. Each law is the contract of a function that does nothing.

ghost use Rattle.core_maps.specs.Laws.{ImpossibleAreMinimal, PossibleAreLargest, MapsDecide, EnoughLeavesNone};

/// Of each impossible set of a map that is whole, each set with one axiom less has a rule, or an open set lies
/// within it.
pub fn impossible_are_minimal()
    ensures { ImpossibleAreMinimal }
{}

/// No rule satisfies a possible set of a map that is whole and one axiom more, or an open set lies within
/// that.
pub fn possible_are_largest()
    ensures { PossibleAreLargest }
{}

/// A map that is whole and has no open set tells of each set of axioms whether some rule satisfies it.
pub fn maps_decide()
    ensures { MapsDecide }
{}

/// Where the limit is at least 3 to the number of variables, a map has no open set.
pub fn enough_leaves_none()
    ensures { EnoughLeavesNone }
{}
