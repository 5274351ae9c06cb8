//! What holds of gains. Each law is the contract of a function that does nothing.

ghost use Rattle.choice_sets.specs.Laws.{GainsAreFound, StrategyproofIsNoGain};

/// The first gain is one, and there is none exactly where no voter gains.
pub fn gains_are_found()
    ensures { GainsAreFound }
{}

/// Of a set-valued rule the sentence `strategyproof` of the library is true exactly where no voter gains.
pub fn strategyproof_is_no_gain()
    ensures { StrategyproofIsNoGain }
{}
