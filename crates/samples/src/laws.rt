//! What holds of the studies of all numbers.

ghost use Rattle.samples.specs.Sample.{SamplesAreStudies, SamplesLackParticipation};

/// Each number has exactly one study.
pub fn samples_are_studies()
    ensures { SamplesAreStudies }
{}

/// No study of a number has the axiom `participation`: numbers choose among the nine that stand before it.
pub fn samples_lack_participation()
    ensures { SamplesLackParticipation }
{}
