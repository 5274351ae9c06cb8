//! What holds of what calls have written. Each law is the contract of a function that does nothing but call
//! upon the laws of rows.

ghost use Rattle.call_laws.specs.Laws.{ConfirmedRefutationsHold, WrittenExportsSayStudy, WrittenGainsHold, WrittenProofsHold, WrittenSamplesHold};

use answers::laws;

/// What a call of `export` has written is satisfiable exactly where some rule satisfies all axioms.
pub fn written_exports_say_study()
    ensures { WrittenExportsSayStudy }
{
    laws::exported_says_study();
}

/// What a call of `proof` has written is an accepted derivation, so that no rule satisfies all axioms; or it
/// says that there is a rule, and there is one.
pub fn written_proofs_hold()
    ensures { WrittenProofsHold }
{
    laws::proved_holds();
}

/// Where a call of `lrat` has confirmed a proof, its text gives a derivation that is accepted from the
/// clauses that were read, so that no assignment satisfies these.
pub fn confirmed_refutations_hold()
    ensures { ConfirmedRefutationsHold }
{}

/// What a call of `sample` has written of the study of a number holds.
pub fn written_samples_hold()
    ensures { WrittenSamplesHold }
{
    laws::sampled_holds();
}

/// What a call of `gain` has written of a confirmed report holds: of a rule that no voter gains, or a line
/// with a voter who gains, at which profile and by which ballot; of an impossibility that there is no rule.
/// And of a rule it is `none` exactly where no voter gains.
pub fn written_gains_hold()
    ensures { WrittenGainsHold }
{
    laws::none_is_no_gain();
}
