//! What holds of the definitions. Each law is the contract of a function that does nothing.

ghost use Rattle.meaning.specs.Rankings.{AreAllRankings, AreAllBallots};
ghost use Rattle.meaning.specs.Digits.{AreAllOneToOne, AreAllProfiles};
ghost use Rattle.meaning.specs.Tarski.{IsTarskis};
ghost use Rattle.meaning.specs.Laws.{TermsHaveValues, SentencesHaveInstances, TruthIsWritten, FormulasHaveLiterals, OneOfOppositesHolds, PartialTruthIsSound, AcceptedStoryHasNoRule, FaultlessIsAccepted, ClausesSayTruth, ClausesDecide, ClausesOfIff, FormulasHaveCounts, LiteralsAreVariables, RulesHaveBits, FramesSayOutcome, ClausesSayStudy, AssignmentsAreRules, ClausesAreSatisfiable, ClausesHaveReasons};

/// The rankings are all strict rankings, each once, in lexicographic order.
pub fn rankings_are_all()
    ensures { AreAllRankings }
{}

/// Numbers and their digits are one to one.
pub fn numbers_are_digits()
    ensures { AreAllOneToOne }
{}

/// Profiles are the lists of casts that a size allows.
pub fn profiles_are_numbers()
    ensures { AreAllProfiles }
{}

/// The ballots of a size are the rankings that it lists, in order.
pub fn ballots_are_rankings()
    ensures { AreAllBallots }
{}

/// The test of a formula answers as Tarski says.
pub fn truth_is_tarskis()
    ensures { IsTarskis }
{}

/// The value of a term of a sort is one of the sort.
pub fn terms_have_values()
    ensures { TermsHaveValues }
{}

/// A sentence is true of a rule exactly where the body of each instance is.
pub fn sentences_have_instances()
    ensures { SentencesHaveInstances }
{}

/// A formula is true of a rule exactly where it is so written out.
pub fn truth_is_written()
    ensures { TruthIsWritten }
{}

/// The literals of a well-sorted formula are literals of the size.
pub fn formulas_have_literals()
    ensures { FormulasHaveLiterals }
{}

/// Of an outcome exactly one of a literal of the size and its opposite holds.
pub fn one_of_opposites_holds()
    ensures { OneOfOppositesHolds }
{}

/// A formula that is known to be false under some literals is false of each rule of which they hold, and one
/// that is known to be true is true of it.
pub fn partial_truth_is_sound()
    ensures { PartialTruthIsSound }
{}

/// Where a story is accepted, no rule satisfies the core.
pub fn accepted_story_has_no_rule()
    ensures { AcceptedStoryHasNoRule }
{}

/// A story over literals of the size has no faulty line exactly where it is accepted.
pub fn faultless_is_accepted()
    ensures { FaultlessIsAccepted }
{}

/// Where opposites have opposite truth values, the plus clauses of a formula hold exactly where it is true,
/// and the minus clauses exactly where it is false.
pub fn clauses_say_truth()
    ensures { ClausesSayTruth }
{}

/// Where known literals, of which no two are opposites, falsify a clause of a formula, they decide the
/// formula.
pub fn clauses_decide()
    ensures { ClausesDecide }
{}

/// The clauses of an equivalence are those of its two implications, written as disjunctions.
pub fn clauses_of_iff()
    ensures { ClausesOfIff }
{}

/// The counts of a formula are those of its clauses.
pub fn formulas_have_counts()
    ensures { FormulasHaveCounts }
{}

/// The literals of a size and the variables of its studies, with signs, are one to one, profile by profile.
pub fn literals_are_variables()
    ensures { LiteralsAreVariables }
{}

/// The bits of a rule give each literal of the size the truth value that it has of the rule.
pub fn rules_have_bits()
    ensures { RulesHaveBits }
{}

/// The frame of a profile says that there is exactly one outcome.
pub fn frames_say_outcome()
    ensures { FramesSayOutcome }
{}

/// An assignment satisfies the clauses of a study exactly where it satisfies the frames and makes each
/// instance true.
pub fn clauses_say_study()
    ensures { ClausesSayStudy }
{}

/// An assignment satisfies the clauses of a study exactly where it is the bits of a rule that satisfies the
/// chosen axioms.
pub fn assignments_are_rules()
    ensures { AssignmentsAreRules }
{}

/// The clauses of a study are satisfiable exactly where some rule satisfies the chosen axioms.
pub fn clauses_are_satisfiable()
    ensures { ClausesAreSatisfiable }
{}

/// Where known literals of the size, of which no two are opposites, falsify a clause of a study, its origin
/// is a reason of a story that refutes them.
pub fn clauses_have_reasons()
    ensures { ClausesHaveReasons }
{}
