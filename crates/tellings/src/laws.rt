//! What holds of the definitions. Each law is the contract of a function that does nothing.

ghost use Rattle.tellings.specs.Laws.{ForcedFactsComeFirst, OutcomesAreOfTheirProfiles, UsedOnceStandWhereUsed};

/// What a sentence says by what is left at a profile, it says of that profile, and its facts there are enough.
pub fn outcomes_are_of_their_profiles()
    ensures { OutcomesAreOfTheirProfiles }
{}

/// A lemma that is used once stands within the one that uses it, if that one does not itself stand as deep as
/// lemmas may.
pub fn used_once_stand_where_used()
    ensures { UsedOnceStandWhereUsed }
{}

/// In a story of several lemmas the fact of a step comes first where its reason, an axiom or what is left at
/// a profile, forces it, alone or together with the facts that were forced before it.
pub fn forced_facts_come_first()
    ensures { ForcedFactsComeFirst }
{}
