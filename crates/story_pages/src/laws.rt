//! What holds of a story on a page. Each law is the contract of a function that does nothing.

ghost use Rattle.story_pages.specs.Laws.{SentencesNameFacts, ClaimsStandThere, EndsNameFacts, SentencesStateFacts, CellsHaveFacts, ForcedFactsStand, LemmasStand, LemmasStandWhereUsed};

/// Each sentence names in front each fact that it rests on, however many these are: with its profile, or by
/// its claim alone where that claim is made at each profile of what is stated.
pub fn sentences_name_facts()
    ensures { SentencesNameFacts }
{}

/// Where a sentence that is told right says claims without profiles, they are made at each profile of what it
/// states.
pub fn claims_stand_there()
    ensures { ClaimsStandThere }
{}

/// The end of a lemma names in front each fact that its last reason rests on: with its profile, or by its
/// claim alone where nothing is left.
pub fn ends_name_facts()
    ensures { EndsNameFacts }
{}

/// Each step of a story is stated by its sentence, behind what it rests on, with its profile.
pub fn sentences_state_facts()
    ensures { SentencesStateFacts }
{}

/// The cell of a profile in a lemma's table has each fact that is known there.
pub fn cells_have_facts()
    ensures { CellsHaveFacts }
{}

/// Each sentence of facts that axioms force stands on the page.
pub fn forced_facts_stand()
    ensures { ForcedFactsStand }
{}

/// Each lemma of a story that is told right stands on the page, with its claim and its number, where it
/// supposes something, with what it supposes, its sentences, its end and its table.
pub fn lemmas_stand()
    ensures { LemmasStand }
{}

/// Each lemma of a story that is told right and that is used once stands where it is used, in front of the
/// sentence or the end that names it, if the one that uses it does not itself stand as deep as lemmas may.
pub fn lemmas_stand_where_used()
    ensures { LemmasStandWhereUsed }
{}
