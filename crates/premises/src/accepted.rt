//! Stories that are accepted.

ghost use Rattle.std.specs.Prelude.{IsTrue};
ghost use Rattle.meaning.specs.Stories.{is_story};
ghost use Rattle.story.specs.Conditions.{has_places};

use lists::Items;
use meaning::Lemma;
use outcomes::{OutcomeKind, Setting};
use vocab::Places;

/// A story that is accepted over the axioms of a core.
#[derive(Drop)]
pub struct AcceptedStory<'a, K: OutcomeKind> {
    pub setting: &'a Setting<'a, K>,
    pub core: &'a Places,
    pub story: &'a Items<Lemma>,
    pub ghost places: { IsTrue (has_places setting.now.study.now.axioms core.now) },
    pub ghost accepted: { IsTrue (is_story (K.size setting.now.kind.now) setting.now.study.now.axioms
        core.now story.now) },
}
