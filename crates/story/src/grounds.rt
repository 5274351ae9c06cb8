//! What a reason may cite.

ghost use Rattle.std.specs.Prelude.{IsTrue};
ghost use Rattle.std.specs.List.{list_all};
ghost use Rattle.meaning.specs.Stories.{has_literals};
ghost use Rattle.story.specs.Conditions.{has_places};

use meaning::Lemma;
use outcomes::{OutcomeKind, Setting};
use vocab::Places;

/// What reasons may cite: the axioms of a core, and lemmas. The core has places of the study's axioms alone,
/// and the lemmas have literals of the size alone.
#[derive(Drop)]
pub struct Grounds<'a, K: OutcomeKind> {
    pub setting: &'a Setting<'a, K>,
    pub core: &'a Places,
    pub lemmas: &'a [Lemma],
    pub ghost places: { IsTrue (has_places setting.now.study.now.axioms core.now) },
    pub ghost literals: { IsTrue (list_all (has_literals (K.size setting.now.kind.now)) lemmas.now) },
}
