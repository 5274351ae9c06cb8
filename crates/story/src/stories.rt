//! Whether a story is accepted.

ghost use Rattle.std.specs.Prelude.{◌≡◌, ◌⊎◌, ◌≤◌, ℕ, List, [], length, Err, IsTrue, OnOk};
ghost use Rattle.std.specs.List.{list_all};
ghost use Rattle.meaning.specs.Stories.{has_literals, is_story};
ghost use Rattle.meaning.specs.StoryFaults.{story_refusal};
ghost use Rattle.meaning.specs.Truth.{satisfies};
ghost use Rattle.story.specs.Answers.{AnswersFault};
ghost use Rattle.story.specs.Conditions.{has_places, is_short, IsClear};

use crate::grounds::Grounds;
use crate::lemmas::CheckableLemma;
use lists::Items;
use meaning::laws::{accepted_story_has_no_rule, faultless_is_accepted};
use meaning::{Lemma, StoryRefusal};
use outcomes::{OutcomeKind, Setting};
use std::alloc::Global;
use vocab::Places;
use worlds::Board;

/// A story: its lemmas in order.
pub type Story = Items<Lemma>;

/// A story that can be checked over the axioms of a core. Its literals are of the size, and each lemma and
/// each line of a lemma has a number.
#[derive(Drop)]
pub struct CheckableStory<'a, K: OutcomeKind> {
    pub setting: &'a Setting<'a, K>,
    pub core: &'a Places,
    pub story: &'a Story,
    pub ghost places: { IsTrue (has_places setting.now.study.now.axioms core.now) },
    pub ghost literals: { IsTrue (list_all (has_literals (K.size setting.now.kind.now)) story.now) },
    pub ghost short: { IsTrue (list_all is_short story.now) },
    pub ghost few: { length story.now ≤ 4294967295 },
}

/// Whether the story is accepted, so that no rule satisfies the axioms of the core. Else the first faulty
/// line and its lemma, from 0, `Empty` where there is no lemma, or `NoMemory`.
pub fn check_story<K: OutcomeKind>(
    alloc: Global,
    checkable: &CheckableStory<K>,
) -> Result<(), StoryRefusal>
    ensures answer { (result ≡ Err StoryRefusal.NoMemory) ⊎
        AnswersFault result (story_refusal (K.size checkable.now.setting.now.kind.now)
        checkable.now.setting.now.study.now.axioms checkable.now.core.now checkable.now.story.now) }
    ensures accepted { OnOk result (IsTrue (is_story (K.size checkable.now.setting.now.kind.now)
        checkable.now.setting.now.study.now.axioms checkable.now.core.now checkable.now.story.now)) }
    ensures no_rule { OnOk result ((table : List ℕ) →
        ¬ IsTrue (satisfies (K.size checkable.now.setting.now.kind.now)
        checkable.now.setting.now.study.now.axioms checkable.now.core.now table)) }
{
    faultless_is_accepted();
    accepted_story_has_no_rule();
    match Board::new(alloc, checkable.setting.kind) {
        Ok(mut board) => checkable.check_lemmas(&mut board),
        Err(_) => Err(StoryRefusal::NoMemory),
    }
}

impl<K: OutcomeKind> CheckableStory<'_, K> {
    /// Whether there is a lemma, each follows from those before it, and the last supposes nothing.
    fn check_lemmas(&self, board: &mut Board) -> Result<(), StoryRefusal>
        requires { IsClear (K.size self.now.setting.now.kind.now) board.old }
        ensures { AnswersFault result (story_refusal (K.size self.now.setting.now.kind.now)
            self.now.setting.now.study.now.axioms self.now.core.now self.now.story.now) }
    {
        let lemmas = self.story.as_slice();
        if lemmas.is_empty() {
            return Err(StoryRefusal::Empty);
        }
        for place in 0..lemmas.len() {
            let grounds = Grounds {
                setting: self.setting,
                core: self.core,
                lemmas: &lemmas[..place],
            };
            let next = CheckableLemma {
                grounds: &grounds,
                lemma: &lemmas[place],
                final_one: place == lemmas.len() - 1,
            };
            match next.check(board) {
                Ok(()) => {}
                Err(fault) => {
                    return Err(StoryRefusal::Lemma {
                        lemma: place as u32,
                        fault,
                    });
                }
            }
        }
        Ok(())
    }
}
