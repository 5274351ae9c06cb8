//! Stories told by their lemmas.

ghost use Rattle.std.specs.Prelude.{◌≡◌, ℕ, [], take, length, slice_get, Some, IsTrue, IfOk, IfSome};
ghost use Rattle.meaning.specs.declared.stories.Lemma.{Lemma};
ghost use Rattle.meaning.specs.Stories.{is_lemma};
ghost use Rattle.tellings.specs.Tellings.{IsStoryTold, IsTellingRight};
ghost use Rattle.premises.specs.Told.{AreTold};

use crate::accepted::AcceptedStory;
use crate::checking::{Checker, all_say};
use crate::desk::Desk;
use crate::forced::{Forced, forced_facts};
use crate::homes::homes_of;
use crate::teller::Teller;
use crate::telling::suppose;
use joined_sentences::reshape;
use lists::{Items, NoMemory};
use meaning::Lemma;
use outcomes::OutcomeKind;
use std::alloc::Global;
use story::Grounds;
use tellings::{StoryTelling, Telling};
use worlds::Board;

impl<K: OutcomeKind> Teller<'_, K> {
    /// A telling in which sentences of one shape are told as one, where it tells the lemma right. The given one
    /// is let go before the steps are told anew, so that they stand in memory once.
    fn shorten(
        &self,
        alloc: Global,
        desk: &mut Desk,
        lemma: &Lemma,
        telling: Telling,
    ) -> Result<Option<Telling>, NoMemory>
        requires known { desk.old.known.size ≡ K.size self.now.grounds.setting.now.kind.now }
        requires tried { desk.old.tried.size ≡ K.size self.now.grounds.setting.now.kind.now }
        requires lemma { IsTrue (is_lemma (K.size self.now.grounds.setting.now.kind.now)
            self.now.grounds.setting.now.study.now.axioms self.now.grounds.core.now
            self.now.grounds.lemmas.now lemma.now) }
        requires told { IsTellingRight (K.size self.now.grounds.setting.now.kind.now)
            self.now.grounds.setting.now.study.now.axioms self.now.grounds.core.now
            self.now.grounds.lemmas.now self.now.forced.now.literals lemma.now telling }
        ensures known { desk.new.known.size ≡ desk.old.known.size }
        ensures tried { desk.new.tried.size ≡ desk.old.tried.size }
        ensures told { IfOk result (λ found. IfSome found (IsTellingRight
            (K.size self.now.grounds.setting.now.kind.now) self.now.grounds.setting.now.study.now.axioms
            self.now.grounds.core.now self.now.grounds.lemmas.now self.now.forced.now.literals lemma.now)) }
    {
        let size = self.grounds.setting.kind.space().size();
        let Telling { passage, end } = telling;
        desk.index.enter_all(passage.steps.as_slice());
        let reshaped = reshape(alloc, size, &mut desk.tried, &desk.index, passage)?;
        let passage = self.told_in(alloc, reshaped, lemma.steps.as_slice())?;
        if !all_say(alloc, &passage)? {
            return Ok(None);
        }
        desk.known.clear();
        suppose(&mut desk.known, lemma.suppose.as_slice());
        let facts = end.as_slice();
        let checker = Checker {
            teller: self,
            supposed: &desk.known,
            index: &desk.index,
        };
        if checker.upholds(&mut desk.tried, &passage, facts) {
            return Ok(Some(Telling { passage, end }));
        }
        Ok(None)
    }

    /// Tells a lemma that follows from the earlier ones, with sentences of one shape as one where that tells it
    /// right; else it is told again.
    fn tell_shortly(
        &self,
        alloc: Global,
        desk: &mut Desk,
        lemma: &Lemma,
    ) -> Result<Telling, NoMemory>
        requires known { desk.old.known.size ≡ K.size self.now.grounds.setting.now.kind.now }
        requires tried { desk.old.tried.size ≡ K.size self.now.grounds.setting.now.kind.now }
        requires lemma { IsTrue (is_lemma (K.size self.now.grounds.setting.now.kind.now)
            self.now.grounds.setting.now.study.now.axioms self.now.grounds.core.now
            self.now.grounds.lemmas.now lemma.now) }
        ensures known { desk.new.known.size ≡ desk.old.known.size }
        ensures tried { desk.new.tried.size ≡ desk.old.tried.size }
        ensures told { IfOk result (IsTellingRight (K.size self.now.grounds.setting.now.kind.now)
            self.now.grounds.setting.now.study.now.axioms self.now.grounds.core.now
            self.now.grounds.lemmas.now self.now.forced.now.literals lemma.now) }
    {
        let telling = self.tell(alloc, desk, lemma)?;
        let shorter = self.shorten(alloc, desk, lemma, telling)?;
        match shorter {
            Some(telling) => Ok(telling),
            None => self.tell(alloc, desk, lemma),
        }
    }
}

/// Tells the lemmas of an accepted story, each by the lemmas before it, where some facts are forced.
fn tell_lemmas<'a, K: OutcomeKind>(
    alloc: Global,
    accepted: &'a AcceptedStory<'a, K>,
    forced: &'a Board,
) -> Result<Items<Telling>, NoMemory>
    requires { forced.now.size ≡ K.size accepted.now.setting.now.kind.now }
    ensures all { IfOk result (λ tellings. length tellings ≡ length accepted.now.story.now) }
    ensures each { IfOk result (AreTold (K.size accepted.now.setting.now.kind.now)
        accepted.now.setting.now.study.now.axioms accepted.now.core.now accepted.now.story.now
        forced.now.literals) }
{
    let story = accepted.story;
    let mut desk = Desk::new(alloc, accepted.setting.kind)?;
    let mut tellings = Items::new(alloc);
    for place in 0..story.len() {
        let grounds = Grounds {
            setting: accepted.setting,
            core: accepted.core,
            lemmas: &story.as_slice()[..place],
        };
        let teller = Teller { grounds, forced };
        let telling = teller.tell_shortly(alloc, &mut desk, story.get(place))?;
        tellings.push(telling)?;
    }
    Ok(tellings)
}

/// Tells an accepted story: first, where it has several lemmas, the facts that are forced where nothing is
/// supposed, then each lemma by the lemmas before it. The only error is want of memory.
pub fn tell_story<K: OutcomeKind>(
    alloc: Global,
    accepted: &AcceptedStory<K>,
) -> Result<StoryTelling, NoMemory>
    ensures { IfOk result (IsStoryTold (K.size accepted.now.setting.now.kind.now)
        accepted.now.setting.now.study.now.axioms accepted.now.core.now accepted.now.story.now) }
{
    let forced = forced_facts(alloc, accepted)?;
    let lemmas = tell_lemmas(alloc, &*accepted, &forced.board)?;
    let homes = homes_of(alloc, accepted.story.as_slice(), lemmas.as_slice())?;
    let Forced {
        board: _,
        passage: forced,
    } = forced;
    Ok(StoryTelling {
        forced,
        lemmas,
        homes,
    })
}
