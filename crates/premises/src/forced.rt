//! Facts that are forced where nothing is supposed.

ghost use Rattle.std.specs.Prelude.{◌≡◌, ◌&&◌, not, is_some, ℕ, List, [], ◌∷◌, ◌++◌, IsTrue, IsFalse, IfOk, IfSome, OnOk};
ghost use Rattle.std.specs.List.{list_all};
ghost use Rattle.vocab.specs.Literal.{has, opposite_of};
ghost use Rattle.vocab.specs.Size.{Extent};
ghost use Rattle.vocab.specs.Titled.{Titled};
ghost use Rattle.meaning.specs.Literals.{is_literal};
ghost use Rattle.meaning.specs.declared.stories.Lemma.{Lemma};
ghost use Rattle.meaning.specs.Stories.{has_literals, refutes};
ghost use Rattle.story.specs.Conditions.{IsClear};
ghost use Rattle.tellings.specs.Tellings.{forced_by, forced_facts, forced_with, is_forced, several};
ghost use Rattle.premises.specs.Forcing.{AreForced, AreGathered, AreStated};
ghost use Rattle.premises.specs.SoFar.{bare_steps, FollowsFrom};

use crate::accepted::AcceptedStory;
use crate::checking::{Checker, all_say};
use crate::teller::Teller;
use crate::telling::say;
use joined_sentences::{Chains, StepIndex, reshape};
use lists::{Items, NoMemory};
use meaning::{Lemma, Literals, StoryStep};
use needed_facts::Facts;
use outcomes::OutcomeKind;
use std::alloc::Global;
use story::Grounds;
use tellings::{Passage, Placed};
use vocab::Sort;
use worlds::Board;

/// The facts of a story that are forced, with the sentences that state them.
#[derive(Drop)]
pub(crate) struct Forced {
    pub(crate) board: Board,
    pub(crate) passage: Passage,
}

/// Facts that are forced, so far, with the sentences that state them.
#[derive(Drop)]
pub(crate) struct Gathered {
    board: Board,
    passage: Passage,
    chains: Chains,
}

impl Gathered {
    /// No fact yet.
    fn new<K: OutcomeKind>(alloc: Global, kind: &K) -> Result<Gathered, NoMemory>
        ensures so_far { (axioms : List Titled) (core : List ℕ) (earlier : List Lemma) →
            IfOk result (AreGathered (K.size kind.now) axioms core earlier) }
        ensures none { IfOk result (λ gathered. gathered.board.literals ≡ []) }
    {
        let keys = kind.space().size().sort_len(Sort::Profile) as usize;
        Ok(Gathered {
            board: Board::new(alloc, kind)?,
            passage: Passage {
                sentences: Items::new(alloc),
                steps: Items::new(alloc),
            },
            chains: Chains::new(alloc, keys.saturating_add(1))?,
        })
    }

    /// Takes the fact of a step among them, which follows from these facts.
    fn state(&mut self, step: &StoryStep, rests: Literals) -> Result<(), NoMemory>
        requires literal { IsTrue (is_literal self.old.board.size step.now.literal) }
        requires fresh { IsFalse (has self.old.board.literals step.now.literal) }
        ensures so_far { (size : Extent) (axioms : List Titled) (core : List ℕ) (earlier : List Lemma) →
            AreGathered size axioms core earlier self.old →
            FollowsFrom size axioms core earlier self.old.board.literals step.now rests →
            OnOk result (AreGathered size axioms core earlier self.new) }
        ensures stated { OnOk result
            (self.new.board.literals ≡ self.old.board.literals ++ step.now.literal ∷ []) }
    {
        say(&mut self.passage, &mut self.chains, step, rests)?;
        self.board.add(&step.literal);
        Ok(())
    }

    /// Takes the fact of a step among them, if it is not yet there and they force it.
    fn take<K: OutcomeKind>(
        &mut self,
        alloc: Global,
        grounds: &Grounds<K>,
        tried: &mut Board,
        step: &StoryStep,
    ) -> Result<(), NoMemory>
        requires tried { tried.old.size ≡ K.size grounds.now.setting.now.kind.now }
        requires literal { IsTrue (is_literal (K.size grounds.now.setting.now.kind.now) step.now.literal) }
        requires so_far { AreGathered (K.size grounds.now.setting.now.kind.now)
            grounds.now.setting.now.study.now.axioms grounds.now.core.now grounds.now.lemmas.now self.old }
        ensures tried { tried.new.size ≡ tried.old.size }
        ensures so_far { OnOk result (AreGathered (K.size grounds.now.setting.now.kind.now)
            grounds.now.setting.now.study.now.axioms grounds.now.core.now grounds.now.lemmas.now self.new) }
        ensures facts { OnOk result (self.new.board.literals ≡ forced_with
            (K.size grounds.now.setting.now.kind.now) grounds.now.setting.now.study.now.axioms
            grounds.now.core.now grounds.now.lemmas.now self.old.board.literals step.now) }
    {
        if self.board.has(&step.literal) {
            return Ok(());
        }
        let found = rests_of_step(alloc, grounds, &mut self.board, tried, step)?;
        match found {
            Some(rests) => self.state(step, rests),
            None => Ok(()),
        }
    }

    /// Takes the facts of some steps among them, one after another.
    fn take_all<K: OutcomeKind>(
        &mut self,
        alloc: Global,
        grounds: &Grounds<K>,
        tried: &mut Board,
        steps: &[StoryStep],
    ) -> Result<(), NoMemory>
        requires tried { tried.old.size ≡ K.size grounds.now.setting.now.kind.now }
        requires literals { IsTrue
            (list_all (λ step. is_literal (K.size grounds.now.setting.now.kind.now) step.literal) steps.now) }
        requires so_far { AreGathered (K.size grounds.now.setting.now.kind.now)
            grounds.now.setting.now.study.now.axioms grounds.now.core.now grounds.now.lemmas.now self.old }
        ensures tried { tried.new.size ≡ tried.old.size }
        ensures so_far { OnOk result (AreGathered (K.size grounds.now.setting.now.kind.now)
            grounds.now.setting.now.study.now.axioms grounds.now.core.now grounds.now.lemmas.now self.new) }
        ensures facts { OnOk result (self.new.board.literals ≡ forced_by
            (K.size grounds.now.setting.now.kind.now) grounds.now.setting.now.study.now.axioms
            grounds.now.core.now grounds.now.lemmas.now self.old.board.literals steps.now) }
    {
        for step in steps {
            self.take(alloc, grounds, tried, step)?;
        }
        Ok(())
    }
}

/// Whether the reason of a step refutes the opposite of its fact alone.
fn is_forced_alone<K: OutcomeKind>(
    grounds: &Grounds<K>,
    tried: &mut Board,
    step: &StoryStep,
) -> bool
    requires tried { tried.old.size ≡ K.size grounds.now.setting.now.kind.now }
    requires literal { IsTrue (is_literal (K.size grounds.now.setting.now.kind.now) step.now.literal) }
    ensures tried { tried.new.size ≡ tried.old.size }
    ensures refuted { result ≡ refutes (K.size grounds.now.setting.now.kind.now)
        grounds.now.setting.now.study.now.axioms grounds.now.core.now grounds.now.lemmas.now (opposite_of
        step.now.literal ∷ []) step.now.reason }
{
    let other = step.literal.opposite();
    tried.clear();
    tried.add(&other);
    let facts = Facts {
        grounds,
        board: tried,
    };
    facts.refutes(&step.reason)
}

/// Whether the reason of a step refutes the opposite of its fact together with facts that are forced, where
/// that opposite is none of them. It stands among them meanwhile.
fn is_forced_with<K: OutcomeKind>(grounds: &Grounds<K>, facts: &mut Board, step: &StoryStep) -> bool
    requires facts { facts.old.size ≡ K.size grounds.now.setting.now.kind.now }
    requires literal { IsTrue (is_literal (K.size grounds.now.setting.now.kind.now) step.now.literal) }
    ensures size { facts.new.size ≡ facts.old.size }
    ensures same { facts.new.literals ≡ facts.old.literals }
    ensures refuted { result ≡ (not (has facts.old.literals (opposite_of step.now.literal)) && refutes
        (K.size grounds.now.setting.now.kind.now) grounds.now.setting.now.study.now.axioms
        grounds.now.core.now grounds.now.lemmas.now (facts.old.literals ++ opposite_of step.now.literal ∷ [])
        step.now.reason) }
{
    let other = step.literal.opposite();
    if facts.has(&other) {
        return false;
    }
    facts.add(&other);
    let all = Facts {
        grounds,
        board: facts,
    };
    let refuted = all.refutes(&step.reason);
    facts.remove(&other);
    refuted
}

/// What the fact of a step rests on of facts that are forced, if they force it: nothing, where its reason
/// does so alone.
fn rests_of_step<K: OutcomeKind>(
    alloc: Global,
    grounds: &Grounds<K>,
    facts: &mut Board,
    tried: &mut Board,
    step: &StoryStep,
) -> Result<Option<Literals>, NoMemory>
    requires facts { facts.old.size ≡ K.size grounds.now.setting.now.kind.now }
    requires tried { tried.old.size ≡ K.size grounds.now.setting.now.kind.now }
    requires literal { IsTrue (is_literal (K.size grounds.now.setting.now.kind.now) step.now.literal) }
    ensures size { facts.new.size ≡ facts.old.size }
    ensures same { facts.new.literals ≡ facts.old.literals }
    ensures tried { tried.new.size ≡ tried.old.size }
    ensures forced { IfOk result (λ found. is_some found ≡ is_forced (K.size grounds.now.setting.now.kind.now)
        grounds.now.setting.now.study.now.axioms grounds.now.core.now grounds.now.lemmas.now
        facts.old.literals step.now) }
    ensures rests { IfOk result (λ found. IfSome found (FollowsFrom (K.size grounds.now.setting.now.kind.now)
        grounds.now.setting.now.study.now.axioms grounds.now.core.now grounds.now.lemmas.now
        facts.old.literals step.now)) }
{
    if is_forced_alone(grounds, tried, step) {
        return Ok(Some(Literals::new(alloc)));
    }
    if !is_forced_with(grounds, facts, step) {
        return Ok(None);
    }
    let others = [step.literal.opposite()];
    let known = Facts {
        grounds,
        board: facts,
    };
    let rests = known.rests_on(alloc, tried, &others, &step.reason)?;
    Ok(Some(rests))
}

/// The facts of the steps of lemmas that are forced, one after another. What is on the board where they are
/// tried does not count.
fn gather<K: OutcomeKind>(
    alloc: Global,
    grounds: &Grounds<K>,
    tried: &mut Board,
    story: &[Lemma],
) -> Result<Gathered, NoMemory>
    requires tried { tried.old.size ≡ K.size grounds.now.setting.now.kind.now }
    requires literals { IsTrue (list_all (has_literals (K.size grounds.now.setting.now.kind.now)) story.now) }
    ensures tried { tried.new.size ≡ tried.old.size }
    ensures so_far { IfOk result (AreGathered (K.size grounds.now.setting.now.kind.now)
        grounds.now.setting.now.study.now.axioms grounds.now.core.now grounds.now.lemmas.now) }
    ensures facts { IfOk result (λ gathered. gathered.board.literals ≡ forced_facts
        (K.size grounds.now.setting.now.kind.now) grounds.now.setting.now.study.now.axioms
        grounds.now.core.now grounds.now.lemmas.now story.now) }
{
    let mut gathered = Gathered::new(alloc, grounds.setting.kind)?;
    for place in 0..story.len() {
        let steps = story[place].steps.as_slice();
        gathered.take_all(alloc, grounds, tried, steps)?;
    }
    Ok(gathered)
}

/// The facts that were gathered, in the sentences in which they were.
fn as_gathered(gathered: Gathered) -> Forced
    ensures { (size : Extent) (axioms : List Titled) (core : List ℕ) (earlier : List Lemma) →
        AreGathered size axioms core earlier gathered →
        AreStated size axioms core earlier gathered.board.literals result }
{
    let _facts = gathered.board.as_slice();
    let Gathered {
        board,
        passage,
        chains: _,
    } = gathered;
    Forced { board, passage }
}

/// Steps without their places.
fn bare_steps(alloc: Global, steps: &[Placed]) -> Result<Items<StoryStep>, NoMemory>
    ensures { IfOk result (λ bare. bare ≡ bare_steps steps.now) }
{
    let mut bare = Items::with_room(alloc, steps.len())?;
    for placed in steps {
        bare.push(placed.step)?;
    }
    Ok(bare)
}

impl<K: OutcomeKind> Teller<'_, K> {
    /// The facts that were gathered, with sentences of one shape as one, where that tells them right.
    /// Nothing is forced before, nor supposed.
    fn shorten_forced(
        &self,
        alloc: Global,
        tried: &mut Board,
        gathered: Gathered,
    ) -> Result<Option<Forced>, NoMemory>
        requires none { self.now.forced.now.literals ≡ [] }
        requires tried { tried.old.size ≡ K.size self.now.grounds.setting.now.kind.now }
        requires gathered { AreGathered (K.size self.now.grounds.setting.now.kind.now)
            self.now.grounds.setting.now.study.now.axioms self.now.grounds.core.now
            self.now.grounds.lemmas.now gathered }
        ensures tried { tried.new.size ≡ tried.old.size }
        ensures stated { IfOk result (λ found. IfSome found (AreStated
            (K.size self.now.grounds.setting.now.kind.now) self.now.grounds.setting.now.study.now.axioms
            self.now.grounds.core.now self.now.grounds.lemmas.now gathered.board.literals)) }
    {
        let size = self.grounds.setting.kind.space().size();
        let _facts = gathered.board.as_slice();
        let Gathered {
            board,
            passage,
            chains: _,
        } = gathered;
        let steps = bare_steps(alloc, passage.steps.as_slice())?;
        let mut index = StepIndex::new(alloc, size)?;
        index.enter_all(passage.steps.as_slice());
        let reshaped = reshape(alloc, size, tried, &index, passage)?;
        let passage = self.told_in(alloc, reshaped, steps.as_slice())?;
        if !all_say(alloc, &passage)? {
            return Ok(None);
        }
        let checker = Checker {
            teller: self,
            supposed: self.forced,
            index: &index,
        };
        if checker.upholds(tried, &passage, &[]) {
            return Ok(Some(Forced { board, passage }));
        }
        Ok(None)
    }

    /// The facts of a story's steps that are forced, with sentences of one shape as one where that tells
    /// them right; else they are gathered again. Nothing is forced before, nor supposed.
    fn forced_in(&self, alloc: Global, story: &[Lemma]) -> Result<Forced, NoMemory>
        requires none { self.now.forced.now.literals ≡ [] }
        requires literals { IsTrue
            (list_all (has_literals (K.size self.now.grounds.setting.now.kind.now)) story.now) }
        ensures { IfOk result (AreStated (K.size self.now.grounds.setting.now.kind.now)
            self.now.grounds.setting.now.study.now.axioms self.now.grounds.core.now
            self.now.grounds.lemmas.now (forced_facts (K.size self.now.grounds.setting.now.kind.now)
            self.now.grounds.setting.now.study.now.axioms self.now.grounds.core.now
            self.now.grounds.lemmas.now story.now)) }
    {
        let mut tried = Board::new(alloc, self.grounds.setting.kind)?;
        let gathered = gather(alloc, &self.grounds, &mut tried, story)?;
        let shorter = self.shorten_forced(alloc, &mut tried, gathered)?;
        match shorter {
            Some(forced) => Ok(forced),
            None => Ok(as_gathered(gather(alloc, &self.grounds, &mut tried, story)?)),
        }
    }
}

/// The lemmas of a story of several; of one alone none.
#[tactic(auto, using(crate::proofs::SeveralLemmas::one_alone, crate::proofs::SeveralLemmas::all_of_several))]
fn several(story: &[Lemma]) -> &[Lemma]
    ensures { result.now ≡ several story.now }
{
    if story.len() == 1 { &[] } else { story }
}

/// The facts that come first in a story; `none` is a board without facts.
fn forced_over<'a, K: OutcomeKind>(
    alloc: Global,
    accepted: &'a AcceptedStory<'a, K>,
    none: &'a Board,
) -> Result<Forced, NoMemory>
    requires { IsClear (K.size accepted.now.setting.now.kind.now) none.now }
    ensures { IfOk result (AreForced (K.size accepted.now.setting.now.kind.now)
        accepted.now.setting.now.study.now.axioms accepted.now.core.now (several accepted.now.story.now)) }
{
    let grounds = Grounds {
        setting: accepted.setting,
        core: accepted.core,
        lemmas: &[],
    };
    let teller = Teller {
        grounds,
        forced: none,
    };
    let forced = teller.forced_in(alloc, several(accepted.story.as_slice()))?;
    Ok(forced)
}

/// The facts that come first in a story: where it has several lemmas, those of its steps that are forced
/// where nothing is supposed, by no lemma. The boards on which they are tried are let go with the return.
pub(crate) fn forced_facts<K: OutcomeKind>(
    alloc: Global,
    accepted: &AcceptedStory<K>,
) -> Result<Forced, NoMemory>
    ensures { IfOk result (AreForced (K.size accepted.now.setting.now.kind.now)
        accepted.now.setting.now.study.now.axioms accepted.now.core.now (several accepted.now.story.now)) }
{
    let none = Board::new(alloc, accepted.setting.kind)?;
    let forced = forced_over(alloc, accepted, &none)?;
    Ok(forced)
}
