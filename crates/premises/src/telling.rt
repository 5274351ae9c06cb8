//! Lemmas told by sentences, each of which says steps that rest on the very same facts.

ghost use Rattle.std.specs.Prelude.{◌≡◌, ◌++◌, [], ◌∷◌, ℕ, List, IsTrue, IsFalse, IfOk, OnOk};
ghost use Rattle.std.specs.List.{list_all};
ghost use Rattle.vocab.specs.declared.literals.Literal.{Literal};
ghost use Rattle.vocab.specs.Literal.{has, opposite_of};
ghost use Rattle.vocab.specs.Size.{Extent};
ghost use Rattle.vocab.specs.Titled.{Titled};
ghost use Rattle.meaning.specs.declared.stories.Lemma.{Lemma};
ghost use Rattle.meaning.specs.Literals.{is_literal};
ghost use Rattle.meaning.specs.Stories.{are_new, is_lemma, refutes};
ghost use Rattle.tellings.specs.Tellings.{IsTellingRight};
ghost use Rattle.premises.specs.SoFar.{bare_steps, unforced};
ghost use Rattle.premises.specs.SoFar.{FollowsFrom, IsToldSoFar};

use crate::desk::Desk;
use crate::teller::Teller;
use joined_sentences::{Chains, by_of, forget, join};
use lists::{Items, NoMemory};
use meaning::{Lemma, Literals, StoryStep};
use needed_facts::Facts;
use outcomes::OutcomeKind;
use std::alloc::Global;
use tellings::{Passage, Placed, Telling};
use vocab::Literal;
use worlds::Board;

/// Puts suppositions on an empty board.
pub(crate) fn suppose(known: &mut Board, literals: &[Literal])
    requires cleared { known.old.literals ≡ [] }
    requires literals { IsTrue (list_all (is_literal known.old.size) literals.now) }
    requires distinct { IsTrue (are_new [] literals.now) }
    ensures size { known.new.size ≡ known.old.size }
    ensures literals { known.new.literals ≡ literals.now }
{
    for literal in literals {
        known.add(literal);
    }
}

/// Says a step in the sentence that rests on these facts, from which the step's fact follows.
pub(crate) fn say(
    passage: &mut Passage,
    chains: &mut Chains,
    step: &StoryStep,
    rests: Literals,
) -> Result<(), NoMemory>
    ensures told { (size : Extent) (axioms : List Titled) (core : List ℕ) (earlier : List Lemma)
        (forced suppose known : List Literal) →
        IsToldSoFar size axioms core earlier forced suppose known passage.old →
        FollowsFrom size axioms core earlier known step.now rests →
        OnOk result (IsToldSoFar size axioms core earlier forced suppose
        (known ++ step.now.literal ∷ []) passage.new) }
    ensures steps { OnOk result
        (bare_steps passage.new.steps ≡ bare_steps passage.old.steps ++ step.now ∷ []) }
{
    let by = by_of(&step.reason);
    let sentence = join(&mut passage.sentences, chains, by, rests)?;
    passage.steps.push(Placed {
        sentence,
        step: *step,
    })?;
    Ok(())
}

impl<K: OutcomeKind> Teller<'_, K> {
    /// Tells a step in a sentence that rests on what its reason needs of what is known, unless its fact is
    /// forced.
    fn take_step(
        &self,
        alloc: Global,
        known: &Board,
        tried: &mut Board,
        chains: &mut Chains,
        passage: &mut Passage,
        step: &StoryStep,
    ) -> Result<(), NoMemory>
        requires known { known.now.size ≡ K.size self.now.grounds.setting.now.kind.now }
        requires tried { tried.old.size ≡ K.size self.now.grounds.setting.now.kind.now }
        requires refuted { IsTrue (refutes (K.size self.now.grounds.setting.now.kind.now)
            self.now.grounds.setting.now.study.now.axioms self.now.grounds.core.now
            self.now.grounds.lemmas.now (known.now.literals ++ opposite_of step.now.literal ∷ [])
            step.now.reason) }
        ensures tried { tried.new.size ≡ tried.old.size }
        ensures told { (suppose : List Literal) →
            IsToldSoFar (K.size self.now.grounds.setting.now.kind.now)
            self.now.grounds.setting.now.study.now.axioms self.now.grounds.core.now
            self.now.grounds.lemmas.now self.now.forced.now.literals suppose
            known.now.literals passage.old →
            OnOk result (IsToldSoFar (K.size self.now.grounds.setting.now.kind.now)
            self.now.grounds.setting.now.study.now.axioms self.now.grounds.core.now
            self.now.grounds.lemmas.now self.now.forced.now.literals suppose
            (known.now.literals ++ step.now.literal ∷ []) passage.new) }
        ensures steps { OnOk result (bare_steps passage.new.steps ≡
            bare_steps passage.old.steps ++ unforced self.now.forced.now.literals (step.now ∷ [])) }
    {
        if self.is_forced(&step.literal) {
            return Ok(());
        }
        let others = [step.literal.opposite()];
        let facts = Facts {
            grounds: &self.grounds,
            board: known,
        };
        let rests = facts.rests_on(alloc, tried, &others, &step.reason)?;
        say(passage, chains, step, rests)
    }

    /// How many of some steps are told: those whose facts are not forced.
    fn count_told(&self, steps: &[StoryStep]) -> usize {
        steps
            .iter()
            .filter(|step| !self.is_forced(&step.literal))
            .count()
    }

    /// Tells the steps of a lemma, whose suppositions are on the board.
    fn tell_steps(
        &self,
        alloc: Global,
        known: &mut Board,
        tried: &mut Board,
        chains: &mut Chains,
        lemma: &Lemma,
    ) -> Result<Passage, NoMemory>
        requires known { known.old.size ≡ K.size self.now.grounds.setting.now.kind.now }
        requires tried { tried.old.size ≡ K.size self.now.grounds.setting.now.kind.now }
        requires supposed { known.old.literals ≡ lemma.now.suppose }
        requires lemma { IsTrue (is_lemma (K.size self.now.grounds.setting.now.kind.now)
            self.now.grounds.setting.now.study.now.axioms self.now.grounds.core.now
            self.now.grounds.lemmas.now lemma.now) }
        ensures known { known.new.size ≡ known.old.size }
        ensures tried { tried.new.size ≡ tried.old.size }
        ensures told { IfOk result (IsToldSoFar (K.size self.now.grounds.setting.now.kind.now)
            self.now.grounds.setting.now.study.now.axioms self.now.grounds.core.now
            self.now.grounds.lemmas.now self.now.forced.now.literals lemma.now.suppose known.new.literals) }
        ensures steps { IfOk result (λ passage.
            bare_steps passage.steps ≡ unforced self.now.forced.now.literals lemma.now.steps) }
        ensures ended { OnOk result (IsTrue (refutes (K.size self.now.grounds.setting.now.kind.now)
            self.now.grounds.setting.now.study.now.axioms self.now.grounds.core.now
            self.now.grounds.lemmas.now known.new.literals lemma.now.last)) }
    {
        let told = self.count_told(lemma.steps.as_slice());
        let mut passage = Passage {
            sentences: Items::new(alloc),
            steps: Items::with_room(alloc, told)?,
        };
        for step in lemma.steps.as_slice() {
            self.take_step(alloc, known, tried, chains, &mut passage, step)?;
            known.add(&step.literal);
        }
        Ok(passage)
    }

    /// Tells a lemma that follows from the earlier ones, at a desk.
    pub(crate) fn tell(
        &self,
        alloc: Global,
        desk: &mut Desk,
        lemma: &Lemma,
    ) -> Result<Telling, NoMemory>
        requires known { desk.old.known.size ≡ K.size self.now.grounds.setting.now.kind.now }
        requires tried { desk.old.tried.size ≡ K.size self.now.grounds.setting.now.kind.now }
        requires lemma { IsTrue (is_lemma (K.size self.now.grounds.setting.now.kind.now)
            self.now.grounds.setting.now.study.now.axioms self.now.grounds.core.now
            self.now.grounds.lemmas.now lemma.now) }
        ensures known { desk.new.known.size ≡ desk.old.known.size }
        ensures tried { desk.new.tried.size ≡ desk.old.tried.size }
        ensures told { IfOk result (IsTellingRight (K.size self.now.grounds.setting.now.kind.now)
            self.now.grounds.setting.now.study.now.axioms self.now.grounds.core.now
            self.now.grounds.lemmas.now self.now.forced.now.literals lemma.now) }
    {
        desk.known.clear();
        suppose(&mut desk.known, lemma.suppose.as_slice());
        let passage = self.tell_steps(
            alloc,
            &mut desk.known,
            &mut desk.tried,
            &mut desk.chains,
            lemma,
        )?;
        let facts = Facts {
            grounds: &self.grounds,
            board: &desk.known,
        };
        let end = facts.rests_on(alloc, &mut desk.tried, &[], &lemma.last)?;
        forget(&mut desk.chains, passage.sentences.as_slice());
        Ok(Telling { passage, end })
    }
}
