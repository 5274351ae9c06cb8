//! What lemmas are told by, and steps in given sentences.

ghost use Rattle.std.specs.Prelude.{◌≡◌, [], ◌∷◌, ◌++◌, IfOk, OnOk};
ghost use Rattle.vocab.specs.Literal.{has};
ghost use Rattle.premises.specs.SoFar.{bare_steps, unforced};

use joined_sentences::Reshaped;
use lists::{Items, NoMemory};
use meaning::StoryStep;
use needed_facts::is_literal;
use outcomes::OutcomeKind;
use std::alloc::Global;
use story::Grounds;
use tellings::{Passage, Placed};
use vocab::Literal;
use worlds::Board;

/// What lemmas are told by: what their reasons may cite, and the facts that are forced.
#[derive(Drop)]
pub(crate) struct Teller<'a, K: OutcomeKind> {
    pub(crate) grounds: Grounds<'a, K>,
    pub(crate) forced: &'a Board,
    ghost size: { forced.now.size ≡ K.size grounds.setting.now.kind.now },
}

/// The number at a place; where there is none, 0.
fn at(numbers: &[u32], place: usize) -> u32 {
    if place < numbers.len() {
        numbers[place]
    } else {
        0
    }
}

impl<K: OutcomeKind> Teller<'_, K> {
    /// Whether a fact is forced.
    pub(crate) fn is_forced(&self, literal: &Literal) -> bool
        ensures { result ≡ has self.now.forced.now.literals literal.now }
    {
        let _facts = self.forced.as_slice();
        if !is_literal(self.grounds.setting.kind.space().size(), literal) {
            return false;
        }
        self.forced.has(literal)
    }

    /// Puts a step to those that are told, with the next of some numbers, unless its fact is forced.
    fn place(
        &self,
        placed: &mut Items<Placed>,
        numbers: &[u32],
        step: &StoryStep,
    ) -> Result<(), NoMemory>
        ensures { OnOk result (bare_steps placed.new ≡
            bare_steps placed.old ++ unforced self.now.forced.now.literals (step.now ∷ [])) }
    {
        if self.is_forced(&step.literal) {
            return Ok(());
        }
        let sentence = at(numbers, placed.len());
        placed.push(Placed {
            sentence,
            step: *step,
        })?;
        Ok(())
    }

    /// Steps with the numbers of their sentences, but for those whose facts are forced.
    fn place_all(
        &self,
        alloc: Global,
        numbers: &[u32],
        steps: &[StoryStep],
    ) -> Result<Items<Placed>, NoMemory>
        ensures { IfOk result (λ placed.
            bare_steps placed ≡ unforced self.now.forced.now.literals steps.now) }
    {
        let mut placed = Items::with_room(alloc, numbers.len())?;
        for step in steps {
            self.place(&mut placed, numbers, step)?;
        }
        Ok(placed)
    }

    /// Steps in these sentences, but for those whose facts are forced.
    pub(crate) fn told_in(
        &self,
        alloc: Global,
        reshaped: Reshaped,
        steps: &[StoryStep],
    ) -> Result<Passage, NoMemory>
        ensures { IfOk result (λ passage.
            bare_steps passage.steps ≡ unforced self.now.forced.now.literals steps.now) }
    {
        let Reshaped { sentences, numbers } = reshaped;
        let steps = self.place_all(alloc, numbers.as_slice(), steps)?;
        Ok(Passage { sentences, steps })
    }
}
