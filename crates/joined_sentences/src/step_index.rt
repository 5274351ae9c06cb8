//! Where facts are stated.

ghost use Rattle.std.specs.Prelude.{◌<◌, ◌&&◌, ℕ, nat_lt, IsTrue, IfSome};
ghost use Rattle.std.specs.List.{list_any};
ghost use Rattle.vocab.specs.Literal.{same_literal};

use crate::literals::{is_same, place_of, places};
use lists::NoMemory;
use std::alloc::Global;
use tellings::Placed;
use vocab::{Literal, Size};

/// By the place of each fact, the place of the step that states it, among steps that were entered. What it
/// says is held against the steps.
#[derive(Drop)]
pub struct StepIndex {
    steps: Vec<u32>,
}

impl StepIndex {
    /// The index that has no step, for facts of a size. The only error is want of memory.
    pub fn new(alloc: Global, size: Size) -> Result<StepIndex, NoMemory> {
        Ok(StepIndex {
            steps: vec![in alloc; 0; places(size)]?,
        })
    }

    /// Enters the step at a place.
    fn enter(&mut self, literal: &Literal, place: usize) {
        let at = place_of(literal);
        if at < self.steps.len() && place <= 4_294_967_295 {
            self.steps[at] = place as u32;
        }
    }

    /// Enters steps in place of those of before; those past 4,294,967,295 are left out.
    pub fn enter_all(&mut self, steps: &[Placed]) {
        for place in 0..steps.len() {
            self.enter(&steps[place].step.literal, place);
        }
    }

    /// The number of the sentence of a step that states a fact, if there is one.
    pub fn sentence_of(&self, steps: &[Placed], literal: &Literal) -> Option<u32>
        ensures { IfSome result (λ n. (k : ℕ) → n < k → IsTrue (list_any
            (λ placed. nat_lt placed.sentence k && same_literal literal.now placed.step.literal) steps.now)) }
    {
        let at = place_of(literal);
        if at >= self.steps.len() {
            return None;
        }
        let place = self.steps[at] as usize;
        if place >= steps.len() {
            return None;
        }
        if is_same(literal, &steps[place].step.literal) {
            Some(steps[place].sentence)
        } else {
            None
        }
    }
}
