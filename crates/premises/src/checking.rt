//! Whether a passage tells a lemma right.

ghost use Rattle.std.specs.Prelude.{◌≡◌, ◌<◌, ◌&&◌, ◌==◌, nat_lt, ℕ, length, slice_get, Some, IsTrue, IfOk};
ghost use Rattle.std.specs.List.{list_all, list_any};
ghost use Rattle.vocab.specs.Literal.{has, same_literal};
ghost use Rattle.meaning.specs.Literals.{is_literal};
ghost use Rattle.tellings.specs.Tellings.{are_said, moved_to, rests_of, says_step, stand_there, stands_before, AllSay};
ghost use Rattle.premises.specs.SoFar.{Upholds};
ghost use Rattle.premises.specs.Checking.{IsLoaded};

use crate::teller::Teller;
use joined_sentences::{Chains, StepIndex, by_of, is_by};
use lists::{Items, NoMemory};
use meaning::{Reason, StoryStep};
use needed_facts::{Facts, add_others, is_literal};
use outcomes::OutcomeKind;
use std::alloc::Global;
use tellings::{Passage, Placed, Sentence};
use vocab::{Literal, Size};
use worlds::Board;

/// Puts what the sentence of a number rests on in place of what is on a board, unless it is there already.
/// False where there is no such sentence, or where it rests on what is no literal of the size, or on one
/// twice.
fn load(
    size: Size,
    tried: &mut Board,
    sentences: &Items<Sentence>,
    loaded: usize,
    number: usize,
) -> bool
    requires size { tried.old.size ≡ size }
    requires loaded { IsLoaded sentences.now loaded tried.old.literals }
    ensures size { tried.new.size ≡ tried.old.size }
    ensures within { IsTrue result → number < length sentences.now }
    ensures loaded { IsTrue result → tried.new.literals ≡ rests_of (slice_get sentences.now number) }
{
    if number >= sentences.len() {
        return false;
    }
    if number == loaded {
        return true;
    }
    tried.clear();
    add_others(size, tried, sentences.get(number).rests.as_slice())
}

/// Whether some step stands in the sentence of a number, if the chains have the steps by their sentences.
fn says_one(chains: &Chains, steps: &[Placed], number: usize) -> bool
    ensures { IsTrue result → IsTrue (list_any (λ placed. placed.sentence == number) steps.now) }
{
    let Some(place) = chains.newest(number) else {
        return false;
    };
    let place = place as usize;
    place < steps.len() && steps[place].sentence as usize == number
}

/// Whether each sentence of a passage says a step.
pub(crate) fn all_say(alloc: Global, passage: &Passage) -> Result<bool, NoMemory>
    ensures { IfOk result (λ say. IsTrue say → AllSay passage.now) }
{
    let steps = passage.steps.as_slice();
    let mut chains = Chains::new(alloc, passage.sentences.len())?;
    for placed in steps {
        chains.push(placed.sentence as usize)?;
    }
    for number in 0..passage.sentences.len() {
        if !says_one(&chains, steps, number) {
            return Ok(false);
        }
    }
    Ok(true)
}

/// Whether a step of a sentence before the number states a fact.
fn is_stated(index: &StepIndex, steps: &[Placed], number: usize, literal: &Literal) -> bool
    ensures { IsTrue result → IsTrue (list_any
        (λ placed. nat_lt placed.sentence number && same_literal literal.now placed.step.literal) steps.now) }
{
    match index.sentence_of(steps, literal) {
        Some(sentence) => (sentence as usize) < number,
        None => false,
    }
}

/// The claim of a fact, made of another profile.
fn moved_to(p: u32, literal: &Literal) -> Literal
    ensures { result ≡ moved_to p literal.now }
{
    match *literal {
        Literal::Wins(x, _) => Literal::Wins(x, p),
        Literal::Loses(x, _) => Literal::Loses(x, p),
        Literal::Above(x, y, _) => Literal::Above(x, y, p),
    }
}

/// Whether all claims of some facts stand among them of a profile.
fn all_moved<K: OutcomeKind>(facts: &Facts<K>, p: u32) -> bool
    ensures { IsTrue result → IsTrue
        (list_all (λ l. has facts.now.board.now.literals (moved_to p l)) facts.now.board.now.literals) }
{
    let size = facts.grounds.setting.kind.space().size();
    for literal in facts.board.as_slice() {
        let moved = moved_to(p, literal);
        if !is_literal(size, &moved) || !facts.board.has(&moved) {
            return false;
        }
    }
    true
}

/// Whether all claims of some facts stand among them of the profile, if a reason is what is left at one.
fn stand_there<K: OutcomeKind>(facts: &Facts<K>, reason: &Reason) -> bool
    ensures { IsTrue result → IsTrue (stand_there facts.now.board.now.literals reason.now) }
{
    match *reason {
        Reason::Axiom(_, _) => true,
        Reason::Outcome(p) => all_moved(facts, p),
        Reason::Lemma(_) => true,
    }
}

impl<K: OutcomeKind> Teller<'_, K> {
    /// Whether a sentence says a step. What it rests on is on the board.
    fn says(&self, tried: &mut Board, sentence: &Sentence, step: &StoryStep) -> bool
        requires size { tried.old.size ≡ K.size self.now.grounds.setting.now.kind.now }
        requires loaded { tried.old.literals ≡ sentence.now.rests }
        ensures size { tried.new.size ≡ tried.old.size }
        ensures same { tried.new.literals ≡ tried.old.literals }
        ensures says { IsTrue result → IsTrue (says_step (K.size self.now.grounds.setting.now.kind.now)
            self.now.grounds.setting.now.study.now.axioms self.now.grounds.core.now
            self.now.grounds.lemmas.now (Some sentence.now) step.now) }
    {
        let size = self.grounds.setting.kind.space().size();
        let other = step.literal.opposite();
        if !is_literal(size, &other) || tried.has(&other) {
            return false;
        }
        let rests = Facts {
            grounds: &self.grounds,
            board: tried,
        };
        if !stand_there(&rests, &step.reason) {
            return false;
        }
        tried.add(&other);
        let all = Facts {
            grounds: &self.grounds,
            board: tried,
        };
        let refuted = all.refutes(&step.reason);
        tried.remove(&other);
        refuted && is_by(sentence.by, by_of(&step.reason))
    }

    /// Whether each step stands in a sentence that says it.
    fn are_said(&self, tried: &mut Board, passage: &Passage) -> bool
        requires { tried.old.size ≡ K.size self.now.grounds.setting.now.kind.now }
        ensures size { tried.new.size ≡ tried.old.size }
        ensures said { IsTrue result → IsTrue (are_said (K.size self.now.grounds.setting.now.kind.now)
            self.now.grounds.setting.now.study.now.axioms self.now.grounds.core.now
            self.now.grounds.lemmas.now passage.now) }
    {
        let size = self.grounds.setting.kind.space().size();
        let sentences = &passage.sentences;
        let mut loaded = sentences.len();
        for placed in passage.steps.as_slice() {
            let number = placed.sentence as usize;
            if !load(size, tried, sentences, loaded, number) {
                return false;
            }
            if !self.says(tried, sentences.get(number), &placed.step) {
                return false;
            }
            loaded = number;
        }
        true
    }
}

/// What a passage is checked against: what lemmas are told by, suppositions on a board of the size, and where
/// facts are stated.
#[derive(Drop)]
pub(crate) struct Checker<'a, K: OutcomeKind> {
    pub(crate) teller: &'a Teller<'a, K>,
    pub(crate) supposed: &'a Board,
    pub(crate) index: &'a StepIndex,
    ghost size: { supposed.now.size ≡ K.size teller.now.grounds.setting.now.kind.now },
}

impl<K: OutcomeKind> Checker<'_, K> {
    /// Whether a fact is one of the size that was forced or supposed, or is stated before a number.
    fn stands(&self, steps: &[Placed], number: usize, literal: &Literal) -> bool
        ensures { IsTrue result → IsTrue (stands_before self.now.teller.now.forced.now.literals
            self.now.supposed.now.literals steps.now number literal.now) }
    {
        let teller = self.teller;
        is_literal(teller.grounds.setting.kind.space().size(), literal)
            && (teller.forced.has(literal)
                || self.supposed.has(literal)
                || is_stated(self.index, steps, number, literal))
    }

    /// Whether all of some facts do.
    fn all_stand(&self, steps: &[Placed], number: usize, literals: &[Literal]) -> bool
        ensures { IsTrue result → IsTrue (list_all (stands_before self.now.teller.now.forced.now.literals
            self.now.supposed.now.literals steps.now number) literals.now) }
    {
        for literal in literals {
            if !self.stands(steps, number, literal) {
                return false;
            }
        }
        true
    }

    /// Whether each fact that a sentence rests on stands before it.
    fn are_grounded(&self, passage: &Passage) -> bool
        ensures { IsTrue result → (k : ℕ) → IsTrue (list_all
            (stands_before self.now.teller.now.forced.now.literals self.now.supposed.now.literals
            passage.now.steps k) (rests_of (slice_get passage.now.sentences k))) }
    {
        let steps = passage.steps.as_slice();
        for number in 0..passage.sentences.len() {
            let rests = passage.sentences.get(number).rests.as_slice();
            if !self.all_stand(steps, number, rests) {
                return false;
            }
        }
        true
    }

    /// Whether a passage, whose steps are in the index, tells a lemma right up to its end, which rests on
    /// these facts.
    pub(crate) fn upholds(&self, tried: &mut Board, passage: &Passage, end: &[Literal]) -> bool
        requires { tried.old.size ≡ K.size self.now.teller.now.grounds.setting.now.kind.now }
        ensures tried { tried.new.size ≡ tried.old.size }
        ensures upholds { IsTrue result → Upholds (K.size self.now.teller.now.grounds.setting.now.kind.now)
            self.now.teller.now.grounds.setting.now.study.now.axioms self.now.teller.now.grounds.core.now
            self.now.teller.now.grounds.lemmas.now self.now.teller.now.forced.now.literals
            self.now.supposed.now.literals end.now passage.now }
    {
        let number = passage.sentences.len();
        self.all_stand(passage.steps.as_slice(), number, end)
            && self.are_grounded(passage)
            && self.teller.are_said(tried, passage)
    }
}
