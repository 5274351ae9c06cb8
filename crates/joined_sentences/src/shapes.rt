//! Sentences of one shape told as one: those with the same reason and the same level that rest on the same
//! claims, be it at other profiles, or on many facts each where the reason is not `outcome`. Nothing is proved
//! here of what comes out: it is checked before it is taken.

ghost use Rattle.std.specs.Prelude.{◌≡◌};

use crate::chains::Chains;
use crate::joining::is_by;
use crate::literals::is_same_claim;
use crate::step_index::StepIndex;
use lists::{Items, NoMemory};
use meaning::Literals;
use needed_facts::is_literal;
use std::alloc::Global;
use tellings::{By, Passage, Placed, Sentence};
use vocab::{Literal, Size};
use worlds::Board;

/// Of more facts than so many it makes no difference which claims they are, but where they leave one outcome.
const MOST_TOLD_APART: usize = 3;

/// The sentences of a passage by their shapes: of each shape the number of its first sentence, the level and,
/// by the level, its own number; and of each sentence the number of its shape.
#[derive(Drop)]
struct Shapes {
    firsts: Vec<u32>,
    levels: Vec<u32>,
    by_level: Chains,
    of_sentences: Vec<u32>,
}

/// The number at a place; where there is none, 0.
fn at(numbers: &[u32], place: usize) -> u32 {
    if place < numbers.len() {
        numbers[place]
    } else {
        0
    }
}

/// How many of some facts make a claim.
fn count_of(literals: &[Literal], claim: &Literal) -> usize {
    literals.iter().filter(|l| is_same_claim(l, claim)).count()
}

/// Whether there are so many facts on both sides that they are not told apart. What leaves one outcome is said of
/// the profiles of what follows, so that it is the same claims at each of them.
fn are_many(by: By, left: &[Literal], right: &[Literal]) -> bool {
    !is_by(by, By::Outcome) && left.len() > MOST_TOLD_APART && right.len() > MOST_TOLD_APART
}

/// Whether facts make the same claims, each as often.
fn are_alike(left: &[Literal], right: &[Literal]) -> bool {
    left.len() == right.len()
        && left
            .iter()
            .all(|claim| count_of(left, claim) == count_of(right, claim))
}

/// The level of a sentence that rests on these facts: 1 above the greatest level of a sentence that states
/// one of them, of those whose levels are known.
fn level_of(index: &StepIndex, steps: &[Placed], levels: &[u32], rests: &[Literal]) -> u32 {
    let mut highest: u32 = 0;
    for literal in rests {
        if let Some(sentence) = index.sentence_of(steps, literal) {
            highest = highest.max(at(levels, sentence as usize));
        }
    }
    highest.saturating_add(1)
}

/// Whether a sentence has the shape of the one of a number, which is of its level.
fn has_shape(sentences: &[Sentence], first: usize, by: By, rests: &[Literal]) -> bool {
    if first >= sentences.len() || !is_by(sentences[first].by, by) {
        return false;
    }
    let known = sentences[first].rests.as_slice();
    are_many(by, known, rests) || are_alike(known, rests)
}

impl Shapes {
    /// The number of the shape of a sentence of a level, if it is known.
    fn find(&self, sentences: &[Sentence], level: u32, by: By, rests: &[Literal]) -> Option<u32> {
        let mut next = self.by_level.newest(level as usize);
        for _ in 0..self.firsts.len() {
            let Some(number) = next else {
                return None;
            };
            let first = at(self.firsts.as_slice(), number as usize) as usize;
            if has_shape(sentences, first, by, rests) {
                return Some(number);
            }
            next = self.by_level.older(number);
        }
        None
    }

    /// Takes in a sentence, with its level.
    fn take(&mut self, sentences: &[Sentence], place: u32, level: u32) -> Result<(), NoMemory> {
        let number = place as usize;
        if number >= sentences.len() {
            return Ok(());
        }
        let by = sentences[number].by;
        let found = self.find(sentences, level, by, sentences[number].rests.as_slice());
        match found {
            Some(shape) => self.of_sentences.push(shape)?,
            None => {
                let count = self.firsts.len().min(4_294_967_295);
                self.firsts.push(place)?;
                self.levels.push(level)?;
                self.by_level.push(level as usize)?;
                self.of_sentences.push(count as u32)?;
            }
        }
        Ok(())
    }
}

/// The shapes of the sentences of a passage, whose steps are in the index.
fn shapes_of(alloc: Global, index: &StepIndex, passage: &Passage) -> Result<Shapes, NoMemory> {
    let sentences = passage.sentences.as_slice();
    let steps = passage.steps.as_slice();
    let count = sentences.len().min(4_294_967_294);
    let mut shapes = Shapes {
        firsts: Vec::new(alloc),
        levels: Vec::new(alloc),
        by_level: Chains::new(alloc, count + 2)?,
        of_sentences: Vec::new(alloc),
    };
    let mut levels = Vec::new(alloc);
    for place in 0..count {
        let rests = sentences[place].rests.as_slice();
        let level = level_of(index, steps, levels.as_slice(), rests);
        levels.push(level)?;
        shapes.take(sentences, place as u32, level)?;
    }
    Ok(shapes)
}

/// Appends the numbers of a key, the newest first.
fn append_chain(
    order: &mut Vec<u32>,
    chains: &Chains,
    key: usize,
    most: usize,
) -> Result<(), NoMemory> {
    let mut next = chains.newest(key);
    for _ in 0..most {
        let Some(number) = next else {
            return Ok(());
        };
        order.push(number)?;
        next = chains.older(number);
    }
    Ok(())
}

/// The places of keys below a bound, in the order of the keys, and those of one key in their own order.
fn in_order(alloc: Global, keys: &[u32], bound: usize) -> Result<Vec<u32>, NoMemory> {
    let mut chains = Chains::new(alloc, bound)?;
    for key in keys {
        chains.push(*key as usize)?;
    }
    let mut order = Vec::new(alloc);
    for key in (0..bound).rev() {
        append_chain(&mut order, &chains, key, keys.len())?;
    }
    order.as_mut_slice().reverse();
    Ok(order)
}

/// By their shapes the numbers that the sentences get: by level, and in a level as the shapes came.
fn numbers_of(alloc: Global, shapes: &Shapes) -> Result<Vec<u32>, NoMemory> {
    let bound = shapes.of_sentences.len().min(4_294_967_294) + 2;
    let order = in_order(alloc, shapes.levels.as_slice(), bound)?;
    let mut ranks = vec![in alloc; 0; shapes.levels.len()]?;
    for rank in 0..order.len().min(4_294_967_295) {
        let shape = order[rank] as usize;
        if shape < ranks.len() {
            ranks[shape] = rank as u32;
        }
    }
    let mut numbers = Vec::new(alloc);
    for shape in shapes.of_sentences.as_slice() {
        numbers.push(at(ranks.as_slice(), *shape as usize))?;
    }
    Ok(numbers)
}

/// Puts literals of the size on a board that are not there.
fn add_all(size: Size, union: &mut Board, literals: &[Literal])
    requires { union.old.size ≡ size }
    ensures { union.new.size ≡ union.old.size }
{
    for literal in literals {
        if is_literal(size, literal) && !union.has(literal) {
            union.add(literal);
        }
    }
}

/// Sentences joined by their new numbers: each rests on what those rest on that have its number. The board is
/// cleared.
fn join_by(
    alloc: Global,
    size: Size,
    union: &mut Board,
    sentences: &[Sentence],
    numbers: &[u32],
    order: &[u32],
) -> Result<Items<Sentence>, NoMemory>
    requires { union.old.size ≡ size }
    ensures { union.new.size ≡ union.old.size }
{
    let mut joined = Items::new(alloc);
    union.clear();
    for place in 0..order.len() {
        let number = order[place] as usize;
        if number < sentences.len() {
            add_all(size, union, sentences[number].rests.as_slice());
            let next = at(order, place + 1) as usize;
            if place + 1 == order.len() || at(numbers, next) != at(numbers, number) {
                let mut rests = Literals::new(alloc);
                rests.append(union.as_slice())?;
                joined.push(Sentence {
                    by: sentences[number].by,
                    rests,
                })?;
                union.clear();
            }
        }
    }
    Ok(joined)
}

/// The new numbers of the sentences of steps.
fn renumbered(alloc: Global, numbers: &[u32], steps: &[Placed]) -> Result<Vec<u32>, NoMemory> {
    let mut new = Vec::with_capacity(alloc, steps.len())?;
    for placed in steps {
        new.push(at(numbers, placed.sentence as usize))?;
    }
    Ok(new)
}

/// Sentences, and the number of the one that says the step at each place of a passage, the first being 0.
#[derive(Drop)]
pub struct Reshaped {
    pub sentences: Items<Sentence>,
    pub numbers: Vec<u32>,
}

/// The sentences of a passage with those of one shape as one, and which says which step. Its steps are in the
/// index; what is on the board does not count. The passage is let go with the return. The only error is want of
/// memory.
pub fn reshape(
    alloc: Global,
    size: Size,
    union: &mut Board,
    index: &StepIndex,
    passage: Passage,
) -> Result<Reshaped, NoMemory>
    requires { union.old.size ≡ size }
    ensures { union.new.size ≡ union.old.size }
{
    let shapes = shapes_of(alloc, index, &passage)?;
    let numbers = numbers_of(alloc, &shapes)?;
    let numbers = numbers.as_slice();
    let order = in_order(alloc, numbers, shapes.firsts.len())?;
    let sentences = passage.sentences.as_slice();
    let sentences = join_by(alloc, size, union, sentences, numbers, order.as_slice())?;
    let numbers = renumbered(alloc, numbers, passage.steps.as_slice())?;
    Ok(Reshaped { sentences, numbers })
}
