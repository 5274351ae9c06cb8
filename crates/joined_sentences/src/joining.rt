//! Sentences that are joined.

ghost use Rattle.std.specs.Prelude.{◌≡◌, ◌<◌, ◌≤◌, length, slice_get, IsTrue, IfOk, IfSome, IsSomeAnd};
ghost use Rattle.tellings.specs.Tellings.{by_of, is_by};
ghost use Rattle.joined_sentences.specs.Joined.{IsJoined, IsSentenceBy};

use crate::chains::Chains;
use crate::literals::is_same;
use lists::{Items, NoMemory};
use meaning::{Literals, Reason};
use needed_facts::profile_of;
use tellings::{By, Sentence};
use vocab::Literal;

/// What a sentence names of a reason.
pub fn by_of(reason: &Reason) -> By
    ensures { result ≡ by_of reason.now }
{
    match *reason {
        Reason::Axiom(place, _) => By::Axiom(place),
        Reason::Outcome(_) => By::Outcome,
        Reason::Lemma(_) => By::Lemma,
    }
}

/// Whether a sentence names this of its reason.
pub fn is_by(by: By, wanted: By) -> bool
    ensures { result ≡ is_by by wanted }
{
    match (by, wanted) {
        (By::Axiom(k), By::Axiom(l)) => k == l,
        (By::Outcome, By::Outcome) => true,
        (By::Lemma, By::Lemma) => true,
        _ => false,
    }
}

/// Whether these are the same facts in the same order.
fn are_same(left: &[Literal], right: &[Literal]) -> bool
    ensures { IsTrue result → left.now ≡ right.now }
{
    if left.len() != right.len() {
        return false;
    }
    for place in 0..left.len() {
        if !is_same(&left[place], &right[place]) {
            return false;
        }
    }
    true
}

/// Whether a sentence names this reason and rests on these facts.
fn is_sentence(sentence: &Sentence, by: By, rests: &[Literal]) -> bool
    ensures { IsTrue result → IsSentenceBy by rests.now sentence.now }
{
    is_by(sentence.by, by) && are_same(sentence.rests.as_slice(), rests)
}

/// The key by which a sentence is found: the profile of the first fact that it rests on, from 1; without one,
/// 0.
fn key_of(rests: &[Literal]) -> usize {
    match rests.first() {
        Some(literal) => (profile_of(literal) as usize).saturating_add(1),
        None => 0,
    }
}

/// Whether the sentence of a number, if there is one, names this reason and rests on these facts.
fn is_at(sentences: &[Sentence], place: usize, by: By, rests: &[Literal]) -> bool
    ensures within { IsTrue result → place < length sentences.now }
    ensures there { IsTrue result → IsSomeAnd (slice_get sentences.now place) (IsSentenceBy by rests.now) }
{
    place < sentences.len() && is_sentence(&sentences[place], by, rests)
}

/// The place of a sentence that names this reason and rests on these facts, if there is one.
fn place_of(sentences: &[Sentence], chains: &Chains, by: By, rests: &[Literal]) -> Option<usize>
    ensures within { IfSome result (λ k. k < length sentences.now) }
    ensures there { IfSome result (λ k. IsSomeAnd (slice_get sentences.now k) (IsSentenceBy by rests.now)) }
{
    let mut next = chains.newest(key_of(rests));
    for _ in 0..sentences.len() {
        let Some(number) = next else {
            return None;
        };
        if is_at(sentences, number as usize, by, rests) {
            return Some(number as usize);
        }
        next = chains.older(number);
    }
    None
}

/// The number of the sentence that names this reason and rests on these facts, which is added where there is
/// none. The chains, with keys up to the number of profiles, have the sentences that came by this call: one that
/// they do not have is added once more. An error is want of memory, or that there are more than 4,294,967,295
/// sentences.
pub fn join(
    sentences: &mut Items<Sentence>,
    chains: &mut Chains,
    by: By,
    rests: Literals,
) -> Result<u32, NoMemory>
    ensures { IfOk result (λ k. IsJoined sentences.old sentences.new by rests k) }
{
    let count = sentences.len();
    if count > 4_294_967_295 {
        return Err(NoMemory);
    }
    let found = place_of(sentences.as_slice(), chains, by, rests.as_slice());
    match found {
        Some(place) => Ok(place as u32),
        None => {
            chains.push(key_of(rests.as_slice()))?;
            sentences.push(Sentence { by, rests })?;
            Ok(count as u32)
        }
    }
}

/// Takes sentences out of the chains that have them, so that others can come.
pub fn forget(chains: &mut Chains, sentences: &[Sentence]) {
    for place in 0..sentences.len() {
        chains.forget(key_of(sentences[place].rests.as_slice()));
    }
    chains.restart();
}
