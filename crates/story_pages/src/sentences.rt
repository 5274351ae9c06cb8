//! Sentences.

ghost use Rattle.std.specs.Prelude.{◌≡◌, ◌++◌, Some, OnOk};
ghost use Rattle.std.specs.List.{flat_map, list_all};
ghost use Rattle.story_pages.specs.Sentences.{axiom_name_html, axiom_html, facts_fold, claim_number_html, cited_html, is_left_at, is_left_there, says_there, there_html, many_html, facts_or_many_html, rests_html, grounds_html, since_html, given_html, given_by, by_axiom_html, by_outcome_html, by_html, sentence_html, sentence_at, item_at, items_html};

use crate::claims::{put_alone_claims, put_facts, put_stated_facts};
use html::{Html, profile_of, put_fact, put_number, put_text};
use lists::NoMemory;
use meaning::Reason;
use profiles::Space;
use tellings::{By, Passage, Placed, Sentence};
use vocab::{Axiom, Literal};

/// Adds the name of the axiom at a place of the study, if there is one.
fn put_name(out: &mut Html, axioms: &[Axiom], place: u32) -> Result<(), NoMemory>
    ensures { OnOk result (out.new ≡ out.old ++ axiom_name_html axioms.now place) }
{
    match axioms.get(place as usize) {
        Some(axiom) => put_text(out, axiom.name().bytes()),
        None => Ok(()),
    }
}

/// Adds the axiom at a place of the study, by its name.
pub fn put_axiom(out: &mut Html, axioms: &[Axiom], place: u32) -> Result<(), NoMemory>
    ensures { OnOk result (out.new ≡ out.old ++ axiom_html axioms.now place) }
{
    out.append(b"<i>")?;
    put_name(out, axioms, place)?;
    out.append(b"</i>")?;
    Ok(())
}

/// Adds the head of so many folded facts.
fn put_facts_fold(out: &mut Html, count: usize) -> Result<(), NoMemory>
    ensures { OnOk result (out.new ≡ out.old ++ facts_fold count) }
{
    out.append(b"<details><summary>")?;
    put_number(out, count as u64)?;
    out.append(b" facts above</summary> ")?;
    Ok(())
}

/// Adds the facts that are rested on, many as they are.
fn put_many(out: &mut Html, space: &Space, rests: &[Literal]) -> Result<(), NoMemory>
    ensures { OnOk result (out.new ≡ out.old ++ many_html space.now rests.now) }
{
    put_facts_fold(out, rests.len())?;
    put_facts(out, space, rests)?;
    out.append(b"</details>")?;
    Ok(())
}

/// Adds the facts that are rested on, each with its profile: more than thirty are folded.
fn put_named(out: &mut Html, space: &Space, rests: &[Literal]) -> Result<(), NoMemory>
    ensures { OnOk result (out.new ≡ out.old ++ facts_or_many_html space.now rests.now) }
{
    if rests.len() > 30 {
        return put_many(out, space, rests);
    }
    put_facts(out, space, rests)
}

/// Adds the claims that are rested on, at the profiles of what is stated.
fn put_there(out: &mut Html, space: &Space, rests: &[Literal]) -> Result<(), NoMemory>
    ensures { OnOk result (out.new ≡ out.old ++ there_html space.now rests.now) }
{
    put_alone_claims(out, space, rests)?;
    out.append(b" there")?;
    Ok(())
}

/// Adds the facts that are rested on, by their claims alone where what is stated is of their profiles.
fn put_rests(out: &mut Html, space: &Space, there: bool, rests: &[Literal]) -> Result<(), NoMemory>
    ensures { OnOk result (out.new ≡ out.old ++ rests_html space.now there rests.now) }
{
    if there {
        return put_there(out, space, rests);
    }
    put_named(out, space, rests)
}

/// Adds the facts that are rested on, of which there are some.
fn put_grounds(
    out: &mut Html,
    space: &Space,
    there: bool,
    rests: &[Literal],
) -> Result<(), NoMemory>
    ensures { OnOk result (out.new ≡ out.old ++ grounds_html space.now there rests.now) }
{
    out.append(b"<div class=s>since ")?;
    put_rests(out, space, there, rests)?;
    out.append(b"</div>, ")?;
    Ok(())
}

/// Adds the facts that are rested on, if there are any.
pub(crate) fn put_since(
    out: &mut Html,
    space: &Space,
    there: bool,
    rests: &[Literal],
) -> Result<(), NoMemory>
    ensures { OnOk result (out.new ≡ out.old ++ since_html space.now there rests.now) }
{
    if rests.len() == 0 {
        return Ok(());
    }
    put_grounds(out, space, there, rests)
}

/// Whether a reason is what is left at a profile.
fn is_left_at(p: u32, reason: &Reason) -> bool
    ensures { result ≡ is_left_at p reason.now }
{
    match *reason {
        Reason::Axiom(_, _) => false,
        Reason::Outcome(q) => p == q,
        Reason::Lemma(_) => false,
    }
}

/// Whether the fact of a step, if the sentence of a number states it, is of the profile at which the reason
/// is what is left.
fn is_left_there(number: usize, placed: &Placed) -> bool
    ensures { result ≡ is_left_there number placed.now }
{
    if placed.sentence as usize != number {
        return true;
    }
    is_left_at(profile_of(&placed.step.literal), &placed.step.reason)
}

/// Whether the facts that the sentence of a number states all are.
fn are_there(steps: &[Placed], number: usize) -> bool
    ensures { result ≡ list_all (is_left_there number) steps.now }
{
    steps.iter().all(|placed| is_left_there(number, placed))
}

/// Whether the sentence of a number rests on the same claims at each profile of what it states.
fn says_there(by: By, steps: &[Placed], number: usize) -> bool
    ensures { result ≡ says_there by steps.now number }
{
    match by {
        By::Axiom(_) => false,
        By::Outcome => are_there(steps, number),
        By::Lemma => false,
    }
}

/// Adds an earlier claim, by its number.
fn put_claim_number(out: &mut Html, place: u32) -> Result<(), NoMemory>
    ensures { OnOk result (out.new ≡ out.old ++ claim_number_html place) }
{
    out.append(b"by claim ")?;
    put_number(out, place as u64 + 1)?;
    out.append(b": ")?;
    Ok(())
}

/// Adds the claim that a reason names, if it does.
fn put_cited(out: &mut Html, reason: &Reason) -> Result<(), NoMemory>
    ensures { OnOk result (out.new ≡ out.old ++ cited_html reason.now) }
{
    match *reason {
        Reason::Axiom(_, _) => Ok(()),
        Reason::Outcome(_) => Ok(()),
        Reason::Lemma(place) => put_claim_number(out, place),
    }
}

/// Adds a fact that an earlier claim gives.
fn put_given(out: &mut Html, space: &Space, placed: &Placed) -> Result<(), NoMemory>
    ensures { OnOk result (out.new ≡ out.old ++ given_html space.now placed.now) }
{
    out.append(b"<div>")?;
    put_cited(out, &placed.step.reason)?;
    put_fact(out, space, &placed.step.literal)?;
    out.append(b"</div>")?;
    Ok(())
}

/// Adds the fact of a step, if the sentence of a number states it.
fn put_given_by(
    out: &mut Html,
    space: &Space,
    number: usize,
    placed: &Placed,
) -> Result<(), NoMemory>
    ensures { OnOk result (out.new ≡ out.old ++ given_by space.now number placed.now) }
{
    if placed.sentence as usize != number {
        return Ok(());
    }
    put_given(out, space, placed)
}

/// Adds the facts that the sentence of a number states by earlier claims.
fn put_all_given(
    out: &mut Html,
    space: &Space,
    steps: &[Placed],
    number: usize,
) -> Result<(), NoMemory>
    ensures { OnOk result (out.new ≡ out.old ++ flat_map (given_by space.now number) steps.now) }
{
    for placed in steps {
        put_given_by(out, space, number, placed)?;
    }
    Ok(())
}

/// Adds an axiom, and what the sentence of a number states by it.
fn put_by_axiom(
    out: &mut Html,
    space: &Space,
    axioms: &[Axiom],
    steps: &[Placed],
    number: usize,
    place: u32,
) -> Result<(), NoMemory>
    ensures { OnOk result (out.new ≡ out.old ++
        by_axiom_html space.now axioms.now steps.now number place) }
{
    out.append(b"by ")?;
    put_axiom(out, axioms, place)?;
    out.append(b": ")?;
    put_stated_facts(out, space, steps, number)?;
    Ok(())
}

/// Adds what the sentence of a number states by the outcomes that are left.
fn put_by_outcome(
    out: &mut Html,
    space: &Space,
    steps: &[Placed],
    number: usize,
) -> Result<(), NoMemory>
    ensures { OnOk result (out.new ≡ out.old ++ by_outcome_html space.now steps.now number) }
{
    out.append(b"by what is left: ")?;
    put_stated_facts(out, space, steps, number)?;
    Ok(())
}

/// Adds the reason of the sentence of a number, and what it states.
fn put_by(
    out: &mut Html,
    space: &Space,
    axioms: &[Axiom],
    steps: &[Placed],
    number: usize,
    by: By,
) -> Result<(), NoMemory>
    ensures { OnOk result (out.new ≡ out.old ++ by_html space.now axioms.now steps.now number by) }
{
    match by {
        By::Axiom(place) => put_by_axiom(out, space, axioms, steps, number, place),
        By::Outcome => put_by_outcome(out, space, steps, number),
        By::Lemma => put_all_given(out, space, steps, number),
    }
}

/// Adds a sentence of a number.
fn put_sentence(
    out: &mut Html,
    space: &Space,
    axioms: &[Axiom],
    steps: &[Placed],
    number: usize,
    sentence: &Sentence,
) -> Result<(), NoMemory>
    ensures { OnOk result (out.new ≡ out.old ++
        sentence_html space.now axioms.now steps.now number (Some sentence.now)) }
{
    let there = says_there(sentence.by, steps, number);
    put_since(out, space, there, sentence.rests.as_slice())?;
    put_by(out, space, axioms, steps, number, sentence.by)?;
    Ok(())
}

/// Adds the sentence of a number, if there is one.
pub(crate) fn put_sentence_at(
    out: &mut Html,
    space: &Space,
    axioms: &[Axiom],
    passage: &Passage,
    number: usize,
) -> Result<(), NoMemory>
    ensures { OnOk result (out.new ≡ out.old ++ sentence_at space.now axioms.now passage.now number) }
{
    match passage.sentences.as_slice().get(number) {
        Some(sentence) => {
            put_sentence(
                out,
                space,
                axioms,
                passage.steps.as_slice(),
                number,
                sentence,
            )
        }
        None => Ok(()),
    }
}

/// Adds the sentence of a number as an item of a list.
fn put_item_at(
    out: &mut Html,
    space: &Space,
    axioms: &[Axiom],
    passage: &Passage,
    number: usize,
) -> Result<(), NoMemory>
    ensures { OnOk result (out.new ≡ out.old ++ item_at space.now axioms.now passage.now number) }
{
    out.append(b"<li>")?;
    put_sentence_at(out, space, axioms, passage, number)?;
    out.append(b"</li>\n")?;
    Ok(())
}

/// Adds all sentences as items of a list.
pub(crate) fn put_items(
    out: &mut Html,
    space: &Space,
    axioms: &[Axiom],
    passage: &Passage,
) -> Result<(), NoMemory>
    ensures { OnOk result (out.new ≡ out.old ++ items_html space.now axioms.now passage.now) }
{
    let count = passage.sentences.len();
    for number in 0..count {
        put_item_at(out, space, axioms, passage, number)?;
    }
    Ok(())
}
