//! Lemmas where they stand: by themselves, or within another.

ghost use Rattle.std.specs.Prelude.{◌≡◌, ◌==◌, ◌++◌, ◌<◌, length, slice_get, OnOk};
ghost use Rattle.std.specs.List.{flat_map};
ghost use Rattle.vocab.specs.Range.{below};
ghost use Rattle.tellings.specs.Tellings.{home_of, stands_in};
ghost use Rattle.story_pages.specs.Homes.{stands_alone, held_at, held_by, held_in, held_lemma_html, held_step, story_item, story_items, body_html, inner_html, inner_of, inner_at, outer_html, outer_of, outer_at, lemma_at, story_html};

use crate::ends::put_end_of;
use crate::forced::put_forced;
use crate::lemmas::{put_claimed_by, put_columns_of, put_suppose, put_table, put_title};
use crate::sentences::put_sentence_at;
use html::Html;
use lists::NoMemory;
use meaning::{Lemma, Reason};
use profiles::Space;
use tellings::{Placed, StoryTelling, Telling, greatest_depth};
use vocab::Axiom;

/// The later lemma within which the one at a place stands, if it does.
fn home_of(homes: &[Option<usize>], place: usize) -> Option<usize>
    ensures { result ≡ home_of homes.now place }
{
    match homes.get(place) {
        Some(home) => *home,
        None => None,
    }
}

/// Whether a lemma stands within the one at a place.
fn stands_in(place: usize, home: Option<usize>) -> bool
    ensures { result ≡ stands_in place home }
{
    match home {
        Some(home) => home == place,
        None => false,
    }
}

/// Whether a lemma stands by itself.
fn stands_alone(home: Option<usize>) -> bool
    ensures { result ≡ stands_alone home }
{
    match home {
        Some(_) => false,
        None => true,
    }
}

/// The lemma at a place, if it stands within the one at another.
fn held_at(told: &StoryTelling, home: usize, place: u32) -> Option<u32>
    ensures { result ≡ held_at told.now.homes home place }
{
    if stands_in(home, home_of(told.homes.as_slice(), place as usize)) {
        Some(place)
    } else {
        None
    }
}

/// The lemma that a reason of the one at a place names, if it stands within that one.
fn held_by(told: &StoryTelling, home: usize, reason: &Reason) -> Option<u32>
    ensures { result ≡ held_by told.now.homes home reason.now }
{
    match *reason {
        Reason::Axiom(_, _) => None,
        Reason::Outcome(_) => None,
        Reason::Lemma(place) => held_at(told, home, place),
    }
}

/// The lemma that a step of the one at a place names, if the sentence of a number has the step and the lemma
/// stands within that one.
fn held_in(told: &StoryTelling, home: usize, number: usize, placed: &Placed) -> Option<u32>
    ensures { result ≡ held_in told.now.homes home number placed.now }
{
    if placed.sentence as usize != number {
        return None;
    }
    held_by(told, home, &placed.step.reason)
}

/// Adds the lemma at a place within another, with lemmas so deep within it.
#[cycle(within)]
fn put_inner_at(
    out: &mut Html,
    space: &Space,
    axioms: &[Axiom],
    story: &[Lemma],
    told: &StoryTelling,
    depth: u32,
    place: u32,
) -> Result<(), NoMemory>
    ensures { OnOk result (out.new ≡ out.old ++
        inner_at space.now axioms.now story.now told.now depth place) }
{
    if depth == 0 {
        return Ok(());
    }
    put_inner_of(out, space, axioms, story, told, depth - 1, place)
}

/// Adds the lemma at a place within another, if there is one, with lemmas so deep within those that stand in it.
#[cycle(within)]
fn put_inner_of(
    out: &mut Html,
    space: &Space,
    axioms: &[Axiom],
    story: &[Lemma],
    told: &StoryTelling,
    depth: u32,
    place: u32,
) -> Result<(), NoMemory>
    ensures { OnOk result (out.new ≡ out.old ++
        inner_of space.now axioms.now told.now (inner_at space.now axioms.now story.now told.now depth)
        place (slice_get story.now place) (slice_get told.now.lemmas place)) }
{
    let lemmas = told.lemmas.as_slice();
    match (story.get(place as usize), lemmas.get(place as usize)) {
        (Some(lemma), Some(telling)) => {
            put_inner(
                out, space, axioms, story, told, depth, place, lemma, telling,
            )
        }
        _ => Ok(()),
    }
}

/// Adds a lemma within another.
#[cycle(within)]
fn put_inner(
    out: &mut Html,
    space: &Space,
    axioms: &[Axiom],
    story: &[Lemma],
    told: &StoryTelling,
    depth: u32,
    place: u32,
    lemma: &Lemma,
    telling: &Telling,
) -> Result<(), NoMemory>
    ensures { OnOk result (out.new ≡ out.old ++
        inner_html space.now axioms.now told.now (inner_at space.now axioms.now story.now told.now depth)
        place lemma.now telling.now) }
{
    out.append(b"<div class=c>")?;
    put_columns_of(out, space, lemma)?;
    out.append(b"<b>")?;
    put_claimed_by(out, space, place as u64 + 1, lemma)?;
    out.append(b".</b>\n")?;
    put_suppose(out, space, lemma)?;
    put_body(
        out,
        space,
        axioms,
        story,
        told,
        depth,
        place as usize,
        lemma,
        telling,
    )?;
    out.append(b". This cannot be.</div>\n")?;
    put_table(out, space, &told.forced, lemma, telling)?;
    out.append(b"</div>\n")?;
    Ok(())
}

/// Adds the sentences and the end of the lemma at a place, with lemmas so deep within those that stand in it.
#[cycle(within)]
fn put_body(
    out: &mut Html,
    space: &Space,
    axioms: &[Axiom],
    story: &[Lemma],
    told: &StoryTelling,
    depth: u32,
    place: usize,
    lemma: &Lemma,
    telling: &Telling,
) -> Result<(), NoMemory>
    ensures { OnOk result (out.new ≡ out.old ++
        body_html space.now axioms.now told.now (inner_at space.now axioms.now story.now told.now depth)
        place lemma.now telling.now) }
{
    let held = held_by(told, place, &lemma.last);
    out.append(b"<ol>\n")?;
    put_story_items(out, space, axioms, story, told, depth, place, telling)?;
    out.append(b"</ol>\n")?;
    put_held(out, space, axioms, story, told, depth, held)?;
    out.append(b"<div class=e>")?;
    put_end_of(out, space, axioms, lemma, telling)?;
    Ok(())
}

/// Adds the sentences of a lemma, each after the lemmas that stand within it.
#[cycle(within)]
fn put_story_items(
    out: &mut Html,
    space: &Space,
    axioms: &[Axiom],
    story: &[Lemma],
    told: &StoryTelling,
    depth: u32,
    home: usize,
    telling: &Telling,
) -> Result<(), NoMemory>
    ensures { OnOk result (out.new ≡ out.old ++
        story_items space.now axioms.now told.now (inner_at space.now axioms.now story.now told.now depth)
        home telling.now) }
{
    let count = telling.passage.sentences.len();
    for number in 0..count {
        put_story_item(
            out, space, axioms, story, told, depth, home, telling, number,
        )?;
    }
    Ok(())
}

/// Adds a sentence of a lemma, after the lemmas that stand within it.
#[cycle(within)]
fn put_story_item(
    out: &mut Html,
    space: &Space,
    axioms: &[Axiom],
    story: &[Lemma],
    told: &StoryTelling,
    depth: u32,
    home: usize,
    telling: &Telling,
    number: usize,
) -> Result<(), NoMemory>
    ensures { OnOk result (out.new ≡ out.old ++
        story_item space.now axioms.now told.now (inner_at space.now axioms.now story.now told.now depth)
        home telling.now number) }
{
    let steps = telling.passage.steps.as_slice();
    out.append(b"<li>")?;
    put_held_steps(out, space, axioms, story, told, depth, home, steps, number)?;
    put_sentence_at(out, space, axioms, &telling.passage, number)?;
    out.append(b"</li>\n")?;
    Ok(())
}

/// Adds the lemmas that stand within the one at a place and that steps of its sentence of a number name.
#[cycle(within)]
fn put_held_steps(
    out: &mut Html,
    space: &Space,
    axioms: &[Axiom],
    story: &[Lemma],
    told: &StoryTelling,
    depth: u32,
    home: usize,
    steps: &[Placed],
    number: usize,
) -> Result<(), NoMemory>
    ensures { OnOk result (out.new ≡ out.old ++
        flat_map (held_step told.now (inner_at space.now axioms.now story.now told.now depth) home number)
        steps.now) }
{
    for placed in steps {
        let held = held_in(told, home, number, placed);
        put_held(out, space, axioms, story, told, depth, held)?;
    }
    Ok(())
}

/// Adds a lemma that stands within another, if there is one.
#[cycle(within)]
fn put_held(
    out: &mut Html,
    space: &Space,
    axioms: &[Axiom],
    story: &[Lemma],
    told: &StoryTelling,
    depth: u32,
    held: Option<u32>,
) -> Result<(), NoMemory>
    ensures { OnOk result (out.new ≡ out.old ++
        held_lemma_html (inner_at space.now axioms.now story.now told.now depth) held) }
{
    match held {
        Some(place) => put_inner_at(out, space, axioms, story, told, depth, place),
        None => Ok(()),
    }
}

/// Whether a lemma of a number is the last.
fn is_last(told: &StoryTelling, number: u64) -> bool
    ensures { result ≡ (number == length told.now.lemmas) }
{
    number == told.lemmas.len() as u64
}

/// Adds a lemma that stands by itself, with lemmas so deep within it.
fn put_outer(
    out: &mut Html,
    space: &Space,
    axioms: &[Axiom],
    story: &[Lemma],
    told: &StoryTelling,
    depth: u32,
    place: usize,
    lemma: &Lemma,
    telling: &Telling,
) -> Result<(), NoMemory>
    requires { place < length story.now }
    ensures { OnOk result (out.new ≡ out.old ++
        outer_html space.now axioms.now told.now (inner_at space.now axioms.now story.now told.now depth)
        place lemma.now telling.now) }
{
    out.append(b"<section>\n<h3>")?;
    let number = place as u64 + 1;
    put_title(out, space, is_last(told, number), number, lemma)?;
    out.append(b"</h3>\n")?;
    put_columns_of(out, space, lemma)?;
    put_suppose(out, space, lemma)?;
    put_body(
        out, space, axioms, story, told, depth, place, lemma, telling,
    )?;
    out.append(b".</div>\n")?;
    put_table(out, space, &told.forced, lemma, telling)?;
    out.append(b"</section>\n")?;
    Ok(())
}

/// Adds the lemma at a place as one that stands by itself, with lemmas so deep within it.
fn put_outer_of(
    out: &mut Html,
    space: &Space,
    axioms: &[Axiom],
    story: &[Lemma],
    told: &StoryTelling,
    depth: u32,
    place: usize,
) -> Result<(), NoMemory>
    requires { place < length story.now }
    ensures { OnOk result (out.new ≡ out.old ++
        outer_of space.now axioms.now told.now (inner_at space.now axioms.now story.now told.now depth)
        place (slice_get story.now place) (slice_get told.now.lemmas place)) }
{
    match (story.get(place), told.lemmas.as_slice().get(place)) {
        (Some(lemma), Some(telling)) => {
            put_outer(
                out, space, axioms, story, told, depth, place, lemma, telling,
            )
        }
        _ => Ok(()),
    }
}

/// Adds the lemma at a place as one that stands by itself.
fn put_outer_at(
    out: &mut Html,
    space: &Space,
    axioms: &[Axiom],
    story: &[Lemma],
    told: &StoryTelling,
    place: usize,
) -> Result<(), NoMemory>
    requires { place < length story.now }
    ensures { OnOk result (out.new ≡ out.old ++
        outer_at space.now axioms.now story.now told.now place) }
{
    put_outer_of(out, space, axioms, story, told, greatest_depth(), place)
}

/// Adds the lemma at a place, if it stands by itself.
fn put_lemma_at(
    out: &mut Html,
    space: &Space,
    axioms: &[Axiom],
    story: &[Lemma],
    told: &StoryTelling,
    place: usize,
) -> Result<(), NoMemory>
    requires { place < length story.now }
    ensures { OnOk result (out.new ≡ out.old ++
        lemma_at space.now axioms.now story.now told.now place) }
{
    if !stands_alone(home_of(told.homes.as_slice(), place)) {
        return Ok(());
    }
    put_outer_at(out, space, axioms, story, told, place)
}

/// Adds the lemmas that stand by themselves.
fn put_lemmas(
    out: &mut Html,
    space: &Space,
    axioms: &[Axiom],
    story: &[Lemma],
    told: &StoryTelling,
) -> Result<(), NoMemory>
    ensures { OnOk result (out.new ≡ out.old ++
        flat_map (lemma_at space.now axioms.now story.now told.now) (below (length story.now))) }
{
    let count = story.len();
    for place in 0..count {
        put_lemma_at(out, space, axioms, story, told, place)?;
    }
    Ok(())
}

/// Adds a story as it is told: what is forced, and then its lemmas.
pub fn put_story(
    out: &mut Html,
    space: &Space,
    axioms: &[Axiom],
    story: &[Lemma],
    told: &StoryTelling,
) -> Result<(), NoMemory>
    ensures { OnOk result (out.new ≡ out.old ++
        story_html space.now axioms.now story.now told.now) }
{
    put_forced(out, space, axioms, &told.forced)?;
    put_lemmas(out, space, axioms, story, told)?;
    Ok(())
}
