//! The axioms of a page, with their words and sentences.

ghost use Rattle.std.specs.Prelude.{◌≡◌, ◌++◌, slice_get, option_map, IfOk, OnOk};
ghost use Rattle.std.specs.List.{flat_map};
ghost use Rattle.std.specs.Option.{unwrap_or};
ghost use Rattle.vocab.specs.Range.{below};
ghost use Rattle.vocab.specs.Tree.{tree_of};
ghost use Rattle.syntax.specs.Canonical.{canonical_text};
ghost use Rattle.instance_text.specs.Bodies.{named_sentence};
ghost use Rattle.verdicts.specs.Lines.{name_at};
ghost use Rattle.pages.specs.Words.{library_words};
ghost use Rattle.pages.specs.Theorem.{code_html, sentence_text, sentence_of, axiom_item, axioms_html};

use crate::words::library_words;
use axiom_library::text_under;
use html::{Html, put_text};
use instance_text::put_sentence as put_named;
use lists::NoMemory;
use profiles::Space;
use std::alloc::Global;
use story_pages::put_axiom;
use vocab::{Axiom, Formula};

/// Adds a sentence, as code.
fn put_code(out: &mut Html, text: &[u8]) -> Result<(), NoMemory>
    ensures { OnOk result (out.new ≡ out.old ++ code_html text.now) }
{
    out.append(b" <code>")?;
    put_text(out, text)?;
    out.append(b"</code>")?;
    Ok(())
}

/// The text of a sentence, each variable by the letter of its sort and its place.
fn own_text(alloc: Global, space: &Space, sentence: &Formula) -> Result<Html, NoMemory>
    ensures { IfOk result (λ text. text ≡ canonical_text (named_sentence space.now (tree_of sentence.now))) }
{
    let mut text = Html::new(alloc);
    put_named(alloc, &mut text, space, sentence)?;
    Ok(text)
}

/// Adds a sentence of the study's own, as code.
fn put_own(alloc: Global, out: &mut Html, space: &Space, sentence: &Formula) -> Result<(), NoMemory>
    ensures { OnOk result (out.new ≡ out.old ++
        code_html (canonical_text (named_sentence space.now (tree_of sentence.now)))) }
{
    let text = own_text(alloc, space, sentence)?;
    put_code(out, text.as_slice())?;
    Ok(())
}

/// Adds the sentence that was found in the library, or else one of the study's own.
fn put_found(
    alloc: Global,
    out: &mut Html,
    space: &Space,
    found: Option<&[u8]>,
    sentence: &Formula,
) -> Result<(), NoMemory>
    ensures { OnOk result (out.new ≡ out.old ++
        code_html (unwrap_or (option_map (λ text. text.now) found.entry)
        (canonical_text (named_sentence space.now (tree_of sentence.now))))) }
{
    match found {
        Some(text) => put_code(out, text),
        None => put_own(alloc, out, space, sentence),
    }
}

/// Adds the sentence of an axiom.
fn put_sentence_of(
    alloc: Global,
    out: &mut Html,
    space: &Space,
    titled: &Axiom,
) -> Result<(), NoMemory>
    ensures { OnOk result (out.new ≡ out.old ++ code_html (sentence_text space.now titled.now)) }
{
    let name = titled.name();
    let found = text_under(space.size().kind(), name.bytes());
    put_found(alloc, out, space, found, titled.sentence())
}

/// Adds the sentence of the axiom at a place.
fn put_sentence(
    alloc: Global,
    out: &mut Html,
    space: &Space,
    axioms: &[Axiom],
    place: u32,
) -> Result<(), NoMemory>
    ensures { OnOk result (out.new ≡ out.old ++ sentence_of space.now (slice_get axioms.now place)) }
{
    match axioms.get(place as usize) {
        Some(titled) => put_sentence_of(alloc, out, space, titled),
        None => Ok(()),
    }
}

/// Adds the words of the axiom at a place.
fn put_words(out: &mut Html, space: &Space, axioms: &[Axiom], place: u32) -> Result<(), NoMemory>
    ensures { OnOk result (out.new ≡ out.old ++ library_words space.now.kind (name_at axioms.now place)) }
{
    let kind = space.size().kind();
    match axioms.get(place as usize) {
        Some(axiom) => {
            let name = axiom.name();
            out.append(library_words(kind, name.bytes()))
        }
        None => out.append(library_words(kind, b"")),
    }
}

/// Adds the axiom at a place: its name, its words and its sentence.
fn put_axiom_item(
    alloc: Global,
    out: &mut Html,
    space: &Space,
    axioms: &[Axiom],
    place: u32,
) -> Result<(), NoMemory>
    ensures { OnOk result (out.new ≡ out.old ++ axiom_item space.now axioms.now place) }
{
    out.append(b"<li>")?;
    put_axiom(out, axioms, place)?;
    put_words(out, space, axioms, place)?;
    put_sentence(alloc, out, space, axioms, place)?;
    out.append(b"</li>\n")?;
    Ok(())
}

/// Adds the axioms at some places.
fn put_core_items(
    alloc: Global,
    out: &mut Html,
    space: &Space,
    axioms: &[Axiom],
    places: &[u32],
) -> Result<(), NoMemory>
    ensures { OnOk result (out.new ≡ out.old ++
        flat_map (axiom_item space.now axioms.now) places.now) }
{
    for place in places {
        put_axiom_item(alloc, out, space, axioms, *place)?;
    }
    Ok(())
}

/// Adds the axioms at the places below a number.
fn put_all_items(
    alloc: Global,
    out: &mut Html,
    space: &Space,
    axioms: &[Axiom],
    count: u32,
) -> Result<(), NoMemory>
    ensures { OnOk result (out.new ≡ out.old ++
        flat_map (axiom_item space.now axioms.now) (below count)) }
{
    for place in 0..count {
        put_axiom_item(alloc, out, space, axioms, place)?;
    }
    Ok(())
}

/// Adds a list of the axioms at some places.
pub(crate) fn put_core(
    alloc: Global,
    out: &mut Html,
    space: &Space,
    axioms: &[Axiom],
    places: &[u32],
) -> Result<(), NoMemory>
    ensures { OnOk result (out.new ≡ out.old ++ axioms_html space.now axioms.now places.now) }
{
    out.append(b"<ul class=a>\n")?;
    put_core_items(alloc, out, space, axioms, places)?;
    out.append(b"</ul>\n")?;
    Ok(())
}

/// Adds a list of the axioms below a place.
pub(crate) fn put_axioms(
    alloc: Global,
    out: &mut Html,
    space: &Space,
    axioms: &[Axiom],
    count: u32,
) -> Result<(), NoMemory>
    ensures { OnOk result (out.new ≡ out.old ++
        axioms_html space.now axioms.now (below count)) }
{
    out.append(b"<ul class=a>\n")?;
    put_all_items(alloc, out, space, axioms, count)?;
    out.append(b"</ul>\n")?;
    Ok(())
}
