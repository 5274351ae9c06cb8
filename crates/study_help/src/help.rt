//! What helps with a fault of the bytes of a study.

ghost use Rattle.std.specs.List.{position};
ghost use Rattle.std.specs.Prelude.{◌≡◌, ◌<◌, length, option_map, Some, Ok, IfOk, IfSome};
ghost use Rattle.std.specs.Str.{bytes_eq};
ghost use Rattle.study.specs.Document.{document_of};
ghost use Rattle.study.specs.Reading.{listing_in};
ghost use Rattle.study_help.specs.Help.{IsHelp, IsPlacedInListing, IsPlacedIn, asked_of, asked_of_text, text_in};

use crate::places::put_place;
use edge::Bytes;
use lists::NoMemory;
use sentence_fronts::furthest;
use sorts::SortFault;
use std::alloc::Global;
use study::{Entry, Listing, StudyFault, Text, copied, listing_in};
use study_hints::{axiom_help, fixed_words, sort_help_in};
use syntax::SyntaxFault;
use vocab::Name;

/// What has to be looked at: the text of an axiom, the values of the size, the axioms that may be listed, or nothing of
/// the study.
#[derive(Clone, Copy)]
pub(crate) enum Asked {
    Place(Name),
    Values(SortFault),
    Axioms,
    Words,
}

/// What has to be looked at for a text that is no sentence.
fn asked_of_text(name: &Name, fault: SyntaxFault) -> Asked
    ensures { result ≡ asked_of_text name.now fault }
{
    match fault {
        SyntaxFault::NoReading => Asked::Place(*name),
        SyntaxFault::Lexeme(_) => Asked::Place(*name),
        SyntaxFault::Long(_) => Asked::Words,
        SyntaxFault::Deep => Asked::Words,
        SyntaxFault::Variables => Asked::Words,
        SyntaxFault::NoMemory => Asked::Words,
    }
}

/// What has to be looked at.
fn asked_of(fault: &StudyFault) -> Asked
    ensures { result ≡ asked_of fault.now }
{
    match fault {
        StudyFault::Toml => Asked::Words,
        StudyFault::Key(_) => Asked::Words,
        StudyFault::Size(_) => Asked::Words,
        StudyFault::Ballot(_) => Asked::Words,
        StudyFault::Conflicts(_) => Asked::Words,
        StudyFault::Many(_) => Asked::Words,
        StudyFault::Unknown(_) => Asked::Axioms,
        StudyFault::Twice(_) => Asked::Words,
        StudyFault::Syntax(name, fault) => asked_of_text(name, *fault),
        StudyFault::Sort(_, fault) => Asked::Values(*fault),
        StudyFault::Open(_) => Asked::Words,
        StudyFault::Instances(_, _) => Asked::Words,
        StudyFault::Body(_, _) => Asked::Words,
        StudyFault::Work(_, _) => Asked::Words,
        StudyFault::NoMemory => Asked::Words,
    }
}

/// The place of the axiom of a name.
fn place_of(entries: &[Entry], name: &[u8]) -> Option<usize>
    ensures place { result ≡ position (λ e. bytes_eq e.name name.now) entries.now }
    ensures within { IfSome result (λ place. place < length entries.now) }
{
    entries
        .iter()
        .position(|entry| entry.name().bytes() == name)
}

/// The text of the axiom of a name.
fn text_in<'a>(entries: &'a [Entry], name: &[u8]) -> Option<&'a Text>
    ensures { option_map (λ text. text.now) result ≡ text_in entries.now name.now }
{
    match place_of(entries, name) {
        Some(place) => Some(entries[place].text()),
        None => None,
    }
}

/// The furthest place of a text of a name.
fn place_in(alloc: Global, name: &Name, text: &[u8]) -> Result<Bytes, NoMemory>
    ensures { IfOk result (IsPlacedIn (Some text.now) name.now) }
{
    let found = furthest(alloc, text)?;
    let mut said = Bytes::new(alloc);
    put_place(
        &mut said,
        name.bytes(),
        text,
        found.offset as usize,
        found.next.as_slice(),
    )?;
    Ok(said)
}

/// The furthest place of the text of an axiom of a listing.
fn placed(alloc: Global, listing: &Listing, name: &Name) -> Result<Bytes, NoMemory>
    ensures { IfOk result (IsPlacedInListing (Ok listing.now) name.now) }
{
    match text_in(listing.axioms.as_slice(), name.bytes()) {
        Some(text) => place_in(alloc, name, text.as_slice()),
        None => Ok(Bytes::new(alloc)),
    }
}

/// The same for bytes.
fn placed_in(alloc: Global, bytes: &[u8], name: &Name) -> Result<Bytes, NoMemory>
    ensures { IfOk result (IsPlacedInListing (listing_in (document_of bytes.now)) name.now) }
{
    match listing_in(alloc, bytes) {
        Ok(listing) => placed(alloc, &listing, name),
        Err(StudyFault::NoMemory) => Err(NoMemory),
        Err(_) => Ok(Bytes::new(alloc)),
    }
}

/// Lines that help with a fault of the bytes of a study, each of which begins with `help`: of a text without a reading
/// the furthest place to which some sentence goes; of a name what it was perhaps meant to be; and else the form of what
/// is faulty. Of a study that passes a limit there is none. The only error is want of memory.
pub fn help_with(alloc: Global, bytes: &[u8], fault: &StudyFault) -> Result<Bytes, NoMemory>
    ensures { IfOk result (IsHelp bytes.now fault.now) }
{
    match asked_of(fault) {
        Asked::Place(name) => placed_in(alloc, bytes, &name),
        Asked::Values(reason) => sort_help_in(alloc, bytes, reason),
        Asked::Axioms => axiom_help(alloc, bytes),
        Asked::Words => copied(alloc, fixed_words(fault)),
    }
}
