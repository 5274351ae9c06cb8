//! The size, the limit and the axioms' texts of a study.

ghost use Rattle.std.specs.Prelude.{◌≡◌, ◌≢◌, []};
ghost use Rattle.study.specs.Listing.{limit_of, few_of, text_under_name, named_entry, listed, is_in_both, once, listing_of};
ghost use Rattle.study.specs.Refusing.{Gives};
ghost use Rattle.study.specs.Steps.{listed_once};

use crate::ballots::sized;
use crate::by_name::ByName;
use crate::drafts::{Draft, Head};
use crate::entries::{Entries, Entry, Texts, copied};
use crate::faults::{StudyFault, Text};
use axiom_library::text_under;
use lists::NoMemory;
use std::alloc::Global;
use vocab::{Kind, Name, Size};

/// A size, a limit on learned clauses, and axioms with their texts.
pub struct Listing {
    /// The voters, the alternatives, the rankings that may be cast, and whether voters may be absent.
    pub size: Size,
    /// The most clauses that a search may learn.
    pub conflicts: u32,
    /// The axioms, each with the text of its sentence.
    pub axioms: Entries,
}

/// Written out, so that letting go of a listing is one call.
impl Drop for Listing {
    fn drop(self) {
        let Listing {
            size: _,
            conflicts: _,
            axioms: _,
        } = self;
    }
}

/// The most clauses that a search may learn.
fn limit_of(head: &Head) -> Result<u32, StudyFault>
    ensures { result ≡ limit_of head.now.conflicts }
{
    match head.conflicts {
        1..=1_000_000 => Ok(head.conflicts as u32),
        _ => Err(StudyFault::Conflicts(head.conflicts)),
    }
}

/// Refuses too many axioms.
fn few_of(axioms: &Texts) -> Result<(), StudyFault>
    ensures { result ≡ few_of axioms.now }
{
    let count = axioms.len();
    if count > 40 {
        return Err(StudyFault::Many(count as u64));
    }
    Ok(())
}

/// The fault of an unknown name.
fn unknown(alloc: Global, name: &[u8]) -> StudyFault
    ensures { result ≢ StudyFault.NoMemory → result ≡ StudyFault.Unknown name.now }
{
    match copied(alloc, name) {
        Ok(text) => StudyFault::Unknown(text),
        Err(NoMemory) => StudyFault::NoMemory,
    }
}

/// A name with its text: the library's for the kind, or else the study's own.
fn named_entry(alloc: Global, kind: Kind, own: &ByName, name: &Text) -> Result<Entry, StudyFault>
    ensures { Gives (named_entry name.now (text_under_name kind own.now.entries.now name.now)) result }
{
    let bytes = name.as_slice();
    if let Some(text) = text_under(kind, bytes) {
        let known = Name::new(bytes).unwrap();
        return Ok(Entry::new(known, copied(alloc, text)?));
    }
    match own.under(bytes) {
        Some(entry) => Ok(Entry::new(entry.name(), copied(alloc, entry.text().as_slice())?)),
        None => Err(unknown(alloc, bytes)),
    }
}

/// Each name with its text.
#[tactic(auto, using(crate::proofs::Listings::listed_all))]
fn listed(alloc: Global, kind: Kind, own: &ByName, names: &Texts) -> Result<Entries, StudyFault>
    ensures { Gives (listed kind own.now.entries.now names.now) result }
{
    let mut entries = Entries::new(alloc);
    for name in names.as_slice() {
        let entry = named_entry(alloc, kind, own, name)?;
        entries.push(entry)?;
    }
    Ok(entries)
}

/// Whether a name is in the library for the kind and among the study's own sentences.
fn is_in_both(kind: Kind, own: &ByName, name: &Name) -> bool
    ensures { result ≡ is_in_both kind own.now.entries.now name.now }
{
    let name = name.bytes();
    text_under(kind, name).is_some() && own.under(name).is_some()
}

/// Refuses a name that stands earlier, or has two texts.
fn once(alloc: Global, kind: Kind, own: &ByName, entries: &[Entry]) -> Result<(), StudyFault>
    ensures { Gives (once kind own.now.entries.now [] entries.now) result }
{
    let listed = ByName::new(alloc, entries)?;
    for place in 0..entries.len() {
        let name = entries[place].name();
        if listed.stands_before(place, name.bytes()) {
            return Err(StudyFault::Twice(name));
        }
        if is_in_both(kind, own, &name) {
            return Err(StudyFault::Twice(name));
        }
    }
    Ok(())
}

/// The axioms that a draft lists, each once, with their texts.
fn listed_once(alloc: Global, draft: &Draft) -> Result<Entries, StudyFault>
    ensures { Gives (listed_once draft.now.head.kind draft.now.sentences draft.now.axioms) result }
{
    let kind = draft.head.kind;
    let own = ByName::new(alloc, draft.sentences.as_slice())?;
    let axioms = listed(alloc, kind, &own, &draft.axioms)?;
    match once(alloc, kind, &own, axioms.as_slice()) {
        Ok(()) => Ok(axioms),
        Err(fault) => Err(fault),
    }
}

/// What a draft lists, or the first refusal.
#[tactic(auto, unfolding(crate::specs::Listing::listing_of))]
pub(crate) fn listing_of(alloc: Global, draft: &Draft) -> Result<Listing, StudyFault>
    ensures { Gives (listing_of draft.now) result }
{
    let size = sized(alloc, &draft.head)?;
    let conflicts = limit_of(&draft.head)?;
    few_of(&draft.axioms)?;
    match listed_once(alloc, draft) {
        Ok(axioms) => Ok(Listing {
            size,
            conflicts,
            axioms,
        }),
        Err(fault) => Err(fault),
    }
}
