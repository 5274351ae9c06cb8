//! Studies, read from bytes.

ghost use Rattle.std.specs.Prelude.{◌≡◌, ◌≢◌, Ok, Err, IfOk, IfErr, map};
ghost use Rattle.study.specs.Document.{document_of};
ghost use Rattle.study.specs.Listing.{IsListing};
ghost use Rattle.study.specs.Reading.{listing_in, IsListingAnswer, IsStudyOf};
ghost use Rattle.study.specs.Refusing.{Gives};
ghost use Rattle.study.specs.Sentences.{AreReadAs, study_of};
ghost use Rattle.study.specs.Unresolved.{worded_of};

use crate::document::draft_of;
use crate::faults::StudyFault;
use crate::limits::fitting;
use crate::listing::{Listing, listing_of};
use crate::sentences::{Unresolved, read_all, resolve_all};
use std::alloc::Global;
use vocab::Study;

/// The study of a listing whose texts are read.
#[tactic(auto, unfolding(crate::specs::Sentences::study_of))]
fn study_of(alloc: Global, listing: &Listing, sentences: &[Unresolved]) -> Result<Study, StudyFault>
    requires whole { IsListing listing.now }
    requires read { AreReadAs listing.now.axioms (map worded_of sentences.now) }
    ensures { Gives (study_of listing.now.size listing.now.conflicts (map worded_of sentences.now)) result }
{
    let size = listing.size;
    let axioms = resolve_all(alloc, size, sentences)?;
    match fitting(size, axioms.as_slice()) {
        Ok(()) => Ok(Study::new(size, listing.conflicts, axioms)),
        Err(fault) => Err(fault),
    }
}

/// The study of a listing, whether bytes gave it or the caller made it, or the first refusal of a text or a
/// sentence.
pub fn answer_of(alloc: Global, listing: &Listing) -> Result<Study, StudyFault>
    requires { IsListing listing.now }
    ensures ok { IfOk result (λ study. IsListingAnswer listing.now (Ok study)) }
    ensures refused { IfErr result
        (λ fault. fault ≢ StudyFault.NoMemory → IsListingAnswer listing.now (Err fault)) }
{
    let sentences = match read_all(alloc, listing.axioms.as_slice()) {
        Ok(sentences) => sentences,
        Err(fault) => return Err(fault),
    };
    match study_of(alloc, listing, sentences.as_slice()) {
        Ok(study) => Ok(study),
        Err(fault) => Err(fault),
    }
}

/// What the bytes list, or the first refusal of their document, before any text of an axiom is read.
#[tactic(auto, using(crate::proofs::Whole::bytes_refused))]
pub fn listing_in(alloc: Global, bytes: &[u8]) -> Result<Listing, StudyFault>
    ensures { Gives (listing_in (document_of bytes.now)) result }
{
    let table = match toml::table_from_slice(alloc, bytes) {
        Ok(table) => table,
        Err(error) if error.is_memory() => return Err(StudyFault::NoMemory),
        Err(_) => return Err(StudyFault::Toml),
    };
    let draft = match draft_of(alloc, &table) {
        Ok(draft) => draft,
        Err(fault) => return Err(fault),
    };
    match listing_of(alloc, &draft) {
        Ok(listing) => Ok(listing),
        Err(fault) => Err(fault),
    }
}

/// The study that the bytes give, as a TOML document, or the first reason why they give none.
///
/// | Key | Value |
/// |---|---|
/// | `kind` | the string `choice`, `ranking` or `sets` |
/// | `voters`, `alternatives` | integers, from 1 to 8 and from 1 to 5, that make at most 20,000 profiles |
/// | `ballots` | an array of strings: the rankings that may be cast, each once; or missing, which stands for all |
/// | `absent` | a truth value: whether voters may be absent; or missing, which stands for `false` |
/// | `conflicts` | an integer from 1 to 1,000,000, or missing, which stands for 100,000 |
/// | `axioms` | an array of strings, at most 40, each once, of the library for the kind or among `sentences` |
/// | `sentences` | a table of names, each with the text of a sentence, or missing |
///
/// There is no other key. There is at most one answer beside want of memory
/// (`laws::studies_have_one_answer`).
pub fn read_study(alloc: Global, bytes: &[u8]) -> Result<Study, StudyFault>
    ensures ok { IfOk result (λ study. IsStudyOf bytes.now (Ok study)) }
    ensures refused { IfErr result (λ fault. fault ≢ StudyFault.NoMemory → IsStudyOf bytes.now (Err fault)) }
{
    let listing = match listing_in(alloc, bytes) {
        Ok(listing) => listing,
        Err(fault) => return Err(fault),
    };
    match answer_of(alloc, &listing) {
        Ok(study) => Ok(study),
        Err(fault) => Err(fault),
    }
}
