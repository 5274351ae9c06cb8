//! The sentences of a study's axioms: read, resolved, and measured.

ghost use Rattle.std.specs.Prelude.{◌≢◌, map, IsTrue, IfOk, IfErr};
ghost use Rattle.std.specs.List.{list_all};
ghost use Rattle.study.specs.Refusing.{Gives};
ghost use Rattle.study.specs.Sentences.{AreReadAs, resolved_one, resolved_all};
ghost use Rattle.study.specs.Unresolved.{worded_of, IsReadAs, IsTextRefused, IsFirstRefused, IsSmall, AreSmall, is_sound};

use crate::entries::Entry;
use crate::faults::StudyFault;
use lists::Items;
use profiles::Space;
use sorts::{SortFault, resolve};
use std::alloc::Global;
use syntax::{SyntaxFault, read};
use vocab::{Axiom, Axioms, Name, Named, Size};

/// A name and a sentence as it is written, before its names are resolved.
pub(crate) struct Unresolved {
    pub(crate) name: Name,
    pub(crate) sentence: Named,
}

/// Written out, so that letting go of a sentence is one call.
impl Drop for Unresolved {
    fn drop(self) {
        let Unresolved {
            name: _,
            sentence: _,
        } = self;
    }
}

/// The sentence of a text, or why it has none.
fn read_one(alloc: Global, entry: &Entry) -> Result<Unresolved, StudyFault>
    ensures read { IfOk result (λ w. IsReadAs entry.now (worded_of w)) }
    ensures refused { IfErr result (λ fault. fault ≢ StudyFault.NoMemory → IsTextRefused entry.now fault) }
{
    let name = entry.name();
    match read(alloc, entry.text().as_slice()) {
        Ok(sentence) => Ok(Unresolved { name, sentence }),
        Err(SyntaxFault::NoMemory) => Err(StudyFault::NoMemory),
        Err(fault) => Err(StudyFault::Syntax(name, fault)),
    }
}

/// The sentences of all texts, or the first text that is none.
pub(crate) fn read_all(alloc: Global, entries: &[Entry]) -> Result<Items<Unresolved>, StudyFault>
    ensures read { IfOk result (λ sentences. AreReadAs entries.now (map worded_of sentences)) }
    ensures refused { IfErr result (λ fault. fault ≢ StudyFault.NoMemory → IsFirstRefused entries.now fault) }
{
    let mut sentences = Items::new(alloc);
    for entry in entries {
        match read_one(alloc, entry) {
            Ok(written) => sentences.push(written)?,
            Err(fault) => return Err(fault),
        }
    }
    Ok(sentences)
}

/// An axiom of a size, or the first fault of its sentence.
fn resolve_one(alloc: Global, space: &Space, written: &Unresolved) -> Result<Axiom, StudyFault>
    requires { IsSmall (worded_of written.now) }
    ensures gives { Gives (resolved_one space.now (worded_of written.now)) result }
    ensures sentence { IfOk result (λ a. IsTrue (is_sound space.now a)) }
{
    match resolve(alloc, &written.sentence, space) {
        Ok(formula) => Ok(Axiom::new(written.name, formula)),
        Err(SortFault::NoMemory) => Err(StudyFault::NoMemory),
        Err(fault) => Err(StudyFault::Sort(written.name, fault)),
    }
}

/// The axioms of a size, or the first fault of a sentence.
#[tactic(auto, using(crate::proofs::Resolved::resolved_every))]
pub(crate) fn resolve_all(
    alloc: Global,
    size: Size,
    sentences: &[Unresolved],
) -> Result<Axioms, StudyFault>
    requires { AreSmall (map worded_of sentences.now) }
    ensures gives { Gives (resolved_all size (map worded_of sentences.now)) result }
    ensures sentences { IfOk result (λ axioms. IsTrue (list_all (is_sound size) axioms)) }
{
    let space = Space::new(size);
    let mut axioms = Axioms::new(alloc);
    for written in sentences {
        let axiom = resolve_one(alloc, &space, written)?;
        axioms.push(axiom)?;
    }
    Ok(axioms)
}
