//! What helps with a fault without a place in a text.

ghost use Rattle.std.specs.Prelude.{◌≡◌, ◌++◌, IfOk, OnOk};
ghost use Rattle.study.specs.Document.{document_of};
ghost use Rattle.study.specs.Reading.{listing_in};
ghost use Rattle.study_hints.specs.Hints.{fixed_words, sort_words, sort_words_in};
ghost use Rattle.study_hints.specs.Values.{axiom_words};

use crate::keys::put_document;
use crate::values::{put_perhaps, put_values};
use crate::words::{all_symbols, key_words, kind_words, size_words, symbol_words, syntax_words};
use edge::Bytes;
use lists::NoMemory;
use profiles::Space;
use sorts::SortFault;
use std::alloc::Global;
use study::{StudyFault, listing_in};
use vocab::Size;

/// Words that help whatever the study is.
pub fn fixed_words(fault: &StudyFault) -> &'static [u8]
    ensures { result.now ≡ fixed_words fault.now }
{
    match fault {
        StudyFault::Toml => b"help a study is a TOML document, in which strings stand in quotes\n",
        StudyFault::Key(key) => key_words(key.as_slice()),
        StudyFault::Size(fault) => size_words(*fault),
        StudyFault::Ballot(_) => {
            b"help ballots: the letters of all alternatives, from best to worst, each ranking once\n"
        }
        StudyFault::Conflicts(_) => {
            b"help conflicts: an integer from 1 to 1000000, or no such key\n"
        }
        StudyFault::Many(_) => b"help axioms: at most 40\n",
        StudyFault::Unknown(_) => b"",
        StudyFault::Twice(_) => {
            b"help axioms: each name once, and under [sentences] none of the library\n"
        }
        StudyFault::Syntax(_, fault) => syntax_words(*fault),
        StudyFault::Sort(_, _) => b"",
        StudyFault::Open(_) => {
            b"help swap_alts: only where ballots lists every ranking, or is no key\n"
        }
        StudyFault::Instances(_, _) => b"",
        StudyFault::Body(_, _) => b"",
        StudyFault::Work(_, _) => b"",
        StudyFault::NoMemory => b"",
    }
}

/// Adds what helps with a sentence that is none of the size.
fn put_sort(out: &mut Bytes, space: &Space, fault: SortFault) -> Result<(), NoMemory>
    ensures { OnOk result (out.new ≡ out.old ++ sort_words space.now fault) }
{
    match fault {
        SortFault::Unbound(name) => put_perhaps(out, space, name.bytes()),
        SortFault::Symbol(_) => out.append(all_symbols()),
        SortFault::Arity(symbol) => out.append(symbol_words(symbol.bytes())),
        SortFault::Sort(symbol, _) => out.append(symbol_words(symbol.bytes())),
        SortFault::Kind(_) => out.append(kind_words()),
        SortFault::Constant(constant) => put_values(out, space, constant.bytes()),
        SortFault::NoMemory => Ok(()),
    }
}

/// What helps with a sentence that is none of the size.
fn sort_help(alloc: Global, size: Size, fault: SortFault) -> Result<Bytes, NoMemory>
    ensures { IfOk result (λ said. said ≡ sort_words size fault) }
{
    let mut said = Bytes::new(alloc);
    put_sort(&mut said, &Space::new(size), fault)?;
    Ok(said)
}

/// The same for bytes.
pub fn sort_help_in(alloc: Global, bytes: &[u8], fault: SortFault) -> Result<Bytes, NoMemory>
    ensures { IfOk result (λ said. said ≡ sort_words_in (listing_in (document_of bytes.now)) fault) }
{
    match listing_in(alloc, bytes) {
        Ok(listing) => sort_help(alloc, listing.size, fault),
        Err(StudyFault::NoMemory) => Err(NoMemory),
        Err(_) => Ok(Bytes::new(alloc)),
    }
}

/// The axioms that the document of the bytes may list.
#[tactic(auto, using(study::proofs::Whole::no_document))]
pub fn axiom_help(alloc: Global, bytes: &[u8]) -> Result<Bytes, NoMemory>
    ensures { IfOk result (λ said. said ≡ axiom_words (document_of bytes.now)) }
{
    let table = match toml::table_from_slice(alloc, bytes) {
        Ok(table) => table,
        Err(error) if error.is_memory() => return Err(NoMemory),
        Err(_) => return Ok(Bytes::new(alloc)),
    };
    let mut said = Bytes::new(alloc);
    put_document(&mut said, &table)?;
    Ok(said)
}
