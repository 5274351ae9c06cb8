//! Axioms by name and by place.

ghost use Rattle.std.specs.Prelude.{◌≡◌, slice_get, option_map, Some, None, IfOk, IsSomeAnd, MatchOption};
ghost use Rattle.vocab.specs.NamedView.{named_tree};
ghost use Rattle.syntax.specs.Sentence.{IsSentence};
ghost use Rattle.axiom_library.specs.Library.{library, text_under};

use crate::table::{count, name_bytes, text_at};
use lists::NoMemory;
use std::alloc::Global;
use syntax::SyntaxFault;
use vocab::{Kind, Name, Named};

/// The name at a place of the library of a kind, from 0: `None` past the last place.
pub fn name_at(kind: Kind, place: u32) -> Option<Name>
    ensures { result ≡ option_map (λ e. e.name) (slice_get (library kind) place) }
{
    let Some(bytes) = name_bytes(kind, place) else {
        return None;
    };
    Some(Name::new(bytes).unwrap())
}

/// The text that the library of a kind has under a name: `None` where it has no such name.
pub fn text_under(kind: Kind, name: &[u8]) -> Option<&'static [u8]>
    ensures { option_map (λ text. text.now) result ≡ text_under kind name.now }
{
    for place in 0..count(kind) {
        let Some(bytes) = name_bytes(kind, place) else {
            return None;
        };
        if bytes == name {
            return text_at(kind, place);
        }
    }
    None
}

/// The sentence that the library of a kind has under a name: the tree that its text reads as. `None` comes
/// exactly where the library has no such name.
pub fn find(alloc: Global, name: &Name, kind: Kind) -> Result<Option<Named>, NoMemory>
    ensures { IfOk result (λ found. MatchOption found (text_under kind name.now ≡ None)
        (λ named. IsSomeAnd (text_under kind name.now) (λ text. IsSentence text (named_tree named)))) }
{
    let Some(text) = text_under(kind, name.bytes()) else {
        return Ok(None);
    };
    match syntax::read(alloc, text) {
        Ok(named) => Ok(Some(named)),
        Err(fault) => {
            prove!(matches!(&fault, SyntaxFault::NoMemory));
            Err(NoMemory)
        }
    }
}
