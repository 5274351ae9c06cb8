//! What the stack of all that is expected becomes by a lexeme. Its last symbol comes first.

ghost use Rattle.std.specs.Prelude.{◌≡◌, ◌++◌, take, true, IsTrue, IsFalse, IfOk, MatchOption};
ghost use Rattle.std.specs.List.{list_all};
ghost use Rattle.sentence_fronts.specs.Expected.{RefusesKind, Leads, is_settled, may_end as can_end};

use crate::expected::{Symbol, expected_after, may_end};
use crate::lexeme_kinds::LexemeKind;
use lists::NoMemory;

/// So many symbols of the stack stay, and these come above them.
#[derive(Clone, Copy)]
pub(crate) struct Change {
    stay: usize,
    above: &'static [Symbol],
}

/// What a lexeme of this kind does to the stack; None where no sentence goes on with it. A symbol that may
/// stand for no lexeme is passed over.
pub(crate) fn step(stack: &[Symbol], kind: LexemeKind) -> Option<Change>
    requires { is_settled stack.now ≡ true }
    ensures { MatchOption result (RefusesKind stack.now kind)
        (λ step. Leads stack.now kind (take step.stay stack.now ++ step.above.now)) }
{
    let mut rest = stack;
    while let Some((top, below)) = rest.split_last() {
        if let Some(above) = expected_after(*top, kind) {
            return Some(Change {
                stay: below.len(),
                above,
            });
        }
        if !may_end(*top) {
            return None;
        }
        rest = below;
    }
    None
}

/// Takes a lexeme of this kind, where a sentence goes on with it, and tells whether one does.
pub(crate) fn take_lexeme(stack: &mut Vec<Symbol>, kind: LexemeKind) -> Result<bool, NoMemory>
    requires { is_settled stack.old.items ≡ true }
    ensures yes { IfOk result (λ taken. IsTrue taken → Leads stack.old.items kind stack.new.items) }
    ensures no { IfOk result (λ taken. IsFalse taken → RefusesKind stack.old.items kind) }
    ensures same { IfOk result (λ taken. IsFalse taken → stack.new.items ≡ stack.old.items) }
{
    let Some(found) = step(stack.as_slice(), kind) else {
        return Ok(false);
    };
    stack.truncate(found.stay);
    stack.extend_from_slice(found.above)?;
    Ok(true)
}

/// Whether a sentence may end there.
pub(crate) fn is_complete(stack: &[Symbol]) -> bool
    ensures { result ≡ list_all can_end stack.now }
{
    stack.iter().all(|symbol| may_end(*symbol))
}
