//! What known literals leave of the outcomes at a profile.

ghost use Rattle.std.specs.Prelude.{◌≡◌, ◌+◌, ◌*◌, ◌^◌, ◌≤◌, ◌<◌, ◌==◌, ◌&&◌, not, filter, IsTrue};
ghost use Rattle.std.specs.List.{list_all};
ghost use Rattle.vocab.specs.declared.kinds.Sort.TheVariants.{Profile};
ghost use Rattle.vocab.specs.Literal.{has, profile_of};
ghost use Rattle.vocab.specs.Size.{sort_count, outcome_count};
ghost use Rattle.meaning.specs.Stories.{is_outcome_excluded};
ghost use Rattle.meaning.specs.Truth.{holds_of};
ghost use Rattle.meaning.specs.Variables.{bits, variable_count, literal_of};

use crate::boards::Board;
use cnf::Lit;
use outcomes::OutcomeKind;
use outcomes::laws::kinds_have_sizes;

/// A board of the size of a kind.
#[derive(Drop)]
struct KindBoard<'a, K: OutcomeKind> {
    kind: &'a K,
    board: &'a Board,
    ghost same: { board.now.size ≡ K.size kind.now },
}

/// Whether no outcome at profile p makes all literals of the board there hold. However many literals the
/// board has, only those of the profile are looked at. No memory is taken.
pub fn excludes<K: OutcomeKind>(kind: &K, board: &Board, p: u32) -> bool
    requires { board.now.size ≡ K.size kind.now }
    ensures { result ≡ is_outcome_excluded (K.size kind.now) board.now.literals p }
{
    kinds_have_sizes(kind);
    let _known = board.as_slice();
    if p >= kind.space().count() {
        return false;
    }
    let known = KindBoard { kind, board };
    for outcome in 0..kind.outcomes() {
        if allows(&known, p, outcome) {
            return false;
        }
    }
    true
}

/// Whether all literals of the board at a profile hold of an outcome.
fn allows<K: OutcomeKind>(known: &KindBoard<K>, p: u32, outcome: u32) -> bool
    requires profile { p < sort_count (K.size known.now.kind.now) Profile }
    requires outcome { let size = K.size known.now.kind.now in
        outcome < outcome_count size.kind size.alternatives }
    ensures { result ≡ list_all (holds_of (K.size known.now.kind.now) outcome)
        (filter (λ l. profile_of l == p) known.now.board.now.literals) }
{
    kinds_have_sizes(known.kind);
    let _known = known.board.as_slice();
    let _profiles = known.kind.space().count();
    let bits = known.kind.bits();
    for place in 0..bits {
        let variable = variable_at(p, bits, place);
        if is_broken(known, outcome, Lit::new(variable, true)) {
            return false;
        }
        if is_broken(known, outcome, Lit::new(variable, false)) {
            return false;
        }
    }
    true
}

/// The variable at a place of a profile.
fn variable_at(p: u32, bits: u32, place: u32) -> u32
    requires { p * bits + place + 1 < 2 ^ 31 }
    ensures value { result ≡ p * bits + place + 1 }
    ensures fits { result < 2 ^ 31 }
{
    p * bits + place + 1
}

/// Whether a literal is on the board that does not hold of an outcome.
fn is_broken<K: OutcomeKind>(known: &KindBoard<K>, outcome: u32, lit: Lit) -> bool
    requires outcome { let size = K.size known.now.kind.now in
        outcome < outcome_count size.kind size.alternatives }
    requires low { 1 ≤ lit.variable }
    requires high { lit.variable ≤ variable_count (K.size known.now.kind.now) }
    ensures { let size = K.size known.now.kind.now in
        result ≡ (has known.now.board.now.literals (literal_of size lit) && not
        (holds_of size outcome (literal_of size lit))) }
{
    kinds_have_sizes(known.kind);
    let literal = known.kind.literal(lit);
    known.board.has(&literal) && !known.kind.holds(outcome, &literal)
}
