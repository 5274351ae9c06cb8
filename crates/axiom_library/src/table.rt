//! The tables of the library: names and texts by their places.

ghost use Rattle.std.specs.Prelude.{◌≡◌, length, slice_get, option_map};
ghost use Rattle.axiom_library.specs.Library.{choice, ranking, sets, library};

use vocab::Kind;

/// The name at a place of the library of rules that choose an alternative.
#[tactic(auto, unfolding(crate::specs::Library::choice))]
fn choice_name(place: u32) -> Option<&'static [u8]>
    ensures { option_map (λ name. name.now) result ≡ option_map (λ e. e.name) (slice_get choice place) }
{
    match place {
        0 => Some(b"unanimity"),
        1 => Some(b"pareto"),
        2 => Some(b"onto"),
        3 => Some(b"non_dictatorship"),
        4 => Some(b"strategyproof"),
        5 => Some(b"maskin"),
        6 => Some(b"condorcet"),
        7 => Some(b"anonymity"),
        8 => Some(b"neutrality"),
        9 => Some(b"participation"),
        _ => None,
    }
}

/// The text at a place of the library of rules that choose an alternative. The last, `participation`, says
/// that a voter who is absent gets no worse winner by coming to cast a ballot (Moulin, "Condorcet's principle
/// implies the no show paradox", 1988).
#[tactic(auto, unfolding(crate::specs::Library::choice))]
fn choice_text(place: u32) -> Option<&'static [u8]>
    ensures { option_map (λ text. text.now) result ≡ option_map (λ e. e.text) (slice_get choice place) }
{
    match place {
        0 => Some(
            b"all p: profile. all x: alt. (all i: voter. all y: alt. (x = y | prefers(i, x, y, p)) -> wins(x, p))",
        ),
        1 => Some(
            b"all p: profile. all x: alt. all y: alt. (all i: voter. prefers(i, x, y, p) -> !wins(y, p))",
        ),
        2 => Some(b"all x: alt. some p: profile. wins(x, p)"),
        3 => Some(
            b"all i: voter. some p: profile. some x: alt. some y: alt. (prefers(i, y, x, p) & wins(x, p))",
        ),
        4 => Some(
            b"all p: profile. all i: voter. all b: ballot. all x: alt. all y: alt. ((wins(x, p) & wins(y, with(p, i, b))) -> !prefers(i, y, x, p))",
        ),
        5 => Some(
            b"all p: profile. all q: profile. all x: alt. ((wins(x, p) & all i: voter. all y: alt. (prefers(i, x, y, p) -> prefers(i, x, y, q))) -> wins(x, q))",
        ),
        6 => Some(
            b"all p: profile. all x: alt. (all y: alt. (x = y | majority(x, y, p)) -> wins(x, p))",
        ),
        7 => Some(
            b"all p: profile. all i: voter. all j: voter. all x: alt. (wins(x, p) <-> wins(x, swap_voters(p, i, j)))",
        ),
        8 => Some(
            b"all p: profile. all x: alt. all y: alt. all z: alt. (wins(z, p) <-> wins(swap(x, y, z), swap_alts(p, x, y)))",
        ),
        9 => Some(
            b"all p: profile. all i: voter. all b: ballot. all x: alt. all y: alt. ((!some c: ballot. casts(i, c, p) & (wins(x, p) & wins(y, with(p, i, b)))) -> !better(b, x, y))",
        ),
        _ => None,
    }
}

/// The name at a place of the library of rules that rank the alternatives.
#[tactic(auto, unfolding(crate::specs::Library::ranking))]
fn ranking_name(place: u32) -> Option<&'static [u8]>
    ensures { option_map (λ name. name.now) result ≡ option_map (λ e. e.name) (slice_get ranking place) }
{
    match place {
        0 => Some(b"pareto"),
        1 => Some(b"independence"),
        2 => Some(b"non_dictatorship"),
        3 => Some(b"anonymity"),
        4 => Some(b"neutrality"),
        _ => None,
    }
}

/// The text at a place of the library of rules that rank the alternatives.
#[tactic(auto, unfolding(crate::specs::Library::ranking))]
fn ranking_text(place: u32) -> Option<&'static [u8]>
    ensures { option_map (λ text. text.now) result ≡ option_map (λ e. e.text) (slice_get ranking place) }
{
    match place {
        0 => Some(
            b"all p: profile. all x: alt. all y: alt. (all i: voter. prefers(i, x, y, p) -> ranks(x, y, p))",
        ),
        1 => Some(
            b"all p: profile. all q: profile. all x: alt. all y: alt. (all i: voter. (prefers(i, x, y, p) <-> prefers(i, x, y, q)) -> (ranks(x, y, p) <-> ranks(x, y, q)))",
        ),
        2 => Some(
            b"all i: voter. some p: profile. some x: alt. some y: alt. (prefers(i, x, y, p) & !ranks(x, y, p))",
        ),
        3 => Some(
            b"all p: profile. all i: voter. all j: voter. all x: alt. all y: alt. (ranks(x, y, p) <-> ranks(x, y, swap_voters(p, i, j)))",
        ),
        4 => Some(
            b"all p: profile. all x: alt. all y: alt. all z: alt. all w: alt. (ranks(z, w, p) <-> ranks(swap(x, y, z), swap(x, y, w), swap_alts(p, x, y)))",
        ),
        _ => None,
    }
}

/// The name at a place of the library of rules that give a set.
#[tactic(auto, unfolding(crate::specs::Library::sets))]
fn set_name(place: u32) -> Option<&'static [u8]>
    ensures { option_map (λ name. name.now) result ≡ option_map (λ e. e.name) (slice_get sets place) }
{
    match place {
        0 => Some(b"pareto"),
        1 => Some(b"anonymity"),
        2 => Some(b"neutrality"),
        3 => Some(b"condorcet"),
        4 => Some(b"resolute"),
        5 => Some(b"strategyproof"),
        _ => None,
    }
}

/// The text at a place of the library of rules that give a set: the first three are those of rules that
/// choose. The last, `strategyproof`, says that no voter
/// gains by another ballot a set of which each element is one of the set in its place, or above it in the
/// voter's own ballot, for all elements of the two (Kelly, "Strategy-proofness and social choice functions
/// without singlevaluedness", 1977).
#[tactic(auto, unfolding(crate::specs::Library::choice, crate::specs::Library::sets))]
fn set_text(place: u32) -> Option<&'static [u8]>
    ensures { option_map (λ text. text.now) result ≡ option_map (λ e. e.text) (slice_get sets place) }
{
    match place {
        0 => choice_text(1),
        1 => choice_text(7),
        2 => choice_text(8),
        3 => Some(
            b"all p: profile. all x: alt. all z: alt. (all y: alt. (x = y | majority(x, y, p)) -> (wins(z, p) <-> x = z))",
        ),
        4 => Some(b"all p: profile. all x: alt. all y: alt. ((wins(x, p) & wins(y, p)) -> x = y)"),
        5 => Some(
            b"all p: profile. all i: voter. all b: ballot. all z: alt. (all x: alt. all y: alt. ((wins(x, p) & wins(y, with(p, i, b))) -> (x = y | prefers(i, y, x, p))) -> (wins(z, p) <-> wins(z, with(p, i, b))))",
        ),
        _ => None,
    }
}

/// How many axioms the library of a kind has.
#[tactic(auto, unfolding(crate::specs::Library::choice, crate::specs::Library::ranking, crate::specs::Library::sets))]
pub fn count(kind: Kind) -> u32
    ensures { result ≡ length (library kind) }
{
    match kind {
        Kind::Choice => 10,
        Kind::Ranking => 5,
        Kind::Sets => 6,
    }
}

/// The bytes of the name at a place of the library of a kind.
pub(crate) fn name_bytes(kind: Kind, place: u32) -> Option<&'static [u8]>
    ensures { option_map (λ name. name.now) result ≡
        option_map (λ e. e.name) (slice_get (library kind) place) }
{
    match kind {
        Kind::Choice => choice_name(place),
        Kind::Ranking => ranking_name(place),
        Kind::Sets => set_name(place),
    }
}

/// The text at a place of the library of a kind, from 0: `None` past the last place. The texts are canonical.
pub fn text_at(kind: Kind, place: u32) -> Option<&'static [u8]>
    ensures { option_map (λ text. text.now) result ≡
        option_map (λ e. e.text) (slice_get (library kind) place) }
{
    match kind {
        Kind::Choice => choice_text(place),
        Kind::Ranking => ranking_text(place),
        Kind::Sets => set_text(place),
    }
}
