//! The pairs and the triples of at most five alternatives, in lexicographic order.
//!
//! The last ones of five alternatives leave out the first 5 - m alternatives: they are those of m
//! alternatives.

ghost use Rattle.std.specs.Prelude.{◌≡◌, ◌+◌, ◌-◌, ◌*◌, ◌<◌, ◌≤◌, length, get_or};
ghost use Rattle.meaning.specs.Variables.{pairs, triples, pair_place};
ghost use Rattle.outcomes.specs.Places.{pair_at, triple_at};

use profiles::Alternatives;

/// The first of each pair.
static FIRST: [u8; 10] = [0, 0, 0, 0, 1, 1, 1, 2, 2, 3];

/// The second of each pair.
static SECOND: [u8; 10] = [1, 2, 3, 4, 2, 3, 4, 3, 4, 4];

/// The place of each pair, by its first and its second.
static PLACES: [[u8; 5]; 5] = [
    [10, 0, 1, 2, 3],
    [10, 10, 4, 5, 6],
    [10, 10, 10, 7, 8],
    [10, 10, 10, 10, 9],
    [10, 10, 10, 10, 10],
];

/// Each triple.
static TRIPLES: [[u8; 3]; 10] = [
    [0, 1, 2],
    [0, 1, 3],
    [0, 1, 4],
    [0, 2, 3],
    [0, 2, 4],
    [0, 3, 4],
    [1, 2, 3],
    [1, 2, 4],
    [1, 3, 4],
    [2, 3, 4],
];

/// How many pairs there are.
pub(crate) fn pair_count(alternatives: Alternatives) -> u32
    ensures value { result ≡ length (pairs alternatives.number) }
    ensures few { result ≤ 10 }
{
    match alternatives.number {
        1 => 0,
        2 => 1,
        3 => 3,
        4 => 6,
        _ => 10,
    }
}

/// How many triples there are.
pub(crate) fn triple_count(alternatives: Alternatives) -> u32
    ensures value { result ≡ length (triples alternatives.number) }
    ensures few { result ≤ 10 }
{
    match alternatives.number {
        1 => 0,
        2 => 0,
        3 => 1,
        4 => 4,
        _ => 10,
    }
}

/// The pair at a place.
pub(crate) fn pair_at(alternatives: Alternatives, place: u32) -> (u8, u8)
    requires { place < length (pairs alternatives.number) }
    ensures first { result.0 ≡ (pair_at alternatives.number place).0 }
    ensures second { result.1 ≡ (pair_at alternatives.number place).1 }
    ensures rises { result.0 < result.1 }
    ensures below { result.1 < alternatives.number }
{
    let left_out = 5 - alternatives.number;
    let k = (place + 10 - pair_count(alternatives)) as usize;
    (FIRST[k] - left_out, SECOND[k] - left_out)
}

/// The place of a pair.
pub(crate) fn place_of(alternatives: Alternatives, x: u8, y: u8) -> u32
    requires rises { x < y }
    requires below { y < alternatives.number }
    ensures value { result ≡ pair_place alternatives.number x y }
    ensures within { result < length (pairs alternatives.number) }
{
    let left_out = 5 - alternatives.number;
    let place = PLACES[(x + left_out) as usize][(y + left_out) as usize];
    u32::from(place) + pair_count(alternatives) - 10
}

/// The triple at a place.
pub(crate) fn triple_at(alternatives: Alternatives, place: u32) -> (u8, u8, u8)
    requires { place < length (triples alternatives.number) }
    ensures first { result.0 ≡ (triple_at alternatives.number place).0 }
    ensures second { result.1 ≡ (triple_at alternatives.number place).1 }
    ensures third { result.2 ≡ (triple_at alternatives.number place).2 }
    ensures rises { (result.0 < result.1) × (result.1 < result.2) }
    ensures below { result.2 < alternatives.number }
{
    let left_out = 5 - alternatives.number;
    let [x, y, z] = TRIPLES[(place + 10 - triple_count(alternatives)) as usize];
    (x - left_out, y - left_out, z - left_out)
}
