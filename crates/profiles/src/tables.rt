//! The strict rankings of five alternatives in their order, and what is read off them.
//!
//! The first m! of them leave the first 5 - m alternatives in front: what follows them are the rankings of m
//! alternatives.

ghost use Rattle.std.specs.Prelude.{◌≡◌, ◌≢◌, ℕ, ◌+◌, ◌-◌, ◌<◌, ◌≤◌, map, take, length, count_by, nat_lt, slice_index};
ghost use Rattle.std.specs.Bool.{OnTrue, OnFalse};
ghost use Rattle.vocab.specs.Size.{factorial};
ghost use Rattle.meaning.specs.Space.{ranking, ranking_number, exchanged, is_above, place};
ghost use Rattle.meaning.specs.Texts.{ranking_text};
ghost use Rattle.profiles.specs.Weights.{rank_of};

use crate::rankings::{Alternatives, Ranking};

/// Each ranking, from best to worst.
static RANKINGS: [[u8; 5]; 120] = [
    [0, 1, 2, 3, 4],
    [0, 1, 2, 4, 3],
    [0, 1, 3, 2, 4],
    [0, 1, 3, 4, 2],
    [0, 1, 4, 2, 3],
    [0, 1, 4, 3, 2],
    [0, 2, 1, 3, 4],
    [0, 2, 1, 4, 3],
    [0, 2, 3, 1, 4],
    [0, 2, 3, 4, 1],
    [0, 2, 4, 1, 3],
    [0, 2, 4, 3, 1],
    [0, 3, 1, 2, 4],
    [0, 3, 1, 4, 2],
    [0, 3, 2, 1, 4],
    [0, 3, 2, 4, 1],
    [0, 3, 4, 1, 2],
    [0, 3, 4, 2, 1],
    [0, 4, 1, 2, 3],
    [0, 4, 1, 3, 2],
    [0, 4, 2, 1, 3],
    [0, 4, 2, 3, 1],
    [0, 4, 3, 1, 2],
    [0, 4, 3, 2, 1],
    [1, 0, 2, 3, 4],
    [1, 0, 2, 4, 3],
    [1, 0, 3, 2, 4],
    [1, 0, 3, 4, 2],
    [1, 0, 4, 2, 3],
    [1, 0, 4, 3, 2],
    [1, 2, 0, 3, 4],
    [1, 2, 0, 4, 3],
    [1, 2, 3, 0, 4],
    [1, 2, 3, 4, 0],
    [1, 2, 4, 0, 3],
    [1, 2, 4, 3, 0],
    [1, 3, 0, 2, 4],
    [1, 3, 0, 4, 2],
    [1, 3, 2, 0, 4],
    [1, 3, 2, 4, 0],
    [1, 3, 4, 0, 2],
    [1, 3, 4, 2, 0],
    [1, 4, 0, 2, 3],
    [1, 4, 0, 3, 2],
    [1, 4, 2, 0, 3],
    [1, 4, 2, 3, 0],
    [1, 4, 3, 0, 2],
    [1, 4, 3, 2, 0],
    [2, 0, 1, 3, 4],
    [2, 0, 1, 4, 3],
    [2, 0, 3, 1, 4],
    [2, 0, 3, 4, 1],
    [2, 0, 4, 1, 3],
    [2, 0, 4, 3, 1],
    [2, 1, 0, 3, 4],
    [2, 1, 0, 4, 3],
    [2, 1, 3, 0, 4],
    [2, 1, 3, 4, 0],
    [2, 1, 4, 0, 3],
    [2, 1, 4, 3, 0],
    [2, 3, 0, 1, 4],
    [2, 3, 0, 4, 1],
    [2, 3, 1, 0, 4],
    [2, 3, 1, 4, 0],
    [2, 3, 4, 0, 1],
    [2, 3, 4, 1, 0],
    [2, 4, 0, 1, 3],
    [2, 4, 0, 3, 1],
    [2, 4, 1, 0, 3],
    [2, 4, 1, 3, 0],
    [2, 4, 3, 0, 1],
    [2, 4, 3, 1, 0],
    [3, 0, 1, 2, 4],
    [3, 0, 1, 4, 2],
    [3, 0, 2, 1, 4],
    [3, 0, 2, 4, 1],
    [3, 0, 4, 1, 2],
    [3, 0, 4, 2, 1],
    [3, 1, 0, 2, 4],
    [3, 1, 0, 4, 2],
    [3, 1, 2, 0, 4],
    [3, 1, 2, 4, 0],
    [3, 1, 4, 0, 2],
    [3, 1, 4, 2, 0],
    [3, 2, 0, 1, 4],
    [3, 2, 0, 4, 1],
    [3, 2, 1, 0, 4],
    [3, 2, 1, 4, 0],
    [3, 2, 4, 0, 1],
    [3, 2, 4, 1, 0],
    [3, 4, 0, 1, 2],
    [3, 4, 0, 2, 1],
    [3, 4, 1, 0, 2],
    [3, 4, 1, 2, 0],
    [3, 4, 2, 0, 1],
    [3, 4, 2, 1, 0],
    [4, 0, 1, 2, 3],
    [4, 0, 1, 3, 2],
    [4, 0, 2, 1, 3],
    [4, 0, 2, 3, 1],
    [4, 0, 3, 1, 2],
    [4, 0, 3, 2, 1],
    [4, 1, 0, 2, 3],
    [4, 1, 0, 3, 2],
    [4, 1, 2, 0, 3],
    [4, 1, 2, 3, 0],
    [4, 1, 3, 0, 2],
    [4, 1, 3, 2, 0],
    [4, 2, 0, 1, 3],
    [4, 2, 0, 3, 1],
    [4, 2, 1, 0, 3],
    [4, 2, 1, 3, 0],
    [4, 2, 3, 0, 1],
    [4, 2, 3, 1, 0],
    [4, 3, 0, 1, 2],
    [4, 3, 0, 2, 1],
    [4, 3, 1, 0, 2],
    [4, 3, 1, 2, 0],
    [4, 3, 2, 0, 1],
    [4, 3, 2, 1, 0],
];

/// Where each alternative stands in each ranking.
static PLACES: [[u8; 5]; 120] = [
    [0, 1, 2, 3, 4],
    [0, 1, 2, 4, 3],
    [0, 1, 3, 2, 4],
    [0, 1, 4, 2, 3],
    [0, 1, 3, 4, 2],
    [0, 1, 4, 3, 2],
    [0, 2, 1, 3, 4],
    [0, 2, 1, 4, 3],
    [0, 3, 1, 2, 4],
    [0, 4, 1, 2, 3],
    [0, 3, 1, 4, 2],
    [0, 4, 1, 3, 2],
    [0, 2, 3, 1, 4],
    [0, 2, 4, 1, 3],
    [0, 3, 2, 1, 4],
    [0, 4, 2, 1, 3],
    [0, 3, 4, 1, 2],
    [0, 4, 3, 1, 2],
    [0, 2, 3, 4, 1],
    [0, 2, 4, 3, 1],
    [0, 3, 2, 4, 1],
    [0, 4, 2, 3, 1],
    [0, 3, 4, 2, 1],
    [0, 4, 3, 2, 1],
    [1, 0, 2, 3, 4],
    [1, 0, 2, 4, 3],
    [1, 0, 3, 2, 4],
    [1, 0, 4, 2, 3],
    [1, 0, 3, 4, 2],
    [1, 0, 4, 3, 2],
    [2, 0, 1, 3, 4],
    [2, 0, 1, 4, 3],
    [3, 0, 1, 2, 4],
    [4, 0, 1, 2, 3],
    [3, 0, 1, 4, 2],
    [4, 0, 1, 3, 2],
    [2, 0, 3, 1, 4],
    [2, 0, 4, 1, 3],
    [3, 0, 2, 1, 4],
    [4, 0, 2, 1, 3],
    [3, 0, 4, 1, 2],
    [4, 0, 3, 1, 2],
    [2, 0, 3, 4, 1],
    [2, 0, 4, 3, 1],
    [3, 0, 2, 4, 1],
    [4, 0, 2, 3, 1],
    [3, 0, 4, 2, 1],
    [4, 0, 3, 2, 1],
    [1, 2, 0, 3, 4],
    [1, 2, 0, 4, 3],
    [1, 3, 0, 2, 4],
    [1, 4, 0, 2, 3],
    [1, 3, 0, 4, 2],
    [1, 4, 0, 3, 2],
    [2, 1, 0, 3, 4],
    [2, 1, 0, 4, 3],
    [3, 1, 0, 2, 4],
    [4, 1, 0, 2, 3],
    [3, 1, 0, 4, 2],
    [4, 1, 0, 3, 2],
    [2, 3, 0, 1, 4],
    [2, 4, 0, 1, 3],
    [3, 2, 0, 1, 4],
    [4, 2, 0, 1, 3],
    [3, 4, 0, 1, 2],
    [4, 3, 0, 1, 2],
    [2, 3, 0, 4, 1],
    [2, 4, 0, 3, 1],
    [3, 2, 0, 4, 1],
    [4, 2, 0, 3, 1],
    [3, 4, 0, 2, 1],
    [4, 3, 0, 2, 1],
    [1, 2, 3, 0, 4],
    [1, 2, 4, 0, 3],
    [1, 3, 2, 0, 4],
    [1, 4, 2, 0, 3],
    [1, 3, 4, 0, 2],
    [1, 4, 3, 0, 2],
    [2, 1, 3, 0, 4],
    [2, 1, 4, 0, 3],
    [3, 1, 2, 0, 4],
    [4, 1, 2, 0, 3],
    [3, 1, 4, 0, 2],
    [4, 1, 3, 0, 2],
    [2, 3, 1, 0, 4],
    [2, 4, 1, 0, 3],
    [3, 2, 1, 0, 4],
    [4, 2, 1, 0, 3],
    [3, 4, 1, 0, 2],
    [4, 3, 1, 0, 2],
    [2, 3, 4, 0, 1],
    [2, 4, 3, 0, 1],
    [3, 2, 4, 0, 1],
    [4, 2, 3, 0, 1],
    [3, 4, 2, 0, 1],
    [4, 3, 2, 0, 1],
    [1, 2, 3, 4, 0],
    [1, 2, 4, 3, 0],
    [1, 3, 2, 4, 0],
    [1, 4, 2, 3, 0],
    [1, 3, 4, 2, 0],
    [1, 4, 3, 2, 0],
    [2, 1, 3, 4, 0],
    [2, 1, 4, 3, 0],
    [3, 1, 2, 4, 0],
    [4, 1, 2, 3, 0],
    [3, 1, 4, 2, 0],
    [4, 1, 3, 2, 0],
    [2, 3, 1, 4, 0],
    [2, 4, 1, 3, 0],
    [3, 2, 1, 4, 0],
    [4, 2, 1, 3, 0],
    [3, 4, 1, 2, 0],
    [4, 3, 1, 2, 0],
    [2, 3, 4, 1, 0],
    [2, 4, 3, 1, 0],
    [3, 2, 4, 1, 0],
    [4, 2, 3, 1, 0],
    [3, 4, 2, 1, 0],
    [4, 3, 2, 1, 0],
];

fn alternative_at(ballot: u32, place: usize) -> u8
    requires ballot { ballot < 120 }
    requires place { place < 5 }
    ensures value { result ≡ slice_index (ranking 5 ballot) place }
    ensures small { result < 5 }
{
    RANKINGS[ballot as usize][place]
}

fn place_at(ballot: u32, alternative: usize) -> u8
    requires ballot { ballot < 120 }
    requires alternative { alternative < 5 }
    ensures { result ≡ place (ranking 5 ballot) alternative }
{
    PLACES[ballot as usize][alternative]
}

/// Whether x stands above y in a ranking.
pub fn is_above(order: Ranking, x: u32, y: u32) -> bool
    requires x { x < order.alternatives.number }
    requires y { y < order.alternatives.number }
    ensures { result ≡ is_above (ranking order.alternatives.number order.place) x y }
{
    let left_out = 5 - order.alternatives.number as usize;
    place_at(order.place, left_out + x as usize) < place_at(order.place, left_out + y as usize)
}

/// The letter at a place of a ranking, the best at place 0.
pub(crate) fn letter_at(order: Ranking, place: u8) -> u8
    requires { place < order.alternatives.number }
    ensures { result ≡ slice_index (ranking_text order.alternatives.number order.place) place }
{
    let left_out = 5 - order.alternatives.number;
    b'a' + alternative_at(order.place, (left_out + place) as usize) - left_out
}

/// The letters of a ranking from best to worst, in front of zeros.
pub(crate) fn spelled(order: Ranking) -> [u8; 5]
    ensures { take order.alternatives.number result ≡ ranking_text order.alternatives.number order.place }
{
    let mut letters = [0; 5];
    for place in 0..order.alternatives.number {
        letters[place as usize] = letter_at(order, place);
    }
    letters
}

/// Whether a text is the letters of a ranking.
pub(crate) fn spells(order: Ranking, text: &[u8]) -> bool
    requires { length text.now ≡ order.alternatives.number }
    ensures same { OnTrue result (text.now ≡ ranking_text order.alternatives.number order.place) }
    ensures other { OnFalse result (text.now ≢ ranking_text order.alternatives.number order.place) }
{
    for place in 0..order.alternatives.number {
        if text[place as usize] != letter_at(order, place) {
            return false;
        }
    }
    true
}

/// The row of EXCHANGED for each two alternatives.
static PAIRS: [[u8; 5]; 5] = [
    [0, 1, 2, 3, 4],
    [1, 0, 5, 6, 7],
    [2, 5, 0, 8, 9],
    [3, 6, 8, 0, 10],
    [4, 7, 9, 10, 0],
];

/// The ballots with two alternatives exchanged: first with none, and then for each pair.
static EXCHANGED: [[u8; 120]; 11] = [
    [
        0, 1, 2, 3, 4, 5, 6, 7, 8, 9, 10, 11, 12, 13, 14, 15, 16, 17, 18, 19, 20, 21, 22, 23, 24,
        25, 26, 27, 28, 29, 30, 31, 32, 33, 34, 35, 36, 37, 38, 39, 40, 41, 42, 43, 44, 45, 46, 47,
        48, 49, 50, 51, 52, 53, 54, 55, 56, 57, 58, 59, 60, 61, 62, 63, 64, 65, 66, 67, 68, 69, 70,
        71, 72, 73, 74, 75, 76, 77, 78, 79, 80, 81, 82, 83, 84, 85, 86, 87, 88, 89, 90, 91, 92, 93,
        94, 95, 96, 97, 98, 99, 100, 101, 102, 103, 104, 105, 106, 107, 108, 109, 110, 111, 112,
        113, 114, 115, 116, 117, 118, 119,
    ],
    [
        24, 25, 26, 27, 28, 29, 30, 31, 32, 33, 34, 35, 36, 37, 38, 39, 40, 41, 42, 43, 44, 45, 46,
        47, 0, 1, 2, 3, 4, 5, 6, 7, 8, 9, 10, 11, 12, 13, 14, 15, 16, 17, 18, 19, 20, 21, 22, 23,
        54, 55, 56, 57, 58, 59, 48, 49, 50, 51, 52, 53, 62, 63, 60, 61, 65, 64, 68, 69, 66, 67, 71,
        70, 78, 79, 80, 81, 82, 83, 72, 73, 74, 75, 76, 77, 86, 87, 84, 85, 89, 88, 92, 93, 90, 91,
        95, 94, 102, 103, 104, 105, 106, 107, 96, 97, 98, 99, 100, 101, 110, 111, 108, 109, 113,
        112, 116, 117, 114, 115, 119, 118,
    ],
    [
        54, 55, 56, 57, 58, 59, 48, 49, 50, 51, 52, 53, 62, 63, 60, 61, 65, 64, 68, 69, 66, 67, 71,
        70, 30, 31, 32, 33, 34, 35, 24, 25, 26, 27, 28, 29, 38, 39, 36, 37, 41, 40, 44, 45, 42, 43,
        47, 46, 6, 7, 8, 9, 10, 11, 0, 1, 2, 3, 4, 5, 14, 15, 12, 13, 17, 16, 20, 21, 18, 19, 23,
        22, 86, 87, 84, 85, 89, 88, 80, 81, 78, 79, 83, 82, 74, 75, 72, 73, 77, 76, 95, 94, 93, 92,
        91, 90, 110, 111, 108, 109, 113, 112, 104, 105, 102, 103, 107, 106, 98, 99, 96, 97, 101,
        100, 119, 118, 117, 116, 115, 114,
    ],
    [
        80, 81, 78, 79, 83, 82, 86, 87, 84, 85, 89, 88, 72, 73, 74, 75, 76, 77, 93, 92, 95, 94, 90,
        91, 38, 39, 36, 37, 41, 40, 32, 33, 30, 31, 35, 34, 26, 27, 24, 25, 29, 28, 47, 46, 45, 44,
        43, 42, 62, 63, 60, 61, 65, 64, 56, 57, 54, 55, 59, 58, 50, 51, 48, 49, 53, 52, 71, 70, 69,
        68, 67, 66, 12, 13, 14, 15, 16, 17, 2, 3, 0, 1, 5, 4, 8, 9, 6, 7, 11, 10, 22, 23, 19, 18,
        21, 20, 117, 116, 119, 118, 114, 115, 107, 106, 105, 104, 103, 102, 113, 112, 111, 110,
        109, 108, 100, 101, 97, 96, 99, 98,
    ],
    [
        105, 104, 107, 106, 102, 103, 111, 110, 113, 112, 108, 109, 117, 116, 119, 118, 114, 115,
        96, 97, 98, 99, 100, 101, 45, 44, 47, 46, 42, 43, 35, 34, 33, 32, 31, 30, 41, 40, 39, 38,
        37, 36, 28, 29, 25, 24, 27, 26, 69, 68, 71, 70, 66, 67, 59, 58, 57, 56, 55, 54, 65, 64, 63,
        62, 61, 60, 52, 53, 49, 48, 51, 50, 93, 92, 95, 94, 90, 91, 83, 82, 81, 80, 79, 78, 89, 88,
        87, 86, 85, 84, 76, 77, 73, 72, 75, 74, 18, 19, 20, 21, 22, 23, 4, 5, 1, 0, 3, 2, 10, 11,
        7, 6, 9, 8, 16, 17, 13, 12, 15, 14,
    ],
    [
        6, 7, 8, 9, 10, 11, 0, 1, 2, 3, 4, 5, 14, 15, 12, 13, 17, 16, 20, 21, 18, 19, 23, 22, 48,
        49, 50, 51, 52, 53, 54, 55, 56, 57, 58, 59, 60, 61, 62, 63, 64, 65, 66, 67, 68, 69, 70, 71,
        24, 25, 26, 27, 28, 29, 30, 31, 32, 33, 34, 35, 36, 37, 38, 39, 40, 41, 42, 43, 44, 45, 46,
        47, 74, 75, 72, 73, 77, 76, 84, 85, 86, 87, 88, 89, 78, 79, 80, 81, 82, 83, 91, 90, 94, 95,
        92, 93, 98, 99, 96, 97, 101, 100, 108, 109, 110, 111, 112, 113, 102, 103, 104, 105, 106,
        107, 115, 114, 118, 119, 116, 117,
    ],
    [
        14, 15, 12, 13, 17, 16, 8, 9, 6, 7, 11, 10, 2, 3, 0, 1, 5, 4, 23, 22, 21, 20, 19, 18, 74,
        75, 72, 73, 77, 76, 84, 85, 86, 87, 88, 89, 78, 79, 80, 81, 82, 83, 91, 90, 94, 95, 92, 93,
        50, 51, 48, 49, 53, 52, 60, 61, 62, 63, 64, 65, 54, 55, 56, 57, 58, 59, 67, 66, 70, 71, 68,
        69, 26, 27, 24, 25, 29, 28, 36, 37, 38, 39, 40, 41, 30, 31, 32, 33, 34, 35, 43, 42, 46, 47,
        44, 45, 101, 100, 99, 98, 97, 96, 115, 114, 118, 119, 116, 117, 109, 108, 112, 113, 110,
        111, 103, 102, 106, 107, 104, 105,
    ],
    [
        21, 20, 23, 22, 18, 19, 11, 10, 9, 8, 7, 6, 17, 16, 15, 14, 13, 12, 4, 5, 1, 0, 3, 2, 99,
        98, 101, 100, 96, 97, 109, 108, 112, 113, 110, 111, 115, 114, 118, 119, 116, 117, 102, 103,
        104, 105, 106, 107, 53, 52, 51, 50, 49, 48, 67, 66, 70, 71, 68, 69, 61, 60, 64, 65, 62, 63,
        55, 54, 58, 59, 56, 57, 77, 76, 75, 74, 73, 72, 91, 90, 94, 95, 92, 93, 85, 84, 88, 89, 86,
        87, 79, 78, 82, 83, 80, 81, 28, 29, 25, 24, 27, 26, 42, 43, 44, 45, 46, 47, 31, 30, 34, 35,
        32, 33, 37, 36, 40, 41, 38, 39,
    ],
    [
        2, 3, 0, 1, 5, 4, 12, 13, 14, 15, 16, 17, 6, 7, 8, 9, 10, 11, 19, 18, 22, 23, 20, 21, 26,
        27, 24, 25, 29, 28, 36, 37, 38, 39, 40, 41, 30, 31, 32, 33, 34, 35, 43, 42, 46, 47, 44, 45,
        72, 73, 74, 75, 76, 77, 78, 79, 80, 81, 82, 83, 84, 85, 86, 87, 88, 89, 90, 91, 92, 93, 94,
        95, 48, 49, 50, 51, 52, 53, 54, 55, 56, 57, 58, 59, 60, 61, 62, 63, 64, 65, 66, 67, 68, 69,
        70, 71, 97, 96, 100, 101, 98, 99, 103, 102, 106, 107, 104, 105, 114, 115, 116, 117, 118,
        119, 108, 109, 110, 111, 112, 113,
    ],
    [
        5, 4, 3, 2, 1, 0, 19, 18, 22, 23, 20, 21, 13, 12, 16, 17, 14, 15, 7, 6, 10, 11, 8, 9, 29,
        28, 27, 26, 25, 24, 43, 42, 46, 47, 44, 45, 37, 36, 40, 41, 38, 39, 31, 30, 34, 35, 32, 33,
        97, 96, 100, 101, 98, 99, 103, 102, 106, 107, 104, 105, 114, 115, 116, 117, 118, 119, 108,
        109, 110, 111, 112, 113, 73, 72, 76, 77, 74, 75, 79, 78, 82, 83, 80, 81, 90, 91, 92, 93,
        94, 95, 84, 85, 86, 87, 88, 89, 49, 48, 52, 53, 50, 51, 55, 54, 58, 59, 56, 57, 66, 67, 68,
        69, 70, 71, 60, 61, 62, 63, 64, 65,
    ],
    [
        1, 0, 4, 5, 2, 3, 7, 6, 10, 11, 8, 9, 18, 19, 20, 21, 22, 23, 12, 13, 14, 15, 16, 17, 25,
        24, 28, 29, 26, 27, 31, 30, 34, 35, 32, 33, 42, 43, 44, 45, 46, 47, 36, 37, 38, 39, 40, 41,
        49, 48, 52, 53, 50, 51, 55, 54, 58, 59, 56, 57, 66, 67, 68, 69, 70, 71, 60, 61, 62, 63, 64,
        65, 96, 97, 98, 99, 100, 101, 102, 103, 104, 105, 106, 107, 108, 109, 110, 111, 112, 113,
        114, 115, 116, 117, 118, 119, 72, 73, 74, 75, 76, 77, 78, 79, 80, 81, 82, 83, 84, 85, 86,
        87, 88, 89, 90, 91, 92, 93, 94, 95,
    ],
];

/// How many orders there are of few items.
static FACTORIALS: [u32; 6] = [1, 1, 2, 6, 24, 120];

/// How many rankings there are of so many alternatives.
pub fn ranking_count(alternatives: Alternatives) -> u32
    ensures { result ≡ factorial alternatives.number }
{
    FACTORIALS[alternatives.number as usize]
}

fn factorial_of(items: usize) -> u32
    requires { items < 5 }
    ensures { result ≡ factorial items }
{
    FACTORIALS[items]
}

fn lower(letters: &[u8], letter: u8) -> u32
    requires { length letters.now < 5 }
    ensures { result ≡ count_by (λ y. nat_lt y letter) letters.now }
{
    letters.iter().filter(|y| **y < letter).count() as u32
}

/// The number that a text of letters has among the orders of its letters: for each letter, how many later
/// ones are below it, as the digits of a number in the factorial base (an inversion table: Knuth, The Art of
/// Computer Programming, 5.1.1).
pub(crate) fn rank(text: &[u8]) -> u32
    requires { length text.now ≤ 5 }
    ensures value { result ≡ rank_of text.now }
    ensures small { result < factorial (length text.now) }
{
    let mut number = 0;
    let mut rest = text;
    while let Some((first, later)) = rest.split_first() {
        number += lower(later, *first) * factorial_of(later.len());
        rest = later;
    }
    number
}

/// For each ballot the ballot with x and y exchanged.
pub(crate) fn exchanged_ballots(alternatives: Alternatives, x: u32, y: u32) -> &'static [u8; 120]
    requires x { x < alternatives.number }
    requires y { y < alternatives.number }
    ensures { (b : ℕ) → b < factorial alternatives.number →
        (slice_index result.now b < factorial alternatives.number)
        × (slice_index result.now b ≡ ranking_number alternatives.number
        (map (exchanged x y) (ranking alternatives.number b))) }
{
    let left_out = 5 - alternatives.number as usize;
    let pair = PAIRS[left_out + x as usize][left_out + y as usize];
    &EXCHANGED[pair as usize]
}
