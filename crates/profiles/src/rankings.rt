//! Rankings, by their places among all rankings of so many alternatives.

ghost use Rattle.std.specs.Prelude.{◌<◌, ◌≤◌};
ghost use Rattle.vocab.specs.Size.{factorial};

/// How many alternatives there are, from 1 to 5.
#[derive(Clone, Copy)]
pub struct Alternatives {
    pub number: u8,
    pub ghost some: { 1 ≤ number },
    pub ghost few: { number ≤ 5 },
}

/// A strict ranking of so many alternatives: its place among all of these in lexicographic order, from 0.
#[derive(Clone, Copy)]
pub struct Ranking {
    pub alternatives: Alternatives,
    pub place: u32,
    pub ghost listed: { place < factorial alternatives.number },
}
