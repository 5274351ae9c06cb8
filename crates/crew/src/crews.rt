//! Who works on pieces.

ghost use Rattle.std.specs.Prelude.{◌≤◌};

/// So many workers, from 1 to 16, the runtime that starts them, and the gate that is told of each piece.
#[derive(Drop)]
pub struct Crew<'a, R, G> {
    pub rt: &'a R,
    pub gate: &'a G,
    pub workers: u8,
    pub ghost some: { 1 ≤ workers },
    pub ghost few: { workers ≤ 16 },
}
