//! What is known of an atom at the lanes, by the values of the other variables that it reads.

ghost use Rattle.std.specs.Prelude.{◌≡◌, ℕ, ◌<◌, ◌≤◌, ◌+◌, ◌-◌, ◌%◌, length, slice_index, slice_index_or, IsTrue};
ghost use Rattle.vocab.specs.Range.{product};
ghost use Rattle.vocab.specs.Size.{Extent};
ghost use Rattle.vocab.specs.Tree.{Tree};
ghost use Rattle.meaning.specs.Written.{write_out};
ghost use Rattle.lanes.specs.Lanes.{AreSameAt, IsTable, lane_values};
ghost use Rattle.lanes.specs.Marks.{IsTold};

use crate::marks::{Marks, nothing};
use crate::shapes::Shape;
use vocab::Env;

/// What is known at the lanes of a chunk, where the other variables have these values. The first lane has
/// this number within the group.
#[derive(Clone, Copy)]
pub(crate) struct Entry {
    pub(crate) values: Env,
    pub(crate) first: u64,
    pub(crate) marks: Marks,
}

/// The entries of an atom: by the values at some levels, each with its step, and then by the chunk. The atom does
/// not rest on so many of the first lanes' universals; the values of the others repeat with the period, so that
/// one entry serves for each chunk where a chunk has whole periods.
#[derive(Drop)]
pub(crate) struct Table {
    pub(crate) skip: u8,
    pub(crate) period: u64,
    pub(crate) levels: Vec<u8>,
    pub(crate) steps: Vec<u64>,
    pub(crate) chunk: u64,
    pub(crate) chunk_step: u64,
    pub(crate) entries: Vec<Entry>,
}

/// Whether two environments have the same values at some levels.
fn are_same_at(levels: &[u8], a: &Env, b: &Env) -> bool
    ensures { IsTrue result → AreSameAt levels.now a.now b.now }
{
    for k in 0..levels.len() {
        let level = levels[k];
        if level >= a.len() || level >= b.len() || a.get(level) != b.get(level) {
            return false;
        }
    }
    true
}

/// The place where an entry of a table stands, if it is there.
fn place_of(table: &Table, env: &Env, first: u64) -> u64 {
    let mut place = (first / table.chunk.max(1)).saturating_mul(table.chunk_step);
    for k in 0..table.levels.len() {
        let level = table.levels[k];
        if k < table.steps.len() && level < env.len() {
            let step = u64::from(env.get(level)).saturating_mul(table.steps[k]);
            place = place.saturating_add(step);
        }
    }
    place
}

/// Whether an entry that begins at a lane serves at another lane: whole periods lie between them.
fn serves(period: u64, own: u64, first: u64) -> bool
    ensures { IsTrue result → (own ≤ first) × (0 < period) × ((first - own) % period ≡ 0) }
{
    own <= first && period > 0 && (first - own) % period == 0
}

/// What a table tells of its atom at the lanes of a chunk.
pub(crate) fn table_marks(table: &Table, env: &Env, first: u64) -> Marks
    ensures { (size : Extent) (shape : Shape) (f : Tree) → IsTable size shape f table.now →
        shape.outer + length shape.bases ≤ length env.now →
        (k : ℕ) → first + k < product shape.bases →
        IsTold result k (write_out size f (lane_values shape first k env.now)) }
{
    let place = place_of(table, env, first);
    if place >= table.entries.len() as u64 {
        return nothing();
    }
    let entry = table.entries[place as usize];
    if serves(table.period, entry.first, first) && are_same_at(&table.levels, &entry.values, env) {
        entry.marks
    } else {
        nothing()
    }
}
