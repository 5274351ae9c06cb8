//! Places by name.

ghost use Rattle.std.specs.Prelude.{◌≡◌, ℕ, ◌+◌, List, [], ◌∷◌, OnOk};
ghost use Rattle.std.specs.List.{position_from};
ghost use Rattle.std.specs.Str.{bytes_eq};
ghost use Rattle.names.specs.Names.{FindsFirst};

use indexmap::IndexMap;
use lists::NoMemory;
use std::alloc::Global;

/// Places by name. Filled from the last of some names to the first, it finds the first of each name.
pub struct NameIndex {
    places: IndexMap<Vec<u8>, usize>,
}

/// Written out, so that letting go of an index is one call.
impl Drop for NameIndex {
    fn drop(self) {
        let NameIndex { places: _ } = self;
    }
}

impl NameIndex {
    /// No name has a place.
    pub fn new(alloc: Global) -> NameIndex
        ensures { (first : ℕ) → FindsFirst result first [] }
    {
        NameIndex {
            places: IndexMap::new(alloc),
        }
    }

    /// Gives a name this place, also where it had another one. Names come from the last to the first.
    pub fn put(&mut self, alloc: Global, name: &[u8], place: usize) -> Result<(), NoMemory>
        ensures { OnOk result ((names : List (List ℕ)) → FindsFirst self.old (place + 1) names →
            FindsFirst self.new place (name.now ∷ names)) }
    {
        let key = Vec::from_slice(alloc, name)?;
        self.places.insert(key, place)?;
        Ok(())
    }

    /// The place of a name.
    pub fn place_of(&self, name: &[u8]) -> Option<usize>
        ensures { (first : ℕ) (names : List (List ℕ)) → FindsFirst self.now first names →
            result ≡ position_from (λ n. bytes_eq n name.now) first names }
    {
        self.places.get(name).copied()
    }
}
