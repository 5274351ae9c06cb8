//! Entries by their names.

ghost use Rattle.std.specs.Prelude.{◌≡◌, ◌<◌, length, map, take, option_map, IfOk, IfSome};
ghost use Rattle.std.specs.List.{list_any, position_from};
ghost use Rattle.std.specs.Str.{bytes_eq};
ghost use Rattle.axiom_library.specs.Library.{text_among};
ghost use Rattle.names.specs.Names.{FindsFirst};

use crate::entries::Entry;
use lists::NoMemory;
use names::NameIndex;
use std::alloc::Global;

/// Entries, each found by its name without going over the others. Of two under one name the first is found.
pub(crate) struct ByName<'a> {
    pub(crate) entries: &'a [Entry],
    pub(crate) index: NameIndex,
    ghost first: { FindsFirst index 0 (map (λ e. e.name) entries.now) },
}

/// Written out, so that letting go of them is one call.
impl Drop for ByName<'_> {
    fn drop(self) {
        let ByName {
            entries: _,
            index: _,
        } = self;
    }
}

/// The place of the first entry under each name.
fn index_of(alloc: Global, entries: &[Entry]) -> Result<NameIndex, NoMemory>
    ensures { IfOk result (λ index. FindsFirst index 0 (map (λ e. e.name) entries.now)) }
{
    let mut index = NameIndex::new(alloc);
    for place in (0..entries.len()).rev() {
        let name = entries[place].name();
        index.put(alloc, name.bytes(), place)?;
    }
    Ok(index)
}

impl<'a> ByName<'a> {
    /// The entries of a list.
    pub(crate) fn new(alloc: Global, entries: &'a [Entry]) -> Result<ByName<'a>, NoMemory>
        ensures { IfOk result (λ by_name. by_name.entries.now ≡ entries.now) }
    {
        let index = index_of(alloc, entries)?;
        Ok(ByName { entries, index })
    }

    /// The place of the first entry under a name.
    fn place_of(&self, name: &[u8]) -> Option<usize>
        ensures place { result ≡ position_from (λ e. bytes_eq e.name name.now) 0 self.now.entries.now }
        ensures within { IfSome result (λ place. place < length self.now.entries.now) }
    {
        self.index.place_of(name)
    }

    /// The first entry under a name.
    pub(crate) fn under(&self, name: &[u8]) -> Option<&'a Entry>
        ensures text { option_map (λ e. e.now.text) result ≡ text_among self.now.entries.now name.now }
        ensures name { IfSome result (λ e. e.now.name ≡ name.now) }
    {
        let place = self.place_of(name)?;
        Some(&self.entries[place])
    }

    /// Whether an entry before a place has a name.
    pub(crate) fn stands_before(&self, place: usize, name: &[u8]) -> bool
        ensures { result ≡ list_any (λ e. bytes_eq e.name name.now) (take place self.now.entries.now) }
    {
        match self.place_of(name) {
            Some(first) => first < place,
            None => false,
        }
    }
}
