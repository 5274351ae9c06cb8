//! Each call of the library once, and the edges of its tables.

ghost use Rattle.std.specs.Prelude.{◌≤◌};

use crate::fixtures::name_of;
use axiom_library::{find, name_at, text_at, text_under};
use lists::NoMemory;
use std::alloc::Global;
use std::test::Fail;
use vocab::{Kind, Name};

/// Names, and whether the libraries of choices, of rankings and of sets have them.
static NAMES: [(&[u8], [bool; 3]); 6] = [
    (b"maskin", [true, false, false]),
    (b"independence", [false, true, false]),
    (b"neutrality", [true, true, true]),
    (b"participation", [true, false, false]),
    (b"resolute", [false, false, true]),
    (b"neutral", [false, false, false]),
];

// The table is handed out as a slice, so that the proof of a test need not read it.
fn names() -> &'static [(&'static [u8], [bool; 3])] {
    &NAMES
}

/// Whether the library of a kind ends at a place.
fn ends_at(kind: Kind, count: u32) -> bool
    requires some { 1 ≤ count }
{
    name_at(kind, count - 1).is_some()
        && name_at(kind, count).is_none()
        && text_at(kind, count).is_none()
}

#[test]
fn libraries_have_their_lengths(rt: HostRuntime) {
    let found = [
        ends_at(Kind::Choice, 10),
        ends_at(Kind::Ranking, 5),
        ends_at(Kind::Sets, 6),
    ];
    assert!(rt; found == [true; 3]);
}

/// Whether the library of a kind has the name.
fn is_there(alloc: Global, name: &Name, kind: Kind) -> Result<bool, NoMemory> {
    Ok(find(alloc, name, kind)?.is_some())
}

/// Whether these libraries, and no others, have the name.
fn is_found(alloc: Global, bytes: &[u8], libraries: [bool; 3]) -> Result<bool, Fail> {
    let name = name_of(bytes)?;
    let found = [
        is_there(alloc, &name, Kind::Choice)?,
        is_there(alloc, &name, Kind::Ranking)?,
        is_there(alloc, &name, Kind::Sets)?,
    ];
    Ok(found == libraries && text_under(Kind::Sets, bytes).is_some() == libraries[2])
}

#[test]
fn axioms_are_found_by_kind(rt: HostRuntime) -> Result<(), Fail> {
    for (name, libraries) in names() {
        assert!(rt; is_found(rt.alloc(), name, *libraries)?);
    }
    Ok(())
}
