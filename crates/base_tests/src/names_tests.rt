//! What an index answers over a few names.

use names::NameIndex;
use std::test::Fail;

static NAMES: [&[u8]; 4] = [b"pareto", b"onto", b"pareto", b""];

#[test]
fn names_are_found_at_their_first_places(rt: HostRuntime) -> Result<(), Fail> {
    let alloc = rt.alloc();
    let mut index = NameIndex::new(alloc);
    for place in (0..NAMES.len()).rev() {
        index.put(alloc, NAMES[place], place)?;
    }
    let found = index.place_of(b"pareto") == Some(0)
        && index.place_of(b"onto") == Some(1)
        && index.place_of(b"") == Some(3)
        && index.place_of(b"on").is_none()
        && index.place_of(b"Onto").is_none();
    assert!(rt; found);
    Ok(())
}
