//! How far a sentence goes along with a text, by slips that are often made.

use sentence_fronts::{furthest, kind_text};
use std::alloc::Global;
use std::test::Fail;

/// A text, the place to which some sentence goes along with it, and what may stand there.
static SLIPS: [(&str, u64, &str); 43] = [
    (
        "",
        0,
        "`all`, `some`, `!`, `(`, a name, a voter as `#1`, an alternative as `@a`, a ballot as `<abc>`",
    ),
    ("forall p: profile. wins(@a, p)", 7, "`(`, `=`"),
    ("exists p: profile. wins(@a, p)", 7, "`(`, `=`"),
    ("for all p: profile. wins(@a, p)", 4, "`(`, `=`"),
    (
        "All p: profile. wins(@a, p)",
        0,
        "`all`, `some`, `!`, `(`, a name, a voter as `#1`, an alternative as `@a`, a ballot as `<abc>`",
    ),
    ("all x: alt. x != y", 14, "`(`, `=`"),
    (
        "all x: alt. x == y",
        15,
        "a name, a voter as `#1`, an alternative as `@a`, a ballot as `<abc>`",
    ),
    (
        "(wins(@a, p) && wins(@b, p))",
        14,
        "`all`, `some`, `!`, `(`, a name, a voter as `#1`, an alternative as `@a`, a ballot as `<abc>`",
    ),
    (
        "(wins(@a, p) || wins(@b, p))",
        14,
        "`all`, `some`, `!`, `(`, a name, a voter as `#1`, an alternative as `@a`, a ballot as `<abc>`",
    ),
    ("(wins(@a, p))", 12, "`=`, `&`, `|`, `->`, `<->`"),
    ("((wins(@a, p) & wins(@b, p)))", 28, "`&`, `|`, `->`, `<->`"),
    ("not wins(@a, p)", 4, "`(`, `=`"),
    (
        "(wins(@a, p) or wins(@b, p))",
        13,
        "`=`, `&`, `|`, `->`, `<->`",
    ),
    (
        "(wins(@a, p) and wins(@b, p))",
        13,
        "`=`, `&`, `|`, `->`, `<->`",
    ),
    ("if wins(@a, p) then wins(@b, p)", 3, "`(`, `=`"),
    ("all x, y: alt. x = y", 5, "`:`"),
    ("all x y: alt. x = y", 6, "`:`"),
    (
        "(wins(@a, p) & wins(@b, p) | wins(@c, p))",
        27,
        "`=`, `&`, `)`",
    ),
    (
        "(wins(@a, p) | wins(@b, p) & wins(@c, p))",
        27,
        "`=`, `|`, `)`",
    ),
    (
        "(wins(@a, p) -> wins(@b, p) -> wins(@c, p))",
        28,
        "`=`, `)`",
    ),
    (
        "(wins(@a, p) <-> wins(@b, p) & wins(@c, p))",
        29,
        "`=`, `)`",
    ),
    ("wins(@a, p) & wins(@b, p)", 12, "`=`, the end"),
    ("wins(@a, p) -> wins(@b, p)", 12, "`=`, the end"),
    (
        "all p: profiles. wins(@a, p)",
        7,
        "`voter`, `alt`, `ballot`, `profile`",
    ),
    ("all p. wins(@a, p)", 5, "`:`"),
    ("all p: profile wins(@a, p)", 15, "`.`"),
    ("all p: profile, wins(@a, p)", 14, "`.`"),
    ("all all: alt. x = y", 4, "a name"),
    ("all #1: voter. x = y", 4, "a name"),
    ("((z = y) | x = y)", 7, "`(`, `&`, `|`, `->`, `<->`"),
    ("all p: profile. exists x: alt. wins(x, p)", 23, "`(`, `=`"),
    ("all p: profile. wins(@a, p).", 27, "`=`, the end"),
    (
        "all p: profile. (wins(@a, p))",
        28,
        "`=`, `&`, `|`, `->`, `<->`",
    ),
    (
        "all p: profile. wins(@a, p) | wins(@b, p)",
        28,
        "`=`, the end",
    ),
    (
        "all p: profile. !(some x: alt. wins(x, p))",
        41,
        "`=`, `&`, `|`, `->`, `<->`",
    ),
    (
        "all p: profile. (f(@a, p) = f(@b, p))",
        36,
        "`&`, `|`, `->`, `<->`",
    ),
    ("wins(@a, ab|ba)", 11, "`(`, `,`, `)`"),
    ("wins(@a; p)", 7, "`,`, `)`"),
    (
        "wins()",
        5,
        "a name, a voter as `#1`, an alternative as `@a`, a ballot as `<abc>`",
    ),
    ("wins(@a, p", 10, "`(`, `,`, `)`"),
    ("(x = y", 6, "`(`, `&`, `|`, `->`, `<->`"),
    ("x = y = z", 6, "`(`, the end"),
    (" x\t= y(z) \n", 11, "the end"),
];

// The table is handed out as a slice, so that the proof of a test need not read it.
fn slips() -> &'static [(&'static str, u64, &'static str)] {
    &SLIPS
}

/// Whether that is the furthest place of the text, and what may stand there.
fn is_furthest(alloc: Global, text: &str, offset: u64, told: &str) -> Result<bool, Fail> {
    let place = furthest(alloc, text.as_bytes())?;
    let mut words = Vec::new(alloc);
    for kind in place.next.as_slice() {
        if !words.is_empty() {
            words.extend_from_slice(b", ")?;
        }
        words.extend_from_slice(kind_text(*kind))?;
    }
    Ok(place.offset == offset && words.as_slice() == told.as_bytes())
}

/// Whether each row is so.
fn are_right(alloc: Global) -> Result<bool, Fail> {
    for (text, offset, told) in slips() {
        if !is_furthest(alloc, text, *offset, told)? {
            return Ok(false);
        }
    }
    Ok(true)
}

#[test]
fn slips_have_places(rt: HostRuntime) -> Result<(), Fail> {
    let right = are_right(rt.alloc())?;
    assert!(rt; right);
    Ok(())
}
