//! Texts of clauses and of derivations.

use clause_text::{
    CnfFault, DimacsText, LratFault, SizeText, laws, read_dimacs, read_lrat, write_dimacs,
    write_lrat,
};
use edge::MemorySink;
use std::alloc::Global;
use std::test::Fail;
use texts::write_text;
use vocab::{Kind, Size};

/// The most bytes of a text that is read here.
const MOST: usize = 200;

/// Reads clauses and writes them again.
fn clauses_again(alloc: Global, text: &str, out: &mut MemorySink) -> Result<(), CnfFault> {
    let bytes = text.as_bytes();
    if bytes.len() > MOST {
        return Err(CnfFault::NoMemory);
    }
    let read = read_dimacs(alloc, bytes)?;
    let _ = write_dimacs(b"x", &read.clauses, read.variables, out);
    Ok(())
}

/// Reads a derivation over two variables and writes it again.
fn lines_again(alloc: Global, text: &str, out: &mut MemorySink) -> Result<(), LratFault> {
    let bytes = text.as_bytes();
    if bytes.len() > MOST {
        return Err(LratFault::NoMemory);
    }
    let lines = read_lrat(alloc, bytes, 2)?;
    let _ = write_lrat(&lines, out);
    Ok(())
}

/// Whether this is why a text is no clauses.
fn are_no_clauses(alloc: Global, text: &str, fault: &CnfFault, out: &mut MemorySink) -> bool {
    match clauses_again(alloc, text, out) {
        Ok(()) => false,
        Err(found) => found == *fault,
    }
}

/// Whether this is why a text is no derivation.
fn are_no_lines(alloc: Global, text: &str, fault: &LratFault, out: &mut MemorySink) -> bool {
    match lines_again(alloc, text, out) {
        Ok(()) => false,
        Err(found) => found == *fault,
    }
}

/// Whether clauses are read, and are written again as this.
fn are_clauses_written(alloc: Global, text: &str, wanted: &str) -> Result<bool, Fail> {
    let mut out = MemorySink::new(alloc, MOST, &[])?;
    Ok(clauses_again(alloc, text, &mut out).is_ok() && out.bytes() == wanted.as_bytes())
}

/// Whether a derivation is read, and is written again as this.
fn are_lines_written(alloc: Global, text: &str, wanted: &str) -> Result<bool, Fail> {
    let mut out = MemorySink::new(alloc, MOST, &[])?;
    Ok(lines_again(alloc, text, &mut out).is_ok() && out.bytes() == wanted.as_bytes())
}

/// Two clauses, as they are written.
const TWO: &str = "c bench export 1\nc x\np cnf 2 2\n1 -2 0\n0\n";

/// Texts of clauses, and how each is written again.
static WRITTEN_CLAUSES: [(&str, &str); 5] = [
    (TWO, TWO),
    ("\t\r\n p\tcnf  2 2 \n1\ncomment 7 0\n -2 0 0", TWO),
    ("c\nc p cnf 9 9\np cnf 2 2\r\n1\t-2\r\n0 0\n\n", TWO),
    ("p cnf 0 0", "c bench export 1\nc x\np cnf 0 0\n"),
    (
        "p cnf 10000000 1\n-10000000 10000000 0",
        "c bench export 1\nc x\np cnf 10000000 1\n-10000000 10000000 0\n",
    ),
];

/// Texts that are no clauses.
static REFUSED_CLAUSES: [(&str, CnfFault); 28] = [
    ("", CnfFault::Header),
    ("c\n\n", CnfFault::Header),
    ("p cnf 10000001 1\n", CnfFault::Header),
    ("p cnf 1 4294967296\n", CnfFault::Header),
    ("p cnf 1\n", CnfFault::Header),
    ("p cnf 1\n1\n", CnfFault::Header),
    ("p cnf 1 1 1\n", CnfFault::Header),
    ("p cnf 01 1\n1 0\n", CnfFault::Header),
    ("p cnf +1 1\n1 0\n", CnfFault::Header),
    ("p cnf -1 1\n1 0\n", CnfFault::Header),
    (" c\np cnf 1 1\n", CnfFault::Header),
    ("p CNF 1 1\n1 0\n", CnfFault::Header),
    ("p cnf 1 1\n2 0\n", CnfFault::Literal(2)),
    ("p cnf 1 1\nc 1\n\n1 -0\n", CnfFault::Literal(4)),
    ("p cnf 1 1\n1 x 0\n", CnfFault::Literal(2)),
    ("p cnf 1 1\n+1 0\n", CnfFault::Literal(2)),
    ("p cnf 1 1\n01 0\n", CnfFault::Literal(2)),
    ("p cnf 1 1\n- 0\n", CnfFault::Literal(2)),
    ("p cnf 1 1\n--1 0\n", CnfFault::Literal(2)),
    ("p cnf 1 1\n18446744073709551617 0\n", CnfFault::Literal(2)),
    ("p cnf 1 1\n1 00\n", CnfFault::Literal(2)),
    ("p cnf 1 1\n1 0\n c 1\n", CnfFault::Literal(3)),
    ("p cnf 1 0\n1 0\n2\n", CnfFault::Literal(3)),
    ("p cnf 1 2\n1 0\n", CnfFault::Count(1)),
    ("p cnf 1 1\n1\n", CnfFault::Count(0)),
    ("p cnf 1 1\n1 0 1", CnfFault::Count(1)),
    ("p cnf 1 0\n0 0\n", CnfFault::Count(2)),
    ("p cnf 1 4294967295\n", CnfFault::Count(0)),
];

/// Texts of derivations over two variables, and how each is written again.
static WRITTEN_LINES: [(&str, &str); 5] = [
    ("3 1 0 1 2 0\n4 0 3 0\n", "3 1 0 1 2 0\n4 0 3 0\n"),
    (
        "c\n 3 1 -2 0\t0\r\n\n0 d 1 2 0\n7 d 0\n4 0 9223372036854775807 0",
        "3 1 -2 0 0\n4 0 9223372036854775807 0\n",
    ),
    ("9223372036854775807 0 1 0", "9223372036854775807 0 1 0\n"),
    ("9223372036854775807 d 1 1 0", ""),
    ("", ""),
];

/// Texts that are no derivation over two variables.
static REFUSED_LINES: [(&str, LratFault); 27] = [
    ("3\n", LratFault::Line(1)),
    ("x 1 0 0\n", LratFault::Line(1)),
    ("0 1 0 1 0\n", LratFault::Line(1)),
    ("-3 1 0 1 0\n", LratFault::Line(1)),
    ("3 3 0 1 0\n", LratFault::Line(1)),
    ("3 -0 0 1 0\n", LratFault::Line(1)),
    ("3 1 1 0\n", LratFault::Line(1)),
    ("3 1 0 1\n", LratFault::Line(1)),
    ("3 1 0 1 0 0\n", LratFault::Line(1)),
    ("3 1 0 0 0\n", LratFault::Line(1)),
    ("3 1 0 01 0\n", LratFault::Line(1)),
    ("3 1 0 +1 0\n", LratFault::Line(1)),
    ("3 1 0 9223372036854775808 0\n", LratFault::Line(1)),
    ("9223372036854775808 1 0 1 0\n", LratFault::Line(1)),
    ("9223372036854775808 d 1 0\n", LratFault::Line(1)),
    ("3 1 0 -1 0\n", LratFault::Rat(1)),
    ("\n3 1 0 2 -1 2 0\n", LratFault::Rat(2)),
    ("3 1 0 -1\n", LratFault::Line(1)),
    ("3 1 0 -1 0 1\n", LratFault::Line(1)),
    ("3 3 0 -1 0\n", LratFault::Line(1)),
    ("3 1 0 -0 0\n", LratFault::Line(1)),
    ("3 d 1\n", LratFault::Line(1)),
    ("3 d -1 0\n", LratFault::Line(1)),
    ("3 d 0 0\n", LratFault::Line(1)),
    ("3 d\n", LratFault::Line(1)),
    (
        "3 1 0 1 0\nc\n4 d 1 0\n5 2 0 -7 x 0\n6 0 -1 0",
        LratFault::Line(4),
    ),
    ("3 0 -1 0\n4 x\n", LratFault::Rat(1)),
];

// Each table is handed out as a slice, so that the proof of a test need not read it.
fn written_clauses() -> &'static [(&'static str, &'static str)] {
    &WRITTEN_CLAUSES
}

fn refused_clauses() -> &'static [(&'static str, CnfFault)] {
    &REFUSED_CLAUSES
}

fn written_lines() -> &'static [(&'static str, &'static str)] {
    &WRITTEN_LINES
}

fn refused_lines() -> &'static [(&'static str, LratFault)] {
    &REFUSED_LINES
}

#[test]
fn clauses_are_read_and_written(rt: HostRuntime) -> Result<(), Fail> {
    for (text, wanted) in written_clauses() {
        assert!(rt; are_clauses_written(rt.alloc(), text, wanted)?);
    }
    let mut out = MemorySink::new(rt.alloc(), MOST, &[])?;
    for (text, fault) in refused_clauses() {
        assert!(rt; are_no_clauses(rt.alloc(), text, fault, &mut out));
    }
    Ok(())
}

#[test]
fn derivations_are_read_and_written(rt: HostRuntime) -> Result<(), Fail> {
    for (text, wanted) in written_lines() {
        assert!(rt; are_lines_written(rt.alloc(), text, wanted)?);
    }
    let mut out = MemorySink::new(rt.alloc(), MOST, &[])?;
    for (text, fault) in refused_lines() {
        assert!(rt; are_no_lines(rt.alloc(), text, fault, &mut out));
    }
    Ok(())
}

/// Whether a sink with so much room has the front of a text, and whether all was taken.
fn is_front(out: &MemorySink, room: usize, text: &[u8], whole: bool) -> bool {
    text.starts_with(out.bytes())
        && out.bytes().len() == room.min(text.len())
        && whole == (room >= text.len())
}

#[test]
fn what_there_is_room_for_is_written(rt: HostRuntime) -> Result<(), Fail> {
    let read = read_dimacs(rt.alloc(), b"p cnf 2 1\n1 -2 0\n")
        .ok()
        .ok_or("clauses")?;
    let lines = b"3 1 0 1 2 0\n4 0 3 0\n";
    let derivation = read_lrat(rt.alloc(), lines, 2).ok().ok_or("lines")?;
    for room in 0..39 {
        let mut out = MemorySink::new(rt.alloc(), room, &[])?;
        let whole = write_dimacs(b"x", &read.clauses, 2, &mut out).is_ok();
        let clauses = b"c bench export 1\nc x\np cnf 2 1\n1 -2 0\n";
        let mut tape = MemorySink::new(rt.alloc(), room, &[])?;
        let told = write_lrat(&derivation, &mut tape).is_ok();
        assert!(rt; is_front(&out, room, clauses, whole) && is_front(&tape, room, lines, told));
    }
    Ok(())
}

#[test]
fn size_stands_in_the_second_comment(rt: HostRuntime) -> Result<(), Fail> {
    let read = read_dimacs(rt.alloc(), b"p cnf 2 1\n1 -2 0\n")
        .ok()
        .ok_or("clauses")?;
    let size = Size::check(Kind::Ranking, 2, 3).ok().ok_or("size")?;
    let text = DimacsText {
        head: SizeText(size),
        clauses: &read.clauses,
        variables: 2,
    };
    let mut out = MemorySink::new(rt.alloc(), 200, &[])?;
    let done = write_text(&text, &mut out).is_ok();
    let wanted: &[u8] =
        b"c bench export 1\nc kind ranking voters 2 alternatives 3\np cnf 2 1\n1 -2 0\n";
    assert!(rt; done && out.bytes() == wanted);
    Ok(())
}

#[test]
fn laws_are_calls_that_return() {
    laws::cnf_examples();
    laws::written_clauses_are_read();
    laws::written_lines_are_read();
    laws::lrat_examples();
}
