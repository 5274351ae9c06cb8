//! The commands over devices that fail at a call, that move one byte at a time, that have little room, and that
//! never fail.

use crate::test_calls::{
    ARROW, SYMMETRIC, SYMMETRIC_SHARP, SYMMETRIC_STORY, Told, UNANIMITY, answered, answered_into,
    answered_over, counts, shelf_of, with_files, words_of,
};
use edge::{CalmShelf, MemoryShelf, MemorySink, Open};
use std::alloc::Global;
use std::test::Fail;
use std::thread::Threads;
use top_call::bench_calmly;

/// The bytes of a page, which a sink is given at once.
const PAGE: usize = 4_096;

/// Room for each text that is written here.
const ROOM: usize = 100_000;

/// Whether a command makes so many calls of the shelf, ends with status 5 and nothing written where one of
/// them fails, and comes to the undisturbed answer where a later one would.
fn stops_at_failed_reads<R: Threads + Sync>(
    rt: &R,
    alloc: Global,
    words: &[&str],
    first: &[u8],
    second: &[u8],
    calls: u32,
    whole: &Told,
) -> Result<bool, Fail> {
    let mut right = true;
    for call in 0..calls {
        let shelf = shelf_of(alloc, &[call], first, second)?;
        right = answered_over(rt, alloc, &Open, words, shelf, ROOM)?.is(5, b"") && right;
    }
    let shelf = shelf_of(alloc, &[calls], first, second)?;
    let told = answered_over(rt, alloc, &Open, words, shelf, ROOM)?;
    Ok(right && told.is(whole.status, whole.bytes.as_slice()))
}

/// Whether a command, where this call of the sink fails, ends with status 6 and writes the front of the
/// undisturbed text that the calls before it took, and comes to the undisturbed answer where it makes no such
/// call. A write takes a page, the last one the rest, and then comes the flush.
fn leaves_a_front<R: Threads + Sync>(
    rt: &R,
    alloc: Global,
    words: &[&str],
    first: &[u8],
    second: &[u8],
    call: u32,
    whole: &Told,
) -> Result<bool, Fail> {
    let text = whole.bytes.as_slice();
    let calls = call as usize;
    let front = text.len().min(calls.saturating_mul(PAGE));
    let wanted = if calls > text.len().div_ceil(PAGE) {
        whole.status
    } else {
        6
    };
    let shelf = shelf_of(alloc, &[], first, second)?;
    let out = MemorySink::new(alloc, ROOM, &[call])?;
    let told = answered_into(rt, alloc, &Open, words, shelf, out)?;
    Ok(told.is(wanted, &text[..front]))
}

/// Whether a command comes to the undisturbed answer where each read gives one byte, and each write takes
/// one.
fn moves_single_bytes<R: Threads + Sync>(
    rt: &R,
    alloc: Global,
    words: &[&str],
    first: &[u8],
    second: &[u8],
    whole: &Told,
) -> Result<bool, Fail> {
    let shelf = with_files(MemoryShelf::short(alloc, 1, &[])?, first, second)?;
    let out = MemorySink::short(alloc, ROOM, 1, &[])?;
    let told = answered_into(rt, alloc, &Open, words, shelf, out)?;
    Ok(told.is(whole.status, whole.bytes.as_slice()))
}

/// The status of a command over a shelf that never fails.
fn calm_status<R: Threads + Sync>(
    rt: &R,
    alloc: Global,
    words: &[&str],
    shelf: &mut CalmShelf,
) -> Result<u8, Fail> {
    let words = words_of(alloc, words)?;
    let (status, _) = counts(bench_calmly(rt, alloc, &words, shelf, &Open));
    Ok(status)
}

/// The status of a command over these files, on a shelf that never fails.
fn over_calm<R: Threads + Sync>(
    rt: &R,
    alloc: Global,
    words: &[&str],
    first: &[u8],
    second: &[u8],
) -> Result<u8, Fail> {
    let mut shelf = CalmShelf::new(alloc);
    shelf.hold("first", first)?;
    shelf.hold("second", second)?;
    calm_status(rt, alloc, words, &mut shelf)
}

/// Whether a command over these files makes so many calls of the shelf, and answers each fault of a device,
/// and what it does without one, as it should. Undisturbed it ends with this status, and its text has so many
/// bytes at least and at most three pages, so that the sink has at most four calls.
fn withstands<R: Threads + Sync>(
    rt: &R,
    alloc: Global,
    words: &[&str],
    first: &[u8],
    second: &[u8],
    status: u8,
    calls: u32,
    least: usize,
) -> Result<bool, Fail> {
    let whole = answered(rt, alloc, &Open, words, first, second, ROOM)?;
    let length = whole.bytes.len();
    let mut right = whole.status == status && least <= length && length <= 3 * PAGE;
    right = stops_at_failed_reads(rt, alloc, words, first, second, calls, &whole)? && right;
    for call in 0..5 {
        right = leaves_a_front(rt, alloc, words, first, second, call, &whole)? && right;
    }
    right = moves_single_bytes(rt, alloc, words, first, second, &whole)? && right;
    Ok(over_calm(rt, alloc, words, first, second)? == status && right)
}

/// Two variables that can be neither equal nor different.
const SQUARE: &str = "p cnf 2 4\n1 2 0\n-1 2 0\n1 -2 0\n-1 -2 0\n";

/// Rules that give sets, of two voters and two alternatives, and one of which both voters want the contrary.
const TIED: &str =
    "kind = \"sets\"\nvoters = 2\nalternatives = 2\naxioms = [\"anonymity\", \"neutrality\"]\n";

const CONTRARY: &str =
    "bench report 1\nkind sets\nvoters 2\nalternatives 2\naxioms anonymity neutrality\nverdict possible\nrule 4\nab|ab b\nab|ba ab\nba|ab ab\nba|ba a\nend\n";

/// Words, the files that they name, the status, how many calls of the shelf are made, and how many bytes the
/// text has at least. Each file that is read takes three calls: a rewind, a read that gives its bytes, and one
/// that finds the end; an empty one takes two.
static CALLS: [(&[&str], &str, &str, u8, u32, usize); 18] = [
    (
        &["check", "first", "second"],
        SYMMETRIC,
        SYMMETRIC_STORY,
        0,
        6,
        1,
    ),
    (
        &["check", "first", "second"],
        SYMMETRIC,
        SYMMETRIC_SHARP,
        0,
        6,
        1,
    ),
    (&["decide", "first"], SYMMETRIC, "", 0, 3, 1),
    (&["sharpen", "first"], SYMMETRIC, "", 0, 3, 1),
    (&["sharpen", "first"], UNANIMITY, "", 0, 3, 1),
    (&["decide", "first"], UNANIMITY, "", 0, 3, 1),
    (&["export", "first"], UNANIMITY, "", 0, 3, 1),
    (&["proof", "first"], SYMMETRIC, "", 0, 3, 1),
    (
        &["lrat", "first", "second"],
        SQUARE,
        "5 2 0 1 2 0\n6 0 5 3 4 0\n",
        0,
        6,
        1,
    ),
    (
        &["adopt", "first", "second"],
        SYMMETRIC,
        "21 -3 0 9 17 6 0\n22 0 21 3 11 19 6 0\n",
        0,
        6,
        1,
    ),
    (&["proof", "first"], ARROW, "", 0, 3, 1),
    // The clauses of Arrow's axioms have more than two pages.
    (&["export", "first"], ARROW, "", 0, 3, 2 * PAGE + 1),
    (&["sample", "0"], "", "", 0, 0, 1),
    (&["axioms", "choice"], "", "", 0, 0, 1),
    // No study, or one of another kind: the second file is not opened.
    (
        &["check", "first", "second"],
        "voters = 2",
        SYMMETRIC_STORY,
        3,
        3,
        1,
    ),
    (&["adopt", "first", "second"], "", "", 3, 2, 1),
    (&["gain", "first", "second"], TIED, CONTRARY, 0, 6, 1),
    (&["gain", "first", "second"], UNANIMITY, CONTRARY, 3, 3, 1),
];

fn calls() -> &'static [(
    &'static [&'static str],
    &'static str,
    &'static str,
    u8,
    u32,
    usize,
)] {
    &CALLS
}

#[test]
fn commands_withstand_devices(rt: HostRuntime) -> Result<(), Fail> {
    for (words, first, second, status, calls, least) in calls() {
        let (first, second) = (first.as_bytes(), second.as_bytes());
        let right = withstands(
            &rt,
            rt.alloc(),
            words,
            first,
            second,
            *status,
            *calls,
            *least,
        )?;
        assert!(rt; right);
    }
    Ok(())
}

/// Words over the study of unanimity, how much room the sink has, and what it takes before it is full.
static ROOMS: [(&[&str], usize, &str); 5] = [
    (&["decide", "first"], 20, "bench report 1\nkind "),
    (&["export", "first"], 0, ""),
    (
        &["export", "first", "--workers=2"],
        17,
        "c bench export 1\n",
    ),
    (
        &["export", "first", "--workers=16"],
        67,
        "c bench export 1\nc kind choice voters 1 alternatives 2\np cnf 4 6\n1 ",
    ),
    (&["help"], 6, "usage:"),
];

fn rooms() -> &'static [(&'static [&'static str], usize, &'static str)] {
    &ROOMS
}

#[test]
fn texts_without_room_are_cut(rt: HostRuntime) -> Result<(), Fail> {
    let study = UNANIMITY.as_bytes();
    for (words, room, front) in rooms() {
        let said = answered(&rt, rt.alloc(), &Open, words, study, b"", *room)?;
        assert!(rt; said.is(6, front.as_bytes()));
    }
    Ok(())
}

/// Of the report no more is read than its first faulty line. By single bytes the study takes a rewind and a
/// read for each byte and for its end, and the line of the report a rewind and two reads: the next fails.
#[test]
fn reports_are_read_to_their_first_faulty_line(rt: HostRuntime) -> Result<(), Fail> {
    let alloc = rt.alloc();
    let calls = UNANIMITY.len() as u32 + 5;
    let shelf = MemoryShelf::short(alloc, 1, &[calls])?;
    let shelf = with_files(shelf, UNANIMITY.as_bytes(), b"x\nab a\n")?;
    let words = ["check", "first", "second"];
    let said = answered_over(&rt, alloc, &Open, &words, shelf, 1_000)?;
    assert!(rt; said.is(1, b"refused line 1: form\n"));
    Ok(())
}

/// Words of which one names a file that is not held.
static ABSENT: [&[&str]; 9] = [
    &["check", "first", "absent"],
    &["check", "absent", "second"],
    &["decide", "absent"],
    &["export", "absent"],
    &["proof", "absent"],
    &["lrat", "absent", "second"],
    &["adopt", "absent", "second"],
    &["gain", "absent", "second"],
    &["sharpen", "absent"],
];

fn absent() -> &'static [&'static [&'static str]] {
    &ABSENT
}

#[test]
fn files_that_are_not_held_are_failed_reads(rt: HostRuntime) -> Result<(), Fail> {
    let study = UNANIMITY.as_bytes();
    for words in absent() {
        let told = answered(&rt, rt.alloc(), &Open, words, study, study, 1_000)?;
        assert!(rt; told.is(5, b""));
    }
    // A shelf that never fails holds each name, and a file that nobody gave it is empty.
    let words = ["check", "first", "second"];
    let mut shelf = CalmShelf::new(rt.alloc());
    assert!(rt; calm_status(&rt, rt.alloc(), &words, &mut shelf)? == 3);
    Ok(())
}
