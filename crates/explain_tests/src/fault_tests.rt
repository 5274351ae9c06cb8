//! The commands over devices that fail at a call, that move one byte at a time, that have little room, and that
//! never fail.

use crate::test_calls::{
    SYMMETRIC, SYMMETRIC_SHARP, SYMMETRIC_STORY, Told, UNANIMITY, UNANIMOUS, answered,
    answered_into, answered_over, shelf_of, with_files, words_of,
};
use edge::{CalmShelf, MemoryShelf, MemorySink, Open};
use explain_call::explain_calmly;
use std::alloc::Global;
use std::test::Fail;
use std::thread::Threads;

/// The bytes of a page, which a sink is given at once.
const PAGE: usize = 4_096;

/// Room for each text that is written here.
const ROOM: usize = 20_000;

/// Whether a command makes so many calls of the shelf, ends with status 5 and nothing written where one of
/// them fails, and comes to the undisturbed answer where a later one would.
fn stops_at_failed_reads<R: Threads + Sync>(
    rt: &R,
    alloc: Global,
    words: &[&str],
    first: &[u8],
    second: &[u8],
    calls: u32,
    whole: &Told,
) -> Result<bool, Fail> {
    let mut right = true;
    for call in 0..calls {
        let shelf = shelf_of(alloc, &[call], first, second)?;
        right = answered_over(rt, alloc, words, shelf, ROOM)?.is(5, b"") && right;
    }
    let shelf = shelf_of(alloc, &[calls], first, second)?;
    let told = answered_over(rt, alloc, words, shelf, ROOM)?;
    Ok(right && told.is(whole.status, whole.bytes.as_slice()))
}

/// Whether a command, where this call of the sink fails, ends with status 6 and writes the front of the
/// undisturbed text that the calls before it took, and comes to the undisturbed answer where it makes no such
/// call. A write takes a page, the last one the rest, and then comes the flush.
fn leaves_a_front<R: Threads + Sync>(
    rt: &R,
    alloc: Global,
    words: &[&str],
    first: &[u8],
    second: &[u8],
    call: u32,
    whole: &Told,
) -> Result<bool, Fail> {
    let text = whole.bytes.as_slice();
    let calls = call as usize;
    let front = text.len().min(calls.saturating_mul(PAGE));
    let wanted = if calls > text.len().div_ceil(PAGE) {
        whole.status
    } else {
        6
    };
    let shelf = shelf_of(alloc, &[], first, second)?;
    let out = MemorySink::new(alloc, ROOM, &[call])?;
    let told = answered_into(rt, alloc, words, shelf, out)?;
    Ok(told.is(wanted, &text[..front]))
}

/// Whether a command comes to the undisturbed answer where each read gives one byte, and each write takes
/// one.
fn moves_single_bytes<R: Threads + Sync>(
    rt: &R,
    alloc: Global,
    words: &[&str],
    first: &[u8],
    second: &[u8],
    whole: &Told,
) -> Result<bool, Fail> {
    let shelf = with_files(MemoryShelf::short(alloc, 1, &[])?, first, second)?;
    let out = MemorySink::short(alloc, ROOM, 1, &[])?;
    let told = answered_into(rt, alloc, words, shelf, out)?;
    Ok(told.is(whole.status, whole.bytes.as_slice()))
}

/// The status of a command over these files, on a shelf that never fails.
fn over_calm<R: Threads + Sync>(
    rt: &R,
    alloc: Global,
    words: &[&str],
    first: &[u8],
    second: &[u8],
) -> Result<u8, Fail> {
    let mut shelf = CalmShelf::new(alloc);
    shelf.hold("first", first)?;
    shelf.hold("second", second)?;
    let words = words_of(alloc, words)?;
    Ok(explain_calmly(rt, alloc, &words, &mut shelf, &Open))
}

/// Whether a command over these files makes so many calls of the shelf, and answers each fault of a device,
/// and what it does without one, as it should. Undisturbed it ends with this status, and its text has so many
/// bytes at least and at most three pages, so that the sink has at most four calls.
fn withstands<R: Threads + Sync>(
    rt: &R,
    alloc: Global,
    words: &[&str],
    first: &[u8],
    second: &[u8],
    status: u8,
    calls: u32,
    least: usize,
) -> Result<bool, Fail> {
    let whole = answered(rt, alloc, words, first, second, ROOM)?;
    let length = whole.bytes.len();
    let mut right = whole.status == status && least <= length && length <= 3 * PAGE;
    right = stops_at_failed_reads(rt, alloc, words, first, second, calls, &whole)? && right;
    for call in 0..5 {
        right = leaves_a_front(rt, alloc, words, first, second, call, &whole)? && right;
    }
    right = moves_single_bytes(rt, alloc, words, first, second, &whole)? && right;
    Ok(over_calm(rt, alloc, words, first, second)? == status && right)
}

/// Words, the files that they name, the status, how many calls of the shelf are made, and how many bytes the
/// text has at least: a page of a proof has more than a page of the sink. Each file that is read takes three
/// calls: a rewind, a read that gives its bytes, and one that finds the end.
static CALLS: [(&[&str], &str, &str, u8, u32, usize); 13] = [
    (
        &["story", "first", "second"],
        SYMMETRIC,
        SYMMETRIC_STORY,
        0,
        6,
        PAGE + 1,
    ),
    (
        &["story", "first", "second", "--workers", "2"],
        SYMMETRIC,
        SYMMETRIC_SHARP,
        0,
        6,
        PAGE + 1,
    ),
    (&["story", "first", "second"], UNANIMITY, UNANIMOUS, 0, 6, 1),
    // The page is of this report over this study alone.
    (&["story", "first", "second"], SYMMETRIC, UNANIMOUS, 1, 6, 1),
    // No study: the second file is not opened.
    (
        &["story", "first", "second"],
        "voters = 2",
        SYMMETRIC_STORY,
        3,
        3,
        1,
    ),
    (
        &["instance", "first", "unanimity", "3"],
        UNANIMITY,
        "",
        0,
        3,
        1,
    ),
    (
        &["instance", "first", "unanimity", "4"],
        UNANIMITY,
        "",
        3,
        3,
        1,
    ),
    (&["rules", "first"], UNANIMITY, "", 0, 3, 1),
    (&["rules", "first"], SYMMETRIC, "", 0, 3, 1),
    (&["cores", "first"], SYMMETRIC, "", 0, 3, 1),
    (&["study", "first"], SYMMETRIC, "", 0, 3, 1),
    // What helps stands behind the line of the refusal.
    (&["study", "first"], "voters = 2", "", 3, 3, 1),
    (&["story", "first"], SYMMETRIC, "", 2, 0, 1),
];

fn calls() -> &'static [(
    &'static [&'static str],
    &'static str,
    &'static str,
    u8,
    u32,
    usize,
)] {
    &CALLS
}

#[test]
fn commands_withstand_devices(rt: HostRuntime) -> Result<(), Fail> {
    for (words, first, second, status, calls, least) in calls() {
        let (first, second) = (first.as_bytes(), second.as_bytes());
        let right = withstands(
            &rt,
            rt.alloc(),
            words,
            first,
            second,
            *status,
            *calls,
            *least,
        )?;
        assert!(rt; right);
    }
    Ok(())
}

/// Words over the study of unanimity and its report, how much room the sink has, and what it takes before it is
/// full.
static ROOMS: [(&[&str], usize, &str); 4] = [
    (&["story", "first", "second"], 20, "<!doctype html>\n<htm"),
    (&["story", "first", "second"], 0, ""),
    (&["instance", "first", "unanimity", "3"], 6, "axiom "),
    (&["help"], 6, "usage:"),
];

fn rooms() -> &'static [(&'static [&'static str], usize, &'static str)] {
    &ROOMS
}

#[test]
fn texts_without_room_are_cut(rt: HostRuntime) -> Result<(), Fail> {
    let (first, second) = (UNANIMITY.as_bytes(), UNANIMOUS.as_bytes());
    for (words, room, front) in rooms() {
        let said = answered(&rt, rt.alloc(), words, first, second, *room)?;
        assert!(rt; said.is(6, front.as_bytes()));
    }
    Ok(())
}

/// Words of which one names a file that is not held.
static ABSENT: [&[&str]; 6] = [
    &["story", "first", "absent"],
    &["story", "absent", "second"],
    &["instance", "absent", "unanimity", "0"],
    &["rules", "absent"],
    &["cores", "absent"],
    &["study", "absent"],
];

fn absent() -> &'static [&'static [&'static str]] {
    &ABSENT
}

#[test]
fn files_that_are_not_held_are_failed_reads(rt: HostRuntime) -> Result<(), Fail> {
    let (first, second) = (UNANIMITY.as_bytes(), UNANIMOUS.as_bytes());
    for words in absent() {
        let told = answered(&rt, rt.alloc(), words, first, second, 1_000)?;
        assert!(rt; told.is(5, b""));
    }
    Ok(())
}
