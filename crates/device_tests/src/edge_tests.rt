//! The devices by example, and what no clause says: that calls succeed with ample memory.

ghost use Rattle.std.specs.Prelude.{◌≤◌};

use edge::{
    Bytes, CalmShelf, CalmSink, Failed, FileShelf, Gate, MemoryShelf, MemorySink, Open, ReadFault,
    RewindFault, Shelf, Sink, StdSink, put_all, read_all,
};
use std::alloc::Global;
use std::fs;
use std::test::Fail;

const REPORT: &[u8] = b"bench report 1\nkind choice\n";

const STUDY: &[u8] = b"kind = 1\n";

/// A name, a limit, the calls that fail, and what is read: the limit on both sides, a rewind and a read that
/// fail, and a name that is not held.
static READ: [(&str, u32, &[u32], Result<&[u8], ReadFault>); 9] = [
    ("study", 9, &[], Ok(STUDY)),
    ("study", 4_294_967_295, &[], Ok(STUDY)),
    ("study", 8, &[], Err(ReadFault::TooLong)),
    ("study", 0, &[], Err(ReadFault::TooLong)),
    ("study", 9, &[0], Err(ReadFault::Failed)),
    ("study", 9, &[1], Err(ReadFault::Failed)),
    ("study", 9, &[3, 4], Ok(STUDY)),
    ("report", 27, &[], Ok(REPORT)),
    ("absent", 9, &[], Err(ReadFault::Failed)),
];

/// The room of a sink, the calls that fail, the answer, and what of the report is taken: ample room, exactly
/// enough, too little, a write and a flush that fail, and a number that no call has.
static TAKEN: [(usize, &[u32], Result<(), Failed>, &[u8]); 7] = [
    (100, &[], Ok(()), REPORT),
    (27, &[], Ok(()), REPORT),
    (20, &[], Err(Failed), b"bench report 1\nkind "),
    (0, &[], Err(Failed), b""),
    (100, &[0], Err(Failed), b""),
    (100, &[1], Err(Failed), REPORT),
    (100, &[2, 3], Ok(()), REPORT),
];

/// How many bytes a read gives at most, the calls that fail, and the fault. Of 7 at a time call 0 is the rewind, 1
/// to 4 give bytes and 5 finds the end.
static READ_SHORT: [(u32, &[u32], Option<ReadFault>); 11] = [
    (1, &[], None),
    (7, &[], None),
    (27, &[], None),
    (4_294_967_295, &[], None),
    (7, &[6], None),
    (7, &[0], Some(ReadFault::Failed)),
    (7, &[1], Some(ReadFault::Failed)),
    (7, &[2], Some(ReadFault::Failed)),
    (7, &[3], Some(ReadFault::Failed)),
    (7, &[4], Some(ReadFault::Failed)),
    (7, &[5], Some(ReadFault::Failed)),
];

/// How many bytes a write takes at most, the calls that fail, and how many bytes of the report are taken. Of 7 at
/// a time the calls 0 to 3 are writes, and 4 is the flush.
static WRITTEN_SHORT: [(u32, &[u32], usize); 9] = [
    (1, &[], 27),
    (7, &[], 27),
    (27, &[], 27),
    (4_294_967_295, &[], 27),
    (7, &[0], 0),
    (7, &[1], 7),
    (7, &[2], 14),
    (7, &[3], 21),
    (7, &[4], 27),
];

/// A name and a limit, and why the system's files are not read: too long, an absent file, a folder.
static REFUSED: [(&str, u32, ReadFault); 3] = [
    ("held", 8, ReadFault::TooLong),
    ("absent", 9, ReadFault::Failed),
    (".", 9, ReadFault::Failed),
];

// Each table is handed out as a slice, so that the proof of a test need not read it.
fn read() -> &'static [(
    &'static str,
    u32,
    &'static [u32],
    Result<&'static [u8], ReadFault>,
)] {
    &READ
}

fn taken() -> &'static [(usize, &'static [u32], Result<(), Failed>, &'static [u8])] {
    &TAKEN
}

fn read_short() -> &'static [(u32, &'static [u32], Option<ReadFault>)] {
    &READ_SHORT
}

fn written_short() -> &'static [(u32, &'static [u32], usize)] {
    &WRITTEN_SHORT
}

fn refused() -> &'static [(&'static str, u32, ReadFault)] {
    &REFUSED
}

// A shelf in memory with two files, one of them held twice.
fn two_files(alloc: Global, failing: &[u32]) -> Result<MemoryShelf, Fail> {
    let mut shelf = MemoryShelf::new(alloc, failing)?;
    shelf.hold("report", REPORT)?;
    shelf.hold("study", b"an older text, which is longer")?;
    shelf.hold("study", STUDY)?;
    Ok(shelf)
}

// Rewinds and reads once, by whatever shelf.
fn first_byte<S: Shelf>(shelf: &mut S, name: &str) -> Result<Option<u8>, RewindFault> {
    shelf.rewind(name)?;
    let mut byte = [0];
    let count = shelf.read(name, &mut byte)?;
    Ok(if count == 0 { None } else { Some(byte[0]) })
}

// Writes the piece and flushes, by whatever sink.
fn put_and_flush<K: Sink>(out: &mut K, piece: &[u8]) -> Result<(), Failed> {
    put_all(out, piece)?;
    out.flush()
}

// Passes a gate, whichever it is.
fn pass<G: Gate>(gate: &G) {
    gate.enter(0);
}

// Whether this is what `read_all` gives of a file.
fn gives<S: Shelf>(
    alloc: Global,
    shelf: &mut S,
    name: &str,
    limit: u32,
    wanted: Result<&[u8], ReadFault>,
) -> bool {
    match read_all(alloc, shelf, name, limit) {
        Ok(found) => wanted == Ok(found.as_slice()),
        Err(fault) => wanted == Err(fault),
    }
}

#[test]
fn files_in_memory_are_read(rt: HostRuntime) -> Result<(), Fail> {
    let alloc = rt.alloc();
    for (name, limit, failing, wanted) in read() {
        let mut shelf = two_files(alloc, failing)?;
        assert!(rt; gives(alloc, &mut shelf, name, *limit, *wanted));
    }
    let mut shelf = two_files(alloc, &[2])?;
    let found = [
        first_byte(&mut shelf, "report"),
        first_byte(&mut shelf, "report"),
        first_byte(&mut shelf, "absent"),
        first_byte(&mut shelf, "study"),
    ];
    let failed = Err(RewindFault::Failed);
    assert!(rt; found == [Ok(Some(b'b')), failed, failed, Ok(Some(b'k'))]);
    Ok(())
}

#[test]
fn sink_in_memory_takes_what_fits(rt: HostRuntime) -> Result<(), Fail> {
    for (room, failing, wanted, bytes) in taken() {
        let mut out = MemorySink::new(rt.alloc(), *room, failing)?;
        assert!(rt; put_and_flush(&mut out, REPORT) == *wanted && out.bytes() == *bytes);
    }
    Ok(())
}

// Whether `read_all` gives the whole report from a shelf of which each read gives at most `most` bytes, or the
// fault where one is wanted.
fn is_read_in_pieces(
    alloc: Global,
    most: u32,
    failing: &[u32],
    wanted: Option<ReadFault>,
) -> Result<bool, Fail>
    requires most { 1 ≤ most }
{
    let mut shelf = MemoryShelf::short(alloc, most, failing)?;
    shelf.hold("report", REPORT)?;
    let whole = match wanted {
        Some(fault) => Err(fault),
        None => Ok(REPORT),
    };
    Ok(gives(alloc, &mut shelf, "report", 27, whole))
}

// Whether a sink of which each write takes at most `most` bytes takes so many of the report, and answers with a
// fault exactly where a call fails.
fn is_written_in_pieces(
    alloc: Global,
    most: u32,
    failing: &[u32],
    wanted: usize,
) -> Result<bool, Fail>
    requires most { 1 ≤ most }
{
    let mut out = MemorySink::short(alloc, 27, most, failing)?;
    let written = put_and_flush(&mut out, REPORT);
    Ok(
        written.is_ok() == failing.is_empty()
            && out.bytes().len() == wanted
            && REPORT.starts_with(out.bytes()),
    )
}

#[test]
fn short_devices_move_the_whole(rt: HostRuntime) -> Result<(), Fail> {
    let alloc = rt.alloc();
    for (most, failing, fault) in read_short() {
        assert!(rt; 1 <= *most);
        assert!(rt; is_read_in_pieces(alloc, *most, failing, *fault)?);
    }
    for (most, failing, count) in written_short() {
        assert!(rt; 1 <= *most);
        assert!(rt; is_written_in_pieces(alloc, *most, failing, *count)?);
    }
    Ok(())
}

#[test]
fn calm_devices_never_fail(rt: HostRuntime) -> Result<(), Fail> {
    let alloc = rt.alloc();
    let mut shelf = CalmShelf::new(alloc);
    assert!(rt; first_byte(&mut shelf, "study") == Ok(None));
    shelf.hold("study", STUDY)?;
    assert!(rt; first_byte(&mut shelf, "study") == Ok(Some(b'k')));
    assert!(rt; gives(alloc, &mut shelf, "study", 9, Ok(STUDY)));
    assert!(rt; gives(alloc, &mut shelf, "absent", 9, Ok(b"")));
    assert!(rt; put_and_flush(&mut CalmSink::new(), REPORT) == Ok(()));
    pass(&Open);
    Ok(())
}

#[test]
fn files_of_the_system_are_read(rt: HostRuntime) -> Result<(), Fail> {
    let alloc = rt.alloc();
    fs::write(&rt, "held", "kind = 1\n")?;
    let mut shelf = FileShelf::new(&rt, alloc);
    let mut byte = [0];
    assert!(rt; shelf.read("held", &mut byte) == Err(Failed));
    assert!(rt; gives(alloc, &mut shelf, "held", 9, Ok(STUDY)));
    // What is open is read by its own name alone.
    assert!(rt; shelf.rewind("held") == Ok(()));
    assert!(rt; shelf.read("other", &mut byte) == Err(Failed));
    assert!(rt; shelf.read("held", &mut byte) == Ok(1));
    for (name, limit, fault) in refused() {
        assert!(rt; gives(alloc, &mut shelf, name, *limit, Err(*fault)));
    }
    assert!(rt; shelf.rewind("absent") == Err(RewindFault::Failed));
    // And after them the file again.
    assert!(rt; shelf.read("held", &mut byte) == Err(Failed));
    assert!(rt; first_byte(&mut shelf, "held") == Ok(Some(b'k')));
    fs::remove_file(&rt, "held")?;
    Ok(())
}

#[test]
fn standard_output_takes_bytes(rt: HostRuntime) {
    assert!(rt; put_and_flush(&mut StdSink::new(&rt), REPORT) == Ok(()));
}
