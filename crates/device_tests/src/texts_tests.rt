//! Texts before sinks that count, fail or have no room.

use edge::{Failed, MemorySink, Sink, put_all};
use std::alloc::Global;
use std::test::Fail;
use texts::{Buffered, Integer, Number, Raw, Text, Two, put_text, write_text};

/// Takes all and counts its writes and the bytes. Both stay at their greatest once they are there.
#[derive(Drop)]
struct CountingSink {
    writes: u32,
    bytes: u64,
}

impl Sink for CountingSink {
    ghost use Rattle.std.specs.Prelude.{None};

    ghost taken = { λ _. None };

    ghost faults = { λ _. 0 };

    fn write(&mut self, piece: &[u8]) -> Result<usize, Failed> {
        self.writes = self.writes.saturating_add(1);
        self.bytes = self.bytes.saturating_add(piece.len() as u64);
        Ok(piece.len())
    }

    fn flush(&mut self) -> Result<(), Failed> {
        Ok(())
    }
}

/// An integer, a number, and the text of both with a blank between them.
static NUMBERS: [(i64, u64, &[u8]); 4] = [
    (0, 0, b"0 0"),
    (-1, 9, b"-1 9"),
    (10, 10, b"10 10"),
    (
        -9_223_372_036_854_775_808,
        4_294_967_296,
        b"-9223372036854775808 4294967296",
    ),
];

/// Which call fails, of three writes and then a flush, how many bytes of 10,000 are then taken, and the answer.
static LONG: [(u32, usize, Result<(), Failed>); 5] = [
    (0, 0, Err(Failed)),
    (1, 4096, Err(Failed)),
    (2, 8192, Err(Failed)),
    (3, 10000, Err(Failed)),
    (4, 10000, Ok(())),
];

/// How many single bytes are written, and how many writes reach the sink.
static BUFFERED: [(u32, u32); 5] = [(0, 0), (1, 1), (4096, 1), (4097, 2), (10000, 3)];

// Each table is handed out as a slice, so that the proof of a test need not read it.
fn numbers() -> &'static [(i64, u64, &'static [u8])] {
    &NUMBERS
}

fn long() -> &'static [(u32, usize, Result<(), Failed>)] {
    &LONG
}

fn buffered() -> &'static [(u32, u32)] {
    &BUFFERED
}

/// A line with a number of each form.
fn write_line<K: Sink>(out: &mut K) -> Result<(), Failed> {
    let number = Two(Raw(b" of "), Number(18_446_744_073_709_551_615));
    write_text(&Two(Integer(-12), Two(number, Raw(b"\n"))), out)
}

const LINE: &[u8] = b"-12 of 18446744073709551615\n";

/// Whether this is the text of an integer and a number.
fn is_written(alloc: Global, integer: i64, number: u64, wanted: &[u8]) -> Result<bool, Fail> {
    let mut out = MemorySink::new(alloc, 100, &[])?;
    let text = Two(Integer(integer), Two(Raw(b" "), Number(number)));
    Ok(put_text(&text, &mut out) == Ok(()) && out.bytes() == wanted)
}

#[test]
fn numbers_are_in_decimal(rt: HostRuntime) -> Result<(), Fail> {
    for (integer, number, wanted) in numbers() {
        assert!(rt; is_written(rt.alloc(), *integer, *number, wanted)?);
    }
    Ok(())
}

/// Whether a sink with so much room takes what fits of the line, and refuses it unless all fits.
fn is_cut(alloc: Global, room: usize) -> Result<bool, Fail> {
    let mut out = MemorySink::new(alloc, room, &[])?;
    let done = write_line(&mut out);
    Ok(
        done.is_ok() == (room >= LINE.len())
            && out.bytes().len() == room.min(LINE.len())
            && LINE.starts_with(out.bytes()),
    )
}

#[test]
fn what_there_is_room_for_is_written(rt: HostRuntime) -> Result<(), Fail> {
    for room in 0..30 {
        assert!(rt; is_cut(rt.alloc(), room)?);
    }
    Ok(())
}

/// Whether 10,000 bytes through a page, where the call of a number fails, have this answer, and so many of them
/// are taken.
fn is_front_written(
    alloc: Global,
    failing: u32,
    taken: usize,
    wanted: Result<(), Failed>,
) -> Result<bool, Fail> {
    let mut out = MemorySink::new(alloc, 20000, &[failing])?;
    let done = write_text(&Two(Raw(&[b'x'; 5000]), Raw(&[b'x'; 5000])), &mut out);
    Ok(done == wanted && out.bytes().len() == taken)
}

#[test]
fn front_is_written_where_a_call_fails(rt: HostRuntime) -> Result<(), Fail> {
    for (failing, taken, wanted) in long() {
        assert!(rt; is_front_written(rt.alloc(), *failing, *taken, *wanted)?);
    }
    Ok(())
}

/// Writes single bytes through a sink in front of one that counts.
fn put_bytes(count: u32, out: &mut CountingSink) -> Result<(), Failed> {
    let mut buffered = Buffered::new(out);
    for _ in 0..count {
        put_text(&Raw(b"x"), &mut buffered)?;
    }
    buffered.flush()
}

/// Whether so many single bytes reach a sink in so many writes.
fn is_buffered(count: u32, writes: u32) -> bool {
    let mut out = CountingSink {
        writes: 0,
        bytes: 0,
    };
    put_bytes(count, &mut out) == Ok(()) && out.writes == writes && out.bytes == u64::from(count)
}

#[test]
fn few_writes_reach_the_sink(rt: HostRuntime) {
    for (count, writes) in buffered() {
        assert!(rt; is_buffered(*count, *writes));
    }
}

/// Whether 5,000 bytes and four more reach a sink behind one of whose calls, a write, one that fails, one of the
/// rest and a flush, the call of a number fails too, and the last flush has this answer.
fn is_kept(alloc: Global, failing: u32, wanted: Result<(), Failed>) -> Result<bool, Fail> {
    let mut behind = MemorySink::new(alloc, 6000, &[1, failing])?;
    let mut out = Buffered::new(&mut behind);
    let found = [
        put_all(&mut out, &[b'x'; 5000]),
        out.flush(),
        put_all(&mut out, b"end\n"),
        out.flush(),
    ];
    Ok(
        found == [Ok(()), Err(Failed), Ok(()), wanted]
            && behind.bytes().len() == 5004
            && behind.bytes().ends_with(b"xxend\n"),
    )
}

#[test]
fn what_was_not_taken_is_kept(rt: HostRuntime) -> Result<(), Fail> {
    assert!(rt; is_kept(rt.alloc(), 3, Err(Failed))? && is_kept(rt.alloc(), 4, Ok(()))?);
    Ok(())
}
