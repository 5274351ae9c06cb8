//! A row: the words of a call, and what the call comes to.

use crate::program::Program;
use edge::MemorySink;
use std::alloc::{AllocError, Global};
use std::io::{ErrorKind, Write};
use std::rt::Files;
use std::thread::Threads;
use std::{fs, io};

/// Room for each text that is written.
const ROOM: usize = 1_000_000;

/// A text with more lines is told by some of them.
const MOST_LINES: usize = 60;

/// What a call came to: its status, how many clauses its spent searches learned, and the bytes that it wrote.
#[derive(Drop)]
struct Told {
    status: u8,
    learned: usize,
    bytes: Vec<u8>,
}

impl Told {
    /// Whether the two are the same.
    fn is(&self, other: &Told) -> bool {
        self.status == other.status
            && self.learned == other.learned
            && self.bytes.as_slice() == other.bytes.as_slice()
    }
}

/// What the words behind the first word of a row come to, over the files that they name.
fn answer<P: Program, R: Files + AllocGlobal + Threads + Sync>(
    program: &P,
    rt: &R,
    line: &str,
) -> io::Result<Told> {
    let alloc = rt.alloc();
    let mut words = Vec::new(alloc);
    for word in line.split(' ').skip(1) {
        words.push(String::from_str(alloc, word)?)?;
    }
    let Ok(mut out) = MemorySink::new(alloc, ROOM, &[]) else {
        return Err(io::Error::from(ErrorKind::OutOfMemory));
    };
    let (status, learned) = program.call(rt, &words, &mut out);
    let bytes = out.bytes().to_vec(alloc)?;
    Ok(Told {
        status,
        learned,
        bytes,
    })
}

/// The line with a number of workers, which stands before a word `--`, since behind that each word is a file.
fn with_workers(alloc: Global, line: &str, workers: u32) -> Result<String, AllocError> {
    match line.split_once(" -- ") {
        Some((words, files)) => format!(in alloc; "{words} --workers {workers} -- {files}"),
        None => format!(in alloc; "{line} --workers {workers}"),
    }
}

/// What is said of the same words with a number of workers, where they may have one.
fn among_workers<P: Program, R: Files + AllocGlobal + Threads + Sync>(
    program: &P,
    rt: &R,
    line: &str,
    alone: &Told,
) -> io::Result<&'static str> {
    let mut same = 0u32;
    let mut refused = 0u32;
    for workers in [1, 2, 16] {
        let more = with_workers(rt.alloc(), line, workers)?;
        let many = answer(program, rt, more.as_str())?;
        if many.is(alone) {
            same = same.saturating_add(1);
        }
        if many.status == 2 {
            refused = refused.saturating_add(1);
        }
    }
    Ok(if refused == 3 {
        ""
    } else if same == 3 {
        ", with 1, 2 and 16 workers too"
    } else {
        ", and otherwise with workers"
    })
}

/// The most lines in a row that suppose something.
fn most_supposed(text: &[u8]) -> usize {
    let mut most = 0;
    let mut count: usize = 0;
    for line in text.split(|byte| *byte == b'\n') {
        count = if line.starts_with(b"suppose ") {
            count.saturating_add(1)
        } else {
            0
        };
        most = most.max(count);
    }
    most
}

/// Prints a text; of a long one how many lines and bytes it has, how many lines in a row suppose something, its
/// first ten lines and its marks.
fn print_text<R: Print>(rt: &R, text: &[u8]) -> io::Result<()> {
    let mut out = io::writer(rt);
    let lines = text.iter().filter(|byte| **byte == b'\n').count();
    if lines <= MOST_LINES {
        return out.write_all(text);
    }
    let (bytes, supposed) = (text.len(), most_supposed(text));
    println!(rt; "{lines} lines, {bytes} bytes, at most {supposed} supposed at once; among them:")?;
    let mut place = 0u32;
    for line in text.split(|byte| *byte == b'\n') {
        place = place.saturating_add(1);
        if place <= 10 || line.starts_with(b"without ") || line.starts_with(b"needs ") {
            out.write_all(line)?;
            out.write_all(b"\n")?;
        }
    }
    Ok(())
}

/// Runs a row, that may have `> NAME` behind it, and prints what it comes to; the file NAME gets the text.
pub fn run<P: Program, R: Files + Print + AllocGlobal + Threads + Sync>(
    program: &P,
    rt: &R,
    line: &str,
) -> io::Result<()> {
    let (words, name) = match line.split_once(" > ") {
        Some((words, name)) => (words, Some(name)),
        None => (line, None),
    };
    let alone = answer(program, rt, words)?;
    let more = among_workers(program, rt, words, &alone)?;
    let (status, learned) = (alone.status, alone.learned);
    if learned > 0 {
        println!(rt; "status {status}, {learned} learned{more}")?;
    } else {
        println!(rt; "status {status}{more}")?;
    }
    print_text(rt, alone.bytes.as_slice())?;
    if let Some(name) = name {
        fs::write(rt, name, alone.bytes.as_slice())?;
    }
    Ok(())
}
