//! A file of rows.

use crate::draft::Draft;
use crate::program::Program;
use crate::row;
use std::rt::Files;
use std::thread::Threads;
use std::{fs, io};

/// Whether a line is a row of the program.
fn is_row<P: Program>(program: &P, line: &str) -> bool {
    match line.strip_prefix(program.word()) {
        Some(words) => words.is_empty() || words.starts_with(" "),
        None => false,
    }
}

/// Does what a line says that belongs to no file.
fn obey<P: Program, R: Files + Print + AllocGlobal + Threads + Sync>(
    program: &P,
    rt: &R,
    line: &str,
    draft: &mut Draft,
) -> io::Result<()> {
    if let Some(head) = line.strip_prefix("file ") {
        *draft = Draft::read(rt, head)?;
        return Ok(());
    }
    if is_row(program, line) {
        return row::run(program, rt, line);
    }
    if line.is_empty() || line.starts_with("# ") {
        return Ok(());
    }
    println!(rt; "this is no line of a file of rows")
}

/// Does what the lines of a file of rows of the program say, and prints each line before its answer.
pub fn run_rows<P: Program, R: Files + Print + AllocGlobal + Threads + Sync>(
    program: &P,
    rt: &R,
    name: &str,
) -> io::Result<()> {
    let rows = fs::read_to_string(rt, name)?;
    let mut draft = Draft::new(rt.alloc());
    for line in rows.as_str().split('\n') {
        println!(rt; "{line}")?;
        if !draft.takes(line)? {
            draft.put(rt)?;
            obey(program, rt, line, &mut draft)?;
        }
    }
    draft.put(rt)
}
