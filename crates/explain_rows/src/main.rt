//! Runs rows of the program `explain` over real files. Each argument names a file of rows.
#![tactic(auto)]

use edge::{FileShelf, MemorySink, Open};
use explain_call::explain;
use row_files::{Program, run_rows};
use std::rt::Files;
use std::thread::Threads;
use std::{env, io};

/// The top call of `explain`, which tells nothing of its searches.
#[derive(Clone, Copy)]
struct ExplainCall;

impl Program for ExplainCall {
    fn word(&self) -> &'static str {
        "explain"
    }

    fn call<R: Files + AllocGlobal + Threads + Sync>(
        &self,
        rt: &R,
        words: &[String],
        out: &mut MemorySink,
    ) -> (u8, usize) {
        let mut shelf = FileShelf::new(rt, rt.alloc());
        let status = explain(rt, rt.alloc(), words, &mut shelf, out, &Open);
        (status, 0)
    }
}

fn main(rt: HostRuntime) -> io::Result<()> {
    for name in env::args(&rt)?.skip(1) {
        run_rows(&ExplainCall, &rt, name.as_str())?;
    }
    Ok(())
}
