//! Runs rows of the program `bench` over real files. Each argument names a file of rows.
#![tactic(auto)]

use answers::Run;
use edge::{FileShelf, MemorySink, Open};
use row_files::{Program, run_rows};
use std::rt::Files;
use std::thread::Threads;
use std::{env, io};
use top_call::bench;

/// The top call of `bench`.
#[derive(Clone, Copy)]
struct BenchCall;

/// How many clauses the spent searches of a call learned, those of sharpening too.
fn learned_by(run: &Run) -> usize {
    let mut learned: usize = 0;
    for log in run.logs.as_slice() {
        learned = learned.saturating_add(log.lines.len());
    }
    if let Some(sharp) = &run.sharp {
        for log in sharp.logs.as_slice() {
            learned = learned.saturating_add(log.lines.len());
        }
    }
    learned
}

impl Program for BenchCall {
    fn word(&self) -> &'static str {
        "run"
    }

    fn call<R: Files + AllocGlobal + Threads + Sync>(
        &self,
        rt: &R,
        words: &[String],
        out: &mut MemorySink,
    ) -> (u8, usize) {
        let mut shelf = FileShelf::new(rt, rt.alloc());
        let run = bench(rt, rt.alloc(), words, &mut shelf, out, &Open);
        (run.status, learned_by(&run))
    }
}

fn main(rt: HostRuntime) -> io::Result<()> {
    for name in env::args(&rt)?.skip(1) {
        run_rows(&BenchCall, &rt, name.as_str())?;
    }
    Ok(())
}
