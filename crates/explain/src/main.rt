//! Writes, for a report that was checked, a page that a person reads.
#![tactic(auto)]

use edge::{FileShelf, Open, StdSink};
use explain_call::explain;
use std::env;
use std::io::ErrorKind;
use std::process::ExitCode;

/// The words after the program's name: an empty list where one of them is no text, and `None` where memory is wanting.
fn words_given(rt: &HostRuntime) -> Option<Vec<String>> {
    let alloc = rt.alloc();
    match env::args(rt) {
        Ok(args) => args.skip(1).collect(alloc).ok(),
        Err(error) => {
            if error.kind() == ErrorKind::OutOfMemory {
                None
            } else {
                Some(Vec::new(alloc))
            }
        }
    }
}

fn main(rt: HostRuntime) -> ExitCode {
    let Some(words) = words_given(&rt) else {
        return ExitCode::from(7);
    };
    let mut shelf = FileShelf::new(&rt, rt.alloc());
    let mut out = StdSink::new(&rt);
    let status = explain(&rt, rt.alloc(), &words, &mut shelf, &mut out, &Open);
    ExitCode::from(status)
}
