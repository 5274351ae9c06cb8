//! Lines of words, and the command that each of them is.

use std::alloc::{AllocError, Global};
use std::test::Fail;
use words::{Command, command_of};

/// Lines, and the commands that they are.
static COMMANDS: [(&str, &str); 25] = [
    ("check s r", "check [s] [r] 1"),
    ("check --workers 4 s r", "check [s] [r] 4"),
    ("check s --workers 4 r", "check [s] [r] 4"),
    ("check s r --workers 4", "check [s] [r] 4"),
    ("check s --workers=16 r", "check [s] [r] 16"),
    ("check -- s r", "check [s] [r] 1"),
    ("check s -- -r", "check [s] [-r] 1"),
    (
        "check --workers 2 -- --workers -",
        "check [--workers] [-] 2",
    ),
    ("check  r", "check [] [r] 1"),
    ("check help axioms", "check [help] [axioms] 1"),
    ("axioms choice", "axioms Choice"),
    ("axioms -- ranking", "axioms Ranking"),
    ("axioms sets", "axioms Sets"),
    ("decide s", "decide [s] 1"),
    ("decide --workers 3 s", "decide [s] 3"),
    ("export s --workers=2", "export [s] 2"),
    ("proof -- -s", "proof [-s] 1"),
    ("lrat c p", "lrat [c] [p]"),
    ("sample 0", "sample 0"),
    ("sample 4294967295", "sample 4294967295"),
    ("gain s r", "gain [s] [r]"),
    ("adopt s p", "adopt [s] [p] 1"),
    ("adopt --workers 16 s -- -p", "adopt [s] [-p] 16"),
    ("sharpen s", "sharpen [s] 1"),
    ("sharpen s --workers 12", "sharpen [s] 12"),
];

/// Lines that are no command for what they say of workers.
static NO_WORKERS: [&str; 15] = [
    "--workers 4 check s r",
    "check s r --workers 4 --workers 4",
    "check s r --workers 0",
    "check s r --workers 17",
    "check s r --workers 04",
    "check s r --workers 18446744073709551617",
    "check s r --workers",
    "check s r --workers ",
    "check s r --workers=",
    "check s r -- --workers 4",
    "check s r -w 4",
    "check s r --work=4",
    "axioms choice --workers 4",
    "lrat c p --workers 4",
    "sample 3 --workers 4",
];

/// Lines that are no command for their words.
static NO_COMMANDS: [&str; 32] = [
    "",
    " ",
    "-h",
    "--help",
    "help",
    "help check",
    "check s r -h",
    "-V",
    "--version",
    "che s r",
    "Check s r",
    "check -s r",
    "check s",
    "check s r t",
    "axioms",
    "axioms set",
    "axioms Choice",
    "axioms choice ranking",
    "decide",
    "decide s t",
    "lrat c",
    "sample",
    "sample -3",
    "sample +3",
    "sample 007",
    "sample 4294967296",
    "sample 18446744073709551617",
    "adopt s",
    "adopt s p r",
    "adopt s p --workers 0",
    "sharpen",
    "sharpen s r",
];

// Each table is handed out as a slice, so that the proof of a test need not read it.
fn commands() -> &'static [(&'static str, &'static str)] {
    &COMMANDS
}

fn no_workers() -> &'static [&'static str] {
    &NO_WORKERS
}

fn no_commands() -> &'static [&'static str] {
    &NO_COMMANDS
}

/// The words of a line, cut at each blank; of an empty line there are none.
fn words_of(alloc: Global, line: &str) -> Result<Vec<String>, AllocError> {
    let mut words: Vec<String> = Vec::new(alloc);
    if line != "" {
        for word in line.split(' ') {
            words.push(String::from_str(alloc, word)?)?;
        }
    }
    Ok(words)
}

/// A command.
fn shown(alloc: Global, command: Command) -> Result<String, AllocError> {
    match command {
        Command::Check {
            study,
            report,
            workers,
        } => format!(in alloc; "check [{study}] [{report}] {workers}"),
        Command::Decide { study, workers } => format!(in alloc; "decide [{study}] {workers}"),
        Command::Export { study, workers } => format!(in alloc; "export [{study}] {workers}"),
        Command::Proof { study, workers } => format!(in alloc; "proof [{study}] {workers}"),
        Command::Lrat { cnf, proof } => format!(in alloc; "lrat [{cnf}] [{proof}]"),
        Command::Axioms { kind } => format!(in alloc; "axioms {kind:?}"),
        Command::Sample { number } => format!(in alloc; "sample {number}"),
        Command::Adopt {
            study,
            proof,
            workers,
        } => format!(in alloc; "adopt [{study}] [{proof}] {workers}"),
        Command::Gain { study, report } => format!(in alloc; "gain [{study}] [{report}]"),
        Command::Sharpen { study, workers } => format!(in alloc; "sharpen [{study}] {workers}"),
    }
}

/// What the words of a line are.
fn told(alloc: Global, line: &str) -> Result<String, AllocError> {
    let words = words_of(alloc, line)?;
    match command_of(alloc, words.as_slice()) {
        Ok(Some(command)) => shown(alloc, command),
        Ok(None) => String::from_str(alloc, "none"),
        Err(_) => String::from_str(alloc, "no memory"),
    }
}

/// Whether the words of a line are this.
fn is_told(alloc: Global, line: &str, wanted: &str) -> Result<bool, AllocError> {
    Ok(told(alloc, line)?.as_str() == wanted)
}

#[test]
fn words_are_commands(rt: HostRuntime) -> Result<(), Fail> {
    for (line, wanted) in commands() {
        assert!(rt; is_told(rt.alloc(), line, wanted)?);
    }
    Ok(())
}

#[test]
fn workers_that_are_none(rt: HostRuntime) -> Result<(), Fail> {
    for line in no_workers() {
        assert!(rt; is_told(rt.alloc(), line, "none")?);
    }
    Ok(())
}

#[test]
fn words_that_are_none(rt: HostRuntime) -> Result<(), Fail> {
    for line in no_commands() {
        assert!(rt; is_told(rt.alloc(), line, "none")?);
    }
    Ok(())
}
