//! The commands of the program.

use vocab::Kind;

/// A command with its words. A file is known by its name; a number of workers is from 1 to 16.
#[derive(Clone, Copy, Debug)]
pub enum Command<'a> {
    /// `decide STUDY`, with `--workers K`.
    Decide {
        study: &'a str,
        workers: u8,
    },
    /// `check STUDY REPORT`, with `--workers K`.
    Check {
        study: &'a str,
        report: &'a str,
        workers: u8,
    },
    /// `export STUDY`, with `--workers K`.
    Export {
        study: &'a str,
        workers: u8,
    },
    /// `proof STUDY`, with `--workers K`.
    Proof {
        study: &'a str,
        workers: u8,
    },
    /// `lrat CNF PROOF`.
    Lrat {
        cnf: &'a str,
        proof: &'a str,
    },
    /// `axioms KIND`.
    Axioms {
        kind: Kind,
    },
    /// `sample N`, with a number up to 4,294,967,295.
    Sample {
        number: u32,
    },
    /// `adopt STUDY PROOF`, with `--workers K`.
    Adopt {
        study: &'a str,
        proof: &'a str,
        workers: u8,
    },
    /// `gain STUDY REPORT`.
    Gain {
        study: &'a str,
        report: &'a str,
    },
    /// `sharpen STUDY`, with `--workers K`.
    Sharpen {
        study: &'a str,
        workers: u8,
    },
}
