//! The commands of the program.

/// A command with its words. A file is known by its name; a number of workers is from 1 to 16.
#[derive(Clone, Copy, Debug)]
pub enum Command<'a> {
    /// `story STUDY REPORT`, with `--workers K`.
    Story {
        study: &'a str,
        report: &'a str,
        workers: u8,
    },
    /// `instance STUDY AXIOM NUMBER`, with a number up to 4,294,967,295.
    Instance {
        study: &'a str,
        axiom_name: &'a str,
        number: u32,
    },
    /// `rules STUDY`, with `--most N`, from 1 to 10,000, and `--workers K`.
    Rules {
        study: &'a str,
        most: u32,
        workers: u8,
    },
    /// `cores STUDY`, with `--workers K`.
    Cores {
        study: &'a str,
        workers: u8,
    },
    /// `study STUDY`, with `--workers K`.
    Look {
        study: &'a str,
        workers: u8,
    },
}
