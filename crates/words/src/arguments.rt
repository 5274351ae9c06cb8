//! Arguments and commands of a program, as `clap` is told of them.

ghost use Rattle.std.specs.Prelude.{◌≡◌, IfOk, false};
ghost use Rattle.clap.specs.Words.{App, Shape, app_of, rule_of, with_subcommand};
ghost use Rattle.words.specs.Words.{required_word, workers_option, IsLeaf};

use clap::{Arg, Command};
use std::alloc::{AllocError, Global};

/// A word that has to stand at its place. Its value is found under the id.
pub fn required_word<'a>(alloc: Global, id: &'a str) -> Arg<'a>
    ensures rule { rule_of result ≡ required_word id.now }
    ensures local { result.global ≡ false }
{
    Arg::new(alloc, id).required(true)
}

/// `--workers K`, which is 1 where it is not given. Its value is found under `workers`.
pub fn workers_option<'a>(alloc: Global) -> Arg<'a>
    ensures rule { rule_of result ≡ workers_option }
    ensures local { result.global ≡ false }
{
    Arg::new(alloc, "workers")
        .long("workers")
        .default_value("1")
}

/// A command with one more below it, where both could be made. (Both are handed over as they come, so that
/// one place alone lets a command go where memory ends.)
///
/// # Errors
///
/// `AllocError` where memory for one of the two, or for both together, could not be had.
pub fn add_command<'a>(
    command: Result<Command<'a>, AllocError>,
    below: Result<Command<'a>, AllocError>,
) -> Result<Command<'a>, AllocError>
    ensures { (app : App) (shape : Shape) → IfOk command.entry (λ c. app_of c ≡ app) →
        IfOk below.entry (IsLeaf shape) →
        IfOk result (λ c. app_of c ≡ with_subcommand app shape) }
{
    command?.subcommand(below?)
}
