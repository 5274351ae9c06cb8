//! What the program tells `clap` of its words.

ghost use Rattle.std.specs.Prelude.{◌≡◌, IfOk};
ghost use Rattle.clap.specs.Words.{app_of};
ghost use Rattle.words.specs.Words.{IsLeaf, study_shape, check_shape, lrat_shape, axioms_shape, sample_shape, adopt_shape, gain_shape, top_shape, bench_app};

use crate::arguments::{add_command, required_word, workers_option};
use clap::Command;
use std::alloc::{AllocError, Global};

/// A command that takes a study, and a number of workers.
fn study_command<'a>(alloc: Global, name: &'a str) -> Result<Command<'a>, AllocError>
    ensures { IfOk result (IsLeaf (study_shape name.now)) }
{
    let command = Command::new(alloc, name).arg(required_word(alloc, "study"))?;
    command.arg(workers_option(alloc))
}

/// `check STUDY REPORT`.
fn check_command<'a>(alloc: Global) -> Result<Command<'a>, AllocError>
    ensures { IfOk result (IsLeaf check_shape) }
{
    let command = Command::new(alloc, "check").arg(required_word(alloc, "study"))?;
    let command = command.arg(required_word(alloc, "report"))?;
    command.arg(workers_option(alloc))
}

/// `lrat CNF PROOF`.
fn lrat_command<'a>(alloc: Global) -> Result<Command<'a>, AllocError>
    ensures { IfOk result (IsLeaf lrat_shape) }
{
    let command = Command::new(alloc, "lrat").arg(required_word(alloc, "cnf"))?;
    command.arg(required_word(alloc, "proof"))
}

/// `axioms KIND`.
fn axioms_command<'a>(alloc: Global) -> Result<Command<'a>, AllocError>
    ensures { IfOk result (IsLeaf axioms_shape) }
{
    Command::new(alloc, "axioms").arg(required_word(alloc, "kind"))
}

/// `sample N`.
fn sample_command<'a>(alloc: Global) -> Result<Command<'a>, AllocError>
    ensures { IfOk result (IsLeaf sample_shape) }
{
    Command::new(alloc, "sample").arg(required_word(alloc, "number"))
}

/// `adopt STUDY PROOF`.
fn adopt_command<'a>(alloc: Global) -> Result<Command<'a>, AllocError>
    ensures { IfOk result (IsLeaf adopt_shape) }
{
    let command = Command::new(alloc, "adopt").arg(required_word(alloc, "study"))?;
    let command = command.arg(required_word(alloc, "proof"))?;
    command.arg(workers_option(alloc))
}

/// `gain STUDY REPORT`.
fn gain_command<'a>(alloc: Global) -> Result<Command<'a>, AllocError>
    ensures { IfOk result (IsLeaf gain_shape) }
{
    let command = Command::new(alloc, "gain").arg(required_word(alloc, "study"))?;
    command.arg(required_word(alloc, "report"))
}

/// The program before its commands: one of them is wanted.
fn top_command<'a>(alloc: Global) -> Command<'a>
    ensures { IsLeaf top_shape result }
{
    Command::new(alloc, "bench")
        .no_binary_name(true)
        .subcommand_required(true)
}

/// The program with all its commands.
pub(crate) fn bench_command<'a>(alloc: Global) -> Result<Command<'a>, AllocError>
    ensures { IfOk result (λ command. app_of command ≡ bench_app) }
{
    let command = add_command(Ok(top_command(alloc)), study_command(alloc, "decide"));
    let command = add_command(command, check_command(alloc));
    let command = add_command(command, study_command(alloc, "export"));
    let command = add_command(command, study_command(alloc, "proof"));
    let command = add_command(command, lrat_command(alloc));
    let command = add_command(command, axioms_command(alloc));
    let command = add_command(command, sample_command(alloc));
    let command = add_command(command, adopt_command(alloc));
    let command = add_command(command, gain_command(alloc));
    add_command(command, study_command(alloc, "sharpen"))
}
