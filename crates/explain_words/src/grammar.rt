//! What the program tells `clap` of its words.

ghost use Rattle.std.specs.Prelude.{◌≡◌, IfOk, false};
ghost use Rattle.clap.specs.Words.{app_of, rule_of};
ghost use Rattle.words.specs.Words.{IsLeaf};
ghost use Rattle.explain_words.specs.Words.{story_shape, instance_shape, most_option, rules_shape, cores_shape, look_shape, explain_shape, explain_app};

use clap::{Arg, Command};
use std::alloc::{AllocError, Global};
use words::{add_command, required_word, workers_option};

/// `--most N`.
fn most_option<'a>(alloc: Global) -> Arg<'a>
    ensures rule { rule_of result ≡ most_option }
    ensures local { result.global ≡ false }
{
    Arg::new(alloc, "most").long("most").default_value("100")
}

/// `story STUDY REPORT`.
fn story_command<'a>(alloc: Global) -> Result<Command<'a>, AllocError>
    ensures { IfOk result (IsLeaf story_shape) }
{
    let command = Command::new(alloc, "story").arg(required_word(alloc, "study"))?;
    let command = command.arg(required_word(alloc, "report"))?;
    command.arg(workers_option(alloc))
}

/// `instance STUDY AXIOM NUMBER`.
fn instance_command<'a>(alloc: Global) -> Result<Command<'a>, AllocError>
    ensures { IfOk result (IsLeaf instance_shape) }
{
    let command = Command::new(alloc, "instance").arg(required_word(alloc, "study"))?;
    let command = command.arg(required_word(alloc, "axiom"))?;
    command.arg(required_word(alloc, "number"))
}

/// `rules STUDY`.
fn rules_command<'a>(alloc: Global) -> Result<Command<'a>, AllocError>
    ensures { IfOk result (IsLeaf rules_shape) }
{
    let command = Command::new(alloc, "rules").arg(required_word(alloc, "study"))?;
    let command = command.arg(most_option(alloc))?;
    command.arg(workers_option(alloc))
}

/// `cores STUDY`.
fn cores_command<'a>(alloc: Global) -> Result<Command<'a>, AllocError>
    ensures { IfOk result (IsLeaf cores_shape) }
{
    let command = Command::new(alloc, "cores").arg(required_word(alloc, "study"))?;
    command.arg(workers_option(alloc))
}

/// `study STUDY`.
fn look_command<'a>(alloc: Global) -> Result<Command<'a>, AllocError>
    ensures { IfOk result (IsLeaf look_shape) }
{
    let command = Command::new(alloc, "study").arg(required_word(alloc, "study"))?;
    command.arg(workers_option(alloc))
}

/// The program before its commands: one of them is wanted.
fn top_command<'a>(alloc: Global) -> Command<'a>
    ensures { IsLeaf explain_shape result }
{
    Command::new(alloc, "explain")
        .no_binary_name(true)
        .subcommand_required(true)
}

/// The program with all its commands.
pub(crate) fn explain_command<'a>(alloc: Global) -> Result<Command<'a>, AllocError>
    ensures { IfOk result (λ command. app_of command ≡ explain_app) }
{
    let command = add_command(Ok(top_command(alloc)), story_command(alloc));
    let command = add_command(command, instance_command(alloc));
    let command = add_command(command, rules_command(alloc));
    let command = add_command(command, cores_command(alloc));
    add_command(command, look_command(alloc))
}
