//! The command that the words are.

ghost use Rattle.std.specs.Prelude.{◌≡◌, IfOk, IfSome, option_map};
ghost use Rattle.clap.specs.Words.{found_of, rows_of, subcommand_rows_of};
ghost use Rattle.words.specs.Words.{texts, over_study};
ghost use Rattle.explain_words.specs.Words.{HasExplainWorkers, command_request, Cores, Look, story_in, instance_in, most_in, rules_in, explain_request_under, explain_request_in, request_of};

use crate::commands::Command;
use crate::grammar::explain_command;
use clap::ArgMatches;
use clap::error::ErrorKind;
use lists::NoMemory;
use std::alloc::Global;
use verdicts::number_within;
use words::{number_in, value_at, workers_in};

/// `story STUDY REPORT`.
fn story_in<'a>(matches: &ArgMatches<'a>) -> Option<Command<'a>>
    ensures { option_map command_request result ≡ story_in (rows_of (found_of matches.now)) }
{
    let report = value_at(matches, "report")?;
    let study = value_at(matches, "study")?;
    let workers = workers_in(matches)?;
    Some(Command::Story {
        study,
        report,
        workers,
    })
}

/// `instance STUDY AXIOM NUMBER`.
fn instance_in<'a>(matches: &ArgMatches<'a>) -> Option<Command<'a>>
    ensures { option_map command_request result ≡ instance_in (rows_of (found_of matches.now)) }
{
    let axiom_name = value_at(matches, "axiom")?;
    let study = value_at(matches, "study")?;
    let number = number_in(matches)?;
    Some(Command::Instance {
        study,
        axiom_name,
        number,
    })
}

/// The number of rules that was found, or 100.
fn most_in(matches: &ArgMatches<'_>) -> Option<u32>
    ensures { result ≡ most_in (rows_of (found_of matches.now)) }
{
    number_within(value_at(matches, "most")?.as_bytes(), 1, 10_000).map(|most| most as u32)
}

/// `rules STUDY`.
fn rules_in<'a>(matches: &ArgMatches<'a>) -> Option<Command<'a>>
    ensures { option_map command_request result ≡ rules_in (rows_of (found_of matches.now)) }
{
    let study = value_at(matches, "study")?;
    let most = most_in(matches)?;
    let workers = workers_in(matches)?;
    Some(Command::Rules {
        study,
        most,
        workers,
    })
}

/// `cores STUDY`.
fn cores_in<'a>(matches: &ArgMatches<'a>) -> Option<Command<'a>>
    ensures { option_map command_request result ≡ over_study Cores (rows_of (found_of matches.now)) }
{
    let study = value_at(matches, "study")?;
    let workers = workers_in(matches)?;
    Some(Command::Cores { study, workers })
}

/// `study STUDY`.
fn look_in<'a>(matches: &ArgMatches<'a>) -> Option<Command<'a>>
    ensures { option_map command_request result ≡ over_study Look (rows_of (found_of matches.now)) }
{
    let study = value_at(matches, "study")?;
    let workers = workers_in(matches)?;
    Some(Command::Look { study, workers })
}

/// The command of a name, with the values that were found.
fn command_under<'a>(name: &str, matches: &ArgMatches<'a>) -> Option<Command<'a>>
    ensures { option_map command_request result ≡
        explain_request_under name.now (rows_of (found_of matches.now)) }
{
    match name {
        "story" => story_in(matches),
        "instance" => instance_in(matches),
        "rules" => rules_in(matches),
        "cores" => cores_in(matches),
        "study" => look_in(matches),
        _ => None,
    }
}

/// The command that was found.
fn command_in<'a>(matches: &ArgMatches<'a>) -> Option<Command<'a>>
    ensures workers { IfSome result (λ it. HasExplainWorkers (command_request it)) }
    ensures command { option_map command_request result ≡
        explain_request_in (subcommand_rows_of matches.now) }
{
    let (name, inner) = matches.subcommand()?;
    command_under(name, inner)
}

/// The command that the words are. A request for help is none.
pub fn command_of<'a>(alloc: Global, words: &'a [String]) -> Result<Option<Command<'a>>, NoMemory>
    ensures command { IfOk result
        (λ command. option_map command_request command ≡ request_of (texts words.now)) }
    ensures workers { IfOk result (λ command. IfSome command (λ it. HasExplainWorkers (command_request it))) }
{
    let explain = explain_command(alloc)?;
    match explain.try_get_matches_from(words) {
        Ok(matches) => Ok(command_in(&matches)),
        Err(error) => {
            if error.kind() == ErrorKind::OutOfMemory {
                Err(NoMemory)
            } else {
                Ok(None)
            }
        }
    }
}
