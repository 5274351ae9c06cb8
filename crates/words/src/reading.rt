//! The command that the words are.

ghost use Rattle.std.specs.Prelude.{◌≡◌, ℕ, IfOk, IfSome, option_map};
ghost use Rattle.clap.specs.Words.{Text, found_of, rows_of, subcommand_rows_of};
ghost use Rattle.words.specs.Values.{kind_named, kind_in, number_in};
ghost use Rattle.words.specs.Words.{Request, Decide, Check, Export, Proof, Axioms, Sample, Sharpen, HasWorkers};
ghost use Rattle.words.specs.Words.{texts, asked, over_study, check_in, lrat_in, adopt_in, gain_in, request_under, request_in, request_of};

use crate::commands::Command;
use crate::grammar::bench_command;
use crate::values::{number_in, value_at, workers_in};
use clap::ArgMatches;
use clap::error::ErrorKind;
use lists::NoMemory;
use std::alloc::Global;
use vocab::Kind;

/// The kind that a word names.
fn kind_named(word: &str) -> Option<Kind>
    ensures { result ≡ kind_named word.now }
{
    match word {
        "choice" => Some(Kind::Choice),
        "ranking" => Some(Kind::Ranking),
        "sets" => Some(Kind::Sets),
        _ => None,
    }
}

/// The kind that was found.
fn kind_in(matches: &ArgMatches<'_>) -> Option<Kind>
    ensures { result ≡ kind_in (rows_of (found_of matches.now)) }
{
    kind_named(value_at(matches, "kind")?)
}

/// The study and the number of workers.
fn over_study<'a>(matches: &ArgMatches<'a>) -> Option<(&'a str, u8)>
    ensures { (make : Text → ℕ → Request) →
        option_map (λ found. make found.0.now found.1) result ≡
        over_study make (rows_of (found_of matches.now)) }
{
    let study = value_at(matches, "study")?;
    let workers = workers_in(matches)?;
    Some((study, workers))
}

/// `decide STUDY`.
fn decide_in<'a>(matches: &ArgMatches<'a>) -> Option<Command<'a>>
    ensures { option_map asked result ≡ over_study Decide (rows_of (found_of matches.now)) }
{
    let (study, workers) = over_study(matches)?;
    Some(Command::Decide { study, workers })
}

/// `check STUDY REPORT`.
fn check_in<'a>(matches: &ArgMatches<'a>) -> Option<Command<'a>>
    ensures { option_map asked result ≡ check_in (rows_of (found_of matches.now)) }
{
    let report = value_at(matches, "report")?;
    let (study, workers) = over_study(matches)?;
    Some(Command::Check {
        study,
        report,
        workers,
    })
}

/// `export STUDY`.
fn export_in<'a>(matches: &ArgMatches<'a>) -> Option<Command<'a>>
    ensures { option_map asked result ≡ over_study Export (rows_of (found_of matches.now)) }
{
    let (study, workers) = over_study(matches)?;
    Some(Command::Export { study, workers })
}

/// `proof STUDY`.
fn proof_in<'a>(matches: &ArgMatches<'a>) -> Option<Command<'a>>
    ensures { option_map asked result ≡ over_study Proof (rows_of (found_of matches.now)) }
{
    let (study, workers) = over_study(matches)?;
    Some(Command::Proof { study, workers })
}

/// `lrat CNF PROOF`.
fn lrat_in<'a>(matches: &ArgMatches<'a>) -> Option<Command<'a>>
    ensures { option_map asked result ≡ lrat_in (rows_of (found_of matches.now)) }
{
    let cnf = value_at(matches, "cnf")?;
    let proof = value_at(matches, "proof")?;
    Some(Command::Lrat { cnf, proof })
}

/// `axioms KIND`.
fn axioms_in<'a>(matches: &ArgMatches<'a>) -> Option<Command<'a>>
    ensures { option_map asked result ≡ option_map Axioms (kind_in (rows_of (found_of matches.now))) }
{
    let kind = kind_in(matches)?;
    Some(Command::Axioms { kind })
}

/// `sample N`.
fn sample_in<'a>(matches: &ArgMatches<'a>) -> Option<Command<'a>>
    ensures { option_map asked result ≡ option_map Sample (number_in (rows_of (found_of matches.now))) }
{
    let number = number_in(matches)?;
    Some(Command::Sample { number })
}

/// `adopt STUDY PROOF`.
fn adopt_in<'a>(matches: &ArgMatches<'a>) -> Option<Command<'a>>
    ensures { option_map asked result ≡ adopt_in (rows_of (found_of matches.now)) }
{
    let proof = value_at(matches, "proof")?;
    let (study, workers) = over_study(matches)?;
    Some(Command::Adopt {
        study,
        proof,
        workers,
    })
}

/// `gain STUDY REPORT`.
fn gain_in<'a>(matches: &ArgMatches<'a>) -> Option<Command<'a>>
    ensures { option_map asked result ≡ gain_in (rows_of (found_of matches.now)) }
{
    let study = value_at(matches, "study")?;
    Some(Command::Gain {
        study,
        report: value_at(matches, "report")?,
    })
}

/// `sharpen STUDY`.
fn sharpen_in<'a>(matches: &ArgMatches<'a>) -> Option<Command<'a>>
    ensures { option_map asked result ≡ over_study Sharpen (rows_of (found_of matches.now)) }
{
    let (study, workers) = over_study(matches)?;
    Some(Command::Sharpen { study, workers })
}

/// The command of a name, with the values that were found.
fn command_under<'a>(name: &str, matches: &ArgMatches<'a>) -> Option<Command<'a>>
    ensures { option_map asked result ≡ request_under name.now (rows_of (found_of matches.now)) }
{
    match name {
        "decide" => decide_in(matches),
        "check" => check_in(matches),
        "export" => export_in(matches),
        "proof" => proof_in(matches),
        "lrat" => lrat_in(matches),
        "axioms" => axioms_in(matches),
        "sample" => sample_in(matches),
        "adopt" => adopt_in(matches),
        "gain" => gain_in(matches),
        "sharpen" => sharpen_in(matches),
        _ => None,
    }
}

/// The command that was found.
fn command_in<'a>(matches: &ArgMatches<'a>) -> Option<Command<'a>>
    ensures workers { IfSome result (λ it. HasWorkers (asked it)) }
    ensures command { option_map asked result ≡ request_in (subcommand_rows_of matches.now) }
{
    let (name, inner) = matches.subcommand()?;
    command_under(name, inner)
}

/// The command that the words are. A request for help is none.
pub fn command_of<'a>(alloc: Global, words: &'a [String]) -> Result<Option<Command<'a>>, NoMemory>
    ensures command { IfOk result (λ command. option_map asked command ≡ request_of (texts words.now)) }
    ensures workers { IfOk result (λ command. IfSome command (λ it. HasWorkers (asked it))) }
{
    let bench = bench_command(alloc)?;
    match bench.try_get_matches_from(words) {
        Ok(matches) => Ok(command_in(&matches)),
        Err(error) => {
            if error.kind() == ErrorKind::OutOfMemory {
                Err(NoMemory)
            } else {
                Ok(None)
            }
        }
    }
}
