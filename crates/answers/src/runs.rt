//! What a call of the bench answers.

ghost use Rattle.answers.specs.Runs.{IsBare};

use search_logs::Logs;
use sharp_verdicts::Sharp;
use std::alloc::Global;
use verdicts::Verdict;

/// How a call of the bench ended.
#[derive(Drop)]
pub struct Run {
    /// 0 done, 1 the report or the proof is refused, 2 the words are no command, 3 the study or the clauses
    /// are refused, 4 the search spent its limit, 5 a file could not be read, 6 the text could not be
    /// written, 7 no memory was found.
    pub status: u8,
    /// What a search found, where the command made one.
    pub verdict: Option<Verdict>,
    /// The searches that spent their limit.
    pub logs: Logs,
    /// What sharpening came to, where the command made one.
    pub sharp: Option<Sharp>,
}

impl Run {
    /// The run of a status that tells of no search.
    pub fn bare(alloc: Global, status: u8) -> Run
        ensures { IsBare result status }
    {
        Run {
            status,
            verdict: None,
            logs: Logs::new(alloc),
            sharp: None,
        }
    }
}
