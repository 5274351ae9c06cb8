//! The line of a study whose frames and instances together pass a limit.

ghost use Rattle.answers.specs.Sharpen.{total_line};

use edge::{Failed, Sink};
use meaning::Counts;
use texts::{Number, Page, Raw, Text, Two};

/// The line of a study whose frames and instances together pass a limit: how many clauses and literals they
/// have.
#[derive(Drop)]
pub struct TotalLine(pub Counts);

impl Text for TotalLine {
    ghost can = { λ _. Unit {0} };

    ghost text = { λ line. total_line line.0 };

    fn pour<O: Sink>(&self, page: &mut Page, out: &mut O) -> Result<(), Failed> {
        let Counts { clauses, literals } = self.0;
        let counts = Two(
            Number(clauses),
            Two(Raw(b" "), Two(Number(literals), Raw(b"\n"))),
        );
        Two(Raw(b"study: total "), counts).pour(page, out)
    }
}
