//! The line by which a study is refused, and what helps.

ghost use Rattle.std.specs.Prelude.{◌≡◌, ◌++◌};
ghost use Rattle.texts.specs.Page.{Pours};
ghost use Rattle.command_parts.specs.Answers.{HasText, answer_status, text_of};

use command_parts::Answer;
use edge::{Bytes, Failed, Sink};
use std::alloc::Global;
use texts::{Page, Text};

/// Lets an answer go: the one place where it is taken apart for that.
pub(crate) fn let_go(_answer: Answer) {}

/// The status of an answer.
pub(crate) fn answer_status(answer: Answer, alloc: Global) -> u8
    ensures { result ≡ answer_status answer }
{
    answer.into_run(alloc).status
}

/// An answer that refuses a study, and lines that help.
pub struct Helped {
    pub refusal: Answer,
    pub help: Bytes,
}

impl Drop for Helped {
    fn drop(self) {
        let Helped { refusal, help: _ } = self;
        let_go(refusal)
    }
}

impl Helped {
    /// The status of the answer.
    pub fn into_status(self, alloc: Global) -> u8
        ensures { result ≡ answer_status self.refusal }
    {
        let Helped { refusal, help: _ } = self;
        answer_status(refusal, alloc)
    }
}

impl Text for Helped {
    ghost can = { λ helped. HasText helped.refusal };

    ghost text = { λ helped. text_of helped.refusal ++ helped.help };

    fn pour<O: Sink>(&self, page: &mut Page, out: &mut O) -> Result<(), Failed> {
        self.refusal.pour(page, out)?;
        page.put(out, self.help.as_slice())
    }
}
