//! The answers.
ghost use Rattle.std.specs.Prelude.{◌≡◌, IfErr, IfOk, None};
ghost use Rattle.service_wire.specs.Lines.{first_word};
ghost use Rattle.service_wire.specs.Answers.{IsAnswer, one_line, status_of};
ghost use Rattle.service_wire.specs.declared.line_fault.LineFault.TheVariants.{NoStatus};

use crate::command::{first_word, operand_of};
use crate::line_fault::LineFault;
use std::fmt;

/// Whether a command was done.
#[derive(Clone, Copy, Debug, PartialEq, Eq)]
pub enum Status {
    /// It was done.
    Done,
    /// It wasn't.
    Failed,
}

/// The answer to a command.
#[derive(Clone, Copy, Debug, PartialEq, Eq)]
pub struct Answer<'a> {
    /// Whether the command was done.
    pub status: Status,
    /// What the service says of it, in one line.
    pub text: &'a str,
}

impl<'a> Answer<'a> {
    /// The answer with this status and the first line of a text.
    pub fn new(status: Status, text: &'a str) -> Answer<'a>
        ensures status { result.status ≡ status }
        ensures text { result.text.now ≡ one_line text.entry.now }
    {
        let text = match text.split_once('\n') {
            Some((line, _)) => line,
            None => text,
        };
        Answer { status, text }
    }

    /// The answer of a line without LF. The error is `NoStatus` if the line's first word is neither `ok` nor `error`.
    pub fn read(line: &'a str) -> Result<Answer<'a>, LineFault>
        ensures answer { IfOk result (λ answer. IsAnswer line.entry.now answer.status answer.text.now) }
        ensures fault { IfErr result (λ fault. (fault ≡ NoStatus) × (status_of (first_word line.entry.now) ≡ None)) }
    {
        let status = match first_word(line) {
            "ok" => Status::Done,
            "error" => Status::Failed,
            _ => return Err(LineFault::NoStatus),
        };
        Ok(Answer {
            status,
            text: operand_of(line).unwrap_or(""),
        })
    }
}

/// Prints the answer's line without LF.
impl fmt::Display for Answer<'_> {
    ghost use Rattle.std.specs.Prelude.{Some};
    ghost use Rattle.service_wire.specs.Answers.{answer_line};

    ghost output = { λ answer. Some (answer_line answer.status answer.text.now) };

    fn fmt<W: fmt::Write>(&self, f: &mut fmt::Formatter<W>) -> fmt::Result {
        f.write_str(match self.status {
            Status::Done => "ok ",
            Status::Failed => "error ",
        })?;
        f.write_str(self.text)
    }
}
