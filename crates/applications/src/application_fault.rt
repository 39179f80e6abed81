//! Why a question to an application has no answer: what the operator sees, and what the log says.
ghost use Rattle.std.specs.Prelude.{◌≡◌};
ghost use Rattle.applications.specs.Applications.{message_for, failure_text};

use self::ApplicationFault::{Absent, Answer, Left, Reply};
use crate::application_reply::{AnswerFault, Replaced};
use application_http::ReplyFault;
use std::fmt;
use thiserror::Error;

/// The most characters of a key that the log shows.
const MOST_SHOWN: usize = 64;

/// Why an application can't be reached. Prints as one word.
#[derive(Clone, Copy, Debug, PartialEq, Eq, Error)]
pub enum Absence {
    /// Nothing listens at its address.
    #[error("refused")]
    Refused,
    /// The connection broke, or was closed before the reply's end.
    #[error("broken")]
    Broken,
    /// The reply took too long.
    #[error("timeout")]
    Late,
    /// Memory for the exchange was refused.
    #[error("no-memory")]
    NoMemory,
}

/// Why a question has no answer.
#[derive(Debug, Drop, PartialEq, Eq)]
pub enum ApplicationFault {
    /// The application can't be reached.
    Absent(Absence),
    /// The response is not a valid reply.
    Reply(ReplyFault),
    /// The host can't do what the reply says.
    Answer(AnswerFault),
    /// The operator left before the reply.
    Left,
}

/// The message on the operator's screen after a failure.
#[derive(Clone, Copy, Debug, PartialEq, Eq)]
pub enum FailureMessage {
    /// The application can't be reached.
    NotAvailable,
    /// The application's reply is wrong.
    Error,
}

impl FailureMessage {
    /// The message's text.
    pub fn text(self) -> &'static str
        ensures { result.now ≡ failure_text self }
    {
        match self {
            FailureMessage::NotAvailable => "APPLICATION NOT AVAILABLE",
            FailureMessage::Error => "APPLICATION ERROR",
        }
    }
}

impl ApplicationFault {
    /// The message that the operator sees; None if the operator has left.
    pub fn message(&self) -> Option<FailureMessage>
        ensures { result ≡ message_for self.now }
    {
        match self {
            Left => None,
            Absent(_)
            | Reply(ReplyFault::Memory | ReplyFault::CutShort)
            | Answer(AnswerFault::Memory) => Some(FailureMessage::NotAvailable),
            Reply(_) | Answer(_) => Some(FailureMessage::Error),
        }
    }
}

// ---- what the log says

/// The first characters of a key. Prints in quotes.
#[derive(Clone, Copy)]
struct Key<'a>(&'a str);

impl fmt::Display for Key<'_> {
    fn fmt<W: fmt::Write>(&self, f: &mut fmt::Formatter<W>) -> fmt::Result {
        f.write_char('"')?;
        for character in self.0.chars().take(MOST_SHOWN) {
            // A quote or a control character would end the value or the line.
            let is_plain = character != '"' && character != '\\' && !character.is_control();
            f.write_char(if is_plain { character } else { '?' })?;
        }
        f.write_char('"')
    }
}

/// The key of the reply that is wrong, if one is.
fn key_of(fault: &ApplicationFault) -> Option<&str> {
    match fault {
        Reply(ReplyFault::Key { key, .. }) => Some(key.as_str()),
        Answer(AnswerFault::UnknownPanel) => Some("panel"),
        Answer(AnswerFault::UnknownCursor) => Some("cursor"),
        Answer(AnswerFault::UnknownField(name) | AnswerFault::FieldNotArray(name)) => {
            Some(name.as_str())
        }
        Absent(_) | Reply(_) | Answer(AnswerFault::Memory) | Left => None,
    }
}

/// The word for what happened.
fn event_word(fault: &ApplicationFault) -> &'static str {
    match fault.message() {
        Some(FailureMessage::NotAvailable) => "application-not-available",
        Some(FailureMessage::Error) => "application-error",
        None => "application-reply-dropped",
    }
}

/// Prints as the event and its reason: what was wrong and in which key, but no field's text.
impl fmt::Display for ApplicationFault {
    fn fmt<W: fmt::Write>(&self, f: &mut fmt::Formatter<W>) -> fmt::Result {
        let event = event_word(self);
        write!(f, "event={event}")?;
        match self {
            Absent(fault) => write!(f, " reason={fault}")?,
            Reply(fault) => write!(f, " reason={fault}")?,
            Answer(fault) => write!(f, " reason={fault}")?,
            Left => return Ok(()),
        }
        if let Reply(ReplyFault::Status(status)) = self {
            write!(f, " status={status}")?;
        }
        match key_of(self) {
            Some(key) => {
                let key = Key(key);
                write!(f, " key={key}")
            }
            None => Ok(()),
        }
    }
}

impl std::error::Error for ApplicationFault {}

/// Prints as the event: the first key of the reply with a replaced character, and the number of replaced characters.
impl fmt::Display for Replaced<'_> {
    fn fmt<W: fmt::Write>(&self, f: &mut fmt::Formatter<W>) -> fmt::Result {
        let key = Key(self.key);
        let characters = self.characters;
        write!(
            f,
            "event=application-replaced key={key} characters={characters}"
        )
    }
}
