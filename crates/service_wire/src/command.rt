//! The commands.
ghost use Rattle.std.specs.Prelude.{◌≡◌, option_map};
ghost use Rattle.service_wire.specs.Lines.{first_word, operand_of};
ghost use Rattle.service_wire.specs.Commands.{command_in, command_of_word, command_with, given_text, note_of, recipient_of};

use crate::line_fault::LineFault;
use crate::note_text::NoteText;
use std::fmt;
use tn3270e_msg::Lu;

/// Whom a note is for.
#[derive(Clone, Copy, Debug, PartialEq, Eq)]
pub enum Recipient {
    /// The operator of each session.
    Everyone,
    /// The operator at this LU.
    Only(Lu),
}

/// A command to a running service.
#[derive(Drop)]
pub enum Command {
    /// `reload` reads the panels again; new sessions get these.
    Reload,
    /// `drain` or `drain TEXT` admits no new session, and ends the service once no session is left.
    Drain {
        /// What is shown on each screen, unless it is empty.
        text: NoteText,
    },
    /// `note LU TEXT` or `note * TEXT` shows a text on screens.
    Note {
        /// On whose screen.
        to: Recipient,
        /// The text; an empty one clears the row.
        text: NoteText,
    },
    /// `sessions` asks which sessions there are.
    Sessions,
    /// `stop` ends the service.
    Stop,
}

/// The text before the first blank: all of it if there is none.
pub(crate) fn first_word(text: &str) -> &str
    ensures { result.now ≡ first_word text.now }
{
    match text.split_once(' ') {
        Some((word, _)) => word,
        None => text,
    }
}

/// The text after the first blank; None if there is none.
pub(crate) fn operand_of(text: &str) -> Option<&str>
    ensures { option_map (λ it. it.now) result ≡ operand_of text.now }
{
    match text.split_once(' ') {
        Some((_, operand)) => Some(operand),
        None => None,
    }
}

/// The recipient that a word names: `*`, or an LU in upper or lower case.
fn recipient_of(word: &str) -> Option<Recipient>
    ensures { result ≡ recipient_of word.now }
{
    match word {
        "*" => Some(Recipient::Everyone),
        _ => Some(Recipient::Only(Lu::read(word.as_bytes())?)),
    }
}

/// The text that is given, the empty one if none is. None if a screen can't show it.
fn given_text(text: Option<&str>) -> Option<NoteText>
    ensures { result ≡ given_text (option_map (λ it. it.now) text.entry) }
{
    match text {
        Some(text) => NoteText::read(text),
        None => Some(NoteText::new()),
    }
}

/// The note to this recipient with this text.
fn note_of(to: Option<Recipient>, text: Option<NoteText>) -> Result<Command, LineFault>
    ensures { result ≡ note_of to text }
{
    match (to, text) {
        (Some(to), Some(text)) => Ok(Command::Note { to, text }),
        (Some(_), None) => Err(LineFault::BadText),
        (None, _) => Err(LineFault::BadLu),
    }
}

/// The command of one word.
fn command_of_word(word: &str) -> Result<Command, LineFault>
    ensures { result ≡ command_of_word word.now }
{
    match word {
        "reload" => Ok(Command::Reload),
        "sessions" => Ok(Command::Sessions),
        "stop" => Ok(Command::Stop),
        "drain" => Ok(Command::Drain {
            text: NoteText::new(),
        }),
        _ => Err(LineFault::Unknown),
    }
}

/// The command of a word and what follows it.
fn command_with(word: &str, operand: &str) -> Result<Command, LineFault>
    ensures { result ≡ command_with word.now operand.now }
{
    match word {
        "drain" => match NoteText::read(operand) {
            Some(text) => Ok(Command::Drain { text }),
            None => Err(LineFault::BadText),
        },
        "note" => note_of(
            recipient_of(first_word(operand)),
            given_text(operand_of(operand)),
        ),
        _ => Err(LineFault::Unknown),
    }
}

impl Command {
    /// The command of a line without LF. The error is `Unknown` if the line's first word isn't that of a command, or if
    /// something follows `reload`, `sessions` or `stop`, or nothing follows `note`; `BadLu` if the second word of a
    /// note is neither an LU name nor `*`; otherwise `BadText` if a screen can't show the text.
    pub fn read(line: &str) -> Result<Command, LineFault>
        ensures { result ≡ command_in line.now }
    {
        match line.split_once(' ') {
            Some((word, operand)) => command_with(word, operand),
            None => command_of_word(line),
        }
    }
}

/// Prints `*`, or the LU's name.
impl fmt::Display for Recipient {
    ghost use Rattle.std.specs.Prelude.{Some};
    ghost use Rattle.service_wire.specs.Commands.{recipient_text};

    ghost output = { λ to. Some (recipient_text to) };

    fn fmt<W: fmt::Write>(&self, f: &mut fmt::Formatter<W>) -> fmt::Result {
        match self {
            Recipient::Everyone => f.write_char('*'),
            Recipient::Only(lu) => write!(f, "{lu}"),
        }
    }
}

/// A blank and a text; nothing for the empty text.
#[derive(Drop)]
struct WithBlank<'a>(&'a NoteText);

impl fmt::Display for WithBlank<'_> {
    ghost use Rattle.std.specs.Prelude.{Some};
    ghost use Rattle.service_wire.specs.Commands.{with_blank};

    ghost output = { λ text. Some (with_blank text.0.now) };

    fn fmt<W: fmt::Write>(&self, f: &mut fmt::Formatter<W>) -> fmt::Result {
        let text = self.0;
        if text.codes().is_empty() {
            Ok(())
        } else {
            write!(f, " {text}")
        }
    }
}

/// Prints the command's line without LF.
impl fmt::Display for Command {
    ghost use Rattle.std.specs.Prelude.{Some};
    ghost use Rattle.service_wire.specs.Commands.{line_of};

    ghost output = { λ command. Some (line_of command) };

    fn fmt<W: fmt::Write>(&self, f: &mut fmt::Formatter<W>) -> fmt::Result {
        match self {
            Command::Reload => f.write_str("reload"),
            Command::Drain { text } => write!(f, "drain{}", WithBlank(text)),
            Command::Note { to, text } => write!(f, "note {to}{}", WithBlank(text)),
            Command::Sessions => f.write_str("sessions"),
            Command::Stop => f.write_str("stop"),
        }
    }
}
