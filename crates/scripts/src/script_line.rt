//! The commands of a script, one in each line.
ghost use Rattle.std.specs.Prelude.{◌≡◌};
ghost use Rattle.scripts.specs.ScriptLines.{typed_text, note_of, command_of_verb, command_of_number, command_of_text, script_command};

use codes3270::from_latin1;
use jobs::{behind, number_of};
use keyboard::Key;
use tn3270e_msg::Lu;
use world3270::{Event, NoteText};

/// A command of a script. The number of a terminal or a connection may be out of range.
#[derive(Drop)]
pub enum ScriptCommand {
    /// An empty line: does nothing.
    Nothing,
    /// Takes this event of the world.
    Happen(Event),
    /// Types the text of the line at the terminal with this number.
    TypeText(usize),
    /// Answers the open question of the connection with this number, as the text of the line says.
    Answer(usize),
    /// Runs the world until no event has an effect.
    Settle,
    /// Prints the screen of the terminal with this number.
    Show(usize),
    /// Prints the phase of the terminal with this number.
    Status(usize),
    /// Prints the open question of the connection with this number.
    Question(usize),
}

/// The most characters of a note.
const LONGEST_NOTE: usize = 131;

/// The text to be typed: the text after the second blank of a line; empty if there is no second blank.
pub fn typed_text(line: &str) -> &str
    ensures { result.now ≡ typed_text line.now }
{
    behind(behind(line))
}

/// The note with this text; None if a character has no code in code page 037, or if a note can't contain the text.
fn note_of(text: &str) -> Option<NoteText>
    ensures { result ≡ note_of text.now }
{
    let mut codes = [0; LONGEST_NOTE];
    let mut count = 0;
    for character in text.chars() {
        if count == LONGEST_NOTE {
            return None;
        }
        codes[count] = from_latin1(character)?;
        count += 1;
    }
    NoteText::new(&codes[..count])
}

/// The command of a verb without operands.
fn command_of_verb(verb: &str) -> Option<ScriptCommand>
    ensures { result ≡ command_of_verb verb.now }
{
    match verb {
        "" => Some(ScriptCommand::Nothing),
        "settle" => Some(ScriptCommand::Settle),
        "restarthost" => Some(ScriptCommand::Happen(Event::RestartHost)),
        _ => None,
    }
}

/// The command of a verb and a number.
fn command_of_number(verb: &str, number: usize) -> Option<ScriptCommand>
    ensures { result ≡ command_of_number verb.now number }
{
    match verb {
        "connect" => Some(ScriptCommand::Happen(Event::Connect(number, None))),
        "act" => Some(ScriptCommand::Happen(Event::Act(number))),
        "lose" => Some(ScriptCommand::Happen(Event::Lose(number))),
        "hostsees" => Some(ScriptCommand::Happen(Event::HostSees(number))),
        "termsees" => Some(ScriptCommand::Happen(Event::TermSees(number))),
        "restartterm" => Some(ScriptCommand::Happen(Event::RestartTerm(number))),
        "show" => Some(ScriptCommand::Show(number)),
        "status" => Some(ScriptCommand::Status(number)),
        "question" => Some(ScriptCommand::Question(number)),
        _ => None,
    }
}

/// The command of a verb, a number, and the text after the second blank.
fn command_of_text(verb: &str, number: usize, text: &str) -> Option<ScriptCommand>
    ensures { result ≡ command_of_text verb.now number text.now }
{
    let event = match verb {
        "connect" => Event::Connect(number, Some(Lu::read(text.as_bytes())?)),
        "type" => return Some(ScriptCommand::TypeText(number)),
        "answer" => return Some(ScriptCommand::Answer(number)),
        "key" => Event::Key(number, Key::named(text)?),
        "up" => Event::Up(number, number_of(text)?),
        "down" => Event::Down(number, number_of(text)?),
        "note" => Event::Note(number, note_of(text)?),
        _ => return None,
    };
    Some(ScriptCommand::Happen(event))
}

impl ScriptCommand {
    /// The command of a line. None if there is no such verb, if the line has too few or too many words, or if a word
    /// isn't the number, LU name, key name or note text that the verb requires.
    pub fn read(line: &str) -> Option<ScriptCommand>
        ensures { result ≡ script_command line.now }
    {
        let Some((verb, rest)) = line.split_once(' ') else {
            return command_of_verb(line);
        };
        match rest.split_once(' ') {
            Some((number, text)) => command_of_text(verb, number_of(number)?, text),
            None => command_of_number(verb, number_of(rest)?),
        }
    }
}
