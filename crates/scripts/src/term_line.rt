//! The commands of a terminal's script, one in each line.
ghost use Rattle.std.specs.Prelude.{◌≡◌};
ghost use Rattle.scripts.specs.TermLines.{command_of_verb, command_of_text, terminal_command};

use keyboard::Key;

/// A command to the operator of a terminal.
#[derive(Clone, Copy, Debug)]
pub enum TerminalCommand {
    /// An empty line: does nothing.
    Nothing,
    /// Types the text of the line.
    TypeText,
    /// Presses this key.
    Press(Key),
    /// Waits for the host.
    Wait,
    /// Prints the screen.
    Show,
    /// Prints the phase of the connection.
    Status,
}

/// The command of a verb without an operand.
fn command_of_verb(verb: &str) -> Option<TerminalCommand>
    ensures { result ≡ command_of_verb verb.now }
{
    match verb {
        "" => Some(TerminalCommand::Nothing),
        "wait" => Some(TerminalCommand::Wait),
        "show" => Some(TerminalCommand::Show),
        "status" => Some(TerminalCommand::Status),
        _ => None,
    }
}

/// The command of a verb and the text after the first blank.
fn command_of_text(verb: &str, text: &str) -> Option<TerminalCommand>
    ensures { result ≡ command_of_text verb.now text.now }
{
    match verb {
        "type" => Some(TerminalCommand::TypeText),
        "key" => Key::named(text).map(TerminalCommand::Press),
        _ => None,
    }
}

impl TerminalCommand {
    /// The command of a line. None if there is no such verb, if the line has too few or too many words, or if a key
    /// name is invalid.
    pub fn read(line: &str) -> Option<TerminalCommand>
        ensures { result ≡ terminal_command line.now }
    {
        match line.split_once(' ') {
            Some((verb, text)) => command_of_text(verb, text),
            None => command_of_verb(line),
        }
    }
}
