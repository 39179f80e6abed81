//! The names of actions, which are c3270's where it has the action.
use crate::action::Action;
use codes3270::{PaNo, PfNo};
use keyboard::Key;
use std::fmt;

/// The actions that have no number, with their names.
pub(crate) const PLAIN: [(&str, Action); 23] = [
    ("Enter", Action::Key(Key::Enter)),
    ("Clear", Action::Key(Key::Clear)),
    ("Reset", Action::Key(Key::Reset)),
    ("Newline", Action::Key(Key::NewLine)),
    ("Help", Action::Help),
    ("Status", Action::Status),
    ("Redraw", Action::Redraw),
    ("Quit", Action::Quit),
    ("PrintText", Action::Save),
    ("Tab", Action::Key(Key::Tab)),
    ("BackTab", Action::Key(Key::BackTab)),
    ("Home", Action::Key(Key::Home)),
    ("Up", Action::Key(Key::CursorUp)),
    ("Down", Action::Key(Key::CursorDown)),
    ("Left", Action::Key(Key::CursorLeft)),
    ("Right", Action::Key(Key::CursorRight)),
    ("Erase", Action::Erase),
    ("BackSpace", Action::Key(Key::Backspace)),
    ("Insert", Action::Key(Key::Insert)),
    ("Delete", Action::Key(Key::Delete)),
    ("EraseEOF", Action::Key(Key::EraseEof)),
    ("EraseInput", Action::Key(Key::EraseInput)),
    ("Ignore", Action::Nothing),
];

/// The number of a PF or PA key: `N` of `NAME(N)`.
fn number_of(word: &str, name: &str) -> Option<u8> {
    let (front, rest) = word.split_once('(')?;
    let digits = rest.strip_suffix(')')?;
    if front.trim().eq_ignore_ascii_case(name) {
        digits.trim().parse::<u8>().ok()
    } else {
        None
    }
}

/// The action with a name in upper or lower case, with or without `()` behind it.
pub(crate) fn action_named(word: &str) -> Option<Action> {
    let plain = word.strip_suffix("()").unwrap_or(word);
    for (name, action) in &PLAIN {
        if name.eq_ignore_ascii_case(plain) {
            return Some(*action);
        }
    }
    if let Some(number) = number_of(word, "PF") {
        return Some(Action::Key(Key::Pf(PfNo::new(number)?)));
    }
    let number = number_of(word, "PA")?;
    Some(Action::Key(Key::Pa(PaNo::new(number)?)))
}

/// The name of an action that has no number.
fn plain_name(action: Action) -> &'static str {
    for (name, known) in &PLAIN {
        if *known == action {
            return name;
        }
    }
    ""
}

/// Prints the action as a keymap has it.
impl fmt::Display for Action {
    fn fmt<W: fmt::Write>(&self, f: &mut fmt::Formatter<W>) -> fmt::Result {
        match self {
            Action::Key(Key::Pf(number)) => write!(f, "PF({})", number.get()),
            Action::Key(Key::Pa(number)) => write!(f, "PA({})", number.get()),
            _ => f.write_str(plain_name(*self)),
        }
    }
}
