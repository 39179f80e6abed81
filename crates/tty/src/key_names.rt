//! The names of an operator's keys, as keymaps and help have them.
use crate::keystroke::Keystroke;
use std::alloc::{AllocError, Global};

/// The names of the keys that send sequences, in the order of `NAMED_SEQUENCES`.
static NAMED: [&str; 38] = [
    "F1",
    "F2",
    "F3",
    "F4",
    "F5",
    "F6",
    "F7",
    "F8",
    "F9",
    "F10",
    "F11",
    "F12",
    "Shift-F1",
    "Shift-F2",
    "Shift-F3",
    "Shift-F4",
    "Shift-F5",
    "Shift-F6",
    "Shift-F7",
    "Shift-F8",
    "Shift-F9",
    "Shift-F10",
    "Shift-F11",
    "Shift-F12",
    "PageUp",
    "PageDown",
    "Up",
    "Down",
    "Right",
    "Left",
    "Home",
    "Insert",
    "Delete",
    "Shift-Tab",
    "End",
    "Shift-End",
    "Ctrl-End",
    "KeypadEnter",
];

/// The keys with names of their own that send a control character.
static CONTROLS: [(&str, u8); 3] = [("Enter", 0x0D), ("Tab", 0x09), ("Backspace", 0x7F)];

/// The number of keys that `key_at` knows: those with names, Ctrl and 32 others, Alt and 95 characters.
pub(crate) const KEY_COUNT: u8 = 3 + 38 + 32 + 95;

/// The key with a number below `KEY_COUNT`.
pub(crate) fn key_at(index: u8) -> Keystroke {
    match index {
        0 => Keystroke::Control(0x0D),
        1 => Keystroke::Control(0x09),
        2 => Keystroke::Control(0x7F),
        3..=40 => Keystroke::Named(index - 3),
        41..=72 => Keystroke::Control(index - 41),
        73..=167 => Keystroke::Alt(index - 73 + b' '),
        _ => Keystroke::Unknown,
    }
}

/// Whether a key is one of `key_at` that has another number, too: Ctrl-M is Enter, and Ctrl-I Tab.
fn is_again(index: u8) -> bool {
    index == 41 + 0x0D || index == 41 + 0x09
}

/// The name of the key with a number below `KEY_COUNT`; empty if it has none, as ESC.
pub(crate) fn name_at(alloc: Global, index: u8) -> Result<String, AllocError> {
    if is_again(index) {
        return Ok(String::new(alloc));
    }
    match key_at(index) {
        Keystroke::Control(byte) => control_name(alloc, byte),
        Keystroke::Alt(b' ') => format!(in alloc; "Alt-Space"),
        Keystroke::Alt(byte) => format!(in alloc; "Alt-{}", char::from(byte)),
        Keystroke::Named(place) => {
            let name = NAMED.get(usize::from(place)).copied().unwrap_or("");
            format!(in alloc; "{name}")
        }
        _ => Ok(String::new(alloc)),
    }
}

/// The name of a key that sends a control character.
fn control_name(alloc: Global, byte: u8) -> Result<String, AllocError> {
    match byte {
        0x0D => format!(in alloc; "Enter"),
        0x09 => format!(in alloc; "Tab"),
        0x7F => format!(in alloc; "Backspace"),
        0x01..=0x1A | 0x1C..=0x1F => format!(in alloc; "Ctrl-{}", char::from(byte + b'@')),
        _ => Ok(String::new(alloc)),
    }
}

/// The bytes behind a prefix, if a name has it, in upper or lower case.
fn behind<'a>(name: &'a [u8], prefix: &[u8]) -> Option<&'a [u8]> {
    if name.len() < prefix.len() {
        return None;
    }
    let (front, rest) = name.split_at(prefix.len());
    if front.eq_ignore_ascii_case(prefix) {
        Some(rest)
    } else {
        None
    }
}

/// The key that sends a control character, by what its name has behind `Ctrl-`.
fn control_named(rest: &[u8]) -> Option<Keystroke> {
    match rest {
        [letter @ (b'A'..=b'Z' | b'\\' | b']' | b'^' | b'_')] => {
            Some(Keystroke::Control(*letter - b'@'))
        }
        [letter @ b'a'..=b'z'] => Some(Keystroke::Control(*letter - b'`')),
        _ => None,
    }
}

/// The key of Alt and a character, by what its name has behind `Alt-`.
fn alt_named(rest: &[u8]) -> Option<Keystroke> {
    match rest {
        [b'[' | b'O' | b']' | b'P'] => None,
        [byte @ 0x21..=0x7E] => Some(Keystroke::Alt(*byte)),
        _ => {
            if rest.eq_ignore_ascii_case(b"space") {
                Some(Keystroke::Alt(b' '))
            } else {
                None
            }
        }
    }
}

/// The key with this name in upper or lower case, but for Alt and a letter.
pub(crate) fn keystroke_named(name: &str) -> Option<Keystroke> {
    for (known, byte) in &CONTROLS {
        if known.eq_ignore_ascii_case(name) {
            return Some(Keystroke::Control(*byte));
        }
    }
    for (place, known) in NAMED.iter().enumerate() {
        if known.eq_ignore_ascii_case(name) {
            return Some(Keystroke::Named(place as u8));
        }
    }
    if let Some(rest) = behind(name.as_bytes(), b"Ctrl-") {
        return control_named(rest);
    }
    alt_named(behind(name.as_bytes(), b"Alt-")?)
}
