//! Keymaps: what an operator's keys do.
ghost use Rattle.std.specs.Prelude.{◌≡◌, ◌<◌, ◌==◌, [], IfSome, is_some, length, position};
ghost use Rattle.tty.specs.Keymaps.{action_of, key_number};

use crate::action::Action;
use crate::action_names::action_named;
use crate::key_names::{KEY_COUNT, key_at, keystroke_named, name_at};
use crate::key_page::lines_of;
use crate::keystroke::Keystroke;
use crate::standard_keys::standard;
use std::alloc::{AllocError, Global};
use std::marker::Model;
use thiserror::Error;

/// What a key does: its number, and its action.
#[derive(Clone, Copy, Debug)]
pub struct Binding {
    /// The number of the key: a control character's code, 256 and the code of Alt's character, or 512 and the place of
    /// a key that sends a sequence.
    pub key: u16,
    /// What it does.
    pub action: Action,
}

/// What an operator's keys do. Contracts see the bindings that differ from the usual ones.
#[derive(Debug, Drop)]
pub struct Keymap {
    bindings: Vec<Binding>,
}

impl Model for Keymap {
    ghost use Rattle.std.specs.Prelude.{List};
    ghost use Rattle.tty.specs.declared.keymap.Binding.{Binding};

    ghost Value = { List Binding };

    ghost view = { λ keymap. keymap.bindings.items };
}

/// Why a text is no keymap. `{}` prints it without a file's name, as `3: unknown key 'F13'`.
#[derive(Debug, Drop, Error)]
pub enum KeymapFault {
    /// The line with this 1-based number isn't `KEY = ACTION`.
    #[error("{0}: a line KEY = ACTION is needed")]
    NoBinding(usize),
    /// The line with this 1-based number has this unknown key.
    #[error("{0}: unknown key '{1}'")]
    UnknownKey(usize, String),
    /// The line with this 1-based number has this unknown action.
    #[error("{0}: unknown action '{1}'")]
    UnknownAction(usize, String),
    /// The line with this 1-based number has a key that an earlier line has.
    #[error("{0}: the key '{1}' has an action already")]
    Twice(usize, String),
    /// Memory was refused.
    #[error("no memory")]
    Memory,
}

/// The number of a key; 1024 for what is no key.
fn key_number(keystroke: Keystroke) -> u16
    ensures { result ≡ key_number keystroke }
{
    match keystroke {
        Keystroke::Control(byte) => u16::from(byte),
        Keystroke::Alt(byte) => 256 + u16::from(byte),
        Keystroke::Named(place) => 512 + u16::from(place),
        Keystroke::Char(_) | Keystroke::Size { .. } => 1024,
        Keystroke::PasteBegins | Keystroke::PasteEnds | Keystroke::Unknown => 1024,
    }
}

/// The place of the first binding of a key.
fn place_of(bindings: &[Binding], key: u16) -> Option<usize>
    ensures place { result ≡ position (λ binding. binding.key == key) bindings.now }
    ensures in_range { IfSome result (λ place. place < length bindings.now) }
{
    bindings.iter().position(|binding| binding.key == key)
}

impl Keymap {
    /// The keymap in which each key does what is usual.
    pub fn standard(alloc: Global) -> Keymap
        ensures { result ≡ [] }
    {
        Keymap {
            bindings: Vec::new(alloc),
        }
    }

    /// What a keystroke does that is a key, and no character.
    pub fn action_of(&self, keystroke: Keystroke) -> Action
        ensures { result ≡ action_of self.now keystroke }
    {
        match place_of(&self.bindings, key_number(keystroke)) {
            Some(place) => self.bindings[place].action,
            None => standard(keystroke),
        }
    }

    /// The keymap of a text: a line `KEY = ACTION` for each key that does something else than usual. Blanks don't
    /// matter, nor do empty lines and lines that begin with `#`. The fault is the first one.
    pub fn read(alloc: Global, text: &str) -> Result<Keymap, KeymapFault> {
        let mut keymap = Keymap::standard(alloc);
        for (index, line) in text.lines().enumerate() {
            let line = line.trim();
            if !line.is_empty() && !line.starts_with('#') {
                keymap.take_line(alloc, index + 1, line)?;
            }
        }
        Ok(keymap)
    }

    /// The lines of the table of keys, for a screen of 24 rows and 80 columns: each action by its name in a keymap, and
    /// the keys that have it.
    pub fn page(&self, alloc: Global) -> Result<Vec<String>, AllocError> {
        lines_of(self, alloc)
    }

    /// The keys that the text of this keymap names, and what they do: ` KEY=ACTION` for each.
    pub fn words(&self, alloc: Global) -> Result<String, AllocError> {
        let mut words = String::new(alloc);
        for index in 0..KEY_COUNT {
            let (keystroke, name) = (key_at(index), name_at(alloc, index)?);
            if !name.is_empty() && self.names(keystroke) {
                let action = self.action_of(keystroke);
                words.push_str(&format!(in alloc; " {name}={action}")?)?;
            }
        }
        Ok(words)
    }

    /// Whether the text of this keymap names a key.
    fn names(&self, keystroke: Keystroke) -> bool
        ensures { result ≡ is_some (position (λ binding. binding.key == key_number keystroke) self.now) }
    {
        place_of(&self.bindings, key_number(keystroke)).is_some()
    }

    /// Takes a line that isn't empty.
    fn take_line(&mut self, alloc: Global, number: usize, line: &str) -> Result<(), KeymapFault> {
        let Some((name, word)) = line.rsplit_once('=') else {
            return Err(KeymapFault::NoBinding(number));
        };
        let (name, word) = (name.trim(), word.trim());
        let Some(keystroke) = keystroke_named(name) else {
            return Err(KeymapFault::UnknownKey(number, owned(alloc, name)?));
        };
        let Some(action) = action_named(word) else {
            return Err(KeymapFault::UnknownAction(number, owned(alloc, word)?));
        };
        let key = key_number(keystroke);
        if place_of(&self.bindings, key).is_some() {
            return Err(KeymapFault::Twice(number, owned(alloc, name)?));
        }
        match self.bindings.push(Binding { key, action }) {
            Ok(()) => Ok(()),
            Err(_) => Err(KeymapFault::Memory),
        }
    }
}

/// A text of its own.
fn owned(alloc: Global, text: &str) -> Result<String, KeymapFault> {
    match format!(in alloc; "{text}") {
        Ok(text) => Ok(text),
        Err(_) => Err(KeymapFault::Memory),
    }
}
