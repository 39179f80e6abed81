//! The names of keys (our profile).
ghost use Rattle.std.specs.Prelude.{◌≡◌, ◌<◌, ◌++◌, [], length, map, get_or, codes};
ghost use Rattle.std.specs.Fmt.{decimal};
ghost use Rattle.keyboard.specs.KeyNames.{name_of, plain_keys, pf_keys, pa_keys, named_among, key_named};

use crate::key::Key;
use codes3270::{PaNo, PfNo};
use std::fmt;

/// The keys with names, except those with numbers.
const PLAIN_KEYS: [Key; 16] = [
    Key::Tab,
    Key::BackTab,
    Key::NewLine,
    Key::Home,
    Key::CursorUp,
    Key::CursorDown,
    Key::CursorLeft,
    Key::CursorRight,
    Key::Backspace,
    Key::Insert,
    Key::Delete,
    Key::EraseEof,
    Key::EraseInput,
    Key::Reset,
    Key::Enter,
    Key::Clear,
];

/// The names of PF1 to PF24.
static PF_NAMES: [&str; 24] = [
    "pf1", "pf2", "pf3", "pf4", "pf5", "pf6", "pf7", "pf8", "pf9", "pf10", "pf11", "pf12", "pf13",
    "pf14", "pf15", "pf16", "pf17", "pf18", "pf19", "pf20", "pf21", "pf22", "pf23", "pf24",
];

/// The names of PA1 to PA3.
static PA_NAMES: [&str; 3] = ["pa1", "pa2", "pa3"];

/// The name at an index.
fn name_at(names: &[&'static str], index: usize) -> &'static str
    requires { index < length names.now }
    ensures { result.now ≡ get_or (map (λ name. name.now) names.now) index [] }
{
    names[index]
}

/// The name of a program function key.
fn pf_name(key: PfNo) -> &'static str
    ensures { result.now ≡ codes "pf" ++ decimal key }
{
    name_at(&PF_NAMES, (key.get() - 1) as usize)
}

/// The name of a program attention key.
fn pa_name(key: PaNo) -> &'static str
    ensures { result.now ≡ codes "pa" ++ decimal key }
{
    name_at(&PA_NAMES, (key.get() - 1) as usize)
}

/// The key without a number that has this name.
fn plain_named(name: &str) -> Option<Key>
    ensures { result ≡ named_among plain_keys name.now }
{
    PLAIN_KEYS.iter().copied().find(|key| key.name() == name)
}

/// The program function key that has this name.
fn pf_named(name: &str) -> Option<Key>
    ensures { result ≡ named_among pf_keys name.now }
{
    for number in 1..=24 {
        let number = PfNo::new(number)?;
        if pf_name(number) == name {
            return Some(Key::Pf(number));
        }
    }
    None
}

/// The program attention key that has this name.
fn pa_named(name: &str) -> Option<Key>
    ensures { result ≡ named_among pa_keys name.now }
{
    for number in 1..=3 {
        let number = PaNo::new(number)?;
        if pa_name(number) == name {
            return Some(Key::Pa(number));
        }
    }
    None
}

impl Key {
    /// The key's name, which is empty for a character.
    fn name(self) -> &'static str
        ensures { result.now ≡ name_of self }
    {
        match self {
            Key::Char(_) => "",
            Key::Tab => "tab",
            Key::BackTab => "backtab",
            Key::NewLine => "newline",
            Key::Home => "home",
            Key::CursorUp => "up",
            Key::CursorDown => "down",
            Key::CursorLeft => "left",
            Key::CursorRight => "right",
            Key::Backspace => "backspace",
            Key::Insert => "insert",
            Key::Delete => "delete",
            Key::EraseEof => "eraseeof",
            Key::EraseInput => "eraseinput",
            Key::Reset => "reset",
            Key::Enter => "enter",
            Key::Clear => "clear",
            Key::Pf(number) => pf_name(number),
            Key::Pa(number) => pa_name(number),
        }
    }

    /// The key with a name: `tab`, `backtab`, `newline`, `home`, `up`, `down`, `left`, `right`,
    /// `backspace`, `insert`, `delete`, `eraseeof`, `eraseinput`, `reset`, `enter`, `clear`, `pf1` to
    /// `pf24` or `pa1` to `pa3`. Returns `None` for any other text: a character has no name.
    #[tactic(auto, unfolding(crate::specs::KeyNames::key_named))]
    pub fn named(name: &str) -> Option<Key>
        ensures { result ≡ key_named name.now }
    {
        plain_named(name)
            .or_else(|| pf_named(name))
            .or_else(|| pa_named(name))
    }
}

/// Prints the key's name as [`Key::named`] reads it, or the character itself.
impl fmt::Display for Key {
    ghost use Rattle.std.specs.Prelude.{Some};
    ghost use Rattle.keyboard.specs.KeyNames.{key_name};

    ghost output = { λ key. Some (key_name key) };

    fn fmt<W: fmt::Write>(&self, f: &mut fmt::Formatter<W>) -> fmt::Result {
        match self {
            Key::Char(letter) => f.write_char(*letter),
            _ => f.write_str(self.name()),
        }
    }
}
