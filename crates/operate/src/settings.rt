//! How an operator has a live terminal.
ghost use Rattle.std.specs.Prelude.{◌≡◌, map, string_bytes};

use std::marker::Model;
use tty::Keymap;

/// How an operator has the terminal.
#[derive(Drop)]
pub(crate) struct Settings {
    /// What the keys do.
    pub(crate) keymap: Keymap,
    /// The lines of the table of keys.
    pub(crate) page: Vec<String>,
    /// For how many milliseconds without a byte an incomplete keystroke is waited for.
    pub(crate) escape: u32,
    /// Whether the bell doesn't ring for keys.
    pub(crate) quiet: bool,
    /// Whether there is a file in which screens are saved.
    pub(crate) saves: bool,
}

impl Model for Settings {
    ghost use Rattle.std.specs.Prelude.{map, string_bytes};
    ghost use Rattle.operate.specs.Live.{Settings as SettingsValue};

    ghost Value = { SettingsValue };

    ghost view = { λ settings. record {
      keymap = settings.keymap;
      page = map (λ line. string_bytes line) settings.page.items;
      escape = settings.escape;
      quiet = settings.quiet;
      saves = settings.saves;
    } };
}

impl Settings {
    /// The lines of the table of keys.
    pub(crate) fn lines(&self) -> &[String]
        ensures { map (λ line. string_bytes line) result.now ≡ self.now.page }
    {
        self.page.as_slice()
    }
}
