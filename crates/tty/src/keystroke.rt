//! Keystrokes.

/// A key of the operator's keyboard, as a tty sends it, or a report of the tty (our profile). What a key does is up to
/// a [`Keymap`](crate::Keymap).
#[derive(Clone, Copy, Debug, PartialEq, Eq)]
pub enum Keystroke {
    /// A character. One outside of code page 037 is one, too: the keyboard refuses it.
    Char(char),
    /// A control character but ESC, 0 to 31 or 127, which most terminals send for Ctrl and a key.
    Control(u8),
    /// ESC and a graphic character of ASCII, or a blank, which most terminals send for Alt and a key.
    Alt(u8),
    /// A key that sends a sequence: the place of its row in the table of sequences, from 0 on.
    Named(u8),
    /// A tty's report of its size: the program must draw the whole screen again, for this size.
    Size {
        /// The number of rows, 1 to 999.
        rows: u16,
        /// The number of columns, 1 to 999.
        columns: u16,
    },
    /// A pasted text begins.
    PasteBegins,
    /// The pasted text is over.
    PasteEnds,
    /// An escape sequence, a report or an ill-formed character that is no key.
    Unknown,
}

/// What a byte does: the keystroke that it completes, and whether it breaks off another.
#[derive(Clone, Copy, Debug, PartialEq, Eq)]
pub struct PushResult {
    /// Whether the byte broke off a sequence or a character before its end. That counts as a
    /// [`Keystroke::Unknown`] before `keystroke`.
    pub interrupted: bool,
    /// The keystroke that ends at the byte, if one does.
    pub keystroke: Option<Keystroke>,
}
