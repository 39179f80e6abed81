//! Messages to the operator.
ghost use Rattle.std.specs.Prelude.{◌≡◌};
ghost use Rattle.panels.specs.Screen.{field_meant, is_fresh};

use crate::message_text::MessageText;

/// Why a panel is shown, and the message to the operator.
#[derive(Clone, Copy, Debug)]
pub enum Message {
    /// The panel is fresh: its fields have their fills, and there is no message.
    Fresh,
    /// The panel is shown again, without a message.
    Plain,
    /// The panel is shown again after a key that leads nowhere, with the message `KEY NOT ACTIVE`.
    KeyNotActive,
    /// The panel is shown again as the field with this number, from 0 over the whole text, must be filled in. The
    /// message is `REQUIRED: ` and the field's label, or its name if it has none. The cursor is at the field's first
    /// character.
    Required(usize),
    /// The panel is shown with this message of an application. The cursor is at the first character of the field with
    /// this number, from 0 over the whole text, if the panel has it; else at the panel's own place.
    Told(MessageText, Option<usize>),
}

impl Message {
    /// Whether the panel is fresh.
    pub(crate) fn is_fresh(&self) -> bool
        ensures { result ≡ is_fresh self.now }
    {
        matches!(self, Message::Fresh)
    }

    /// The number of the field that the message names, or puts the cursor in, if any.
    pub(crate) fn field(&self) -> Option<usize>
        ensures { result ≡ field_meant self.now }
    {
        match self {
            Message::Fresh | Message::Plain | Message::KeyNotActive => None,
            Message::Required(number) => Some(*number),
            Message::Told(_, number) => *number,
        }
    }
}
