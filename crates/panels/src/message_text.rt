//! The text of a message from an application.
ghost use Rattle.std.specs.Prelude.{◌≡◌};
ghost use Rattle.panels.specs.MessageText.{message_of};

/// The most characters of a message: the longest last row of a 3278 has 132 columns, one of which its attribute takes.
pub const MOST_MESSAGE: usize = 131;

/// The text of an application's message to the operator.
#[derive(Clone, Copy, Debug)]
pub struct MessageText {
    /// Characters from U+0000 to U+00FF, one in each byte, with nulls after the text's end. A character that code page
    /// 037 doesn't have is shown as a null.
    pub characters: [u8; MOST_MESSAGE],
}

impl MessageText {
    /// The first 131 of these characters, each a byte for U+0000 to U+00FF; nulls fill up a shorter text.
    pub fn new(text: &[u8]) -> MessageText
        ensures { result.characters ≡ message_of text.now }
    {
        let size = text.len().min(MOST_MESSAGE);
        let mut characters = [0; MOST_MESSAGE];
        characters[..size].copy_from_slice(&text[..size]);
        MessageText { characters }
    }
}
