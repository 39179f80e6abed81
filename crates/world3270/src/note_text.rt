//! The text of a note.
ghost use Rattle.std.specs.Prelude.{◌≡◌};
ghost use Rattle.std.specs.List.{list_all};
ghost use Rattle.host_core.specs.Notes.{IsNoteText, is_graphic};
ghost use Rattle.world3270.specs.model.NoteTexts.{is_note_text, note_text};

use std::marker::Model;

/// The longest text that a note may have, in characters.
const LONGEST: usize = 131;

/// The text of a note: 0 to 131 characters of code page 037. Contracts see it as the list of these bytes.
#[derive(Drop)]
pub struct NoteText {
    text: [u8; LONGEST],
    size: usize,
}

impl Model for NoteText {
    ghost use Rattle.std.specs.Prelude.{ℕ, List, take};
    ghost use Rattle.world3270.specs.model.NoteTexts.{IsKept};

    ghost Value = { List ℕ };

    ghost view = { λ note. take note.size note.text };

    ghost invariant = { λ note. IsKept note.text note.size };
}

/// Whether a byte is a graphic character of code page 037, `0x40..=0xFE`.
fn is_graphic(byte: u8) -> bool
    ensures { result ≡ is_graphic byte }
{
    byte >= 0x40 && byte < 0xFF
}

/// Whether all bytes are graphic characters.
fn are_graphic(text: &[u8]) -> bool
    ensures { result ≡ list_all is_graphic text.now }
{
    text.iter().all(|byte| is_graphic(*byte))
}

/// Whether a note may have this text: at most 131 graphic characters.
fn is_note_text(text: &[u8]) -> bool
    ensures { result ≡ is_note_text text.now }
{
    text.len() <= LONGEST && are_graphic(text)
}

impl NoteText {
    /// The text of a note, from characters of code page 037 (`0x40..=0xFE`). None if there are more than 131,
    /// or if a byte isn't such a character.
    pub fn new(text: &[u8]) -> Option<NoteText>
        ensures { result ≡ note_text text.now }
    {
        if !is_note_text(text) {
            return None;
        }
        let mut kept = [0; LONGEST];
        kept[..text.len()].copy_from_slice(text);
        Some(NoteText {
            text: kept,
            size: text.len(),
        })
    }

    /// The text's characters, at most 131, in code page 037.
    pub fn text(&self) -> &[u8]
        ensures text { result.now ≡ self.now }
        ensures note { IsNoteText self.now }
    {
        &self.text[..self.size]
    }
}
