//! A text for the last row of a screen.
ghost use Rattle.std.specs.Prelude.{◌≡◌, [], IsTrue};
ghost use Rattle.std.specs.List.{list_all};
ghost use Rattle.service_wire.specs.Texts.{is_graphic, is_text, shown, text_of, text_of_codes};

use codes3270::{from_latin1, to_latin1};
use std::fmt;
use std::marker::Model;

/// The most characters of a text.
const LONGEST: usize = 131;

/// A text for the last row of a screen: 0 to 131 characters of code page 037. Contracts see it as the list of their
/// codes.
#[derive(Drop)]
pub struct NoteText {
    codes: [u8; LONGEST],
    size: usize,
}

impl Model for NoteText {
    ghost use Rattle.std.specs.Prelude.{ℕ, List, take};
    ghost use Rattle.service_wire.specs.Texts.{IsKept};

    ghost Value = { List ℕ };

    ghost view = { λ text. take text.size text.codes };

    ghost invariant = { λ text. IsKept text.codes text.size };
}

/// Whether a code is that of a character of code page 037, `0x40..=0xFE`.
fn is_graphic(code: u8) -> bool
    ensures { result ≡ is_graphic code }
{
    code >= 0x40 && code < 0xFF
}

/// Whether all codes are those of characters.
fn are_graphic(codes: &[u8]) -> bool
    ensures { result ≡ list_all is_graphic codes.now }
{
    codes.iter().all(|code| is_graphic(*code))
}

/// The text of these codes; None if they are more than 131, or if one isn't that of a character.
fn text_of_codes(codes: &[u8]) -> Option<NoteText>
    ensures { result ≡ text_of_codes codes.now }
{
    if codes.len() > LONGEST || !are_graphic(codes) {
        return None;
    }
    let mut kept = [0; LONGEST];
    kept[..codes.len()].copy_from_slice(codes);
    Some(NoteText {
        codes: kept,
        size: codes.len(),
    })
}

impl NoteText {
    /// The empty text.
    pub fn new() -> NoteText
        ensures { result ≡ [] }
    {
        NoteText {
            codes: [0; LONGEST],
            size: 0,
        }
    }

    /// The same text again.
    pub fn duplicate(&self) -> NoteText
        ensures { result ≡ self.now }
    {
        NoteText {
            codes: self.codes,
            size: self.size,
        }
    }

    /// The text with these characters. None if there are more than 131, or if one isn't in code page 037.
    pub fn read(text: &str) -> Option<NoteText>
        ensures { result ≡ text_of text.now }
    {
        let mut codes = [0; LONGEST];
        let mut count = 0;
        for character in text.chars() {
            if count == LONGEST {
                return None;
            }
            codes[count] = from_latin1(character)?;
            count += 1;
        }
        text_of_codes(&codes[..count])
    }

    /// The codes of its characters in code page 037.
    pub fn codes(&self) -> &[u8]
        ensures codes { result.now ≡ self.now }
        ensures is_text { IsTrue (is_text self.now) }
    {
        &self.codes[..self.size]
    }
}

/// The character that is printed for a code: a blank if the code is of none.
fn shown(code: u8) -> char
    ensures { result ≡ shown code }
{
    to_latin1(code).unwrap_or(' ')
}

/// Prints the characters.
impl fmt::Display for NoteText {
    ghost use Rattle.std.specs.Prelude.{Some};
    ghost use Rattle.service_wire.specs.Texts.{text_from};

    ghost output = { λ text. Some (text_from text) };

    fn fmt<W: fmt::Write>(&self, f: &mut fmt::Formatter<W>) -> fmt::Result {
        for code in self.codes() {
            f.write_char(shown(*code))?;
        }
        Ok(())
    }
}
