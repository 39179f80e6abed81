//! The characters that a screen displays.
ghost use Rattle.std.specs.Prelude.{◌≡◌};
ghost use Rattle.presentation.specs.Glyph.{glyph_of, glyph_of_code, is_hidden, hidden_from, shown};

use crate::screen_cells::ScreenCells;
use codes3270::{Attr, Cell, Display};
use std::marker::Model;

/// The displayed character of each code, in ISO 8859-1.
static GLYPHS: [u8; 256] = [
    0x20, 0x20, 0x20, 0x20, 0x20, 0x20, 0x20, 0x20, 0x20, 0x20, 0x20, 0x20, 0x20, 0x20, 0x20, 0x20,
    0x20, 0x20, 0x20, 0x20, 0x20, 0x20, 0x20, 0x20, 0x20, 0x20, 0x20, 0x20, 0x2A, 0x20, 0x3B, 0x20,
    0x20, 0x20, 0x20, 0x20, 0x20, 0x20, 0x20, 0x20, 0x20, 0x20, 0x20, 0x20, 0x20, 0x20, 0x20, 0x20,
    0x20, 0x20, 0x20, 0x20, 0x20, 0x20, 0x20, 0x20, 0x20, 0x20, 0x20, 0x20, 0x20, 0x20, 0x20, 0x20,
    0x20, 0xA0, 0xE2, 0xE4, 0xE0, 0xE1, 0xE3, 0xE5, 0xE7, 0xF1, 0xA2, 0x2E, 0x3C, 0x28, 0x2B, 0x7C,
    0x26, 0xE9, 0xEA, 0xEB, 0xE8, 0xED, 0xEE, 0xEF, 0xEC, 0xDF, 0x21, 0x24, 0x2A, 0x29, 0x3B, 0xAC,
    0x2D, 0x2F, 0xC2, 0xC4, 0xC0, 0xC1, 0xC3, 0xC5, 0xC7, 0xD1, 0xA6, 0x2C, 0x25, 0x5F, 0x3E, 0x3F,
    0xF8, 0xC9, 0xCA, 0xCB, 0xC8, 0xCD, 0xCE, 0xCF, 0xCC, 0x60, 0x3A, 0x23, 0x40, 0x27, 0x3D, 0x22,
    0xD8, 0x61, 0x62, 0x63, 0x64, 0x65, 0x66, 0x67, 0x68, 0x69, 0xAB, 0xBB, 0xF0, 0xFD, 0xFE, 0xB1,
    0xB0, 0x6A, 0x6B, 0x6C, 0x6D, 0x6E, 0x6F, 0x70, 0x71, 0x72, 0xAA, 0xBA, 0xE6, 0xB8, 0xC6, 0xA4,
    0xB5, 0x7E, 0x73, 0x74, 0x75, 0x76, 0x77, 0x78, 0x79, 0x7A, 0xA1, 0xBF, 0xD0, 0xDD, 0xDE, 0xAE,
    0x5E, 0xA3, 0xA5, 0xB7, 0xA9, 0xA7, 0xB6, 0xBC, 0xBD, 0xBE, 0x5B, 0x5D, 0xAF, 0xA8, 0xB4, 0xD7,
    0x7B, 0x41, 0x42, 0x43, 0x44, 0x45, 0x46, 0x47, 0x48, 0x49, 0xAD, 0xF4, 0xF6, 0xF2, 0xF3, 0xF5,
    0x7D, 0x4A, 0x4B, 0x4C, 0x4D, 0x4E, 0x4F, 0x50, 0x51, 0x52, 0xB9, 0xFB, 0xFC, 0xF9, 0xFA, 0xFF,
    0x5C, 0xF7, 0x53, 0x54, 0x55, 0x56, 0x57, 0x58, 0x59, 0x5A, 0xB2, 0xD4, 0xD6, 0xD2, 0xD3, 0xD5,
    0x30, 0x31, 0x32, 0x33, 0x34, 0x35, 0x36, 0x37, 0x38, 0x39, 0xB3, 0xDB, 0xDC, 0xD9, 0xDA, 0x20,
];

fn glyph_of_code(code: u8) -> char
    ensures { result ≡ glyph_of_code code }
{
    char::from(GLYPHS[usize::from(code)])
}

pub(crate) fn glyph_of(cell: Cell) -> char
    ensures { result ≡ glyph_of cell }
{
    match cell {
        Cell::Char(code) => glyph_of_code(code),
        Cell::Attr(_) => ' ',
    }
}

/// Whether cells that this attribute governs are hidden; cells of no field aren't.
pub(crate) fn is_hidden(over: Option<Attr>) -> bool
    ensures { result ≡ is_hidden over }
{
    match over {
        Some(attr) => matches!(attr.display, Display::Hidden),
        None => false,
    }
}

/// Whether cells are hidden from `cell` on; `before`: whether the one before it is.
fn is_hidden_from(before: bool, cell: Cell) -> bool
    ensures { result ≡ hidden_from before cell }
{
    match cell {
        Cell::Char(_) => before,
        Cell::Attr(attr) => matches!(attr.display, Display::Hidden),
    }
}

/// The character, or a blank if it is hidden.
fn shown_glyph(hidden: bool, glyph: char) -> char
    ensures { result ≡ shown hidden glyph }
{
    if hidden { ' ' } else { glyph }
}

/// The displayed character of a code, or a blank if it is hidden.
fn glyph_or_blank(hidden: bool, code: u8) -> char
    ensures { result ≡ shown hidden (glyph_of_code code) }
{
    // A null is displayed as a blank.
    glyph_of_code(if hidden { 0 } else { code })
}

/// An iterator over a screen's displayed characters, by address. Contracts see the list of those left.
#[derive(Drop)]
pub struct Glyphs<'a> {
    pub(crate) cells: &'a ScreenCells,
    /// The address of the next one's cell.
    pub(crate) next: usize,
    /// The address of the first attribute from there on, or the number of cells.
    pub(crate) attribute: usize,
    /// Whether the cells up to that attribute are hidden.
    pub(crate) hidden: bool,
}

impl<'a> Model for Glyphs<'a> {
    ghost use Rattle.std.specs.Prelude.{◌≡◌, ◌≤◌, ◌+◌, List, ℕ, drop, length};
    ghost use Rattle.std.specs.List.{prefix_len};
    ghost use Rattle.datastream.specs.Screen.{is_char};
    ghost use Rattle.presentation.specs.Glyph.{glyphs_from};

    ghost Value = { List ℕ };

    ghost view = { λ glyphs. glyphs_from glyphs.hidden (drop glyphs.next glyphs.cells.now) };

    ghost invariant = { λ glyphs. (glyphs.attribute ≡ glyphs.next
        + prefix_len is_char (drop glyphs.next glyphs.cells.now)) × (glyphs.attribute ≤ length glyphs.cells.now) };
}

impl<'a> Iterator for Glyphs<'a> {
    ghost use Rattle.std.specs.Iterator.{YieldsFirst, item_count};

    type Item = char;

    ghost next_gives = { YieldsFirst (λ glyphs. glyphs) };

    ghost remaining = { item_count (λ glyphs. glyphs) };

    fn next(&mut self) -> Option<char> {
        let at = self.next;
        if at < self.attribute {
            self.next = at + 1;
            Some(glyph_or_blank(self.hidden, self.cells.character(at)))
        } else if at < self.cells.len() {
            let cell = self.cells.get(at);
            self.next = at + 1;
            self.attribute = self.cells.attribute_from(at + 1);
            self.hidden = is_hidden_from(self.hidden, cell);
            Some(shown_glyph(self.hidden, glyph_of(cell)))
        } else {
            None
        }
    }
}
