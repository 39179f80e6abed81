//! What lines and answers of several subjects say of cells, screens, beliefs and wanted screens.
//!
//! A cell is `C1`, a character, or `1D60`, an attribute; `??` isn't known.
//!
//! ```text
//! want MODEL WANT            a screen of a model's alternate size full of one thing: keep, C1 or 1D60
//! put ADDR WANT ..           wants from an address on
//! aim ADDR BOOL              its cursor, and whether it resets MDT
//! ```
ghost use Rattle.std.specs.Prelude.{◌<◌, ◌≡◌, true, All};
ghost use Rattle.codes3270.specs.Size.{cells_in};
ghost use Rattle.codes3270.specs.Storable.{is_storable};
ghost use Rattle.datastream.specs.Wanted.{IsProper};
ghost use Rattle.shadow.specs.Belief.{HasCell, IsOfSize};

use crate::talk::{Answer, Fault, Words};
use codes3270::{Addr, Aid, Attr, Cell, Size, aid_from_byte, attr_code, storable};
use datastream::{Form, Want, Wanted};
use keyboard::Key;
use presentation::Screen;
use shadow::Shadow;

pub(crate) fn form(words: &mut Words<'_>) -> Form {
    words.named(&[Form::Modified, Form::All, Form::Buffer], Form::Modified)
}

pub(crate) fn aid(words: &mut Words<'_>) -> Aid {
    let aid = aid_from_byte(words.byte());
    words.or(aid, Aid::Enter)
}

pub(crate) fn key(words: &mut Words<'_>) -> Key {
    let key = Key::named(words.word());
    words.or(key, Key::Enter)
}

/// The buffer address of a cell; 0 if it is beyond a screen of this size.
pub(crate) fn at(place: u16, size: Size) -> Addr
    ensures { result < cells_in size }
{
    // For the contract: the screen has a first cell.
    let _cells = size.cells();
    Addr::new(place, size).unwrap_or(Addr::first())
}

pub(crate) fn place_on(words: &mut Words<'_>, size: Size) -> u16 {
    let place = words.number();
    if place >= size.cells() {
        words.fail(Fault::Line);
    }
    place
}

/// The code of a character that can be stored; that of a blank by default.
pub(crate) fn character(words: &mut Words<'_>, digits: &str) -> u8
    ensures { is_storable result ≡ true }
{
    let code = words.byte_of(digits);
    if storable(code) {
        return code;
    }
    words.fail(Fault::Line);
    0x40
}

pub(crate) fn are_storable(bytes: &[u8]) -> bool
    ensures { result ≡ true → All (λ byte. is_storable byte ≡ true) bytes.now }
{
    bytes.iter().all(|byte| storable(*byte))
}

fn put_cell(answer: &mut Answer, cell: Option<Cell>) {
    match cell {
        Some(Cell::Char(code)) => write!(answer, "{code:02X}"),
        Some(Cell::Attr(attr)) => write!(answer, "1D{:02X}", attr_code(attr)),
        None => write!(answer, "??"),
    }
}

pub(crate) fn put_cells(answer: &mut Answer, screen: &Screen) {
    write!(answer, "cells ");
    for place in 0..screen.size().cells() {
        let cell = screen.cell(at(place, screen.size()));
        put_cell(answer, Some(cell));
    }
    writeln!(answer)
}

/// The size of the screen of which something is known; 24 by 80 if nothing is known.
pub(crate) fn size_of(shadow: &Shadow) -> Size
    ensures { IsOfSize (cells_in result) shadow.now }
{
    shadow.size().unwrap_or(Size::base())
}

/// The address of a cell of the screen of which something is known; 0 if it has no such cell.
pub(crate) fn cell_at(shadow: &Shadow, place: u16) -> Addr
    ensures { HasCell result shadow.now }
{
    at(place, size_of(shadow))
}

fn put_field(answer: &mut Answer, shadow: &Shadow, place: u16) {
    let addr = cell_at(shadow, place);
    if let Some(fact) = shadow.fact(addr) {
        write!(answer, "field {place} {fact:?} ");
        for code in shadow.text(addr) {
            write!(answer, "{code:02X}");
        }
        writeln!(answer)
    }
}

pub(crate) fn put_belief(answer: &mut Answer, shadow: &Shadow) {
    let count = shadow.size().map_or(0, |size| size.cells());
    write!(answer, "belief ");
    for place in 0..count {
        put_cell(answer, shadow.known(cell_at(shadow, place)));
    }
    writeln!(answer);
    for place in 0..count {
        put_field(answer, shadow, place);
    }
}

fn want_of(words: &mut Words<'_>, word: &str) -> Want
    ensures { IsProper result }
{
    match word.strip_prefix("1D") {
        _ if word == "keep" => Want::Keep,
        Some(digits) => Want::Attr(Attr::from_code(words.byte_of(digits))),
        None => Want::Char(character(words, word)),
    }
}

fn put(words: &mut Words<'_>, wanted: &mut Wanted) {
    let first = words.number::<usize>();
    for (place, word) in (first..).zip(words.rest().split_whitespace()) {
        let want = want_of(words, word);
        if place < usize::from(wanted.size().cells()) {
            wanted.put(place, want);
        }
    }
}

pub(crate) fn change(words: &mut Words<'_>, wanted: &mut Wanted, word: &str) {
    match word {
        "want" => {
            let (size, word) = (words.size(), words.word());
            *wanted = Wanted::filled(want_of(words, word), size)
        }
        "put" => put(words, wanted),
        "aim" => {
            let cursor = at(place_on(words, wanted.size()), wanted.size());
            wanted.set_cursor_and_reset(cursor, words.number())
        }
        _ => words.fail(Fault::Line),
    }
}

pub(crate) fn put_wanted(answer: &mut Answer, wanted: &Wanted) {
    answer.line(&(wanted.size(), wanted.cursor(), wanted.reset()));
    answer.each("cells", wanted.cells())
}
