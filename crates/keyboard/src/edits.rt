//! Typing and erasing at the cursor.
ghost use Rattle.std.specs.Prelude.{◌≡◌, ◌+◌, ◌<◌, ◌≤◌, ◌∷◌, ◌++◌, ◌&&◌, not, Ok, Err, None, Some, true, MatchResult, MatchOption, length, take, drop, replicate, slice_index_or};
ghost use Rattle.codes3270.specs.Size.{cells_in};
ghost use Rattle.codes3270.specs.Storable.{is_storable};
ghost use Rattle.codes3270.specs.declared.attribute.Cell.TheVariants.{Char};
ghost use Rattle.datastream.specs.Screen.{is_char_at};
ghost use Rattle.keyboard.specs.Places.{governing_place};
ghost use Rattle.keyboard.specs.Edits.{reach, text_from, laid, marked_at, without_null, with_room, deleted, advanced, past_attribute, is_numeric_letter, wants_numbers, typed, with_deleted, with_field_erased};

use crate::{Refusal, places};
use codes3270::{Addr, Attr, Cell, from_latin1};
use presentation::Screen;

/// Types a character at the cursor.
pub(crate) fn type_character(
    screen: &mut Screen,
    inserting: bool,
    letter: char,
) -> Result<(), Refusal>
    ensures edit { let edit = typed inserting letter screen.old.screen in
        MatchResult result (λ _. edit ≡ Ok screen.new.screen)
        (λ why. (edit ≡ Err why) × (screen.new.screen ≡ screen.old.screen)) }
    ensures size { screen.new ≡ record screen.old { screen = screen.new.screen } }
{
    let Some(byte) = from_latin1(letter) else {
        return Err(Refusal::NoCode);
    };
    let at = screen.cursor();
    if !places::is_free(screen, at) {
        return Err(Refusal::Protected);
    }
    if is_refused_by(screen.attribute_over(at), letter) {
        return Err(Refusal::NotNumeric);
    }
    let Some(count) = room(screen, at, inserting) else {
        return Err(Refusal::NoRoom);
    };
    push(screen, at, count, byte);
    mark_modified(screen);
    advance(screen);
    Ok(())
}

/// Deletes the character at the cursor: the characters after it in its field and row move back by one cell.
pub(crate) fn delete(screen: &mut Screen) -> Result<(), Refusal>
    ensures edit { let edit = with_deleted screen.old.size.columns screen.old.screen in
        MatchResult result (λ _. edit ≡ Ok screen.new.screen)
        (λ why. (edit ≡ Err why) × (screen.new.screen ≡ screen.old.screen)) }
    ensures size { screen.new ≡ record screen.old { screen = screen.new.screen } }
{
    let at = screen.cursor();
    if !places::is_free(screen, at) {
        return Err(Refusal::Protected);
    }
    let columns = places::columns_of(screen);
    let row_rest = columns - at.get() % columns;
    let count = text_length(screen, at).min(row_rest);
    pull(screen, at, count);
    mark_modified(screen);
    Ok(())
}

/// Stores nulls from the cursor to the end of its field.
pub(crate) fn erase_to_field_end(screen: &mut Screen) -> Result<(), Refusal>
    ensures edit { let edit = with_field_erased screen.old.screen in
        MatchResult result (λ _. edit ≡ Ok screen.new.screen)
        (λ why. (edit ≡ Err why) × (screen.new.screen ≡ screen.old.screen)) }
    ensures size { screen.new ≡ record screen.old { screen = screen.new.screen } }
{
    let at = screen.cursor();
    if !places::is_free(screen, at) {
        return Err(Refusal::Protected);
    }
    let count = text_length(screen, at);
    put_nulls(screen, at, count);
    mark_modified(screen);
    Ok(())
}

/// Whether a field with this attribute is numeric. Cells without a field aren't.
fn is_numeric(over: Option<Attr>) -> bool
    ensures { result ≡ wants_numbers over }
{
    match over {
        Some(attr) => attr.numeric,
        None => false,
    }
}

/// Whether a field is numeric and a character isn't allowed there.
fn is_refused_by(over: Option<Attr>, letter: char) -> bool
    ensures { result ≡ (wants_numbers over && not (is_numeric_letter letter)) }
{
    is_numeric(over) && !is_numeric_character(letter)
}

/// Whether a numeric field accepts a character: a digit, a point or a minus sign.
fn is_numeric_character(letter: char) -> bool
    ensures { result ≡ is_numeric_letter letter }
{
    matches!(letter, '0'..='9' | '.' | '-')
}

/// The character in a cell, which must have one.
fn character_at(screen: &Screen, at: Addr) -> u8
    requires address { at < cells_in screen.now.size }
    requires character { is_char_at screen.now.screen.cells at ≡ true }
    ensures value { slice_index_or screen.now.screen.cells at (Char 0) ≡ Char result }
    ensures storable { is_storable result ≡ true }
{
    match screen.cell(at) {
        Cell::Char(byte) => byte,
        Cell::Attr(_) => 0,
    }
}

/// The number of cells that an edit can reach: all cells or, on an unformatted screen, those up to the last one.
fn reach_length(screen: &Screen, at: Addr) -> u16
    requires { at < cells_in screen.now.size }
    ensures { result ≡ length (reach screen.now.screen.cells at) }
{
    let cells = screen.size().cells();
    if screen.field_at(at).is_some() {
        cells
    } else {
        cells - at.get()
    }
}

/// The number of characters from a cell to the end of its field.
fn text_length(screen: &Screen, at: Addr) -> u16
    requires { at < cells_in screen.now.size }
    ensures value { result ≡ length (text_from screen.now.screen.cells at) }
    ensures bound { result ≤ cells_in screen.now.size }
{
    let size = screen.size();
    let limit = reach_length(screen, at);
    for step in 0..limit {
        if !places::is_character_at(screen, at.forward(step, size)) {
            return step;
        }
    }
    limit
}

/// The number of characters that shift to make room for a typed one: none or, in insert mode, those before the first
/// null. Without a null there, insert mode has no room.
fn room(screen: &Screen, at: Addr, inserting: bool) -> Option<u16>
    requires address { at < cells_in screen.now.size }
    requires free { is_char_at screen.now.screen.cells at ≡ true }
    ensures { let text = text_from screen.now.screen.cells at in
        MatchOption result (with_room inserting text ≡ None)
        (λ count. (with_room inserting text ≡ Some (take count text ++ drop (count + 1) text)) × (count < length text)
        × (count < cells_in screen.now.size)) }
{
    // For the contract: the screen has the cell.
    let _size = screen.size();
    if inserting {
        first_null(screen, at)
    } else {
        Some(0)
    }
}

/// The number of characters before the first null of the field, from a cell on.
fn first_null(screen: &Screen, at: Addr) -> Option<u16>
    requires { at < cells_in screen.now.size }
    ensures { let text = text_from screen.now.screen.cells at in
        MatchOption result (without_null text ≡ None)
        (λ count. (without_null text ≡ Some (take count text ++ drop (count + 1) text)) × (count < length text)
        × (count < cells_in screen.now.size)) }
{
    let size = screen.size();
    for step in 0..text_length(screen, at) {
        if character_at(screen, at.forward(step, size)) == 0 {
            return Some(step);
        }
    }
    None
}

/// Stores a character in a cell, and moves the `count` characters from there on by one cell to the right.
fn push(screen: &mut Screen, at: Addr, count: u16, byte: u8)
    requires address { at < cells_in screen.old.size }
    requires count { count < length (text_from screen.old.screen.cells at) }
    requires in_range { count < cells_in screen.old.size }
    requires storable { is_storable byte ≡ true }
    ensures { let old = screen.old.screen.cells in
        screen.new ≡ record screen.old {
          screen = record screen.old.screen { cells = laid at (count + 1) (byte ∷ text_from old at) old };
        } }
{
    let size = screen.size();
    let mut carried = byte;
    for step in 0..=count {
        let place = at.forward(step, size);
        let next = character_at(screen, place);
        screen.set_char(place, carried);
        carried = next;
    }
}

/// Removes the first of `count` characters, moves the others by one cell to the left, and stores a null after them.
fn pull(screen: &mut Screen, at: Addr, count: u16)
    requires address { at < cells_in screen.old.size }
    requires some { 0 < count }
    requires count { count ≤ length (text_from screen.old.screen.cells at) }
    requires in_range { count ≤ cells_in screen.old.size }
    ensures { let old = screen.old.screen.cells in
        screen.new ≡ record screen.old {
          screen = record screen.old.screen { cells = laid at count (deleted (take count (text_from old at))) old };
        } }
{
    let size = screen.size();
    for step in 1..count {
        let byte = character_at(screen, at.forward(step, size));
        screen.set_char(at.forward(step - 1, size), byte);
    }
    screen.set_char(at.forward(count - 1, size), 0);
}

/// Stores nulls in `count` cells of a field.
fn put_nulls(screen: &mut Screen, at: Addr, count: u16)
    requires address { at < cells_in screen.old.size }
    requires count { count ≤ length (text_from screen.old.screen.cells at) }
    requires in_range { count ≤ cells_in screen.old.size }
    ensures { screen.new ≡ record screen.old {
      screen = record screen.old.screen { cells = laid at count (replicate count 0) screen.old.screen.cells };
    } }
{
    let size = screen.size();
    for step in 0..count {
        screen.set_char(at.forward(step, size), 0);
    }
}

/// Sets MDT of the field that the cursor is in, if it is in one.
fn mark_modified(screen: &mut Screen)
    ensures { let old = screen.old.screen.cells in
        screen.new ≡ record screen.old {
          screen = record screen.old.screen { cells = marked_at (governing_place old screen.old.screen.cursor) old };
        } }
{
    if let Some(field) = screen.field_at(screen.cursor()) {
        screen.set_mdt(field.attr);
    }
}

/// Moves the cursor on after a character was typed.
fn advance(screen: &mut Screen)
    ensures { screen.new ≡ record screen.old { screen = advanced screen.old.screen } }
{
    let next = places::right(screen, screen.cursor());
    let to = past(screen, screen.cell(next).attribute(), next);
    screen.set_cursor(to);
}

/// The address to which the cursor moves when the next cell is `next`, which may have an attribute: it skips the
/// attribute, and the whole field if that is autoskip.
fn past(screen: &Screen, attribute: Option<Attr>, next: Addr) -> Addr
    requires { next < cells_in screen.now.size }
    ensures value { result ≡ past_attribute attribute screen.now.screen.cells next }
    ensures in_range { result < cells_in screen.now.size }
{
    match attribute {
        None => next,
        Some(attr) => {
            if attr.protected && attr.numeric {
                places::next_start(screen, next)
            } else {
                places::right(screen, next)
            }
        }
    }
}
