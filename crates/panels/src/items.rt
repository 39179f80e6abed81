//! The texts, fields and values of a panel text: their extents, and whether they share cells.
ghost use Rattle.std.specs.Prelude.{◌≡◌, ◌≤ℤ◌, ◌<ℤ◌, ◌+ℤ◌, ◌-ℤ◌, IsTrue, true, false, MatchOption, pos, chars, length};
ghost use Rattle.std.specs.List.{list_any};
ghost use Rattle.panels.specs.Size.{item_rows, message_start};
ghost use Rattle.panels.specs.Items.{IsExtentOf, first_cell, has_column, has_no_code, has_row, is_in_rows, rows_below, is_on_screen, is_in_place, lacks_code, is_above_message, first_of};

use crate::draft::ItemDraft;
use crate::extent::Extent;
use crate::size::{item_rows, message_start};
use codes3270::{Size, from_latin1};

/// How many characters a text has.
pub(crate) fn characters_in(text: &str) -> i64
    ensures { result ≡ pos (length (chars text.now)) }
{
    text.chars().count() as i64
}

/// The 0-based index of a row or column that is numbered from 1 on.
fn index_of(position: i64) -> u16
    requires low { pos 1 ≤ℤ position }
    requires high { position ≤ℤ pos 65536 }
    ensures { pos result ≡ (position -ℤ pos 1) }
{
    (position - 1) as u16
}

/// The buffer address of a row and a column of a screen, both numbered from 1 on.
fn address_of(size: Size, row: i64, column: i64) -> i64
    requires row_high { row ≤ℤ pos (item_rows size) }
    requires row_low { pos 1 ≤ℤ row }
    requires column_high { column ≤ℤ pos size.columns }
    requires column_low { pos 1 ≤ℤ column }
    ensures value { result ≡ first_of size row column }
    ensures low { pos 0 ≤ℤ result }
    ensures high { result <ℤ pos (message_start size) }
{
    // For the contract: the rows above that for messages are on the screen.
    let _start = message_start(size);
    let _rows = size.rows();
    let rows = index_of(row);
    let columns = index_of(column);
    i64::from(rows * size.cols() + columns)
}

/// The extent of an item at an address; `None` unless it, with its attribute, is on the screen above the last row.
fn extent_at(size: Size, first: i64, length: i64) -> Option<Extent>
    requires low { pos 0 ≤ℤ first }
    requires high { first <ℤ pos (message_start size) }
    ensures { MatchOption result (is_above_message size first length ≡ false)
        (λ extent. (is_above_message size first length ≡ true) × (pos extent.first ≡ first)
        × (pos extent.length ≡ length)) }
{
    if first < 1 || length < 1 || i64::from(message_start(size)) - first < length {
        return None;
    }
    Some(Extent {
        first: first as u16,
        length: length as u16,
    })
}

/// Whether some character of a text has no code.
fn text_has_no_codes(text: &str) -> bool
    ensures { result ≡ list_any has_no_code (chars text.now) }
{
    text.chars()
        .any(|character| from_latin1(character).is_none())
}

impl<'a> ItemDraft<'a> {
    /// How many rows below that of its table it is.
    fn rows_below(&self) -> i64
        ensures { result ≡ pos (rows_below self.now) }
    {
        i64::from(self.copy.unwrap_or(0))
    }

    /// Whether its row is on a screen of this size, above the message row.
    fn has_row(&self, size: Size) -> bool
        ensures { result ≡ has_row size self.now }
    {
        1 <= self.row && self.row <= i64::from(item_rows(size)) - self.rows_below()
    }

    /// Whether its column is on a screen of this size.
    fn has_column(&self, size: Size) -> bool
        ensures { result ≡ has_column size self.now }
    {
        1 <= self.column && self.column <= i64::from(size.cols())
    }

    /// Whether its row and column are on a screen of this size, above the message row.
    fn is_in_rows(&self, size: Size) -> bool
        ensures { result ≡ is_in_rows size self.now }
    {
        self.has_row(size) && self.has_column(size)
    }

    /// Its row.
    fn first_row(&self, size: Size) -> i64
        requires { IsTrue (has_row size self.now) }
        ensures { result ≡ (self.now.row +ℤ pos (rows_below self.now)) }
    {
        self.row + self.rows_below()
    }

    /// The buffer address of its first character on a screen of this size.
    fn address(&self, size: Size) -> i64
        requires { IsTrue (is_in_rows size self.now) }
        ensures value { result ≡ first_cell size self.now }
        ensures low { pos 0 ≤ℤ result }
        ensures high { result <ℤ pos (message_start size) }
    {
        address_of(size, self.first_row(size), self.column)
    }

    /// Its extent on a screen of this size; `None` if it doesn't lie above the message row.
    pub(crate) fn extent(&self, size: Size) -> Option<Extent>
        ensures { MatchOption result (is_on_screen size self.now ≡ false)
            (λ extent. (is_on_screen size self.now ≡ true) × IsExtentOf size self.now extent) }
    {
        if !self.is_in_rows(size) {
            return None;
        }
        extent_at(size, self.address(size), self.length)
    }

    /// Whether it lies above the message row of a screen of this size, and its fill is no longer than it.
    pub(crate) fn stands_in_place(&self, size: Size) -> bool
        ensures { result ≡ is_in_place size self.now }
    {
        self.extent(size).is_some() && characters_in(self.fill) <= self.length
    }

    /// Whether some character of its text, its fill or its label has no code.
    pub(crate) fn has_no_codes(&self) -> bool
        ensures { result ≡ lacks_code self.now }
    {
        text_has_no_codes(self.text.unwrap_or(""))
            || text_has_no_codes(self.fill)
            || text_has_no_codes(self.label)
    }
}
