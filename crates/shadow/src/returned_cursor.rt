//! A cursor over returned fields.
ghost use Rattle.std.specs.Prelude.{◌≡◌, ◌<◌, ◌≤◌, ◌==◌, length};
ghost use Rattle.codes3270.specs.Size.{most_cells};
ghost use Rattle.shadow.specs.Belief.{next_address};
ghost use Rattle.shadow.specs.Came.{came_of, text_at, came_past};
ghost use Rattle.shadow.specs.Filled.{text_came, came_behind};
ghost use Rattle.shadow.specs.Borrowed.{text_of};

use crate::cell_belief::CellBelief;
use codes3270::MOST_CELLS;
use datastream::ReturnedFields;
use std::marker::Model;

/// A cursor over returned fields: the next one, and those after it. Contracts see their list.
#[derive(Drop)]
pub(crate) struct ReturnedCursor<'a> {
    /// The address of the next field's first cell; `MOST_CELLS` if none is left.
    first: usize,
    /// Its characters, without nulls.
    text: &'a [u8],
    behind: ReturnedFields<'a>,
}

impl<'a> Model for ReturnedCursor<'a> {
    ghost use Rattle.std.specs.Prelude.{List};
    ghost use Rattle.datastream.specs.InboundFields.{Returned};
    ghost use Rattle.shadow.specs.Came.{came_of};

    ghost Value = { List Returned };

    ghost view = { λ returned_cursor. came_of returned_cursor.first returned_cursor.text.now returned_cursor.behind };
}

/// The address after that of an attribute, wrapping at the end, on a screen with this many cells.
fn first_address(place: usize, cells: usize) -> usize
    requires placed { place < cells }
    requires few { cells ≤ most_cells }
    ensures address { result ≡ next_address cells place }
    ensures in_range { result < most_cells }
{
    if place + 1 < cells { place + 1 } else { 0 }
}

/// Takes the first of the fields that are left: its first cell's address and its text, or (`MOST_CELLS`, empty).
#[inline(always)]
fn next_of<'a>(rest: &mut ReturnedFields<'a>) -> (usize, &'a [u8])
    ensures { came_of result.0 result.1.now rest.new ≡ rest.old }
{
    match rest.next() {
        Some(field) => (field.first.get() as usize, field.text),
        None => (MOST_CELLS, &[]),
    }
}

impl<'a> ReturnedCursor<'a> {
    /// A cursor before the first of these fields.
    pub(crate) fn new(fields: ReturnedFields<'a>) -> ReturnedCursor<'a>
        ensures { result ≡ fields.entry }
    {
        let mut behind = fields;
        let (first, text) = next_of(&mut behind);
        ReturnedCursor {
            first,
            text,
            behind,
        }
    }

    /// Whether none is left.
    pub(crate) fn is_empty(&self) -> bool
        ensures { result ≡ (length self.now == 0) }
    {
        self.first == MOST_CELLS
    }

    /// The text that was returned for the field whose attribute is at `place`, on a screen with this many cells, if it
    /// is the next one; the cursor then passes it. `None` if a character is held there.
    #[inline(always)]
    pub(crate) fn take(&mut self, held: CellBelief, place: usize, cells: usize) -> Option<&'a [u8]>
        requires placed { place < cells }
        requires few { cells ≤ most_cells }
        ensures text { text_of result ≡ text_came cells held place self.old }
        ensures left { self.new ≡ came_behind cells held place self.old }
    {
        match held {
            CellBelief::Attr(_, _, _) => self.take_at(first_address(place, cells)),
            CellBelief::Known(_) => None,
            CellBelief::Unplaced(_) => None,
            CellBelief::Unknown => None,
        }
    }

    /// The text of the next field, if its first cell is at an address; the cursor then passes it.
    #[inline(always)]
    fn take_at(&mut self, first: usize) -> Option<&'a [u8]>
        requires { first < most_cells }
        ensures text { text_of result ≡ text_at first self.old }
        ensures left { self.new ≡ came_past first self.old }
    {
        if first != self.first {
            return None;
        }
        let came = self.text;
        let (next, text) = next_of(&mut self.behind);
        self.first = next;
        self.text = text;
        Some(came)
    }
}
