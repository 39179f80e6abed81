//! The character buffer of a screen, with its model, its size, its cursor and its AID.
ghost use Rattle.std.specs.Prelude.{◌≡◌, ◌<◌, Some, length, slice_get, slice_set};
ghost use Rattle.codes3270.specs.Size.{cells_in};
ghost use Rattle.codes3270.specs.Aid.{IsRealAid};
ghost use Rattle.datastream.specs.InboundFields.{IsStorableCell};
ghost use Rattle.presentation.specs.Sizes.{IsSized, blank_of};

use crate::screen_cells::ScreenCells;
use codes3270::{Addr, Aid, Cell, Model, Size};
use std::marker;

/// The cells of a screen (GA23-0059-07 on the character buffer), its model and its size, the cursor and the AID. Each
/// character is one that a cell can hold (`codes3270::storable`).
#[derive(Clone, Drop)]
pub(crate) struct Buffer {
    pub(crate) cells: ScreenCells,
    pub(crate) model: Model,
    pub(crate) size: Size,
    pub(crate) cursor: Addr,
    pub(crate) aid: Aid,
}

impl marker::Model for Buffer {
    ghost use Rattle.presentation.specs.Sizes.{SizedScreen, IsSized};

    ghost Value = { SizedScreen };

    ghost view = { λ s. record {
      model = s.model;
      size = s.size;
      screen = record { cells = s.cells; cursor = s.cursor; aid = s.aid };
    } };

    ghost invariant = { λ s. IsSized (record {
      model = s.model;
      size = s.size;
      screen = record { cells = s.cells; cursor = s.cursor; aid = s.aid };
    }) };
}

/// The AID itself. `get` is called only for the proof: it ensures that the key's number is in range.
pub(crate) fn with_real_key(aid: Aid) -> Aid
    ensures same { result ≡ aid }
    ensures real { IsRealAid result }
{
    match aid {
        Aid::NoAid => Aid::NoAid,
        Aid::Enter => Aid::Enter,
        Aid::Clear => Aid::Clear,
        Aid::Pf(key) => {
            // For the contract: the number is in range.
            let _number = key.get();
            Aid::Pf(key)
        }
        Aid::Pa(key) => {
            // For the contract: the number is in range.
            let _number = key.get();
            Aid::Pa(key)
        }
    }
}

impl Buffer {
    /// A screen of 24 rows of 80 nulls, the cursor at 0, no AID.
    pub(crate) fn blank(model: Model) -> Buffer
        ensures { result ≡ blank_of model }
    {
        Buffer {
            cells: ScreenCells::nulls(Size::base()),
            model,
            size: Size::base(),
            cursor: Addr::first(),
            aid: Aid::NoAid,
        }
    }

    /// The cells.
    pub(crate) fn cells(&self) -> &ScreenCells
        ensures cells { result.now ≡ self.now.screen.cells }
        ensures count { length result.now ≡ cells_in self.now.size }
        ensures sized { IsSized self.now }
    {
        &self.cells
    }

    /// The cell at an address.
    pub(crate) fn cell(&self, at: Addr) -> Cell
        requires { at < cells_in self.now.size }
        ensures value { slice_get self.now.screen.cells at ≡ Some result }
        ensures storable { IsStorableCell result }
        ensures sized { IsSized self.now }
    {
        self.cells.get(at.get() as usize)
    }

    /// Stores a cell at an address.
    pub(crate) fn set_cell(&mut self, at: Addr, cell: Cell)
        requires address { at < cells_in self.old.size }
        requires storable { IsStorableCell cell }
        ensures { self.new
            ≡ record self.old { screen = record self.old.screen { cells = slice_set self.old.screen.cells at cell } } }
    {
        self.cells.set(at.get() as usize, cell);
    }

    /// The cursor's address.
    pub(crate) fn cursor(&self) -> Addr
        ensures cursor { result ≡ self.now.screen.cursor }
        ensures in_range { result < cells_in self.now.size }
        ensures sized { IsSized self.now }
    {
        self.cursor
    }
}
