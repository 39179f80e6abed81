//! The screen, and the changes that commands and keys make to it.
ghost use Rattle.std.specs.Prelude.{◌≡◌, ◌<◌, ℕ, IfNone, IfSome, false, true, length, slice_get, slice_index_or, slice_set, Some, IsTrue};
ghost use Rattle.codes3270.specs.Size.{cells_in};
ghost use Rattle.codes3270.specs.Storable.{is_storable};
ghost use Rattle.codes3270.specs.declared.attribute.Cell.TheVariants.{Char};
ghost use Rattle.datastream.specs.Meaning.{modified, home, cleared, unprotected_erased};
ghost use Rattle.datastream.specs.Screen.{is_char_at};
ghost use Rattle.codes3270.specs.Aid.{IsRealAid};
ghost use Rattle.datastream.specs.InboundFields.{IsSendable, IsStorableCell};
ghost use Rattle.presentation.specs.Applied.{asked_by};
ghost use Rattle.presentation.specs.Places.{IsFirstStart, starts_at};
ghost use Rattle.presentation.specs.Sizes.{HasSize, IsReadFor, applied, blank_of};
ghost use Rattle.presentation.specs.Glyph.{glyph_at, all_glyphs};

use crate::buffer::{Buffer, with_real_key};
use crate::glyph::{Glyphs, glyph_of, is_hidden};
use crate::index::AttributeIndex;
use crate::{Applied, cells, index};
use codes3270::{Addr, Aid, Cell, Model, Size};
use datastream::Command;
use std::marker;

/// The screen of a terminal of a model (GA23-0059-07 on the character buffer and on screen sizes): its size, its cells,
/// the cursor and the AID. Each character is one that a cell can hold (`codes3270::storable`). Contracts see the model,
/// the size, and the screen as the list of its cells, the cursor's address and the AID.
///
/// Each address that is passed to a screen must be below its number of cells.
#[derive(Clone, Drop)]
pub struct Screen {
    pub(crate) buffer: Buffer,
    /// The addresses of its attributes, in ascending order.
    pub(crate) attributes: AttributeIndex,
}

impl marker::Model for Screen {
    ghost use Rattle.std.specs.Prelude.{◌≡◌};
    ghost use Rattle.presentation.specs.Places.{attribute_places};
    ghost use Rattle.presentation.specs.Sizes.{SizedScreen};

    ghost Value = { SizedScreen };

    ghost view = { λ s. s.buffer };

    ghost invariant = { λ s. s.attributes ≡ attribute_places s.buffer.screen.cells 0 };
}

impl Screen {
    /// The screen of this model at the beginning of each connection: 24 rows of 80 nulls, the cursor at 0, no AID.
    pub fn blank(model: Model) -> Screen
        ensures { result ≡ blank_of model }
    {
        Screen {
            buffer: Buffer::blank(model),
            attributes: AttributeIndex::empty(),
        }
    }

    /// The terminal's model.
    pub fn model(&self) -> Model
        ensures { result ≡ self.now.model }
    {
        let buffer = &self.buffer;
        buffer.model
    }

    /// The current size: that of the last Erase/Write or Erase/Write Alternate; 24 rows of 80 cells before the first.
    pub fn size(&self) -> Size
        ensures size { result ≡ self.now.size }
        // It is one of the model's two sizes, and there is a cell for each of its addresses.
        ensures one_of_two { HasSize self.now.model result }
        ensures cells { length self.now.screen.cells ≡ cells_in self.now.size }
        ensures sendable { IsSendable self.now.screen }
    {
        let buffer = &self.buffer;
        buffer.size
    }

    /// The cell at an address.
    pub fn cell(&self, at: Addr) -> Cell
        requires { at < cells_in self.now.size }
        ensures value { slice_get self.now.screen.cells at ≡ Some result }
        ensures storable { IsStorableCell result }
        ensures sendable { IsSendable self.now.screen }
    {
        self.buffer.cell(at)
    }

    /// The cursor's address.
    pub fn cursor(&self) -> Addr
        ensures value { result ≡ self.now.screen.cursor }
        ensures in_range { result < cells_in self.now.size }
        ensures size { length self.now.screen.cells ≡ cells_in self.now.size }
        ensures sendable { IsSendable self.now.screen }
    {
        self.buffer.cursor()
    }

    /// The AID of the last key that sent one; no AID if the host has restored the keyboard since.
    pub fn aid(&self) -> Aid
        ensures value { result ≡ self.now.screen.aid }
        // The number of a PF key is in 1..=24, that of a PA key in 1..=3.
        ensures real { IsRealAid result }
        ensures sendable { IsSendable self.now.screen }
    {
        let buffer = &self.buffer;
        buffer.aid
    }

    /// Stores a character in a cell. The cell must not hold an attribute (see `cell`), and the byte must be one that a
    /// cell can hold (see `codes3270::storable`).
    pub fn set_char(&mut self, at: Addr, byte: u8)
        requires address { at < cells_in self.old.size }
        requires free { IsTrue (is_char_at self.old.screen.cells at) }
        requires storable { is_storable byte ≡ true }
        ensures { self.new ≡ record self.old {
          screen = record self.old.screen { cells = slice_set self.old.screen.cells at (Char byte) };
        } }
    {
        self.buffer.set_cell(at, Cell::Char(byte));
    }

    /// Turns MDT on in the attribute at an address. The cell must hold an attribute (see `cell`).
    pub fn set_mdt(&mut self, at: Addr)
        requires address { at < cells_in self.old.size }
        requires attribute { is_char_at self.old.screen.cells at ≡ false }
        ensures { let old = slice_index_or self.old.screen.cells at (Char 0) in
            self.new ≡ record self.old {
              screen = record self.old.screen { cells = slice_set self.old.screen.cells at (modified old) };
            } }
    {
        let cell = cells::with_mdt(self.buffer.cell(at));
        self.buffer.set_cell(at, cell);
    }

    /// The home position (our profile): the lowest address of a character that directly follows the attribute of an
    /// unprotected field, wrapping at the end; 0 if there is none.
    pub fn home(&self) -> Addr
        ensures value { result ≡ home self.now.screen.cells }
        ensures in_range { result < cells_in self.now.size }
    {
        if cells::is_start_first(self.cells()) {
            return Addr::first();
        }
        match self.start_behind(Addr::first()) {
            Some(start) => start,
            None => Addr::first(),
        }
    }

    /// The lowest address after `at` of a character that directly follows the attribute of an unprotected field; `None`
    /// if there is none up to the last cell.
    pub fn start_behind(&self, at: Addr) -> Option<Addr>
        requires { at < cells_in self.now.size }
        ensures none { IfNone result ((place : ℕ) → at < place → place < length self.now.screen.cells
            → starts_at self.now.screen.cells place ≡ false) }
        ensures first { IfSome result (λ start. IsFirstStart self.now.screen.cells at start) }
        ensures in_range { IfSome result (λ start. start < cells_in self.now.size) }
    {
        let attributes = self.places();
        let from = index::first_from(attributes, at, self.size());
        let number = cells::first_with_start(self.cells(), attributes, from)?;
        Some(self.field_start(number))
    }

    /// Moves the cursor to an address.
    pub fn set_cursor(&mut self, at: Addr)
        requires { at < cells_in self.old.size }
        ensures { self.new ≡ record self.old { screen = record self.old.screen { cursor = at } } }
    {
        let buffer = &mut self.buffer;
        buffer.cursor = at;
    }

    /// Sets the AID.
    pub fn set_aid(&mut self, aid: Aid)
        ensures { self.new ≡ record self.old { screen = record self.old.screen { aid = aid } } }
    {
        let buffer = &mut self.buffer;
        buffer.aid = with_real_key(aid);
    }

    /// Does what Clear does: nulls all cells and moves the cursor to 0. The size (our profile) and the AID stay.
    pub fn clear(&mut self)
        ensures { self.new ≡ record self.old { screen = cleared (cells_in self.old.size) self.old.screen } }
    {
        self.buffer.clear();
        self.attributes.clear();
    }

    /// Does what the Erase Input key does to the screen: nulls the characters of unprotected fields, turns MDT off in
    /// their attributes, and moves the cursor to `home`. On an unformatted screen it nulls all cells.
    pub fn erase_unprotected(&mut self)
        ensures { self.new ≡ record self.old { screen = unprotected_erased self.old.screen } }
    {
        self.buffer.erase_unprotected();
    }

    /// Carries out a command on the screen (GA23-0059-07, "3270 Data Stream Commands" and "Buffer Control Orders and
    /// Order Codes"), and returns what it asks of the keyboard and the alarm. A read changes nothing. Erase/Write sets
    /// 24 rows of 80 cells, Erase/Write Alternate the model's alternate size; any other command keeps the size.
    ///
    /// The command must have been read for this screen, as by `read_command(bytes, screen.size(),
    /// screen.model().alternate())`.
    #[tactic(auto, using(crate::proofs::AttributePlaces::attributes_left))]
    pub fn apply(&mut self, command: &Command<'_>) -> Applied
        requires { IsReadFor self.old command.now }
        ensures screen { self.new ≡ applied command.now self.old }
        ensures applied { result ≡ asked_by command.now }
    {
        let applied = self.buffer.apply(command);
        // Any other command leaves each attribute in its cell.
        if command.code().has_orders() {
            self.attributes.rebuild(self.buffer.cells());
        }
        applied
    }

    /// The displayed characters of all cells, by address: `glyph_at` of each, in a single pass over the cells.
    pub fn glyphs(&self) -> Glyphs<'_>
        ensures { result ≡ all_glyphs self.now.screen.cells }
    {
        let last = Addr::first().backward(1, self.size());
        let hidden = is_hidden(self.attribute_over(last));
        let buffer = &self.buffer;
        let cells = buffer.cells();
        Glyphs {
            cells,
            next: 0,
            attribute: cells.attribute_from(0),
            hidden,
        }
    }

    /// The displayed character of a cell (our profile): that of code page 037 for the codes 0x40 to 0xFE, `*` for 0x1C
    /// (DUP), `;` for 0x1E (FM), and a blank for any other code, an attribute, and every cell of a hidden field.
    pub fn glyph_at(&self, at: Addr) -> char
        requires { at < cells_in self.now.size }
        ensures { result ≡ glyph_at self.now.screen.cells at }
    {
        if is_hidden(self.attribute_over(at)) {
            ' '
        } else {
            glyph_of(self.cell(at))
        }
    }
}
