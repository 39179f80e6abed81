//! The bytes of a paint: the write that makes a wanted screen.
ghost use Rattle.std.specs.Prelude.{◌≡◌, ◌<◌, ◌≤◌, ◌+◌, ◌*◌, ◌∷◌, ◌++◌, [], IfSome, Some, None, false, drop, length, slice_index_or};
ghost use Rattle.codes3270.specs.Size.{cells_in};
ghost use Rattle.datastream.specs.declared.order.Order.TheVariants.{Sba, Ic};
ghost use Rattle.datastream.specs.declared.wanted.Want.TheVariants.{Keep};
ghost use Rattle.shadow.specs.InPlace.{cell_known};
ghost use Rattle.shadow.specs.Base.{known_base, mark_off_if, IsBase};
ghost use Rattle.datastream.specs.Writing.{Writes, order_bytes, orders_bytes};
ghost use Rattle.shadow.specs.Appending.{IsStorableCell, WritesSome};
ghost use Rattle.shadow.specs.Looks.{SetUnless};
ghost use Rattle.shadow.specs.declared.known.Known.TheVariants.{Char as KnownChar};
ghost use Rattle.shadow.specs.Paint.{is_there as is_there_already, cell_to_store as cell_stored, order_of, is_at, sba_unless, painting, to_store};

use crate::buffer::same_attr;
use crate::cell_belief::CellBelief;
use crate::cell_beliefs::CellBeliefs;
use crate::fitting::keeps_ahead;
use crate::known::Known;
use crate::mdt_state::MdtState;
use crate::searching::{Search, bits_written};
use codes3270::{Addr, Cell, Size};
use datastream::{CommandWriter, Memory, Want, Wanted};

/// The screen that the orders of a paint write on: after the erase, or after the WCC has reset MDT.
#[derive(Drop)]
pub(crate) struct Base<'a> {
    pub beliefs: &'a CellBeliefs,
    /// Whether the paint is a Write over the fields that are there; else it erases.
    pub formatted: bool,
    /// How many cells are wanted.
    pub cells: usize,
    /// Whether the WCC resets MDT.
    pub reset: bool,
}

/// What is known of a cell, with MDT off if it is reset.
fn known_place(place: CellBelief, reset: bool) -> Known
    ensures { result ≡ mark_off_if reset (cell_known place false) }
{
    match place {
        CellBelief::Attr(attr, mdt, _) => Known::Attr(
            attr,
            if reset { MdtState::Off } else { mdt },
        ),
        CellBelief::Known(char) => Known::Char(Some(char), false),
        CellBelief::Unplaced(_) => Known::Char(None, false),
        CellBelief::Unknown => Known::Char(None, false),
    }
}

impl<'a> Base<'a> {
    /// What is known of the cell at an address.
    pub(crate) fn known(&self, place: usize) -> Known
        requires placed { place < self.now.cells }
        requires base { IsBase self.now }
        ensures { result ≡ slice_index_or (known_base self.now) place result }
    {
        if self.formatted {
            known_place(self.beliefs.get(place), self.reset)
        } else {
            Known::Char(Some(0), false)
        }
    }

    /// How many cells there are.
    pub(crate) fn len(&self) -> usize
        requires { IsBase self.now }
        ensures cells { result ≡ self.now.cells }
        ensures known { length (known_base self.now) ≡ result }
    {
        // For the contract: the cells that are written over are as many.
        let _count = self.beliefs.len();
        self.cells
    }

    /// A bit for each of the 64 cells of a word, set unless the cell is known to hold the same character as `bytes`.
    pub(crate) fn unlike(&self, bytes: &[u8], word: usize) -> u64
        requires word { 64 * word ≤ self.now.cells }
        requires whole { length bytes.now ≡ self.now.cells }
        requires base { IsBase self.now }
        ensures { SetUnless self.now.cells (λ cell. slice_index_or (known_base self.now) cell (KnownChar None false)
            ≡ KnownChar (Some (slice_index_or bytes.now cell 0)) false) word result }
    {
        if self.formatted {
            self.beliefs.unlike(bytes, word)
        } else {
            bits_written(bytes, word)
        }
    }
}

/// Whether a cell is known to be the wanted one.
fn is_there(known: Known, cell: Cell) -> bool
    ensures { result ≡ is_there_already known cell }
{
    match (known, cell) {
        (Known::Attr(believed, mdt), Cell::Attr(attr)) => {
            same_attr(believed, attr)
                && if attr.mdt {
                    mdt == MdtState::On
                } else {
                    mdt == MdtState::Off
                }
        }
        (Known::Char(Some(char), _), Cell::Char(byte)) => char == byte,
        _ => false,
    }
}

/// What a paint stores in a cell: nothing if the wanted cell is known to be there, or if it is Keep or the attribute of
/// a field with Keep.
pub(crate) fn cell_to_store(wanted: &Wanted, place: usize, known: Known) -> Option<Cell>
    requires { place < cells_in wanted.now.size }
    ensures stored { result ≡ cell_stored (drop (place + 1) wanted.now.cells ++ wanted.now.cells)
        (slice_index_or wanted.now.cells place Keep) known }
    ensures storable { IfSome result IsStorableCell }
{
    match wanted.at(place) {
        Want::Keep => None,
        Want::Char(byte) => {
            if is_there(known, Cell::Char(byte)) {
                None
            } else {
                Some(Cell::Char(byte))
            }
        }
        Want::Attr(attr) => {
            if is_there(known, Cell::Attr(attr)) || keeps_ahead(wanted.ahead(place)) {
                None
            } else {
                Some(Cell::Attr(attr))
            }
        }
    }
}

/// Appends an SBA, unless the write's current address `at` is that address already.
fn put_address(writer: &mut CommandWriter<'_>, at: Option<u16>, address: Addr) -> Result<(), Memory>
    ensures { Writes writer.old.out writer.new.out result (orders_bytes (sba_unless (is_at at address) address [])) }
{
    if at == Some(address.get()) {
        return Ok(());
    }
    writer.sba(address)
}

/// Appends the data byte or the SF that stores a cell.
fn put_cell(writer: &mut CommandWriter<'_>, cell: Cell) -> Result<(), Memory>
    requires { IsStorableCell cell }
    ensures { Writes writer.old.out writer.new.out result (order_bytes (order_of cell)) }
{
    match cell {
        Cell::Char(byte) => writer.chars(&[byte]),
        Cell::Attr(attr) => writer.sf(attr),
    }
}

/// Appends the orders that store a cell at an address; `at` is the write's current address, if it is known.
fn put_store(
    writer: &mut CommandWriter<'_>,
    at: Option<u16>,
    address: Addr,
    cell: Cell,
) -> Result<(), Memory>
    requires { IsStorableCell cell }
    ensures { WritesSome writer.old.out writer.new.out result
        (orders_bytes (sba_unless (is_at at address) address (order_of cell ∷ []))) }
{
    match put_address(writer, at, address) {
        Ok(()) => put_cell(writer, cell),
        Err(error) => Err(error),
    }
}

/// Appends an SBA to the cursor's address, and IC.
fn put_cursor(writer: &mut CommandWriter<'_>, cursor: Addr) -> Result<(), Memory>
    ensures { WritesSome writer.old.out writer.new.out result (orders_bytes (Sba cursor ∷ Ic ∷ [])) }
{
    match writer.sba(cursor) {
        Ok(()) => writer.ic(),
        Err(error) => Err(error),
    }
}

/// A cell's number as an address on a screen of this size.
fn address_of(place: u16, size: Size) -> Addr
    requires { place < cells_in size }
    ensures { result ≡ place }
{
    match Addr::new(place, size) {
        Some(address) => address,
        None => Addr::first(),
    }
}

/// Appends the orders that store the cells that aren't known to be right, and then those that set the cursor.
pub(crate) fn put_cells(
    writer: &mut CommandWriter<'_>,
    wanted: &Wanted,
    base: &Base<'_>,
    cursor: Addr,
) -> Result<(), Memory>
    requires base { IsBase base.now }
    requires whole { cells_in wanted.now.size ≡ base.now.cells }
    ensures { WritesSome writer.old.out writer.new.out result (orders_bytes (painting (cells_in wanted.now.size) cursor
        None (to_store wanted.now.cells 0 wanted.now.cells (known_base base.now)))) }
{
    let size = wanted.size();
    let mut at = None;
    let mut search = Search::new(wanted, base);
    while let Some(store) = search.next_to_store(wanted, base) {
        let address = address_of(store.place, size);
        match put_store(writer, at, address, store.cell) {
            Ok(()) => at = Some(address.next(size).get()),
            Err(error) => return Err(error),
        }
    }
    put_cursor(writer, cursor)
}
