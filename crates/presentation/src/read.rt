//! The answers to reads (GA23-0059-07 on read commands).
ghost use Rattle.std.specs.Prelude.{◌≡◌, ◌+◌, ◌-◌, ◌<◌, ◌≤◌, ◌∷◌, [], ◌++◌, ◌&&◌, ◌==◌, not, false, length, take, drop, slice_index_or};
ghost use Rattle.codes3270.specs.Size.{cells_in};
ghost use Rattle.std.specs.List.{flat_map, prefix_len};
ghost use Rattle.codes3270.specs.Address.{address_bytes};
ghost use Rattle.codes3270.specs.Aid.{is_short_aid};
ghost use Rattle.codes3270.specs.Appending.{Appends, AppendsSome};
ghost use Rattle.datastream.specs.Screen.{is_char, is_char_at, field_text, places_from};
ghost use Rattle.datastream.specs.Grammar.{start_field};
ghost use Rattle.datastream.specs.Inbound.{without_nulls, modified_field, modified_text, read_modified, is_modified, cell_bytes, read_buffer};
ghost use Rattle.datastream.specs.InboundText.{IsInbound};
ghost use Rattle.datastream.specs.InboundFields.{modified_data, buffer_data};
ghost use Rattle.presentation.specs.Answering.{form_of};
ghost use Rattle.presentation.specs.Sizes.{IsSized};

use crate::buffer::Buffer;
use crate::screen_cells::ScreenCells;
use crate::{Screen, cells};
use codes3270::{Addr, Aid, Cell, Size, addr_to_bytes, aid_byte};
use datastream::{Memory, SET_BUFFER_ADDRESS, START_FIELD};

fn put_byte(out: &mut Vec<u8>, byte: u8) -> Result<(), Memory>
    ensures { AppendsSome out.old out.new result (byte ∷ []) }
{
    out.push(byte)?;
    Ok(())
}

fn put_bytes(out: &mut Vec<u8>, bytes: &[u8]) -> Result<(), Memory>
    ensures { AppendsSome out.old out.new result bytes.now }
{
    out.extend_from_slice(bytes)
}

/// Appends bytes; it is faster than `put_bytes` for one byte or none, which is frequent.
fn put_few(out: &mut Vec<u8>, bytes: &[u8]) -> Result<(), Memory>
    ensures { AppendsSome out.old out.new result bytes.now }
{
    match bytes {
        [] => Ok(()),
        [byte] => put_byte(out, *byte),
        _ => put_bytes(out, bytes),
    }
}

/// The bytes `from..to`.
#[inline(always)]
fn between(bytes: &[u8], from: usize, to: usize) -> &[u8]
    requires order { from ≤ to }
    requires few { to ≤ length bytes.now }
    ensures { result.now ≡ take (to - from) (drop from bytes.now) }
{
    &bytes[from..to]
}

/// The byte at an index.
#[inline(always)]
fn byte_at(bytes: &[u8], at: usize) -> u8
    requires { at < length bytes.now }
    ensures { result ≡ slice_index_or bytes.now at 0 }
{
    bytes[at]
}

/// How many bytes there are before the first null.
fn count_before_null(bytes: &[u8]) -> usize
    ensures value { result ≡ prefix_len (λ byte. not (byte == 0)) bytes.now }
    ensures bound { result ≤ length bytes.now }
{
    bytes.iter().take_while(|byte| **byte != 0).count()
}

/// The bytes after the first; none if there are none.
fn behind_first(bytes: &[u8]) -> &[u8]
    ensures { result.now ≡ drop 1 bytes.now }
{
    match bytes {
        [] => bytes,
        [_, rest @ ..] => rest,
    }
}

/// Appends bytes without their nulls, one run between nulls at a time.
fn put_without_nulls(out: &mut Vec<u8>, bytes: &[u8]) -> Result<(), Memory>
    ensures { AppendsSome out.old out.new result (without_nulls bytes.now) }
{
    let mut rest = bytes;
    while !rest.is_empty() {
        let (piece, behind) = rest.split_at(count_before_null(rest));
        put_few(out, piece)?;
        rest = behind_first(behind);
    }
    Ok(())
}

/// Appends the text of the field whose attribute is at `attr`, without nulls, wrapping at the end. `next` is the
/// address of the first attribute after it, or the number of cells.
fn put_field_text(
    out: &mut Vec<u8>,
    cells: &ScreenCells,
    attr: usize,
    next: usize,
) -> Result<(), Memory>
    requires placed { attr < length cells.now }
    requires attribute { is_char_at cells.now attr ≡ false }
    requires next { next ≡ attr + 1 + prefix_len is_char (drop (attr + 1) cells.now) }
    ensures { AppendsSome out.old out.new result (without_nulls (field_text cells.now attr)) }
{
    let codes = cells.codes();
    put_without_nulls(out, between(codes, attr + 1, next))?;
    if next == codes.len() {
        put_without_nulls(out, between(codes, 0, cells.attribute_from(0)))?;
    }
    Ok(())
}

/// Appends SBA, the address of the field's first cell, and its text without nulls.
fn put_field(
    out: &mut Vec<u8>,
    cells: &ScreenCells,
    attr: usize,
    next: usize,
    size: Size,
) -> Result<(), Memory>
    requires size { length cells.now ≡ cells_in size }
    requires placed { attr < length cells.now }
    requires attribute { is_char_at cells.now attr ≡ false }
    requires next { next ≡ attr + 1 + prefix_len is_char (drop (attr + 1) cells.now) }
    ensures { AppendsSome out.old out.new result (modified_field cells.now attr) }
{
    let first = Addr::first().forward(attr as u16 + 1, size);
    let [high, low] = addr_to_bytes(first);
    put_bytes(out, &[SET_BUFFER_ADDRESS, high, low])?;
    put_field_text(out, cells, attr, next)
}

fn is_modified_attribute(cell: Cell) -> bool
    ensures { result ≡ is_modified cell }
{
    match cell {
        Cell::Char(_) => false,
        Cell::Attr(attr) => attr.mdt,
    }
}

/// Appends a field, if its MDT is on.
fn put_field_if_modified(
    out: &mut Vec<u8>,
    cells: &ScreenCells,
    attr: usize,
    next: usize,
    size: Size,
) -> Result<(), Memory>
    requires size { length cells.now ≡ cells_in size }
    requires placed { attr < length cells.now }
    requires attribute { is_char_at cells.now attr ≡ false }
    requires next { next ≡ attr + 1 + prefix_len is_char (drop (attr + 1) cells.now) }
    ensures { let places = places_from is_modified attr (take 1 (drop attr cells.now)) in
        AppendsSome out.old out.new result (flat_map (modified_field cells.now) places) }
{
    if is_modified_attribute(cells.get(attr)) {
        put_field(out, cells, attr, next, size)
    } else {
        Ok(())
    }
}

/// The address of the first attribute, whose field is returned first, or the number of cells.
fn first_listed(cells: &ScreenCells) -> usize
    ensures place { result ≡ 0 + prefix_len is_char (drop 0 cells.now) }
    ensures within { result ≤ length cells.now }
{
    cells.attribute_from(0)
}

/// Appends the fields with MDT on, by the addresses of their attributes.
fn put_modified_fields(out: &mut Vec<u8>, cells: &ScreenCells, size: Size) -> Result<(), Memory>
    requires { length cells.now ≡ cells_in size }
    ensures { let places = places_from is_modified 0 cells.now in
        AppendsSome out.old out.new result (flat_map (modified_field cells.now) places) }
{
    let count = cells.len();
    let mut attr = first_listed(cells);
    while attr < count {
        let next = cells.attribute_from(attr + 1);
        put_field_if_modified(out, cells, attr, next, size)?;
        attr = next;
    }
    Ok(())
}

fn put_modified_text(out: &mut Vec<u8>, buffer: &Buffer) -> Result<(), Memory>
    ensures { AppendsSome out.old out.new result (modified_text buffer.now.screen.cells) }
{
    let cells = buffer.cells();
    if cells::has_only_characters(cells) {
        put_without_nulls(out, cells.codes())
    } else {
        put_modified_fields(out, cells, buffer.size)
    }
}

/// Whether the answer is the AID alone; `all`: to Read Modified All.
fn is_short_form(aid: Aid, all: bool) -> bool
    ensures { result ≡ (is_short_aid aid && not all) }
{
    aid.is_short() && !all
}

/// Appends an attribute: SF and its code.
fn put_attribute(out: &mut Vec<u8>, code: u8) -> Result<(), Memory>
    ensures { AppendsSome out.old out.new result (start_field ∷ code ∷ []) }
{
    put_bytes(out, &[START_FIELD, code])
}

/// Appends all cells: the characters as they are, nulls included, and each attribute as SF and its code.
fn put_cells(out: &mut Vec<u8>, cells: &ScreenCells) -> Result<(), Memory>
    ensures { AppendsSome out.old out.new result (flat_map cell_bytes cells.now) }
{
    let codes = cells.codes();
    let mut from = 0;
    let mut attr = cells.attribute_from(0);
    while attr < codes.len() {
        put_few(out, between(codes, from, attr))?;
        put_attribute(out, byte_at(codes, attr))?;
        from = attr + 1;
        attr = cells.attribute_from(from);
    }
    put_few(out, between(codes, from, codes.len()))
}

impl Buffer {
    fn put_cursor_and_cells(&self, out: &mut Vec<u8>) -> Result<(), Memory>
        ensures { let bytes = address_bytes self.now.screen.cursor ++ flat_map cell_bytes self.now.screen.cells in
            AppendsSome out.old out.new result bytes }
    {
        put_bytes(out, &addr_to_bytes(self.cursor))?;
        put_cells(out, self.cells())
    }

    fn put_buffer(&self, out: &mut Vec<u8>) -> Result<(), Memory>
        ensures bytes { AppendsSome out.old out.new result (read_buffer self.now.screen) }
        ensures sized { IsSized self.now }
    {
        put_byte(out, aid_byte(self.aid))?;
        self.put_cursor_and_cells(out)
    }

    fn put_cursor_and_fields(&self, out: &mut Vec<u8>) -> Result<(), Memory>
        ensures { let bytes = address_bytes self.now.screen.cursor ++ modified_text self.now.screen.cells in
            AppendsSome out.old out.new result bytes }
    {
        put_bytes(out, &addr_to_bytes(self.cursor))?;
        put_modified_text(out, self)
    }

    fn put_modified(&self, out: &mut Vec<u8>, all: bool) -> Result<(), Memory>
        ensures bytes { AppendsSome out.old out.new result (read_modified all self.now.screen) }
        ensures sized { IsSized self.now }
    {
        put_byte(out, aid_byte(self.aid))?;
        if is_short_form(self.aid, all) {
            Ok(())
        } else {
            self.put_cursor_and_fields(out)
        }
    }
}

impl Screen {
    /// Appends the answer to Read Buffer (GA23-0059-07 on Read Buffer): the AID, the cursor's address, and every cell
    /// from address 0 on, nulls included, an attribute as SF and its code. `Memory` if an allocation fails, which can't
    /// happen if `out` has room; `out` has its old bytes then.
    pub fn put_read_buffer(&self, out: &mut Vec<u8>) -> Result<(), Memory>
        ensures appends { Appends out.old out.new result (read_buffer self.now.screen) }
        // It is read as this screen's cells.
        ensures inbound { IsInbound (buffer_data self.now.size self.now.screen) (read_buffer self.now.screen) }
    {
        let before = out.len();
        let put = self.buffer.put_buffer(out);
        if put.is_err() {
            out.truncate(before);
        }
        put
    }

    /// Appends the answer to Read Modified or, if `all`, Read Modified All (GA23-0059-07 on Read Modified): the AID,
    /// the cursor's address, and for each field with MDT on, by the address of its attribute, SBA, the address of its
    /// first cell and its characters without nulls; on an unformatted screen, all characters without nulls. After a PA
    /// key or Clear, Read Modified is answered by the AID alone. `Memory` as for `put_read_buffer`.
    pub fn put_read_modified(&self, out: &mut Vec<u8>, all: bool) -> Result<(), Memory>
        ensures appends { Appends out.old out.new result (read_modified all self.now.screen) }
        // It is read as this screen's modified fields.
        ensures inbound { IsInbound (modified_data (form_of all) self.now.size self.now.screen)
            (read_modified all self.now.screen) }
    {
        let start = out.len();
        let put = self.buffer.put_modified(out, all);
        if put.is_err() {
            out.truncate(start);
        }
        put
    }
}
