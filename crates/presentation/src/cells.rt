//! Questions about cells, and changes of them, that commands and keys need.
ghost use Rattle.std.specs.Prelude.{◌≡◌, ◌<◌, ◌≤◌, ◌+◌, ◌-◌, true, false, drop, map, zip, length, position, slice_index_or, IfNone, IfSome, if◌then◌else◌};
ghost use Rattle.codes3270.specs.Size.{cells_in, most_cells};
ghost use Rattle.codes3270.specs.declared.attribute.Cell.TheVariants.{Char};
ghost use Rattle.std.specs.List.{list_all, prefix_len};
ghost use Rattle.datastream.specs.Span.{distance};
ghost use Rattle.datastream.specs.Screen.{attribute_over, last_attribute, is_char, is_char_at, ring, protects};
ghost use Rattle.datastream.specs.Meaning.{filled, opened, erased, unmodified, modified, open_unmodified, tab_stop, home, is_start};
ghost use Rattle.presentation.specs.Index.{HaveNoStart, IsFirstWithStart};
ghost use Rattle.presentation.specs.Places.{attribute_places, starts_at};

use crate::screen_cells::ScreenCells;
use codes3270::{Addr, Attr, Cell, Size};

/// Turns MDT off in each attribute.
pub(crate) fn reset_mdt(cells: &mut ScreenCells)
    ensures { cells.new ≡ map unmodified cells.old }
{
    let count = cells.len();
    let mut at = cells.attribute_from(0);
    while at < count {
        cells.set(at, without_mdt(cells.get(at)));
        at = cells.attribute_from(at + 1);
    }
}

fn without_mdt(cell: Cell) -> Cell
    ensures { result ≡ unmodified cell }
{
    match cell {
        Cell::Char(_) => cell,
        Cell::Attr(attr) => Cell::Attr(attr.with_mdt(false)),
    }
}

/// The cell with MDT on, if it holds an attribute; else the cell itself.
pub(crate) fn with_mdt(cell: Cell) -> Cell
    ensures { result ≡ modified cell }
{
    match cell {
        Cell::Char(_) => cell,
        Cell::Attr(attr) => Cell::Attr(attr.with_mdt(true)),
    }
}

/// How many cells lie from one address up to another (exclusive), wrapping at the end; all cells if the two are equal.
pub(crate) fn distance_to(from: Addr, stop: Addr, size: Size) -> u16
    requires from { from < cells_in size }
    requires stop { stop < cells_in size }
    ensures value { result ≡ distance (cells_in size) from stop }
    ensures in_range { result ≤ cells_in size }
{
    let cells = size.cells();
    if from == stop {
        cells
    } else if from.get() < stop.get() {
        stop.get() - from.get()
    } else {
        stop.get() + cells - from.get()
    }
}

/// Stores a character in `count` cells from `from` on, wrapping at the end.
pub(crate) fn fill(cells: &mut ScreenCells, from: Addr, count: u16, code: u8, size: Size)
    requires size { length cells.old ≡ cells_in size }
    requires from { from < cells_in size }
    requires count { count ≤ cells_in size }
    ensures { cells.new ≡ filled from count (Char code) cells.old }
{
    let mut place = from;
    for _step in 0..count {
        cells.set(place.get() as usize, Cell::Char(code));
        place = place.next(size);
    }
}

/// The attribute that governs a cell: its own, or the nearest before it, wrapping at 0; `None` if there is none.
pub(crate) fn attribute_over(cells: &ScreenCells, at: Addr) -> Option<Attr>
    requires { at < length cells.now }
    ensures { result ≡ attribute_over cells.now at }
{
    let attr = cells.governing(at.get() as usize)?;
    cells.get(attr).attribute()
}

/// The attribute that governs the cell before `at`, and so the cell at `at` unless that holds an attribute.
pub(crate) fn attribute_before(cells: &ScreenCells, at: Addr, size: Size) -> Option<Attr>
    requires size { length cells.now ≡ cells_in size }
    requires address { at < length cells.now }
    ensures { result ≡ last_attribute (ring at cells.now) }
{
    attribute_over(cells, at.backward(1, size))
}

fn protects_cells(over: Option<Attr>) -> bool
    ensures { result ≡ protects over }
{
    match over {
        Some(attr) => attr.protected,
        None => false,
    }
}

/// A null if the cell holds a character; else the cell itself.
fn without_character(cell: Cell) -> Cell
    ensures { result ≡ erased cell }
{
    match cell {
        Cell::Char(_) => Cell::Char(0),
        Cell::Attr(_) => cell,
    }
}

/// A null if the cell holds a character that isn't protected by `over`; else the cell itself.
fn opened_under(over: Option<Attr>, cell: Cell) -> Cell
    ensures { result ≡ (if protects over then cell else erased cell) }
{
    if protects_cells(over) {
        cell
    } else {
        without_character(cell)
    }
}

/// Nulls the unprotected characters among `count` cells from `from` on, wrapping at the end.
pub(crate) fn erase_unprotected_in(cells: &mut ScreenCells, from: Addr, count: u16, size: Size)
    requires size { length cells.old ≡ cells_in size }
    requires from { from < cells_in size }
    requires count { count ≤ cells_in size }
    ensures { cells.new ≡ opened from count cells.old }
{
    let mut over = attribute_before(cells, from, size);
    let mut at = from;
    for _step in 0..count {
        let place = at.get() as usize;
        let cell = cells.get(place);
        over = cell.attribute().or(over);
        cells.set(place, opened_under(over, cell));
        at = at.next(size);
    }
}

/// The address that a PT at `at` moves to: the one after the first unprotected attribute at or after `at`; 0 if there
/// is none up to the last cell.
pub(crate) fn tab_stop_from(cells: &ScreenCells, at: Addr, size: Size) -> Addr
    requires size { length cells.now ≡ cells_in size }
    requires address { at < cells_in size }
    ensures value { result ≡ tab_stop cells.now at }
    ensures in_range { result < cells_in size }
{
    let count = cells.len();
    let mut attr = cells.attribute_from(at.get() as usize);
    while attr < count {
        if cells.get(attr).is_unprotected_attribute() {
            return Addr::first().forward(attr as u16 + 1, size);
        }
        attr = cells.attribute_from(attr + 1);
    }
    Addr::first()
}

/// Whether no cell holds an attribute.
pub(crate) fn has_only_characters(cells: &ScreenCells) -> bool
    ensures { result ≡ list_all is_char cells.now }
{
    cells.attribute_from(0) == cells.len()
}

/// Whether no cell from `at` through the last holds an attribute.
pub(crate) fn has_only_characters_from(cells: &ScreenCells, at: Addr) -> bool
    requires { at < length cells.now }
    ensures { result ≡ list_all is_char (drop at cells.now) }
{
    cells.attribute_from(at.get() as usize) == cells.len()
}

/// How many characters there are from `at` on, before the next attribute or the end.
pub(crate) fn characters_ahead(cells: &ScreenCells, at: Addr) -> u16
    requires address { at < length cells.now }
    requires few { length cells.now ≤ most_cells }
    ensures value { result ≡ prefix_len is_char (drop at cells.now) }
    ensures bound { result ≤ length cells.now }
{
    cells.attribute_from(at.get() as usize) as u16 - at.get()
}

/// Turns MDT off in the attribute of each unprotected field.
pub(crate) fn reset_open_mdt(cells: &mut ScreenCells)
    ensures { cells.new ≡ map open_unmodified cells.old }
{
    let count = cells.len();
    let mut at = cells.attribute_from(0);
    while at < count {
        cells.set(at, without_open_mdt(cells.get(at)));
        at = cells.attribute_from(at + 1);
    }
}

fn without_open_mdt(cell: Cell) -> Cell
    ensures { result ≡ open_unmodified cell }
{
    if cell.is_unprotected_attribute() {
        without_mdt(cell)
    } else {
        cell
    }
}

/// The lowest start: a character directly after an unprotected attribute, wrapping at the end; 0 if there is none.
pub(crate) fn home_of(cells: &ScreenCells, size: Size) -> Addr
    requires { length cells.now ≡ cells_in size }
    ensures value { result ≡ home cells.now }
    ensures in_range { result < cells_in size }
{
    // For the contract: the screen has a first cell.
    let _cells = size.cells();
    match first_start(cells) {
        Some(place) => Addr::first().forward(place as u16, size),
        None => Addr::first(),
    }
}

fn first_start(cells: &ScreenCells) -> Option<usize>
    requires { 0 < length cells.now }
    ensures place { let before = ring (length cells.now - 1) cells.now in
        result ≡ position is_start (zip before cells.now) }
    ensures in_range { IfSome result (λ place. place < length cells.now) }
{
    let count = cells.len();
    let mut before = cells.get(count - 1);
    for place in 0..count {
        let cell = cells.get(place);
        if is_start_behind(before, cell) {
            return Some(place);
        }
        before = cell;
    }
    None
}

fn is_start_behind(before: Cell, cell: Cell) -> bool
    ensures { result ≡ is_start (before, cell) }
{
    before.is_unprotected_attribute() && cell.is_character()
}

/// Whether the first cell is a start, by the last cell before it.
pub(crate) fn is_start_first(cells: &ScreenCells) -> bool
    ensures start { result
        ≡ is_start (slice_index_or cells.now (length cells.now - 1) (Char 0), slice_index_or cells.now 0 (Char 0)) }
    ensures some { 0 < length cells.now }
{
    let before = cells.get(cells.len() - 1);
    let cell = cells.get(0);
    is_start_behind(before, cell)
}

/// The index, in the list of attributes' addresses, of the first attribute from index `from` on that has a start after
/// it. An attribute in the last cell isn't considered.
pub(crate) fn first_with_start(
    cells: &ScreenCells,
    attributes: &[u16],
    from: usize,
) -> Option<usize>
    requires { attributes.now ≡ attribute_places cells.now 0 }
    ensures none { IfNone result (HaveNoStart cells.now from (length attributes.now)) }
    ensures first { IfSome result (λ index. IsFirstWithStart cells.now from index) }
{
    for index in from..attributes.len() {
        if has_start_behind(cells, place_in(attributes, index)) {
            return Some(index);
        }
    }
    None
}

#[inline(always)]
fn place_in(attributes: &[u16], index: usize) -> usize
    requires { index < length attributes.now }
    ensures { result ≡ slice_index_or attributes.now index 0 }
{
    usize::from(attributes[index])
}

/// Whether the cell after the attribute at `at` is a start; false if the attribute is in the last cell.
#[inline(always)]
fn has_start_behind(cells: &ScreenCells, at: usize) -> bool
    requires placed { at < length cells.now }
    requires attribute { is_char_at cells.now at ≡ false }
    ensures within { result ≡ true → at + 1 < length cells.now }
    ensures start { result ≡ true → starts_at cells.now (at + 1) ≡ true }
    ensures none { result ≡ false → at + 1 < length cells.now → starts_at cells.now (at + 1) ≡ false }
{
    let count = cells.len();
    if cells.attribute(at).protected || at + 1 == count {
        return false;
    }
    cells.get(at + 1).is_character()
}
