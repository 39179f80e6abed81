//! The addresses that keys search for. A start is a first cell of an unprotected field.
ghost use Rattle.std.specs.Prelude.{◌≡◌, ◌+◌, ◌-◌, ◌%◌, ◌<◌, ◌≤◌, ◌&&◌, not, length};
ghost use Rattle.codes3270.specs.Size.{cells_in};
ghost use Rattle.datastream.specs.Screen.{is_char, is_char_at, protects};
ghost use Rattle.datastream.specs.Meaning.{is_start};
ghost use Rattle.keyboard.specs.Places.{is_free_at, next_start as start_behind, start_before as start_ahead, next_line as line_behind, row_end, first_or_zero, onward};

use codes3270::{Addr, Attr, Cell};
use presentation::Screen;

/// Whether a cell holds a character.
pub(crate) fn is_character_at(screen: &Screen, at: Addr) -> bool
    requires { at < cells_in screen.now.size }
    ensures { result ≡ is_char_at screen.now.screen.cells at }
{
    screen.cell(at).is_character()
}

/// Whether a cell can be typed into: it is unprotected, and has no attribute.
pub(crate) fn is_free(screen: &Screen, at: Addr) -> bool
    requires { at < cells_in screen.now.size }
    ensures { result ≡ is_free_at screen.now.screen.cells at }
{
    is_free_under(screen.attribute_over(at), screen.cell(at))
}

/// Whether a cell can be typed into, given the attribute that governs it.
fn is_free_under(over: Option<Attr>, cell: Cell) -> bool
    ensures { result ≡ (is_char cell && not (protects over)) }
{
    cell.is_character() && !over.is_some_and(|attr| attr.protected)
}

/// Whether a cell is the first of an unprotected field, by the cell before it and what it holds.
fn is_start(before: Cell, cell: Cell) -> bool
    ensures { result ≡ is_start (before, cell) }
{
    before.is_unprotected_attribute() && cell.is_character()
}

/// The first start after a cell, wrapping round; the cell itself is tested last. It is 0 if there is none.
#[tactic(auto, using(crate::proofs::Homes::start_found, crate::proofs::Homes::home_round))]
pub(crate) fn next_start(screen: &Screen, at: Addr) -> Addr
    requires { at < cells_in screen.now.size }
    ensures value { result ≡ start_behind screen.now.screen.cells at }
    ensures in_range { result < cells_in screen.now.size }
{
    // For the contract: the screen has a cell for each address.
    let _size = screen.size();
    match screen.start_behind(at) {
        Some(start) => start,
        None => screen.home(),
    }
}

/// The first start before a cell, wrapping round; the cell itself is tested last. It is 0 if there is none.
pub(crate) fn start_before(screen: &Screen, at: Addr) -> Addr
    requires { at < cells_in screen.now.size }
    ensures value { result ≡ start_ahead screen.now.screen.cells at }
    ensures in_range { result < cells_in screen.now.size }
{
    let size = screen.size();
    let mut place = at.backward(1, size);
    let mut cell = screen.cell(place);
    for _step in 0..size.cells() {
        let ahead = place.backward(1, size);
        let before = screen.cell(ahead);
        if is_start(before, cell) {
            return place;
        }
        place = ahead;
        cell = before;
    }
    Addr::first()
}

/// The first cell after a cell that can be typed into, wrapping round; the cell itself is tested last. 0 if none.
fn next_free(screen: &Screen, at: Addr) -> Addr
    requires { at < cells_in screen.now.size }
    ensures value { result
        ≡ first_or_zero (is_free_at screen.now.screen.cells) (onward (length screen.now.screen.cells) at) }
    ensures in_range { result < cells_in screen.now.size }
{
    let size = screen.size();
    let mut over = screen.attribute_over(at);
    let mut place = at;
    for _step in 0..size.cells() {
        place = place.next(size);
        let cell = screen.cell(place);
        over = cell.attribute().or(over);
        if is_free_under(over, cell) {
            return place;
        }
    }
    Addr::first()
}

/// The number of cells of a row, which is at least 1.
pub(crate) fn columns_of(screen: &Screen) -> u16
    ensures value { result ≡ screen.now.size.columns }
    ensures some { 0 < result }
    ensures few { result ≤ cells_in screen.now.size }
{
    let size = screen.size();
    // For the contract: the screen has a first cell.
    let _cells = size.cells();
    size.cols()
}

/// The cell above a cell, in the last row if the cell is in the first.
pub(crate) fn up(screen: &Screen, at: Addr) -> Addr
    requires { at < cells_in screen.now.size }
    ensures value { result
        ≡ (at + length screen.now.screen.cells - screen.now.size.columns) % length screen.now.screen.cells }
    ensures in_range { result < cells_in screen.now.size }
{
    at.backward(columns_of(screen), screen.size())
}

/// The cell below a cell, in the first row if the cell is in the last.
pub(crate) fn down(screen: &Screen, at: Addr) -> Addr
    requires { at < cells_in screen.now.size }
    ensures value { result ≡ (at + screen.now.size.columns) % length screen.now.screen.cells }
    ensures in_range { result < cells_in screen.now.size }
{
    at.forward(columns_of(screen), screen.size())
}

/// The cell before a cell; the last one before the first.
pub(crate) fn left(screen: &Screen, at: Addr) -> Addr
    requires { at < cells_in screen.now.size }
    ensures value { result ≡ (at + length screen.now.screen.cells - 1) % length screen.now.screen.cells }
    ensures in_range { result < cells_in screen.now.size }
{
    at.backward(1, screen.size())
}

/// The cell after a cell; the first one after the last.
pub(crate) fn right(screen: &Screen, at: Addr) -> Addr
    requires { at < cells_in screen.now.size }
    ensures value { result ≡ (at + 1) % length screen.now.screen.cells }
    ensures in_range { result < cells_in screen.now.size }
{
    at.next(screen.size())
}

/// The number of cells after a cell in its row.
fn rest_of_row(at: u16, columns: u16) -> u16
    requires { 0 < columns }
    ensures value { result ≡ columns - 1 - at % columns }
    ensures few { result < columns }
{
    columns - 1 - at % columns
}

/// The last cell of the row that a cell is in.
fn row_end_of(screen: &Screen, at: Addr) -> Addr
    requires { at < cells_in screen.now.size }
    ensures value { result ≡ row_end screen.now.size.columns at }
    ensures in_range { result < cells_in screen.now.size }
{
    let rest = rest_of_row(at.get(), columns_of(screen));
    at.forward(rest, screen.size())
}

/// The first cell after a cell's row that can be typed into, wrapping round; the row's last cell is tested last. 0 if
/// none.
pub(crate) fn next_line(screen: &Screen, at: Addr) -> Addr
    requires { at < cells_in screen.now.size }
    ensures value { result ≡ line_behind screen.now.size.columns screen.now.screen.cells at }
    ensures in_range { result < cells_in screen.now.size }
{
    next_free(screen, row_end_of(screen, at))
}
