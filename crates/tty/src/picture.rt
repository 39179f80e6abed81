//! Pictures: what an operator sees.
ghost use Rattle.std.specs.Prelude.{◌≡◌, ◌<◌, ◌≤◌, ◌+◌, ◌-◌, ◌++◌, [], map, length, take, get_or, IfOk, OnOk, slice_index_or, string_bytes};
ghost use Rattle.codes3270.specs.Size.{cells_in};
ghost use Rattle.tty.specs.Pictures.{IsSized, erased_cell, same_cell, plain};
ghost use Rattle.tty.specs.Changes.{same_size};
ghost use Rattle.tty.specs.Painting.{drawn_as, notice_of, notice_side, page_cells, page_of, picture_of, painted_at, place_of, screen_cells, status_rows, with_status};
ghost use Rattle.tty.specs.StatusRow.{in_columns, letter_at, three_digits, position_text, status_cells};

use crate::look::{Look, look_of};
use crate::place::Place;
use crate::status::{
    KEYS_HINT, Status, StatusPlace, connection_word, graphic_or_blank, reason, seconds_text, signs,
};
use codes3270::{Addr, Size};
use keyboard::Keyboard;
use presentation::Screen;
use std::alloc::{AllocError, Global};
use std::marker::Model;

/// A cell of a picture: a character and its look.
#[derive(Clone, Copy, PartialEq, Eq)]
pub struct PictureCell {
    /// The character.
    pub glyph: char,
    /// How it looks.
    pub look: Look,
}

/// What an operator sees of a screen, a keyboard and a status: the rows of the screen, a status row, and a cursor; or a
/// page of text. Contracts see the number of rows and of columns, the list of the cells, row by row, and the cursor's
/// place.
#[derive(Drop)]
pub struct Picture {
    rows: usize,
    columns: usize,
    cells: Vec<PictureCell>,
    cursor: Place,
}

impl Model for Picture {
    ghost use Rattle.tty.specs.Pictures.{PictureParts, IsSized};

    ghost Value = { PictureParts };

    ghost view = { λ p. record { rows = p.rows; columns = p.columns; cells = p.cells.items; cursor = p.cursor } };

    ghost invariant = { λ p. IsSized
        (record { rows = p.rows; columns = p.columns; cells = p.cells.items; cursor = p.cursor }) };
}

/// A cell with a character outside of any field.
fn plain(glyph: char) -> PictureCell
    ensures { result ≡ plain glyph }
{
    PictureCell {
        glyph,
        look: Look::Plain,
    }
}

impl PictureCell {
    /// The cell that an erased tty shows.
    pub(crate) fn erased() -> PictureCell
        ensures { result ≡ erased_cell }
    {
        PictureCell {
            glyph: ' ',
            look: Look::Erased,
        }
    }

    /// The cell at an index; erased beyond the end.
    pub(crate) fn of(cells: &[PictureCell], index: usize) -> PictureCell
        ensures { result ≡ slice_index_or cells.now index erased_cell }
    {
        cells.get(index).copied().unwrap_or(PictureCell::erased())
    }

    /// Whether both cells have the same character and the same look.
    pub(crate) fn is_same(self, other: PictureCell) -> bool
        ensures { result ≡ same_cell self other }
    {
        self.glyph == other.glyph && self.look.number() == other.look.number()
    }
}

/// The buffer address with a number.
fn address(index: u16, size: Size) -> Addr
    requires { index < cells_in size }
    ensures value { result ≡ index }
    ensures in_range { result < cells_in size }
{
    Addr::new(index, size).unwrap_or(Addr::first())
}

/// The character that is drawn for one: `-` for the soft hyphen, U+00AD, to which browsers and some terminals give no
/// width.
fn drawn_as(glyph: char) -> char
    ensures { result ≡ drawn_as glyph }
{
    if glyph == '\u{AD}' { '-' } else { glyph }
}

/// The cell of a picture for the screen's cell at an address.
fn painted_at(screen: &Screen, at: Addr) -> PictureCell
    requires { at < cells_in screen.now.size }
    ensures { result ≡ painted_at screen.now.screen.cells at }
{
    PictureCell {
        glyph: drawn_as(screen.glyph_at(at)),
        look: look_of(screen.cell(at), screen.attribute_over(at)),
    }
}

/// Adds the cells of the screen.
fn put_screen(cells: &mut Vec<PictureCell>, screen: &Screen) -> Result<(), AllocError>
    ensures { OnOk result (cells.new.items ≡ cells.old.items ++ screen_cells screen.now.screen.cells) }
{
    let size = screen.size();
    for index in 0..size.cells() {
        cells.push(painted_at(screen, address(index, size)))?;
    }
    Ok(())
}

/// The character in a column of a text, from 0 on: a blank beyond its end, and for a byte that isn't graphic ASCII.
fn letter_at(text: &[u8], column: usize) -> char
    ensures { result ≡ letter_at text.now column }
{
    char::from(graphic_or_blank(text.get(column).copied().unwrap_or(b' ')))
}

/// Adds the first `count` columns of a text, with blanks beyond its end.
fn put_text(cells: &mut Vec<PictureCell>, count: usize, text: &[u8]) -> Result<(), AllocError>
    ensures { OnOk result (cells.new.items ≡ cells.old.items ++ in_columns count text.now) }
{
    for column in 0..count {
        cells.push(plain(letter_at(text, column)))?;
    }
    Ok(())
}

/// The last three decimal digits of a number.
pub(crate) fn three_digits(number: usize) -> [u8; 3]
    ensures { result ≡ three_digits number }
{
    [
        b'0' + (number / 100 % 10) as u8,
        b'0' + (number / 10 % 10) as u8,
        b'0' + (number % 10) as u8,
    ]
}

/// Row and column, both from 1 on, as `RRR/CCC`.
fn position_text(place: Place) -> [u8; 7]
    requires row { place.row < usize.MAX }
    requires column { place.column < usize.MAX }
    ensures { result ≡ position_text place }
{
    let [a, b, c] = three_digits(place.row + 1);
    let [d, e, f] = three_digits(place.column + 1);
    [a, b, c, b'/', d, e, f]
}

/// Adds the status row.
fn put_status(
    cells: &mut Vec<PictureCell>,
    columns: usize,
    keyboard: Keyboard,
    status: &Status<'_>,
    cursor: Place,
) -> Result<(), AllocError>
    requires columns { 72 ≤ columns }
    requires row { cursor.row < usize.MAX }
    requires column { cursor.column < usize.MAX }
    ensures { let status = status.now in
        OnOk result (cells.new.items ≡ cells.old.items
        ++ status_cells columns keyboard status.connected status.trouble status.lu.now status.held status.seconds cursor) }
{
    put_text(cells, 16, connection_word(status.connected))?;
    put_text(cells, 13, reason(keyboard.lock(), status.trouble))?;
    put_text(cells, 3, &seconds_text(status.seconds))?;
    put_text(cells, 8, signs(keyboard.inserting(), status.held))?;
    put_text(cells, 15, status.lu)?;
    put_text(cells, 17, KEYS_HINT)?;
    put_text(cells, columns - 72, &position_text(cursor))
}

/// Adds the status row over the last `columns` cells.
fn put_status_over(
    cells: &mut Vec<PictureCell>,
    columns: usize,
    keyboard: Keyboard,
    status: &Status<'_>,
    cursor: Place,
) -> Result<(), AllocError>
    requires columns { 72 ≤ columns }
    requires row { cursor.row < usize.MAX }
    requires column { cursor.column < usize.MAX }
    ensures { let status = status.now in
        OnOk result (cells.new.items ≡ take (length cells.old.items - columns) cells.old.items
        ++ status_cells columns keyboard status.connected status.trouble status.lu.now status.held status.seconds cursor) }
{
    cells.truncate(cells.len().saturating_sub(columns));
    put_status(cells, columns, keyboard, status, cursor)
}

/// Adds the status row at its place.
fn put_status_at_place(
    cells: &mut Vec<PictureCell>,
    columns: usize,
    keyboard: Keyboard,
    status: &Status<'_>,
    cursor: Place,
) -> Result<(), AllocError>
    requires columns { 72 ≤ columns }
    requires row { cursor.row < usize.MAX }
    requires column { cursor.column < usize.MAX }
    ensures { let status = status.now in
        OnOk result (cells.new.items ≡ with_status status.place columns cells.old.items
        (status_cells columns keyboard status.connected status.trouble status.lu.now status.held status.seconds cursor)) }
{
    match status.place {
        StatusPlace::Below => put_status(cells, columns, keyboard, status, cursor),
        StatusPlace::Over => put_status_over(cells, columns, keyboard, status, cursor),
        StatusPlace::Nowhere => Ok(()),
    }
}

/// How many rows the status row adds.
fn status_rows(place: StatusPlace) -> usize
    ensures value { result ≡ status_rows place }
    ensures few { result ≤ 1 }
{
    match place {
        StatusPlace::Below => 1,
        StatusPlace::Over | StatusPlace::Nowhere => 0,
    }
}

/// A line of a text; empty beyond its end.
fn line_at<'a>(lines: &'a [String], row: usize) -> &'a [u8]
    ensures { result.now ≡ get_or (map (λ line. string_bytes line) lines.now) row [] }
{
    match lines.get(row) {
        Some(line) => line.as_bytes(),
        None => &[],
    }
}

/// Adds rows of a page of text.
fn put_page(
    cells: &mut Vec<PictureCell>,
    rows: usize,
    columns: usize,
    lines: &[String],
) -> Result<(), AllocError>
    ensures { OnOk result (cells.new.items
        ≡ cells.old.items ++ page_cells rows columns (map (λ line. string_bytes line) lines.now)) }
{
    for row in 0..rows {
        put_text(cells, columns, line_at(lines, row))?;
    }
    Ok(())
}

/// The number of columns of a screen.
fn columns_of(screen: &Screen) -> usize
    ensures value { result ≡ screen.now.size.columns }
    ensures wide { 72 ≤ result }
    ensures few { result < 1000 }
    ensures cells { length screen.now.screen.cells ≡ cells_in screen.now.size }
{
    usize::from(screen.size().cols())
}

/// The number of rows of a screen.
fn screen_rows(screen: &Screen) -> usize
    ensures value { result ≡ screen.now.size.rows }
    ensures some { 0 < result }
    ensures few { result < 999 }
{
    usize::from(screen.size().rows())
}

/// The number of rows of a screen's picture: those of the screen, and the status row if it is below them.
fn rows_of(screen: &Screen, place: StatusPlace) -> usize
    ensures value { result ≡ screen.now.size.rows + status_rows place }
    ensures few { result < 1000 }
{
    screen_rows(screen) + status_rows(place)
}

/// The number of rows or columns of a notice on a tty with this many.
fn notice_side(tty_side: u16) -> usize
    ensures value { result ≡ notice_side tty_side }
    ensures some { 0 < result }
    ensures few { result < 1000 }
{
    usize::from(tty_side.min(999).max(1))
}

/// The place of a screen's cursor.
fn cursor_of(screen: &Screen) -> Place
    ensures value { result ≡ place_of screen.now.size.columns screen.now.screen.cursor }
    ensures row { result.row < screen.now.size.rows }
    ensures column { result.column < screen.now.size.columns }
    ensures few { result.row < 65536 }
{
    let columns = usize::from(screen.size().cols());
    let at = usize::from(screen.cursor().get());
    Place {
        row: at / columns,
        column: at % columns,
    }
}

impl Picture {
    /// What an operator sees of a screen, a keyboard and a status (our profile). Err only if memory is refused.
    ///
    /// The rows of the screen show what `Screen::glyph_at` returns, a hidden field as blanks, each cell in its
    /// [`Look`]. The status row, where it is, shows `connected` or `not connected`; why the keyboard accepts no keys:
    /// `X SYSTEM` while it waits for the host, or why there is no connection, `X PROTECTED`, `X NUMERIC` or `X NO ROOM`
    /// for the refusal that locked it, `X NO CODE` for a character that has no code, and `X PASTE CUT` for a pasted text
    /// without room; the seconds of the wait from 2 on; `^` in insert mode; `T` if keys are held; the name of the LU;
    /// which key shows the table of keys; and row and column of the cursor, each from 1 on.
    pub fn new(
        alloc: Global,
        screen: &Screen,
        keyboard: Keyboard,
        status: &Status<'_>,
    ) -> Result<Picture, AllocError>
        ensures { let status = status.now in
            IfOk result (λ picture. picture
            ≡ picture_of status.place screen.now keyboard status.connected status.trouble status.lu.now status.held status.seconds) }
    {
        let columns = columns_of(screen);
        let cursor = cursor_of(screen);
        let mut cells = Vec::new(alloc);
        put_screen(&mut cells, screen)?;
        put_status_at_place(&mut cells, columns, keyboard, status, cursor)?;
        Ok(Picture {
            rows: rows_of(screen, status.place),
            columns,
            cells,
            cursor,
        })
    }

    /// A page of text in ASCII in place of a screen: the first rows and columns of these lines, and the cursor in the
    /// upper left corner. Err only if memory is refused.
    pub fn page(alloc: Global, screen: &Screen, lines: &[String]) -> Result<Picture, AllocError>
        ensures { IfOk result (λ picture. picture ≡ page_of screen.now (map (λ line. string_bytes line) lines.now)) }
    {
        let rows = screen_rows(screen);
        let columns = columns_of(screen);
        let mut cells = Vec::new(alloc);
        put_page(&mut cells, rows, columns, lines)?;
        Ok(Picture {
            rows,
            columns,
            cells,
            cursor: Place { row: 0, column: 0 },
        })
    }

    /// A text in ASCII that fills a tty of any size, as far as it goes; rows and columns beyond 999 stay blank. It goes
    /// on from row to row, and the cursor is in the upper left corner. Err only if memory is refused.
    pub fn notice(
        alloc: Global,
        tty_rows: u16,
        tty_columns: u16,
        text: &str,
    ) -> Result<Picture, AllocError>
        ensures { IfOk result (λ picture. picture ≡ notice_of tty_rows tty_columns text.now) }
    {
        let rows = notice_side(tty_rows);
        let columns = notice_side(tty_columns);
        let mut cells = Vec::new(alloc);
        put_text(&mut cells, rows * columns, text.as_bytes())?;
        Ok(Picture {
            rows,
            columns,
            cells,
            cursor: Place { row: 0, column: 0 },
        })
    }

    /// The number of columns, below 1000.
    pub fn columns(&self) -> usize
        ensures { result ≡ self.now.columns }
    {
        self.columns
    }

    /// Its cells, row by row.
    pub fn cells(&self) -> &[PictureCell]
        ensures value { result.now ≡ self.now.cells }
        ensures sized { IsSized self.now }
    {
        self.cells.as_slice()
    }

    /// The place of the cursor.
    pub fn cursor(&self) -> Place
        ensures value { result ≡ self.now.cursor }
        ensures row { result.row < self.now.rows }
        ensures column { result.column < self.now.columns }
    {
        self.cursor
    }

    /// Whether it has as many rows and columns as another.
    pub(crate) fn has_size_of(&self, other: &Picture) -> bool
        ensures value { result ≡ same_size self.now other.now }
        ensures sized { IsSized self.now × IsSized other.now }
    {
        let same_rows = self.rows == other.rows;
        same_rows && self.columns == other.columns
    }
}
