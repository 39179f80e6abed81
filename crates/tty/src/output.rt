//! Appends control functions as bytes.
ghost use Rattle.std.specs.Prelude.{◌≡◌, ◌<◌, ◌++◌, [], None, Some};
ghost use Rattle.codes3270.specs.Appending.{Appends, AppendsSome};
ghost use Rattle.tty.specs.Tty.{Control};
ghost use Rattle.tty.specs.Spelling.{encoded, spelt_look, all_spelt};
ghost use Rattle.tty.specs.Pictures.{origin};
ghost use Rattle.tty.specs.Changes.{written, change, changes, run_after};

use crate::colors::Colors;
use crate::look::Look;
use crate::picture::{PictureCell, three_digits};
use crate::place::{Place, next_place};
use std::alloc::AllocError;

/// Appends BEL, which sounds the alarm of the tty and changes nothing that it shows (ECMA-48, 8.3.3). Err only if
/// memory is refused; then nothing is appended.
pub fn put_bell(out: &mut Vec<u8>) -> Result<(), AllocError>
    ensures { Appends out.old out.new result (encoded Control.Bell) }
{
    out.extend_from_slice(b"\x07")
}

/// Appends SGR with parameter 0 (default rendition), and ED with parameter 2 (erase all).
pub(crate) fn put_erase(out: &mut Vec<u8>) -> Result<(), AllocError>
    ensures { AppendsSome out.old out.new result (encoded (Control.SelectRendition 0 []) ++ encoded Control.EraseAll) }
{
    out.extend_from_slice(b"\x1b[0m\x1b[2J")
}

/// Appends CUP: the cursor goes to a place.
pub(crate) fn put_place(out: &mut Vec<u8>, place: Place) -> Result<(), AllocError>
    requires row { place.row < usize.MAX }
    requires column { place.column < usize.MAX }
    ensures { AppendsSome out.old out.new result (encoded (Control.CursorTo place)) }
{
    let [a, b, c] = three_digits(place.row + 1);
    let [d, e, f] = three_digits(place.column + 1);
    out.extend_from_slice(&[0x1B, b'[', a, b, c, b';', d, e, f, b'H'])
}

/// Appends the SGR that selects a look.
fn put_look(out: &mut Vec<u8>, colors: Colors, look: Look) -> Result<(), AllocError>
    ensures { AppendsSome out.old out.new result (spelt_look colors look) }
{
    out.extend_from_slice(colors.sgr(look))
}

/// Appends a graphic character in UTF-8.
fn put_glyph(out: &mut Vec<u8>, glyph: char) -> Result<(), AllocError>
    ensures { AppendsSome out.old out.new result (encoded (Control.Graphic glyph)) }
{
    let mut room = [0; 4];
    out.extend_from_slice(glyph.encode_utf8(&mut room).as_bytes())
}

/// Appends a cell's look and its character.
fn put_looking(out: &mut Vec<u8>, colors: Colors, cell: PictureCell) -> Result<(), AllocError>
    ensures { AppendsSome out.old out.new result (spelt_look colors cell.look ++ encoded (Control.Graphic cell.glyph)) }
{
    put_look(out, colors, cell.look)?;
    put_glyph(out, cell.glyph)
}

/// Appends the first cell of a run: its place, its look and its character.
fn put_first(
    out: &mut Vec<u8>,
    colors: Colors,
    place: Place,
    cell: PictureCell,
) -> Result<(), AllocError>
    requires row { place.row < usize.MAX }
    requires column { place.column < usize.MAX }
    ensures { AppendsSome out.old out.new result (all_spelt (written colors place None cell)) }
{
    put_place(out, place)?;
    put_looking(out, colors, cell)
}

/// Appends a further cell of a run whose last cell has this look.
fn put_further(
    out: &mut Vec<u8>,
    colors: Colors,
    place: Place,
    look: Look,
    cell: PictureCell,
) -> Result<(), AllocError>
    ensures { AppendsSome out.old out.new result (all_spelt (written colors place (Some look) cell)) }
{
    if look.number() == cell.look.number() {
        put_glyph(out, cell.glyph)
    } else {
        put_looking(out, colors, cell)
    }
}

/// Appends a cell, if it changed: to the run with the look `run`, or, if there is none, as the first of one.
fn put_change(
    out: &mut Vec<u8>,
    colors: Colors,
    place: Place,
    run: Option<Look>,
    old: PictureCell,
    new: PictureCell,
) -> Result<(), AllocError>
    requires row { place.row < usize.MAX }
    requires column { place.column < usize.MAX }
    ensures { AppendsSome out.old out.new result (all_spelt (change colors place run old new)) }
{
    if old.is_same(new) {
        return Ok(());
    }
    match run {
        None => put_first(out, colors, place, new),
        Some(look) => put_further(out, colors, place, look, new),
    }
}

/// The look of the run that goes on after a cell; `None` if the cell didn't change or is the last of its row.
fn run_after(columns: usize, place: Place, old: PictureCell, new: PictureCell) -> Option<Look>
    requires { place.column < usize.MAX }
    ensures { result ≡ run_after columns place old new }
{
    if old.is_same(new) {
        None
    } else if place.column + 1 == columns {
        None
    } else {
        Some(new.look)
    }
}

/// Appends the cells that changed. A cell beyond the end of `olds` was erased.
pub(crate) fn put_changes(
    out: &mut Vec<u8>,
    colors: Colors,
    columns: usize,
    olds: &[PictureCell],
    news: &[PictureCell],
) -> Result<(), AllocError>
    ensures { AppendsSome out.old out.new result (all_spelt (changes colors columns origin None olds.now news.now)) }
{
    let mut place = Place { row: 0, column: 0 };
    let mut run = None;
    for (index, new) in news.iter().enumerate() {
        let old = PictureCell::of(olds, index);
        put_change(out, colors, place, run, old, *new)?;
        run = run_after(columns, place, old, *new);
        place = next_place(columns, place);
    }
    Ok(())
}
