//! What a tty shows, and the bytes that change it.
ghost use Rattle.std.specs.Prelude.{◌≡◌, ◌≤◌, None, Some, IfSome, OnOk, OnErr, take, vec_len, vec_capacity};
ghost use Rattle.codes3270.specs.Appending.{Appends, AppendsSome};
ghost use Rattle.tty.specs.Spelling.{all_spelt};
ghost use Rattle.tty.specs.Pictures.{IsSized};
ghost use Rattle.tty.specs.Changes.{update, redrawing, drawing_of};
ghost use Rattle.tty.specs.Drawn.{IsShownAfter};

use crate::colors::Colors;
use crate::output::{put_changes, put_erase, put_place};
use crate::picture::{Picture, PictureCell};
use std::alloc::AllocError;
use std::marker::Model;

/// The colours in which a tty is drawn, and the picture that it shows, if it is known.
#[derive(Drop)]
pub struct Drawing {
    colors: Colors,
    shown: Option<Picture>,
}

impl Model for Drawing {
    ghost use Rattle.tty.specs.Changes.{DrawingParts};

    ghost Value = { DrawingParts };

    ghost view = { λ drawing. record { colors = drawing.colors; shown = drawing.shown } };
}

/// Appends what changes the cells `olds` into the picture's, and the cursor's place.
fn put_update(
    out: &mut Vec<u8>,
    colors: Colors,
    olds: &[PictureCell],
    picture: &Picture,
) -> Result<(), AllocError>
    ensures appends { AppendsSome out.old out.new result (all_spelt (update colors olds.now picture.now)) }
    ensures sized { IsSized picture.now }
{
    put_changes(out, colors, picture.columns(), olds, picture.cells())?;
    put_place(out, picture.cursor())
}

/// Appends what erases the tty and draws the whole picture.
fn put_all(out: &mut Vec<u8>, colors: Colors, picture: &Picture) -> Result<(), AllocError>
    ensures appends { AppendsSome out.old out.new result (all_spelt (redrawing colors picture.now)) }
    ensures sized { IsSized picture.now }
{
    // For the contract: the picture has a cell for each place.
    let _cells = picture.cells();
    put_erase(out)?;
    put_update(out, colors, &[], picture)
}

/// Appends what turns one picture into another.
fn put_over(
    out: &mut Vec<u8>,
    colors: Colors,
    shown: &Picture,
    picture: &Picture,
) -> Result<(), AllocError>
    ensures appends { AppendsSome out.old out.new result (all_spelt (drawing_of colors (Some shown.now) picture.now)) }
    ensures known { IsSized shown.now }
    ensures sized { IsSized picture.now }
{
    if shown.has_size_of(picture) {
        put_update(out, colors, shown.cells(), picture)
    } else {
        put_all(out, colors, picture)
    }
}

/// Appends what draws a picture on a tty that shows this one, or is unknown.
fn put_drawing(
    out: &mut Vec<u8>,
    colors: Colors,
    shown: &Option<Picture>,
    picture: &Picture,
) -> Result<(), AllocError>
    ensures appends { AppendsSome out.old out.new result (all_spelt (drawing_of colors shown.now picture.now)) }
    ensures known { IfSome shown.now IsSized }
    ensures sized { IsSized picture.now }
{
    match shown {
        None => put_all(out, colors, picture),
        Some(known) => put_over(out, colors, known, picture),
    }
}

/// Removes the bytes from `start` on, if appending them failed.
fn taken_back(
    out: &mut Vec<u8>,
    start: usize,
    put: Result<(), AllocError>,
) -> Result<(), AllocError>
    requires { start ≤ vec_len out.old }
    ensures same { result ≡ put }
    ensures ok { OnOk put (out.new.items ≡ out.old.items) }
    ensures err { OnErr put (out.new.items ≡ take start out.old.items) }
    ensures capacity { vec_capacity out.new ≡ vec_capacity out.old }
{
    if put.is_err() {
        out.truncate(start);
    }
    put
}

impl Drawing {
    /// A tty of which nothing is known, to be drawn in these colours.
    pub fn new(colors: Colors) -> Drawing
        ensures { result ≡ record { colors = colors; shown = None } }
    {
        Drawing {
            colors,
            shown: None,
        }
    }

    /// Forgets what the tty shows, so that the next call of `draw` erases it and draws all.
    pub fn forget(&mut self)
        ensures { self.new ≡ record self.old { shown = None } }
    {
        self.shown = None;
    }

    /// Appends the bytes that make the tty show a picture, whatever was drawn before.
    ///
    /// If a picture of the same size is known, only the cells that differ are written, and then the cursor's place; if
    /// none is known, or the size changes, the tty is erased first. The tty must have a place for each cell
    /// (`check_room`), and must have been given all bytes of the earlier calls and nothing else; after other bytes call
    /// `forget`.
    ///
    /// Err only if memory is refused; then nothing is appended, and the known picture stays.
    pub fn draw(&mut self, picture: Picture, out: &mut Vec<u8>) -> Result<(), AllocError>
        ensures bytes { Appends out.old out.new result (all_spelt (drawing_of self.old.colors self.old.shown picture)) }
        // A tty that shows the picture that was known shows the new one afterwards.
        ensures shown { IsShownAfter self.old.colors self.old.shown picture }
        ensures known { OnOk result (self.new ≡ record self.old { shown = Some picture }) }
        ensures kept { OnErr result (self.new ≡ self.old) }
    {
        let start = out.len();
        let put = put_drawing(out, self.colors, &self.shown, &picture);
        let put = taken_back(out, start, put);
        if put.is_ok() {
            self.shown = Some(picture);
        }
        put
    }
}
