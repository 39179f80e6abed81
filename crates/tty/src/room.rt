//! Whether a tty has room for a screen.
ghost use Rattle.std.specs.Prelude.{◌≡◌, ◌≤◌, MatchResult};

use codes3270::Size;
use std::error::Error;
use std::fmt;

/// A tty that is too small for a screen. `{}` prints it in one line.
#[derive(Clone, Copy, Debug, PartialEq, Eq)]
pub struct TooSmall {
    /// The rows of the tty.
    pub rows: u16,
    /// The columns of the tty.
    pub columns: u16,
    /// The rows that are needed.
    pub needed_rows: u16,
    /// The columns that are needed.
    pub needed_columns: u16,
}

impl fmt::Display for TooSmall {
    ghost use Rattle.std.specs.Prelude.{Some};
    ghost use Rattle.tty.specs.TtyRoom.{too_small_text};

    ghost output = { λ fault. Some (too_small_text fault) };

    fn fmt<W: fmt::Write>(&self, f: &mut fmt::Formatter<W>) -> fmt::Result {
        let TooSmall {
            rows,
            columns,
            needed_rows,
            needed_columns,
        } = *self;
        write!(
            f,
            "the tty has {rows} rows of {columns} columns, and the screen needs {needed_rows} rows of {needed_columns}"
        )
    }
}

impl Error for TooSmall {}

/// Checks that a tty of this many rows and columns has a place for each cell of a screen of this size; it may be
/// larger.
/// To check for all screens of a terminal, pass its model's alternate size.
pub fn check_room(size: Size, rows: u16, columns: u16) -> Result<(), TooSmall>
    ensures { MatchResult result
        (λ _. (size.rows ≤ rows) × (size.columns ≤ columns))
        (λ fault. (fault
        ≡ record { rows = rows; columns = columns; needed_rows = size.rows; needed_columns = size.columns })
        × (size.rows ≤ rows → size.columns ≤ columns → ⊥)) }
{
    let needed_rows = size.rows();
    let needed_columns = size.cols();
    if needed_rows <= rows && needed_columns <= columns {
        Ok(())
    } else {
        Err(TooSmall {
            rows,
            columns,
            needed_rows,
            needed_columns,
        })
    }
}
