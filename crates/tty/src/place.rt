//! Places on a tty.
ghost use Rattle.std.specs.Prelude.{◌≡◌, ◌<◌, ◌≤◌, ◌+◌};
ghost use Rattle.tty.specs.Pictures.{next_place};

/// A place on a tty: a row and a column, each from 0 on.
#[derive(Clone, Copy, PartialEq, Eq)]
pub struct Place {
    /// The row; 0 is the uppermost.
    pub row: usize,
    /// The column; 0 is the leftmost.
    pub column: usize,
}

/// The place after this one in rows of `columns` columns: the next column, or the first of the next row.
pub(crate) fn next_place(columns: usize, place: Place) -> Place
    requires row { place.row < usize.MAX }
    requires column { place.column < usize.MAX }
    ensures value { result ≡ next_place columns place }
    ensures row { result.row ≤ place.row + 1 }
    ensures column { result.column ≤ place.column + 1 }
{
    if place.column + 1 == columns {
        Place {
            row: place.row + 1,
            column: 0,
        }
    } else {
        Place {
            row: place.row,
            column: place.column + 1,
        }
    }
}
