//! The size of a tty, as a word of the command line.
ghost use Rattle.std.specs.Prelude.{◌≡◌};
ghost use Rattle.jobs.specs.OptionValues.{tty_size_of};

use crate::number::BoundedU16;
use crate::word::{after_first, before_first};

/// The size of a tty: its rows and its columns, each 1 to 9,999.
#[derive(Clone, Copy, Debug)]
pub struct TtySize {
    /// The number of rows.
    pub rows: u16,
    /// The number of columns.
    pub columns: u16,
}

/// A number of rows or columns, 1 to 9,999.
type Side = BoundedU16<1, 9999>;

impl TtySize {
    /// The size in a word such as `24x80`: rows and columns in decimal digits, with an `x` between them. None if the
    /// word isn't such a size.
    pub fn read(word: &str) -> Option<TtySize>
        ensures { result ≡ tty_size_of word.now }
    {
        Some(TtySize {
            rows: Side::read(before_first(word, 'x'))?.get(),
            columns: Side::read(after_first(word, 'x'))?.get(),
        })
    }
}
