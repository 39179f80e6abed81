//! The rows of the screen that a panel is laid out on, and the numbers of models.
ghost use Rattle.std.specs.Prelude.{◌≡◌, ◌+◌, ◌<◌, ◌≤◌};
ghost use Rattle.codes3270.specs.Size.{cells_in, most_cells};
ghost use Rattle.panels.specs.Size.{item_rows, message_start, model_numbered};

use codes3270::{Model, Size};

/// The number of rows that a panel's items may be in: all but the last, which is for messages.
pub(crate) fn item_rows(size: Size) -> u16
    ensures { result ≡ item_rows size }
{
    size.rows().saturating_sub(1)
}

/// The buffer address at which the message row starts.
pub(crate) fn message_start(size: Size) -> u16
    ensures value { result ≡ message_start size }
    // The row reaches to the end of the screen, and has a first cell.
    ensures row { result + size.columns ≡ cells_in size }
    ensures before_end { result < cells_in size }
    ensures few { cells_in size ≤ most_cells }
{
    size.cells() - size.cols()
}

/// The model with a number from 2 to 5; model 2 for any other number.
pub(crate) fn model_numbered(number: i64) -> Model
    ensures { result ≡ model_numbered number }
{
    match number {
        3 => Model::M3,
        4 => Model::M4,
        5 => Model::M5,
        _ => Model::M2,
    }
}
