//! The models of the 3278, and the sizes of their screens (GA23-0059-07 on screen sizes).
ghost use Rattle.std.specs.Prelude.{◌≡◌, ◌<◌, ◌≤◌};
ghost use Rattle.codes3270.specs.Size.{alternate_of, cells_in, model_2, most_cells, most_columns};

use std::marker;

/// The number of cells of the largest screen, that of model 5, as a length.
pub const MOST_CELLS: usize = 3564;

/// The number of cells of the longest row, that of model 5.
pub const MOST_COLUMNS: usize = 132;

/// A model of the 3278, with two sizes of its screen: 24 rows of 80 cells, and its alternate size.
#[derive(Clone, Copy, Debug, PartialEq, Eq)]
pub enum Model {
    /// The alternate size is 24 by 80, too.
    M2,
    /// The alternate size is 32 by 80.
    M3,
    /// The alternate size is 43 by 80.
    M4,
    /// The alternate size is 27 by 132.
    M5,
}

impl Model {
    /// The size that Erase/Write Alternate sets.
    pub const fn alternate(self) -> Size
        ensures { result ≡ alternate_of self }
    {
        Size { model: self }
    }
}

/// The size of a screen. Contracts see its rows and columns.
#[derive(Clone, Copy, Debug, PartialEq, Eq)]
pub struct Size {
    // The model of which it is the alternate size.
    model: Model,
}

impl marker::Model for Size {
    ghost use Rattle.codes3270.specs.Size.{ScreenSize, alternate_of, cells_in, model_with};

    ghost Value = { ScreenSize };

    ghost view = { λ size. alternate_of size.model };

    ghost inverse = { λ size. record { model = model_with (cells_in size) } };
}

impl Size {
    /// 24 rows of 80 cells: the size at the start of every connection, and after Erase/Write.
    pub const fn base() -> Size
        ensures { result ≡ model_2 }
    {
        Size { model: Model::M2 }
    }

    /// The number of rows: 24, 32, 43 or 27.
    pub const fn rows(self) -> u16
        ensures { result ≡ self.rows }
    {
        match self.model {
            Model::M2 => 24,
            Model::M3 => 32,
            Model::M4 => 43,
            Model::M5 => 27,
        }
    }

    /// The number of cells of a row: 80 or 132.
    pub const fn cols(self) -> u16
        ensures value { result ≡ self.columns }
        ensures few { result ≤ most_columns }
        ensures several { 1 < result }
    {
        match self.model {
            Model::M2 | Model::M3 | Model::M4 => 80,
            Model::M5 => 132,
        }
    }

    /// The number of cells. Addresses are less than this.
    pub const fn cells(self) -> u16
        ensures value { result ≡ cells_in self }
        ensures few { result ≤ most_cells }
        ensures some { 0 < result }
    {
        match self.model {
            Model::M2 => 1920,
            Model::M3 => 2560,
            Model::M4 => 3440,
            Model::M5 => 3564,
        }
    }
}
