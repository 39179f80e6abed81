//! How this and other crates store a screen of any size: one cell in two bytes, all cells in a byte and a bit each,
//! one bit per cell, and an iterator over cells that wraps round at the end.

mod cell_bits;
mod packed_cell;
mod packed_cells;
mod ring;

pub use cell_bits::CellBits;
pub use packed_cell::PackedCell;
pub use packed_cells::PackedCells;
pub use ring::{HasCells, Ring};
