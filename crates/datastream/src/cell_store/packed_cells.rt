//! The cells of a screen, stored as a byte and a bit each.
ghost use Rattle.std.specs.Prelude.{◌≡◌, ◌<◌, ◌≤◌, ◌+◌, ◌-◌, ◌++◌, ℕ, false, true, not, nat_eq, if◌then◌else◌, length, replicate, take, drop, slice_index_or, slice_set, IfNone, IfSome};
ghost use Rattle.codes3270.specs.Size.{cells_in, most_cells};
ghost use Rattle.codes3270.specs.Attribute.{attr_of};
ghost use Rattle.datastream.specs.CellBits.{has_bit, is_within, word_count, AreBits};
ghost use Rattle.datastream.specs.CellCodes.{cell_of, code_in};
ghost use Rattle.datastream.specs.Screen.{is_char};

use super::cell_bits::CellBits;
use super::packed_cell::PackedCell;
use codes3270::{Attr, Cell, MOST_CELLS, Size};
use std::marker::Model;

/// The cells of a screen of any size: a code per cell, and a bit that is set if the code is an attribute's.
/// Anything else to be known of the cells is stored beside it. Contracts see the size, the codes of the
/// cells that the screen has, and the bits.
#[derive(Clone, Drop)]
pub struct PackedCells {
    /// It has room for the largest screen.
    codes: [u8; MOST_CELLS],
    attributes: CellBits,
    size: Size,
}

impl Model for PackedCells {
    ghost use Rattle.std.specs.Prelude.{◌≡◌, ◌≤◌, length, take};
    ghost use Rattle.codes3270.specs.Size.{cells_in, most_cells};
    ghost use Rattle.datastream.specs.CellCodes.{Packed};

    ghost Value = { Packed };

    ghost view = { λ cells.
        record { size = cells.size; codes = take (cells_in cells.size) cells.codes; attributes = cells.attributes } };

    ghost invariant = { λ cells. (length cells.codes ≡ most_cells) × (cells_in cells.size ≤ most_cells) };
}

fn same_codes(code: u8) -> [u8; MOST_CELLS]
    ensures { result ≡ replicate most_cells code }
{
    [code; MOST_CELLS]
}

/// Stores codes from an index on. A single code is stored directly, which is cheaper than a copy.
fn put_in(codes: &mut [u8], from: usize, text: &[u8])
    requires { from + length text.now ≤ length codes.old }
    ensures { codes.new ≡ take from codes.old ++ (text.now ++ drop (from + length text.now) codes.old) }
{
    if let [code] = text {
        codes[from] = *code;
    } else {
        codes[from..from + text.len()].copy_from_slice(text);
    }
}

/// Stores nulls from an index up to another, which is excluded.
fn put_nulls_in(codes: &mut [u8], from: usize, to: usize)
    requires order { from ≤ to }
    requires few { to ≤ length codes.old }
    ensures { codes.new ≡ take from codes.old ++ (replicate (to - from) 0 ++ drop to codes.old) }
{
    codes[from..to].fill(0);
}

impl PackedCells {
    /// A screen of this size with this cell at each address.
    pub fn filled(cell: PackedCell, size: Size) -> PackedCells
        ensures size { result.size ≡ size }
        ensures codes { result.codes ≡ replicate (cells_in size) (code_in cell) }
        ensures attributes { (at : ℕ) → at < most_cells → has_bit result.attributes at ≡ not (is_char cell) }
        ensures few { cells_in size ≤ most_cells }
    {
        // For the contract: there is room for the screen.
        let _cells = size.cells();
        PackedCells {
            codes: same_codes(cell.code()),
            attributes: CellBits::all(!cell.is_character()),
            size,
        }
    }

    /// The size of the screen.
    pub fn size(&self) -> Size
        ensures size { result ≡ self.now.size }
        ensures cells { length self.now.codes ≡ cells_in self.now.size }
        ensures few { cells_in self.now.size ≤ most_cells }
    {
        self.size
    }

    /// How many cells the screen has.
    pub fn len(&self) -> usize
        ensures cells { result ≡ cells_in self.now.size }
        ensures len { result ≡ length self.now.codes }
        ensures few { result ≤ most_cells }
        ensures some { 0 < result }
    {
        usize::from(self.size.cells())
    }

    /// The cell at an address.
    pub fn get(&self, at: usize) -> Cell
        requires { at < cells_in self.now.size }
        ensures { result ≡ cell_of (has_bit self.now.attributes at) (slice_index_or self.now.codes at 0) }
    {
        let code = self.codes[at];
        if self.attributes.has(at) {
            Cell::Attr(Attr::from_code(code))
        } else {
            Cell::Char(code)
        }
    }

    /// Stores a cell at an address.
    pub fn set(&mut self, at: usize, cell: PackedCell)
        requires { at < cells_in self.old.size }
        ensures size { self.new.size ≡ self.old.size }
        ensures codes { self.new.codes ≡ slice_set self.old.codes at (code_in cell) }
        ensures attributes { (other : ℕ) → has_bit self.new.attributes other
            ≡ (if nat_eq other at then not (is_char cell) else has_bit self.old.attributes other) }
    {
        self.codes[at] = cell.code();
        self.attributes.put(at, !cell.is_character());
    }

    /// The codes of all cells, in the order of their addresses.
    pub fn codes(&self) -> &[u8]
        ensures codes { result.now ≡ self.now.codes }
        ensures cells { length self.now.codes ≡ cells_in self.now.size }
    {
        let cells = usize::from(self.size.cells());
        &self.codes[..cells]
    }

    /// The bits of the 64 cells from `64 * index` on, the lowest bit first, set if the cell has an attribute.
    pub fn attribute_word(&self, index: usize) -> u64
        requires { index < word_count }
        ensures { AreBits most_cells (has_bit self.now.attributes) index result }
    {
        self.attributes.word(index)
    }

    /// The address of the first attribute from an address on, or the number of cells if there is none.
    pub fn attribute_from(&self, from: usize) -> usize
        requires { from ≤ cells_in self.now.size }
        ensures from { from ≤ result }
        ensures within { result ≤ cells_in self.now.size }
        ensures clear { (at : ℕ) → from ≤ at → at < result → has_bit self.now.attributes at ≡ false }
        ensures set { result < cells_in self.now.size → has_bit self.now.attributes result ≡ true }
    {
        self.attributes
            .first_from(from, usize::from(self.size.cells()))
    }

    /// The address of the last attribute up to and including an address.
    pub fn attribute_to(&self, at: usize) -> Option<usize>
        requires { at < cells_in self.now.size }
        ensures none { IfNone result ((other : ℕ) → other ≤ at → has_bit self.now.attributes other ≡ false) }
        ensures last { IfSome result (λ last. (last ≤ at) × (has_bit self.now.attributes last ≡ true)
            × ((other : ℕ) → last < other → other ≤ at → has_bit self.now.attributes other ≡ false)) }
    {
        // For the contract: there is room for the screen.
        let _cells = self.len();
        self.attributes.last_to(at)
    }

    /// The attribute at an address. The cell there must have one.
    pub fn attribute_at(&self, at: usize) -> Attr
        requires placed { at < cells_in self.now.size }
        requires attribute { has_bit self.now.attributes at ≡ true }
        ensures { result ≡ attr_of (slice_index_or self.now.codes at 0) }
    {
        Attr::from_code(self.codes[at])
    }

    /// Stores characters from an address on, up to the last cell at most, in cells that must have characters already.
    #[tactic(auto, using(crate::proofs::Splices::taken_between))]
    pub fn put_characters(&mut self, from: usize, text: &[u8])
        requires { from + length text.now ≤ cells_in self.old.size }
        ensures { self.new ≡ record self.old {
          codes = take from self.old.codes ++ (text.now ++ drop (from + length text.now) self.old.codes);
        } }
    {
        put_in(self.codes.as_mut_slice(), from, text);
    }

    /// Stores characters from an address on, whatever the cells had.
    #[inline(always)]
    pub fn store_characters(&mut self, from: usize, text: &[u8])
        requires { from + length text.now ≤ cells_in self.old.size }
        ensures size { self.new.size ≡ self.old.size }
        ensures codes { self.new.codes ≡ take from self.old.codes
            ++ (text.now ++ drop (from + length text.now) self.old.codes) }
        ensures attributes { (other : ℕ) → has_bit self.new.attributes other
            ≡ (if is_within from (from + length text.now) other then false else has_bit self.old.attributes other) }
    {
        // For the contract: there is room for the screen.
        let _cells = self.len();
        let to = from + text.len();
        self.put_characters(from, text);
        self.attributes.put_range(from, to, false);
    }

    /// Stores nulls from an address up to another, excluded, in cells that must have characters already.
    #[tactic(auto, using(crate::proofs::Splices::nulls_between))]
    pub fn put_nulls(&mut self, from: usize, to: usize)
        requires order { from ≤ to }
        requires few { to ≤ cells_in self.old.size }
        ensures { self.new ≡ record self.old {
          codes = take from self.old.codes ++ (replicate (to - from) 0 ++ drop to self.old.codes);
        } }
    {
        put_nulls_in(self.codes.as_mut_slice(), from, to);
    }

    /// Sets the size, and stores a null in each cell.
    pub fn clear(&mut self, size: Size)
        ensures size { self.new.size ≡ size }
        ensures codes { self.new.codes ≡ replicate (cells_in size) 0 }
        ensures attributes { (at : ℕ) → at < most_cells → has_bit self.new.attributes at ≡ false }
        ensures few { cells_in size ≤ most_cells }
    {
        put_nulls_in(self.codes.as_mut_slice(), 0, usize::from(size.cells()));
        self.attributes = CellBits::all(false);
        self.size = size;
    }
}
