//! The cells of a screen.
ghost use Rattle.std.specs.Prelude.{◌≡◌, ◌<◌, ◌≤◌, ◌+◌, ◌*◌, ℕ, true, false, not, nat_lt, IfNone, IfSome, IsTrue, length, drop, map, replicate, slice_index_or, slice_set};
ghost use Rattle.std.specs.Int.{bit_at};
ghost use Rattle.std.specs.List.{list_all, prefix_len};
ghost use Rattle.codes3270.specs.Size.{cells_in, most_cells};
ghost use Rattle.codes3270.specs.declared.attribute.Cell.TheVariants.{Char, Attr as AttrHere};
ghost use Rattle.datastream.specs.CellBits.{bit_of};
ghost use Rattle.datastream.specs.CellCodes.{code_in};
ghost use Rattle.datastream.specs.Screen.{IsGoverned, is_char, is_char_at};
ghost use Rattle.presentation.specs.Runs.{placed};

use codes3270::{Attr, Cell, Size};
use datastream::{PackedCell, PackedCells};
use std::marker::Model;

/// How many cells a word has a bit for.
pub(crate) const BITS: usize = 64;

/// The cells of a screen, each as a byte (its code) and a bit (whether it is an attribute). Contracts see their list.
#[derive(Clone, Drop)]
pub(crate) struct ScreenCells {
    packed: PackedCells,
}

impl Model for ScreenCells {
    ghost use Rattle.std.specs.Prelude.{List};
    ghost use Rattle.codes3270.specs.declared.attribute.Cell.{Cell};
    ghost use Rattle.presentation.specs.Kept.{cells_of, AreCells};

    ghost Value = { List Cell };

    ghost view = { λ cells. cells_of cells.packed };

    ghost invariant = { λ cells. AreCells cells.packed };
}

impl ScreenCells {
    /// The cells of a screen of this size, all nulls.
    pub(crate) fn nulls(size: Size) -> ScreenCells
        ensures { result ≡ replicate (cells_in size) (Char 0) }
    {
        ScreenCells {
            packed: PackedCells::filled(PackedCell::character(0), size),
        }
    }

    /// Takes this size, which may differ from the old one, and nulls each cell.
    pub(crate) fn clear(&mut self, size: Size)
        ensures { self.new ≡ replicate (cells_in size) (Char 0) }
    {
        self.packed.clear(size);
    }

    /// How many cells there are, at least 1.
    pub(crate) fn len(&self) -> usize
        ensures len { result ≡ length self.now }
        ensures few { result ≤ most_cells }
        ensures some { 0 < result }
    {
        self.packed.len()
    }

    /// The cell at an address.
    #[inline(always)]
    pub(crate) fn get(&self, at: usize) -> Cell
        requires { at < length self.now }
        ensures { result ≡ slice_index_or self.now at result }
    {
        self.packed.get(at)
    }

    /// The code of the character at an address, where there must be one.
    #[inline(always)]
    pub(crate) fn character(&self, at: usize) -> u8
        requires placed { at < length self.now }
        requires character { is_char_at self.now at ≡ true }
        ensures { slice_index_or self.now at (Char 0) ≡ Char result }
    {
        self.codes()[at]
    }

    /// The attribute at an address, where there must be one.
    #[inline(always)]
    pub(crate) fn attribute(&self, at: usize) -> Attr
        requires placed { at < length self.now }
        requires attribute { is_char_at self.now at ≡ false }
        ensures { slice_index_or self.now at (Char 0) ≡ AttrHere result }
    {
        self.packed.attribute_at(at)
    }

    /// Stores a cell at an address.
    #[inline(always)]
    pub(crate) fn set(&mut self, at: usize, cell: Cell)
        requires { at < length self.old }
        ensures { self.new ≡ slice_set self.old at cell }
    {
        self.packed.set(at, PackedCell::new(cell));
    }

    /// Stores characters from an address on; they must fit before the end.
    #[inline(always)]
    pub(crate) fn put_characters(&mut self, from: usize, text: &[u8])
        requires { from + length text.now ≤ length self.old }
        ensures { self.new ≡ placed from text.now self.old }
    {
        self.packed.store_characters(from, text);
    }

    /// The code of each cell, by address: that of its character, or that of its attribute in an SF.
    pub(crate) fn codes(&self) -> &[u8]
        ensures codes { result.now ≡ map code_in self.now }
        ensures len { length result.now ≡ length self.now }
    {
        self.packed.codes()
    }

    /// The address of the first attribute at or after an address, or the number of cells.
    pub(crate) fn attribute_from(&self, from: usize) -> usize
        requires { from ≤ length self.now }
        ensures place { result ≡ from + prefix_len is_char (drop from self.now) }
        ensures within { result ≤ length self.now }
    {
        self.packed.attribute_from(from)
    }

    /// A bit for each of the 64 cells of a word, set if the cell holds an attribute. The word must be full.
    #[inline(always)]
    pub(crate) fn attribute_word(&self, word: usize) -> u64
        requires { 64 * word + 64 ≤ length self.now }
        ensures { (place : ℕ) → place < 64
            → bit_at result place ≡ bit_of (not (is_char_at self.now (64 * word + place))) }
    {
        self.packed.attribute_word(word)
    }

    /// A bit for each cell of the last word, set if it holds an attribute. The bits after the last cell are clear.
    pub(crate) fn last_attribute_word(&self, word: usize) -> u64
        requires some { 64 * word < length self.now }
        requires last { length self.now ≤ 64 * word + 64 }
        ensures { (place : ℕ) → place < 64
            → bit_at result place ≡ bit_of (not (is_char_at self.now (64 * word + place))) }
    {
        let left = self.packed.len() - BITS * word;
        self.packed.attribute_word(word) & ones_below(left)
    }

    /// The address of the attribute that governs a cell: the last at or before it, or else the last; `None` if none is.
    pub(crate) fn governing(&self, at: usize) -> Option<usize>
        requires { at < length self.now }
        ensures none { IfNone result (IsTrue (list_all is_char self.now)) }
        ensures governing { IfSome result (λ attr. IsGoverned self.now at attr) }
        ensures within { IfSome result (λ attr. attr < length self.now) }
    {
        let last = self.packed.len() - 1;
        self.packed
            .attribute_to(at)
            .or(self.packed.attribute_to(last))
    }
}

/// A word whose `place` lowest bits are set; `place` is in 1..=64.
fn ones_below(place: usize) -> u64
    requires some { 0 < place }
    requires few { place ≤ 64 }
    ensures { (other : ℕ) → other < 64 → bit_at result other ≡ bit_of (nat_lt other place) }
{
    u64::MAX >> (BITS - place)
}
