//! A wanted screen: what a program wants a terminal's screen to show.
ghost use Rattle.std.specs.Prelude.{◌≡◌, ◌<◌, ◌≤◌, ◌+◌, ◌*◌, ◌++◌, All, false, not, length, map, replicate, drop, slice_get, slice_set, slice_index_or, Some};
ghost use Rattle.codes3270.specs.Size.{cells_in, most_cells};
ghost use Rattle.datastream.specs.CellBits.{word_count, AreBits};
ghost use Rattle.datastream.specs.CellCodes.{code_in};
ghost use Rattle.datastream.specs.Screen.{is_char};
ghost use Rattle.datastream.specs.Wanted.{IsProper, want_kept};
ghost use Rattle.datastream.specs.declared.wanted.Want.TheVariants.{Keep};
ghost use Rattle.datastream.specs.Wanted.{is_attribute as is_attribute_wanted, is_character as is_character_wanted, byte_of as byte_wanted};

use crate::cell_store::{CellBits, HasCells, PackedCell, PackedCells, Ring};
use codes3270::{Addr, Attr, Cell, Size};
use std::marker::Model;

/// What a program wants in a cell (our profile).
#[derive(Clone, Copy, Debug, PartialEq, Eq)]
pub enum Want {
    /// This character.
    Char(u8),
    /// This attribute.
    Attr(Attr),
    /// Leave the cell as it is.
    Keep,
}

/// A wanted screen: its size, a [`Want`] for each cell, the cursor's address, and whether MDT of all fields is
/// reset first. Each wanted character must be storable.
///
/// It is stored as a byte and two bits per cell, with room for the largest screen. Contracts see the size and the cells
/// that a screen of this size has.
#[derive(Clone, Drop)]
pub struct Wanted {
    /// Holds a null character for each cell whose want is `Keep`.
    cells: PackedCells,
    characters: CellBits,
    cursor: Addr,
    reset: bool,
}

impl Model for Wanted {
    ghost use Rattle.datastream.specs.CellBits.{kept};
    ghost use Rattle.datastream.specs.Wanted.{WantedScreen, IsScreen, AreKept, want_by};

    ghost Value = { WantedScreen };

    ghost view = { λ wanted. record {
      size = wanted.cells.size;
      cells = kept (want_by wanted.cells.attributes wanted.characters) 0 wanted.cells.codes;
      cursor = wanted.cursor;
      reset = wanted.reset;
    } };

    ghost invariant = { λ wanted. IsScreen (record {
      size = wanted.cells.size;
      cells = kept (want_by wanted.cells.attributes wanted.characters) 0 wanted.cells.codes;
      cursor = wanted.cursor;
      reset = wanted.reset;
    }) × AreKept wanted.cells.attributes wanted.characters wanted.cells.codes };
}

/// What is stored for a want, except for the bit that says whether a character is wanted.
fn packed(want: Want) -> PackedCell
    ensures byte { code_in result ≡ byte_wanted want }
    ensures attribute { not (is_char result) ≡ is_attribute_wanted want }
    ensures kept { want_kept (is_attribute_wanted want) (is_character_wanted want) (code_in result) ≡ want }
{
    match want {
        Want::Char(byte) => PackedCell::character(byte),
        Want::Attr(attr) => PackedCell::new(Cell::Attr(attr)),
        Want::Keep => PackedCell::character(0),
    }
}

fn is_character(want: Want) -> bool
    ensures { result ≡ is_character_wanted want }
{
    match want {
        Want::Char(_) => true,
        Want::Attr(_) => false,
        Want::Keep => false,
    }
}

impl Wanted {
    /// A wanted screen with this want in each cell, the cursor at address 0, and no MDT reset.
    pub fn filled(want: Want, size: Size) -> Wanted
        requires { IsProper want }
        ensures { result ≡ record { size = size; cells = replicate (cells_in size) want; cursor = 0; reset = false } }
    {
        // For the contract: the screen has a first cell.
        let _cells = size.cells();
        Wanted {
            cells: PackedCells::filled(packed(want), size),
            characters: CellBits::all(is_character(want)),
            cursor: Addr::first(),
            reset: false,
        }
    }

    /// Sets what is wanted in the cell at an address. A wanted character must be storable.
    pub fn put(&mut self, cell: usize, want: Want)
        requires in_range { cell < cells_in self.old.size }
        requires proper { IsProper want }
        ensures put { self.new ≡ record self.old { cells = slice_set self.old.cells cell want } }
        ensures size { length self.new.cells ≡ cells_in self.new.size }
        ensures proper { All IsProper self.new.cells }
    {
        self.cells.set(cell, packed(want));
        self.characters.put(cell, is_character(want));
    }

    /// Sets the cursor's wanted address, and whether MDT of all fields is reset first.
    pub fn set_cursor_and_reset(&mut self, cursor: Addr, reset: bool)
        requires { cursor < cells_in self.old.size }
        ensures { self.new ≡ record self.old { cursor = cursor; reset = reset } }
    {
        self.cursor = cursor;
        self.reset = reset;
    }

    /// The size of the screen.
    pub fn size(&self) -> Size
        ensures size { result ≡ self.now.size }
        // There is a want for each cell, and two bytes hold each address.
        ensures cells { length self.now.cells ≡ cells_in self.now.size }
        ensures few { cells_in self.now.size ≤ most_cells }
    {
        self.cells.size()
    }

    /// How many cells the screen has.
    fn count(&self) -> usize
        ensures count { result ≡ cells_in self.now.size }
        ensures size { length self.now.cells ≡ result }
        ensures few { result ≤ most_cells }
        ensures proper { All IsProper self.now.cells }
    {
        self.cells.len()
    }

    /// The wants of all cells, in the order of their addresses.
    pub fn cells(&self) -> Wants<'_>
        ensures cells { result ≡ self.now.cells }
        ensures size { length result ≡ cells_in self.now.size }
        ensures proper { All IsProper result }
    {
        // For the contract: there is a want for each cell.
        let _count = self.count();
        Ring::all(self)
    }

    /// The wants of the cells after an address up to the last cell, then those of all cells.
    pub fn ahead(&self, cell: usize) -> Wants<'_>
        requires { cell < cells_in self.now.size }
        ensures cells { result ≡ drop (cell + 1) self.now.cells ++ self.now.cells }
        ensures few { length result ≤ 2 * cells_in self.now.size }
    {
        // For the contract: there is a want for each cell.
        let _count = self.count();
        Ring::ahead(self, cell)
    }

    /// What is wanted in the cell at an address.
    pub fn want(&self, addr: Addr) -> Want
        requires { addr < cells_in self.now.size }
        ensures wanted { slice_get self.now.cells addr ≡ Some result }
        ensures proper { IsProper result }
    {
        self.at(addr.get() as usize)
    }

    /// What is wanted in the cell at an index (0-based, as an address).
    pub fn at(&self, cell: usize) -> Want
        requires { cell < cells_in self.now.size }
        ensures wanted { result ≡ slice_index_or self.now.cells cell result }
        ensures size { length self.now.cells ≡ cells_in self.now.size }
        ensures proper { IsProper result }
    {
        match self.cells.get(cell) {
            Cell::Attr(attr) => Want::Attr(attr),
            Cell::Char(byte) => {
                if self.characters.has(cell) {
                    Want::Char(byte)
                } else {
                    Want::Keep
                }
            }
        }
    }

    /// One byte per cell: the wanted character, the code of the wanted attribute, or null for `Keep`.
    pub fn bytes(&self) -> &[u8]
        ensures bytes { result.now ≡ map byte_wanted self.now.cells }
        ensures size { length self.now.cells ≡ cells_in self.now.size }
        ensures proper { All IsProper self.now.cells }
    {
        self.cells.codes()
    }

    /// The bits of the 64 cells from `64 * index` on, the lowest bit first, set if an attribute is wanted.
    pub fn attribute_word(&self, index: usize) -> u64
        requires { index < word_count }
        ensures { AreBits (cells_in self.now.size)
            (λ cell. is_attribute_wanted (slice_index_or self.now.cells cell Keep)) index result }
    {
        self.cells.attribute_word(index)
    }

    /// The bits of the 64 cells from `64 * index` on, the lowest bit first, set if a character is wanted.
    pub fn character_word(&self, index: usize) -> u64
        requires { index < word_count }
        ensures { AreBits (cells_in self.now.size)
            (λ cell. is_character_wanted (slice_index_or self.now.cells cell Keep)) index result }
    {
        self.characters.word(index)
    }

    /// The cursor's wanted address.
    pub fn cursor(&self) -> Addr
        ensures cursor { result ≡ self.now.cursor }
        ensures in_range { result < cells_in self.now.size }
    {
        self.cursor
    }

    /// Whether MDT of all fields is reset first.
    pub fn reset(&self) -> bool
        ensures { result ≡ self.now.reset }
    {
        self.reset
    }
}

/// An iterator over wants, which may wrap round at the screen's end. Contracts see the list of those that remain.
pub type Wants<'a> = Ring<'a, Wanted>;

impl HasCells for Wanted {
    type Cell = Want;

    ghost cells = { λ wanted. wanted.cells };

    #[inline(always)]
    fn cell_at(&self, at: usize) -> Want {
        // For the contract: there is a want for each cell.
        let _count = self.count();
        self.at(at)
    }

    fn cell_count(&self) -> usize {
        self.count()
    }
}
