//! The search for the cells that a paint stores, 64 at a time.
ghost use Rattle.std.specs.Prelude.{◌≡◌, ◌<◌, ◌≤◌, ◌+◌, ◌*◌, ◌/◌, ◌%◌, ℕ, IfSome, true, false, length, slice_index_or};
ghost use Rattle.std.specs.Int.{bit_at};
ghost use Rattle.codes3270.specs.Size.{cells_in, most_cells};
ghost use Rattle.shadow.specs.Appending.{IsStorableCell};
ghost use Rattle.shadow.specs.Base.{known_base, IsBase};
ghost use Rattle.shadow.specs.Looks.{stored_first, stores_from, IsRight, IsSearch, SetUnless};

use crate::painting::{Base, cell_to_store};
use codes3270::Cell;
use datastream::Wanted;

/// How many bits a word has.
pub(crate) const BITS: usize = 64;

/// A cell to store, and its address.
#[derive(Clone, Copy)]
pub(crate) struct ToStore {
    pub place: u16,
    pub cell: Cell,
}

/// How far the search for cells to store has come.
#[derive(Clone, Copy)]
pub(crate) struct Search {
    /// The address of the first cell that is left.
    from: usize,
    /// A bit for each cell of its word that is still to be examined; the others are known to be right.
    look: u64,
}

/// The bits, with the one at `place` set if `differ`.
fn marked(bits: u64, place: usize, differ: bool) -> u64
    requires { place < 64 }
    ensures here { bit_at result place ≡ 0 → differ ≡ false }
    ensures others { (other : ℕ) → bit_at result other ≡ 0 → bit_at bits other ≡ 0 }
{
    if differ { bits | 1 << place } else { bits }
}

/// Whether two screens of bytes differ in a cell.
fn differ(one: &[u8], other: &[u8], cell: usize) -> bool
    requires { length one.now ≡ length other.now }
    ensures { result ≡ false → cell < length one.now → slice_index_or one.now cell 0 ≡ slice_index_or other.now cell 0 }
{
    cell < one.len() && one[cell] != other[cell]
}

/// The bytes of the eight cells from `cell` on, or as many as are left.
fn eight(bytes: &[u8], cell: usize) -> &[u8]
    requires { cell ≤ length bytes.now }
    ensures { (place : ℕ) → place < 8 → cell + place < length bytes.now
        → slice_index_or result.now place 0 ≡ slice_index_or bytes.now (cell + place) 0 }
{
    let end = (cell + 8).min(bytes.len());
    &bytes[cell..end]
}

pub(crate) fn are_same(one: &[u8], other: &[u8]) -> bool
    ensures { result ≡ true → one.now ≡ other.now }
{
    one == other
}

/// The bits, with one set for each of the eight cells from `first` on in a word whose bytes differ.
fn marked_eight(one: &[u8], other: &[u8], word: usize, first: usize, bits: u64) -> u64
    requires word { 64 * word ≤ length one.now }
    requires first { first + 8 ≤ 64 }
    requires whole { length one.now ≡ length other.now }
    ensures here { (place : ℕ) → first ≤ place → place < first + 8 → 64 * word + place < length one.now → bit_at result
        place ≡ 0 → slice_index_or one.now (64 * word + place) 0 ≡ slice_index_or other.now (64 * word + place) 0 }
    ensures others { (place : ℕ) → bit_at result place ≡ 0 → bit_at bits place ≡ 0 }
{
    let cell = (BITS * word + first).min(one.len());
    if are_same(eight(one, cell), eight(other, cell)) {
        return bits;
    }
    let mut marks = bits;
    for place in first..first + 8 {
        marks = marked(marks, place, differ(one, other, BITS * word + place));
    }
    marks
}

/// A bit for each cell of a word, set if the bytes differ.
fn bits_differing(one: &[u8], other: &[u8], word: usize) -> u64
    requires word { 64 * word ≤ length one.now }
    requires whole { length one.now ≡ length other.now }
    ensures { SetUnless (length one.now)
        (λ cell. slice_index_or one.now cell 0 ≡ slice_index_or other.now cell 0) word result }
{
    let mut bits = 0;
    for group in 0..BITS / 8 {
        bits = marked_eight(one, other, word, 8 * group, bits);
    }
    bits
}

/// The bytes of a word's cells.
fn part(bytes: &[u8], word: usize) -> &[u8]
    requires { 64 * word ≤ length bytes.now }
    ensures { (place : ℕ) → place < 64 → 64 * word + place < length bytes.now
        → slice_index_or result.now place 0 ≡ slice_index_or bytes.now (64 * word + place) 0 }
{
    let start = BITS * word;
    let end = (start + BITS).min(bytes.len());
    &bytes[start..end]
}

/// A bit for each cell of a word, set if its byte isn't null.
pub(crate) fn bits_written(bytes: &[u8], word: usize) -> u64
    requires { 64 * word ≤ length bytes.now }
    ensures { SetUnless (length bytes.now) (λ cell. slice_index_or bytes.now cell 0 ≡ 0) word result }
{
    let mut bits = 0;
    for place in 0..BITS {
        bits = marked(bits, place, is_written(bytes, BITS * word + place));
    }
    bits
}

/// Whether a cell's byte isn't null.
fn is_written(bytes: &[u8], cell: usize) -> bool
    ensures { result ≡ false → cell < length bytes.now → slice_index_or bytes.now cell 0 ≡ 0 }
{
    cell < bytes.len() && bytes[cell] != 0
}

/// A bit for each cell of a word, set if the bytes differ. Usually none do, which one comparison finds.
pub(crate) fn differing(one: &[u8], other: &[u8], word: usize) -> u64
    requires word { 64 * word ≤ length one.now }
    requires whole { length one.now ≡ length other.now }
    ensures { SetUnless (length one.now)
        (λ cell. slice_index_or one.now cell 0 ≡ slice_index_or other.now cell 0) word result }
{
    if part(one, word) == part(other, word) {
        0
    } else {
        bits_differing(one, other, word)
    }
}

/// How many bits from a place on are clear, up to the first that is set.
pub(crate) fn clear_bits(bits: u64, place: usize) -> usize
    requires { place < 64 }
    ensures few { place + result ≤ 64 }
    ensures clear { (other : ℕ) → place ≤ other → other < place + result → bit_at bits other ≡ 0 }
{
    let left = bits >> place;
    if left == 0 {
        BITS - place
    } else {
        left.trailing_zeros() as usize
    }
}

/// A bit for each cell of a word, set unless the cell is right.
fn word_to_look(wanted: &Wanted, base: &Base<'_>, word: usize) -> u64
    requires word { 64 * word ≤ cells_in wanted.now.size }
    requires whole { cells_in wanted.now.size ≡ base.now.cells }
    requires base { IsBase base.now }
    ensures { SetUnless (length wanted.now.cells) (IsRight wanted.now.cells (known_base base.now)) word result }
{
    // For the contract: two bytes hold each address.
    let _size = wanted.size();
    let unlike = base.unlike(wanted.bytes(), word);
    wanted.attribute_word(word) | wanted.character_word(word) & unlike
}

impl Search {
    /// The search at the first cell.
    pub(crate) fn new(wanted: &Wanted, base: &Base<'_>) -> Search
        requires whole { cells_in wanted.now.size ≡ base.now.cells }
        requires base { IsBase base.now }
        ensures search { IsSearch wanted.now.cells (known_base base.now) result }
        ensures first { result.from ≡ 0 }
    {
        Search {
            from: 0,
            look: word_to_look(wanted, base, 0),
        }
    }

    /// The next cell of the word that is to be examined, or if there is none the first cell of the next word; at most
    /// `cells`, the screen's number of cells.
    fn next_look(self, cells: usize) -> usize
        requires from { self.from < cells }
        requires few { cells ≤ most_cells }
        ensures onward { self.from ≤ result }
        ensures within { result ≤ cells }
        ensures clear { (cell : ℕ) → self.from ≤ cell → cell < result → cell / 64 ≡ self.from / 64 }
        ensures passed { (cell : ℕ) → self.from ≤ cell → cell < result → bit_at self.look (cell % 64) ≡ 0 }
    {
        (self.from + clear_bits(self.look, self.from % BITS)).min(cells)
    }

    /// The search at another cell.
    fn at(self, wanted: &Wanted, base: &Base<'_>, cell: usize) -> Search
        requires search { IsSearch wanted.now.cells (known_base base.now) self }
        requires placed { cell ≤ cells_in wanted.now.size }
        requires whole { cells_in wanted.now.size ≡ base.now.cells }
        requires base { IsBase base.now }
        ensures search { IsSearch wanted.now.cells (known_base base.now) result }
        ensures from { result.from ≡ cell }
    {
        let word = cell / BITS;
        let look = if word == self.from / BITS {
            self.look
        } else {
            word_to_look(wanted, base, word)
        };
        Search { from: cell, look }
    }

    /// The next cell to store; `None` if none is left.
    pub(crate) fn next_to_store(&mut self, wanted: &Wanted, base: &Base<'_>) -> Option<ToStore>
        requires search { IsSearch wanted.now.cells (known_base base.now) self.old }
        requires whole { cells_in wanted.now.size ≡ base.now.cells }
        requires base { IsBase base.now }
        ensures search { IsSearch wanted.now.cells (known_base base.now) self.new }
        ensures left { stores_from wanted.now.cells (known_base base.now) self.old.from
            ≡ stored_first result (stores_from wanted.now.cells (known_base base.now) self.new.from) }
        ensures placed { IfSome result (λ store. store.place < cells_in wanted.now.size) }
        ensures storable { IfSome result (λ store. IsStorableCell store.cell) }
    {
        // For the contract: there is a want for each cell, and two bytes hold each address.
        let _size = wanted.size();
        let cells = base.len();
        while self.from < cells {
            let place = self.next_look(cells);
            if place == cells {
                return None;
            }
            let cell = cell_to_store(wanted, place, base.known(place));
            *self = self.at(wanted, base, place + 1);
            match cell {
                Some(cell) => {
                    return Some(ToStore {
                        place: place as u16,
                        cell,
                    });
                }
                None => {}
            }
        }
        None
    }
}
