//! One bit per cell of a screen of any size, in words of 64.
ghost use Rattle.std.specs.Prelude.{◌≡◌, ◌<◌, ◌≤◌, ◌+◌, ◌*◌, ◌/◌, ℕ, false, true, nat_eq, nat_lt, if◌then◌else◌, MatchOption, IfNone, IfSome};
ghost use Rattle.codes3270.specs.Size.{most_cells};
ghost use Rattle.std.specs.Int.{bit_at};
ghost use Rattle.datastream.specs.CellBits.{bit_of, has_bit, is_within, word_count, AreBits};

use codes3270::MOST_CELLS;
use std::marker::Model;

/// The number of bits in a word.
const BITS: usize = 64;

/// The number of words that the cells of the largest screen need.
const WORDS: usize = (MOST_CELLS + BITS - 1) / BITS;

/// One bit per cell of a screen of any size. Bits of cells that the screen doesn't have are meaningless. Contracts see
/// the words: the bit of a cell is that at its address modulo 64, in the word at its address divided by 64.
#[derive(Clone, Drop)]
pub struct CellBits {
    words: [u64; WORDS],
}

impl Model for CellBits {
    ghost use Rattle.std.specs.Prelude.{◌≡◌, List, ℕ, length};
    ghost use Rattle.datastream.specs.CellBits.{word_count};

    ghost Value = { List ℕ };

    ghost view = { λ bits. bits.words };

    ghost invariant = { λ bits. length bits.words ≡ word_count };
}

impl CellBits {
    /// All bits set, or all bits clear.
    pub fn all(bit: bool) -> CellBits
        ensures { (cell : ℕ) → cell < most_cells → has_bit result cell ≡ bit }
    {
        CellBits {
            words: [word_of(bit); WORDS],
        }
    }

    /// A copy of all bits.
    pub fn copy(&self) -> CellBits
        ensures { result ≡ self.now }
    {
        CellBits { words: self.words }
    }

    /// Whether a cell's bit is set.
    pub fn has(&self, cell: usize) -> bool
        requires { cell < most_cells }
        ensures { result ≡ has_bit self.now cell }
    {
        (self.words[cell / BITS] >> (cell % BITS)) & 1 == 1
    }

    /// Sets a cell's bit, or clears it.
    pub fn put(&mut self, cell: usize, bit: bool)
        requires { cell < most_cells }
        ensures { (other : ℕ) → has_bit self.new other ≡ (if nat_eq other cell then bit else has_bit self.old other) }
    {
        let word = with_bit(self.words[cell / BITS], cell % BITS, bit);
        self.words[cell / BITS] = word;
    }

    /// The first cell from `from` on whose bit is set, or `cells` (the screen's number of cells) if there is none.
    pub fn first_from(&self, from: usize, cells: usize) -> usize
        requires order { from ≤ cells }
        requires few { cells ≤ most_cells }
        ensures from { from ≤ result }
        ensures within { result ≤ cells }
        ensures clear { (cell : ℕ) → from ≤ cell → cell < result → has_bit self.now cell ≡ false }
        ensures set { result < cells → has_bit self.now result ≡ true }
    {
        let mut at = from;
        for index in from / BITS..words_of(cells) {
            if let Some(place) = first_in(self.words[index], at % BITS) {
                return within(index * BITS + place, cells);
            }
            at = (index + 1) * BITS;
        }
        cells
    }

    /// The last cell whose bit is set, up to and including `cell`.
    pub fn last_to(&self, cell: usize) -> Option<usize>
        requires { cell < most_cells }
        ensures none { IfNone result ((other : ℕ) → other ≤ cell → has_bit self.now other ≡ false) }
        ensures last { IfSome result (λ last. (last ≤ cell) × (has_bit self.now last ≡ true)
            × ((other : ℕ) → last < other → other ≤ cell → has_bit self.now other ≡ false)) }
    {
        let mut index = cell / BITS;
        let mut word = self.words[index] & some_ones_below(cell % BITS + 1);
        while word == 0 && index > 0 {
            index -= 1;
            word = self.words[index];
        }
        let place = last_in(word)?;
        Some(index * BITS + place)
    }

    /// Sets or clears the bits of the cells from `from` up to `to`, which is excluded.
    #[inline(always)]
    pub fn put_range(&mut self, from: usize, to: usize, bit: bool)
        requires order { from ≤ to }
        requires few { to ≤ most_cells }
        ensures { (other : ℕ)
            → has_bit self.new other ≡ (if is_within from to other then bit else has_bit self.old other) }
    {
        if from < to {
            let middle = (from / BITS + 1) * BITS;
            if to <= middle {
                self.put_in_word(from, to, bit);
            } else if to <= middle + BITS {
                self.put_in_two_words(from, to, bit);
            } else {
                self.put_in_words(from, to, bit);
            }
        }
    }

    /// Sets or clears the bits of a range of cells that lies in one word.
    fn put_in_word(&mut self, from: usize, to: usize, bit: bool)
        requires order { from < to }
        requires few { to ≤ most_cells }
        requires one { to ≤ (from / 64 + 1) * 64 }
        ensures { (other : ℕ)
            → has_bit self.new other ≡ (if is_within from to other then bit else has_bit self.old other) }
    {
        let index = from / BITS;
        let start = index * BITS;
        let word = with_bits(self.words[index], from - start, to - start, bit);
        self.words[index] = word;
    }

    /// Sets or clears the bits of a range of cells that lies in two words.
    fn put_in_two_words(&mut self, from: usize, to: usize, bit: bool)
        requires order { (from / 64 + 1) * 64 < to }
        requires few { to ≤ most_cells }
        requires two { to ≤ (from / 64 + 1) * 64 + 64 }
        ensures { (other : ℕ)
            → has_bit self.new other ≡ (if is_within from to other then bit else has_bit self.old other) }
    {
        let middle = (from / BITS + 1) * BITS;
        self.put_in_word(from, middle, bit);
        self.put_in_word(middle, to, bit);
    }

    /// Sets or clears the bits of a range of cells that lies in any number of words.
    #[inline(never)]
    fn put_in_words(&mut self, from: usize, to: usize, bit: bool)
        requires order { from ≤ to }
        requires few { to ≤ most_cells }
        ensures { (other : ℕ)
            → has_bit self.new other ≡ (if is_within from to other then bit else has_bit self.old other) }
    {
        for index in from / BITS..(to + BITS - 1) / BITS {
            let start = index * BITS;
            let low = from.max(start) - start;
            let high = to.min(start + BITS) - start;
            let word = with_bits(self.words[index], low, high, bit);
            self.words[index] = word;
        }
    }

    /// The bits of the 64 cells from `64 * index` on, the lowest bit first.
    #[tactic(auto, using(crate::proofs::Keeping::word_bits))]
    pub fn word(&self, index: usize) -> u64
        requires { index < word_count }
        ensures { AreBits most_cells (has_bit self.now) index result }
    {
        self.words[index]
    }
}

/// A word with the bits from one place up to another, excluded, set or cleared.
fn with_bits(word: u64, from: usize, to: usize, bit: bool) -> u64
    requires from { from < 64 }
    requires some { 0 < to }
    requires to { to ≤ 64 }
    ensures { (other : ℕ) → other < 64
        → bit_at result other ≡ (if is_within from to other then bit_of bit else bit_at word other) }
{
    let ones = ones_between(from, to);
    if bit { word | ones } else { word & !ones }
}

/// A word with just the bits from one place up to another, excluded, set.
fn ones_between(from: usize, to: usize) -> u64
    requires from { from < 64 }
    requires some { 0 < to }
    requires to { to ≤ 64 }
    ensures { (other : ℕ) → other < 64 → bit_at result other ≡ bit_of (is_within from to other) }
{
    some_ones_below(to) & !ones_below(from)
}

/// A word with just the bits below a place set. The place is in 1..=64.
fn some_ones_below(place: usize) -> u64
    requires some { 0 < place }
    requires few { place ≤ 64 }
    ensures { (other : ℕ) → other < 64 → bit_at result other ≡ bit_of (nat_lt other place) }
{
    u64::MAX >> (BITS - place)
}

/// A word with just the bits below a place set. The place is in 0..=63.
fn ones_below(place: usize) -> u64
    requires { place < 64 }
    ensures { (other : ℕ) → other < 64 → bit_at result other ≡ bit_of (nat_lt other place) }
{
    u64::MAX >> 1 >> (BITS - 1 - place)
}

/// The number of words that this many cells need. The last word may have bits of no cell.
fn words_of(cells: usize) -> usize
    requires { cells ≤ most_cells }
    ensures { result ≡ (cells + 63) / 64 }
{
    (cells + BITS - 1) / BITS
}

/// The smaller of a cell's address and the number of cells.
fn within(cell: usize, cells: usize) -> usize
    ensures least { result ≤ cells }
    ensures same { result < cells → result ≡ cell }
    ensures below { result ≤ cell }
{
    if cell < cells { cell } else { cells }
}

/// The lowest place from `from` on at which a word's bit is set.
fn first_in(word: u64, from: usize) -> Option<usize>
    requires { from < 64 }
    ensures { MatchOption result ((place : ℕ) → from ≤ place → place < 64 → bit_at word place ≡ 0)
        (λ first. (from ≤ first) × (first < 64) × (bit_at word first ≡ 1)
        × ((place : ℕ) → from ≤ place → place < first → bit_at word place ≡ 0)) }
{
    let rest = word >> from;
    if rest == 0 {
        None
    } else {
        Some(from + rest.trailing_zeros() as usize)
    }
}

/// The highest place at which a word's bit is set.
fn last_in(word: u64) -> Option<usize>
    ensures { MatchOption result (word ≡ 0) (λ last. (last < 64) × (bit_at word last ≡ 1)
        × ((place : ℕ) → last < place → place < 64 → bit_at word place ≡ 0)) }
{
    if word == 0 {
        None
    } else {
        Some(BITS - 1 - word.leading_zeros() as usize)
    }
}

/// A word whose bits are all set, or all clear.
fn word_of(bit: bool) -> u64
    ensures { (place : ℕ) → place < 64 → bit_at result place ≡ bit_of bit }
{
    if bit { u64::MAX } else { 0 }
}

/// A word with a bit set or cleared.
fn with_bit(word: u64, place: usize, bit: bool) -> u64
    requires { place < 64 }
    ensures { (other : ℕ) → other < 64
        → bit_at result other ≡ (if nat_eq other place then bit_of bit else bit_at word other) }
{
    if bit {
        word | 1 << place
    } else {
        word & !(1 << place)
    }
}
