//! The addresses of a screen's attributes.
ghost use Rattle.std.specs.Prelude.{◌≡◌, ◌<◌, ◌≤◌, ◌+◌, ◌*◌, [], ◌++◌, ℕ, true, not, nat_eq, if◌then◌else◌, length, take, IfSome, IfNone};
ghost use Rattle.std.specs.Int.{bit_at};
ghost use Rattle.codes3270.specs.Size.{cells_in, most_cells};
ghost use Rattle.datastream.specs.CellBits.{bit_of};
ghost use Rattle.datastream.specs.Screen.{is_char_at};
ghost use Rattle.presentation.specs.Places.{attribute_places};
ghost use Rattle.presentation.specs.Index.{AreAscending, IsCountUpTo, IsFirstFrom, IsNearest};

use crate::screen_cells::{BITS, ScreenCells};
use codes3270::{Addr, MOST_CELLS, Size};
use std::marker::Model;

/// The addresses of a screen's attributes in ascending order, as an array and a count. Contracts see their list.
#[derive(Clone, Drop)]
pub(crate) struct AttributeIndex {
    /// There is room for the largest screen.
    places: [u16; MOST_CELLS],
    count: usize,
}

impl Model for AttributeIndex {
    ghost use Rattle.std.specs.Prelude.{◌≡◌, ◌≤◌, List, ℕ, length, take};
    ghost use Rattle.codes3270.specs.Size.{most_cells};

    ghost Value = { List ℕ };

    ghost view = { λ index. take index.count index.places };

    ghost invariant = { λ index. (length index.places ≡ most_cells) × (index.count ≤ most_cells) };
}

fn no_places() -> [u16; MOST_CELLS]
    ensures { length result ≡ most_cells }
{
    [0; MOST_CELLS]
}

impl AttributeIndex {
    /// The index of a screen without attributes.
    pub(crate) fn empty() -> AttributeIndex
        ensures { result ≡ [] }
    {
        AttributeIndex {
            places: no_places(),
            count: 0,
        }
    }

    /// Removes all addresses.
    pub(crate) fn clear(&mut self)
        ensures { self.new ≡ [] }
    {
        self.count = 0;
    }

    /// Replaces the addresses by those of the attributes in these cells.
    pub(crate) fn rebuild(&mut self, cells: &ScreenCells)
        ensures { self.new ≡ attribute_places cells.now 0 }
    {
        let words = cells.len() / BITS;
        let mut count = 0;
        for word in 0..words {
            let bits = cells.attribute_word(word);
            count = list_word(self.places.as_mut_slice(), count, cells, word, bits);
        }
        self.count = list_last_word(self.places.as_mut_slice(), count, cells, words);
    }

    /// The addresses.
    #[inline(always)]
    pub(crate) fn places(&self) -> &[u16]
        ensures value { result.now ≡ self.now }
        ensures few { length result.now ≤ most_cells }
    {
        &self.places[..self.count]
    }
}

/// Appends the addresses of the attributes among the 64 cells of a word, whose bits are given, to the first `listed`
/// ones, and returns how many addresses there are then.
#[inline(always)]
fn list_word(
    places: &mut [u16],
    listed: usize,
    _cells: &ScreenCells,
    word: usize,
    bits: u64,
) -> usize
    requires word { 64 * word < length _cells.now }
    requires small { length _cells.now ≤ most_cells }
    requires bits { (place : ℕ) → place < 64
        → bit_at bits place ≡ bit_of (not (is_char_at _cells.now (64 * word + place))) }
    requires room { length places.old ≡ most_cells }
    requires few { listed ≤ 64 * word }
    ensures room { length places.new ≡ most_cells }
    ensures listed { take result places.new ++ attribute_places _cells.now (64 * word + 64) ≡ take listed places.old
        ++ attribute_places _cells.now (64 * word) }
    ensures few { result ≤ 64 * word + 64 }
    ensures within { result ≤ length _cells.now }
{
    let mut count = listed;
    let mut bits = bits;
    // For the proof: the bits below this place are clear.
    let mut from = 0;
    while bits != 0 {
        let place = lowest_in(bits);
        places[count] = (BITS * word + place) as u16;
        count += 1;
        bits = without_lowest(bits);
        from = place + 1;
    }
    count
}

/// Appends the addresses of the attributes in the last word, which has fewer than 64 cells and may have none.
#[inline(always)]
fn list_last_word(places: &mut [u16], listed: usize, cells: &ScreenCells, word: usize) -> usize
    requires start { 64 * word ≤ length cells.now }
    requires last { length cells.now < 64 * word + 64 }
    requires small { length cells.now ≤ most_cells }
    requires room { length places.old ≡ most_cells }
    requires few { listed ≤ 64 * word }
    ensures room { length places.new ≡ most_cells }
    ensures listed { take result places.new ≡ take listed places.old ++ attribute_places cells.now (64 * word) }
    ensures within { result ≤ length cells.now }
{
    if BITS * word < cells.len() {
        let bits = cells.last_attribute_word(word);
        list_word(places, listed, cells, word, bits)
    } else {
        listed
    }
}

/// The index of the lowest bit that is set in a word.
#[inline(always)]
fn lowest_in(word: u64) -> usize
    requires { 0 < word }
    ensures within { result < 64 }
    ensures set { bit_at word result ≡ 1 }
    ensures clear { (place : ℕ) → place < result → bit_at word place ≡ 0 }
{
    word.trailing_zeros() as usize
}

/// A word with its lowest bit cleared.
#[inline(always)]
#[tactic(auto, using(crate::proofs::LowestBit::lowest_cleared))]
fn without_lowest(word: u64) -> u64
    requires { 0 < word }
    ensures { (place : ℕ) → bit_at word place ≡ 1 → ((lower : ℕ) → lower < place → bit_at word lower ≡ 0)
        → (other : ℕ) → bit_at result other ≡ (if nat_eq other place then 0 else bit_at word other) }
{
    word & (word - 1)
}

/// Whether `places[number]` is the last of these ascending addresses that is at most `at`.
#[inline(always)]
fn is_last_up_to(places: &[u16], number: usize, at: u16) -> bool
    requires { length places.now ≤ most_cells }
    ensures { result ≡ true → (size : ℕ) → AreAscending size places.now → IsCountUpTo places.now at (number + 1) }
{
    number < places.len()
        && places[number] <= at
        && (number + 1 == places.len() || at < places[number + 1])
}

/// How many of these ascending addresses are at most `at`. It first guesses that they are spread evenly over the
/// screen's cells, and else does a binary search.
#[inline(always)]
fn count_up_to(places: &[u16], at: u16, cells: u16) -> usize
    requires within { at < cells }
    requires few { length places.now ≤ most_cells }
    requires ascending { AreAscending cells places.now }
    ensures { IsCountUpTo places.now at result }
{
    let guess = (u32::from(at) * places.len() as u32 / u32::from(cells)) as usize;
    if is_last_up_to(places, guess, at) {
        return guess + 1;
    }
    match places.binary_search(&at) {
        Ok(number) => number + 1,
        Err(count) => count,
    }
}

/// The index of the last of these ascending addresses that is at most `at`, else the last index; `None` if empty.
pub(crate) fn nearest_before(places: &[u16], at: Addr, size: Size) -> Option<usize>
    requires within { at < cells_in size }
    requires few { length places.now ≤ most_cells }
    requires ascending { AreAscending (cells_in size) places.now }
    ensures none { IfNone result (places.now ≡ []) }
    ensures nearest { IfSome result (λ index. IsNearest (cells_in size) places.now at index) }
{
    match count_up_to(places, at.get(), size.cells()) {
        0 => places.len().checked_sub(1),
        count => Some(count - 1),
    }
}

/// The index of the first of these ascending addresses that is at least `at`; their number if there is none.
pub(crate) fn first_from(places: &[u16], at: Addr, size: Size) -> usize
    requires within { at < cells_in size }
    requires few { length places.now ≤ most_cells }
    requires ascending { AreAscending (cells_in size) places.now }
    ensures { IsFirstFrom places.now at result }
{
    match at.get() {
        0 => 0,
        at => count_up_to(places, at - 1, size.cells()),
    }
}
