//! What is believed of each cell of a screen of any size, kept as bits and bytes.
ghost use Rattle.std.specs.Prelude.{◌≡◌, ◌<◌, ◌≤◌, ◌+◌, ◌++◌, ◌∷◌, [], ◌*◌, ◌-◌, ℕ, true, Some, not, length, map, replicate, slice_index_or, slice_set, take, drop};
ghost use Rattle.codes3270.specs.Size.{cells_in, most_cells};
ghost use Rattle.datastream.specs.CellBits.{has_bit};
ghost use Rattle.datastream.specs.CellCodes.{code_in};
ghost use Rattle.datastream.specs.Screen.{is_char};
ghost use Rattle.shadow.specs.Filled.{Fill, front_filled};
ghost use Rattle.shadow.specs.InPlace.{is_attribute as is_attribute_held, chars_known};
ghost use Rattle.shadow.specs.Looks.{SetUnless};
ghost use Rattle.shadow.specs.declared.cell_belief.CellBelief.TheVariants.{Known, Unknown};
ghost use Rattle.shadow.specs.Runs.{placed};
ghost use Rattle.shadow.specs.PackedBeliefs.{head_of as head_held, with_head, is_known as is_known_held, is_told as is_told_held, place_kept};

use crate::cell_belief::{CellBelief, TextKnowledge};
use crate::mdt_state::MdtState;
use crate::searching::{BITS, are_same, clear_bits, differing};
use codes3270::{Cell, MOST_CELLS, Size};
use datastream::{CellBits, HasCells, PackedCell, PackedCells, Ring};
use std::marker::Model;

/// What is held with an attribute: what is known of its MDT and of its field's text.
#[derive(Clone, Copy)]
struct AttributeKnowledge {
    mdt: MdtState,
    knowledge: TextKnowledge,
}

/// What is held of each cell of a screen. It has room for the largest screen; contracts see the list of beliefs of a
/// screen of this size, in order of address.
#[derive(Drop)]
pub(crate) struct CellBeliefs {
    /// The attributes, and the characters that are known or told.
    cells: PackedCells,
    heads: [AttributeKnowledge; MOST_CELLS],
    /// The attributes, and the characters that are known.
    known: CellBits,
    told: CellBits,
}

impl Model for CellBeliefs {
    ghost use Rattle.std.specs.Prelude.{◌≡◌, ◌≤◌, List, length};
    ghost use Rattle.codes3270.specs.Size.{cells_in, most_cells};
    ghost use Rattle.shadow.specs.declared.cell_belief.CellBelief.{CellBelief};
    ghost use Rattle.datastream.specs.CellBits.{kept};
    ghost use Rattle.shadow.specs.PackedBeliefs.{place_by, MarksKnown};

    ghost Value = { List CellBelief };

    ghost view = { λ beliefs. kept
        (place_by beliefs.heads beliefs.cells.attributes beliefs.known beliefs.told) 0 beliefs.cells.codes };

    ghost invariant = { λ beliefs.
        (length beliefs.heads ≡ most_cells) × (length beliefs.cells.codes ≡ cells_in beliefs.cells.size)
        × (cells_in beliefs.cells.size ≤ most_cells)
        × MarksKnown beliefs.known
        (kept (place_by beliefs.heads beliefs.cells.attributes beliefs.known beliefs.told) 0 beliefs.cells.codes) };
}

/// The packed form of a belief: it lacks the head of an attribute, and whether a character is known or told.
fn packed(place: CellBelief) -> PackedCell
    ensures attribute { not (is_char result) ≡ is_attribute_held place }
    ensures kept { place_kept (head_held place) (is_attribute_held place) (is_known_held place) (is_told_held place)
        (code_in result) ≡ place }
{
    match place {
        CellBelief::Attr(attr, _, _) => PackedCell::new(Cell::Attr(attr)),
        CellBelief::Known(char) => PackedCell::character(char),
        CellBelief::Unplaced(char) => PackedCell::character(char),
        CellBelief::Unknown => PackedCell::character(0),
    }
}

fn head_of(place: CellBelief) -> AttributeKnowledge
    ensures { result ≡ head_held place }
{
    match place {
        CellBelief::Attr(_, mdt, knowledge) => AttributeKnowledge { mdt, knowledge },
        CellBelief::Known(_) => NO_HEAD,
        CellBelief::Unplaced(_) => NO_HEAD,
        CellBelief::Unknown => NO_HEAD,
    }
}

/// The head that is kept for a cell without an attribute.
const NO_HEAD: AttributeKnowledge = AttributeKnowledge {
    mdt: MdtState::Unknown,
    knowledge: TextKnowledge::Cells,
};

fn is_known(place: CellBelief) -> bool
    ensures { result ≡ is_known_held place }
{
    match place {
        CellBelief::Attr(_, _, _) => true,
        CellBelief::Known(_) => true,
        CellBelief::Unplaced(_) => false,
        CellBelief::Unknown => false,
    }
}

fn is_told(place: CellBelief) -> bool
    ensures { result ≡ is_told_held place }
{
    match place {
        CellBelief::Attr(_, _, _) => false,
        CellBelief::Known(_) => false,
        CellBelief::Unplaced(_) => true,
        CellBelief::Unknown => false,
    }
}

fn no_heads() -> [AttributeKnowledge; MOST_CELLS]
    ensures { length result ≡ most_cells }
{
    [NO_HEAD; MOST_CELLS]
}

/// Whether the bits of the cells `from..to` are all set.
fn are_set(bits: &CellBits, from: usize, to: usize) -> bool
    requires { to ≤ most_cells }
    ensures { result ≡ true → (cell : ℕ) → from ≤ cell → cell < to → has_bit bits.now cell ≡ true }
{
    let mut at = from;
    while at < to {
        let place = at % BITS;
        let count = clear_bits(!bits.word(at / BITS), place);
        if place + count < BITS && at + count < to {
            return false;
        }
        at += count;
    }
    true
}

/// The codes of the cells `from..to`.
fn codes_between(cells: &PackedCells, from: usize, to: usize) -> &[u8]
    requires order { from ≤ to }
    requires few { to ≤ cells_in cells.now.size }
    ensures { result.now ≡ take (to - from) (drop from cells.now.codes) }
{
    &cells.codes()[from..to]
}

impl CellBeliefs {
    /// The beliefs of a screen of this size of which no cell is known.
    pub(crate) fn unknown(size: Size) -> CellBeliefs
        ensures { result ≡ replicate (cells_in size) Unknown }
    {
        CellBeliefs {
            cells: PackedCells::filled(PackedCell::character(0), size),
            heads: no_heads(),
            known: CellBits::all(false),
            told: CellBits::all(false),
        }
    }

    /// The size of the screen.
    pub(crate) fn size(&self) -> Size
        ensures cells { cells_in result ≡ length self.now }
        ensures few { length self.now ≤ most_cells }
    {
        self.cells.size()
    }

    /// How many cells there are, at least 1.
    pub(crate) fn len(&self) -> usize
        ensures len { result ≡ length self.now }
        ensures few { result ≤ most_cells }
        ensures some { 0 < result }
    {
        self.cells.len()
    }

    /// What is believed of the cell at an address.
    pub(crate) fn get(&self, at: usize) -> CellBelief
        requires { at < length self.now }
        ensures { result ≡ slice_index_or self.now at result }
    {
        // For the contract: the screen has at most `MOST_CELLS` cells.
        let _cells = self.len();
        match self.cells.get(at) {
            Cell::Attr(attr) => {
                let head = self.heads[at];
                CellBelief::Attr(attr, head.mdt, head.knowledge)
            }
            Cell::Char(char) => {
                if self.known.has(at) {
                    CellBelief::Known(char)
                } else if self.told.has(at) {
                    CellBelief::Unplaced(char)
                } else {
                    CellBelief::Unknown
                }
            }
        }
    }

    /// Sets what is believed of the cell at an address.
    pub(crate) fn set(&mut self, at: usize, place: CellBelief)
        requires { at < length self.old }
        ensures beliefs { self.new ≡ slice_set self.old at place }
        ensures size { length self.new ≡ length self.old }
    {
        // For the contract: the screen has at most `MOST_CELLS` cells.
        let _cells = self.len();
        self.cells.set(at, packed(place));
        self.heads[at] = head_of(place);
        self.known.put(at, is_known(place));
        self.told.put(at, is_told(place));
    }

    /// Sets what is known of MDT and text with the attribute at an address. If a character is there, nothing changes.
    pub(crate) fn set_head(&mut self, at: usize, mdt: MdtState, knowledge: TextKnowledge)
        requires { at < length self.old }
        ensures { self.new ≡ slice_set self.old at (with_head mdt knowledge (slice_index_or self.old at Unknown)) }
    {
        // For the contract: the screen has at most `MOST_CELLS` cells.
        let _cells = self.len();
        self.heads[at] = AttributeKnowledge { mdt, knowledge };
    }

    /// Takes this size, and makes each cell a known null.
    pub(crate) fn clear(&mut self, size: Size)
        ensures nulls { self.new ≡ replicate (cells_in size) (Known 0) }
        ensures size { length self.new ≡ cells_in size }
    {
        self.cells.clear(size);
        self.known = CellBits::all(true);
        self.told = CellBits::all(false);
    }

    /// The address of the first attribute at or after an address, or the number of cells if there is none.
    pub(crate) fn attribute_from(&self, from: usize) -> usize
        requires { from ≤ length self.now }
        ensures place { result ≡ from + length (chars_known (drop from self.now)) }
        ensures stands { length (chars_known (drop result self.now)) ≡ 0 }
        ensures within { result ≤ length self.now }
    {
        // For the contract: the screen has at most `MOST_CELLS` cells.
        let _cells = self.len();
        self.cells.attribute_from(from)
    }

    /// The attribute at an address, at which there must be one.
    pub(crate) fn attribute_at(&self, at: usize) -> CellBelief
        requires placed { at < length self.now }
        requires stands { length (chars_known (drop at self.now)) ≡ 0 }
        ensures { result ≡ slice_index_or self.now at result }
    {
        // For the contract: the screen has at most `MOST_CELLS` cells.
        let _cells = self.len();
        let head = self.heads[at];
        CellBelief::Attr(self.cells.attribute_at(at), head.mdt, head.knowledge)
    }

    /// The number of characters after an address, wrapping at the end, before the first attribute. `next` is the
    /// address of the first attribute after it, or the number of cells if there is none up to the last.
    pub(crate) fn count_behind(&self, place: usize, next: usize) -> usize
        requires placed { place < length self.now }
        requires within { next ≤ length self.now }
        requires next { next ≡ place + 1 + length (chars_known (drop (place + 1) self.now)) }
        ensures { result ≡ length (chars_known (drop (place + 1) self.now ++ self.now)) }
    {
        let cells = self.len();
        if next < cells {
            next - place - 1
        } else {
            cells - place - 1 + self.attribute_from(0)
        }
    }

    /// Makes the characters in `from..to` unknown. `to` must be the next attribute's address or the number of cells.
    pub(crate) fn forget(&mut self, from: usize, to: usize)
        requires few { to ≤ length self.old }
        requires chars { to ≡ from + length (chars_known (drop from self.old)) }
        ensures { self.new ≡ take from self.old ++ front_filled Fill.Unknown (drop from self.old) }
    {
        // For the contract: the screen has at most `MOST_CELLS` cells.
        let _cells = self.len();
        self.known.put_range(from, to, false);
        self.told.put_range(from, to, false);
    }

    /// Makes the characters in `from..to` known nulls. `to` must be the next attribute, or the number of cells.
    pub(crate) fn hold_nulls(&mut self, from: usize, to: usize)
        requires few { to ≤ length self.old }
        requires chars { to ≡ from + length (chars_known (drop from self.old)) }
        ensures { self.new ≡ take from self.old ++ front_filled Fill.Null (drop from self.old) }
    {
        // For the contract: the screen has at most `MOST_CELLS` cells.
        let _cells = self.len();
        self.cells.put_nulls(from, to);
        self.known.put_range(from, to, true);
    }

    /// Makes the cells of `from..to` tell a text, or as much of it as fits; the rest of them become unknown. `to` must
    /// be the next attribute's address or the number of cells.
    #[inline(always)]
    pub(crate) fn tell(&mut self, from: usize, to: usize, text: &[u8])
        requires few { to ≤ length self.old }
        requires chars { to ≡ from + length (chars_known (drop from self.old)) }
        ensures { self.new ≡ take from self.old ++ front_filled (Fill.Chars text.now) (drop from self.old) }
    {
        // For the contract: the screen has at most `MOST_CELLS` cells.
        let _cells = self.len();
        let count = text.len().min(to - from);
        self.cells.put_characters(from, &text[..count]);
        self.known.put_range(from, to, false);
        self.told.put_range(from, to, true);
        self.told.put_range(from + count, to, false);
    }

    /// Sets the cells from an address on to these known characters, which must fit before the end.
    #[inline(always)]
    pub(crate) fn hold_characters(&mut self, from: usize, text: &[u8])
        requires { from + length text.now ≤ length self.old }
        ensures beliefs { self.new ≡ placed from text.now self.old }
        ensures size { length self.new ≡ length self.old }
    {
        match text {
            [] => {}
            [char] => self.hold_character(from, *char),
            _ => self.hold_run(from, text),
        }
    }

    /// Sets the cell at an address to a known character.
    #[inline(always)]
    fn hold_character(&mut self, at: usize, char: u8)
        requires { at < length self.old }
        ensures beliefs { self.new ≡ placed at (char ∷ []) self.old }
        ensures size { length self.new ≡ length self.old }
    {
        // For the contract: the screen has at most `MOST_CELLS` cells.
        let _cells = self.len();
        self.cells.set(at, PackedCell::character(char));
        self.known.put(at, true);
    }

    /// Does the work of `hold_characters` for several characters.
    fn hold_run(&mut self, from: usize, text: &[u8])
        requires { from + length text.now ≤ length self.old }
        ensures beliefs { self.new ≡ placed from text.now self.old }
        ensures size { length self.new ≡ length self.old }
    {
        // For the contract: the screen has at most `MOST_CELLS` cells.
        let _cells = self.len();
        self.cells.store_characters(from, text);
        self.known.put_range(from, from + text.len(), true);
    }

    /// Whether the characters from an address to the next attribute are all known and are this text. It is false if
    /// there is no attribute up to the last cell.
    pub(crate) fn has_text(&self, from: usize, text: &[u8]) -> bool
        requires { from ≤ length self.now }
        ensures { result ≡ true → (chars_known (drop from self.now) ≡ map Some text.now)
            × (from + length text.now < length self.now) }
    {
        let cells = self.len();
        let to = self.attribute_from(from);
        if cells <= to {
            return false;
        }
        if !are_set(&self.known, from, to) {
            return false;
        }
        are_same(codes_between(&self.cells, from, to), text)
    }

    /// A bit for each of the 64 cells of a word, set unless the cell is known to hold the same character as `bytes`.
    pub(crate) fn unlike(&self, bytes: &[u8], word: usize) -> u64
        requires word { 64 * word ≤ length self.now }
        requires whole { length bytes.now ≡ length self.now }
        ensures { SetUnless (length self.now)
            (λ cell. slice_index_or self.now cell Unknown ≡ Known (slice_index_or bytes.now cell 0)) word result }
    {
        // For the contract: the screen has at most `MOST_CELLS` cells.
        let _cells = self.len();
        let unknown = self.cells.attribute_word(word) | !self.known.word(word);
        unknown | differing(bytes, self.cells.codes(), word)
    }

    /// The beliefs of the cells after an address, and then of all cells from address 0 on.
    pub(crate) fn ahead(&self, place: usize) -> Ahead<'_>
        requires { place < length self.now }
        ensures beliefs { result ≡ drop (place + 1) self.now ++ self.now }
        ensures few { length result ≤ 2 * most_cells }
    {
        // For the contract: the screen has at most `MOST_CELLS` cells.
        let _cells = self.len();
        Ring::ahead(self, place)
    }
}

/// An iterator over beliefs that wraps at the end of the screen. Contracts see the list of those that are left.
pub(crate) type Ahead<'a> = Ring<'a, CellBeliefs>;

impl HasCells for CellBeliefs {
    type Cell = CellBelief;

    ghost cells = { λ beliefs. beliefs };

    #[inline(always)]
    fn cell_at(&self, at: usize) -> CellBelief {
        self.get(at)
    }

    fn cell_count(&self) -> usize {
        self.len()
    }
}
