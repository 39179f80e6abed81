//! Whether the answer to Read Buffer can come from the believed screen, and how it replaces the belief.
ghost use Rattle.std.specs.Prelude.{◌≡◌, ◌<◌, ◌≤◌, ◌+◌, ◌++◌, ◌∷◌, [], MatchOption, length, drop, slice_index_or};
ghost use Rattle.codes3270.specs.Size.{cells_in};
ghost use Rattle.datastream.specs.Fields.{fields as fields_in};
ghost use Rattle.shadow.specs.declared.cell_belief.CellBelief.TheVariants.{Unknown};
ghost use Rattle.shadow.specs.InPlace.{chars_known, beliefs_held, known_text, misses_here, other_here, IsHeld};
ghost use Rattle.shadow.specs.Runs.{placed, other_next};
ghost use Rattle.shadow.specs.Since.{belief_of_cell, beliefs_of_cells};
ghost use Rattle.shadow.specs.AfterReadBuffer.{differs, others, same_attr as are_same};

use crate::apply_write::place_of;
use crate::cell_belief::CellBelief;
use crate::cell_beliefs::{Ahead, CellBeliefs};
use codes3270::{Attr, Cell, Size, attr_code};
use datastream::Cells;

/// Whether two attributes have the same code, MDT aside.
pub(crate) fn same_attr(one: Attr, other: Attr) -> bool
    ensures { result ≡ are_same one other }
{
    attr_code(one.with_mdt(false)) == attr_code(other.with_mdt(false))
}

/// The next character that was read, if one comes before the first attribute; `whole` follows `rest`.
pub(crate) fn next_char(rest: &mut Cells<'_>, whole: &mut Cells<'_>) -> Option<u8>
    ensures { let ahead = beliefs_of_cells rest.old ++ beliefs_of_cells whole.old in
        MatchOption result (known_text (chars_known ahead) ≡ []) (λ char. known_text (chars_known ahead)
        ≡ char ∷ known_text (chars_known (beliefs_of_cells rest.new ++ beliefs_of_cells whole.new))) }
{
    match rest.next() {
        Some(Cell::Char(char)) => Some(char),
        Some(Cell::Attr(_)) => None,
        None => next_round(whole),
    }
}

/// The next character of `whole`; `None` at an attribute or at the end.
fn next_round(whole: &mut Cells<'_>) -> Option<u8>
    ensures { MatchOption result (known_text (chars_known (beliefs_of_cells whole.old)) ≡ []) (λ char. known_text
        (chars_known (beliefs_of_cells whole.old)) ≡ char ∷ known_text (chars_known (beliefs_of_cells whole.new))) }
{
    match whole.next() {
        Some(Cell::Char(char)) => Some(char),
        _ => None,
    }
}

/// Whether a cell shows that the text that was read differs from the field's; `char`: the next character of the text.
fn differs_here(place: CellBelief, char: Option<u8>) -> bool
    ensures { result ≡ misses_here place char }
{
    match (place, char) {
        (CellBelief::Attr(_, _, _), char) => char.is_some(),
        (_, None) => true,
        (CellBelief::Known(known), Some(char)) => char != known,
        (_, Some(_)) => false,
    }
}

/// Whether the characters read before the first attribute differ from the known ones, or are more or fewer.
fn are_others(known: Ahead<'_>, rest: Cells<'_>, whole: Cells<'_>) -> bool
    ensures { result ≡ differs (chars_known known.entry)
        (known_text (chars_known (beliefs_of_cells rest.entry ++ beliefs_of_cells whole.entry))) }
{
    let mut rest = rest;
    let mut whole = whole;
    for place in known {
        let char = next_char(&mut rest, &mut whole);
        if differs_here(place, char) {
            return true;
        }
        match place {
            CellBelief::Attr(_, _, _) => return false,
            CellBelief::Known(_) => {}
            CellBelief::Unplaced(_) => {}
            CellBelief::Unknown => {}
        }
    }
    next_char(&mut rest, &mut whole).is_some()
}

/// Whether the text that was read for the field whose attribute is at `place` differs from what is known of it; `rest`
/// are the cells that were read after that attribute. Usually the text is known and equal, which is checked first.
pub(crate) fn is_other_text(
    beliefs: &CellBeliefs,
    place: usize,
    rest: &Cells<'_>,
    whole: &Cells<'_>,
) -> bool
    requires { place < length beliefs.now }
    ensures { result ≡ differs (chars_known (drop (place + 1) beliefs.now ++ beliefs.now))
        (known_text (chars_known (beliefs_of_cells rest.now ++ beliefs_of_cells whole.now))) }
{
    // For the contract: the screen has at most `MOST_CELLS` cells.
    let _cells = beliefs.len();
    let mut ahead = rest.copy();
    let text = ahead.characters();
    if ahead.next().is_some() && beliefs.has_text(place + 1, text) {
        return false;
    }
    are_others(beliefs.ahead(place), rest.copy(), whole.copy())
}

/// Whether a cell that was read shows that the screen isn't the believed one; `rest` are the cells after it.
pub(crate) fn is_other(
    beliefs: &CellBeliefs,
    place: usize,
    cell: Cell,
    rest: &Cells<'_>,
    whole: &Cells<'_>,
) -> bool
    requires { place < length beliefs.now }
    ensures { result ≡ other_here (slice_index_or beliefs.now place Unknown) (belief_of_cell cell)
        (drop (place + 1) beliefs.now ++ beliefs.now) (beliefs_of_cells rest.now ++ beliefs_of_cells whole.now) }
{
    match (beliefs.get(place), cell) {
        (CellBelief::Attr(believed, _, _), Cell::Attr(attr)) => {
            !same_attr(attr.with_mdt(false), believed)
                || believed.protected && is_other_text(beliefs, place, rest, whole)
        }
        (CellBelief::Attr(_, _, _), Cell::Char(_)) => true,
        (_, Cell::Attr(_)) => true,
        _ => false,
    }
}

/// Whether the next cell that was read, at `place`, shows that the screen isn't the believed one; false at the end.
fn is_other_at(beliefs: &CellBeliefs, place: usize, rest: &mut Cells<'_>, whole: &Cells<'_>) -> bool
    requires { place + length rest.old ≡ length beliefs.now }
    ensures other { result ≡ other_next beliefs.now place rest.old whole.now }
    ensures left { rest.new ≡ drop 1 rest.old }
{
    match rest.next() {
        Some(cell) => is_other(beliefs, place, cell, rest, whole),
        None => false,
    }
}

/// Whether the fields that were read differ from the believed ones in address, attribute, or known protected text.
pub(crate) fn any_other(beliefs: &CellBeliefs, cells: Cells<'_>) -> bool
    requires held { IsHeld beliefs.now }
    requires whole { length cells ≡ length beliefs.now }
    ensures { result ≡ others (beliefs_held beliefs.now 0 beliefs.now) (fields_in cells.entry) }
{
    let count = beliefs.len();
    let mut rest = cells.copy();
    let mut from = 0;
    while from < count {
        let place = beliefs.attribute_from(from);
        if from + rest.characters().len() != place {
            return true;
        }
        if is_other_at(beliefs, place, &mut rest, &cells) {
            return true;
        }
        from = place + 1;
    }
    false
}

/// Stores characters that were read as known ones from an address on, and returns the address after them.
#[inline(always)]
fn put_run(beliefs: &mut CellBeliefs, from: usize, text: &[u8]) -> usize
    requires { from + length text.now ≤ length beliefs.old }
    ensures beliefs { beliefs.new ≡ placed from text.now beliefs.old }
    ensures size { length beliefs.new ≡ length beliefs.old }
    ensures behind { result ≡ from + length text.now }
{
    // For the contract: the screen has at most `MOST_CELLS` cells.
    let _cells = beliefs.len();
    beliefs.hold_characters(from, text);
    from + text.len()
}

/// Replaces all beliefs by the cells that were read of a screen of this size.
pub(crate) fn put_read(beliefs: &mut CellBeliefs, cells: Cells<'_>, size: Size)
    requires { length cells ≡ cells_in size }
    ensures { beliefs.new ≡ beliefs_of_cells cells.entry }
{
    beliefs.clear(size);
    // For the contract: the screen has at most `MOST_CELLS` cells.
    let _cells = size.cells();
    let mut rest = cells;
    let mut at = put_run(beliefs, 0, rest.characters());
    while let Some(cell) = rest.next() {
        beliefs.set(at, place_of(cell));
        at = put_run(beliefs, at + 1, rest.characters());
    }
}
