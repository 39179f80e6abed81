//! Whether the fields that a wanted screen keeps (Keep) are believed to be there.
ghost use Rattle.std.specs.Prelude.{◌≡◌, ◌<◌, ◌≤◌, ◌+◌, ◌&&◌, ◌*◌, ◌==◌, length, drop, IfSome};
ghost use Rattle.std.specs.List.{list_any};
ghost use Rattle.codes3270.specs.Size.{cells_in, most_cells};
ghost use Rattle.shadow.specs.Fits.{is_keep, is_attribute, is_field, fits_from, fields_fit};
ghost use Rattle.shadow.specs.InPlace.{beliefs_held, beliefs_of, HoldsCells};
ghost use Rattle.shadow.specs.Painted.{keeps_ahead as keeps_before, count_ahead as count_before};

use crate::buffer::same_attr;
use crate::cell_belief::CellBelief;
use crate::cell_beliefs::CellBeliefs;
use crate::queries::count_chars;
use codes3270::Attr;
use datastream::{Want, Wanted, Wants};

/// Whether there is a Keep before the first attribute.
pub(crate) fn keeps_ahead(ahead: Wants<'_>) -> bool
    ensures { result ≡ keeps_before ahead.entry }
{
    for want in ahead {
        match want {
            Want::Attr(_) => return false,
            Want::Keep => return true,
            Want::Char(_) => {}
        }
    }
    false
}

/// How many cells come before the first attribute.
fn count_ahead(ahead: Wants<'_>) -> usize
    requires few { length ahead ≤ 2 * most_cells }
    ensures { result ≡ count_before ahead.entry }
{
    let mut count = 0;
    for want in ahead {
        match want {
            Want::Attr(_) => return count,
            Want::Keep => {}
            Want::Char(_) => {}
        }
        count += 1;
    }
    count
}

/// Whether a field with this attribute (but for MDT) and `count` characters is believed to be at `place`.
fn any_field(held: Option<&CellBeliefs>, place: usize, attr: Attr, count: usize) -> bool
    requires { IfSome held (λ beliefs. place < length beliefs.now) }
    ensures { result ≡ list_any (is_field place attr count) (beliefs_of held.entry) }
{
    match held {
        Some(beliefs) => is_field_at(beliefs, place, attr, count),
        None => false,
    }
}

fn is_field_at(beliefs: &CellBeliefs, place: usize, attr: Attr, count: usize) -> bool
    requires { place < length beliefs.now }
    ensures { result ≡ list_any (is_field place attr count) (beliefs_held beliefs.now 0 beliefs.now) }
{
    match beliefs.get(place) {
        CellBelief::Attr(there, _, _) => {
            same_attr(there, attr) && count_chars(beliefs.ahead(place)) == count
        }
        CellBelief::Known(_) => false,
        CellBelief::Unplaced(_) => false,
        CellBelief::Unknown => false,
    }
}

/// Whether the wanted field whose attribute is at `place` fits; true if no attribute is wanted there.
fn fits_at(held: Option<&CellBeliefs>, wanted: &Wanted, place: usize) -> bool
    requires placed { place < cells_in wanted.now.size }
    requires whole { HoldsCells (cells_in wanted.now.size) held }
    ensures { fits_from (beliefs_of held.entry) wanted.now.cells place (drop place wanted.now.cells) ≡ (result
        && fits_from (beliefs_of held.entry) wanted.now.cells (place + 1) (drop (place + 1) wanted.now.cells)) }
{
    match wanted.at(place) {
        Want::Attr(attr) => {
            !keeps_ahead(wanted.ahead(place))
                || !attr.protected && any_field(held, place, attr, count_ahead(wanted.ahead(place)))
        }
        Want::Keep => true,
        Want::Char(_) => true,
    }
}

/// Whether each wanted field fits.
fn all_fit(held: Option<&CellBeliefs>, wanted: &Wanted) -> bool
    requires { HoldsCells (cells_in wanted.now.size) held }
    ensures { result ≡ fits_from (beliefs_of held.entry) wanted.now.cells 0 wanted.now.cells }
{
    for place in 0..usize::from(wanted.size().cells()) {
        if !fits_at(held, wanted, place) {
            return false;
        }
    }
    true
}

/// Whether any wanted cell is Keep (our profile).
pub fn any_keep(cells: Wants<'_>) -> bool
    ensures { result ≡ list_any is_keep cells.entry }
{
    for want in cells {
        match want {
            Want::Keep => return true,
            Want::Attr(_) => {}
            Want::Char(_) => {}
        }
    }
    false
}

/// Whether any wanted cell is an attribute.
fn any_attribute(cells: Wants<'_>) -> bool
    ensures { result ≡ list_any is_attribute cells.entry }
{
    for want in cells {
        match want {
            Want::Attr(_) => return true,
            Want::Keep => {}
            Want::Char(_) => {}
        }
    }
    false
}

/// Whether Keep is only in fields, and each of these fits.
pub(crate) fn fits_fields(held: Option<&CellBeliefs>, wanted: &Wanted) -> bool
    requires { HoldsCells (cells_in wanted.now.size) held }
    ensures { result ≡ fields_fit (beliefs_of held.entry) wanted.now.cells }
{
    (!any_keep(wanted.cells()) || any_attribute(wanted.cells())) && all_fit(held, wanted)
}

/// Whether the believed screen has the wanted size, Keep is only in fields, and each of these fits.
pub(crate) fn fits_over(beliefs: &CellBeliefs, wanted: &Wanted) -> bool
    ensures { result ≡ (length beliefs.now == cells_in wanted.now.size
        && fields_fit (beliefs_held beliefs.now 0 beliefs.now) wanted.now.cells) }
{
    beliefs.len() == usize::from(wanted.size().cells()) && fits_fields(Some(beliefs), wanted)
}
