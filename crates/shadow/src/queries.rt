//! What the beliefs of single cells say of a field, and of a cell.
ghost use Rattle.std.specs.Prelude.{◌≡◌, ◌<◌, ◌≤◌, ◌+◌, ◌*◌, ◌++◌, ◌&&◌, length, drop, slice_get, option_map, option_and_then, bytes_eq, [], true, false, IfSome};
ghost use Rattle.std.specs.Option.{option_map_or};
ghost use Rattle.codes3270.specs.Size.{most_cells};
ghost use Rattle.datastream.specs.Inbound.{without_nulls};
ghost use Rattle.shadow.specs.Queries.{belief_with, kind_of, value_of, known_at, known_cell as known_of};
ghost use Rattle.shadow.specs.Belief.{nulls};
ghost use Rattle.shadow.specs.FieldTexts.{text_in};
ghost use Rattle.shadow.specs.Heard.{denies as denies_text};
ghost use Rattle.shadow.specs.Settled.{are_settled, is_settled_fact};
ghost use Rattle.shadow.specs.InPlace.{cell_known, chars_known, text_told, fact_held, beliefs_held, is_whole, known_text, is_attribute as is_attribute_held, has_attribute as any_attribute, shadow_held, IsHeld};

use crate::cell_belief::{CellBelief, TextKnowledge};
use crate::cell_beliefs::{Ahead, CellBeliefs};
use crate::fact::Fact;
use crate::field_text::{FieldText, TextPlaces};
use crate::mdt_state::MdtState;
use codes3270::Cell;

/// The number of characters before the first attribute.
pub(crate) fn count_chars(ahead: Ahead<'_>) -> usize
    requires few { length ahead ≤ 2 * most_cells }
    ensures { result ≡ length (chars_known ahead.entry) }
{
    let mut count = 0;
    for place in ahead {
        match place {
            CellBelief::Attr(_, _, _) => return count,
            CellBelief::Known(_) => {}
            CellBelief::Unplaced(_) => {}
            CellBelief::Unknown => {}
        }
        count += 1;
    }
    count
}

/// Whether each character before the first attribute is known.
pub(crate) fn all_known(ahead: Ahead<'_>) -> bool
    ensures { result ≡ is_whole (chars_known ahead.entry) }
{
    for place in ahead {
        match place {
            CellBelief::Attr(_, _, _) => return true,
            CellBelief::Known(_) => {}
            CellBelief::Unplaced(_) => return false,
            CellBelief::Unknown => return false,
        }
    }
    true
}

/// Whether the known characters before the first attribute or unknown character are all nulls.
pub(crate) fn are_null(ahead: Ahead<'_>) -> bool
    ensures { result
        ≡ bytes_eq (known_text (chars_known ahead.entry)) (nulls (length (known_text (chars_known ahead.entry)))) }
{
    for place in ahead {
        match place {
            CellBelief::Attr(_, _, _) => return true,
            CellBelief::Known(char) => {
                if char != 0 {
                    return false;
                }
            }
            CellBelief::Unplaced(_) => return true,
            CellBelief::Unknown => return true,
        }
    }
    true
}

/// The known character with a 0-based index; `None` from the first attribute or unknown character on.
fn known_char(ahead: Ahead<'_>, index: usize) -> Option<u8>
    ensures { result ≡ slice_get (known_text (chars_known ahead.entry)) index }
{
    let mut left = index;
    for place in ahead {
        let CellBelief::Known(char) = place else {
            return None;
        };
        if left == 0 {
            return Some(char);
        }
        left -= 1;
    }
    None
}

/// The character of the told text with a 0-based index.
fn told_char(ahead: Ahead<'_>, index: usize) -> Option<u8>
    ensures { result ≡ slice_get (text_told ahead.entry) index }
{
    let mut left = index;
    for place in ahead {
        let CellBelief::Unplaced(char) = place else {
            return None;
        };
        if left == 0 {
            return Some(char);
        }
        left -= 1;
    }
    None
}

/// What is believed of the text of the field whose attribute is at `place`.
fn kind(beliefs: &CellBeliefs, place: usize, knowledge: TextKnowledge) -> Fact
    requires { place < length beliefs.now }
    ensures { result ≡ kind_of (fact_held knowledge (drop (place + 1) beliefs.now ++ beliefs.now)) }
{
    match knowledge {
        TextKnowledge::Cells => {
            if all_known(beliefs.ahead(place)) {
                Fact::Exact
            } else {
                Fact::Any
            }
        }
        TextKnowledge::ExactOrNulls => Fact::ExactOrNulls,
        TextKnowledge::Text => Fact::Text,
        TextKnowledge::TextOrNulls => Fact::TextOrNulls,
    }
}

/// The character with a 0-based index of the text in the fact of the field whose attribute is at `place`.
fn character(
    beliefs: &CellBeliefs,
    place: usize,
    knowledge: TextKnowledge,
    index: usize,
) -> Option<u8>
    requires { place < length beliefs.now }
    ensures { result ≡ slice_get (value_of (fact_held knowledge (drop (place + 1) beliefs.now ++ beliefs.now))) index }
{
    match knowledge {
        TextKnowledge::Cells => {
            if all_known(beliefs.ahead(place)) {
                known_char(beliefs.ahead(place), index)
            } else {
                None
            }
        }
        TextKnowledge::ExactOrNulls => told_char(beliefs.ahead(place), index),
        TextKnowledge::Text => told_char(beliefs.ahead(place), index),
        TextKnowledge::TextOrNulls => told_char(beliefs.ahead(place), index),
    }
}

/// What is believed of the text of the field whose attribute is at an address; `None` if none is there.
pub(crate) fn fact_held_at(beliefs: &CellBeliefs, place: usize) -> Option<Fact>
    requires { place < length beliefs.now }
    ensures { result
        ≡ option_map (λ belief. kind_of belief.fact) (belief_with place (beliefs_held beliefs.now 0 beliefs.now)) }
{
    match beliefs.get(place) {
        CellBelief::Attr(_, _, knowledge) => Some(kind(beliefs, place, knowledge)),
        CellBelief::Known(_) => None,
        CellBelief::Unplaced(_) => None,
        CellBelief::Unknown => None,
    }
}

/// The character with a 0-based index of the text in the fact of the field whose attribute is at an address.
pub(crate) fn value_held_at(beliefs: &CellBeliefs, place: usize, index: usize) -> Option<u8>
    requires { place < length beliefs.now }
    ensures value { result ≡ option_and_then (λ belief. slice_get (value_of belief.fact) index)
        (belief_with place (beliefs_held beliefs.now 0 beliefs.now)) }
    ensures few { IfSome result (λ char. index < most_cells) }
{
    // For the contract: the screen has at most `MOST_CELLS` cells.
    let _cells = beliefs.len();
    match beliefs.get(place) {
        CellBelief::Attr(_, _, knowledge) => character(beliefs, place, knowledge, index),
        CellBelief::Known(_) => None,
        CellBelief::Unplaced(_) => None,
        CellBelief::Unknown => None,
    }
}

/// Which cells hold the text in the fact of the field whose attribute is at `place`.
fn text_places(beliefs: &CellBeliefs, place: usize, knowledge: TextKnowledge) -> TextPlaces
    requires { place < length beliefs.now }
    ensures { text_in result (drop (place + 1) beliefs.now ++ beliefs.now)
        ≡ value_of (fact_held knowledge (drop (place + 1) beliefs.now ++ beliefs.now)) }
{
    match knowledge {
        TextKnowledge::Cells => {
            if all_known(beliefs.ahead(place)) {
                TextPlaces::Known
            } else {
                TextPlaces::Nowhere
            }
        }
        TextKnowledge::ExactOrNulls => TextPlaces::Unplaced,
        TextKnowledge::Text => TextPlaces::Unplaced,
        TextKnowledge::TextOrNulls => TextPlaces::Unplaced,
    }
}

/// The text in the fact of the field whose attribute is at an address; empty if none is there.
pub(crate) fn text_held_at(beliefs: &CellBeliefs, place: usize) -> FieldText<'_>
    requires { place < length beliefs.now }
    ensures text { result ≡ option_map_or (λ belief. value_of belief.fact)
        (belief_with place (beliefs_held beliefs.now 0 beliefs.now)) [] }
    ensures few { length result < most_cells }
{
    // For the contract: the screen has at most `MOST_CELLS` cells.
    let _cells = beliefs.len();
    match beliefs.get(place) {
        CellBelief::Attr(_, _, knowledge) => {
            FieldText::new(beliefs.ahead(place), text_places(beliefs, place, knowledge))
        }
        CellBelief::Known(_) => FieldText::none(beliefs),
        CellBelief::Unplaced(_) => FieldText::none(beliefs),
        CellBelief::Unknown => FieldText::none(beliefs),
    }
}

/// Whether the known characters before the first attribute or unknown character are this text once nulls are left out.
fn are_text(ahead: Ahead<'_>, text: &[u8]) -> bool
    ensures { result ≡ bytes_eq (without_nulls (known_text (chars_known ahead.entry))) text.now }
{
    let mut rest = text;
    for place in ahead {
        let CellBelief::Known(char) = place else {
            return rest.is_empty();
        };
        if char != 0 {
            match rest {
                [first, others @ ..] if *first == char => rest = others,
                _ => return false,
            }
        }
    }
    rest.is_empty()
}

/// Whether the characters of the field whose attribute is at `place` are all known, and without nulls aren't this text.
pub(crate) fn denies(
    beliefs: &CellBeliefs,
    place: usize,
    knowledge: TextKnowledge,
    text: &[u8],
) -> bool
    requires { place < length beliefs.now }
    ensures { result ≡ denies_text (fact_held knowledge (drop (place + 1) beliefs.now ++ beliefs.now)) text.now }
{
    match knowledge {
        TextKnowledge::Cells => {
            all_known(beliefs.ahead(place)) && !are_text(beliefs.ahead(place), text)
        }
        TextKnowledge::ExactOrNulls => false,
        TextKnowledge::Text => false,
        TextKnowledge::TextOrNulls => false,
    }
}

/// Whether the text of the field whose attribute is at `place` is known, but for its nulls.
#[tactic(auto, using(crate::proofs::Placed::settled_if_whole))]
fn is_settled(beliefs: &CellBeliefs, place: usize, knowledge: TextKnowledge) -> bool
    requires { place < length beliefs.now }
    ensures { result ≡ is_settled_fact (fact_held knowledge (drop (place + 1) beliefs.now ++ beliefs.now)) }
{
    match knowledge {
        TextKnowledge::Cells => all_known(beliefs.ahead(place)),
        TextKnowledge::Text => true,
        TextKnowledge::ExactOrNulls | TextKnowledge::TextOrNulls => false,
    }
}

/// Whether the text of the field whose attribute is at an address is known, but for its nulls; true if none is there.
fn is_settled_at(beliefs: &CellBeliefs, place: usize) -> bool
    requires { place < length beliefs.now }
    ensures { are_settled (beliefs_held beliefs.now place (drop place beliefs.now)) ≡ (result
        && are_settled (beliefs_held beliefs.now (place + 1) (drop (place + 1) beliefs.now))) }
{
    match beliefs.get(place) {
        CellBelief::Attr(_, _, knowledge) => is_settled(beliefs, place, knowledge),
        CellBelief::Known(_) => true,
        CellBelief::Unplaced(_) => true,
        CellBelief::Unknown => true,
    }
}

/// Whether the text of each field is known, but for its nulls.
pub(crate) fn all_settled(beliefs: &CellBeliefs) -> bool
    ensures { result ≡ are_settled (beliefs_held beliefs.now 0 beliefs.now) }
{
    let cells = beliefs.len();
    let mut place = beliefs.attribute_from(0);
    while place < cells {
        if !is_settled_at(beliefs, place) {
            return false;
        }
        place = beliefs.attribute_from(place + 1);
    }
    true
}

/// The cell that a belief knows, if it does. An unknown MDT is returned as off.
fn known_cell(place: CellBelief) -> Option<Cell>
    ensures { result ≡ known_of (cell_known place false) }
{
    match place {
        CellBelief::Attr(attr, mdt, _) => Some(Cell::Attr(attr.with_mdt(mdt == MdtState::On))),
        CellBelief::Known(char) => Some(Cell::Char(char)),
        CellBelief::Unplaced(_) => None,
        CellBelief::Unknown => None,
    }
}

/// The cell at an address, if it is known.
pub(crate) fn known_held_at(beliefs: &CellBeliefs, at: usize) -> Option<Cell>
    requires placed { at < length beliefs.now }
    requires held { IsHeld beliefs.now }
    ensures { result ≡ known_at (shadow_held true beliefs.now) at }
{
    known_cell(beliefs.get(at))
}

pub(crate) fn is_attribute(place: CellBelief) -> bool
    ensures { result ≡ is_attribute_held place }
{
    match place {
        CellBelief::Attr(_, _, _) => true,
        CellBelief::Known(_) => false,
        CellBelief::Unplaced(_) => false,
        CellBelief::Unknown => false,
    }
}

/// Whether the believed screen has an attribute.
pub(crate) fn has_attribute(beliefs: &CellBeliefs) -> bool
    ensures { result ≡ any_attribute beliefs.now }
{
    beliefs.attribute_from(0) < beliefs.len()
}
