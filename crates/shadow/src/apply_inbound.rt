//! How inbound data changes the belief, in place.
ghost use Rattle.std.specs.Prelude.{◌≡◌, ◌<◌, ◌+◌, ◌++◌, ◌||◌, true, false, None, Ok, All, Err, MatchOption, MatchResult, ℕ, List, length, map, drop, if◌then◌else◌};
ghost use Rattle.std.specs.List.{list_any};
ghost use Rattle.codes3270.specs.Size.{cells_in};
ghost use Rattle.shadow.specs.declared.fault.HeardFault.TheVariants.{NoSuchField, Contradiction};
ghost use Rattle.shadow.specs.declared.mdt_state.MdtState.TheVariants.{On};
ghost use Rattle.shadow.specs.declared.cell_belief.CellBelief.{CellBelief as CellBeliefKind};
ghost use Rattle.shadow.specs.Filled.{is_possible as can_be, any_lost, long_after, contradicts_held, lost_held, change_of, key_change, unreturned_at, unreturned_by as unreturned_of, unreturned_from, or_null_knowledge, long_change, long_changes, input_change as input_by, unreturned_change as unreturned_by, returned_change as returned_by, last_fill, all_changed, front_filled};
ghost use Rattle.shadow.specs.Filled.Fill.{Same};
ghost use Rattle.datastream.specs.InboundFields.{returned, IsProperReturned};
ghost use Rattle.shadow.specs.Belief.Shadow.{Formatted as FormattedBelief};
ghost use Rattle.shadow.specs.Heard.{heard_parts, is_off, starts_at, is_nowhere, denies as denies_text, after_attention as attention_one};
ghost use Rattle.shadow.specs.Borrowed.{text_of};
ghost use Rattle.shadow.specs.InPlace.{chars_known, fact_held, beliefs_held, IsHeld};

use crate::cell_belief::{CellBelief, TextKnowledge};
use crate::cell_beliefs::CellBeliefs;
use crate::fault::HeardFault;
use crate::field_update::{Change, FieldUpdate, fill_between, fill_front, update_after};
use crate::mdt_state::MdtState;
use crate::queries::{all_known, are_null, denies, is_attribute};
use crate::returned_cursor::ReturnedCursor;
use codes3270::Addr;
use datastream::{Inbound, ReturnedFields};

/// How the belief of an unprotected field changes if its text isn't returned and nothing shows that input was erased.
#[derive(Clone, Copy)]
pub(crate) enum Unreturned {
    /// It stays, except that the text may be all nulls now.
    Stays,
    /// Its known characters become told ones: the text is as it was, or all nulls.
    IsTold,
    /// Its characters become unknown.
    IsForgotten,
}

/// Whether an address is that of a believed field's first cell.
fn begins_field(beliefs: &CellBeliefs, first: Addr) -> bool
    requires { first < length beliefs.now }
    ensures { result
        ≡ list_any (λ belief. starts_at (length beliefs.now) belief first) (beliefs_held beliefs.now 0 beliefs.now) }
{
    let cells = beliefs.len();
    let place = (first.get() as usize + cells - 1) % cells;
    is_attribute(beliefs.get(place))
}

/// Whether a returned field's address is that of no believed field's first cell.
fn any_nowhere(beliefs: &CellBeliefs, came: ReturnedFields<'_>) -> bool
    requires { All (IsProperReturned (length beliefs.now)) came }
    ensures { result ≡ list_any (is_nowhere (length beliefs.now) (beliefs_held beliefs.now 0 beliefs.now)) came.entry }
{
    for field in came {
        if !begins_field(beliefs, field.first) {
            return true;
        }
    }
    false
}

/// Whether the belief contradicts that a protected field is returned with this text.
#[inline(never)]
fn contradicts_protected(
    beliefs: &CellBeliefs,
    place: usize,
    mdt: MdtState,
    knowledge: TextKnowledge,
    text: &[u8],
) -> bool
    requires { place < length beliefs.now }
    ensures { result
        ≡ (is_off mdt || denies_text (fact_held knowledge (drop (place + 1) beliefs.now ++ beliefs.now)) text.now) }
{
    mdt == MdtState::Off || denies(beliefs, place, knowledge, text)
}

/// Whether the belief contradicts that this text, or none, is returned for the field whose attribute is at `place`;
/// `count` is its number of characters. False if a character is held there.
fn contradicts(
    beliefs: &CellBeliefs,
    place: usize,
    count: usize,
    held: CellBelief,
    text: Option<&[u8]>,
) -> bool
    requires placed { place < length beliefs.now }
    requires counted { count ≡ length (chars_known (drop (place + 1) beliefs.now ++ beliefs.now)) }
    ensures { result ≡ contradicts_held held place (drop (place + 1) beliefs.now ++ beliefs.now) (text_of text.entry) }
{
    let CellBelief::Attr(attr, mdt, knowledge) = held else {
        return false;
    };
    match text {
        None => attr.protected && mdt == MdtState::On,
        Some(text) => {
            count < text.len()
                || attr.protected && contradicts_protected(beliefs, place, mdt, knowledge, text)
        }
    }
}

/// Whether the operator has erased this unprotected field: its MDT was on, and its text isn't returned.
fn was_erased(held: CellBelief, text: Option<&[u8]>) -> bool
    ensures { (place : ℕ) → (ahead : List CellBeliefKind) → result ≡ lost_held held place ahead (text_of text.entry) }
{
    match held {
        CellBelief::Attr(attr, mdt, _) => text.is_none() && !attr.protected && mdt == MdtState::On,
        CellBelief::Known(_) => false,
        CellBelief::Unplaced(_) => false,
        CellBelief::Unknown => false,
    }
}

/// Whether the operator has erased input, or `None` if no screen that is so believed can return these fields.
#[inline(never)]
fn erased_if_possible(beliefs: &CellBeliefs, returned: ReturnedFields<'_>) -> Option<bool>
    ensures { let fields = beliefs_held beliefs.now 0 beliefs.now in
        MatchOption result (can_be (length beliefs.now) fields returned.entry ≡ false)
        (λ erased. (can_be (length beliefs.now) fields returned.entry ≡ true)
        × (any_lost (length beliefs.now) fields returned.entry ≡ erased)) }
{
    let cells = beliefs.len();
    let mut returned_cursor = ReturnedCursor::new(returned);
    let mut erased = false;
    let mut place = beliefs.attribute_from(0);
    while place < cells {
        let held = beliefs.attribute_at(place);
        let next = beliefs.attribute_from(place + 1);
        let count = beliefs.count_behind(place, next);
        let text = returned_cursor.take(held, place, cells);
        if contradicts(beliefs, place, count, held, text) {
            return None;
        }
        erased |= was_erased(held, text);
        place = next;
    }
    if returned_cursor.is_empty() {
        Some(erased)
    } else {
        None
    }
}

/// The fault of data that contradicts the belief.
#[inline(never)]
fn fault_of(beliefs: &CellBeliefs, returned: ReturnedFields<'_>) -> HeardFault
    requires { All (IsProperReturned (length beliefs.now)) returned }
    ensures { result ≡ (if list_any (is_nowhere (length beliefs.now) (beliefs_held beliefs.now 0 beliefs.now))
        returned.entry then NoSuchField else Contradiction) }
{
    if any_nowhere(beliefs, returned) {
        HeardFault::NoSuchField
    } else {
        HeardFault::Contradiction
    }
}

/// Whether the operator has erased input, or the fault if no formatted screen that is so believed can send the data.
pub(crate) fn check_fields(beliefs: &CellBeliefs, inbound: &Inbound<'_>) -> Result<bool, HeardFault>
    requires { cells_in inbound.now.size ≡ length beliefs.now }
    ensures { let cells = length beliefs.now in
        let fields = beliefs_held beliefs.now 0 beliefs.now in
        let came = returned inbound.now.parts in
        let heard = heard_parts cells (FormattedBelief fields) inbound.now.parts in
        MatchResult result (λ erased. (heard ≡ Ok (FormattedBelief (long_after cells erased fields came)))
        × (can_be cells fields came ≡ true)) (λ fault. heard ≡ Err fault) }
{
    if !inbound.leading_text().is_empty() {
        return Err(fault_of(beliefs, inbound.returned()));
    }
    match erased_if_possible(beliefs, inbound.returned()) {
        Some(erased) => Ok(erased),
        None => Err(fault_of(beliefs, inbound.returned())),
    }
}

/// How the belief of the field whose attribute is at `place` changes if its text isn't returned.
fn if_unreturned(beliefs: &CellBeliefs, place: usize, knowledge: TextKnowledge) -> Unreturned
    requires { place < length beliefs.now }
    ensures { result ≡ unreturned_of knowledge (drop (place + 1) beliefs.now ++ beliefs.now) }
{
    let TextKnowledge::Cells = knowledge else {
        return Unreturned::Stays;
    };
    if !all_known(beliefs.ahead(place)) {
        Unreturned::IsForgotten
    } else if are_null(beliefs.ahead(place)) {
        Unreturned::Stays
    } else {
        Unreturned::IsTold
    }
}

/// The change of an unprotected field whose text isn't returned.
fn unreturned_change<'a>(unreturned: Unreturned, knowledge: TextKnowledge) -> Change<'a>
    ensures { change_of result ≡ unreturned_by unreturned knowledge }
{
    let (knowledge, update) = match unreturned {
        Unreturned::Stays => (or_nulls(knowledge), FieldUpdate::Same),
        Unreturned::IsTold => (TextKnowledge::ExactOrNulls, FieldUpdate::Unplaced),
        Unreturned::IsForgotten => (TextKnowledge::Cells, FieldUpdate::Unknown),
    };
    Change {
        mdt: MdtState::Off,
        knowledge,
        update,
    }
}

fn or_nulls(knowledge: TextKnowledge) -> TextKnowledge
    ensures { result ≡ or_null_knowledge knowledge }
{
    match knowledge {
        TextKnowledge::Text => TextKnowledge::TextOrNulls,
        _ => knowledge,
    }
}

/// The change of an unprotected field for which this text is returned; an empty text means all nulls.
fn returned_change(text: &[u8]) -> Change<'_>
    ensures { change_of result ≡ returned_by On text.now }
{
    if text.is_empty() {
        Change {
            mdt: MdtState::On,
            knowledge: TextKnowledge::Cells,
            update: FieldUpdate::Null,
        }
    } else {
        Change {
            mdt: MdtState::On,
            knowledge: TextKnowledge::Text,
            update: FieldUpdate::Text(text),
        }
    }
}

/// The change of an unprotected field whose text isn't returned; `erased` if the operator has erased the input.
#[inline(never)]
fn lost_change<'a>(
    beliefs: &CellBeliefs,
    place: usize,
    erased: bool,
    knowledge: TextKnowledge,
) -> Change<'a>
    requires { place < length beliefs.now }
    ensures { change_of result
        ≡ input_by erased knowledge (unreturned_of knowledge (drop (place + 1) beliefs.now ++ beliefs.now)) None }
{
    if erased {
        Change {
            mdt: MdtState::Off,
            knowledge: TextKnowledge::Cells,
            update: FieldUpdate::Null,
        }
    } else {
        unreturned_change(if_unreturned(beliefs, place, knowledge), knowledge)
    }
}

/// The change of an unprotected field for which this text, or none, is returned.
fn input_change<'a>(
    beliefs: &CellBeliefs,
    place: usize,
    erased: bool,
    knowledge: TextKnowledge,
    text: Option<&'a [u8]>,
) -> Change<'a>
    requires { place < length beliefs.now }
    ensures { change_of result ≡ input_by erased knowledge
        (unreturned_of knowledge (drop (place + 1) beliefs.now ++ beliefs.now)) (text_of text.entry) }
{
    match text {
        Some(text) => returned_change(text),
        None => lost_change(beliefs, place, erased, knowledge),
    }
}

/// The change of the field whose attribute is at `place`. If a character is held there, the result isn't used.
fn change_after<'a>(
    beliefs: &CellBeliefs,
    place: usize,
    held: CellBelief,
    erased: bool,
    text: Option<&'a [u8]>,
) -> Change<'a>
    requires { place < length beliefs.now }
    ensures { change_of result ≡ long_change erased held
        (unreturned_at held (drop (place + 1) beliefs.now ++ beliefs.now)) (text_of text.entry) }
{
    match held {
        CellBelief::Attr(attr, _, knowledge) if attr.protected => Change {
            mdt: if text.is_some() {
                MdtState::On
            } else {
                MdtState::Off
            },
            knowledge,
            update: FieldUpdate::Same,
        },
        CellBelief::Attr(_, _, knowledge) => input_change(beliefs, place, erased, knowledge, text),
        _ => Change {
            mdt: MdtState::Off,
            knowledge: TextKnowledge::Cells,
            update: FieldUpdate::Same,
        },
    }
}

/// Updates the beliefs from the returned fields; `erased` if the operator has erased the input. The last field's
/// characters wrap to address 0.
#[inline(never)]
pub(crate) fn take_fields<'a>(beliefs: &mut CellBeliefs, erased: bool, returned: ReturnedFields<'a>)
    ensures { let changes = long_changes (length beliefs.old) erased 0 returned.entry beliefs.old
        (unreturned_from beliefs.old beliefs.old) in
        beliefs.new ≡ front_filled (last_fill Same changes beliefs.old) (all_changed Same changes beliefs.old) }
{
    let cells = beliefs.len();
    let mut returned_cursor = ReturnedCursor::new(returned);
    let mut place = beliefs.attribute_from(0);
    while place < cells {
        let held = beliefs.attribute_at(place);
        let end = beliefs.attribute_from(place + 1);
        let text = returned_cursor.take(held, place, cells);
        let one = change_after(beliefs, place, held, erased, text);
        beliefs.set_head(place, one.mdt, one.knowledge);
        fill_between(beliefs, place + 1, end, one.update);
        if cells <= end {
            fill_front(beliefs, update_after(one.update, end - place - 1));
            return;
        }
        place = end;
    }
}

/// The change of a field after a key that sends its AID alone.
fn key_change_of<'a>(held: CellBelief) -> Change<'a>
    ensures { change_of result ≡ key_change held }
{
    match held {
        CellBelief::Attr(attr, mdt, knowledge) if attr.protected => Change {
            mdt,
            knowledge,
            update: FieldUpdate::Same,
        },
        CellBelief::Attr(_, _, _) => Change {
            mdt: MdtState::Unknown,
            knowledge: TextKnowledge::Cells,
            update: FieldUpdate::Unknown,
        },
        _ => Change {
            mdt: MdtState::Unknown,
            knowledge: TextKnowledge::Cells,
            update: FieldUpdate::Same,
        },
    }
}

/// Updates the beliefs of a formatted screen after a key that sends its AID alone, other than Clear.
pub(crate) fn after_attention(beliefs: &mut CellBeliefs)
    requires { IsHeld beliefs.old }
    ensures fields { beliefs_held beliefs.new 0 beliefs.new
        ≡ map attention_one (beliefs_held beliefs.old 0 beliefs.old) }
    ensures held { IsHeld beliefs.new }
{
    let cells = beliefs.len();
    let mut update = FieldUpdate::Same;
    let mut filled = 0;
    let mut place = beliefs.attribute_from(0);
    while place < cells {
        let held = beliefs.attribute_at(place);
        let end = beliefs.attribute_from(place + 1);
        let one = key_change_of(held);
        beliefs.set_head(place, one.mdt, one.knowledge);
        fill_between(beliefs, place + 1, end, one.update);
        update = one.update;
        filled = end - place - 1;
        place = end;
    }
    fill_front(beliefs, update_after(update, filled));
}
