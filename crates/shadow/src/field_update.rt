//! How inbound data updates the cells of a field.
ghost use Rattle.std.specs.Prelude.{◌≡◌, ◌≤◌, ◌+◌, ◌++◌, length, take, drop};
ghost use Rattle.shadow.specs.InPlace.{chars_known};
ghost use Rattle.shadow.specs.Filled.{fill_of, filled, place_told, fill_next, fill_after, front_filled};

use crate::cell_belief::{CellBelief, TextKnowledge};
use crate::cell_beliefs::CellBeliefs;
use crate::mdt_state::MdtState;

/// How an update changes the characters of a field.
#[derive(Clone, Copy)]
pub(crate) enum FieldUpdate<'a> {
    /// They stay as they are.
    Same,
    /// Nothing is known of them.
    Unknown,
    /// They are known nulls.
    Null,
    /// They tell this text; those after it are unknown.
    Text(&'a [u8]),
    /// The known ones become told ones.
    Unplaced,
}

/// How inbound data changes a field: its MDT, what is known of its text, and its characters.
#[derive(Clone, Copy)]
pub(crate) struct Change<'a> {
    pub mdt: MdtState,
    pub knowledge: TextKnowledge,
    pub update: FieldUpdate<'a>,
}

fn told(place: CellBelief) -> CellBelief
    ensures { result ≡ place_told place }
{
    match place {
        CellBelief::Known(char) => CellBelief::Unplaced(char),
        CellBelief::Attr(_, _, _) => place,
        CellBelief::Unplaced(_) => place,
        CellBelief::Unknown => place,
    }
}

/// What is believed of a character's cell after an update whose characters begin there.
pub(crate) fn fill(place: CellBelief, update: FieldUpdate<'_>) -> CellBelief
    ensures { result ≡ filled (fill_of update.entry) place }
{
    match update {
        FieldUpdate::Same => place,
        FieldUpdate::Unknown => CellBelief::Unknown,
        FieldUpdate::Null => CellBelief::Known(0),
        FieldUpdate::Text([char, ..]) => CellBelief::Unplaced(*char),
        FieldUpdate::Text([]) => CellBelief::Unknown,
        FieldUpdate::Unplaced => told(place),
    }
}

/// The update of the characters after the first.
pub(crate) fn update_next(update: FieldUpdate<'_>) -> FieldUpdate<'_>
    ensures { fill_of result ≡ fill_next (fill_of update.entry) }
{
    match update {
        FieldUpdate::Text([_, rest @ ..]) => FieldUpdate::Text(rest),
        _ => update,
    }
}

/// The bytes after the first `count`.
fn text_after(text: &[u8], count: usize) -> &[u8]
    ensures { result.now ≡ drop count text.now }
{
    if count < text.len() {
        &text[count..]
    } else {
        &[]
    }
}

/// The update of the characters after the first `count`.
pub(crate) fn update_after(update: FieldUpdate<'_>, count: usize) -> FieldUpdate<'_>
    ensures { fill_of result ≡ fill_after count (fill_of update.entry) }
{
    match update {
        FieldUpdate::Text(text) => FieldUpdate::Text(text_after(text, count)),
        _ => update,
    }
}

/// Updates the characters from an address to the next attribute, or to the end, one by one.
#[inline(never)]
fn fill_each(beliefs: &mut CellBeliefs, from: usize, update: FieldUpdate<'_>)
    requires { from ≤ length beliefs.old }
    ensures { beliefs.new ≡ take from beliefs.old ++ front_filled (fill_of update.entry) (drop from beliefs.old) }
{
    let mut update = update;
    for place in from..beliefs.len() {
        let held = beliefs.get(place);
        match held {
            CellBelief::Attr(_, _, _) => return,
            CellBelief::Known(_) => {}
            CellBelief::Unplaced(_) => {}
            CellBelief::Unknown => {}
        }
        beliefs.set(place, fill(held, update));
        update = update_next(update);
    }
}

/// Updates the characters in `from..to`. `to` must be the next attribute's address or the number of cells.
#[inline(always)]
pub(crate) fn fill_between(
    beliefs: &mut CellBeliefs,
    from: usize,
    to: usize,
    update: FieldUpdate<'_>,
)
    requires few { to ≤ length beliefs.old }
    requires chars { to ≡ from + length (chars_known (drop from beliefs.old)) }
    ensures { beliefs.new ≡ take from beliefs.old ++ front_filled (fill_of update.entry) (drop from beliefs.old) }
{
    match update {
        FieldUpdate::Same => {}
        FieldUpdate::Unknown => beliefs.forget(from, to),
        FieldUpdate::Null => beliefs.hold_nulls(from, to),
        FieldUpdate::Text(text) => beliefs.tell(from, to, text),
        FieldUpdate::Unplaced => fill_each(beliefs, from, update),
    }
}

/// Updates the characters from address 0 to the first attribute, or to the end.
#[inline(never)]
pub(crate) fn fill_front(beliefs: &mut CellBeliefs, update: FieldUpdate<'_>)
    ensures { beliefs.new ≡ front_filled (fill_of update.entry) beliefs.old }
{
    let to = beliefs.attribute_from(0);
    fill_between(beliefs, 0, to, update);
}
