//! How a plain write changes the belief, in place.
ghost use Rattle.std.specs.Prelude.{◌≡◌, ◌<◌, ◌≤◌, ◌+◌, ◌++◌, ◌∷◌, ℕ, true, false, All, List, Some, None, length, map, replicate, drop, slice_index_or, slice_set, unwrap_or, if◌then◌else◌};
ghost use Rattle.codes3270.specs.Size.{cells_in};
ghost use Rattle.datastream.specs.Grammar.{IsProper};
ghost use Rattle.datastream.specs.declared.order.Order.{Order as PlainOrder};
ghost use Rattle.datastream.specs.declared.order.Order.TheVariants.{Char as CharData};
ghost use Rattle.shadow.specs.declared.known.Known.{Known as KnownCell};
ghost use Rattle.shadow.specs.declared.cell_belief.CellBelief.{CellBelief as CellBeliefKind};
ghost use Rattle.shadow.specs.declared.cell_belief.CellBelief.TheVariants.{Unknown, Known as KnownPlace};
ghost use Rattle.shadow.specs.declared.cell_belief.BeforeWrite.{BeforeWrite as BeforeWriteCell};
ghost use Rattle.shadow.specs.declared.mdt_state.MdtState.TheVariants.{Off as OffMark};
ghost use Rattle.shadow.specs.InPlace.{cell_known, cells_known, beliefs_held, shadow_held, IsHeld};
ghost use Rattle.shadow.specs.PackedBeliefs.{with_head};
ghost use Rattle.shadow.specs.Since.{belief_of_cell, place_off, knowledge_of, never, stored_past, stored_since, cells_written, Since, is_touched, knowledge_after as telling_then, place_settled, settled};
ghost use Rattle.shadow.specs.Stores.{is_plain, stores};
ghost use Rattle.shadow.specs.Taken.{believed, known_after, known_stored, new_cell, resets as resets_marks, taken_erase};

use crate::cell_belief::{BeforeWrite, CellBelief, NO_FIELD, PriorKnowledge, TextKnowledge};
use crate::cell_beliefs::CellBeliefs;
use crate::mdt_state::MdtState;
use crate::writing::{mark_seen, resets};
use codes3270::{Addr, Cell, MOST_CELLS, Size, Wcc};
use datastream::{Command, Order, Orders};

/// What is believed of a cell that a write has stored or a read has returned.
pub(crate) fn place_of(cell: Cell) -> CellBelief
    ensures { result ≡ belief_of_cell cell }
{
    match cell {
        Cell::Attr(attr) => CellBelief::Attr(
            attr.with_mdt(false),
            mark_seen(attr.mdt),
            TextKnowledge::Cells,
        ),
        Cell::Char(char) => CellBelief::Known(char),
    }
}

fn past_at(pasts: &[BeforeWrite], place: usize) -> BeforeWrite
    requires { place < length pasts.now }
    ensures { result ≡ slice_index_or pasts.now place result }
{
    pasts[place]
}

fn past_of(place: CellBelief) -> BeforeWrite
    ensures { result ≡ record { knowledge = knowledge_of place; fresh = false } }
{
    let knowledge = match place {
        CellBelief::Attr(_, _, knowledge) => Some(knowledge),
        CellBelief::Known(_) => None,
        CellBelief::Unplaced(_) => None,
        CellBelief::Unknown => None,
    };
    BeforeWrite {
        knowledge: PriorKnowledge::new(knowledge),
        fresh: false,
    }
}

/// Notes what is believed of each cell before a write.
fn record_before(beliefs: &CellBeliefs, pasts: &mut [BeforeWrite])
    requires { pasts.old ≡ replicate (length beliefs.now) never }
    ensures since { Since beliefs.now beliefs.now pasts.new }
    ensures cells { cells_written beliefs.now pasts.new ≡ cells_known beliefs.now }
    ensures size { length pasts.new ≡ length beliefs.now }
{
    let cells = beliefs.len();
    let mut place = beliefs.attribute_from(0);
    while place < cells {
        pasts[place] = past_of(beliefs.get(place));
        place = beliefs.attribute_from(place + 1);
    }
}

/// Stores a cell.
fn put(beliefs: &mut CellBeliefs, pasts: &mut [BeforeWrite], at: Addr, cell: Cell)
    requires placed { at < length beliefs.old }
    requires size { length pasts.old ≡ length beliefs.old }
    ensures cells { cells_written beliefs.new pasts.new
        ≡ slice_set (cells_written beliefs.old pasts.old) at (new_cell cell) }
    ensures since { (old : List CellBeliefKind) → Since old beliefs.old pasts.old → Since old beliefs.new pasts.new }
    ensures size { length pasts.new ≡ length beliefs.new }
    ensures same_size { length beliefs.new ≡ length beliefs.old }
{
    let place = at.get() as usize;
    beliefs.set(place, place_of(cell));
    pasts[place] = BeforeWrite {
        knowledge: past_at(pasts, place).knowledge,
        fresh: true,
    };
}

/// Carries out an order at an address, on a screen of this size, and returns the next address.
fn store_one(
    beliefs: &mut CellBeliefs,
    pasts: &mut [BeforeWrite],
    at: Addr,
    order: Order,
    size: Size,
) -> Addr
    requires placed { at < cells_in size }
    requires proper { IsProper (cells_in size) order }
    requires whole { length beliefs.old ≡ cells_in size }
    requires size { length pasts.old ≡ length beliefs.old }
    ensures cells { (more : List PlainOrder)
        → known_stored (stores (cells_in size) at (order ∷ more)) (cells_written beliefs.old pasts.old)
        ≡ known_stored (stores (cells_in size) result more) (cells_written beliefs.new pasts.new) }
    ensures since { (old : List CellBeliefKind) → Since old beliefs.old pasts.old → Since old beliefs.new pasts.new }
    ensures size { length pasts.new ≡ length beliefs.new }
    ensures same_size { length beliefs.new ≡ length beliefs.old }
    ensures in_range { result < cells_in size }
{
    match order {
        Order::Sf(attr) => {
            put(beliefs, pasts, at, Cell::Attr(attr));
            at.next(size)
        }
        Order::Char(char) => {
            put(beliefs, pasts, at, Cell::Char(char));
            at.next(size)
        }
        Order::Sba(to) => to,
        Order::Ic => at,
        Order::Pt => at,
        Order::Ra(_, _) => at,
        Order::Eua(_) => at,
    }
}

/// Marks the cells `from..to` as stored by the write.
fn mark_stored(pasts: &mut [BeforeWrite], from: usize, to: usize)
    requires order { from ≤ to }
    requires few { to ≤ length pasts.old }
    ensures inside { (at : ℕ) → from ≤ at → at < to
        → slice_index_or pasts.new at never ≡ stored_since (slice_index_or pasts.old at never) }
    ensures apart { (at : ℕ) → (from ≤ at → at < to → ⊥)
        → slice_index_or pasts.new at never ≡ slice_index_or pasts.old at never }
    ensures size { length pasts.new ≡ length pasts.old }
{
    for at in from..to {
        pasts[at] = BeforeWrite {
            knowledge: past_at(pasts, at).knowledge,
            fresh: true,
        };
    }
}

/// Stores characters, at least one, which must fit before the end, from an address on, and returns the next address.
#[inline(always)]
fn store_front(
    beliefs: &mut CellBeliefs,
    pasts: &mut [BeforeWrite],
    at: Addr,
    text: &[u8],
    size: Size,
) -> Addr
    requires some { 0 < length text.now }
    requires room { at + length text.now ≤ cells_in size }
    requires whole { length beliefs.old ≡ cells_in size }
    requires size { length pasts.old ≡ length beliefs.old }
    ensures cells { (more : List PlainOrder)
        → known_stored (stores (cells_in size) at (map CharData text.now ++ more)) (cells_written beliefs.old pasts.old)
        ≡ known_stored (stores (cells_in size) result more) (cells_written beliefs.new pasts.new) }
    ensures since { (old : List CellBeliefKind) → Since old beliefs.old pasts.old → Since old beliefs.new pasts.new }
    ensures size { length pasts.new ≡ length beliefs.new }
    ensures same_size { length beliefs.new ≡ length beliefs.old }
    ensures in_range { result < cells_in size }
{
    let from = usize::from(at.get());
    beliefs.hold_characters(from, text);
    mark_stored(pasts, from, from + text.len());
    at.forward(text.len() as u16, size)
}

/// Stores characters from an address on, wrapping at the end, on a screen of this size, and returns the next address.
#[inline(always)]
fn store_characters(
    beliefs: &mut CellBeliefs,
    pasts: &mut [BeforeWrite],
    at: Addr,
    text: &[u8],
    size: Size,
) -> Addr
    requires placed { at < cells_in size }
    requires whole { length beliefs.old ≡ cells_in size }
    requires size { length pasts.old ≡ length beliefs.old }
    ensures cells { (more : List PlainOrder)
        → known_stored (stores (cells_in size) at (map CharData text.now ++ more)) (cells_written beliefs.old pasts.old)
        ≡ known_stored (stores (cells_in size) result more) (cells_written beliefs.new pasts.new) }
    ensures since { (old : List CellBeliefKind) → Since old beliefs.old pasts.old → Since old beliefs.new pasts.new }
    ensures size { length pasts.new ≡ length beliefs.new }
    ensures same_size { length beliefs.new ≡ length beliefs.old }
    ensures in_range { result < cells_in size }
{
    let mut at = at;
    let mut rest = text;
    while !rest.is_empty() {
        let (front, behind) = rest.split_at(at.room(size).min(rest.len()));
        at = store_front(beliefs, pasts, at, front, size);
        rest = behind;
    }
    at
}

/// Carries out the orders from address 0 on, on a screen of this size.
fn store(beliefs: &mut CellBeliefs, pasts: &mut [BeforeWrite], orders: Orders<'_>, size: Size)
    requires proper { All (IsProper (cells_in size)) orders }
    requires whole { length beliefs.old ≡ cells_in size }
    requires size { length pasts.old ≡ length beliefs.old }
    ensures cells { cells_written beliefs.new pasts.new
        ≡ known_stored (stores (cells_in size) 0 orders.entry) (cells_written beliefs.old pasts.old) }
    ensures since { (old : List CellBeliefKind) → Since old beliefs.old pasts.old → Since old beliefs.new pasts.new }
    ensures size { length pasts.new ≡ length beliefs.new }
    ensures same_size { length beliefs.new ≡ length beliefs.old }
{
    // For the contract: the screen has a first cell.
    let _cells = size.cells();
    let mut orders = orders;
    let mut at = store_characters(beliefs, pasts, Addr::first(), orders.characters(), size);
    while let Some(order) = orders.next() {
        let next = store_one(beliefs, pasts, at, order, size);
        at = store_characters(beliefs, pasts, next, orders.characters(), size);
    }
}

/// What is known of the text of the field of an attribute. For a character the result isn't used.
fn knowledge_in(place: CellBelief) -> TextKnowledge
    ensures { with_head OffMark result place ≡ place_off place }
{
    match place {
        CellBelief::Attr(_, _, knowledge) => knowledge,
        CellBelief::Known(_) => TextKnowledge::Cells,
        CellBelief::Unplaced(_) => TextKnowledge::Cells,
        CellBelief::Unknown => TextKnowledge::Cells,
    }
}

/// Sets what is known of each attribute's MDT to off.
fn marks_off(beliefs: &mut CellBeliefs)
    ensures marks { beliefs.new ≡ map place_off beliefs.old }
    ensures size { length beliefs.new ≡ length beliefs.old }
{
    let cells = beliefs.len();
    let mut place = beliefs.attribute_from(0);
    while place < cells {
        let knowledge = knowledge_in(beliefs.attribute_at(place));
        beliefs.set_head(place, MdtState::Off, knowledge);
        place = beliefs.attribute_from(place + 1);
    }
}

/// Sets what is known of each attribute's MDT to off, if the write resets MDT.
fn reset_marks(beliefs: &mut CellBeliefs, wcc: Option<Wcc>)
    ensures marks { beliefs.new ≡ (if resets_marks wcc then map place_off beliefs.old else beliefs.old) }
    ensures size { length beliefs.new ≡ length beliefs.old }
{
    if resets(wcc) {
        marks_off(beliefs);
    }
}

/// Whether a cell shows that the field before it was touched. A stored character shows that it was; an attribute shows
/// that it was exactly if there was none before the write; any other character shows nothing (`None`).
fn touch(place: CellBelief, past: BeforeWrite) -> Option<bool>
    ensures { (cells : List KnownCell) → (pasts : List BeforeWriteCell)
        → is_touched (cell_known place past.fresh ∷ cells) (past ∷ pasts) ≡ unwrap_or result (is_touched cells pasts) }
{
    match place {
        CellBelief::Attr(_, _, _) => Some(past.knowledge.get().is_none()),
        CellBelief::Known(_) => fresh_touch(past),
        CellBelief::Unplaced(_) => fresh_touch(past),
        CellBelief::Unknown => fresh_touch(past),
    }
}

fn fresh_touch(past: BeforeWrite) -> Option<bool>
    ensures { result ≡ (if past.fresh then Some true else None) }
{
    if past.fresh { Some(true) } else { None }
}

/// Whether the write has stored a character in the field whose attribute is at `place`, or changed its length.
fn is_field_touched(beliefs: &CellBeliefs, pasts: &[BeforeWrite], place: usize) -> bool
    requires placed { place < length beliefs.now }
    requires size { length pasts.now ≡ length beliefs.now }
    ensures { let cells = cells_written beliefs.now pasts.now in
        result ≡ is_touched (drop (place + 1) cells ++ cells) (drop (place + 1) pasts.now ++ pasts.now) }
{
    for at in place + 1..beliefs.len() {
        match touch(beliefs.get(at), past_at(pasts, at)) {
            Some(touched) => return touched,
            None => {}
        }
    }
    for at in 0..beliefs.len() {
        match touch(beliefs.get(at), past_at(pasts, at)) {
            Some(touched) => return touched,
            None => {}
        }
    }
    false
}

/// What is known of the text of an attribute's field after the write.
fn knowledge_after(past: BeforeWrite, touched: bool) -> TextKnowledge
    ensures { result ≡ telling_then past touched }
{
    match past.knowledge.get() {
        Some(knowledge) if !touched => knowledge,
        _ => TextKnowledge::Cells,
    }
}

/// What is believed of a cell after the write.
fn settled_at(beliefs: &CellBeliefs, pasts: &[BeforeWrite], at: usize) -> CellBelief
    requires placed { at < length beliefs.now }
    requires size { length pasts.now ≡ length beliefs.now }
    ensures { let cells = cells_written beliefs.now pasts.now in
        result ≡ place_settled (slice_index_or beliefs.now at Unknown) (slice_index_or pasts.now at never)
        (is_touched (drop (at + 1) cells ++ cells) (drop (at + 1) pasts.now ++ pasts.now)) }
{
    let place = beliefs.get(at);
    match place {
        CellBelief::Attr(attr, mdt, _) => {
            let touched = is_field_touched(beliefs, pasts, at);
            CellBelief::Attr(attr, mdt, knowledge_after(past_at(pasts, at), touched))
        }
        CellBelief::Known(_) => place,
        CellBelief::Unplaced(_) => place,
        CellBelief::Unknown => place,
    }
}

/// Sets what is known of each field's text after the write.
fn settle(beliefs: &mut CellBeliefs, pasts: &[BeforeWrite])
    requires { length pasts.now ≡ length beliefs.old }
    ensures size { length beliefs.new ≡ length beliefs.old }
    ensures settled { beliefs.new ≡ settled (cells_written beliefs.old pasts.now) pasts.now beliefs.old pasts.now }
{
    let cells = beliefs.len();
    let mut at = beliefs.attribute_from(0);
    while at < cells {
        let place = settled_at(beliefs, pasts, at);
        beliefs.set(at, place);
        at = beliefs.attribute_from(at + 1);
    }
}

/// Carries out a Write; `pasts` must have nothing noted yet.
fn write_noting(beliefs: &mut CellBeliefs, pasts: &mut [BeforeWrite], command: &Command<'_>)
    requires held { IsHeld beliefs.old }
    requires size { cells_in command.now.size ≡ length beliefs.old }
    requires pasts { pasts.old ≡ replicate (length beliefs.old) never }
    ensures shadow { shadow_held true beliefs.new ≡ believed (beliefs_held beliefs.old 0 beliefs.old)
        (known_after (length beliefs.old) command.now.wcc command.now.orders (cells_known beliefs.old)) }
    ensures held { IsHeld beliefs.new }
    ensures size { length beliefs.new ≡ length beliefs.old }
{
    record_before(beliefs, pasts);
    reset_marks(beliefs, command.wcc());
    store(beliefs, pasts, command.orders(), command.size());
    settle(beliefs, pasts);
}

/// Carries out a Write.
pub(crate) fn write_over(beliefs: &mut CellBeliefs, command: &Command<'_>)
    requires held { IsHeld beliefs.old }
    requires size { cells_in command.now.size ≡ length beliefs.old }
    ensures shadow { shadow_held true beliefs.new ≡ believed (beliefs_held beliefs.old 0 beliefs.old)
        (known_after (length beliefs.old) command.now.wcc command.now.orders (cells_known beliefs.old)) }
    ensures held { IsHeld beliefs.new }
    ensures size { length beliefs.new ≡ length beliefs.old }
{
    let cells = beliefs.len();
    let mut pasts = [BeforeWrite {
        knowledge: NO_FIELD,
        fresh: false,
    }; MOST_CELLS];
    write_noting(beliefs, &mut pasts[..cells], command);
}

/// Carries out the orders of an erase on known nulls, all of which count as stored.
fn write_on_nulls(beliefs: &mut CellBeliefs, pasts: &mut [BeforeWrite], command: &Command<'_>)
    requires plain { is_plain command.now ≡ true }
    requires nulls { beliefs.old ≡ replicate (cells_in command.now.size) (KnownPlace 0) }
    requires pasts { pasts.old ≡ replicate (cells_in command.now.size) stored_past }
    ensures shadow { shadow_held true beliefs.new ≡ taken_erase command.now }
    ensures held { IsHeld beliefs.new }
    ensures size { length beliefs.new ≡ cells_in command.now.size }
{
    store(beliefs, pasts, command.orders(), command.size());
    settle(beliefs, pasts);
}

/// Carries out an Erase/Write or Erase/Write Alternate.
pub(crate) fn erase_over(beliefs: &mut CellBeliefs, command: &Command<'_>)
    requires { is_plain command.now ≡ true }
    ensures shadow { shadow_held true beliefs.new ≡ taken_erase command.now }
    ensures held { IsHeld beliefs.new }
    ensures size { length beliefs.new ≡ cells_in command.now.size }
{
    beliefs.clear(command.size());
    let cells = beliefs.len();
    let mut pasts = [BeforeWrite {
        knowledge: NO_FIELD,
        fresh: true,
    }; MOST_CELLS];
    write_on_nulls(beliefs, &mut pasts[..cells], command);
}
