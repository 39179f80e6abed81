//! Which rule a terminal has broken, judged by its answer to Read Buffer.
ghost use Rattle.std.specs.Prelude.{◌≡◌, ◌<◌, ◌+◌, ◌++◌, Some, bytes_eq, drop, length, slice_index_or};
ghost use Rattle.codes3270.specs.declared.attribute.Attr.{Attr as Attribute};
ghost use Rattle.datastream.specs.Fields.{Field, fields as fields_in};
ghost use Rattle.shadow.specs.Belief.{Belief};
ghost use Rattle.datastream.specs.Inbound.{without_nulls};
ghost use Rattle.shadow.specs.declared.cell_belief.CellBelief.TheVariants.{Unknown};
ghost use Rattle.shadow.specs.declared.rule_break.Rule.TheVariants.{Applies};
ghost use Rattle.shadow.specs.InPlace.{belief_held, beliefs_held, chars_known, fact_held, known_text, IsHeld};
ghost use Rattle.shadow.specs.RuleBreaks.{break_at, first_break, input_rule as input_rule_broken, is_believed, is_erased, lesser, mdt_differs, protected_rule as protected_rule_broken};
ghost use Rattle.shadow.specs.Runs.{operator_rule_at, rule_at, rule_next};
ghost use Rattle.shadow.specs.Since.{beliefs_of_cells};

use crate::buffer::{is_other, is_other_text, next_char};
use crate::cell_belief::{CellBelief, TextKnowledge};
use crate::cell_beliefs::CellBeliefs;
use crate::field_text::{FieldText, TextPlaces};
use crate::mdt_state::MdtState;
use crate::rule_break::{Rule, RuleBreak};
use codes3270::{Attr, Cell};
use datastream::Cells;

/// Whether the characters that were read before the first attribute are all nulls; `whole` follows `rest`.
fn are_erased(rest: Cells<'_>, whole: Cells<'_>) -> bool
    ensures { result ≡ is_erased (known_text (chars_known (beliefs_of_cells rest.entry
        ++ beliefs_of_cells whole.entry))) }
{
    let mut rest = rest;
    let mut whole = whole;
    while let Some(char) = next_char(&mut rest, &mut whole) {
        if char != 0 {
            return false;
        }
    }
    true
}

/// Whether the characters that were read before the first attribute are this text.
fn are_told(told: FieldText<'_>, rest: Cells<'_>, whole: Cells<'_>) -> bool
    ensures { result
        ≡ bytes_eq told.entry (known_text (chars_known (beliefs_of_cells rest.entry ++ beliefs_of_cells whole.entry))) }
{
    let mut rest = rest;
    let mut whole = whole;
    for char in told {
        match next_char(&mut rest, &mut whole) {
            Some(read) if read == char => {}
            _ => return false,
        }
    }
    next_char(&mut rest, &mut whole).is_none()
}

/// Whether the characters that were read before the first attribute are this text once nulls are left out.
fn are_told_without_nulls(told: FieldText<'_>, rest: Cells<'_>, whole: Cells<'_>) -> bool
    ensures { result ≡ bytes_eq told.entry
        (without_nulls (known_text (chars_known (beliefs_of_cells rest.entry ++ beliefs_of_cells whole.entry)))) }
{
    let mut told = told;
    let mut rest = rest;
    let mut whole = whole;
    while let Some(read) = next_char(&mut rest, &mut whole) {
        if read != 0 {
            match told.next() {
                Some(char) if char == read => {}
                _ => return false,
            }
        }
    }
    told.next().is_none()
}

/// Whether the text that was read is the one that is believed of the field whose attribute is at `place`.
fn is_believed(
    beliefs: &CellBeliefs,
    place: usize,
    knowledge: TextKnowledge,
    rest: &Cells<'_>,
    whole: &Cells<'_>,
) -> bool
    requires { place < length beliefs.now }
    ensures { result ≡ is_believed (fact_held knowledge (drop (place + 1) beliefs.now ++ beliefs.now))
        (known_text (chars_known (beliefs_of_cells rest.now ++ beliefs_of_cells whole.now))) }
{
    match knowledge {
        TextKnowledge::Cells => !is_other_text(beliefs, place, rest, whole),
        TextKnowledge::ExactOrNulls => {
            let told = FieldText::new(beliefs.ahead(place), TextPlaces::Unplaced);
            are_told(told, rest.copy(), whole.copy())
        }
        TextKnowledge::Text => {
            let told = FieldText::new(beliefs.ahead(place), TextPlaces::Unplaced);
            are_told_without_nulls(told, rest.copy(), whole.copy())
        }
        TextKnowledge::TextOrNulls => {
            let told = FieldText::new(beliefs.ahead(place), TextPlaces::Unplaced);
            are_told_without_nulls(told, rest.copy(), whole.copy())
        }
    }
}

/// The rule that an unprotected field shows to be broken. It was read with the attribute `seen`; `mdt` and `knowledge`
/// are what is known of its MDT and its text.
fn input_rule(
    beliefs: &CellBeliefs,
    place: usize,
    mdt: MdtState,
    knowledge: TextKnowledge,
    seen: Attr,
    rest: &Cells<'_>,
    whole: &Cells<'_>,
) -> Option<Rule>
    requires { place < length beliefs.now }
    ensures { (attribute : Attribute) → result ≡ input_rule_broken
        (belief_held place attribute mdt knowledge (drop (place + 1) beliefs.now ++ beliefs.now)) (record {
          place = place;
          attr = seen;
          text = known_text (chars_known (beliefs_of_cells rest.now ++ beliefs_of_cells whole.now));
        }) }
{
    if seen.mdt || are_erased(rest.copy(), whole.copy()) {
        None
    } else if mdt == MdtState::On {
        Some(Rule::Sends)
    } else if is_believed(beliefs, place, knowledge, rest, whole) {
        None
    } else {
        Some(Rule::Edits)
    }
}

/// Whether the MDT that was read isn't the one that is believed.
fn mdt_differs(believed: MdtState, mdt: bool) -> bool
    ensures { result ≡ mdt_differs believed mdt }
{
    match believed {
        MdtState::On => !mdt,
        MdtState::Off => mdt,
        MdtState::Unknown => false,
    }
}

/// The rule that a protected field, read with the attribute `seen`, shows to be broken; `mdt`: its believed MDT.
fn protected_rule(mdt: MdtState, seen: Attr) -> Option<Rule>
    ensures { (belief : Belief) → (field : Field) → belief.mdt ≡ mdt → field.attr ≡ seen
        → result ≡ protected_rule_broken belief field }
{
    if mdt_differs(mdt, seen.mdt) {
        Some(Rule::Edits)
    } else {
        None
    }
}

/// The rule that the operator's changes in a field show to be broken, if the believed attribute was read at `place`.
fn operator_rule(
    beliefs: &CellBeliefs,
    place: usize,
    held: CellBelief,
    cell: Cell,
    rest: &Cells<'_>,
    whole: &Cells<'_>,
) -> Option<Rule>
    requires { place < length beliefs.now }
    ensures { result ≡ operator_rule_at place held cell (drop (place + 1) beliefs.now ++ beliefs.now)
        (known_text (chars_known (beliefs_of_cells rest.now ++ beliefs_of_cells whole.now))) }
{
    match (held, cell) {
        (CellBelief::Attr(attr, mdt, knowledge), Cell::Attr(seen)) => {
            if attr.protected {
                protected_rule(mdt, seen)
            } else {
                input_rule(beliefs, place, mdt, knowledge, seen, rest, whole)
            }
        }
        _ => None,
    }
}

/// The rule that a cell read at `place` shows to be broken; `rest` are the cells after it.
fn rule_broken(
    beliefs: &CellBeliefs,
    place: usize,
    cell: Cell,
    rest: &Cells<'_>,
    whole: &Cells<'_>,
) -> Option<Rule>
    requires placed { place < length beliefs.now }
    requires held { IsHeld beliefs.now }
    ensures { result ≡ rule_at place (slice_index_or beliefs.now place Unknown) cell (drop (place + 1) beliefs.now
        ++ beliefs.now) (known_text (chars_known (beliefs_of_cells rest.now ++ beliefs_of_cells whole.now))) }
{
    if is_other(beliefs, place, cell, rest, whole) {
        return Some(Rule::Applies);
    }
    operator_rule(beliefs, place, beliefs.get(place), cell, rest, whole)
}

/// The rule that the next cell that was read, whose address is `place`, shows to be broken; `None` at the end.
fn rule_next(
    beliefs: &CellBeliefs,
    place: usize,
    rest: &mut Cells<'_>,
    whole: &Cells<'_>,
) -> Option<Rule>
    requires placed { place + length rest.old ≡ length beliefs.now }
    requires held { IsHeld beliefs.now }
    ensures rule { result ≡ rule_next beliefs.now place rest.old whole.now }
    ensures left { rest.new ≡ drop 1 rest.old }
{
    match rest.next() {
        Some(cell) => rule_broken(beliefs, place, cell, rest, whole),
        None => None,
    }
}

/// The break if an attribute is believed at one address and was read at another: it is reported at the lower one.
fn misplaced(one: usize, other: usize) -> Option<RuleBreak>
    ensures { result ≡ break_at (lesser one other) (Some Applies) }
{
    Some(RuleBreak {
        rule: Rule::Applies,
        cell: if one < other { one } else { other },
    })
}

/// The first break, by address, that the cells that were read show.
pub(crate) fn first_break(beliefs: &CellBeliefs, cells: Cells<'_>) -> Option<RuleBreak>
    requires held { IsHeld beliefs.now }
    requires whole { length cells ≡ length beliefs.now }
    ensures { result ≡ first_break (beliefs_held beliefs.now 0 beliefs.now) (fields_in cells.entry) }
{
    let count = beliefs.len();
    let mut rest = cells.copy();
    let mut from = 0;
    while from < count {
        let place = beliefs.attribute_from(from);
        let found = from + rest.characters().len();
        if found != place {
            return misplaced(place, found);
        }
        if let Some(rule) = rule_next(beliefs, place, &mut rest, &cells) {
            return Some(RuleBreak { rule, cell: place });
        }
        from = place + 1;
    }
    None
}
