//! What the host learns of the texts of a panel's fields.
ghost use Rattle.std.specs.Prelude.{◌≡◌, ◌≢◌, ◌<◌, ◌≤◌, ◌+◌, ◌++◌, ◌∷◌, [], true, false, length, Option, IfOk, IfSome, OnOk, OnErr, option_map, if◌then◌else◌, not, ◌==◌};
ghost use Rattle.std.specs.List.{list_any};
ghost use Rattle.std.specs.Option.{option_map_or};
ghost use Rattle.codes3270.specs.Size.{most_cells};
ghost use Rattle.datastream.specs.Inbound.{without_nulls};
ghost use Rattle.panels.specs.Characters.{AreCharacters};
ghost use Rattle.panels.specs.Panel.{HaveNumbersApart};
ghost use Rattle.panels.specs.Values.{set_if};
ghost use Rattle.shadow.specs.Queries.{kind_of};
ghost use Rattle.shadow.specs.Belief.{Belief};
ghost use Rattle.shadow.specs.Storable.{CanBeStored};
ghost use Rattle.host_core.specs.Acts.{first_missing, is_blank, is_in_doubt, is_settled_fact, learned, text_known};
ghost use Rattle.host_core.specs.Does.{Grow};
ghost use Rattle.host_core.specs.Learning.{is_missing_now, needs_room, HasField, HaveFields};

use arrayvec::ArrayVec;
use codes3270::MOST_CELLS;
use panels::{Field, Values};
use shadow::laws::what_is_believed_can_be_stored;
use shadow::{Fact, FieldText, Shadow};
use std::alloc::Global;
use telnet_wire::Memory;

/// Room for the text of any field, which is shorter than the largest screen.
type TextBuffer = ArrayVec<u8, MOST_CELLS>;

/// Whether a fact settles a field's text.
fn is_settled(fact: Option<Fact>) -> bool
    ensures { (known : Option Belief) → fact ≡ option_map (λ belief. kind_of belief.fact) known →
        result ≡ option_map_or (λ belief. is_settled_fact belief.fact) known false }
{
    match fact {
        Some(Fact::Exact | Fact::Text) => true,
        Some(Fact::ExactOrNulls | Fact::TextOrNulls | Fact::Any) | None => false,
    }
}

/// Whether a field's text isn't known.
pub(crate) fn is_in_doubt(shadow: &Shadow, field: &Field) -> bool
    requires { HasField shadow.now field.now }
    ensures { result ≡ is_in_doubt shadow.now field.now }
{
    !is_settled(shadow.fact(field.extent.attr()))
}

/// The characters of a field, nulls among them, if its text is known.
fn characters_known<'a>(shadow: &'a Shadow, field: &Field) -> Option<FieldText<'a>>
    requires stored { CanBeStored shadow.now }
    requires there { HasField shadow.now field.now }
    ensures text { option_map without_nulls result ≡ text_known shadow.now field.now }
    ensures characters { IfSome result (λ characters. AreCharacters (without_nulls characters)) }
    ensures few { IfSome result (λ characters. length characters < most_cells) }
{
    what_is_believed_can_be_stored();
    let attr = field.extent.attr();
    if !is_settled(shadow.fact(attr)) {
        return None;
    }
    Some(shadow.text(attr))
}

/// The count, one higher unless the character is a null.
fn counted(count: usize, byte: u8) -> usize
    requires { count < most_cells }
    ensures { result ≡ (if not (byte == 0) then count + 1 else count) }
{
    if byte != 0 { count + 1 } else { count }
}

/// The number of these characters that aren't nulls.
fn count_without_nulls(characters: FieldText<'_>) -> usize
    requires { length characters ≤ most_cells }
    ensures { result ≡ length (without_nulls characters.entry) }
{
    let mut count = 0;
    for byte in characters {
        count = counted(count, byte);
    }
    count
}

/// Whether a field's text is known and longer than the field's value.
fn needs_room(values: &Values, shadow: &Shadow, field: &Field) -> bool
    requires stored { CanBeStored shadow.now }
    requires there { HasField shadow.now field.now }
    ensures { result ≡ needs_room shadow.now values.now field.now }
{
    let Some(characters) = characters_known(shadow, field) else {
        return false;
    };
    match values.get(field.number) {
        Some(value) => value.len() < count_without_nulls(characters),
        None => true,
    }
}

/// Whether the known text of some of these fields is longer than the field's value.
fn any_needs_room(values: &Values, shadow: &Shadow, fields: &[Field]) -> bool
    requires stored { CanBeStored shadow.now }
    requires there { HaveFields shadow.now fields.now }
    ensures { result ≡ list_any (needs_room shadow.now values.now) fields.now }
{
    for field in fields {
        if needs_room(values, shadow, field) {
            return true;
        }
    }
    false
}

/// Appends a character, unless it is a null.
fn put_unless_null(text: &mut TextBuffer, byte: u8)
    requires { length text.old.items < most_cells }
    ensures { text.new.items ≡ (if not (byte == 0) then text.old.items ++ byte ∷ [] else text.old.items) }
{
    if byte != 0 {
        text.push(byte);
    }
}

/// Appends the characters that aren't nulls.
fn append_text(text: &mut TextBuffer, characters: FieldText<'_>)
    requires { length text.old.items + length characters ≤ most_cells }
    ensures { text.new.items ≡ text.old.items ++ without_nulls characters.entry }
{
    for byte in characters {
        put_unless_null(text, byte);
    }
}

/// Replaces a text by the characters that aren't nulls.
fn put_text(text: &mut TextBuffer, characters: FieldText<'_>)
    requires { length characters ≤ most_cells }
    ensures { text.new.items ≡ without_nulls characters.entry }
{
    text.clear();
    append_text(text, characters);
}

/// Sets a field's known text as its value, by way of a buffer whose contents don't matter.
fn learn(
    values: &mut Values,
    shadow: &Shadow,
    field: &Field,
    text: &mut TextBuffer,
) -> Result<(), Memory>
    requires stored { CanBeStored shadow.now }
    requires there { HasField shadow.now field.now }
    ensures values { OnOk result (values.new ≡ set_if field.now.number (text_known shadow.now field.now) values.old) }
    ensures memory { OnErr result (needs_room shadow.now values.old field.now ≡ true) }
{
    match characters_known(shadow, field) {
        Some(characters) => {
            put_text(text, characters);
            values.set(field.number, text.as_slice())
        }
        None => Ok(()),
    }
}

/// Sets the known texts of fields as their values, one by one. If memory is refused, only some are set.
pub(crate) fn learn_each(
    values: &mut Values,
    shadow: &Shadow,
    fields: &[Field],
) -> Result<(), Memory>
    requires stored { CanBeStored shadow.now }
    requires there { HaveFields shadow.now fields.now }
    requires numbers { HaveNumbersApart fields.now }
    ensures values { OnOk result (values.new ≡ learned shadow.now fields.now values.old) }
    ensures memory { OnErr result (list_any (needs_room shadow.now values.old) fields.now ≡ true) }
{
    let mut text = ArrayVec::new();
    for field in fields {
        learn(values, shadow, field, &mut text)?;
    }
    Ok(())
}

/// The known texts of these fields. Memory is needed only if there is one.
#[tactic(auto, using(crate::proofs::Learned::texts_want))]
pub(crate) fn texts_known(
    alloc: Global,
    shadow: &Shadow,
    fields: &[Field],
) -> Result<Values, Memory>
    requires stored { CanBeStored shadow.now }
    requires there { HaveFields shadow.now fields.now }
    requires numbers { HaveNumbersApart fields.now }
    ensures texts { IfOk result (λ texts. texts ≡ learned shadow.now fields.now []) }
    ensures memory { OnErr result (learned shadow.now fields.now [] ≢ []) }
{
    let mut texts = Values::new(alloc);
    learn_each(&mut texts, shadow, fields)?;
    Ok(texts)
}

/// Sets the known texts of fields as their values. Only values that grow need memory; if it is refused, none changes.
pub(crate) fn learn_all(
    values: &mut Values,
    shadow: &Shadow,
    fields: &[Field],
) -> Result<(), Memory>
    requires stored { CanBeStored shadow.now }
    requires there { HaveFields shadow.now fields.now }
    requires numbers { HaveNumbersApart fields.now }
    ensures values { OnOk result (values.new ≡ learned shadow.now fields.now values.old) }
    ensures memory { OnErr result (Grow values.old (learned shadow.now fields.now values.old)) }
    ensures err { OnErr result (values.new ≡ values.old) }
{
    if !any_needs_room(values, shadow, fields) {
        // Each text fits into the memory that its value has.
        return learn_each(values, shadow, fields);
    }
    let mut known = values.clone()?;
    learn_each(&mut known, shadow, fields)?;
    *values = known;
    Ok(())
}

/// Whether a value has blanks only, or is empty.
fn is_blank(value: &[u8]) -> bool
    ensures { result ≡ is_blank value.now }
{
    value.iter().all(|byte| *byte == BLANK)
}

/// A blank in EBCDIC.
const BLANK: u8 = 0x40;

/// Whether all of these characters are blanks or nulls.
fn are_blanks(characters: FieldText<'_>) -> bool
    ensures { result ≡ is_blank (without_nulls characters.entry) }
{
    for byte in characters {
        if byte != BLANK && byte != 0 {
            return false;
        }
    }
    true
}

/// Whether a field is required and isn't filled in, by its known text, or else by its value.
fn is_missing_now(values: &Values, shadow: &Shadow, field: &Field) -> bool
    requires stored { CanBeStored shadow.now }
    requires there { HasField shadow.now field.now }
    ensures { result ≡ is_missing_now shadow.now values.now field.now }
{
    if !field.required {
        return false;
    }
    match characters_known(shadow, field) {
        Some(characters) => are_blanks(characters),
        None => match values.get(field.number) {
            Some(value) => is_blank(value),
            None => true,
        },
    }
}

/// The number of the first required field that isn't filled in, by the known texts, or else by the values.
pub(crate) fn first_missing(values: &Values, shadow: &Shadow, fields: &[Field]) -> Option<usize>
    requires stored { CanBeStored shadow.now }
    requires there { HaveFields shadow.now fields.now }
    requires numbers { HaveNumbersApart fields.now }
    ensures { result ≡ first_missing (learned shadow.now fields.now values.now) fields.now }
{
    for field in fields {
        if is_missing_now(values, shadow, field) {
            return Some(field.number);
        }
    }
    None
}
