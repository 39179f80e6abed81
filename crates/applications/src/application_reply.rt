//! Turns an application's reply, with its names and Unicode texts, into an answer for the host, with numbers and bytes.
ghost use Rattle.std.specs.BTreeMap.{insert_entry};
ghost use Rattle.std.specs.Ordering.{nat_cmp};
ghost use Rattle.std.specs.Prelude.{◌≡◌, ◌<◌, IfErr, IfOk, OnErr, OnOk, chars, false, length, map, option_and_then, option_copied, option_map, string_bytes, take, true};
ghost use Rattle.application_http.specs.Replies.{field_text, name_of_copy};
ghost use Rattle.panels.specs.Characters.{codes_of};
ghost use Rattle.panels.specs.MessageText.{message_of};
ghost use Rattle.panels.specs.Values.{value_of};
ghost use Rattle.applications.specs.Applications.{AreKnownArrays, AreKnownTexts, IsAnswerFault, IsAnswerFor, IsArrayFault, IsFirstArrayFault, IsFirstTextFault, IsFirstValueFault, IsKnown, IsTextFault, IsUnknown, TakesMemory, as_byte, first_field_replaced, first_replaced, is_known_array, is_known_text, message_bytes, message_in, most_characters, most_copies, number_on, panel_number, telling, value_by, values_of_reply, with_arrays, with_copies_emptied, with_copy_emptied, with_text, with_texts};
ghost use Rattle.applications.specs.PlainTexts.{plain_text};
ghost use Rattle.applications.specs.declared.application_reply.AnswerFault.TheVariants as flaw;

use crate::plain_text::{count_without_code, lacks_code, plain_text};
use application_http::{FieldText, Reply, copy_of};
use codes3270::from_latin1;
use host_core::Answer;
use panels::{MessageText, PanelSet, Values};
use std::alloc::{AllocError, Global};
use thiserror::Error;

/// The most characters of a field's text: the number of cells of the largest screen, model 5.
const MOST_CHARACTERS: usize = 3_564;

/// Why the host can't carry out a reply. Prints as one word, without the key.
#[derive(Debug, Drop, PartialEq, Eq, Error)]
pub enum AnswerFault {
    /// Memory was refused for a part of the reply that must be stored: a text, a field's first value, or a name, of a
    /// copy or of an unknown field.
    #[error("no-memory")]
    Memory,
    /// There is no panel with this name.
    #[error("unknown-panel")]
    UnknownPanel,
    /// The reply puts the cursor in a field that the panel doesn't have.
    #[error("unknown-field")]
    UnknownCursor,
    /// There is no field or value with this name.
    #[error("unknown-field")]
    UnknownField(String),
    /// The reply has an array for the field or value with this name, which has no copies.
    #[error("field-not-array")]
    FieldNotArray(String),
}

/// The characters of a reply that are replaced, because code page 037 doesn't have them.
#[derive(Clone, Copy, Debug, PartialEq, Eq)]
pub struct Replaced<'a> {
    /// The first key whose text has such a character: `message`, or the name of a field.
    pub key: &'a str,
    /// The number of such characters in the whole reply.
    pub characters: usize,
}

impl From<AllocError> for AnswerFault {
    ghost use Rattle.applications.specs.declared.application_reply.AnswerFault.TheVariants.{Memory};

    ghost from_gives = { λ _ fault. fault ≡ Memory };

    fn from(_: AllocError) -> AnswerFault {
        AnswerFault::Memory
    }
}

/// The codes of a text's characters; a character without a code is left out. An empty text takes no memory.
#[tactic(auto, using(crate::proofs::Replies::no_codes))]
fn codes_of(alloc: Global, text: &str) -> Result<Vec<u8>, AllocError>
    ensures codes { IfOk result (λ codes. codes.items ≡ codes_of (chars text.now)) }
    ensures memory { OnErr result (0 < length text.now) }
{
    if text.is_empty() {
        return Ok(Vec::new(alloc));
    }
    text.chars()
        .filter_map(|character| from_latin1(character))
        .collect(alloc)
}

/// The start of a field's text, as much as the largest screen can show.
fn cut(codes: &[u8]) -> &[u8]
    ensures { result.now ≡ take most_characters codes.now }
{
    if codes.len() < MOST_CHARACTERS {
        codes
    } else {
        &codes[..MOST_CHARACTERS]
    }
}

/// Sets the value of a field to a text, converted to codes. An empty text takes memory only if the field has no value
/// yet.
#[tactic(auto, using(crate::proofs::Replies::takes_memory, crate::proofs::Replies::value_takes_memory))]
pub(crate) fn set_text(
    alloc: Global,
    field: usize,
    text: &str,
    values: &mut Values,
) -> Result<(), AllocError>
    ensures set { OnOk result (values.new ≡ insert_entry nat_cmp values.old field (value_by text.now)) }
    ensures memory { OnErr result (TakesMemory (value_of values.old field) text.now) }
{
    let codes = codes_of(alloc, text)?;
    values.set(field, cut(codes.as_slice()))
}

/// Sets the value of the field or value with this name to its text, in plain characters.
#[tactic(auto, using(crate::proofs::Replies::takes_memory, crate::proofs::Replies::plain_takes))]
fn set_value(
    alloc: Global,
    panels: &PanelSet,
    field: &FieldText,
    values: &mut Values,
) -> Result<(), AnswerFault>
    ensures set { OnOk result (values.new ≡ with_text panels.now (field_text field.now) values.old) }
    ensures known { OnOk result (is_known_text panels.now (field_text field.now) ≡ true) }
    ensures wrong { IfErr result (IsTextFault panels.now values.old (field_text field.now)) }
{
    let name = field.name.as_str();
    let Some(number) = panels.number_named(name) else {
        return Err(AnswerFault::UnknownField(copy_of(alloc, name)?));
    };
    let text = plain_text(alloc, field.text.as_str())?;
    set_text(alloc, number, text.as_str(), values)?;
    Ok(())
}

/// Sets the values of these fields. The first fault ends the call.
fn set_values(
    alloc: Global,
    panels: &PanelSet,
    fields: &[FieldText],
    values: &mut Values,
) -> Result<(), AnswerFault>
    ensures set { OnOk result (values.new ≡ with_texts panels.now fields.now values.old) }
    ensures known { OnOk result (AreKnownTexts panels.now fields.now) }
    ensures wrong { IfErr result (IsFirstTextFault panels.now values.old fields.now) }
{
    for field in fields {
        set_value(alloc, panels, field, values)?;
    }
    Ok(())
}

/// The name of a copy of a repeated field or value.
fn name_of_copy(alloc: Global, stem: &str, place: u8) -> Result<String, AllocError>
    ensures { IfOk result (λ name. string_bytes name ≡ name_of_copy stem.now place) }
{
    format!(in alloc; "{stem}.{place}")
}

/// Empties a copy of a repeated field or value, if there is one at this place; places count from 1.
fn empty_copy(
    alloc: Global,
    panels: &PanelSet,
    stem: &str,
    place: u8,
    values: &mut Values,
) -> Result<(), AllocError>
    ensures { OnOk result (values.new ≡ with_copy_emptied panels.now stem.now place values.old) }
{
    let name = name_of_copy(alloc, stem, place)?;
    if let Some(number) = panels.number_named(name.as_str()) {
        values.set(number, &[])?;
    }
    Ok(())
}

/// Empties the first `count` copies of a repeated field or value.
fn empty_copies(
    alloc: Global,
    panels: &PanelSet,
    stem: &str,
    count: u8,
    values: &mut Values,
) -> Result<(), AllocError>
    ensures { OnOk result (values.new ≡ with_copies_emptied panels.now stem.now count values.old) }
{
    for index in 0..count {
        empty_copy(alloc, panels, stem, index + 1, values)?;
    }
    Ok(())
}

/// The most rows of a repeated field or value.
fn most_copies() -> u8
    ensures { result ≡ most_copies }
{
    42
}

/// Whether some panel has a repeated field or value with this name.
fn is_known_array(alloc: Global, panels: &PanelSet, stem: &str) -> Result<bool, AllocError>
    ensures { IfOk result (λ is_known. is_known ≡ is_known_array panels.now stem.now) }
{
    let first = name_of_copy(alloc, stem, 1)?;
    Ok(panels.number_named(first.as_str()).is_some())
}

/// Why no array can be set that has this name: the field or value with it has no copies, or there is none.
fn array_fault(alloc: Global, panels: &PanelSet, stem: &str) -> Result<AnswerFault, AllocError>
    ensures { is_known_array panels.now stem.now ≡ false → IfOk result (IsArrayFault panels.now stem.now) }
{
    let name = copy_of(alloc, stem)?;
    if panels.number_named(stem).is_some() {
        Ok(AnswerFault::FieldNotArray(name))
    } else {
        Ok(AnswerFault::UnknownField(name))
    }
}

/// Empties each copy of the repeated field or value with this name, for which a reply has an array.
fn set_array(
    alloc: Global,
    panels: &PanelSet,
    stem: &str,
    values: &mut Values,
) -> Result<(), AnswerFault>
    ensures set { OnOk result (values.new ≡ with_copies_emptied panels.now stem.now most_copies values.old) }
    ensures known { OnOk result (is_known_array panels.now stem.now ≡ true) }
    ensures wrong { IfErr result (IsArrayFault panels.now stem.now) }
{
    if !is_known_array(alloc, panels, stem)? {
        return Err(array_fault(alloc, panels, stem)?);
    }
    empty_copies(alloc, panels, stem, most_copies(), values)?;
    Ok(())
}

/// Empties the copies of the repeated fields and values with these names. The first fault ends the call.
fn set_arrays(
    alloc: Global,
    panels: &PanelSet,
    stems: &[String],
    values: &mut Values,
) -> Result<(), AnswerFault>
    ensures set { OnOk result (values.new ≡ with_arrays panels.now (map string_bytes stems.now) values.old) }
    ensures known { OnOk result (AreKnownArrays panels.now (map string_bytes stems.now)) }
    ensures wrong { IfErr result (IsFirstArrayFault panels.now (map string_bytes stems.now)) }
{
    for stem in stems {
        set_array(alloc, panels, stem.as_str(), values)?;
    }
    Ok(())
}

/// The values that a reply sets: of its arrays, and then of its fields. The first fault ends the call.
fn values_of(alloc: Global, panels: &PanelSet, reply: &Reply) -> Result<Values, AnswerFault>
    ensures set { IfOk result (λ values. values ≡ values_of_reply panels.now reply.now) }
    ensures arrays { OnOk result (AreKnownArrays panels.now (map string_bytes reply.now.arrays.items)) }
    ensures known { OnOk result (AreKnownTexts panels.now reply.now.fields.items) }
    ensures wrong { IfErr result (IsFirstValueFault panels.now reply.now) }
{
    let mut values = Values::new(alloc);
    set_arrays(alloc, panels, reply.arrays.as_slice(), &mut values)?;
    set_values(alloc, panels, reply.fields.as_slice(), &mut values)?;
    Ok(values)
}

/// The number of the panel that a reply names, if it names one.
fn panel_of(panels: &PanelSet, name: Option<&str>) -> Result<Option<usize>, AnswerFault>
    ensures found { IfOk result
        (λ panel. panel ≡ option_and_then (panel_number panels.now) (option_map (λ it. it.now) name.entry)) }
    ensures known { OnOk result (IsKnown (panel_number panels.now) (option_map (λ it. it.now) name.entry)) }
    ensures wrong { IfErr result (λ why. (why ≡ flaw.UnknownPanel)
        × IsUnknown (panel_number panels.now) (option_map (λ it. it.now) name.entry)) }
{
    let Some(name) = name else {
        return Ok(None);
    };
    match panels.panel_named(name) {
        Some(number) => Ok(Some(number)),
        None => Err(AnswerFault::UnknownPanel),
    }
}

/// The number of a panel's field with this name.
fn number_on(panels: &PanelSet, panel: usize, name: &str) -> Option<usize>
    ensures { result ≡ number_on panels.now panel name.now }
{
    let field = panels.panel(panel)?.field_named(name)?;
    Some(field.number)
}

/// The number of the panel's field in which a reply puts the cursor, if it does.
fn cursor_of(
    panels: &PanelSet,
    panel: usize,
    name: Option<&str>,
) -> Result<Option<usize>, AnswerFault>
    ensures found { IfOk result
        (λ cursor. cursor ≡ option_and_then (number_on panels.now panel) (option_map (λ it. it.now) name.entry)) }
    ensures known { OnOk result (IsKnown (number_on panels.now panel) (option_map (λ it. it.now) name.entry)) }
    ensures wrong { IfErr result (λ why. (why ≡ flaw.UnknownCursor)
        × IsUnknown (number_on panels.now panel) (option_map (λ it. it.now) name.entry)) }
{
    let Some(name) = name else {
        return Ok(None);
    };
    match number_on(panels, panel, name) {
        Some(number) => Ok(Some(number)),
        None => Err(AnswerFault::UnknownCursor),
    }
}

/// A character as one byte; None if it is not one of U+0000 to U+00FF.
fn as_byte(character: char) -> Option<u8>
    ensures { result ≡ as_byte character }
{
    u8::try_from(character).ok()
}

/// The characters of a message as bytes. Those beyond U+00FF, which have no code, are left out. An empty message takes
/// no memory.
#[tactic(auto, using(crate::proofs::Replies::no_bytes))]
pub(crate) fn message_bytes(alloc: Global, text: &str) -> Result<Vec<u8>, AllocError>
    ensures bytes { IfOk result (λ bytes. bytes.items ≡ message_bytes text.now) }
    ensures memory { OnErr result (0 < length text.now) }
{
    if text.is_empty() {
        return Ok(Vec::new(alloc));
    }
    text.chars()
        .filter_map(|character| as_byte(character))
        .collect(alloc)
}

/// The message of a reply, in plain characters. An empty one takes no memory.
#[tactic(auto, using(crate::proofs::Replies::plain_is_of_a_text))]
fn message_of(alloc: Global, text: &str) -> Result<MessageText, AllocError>
    ensures memory { OnErr result (0 < length text.now) }
    ensures message { IfOk result (λ message. message.characters ≡ message_of (message_bytes (plain_text text.now))) }
{
    let text = plain_text(alloc, text)?;
    let characters = message_bytes(alloc, text.as_str())?;
    Ok(MessageText::new(characters.as_slice()))
}

/// The text of an optional string.
pub(crate) fn text_of(text: &Option<String>) -> Option<&str>
    ensures { option_map (λ it. it.now) result ≡ option_map string_bytes text.now }
{
    match text {
        Some(text) => Some(text.as_str()),
        None => None,
    }
}

/// The text of a reply's message; empty if it has none.
fn message_in(reply: &Reply) -> &str
    ensures { result.now ≡ message_in reply.now }
{
    text_of(&reply.message).unwrap_or("")
}

/// The host's answer for a reply, if the panel with this number is on the screen. It looks up the reply's panel, then
/// the cursor's field, then converts the message, the arrays and the fields. The first fault in this order is returned.
#[tactic(auto, using(crate::proofs::Replies::fields_refused, crate::proofs::Replies::message_refused))]
pub(crate) fn answer_of(
    alloc: Global,
    panels: &PanelSet,
    shown: usize,
    reply: &Reply,
) -> Result<Answer, AnswerFault>
    ensures answer { IfOk result (IsAnswerFor panels.now shown reply.now) }
    ensures refused { IfErr result (IsAnswerFault panels.now shown reply.now) }
{
    let panel = panel_of(panels, text_of(&reply.panel))?;
    let cursor = cursor_of(panels, panel.unwrap_or(shown), text_of(&reply.cursor))?;
    let message = message_of(alloc, message_in(reply))?;
    let values = values_of(alloc, panels, reply)?;
    Ok(Answer {
        panel,
        values,
        message,
        cursor,
    })
}

/// The name of the first field whose text has a character that is replaced.
fn first_field_replaced(fields: &[FieldText]) -> Option<&str>
    ensures { option_copied result ≡ first_field_replaced fields.now }
{
    for field in fields {
        if lacks_code(field.text.as_str()) {
            return Some(field.name.as_str());
        }
    }
    None
}

/// The first key whose text has a character that is replaced: `message`, or the name of a field.
fn first_replaced(reply: &Reply) -> Option<&str>
    ensures { option_copied result ≡ first_replaced reply.now }
{
    if lacks_code(message_in(reply)) {
        Some("message")
    } else {
        first_field_replaced(reply.fields.as_slice())
    }
}

/// What is replaced in a reply; None if nothing is.
pub fn replaced_in(reply: &Reply) -> Option<Replaced<'_>>
    ensures { option_map (λ replaced. replaced.key.now) result ≡ first_replaced reply.now }
{
    let key = first_replaced(reply)?;
    let mut characters = count_without_code(message_in(reply));
    for field in reply.fields.as_slice() {
        characters = characters.saturating_add(count_without_code(field.text.as_str()));
    }
    Some(Replaced { key, characters })
}

/// The answer that shows the current panel again, with a message.
pub(crate) fn telling(alloc: Global, message: &str) -> Answer
    ensures { result ≡ telling message.now }
{
    Answer {
        panel: None,
        values: Values::new(alloc),
        message: MessageText::new(message.as_bytes()),
        cursor: None,
    }
}
