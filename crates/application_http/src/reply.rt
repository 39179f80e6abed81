//! Reads a reply from its JSON content.
ghost use Rattle.std.specs.Prelude.{◌≡◌, ◌++◌, ◌<◌, None, length, map, option_map, string_bytes, IfErr, IfOk, OnErr, OnOk};
ghost use Rattle.serde_json.specs.Data.{member, no_members};
ghost use Rattle.serde_json.specs.View.{items_view, members_view, view};
ghost use Rattle.application_http.specs.Replies.{HasTexts, IsBadContent, IsBadValue, IsStored, IsText, Says, SaysIn, answer_in, answer_of, are_texts, arrays_in, copies_in, field_text, fields_flaw, first_flaw, flag_at, is_field_value, key_flaw, name_of_copy, text_at, texts_in};

use crate::fault::{KeyFault, ReplyFault};
use crate::request::FieldText;
use serde_json::{Map, Value};
use std::alloc::{AllocError, Global};

/// An application's answer to a question. Each part may be absent.
#[derive(Drop)]
pub struct Reply {
    /// The name of the panel to show. If it is absent, the current panel is shown again.
    pub panel: Option<String>,
    /// The names of the repeated fields for which it has an array, in the order of their bytes.
    pub arrays: Vec<String>,
    /// Texts for fields, in the order of the bytes of the members' names. Those of an array `amount` are for
    /// `amount.1`, `amount.2` and so on.
    pub fields: Vec<FieldText>,
    /// A text for the message row.
    pub message: Option<String>,
    /// The name of the field in which to put the cursor.
    pub cursor: Option<String>,
    /// Whether the session ends once the terminal has taken this answer.
    pub end: bool,
    /// For how many seconds the application keeps the connection for the next request; 0 if it closes it or doesn't say.
    pub kept: u32,
}

/// Whether each of these values is a text.
fn are_texts(values: &[Value]) -> bool
    ensures { result ≡ are_texts (items_view values.now) }
{
    for value in values {
        if !value.is_string() {
            return false;
        }
    }
    true
}

/// Whether a value is a text, or an array of texts.
fn is_field_value(value: &Value) -> bool
    ensures { result ≡ is_field_value (view value.now) }
{
    match value {
        Value::String(_) => true,
        Value::Array(values) => are_texts(values.as_slice()),
        _ => false,
    }
}

/// What is wrong with the value of the key `fields`: it is no object, or has a member that isn't a text, nor an array of
/// texts. The first such member counts.
fn fields_flaw<'a>(key: &'a str, value: &'a Value) -> Option<(KeyFault, &'a str)>
    ensures { option_map (λ flaw. (flaw.0, flaw.1.now)) result ≡ fields_flaw key.now (view value.now) }
{
    let Some(members) = value.as_object() else {
        return Some((KeyFault::NotObject, key));
    };
    for (name, value) in members {
        if !is_field_value(value) {
            return Some((KeyFault::FieldNotText, name.as_str()));
        }
    }
    None
}

/// What is wrong with one key and its value.
fn key_flaw<'a>(key: &'a str, value: &'a Value) -> Option<(KeyFault, &'a str)>
    ensures { option_map (λ flaw. (flaw.0, flaw.1.now)) result ≡ key_flaw key.now (view value.now) }
{
    let what = match key {
        "panel" | "message" | "cursor" if value.is_string() => return None,
        "panel" | "message" | "cursor" => KeyFault::NotText,
        "end" if value.is_boolean() => return None,
        "end" => KeyFault::NotBoolean,
        "fields" => return fields_flaw(key, value),
        _ => KeyFault::UnknownKey,
    };
    Some((what, key))
}

/// The first flaw of an object, in the order of the keys' bytes.
fn first_flaw(members: &Map<String, Value>) -> Option<(KeyFault, &str)>
    ensures { option_map (λ flaw. (flaw.0, flaw.1.now)) result ≡ first_flaw (members_view members.now.entries) }
{
    for (key, value) in members {
        if let Some(flaw) = key_flaw(key.as_str(), value) {
            return Some(flaw);
        }
    }
    None
}

/// A copy of a text; an empty one takes no memory.
pub fn copy_of(alloc: Global, text: &str) -> Result<String, AllocError>
    ensures copy { IfOk result (λ copy. string_bytes copy ≡ text.now) }
    ensures refused { OnErr result (0 < length text.now) }
{
    let mut copy = String::new(alloc);
    copy.push_str(text)?;
    Ok(copy)
}

/// A copy of the text at a key.
fn text_at(alloc: Global, value: &Value, key: &str) -> Result<Option<String>, AllocError>
    ensures copy { IfOk result (λ text. option_map string_bytes text ≡ text_at key.now (view value.now)) }
    ensures refused { OnErr result (IsText (text_at key.now (view value.now))) }
{
    match value.get(key).and_then(Value::as_str) {
        Some(text) => Ok(Some(copy_of(alloc, text)?)),
        None => Ok(None),
    }
}

/// The boolean at a key; false if there is none.
fn flag_at(value: &Value, key: &str) -> bool
    ensures { result ≡ flag_at key.now (view value.now) }
{
    matches!(value.get(key), Some(Value::Bool(true)))
}

/// A copy of a field's name and text.
fn field_of(alloc: Global, name: &str, text: &str) -> Result<FieldText, AllocError>
    ensures { IfOk result (λ field. field_text field ≡ (name.now, text.now)) }
{
    Ok(FieldText {
        name: copy_of(alloc, name)?,
        text: copy_of(alloc, text)?,
    })
}

/// The name and the text of a copy of a repeated field; the copies count from 1.
fn copy_text(alloc: Global, stem: &str, number: usize, text: &str) -> Result<FieldText, AllocError>
    ensures { IfOk result (λ field. field_text field ≡ (name_of_copy stem.now number, text.now)) }
{
    Ok(FieldText {
        name: format!(in alloc; "{stem}.{number}")?,
        text: copy_of(alloc, text)?,
    })
}

/// Adds the texts of an array: one for each copy of a repeated field.
fn add_copies(
    alloc: Global,
    stem: &str,
    values: &[Value],
    texts: &mut Vec<FieldText>,
) -> Result<(), AllocError>
    ensures { OnOk result (map field_text texts.new.items
        ≡ map field_text texts.old.items ++ copies_in stem.now 1 (items_view values.now)) }
{
    for (index, value) in values.iter().enumerate() {
        if let Some(text) = value.as_str() {
            texts.push(copy_text(alloc, stem, index + 1, text)?)?;
        }
    }
    Ok(())
}

/// Adds the text of a field, or the name of a repeated one and the texts of its copies.
fn add_member(
    alloc: Global,
    name: &str,
    value: &Value,
    arrays: &mut Vec<String>,
    texts: &mut Vec<FieldText>,
) -> Result<(), AllocError>
    ensures arrays { OnOk result (map string_bytes arrays.new.items
        ≡ map string_bytes arrays.old.items ++ arrays_in (member name.now (view value.now) no_members)) }
    ensures texts { OnOk result (map field_text texts.new.items
        ≡ map field_text texts.old.items ++ texts_in (member name.now (view value.now) no_members)) }
    ensures refused { OnErr result (HasTexts (member name.now (view value.now) no_members)) }
{
    match value {
        Value::String(text) => Ok(texts.push(field_of(alloc, name, text.as_str())?)?),
        Value::Array(values) => {
            arrays.push(copy_of(alloc, name)?)?;
            add_copies(alloc, name, values.as_slice(), texts)
        }
        _ => Ok(()),
    }
}

/// Adds the names of the repeated fields that have arrays, and the texts of all fields.
fn add_fields(
    alloc: Global,
    members: &Map<String, Value>,
    arrays: &mut Vec<String>,
    texts: &mut Vec<FieldText>,
) -> Result<(), AllocError>
    ensures arrays { OnOk result (map string_bytes arrays.new.items
        ≡ map string_bytes arrays.old.items ++ arrays_in (members_view members.now.entries)) }
    ensures texts { OnOk result (map field_text texts.new.items
        ≡ map field_text texts.old.items ++ texts_in (members_view members.now.entries)) }
    ensures refused { OnErr result (HasTexts (members_view members.now.entries)) }
{
    for (name, value) in members {
        add_member(alloc, name.as_str(), value, arrays, texts)?;
    }
    Ok(())
}

/// The reply that a valid object represents.
fn reply_of(alloc: Global, value: &Value) -> Result<Reply, AllocError>
    ensures said { IfOk result (λ reply. answer_in reply ≡ answer_of (view value.now)) }
    ensures refused { OnErr result (IsStored None (answer_of (view value.now))) }
{
    let mut arrays = Vec::new(alloc);
    let mut fields = Vec::new(alloc);
    if let Some(members) = value.get("fields").and_then(Value::as_object) {
        add_fields(alloc, members, &mut arrays, &mut fields)?;
    }
    Ok(Reply {
        panel: text_at(alloc, value, "panel")?,
        arrays,
        fields,
        message: text_at(alloc, value, "message")?,
        cursor: text_at(alloc, value, "cursor")?,
        end: flag_at(value, "end"),
        kept: 0,
    })
}

/// The reply that a JSON value represents.
fn reply_in(alloc: Global, value: &Value) -> Result<Reply, ReplyFault>
    ensures said { IfOk result (λ reply. SaysIn (view value.now) (answer_in reply)) }
    ensures bad { IfErr result (IsBadValue (view value.now)) }
{
    let Some(members) = value.as_object() else {
        return Err(ReplyFault::NotJson);
    };
    match first_flaw(members) {
        Some((what, key)) => Err(ReplyFault::Key {
            what,
            key: copy_of(alloc, key)?,
        }),
        None => Ok(reply_of(alloc, value)?),
    }
}

/// The reply that the bytes of a content represent. The head says whether its connection is kept.
pub(crate) fn read_reply(alloc: Global, content: &[u8]) -> Result<Reply, ReplyFault>
    ensures said { IfOk result (λ reply. Says content.now (answer_in reply)) }
    ensures bad { IfErr result (IsBadContent content.now) }
{
    match Value::from_slice(alloc, content) {
        Ok(value) => reply_in(alloc, &value),
        Err(fault) if fault.is_memory() => Err(ReplyFault::Memory),
        Err(_) => Err(ReplyFault::NotJson),
    }
}
