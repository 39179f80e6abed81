//! The HTTP request to an application for a question.
ghost use Rattle.std.specs.Prelude.{◌≡◌, IfOk, OnOk, codes, false, option_map, string_bytes};
ghost use Rattle.serde_json.specs.Data.{no_members, number, object, put, string, unsigned};
ghost use Rattle.serde_json.specs.View.{members_view, view};
ghost use Rattle.serde_json.specs.Written.{compact_text, has_float};
ghost use Rattle.application_http.specs.Requests.{copies_of, copy_name, cursor_data, fields_data, is_copy_of, post_bytes, question_data, request_bytes, strings, terminal_data, with_client, with_field, with_numbers, with_strings};

use crate::endpoint::Endpoint;
use serde_json::{Map, Value};
use std::alloc::{AllocError, Global};

/// A field's name and its text, in Unicode.
#[derive(Drop)]
pub struct FieldText {
    /// The name that the panel gives the field; that of the second copy of a repeated field `amount` is `amount.2`.
    pub name: String,
    /// The text of the field.
    pub text: String,
}

/// The model of the 3278 that a terminal asked for, and the size of that model's screen.
#[derive(Clone, Copy)]
pub struct Terminal {
    /// The model's number, 2 to 5.
    pub model: u8,
    /// The number of rows.
    pub rows: u16,
    /// The number of cells of a row.
    pub cols: u16,
}

/// A question: what the operator sees, the key that was pressed, and who asks.
#[derive(Clone, Copy)]
pub struct Request<'a> {
    /// The session's name, which no other session has.
    pub session: &'a str,
    /// The number of the turn on this connection.
    pub turn: u16,
    /// The LU that the terminal is bound to.
    pub lu: &'a str,
    /// The panel's name.
    pub panel: &'a str,
    /// The key: `enter`, `clear`, `pf1` to `pf24`, `pa1` to `pa3`; `connect` before a first panel is shown.
    pub key: &'a str,
    /// The cursor's row, 1-based.
    pub row: u16,
    /// The cursor's column, 1-based.
    pub col: u16,
    /// The panel's fields. If two have one name, the later one is sent. Where `amount.1` stands, an array `amount` is
    /// sent, of the texts of all whose names begin with `amount.`, in their order; of those nothing else is sent.
    pub fields: &'a [FieldText],
    /// The operator's terminal.
    pub terminal: Terminal,
    /// The address of the terminal's client, if it is known.
    pub client: Option<&'a str>,
}

/// The name of a copy of a field, as `amount.2`, in two parts: that of the field, and the copy's number; `None` for a
/// field that isn't repeated.
fn copy_name(name: &str) -> Option<(&str, &str)>
    ensures { option_map (λ parts. (parts.0.now, parts.1.now)) result ≡ copy_name name.now }
{
    name.split_once('.')
}

/// Whether a name is that of a copy of the field `stem`.
fn is_copy_of(stem: &str, name: &str) -> bool
    ensures { result ≡ is_copy_of stem.now name.now }
{
    match copy_name(name) {
        Some((field, _)) => field == stem,
        None => false,
    }
}

/// The JSON array of the texts of a field's copies.
fn copies_value(alloc: Global, stem: &str, fields: &[FieldText]) -> Result<Value, AllocError>
    ensures { IfOk result (λ value. view value ≡ strings (copies_of stem.now fields.now)) }
{
    let mut texts = Vec::new(alloc);
    for field in fields {
        if is_copy_of(stem, field.name.as_str()) {
            texts.push(Value::try_from_str(alloc, field.text.as_str())?)?;
        }
    }
    Ok(Value::Array(texts))
}

/// Puts one of these fields into an object: its text, or at the first copy of a field an array of the texts of all
/// copies.
fn put_field(
    texts: &mut Map<String, Value>,
    alloc: Global,
    fields: &[FieldText],
    field: &FieldText,
) -> Result<(), AllocError>
    ensures { OnOk result
        (members_view texts.new.entries ≡ with_field fields.now field.now (members_view texts.old.entries)) }
{
    let name = field.name.as_str();
    let Some((stem, number)) = copy_name(name) else {
        return put_texts(texts, alloc, &[(name, field.text.as_str())]);
    };
    if number == "1" {
        let copies = copies_value(alloc, stem, fields)?;
        serde_json::put(texts, alloc, stem, copies)?;
    }
    Ok(())
}

/// The JSON object of the fields.
fn fields_value(alloc: Global, fields: &[FieldText]) -> Result<Value, AllocError>
    ensures { IfOk result (λ value. view value ≡ fields_data fields.now) }
{
    let mut texts = Map::new(alloc);
    for field in fields {
        put_field(&mut texts, alloc, fields, field)?;
    }
    Ok(Value::Object(texts))
}

/// Puts texts into an object, each at its key.
pub(crate) fn put_texts(
    members: &mut Map<String, Value>,
    alloc: Global,
    texts: &[(&str, &str)],
) -> Result<(), AllocError>
    ensures { OnOk result
        (members_view members.new.entries ≡ with_strings texts.now (members_view members.old.entries)) }
{
    for (key, text) in texts {
        let value = Value::try_from_str(alloc, text)?;
        serde_json::put(members, alloc, key, value)?;
    }
    Ok(())
}

/// The JSON object of numbers, each at its key.
fn numbers_value(alloc: Global, numbers: &[(&str, u16)]) -> Result<Value, AllocError>
    ensures { IfOk result (λ value. view value ≡ object (with_numbers numbers.now no_members)) }
{
    let mut members = Map::new(alloc);
    for (key, number) in numbers {
        serde_json::put(&mut members, alloc, key, Value::from(*number))?;
    }
    Ok(Value::Object(members))
}

/// Puts what was asked into an object: the texts, the turn, and the cursor.
fn put_question(
    members: &mut Map<String, Value>,
    alloc: Global,
    request: &Request<'_>,
) -> Result<(), AllocError>
    ensures { OnOk result (members_view members.new.entries
        ≡ put (codes "cursor") (cursor_data request.now.row request.now.col)
        (put (codes "turn") (number (unsigned request.now.turn))
        (put (codes "key") (string request.now.key.now) (put (codes "panel") (string request.now.panel.now)
        (put (codes "lu") (string request.now.lu.now) (put (codes "session") (string request.now.session.now)
        (members_view members.old.entries))))))) }
{
    let texts = [
        ("session", request.session),
        ("lu", request.lu),
        ("panel", request.panel),
        ("key", request.key),
    ];
    put_texts(members, alloc, &texts)?;
    serde_json::put(members, alloc, "turn", Value::from(request.turn))?;
    let cursor = numbers_value(alloc, &[("row", request.row), ("col", request.col)])?;
    serde_json::put(members, alloc, "cursor", cursor)
}

/// The JSON object of the terminal.
fn terminal_value(alloc: Global, terminal: Terminal) -> Result<Value, AllocError>
    ensures { IfOk result (λ value. view value ≡ terminal_data terminal) }
{
    let Terminal { model, rows, cols } = terminal;
    let numbers = [("model", u16::from(model)), ("rows", rows), ("cols", cols)];
    numbers_value(alloc, &numbers)
}

/// Puts who asks into an object: the terminal, and the client's address, if it is known.
fn put_asker(
    members: &mut Map<String, Value>,
    alloc: Global,
    request: &Request<'_>,
) -> Result<(), AllocError>
    ensures { OnOk result
        (members_view members.new.entries ≡ with_client (option_map (λ it. it.now) request.now.client)
        (put (codes "terminal") (terminal_data request.now.terminal) (members_view members.old.entries))) }
{
    let terminal = terminal_value(alloc, request.terminal)?;
    serde_json::put(members, alloc, "terminal", terminal)?;
    match request.client {
        Some(client) => put_texts(members, alloc, &[("client", client)]),
        None => Ok(()),
    }
}

/// The JSON object of a question.
fn question_value(alloc: Global, request: &Request<'_>) -> Result<Value, AllocError>
    ensures { IfOk result (λ value. view value ≡ question_data request.now) }
{
    let fields = fields_value(alloc, request.fields)?;
    let mut members = Map::new(alloc);
    put_question(&mut members, alloc, request)?;
    serde_json::put(&mut members, alloc, "fields", fields)?;
    put_asker(&mut members, alloc, request)?;
    Ok(Value::Object(members))
}

/// The bytes of a request with the text of a JSON value, for the application at an endpoint.
pub(crate) fn post_text(
    alloc: Global,
    endpoint: &Endpoint,
    value: &Value,
) -> Result<String, AllocError>
    requires { has_float (view value.now) ≡ false }
    ensures { IfOk result
        (λ text. string_bytes text ≡ post_bytes endpoint.now (compact_text (view value.now))) }
{
    let body = value.to_string(alloc)?;
    let mut text = String::new(alloc);
    endpoint.put_first_line(&mut text)?;
    endpoint.put_fields(&mut text, body.len())?;
    text.push_str(body.as_str())?;
    Ok(text)
}

/// The bytes of a request, head and body, for the application at an endpoint.
pub fn request_text(
    alloc: Global,
    endpoint: &Endpoint,
    request: &Request<'_>,
) -> Result<String, AllocError>
    ensures { IfOk result (λ text. string_bytes text ≡ request_bytes endpoint.now request.now) }
{
    let value = question_value(alloc, request)?;
    post_text(alloc, endpoint, &value)
}
