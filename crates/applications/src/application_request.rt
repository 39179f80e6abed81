//! Turns the host's question, with numbers and bytes, into a request to an application, with names and Unicode texts.
ghost use Rattle.std.specs.Prelude.{◌≡◌, IfOk, map, option_map, string_bytes};
ghost use Rattle.std.specs.Net.Text.{socket_text};
ghost use Rattle.application_http.specs.Replies.{field_text};
ghost use Rattle.application_http.specs.Requests.{request_bytes};
ghost use Rattle.tn3270e_msg.specs.Words.{lu_text};
ghost use Rattle.applications.specs.ApplicationRequests.{AsksQuestion, IsRequestFor, IsRequestOn, SaysWhoAsks, session_asking, terminal_of, text_asked, texts_asked};
ghost use Rattle.applications.specs.Applications.{key_name, shown_character};
ghost use Rattle.host_core.specs.Questions.{fields_asked};
ghost use Rattle.applications.specs.QuestionLines.{column_of, row_of, unicode_of};
ghost use Rattle.applications.specs.SessionNames.{session_text};

use crate::application_reply::text_of;
use crate::session_name::{SessionName, session_text};
use application_http::{Endpoint, FieldText, Request, Terminal, request_text};
use codes3270::{Addr, Aid, Model, Size, to_latin1};
use host_core::Question;
use panels::{Field, Panel, PanelSet, Values};
use std::alloc::{AllocError, Global};
use std::fmt;
use std::net::SocketAddr;

/// A question for the application: the open question of a connection, and who asks it.
#[derive(Drop)]
pub struct Query {
    /// The question.
    pub question: Question,
    /// The model that the terminal asked for.
    pub model: Model,
    /// The address of its client, as the log prints it, if it is known.
    pub client: Option<SocketAddr>,
}

/// The character for a byte that has none in code page 037 (Unicode, REPLACEMENT CHARACTER).
const NO_CHARACTER: char = '\u{FFFD}';

/// The character for a byte of code page 037.
fn shown_character(byte: u8) -> char
    ensures { result ≡ shown_character byte }
{
    to_latin1(byte).unwrap_or(NO_CHARACTER)
}

/// The Unicode text for bytes of code page 037.
pub(crate) fn unicode_of(alloc: Global, bytes: &[u8]) -> Result<String, AllocError>
    ensures { IfOk result (λ text. string_bytes text ≡ unicode_of bytes.now) }
{
    let mut text = String::new(alloc);
    for byte in bytes {
        text.push(shown_character(*byte))?;
    }
    Ok(text)
}

/// An AID that prints as its name in `asks` of a panel text: the key's, or `connect` for no key.
#[derive(Clone, Copy)]
pub struct KeyName(pub Aid);

impl fmt::Display for KeyName {
    ghost use Rattle.std.specs.Prelude.{Some};
    ghost use Rattle.applications.specs.Applications.{key_name};

    ghost output = { λ key. Some (key_name key.0) };

    fn fmt<W: fmt::Write>(&self, f: &mut fmt::Formatter<W>) -> fmt::Result {
        let (key, number) = match self.0 {
            Aid::NoAid => return f.write_str("connect"),
            Aid::Enter => return f.write_str("enter"),
            Aid::Clear => return f.write_str("clear"),
            Aid::Pf(number) => ("pf", number.get()),
            Aid::Pa(number) => ("pa", number.get()),
        };
        write!(f, "{key}{number}")
    }
}

/// The name of a key as text.
pub(crate) fn key_name(alloc: Global, aid: Aid) -> Result<String, AllocError>
    ensures { IfOk result (λ name. string_bytes name ≡ key_name aid) }
{
    let key = KeyName(aid);
    format!(in alloc; "{key}")
}

/// The row and the column of a buffer address on a screen of this size, both 1-based.
pub(crate) fn place_of(address: Addr, size: Size) -> (u16, u16)
    ensures row { result.0 ≡ row_of address size }
    ensures column { result.1 ≡ column_of address size }
{
    let (place, columns) = (address.get(), size.cols());
    (place / columns + 1, place % columns + 1)
}

/// The name of a field, and its text in Unicode.
fn text_asked(alloc: Global, field: &Field, values: &Values) -> Result<FieldText, AllocError>
    ensures { IfOk result (λ text. field_text text ≡ text_asked values.now field.now) }
{
    let bytes = values.get(field.number).unwrap_or(&[]);
    Ok(FieldText {
        name: String::from_str(alloc, field.name.as_str())?,
        text: unicode_of(alloc, bytes)?,
    })
}

/// The names and texts of fields, in the order of the fields.
fn texts_asked(
    alloc: Global,
    fields: &[Field],
    values: &Values,
) -> Result<Vec<FieldText>, AllocError>
    ensures { IfOk result (λ texts. map field_text texts.items ≡ texts_asked values.now fields.now) }
{
    let mut texts = Vec::new(alloc);
    for field in fields {
        texts.push(text_asked(alloc, field, values)?)?;
    }
    Ok(texts)
}

/// The model's number and its alternate size.
fn terminal_of(model: Model) -> Terminal
    ensures { result ≡ terminal_of model }
{
    let size = model.alternate();
    Terminal {
        model: match model {
            Model::M2 => 2,
            Model::M3 => 3,
            Model::M4 => 4,
            Model::M5 => 5,
        },
        rows: size.rows(),
        cols: size.cols(),
    }
}

/// The address of a client as text.
fn client_text(alloc: Global, client: Option<SocketAddr>) -> Result<Option<String>, AllocError>
    ensures { IfOk result (λ text. option_map string_bytes text ≡ option_map socket_text client) }
{
    match client {
        Some(client) => Ok(Some(format!(in alloc; "{client}")?)),
        None => Ok(None),
    }
}

/// The request for a question on a panel, from the texts of its session, its LU, its key, its fields and its client.
fn request_by<'a>(
    panel: &'a Panel,
    query: &Query,
    boot: u64,
    session: &'a str,
    lu: &'a str,
    key: &'a str,
    fields: &'a [FieldText],
    client: Option<&'a str>,
) -> Request<'a>
    requires session { session.now ≡ session_text (session_asking boot query.now.question) }
    requires lu { lu.now ≡ lu_text query.now.question.lu }
    requires key { key.now ≡ key_name query.now.question.aid }
    requires fields { map field_text fields.now
        ≡ texts_asked query.now.question.values (fields_asked query.now.question.aid panel.now.fields) }
    requires client { option_map (λ it. it.now) client ≡ option_map socket_text query.now.client }
    ensures asks { AsksQuestion boot panel.now query.now.question result }
    ensures says_who { SaysWhoAsks query.now result }
{
    let question = &query.question;
    let (row, col) = place_of(question.cursor, panel.size());
    Request {
        session,
        turn: question.ticket.turn,
        lu,
        panel: panel.name().as_str(),
        key,
        row,
        col,
        fields,
        terminal: terminal_of(query.model),
        client,
    }
}

/// The bytes of the request for a question on a panel.
fn request_on(
    alloc: Global,
    endpoint: &Endpoint,
    boot: u64,
    panel: &Panel,
    query: &Query,
) -> Result<String, AllocError>
    ensures { IfOk result
        (λ text. IsRequestOn (request_bytes endpoint.now) boot panel.now query.now (string_bytes text)) }
{
    let question = &query.question;
    let number = question.ticket.session;
    let session = session_text(alloc, SessionName { boot, number })?;
    let lu = question.lu;
    let lu = format!(in alloc; "{lu}")?;
    let key = key_name(alloc, question.aid)?;
    let fields = texts_asked(alloc, question.fields(panel), &question.values)?;
    let client = client_text(alloc, query.client)?;
    let request = request_by(
        panel,
        query,
        boot,
        session.as_str(),
        lu.as_str(),
        key.as_str(),
        fields.as_slice(),
        text_of(&client),
    );
    request_text(alloc, endpoint, &request)
}

/// The request for a question, if the host's start drew `boot`; None if its panel isn't one of the panels.
pub(crate) fn request_of(
    alloc: Global,
    endpoint: &Endpoint,
    boot: u64,
    panels: &PanelSet,
    query: &Query,
) -> Result<Option<String>, AllocError>
    ensures { IfOk result (λ text. IsRequestFor (request_bytes endpoint.now) boot panels.now query.now
        (option_map string_bytes text)) }
{
    match panels.panel(query.question.panel) {
        Some(panel) => Ok(Some(request_on(alloc, endpoint, boot, panel, query)?)),
        None => Ok(None),
    }
}
