//! The open question of a connection, and how a script prints it.
ghost use Rattle.std.specs.Prelude.{◌≡◌, ◌++◌, IfOk, OnOk, string_bytes};
ghost use Rattle.std.specs.List.{flat_map};
ghost use Rattle.applications.specs.QuestionLines.{field_line, heading, question_on, question_text, ticket_on};

use crate::application_request::{KeyName, place_of, unicode_of};
use host_core::{Host, MOST_CONNECTIONS, Question, Ticket};
use panels::{Field, Panel, PanelSet, Values};
use std::alloc::{AllocError, Global};

/// The open question of a connection. None if none is open, or if there is no such connection.
pub fn question_on(host: &Host, conn: usize) -> Result<Option<Question>, AllocError>
    ensures { IfOk result (λ question. question ≡ question_on conn host.now) }
{
    if conn >= MOST_CONNECTIONS {
        return Ok(None);
    }
    match host.question(conn) {
        Ok(question) => Ok(question),
        Err(_) => Err(AllocError),
    }
}

/// The ticket of the open question. If none is open, it is an arbitrary one, since the host takes no answer then.
pub fn ticket_on(host: &Host, conn: usize) -> Result<Ticket, AllocError>
    ensures { IfOk result (λ ticket. ticket ≡ ticket_on conn host.now) }
{
    match question_on(host, conn)? {
        Some(question) => Ok(question.ticket),
        None => Ok(Ticket {
            session: 0,
            turn: 0,
        }),
    }
}

/// Adds the LU, the panel's name, the key, and the cursor's row and column, both 1-based.
fn put_heading(text: &mut String, panel: &Panel, question: &Question) -> Result<(), AllocError>
    ensures { OnOk result (string_bytes text.new ≡ string_bytes text.old ++ heading panel.now question.now) }
{
    let lu = question.lu;
    let name = panel.name().as_str();
    let key = KeyName(question.aid);
    let (row, column) = place_of(question.cursor, panel.size());
    write!(text, "question {lu} {name} {key} {row} {column}\n")
}

/// Adds a field's name, and its text between quotes.
fn put_field(
    alloc: Global,
    text: &mut String,
    field: &Field,
    values: &Values,
) -> Result<(), AllocError>
    ensures { OnOk result (string_bytes text.new ≡ string_bytes text.old ++ field_line values.now field.now) }
{
    let name = field.name.as_str();
    let shown = unicode_of(alloc, values.get(field.number).unwrap_or(&[]))?;
    write!(text, "{name}=\"{shown}\"\n")
}

/// Adds the lines of fields.
fn put_fields(
    alloc: Global,
    text: &mut String,
    fields: &[Field],
    values: &Values,
) -> Result<(), AllocError>
    ensures { OnOk result
        (string_bytes text.new ≡ string_bytes text.old ++ flat_map (field_line values.now) fields.now) }
{
    for field in fields {
        put_field(alloc, text, field, values)?;
    }
    Ok(())
}

/// Adds a line for the question and one for each field that it has, or `no question` if there is none.
pub fn put_question(
    alloc: Global,
    text: &mut String,
    panels: &PanelSet,
    question: &Option<Question>,
) -> Result<(), AllocError>
    ensures { OnOk result (string_bytes text.new ≡ string_bytes text.old ++ question_text panels.now question.now) }
{
    let Some(question) = question else {
        return text.push_str("no question\n");
    };
    let Some(panel) = panels.panel(question.panel) else {
        return Ok(());
    };
    put_heading(text, panel, question)?;
    put_fields(alloc, text, question.fields(panel), &question.values)
}
