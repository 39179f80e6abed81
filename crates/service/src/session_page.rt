//! The sessions of a service, for its operators: as a page, and as data.
use host_core::{MOST_CONNECTIONS, Turn};
use jiff::Timestamp;
use mio::net::TcpStream;
use server::{Server, SessionRow};
use std::alloc::{AllocError, Global};

/// What is going on in a session.
fn phase_of(row: &SessionRow) -> &'static str {
    match (row.lu, row.turn) {
        (None, _) => "negotiating",
        (Some(_), Turn::Host) => "host",
        (Some(_), Turn::Terminal) => "operator",
    }
}

/// When a session began, in UTC (RFC 3339), if the server's start, in seconds since 1970, is known.
fn since(row: &SessionRow, started: Option<i64>) -> Option<Timestamp> {
    let seconds = i64::try_from(row.began / 1000).ok()?;
    Timestamp::from_second(started?.checked_add(seconds)?).ok()
}

/// Adds a session as an object, with the number in its name alone: by the whole name applications know who is signed on.
/// No value has a quote or a backslash.
fn put_object(text: &mut String, row: &SessionRow, started: Option<i64>) -> Result<(), AllocError> {
    let (number, peer, turns, phase) = (row.name.number, row.peer, row.turns, phase_of(row));
    write!(text, "{{\"session\":{number},\"lu\":")?;
    match row.lu {
        Some(lu) => write!(text, "\"{lu}\"")?,
        None => text.push_str("null")?,
    }
    write!(text, ",\"client\":\"{peer}\",\"since\":")?;
    match since(row, started) {
        Some(since) => write!(text, "\"{since:.0}\"")?,
        None => text.push_str("null")?,
    }
    write!(text, ",\"turns\":{turns},\"phase\":\"{phase}\"}}")
}

/// Adds a session as a row of a table. No value has a character that HTML takes for markup.
fn put_row(text: &mut String, row: &SessionRow, started: Option<i64>) -> Result<(), AllocError> {
    let (number, peer, turns, phase) = (row.name.number, row.peer, row.turns, phase_of(row));
    write!(text, "<tr><td>{number}<td>")?;
    match row.lu {
        Some(lu) => write!(text, "{lu}")?,
        None => text.push_str("-")?,
    }
    write!(text, "<td>{peer}<td>")?;
    match since(row, started) {
        Some(since) => write!(text, "{since:.0}")?,
        None => text.push_str("-")?,
    }
    write!(text, "<td>{turns}<td>{phase}\n")
}

/// The open sessions as JSON, in the order of their connections' numbers.
pub(crate) fn session_data(
    alloc: Global,
    server: &Server<TcpStream>,
    started: Option<i64>,
) -> Result<String, AllocError> {
    let mut text = String::from_str(alloc, "{\"sessions\":[")?;
    let mut separator = "";
    for conn in 0..MOST_CONNECTIONS {
        if let Some(row) = server.session_row(conn) {
            text.push_str(separator)?;
            separator = ",";
            put_object(&mut text, &row, started)?;
        }
    }
    text.push_str("]}\n")?;
    Ok(text)
}

/// The open sessions as a page in HTML, in the order of their connections' numbers.
pub(crate) fn session_page(
    alloc: Global,
    server: &Server<TcpStream>,
    started: Option<i64>,
) -> Result<String, AllocError> {
    let mut text = String::from_str(
        alloc,
        "<!doctype html>\n<html lang=en><meta charset=utf-8><title>Sessions</title>\n<table border=1>\n\
<tr><th>Session<th>LU<th>Client<th>Since<th>Turns<th>Phase\n",
    )?;
    for conn in 0..MOST_CONNECTIONS {
        if let Some(row) = server.session_row(conn) {
            put_row(&mut text, &row, started)?;
        }
    }
    text.push_str("</table>\n")?;
    Ok(text)
}
