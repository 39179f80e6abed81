//! The responses to requests, as bytes.
ghost use Rattle.std.specs.Prelude.{◌≡◌, [], IfOk, string_bytes};
ghost use Rattle.websocket.specs.Handshake.{response_bytes};
ghost use Rattle.web_wire.specs.Responses.{body_of, explanation, policy, page_fields, response, response_text, status_fields, status_response, status_text, text_fields, type_fields};

use crate::head::{Answer, HttpStatus};
use std::alloc::{AllocError, Global};

/// The page, and the hashes that its Content-Security-Policy names.
#[derive(Clone, Copy)]
pub struct PageParts<'a> {
    /// The document, in HTML.
    pub text: &'a str,
    /// The SHA-256 of what is in its element `script`, in base64.
    pub script_hash: &'a str,
    /// The SHA-256 of what is in its element `style`, in base64.
    pub style_hash: &'a str,
}

impl HttpStatus {
    /// The status number and phrase.
    fn text(self) -> &'static str
        ensures { result.now ≡ status_text self }
    {
        match self {
            HttpStatus::Found => "200 OK",
            HttpStatus::BadRequest => "400 Bad Request",
            HttpStatus::Forbidden => "403 Forbidden",
            HttpStatus::NotFound => "404 Not Found",
            HttpStatus::MethodNotAllowed => "405 Method Not Allowed",
            HttpStatus::UpgradeRequired => "426 Upgrade Required",
            HttpStatus::HeadTooLarge => "431 Request Header Fields Too Large",
        }
    }

    /// The fields that the status needs, and Connection.
    fn fields(self) -> &'static str
        ensures { result.now ≡ status_fields self }
    {
        match self {
            HttpStatus::MethodNotAllowed => "Allow: GET\r\nConnection: close\r\n",
            HttpStatus::UpgradeRequired =>
                "Upgrade: websocket\r\nSec-WebSocket-Version: 13\r\nConnection: Upgrade, close\r\n",
            _ => "Connection: close\r\n",
        }
    }

    /// The body of a refusal.
    fn explanation(self) -> &'static str
        ensures { result.now ≡ explanation self }
    {
        match self {
            HttpStatus::Found => "",
            HttpStatus::BadRequest => "This is no request that the server understands.\n",
            HttpStatus::Forbidden =>
                "The server isn't used at this address: its option --origin has to name it.\n",
            HttpStatus::NotFound => "The page is at /.\n",
            HttpStatus::MethodNotAllowed => "The page is there for GET alone.\n",
            HttpStatus::UpgradeRequired => "The WebSocket must be of version 13.\n",
            HttpStatus::HeadTooLarge => "The request has too many bytes or fields.\n",
        }
    }
}

/// The value of the page's Content-Security-Policy.
#[tactic(auto, unfolding(crate::specs::Responses::policy))]
fn policy(alloc: Global, page: PageParts<'_>) -> Result<String, AllocError>
    ensures { IfOk result (λ text. string_bytes text ≡ policy page.entry.script_hash.now page.entry.style_hash.now) }
{
    let script = page.script_hash;
    let style = page.style_hash;
    format!(in alloc;
        "default-src 'none'; script-src 'sha256-{script}'; style-src 'sha256-{style}'; connect-src 'self'; \
            base-uri 'none'; form-action 'none'; frame-ancestors 'none'"
    )
}

/// The fields of the page, beside those of every response.
#[tactic(auto, unfolding(crate::specs::Responses::page_fields))]
fn page_fields(alloc: Global, page: PageParts<'_>) -> Result<String, AllocError>
    ensures { IfOk result (λ text. string_bytes text
        ≡ page_fields page.entry.script_hash.now page.entry.style_hash.now) }
{
    let policy = policy(alloc, page)?;
    format!(in alloc;
        "Content-Type: text/html; charset=utf-8\r\nContent-Security-Policy: {policy}\r\n\
            Referrer-Policy: no-referrer\r\nCross-Origin-Opener-Policy: same-origin\r\n"
    )
}

/// The fields of every other body.
#[tactic(auto, unfolding(crate::specs::Responses::text_fields))]
fn text_fields(alloc: Global) -> Result<String, AllocError>
    ensures { IfOk result (λ text. string_bytes text ≡ text_fields) }
{
    String::from_str(alloc, "Content-Type: text/plain; charset=utf-8\r\n")
}

/// The fields of a status' body.
fn type_fields(alloc: Global, status: HttpStatus, page: PageParts<'_>) -> Result<String, AllocError>
    ensures { IfOk result (λ text. string_bytes text ≡ type_fields status page.entry) }
{
    match status {
        HttpStatus::Found => page_fields(alloc, page),
        _ => text_fields(alloc),
    }
}

/// The body for a status.
fn body_of<'a>(status: HttpStatus, page: PageParts<'a>) -> &'a str
    ensures { result.now ≡ body_of status page.entry }
{
    match status {
        HttpStatus::Found => page.text,
        status => status.explanation(),
    }
}

/// A response of these parts.
#[tactic(auto, unfolding(crate::specs::Responses::response_text))]
fn response_text(
    alloc: Global,
    phrase: &str,
    types: &str,
    fields: &str,
    body: &str,
) -> Result<String, AllocError>
    ensures { IfOk result (λ text. string_bytes text ≡ response_text phrase.now types.now fields.now body.now) }
{
    let length = body.len();
    format!(in alloc;
        "HTTP/1.1 {phrase}\r\n{types}Content-Length: {length}\r\nCache-Control: no-store\r\n\
            X-Content-Type-Options: nosniff\r\n{fields}\r\n{body}"
    )
}

/// A response but that to a handshake.
fn status_response(
    alloc: Global,
    status: HttpStatus,
    page: PageParts<'_>,
) -> Result<String, AllocError>
    ensures { IfOk result (λ text. string_bytes text ≡ status_response status page.entry) }
{
    let types = type_fields(alloc, status, page)?;
    let body = body_of(status, page);
    response_text(alloc, status.text(), types.as_str(), status.fields(), body)
}

/// The response that accepts a handshake.
fn handshake_response(alloc: Global, key: &[u8; 28]) -> Result<Vec<u8>, AllocError>
    ensures { IfOk result (λ bytes. bytes.items ≡ response_bytes key.now []) }
{
    let mut bytes = Vec::new(alloc);
    bytes.extend_from_slice(
        b"HTTP/1.1 101 Switching Protocols\r\nconnection: Upgrade\r\nupgrade: websocket\r\nsec-websocket-accept: ",
    )?;
    bytes.extend_from_slice(key)?;
    bytes.extend_from_slice(b"\r\n\r\n")?;
    Ok(bytes)
}

/// The response that is an answer, with the page if that was requested. An error if memory is refused.
pub fn response_of(
    alloc: Global,
    answer: Answer,
    page: PageParts<'_>,
) -> Result<Vec<u8>, AllocError>
    ensures { IfOk result (λ bytes. bytes.items ≡ response answer page.entry) }
{
    match answer {
        Answer::Handshake(key) => handshake_response(alloc, &key),
        Answer::Status(status) => Ok(status_response(alloc, status, page)?.into_bytes()),
    }
}
