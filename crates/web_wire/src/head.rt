//! The answer to a request, by its head: the part of HTTP/1.1 (RFC 9110, RFC 9112) and of the opening handshake (RFC
//! 6455, section 4.2) that a page with a terminal needs.
ghost use Rattle.std.specs.Prelude.{◌≡◌, ◌<◌, ◌≤◌, ℕ, List, All, IfSome, IsSome, drop, length, option_map, position, take};
ghost use Rattle.httparse.specs.Grammar.{RequestHead as Head, ReadsRequest};
ghost use Rattle.httparse.specs.Spans.{IsHeaderWithin, IsRequestWithin, header_bytes, span_bytes};
ghost use Rattle.websocket.specs.Handshake.{requested_key};
ghost use Rattle.websocket.specs.Headers.{eq_ignore_case, fields_of};
ghost use Rattle.web_wire.specs.Heads.{IsAnswerTo, IsAnswerToHead, IsAnswerToParts, IsHandshakeAnswer, StartsNamed, failed_status, after_scheme, handshake_refusal, host_meant, host_refusal, is_nothing, is_slash, most_fields, only_value, origin_refusal, path_meant, path_start, resource_status, status_of, values_named};

use crate::origin::Site;
use httparse::spans::{EMPTY_HEADER_SPAN, HeaderSpan, RequestSpans, parse_request};
use httparse::{Error, Status};
use websocket::handshake::HandshakeError;
use websocket::handshake::server::check_request;

/// The most bytes of a request's head.
pub(crate) const MOST_HEAD: usize = 8192;

/// The most header fields of a request.
const MOST_FIELDS: usize = 64;

/// The status of a response (RFC 9110, section 15).
#[derive(Clone, Copy)]
pub enum HttpStatus {
    /// 200: the page.
    Found,
    /// 400: the bytes are no HTTP request, or no handshake of RFC 6455.
    BadRequest,
    /// 403: the server isn't used at this Host, or by pages of this Origin.
    Forbidden,
    /// 404: the target is neither `/` nor `/terminal`.
    NotFound,
    /// 405: the method isn't GET.
    MethodNotAllowed,
    /// 426: the handshake is of another version of the protocol.
    UpgradeRequired,
    /// 431: the head has too many bytes or fields.
    HeadTooLarge,
}

/// The answer to a request.
#[derive(Clone, Copy)]
pub enum Answer {
    /// 101: the handshake is accepted, with this value of Sec-WebSocket-Accept.
    Handshake([u8; 28]),
    /// Any other status. The connection is closed after it.
    Status(HttpStatus),
}

/// Whether a field has this name, whatever the case of letters.
fn is_named(buf: &[u8], field: &HeaderSpan, name: &[u8]) -> bool
    requires { IsHeaderWithin (length buf.now) field.now }
    ensures { result ≡ eq_ignore_case (header_bytes buf.now field.now).0 name.now }
{
    field.name.of(buf).eq_ignore_ascii_case(name)
}

/// The fields from the first one with this name on; empty if there is none.
fn from_named<'s>(buf: &[u8], fields: &'s [HeaderSpan], name: &[u8]) -> &'s [HeaderSpan]
    requires { All (IsHeaderWithin (length buf.now)) fields.now }
    ensures within { All (IsHeaderWithin (length buf.now)) result.now }
    ensures first { StartsNamed (fields_of buf.now result.now) name.now }
    ensures values { values_named (fields_of buf.now result.now) name.now
        ≡ values_named (fields_of buf.now fields.now) name.now }
{
    for (place, field) in fields.iter().enumerate() {
        if is_named(buf, field, name) {
            return &fields[place..];
        }
    }
    &[]
}

/// The value of the only field with this name, whatever the case of its letters; None if there is none, or more than
/// one. `fields` are those of the request that `buf` begins with.
pub fn only_value<'b>(buf: &'b [u8], fields: &[HeaderSpan], name: &[u8]) -> Option<&'b [u8]>
    requires { All (IsHeaderWithin (length buf.now)) fields.now }
    ensures { option_map (λ value. value.now) result ≡ only_value (fields_of buf.now fields.now) name.now }
{
    let [first, rest @ ..] = from_named(buf, fields, name) else {
        return None;
    };
    match from_named(buf, rest, name) {
        [] => Some(first.value.of(buf)),
        _ => None,
    }
}

/// Why a request isn't served at this host.
fn host_refusal(site: &Site, host: Option<&[u8]>) -> Option<HttpStatus>
    ensures { result ≡ host_refusal site.now (option_map (λ value. value.now) host.entry) }
{
    match host {
        None => Some(HttpStatus::BadRequest),
        Some(host) if site.has_host(host) => None,
        Some(_) => Some(HttpStatus::Forbidden),
    }
}

/// Why a handshake isn't served to a page of this origin.
fn origin_refusal(site: &Site, origin: Option<&[u8]>) -> Option<HttpStatus>
    ensures { result ≡ origin_refusal site.now (option_map (λ value. value.now) origin.entry) }
{
    match origin {
        Some(origin) if site.has_origin(origin) => None,
        _ => Some(HttpStatus::Forbidden),
    }
}

/// Why a handshake isn't served; `is_last` says that no bytes follow it.
fn handshake_refusal(site: &Site, origin: Option<&[u8]>, is_last: bool) -> Option<HttpStatus>
    ensures { result ≡ handshake_refusal site.now (option_map (λ value. value.now) origin.entry) is_last }
{
    if is_last {
        origin_refusal(site, origin)
    } else {
        Some(HttpStatus::BadRequest)
    }
}

/// The status for a resource; None if the handshake goes on.
fn resource_status(
    site: &Site,
    target: &[u8],
    origin: Option<&[u8]>,
    is_last: bool,
) -> Option<HttpStatus>
    ensures { result ≡ resource_status site.now target.now (option_map (λ value. value.now) origin.entry) is_last }
{
    if target == b"/".as_slice() {
        Some(HttpStatus::Found)
    } else if target == b"/terminal".as_slice() {
        handshake_refusal(site, origin, is_last)
    } else {
        Some(HttpStatus::NotFound)
    }
}

/// What follows the scheme of a target in absolute-form (RFC 9112, section 3.2.2); None for one of another form.
fn after_scheme(target: &[u8]) -> Option<&[u8]>
    ensures { option_map (λ rest. rest.now) result ≡ after_scheme target.now }
{
    if target.starts_with(b"http://") {
        Some(&target[7..])
    } else if target.starts_with(b"https://") {
        Some(&target[8..])
    } else {
        None
    }
}

/// The index of the first slash.
fn slash_in(rest: &[u8]) -> Option<usize>
    ensures place { result ≡ position is_slash rest.now }
    ensures in_range { IfSome result (λ place. place < length rest.now) }
{
    rest.iter().position(|byte| *byte == b'/')
}

/// Where the path begins behind a scheme: at the first slash.
fn path_start(rest: &[u8]) -> usize
    ensures place { result ≡ path_start rest.now }
    ensures in_range { result ≤ length rest.now }
{
    match slash_in(rest) {
        Some(place) => place,
        None => rest.len(),
    }
}

/// The host for which a request is: that of a target in absolute-form, and else that of the field Host.
fn host_meant<'a>(rest: Option<&'a [u8]>, host: &'a [u8]) -> &'a [u8]
    ensures { result.now ≡ host_meant (option_map (λ it. it.now) rest.entry) host.now }
{
    match rest {
        Some(rest) => &rest[..path_start(rest)],
        None => host,
    }
}

/// The path of a target: in absolute-form what follows the host, `/` if nothing does.
fn path_meant<'a>(rest: Option<&'a [u8]>, target: &'a [u8]) -> &'a [u8]
    ensures { result.now ≡ path_meant (option_map (λ it. it.now) rest.entry) target.now }
{
    let Some(rest) = rest else {
        return target;
    };
    match &rest[path_start(rest)..] {
        [] => b"/",
        path => path,
    }
}

/// The status of a request with these values of the fields Host and Origin; None if the handshake goes on.
fn status_of(
    site: &Site,
    method: &[u8],
    target: &[u8],
    host: Option<&[u8]>,
    origin: Option<&[u8]>,
    is_last: bool,
) -> Option<HttpStatus>
    ensures { result ≡ status_of site.now method.now target.now (option_map (λ value. value.now) host.entry)
        (option_map (λ value. value.now) origin.entry) is_last }
{
    let rest = after_scheme(target);
    let host = match host {
        Some(host) => Some(host_meant(rest, host)),
        None => None,
    };
    if let Some(refusal) = host_refusal(site, host) {
        return Some(refusal);
    }
    if method != b"GET".as_slice() {
        return Some(HttpStatus::MethodNotAllowed);
    }
    resource_status(site, path_meant(rest, target), origin, is_last)
}

/// The status for a handshake that lacks something.
fn failed_status(fault: HandshakeError) -> HttpStatus
    ensures { result ≡ failed_status fault }
{
    match fault {
        HandshakeError::MissingSecWebSocketVersionHeader => HttpStatus::UpgradeRequired,
        _ => HttpStatus::BadRequest,
    }
}

/// The answer to a handshake.
fn handshake_answer(buf: &[u8], head: &RequestSpans, spans: &[HeaderSpan]) -> Answer
    requires { IsRequestWithin buf.now spans.now head.now }
    ensures { IsHandshakeAnswer (requested_key (span_bytes buf.now head.now.method) head.now.version
        (fields_of buf.now (take head.now.headers spans.now))) result }
{
    match check_request(buf, head, spans) {
        Ok(key) => Answer::Handshake(key),
        Err(fault) => Answer::Status(failed_status(fault)),
    }
}

/// Whether nothing follows the first `count` bytes.
fn is_last(buf: &[u8], count: usize) -> bool
    requires { count ≤ length buf.now }
    ensures { result ≡ is_nothing (drop count buf.now) }
{
    buf.len() == count
}

/// The answer to a complete head.
fn answer_to_head(site: &Site, buf: &[u8], head: &RequestSpans, spans: &[HeaderSpan]) -> Answer
    requires { IsRequestWithin buf.now spans.now head.now }
    ensures { IsAnswerToParts site.now (span_bytes buf.now head.now.method) (span_bytes buf.now head.now.path)
        head.now.version (fields_of buf.now (take head.now.headers spans.now)) (is_nothing (drop head.now.len buf.now))
        result }
{
    let fields = &spans[..head.headers];
    let host = only_value(buf, fields, b"Host");
    let origin = only_value(buf, fields, b"Origin");
    let is_last = is_last(buf, head.len);
    let method = head.method.of(buf);
    let target = head.path.of(buf);
    match status_of(site, method, target, host, origin, is_last) {
        Some(status) => Answer::Status(status),
        None => handshake_answer(buf, head, spans),
    }
}

/// The answer to the bytes sent so far, at a server that is used at the site's origins; None if the head isn't complete
/// yet.
#[tactic(auto, using(crate::proofs::HeadLemmas::called_for))]
pub(crate) fn answer_to(site: &Site, bytes: &[u8]) -> Option<Answer>
    ensures answer { IsAnswerTo site.now bytes.now result }
    // A complete head with at most that number of fields is answered.
    ensures found { (head : Head) (rest : List ℕ) → ReadsRequest bytes.now head rest
        → length head.fields ≤ most_fields → IfSome result (IsAnswerToHead site.now head rest) × IsSome result }
{
    let mut spans = [EMPTY_HEADER_SPAN; MOST_FIELDS];
    match parse_request(bytes, &mut spans) {
        Ok(Status::Complete(head)) => Some(answer_to_head(site, bytes, &head, &spans)),
        Ok(Status::Partial) if bytes.len() < MOST_HEAD => None,
        Ok(Status::Partial) => Some(Answer::Status(HttpStatus::HeadTooLarge)),
        Err(Error::TooManyHeaders) => Some(Answer::Status(HttpStatus::HeadTooLarge)),
        Err(_) => Some(Answer::Status(HttpStatus::BadRequest)),
    }
}
