//! The answers to a client of the metrics port: the part of HTTP/1.1 (RFC 9110, RFC 9112) that its resources need.
ghost use Rattle.std.specs.Prelude.{◌≡◌, ◌≤◌, ◌==◌, [], ℕ, List, All, Some, IfOk, OnErr, OnOk, length, option_map, position, take};
ghost use Rattle.std.specs.Char.{is_ascii_digit};
ghost use Rattle.std.specs.List.{list_all};
ghost use Rattle.httparse.specs.Grammar.{RequestHead as Head, ReadsRequest};
ghost use Rattle.httparse.specs.Spans.{IsHeaderWithin, IsRequestWithin, header_bytes, span_bytes};
ghost use Rattle.websocket.specs.Headers.{eq_ignore_case, fields_of};
ghost use Rattle.service_events.specs.Scrapes.{IsAnswerTo, before, has_field, host_refusal, is_late, is_local, is_name_with_port, is_port, most_fields, refusal_of, resource_of, status_for_resource, status_of, status_of_parts, with_more};

use httparse::spans::{EMPTY_HEADER_SPAN, HeaderSpan, RequestSpans, parse_request};
use httparse::{Error, Status};
use std::alloc::{AllocError, Global};
use std::marker::Model;
use web_wire::only_value;

/// The most bytes of a request's head.
pub(crate) const MOST_HEAD: usize = 4096;

/// The most header fields of a request.
const MOST_FIELDS: usize = 64;

/// The Content-Type of metrics, in Prometheus' text format, and of responses without a body.
const METRICS: &str = "text/plain; version=0.0.4; charset=utf-8";

/// The start of a response that lists sessions: nobody keeps who is connected.
const SESSIONS: &str = "200 OK\r\nCache-Control: no-store";

/// What browsers may do with a response: it is what its Content-Type says, loads nothing, and is in no frame.
const GUARDS: &str = "X-Content-Type-Options: nosniff\r\n\
    Content-Security-Policy: default-src 'none'; frame-ancestors 'none'";

/// The methods that the resources have (RFC 9110, section 9.3).
#[derive(Clone, Copy)]
pub enum Method {
    Get,
    /// As GET, but the response is sent without its body.
    Head,
}

/// What the port serves (our profile).
#[derive(Clone, Copy)]
pub enum Resource {
    /// `/metrics`, in Prometheus' text format.
    Metrics,
    /// `/sessions`, a page in HTML.
    Sessions,
    /// `/sessions.json`, the same in JSON.
    SessionData,
}

/// The status of a response (RFC 9110, section 15).
#[derive(Clone, Copy)]
pub enum HttpStatus {
    /// 200: the body is this resource.
    Found(Method, Resource),
    /// 400: the bytes don't begin an HTTP request, or it has no field Host, or more than one.
    BadRequest,
    /// 403: the port is used at another Host than this machine, as by DNS rebinding.
    Forbidden,
    /// 404: the path is of no resource.
    NotFound,
    /// 405: the method is neither GET nor HEAD.
    MethodNotAllowed,
    /// 431: the head has too many bytes or fields.
    HeadTooLarge,
}

/// The place of the first byte that is `end`.
fn place_of(bytes: &[u8], end: u8) -> Option<usize>
    ensures { result ≡ position (λ byte. byte == end) bytes.now }
{
    bytes.iter().position(|byte| *byte == end)
}

/// The bytes before the first one that is `end`; all if there is none.
fn before(bytes: &[u8], end: u8) -> &[u8]
    ensures { result.now ≡ before end bytes.now }
{
    match place_of(bytes, end) {
        Some(place) => &bytes[..place],
        None => bytes,
    }
}

/// The resource with this path; None if there is none.
fn resource_of(path: &[u8]) -> Option<Resource>
    ensures { result ≡ resource_of path.now }
{
    if path == b"/metrics".as_slice() {
        Some(Resource::Metrics)
    } else if path == b"/sessions".as_slice() {
        Some(Resource::Sessions)
    } else if path == b"/sessions.json".as_slice() {
        Some(Resource::SessionData)
    } else {
        None
    }
}

/// Whether all bytes are digits.
fn are_digits(bytes: &[u8]) -> bool
    ensures { result ≡ list_all is_ascii_digit bytes.now }
{
    bytes.iter().all(|byte| byte.is_ascii_digit())
}

/// Whether this is what may follow the name of a host: nothing, or a port.
fn is_port(bytes: &[u8]) -> bool
    ensures { result ≡ is_port bytes.now }
{
    match bytes.split_first() {
        None => true,
        Some((first, digits)) => *first == b':' && are_digits(digits),
    }
}

/// Whether a host is this name, at any port.
fn is_name_with_port(name: &[u8], host: &[u8]) -> bool
    ensures { result ≡ is_name_with_port name.now host.now }
{
    host.starts_with(name) && is_port(&host[name.len()..])
}

/// Whether a host is this machine, at any port.
fn is_local(host: &[u8]) -> bool
    ensures { result ≡ is_local host.now }
{
    is_name_with_port(b"127.0.0.1", host)
        || is_name_with_port(b"localhost", host)
        || is_name_with_port(b"[::1]", host)
}

/// Whether a field has this name, whatever the case of letters.
fn is_named(bytes: &[u8], field: &HeaderSpan, name: &[u8]) -> bool
    requires { IsHeaderWithin (length bytes.now) field.now }
    ensures { result ≡ eq_ignore_case (header_bytes bytes.now field.now).0 name.now }
{
    field.name.of(bytes).eq_ignore_ascii_case(name)
}

/// Whether there is a field with this name, whatever the case of letters.
fn has_field(bytes: &[u8], fields: &[HeaderSpan], name: &[u8]) -> bool
    requires { All (IsHeaderWithin (length bytes.now)) fields.now }
    ensures { result ≡ has_field (fields_of bytes.now fields.now) name.now }
{
    for field in fields {
        if is_named(bytes, field, name) {
            return true;
        }
    }
    false
}

/// Why a request of HTTP/1 and this minor version isn't answered, given the value of its only field Host, and whether
/// it lacks such a field.
fn host_refusal(minor: u8, lacks: bool, host: Option<&[u8]>) -> Option<HttpStatus>
    ensures { result ≡ host_refusal minor lacks (option_map (λ value. value.now) host.entry) }
{
    match host {
        None if minor == 0 && lacks => None,
        None => Some(HttpStatus::BadRequest),
        Some(host) if is_local(host) => None,
        Some(_) => Some(HttpStatus::Forbidden),
    }
}

/// The status for a resource.
fn status_for_resource(method: Method, resource: Option<Resource>) -> HttpStatus
    ensures { result ≡ status_for_resource method resource }
{
    match resource {
        None => HttpStatus::NotFound,
        Some(resource) => HttpStatus::Found(method, resource),
    }
}

/// The status for a complete head, given why it isn't answered at its host.
fn status_of_parts(method: &[u8], target: &[u8], refusal: Option<HttpStatus>) -> HttpStatus
    ensures { result ≡ status_of_parts method.now target.now refusal }
{
    if let Some(status) = refusal {
        return status;
    }
    let method = match method {
        b"GET" => Method::Get,
        b"HEAD" => Method::Head,
        _ => return HttpStatus::MethodNotAllowed,
    };
    status_for_resource(method, resource_of(before(target, b'?')))
}

/// The status for a complete head.
fn status_of_head(bytes: &[u8], head: &RequestSpans, headers: &[HeaderSpan]) -> HttpStatus
    requires { IsRequestWithin bytes.now headers.now head.now }
    ensures { result ≡ status_of_parts (span_bytes bytes.now head.now.method) (span_bytes bytes.now head.now.path)
        (refusal_of head.now.version (fields_of bytes.now (take head.now.headers headers.now))) }
{
    let fields = &headers[..head.headers];
    let lacks = !has_field(bytes, fields, b"Host");
    let host = only_value(bytes, fields, b"Host");
    let refusal = host_refusal(head.version, lacks, host);
    status_of_parts(head.method.of(bytes), head.path.of(bytes), refusal)
}

/// The status for the bytes sent so far; None if the head isn't complete yet.
#[tactic(auto, using(crate::proofs::ScrapeLemmas::called_for))]
pub fn status_for(bytes: &[u8]) -> Option<HttpStatus>
    ensures answer { IsAnswerTo bytes.now result }
    // A complete head with at most that number of fields is answered.
    ensures found { (head : Head) (rest : List ℕ) → ReadsRequest bytes.now head rest
        → length head.fields ≤ most_fields → result ≡ Some (status_of head) }
{
    let mut headers = [EMPTY_HEADER_SPAN; MOST_FIELDS];
    match parse_request(bytes, &mut headers) {
        Ok(Status::Complete(head)) => Some(status_of_head(bytes, &head, &headers)),
        Ok(Status::Partial) if bytes.len() < MOST_HEAD => None,
        Ok(Status::Partial) => Some(HttpStatus::HeadTooLarge),
        Err(Error::TooManyHeaders) => Some(HttpStatus::HeadTooLarge),
        Err(_) => Some(HttpStatus::BadRequest),
    }
}

impl HttpStatus {
    /// The status number and phrase, the fields of this status alone, and the Content-Type. A response with 405 has the
    /// methods that are allowed (RFC 9110, section 15.5.6).
    fn start(self) -> (&'static str, &'static str) {
        match self {
            HttpStatus::Found(_, Resource::Metrics) => ("200 OK", METRICS),
            HttpStatus::Found(_, Resource::Sessions) => (SESSIONS, "text/html; charset=utf-8"),
            HttpStatus::Found(_, Resource::SessionData) => (SESSIONS, "application/json"),
            HttpStatus::BadRequest => ("400 Bad Request", METRICS),
            HttpStatus::Forbidden => ("403 Forbidden", METRICS),
            HttpStatus::NotFound => ("404 Not Found", METRICS),
            HttpStatus::MethodNotAllowed => {
                ("405 Method Not Allowed\r\nAllow: GET, HEAD", METRICS)
            }
            HttpStatus::HeadTooLarge => ("431 Request Header Fields Too Large", METRICS),
        }
    }
}

/// The response for a status. Only 200 has a body: the resource, which is `page`; HEAD gets only its length (RFC
/// 9110, section 9.3.2).
pub fn response_of(alloc: Global, status: HttpStatus, page: &str) -> Result<String, AllocError> {
    let (body, sent) = match status {
        HttpStatus::Found(Method::Get, _) => (page, page),
        HttpStatus::Found(Method::Head, _) => (page, ""),
        _ => ("", ""),
    };
    let ((start, kind), length) = (status.start(), body.len());
    format!(in alloc;
        "HTTP/1.1 {start}\r\nContent-Type: {kind}\r\n{GUARDS}\r\nContent-Length: {length}\r\n\
            Connection: close\r\n\r\n{sent}"
    )
}

/// How long a client may take, in milliseconds.
const CLIENT_TIME: u64 = 5_000;

/// Whether the time of a client that connected at `began` is over at `now`, both in milliseconds.
pub fn is_late(began: u64, now: u64) -> bool
    ensures { result ≡ is_late began now }
{
    CLIENT_TIME <= now.saturating_sub(began)
}

/// What a client sent so far: at most its first 4,096 bytes. Contracts see the bytes.
#[derive(Drop)]
pub struct RequestHead {
    bytes: Vec<u8>,
}

impl Model for RequestHead {
    ghost use Rattle.std.specs.Prelude.{ℕ, List, ◌≤◌, length};
    ghost use Rattle.service_events.specs.Scrapes.{most_head};

    ghost Value = { List ℕ };

    ghost view = { λ asked. asked.bytes.items };

    ghost invariant = { λ asked. length asked.bytes.items ≤ most_head };
}

impl RequestHead {
    /// No bytes yet.
    pub fn new(alloc: Global) -> RequestHead
        ensures { result ≡ [] }
    {
        RequestHead {
            bytes: Vec::new(alloc),
        }
    }

    /// Takes received bytes, and returns the status for all bytes so far; None if the head isn't complete yet. An error
    /// if memory is refused: then nothing is taken.
    pub fn take(&mut self, bytes: &[u8]) -> Result<Option<HttpStatus>, AllocError>
        ensures taken { OnOk result (self.new ≡ with_more self.old bytes.now) }
        ensures unchanged { OnErr result (self.new ≡ self.old) }
        ensures answer { IfOk result (IsAnswerTo self.new) }
    {
        self.bytes.extend_from_slice(bytes)?;
        self.bytes.truncate(MOST_HEAD);
        Ok(status_for(self.bytes.as_slice()))
    }
}
