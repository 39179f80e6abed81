//! For how many seconds an application keeps its connection (RFC 9112, section 9.3; RFC 2068, section 19.7.1.1).
ghost use Rattle.std.specs.Prelude.{◌≡◌, map, length, All};
ghost use Rattle.httparse.specs.Spans.{IsHeaderWithin, header_bytes};
ghost use Rattle.application_http.specs.Keeping.{kept_after, kept_by, number_after, persists, promised, seconds_in};

use http1::fields::KnownFields;
use http1::framing::{Framing, FramingError};
use http1::text::eq_ignore_case;
use httparse::spans::HeaderSpan;

/// The number that the digits up to the first comma, or the end, form; 0 if there is another character.
fn number_in(text: &[u8]) -> u32
    ensures { result ≡ number_after 0 text.now }
{
    let mut number: u32 = 0;
    for byte in text {
        if *byte == b',' {
            return number;
        }
        if !byte.is_ascii_digit() {
            return 0;
        }
        number = number
            .saturating_mul(10)
            .saturating_add(u32::from(*byte - b'0'));
    }
    number
}

/// The seconds in a value of Keep-Alive such as `timeout=5, max=100`; 0 if it doesn't begin with the timeout.
fn seconds_in(value: &[u8]) -> u32
    ensures { result ≡ seconds_in value.now }
{
    match value.split_at_checked(8) {
        Some((name, number)) if eq_ignore_case(name, b"timeout=") => number_in(number),
        _ => 0,
    }
}

/// The seconds that the first field Keep-Alive promises; 0 if there is none.
fn promised(bytes: &[u8], fields: &[HeaderSpan]) -> u32
    requires { All (IsHeaderWithin (length bytes.now)) fields.now }
    ensures { result ≡ promised (map (header_bytes bytes.now) fields.now) }
{
    for field in fields {
        if eq_ignore_case(field.name.of(bytes), b"keep-alive") {
            return seconds_in(field.value.of(bytes));
        }
    }
    0
}

/// Whether the connection persists after a response with these fields.
fn persists(minor: u8, known: &KnownFields) -> bool
    ensures { result ≡ persists minor known.now }
{
    !known.close && (minor > 0 || known.keep_alive)
}

/// For how many seconds a response with these fields keeps the connection; 0 if it doesn't persist.
pub(crate) fn kept_by(bytes: &[u8], fields: &[HeaderSpan], minor: u8, known: &KnownFields) -> u32
    requires { All (IsHeaderWithin (length bytes.now)) fields.now }
    ensures { result ≡ kept_by minor known.now (map (header_bytes bytes.now) fields.now) }
{
    if persists(minor, known) {
        promised(bytes, fields)
    } else {
        0
    }
}

/// The seconds that are left of a promise, by the number of bytes received after the head: all if they are a body of
/// stated length and the connection isn't over, or none.
pub(crate) fn kept_after(
    is_over: bool,
    framing: Result<Framing, FramingError>,
    received: usize,
    seconds: u32,
) -> u32
    ensures { result ≡ kept_after is_over framing received seconds }
{
    match framing {
        Ok(Framing::Length(len)) if !is_over && len == received as u64 => seconds,
        _ => 0,
    }
}
