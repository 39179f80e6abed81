//! Finds the content of a reply (RFC 9112, sections 4, 6 and 7).
ghost use Rattle.std.specs.Prelude.{◌≡◌, ◌≤◌, [], Bool, drop, length, true, List, MatchOption, IfErr, IfOk, IsTrue, OnErr, IsFalse};
ghost use Rattle.httparse.specs.Grammar.{HasNoResponse};
ghost use Rattle.httparse.specs.declared.spans.HeaderSpan.{HeaderSpan};
ghost use Rattle.http1.specs.Decoder.{Decodes, HasNoBody};
ghost use Rattle.http1.specs.declared.framing.Framing.TheVariants as framed;
ghost use Rattle.application_http.specs.Contents.{HasContent, IsBadBody, IsBadMessage, IsHead, IsKept, IsUnfinished, IsCompleteBody, IsIncompleteBody, limits, most_fields};

use crate::fault::ReplyFault;
use crate::keeping::{kept_after, kept_by};
use http1::decode::{Decoded, Decoder};
use http1::fields::KnownFields;
use http1::framing::{Framing, FramingError, MethodKind, response_framing};
use http1::{Limits, ReadError};
use httparse::spans::{EMPTY_HEADER_SPAN, parse_response};
use httparse::{Error, Status};

/// The most bytes of a reply, head and content together.
pub(crate) const MOST_BYTES: usize = 65_536;

/// The most fields of a reply's head, and the most trailers of its body.
const MOST_FIELDS: usize = 64;

/// The only status that a reply may have (RFC 9110, section 15.3.1).
const ACCEPTED: u16 = 200;

/// The parts of a reply's head that matter here.
#[derive(Clone, Copy)]
pub struct Head {
    /// The length of the head in bytes.
    len: usize,
    status: u16,
    /// How the length of the body is determined.
    framing: Result<Framing, FramingError>,
    /// For how many seconds the application promises to keep the connection.
    kept: u32,
}

/// The limits of a chunked body: no part has a lower limit than the whole reply.
fn limits() -> Limits
    ensures { result ≡ limits }
{
    Limits {
        max_head_len: MOST_BYTES,
        max_extensions_len: MOST_BYTES,
        max_trailers_len: MOST_BYTES,
    }
}

/// The head at the start of the bytes; None if it isn't complete yet.
pub(crate) fn head_of(bytes: &[u8]) -> Result<Option<Head>, ReplyFault>
    ensures found { IfOk result (λ found. MatchOption found (HasNoResponse bytes.now) (IsHead bytes.now)) }
    ensures wrong { IfErr result (λ why. (closed : Bool) → IsBadMessage closed bytes.now why) }
{
    let mut headers = [EMPTY_HEADER_SPAN; MOST_FIELDS];
    match parse_response(bytes, &mut headers) {
        Ok(Status::Complete(head)) => {
            let fields = &headers[..head.headers];
            let known = KnownFields::from_spans(bytes, fields);
            Ok(Some(Head {
                len: head.len,
                status: head.code,
                framing: response_framing(MethodKind::Other, head.code, head.version, &known),
                kept: kept_by(bytes, fields, head.version, &known),
            }))
        }
        Ok(Status::Partial) => Ok(None),
        Err(Error::TooManyHeaders) => Err(ReplyFault::TooManyFields),
        Err(_) => Err(ReplyFault::NotHttp),
    }
}

/// Adds the content of a body with this length, in bytes, and answers whether all of it is there.
#[tactic(auto, using(crate::proofs::Chunks::sized_whole))]
fn put_sized(content: &mut Vec<u8>, len: u64, after: &[u8]) -> Result<bool, ReplyFault>
    requires { content.old.items ≡ [] }
    ensures whole { IfOk result
        (λ is_whole. IsTrue is_whole → IsCompleteBody true (framed.Length len) after.now content.new.items) }
    ensures lacks_end { IfOk result
        (λ is_whole. IsFalse is_whole → IsIncompleteBody true (framed.Length len) after.now) }
    ensures wrong { IfErr result (IsBadBody true (framed.Length len) after.now) }
{
    if (after.len() as u64) < len {
        return Ok(false);
    }
    content.extend_from_slice(&after[..len as usize])?;
    Ok(true)
}

/// The bytes from the index `at` on.
fn behind(bytes: &[u8], at: usize) -> &[u8]
    requires { at ≤ length bytes.now }
    ensures { result.now ≡ drop at bytes.now }
{
    &bytes[at..]
}

/// The next chunk data of a chunked body, or its end.
fn next_piece(decoder: &mut Decoder, left: &[u8]) -> Result<Decoded, ReadError>
    ensures found { IfOk result
        (λ found. (trailers : List HeaderSpan) × Decodes decoder.old left.now decoder.new trailers found) }
    ensures none { OnErr result (HasNoBody decoder.old left.now most_fields) }
{
    let mut trailers = [EMPTY_HEADER_SPAN; MOST_FIELDS];
    decoder.decode(left, &mut trailers)
}

/// Adds the content of a chunked body, and answers whether the body is complete.
fn put_chunks(content: &mut Vec<u8>, after: &[u8]) -> Result<bool, ReplyFault>
    requires { content.old.items ≡ [] }
    ensures whole { IfOk result
        (λ is_whole. IsTrue is_whole → IsCompleteBody true framed.Chunked after.now content.new.items) }
    ensures lacks_end { IfOk result (λ is_whole. IsFalse is_whole → IsIncompleteBody true framed.Chunked after.now) }
    ensures wrong { IfErr result (IsBadBody true framed.Chunked after.now) }
{
    let mut decoder = Decoder::new(Framing::Chunked, &limits());
    let mut left = after;
    loop {
        match next_piece(&mut decoder, left) {
            Ok(Decoded::Data(piece)) => {
                if content.extend_from_slice(piece.of(left)).is_err() {
                    return Err(ReplyFault::Memory);
                }
                left = behind(left, piece.end);
            }
            Ok(Decoded::NeedMore(_)) => return Ok(false),
            Ok(Decoded::End { .. }) => return Ok(true),
            Err(_) => return Err(ReplyFault::BadChunks),
        }
    }
}

/// Adds the content of a body that ends with the connection, and answers whether that is closed.
#[tactic(auto, using(crate::proofs::Chunks::closed_whole))]
fn put_last(content: &mut Vec<u8>, after: &[u8], is_closed: bool) -> Result<bool, ReplyFault>
    requires { content.old.items ≡ [] }
    ensures whole { IfOk result
        (λ is_whole. IsTrue is_whole → IsCompleteBody is_closed framed.UntilClose after.now content.new.items) }
    ensures lacks_end { IfOk result
        (λ is_whole. IsFalse is_whole → IsIncompleteBody is_closed framed.UntilClose after.now) }
    ensures wrong { IfErr result (IsBadBody is_closed framed.UntilClose after.now) }
{
    if is_closed {
        content.extend_from_slice(after)?;
    }
    Ok(is_closed)
}

/// Adds the content of a body, and answers whether the body is complete.
fn put_body(
    content: &mut Vec<u8>,
    framing: Framing,
    after: &[u8],
    is_closed: bool,
) -> Result<bool, ReplyFault>
    requires { content.old.items ≡ [] }
    ensures whole { IfOk result
        (λ is_whole. IsTrue is_whole → IsCompleteBody is_closed framing after.now content.new.items) }
    ensures lacks_end { IfOk result (λ is_whole. IsFalse is_whole → IsIncompleteBody is_closed framing after.now) }
    ensures wrong { IfErr result (IsBadBody is_closed framing after.now) }
{
    match framing {
        Framing::NoBody => put_sized(content, 0, after),
        Framing::Length(len) => put_sized(content, len, after),
        Framing::Chunked => put_chunks(content, after),
        Framing::UntilClose => put_last(content, after, is_closed),
    }
}

/// For how many seconds the connection is kept after the reply that the bytes begin with. `is_over` says whether it is
/// closed, or more bytes follow these.
pub(crate) fn kept_in(bytes: &[u8], head: Head, is_over: bool) -> u32
    requires { IsHead bytes.now head }
    ensures { IsKept is_over bytes.now result }
{
    kept_after(
        is_over,
        head.framing,
        behind(bytes, head.len).len(),
        head.kept,
    )
}

/// Adds the content of the reply that the bytes begin with, by its head, and answers whether it is complete. `is_closed`
/// says whether the connection is closed after them, which ends a body without a stated length.
pub(crate) fn put_content(
    content: &mut Vec<u8>,
    bytes: &[u8],
    head: Head,
    is_closed: bool,
) -> Result<bool, ReplyFault>
    requires nothing { content.old.items ≡ [] }
    requires is_head { IsHead bytes.now head }
    ensures whole { IfOk result
        (λ is_whole. IsTrue is_whole → HasContent is_closed bytes.now content.new.items) }
    ensures lacks_end { IfOk result (λ is_whole. IsFalse is_whole → IsUnfinished is_closed bytes.now) }
    ensures wrong { IfErr result (IsBadMessage is_closed bytes.now) }
{
    if head.status != ACCEPTED {
        return Err(ReplyFault::Status(head.status));
    }
    match head.framing {
        Ok(framing) => put_body(content, framing, behind(bytes, head.len), is_closed),
        Err(_) => Err(ReplyFault::BadLength),
    }
}
