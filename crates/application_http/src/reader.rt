//! Reads an application's reply from bytes that are received in any pieces.
ghost use Rattle.std.specs.Prelude.{◌≡◌, ◌≤◌, ◌++◌, ◌↔◌, ℕ, ⊤, false, true, [], List, length, take, Some, None, IfErr, IfOk, IsSome, IsTrue, MatchOption};
ghost use Rattle.application_http.specs.Contents.{IsKept, IsUnfinished, most_bytes};
ghost use Rattle.application_http.specs.Readings.{ReturnsNone, HasReply, IsBadReply, IsFound, IsRefused, IsRefusedAfter, left_by};
ghost use Rattle.application_http.specs.Replies.{answer_in};

use crate::content::{MOST_BYTES, head_of, kept_in, put_content};
use crate::fault::ReplyFault;
use crate::reply::{Reply, read_reply};
use std::alloc::Global;
use std::marker::Model;

/// The reply at the start of the bytes; None if it isn't complete yet. `is_closed` says whether the connection is closed
/// after them, `is_over` whether it is closed, or more bytes follow.
fn reply_at(
    alloc: Global,
    bytes: &[u8],
    is_closed: bool,
    is_over: bool,
) -> Result<Option<Reply>, ReplyFault>
    ensures found { IfOk result (λ found. MatchOption found (IsUnfinished is_closed bytes.now)
        (λ reply. HasReply is_closed bytes.now (answer_in reply))) }
    ensures kept { IfOk result
        (λ found. MatchOption found ⊤ (λ reply. IsKept is_over bytes.now reply.kept)) }
    ensures bad { IfErr result (IsBadReply is_closed bytes.now) }
{
    let Some(head) = head_of(bytes)? else {
        return Ok(None);
    };
    let kept = kept_in(bytes, head, is_over);
    let mut content = Vec::new(alloc);
    if !put_content(&mut content, bytes, head, is_closed)? {
        return Ok(None);
    }
    let mut reply = read_reply(alloc, content.as_slice())?;
    reply.kept = kept;
    Ok(Some(reply))
}

/// The first `room` bytes, or all if there are fewer.
fn front_of(bytes: &[u8], room: usize) -> &[u8]
    ensures { result.now ≡ take room bytes.now }
{
    bytes.get(..room).unwrap_or(bytes)
}

/// Adds received bytes, up to 65,536 in all, and returns the reply if they complete it.
fn advance(alloc: Global, so_far: &mut Vec<u8>, bytes: &[u8]) -> Result<Option<Reply>, ReplyFault>
    requires { length so_far.old.items ≤ most_bytes }
    ensures held { length so_far.new.items ≤ most_bytes }
    ensures going { IfOk result
        (λ found. MatchOption found (so_far.new.items ≡ so_far.old.items ++ bytes.now) (λ _. ⊤)) }
    ensures found { IfOk result (IsFound false (so_far.old.items ++ bytes.now)) }
    ensures refused { IfErr result (IsRefusedAfter so_far.old.items bytes.now) }
{
    let room = MOST_BYTES - so_far.as_slice().len();
    so_far.extend_from_slice(front_of(bytes, room))?;
    let has_more = bytes.len() > room;
    match reply_at(alloc, so_far.as_slice(), false, has_more) {
        Ok(Some(reply)) => Ok(Some(reply)),
        Ok(None) if has_more => Err(ReplyFault::TooLong),
        Ok(None) => Ok(None),
        Err(why) => Err(why),
    }
}

/// The reply that all received bytes form, if the connection is closed after them.
fn conclude(alloc: Global, bytes: &[u8]) -> Result<Option<Reply>, ReplyFault>
    requires { length bytes.now ≤ most_bytes }
    ensures whole { IfOk result (λ found. IsSome found) }
    ensures found { IfOk result (IsFound true bytes.now) }
    ensures refused { IfErr result (IsRefused true bytes.now) }
{
    match reply_at(alloc, bytes, true, true) {
        Ok(Some(reply)) => Ok(Some(reply)),
        Ok(None) => Err(ReplyFault::CutShort),
        Err(why) => Err(why),
    }
}

/// Reads a reply that is received in pieces, of at most 65,536 bytes in all. Contracts see the bytes received so far,
/// or None once the reading is over.
#[derive(Drop)]
pub struct ReplyReader {
    bytes: Vec<u8>,
    is_over: bool,
}

impl Model for ReplyReader {
    ghost use Rattle.std.specs.Prelude.{ℕ, List, Option, Some, None, ◌≤◌, length, if◌then◌else◌};
    ghost use Rattle.application_http.specs.Contents.{most_bytes};

    ghost Value = { Option (List ℕ) };

    ghost view = { λ reader. if reader.is_over then None else Some reader.bytes.items };

    ghost invariant = { λ reader. length reader.bytes.items ≤ most_bytes };
}

impl ReplyReader {
    /// A reader that has received nothing yet.
    pub fn new(alloc: Global) -> ReplyReader
        ensures { result ≡ Some [] }
    {
        ReplyReader {
            bytes: Vec::new(alloc),
            is_over: false,
        }
    }

    /// Whether the reading is over: a call has returned the reply or a fault.
    pub fn is_over(&self) -> bool
        ensures { IsTrue result ↔ (self.now ≡ None) }
    {
        self.is_over
    }

    /// Takes received bytes, and returns the reply once it is complete; Ok(None) if it isn't yet. After the reply or a
    /// fault the reading is over: then no bytes are taken, and the answer is Ok(None). Refused memory is a fault.
    pub fn feed(&mut self, alloc: Global, bytes: &[u8]) -> Result<Option<Reply>, ReplyFault>
        ensures ignored { self.old ≡ None → (self.new ≡ None) × ReturnsNone result }
        ensures taken { (so_far : List ℕ) → self.old ≡ Some so_far → self.new ≡ left_by result (so_far ++ bytes.now) }
        ensures found { (so_far : List ℕ) → self.old ≡ Some so_far → IfOk result (IsFound false (so_far ++ bytes.now)) }
        ensures refused { (so_far : List ℕ) → self.old ≡ Some so_far → IfErr result (IsRefusedAfter so_far bytes.now) }
    {
        if self.is_over {
            return Ok(None);
        }
        let answer = advance(alloc, &mut self.bytes, bytes);
        self.is_over = !matches!(answer, Ok(None));
        answer
    }

    /// Takes the end of the connection, and returns the reply if that completes it, or CutShort if not. Ok(None) if the
    /// reading was already over.
    pub fn end(&mut self, alloc: Global) -> Result<Option<Reply>, ReplyFault>
        ensures over { self.new ≡ None }
        ensures ignored { self.old ≡ None → ReturnsNone result }
        ensures whole { (so_far : List ℕ) → self.old ≡ Some so_far → IfOk result (λ found. IsSome found) }
        ensures found { (so_far : List ℕ) → self.old ≡ Some so_far → IfOk result (IsFound true so_far) }
        ensures refused { (so_far : List ℕ) → self.old ≡ Some so_far → IfErr result (IsRefused true so_far) }
    {
        if self.is_over {
            return Ok(None);
        }
        self.is_over = true;
        conclude(alloc, self.bytes.as_slice())
    }
}
