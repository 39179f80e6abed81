//! Appends items, as bytes, to a vector.
//!
//! Each call appends exactly the item's bytes. It succeeds if the vector has room for them. If memory is
//! refused, the vector keeps the bytes that it had. Its capacity never shrinks.
ghost use Rattle.std.specs.Prelude.{◌≡◌, ◌≤◌, ◌∷◌, ◌++◌, [], take, vec_len, OnOk, OnErr};
ghost use Rattle.std.specs.List.{flat_map};
ghost use Rattle.std.specs.Vec.{vec_capacity};
ghost use Rattle.telnet_wire.specs.Token.{escaped, text, spelling, Opt, Sub};
ghost use Rattle.telnet_wire.specs.Items.{record_tokens};
ghost use Rattle.telnet_wire.specs.Writing.{Appends, Tries, joined};

use crate::codes::{EOR, IAC, SB, SE};
use crate::wire::{Memory, Verb};

/// Appends a record: its data, in which each 255 is doubled, and IAC EOR (RFC 885).
///
/// It needs at most two bytes for each byte of data, and two more. If memory is refused, the vector keeps its bytes.
pub fn put_record(out: &mut Vec<u8>, bytes: &[u8]) -> Result<(), Memory>
    ensures { Appends out.old (text (record_tokens bytes.now)) result out.new }
{
    let start = out.len();
    let written = try_record(out, bytes);
    undo(out, start, written)
}

/// Appends the negotiation of an option: IAC, the verb and the option's code, three bytes (RFC 854,
/// "TELNET Command Structure").
///
/// If memory is refused, the vector keeps the bytes that it had.
pub fn put_option(out: &mut Vec<u8>, verb: Verb, code: u8) -> Result<(), Memory>
    ensures { Appends out.old (spelling (Opt verb code)) result out.new }
{
    out.extend_from_slice(&[IAC, verb.code(), code])
}

/// Appends a subnegotiation: IAC SB, the bytes, in which each 255 is doubled, and IAC SE (RFC 855).
///
/// The bytes must begin with the option's code. A decoder of this crate refuses more than 256 of them;
/// this call writes any number. If memory is refused, the vector keeps the bytes that it had.
pub fn put_sub(out: &mut Vec<u8>, bytes: &[u8]) -> Result<(), Memory>
    ensures { Appends out.old (spelling (Sub bytes.now)) result out.new }
{
    put_sub_parts(out, &[bytes])
}

/// Appends a subnegotiation whose bytes are in several parts, as [`put_sub`] does with the parts' bytes in order.
///
/// If memory is refused, the vector keeps the bytes that it had, and has none of the parts.
pub fn put_sub_parts(out: &mut Vec<u8>, parts: &[&[u8]]) -> Result<(), Memory>
    ensures { Appends out.old (spelling (Sub (joined parts.now))) result out.new }
{
    let start = out.len();
    let written = try_sub_parts(out, parts);
    undo(out, start, written)
}

// Removes what was written since `start`, if the writing failed.
fn undo(out: &mut Vec<u8>, start: usize, written: Result<(), Memory>) -> Result<(), Memory>
    requires { start ≤ vec_len out.old }
    ensures same { result ≡ written }
    ensures ok { OnOk written (out.new.items ≡ out.old.items) }
    ensures err { OnErr written (out.new.items ≡ take start out.old.items) }
    ensures capacity { vec_capacity out.new ≡ vec_capacity out.old }
{
    if written.is_err() {
        out.truncate(start);
    }
    written
}

fn try_record(out: &mut Vec<u8>, bytes: &[u8]) -> Result<(), Memory>
    ensures { Tries out.old (flat_map escaped bytes.now ++ 255 ∷ 239 ∷ []) result out.new }
{
    try_escaped(out, bytes)?;
    out.extend_from_slice(&[IAC, EOR])
}

fn try_sub_parts(out: &mut Vec<u8>, parts: &[&[u8]]) -> Result<(), Memory>
    ensures { Tries out.old (spelling (Sub (joined parts.now))) result out.new }
{
    out.extend_from_slice(&[IAC, SB])?;
    try_parts(out, parts)?;
    out.extend_from_slice(&[IAC, SE])
}

fn try_parts(out: &mut Vec<u8>, parts: &[&[u8]]) -> Result<(), Memory>
    ensures { Tries out.old (flat_map escaped (joined parts.now)) result out.new }
{
    for part in parts {
        try_escaped(out, part)?;
    }
    Ok(())
}

fn try_escaped(out: &mut Vec<u8>, bytes: &[u8]) -> Result<(), Memory>
    ensures { Tries out.old (flat_map escaped bytes.now) result out.new }
{
    for byte in bytes {
        put_escaped(out, *byte)?;
    }
    Ok(())
}

fn put_escaped(out: &mut Vec<u8>, byte: u8) -> Result<(), Memory>
    ensures { Appends out.old (escaped byte) result out.new }
{
    if byte == IAC {
        out.extend_from_slice(&[IAC, IAC])
    } else {
        out.extend_from_slice(&[byte])
    }
}
