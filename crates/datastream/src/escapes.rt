//! Replacing graphic escapes in inbound data.
ghost use Rattle.std.specs.Prelude.{◌≡◌, ◌+◌, ◌≤◌, ◌==◌, ◌&&◌, length, nat_lt, slice_index_or};
ghost use Rattle.std.specs.Iterator.{YieldsFirst, item_count};
ghost use Rattle.datastream.specs.Escapes.{graphic_escape, operand_count, without_escapes, has_escapes};

use crate::order_codes::{SET_BUFFER_ADDRESS, START_FIELD};
use std::marker::Model;

/// Graphic Escape (GE): one byte follows, a character's code in another character set.
const GRAPHIC_ESCAPE: u8 = 0x08;

/// The character SUB.
const SUBSTITUTE: u8 = 0x3F;

/// How many bytes precede the text of inbound data: the AID and the two bytes of the cursor's address.
const BYTES_BEFORE_TEXT: usize = 3;

/// How many bytes belong to a byte as its address or attribute.
fn operands(byte: u8) -> usize
    ensures { result ≡ operand_count byte }
{
    match byte {
        SET_BUFFER_ADDRESS => 2,
        START_FIELD => 1,
        _ => 0,
    }
}

/// Whether an escape is next: GE and another byte, neither of which is one of the `copied` next bytes.
fn is_escape(copied: usize, bytes: &[u8]) -> bool
    ensures { result ≡ (copied == 0 && nat_lt 1 (length bytes.now)
        && slice_index_or bytes.now 0 0 == graphic_escape) }
{
    copied == 0 && matches!(bytes, [GRAPHIC_ESCAPE, _, ..])
}

/// How many bytes are copied behind this one, if it is the first of `copied` such bytes, or none of them.
fn copied_behind(copied: usize, byte: u8) -> usize
    ensures operands { copied ≡ 0 → result ≡ operand_count byte }
    ensures one_less { 1 ≤ copied → copied ≡ 1 + result }
{
    if copied == 0 {
        operands(byte)
    } else {
        copied - 1
    }
}

/// An iterator over the bytes of inbound data, with its escapes replaced (GA23-0059-07, "Graphic Escape (GE)").
/// Contracts see their list.
///
/// A terminal sends a character that its code page lacks as an escape: the byte 08 and a code of another character
/// set. [`read_inbound`](crate::read_inbound) takes such data for faulty. Here each escape becomes one SUB, X'3F';
/// addresses and attributes, in which 08 is no escape, and all other bytes are copied.
#[derive(Drop)]
pub struct WithoutEscapes<'a> {
    /// How many bytes at the front are copied, whatever they are.
    copied: usize,
    bytes: &'a [u8],
}

impl<'a> Model for WithoutEscapes<'a> {
    ghost use Rattle.std.specs.Prelude.{ℕ, List};
    ghost use Rattle.datastream.specs.Escapes.{replaced_behind};

    ghost Value = { List ℕ };

    ghost view = { λ left. replaced_behind left.copied left.bytes.now };
}

impl<'a> WithoutEscapes<'a> {
    /// The bytes of inbound data from its AID on.
    pub fn new(bytes: &'a [u8]) -> WithoutEscapes<'a>
        ensures bytes { result ≡ without_escapes bytes.now }
        ensures no_longer { length result ≤ length bytes.now }
    {
        WithoutEscapes {
            copied: BYTES_BEFORE_TEXT,
            bytes,
        }
    }
}

impl<'a> Iterator for WithoutEscapes<'a> {
    type Item = u8;

    ghost next_gives = { YieldsFirst (λ left. left) };

    ghost remaining = { item_count (λ left. left) };

    fn next(&mut self) -> Option<u8> {
        if is_escape(self.copied, self.bytes) {
            self.bytes = &self.bytes[2..];
            return Some(SUBSTITUTE);
        }
        let [byte, rest @ ..] = self.bytes else {
            return None;
        };
        self.copied = copied_behind(self.copied, *byte);
        self.bytes = rest;
        Some(*byte)
    }
}

/// Whether inbound data has a graphic escape that [`WithoutEscapes`] replaces.
pub fn has_escapes(bytes: &[u8]) -> bool
    ensures { result ≡ has_escapes bytes.now }
{
    let length = bytes.len();
    WithoutEscapes::new(bytes).count() < length
}
