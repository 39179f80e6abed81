//! A reader of the header, which takes no byte that follows it.
ghost use Rattle.std.specs.Prelude.{◌≡◌, ◌++◌, ◌+◌, ◌≤◌, [], IfErr, IfOk, IfSome, IfNone, length, take};
ghost use Rattle.service_wire.specs.Header.{IsAwaited, IsHeader, IsRefused, IsWholly};
ghost use Rattle.service_wire.specs.Fronts.{Lacks};
ghost use Rattle.service_wire.specs.HeaderReader.{IsMissing, longest_header, received};

use crate::fronts::after;
use crate::header::{Header, read_header};
use crate::header_block::{SIGNATURE, missing_in_block};
use crate::header_fault::HeaderFault;
use std::marker::Model;

/// The most bytes of a header.
pub const MOST_BYTES: usize = 536;

/// The fewest bytes of a header: `PROXY UNKNOWN` and CRLF.
const LEAST_BYTES: usize = 15;

/// Puts bytes at a place of the room.
fn put(room: &mut [u8], place: usize, bytes: &[u8])
    requires { place + length bytes.now ≤ length room.old }
    ensures before { take place room.new ≡ take place room.old }
    ensures added { take (place + length bytes.now) room.new ≡ take place room.old ++ bytes.now }
{
    room[place..place + bytes.len()].copy_from_slice(bytes);
}

/// Reads the header of a connection. Contracts see the bytes that it has received so far, all of which belong to the
/// header.
#[derive(Drop)]
pub struct HeaderReader {
    bytes: [u8; MOST_BYTES],
    size: usize,
}

impl Model for HeaderReader {
    ghost use Rattle.std.specs.Prelude.{ℕ, List, take};
    ghost use Rattle.service_wire.specs.HeaderReader.{IsHeld};

    ghost Value = { List ℕ };

    ghost view = { λ reader. take reader.size reader.bytes };

    ghost invariant = { λ reader. IsHeld reader.bytes reader.size };
}

impl HeaderReader {
    /// A reader that has received nothing yet.
    pub fn new() -> HeaderReader
        ensures { result ≡ [] }
    {
        HeaderReader {
            bytes: [0; MOST_BYTES],
            size: 0,
        }
    }

    /// How many bytes the header has more, at least. Whoever receives no more than these takes none that follows it.
    pub fn missing(&self) -> usize
        ensures { IsMissing self.now result }
    {
        let bytes = &self.bytes[..self.size];
        if bytes.len() < LEAST_BYTES {
            return LEAST_BYTES - bytes.len();
        }
        match after(bytes, SIGNATURE) {
            Some(rest) => missing_in_block(rest),
            // CRLF may end a line anywhere.
            None => 1,
        }
    }

    /// Takes received bytes, no more than are `missing`. Returns the header, if these complete it; Ok(None) if more
    /// bytes are awaited. After a header or a fault the reader is as before the call.
    pub fn push(&mut self, bytes: &[u8]) -> Result<Option<Header>, HeaderFault>
        requires within { length self.old + length bytes.now ≤ longest_header }
        requires lacks { Lacks IsHeader self.old (length bytes.now) }
        ensures received { self.new ≡ received result self.old (self.old ++ bytes.now) }
        ensures awaited { IfOk result (λ found. IfNone found (IsAwaited (self.old ++ bytes.now))) }
        ensures found { IfOk result (λ found. IfSome found (IsWholly (self.old ++ bytes.now))) }
        ensures refused { IfErr result (IsRefused (self.old ++ bytes.now)) }
    {
        let size = self.size + bytes.len();
        put(&mut self.bytes, self.size, bytes);
        let answer = read_header(&self.bytes[..size]);
        if let Ok(None) = answer {
            self.size = size;
        }
        answer
    }
}
