//! Collects the head of a client's request.
ghost use Rattle.std.specs.Prelude.{◌≡◌, [], IfOk, OnErr, OnOk, take};
ghost use Rattle.web_wire.specs.Heads.{IsAnswerTo, with_more};

use crate::head::{Answer, MOST_HEAD, answer_to};
use crate::origin::Site;
use std::alloc::{AllocError, Global};
use std::marker::Model;

/// The first `room` bytes, or all if there are fewer.
fn front_of(bytes: &[u8], room: usize) -> &[u8]
    ensures { result.now ≡ take room bytes.now }
{
    bytes.get(..room).unwrap_or(bytes)
}

/// What a client sent so far: at most its first 8,192 bytes. Contracts see the bytes.
#[derive(Drop)]
pub struct HeadReader {
    bytes: Vec<u8>,
}

impl Model for HeadReader {
    ghost use Rattle.std.specs.Prelude.{ℕ, List, ◌≤◌, length};
    ghost use Rattle.web_wire.specs.Heads.{most_head};

    ghost Value = { List ℕ };

    ghost view = { λ reader. reader.bytes.items };

    ghost invariant = { λ reader. length reader.bytes.items ≤ most_head };
}

impl HeadReader {
    /// No bytes yet.
    pub fn new(alloc: Global) -> HeadReader
        ensures { result ≡ [] }
    {
        HeadReader {
            bytes: Vec::new(alloc),
        }
    }

    /// Takes received bytes, and returns the answer to all bytes so far; None if the head isn't complete yet. An error
    /// if memory is refused: then nothing is taken.
    pub fn take(&mut self, site: &Site, bytes: &[u8]) -> Result<Option<Answer>, AllocError>
        ensures taken { OnOk result (self.new ≡ with_more self.old bytes.now) }
        ensures unchanged { OnErr result (self.new ≡ self.old) }
        ensures answer { IfOk result (IsAnswerTo site.now self.new) }
    {
        let room = MOST_HEAD - self.bytes.as_slice().len();
        self.bytes.extend_from_slice(front_of(bytes, room))?;
        Ok(answer_to(site, self.bytes.as_slice()))
    }
}
