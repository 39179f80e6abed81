//! A line that is received in pieces.
ghost use Rattle.std.specs.Prelude.{◌≡◌, IfErr, IfOk, MatchOption, Some, [], option_map};
ghost use Rattle.service_wire.specs.Lines.{IsNoLine, IsOpen, line_in, received};

use crate::fronts::{front_of, place_of};
use crate::line_fault::LineFault;
use std::alloc::{AllocError, Global};
use std::marker::Model;
use std::str;

/// The most bytes of a command's line, with LF.
pub const COMMAND_LIMIT: usize = 512;

/// The most bytes of an answer's line, with LF.
pub const ANSWER_LIMIT: usize = 8_192;

/// The first bytes that are received, up to a limit. It allocates its memory once. Contracts see the limit, and these
/// bytes: so a line doesn't depend on how the bytes are cut into pieces.
#[derive(Drop)]
pub struct LineBuffer {
    bytes: Vec<u8>,
    limit: usize,
}

impl Model for LineBuffer {
    ghost use Rattle.std.specs.Prelude.{◌≤◌, vec_len};
    ghost use Rattle.std.specs.Vec.{vec_capacity};
    ghost use Rattle.service_wire.specs.Lines.{Received};

    ghost Value = { Received };

    ghost view = { λ it. record { limit = it.limit; bytes = it.bytes.items } };

    ghost invariant = { λ it. (vec_len it.bytes ≤ it.limit) × (it.limit ≤ vec_capacity it.bytes) };
}

/// The bytes before the first LF; None if there is no LF.
fn line_in(bytes: &[u8]) -> Option<&[u8]>
    ensures { option_map (λ line. line.now) result ≡ line_in bytes.now }
{
    match place_of(b'\n', bytes) {
        Some(end) => Some(&bytes[..end]),
        None => None,
    }
}

impl LineBuffer {
    /// A buffer with room for `limit` bytes, and nothing received. It fails if it gets no memory.
    pub fn new(alloc: Global, limit: usize) -> Result<LineBuffer, AllocError>
        ensures { IfOk result (λ it. it ≡ record { limit = limit; bytes = [] }) }
    {
        let bytes = Vec::with_capacity(alloc, limit)?;
        Ok(LineBuffer { bytes, limit })
    }

    /// Takes received bytes. Those beyond the limit are dropped. It never allocates.
    pub fn push(&mut self, bytes: &[u8])
        ensures { self.new ≡ received self.old bytes.now }
    {
        let room = self.limit - self.bytes.len();
        self.bytes.extend_from_slice(front_of(bytes, room)).unwrap();
    }

    /// The line up to the first LF, without it; Ok(None) if more bytes are awaited. What follows the LF is ignored. The
    /// error is `TooLong` if there is no LF within the limit, and `NotText` if the line isn't UTF-8.
    pub fn line(&self) -> Result<Option<&str>, LineFault>
        ensures line { IfOk result (λ line. MatchOption line (IsOpen self.now)
            (λ text. line_in self.now.bytes ≡ Some text.now)) }
        ensures fault { IfErr result (IsNoLine self.now) }
    {
        match line_in(self.bytes.as_slice()) {
            Some(line) => match str::from_utf8(line) {
                Ok(text) => Ok(Some(text)),
                Err(_) => Err(LineFault::NotText),
            },
            None if self.bytes.len() < self.limit => Ok(None),
            None => Err(LineFault::TooLong),
        }
    }
}
