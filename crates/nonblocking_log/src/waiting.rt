//! The lines of a log that aren't written yet.
ghost use Rattle.std.specs.Prelude.{◌≡◌, [], IfOk};
ghost use Rattle.nonblocking_log.specs.Waiting.{has_none, next_chunk, with_line, without_chunk};

use std::alloc::{AllocError, Global};
use std::marker::Model;

/// The most bytes that wait.
pub const MOST_WAITING: usize = 65_536;

/// The most bytes that are written at once: a pipe that is ready takes these (POSIX: `PIPE_BUF` of Linux).
pub const CHUNK: usize = 4_096;

/// Lines that wait to be written, in order, and how many lines had no room. It allocates its memory once.
#[derive(Drop)]
pub struct WaitingLines {
    bytes: Vec<u8>,
    dropped: u64,
}

impl Model for WaitingLines {
    ghost use Rattle.std.specs.Prelude.{◌≤◌, vec_len};
    ghost use Rattle.std.specs.Vec.{vec_capacity};
    ghost use Rattle.nonblocking_log.specs.Waiting.{Waiting, most_waiting};

    ghost Value = { Waiting };

    ghost view = { λ it. record { bytes = it.bytes.items; dropped = it.dropped } };

    ghost invariant = { λ it. (vec_len it.bytes ≤ most_waiting) × (most_waiting ≤ vec_capacity it.bytes) };
}

impl WaitingLines {
    /// Nothing waits. It fails if it gets no memory.
    pub fn new(alloc: Global) -> Result<WaitingLines, AllocError>
        ensures { IfOk result (λ it. it ≡ record { bytes = []; dropped = 0 }) }
    {
        let bytes = Vec::with_capacity(alloc, MOST_WAITING)?;
        Ok(WaitingLines { bytes, dropped: 0 })
    }

    /// Adds a line, if there is room for all of it; otherwise counts it as dropped.
    pub fn put(&mut self, line: &[u8])
        ensures { self.new ≡ with_line line.now self.old }
    {
        if line.len() <= MOST_WAITING - self.bytes.len() {
            self.bytes.extend_from_slice(line).unwrap();
        } else {
            self.dropped = self.dropped.saturating_add(1);
        }
    }

    /// Whether nothing waits.
    pub fn is_empty(&self) -> bool
        ensures { result ≡ has_none self.now.bytes }
    {
        self.bytes.is_empty()
    }

    /// How many lines had no room.
    pub fn dropped(&self) -> u64
        ensures { result ≡ self.now.dropped }
    {
        self.dropped
    }

    /// The first bytes that wait, at most `CHUNK`.
    pub fn chunk(&self) -> &[u8]
        ensures { result.now ≡ next_chunk self.now }
    {
        let count = self.bytes.len().min(CHUNK);
        &self.bytes[..count]
    }

    /// Drops the bytes of `chunk`, which were written.
    pub fn chunk_written(&mut self)
        ensures { self.new ≡ without_chunk self.old }
    {
        let count = self.bytes.len().min(CHUNK);
        let left = self.bytes.len() - count;
        self.bytes.rotate_left(count);
        self.bytes.truncate(left);
    }
}
