//! The lines of a log, and the sink that they are written to.
use crate::gate::Gate;
use crate::waiting::{CHUNK, MOST_WAITING, WaitingLines};
use jobs::Sink;
use std::alloc::{AllocError, Global};
use std::net::Net;
use std::os::fd::RawFd;
use std::time::Duration;

/// How long `finish` waits for the system at most, in steps of this many milliseconds.
const LAST_STEPS: u64 = 10;

const LAST_STEP: u64 = 100;

/// Writes lines to a sink when that doesn't block.
#[derive(Drop)]
pub struct NonBlockingLog<'a, E> {
    sink: &'a mut E,
    gate: Gate,
    waiting: WaitingLines,
}

impl<'a, E: Sink> NonBlockingLog<'a, E> {
    /// A log whose sink writes to this descriptor. It fails if it gets no memory.
    pub fn new(
        net: &impl Net,
        alloc: Global,
        descriptor: RawFd,
        sink: &'a mut E,
    ) -> Result<NonBlockingLog<'a, E>, AllocError> {
        Ok(NonBlockingLog {
            gate: Gate::new(net, alloc, descriptor)?,
            waiting: WaitingLines::new(alloc)?,
            sink,
        })
    }

    /// Writes a line, now or later; counts it as dropped if too much waits already.
    pub fn put(&mut self, line: &[u8]) {
        self.waiting.put(line);
        self.flush();
    }

    /// Writes what waits, as far as the system can take it now. What can't be written at all is left out.
    pub fn flush(&mut self) {
        self.flush_within(Duration::ZERO);
    }

    /// Writes what waits, and waits for the system for about a second at most.
    pub fn finish(&mut self) {
        for _ in 0..LAST_STEPS {
            self.flush_within(Duration::from_millis(LAST_STEP));
        }
    }

    fn flush_within(&mut self, time: Duration) {
        for _ in 0..MOST_WAITING / CHUNK {
            if self.waiting.is_empty() || !self.gate.opens_within(time) {
                return;
            }
            let _ = self.sink.write_all(self.waiting.chunk());
            self.waiting.chunk_written();
        }
    }

    /// Whether all lines are written.
    pub fn is_empty(&self) -> bool {
        self.waiting.is_empty()
    }

    /// How many lines were dropped so far.
    pub fn dropped(&self) -> u64 {
        self.waiting.dropped()
    }
}
