//! What operators ordered so far.
ghost use Rattle.std.specs.Prelude.{◌≡◌, IfOk, None, false, replicate};
ghost use Rattle.host_core.specs.State.{most_connections};
ghost use Rattle.service_events.specs.Timing.{is_over};
ghost use Rattle.server.specs.Control.{has_text, is_done, is_drained, is_ended, ordered, takes_nobody, with_drain, with_note_if};

use crate::note_queue::NoteQueue;
use crate::server::Server;
use jobs::{RawRead, RawWrite, Seconds};
use service_wire::{Command, NoteText, Recipient};
use std::alloc::{AllocError, Global};

/// What operators ordered so far.
#[derive(Drop)]
pub struct Orders {
    /// The notes that wait for their sessions.
    pub notes: NoteQueue,
    /// Since when no new session is taken, in milliseconds of the server's time.
    pub drained: Option<u64>,
    /// Whether the service ends now.
    pub stopped: bool,
}

/// Whether a limit is reached after this time in milliseconds; a limit of 0 seconds never is.
fn is_over(limit: Seconds, millis: u64) -> bool
    ensures { result ≡ is_over limit millis }
{
    let limit = u64::from(limit.get()) * 1000;
    0 < limit && limit <= millis
}

/// Whether a service that is drained since a time is over.
fn is_drained<S: RawRead + RawWrite + Drop>(limit: Seconds, server: &Server<S>, since: u64) -> bool
    ensures { result ≡ is_drained limit server.entry.now since }
{
    !server.has_connection() || is_over(limit, server.now.saturating_sub(since))
}

impl Orders {
    /// Nothing is ordered. An error if memory is refused.
    pub fn new(alloc: Global) -> Result<Orders, AllocError>
        ensures { IfOk result (λ orders. orders
            ≡ record { notes = replicate most_connections None; drained = None; stopped = false }) }
    {
        Ok(Orders {
            notes: NoteQueue::new(alloc)?,
            drained: None,
            stopped: false,
        })
    }

    /// Shows a text to everyone, unless it is empty.
    fn tell_everyone<S: RawRead + RawWrite + Drop>(&mut self, text: &NoteText, server: &Server<S>)
        ensures { self.new ≡ with_note_if (has_text text.now) text.now server.entry.now self.old }
    {
        if !text.codes().is_empty() {
            let _ = self.notes.add(&Recipient::Everyone, text, server);
        }
    }

    /// Takes no new session from `now` on, in milliseconds of the server's time, unless that was ordered before.
    fn drain(&mut self, now: u64)
        ensures { self.new ≡ with_drain now self.old }
    {
        self.drained = Some(self.drained.unwrap_or(now));
    }

    /// Orders what a command asks for. Answers whether the service does it: a note needs a recipient, and `reload` is
    /// no order.
    pub fn take<S: RawRead + RawWrite + Drop>(
        &mut self,
        command: &Command,
        server: &Server<S>,
    ) -> bool
        ensures ordered { self.new ≡ ordered command.now server.entry.now self.old }
        ensures done { result ≡ is_done command.now server.entry.now }
    {
        match command {
            Command::Reload => false,
            Command::Drain { text } => {
                self.tell_everyone(text, server);
                self.drain(server.now);
                true
            }
            Command::Note { to, text } => self.notes.add(to, text, server),
            Command::Sessions => true,
            Command::Stop => {
                self.stopped = true;
                true
            }
        }
    }

    /// Whether no new session is taken.
    pub fn is_closed(&self) -> bool
        ensures { result ≡ takes_nobody self.now }
    {
        self.drained.is_some()
    }

    /// Whether operators ended the service. `limit` is the time for draining.
    pub fn have_ended<S: RawRead + RawWrite + Drop>(
        &self,
        limit: Seconds,
        server: &Server<S>,
    ) -> bool
        ensures { result ≡ is_ended limit self.now server.entry.now }
    {
        if self.stopped {
            return true;
        }
        match self.drained {
            Some(since) => is_drained(limit, server, since),
            None => false,
        }
    }
}
