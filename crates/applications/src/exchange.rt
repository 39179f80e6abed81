//! An exchange with an application: one request, and the reply on the same connection.
ghost use Rattle.std.specs.Prelude.{◌≡◌, string_bytes};
ghost use Rattle.std.specs.IoError.{error_kind};
ghost use Rattle.applications.specs.ExchangeTurns.{GoesOn, Hears, Reads, Serves, Writes, absence_by, begun, failed_by, hearing, in_time, read_as, unconnected_by, unsent_by};

use crate::application_fault::{Absence, ApplicationFault};
use application_http::{Reply, ReplyFault, ReplyReader};
use jobs::{RawRead, RawWrite};
use std::alloc::Global;
use std::io::{Error, ErrorKind};
use std::marker::Model;

/// The size of the buffer of each read, in bytes.
const READ_ROOM: usize = 8_192;

/// What one turn did for an exchange.
#[derive(Drop)]
pub enum IoProgress {
    /// Bytes were read or sent.
    Moved,
    /// Nothing.
    Still,
    /// It is over, with the reply or a fault.
    Over(Result<Reply, ApplicationFault>),
}

/// The reason for which an error of this kind ends an exchange; None if the call did nothing and will be repeated.
fn absence_by(kind: ErrorKind) -> Option<Absence>
    ensures { result ≡ absence_by kind }
{
    match kind {
        ErrorKind::WouldBlock | ErrorKind::Interrupted => None,
        ErrorKind::ConnectionRefused => Some(Absence::Refused),
        ErrorKind::OutOfMemory => Some(Absence::NoMemory),
        _ => Some(Absence::Broken),
    }
}

/// The reason for which no exchange begins, from the error of connecting.
pub(crate) fn absence_of(error: &Error) -> Absence
    ensures { result ≡ unconnected_by (error_kind error.now) }
{
    absence_by(error.kind()).unwrap_or(Absence::Broken)
}

/// The progress of an exchange after a read failed.
fn failed_by(kind: ErrorKind) -> IoProgress
    ensures { result ≡ failed_by (absence_by kind) }
{
    match absence_by(kind) {
        Some(absence) => IoProgress::Over(Err(ApplicationFault::Absent(absence))),
        None => IoProgress::Still,
    }
}

/// The progress of an exchange after a write failed. A stream that isn't connected yet takes nothing.
fn unsent_by(kind: ErrorKind) -> IoProgress
    ensures { result ≡ unsent_by kind }
{
    match kind {
        ErrorKind::NotConnected => IoProgress::Still,
        _ => failed_by(kind),
    }
}

/// The progress of an exchange after the reply's reader answered.
fn read_as(answer: Result<Option<Reply>, ReplyFault>) -> IoProgress
    ensures { result ≡ read_as answer }
{
    match answer {
        Ok(Some(reply)) => IoProgress::Over(Ok(reply)),
        Ok(None) => IoProgress::Moved,
        Err(fault) => IoProgress::Over(Err(ApplicationFault::Reply(fault))),
    }
}

/// The progress of a turn, given whether the reply is late: an exchange whose reply is late is over.
fn in_time(is_late: bool, progress: IoProgress) -> IoProgress
    ensures { result ≡ in_time is_late progress }
{
    match progress {
        IoProgress::Moved | IoProgress::Still if is_late => {
            IoProgress::Over(Err(ApplicationFault::Absent(Absence::Late)))
        }
        progress => progress,
    }
}

/// An exchange on its own stream. Contracts see the request, how many of its bytes were sent, and the bytes that were
/// received.
#[derive(Drop)]
pub(crate) struct Exchange<S> {
    alloc: Global,
    stream: S,
    /// When it began, in milliseconds of the server's time.
    began: u64,
    request: String,
    /// How many bytes of the request were sent.
    sent: usize,
    reader: ReplyReader,
}

impl<S> Model for Exchange<S> {
    ghost use Rattle.std.specs.Prelude.{◌≤◌, length, string_bytes};
    ghost use Rattle.applications.specs.Exchange.{Exchange as ExchangeValue};

    ghost Value = { ExchangeValue S };

    ghost view = { λ it. record {
      stream = it.stream;
      began = it.began;
      request = string_bytes it.request;
      sent = it.sent;
      heard = it.reader;
    } };

    ghost invariant = { λ it. it.sent ≤ length (string_bytes it.request) };
}

impl<S: RawRead + RawWrite + Drop> Exchange<S> {
    /// An exchange that begins at `began` on a connecting stream: nothing is sent or received yet.
    pub(crate) fn new(alloc: Global, stream: S, request: String, began: u64) -> Exchange<S>
        ensures { result ≡ begun stream (string_bytes request) began }
    {
        Exchange {
            alloc,
            stream,
            began,
            request,
            sent: 0,
            reader: ReplyReader::new(alloc),
        }
    }

    /// Its connection.
    pub(crate) fn into_stream(self) -> S
        ensures { result ≡ self.stream }
    {
        self.stream
    }

    /// Writes the rest of the request, as much as the stream takes.
    fn write(&mut self) -> IoProgress
        ensures { Writes S.write_took self.old result self.new }
    {
        let unsent = &self.request.as_bytes()[self.sent..];
        match self.stream.write_once(unsent) {
            Ok(count) => {
                self.sent += count;
                IoProgress::Moved
            }
            Err(error) => unsent_by(error.kind()),
        }
    }

    /// Adds received bytes and looks for the reply in all of them. No bytes mean that the connection is closed.
    fn hear(&mut self, bytes: &[u8]) -> IoProgress
        ensures hears { Hears bytes.now self.old.heard result self.new.heard }
        ensures rest { self.new ≡ hearing self.new.heard self.old.stream self.old }
    {
        if bytes.is_empty() {
            read_as(self.reader.end(self.alloc))
        } else {
            read_as(self.reader.feed(self.alloc, bytes))
        }
    }

    /// Reads once. The end of the connection may be the end of the reply.
    fn read(&mut self) -> IoProgress
        ensures { Reads S.read_gave self.old result self.new }
    {
        let mut buffer = [0; READ_ROOM];
        match self.stream.read_once(&mut buffer) {
            Ok(count) => self.hear(&buffer[..count]),
            Err(error) => failed_by(error.kind()),
        }
    }

    /// Writes the rest of the request; once it is sent, reads once.
    fn serve(&mut self) -> IoProgress
        ensures { Serves S.read_gave S.write_took self.old result self.new }
    {
        if self.sent < self.request.len() {
            self.write()
        } else {
            self.read()
        }
    }

    /// One turn at `now`, with at most `most` milliseconds for the reply. The exchange is over if the operator left, or
    /// if the reply is late.
    pub(crate) fn go_on(&mut self, has_operator: bool, now: u64, most: u64) -> IoProgress
        ensures { GoesOn S.read_gave S.write_took has_operator now most self.old result self.new }
    {
        if !has_operator {
            return IoProgress::Over(Err(ApplicationFault::Left));
        }
        let is_late = now.saturating_sub(self.began) >= most;
        in_time(is_late, self.serve())
    }
}
