//! The slot of a connection number: the socket of its connection, if there is one, and its counts.
ghost use Rattle.std.specs.Prelude.{◌≡◌, ◌<◌, length};
ghost use Rattle.host_core.specs.Serves.{GotWithin, TookWithin, bytes_got};
ghost use Rattle.jobs.specs.RawCalls.{is_transient, link_read, link_write};
ghost use Rattle.jobs.specs.Sockets.{IsValidReadCount, Gives, IsReadOnce, IsTelnetRead, IsWrittenOnce, Raises, Takes, TookSome, begins_with_iac, counted, emptied, is_connected, is_held_back, opened, unused, with_waiting};

use crate::raw::{RawRead, RawWrite};
use host_core::{LinkRead, LinkWrite};
use std::io::{self, ErrorKind};
use std::marker::Model;

/// Reads of a connection pause while more bytes than this are unsent on it.
const MOST_WAITING: usize = 65_536;

/// Interpret As Command, the byte before each command (RFC 854).
const IAC: u8 = 255;

/// Whether unsent output exceeds `MOST_WAITING`, which pauses reads. TCP's flow control then stops the peer.
fn is_held_back(waiting: usize) -> bool
    ensures { result ≡ is_held_back waiting }
{
    waiting > MOST_WAITING
}

/// Whether an error means only that the call did nothing and will be repeated.
pub fn is_transient(kind: ErrorKind) -> bool
    ensures { result ≡ is_transient kind }
{
    matches!(kind, ErrorKind::WouldBlock | ErrorKind::Interrupted)
}

/// The meaning of the answer to a read, if the buffer has room.
fn link_read(answer: io::Result<usize>) -> LinkRead
    ensures { result ≡ link_read answer }
{
    match answer {
        Ok(0) => LinkRead::Ended,
        Ok(count) => LinkRead::Got(count),
        Err(error) if is_transient(error.kind()) => LinkRead::NotNow,
        Err(_) => LinkRead::Failed,
    }
}

/// The meaning of the answer to a write of at least one byte.
fn link_write(answer: io::Result<usize>) -> LinkWrite
    ensures { result ≡ link_write answer }
{
    match answer {
        Ok(0) => LinkWrite::NotNow,
        Ok(count) => LinkWrite::Took(count),
        Err(error) if is_transient(error.kind()) => LinkWrite::NotNow,
        Err(_) => LinkWrite::Failed,
    }
}

/// Reads a socket once, into a buffer that has room.
pub fn read_once<S: RawRead>(socket: &mut S, buffer: &mut [u8]) -> LinkRead
    ensures within { IsValidReadCount result (length buffer.new) }
    ensures once { IsReadOnce S.read_gave socket.old (length buffer.new)
        (bytes_got result buffer.new) result socket.new }
{
    link_read(socket.read_once(buffer))
}

/// Writes to a socket once. There must be at least one byte.
pub fn write_once<S: RawWrite>(socket: &mut S, bytes: &[u8]) -> LinkWrite
    ensures within { TookSome result (length bytes.now) }
    ensures once { IsWrittenOnce S.write_took socket.old bytes.now result socket.new }
{
    link_write(socket.write_once(bytes))
}

/// Whether the bytes begin with IAC.
fn begins_with_iac(bytes: &[u8]) -> bool
    requires { 0 < length bytes.now }
    ensures { result ≡ begins_with_iac bytes.now }
{
    bytes[0] == IAC
}

/// Reads a socket once; `received` bytes came before. Failed, too, if the connection's first byte isn't IAC (RFC 854).
fn read_telnet<S: RawRead>(socket: &mut S, received: u64, buffer: &mut [u8]) -> LinkRead
    requires { 0 < length buffer.old }
    ensures within { IsValidReadCount result (length buffer.new) }
    ensures once { IsTelnetRead S.read_gave received socket.old (length buffer.new)
        (bytes_got result buffer.new) result socket.new }
{
    match read_once(socket, buffer) {
        LinkRead::Got(count) if received == 0 && !begins_with_iac(&buffer[..count]) => {
            LinkRead::Failed
        }
        answer => answer,
    }
}

/// Raises a count by one, unless it is at its greatest value. Answers whether it did.
fn raise(count: &mut u64) -> bool
    ensures { Raises result count.old count.new }
{
    match count.checked_add(1) {
        Some(next) => {
            *count = next;
            true
        }
        None => false,
    }
}

/// Adds a number of bytes to a count, which stops at its greatest value.
fn add_bytes(count: &mut u64, more: usize)
    ensures { count.new ≡ counted count.old more }
{
    *count = count.saturating_add(more as u64);
}

/// The slot of a connection number: the socket of its connection, if there is one; how many of the number's connections
/// ended and failed; and the bytes received and sent on its last connection.
#[derive(Drop)]
pub struct SocketSlot<S> {
    socket: Option<S>,
    /// The number of bytes that are not sent yet.
    waiting: usize,
    ends: u64,
    failures: u64,
    received: u64,
    sent: u64,
}

impl<S> Model for SocketSlot<S> {
    ghost use Rattle.jobs.specs.Sockets.{SocketSlot as SocketSlotValue};

    ghost Value = { SocketSlotValue S };

    ghost view = { λ slot. record {
      socket = slot.socket;
      waiting = slot.waiting;
      ends = slot.ends;
      failures = slot.failures;
      received = slot.received;
      sent = slot.sent;
    } };
}

impl<S: RawRead + RawWrite + Drop> SocketSlot<S> {
    /// The slot of a number that never had a connection.
    pub fn unused() -> SocketSlot<S>
        ensures { result ≡ unused }
    {
        SocketSlot {
            socket: None,
            waiting: 0,
            ends: 0,
            failures: 0,
            received: 0,
            sent: 0,
        }
    }

    /// Whether there is a connection.
    pub fn is_connected(&self) -> bool
        ensures { result ≡ is_connected self.now }
    {
        self.socket.is_some()
    }

    /// The number of bytes received on the last connection.
    pub fn received(&self) -> u64
        ensures { result ≡ self.now.received }
    {
        self.received
    }

    /// The number of bytes sent on the last connection.
    pub fn sent(&self) -> u64
        ensures { result ≡ self.now.sent }
    {
        self.sent
    }

    /// Begins a connection with this socket.
    pub fn open(&mut self, socket: S)
        ensures { self.new ≡ opened socket self.old }
    {
        self.socket = Some(socket);
        self.waiting = 0;
        self.received = 0;
        self.sent = 0;
    }

    /// Ends the connection, and closes the socket.
    pub fn close(&mut self)
        ensures { self.new ≡ emptied self.old }
    {
        self.socket = None;
        self.waiting = 0;
    }

    /// Sets the number of bytes that are not sent yet.
    pub fn set_waiting(&mut self, waiting: usize)
        ensures { self.new ≡ with_waiting waiting self.old }
    {
        self.waiting = waiting;
    }

    /// Reads the socket once. NotNow if there is no connection, if reads are paused, if the buffer has no room, or if a
    /// count can't be raised.
    pub fn read(&mut self, buffer: &mut [u8]) -> LinkRead
        ensures within { GotWithin result (length buffer.new) }
        ensures gives { Gives S.read_gave self.old (length buffer.new) (bytes_got result buffer.new) result self.new }
    {
        if is_held_back(self.waiting) {
            return LinkRead::NotNow;
        }
        if buffer.is_empty() {
            return LinkRead::NotNow;
        }
        let Some(socket) = &mut self.socket else {
            return LinkRead::NotNow;
        };
        match read_telnet(socket, self.received, buffer) {
            LinkRead::Got(count) => {
                add_bytes(&mut self.received, count);
                LinkRead::Got(count)
            }
            LinkRead::NotNow => LinkRead::NotNow,
            LinkRead::Ended => {
                if raise(&mut self.ends) {
                    LinkRead::Ended
                } else {
                    LinkRead::NotNow
                }
            }
            LinkRead::Failed => {
                if raise(&mut self.failures) {
                    LinkRead::Failed
                } else {
                    LinkRead::NotNow
                }
            }
        }
    }

    /// Writes the bytes to the socket once. NotNow if there is no connection, if there are no bytes, or if a count
    /// can't be raised.
    pub fn write(&mut self, bytes: &[u8]) -> LinkWrite
        ensures within { TookWithin result (length bytes.now) }
        ensures takes { Takes S.write_took self.old bytes.now result self.new }
    {
        if bytes.is_empty() {
            return LinkWrite::NotNow;
        }
        let Some(socket) = &mut self.socket else {
            return LinkWrite::NotNow;
        };
        match write_once(socket, bytes) {
            LinkWrite::Took(count) => {
                add_bytes(&mut self.sent, count);
                LinkWrite::Took(count)
            }
            LinkWrite::NotNow => LinkWrite::NotNow,
            LinkWrite::Failed => {
                if raise(&mut self.failures) {
                    LinkWrite::Failed
                } else {
                    LinkWrite::NotNow
                }
            }
        }
    }
}
