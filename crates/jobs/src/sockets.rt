//! The sockets of a host's connections, by connection number.
ghost use Rattle.std.specs.Prelude.{◌≡◌, ◌<◌, IfOk, false, replicate};
ghost use Rattle.host_core.specs.State.{most_connections};
ghost use Rattle.jobs.specs.Sockets.{emptied, has_got, has_taken, is_connected, new_sockets, opened, slot_at, unused, with_slot, with_waiting};

use crate::raw::{RawRead, RawWrite};
use crate::socket_slot::SocketSlot;
use host_core::{LinkRead, LinkWrite, Links, MOST_CONNECTIONS};
use std::alloc::{AllocError, Global};
use std::marker::Model;

/// The sockets, of type `S`, of a host's 64 connection numbers, and whether a byte moved since `take_moved`.
///
/// A read returns NotNow while the connection's unsent output exceeds the limit that pauses reads. A read or a write
/// that can't raise a count returns NotNow, too.
#[derive(Drop)]
pub struct Sockets<S> {
    slots: Vec<SocketSlot<S>>,
    moved: bool,
}

impl<S> Model for Sockets<S> {
    ghost use Rattle.std.specs.Prelude.{◌≡◌, length};
    ghost use Rattle.host_core.specs.State.{most_connections};
    ghost use Rattle.jobs.specs.Sockets.{Sockets as SocketsValue};

    ghost Value = { SocketsValue S };

    ghost view = { λ sockets. record { slots = sockets.slots.items; moved = sockets.moved } };

    ghost invariant = { λ sockets. length sockets.slots.items ≡ most_connections };
}

/// 64 slots without a socket.
fn unused_slots<S: RawRead + RawWrite + Drop>(
    alloc: Global,
) -> Result<Vec<SocketSlot<S>>, AllocError>
    ensures { IfOk result (λ slots. slots.items ≡ replicate most_connections unused) }
{
    let mut slots = Vec::with_capacity(alloc, MOST_CONNECTIONS)?;
    for _ in 0..MOST_CONNECTIONS {
        slots.push(SocketSlot::unused())?;
    }
    Ok(slots)
}

/// Whether a read returned bytes.
fn has_got(answer: LinkRead) -> bool
    ensures { result ≡ has_got answer }
{
    matches!(answer, LinkRead::Got(_))
}

/// Whether a write took bytes.
fn has_taken(answer: LinkWrite) -> bool
    ensures { result ≡ has_taken answer }
{
    matches!(answer, LinkWrite::Took(_))
}

impl<S: RawRead + RawWrite + Drop> Sockets<S> {
    /// 64 numbers without connections. An error if memory is refused.
    pub fn new(alloc: Global) -> Result<Sockets<S>, AllocError>
        ensures { IfOk result (λ sockets. sockets ≡ new_sockets) }
    {
        Ok(Sockets {
            slots: unused_slots(alloc)?,
            moved: false,
        })
    }

    /// Whether a number has a connection.
    pub fn is_connected(&self, conn: usize) -> bool
        requires { conn < most_connections }
        ensures { result ≡ is_connected (slot_at conn self.now) }
    {
        self.slots[conn].is_connected()
    }

    /// The number of bytes received on a number's last connection.
    pub fn received(&self, conn: usize) -> u64
        requires { conn < most_connections }
        ensures { result ≡ (slot_at conn self.now).received }
    {
        self.slots[conn].received()
    }

    /// The number of bytes sent on a number's last connection.
    pub fn sent(&self, conn: usize) -> u64
        requires { conn < most_connections }
        ensures { result ≡ (slot_at conn self.now).sent }
    {
        self.slots[conn].sent()
    }

    /// Begins a connection with this socket on a number.
    pub fn open(&mut self, conn: usize, socket: S)
        requires { conn < most_connections }
        ensures { self.new ≡ with_slot conn (opened socket (slot_at conn self.old)) self.old }
    {
        self.slots[conn].open(socket);
    }

    /// Ends the connection of a number, and closes its socket.
    pub fn close(&mut self, conn: usize)
        requires { conn < most_connections }
        ensures { self.new ≡ with_slot conn (emptied (slot_at conn self.old)) self.old }
    {
        self.slots[conn].close();
    }

    /// Sets the number of bytes that are not sent yet on a connection.
    pub fn set_waiting(&mut self, conn: usize, waiting: usize)
        requires { conn < most_connections }
        ensures { self.new ≡ with_slot conn (with_waiting waiting (slot_at conn self.old)) self.old }
    {
        self.slots[conn].set_waiting(waiting);
    }

    /// Whether a byte was read or written since the last call of this function.
    pub fn take_progress(&mut self) -> bool
        ensures moved { result ≡ self.old.moved }
        ensures taken { self.new ≡ record self.old { moved = false } }
    {
        std::mem::replace(&mut self.moved, false)
    }
}

impl<S: RawRead + RawWrite + Drop> Links for Sockets<S> {
    ghost use Rattle.jobs.specs.Sockets.{GivesAt, TakesAt, ends_at, failures_at};

    ghost ends = { λ sockets conn. ends_at conn sockets };

    ghost failures = { λ sockets conn. failures_at conn sockets };

    ghost gave = { GivesAt S.read_gave };

    ghost took = { TakesAt S.write_took };

    fn read(&mut self, conn: usize, buffer: &mut [u8]) -> LinkRead {
        if conn >= self.slots.len() {
            return LinkRead::NotNow;
        }
        let answer = self.slots[conn].read(buffer);
        self.moved |= has_got(answer);
        answer
    }

    fn write(&mut self, conn: usize, bytes: &[u8]) -> LinkWrite {
        if conn >= self.slots.len() {
            return LinkWrite::NotNow;
        }
        let answer = self.slots[conn].write(bytes);
        self.moved |= has_taken(answer);
        answer
    }
}
