//! A page: its socket, and its end of the WebSocket.
ghost use Rattle.std.specs.Prelude.{◌≡◌, ◌+◌, ◌≤◌, [], true, Err, OnErr, OnOk, length};
ghost use Rattle.web_wire.specs.Notices.{notice_text};
ghost use Rattle.web_wire.specs.Sockets.{IsRead, is_full, is_over, most_input};
ghost use Rattle.websocket.specs.Content.{ping, text};
ghost use Rattle.web.specs.Links.{IsTaken, ReadsPage, Receives, SendsPage, WritesFront, has_output, with_drawing, with_message};

use host_core::{LinkRead, LinkWrite};
use jobs::{CHUNK, RawRead, RawWrite, read_once, write_once};
use std::alloc::Global;
use std::marker::Model;
use web_wire::{Notice, PageSocket, Received, SendFault, Stage};

/// A page: its socket of type `B`, and its end of the WebSocket.
#[derive(Drop)]
pub(crate) struct PageLink<B> {
    socket: B,
    frames: PageSocket,
}

impl<B> Model for PageLink<B> {
    ghost use Rattle.web.specs.Links.{Link};

    ghost Value = { Link B };

    ghost view = { λ link. record { socket = link.socket; frames = link.frames } };
}

/// Whether the socket is closed for messages.
fn is_over(stage: Stage) -> bool
    ensures { result ≡ is_over stage }
{
    matches!(stage, Stage::Over)
}

/// Adds received bytes to the input. Answers how many they are; Failed if memory is refused.
fn take(frames: &mut PageSocket, bytes: &[u8]) -> LinkRead
    requires { length frames.old.input + length bytes.now ≤ most_input }
    ensures { IsTaken (LinkRead.Got (length bytes.now)) bytes.now frames.old result frames.new }
{
    match frames.take(bytes) {
        Ok(()) => LinkRead::Got(bytes.len()),
        Err(_) => LinkRead::Failed,
    }
}

/// Reads a socket once, into this buffer with so much room, and takes what it gives.
fn read<B: RawRead>(
    socket: &mut B,
    frames: &mut PageSocket,
    room: usize,
    came: &mut [u8],
) -> LinkRead
    requires buffer { length came.old ≡ room }
    requires fits { length frames.old.input + room ≤ most_input }
    ensures { ReadsPage B.read_gave room socket.old frames.old result socket.new frames.new }
{
    match read_once(socket, came) {
        LinkRead::Got(count) => take(frames, &came[..count]),
        LinkRead::NotNow => LinkRead::NotNow,
        LinkRead::Ended => LinkRead::Ended,
        LinkRead::Failed => LinkRead::Failed,
    }
}

/// Writes bytes, at least one, to a socket once, and drops those that it took.
pub(crate) fn write_front<B: RawWrite>(socket: &mut B, bytes: &mut Vec<u8>) -> LinkWrite
    ensures { WritesFront B.write_took socket.old bytes.old.items result socket.new bytes.new.items }
{
    match write_once(socket, bytes.as_slice()) {
        LinkWrite::Took(count) => {
            let left = bytes.len() - count;
            bytes.rotate_left(count);
            bytes.truncate(left);
            LinkWrite::Took(count)
        }
        LinkWrite::NotNow => LinkWrite::NotNow,
        LinkWrite::Failed => LinkWrite::Failed,
    }
}

impl<B: RawRead + RawWrite + Drop> PageLink<B> {
    /// A page that has sent nothing yet.
    pub(crate) fn new(alloc: Global, socket: B) -> PageLink<B> {
        PageLink {
            socket,
            frames: PageSocket::new(alloc),
        }
    }

    /// The socket.
    pub(crate) fn socket(&self) -> &B {
        &self.socket
    }

    /// The socket.
    pub(crate) fn socket_mut(&mut self) -> &mut B {
        &mut self.socket
    }

    /// Whether bytes wait to be sent.
    pub(crate) fn has_output(&self) -> bool
        ensures { result ≡ has_output self.now }
    {
        !self.frames.out().is_empty()
    }

    /// Whether the WebSocket is closed: no message is sent any more.
    pub(crate) fn is_over(&self) -> bool
        ensures { result ≡ is_over self.now.frames.stage }
    {
        is_over(self.frames.stage())
    }

    /// Reads the socket once, if there is room for received bytes. Answers how many bytes it gave; Failed, too, if
    /// memory is refused for them.
    pub(crate) fn receive(&mut self) -> LinkRead
        ensures { Receives B.read_gave self.old result self.new }
    {
        let mut came = [0; CHUNK];
        let room = self.frames.room().min(CHUNK);
        if room == 0 {
            return LinkRead::NotNow;
        }
        read(&mut self.socket, &mut self.frames, room, &mut came[..room])
    }

    /// Writes to the socket once, if bytes wait to be sent.
    pub(crate) fn send(&mut self) -> LinkWrite
        ensures { SendsPage B.write_took self.old result self.new }
    {
        if self.frames.out().is_empty() {
            return LinkWrite::NotNow;
        }
        match write_once(&mut self.socket, self.frames.out()) {
            LinkWrite::Took(count) => {
                self.frames.sent(count);
                LinkWrite::Took(count)
            }
            LinkWrite::NotNow => LinkWrite::NotNow,
            LinkWrite::Failed => LinkWrite::Failed,
        }
    }

    /// Reads the next frame, and adds the bytes of keys (see `PageSocket::read_frame`).
    pub(crate) fn read_frame(&mut self, keys: &mut Vec<u8>) -> Received
        ensures frame { IsRead self.old.frames result keys.old.items keys.new.items self.new.frames }
        ensures socket { self.new.socket ≡ self.old.socket }
    {
        self.frames.read_frame(keys)
    }

    /// Sends what draws a picture, if that is something, and the WebSocket isn't closed. Full only if too many bytes would
    /// wait.
    pub(crate) fn draw(&mut self, drawing: &[u8]) -> Result<(), SendFault>
        ensures sent { OnOk result (self.new ≡ with_drawing drawing.now self.old) }
        ensures unchanged { OnErr result (self.new ≡ self.old) }
        ensures full { result ≡ Err SendFault.Full → is_full self.old.frames.output (length drawing.now) ≡ true }
    {
        if drawing.is_empty() || is_over(self.frames.stage()) {
            return Ok(());
        }
        self.frames.draw(drawing)
    }

    /// Sends a notice, if the WebSocket isn't closed.
    pub(crate) fn tell(&mut self, alloc: Global, notice: &Notice<'_>) -> Result<(), SendFault>
        ensures sent { OnOk result (self.new ≡ with_message (text (notice_text notice.now)) self.old) }
        ensures unchanged { OnErr result (self.new ≡ self.old) }
    {
        if is_over(self.frames.stage()) {
            return Ok(());
        }
        self.frames.tell(alloc, notice)
    }

    /// Sends a ping, if the WebSocket isn't closed.
    pub(crate) fn ping(&mut self) -> Result<(), SendFault>
        ensures sent { OnOk result (self.new ≡ with_message (ping []) self.old) }
        ensures unchanged { OnErr result (self.new ≡ self.old) }
    {
        if is_over(self.frames.stage()) {
            return Ok(());
        }
        self.frames.ping()
    }

    /// Closes the WebSocket, if it isn't closed: the close frame is sent behind what waits.
    pub(crate) fn close(&mut self) {
        if !is_over(self.frames.stage()) {
            self.frames.close();
        }
    }
}
