//! A terminal with the socket of its connection.

use codes3270::Model;
use host_core::{LinkRead, LinkWrite};
use jobs::{CHUNK, Fault, SocketSlot};
use keyboard::Key;
use mio::net::TcpStream;
use std::alloc::{AllocError, Global};
use std::net::SocketAddr;
use term_core::{TermPhase, Terminal};
use tn3270e_msg::{Lu, Stop};
use world3270::Stepped;

/// A terminal, and its connection with its local address, if there is one.
#[derive(Drop)]
pub(crate) struct SocketTerminal {
    pub(crate) terminal: Terminal,
    socket: SocketSlot<TcpStream>,
    address: Option<SocketAddr>,
}

impl SocketTerminal {
    /// A terminal of a model without a connection.
    pub(crate) fn new(alloc: Global, model: Model) -> Result<SocketTerminal, AllocError> {
        Ok(SocketTerminal {
            terminal: Terminal::new(alloc, model)?,
            socket: SocketSlot::unused(),
            address: None,
        })
    }

    /// Whether it has no connection.
    pub(crate) fn is_idle(&self) -> bool {
        matches!(self.terminal.phase(), TermPhase::Idle)
    }

    /// Whether its socket has this local address.
    pub(crate) fn is_at(&self, address: SocketAddr) -> bool {
        self.address == Some(address)
    }

    /// Begins a connection, if the terminal is idle.
    pub(crate) fn connect(&mut self, socket: TcpStream, wanted: Option<Lu>) {
        if let TermPhase::Idle = self.terminal.phase() {
            self.terminal.connected(wanted);
            self.address = socket.local_addr().ok();
            self.socket.open(socket);
        }
    }

    /// Ends the connection, and closes the socket. Unsent output is lost.
    pub(crate) fn disconnect(&mut self) {
        self.terminal.lost();
        self.socket.close();
        self.address = None;
    }

    /// Presses a key, and returns the answer to that event.
    pub(crate) fn press(&mut self, key: Key) -> Result<Stepped, Fault> {
        match self.terminal.press(key) {
            Ok(pressed) => Ok(Stepped::of_key(pressed)),
            Err(_) => Err(Fault::NoMemory),
        }
    }

    /// Writes the terminal's output once. Answers whether a byte was taken. A failed connection is noticed by a read.
    fn send(&mut self) -> bool {
        match self.socket.write(self.terminal.out()) {
            LinkWrite::Took(count) => {
                self.terminal.sent(count);
                true
            }
            LinkWrite::NotNow | LinkWrite::Failed => false,
        }
    }

    /// Reads once, feeds the terminal the bytes, and writes once. Ends the connection if it ended or failed, or if the
    /// terminal closes it. Answers whether a byte was read or written.
    pub(crate) fn turn(&mut self) -> Result<bool, Fault> {
        let mut buffer = [0; CHUNK];
        let count = match self.socket.read(&mut buffer) {
            LinkRead::Got(count) => count,
            LinkRead::NotNow => 0,
            LinkRead::Ended | LinkRead::Failed => {
                self.disconnect();
                return Ok(false);
            }
        };
        let stop = self.terminal.feed(&buffer[..count]).stop;
        let sent = self.send();
        match stop {
            Stop::Going => {}
            Stop::Closed(_) => self.disconnect(),
            Stop::Memory => return Err(Fault::NoMemory),
        }
        Ok((count > 0) | sent)
    }
}
