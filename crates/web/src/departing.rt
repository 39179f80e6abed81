//! A client that is still sent something, and then has only to close.
use crate::page_link::{PageLink, write_front};
use host_core::{LinkRead, LinkWrite};
use jobs::{CHUNK, read_once};
use mio::net::TcpStream;
use std::net::Shutdown;

/// What one turn did for a client that departs.
#[derive(Clone, Copy)]
pub(crate) enum Progress {
    /// Bytes were read or sent.
    Moved,
    /// Nothing.
    Still,
    /// The client must be dropped.
    Over,
}

/// A client that is sent a response, or the rest of what waited for its page. After the last byte this side is shut
/// down, and what the client sends is dropped: if this end closed with bytes unread, TCP could discard what was sent.
#[derive(Drop)]
pub(crate) struct Departing {
    link: PageLink<TcpStream>,
    /// The response.
    response: Vec<u8>,
    /// When it began to depart, in milliseconds of the server's time.
    pub(crate) began: u64,
    is_shut: bool,
}

impl Departing {
    /// A client that is sent this response, and then what waits for its page.
    pub(crate) fn new(link: PageLink<TcpStream>, response: Vec<u8>, began: u64) -> Departing {
        Departing {
            link,
            response,
            began,
            is_shut: false,
        }
    }

    /// Writes once, or reads once.
    pub(crate) fn turn(&mut self) -> Progress {
        if !self.response.is_empty() {
            return self.respond();
        }
        if self.link.has_output() {
            return match self.link.send() {
                LinkWrite::Took(_) => Progress::Moved,
                LinkWrite::NotNow => Progress::Still,
                LinkWrite::Failed => Progress::Over,
            };
        }
        if !self.is_shut {
            self.is_shut = true;
            let _ = self.link.socket().shutdown(Shutdown::Write);
        }
        self.read()
    }

    /// Writes the rest of the response once.
    fn respond(&mut self) -> Progress {
        match write_front(self.link.socket_mut(), &mut self.response) {
            LinkWrite::Took(_) => Progress::Moved,
            LinkWrite::NotNow => Progress::Still,
            LinkWrite::Failed => Progress::Over,
        }
    }

    /// Reads once, and drops what it gives.
    fn read(&mut self) -> Progress {
        let mut dropped = [0; CHUNK];
        match read_once(self.link.socket_mut(), &mut dropped) {
            LinkRead::Got(_) => Progress::Moved,
            LinkRead::NotNow => Progress::Still,
            LinkRead::Ended | LinkRead::Failed => Progress::Over,
        }
    }
}
