//! The clients of the metrics port, or of the control socket: each sends one request, and gets one text.
use host_core::{LinkRead, LinkWrite};
use jobs::{Fault, RawRead, RawWrite, read_once, write_once};
use mio::event::Source;
use mio::net::{TcpListener, TcpStream, UnixListener, UnixStream};
use server::ServerPort;
use service_events::is_late;
use std::alloc::{AllocError, Global};
use std::io;
use std::net::Shutdown;

/// The most clients at one time. Any further client is dropped.
const MOST_CLIENTS: usize = 4;

/// The most clients that one turn accepts.
pub(crate) const MOST_ACCEPTED: usize = 64;

/// The size of the buffer of each read, in bytes.
const READ_ROOM: usize = 1024;

/// The socket of a client.
pub(crate) trait ClientSocket: RawRead + RawWrite + Source + Drop {
    type Listener: Source + Drop;

    /// Accepts a waiting client.
    fn accept(listener: &Self::Listener) -> io::Result<Self>;

    /// Shuts down the side that writes.
    fn end_writing(&self);
}

impl ClientSocket for TcpStream {
    type Listener = TcpListener;

    fn accept(listener: &TcpListener) -> io::Result<TcpStream> {
        Ok(listener.accept()?.0)
    }

    fn end_writing(&self) {
        let _ = self.shutdown(Shutdown::Write);
    }
}

impl ClientSocket for UnixStream {
    type Listener = UnixListener;

    fn accept(listener: &UnixListener) -> io::Result<UnixStream> {
        Ok(listener.accept()?.0)
    }

    fn end_writing(&self) {
        let _ = self.shutdown(Shutdown::Write);
    }
}

/// What a client has sent so far.
pub(crate) trait Request: Drop {
    /// A request of which nothing has been received. An error if memory is refused.
    fn begin(alloc: Global) -> Result<Self, AllocError>;
}

/// Answers requests of type `Q`.
pub(crate) trait Responder<Q>: Drop {
    /// Takes received bytes. Returns the answer; None if the request isn't complete yet. After a fault the client is
    /// dropped.
    fn answer(&mut self, request: &mut Q, bytes: &[u8]) -> Result<Option<String>, Fault>;
}

/// What one turn did for a client.
#[derive(Clone, Copy)]
enum IoProgress {
    /// Bytes were read or sent.
    Moved,
    /// Nothing.
    Still,
    /// The client must be dropped.
    Over,
}

/// A text that is sent as its socket takes it.
#[derive(Drop)]
struct Reply {
    text: String,
    /// How many bytes have been sent.
    sent: usize,
}

impl Reply {
    /// Whether all of it has been sent.
    fn is_sent(&self) -> bool {
        self.sent >= self.text.len()
    }

    /// Writes once, as much of the rest as the socket takes. After the last byte this side is shut down, and the client
    /// has to close: if this end closed with bytes unread, TCP could discard what was sent.
    fn write<S: ClientSocket>(&mut self, socket: &mut S) -> IoProgress {
        let Some(unsent) = self.text.as_bytes().get(self.sent..) else {
            return IoProgress::Over;
        };
        match write_once(socket, unsent) {
            LinkWrite::Took(count) => {
                self.sent = self.sent.saturating_add(count);
                if self.is_sent() {
                    socket.end_writing();
                }
                IoProgress::Moved
            }
            LinkWrite::NotNow => IoProgress::Still,
            LinkWrite::Failed => IoProgress::Over,
        }
    }
}

/// A client.
#[derive(Drop)]
struct Client<S, Q> {
    socket: S,
    /// When it connected, in milliseconds of the server's time.
    began: u64,
    request: Q,
    /// The reply, once the request is complete.
    reply: Option<Reply>,
}

impl<S: ClientSocket, Q: Request> Client<S, Q> {
    /// Reads or writes once, and answers the request once it is complete. The client is dropped if its time is over, or
    /// if its socket ended or failed.
    fn serve<R: Responder<Q>>(&mut self, now: u64, responder: &mut R) -> Result<IoProgress, Fault> {
        if is_late(self.began, now) {
            return Ok(IoProgress::Over);
        }
        match &mut self.reply {
            Some(reply) if !reply.is_sent() => Ok(reply.write(&mut self.socket)),
            _ => self.read(responder),
        }
    }

    /// Reads once.
    fn read<R: Responder<Q>>(&mut self, responder: &mut R) -> Result<IoProgress, Fault> {
        let mut buffer = [0; READ_ROOM];
        match read_once(&mut self.socket, &mut buffer) {
            LinkRead::Got(count) => self.take(&buffer[..count], responder),
            LinkRead::NotNow => Ok(IoProgress::Still),
            LinkRead::Ended | LinkRead::Failed => Ok(IoProgress::Over),
        }
    }

    /// Takes received bytes, and answers at once if they complete the request. What follows it is ignored: the client
    /// then has only to close.
    fn take<R: Responder<Q>>(
        &mut self,
        bytes: &[u8],
        responder: &mut R,
    ) -> Result<IoProgress, Fault> {
        if self.reply.is_some() {
            return Ok(IoProgress::Still);
        }
        match responder.answer(&mut self.request, bytes)? {
            Some(text) => {
                let reply = self.reply.insert(Reply { text, sent: 0 });
                Ok(reply.write(&mut self.socket))
            }
            None => Ok(IoProgress::Moved),
        }
    }
}

/// A listener, and its clients.
#[derive(Drop)]
pub(crate) struct Clients<S: ClientSocket, Q> {
    pub(crate) alloc: Global,
    listener: S::Listener,
    /// The poll token of the listener and of its clients, which nothing else has.
    token: usize,
    clients: Vec<Client<S, Q>>,
}

impl<S: ClientSocket, Q: Request> Clients<S, Q> {
    /// A listener without clients.
    pub(crate) fn new(alloc: Global, listener: S::Listener, token: usize) -> Clients<S, Q> {
        Clients {
            alloc,
            listener,
            token,
            clients: Vec::new(alloc),
        }
    }

    /// Adds the listener to the server's poll. If that fails, a client waits at most 10 milliseconds.
    pub(crate) fn register(&mut self, polled: &ServerPort) {
        let _ = polled.register_listener(&mut self.listener, self.token);
    }

    /// Accepts the waiting clients.
    pub(crate) fn accept_all(&mut self, polled: &ServerPort, now: u64) {
        for _ in 0..MOST_ACCEPTED {
            match S::accept(&self.listener) {
                Ok(socket) => self.admit(polled, socket, now),
                Err(_) => break,
            }
        }
    }

    /// Takes a client, unless there are 4 already, or memory is refused.
    fn admit(&mut self, polled: &ServerPort, mut socket: S, now: u64) {
        if self.clients.len() >= MOST_CLIENTS {
            return;
        }
        let _ = polled.register(&mut socket, self.token);
        if let Ok(request) = Q::begin(self.alloc) {
            let _ = self.clients.push(Client {
                socket,
                began: now,
                request,
                reply: None,
            });
        }
    }

    /// Serves each client once, and drops those that are over. Answers whether a byte was read or written. The first
    /// fault ends the call.
    pub(crate) fn serve_all<R: Responder<Q>>(
        &mut self,
        now: u64,
        mut responder: R,
    ) -> Result<bool, Fault> {
        let mut moved = false;
        for index in (0..MOST_CLIENTS).rev() {
            moved |= self.serve(index, now, &mut responder)?;
        }
        Ok(moved)
    }

    /// Serves the client with this index, if there is one.
    fn serve<R: Responder<Q>>(
        &mut self,
        index: usize,
        now: u64,
        responder: &mut R,
    ) -> Result<bool, Fault> {
        if index >= self.clients.len() {
            return Ok(false);
        }
        let progress = self.clients[index].serve(now, responder);
        if matches!(progress, Ok(IoProgress::Over) | Err(_)) {
            self.clients.swap_remove(index);
        }
        Ok(matches!(progress?, IoProgress::Moved))
    }
}
