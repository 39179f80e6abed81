//! The port at which a server listens, and the poll of all its sockets.
ghost use Rattle.std.specs.Prelude.{◌≡◌, IfErr};
ghost use Rattle.jobs.specs.declared.fault.Fault.TheVariants as fault;

use crate::accepting::{Accepted, Arrival, Listener};
use crate::proxy_listener::{MOST_HELD, ProxyListener};
use host_core::MOST_CONNECTIONS;
use jobs::Fault;
use mio::event::Source;
use mio::net::{TcpListener, TcpStream};
use mio::{Events, Interest, Poll, Token};
use std::alloc::Global;
use std::io::{self, ErrorKind};
use std::net::{Net, SocketAddr};
use std::time::Duration;

/// The most events of one poll. Sockets without an event are also served.
const MOST_EVENTS: usize = 128;

/// The poll token of the listener.
const LISTENER: Token = Token(MOST_CONNECTIONS);

/// The poll token of all connections.
const CONNECTION: usize = 0;

/// The listener of a server, and the poll to which accepted sockets are added.
#[derive(Drop)]
pub struct PolledListener {
    /// None once the port is closed.
    listener: Option<TcpListener>,
    poll: Poll,
}

impl Listener<TcpStream> for PolledListener {
    ghost gave = { λ _ _ _. Unit {0} };

    fn accept(&mut self) -> Option<Arrival<TcpStream>> {
        let Ok((mut socket, peer)) = self.listener.as_ref()?.accept() else {
            return None;
        };
        // Records are short, and their senders wait for answers. If one of these calls fails, the socket is still
        // served.
        let _ = socket.set_nodelay(true);
        let _ = register(&self.poll, &mut socket, CONNECTION);
        Some(Arrival::Begun(Accepted { socket, peer }))
    }
}

/// Adds a socket to a poll.
fn register<S: Source>(poll: &Poll, socket: &mut S, token: usize) -> io::Result<()> {
    let interest = Interest::READABLE | Interest::WRITABLE;
    poll.registry().register(socket, Token(token), interest)
}

/// A listener at an address, and a poll that has it.
fn listen(net: &impl Net, address: SocketAddr) -> io::Result<PolledListener> {
    let poll = Poll::new(net)?;
    let mut listener = TcpListener::bind(net, address)?;
    poll.registry()
        .register(&mut listener, LISTENER, Interest::READABLE)?;
    Ok(PolledListener {
        listener: Some(listener),
        poll,
    })
}

/// The port at which a server listens, and the poll of all its sockets.
#[derive(Drop)]
pub struct ServerPort {
    /// The connections that wait there.
    pub arrivals: ProxyListener<TcpStream, PolledListener>,
    events: Events,
}

impl ServerPort {
    /// Listens at an address; the system picks a free port if the port is 0. NoMemory if memory is refused;
    /// CannotListen if the system can't listen there, for example because the port is in use.
    pub fn listen(net: &impl Net, alloc: Global, address: SocketAddr) -> Result<ServerPort, Fault> {
        let Ok(events) = Events::with_capacity(alloc, MOST_EVENTS) else {
            return Err(Fault::NoMemory);
        };
        let Ok(held) = Vec::with_capacity(alloc, MOST_HELD) else {
            return Err(Fault::NoMemory);
        };
        let listener = match listen(net, address) {
            Ok(listener) => listener,
            Err(error) => return Err(Fault::CannotListen(address, error.kind())),
        };
        let arrivals = ProxyListener {
            listener,
            proxied: false,
            held,
            now: 0,
        };
        Ok(ServerPort { arrivals, events })
    }

    /// Expects a header of the PROXY protocol at the front of each connection that is accepted from now on.
    pub fn expect_headers(&mut self) {
        self.arrivals.proxied = true;
    }

    /// Closes the port, and the connections whose header isn't complete yet.
    pub fn close(&mut self) {
        self.arrivals.listener.listener = None;
        self.arrivals.held.clear();
    }

    /// The port's address. An error if the port is closed, or if the system can't report it.
    pub fn address(&self) -> io::Result<SocketAddr> {
        match &self.arrivals.listener.listener {
            Some(listener) => listener.local_addr(),
            None => Err(ErrorKind::NotConnected.into()),
        }
    }

    /// Adds a socket to the poll.
    pub fn register<S: Source>(&self, socket: &mut S, token: usize) -> io::Result<()> {
        register(&self.arrivals.listener.poll, socket, token)
    }

    /// Adds a listener to the poll.
    pub fn register_listener<L: Source>(&self, listener: &mut L, token: usize) -> io::Result<()> {
        let registry = self.arrivals.listener.poll.registry();
        registry.register(listener, Token(token), Interest::READABLE)
    }

    /// Waits until a socket is ready, at most for `timeout`. `now` is the server's time, in milliseconds, by which
    /// headers of the PROXY protocol are late. SocketFailed if the system can't wait.
    pub fn poll(&mut self, timeout: Duration, now: u64) -> Result<(), Fault>
        ensures { IfErr result (λ why. why ≡ fault.SocketFailed) }
    {
        self.arrivals.now = now;
        match self
            .arrivals
            .listener
            .poll
            .poll(&mut self.events, Some(timeout))
        {
            Ok(()) => Ok(()),
            Err(_) => Err(Fault::SocketFailed),
        }
    }
}
