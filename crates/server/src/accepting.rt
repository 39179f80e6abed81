//! The connections that a listener hands to a server, and the trait that a listener implements.
use service_events::BadHeader;
use std::net::SocketAddr;

/// A connection that a listener accepted.
#[derive(Drop)]
pub struct Accepted<S> {
    /// The connection's socket.
    pub socket: S,
    /// The address of the peer; behind a proxy, of the client.
    pub peer: SocketAddr,
}

/// What a listener hands to a server.
#[derive(Drop)]
pub enum Arrival<S> {
    /// A connection.
    Begun(Accepted<S>),
    /// A connection from this address that was closed, since it has no header of the PROXY protocol.
    Refused(SocketAddr, BadHeader),
}

/// A listener.
///
/// `gave` relates the listener before a call, its answer, and the listener after it. Generic code obtains a `gave` only
/// by a call, so its contract can say which connections it accepted, and in which order.
pub trait Listener<S> {
    ghost use Rattle.std.specs.Prelude.{Option};
    ghost use Rattle.server.specs.declared.accepting.Arrival.{Arrival as ArrivalValue};

    ghost gave: { Self → Option (ArrivalValue S) → Self → Type 0 };

    /// Accepts a waiting connection; None if none waits, or if the system can't accept one now.
    fn accept(&mut self) -> Option<Arrival<S>>
        ensures { gave self.old result self.new };
}

/// A listener that hands on nobody.
#[derive(Drop)]
pub struct NoListener;

impl<S> Listener<S> for NoListener {
    ghost use Rattle.std.specs.Prelude.{◌≡◌, None};

    ghost gave = { λ _ answer _. answer ≡ None };

    fn accept(&mut self) -> Option<Arrival<S>> {
        None
    }
}
