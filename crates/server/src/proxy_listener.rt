//! A listener for connections from a proxy: each is held until its header of the PROXY protocol is complete.
ghost use Rattle.std.specs.Prelude.{◌≡◌, ◌<◌, length};
ghost use Rattle.service_wire.specs.HeaderReader.{IsMissing};
ghost use Rattle.server.specs.ProxyListener.{HandsNext, Holds, Leaves, Looks, ReadsOn, ReadsPart, ServesAt, ServesHeld, TakesIn, VisitsAt, arrival_of, is_late, newly_held, outcome_of, progress_of};

use crate::accepting::{Accepted, Arrival, Listener};
use host_core::LinkRead;
use jobs::{RawRead, read_once};
use service_events::BadHeader;
use service_wire::{Header, HeaderFault, HeaderReader, MOST_BYTES};
use std::net::SocketAddr;

/// The most connections that are held at one time. Others wait in the system's queue.
pub(crate) const MOST_HELD: usize = 64;

/// How long a header may take after its connection was accepted, in milliseconds.
const HEADER_TIME: u64 = 5_000;

/// What a read of a held connection came to.
#[derive(Clone, Copy)]
pub(crate) enum HeaderProgress {
    /// Bytes were read, and more are awaited.
    Moved,
    /// No bytes are there now.
    Still,
    /// The header is complete.
    Complete(Header),
    /// There will be none.
    Bad(BadHeader),
}

/// A connection whose header isn't complete yet.
#[derive(Drop)]
pub struct ConnectionAwaitingHeader<S> {
    accepted: Accepted<S>,
    /// When it was accepted, in milliseconds of the server's time.
    began: u64,
    /// What was read of the header.
    header: HeaderReader,
}

/// What the answer of a reader means.
fn progress_of(answer: Result<Option<Header>, HeaderFault>) -> HeaderProgress
    ensures { result ≡ progress_of answer }
{
    match answer {
        Ok(None) => HeaderProgress::Moved,
        Ok(Some(header)) => HeaderProgress::Complete(header),
        Err(fault) => HeaderProgress::Bad(BadHeader::Wrong(fault)),
    }
}

/// Whether the time for a header is over at `now`, in milliseconds of the server's time.
fn is_late(began: u64, now: u64) -> bool
    ensures { result ≡ is_late began now }
{
    HEADER_TIME <= now.saturating_sub(began)
}

/// The client's address, or why the connection is closed; None if it is held on.
fn outcome_of(
    progress: HeaderProgress,
    peer: SocketAddr,
    late: bool,
) -> Option<Result<SocketAddr, BadHeader>>
    ensures { result ≡ outcome_of progress peer late }
{
    match progress {
        HeaderProgress::Complete(header) => Some(Ok(header.client.unwrap_or(peer))),
        HeaderProgress::Bad(why) => Some(Err(why)),
        HeaderProgress::Moved | HeaderProgress::Still => {
            if late {
                Some(Err(BadHeader::Late))
            } else {
                None
            }
        }
    }
}

/// What is handed on of a connection that is no longer held. A refused one is closed.
fn arrival_of<S: Drop>(accepted: Accepted<S>, outcome: Result<SocketAddr, BadHeader>) -> Arrival<S>
    ensures { result ≡ arrival_of accepted outcome }
{
    match outcome {
        Ok(peer) => Arrival::Begun(Accepted {
            socket: accepted.socket,
            peer,
        }),
        Err(why) => Arrival::Refused(accepted.peer, why),
    }
}

impl<S: RawRead + Drop> ConnectionAwaitingHeader<S> {
    /// A connection that was accepted at `now`, in milliseconds of the server's time.
    fn new(accepted: Accepted<S>, now: u64) -> ConnectionAwaitingHeader<S>
        ensures { result ≡ newly_held accepted now }
    {
        ConnectionAwaitingHeader {
            accepted,
            began: now,
            header: HeaderReader::new(),
        }
    }

    /// Reads once, into a buffer that has room for no more bytes than the header has.
    fn read_into(&mut self, buffer: &mut [u8]) -> HeaderProgress
        requires { IsMissing self.old.header (length buffer.old) }
        ensures { ReadsPart S.read_gave self.old result self.new }
    {
        match read_once(&mut self.accepted.socket, buffer) {
            LinkRead::Got(count) => progress_of(self.header.push(&buffer[..count])),
            LinkRead::NotNow => HeaderProgress::Still,
            LinkRead::Ended | LinkRead::Failed => HeaderProgress::Bad(BadHeader::CutShort),
        }
    }

    /// Reads once, no more bytes than the header has.
    fn read_part(&mut self) -> HeaderProgress
        ensures { ReadsPart S.read_gave self.old result self.new }
    {
        let mut buffer = [0; MOST_BYTES];
        let missing = self.header.missing();
        self.read_into(&mut buffer[..missing])
    }

    /// Reads until no bytes are there now, or the header is complete or wrong.
    fn read_on(&mut self) -> HeaderProgress
        ensures { ReadsOn S.read_gave self.old result self.new }
    {
        for _ in 0..MOST_BYTES {
            match self.read_part() {
                HeaderProgress::Moved => {}
                progress => return progress,
            }
        }
        HeaderProgress::Still
    }

    /// Reads on. The client's address, or why the connection is closed; None if it is held on.
    fn serve(&mut self, now: u64) -> Option<Result<SocketAddr, BadHeader>>
        ensures { ServesHeld S.read_gave now self.old result self.new }
    {
        let (peer, late) = (self.accepted.peer, is_late(self.began, now));
        outcome_of(self.read_on(), peer, late)
    }
}

/// Reads the header of one of the held connections on.
fn serve_at<S: RawRead + Drop>(
    held: &mut Vec<ConnectionAwaitingHeader<S>>,
    index: usize,
    now: u64,
) -> Option<Result<SocketAddr, BadHeader>>
    requires { index < length held.old.items }
    ensures { ServesAt S.read_gave now index held.old.items result held.new.items }
{
    held[index].serve(now)
}

/// Hands on one of the held connections.
fn leave<S: RawRead + Drop>(
    held: &mut Vec<ConnectionAwaitingHeader<S>>,
    index: usize,
    outcome: Result<SocketAddr, BadHeader>,
) -> Arrival<S>
    requires { index < length held.old.items }
    ensures { Leaves index outcome held.old.items result held.new.items }
{
    arrival_of(held.remove(index).accepted, outcome)
}

/// Reads the header of one of the held connections on, and hands it on if it is no longer held.
fn visit<S: RawRead + Drop>(
    held: &mut Vec<ConnectionAwaitingHeader<S>>,
    index: usize,
    now: u64,
) -> Option<Arrival<S>>
    requires { index < length held.old.items }
    ensures { VisitsAt S.read_gave now index held.old.items result held.new.items }
{
    match serve_at(held, index, now) {
        Some(outcome) => Some(leave(held, index, outcome)),
        None => None,
    }
}

/// Visits the held connections, the oldest first, up to the first that is no longer held, and hands that on.
fn visit_each<S: RawRead + Drop>(
    held: &mut Vec<ConnectionAwaitingHeader<S>>,
    now: u64,
) -> Option<Arrival<S>>
    ensures { Looks S.read_gave now held.old.items result held.new.items }
{
    for index in 0..MOST_HELD {
        if index >= held.len() {
            return None;
        }
        if let Some(arrival) = visit(held, index, now) {
            return Some(arrival);
        }
    }
    None
}

/// Holds a connection that was accepted at `now`, or hands on what the listener refused. If memory is refused, the
/// connection is dropped.
fn hold<S: RawRead + Drop>(
    held: &mut Vec<ConnectionAwaitingHeader<S>>,
    arrival: Arrival<S>,
    now: u64,
) -> Option<Arrival<S>>
    ensures { Holds arrival now held.old.items result held.new.items }
{
    match arrival {
        Arrival::Begun(accepted) => {
            let _ = held.push(ConnectionAwaitingHeader::new(accepted, now));
            None
        }
        Arrival::Refused(peer, why) => Some(Arrival::Refused(peer, why)),
    }
}

/// Holds the connection that waits at the listener, if there is one, unless the most are held.
fn take_in<S: RawRead + Drop, L: Listener<S>>(
    listener: &mut L,
    held: &mut Vec<ConnectionAwaitingHeader<S>>,
    now: u64,
) -> Option<Arrival<S>>
    ensures { TakesIn S.read_gave now L.gave listener.old held.old.items result listener.new held.new.items }
{
    if held.len() >= MOST_HELD {
        return None;
    }
    match listener.accept() {
        Some(arrival) => hold(held, arrival, now),
        None => None,
    }
}

/// The next connection whose header is complete or wrong; None if there is none now.
fn next<S: RawRead + Drop, L: Listener<S>>(
    listener: &mut L,
    held: &mut Vec<ConnectionAwaitingHeader<S>>,
    now: u64,
) -> Option<Arrival<S>>
    ensures { HandsNext S.read_gave now L.gave listener.old held.old.items result listener.new held.new.items }
{
    match take_in(listener, held, now) {
        Some(refused) => Some(refused),
        None => visit_each(held, now),
    }
}

/// A listener whose connections begin with a header of the PROXY protocol, if `proxied` is set. Then it hands on each
/// connection when its header is complete, with the client's address, and with nothing read that follows the header.
#[derive(Drop)]
pub struct ProxyListener<S, L> {
    pub(crate) listener: L,
    pub proxied: bool,
    pub(crate) held: Vec<ConnectionAwaitingHeader<S>>,
    /// The server's time, in milliseconds.
    pub(crate) now: u64,
}

impl<S: RawRead + Drop, L: Listener<S>> Listener<S> for ProxyListener<S, L> {
    ghost use Rattle.server.specs.ProxyListener.{HandsOn};

    ghost gave = { λ old answer new. HandsOn S.read_gave old.now L.gave old.proxied old.listener old.held.items answer
        new.listener new.held.items };

    fn accept(&mut self) -> Option<Arrival<S>> {
        if self.proxied {
            next(&mut self.listener, &mut self.held, self.now)
        } else {
            self.listener.accept()
        }
    }
}
