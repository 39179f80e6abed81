//! A client that has no session yet: it sends a request, or has begun a WebSocket and not opened a session.
ghost use Rattle.std.specs.Prelude.{◌≡◌, ◌-◌, ◌<◌, IfOk, IfSome, length, nat_le, not, option_map, position};
ghost use Rattle.std.specs.Option.{option_or};
ghost use Rattle.web.specs.Crowds.{leaving_place, sure_time};
ghost use Rattle.web.specs.Networks.{count_of, crowded_place, is_crowd};
ghost use Rattle.web_wire.specs.Heads.{IsAnswerTo, with_more};
ghost use Rattle.web_wire.specs.Responses.{response};

use crate::page_link::{PageLink, write_front};
use codes3270::Model;
use host_core::{LinkRead, LinkWrite};
use jobs::{CHUNK, RawRead, RawWrite, read_once};
use std::alloc::{AllocError, Global};
use std::net::SocketAddr;
use tn3270e_msg::Lu;
use web_wire::{
    Answer, Closing, HeadReader, HttpStatus, Opening, PageParts, Received, Site, response_of,
};

/// An answer, and the bytes of the response.
#[derive(Drop)]
pub(crate) struct Response {
    pub(crate) answer: Answer,
    pub(crate) bytes: Vec<u8>,
}

/// Takes received bytes of a request, and returns the response to all bytes so far; None if the head isn't complete. An
/// error if memory is refused.
fn respond(
    alloc: Global,
    site: &Site,
    page: PageParts<'_>,
    head: &mut HeadReader,
    bytes: &[u8],
) -> Result<Option<Response>, AllocError>
    ensures taken { IfOk result (λ _. head.new ≡ with_more head.old bytes.now) }
    ensures answer { IfOk result
        (λ found. IsAnswerTo site.now head.new (option_map (λ response. response.answer) found)) }
    ensures response { IfOk result
        (λ found. IfSome found (λ it. it.bytes.items ≡ response it.answer page.entry)) }
{
    match head.take(site, bytes)? {
        Some(answer) => Ok(Some(Response {
            answer,
            bytes: response_of(alloc, answer, page)?,
        })),
        None => Ok(None),
    }
}

/// What a turn of a client was.
#[derive(Clone, Copy)]
pub(crate) enum Visit {
    /// The client goes on. `moved`: a byte was read or written.
    Going { moved: bool },
    /// The request has another answer than a handshake: this status. The client has the response.
    Answered(HttpStatus),
    /// The first message asks for a session of this model, for this LU if it names one.
    Opened(Model, Option<Lu>),
    /// The first message has a token with these bytes, to resume a session.
    Resumed([u8; 16]),
    /// The WebSocket is closed, for this reason.
    Closed(Closing),
    /// Its time is over.
    Late,
    /// The socket has ended or failed, or memory is refused.
    Gone,
}

/// What a first message asks for.
fn asked_by(opening: Opening) -> Visit {
    match opening {
        Opening::New(model, lu) => Visit::Opened(model, lu),
        Opening::Resume(token) => Visit::Resumed(*token.as_bytes()),
    }
}

/// A client without a session.
#[derive(Drop)]
pub(crate) struct Visitor<B> {
    link: PageLink<B>,
    /// The address of the client.
    pub(crate) peer: SocketAddr,
    /// Its network.
    pub(crate) network: u128,
    /// When it connected, in milliseconds of the server's time.
    pub(crate) began: u64,
    /// Whether it has sent anything.
    pub(crate) has_sent: bool,
    /// The request so far; None once it is answered.
    head: Option<HeadReader>,
    /// What is left of the response.
    response: Vec<u8>,
}

/// For how long a client that sends something is sure of its place, in milliseconds.
const SURE_TIME: u64 = 1_000;

/// The first client that has sent nothing.
fn silent_place<B>(visitors: &[Visitor<B>]) -> Option<usize>
    ensures place { result ≡ position (λ it. not it.has_sent) visitors.now }
    ensures in_range { IfSome result (λ place. place < length visitors.now) }
{
    visitors.iter().position(|visitor| !visitor.has_sent)
}

/// The first client that isn't sure of its place.
fn unsure_place<B>(visitors: &[Visitor<B>], now: u64) -> Option<usize>
    ensures place { result ≡ position (λ it. nat_le sure_time (now - it.began)) visitors.now }
    ensures in_range { IfSome result (λ place. place < length visitors.now) }
{
    visitors
        .iter()
        .position(|visitor| SURE_TIME <= now.saturating_sub(visitor.began))
}

/// How many clients without a session of one network keep their places from those of others.
const FAIR_SHARE: usize = 8;

/// How many clients are of a network.
fn visitors_of<B>(visitors: &[Visitor<B>], network: u128) -> usize
    ensures { result ≡ count_of (λ it. it.network) network visitors.now }
{
    visitors
        .iter()
        .filter(|visitor| visitor.network == network)
        .count()
}

/// Whether a client of the network `other` makes room for one of this network, since it has more than its share.
fn is_crowd<B>(visitors: &[Visitor<B>], network: u128, other: u128) -> bool
    ensures { result ≡ is_crowd (λ it. it.network) network visitors.now other }
{
    let count = visitors_of(visitors, other);
    other != network && FAIR_SHARE < count
}

/// The first client of a network that has more than its share, if a client of another network comes.
fn crowded_place<B>(visitors: &[Visitor<B>], network: u128) -> Option<usize>
    ensures place { result ≡ crowded_place (λ it. it.network) network visitors.now }
    ensures in_range { IfSome result (λ place. place < length visitors.now) }
{
    visitors
        .iter()
        .position(|visitor| is_crowd(visitors, network, visitor.network))
}

/// The first client that makes room for a new one of a network and has sent something.
fn busy_place<B>(visitors: &[Visitor<B>], network: u128, now: u64) -> Option<usize>
    ensures place { result ≡ option_or (crowded_place (λ it. it.network) network visitors.now)
        (position (λ it. nat_le sure_time (now - it.began)) visitors.now) }
    ensures in_range { IfSome result (λ place. place < length visitors.now) }
{
    match crowded_place(visitors, network) {
        Some(place) => Some(place),
        None => unsure_place(visitors, now),
    }
}

/// Which client without a session makes room for a new one of a network, of these, the oldest first: the first that has
/// sent nothing; or else the first of another network that has more than 8 of these; or else the first that has been there
/// for a second.
pub(crate) fn leaving_place<B>(visitors: &[Visitor<B>], network: u128, now: u64) -> Option<usize>
    ensures place { result
        ≡ leaving_place (λ it. it.has_sent) (λ it. it.network) (λ it. it.began) network now visitors.now }
    ensures in_range { IfSome result (λ place. place < length visitors.now) }
{
    match silent_place(visitors) {
        Some(place) => Some(place),
        None => busy_place(visitors, network, now),
    }
}

impl<B: RawRead + RawWrite + Drop> Visitor<B> {
    /// A client that has just connected.
    pub(crate) fn new(
        alloc: Global,
        socket: B,
        peer: SocketAddr,
        network: u128,
        began: u64,
    ) -> Visitor<B> {
        Visitor {
            link: PageLink::new(alloc, socket),
            peer,
            network,
            began,
            has_sent: false,
            head: Some(HeadReader::new(alloc)),
            response: Vec::new(alloc),
        }
    }

    /// Its page, and the response that it lacks so far.
    pub(crate) fn into_parts(self) -> (PageLink<B>, Vec<u8>) {
        (self.link, self.response)
    }

    /// One turn: reads or writes once.
    pub(crate) fn turn(&mut self, alloc: Global, site: &Site, page: PageParts<'_>) -> Visit {
        if self.head.is_some() {
            return self.read_head(alloc, site, page);
        }
        if !self.response.is_empty() {
            return self.accept();
        }
        self.read_opening(alloc)
    }

    /// Reads once, and answers the request if its head is complete.
    fn read_head(&mut self, alloc: Global, site: &Site, page: PageParts<'_>) -> Visit {
        let mut came = [0; CHUNK];
        let count = match read_once(self.link.socket_mut(), &mut came) {
            LinkRead::Got(count) => count,
            LinkRead::NotNow => return Visit::Going { moved: false },
            LinkRead::Ended | LinkRead::Failed => return Visit::Gone,
        };
        self.has_sent = true;
        let Some(head) = &mut self.head else {
            return Visit::Gone;
        };
        match respond(alloc, site, page, head, &came[..count]) {
            Ok(None) => Visit::Going { moved: true },
            Ok(Some(response)) => self.answer(response),
            Err(_) => Visit::Gone,
        }
    }

    /// Takes the response to the request, and begins to write it if it accepts a handshake.
    fn answer(&mut self, response: Response) -> Visit {
        self.head = None;
        self.response = response.bytes;
        match response.answer {
            Answer::Status(status) => Visit::Answered(status),
            Answer::Handshake(_) => self.accept(),
        }
    }

    /// Writes the rest of the response that accepts the handshake once.
    fn accept(&mut self) -> Visit {
        match write_front(self.link.socket_mut(), &mut self.response) {
            LinkWrite::Took(_) => Visit::Going { moved: true },
            LinkWrite::NotNow => Visit::Going { moved: false },
            LinkWrite::Failed => Visit::Gone,
        }
    }

    /// Reads the first message, once it is complete.
    fn read_opening(&mut self, alloc: Global) -> Visit {
        let came = self.link.receive();
        if matches!(came, LinkRead::Ended | LinkRead::Failed) {
            return Visit::Gone;
        }
        self.link.send();
        match self.link.read_frame(&mut Vec::new(alloc)) {
            Received::Opened(opening) => asked_by(opening),
            Received::Closed(closing) => Visit::Closed(closing),
            Received::Waiting => Visit::Going {
                moved: matches!(came, LinkRead::Got(_)),
            },
            Received::Handled | Received::Keys | Received::Pong => Visit::Going { moved: true },
        }
    }
}
