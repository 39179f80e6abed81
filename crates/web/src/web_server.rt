//! The server of pages, and its loop.
ghost use Rattle.std.specs.Prelude.{◌≡◌, ◌<◌, None, IfErr, IfOk};

use crate::departing::{Departing, Progress};
use crate::limits::time_after;
use crate::log::{EventLog, WebEvent, WebLog};
use crate::network::network_of;
use crate::page_link::PageLink;
use crate::seat::{Seat, SeatTurn, SessionEnd, closing_word, has_most};
use crate::visitor::{Visit, Visitor, leaving_place};
use codes3270::Model as TerminalModel;
use jobs::{Fault, LiveFault, RawRandom, Sink, WebOptions, poll_timeout, report_and_exit_code};
use mio::event::Source;
use mio::net::{TcpListener, TcpStream};
use mio::{Events, Interest, Poll, Token};
use std::alloc::Global;
use std::fmt;
use std::io::{self, ErrorKind};
use std::marker::Model;
use std::net::{Net, SocketAddr};
use std::random::RandomSource;
use std::time::{Clock, Instant};
use tn3270e_msg::Lu;
use tty::Keymap;
use web_wire::{
    HttpStatus, Notice, Origin, OriginFault, PAGE, PageParts, SCRIPT_HASH, STYLE_HASH, Site,
    Token as PageToken,
};

/// The most clients without a session. Any further one is dropped.
const MOST_VISITORS: usize = 16;

/// The most sessions.
const MOST_SESSIONS: usize = 64;

/// The most clients that depart: visitors, and pages of sessions that ended.
const MOST_DEPARTING: usize = MOST_VISITORS + MOST_SESSIONS;

/// The most clients that one turn accepts.
const MOST_ACCEPTED: usize = 64;

/// How long a client may take to open a session, and how long one that departs may take, in milliseconds.
const VISIT_TIME: u64 = 5_000;

/// The most events of one poll. Sockets without an event are also served.
const MOST_EVENTS: usize = 128;

/// The poll token of the listener.
const LISTENER: Token = Token(0);

/// The poll token of all other sockets.
const SOCKET: Token = Token(1);

/// The page that is served.
const PAGE_PARTS: PageParts<'static> = PageParts {
    text: PAGE,
    script_hash: SCRIPT_HASH,
    style_hash: STYLE_HASH,
};

/// Whether the time of a client is over.
fn is_late(began: u64, now: u64) -> bool {
    VISIT_TIME <= now.saturating_sub(began)
}

/// The word for a status in the log.
fn status_word(status: HttpStatus) -> &'static str {
    match status {
        HttpStatus::Found => "found",
        HttpStatus::BadRequest => "bad-request",
        HttpStatus::Forbidden => "wrong-host-or-origin",
        HttpStatus::NotFound => "not-found",
        HttpStatus::MethodNotAllowed => "wrong-method",
        HttpStatus::UpgradeRequired => "wrong-version",
        HttpStatus::HeadTooLarge => "head-too-large",
    }
}

/// The word for why a client is refused; None if it isn't, or if it has never sent anything: browsers connect ahead of
/// requests that may not come.
fn refusal_word(visit: &Visit, has_sent: bool) -> Option<&'static str> {
    match visit {
        Visit::Late if has_sent => Some("late"),
        Visit::Answered(HttpStatus::Found) => None,
        Visit::Answered(status) => Some(status_word(*status)),
        Visit::Closed(closing) => Some(closing_word(*closing)),
        Visit::Late | Visit::Going { .. } | Visit::Opened(..) | Visit::Resumed(_) | Visit::Gone =>
            None,
    }
}

/// Why there is no room for a session.
#[derive(Clone, Copy)]
enum Lack {
    /// All sessions are in use.
    AllInUse,
    /// The client's network has as many sessions as it may have.
    NetworkFull,
}

impl Lack {
    /// The word for the log.
    fn word(self) -> &'static str {
        match self {
            Lack::AllInUse => "all-in-use",
            Lack::NetworkFull => "address-full",
        }
    }

    /// What the page is told.
    fn notice(self) -> Notice<'static> {
        match self {
            Lack::AllInUse => Notice::Busy,
            Lack::NetworkFull => {
                Notice::Ended("your address has as many sessions as one address may have")
            }
        }
    }
}

/// The server: its listener and poll, the clients without a session, the sessions, and the clients that depart.
/// Contracts see how many these are; there are never more than 16, `most_sessions`, and 80.
#[derive(Drop)]
struct WebServer {
    alloc: Global,
    listener: TcpListener,
    poll: Poll,
    events: Events,
    site: Site,
    host: SocketAddr,
    most_sessions: usize,
    /// The most sessions of one network; 0 is no limit.
    most_of_one: usize,
    /// What keys do that don't do what is usual.
    keymap: String,
    /// How long a session is kept without a page, in milliseconds.
    keep: u64,
    visitors: Vec<Visitor<TcpStream>>,
    seats: Vec<Seat>,
    departing: Vec<Departing>,
    /// The number of the last session.
    last_number: u64,
    /// The server's time, in milliseconds.
    now: u64,
}

impl Model for WebServer {
    ghost use Rattle.web.specs.Crowds.{Crowd, IsBounded, crowd_of};

    ghost Value = { Crowd };

    ghost view = { λ server. crowd_of server.visitors.items server.seats.items server.departing.items
        server.most_sessions };

    ghost invariant = { λ server. IsBounded (crowd_of server.visitors.items server.seats.items server.departing.items
        server.most_sessions) };
}

/// Adds a socket to a poll. If that fails, it waits at most 10 milliseconds.
fn register<S: Source>(poll: &Poll, socket: &mut S) {
    let interest = Interest::READABLE | Interest::WRITABLE;
    let _ = poll.registry().register(socket, SOCKET, interest);
}

/// A listener at an address, which is in this poll.
fn listen_in(net: &impl Net, address: SocketAddr, poll: &Poll) -> io::Result<TcpListener> {
    let mut listener = TcpListener::bind(net, address)?;
    poll.registry()
        .register(&mut listener, LISTENER, Interest::READABLE)?;
    Ok(listener)
}

/// A listener at an address, and a poll that has it.
fn listen(net: &impl Net, address: SocketAddr) -> io::Result<(TcpListener, Poll)> {
    let poll = Poll::new(net)?;
    let listener = listen_in(net, address, &poll)?;
    Ok((listener, poll))
}

/// A token of 128 random bits, all of one call of the source. NotRandom if it can't give them.
fn draw_token<R: RawRandom>(source: &R) -> Result<PageToken, Fault>
    ensures random { IfOk result (R.filled source.now) }
    ensures fails { IfErr result (λ fault. fault ≡ Fault.NotRandom) }
{
    let mut bytes = [0; 16];
    match source.fill_once(&mut bytes) {
        Ok(()) => Ok(PageToken::new(bytes)),
        Err(_) => Err(Fault::NotRandom),
    }
}

impl WebServer {
    /// A server that listens at an address. CannotListen if the system refuses that; NoMemory if memory is refused.
    fn new(
        net: &impl Net,
        alloc: Global,
        site: Site,
        options: &WebOptions<'_>,
        keymap: &Keymap,
    ) -> Result<WebServer, Fault> {
        let address = SocketAddr::new(options.listen, options.port.get());
        let visitors = Vec::with_capacity(alloc, MOST_VISITORS)?;
        let seats = Vec::with_capacity(alloc, MOST_SESSIONS)?;
        let departing = Vec::with_capacity(alloc, MOST_DEPARTING)?;
        let events = Events::with_capacity(alloc, MOST_EVENTS)?;
        let keymap = keymap.words(alloc)?;
        let (listener, poll) = match listen(net, address) {
            Ok(parts) => parts,
            Err(error) => return Err(Fault::CannotListen(address, error.kind())),
        };
        Ok(WebServer {
            alloc,
            listener,
            poll,
            events,
            site,
            host: SocketAddr::new(options.host.host, options.host.port.get()),
            most_sessions: usize::from(options.sessions.get()),
            most_of_one: usize::from(options.per_address.get()),
            keymap,
            keep: u64::from(options.keep.get()).saturating_mul(1000),
            visitors,
            seats,
            departing,
            last_number: 0,
            now: 0,
        })
    }

    /// Takes the time after a turn, by the clock before and after it, in milliseconds.
    fn keep_time(&mut self, before: u64, after: u64)
        ensures { self.new ≡ self.old }
    {
        self.now = time_after(self.now, before, after);
    }

    /// Waits until a socket is ready, or not at all if the turn before did something (`busy`).
    fn wait(&mut self, busy: bool) -> Result<(), Fault> {
        match self.poll.poll(&mut self.events, Some(poll_timeout(busy))) {
            Ok(()) => Ok(()),
            Err(error) => match error.kind() {
                // The program was stopped, and continues.
                ErrorKind::Interrupted => Ok(()),
                _ => Err(Fault::SocketFailed),
            },
        }
    }

    /// Accepts the waiting clients.
    fn accept_all<L: EventLog>(&mut self, log: &mut L) {
        for _ in 0..MOST_ACCEPTED {
            match self.listener.accept() {
                Ok((socket, peer)) => self.admit(socket, peer, log),
                Err(_) => break,
            }
        }
    }

    /// Takes a client, unless there are 16 without a session of which none makes room, or memory is refused.
    fn admit<L: EventLog>(&mut self, mut socket: TcpStream, peer: SocketAddr, log: &mut L) {
        let network = network_of(peer.ip().to_canonical());
        self.make_room(network, log);
        if self.visitors.len() >= MOST_VISITORS {
            return log.note(&WebEvent::TurnedAway(peer));
        }
        // If one of these calls fails, the socket is still served.
        let _ = socket.set_nodelay(true);
        register(&self.poll, &mut socket);
        let visitor = Visitor::new(self.alloc, socket, peer, network, self.now);
        let _ = self.visitors.push(visitor);
    }

    /// If there are 16 clients without a session, drops the one that makes room for a new one of a network, if one does.
    fn make_room<L: EventLog>(&mut self, network: u128, log: &mut L) {
        if self.visitors.len() < MOST_VISITORS {
            return;
        }
        if let Some(place) = leaving_place(self.visitors.as_slice(), network, self.now) {
            let visitor = self.visitors.remove(place);
            log.note(&WebEvent::TurnedAway(visitor.peer));
        }
    }

    /// Lets a client go once it was sent this response, and what waits for its page.
    fn depart(&mut self, link: PageLink<TcpStream>, response: Vec<u8>) {
        if self.departing.len() < MOST_DEPARTING {
            let client = Departing::new(link, response, self.now);
            let _ = self.departing.push(client);
        }
    }

    /// Tells a page why it has no session, closes its WebSocket, and lets it go.
    fn dismiss(&mut self, mut link: PageLink<TcpStream>, notice: &Notice<'_>) {
        let _ = link.tell(self.alloc, notice);
        link.close();
        let none = Vec::new(self.alloc);
        self.depart(link, none);
    }

    // ---- clients without a session

    /// Takes one turn for each client without a session. Answers whether something moved.
    fn serve_visitors<R: Net + RandomSource, L: EventLog>(&mut self, rt: &R, log: &mut L) -> bool {
        let mut moved = false;
        for index in (0..MOST_VISITORS).rev() {
            if index < self.visitors.len() {
                moved |= self.serve_visitor(rt, index, log);
            }
        }
        moved
    }

    /// Takes one turn for a client without a session.
    fn serve_visitor<R: Net + RandomSource, L: EventLog>(
        &mut self,
        rt: &R,
        index: usize,
        log: &mut L,
    ) -> bool
        requires { index < self.old.visitors }
    {
        match self.visit(index) {
            Visit::Going { moved } => moved,
            visit => {
                let visitor = self.visitors.remove(index);
                self.end_visit(rt, visitor, visit, log);
                true
            }
        }
    }

    /// What a turn of a client without a session is.
    fn visit(&mut self, index: usize) -> Visit
        requires { index < self.old.visitors }
        ensures { self.new ≡ self.old }
    {
        if is_late(self.visitors[index].began, self.now) {
            Visit::Late
        } else {
            self.visitors[index].turn(self.alloc, &self.site, PAGE_PARTS)
        }
    }

    /// Takes from a client that is no visitor any more what its last turn was.
    fn end_visit<R: Net + RandomSource, L: EventLog>(
        &mut self,
        rt: &R,
        visitor: Visitor<TcpStream>,
        visit: Visit,
        log: &mut L,
    ) {
        let (peer, network) = (visitor.peer, visitor.network);
        if let Some(word) = refusal_word(&visit, visitor.has_sent) {
            log.note(&WebEvent::Refused(peer, word));
        }
        let (mut link, response) = visitor.into_parts();
        if matches!(visit, Visit::Opened(..) | Visit::Resumed(_)) {
            // Without memory its keys do what is usual.
            let _ = link.tell(self.alloc, &Notice::Keymap(&self.keymap));
        }
        match visit {
            Visit::Going { .. } | Visit::Late | Visit::Gone => {}
            Visit::Answered(_) | Visit::Closed(_) => self.depart(link, response),
            Visit::Opened(model, lu) => self.open(rt, link, peer, network, model, lu, log),
            Visit::Resumed(token) => self.resume(link, peer, network, PageToken::new(token), log),
        }
    }

    /// Begins a session, unless there are too many.
    fn open<R: Net + RandomSource, L: EventLog>(
        &mut self,
        rt: &R,
        link: PageLink<TcpStream>,
        peer: SocketAddr,
        network: u128,
        model: TerminalModel,
        lu: Option<Lu>,
        log: &mut L,
    ) {
        if let Some(lack) = self.find_lack(network, log) {
            log.note(&WebEvent::Refused(peer, lack.word()));
            return self.dismiss(link, &lack.notice());
        }
        let mut seat = match self.new_seat(rt, model, lu, network) {
            Ok(seat) => seat,
            Err(fault) => {
                let end = SessionEnd::Failed(fault);
                log.note(&WebEvent::Refused(peer, end.word()));
                return self.dismiss_for(link, &end);
            }
        };
        if seat.attach(self.alloc, link, network, self.now).is_err() {
            return log.note(&WebEvent::Refused(peer, "no-memory"));
        }
        log.note(&WebEvent::Opened(seat.number, peer));
        self.add(seat);
    }

    /// Why there is no room for a session of this network; None if there is some.
    fn lack(&self, network: u128) -> Option<Lack>
        ensures { result ≡ None → self.exit.now.sessions < self.exit.now.most_sessions }
    {
        if self.seats.len() >= self.most_sessions {
            Some(Lack::AllInUse)
        } else if has_most(self.seats.as_slice(), network, self.most_of_one) {
            Some(Lack::NetworkFull)
        } else {
            None
        }
    }

    /// Why there is no room for a session of this network, also if a session ends that one of its pages has left; None
    /// if there is some.
    fn find_lack<L: EventLog>(&mut self, network: u128, log: &mut L) -> Option<Lack>
        ensures { result ≡ None → self.new.sessions < self.new.most_sessions }
    {
        if self.lack(network).is_some() {
            self.make_seat(network, log);
        }
        self.lack(network)
    }

    /// Ends the oldest session that a page of this network has left, if there is one.
    fn make_seat<L: EventLog>(&mut self, network: u128, log: &mut L) {
        let left = self.seats.iter().position(|seat| seat.was_left_by(network));
        if let Some(place) = left {
            let seat = self.seats.remove(place);
            log.note(&WebEvent::Ended(seat.number, "made-room"));
        }
    }

    /// Adds a session.
    fn add(&mut self, seat: Seat)
        requires { self.old.sessions < self.old.most_sessions }
    {
        let _ = self.seats.push(seat);
    }

    /// A session, for which a connection to the host is begun.
    fn new_seat<R: Net + RandomSource>(
        &mut self,
        rt: &R,
        model: TerminalModel,
        lu: Option<Lu>,
        network: u128,
    ) -> Result<Seat, Fault>
        ensures { self.new ≡ self.old }
    {
        let token = draw_token(rt)?;
        let mut socket = match TcpStream::connect(rt, self.host) {
            Ok(socket) => socket,
            Err(error) => {
                let fault = LiveFault::CannotConnect(self.host, error.kind());
                return Err(Fault::Live(fault));
            }
        };
        let _ = socket.set_nodelay(true);
        register(&self.poll, &mut socket);
        self.last_number = self.last_number.saturating_add(1);
        Seat::new(
            self.alloc,
            self.last_number,
            token,
            model,
            lu,
            socket,
            network,
            self.now,
        )
    }

    /// Attaches a page to the session that has this token. A page that it has already is dismissed.
    fn resume<L: EventLog>(
        &mut self,
        link: PageLink<TcpStream>,
        peer: SocketAddr,
        network: u128,
        token: PageToken,
        log: &mut L,
    ) {
        let (alloc, now) = (self.alloc, self.now);
        let Some(seat) = self.seats.iter_mut().find(|seat| seat.token == token) else {
            log.note(&WebEvent::Refused(peer, "unknown-token"));
            return self.dismiss(link, &Notice::Ended("it isn't kept any more"));
        };
        let number = seat.number;
        match seat.attach(alloc, link, network, now) {
            Ok(replaced) => {
                log.note(&WebEvent::Resumed(number, peer));
                if let Some(replaced) = replaced {
                    self.dismiss(replaced, &Notice::Ended("another page has resumed it"));
                }
            }
            Err(_) => log.note(&WebEvent::Refused(peer, "no-memory")),
        }
    }

    // ---- sessions

    /// Takes one turn for each session. Answers whether something moved.
    fn serve_seats<L: EventLog>(&mut self, log: &mut L) -> bool {
        let mut moved = false;
        for index in (0..MOST_SESSIONS).rev() {
            if index < self.seats.len() {
                moved |= self.serve_seat(index, log);
            }
        }
        moved
    }

    /// Takes one turn for a session.
    fn serve_seat<L: EventLog>(&mut self, index: usize, log: &mut L) -> bool
        requires { index < self.old.sessions }
    {
        let number = self.seats[index].number;
        match self.seats[index].turn(self.alloc, self.host, self.now, self.keep) {
            Ok(turn) => self.follow(number, turn, log),
            Err(end) => {
                let seat = self.seats.remove(index);
                log.note(&WebEvent::Ended(number, end.word()));
                if let Some(page) = seat.into_page() {
                    self.dismiss_for(page, &end);
                }
                true
            }
        }
    }

    /// Logs what happened in a session's turn, and lets the page go that the session has lost.
    fn follow<L: EventLog>(&mut self, number: u64, turn: SeatTurn, log: &mut L) -> bool {
        let SeatTurn {
            moved,
            connected,
            bound,
            left,
        } = turn;
        if let Some(port) = connected {
            log.note(&WebEvent::Connected(number, port));
        }
        if let Some(lu) = bound {
            log.note(&WebEvent::Bound(number, lu));
        }
        match left {
            Some((page, reason)) => {
                log.note(&WebEvent::PageLost(number, reason));
                let none = Vec::new(self.alloc);
                self.depart(page, none);
            }
            None => {}
        }
        moved
    }

    /// Tells a page why its session has ended, and lets it go.
    fn dismiss_for(&mut self, link: PageLink<TcpStream>, end: &SessionEnd) {
        match format!(in self.alloc; "{end}") {
            Ok(text) => self.dismiss(link, &end.notice(text.as_str())),
            Err(_) => self.dismiss(link, &Notice::Ended("no memory")),
        }
    }

    // ---- a turn

    /// Takes one turn for each client that departs, and drops those that are gone or late.
    fn serve_departing(&mut self) -> bool {
        let mut moved = false;
        for index in (0..MOST_DEPARTING).rev() {
            if index < self.departing.len() {
                moved |= self.serve_departing_at(index);
            }
        }
        moved
    }

    /// Takes one turn for a client that departs.
    fn serve_departing_at(&mut self, index: usize) -> bool
        requires { index < self.old.departing }
    {
        let client = &mut self.departing[index];
        let progress = if is_late(client.began, self.now) {
            Progress::Over
        } else {
            client.turn()
        };
        match progress {
            Progress::Moved => true,
            Progress::Still => false,
            Progress::Over => {
                self.departing.swap_remove(index);
                false
            }
        }
    }

    /// One turn at this time: accepts clients, and takes one turn for each of them and for each session. Answers
    /// whether something moved.
    fn turn<R: Net + RandomSource, L: EventLog>(
        &mut self,
        rt: &R,
        busy: bool,
        log: &mut L,
    ) -> Result<bool, Fault> {
        self.wait(busy)?;
        self.accept_all(log);
        let visited = self.serve_visitors(rt, log);
        let served = self.serve_seats(log);
        let departed = self.serve_departing();
        Ok(visited | served | departed)
    }
}

// ---- the job

/// Why the option `--origin` is refused.
#[derive(Drop)]
struct NotAnOrigin(OriginFault);

impl fmt::Display for NotAnOrigin {
    fn fmt<W: fmt::Write>(&self, f: &mut fmt::Formatter<W>) -> fmt::Result {
        let fault = self.0;
        write!(f, "--origin: {fault}")
    }
}

/// The line that says where the page is. If other machines can reach it, a second line warns of that.
#[derive(Drop)]
struct Serving(SocketAddr);

impl fmt::Display for Serving {
    fn fmt<W: fmt::Write>(&self, f: &mut fmt::Formatter<W>) -> fmt::Result {
        let address = self.0;
        write!(f, "listening on http://{address}/")?;
        if !address.ip().is_loopback() {
            f.write_str(
                "\nwarning: other machines may reach this port; what operators type crosses the network as it is",
            )?;
        }
        Ok(())
    }
}

/// The origin at the address where a server with these options listens.
fn own_origin(alloc: Global, options: &WebOptions<'_>) -> Result<Origin, OriginFault> {
    let address = SocketAddr::new(options.listen, options.port.get());
    let text = format!(in alloc; "http://{address}")?;
    Origin::parse(alloc, text.as_str())
}

/// The origins of a server with these options.
fn site_of(alloc: Global, options: &WebOptions<'_>) -> Result<Site, OriginFault> {
    let mut site = Site::new(alloc, options.port.get())?;
    if !options.listen.is_unspecified() {
        site.allow(own_origin(alloc, options)?)?;
    }
    if let Some(origin) = &options.origin {
        site.allow(Origin::parse(alloc, origin.as_str())?)?;
    }
    Ok(site)
}

/// The milliseconds between two readings of a clock.
fn millis_between(start: Instant, now: Instant) -> u64 {
    u64::try_from(now.duration_since(start).as_millis()).unwrap_or(u64::MAX)
}

/// Takes 2^64 - 1 turns, until one fails, and returns its fault; TurnsOver after the last. A clock that fails leaves the
/// time as it was.
fn take_turns<R: Net + Clock + RandomSource, L: EventLog>(
    rt: &R,
    server: &mut WebServer,
    log: &mut L,
) -> Result<(), Fault> {
    let start = Instant::now(rt).ok();
    let mut busy = false;
    let mut before = 0;
    for _ in 0..u64::MAX {
        busy = server.turn(rt, busy, log)?;
        if let (Some(start), Ok(now)) = (start, Instant::now(rt)) {
            let after = millis_between(start, now);
            server.keep_time(before, after);
            before = after;
        }
    }
    Err(Fault::TurnsOver)
}

/// Serves pages.
fn serve<R: Net + Clock + RandomSource, E: Sink>(
    rt: &R,
    alloc: Global,
    site: Site,
    options: &WebOptions<'_>,
    keymap: &Keymap,
    faults: &mut E,
) -> Result<(), Fault> {
    let mut server = WebServer::new(rt, alloc, site, options, keymap)?;
    let address = SocketAddr::new(options.listen, options.port.get());
    let _ = faults.write_line(Serving(address));
    let mut log = WebLog {
        clock: rt,
        alloc,
        lines: faults,
    };
    take_turns(rt, &mut server, &mut log)
}

/// Serves the page to browsers: each page is a terminal at the host of the options. The page is served to browsers of
/// this machine, and at the origin of the options. `faults` first gets a line that says where it is, and then the log:
/// which client is refused and why; and of each session when it begins, is connected, is bound to an LU, loses its
/// page, is resumed, and ends. Nothing that is typed or shown is logged. The keys of a page do what the keymap says.
///
/// At most 16 clients have no session, for at most 5 seconds each. For a further one the oldest makes room that has sent
/// nothing; or else the oldest of another address that has more than 8 of these places; or else the oldest of all, once
/// it has been there for a second. A page at an address that has as many sessions as one may have is refused. A page that takes too little isn't
/// drawn until it has taken what waits. One that is silent for a minute is dropped; it gets a ping every 5 seconds. A
/// session that has lost its page is kept for the time of the options, and for 5 seconds at most if the page closed
/// its WebSocket.
///
/// Returns the exit status: 2 if the origin isn't one; 3 if memory is refused; 4 if the system can't listen, or wait
/// for sockets; 5 after 2^64 - 1 turns.
pub fn run_web<R: Net + Clock + RandomSource, E: Sink>(
    rt: &R,
    alloc: Global,
    options: &WebOptions<'_>,
    keymap: &Keymap,
    faults: &mut E,
) -> u8 {
    let site = match site_of(alloc, options) {
        Ok(site) => site,
        Err(OriginFault::Memory) => return report_and_exit_code(Fault::NoMemory, faults),
        Err(fault) => {
            let _ = faults.write_line(NotAnOrigin(fault));
            return 2;
        }
    };
    match serve(rt, alloc, site, options, keymap, faults) {
        Ok(()) => 0,
        Err(fault) => report_and_exit_code(fault, faults),
    }
}
