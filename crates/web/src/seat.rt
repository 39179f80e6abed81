//! A session: a terminal, its page, and its connection to the host.
ghost use Rattle.std.specs.Prelude.{◌≡◌};
ghost use Rattle.web.specs.Networks.{count_of, has_most};

use crate::limits::time_kept;
use crate::page_link::PageLink;
use crate::page_turn::{PageTerminal, PageTurn, draw_again, take_page_turn};
use codes3270::Model;
use jobs::{Fault, LiveFault, TtySize};
use mio::net::TcpStream;
use operate::{OperatorRequest, OperatorSession};
use std::alloc::Global;
use std::fmt;
use std::io::ErrorKind;
use std::net::SocketAddr;
use term_core::TermPhase;
use tn3270e_msg::{Lu, Reason};
use tty::Colors;
use web_wire::{Closing, Notice, Token};

/// How often a page is sent a ping and told what was heard of it, in milliseconds: so it knows that the server is there.
const PING_TIME: u64 = 5_000;

/// How long a page may be silent, in milliseconds. A page answers pings, so that it is gone then.
const SILENCE: u64 = 60_000;

/// How long connecting to the host may take, in milliseconds.
const CONNECT_TIME: u64 = 10_000;

/// Why a session ends. It prints as what the page says.
#[derive(Drop)]
pub(crate) enum SessionEnd {
    /// The host's connection failed, or memory was refused.
    Failed(Fault),
    /// The operator ended it.
    ByOperator,
    /// No page resumed it in time.
    NotResumed,
}

impl SessionEnd {
    /// The word for the log.
    pub(crate) fn word(&self) -> &'static str {
        match self {
            SessionEnd::ByOperator => "operator",
            SessionEnd::NotResumed => "not-resumed",
            SessionEnd::Failed(fault) => match fault {
                Fault::Live(LiveFault::HostEnded) => "host-ended",
                Fault::Live(LiveFault::LuRefused(_)) => "lu-refused",
                Fault::Live(LiveFault::Closed(_)) => "protocol",
                Fault::Live(LiveFault::CannotConnect(_, _)) => "cannot-connect",
                Fault::NoMemory => "no-memory",
                Fault::OutputFailed => "drawing-too-long",
                _ => "socket-failed",
            },
        }
    }
}

impl SessionEnd {
    /// What the page is told, if this prints as `reason`: that it ended, or that all LUs are in use.
    pub(crate) fn notice<'a>(&self, reason: &'a str) -> Notice<'a> {
        match self {
            SessionEnd::Failed(Fault::Live(LiveFault::LuRefused(reason)))
                if *reason == Reason::DEVICE_IN_USE => { Notice::Busy }
            _ => Notice::Ended(reason),
        }
    }
}

impl fmt::Display for SessionEnd {
    fn fmt<W: fmt::Write>(&self, f: &mut fmt::Formatter<W>) -> fmt::Result {
        match self {
            SessionEnd::Failed(fault) => write!(f, "{fault}"),
            SessionEnd::ByOperator => f.write_str("it was ended by a key"),
            SessionEnd::NotResumed => f.write_str("no page resumed it"),
        }
    }
}

impl From<Fault> for SessionEnd {
    fn from(fault: Fault) -> SessionEnd {
        SessionEnd::Failed(fault)
    }
}

/// What happened in a turn of a session.
#[derive(Drop)]
pub(crate) struct SeatTurn {
    /// Whether a byte moved.
    pub(crate) moved: bool,
    /// The port from which it has just been connected to the host.
    pub(crate) connected: Option<u16>,
    /// The LU to which its terminal has just been bound.
    pub(crate) bound: Option<Lu>,
    /// The page that it has just lost, and the word for the reason.
    pub(crate) left: Option<(PageLink<TcpStream>, &'static str)>,
}

impl SeatTurn {
    /// A turn in which nothing but bytes moved, if any did.
    fn quiet(moved: bool) -> SeatTurn {
        SeatTurn {
            moved,
            connected: None,
            bound: None,
            left: None,
        }
    }
}

/// A session of a page.
#[derive(Drop)]
pub(crate) struct Seat {
    /// Its number in the log.
    pub(crate) number: u64,
    /// The token by which a page resumes it.
    pub(crate) token: Token,
    model: Model,
    wanted: Option<Lu>,
    terminal: PageTerminal<TcpStream>,
    /// The connection to the host while it is being established, and since when.
    dialed: Option<(TcpStream, u64)>,
    page: Option<PageLink<TcpStream>>,
    /// The network of its last page.
    network: u128,
    /// How many bytes of keys its pages sent.
    typed: u64,
    /// How long it is kept without a page, in milliseconds.
    kept_for: u64,
    /// When the page was attached, sent something, or left, whichever was last, in milliseconds of the server's time.
    heard: u64,
    /// When the page was last sent a ping.
    pinged: u64,
    is_bound: bool,
}

/// How many sessions are of a network.
fn sessions_of(seats: &[Seat], network: u128) -> usize
    ensures { result ≡ count_of (λ it. it.network) network seats.now }
{
    seats.iter().filter(|seat| seat.network == network).count()
}

/// Whether a network has as many of these sessions as it may have, `most`; 0 is no limit.
pub(crate) fn has_most(seats: &[Seat], network: u128, most: usize) -> bool
    ensures { result ≡ has_most (λ it. it.network) network most seats.now }
{
    let count = sessions_of(seats, network);
    most != 0 && most <= count
}

/// The size of the tty in a page for a model: the alternate screen, and a row below it for the status.
fn page_size(model: Model) -> TtySize {
    let size = model.alternate();
    TtySize {
        rows: size.rows().saturating_add(1),
        columns: size.cols(),
    }
}

/// The word for a reason for which a WebSocket is closed.
pub(crate) fn closing_word(closing: Closing) -> &'static str {
    match closing {
        Closing::ByPage => "closed",
        Closing::BrokenRule => "protocol",
        Closing::TooLong => "too-long",
        Closing::NotText => "not-text",
        Closing::NotOpened => "not-opened",
        Closing::TextInSession => "text-in-session",
        Closing::Memory => "no-memory",
        Closing::Finished => "finished",
    }
}

impl Seat {
    /// A session whose connection to the host is being established.
    pub(crate) fn new(
        alloc: Global,
        number: u64,
        token: Token,
        model: Model,
        wanted: Option<Lu>,
        dialed: TcpStream,
        network: u128,
        now: u64,
    ) -> Result<Seat, Fault> {
        Ok(Seat {
            number,
            token,
            model,
            wanted,
            terminal: OperatorSession::new(
                alloc,
                model,
                page_size(model),
                Colors::Terminal,
                (),
                (),
            )?,
            dialed: Some((dialed, now)),
            page: None,
            network,
            typed: 0,
            kept_for: 0,
            heard: now,
            pinged: now,
            is_bound: false,
        })
    }

    /// Attaches a page: it gets the size, the token, how many bytes of keys were heard, and the whole screen. Returns the
    /// page that it replaces.
    pub(crate) fn attach(
        &mut self,
        alloc: Global,
        mut page: PageLink<TcpStream>,
        network: u128,
        now: u64,
    ) -> Result<Option<PageLink<TcpStream>>, Fault> {
        let TtySize { rows, columns } = page_size(self.model);
        let told = page.tell(alloc, &Notice::Size(rows, columns)).is_ok()
            && page.tell(alloc, &Notice::Token(self.token)).is_ok()
            && page.tell(alloc, &Notice::Heard(self.typed)).is_ok();
        if !told {
            return Err(Fault::NoMemory);
        }
        if self.dialed.is_none() {
            draw_again(alloc, &mut page, &mut self.terminal)?;
        }
        self.network = network;
        self.heard = now;
        self.pinged = now;
        Ok(std::mem::replace(&mut self.page, Some(page)))
    }

    /// Whether it has no page, and its last one was of this network.
    pub(crate) fn was_left_by(&self, network: u128) -> bool {
        self.page.is_none() && self.network == network
    }

    /// Its page, once it has ended.
    pub(crate) fn into_page(self) -> Option<PageLink<TcpStream>> {
        self.page
    }

    /// One turn, at `now` milliseconds of the server's time; `keep` is how long it is kept without a page.
    pub(crate) fn turn(
        &mut self,
        alloc: Global,
        host: SocketAddr,
        now: u64,
        keep: u64,
    ) -> Result<SeatTurn, SessionEnd> {
        if self.page.is_none() && self.kept_for <= now.saturating_sub(self.heard) {
            return Err(SessionEnd::NotResumed);
        }
        if self.dialed.is_some() {
            return Ok(self.wait_for_host(host, now)?);
        }
        let mut turn = self.take_turn(alloc, now, keep)?;
        match self.terminal.take_asked() {
            OperatorRequest::Quit => return Err(SessionEnd::ByOperator),
            OperatorRequest::Nothing | OperatorRequest::Connect => {}
        }
        match self.terminal.phase() {
            TermPhase::Idle => return Err(SessionEnd::Failed(Fault::Live(LiveFault::HostEnded))),
            TermPhase::Bound(lu) if !self.is_bound => {
                self.is_bound = true;
                turn.bound = Some(lu);
            }
            _ => {}
        }
        Ok(turn)
    }

    /// Begins the session once the connection to the host is established. CannotConnect if that failed, or took too
    /// long.
    fn wait_for_host(&mut self, host: SocketAddr, now: u64) -> Result<SeatTurn, Fault> {
        if let Some(page) = &mut self.page {
            page.send();
        }
        let Some((socket, began)) = self.dialed.take() else {
            return Ok(SeatTurn::quiet(false));
        };
        if socket.peer_addr().is_ok() {
            let port = socket
                .local_addr()
                .map(|address| address.port())
                .unwrap_or(0);
            self.terminal.connect(socket, self.wanted)?;
            return Ok(SeatTurn {
                connected: Some(port),
                ..SeatTurn::quiet(true)
            });
        }
        let kind = match socket.take_error() {
            Ok(None) if now.saturating_sub(began) < CONNECT_TIME => {
                self.dialed = Some((socket, began));
                return Ok(SeatTurn::quiet(false));
            }
            Ok(None) => ErrorKind::TimedOut,
            Ok(Some(error)) => error.kind(),
            Err(error) => error.kind(),
        };
        Err(Fault::Live(LiveFault::CannotConnect(host, kind)))
    }

    /// Takes a turn of the terminal, with its page if it has one. Without a page, what is drawn is dropped: a page that
    /// resumes the session gets the whole screen.
    fn take_turn(&mut self, alloc: Global, now: u64, keep: u64) -> Result<SeatTurn, Fault> {
        let Some(page) = &mut self.page else {
            let moved = self.terminal.turn_typed(alloc, &[], &mut Vec::new(alloc))?;
            return Ok(SeatTurn::quiet(moved));
        };
        match take_page_turn(alloc, page, &mut self.terminal)? {
            PageTurn::Going {
                heard,
                moved,
                typed,
            } => {
                if heard {
                    self.heard = now;
                }
                self.typed = self.typed.saturating_add(typed as u64);
                Ok(self.keep_time(alloc, now, keep, moved))
            }
            PageTurn::Lost => Ok(self.leave(now, "lost", keep)),
            PageTurn::Closed(closing) => {
                Ok(self.leave(now, closing_word(closing), time_kept(closing, keep)))
            }
        }
    }

    /// Sends a ping if it is time, and drops a page that is silent.
    fn keep_time(&mut self, alloc: Global, now: u64, keep: u64, moved: bool) -> SeatTurn {
        if SILENCE <= now.saturating_sub(self.heard) {
            return self.leave(now, "silent", keep);
        }
        if PING_TIME <= now.saturating_sub(self.pinged) {
            if let Some(page) = &mut self.page {
                if !page.has_output() {
                    // If memory is refused, the next turn tries again.
                    let heard = Notice::Heard(self.typed);
                    if page.ping().is_ok() && page.tell(alloc, &heard).is_ok() {
                        self.pinged = now;
                    }
                }
            }
        }
        SeatTurn::quiet(moved)
    }

    /// Takes the page from the session, which is kept for so long.
    fn leave(&mut self, now: u64, reason: &'static str, kept_for: u64) -> SeatTurn {
        self.heard = now;
        self.kept_for = kept_for;
        SeatTurn {
            left: self.page.take().map(|page| (page, reason)),
            ..SeatTurn::quiet(true)
        }
    }
}
