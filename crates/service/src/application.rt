//! The application that a server's host asks, over sockets.
ghost use Rattle.std.specs.Prelude.{◌<◌};
ghost use Rattle.host_core.specs.State.{most_connections};

use application_http::{Endpoint, Reply};
use applications::{
    ApplicationFault, Asking, AskingServer, EndedSession, Exchanges, Notifications, Query,
    replaced_in,
};
use host_core::{Acted, Answer, MOST_CONNECTIONS, PanelSet, Ticket};
use jobs::{Fault, ReplyTime};
use mio::net::TcpStream;
use server::{Server, ServerPort, Watcher};
use service_events::Notice;
use std::alloc::{AllocError, Global};
use std::io;
use std::net::SocketAddr;

/// The poll token of all exchanges. No connection, the listener nor the metrics port has this token.
const EXCHANGE_TOKEN: usize = MOST_CONNECTIONS + 3;

/// The application at an endpoint, the exchange of each connection that waits for its answer, and the notifications of
/// ended sessions.
#[derive(Drop)]
pub(crate) struct Application {
    alloc: Global,
    endpoint: Endpoint,
    /// Its address.
    address: SocketAddr,
    /// How long a reply may take, in milliseconds.
    most: u64,
    exchanges: Exchanges<TcpStream>,
    notifications: Notifications<TcpStream>,
    /// When the question of each exchange was asked, in milliseconds of the server's time.
    asked: [Option<u64>; MOST_CONNECTIONS],
}

/// What became of a question in a turn of its exchange.
#[derive(Clone, Copy)]
enum Outcome {
    /// Nothing yet.
    Open,
    /// The application's answer was shown.
    Answered,
    /// It has no answer.
    Failed,
}

/// A server with its watcher, and the endpoint of the application.
#[derive(Drop)]
struct Watched<'a, W> {
    rt: &'a HostRuntime,
    address: SocketAddr,
    server: &'a mut Server<TcpStream>,
    port: &'a ServerPort,
    watcher: &'a mut W,
    outcome: Outcome,
}

impl<W: Watcher> AskingServer for Watched<'_, W> {
    ghost use Rattle.std.specs.Prelude.{◌≡◌, ⊤};
    ghost use Rattle.server.specs.Hosts.{host_at};
    ghost use Rattle.server.specs.HostAnswers.{AsksHost, HandsAnswer, HearsFault, HearsReply, TakesEnd, client_at, ended_if};

    type Stream = TcpStream;

    ghost served = { λ old conn panels. panels ≡ (host_at conn old.server.now.hosts).panels };

    ghost asked = { λ old conn answer. AsksHost conn old.server.now answer };

    ghost connected = { λ _ _. ⊤ };

    ghost answered = { λ old conn ticket answer result new. HandsAnswer W.noticed W.showed conn ticket answer
        old.server.now old.watcher.now result new.server.now new.watcher.now };

    ghost reported = { λ old conn fault answer new. HearsFault W.reported (client_at conn old.server.now) fault
        old.watcher.now answer new.watcher.now × (new.server.now ≡ old.server.now) };

    ghost noted = { λ old conn reply answer new. HearsReply W.noted (client_at conn old.server.now) reply
        old.watcher.now answer new.watcher.now × (new.server.now ≡ ended_if reply.end conn old.server.now) };

    ghost ended = { λ old conn end new. TakesEnd old.server.now conn end new.server.now
        × (new.watcher.now ≡ old.watcher.now) };

    fn panels(&self, conn: usize) -> &PanelSet {
        self.server.panels(conn)
    }

    fn question(&self, conn: usize) -> Result<Option<Query>, Fault> {
        self.server.question(conn)
    }

    fn connect(&self) -> io::Result<TcpStream> {
        let mut socket = TcpStream::connect(self.rt, self.address)?;
        // If one of these calls fails, the stream is used anyway, with some delay.
        let _ = socket.set_nodelay(true);
        let _ = self.port.register(&mut socket, EXCHANGE_TOKEN);
        Ok(socket)
    }

    fn answer(&mut self, conn: usize, ticket: Ticket, answer: &Answer) -> Result<Acted, Fault> {
        // A failure's message is an answer, too.
        if let Outcome::Open = self.outcome {
            self.outcome = Outcome::Answered;
        }
        self.server.answer(conn, ticket, answer, self.watcher)
    }

    fn report_unanswered(&mut self, conn: usize, fault: &ApplicationFault) -> Result<(), Fault> {
        self.outcome = Outcome::Failed;
        self.server.report_unanswered(conn, fault, self.watcher)
    }

    fn note_shown(&mut self, conn: usize, reply: &Reply) -> Result<(), Fault> {
        let heard = self
            .server
            .report_replaced(conn, replaced_in(reply), self.watcher);
        self.server.end_if(conn, reply.end);
        heard
    }

    fn take_end(&mut self, conn: usize) -> Option<EndedSession> {
        self.server.take_end(conn)
    }
}

/// Reports to the watcher that a question was asked, and that it was answered, if a turn did that. `asked` is when the
/// question of the exchange was asked; None if there is no exchange.
fn report<W: Watcher>(
    asked: &mut Option<u64>,
    did: bool,
    outcome: Outcome,
    now: u64,
    watcher: &mut W,
) -> Result<(), Fault> {
    let is_open = matches!(outcome, Outcome::Open);
    if asked.is_none() && (did || !is_open) {
        *asked = Some(now);
        watcher.notice(&Notice::Asked)?;
    }
    if is_open {
        return Ok(());
    }
    match (asked.take(), outcome) {
        (Some(asked), Outcome::Answered) => {
            watcher.notice(&Notice::Answered(now.saturating_sub(asked)))
        }
        _ => Ok(()),
    }
}

impl Application {
    /// The application at an endpoint, with the most milliseconds that it may take for a reply.
    pub(crate) fn new(
        alloc: Global,
        endpoint: Endpoint,
        reply_time: ReplyTime,
    ) -> Result<Application, AllocError> {
        Ok(Application {
            alloc,
            address: endpoint.address(),
            endpoint,
            most: u64::from(reply_time.get()) * 1000,
            exchanges: Exchanges::new(alloc)?,
            notifications: Notifications::new(alloc)?,
            asked: [None; MOST_CONNECTIONS],
        })
    }

    /// Takes a turn of the exchange and the notification of each connection. Answers whether a byte was read or
    /// written, or the host answered. NoMemory if memory is refused; any fault of the watcher is returned.
    pub(crate) fn turn<W: Watcher>(
        &mut self,
        rt: &HostRuntime,
        server: &mut Server<TcpStream>,
        port: &ServerPort,
        watcher: &mut W,
    ) -> Result<bool, Fault> {
        let mut moved = false;
        for conn in 0..MOST_CONNECTIONS {
            moved |= self.serve(rt, server, port, conn, watcher)?;
        }
        Ok(moved)
    }

    /// Takes a turn of one connection's exchange, and one of its notification.
    fn serve<W: Watcher>(
        &mut self,
        rt: &HostRuntime,
        server: &mut Server<TcpStream>,
        port: &ServerPort,
        conn: usize,
        watcher: &mut W,
    ) -> Result<bool, Fault>
        requires { conn < most_connections }
    {
        let now = server.now();
        let asking = Asking {
            alloc: self.alloc,
            endpoint: &self.endpoint,
            boot: server.boot(),
            now,
            most: self.most,
        };
        let has_operator = server.is_connected(conn);
        let mut watched = Watched {
            rt,
            address: self.address,
            server,
            port,
            watcher,
            outcome: Outcome::Open,
        };
        let did = self
            .exchanges
            .turn(asking, &mut watched, conn, has_operator)?;
        let told = self.notifications.turn(asking, &mut watched, conn);
        let outcome = watched.outcome;
        report(&mut self.asked[conn], did, outcome, now, watcher)?;
        if !matches!(outcome, Outcome::Open) {
            // What the host answered is sent at once.
            server.serve_if_open(conn, watcher)?;
        }
        Ok(did | told)
    }
}
