//! The exchanges of a server's connections about questions to an application: at most one for each connection. No call
//! waits.
ghost use Rattle.std.specs.Prelude.{◌≡◌, ◌<◌, IfErr, IfOk, None, replicate};
ghost use Rattle.application_http.specs.Requests.{request_bytes};
ghost use Rattle.applications.specs.ExchangeTurns.{Asks, AsksAbout, BeginsFor, CannotBegin, Connects, Ends, Fails, Goes, Hands, IsRead, LooksOpen, Shows, Turns, is_kept, connection_after, slot_at, still_kept, unless_failed, with_slot};
ghost use Rattle.host_core.specs.State.{most_connections};

use crate::application_fault::{Absence, ApplicationFault};
use crate::application_reply::{answer_of, telling};
use crate::application_request::{Query, request_of};
use crate::ended_session::EndedSession;
use crate::exchange::{Exchange, IoProgress, absence_of};
use application_http::{Endpoint, Reply};
use host_core::{Acted, Answer, MOST_CONNECTIONS, Ticket};
use jobs::{Fault, RawRead, RawWrite};
use panels::PanelSet;
use std::alloc::{AllocError, Global};
use std::io::{self, ErrorKind};
use std::marker::Model;

/// A server whose host asks an application.
///
/// Each relation is between the server before a call, the arguments of the call, its answer, and the server after it.
/// Generic code obtains a relation only by a call, so its contract can say which calls it made, in which order, and
/// with what.
pub trait AskingServer {
    ghost use Rattle.std.specs.Prelude.{◌<◌, ℕ};
    ghost use Rattle.host_core.specs.State.{most_connections};
    ghost use Rattle.panels.specs.Panel.{Panels};
    ghost use Rattle.applications.specs.ExchangeTurns.{AnswerCall, ConnectCall, EndCall, FaultCall, QuestionCall, ReplyCall};

    /// A connection to the application.
    type Stream: RawRead + RawWrite + Drop;

    ghost served: { Self → ℕ → Panels → Type 0 };

    ghost asked: { QuestionCall Self };

    ghost connected: { ConnectCall Self Self.Stream };

    ghost answered: { AnswerCall Self };

    ghost reported: { FaultCall Self };

    ghost noted: { ReplyCall Self };

    ghost ended: { EndCall Self };

    /// The panels that a connection is served.
    fn panels(&self, conn: usize) -> &PanelSet
        requires { conn < most_connections }
        ensures { served self.now conn result.now };

    /// The open question of a connection and who asks it, if there is one.
    fn question(&self, conn: usize) -> Result<Option<Query>, Fault>
        requires { conn < most_connections }
        ensures { asked self.now conn result };

    /// Begins to connect to the application, without waiting for it.
    fn connect(&self) -> io::Result<Self::Stream>
        ensures { connected self.now result };

    /// Hands the host the answer to the question with a ticket.
    fn answer(&mut self, conn: usize, ticket: Ticket, answer: &Answer) -> Result<Acted, Fault>
        requires { conn < most_connections }
        ensures { answered self.old conn ticket answer.now result self.new };

    /// Reports why a connection's question has no answer.
    fn report_unanswered(&mut self, conn: usize, fault: &ApplicationFault) -> Result<(), Fault>
        requires { conn < most_connections }
        ensures { reported self.old conn fault.now result self.new };

    /// Takes note of a reply whose answer was shown: reports what was replaced in it, if anything was, and whether the
    /// session ends.
    fn note_shown(&mut self, conn: usize, reply: &Reply) -> Result<(), Fault>
        requires { conn < most_connections }
        ensures { noted self.old conn reply.now result self.new };

    /// The end of a connection's last session, if the application was asked in it. Each is handed out once.
    fn take_end(&mut self, conn: usize) -> Option<EndedSession>
        requires { conn < most_connections }
        ensures { ended self.old conn result self.new };
}

/// The parameters of asking an application.
#[derive(Clone, Copy)]
pub struct Asking<'a> {
    /// The allocator of requests, replies and answers.
    pub alloc: Global,
    /// The endpoint of the application.
    pub endpoint: &'a Endpoint,
    /// The first part of the names of the host's sessions.
    pub boot: u64,
    /// The server's time, in milliseconds.
    pub now: u64,
    /// How long a reply may take, in milliseconds.
    pub most: u64,
}

/// The result of a turn: `did`, or the fault of a report.
fn unless_failed(did: bool, report: Result<(), Fault>) -> Result<bool, Fault>
    ensures { result ≡ unless_failed did report }
{
    match report {
        Ok(()) => Ok(did),
        Err(fault) => Err(fault),
    }
}

/// Hands the host an answer. Answers whether it is shown. The host drops it if the question is no longer open.
fn hand<A: AskingServer>(
    server: &mut A,
    conn: usize,
    ticket: Ticket,
    answer: &Answer,
) -> Result<bool, Fault>
    requires { conn < most_connections }
    ensures { Hands A.answered A.reported server.old conn ticket answer.now result server.new }
{
    match server.answer(conn, ticket, answer) {
        Ok(Acted::Sent) => Ok(true),
        Ok(Acted::Nothing) => unless_failed(
            false,
            server.report_unanswered(conn, &ApplicationFault::Left),
        ),
        Ok(Acted::Memory) => Err(Fault::NoMemory),
        Err(fault) => Err(fault),
    }
}

/// Reports a fault, and shows the operator its message.
fn fail<A: AskingServer>(
    alloc: Global,
    server: &mut A,
    conn: usize,
    ticket: Ticket,
    fault: &ApplicationFault,
) -> Result<bool, Fault>
    requires { conn < most_connections }
    ensures { Fails A.answered A.reported server.old conn ticket fault.now result server.new }
{
    match server.report_unanswered(conn, fault) {
        Ok(()) => match fault.message() {
            Some(message) => hand(server, conn, ticket, &telling(alloc, message.text())),
            None => Ok(false),
        },
        Err(fault) => Err(fault),
    }
}

/// Shows what a reply says, and takes note of it.
fn show<A: AskingServer>(
    server: &mut A,
    conn: usize,
    ticket: Ticket,
    answer: &Answer,
    reply: &Reply,
) -> Result<bool, Fault>
    requires { conn < most_connections }
    ensures { Shows A.answered A.reported A.noted server.old conn ticket answer.now reply.now result server.new }
{
    match hand(server, conn, ticket, answer) {
        Ok(is_shown) => {
            if is_shown {
                unless_failed(true, server.note_shown(conn, reply))
            } else {
                Ok(false)
            }
        }
        Err(fault) => Err(fault),
    }
}

/// Ends an exchange: shows what the reply says, or the message for a fault.
fn end<A: AskingServer>(
    alloc: Global,
    server: &mut A,
    conn: usize,
    ticket: Ticket,
    panel: usize,
    outcome: &Result<Reply, ApplicationFault>,
) -> Result<bool, Fault>
    requires { conn < most_connections }
    ensures { Ends A.answered A.reported A.noted A.served panel server.old conn ticket outcome.now result server.new }
{
    match outcome {
        Ok(reply) => match answer_of(alloc, server.panels(conn), panel, reply) {
            Ok(answer) => show(server, conn, ticket, &answer, reply),
            Err(fault) => {
                let fault = ApplicationFault::Answer(fault);
                fail(alloc, server, conn, ticket, &fault)
            }
        },
        Err(fault) => fail(alloc, server, conn, ticket, fault),
    }
}

/// The exchange about a question.
#[derive(Drop)]
struct QuestionExchange<S> {
    ticket: Ticket,
    /// The number of the panel on the screen.
    panel: usize,
    exchange: Exchange<S>,
}

/// A connection that the application keeps for the next question.
#[derive(Drop)]
struct KeptConnection<S> {
    stream: S,
    /// When its last reply was complete, in milliseconds of the server's time.
    since: u64,
    /// For how many seconds from then the application keeps it.
    seconds: u32,
}

/// A connection to the application.
#[derive(Drop)]
enum ApplicationConnection<S> {
    Asking(QuestionExchange<S>),
    Kept(KeptConnection<S>),
}

/// Whether the application keeps a connection for more than a second from `now` on. The second is for a request that is
/// on its way when the application closes the connection.
fn is_kept(since: u64, seconds: u32, now: u64) -> bool
    ensures { result ≡ is_kept since seconds now }
{
    now.saturating_sub(since) < 1000 * u64::from(seconds.saturating_sub(1))
}

impl<S: RawRead> KeptConnection<S> {
    /// Reads once. Whether nothing is there now, neither bytes nor the connection's end.
    fn is_silent(&mut self) -> bool
        ensures { IsRead S.read_gave self.old result self.new }
    {
        match self.stream.read_once(&mut [0]) {
            Ok(_) => false,
            Err(error) => matches!(error.kind(), ErrorKind::WouldBlock),
        }
    }

    /// Whether a request may be sent on it at `now`.
    fn is_open(&mut self, now: u64) -> bool
        ensures { LooksOpen S.read_gave now self.old result self.new }
    {
        is_kept(self.since, self.seconds, now) && self.is_silent()
    }
}

/// A connection for a request: the kept one, if it is open, or else a new one.
fn stream_for<S: RawRead + RawWrite + Drop, A: AskingServer<Stream = S>>(
    kept: Option<KeptConnection<S>>,
    now: u64,
    server: &A,
) -> io::Result<S>
    ensures { Connects S.read_gave (A.connected server.now) now kept result }
{
    match kept {
        Some(mut kept) => {
            if kept.is_open(now) {
                Ok(kept.stream)
            } else {
                server.connect()
            }
        }
        None => server.connect(),
    }
}

/// A new exchange for a question.
fn begin<S: RawRead + RawWrite + Drop, A: AskingServer<Stream = S>>(
    kept: Option<KeptConnection<S>>,
    asking: Asking<'_>,
    server: &A,
    conn: usize,
    query: &Query,
) -> Result<QuestionExchange<S>, Absence>
    requires { conn < most_connections }
    ensures begins { IfOk result (BeginsFor (request_bytes asking.entry.endpoint.now) asking.entry.boot asking.entry.now
        (A.served server.now conn) (Connects S.read_gave (A.connected server.now) asking.entry.now kept) query.now) }
    ensures cannot { IfErr result
        (CannotBegin (Connects S.read_gave (A.connected server.now) asking.entry.now kept)) }
{
    match request_of(
        asking.alloc,
        asking.endpoint,
        asking.boot,
        server.panels(conn),
        query,
    ) {
        Ok(Some(request)) => match stream_for(kept, asking.now, server) {
            Ok(stream) => Ok(QuestionExchange {
                ticket: query.question.ticket,
                panel: query.question.panel,
                exchange: Exchange::new(asking.alloc, stream, request, asking.now),
            }),
            Err(error) => Err(absence_of(&error)),
        },
        _ => Err(Absence::NoMemory),
    }
}

/// What is left of the connection of an exchange that ended at `now`: it is kept if its reply says so.
fn connection_after<S: Drop>(
    outcome: &Result<Reply, ApplicationFault>,
    now: u64,
    stream: S,
) -> Option<ApplicationConnection<S>>
    ensures { result ≡ connection_after outcome.now now stream }
{
    match outcome {
        Ok(reply) if reply.kept > 1 => Some(ApplicationConnection::Kept(KeptConnection {
            stream,
            since: now,
            seconds: reply.kept,
        })),
        _ => None,
    }
}

/// Continues an exchange, and puts it back into its empty slot unless it is over.
fn go_on<S: RawRead + RawWrite + Drop, A: AskingServer<Stream = S>>(
    slot: &mut Option<ApplicationConnection<S>>,
    mut asked: QuestionExchange<S>,
    asking: Asking<'_>,
    server: &mut A,
    conn: usize,
    has_operator: bool,
) -> Result<bool, Fault>
    requires { conn < most_connections }
    ensures { Goes A.served A.answered A.reported S.read_gave S.write_took A.noted has_operator asking.entry.now
        asking.entry.most conn asked server.old result server.new slot.new }
{
    let has_moved = match asked.exchange.go_on(has_operator, asking.now, asking.most) {
        IoProgress::Moved => true,
        IoProgress::Still => false,
        IoProgress::Over(outcome) => {
            let (ticket, panel) = (asked.ticket, asked.panel);
            *slot = connection_after(&outcome, asking.now, asked.exchange.into_stream());
            return end(asking.alloc, server, conn, ticket, panel, &outcome);
        }
    };
    *slot = Some(ApplicationConnection::Asking(asked));
    Ok(has_moved)
}

/// Begins an exchange for an open question in an empty slot, and takes its first turn.
fn ask_about<S: RawRead + RawWrite + Drop, A: AskingServer<Stream = S>>(
    slot: &mut Option<ApplicationConnection<S>>,
    kept: Option<KeptConnection<S>>,
    asking: Asking<'_>,
    server: &mut A,
    conn: usize,
    has_operator: bool,
    query: &Query,
) -> Result<bool, Fault>
    requires empty { slot.old ≡ None }
    requires number { conn < most_connections }
    ensures { AsksAbout A.served A.answered A.reported S.read_gave S.write_took A.connected A.noted
        (request_bytes asking.entry.endpoint.now) asking.entry.boot asking.entry.now asking.entry.most has_operator conn
        kept query.now server.old result server.new slot.new }
{
    match begin(kept, asking, server, conn, query) {
        Ok(asked) => go_on(slot, asked, asking, server, conn, has_operator),
        Err(absence) => {
            let fault = ApplicationFault::Absent(absence);
            fail(asking.alloc, server, conn, query.question.ticket, &fault)
        }
    }
}

/// The connection that is kept on while no question is open: none if the operator left, or the time is over.
fn still_kept<S: Drop>(
    kept: Option<KeptConnection<S>>,
    has_operator: bool,
    now: u64,
) -> Option<ApplicationConnection<S>>
    ensures { result ≡ still_kept kept has_operator now }
{
    match kept {
        Some(kept) if has_operator && is_kept(kept.since, kept.seconds, now) => {
            Some(ApplicationConnection::Kept(kept))
        }
        _ => None,
    }
}

/// Begins an exchange in an empty slot, if a question is open.
fn ask<S: RawRead + RawWrite + Drop, A: AskingServer<Stream = S>>(
    slot: &mut Option<ApplicationConnection<S>>,
    kept: Option<KeptConnection<S>>,
    asking: Asking<'_>,
    server: &mut A,
    conn: usize,
    has_operator: bool,
) -> Result<bool, Fault>
    requires empty { slot.old ≡ None }
    requires number { conn < most_connections }
    ensures { Asks A.served A.answered A.reported S.read_gave S.write_took A.connected A.asked A.noted
        (request_bytes asking.entry.endpoint.now) asking.entry.boot asking.entry.now asking.entry.most has_operator conn
        kept server.old result server.new slot.new }
{
    match server.question(conn) {
        Ok(Some(query)) => ask_about(slot, kept, asking, server, conn, has_operator, &query),
        Ok(None) => {
            *slot = still_kept(kept, has_operator, asking.now);
            Ok(false)
        }
        Err(fault) => Err(fault),
    }
}

/// Takes a turn on a connection with this slot: continues its exchange, or begins one if a question is open.
fn turn_of<S: RawRead + RawWrite + Drop, A: AskingServer<Stream = S>>(
    slot: &mut Option<ApplicationConnection<S>>,
    asking: Asking<'_>,
    server: &mut A,
    conn: usize,
    has_operator: bool,
) -> Result<bool, Fault>
    requires { conn < most_connections }
    ensures { Turns A.served A.answered A.reported S.read_gave S.write_took A.connected A.asked A.noted
        (request_bytes asking.entry.endpoint.now) asking.entry.boot asking.entry.now asking.entry.most has_operator conn
        slot.old server.old result server.new slot.new }
{
    match slot.take() {
        Some(ApplicationConnection::Asking(asked)) => {
            go_on(slot, asked, asking, server, conn, has_operator)
        }
        Some(ApplicationConnection::Kept(kept)) => {
            ask(slot, Some(kept), asking, server, conn, has_operator)
        }
        None => ask(slot, None, asking, server, conn, has_operator),
    }
}

/// 64 slots without an exchange.
pub(crate) fn empty_slots<T: Drop>(alloc: Global) -> Result<Vec<Option<T>>, AllocError>
    ensures { IfOk result (λ slots. slots.items ≡ replicate most_connections None) }
{
    let mut slots = Vec::with_capacity(alloc, MOST_CONNECTIONS)?;
    for _ in 0..MOST_CONNECTIONS {
        slots.push(None)?;
    }
    Ok(slots)
}

/// The exchanges of 64 connections about their questions, at most one on each, and the connections to the application
/// that are kept for their next questions.
#[derive(Drop)]
pub struct Exchanges<S> {
    slots: Vec<Option<ApplicationConnection<S>>>,
}

impl<S> Model for Exchanges<S> {
    ghost use Rattle.std.specs.Prelude.{◌≡◌, List, Option, length};
    ghost use Rattle.host_core.specs.State.{most_connections};
    ghost use Rattle.applications.specs.declared.exchanges.ApplicationConnection.{ApplicationConnection as ConnectionValue};

    ghost Value = { List (Option (ConnectionValue S)) };

    ghost view = { λ exchanges. exchanges.slots.items };

    ghost invariant = { λ exchanges. length exchanges.slots.items ≡ most_connections };
}

impl<S: RawRead + RawWrite + Drop> Exchanges<S> {
    /// No exchanges. An error if memory is refused.
    pub fn new(alloc: Global) -> Result<Exchanges<S>, AllocError>
        ensures { IfOk result (λ exchanges. exchanges ≡ replicate most_connections None) }
    {
        Ok(Exchanges {
            slots: empty_slots(alloc)?,
        })
    }

    /// Takes a turn on a connection: begins an exchange if a question is open, continues the current one, or ends it.
    /// `has_operator` says whether the connection has an operator. Answers whether a byte was read or written, or the
    /// host answered. NoMemory if the host is refused memory; any fault of the server's calls is returned.
    pub fn turn<A: AskingServer<Stream = S>>(
        &mut self,
        asking: Asking<'_>,
        server: &mut A,
        conn: usize,
        has_operator: bool,
    ) -> Result<bool, Fault>
        requires { conn < most_connections }
        ensures turns { Turns A.served A.answered A.reported S.read_gave S.write_took A.connected A.asked A.noted
            (request_bytes asking.entry.endpoint.now) asking.entry.boot asking.entry.now asking.entry.most has_operator
            conn (slot_at conn self.old) server.old result server.new (slot_at conn self.new) }
        ensures others { self.new ≡ with_slot conn (slot_at conn self.new) self.old }
    {
        turn_of(&mut self.slots[conn], asking, server, conn, has_operator)
    }
}
