//! A server: a host, its connections, and the server's time. It opens no socket and reads no clock.
ghost use Rattle.std.specs.Prelude.{◌≡◌, ◌≢◌, ◌<◌, ◌∷◌, ℕ, [], IfNone, IfOk, IfSome, Some};
ghost use Rattle.host_core.specs.State.{most_connections, phase_of};
ghost use Rattle.host_core.specs.declared.phase.Phase.TheVariants as phase;
ghost use Rattle.server.specs.Apart.{service_at};
ghost use Rattle.server.specs.Accepting.{Admits, AdmitsAll, AreTaken, IsLeastFree, Receives, door, most_accepted};
ghost use Rattle.server.specs.HostAnswers.{usage_at};
ghost use Rattle.server.specs.NumberTurns.{ServesAt, ServesIfOpen, ended, given_back, open_at};
ghost use Rattle.server.specs.ServerTurns.{TakesTurn, new_server};
ghost use Rattle.server.specs.Visits.{VisitsEach};
ghost use Rattle.server.specs.Watching.{Told};
ghost use Rattle.jobs.specs.Sockets.{is_connected, slot_at};

use crate::accepting::{Accepted, Arrival, Listener};
use crate::connection_info::{ConnectionInfo, ConnectionInfos};
use crate::hosts::Hosts;
use crate::reporting::report;
use crate::watcher::Watcher;
use applications::SessionName;
use host_core::{Host, MOST_CONNECTIONS, Phase, Served, Turn};
use jobs::{Fault, RawRead, RawWrite, Sockets};
use service_events::{Client, Ending, Notice, Usage, ending_of};
use std::alloc::{AllocError, Global};
use std::net::SocketAddr;
use tn3270e_msg::Lu;

/// The most connections that one turn accepts: more than the system queues.
const MOST_ACCEPTED: usize = 65_536;

/// A host, the sockets of its connections, and a record of each.
#[derive(Drop)]
pub struct Server<S> {
    /// The host of the newest panels, and the earlier ones.
    pub(crate) hosts: Hosts,
    pub(crate) sockets: Sockets<S>,
    /// The record of the last connection of each number.
    pub(crate) infos: ConnectionInfos,
    /// The name of the next session. Its count is that of the host, which uses it in the tickets of questions.
    pub(crate) next_session: SessionName,
    /// The server's time, in milliseconds.
    pub(crate) now: u64,
    /// When the time limits were last applied, in milliseconds of the server's time.
    pub(crate) applied: u64,
}

/// What an operator gets to know of a session: nothing that was typed or shown.
#[derive(Clone, Copy)]
pub struct SessionRow {
    pub name: SessionName,
    /// The LU that its terminal is bound to, if it is.
    pub lu: Option<Lu>,
    /// The address of its client.
    pub peer: SocketAddr,
    /// When it began, in milliseconds of the server's time.
    pub began: u64,
    /// How long it has lasted, in seconds.
    pub seconds: u64,
    /// How many screens were shown after the first.
    pub turns: u64,
    /// Whose turn it is.
    pub turn: Turn,
}

/// The least free connection number; None if none is free.
fn free_number(hosts: &Hosts) -> Option<usize>
    ensures least { IfSome result (λ conn. IsLeastFree conn hosts.now) }
    ensures none { IfNone result (AreTaken most_connections hosts.now) }
{
    for conn in 0..MOST_CONNECTIONS {
        if let Phase::Free = hosts.at(conn).phase(conn) {
            return Some(conn);
        }
    }
    None
}

impl<S: RawRead + RawWrite + Drop> Server<S> {
    /// A server of a new host. `boot` is the first part of the names of its sessions. An error if memory is refused.
    pub fn new(alloc: Global, host: Host, boot: u64) -> Result<Server<S>, AllocError>
        ensures { IfOk result (λ server. server ≡ new_server host boot) }
    {
        let hosts = Hosts::new(alloc, host)?;
        let sockets = Sockets::new(alloc)?;
        let infos = ConnectionInfos::new(alloc)?;
        Ok(Server {
            hosts,
            sockets,
            infos,
            next_session: SessionName { boot, number: 0 },
            now: 0,
            applied: 0,
        })
    }

    /// The server's time, in milliseconds.
    pub fn now(&self) -> u64
        ensures { result ≡ self.entry.now.now }
    {
        self.now
    }

    /// The first part of the names of its sessions.
    pub fn boot(&self) -> u64
        ensures { result ≡ self.entry.now.next_session.boot }
    {
        self.next_session.boot
    }

    /// The host of the newest panels.
    pub fn host(&self) -> &Host
        ensures { result.now ≡ self.entry.now.hosts.current }
    {
        self.hosts.current()
    }

    /// Begins a connection on the least free number, or drops the socket if no number is free, and reports which.
    /// NoMemory if memory is refused; any fault of the watcher is returned.
    fn admit<W: Watcher>(&mut self, accepted: Accepted<S>, watcher: &mut W) -> Result<(), Fault>
        ensures { Admits W.noticed W.showed accepted self.old watcher.old result self.new watcher.new }
    {
        let Accepted { socket, peer } = accepted;
        let Some(conn) = free_number(&self.hosts) else {
            return watcher.notice(&Notice::TurnedAway(peer));
        };
        match self.hosts.open(conn) {
            Ok(()) => {}
            Err(_) => return Err(Fault::NoMemory),
        }
        self.sockets.open(conn, socket);
        let session = self.next_session;
        self.next_session = session.next();
        let client = Client {
            conn,
            session,
            peer,
        };
        self.infos.set(conn, ConnectionInfo::new(client, self.now));
        watcher.notice(&Notice::Connected(client))
    }

    /// Begins a connection that the listener hands on, or reports one that it refused. NoMemory if memory is refused;
    /// any fault of the watcher is returned.
    fn receive<W: Watcher>(&mut self, arrival: Arrival<S>, watcher: &mut W) -> Result<(), Fault>
        ensures { Receives W.noticed W.showed arrival self.old watcher.old result self.new watcher.new }
    {
        match arrival {
            Arrival::Begun(accepted) => self.admit(accepted, watcher),
            Arrival::Refused(peer, why) => watcher.notice(&Notice::BadProxyHeader(peer, why)),
        }
    }

    /// Accepts all waiting connections. One that the listener can't accept now stays in the queue. NoMemory if memory
    /// is refused; any fault of the watcher is returned.
    pub fn accept_all<L: Listener<S>, W: Watcher>(
        &mut self,
        listener: &mut L,
        watcher: &mut W,
    ) -> Result<(), Fault>
        ensures { AdmitsAll W.noticed W.showed L.gave most_accepted (door listener.old self.old watcher.old) result
            (door listener.new self.new watcher.new) }
    {
        for _ in 0..MOST_ACCEPTED {
            match listener.accept() {
                Some(arrival) => self.receive(arrival, watcher)?,
                None => return Ok(()),
            }
        }
        Ok(())
    }

    /// Whether a number has a connection.
    pub fn is_connected(&self, conn: usize) -> bool
        requires { conn < most_connections }
        ensures { result ≡ is_connected (slot_at conn self.entry.now.sockets) }
    {
        self.sockets.is_connected(conn)
    }

    /// The record of an open connection; None if the number has none.
    pub(crate) fn open_info(&self, conn: usize) -> Option<ConnectionInfo>
        requires { conn < most_connections }
        ensures { result ≡ open_at conn self.entry.now }
    {
        if self.sockets.is_connected(conn) {
            self.infos.at(conn)
        } else {
            None
        }
    }

    /// Ends a connection: frees its number and its LU, closes its socket, records why, and then reports the end to the
    /// watcher.
    pub(crate) fn end<W: Watcher>(
        &mut self,
        conn: usize,
        info: &ConnectionInfo,
        ending: Ending,
        watcher: &mut W,
    ) -> Result<(), Fault>
        requires number { conn < most_connections }
        ensures told { Told W.noticed W.showed
            (ended conn info.now self.old ending ∷ []) watcher.old result watcher.new }
        ensures given_back { self.new ≡ given_back conn info.now ending self.old }
        ensures free { phase_of (service_at conn self.new.hosts) ≡ phase.Free }
        ensures others { (other : ℕ) → other ≢ conn
            → service_at other self.new.hosts ≡ service_at other self.old.hosts }
    {
        let (sent, received) = (self.sockets.sent(conn), self.sockets.received(conn));
        let usage = info.usage(self.now, sent, received);
        self.hosts.closed(conn);
        self.sockets.close(conn);
        let ended = ConnectionInfo {
            ending: Some(ending),
            ..*info
        };
        self.infos.set(conn, ended);
        watcher.notice(&Notice::Ended(info.client, ending, usage))
    }

    /// What an open connection has used so far; None if the number has no connection.
    pub fn usage(&self, conn: usize) -> Option<Usage>
        requires { conn < most_connections }
        ensures { result ≡ usage_at conn self.entry.now }
    {
        let info = self.open_info(conn)?;
        let (sent, received) = (self.sockets.sent(conn), self.sockets.received(conn));
        Some(info.usage(self.now, sent, received))
    }

    /// What an operator gets to know of the session on an open connection; None if the number has none.
    pub fn session_row(&self, conn: usize) -> Option<SessionRow>
        requires { conn < most_connections }
    {
        let info = self.open_info(conn)?;
        let began = info.activity.began;
        Some(SessionRow {
            name: info.client.session,
            lu: info.lu,
            peer: info.client.peer,
            began,
            seconds: self.now.saturating_sub(began) / 1000,
            turns: info.screens.saturating_sub(1),
            turn: self.hosts.at(conn).turn(conn),
        })
    }

    /// Serves a connection once, reports what happened, and ends it if it is over. Answers whether the number of unsent
    /// bytes changed. NoMemory if memory is refused; any fault of the watcher is returned.
    fn serve<W: Watcher>(
        &mut self,
        conn: usize,
        info: &ConnectionInfo,
        watcher: &mut W,
    ) -> Result<bool, Fault>
        requires number { conn < most_connections }
        ensures { ServesIfOpen S.read_gave S.write_took W.noticed W.showed
            (Some info.now) conn self.old watcher.old result self.new watcher.new }
    {
        let waiting = self.hosts.at(conn).out(conn).len();
        self.sockets.set_waiting(conn, waiting);
        let served = self.hosts.serve(&mut self.sockets, conn);
        if let Served::Memory = served {
            return Err(Fault::NoMemory);
        }
        let acted = self.hosts.at(conn).out(conn).len() != waiting;
        let mut after = *info;
        report(&mut self.hosts, conn, &mut after, watcher)?;
        self.infos.set(conn, after);
        let ending = ending_of(after.ending, served);
        if let Some(ending) = ending {
            self.end(conn, &after, ending, watcher)?;
        }
        Ok(acted)
    }

    /// Serves a number's connection once, if it is open. Answers whether the number of unsent bytes changed. NoMemory if
    /// memory is refused; any fault of the watcher is returned.
    pub fn serve_if_open<W: Watcher>(&mut self, conn: usize, watcher: &mut W) -> Result<bool, Fault>
        requires number { conn < most_connections }
        ensures { ServesAt S.read_gave S.write_took W.noticed W.showed conn self.old watcher.old result self.new
            watcher.new }
    {
        match self.open_info(conn) {
            Some(info) => self.serve(conn, &info, watcher),
            None => Ok(false),
        }
    }

    /// Serves each open connection once, in the order of the numbers. Answers whether the number of unsent bytes of any
    /// changed. The first fault ends the call.
    fn serve_each<W: Watcher>(&mut self, watcher: &mut W) -> Result<bool, Fault>
        ensures { VisitsEach (ServesAt S.read_gave S.write_took W.noticed W.showed) self.old watcher.old result self.new
            watcher.new }
    {
        let mut acted = false;
        for conn in 0..MOST_CONNECTIONS {
            acted |= self.serve_if_open(conn, watcher)?;
        }
        Ok(acted)
    }

    /// One turn: accepts all waiting connections, and serves each connection once. Answers whether a byte was read or
    /// written, or the host acted. NoMemory if memory is refused; any fault of the watcher is returned.
    pub fn turn<L: Listener<S>, W: Watcher>(
        &mut self,
        listener: &mut L,
        watcher: &mut W,
    ) -> Result<bool, Fault>
        ensures { TakesTurn S.read_gave S.write_took W.noticed W.showed L.gave
            (door listener.old self.old watcher.old) result (door listener.new self.new watcher.new) }
    {
        self.accept_all(listener, watcher)?;
        let acted = self.serve_each(watcher)?;
        Ok(self.sockets.take_progress() | acted)
    }
}
