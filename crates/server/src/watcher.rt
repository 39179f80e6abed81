//! The observer of a server: it receives each notice and each shown screen.
ghost use Rattle.std.specs.Prelude.{◌<◌};
ghost use Rattle.host_core.specs.State.{most_connections};

use crate::server::Server;
use crate::server_port::ServerPort;
use applications::{ApplicationFault, Replaced};
use host_core::Host;
use jobs::Fault;
use mio::net::TcpStream;
use service_events::{Client, Notice};

/// Receives the notices of a server.
///
/// Each relation is between the watcher before a call, the arguments of the call, its answer, and the watcher after it.
/// Generic code obtains a relation only by a call, so its contract can say what the watcher received, and in which
/// order.
pub trait Watcher {
    ghost use Rattle.std.specs.Prelude.{ℕ, Bool, Result};
    ghost use Rattle.applications.specs.declared.application_fault.ApplicationFault.{ApplicationFault};
    ghost use Rattle.applications.specs.declared.application_reply.Replaced.{Replaced};
    ghost use Rattle.host_core.specs.State.{Host as HostValue};
    ghost use Rattle.jobs.specs.declared.fault.Fault.{Fault};
    ghost use Rattle.mio.specs.declared.net.stream.TcpStream.{TcpStream};
    ghost use Rattle.service_events.specs.declared.notice.Client.{Client};
    ghost use Rattle.service_events.specs.declared.notice.Notice.{Notice};
    ghost use Rattle.server.specs.declared.server.Server.{Server};

    ghost noticed: { Self → Notice → Result Unit Fault → Self → Type 0 };

    ghost showed: { Self → HostValue → ℕ → Result Unit Fault → Self → Type 0 };

    ghost reported: { Self → Client → ApplicationFault → Result Unit Fault → Self → Type 0 };

    ghost noted: { Self → Client → Replaced → Result Unit Fault → Self → Type 0 };

    ghost ended_turn: { Self → Server TcpStream → ℕ → Bool → Self → Type 0 };

    /// Handles one notice. A fault ends the turn.
    fn notice(&mut self, notice: &Notice) -> Result<(), Fault>
        ensures { noticed self.old notice.now result self.new };

    /// Handles the report that a question to the application has no answer. A fault ends the turn.
    fn unanswered(&mut self, client: &Client, fault: &ApplicationFault) -> Result<(), Fault>
        ensures { reported self.old client.now fault.now result self.new };

    /// Handles the report that characters of the application's reply were replaced. A fault ends the turn.
    fn replaced(&mut self, client: &Client, replaced: &Replaced<'_>) -> Result<(), Fault>
        ensures { noted self.old client.now replaced.now result self.new };

    /// Handles the report that the host showed a screen on a connection. A fault ends the turn.
    fn shown(&mut self, host: &Host, conn: usize) -> Result<(), Fault>
        requires { conn < most_connections }
        ensures { showed self.old host.now conn result self.new };

    /// Does what else is due after a turn, at this time in milliseconds. `port` is the server's: it can poll further
    /// sockets. Answers whether it did something.
    fn after_turn(&mut self, server: &Server<TcpStream>, port: &ServerPort, now: u64) -> bool
        ensures { ended_turn self.old server.entry.now now result self.new };

    /// How many lines of a log it has dropped.
    fn lines_dropped(&self) -> u64;
}

/// Ignores all notices.
#[derive(Drop)]
pub struct Unwatched;

impl Watcher for Unwatched {
    ghost noticed = { λ _ _ _ _. Unit {0} };

    ghost showed = { λ _ _ _ _ _. Unit {0} };

    ghost reported = { λ _ _ _ _ _. Unit {0} };

    ghost noted = { λ _ _ _ _ _. Unit {0} };

    ghost ended_turn = { λ _ _ _ _ _. Unit {0} };

    fn notice(&mut self, _notice: &Notice) -> Result<(), Fault> {
        Ok(())
    }

    fn unanswered(&mut self, _client: &Client, _fault: &ApplicationFault) -> Result<(), Fault> {
        Ok(())
    }

    fn replaced(&mut self, _client: &Client, _replaced: &Replaced<'_>) -> Result<(), Fault> {
        Ok(())
    }

    fn shown(&mut self, _host: &Host, _conn: usize) -> Result<(), Fault> {
        Ok(())
    }

    fn after_turn(&mut self, _server: &Server<TcpStream>, _port: &ServerPort, _now: u64) -> bool {
        false
    }

    fn lines_dropped(&self) -> u64 {
        0
    }
}
