//! What operators command of a server: notes, other panels, and the end of all sessions.
ghost use Rattle.std.specs.Prelude.{◌≡◌, ◌≢◌, ◌<◌, ℕ, OnOk};
ghost use Rattle.host_core.specs.State.{most_connections, phase_of};
ghost use Rattle.host_core.specs.declared.phase.Phase.TheVariants as phase;
ghost use Rattle.server.specs.Apart.{NobodyTalks, service_at};
ghost use Rattle.server.specs.Control.{EndsTalkingAt, Reloads, SendsNote, StopsAt, is_open_below, is_talking};
ghost use Rattle.server.specs.Visits.{VisitsEach};

use crate::ReloadFault;
use crate::server::Server;
use crate::watcher::Watcher;
use host_core::{Acted, Host, MOST_CONNECTIONS, Phase};
use jobs::{Fault, RawRead, RawWrite};
use service_events::Ending;
use service_wire::NoteText;

impl<S: RawRead + RawWrite + Drop> Server<S> {
    /// Whether any connection is open.
    pub(crate) fn has_connection(&self) -> bool
        ensures { result ≡ is_open_below most_connections self.entry.now }
    {
        let mut is_any = false;
        for conn in 0..MOST_CONNECTIONS {
            is_any |= self.sockets.is_connected(conn);
        }
        is_any
    }

    /// Sends a note on a number's connection, if the operator there has the turn (see `Host::note`).
    #[tactic(auto, using(crate::proofs::Control::is_note_text))]
    pub(crate) fn note(&mut self, conn: usize, text: &NoteText) -> Acted
        requires number { conn < most_connections }
        ensures { SendsNote conn text.now self.old result self.new }
    {
        self.hosts.note(conn, text.codes())
    }

    /// Ends a number's connection, if it is open, since the service stops. Answers whether it did.
    fn stop_if_open<W: Watcher>(&mut self, conn: usize, watcher: &mut W) -> Result<bool, Fault>
        requires number { conn < most_connections }
        ensures { StopsAt W.noticed W.showed conn self.old watcher.old result self.new watcher.new }
    {
        match self.open_info(conn) {
            Some(info) => {
                self.end(conn, &info, Ending::Stopped, watcher)?;
                Ok(true)
            }
            None => Ok(false),
        }
    }

    /// Ends each open connection, in the order of the numbers, since the service stops. Answers whether there was one.
    /// The first fault ends the call.
    pub fn stop_each<W: Watcher>(&mut self, watcher: &mut W) -> Result<bool, Fault>
        ensures { VisitsEach (StopsAt W.noticed W.showed) self.old watcher.old result self.new watcher.new }
    {
        let mut stopped = false;
        for conn in 0..MOST_CONNECTIONS {
            stopped |= self.stop_if_open(conn, watcher)?;
        }
        Ok(stopped)
    }

    /// Whether the ends of a number's connection negotiate.
    fn is_talking(&self, conn: usize) -> bool
        requires number { conn < most_connections }
        ensures { result ≡ is_talking (phase_of (service_at conn self.entry.now.hosts)) }
    {
        match self.hosts.at(conn).phase(conn) {
            Phase::Talking => true,
            Phase::Free | Phase::Bound(_) | Phase::Closed(_) => false,
        }
    }

    /// Ends a number's connection if its ends negotiate. Answers whether they did.
    fn end_if_talking<W: Watcher>(&mut self, conn: usize, watcher: &mut W) -> Result<bool, Fault>
        requires number { conn < most_connections }
        ensures ends { EndsTalkingAt W.noticed W.showed conn self.old watcher.old result self.new watcher.new }
        ensures settled { phase_of (service_at conn self.new.hosts) ≢ phase.Talking }
        ensures others { (other : ℕ) → other ≢ conn
            → service_at other self.new.hosts ≡ service_at other self.old.hosts }
    {
        if !self.is_talking(conn) {
            return Ok(false);
        }
        match self.open_info(conn) {
            Some(info) => {
                self.end(conn, &info, Ending::Reloaded, watcher)?;
                Ok(true)
            }
            None => {
                self.hosts.closed(conn);
                Ok(true)
            }
        }
    }

    /// Ends each connection whose ends negotiate, in the order of the numbers. Answers whether there was one. The first
    /// fault ends the call.
    fn end_talking<W: Watcher>(&mut self, watcher: &mut W) -> Result<bool, Fault>
        ensures ends { VisitsEach (EndsTalkingAt W.noticed W.showed) self.old watcher.old result self.new watcher.new }
        ensures settled { OnOk result (NobodyTalks self.new.hosts) }
    {
        let mut ended = false;
        for conn in 0..MOST_CONNECTIONS {
            ended |= self.end_if_talking(conn, watcher)?;
        }
        Ok(ended)
    }

    /// Serves new sessions by this host from now on; each session that is bound to an LU stays in its host (see
    /// `Hosts::reload`). Connections whose ends negotiate are ended. TooMany if sessions of too many earlier hosts go
    /// on: then nothing changes. A fault of the watcher is returned.
    pub fn reload<W: Watcher>(
        &mut self,
        host: Host,
        watcher: &mut W,
    ) -> Result<Result<(), ReloadFault>, Fault>
        ensures { Reloads W.noticed W.showed host self.old watcher.old result self.new watcher.new }
    {
        if self.hosts.free_place().is_none() {
            return Ok(Err(ReloadFault::TooMany));
        }
        self.end_talking(watcher)?;
        Ok(self.hosts.reload(host))
    }
}
