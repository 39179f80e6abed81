//! What is due on a server's connections after a turn: the time limits, and the ends of finished sessions.
ghost use Rattle.std.specs.Prelude.{◌≡◌, ◌<◌};
ghost use Rattle.host_core.specs.State.{most_connections};
ghost use Rattle.server.specs.Hosts.{host_at};
ghost use Rattle.server.specs.TimeTurns.{AppliesAt, AppliesUnless, DoesDue, KeepsTime, awaited_at, due_at, is_finished, nop_sent, sends_nop};
ghost use Rattle.server.specs.Visits.{VisitsEach};

use crate::connection_info::ConnectionInfo;
use crate::server::Server;
use crate::watcher::Watcher;
use host_core::{Acted, MOST_CONNECTIONS};
use jobs::{Fault, RawRead, RawWrite, TimeLimits};
use service_events::{Awaited, Due, Ending, are_applied, awaited_on};

impl<S: RawRead + RawWrite + Drop> Server<S> {
    /// Queues IAC NOP (RFC 854) on a bound connection, unless output already waits. Answers whether it did.
    fn send_nop(&mut self, conn: usize) -> bool
        requires number { conn < most_connections }
        ensures sends { result ≡ sends_nop conn self.old }
        ensures sent { self.new ≡ nop_sent conn self.old }
    {
        matches!(self.hosts.keep_alive(conn), Acted::Sent)
    }

    /// What a connection waits for.
    fn awaited(&self, conn: usize) -> Awaited
        requires { conn < most_connections }
        ensures { result ≡ awaited_at conn (host_at conn self.entry.now.hosts) }
    {
        let host = self.hosts.at(conn);
        awaited_on(&host.phase(conn), host.turn(conn), host.pending(conn))
    }

    /// Applies the time limits to a connection. Answers whether that did something.
    fn apply_limits<W: Watcher>(
        &mut self,
        conn: usize,
        info: &ConnectionInfo,
        limits: &TimeLimits,
        watcher: &mut W,
    ) -> Result<bool, Fault>
        requires number { conn < most_connections }
        ensures { DoesDue W.noticed W.showed (due_at limits.now conn info.now self.old) conn info.now self.old
            watcher.old result self.new watcher.new }
    {
        let (received, sent) = (self.sockets.received(conn), self.sockets.sent(conn));
        let awaited = self.awaited(conn);
        let unanswered = info.activity.is_unanswered(received, sent, awaited);
        let mut activity = info.activity;
        activity.hear(received, sent, awaited, self.now);
        match activity.due(limits, awaited, self.now) {
            Due::Disconnect(overdue) => {
                self.end(conn, info, Ending::Dropped(overdue), watcher)?;
                Ok(true)
            }
            Due::KeepAlive => {
                activity.keep_alive(self.now);
                self.infos.set(conn, ConnectionInfo { activity, ..*info });
                Ok(self.send_nop(conn))
            }
            Due::Nothing => {
                self.infos.set(conn, ConnectionInfo { activity, ..*info });
                Ok(unanswered && self.send_nop(conn))
            }
        }
    }

    /// Whether the application ends the session of an open connection, and it waits for the operator: the terminal has
    /// answered the last screen.
    fn is_finished(&self, conn: usize, info: &ConnectionInfo) -> bool
        requires number { conn < most_connections }
        ensures { result ≡ is_finished conn info.now self.entry.now }
    {
        let awaited = self.awaited(conn);
        info.ends && awaited.is_operator()
    }

    /// Ends a connection whose session is finished; applies the time limits to any other. Answers whether that did
    /// something.
    fn apply_unless_finished<W: Watcher>(
        &mut self,
        conn: usize,
        info: &ConnectionInfo,
        limits: &TimeLimits,
        watcher: &mut W,
    ) -> Result<bool, Fault>
        requires number { conn < most_connections }
        ensures { AppliesUnless W.noticed W.showed limits.now (is_finished conn info.now self.old) info.now conn
            self.old watcher.old result self.new watcher.new }
    {
        if self.is_finished(conn, info) {
            self.end(conn, info, Ending::ByApplication, watcher)?;
            Ok(true)
        } else {
            self.apply_limits(conn, info, limits, watcher)
        }
    }

    /// Does what is due on a number's connection, if it is open. Answers whether that did something.
    fn apply_if_open<W: Watcher>(
        &mut self,
        conn: usize,
        limits: &TimeLimits,
        watcher: &mut W,
    ) -> Result<bool, Fault>
        requires number { conn < most_connections }
        ensures { AppliesAt W.noticed W.showed limits.now conn self.old watcher.old result self.new watcher.new }
    {
        match self.open_info(conn) {
            Some(info) => self.apply_unless_finished(conn, &info, limits, watcher),
            None => Ok(false),
        }
    }

    /// Does what is due on each open connection, in the order of the numbers. Answers whether that did something. The
    /// first fault ends the call.
    fn apply_each<W: Watcher>(
        &mut self,
        limits: &TimeLimits,
        watcher: &mut W,
    ) -> Result<bool, Fault>
        ensures { VisitsEach
            (AppliesAt W.noticed W.showed limits.now) self.old watcher.old result self.new watcher.new }
    {
        let mut acted = false;
        for conn in 0..MOST_CONNECTIONS {
            acted |= self.apply_if_open(conn, limits, watcher)?;
        }
        Ok(acted)
    }

    /// Sets the time after a turn, in milliseconds. If bytes moved or the host acted in the turn (`moved`), or if 100
    /// ms have passed since this was last done, ends each connection whose session the application ends and that waits
    /// for the operator, and applies the time limits to the others. Applying them sends IAC NOP or drops a connection.
    /// It also sends IAC NOP if bytes were received since and nothing was sent, unless the host decides next: the
    /// NOP carries the acknowledgement that the peer's TCP waits for, as the host's decision will. Answers whether it
    /// did something. A fault of the watcher is returned.
    pub fn keep_time<W: Watcher>(
        &mut self,
        now: u64,
        moved: bool,
        limits: &TimeLimits,
        watcher: &mut W,
    ) -> Result<bool, Fault>
        ensures { KeepsTime W.noticed W.showed limits.now now moved self.old watcher.old result self.new watcher.new }
    {
        self.now = now;
        if !are_applied(moved, self.applied, now) {
            return Ok(false);
        }
        self.applied = now;
        self.apply_each(limits, watcher)
    }
}
