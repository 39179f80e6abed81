//! What a server does for an exchange with an application: the question, the answer, the reports, and the end of a
//! session.
ghost use Rattle.std.specs.Prelude.{◌≡◌, ◌<◌, None, slice_index_or};
ghost use Rattle.host_core.specs.State.{most_connections};
ghost use Rattle.server.specs.Hosts.{host_at};
ghost use Rattle.server.specs.HostAnswers.{AsksHost, HandsAnswer, HearsFault, HearsReplaced, ReportsOf, TakesEnd, client_at, ended_if};

use crate::connection_info::ConnectionInfo;
use crate::reporting::report;
use crate::server::Server;
use crate::watcher::Watcher;
use applications::{ApplicationFault, EndedSession, Query, Replaced};
use codes3270::Model as TerminalModel;
use host_core::{Acted, Answer, PanelSet, Ticket};
use jobs::{Fault, RawRead, RawWrite};
use service_events::Client;

impl<S: RawRead + RawWrite + Drop> Server<S> {
    /// The panels that a number's connection is served.
    pub fn panels(&self, conn: usize) -> &PanelSet
        requires { conn < most_connections }
        ensures { result.now ≡ (host_at conn self.entry.now.hosts).panels }
    {
        self.hosts.at(conn).panels()
    }

    /// The client of a number's last connection.
    fn client(&self, conn: usize) -> Option<Client>
        requires { conn < most_connections }
        ensures { result ≡ client_at conn self.entry.now }
    {
        match self.infos.at(conn) {
            Some(info) => Some(info.client),
            None => None,
        }
    }

    /// The open question of a connection and who asks it, if there is one. NoMemory if memory is refused.
    pub fn question(&self, conn: usize) -> Result<Option<Query>, Fault>
        requires { conn < most_connections }
        ensures { AsksHost conn self.entry.now result }
    {
        let host = self.hosts.at(conn);
        match host.question(conn) {
            Ok(Some(question)) => Ok(Some(Query {
                question,
                model: host.model(conn).unwrap_or(TerminalModel::M2),
                client: self.client(conn).map(|client| client.peer),
            })),
            Ok(None) => Ok(None),
            Err(_) => Err(Fault::NoMemory),
        }
    }

    /// Hands the watcher each event of a number's last connection once; does nothing if the number never had a
    /// connection. A fault of the watcher is returned, and nothing is reported after it.
    fn report_on<W: Watcher>(&mut self, conn: usize, watcher: &mut W) -> Result<(), Fault>
        requires number { conn < most_connections }
        ensures { ReportsOf W.noticed W.showed (slice_index_or self.old.infos conn None) conn self.old
            (host_at conn self.old.hosts) watcher.old result self.new watcher.new }
    {
        if let Some(mut info) = self.infos.at(conn) {
            report(&mut self.hosts, conn, &mut info, watcher)?;
            self.infos.set(conn, info);
        }
        Ok(())
    }

    /// Hands the host the answer to a question, and reports what happened. A fault of the watcher is returned.
    pub fn answer<W: Watcher>(
        &mut self,
        conn: usize,
        ticket: Ticket,
        answer: &Answer,
        watcher: &mut W,
    ) -> Result<Acted, Fault>
        requires { conn < most_connections }
        ensures { HandsAnswer W.noticed W.showed conn ticket answer.now self.old watcher.old result self.new
            watcher.new }
    {
        let acted = self.hosts.answer(conn, ticket, answer);
        self.report_on(conn, watcher)?;
        Ok(acted)
    }

    /// Records whether a reply that was shown ends the session of a number's last connection: then the connection is
    /// closed once its terminal has answered.
    pub fn end_if(&mut self, conn: usize, end: bool)
        requires { conn < most_connections }
        ensures { self.new ≡ ended_if end conn self.old }
    {
        if let Some(info) = self.infos.at(conn) {
            self.infos.set(
                conn,
                ConnectionInfo {
                    ends: info.ends || end,
                    ..info
                },
            );
        }
    }

    /// The end of the session of a number's last connection, if the application was asked in it. Each end is handed out
    /// once.
    pub fn take_end(&mut self, conn: usize) -> Option<EndedSession>
        requires { conn < most_connections }
        ensures { TakesEnd self.old conn result self.new }
    {
        let info = self.infos.at(conn)?;
        let end = info.session_end()?;
        self.infos.set(
            conn,
            ConnectionInfo {
                asked: false,
                ..info
            },
        );
        Some(EndedSession {
            session: end.session,
            lu: end.lu,
            reason: end.ending.word(),
        })
    }

    /// Reports to the watcher why a connection's question has no answer.
    pub fn report_unanswered<W: Watcher>(
        &self,
        conn: usize,
        fault: &ApplicationFault,
        watcher: &mut W,
    ) -> Result<(), Fault>
        requires { conn < most_connections }
        ensures { HearsFault W.reported (client_at conn self.entry.now) fault.now watcher.old result watcher.new }
    {
        match self.client(conn) {
            Some(client) => watcher.unanswered(&client, fault),
            None => Ok(()),
        }
    }

    /// Reports to the watcher which characters of the reply to a connection's question were replaced, if any were.
    pub fn report_replaced<W: Watcher>(
        &self,
        conn: usize,
        replaced: Option<Replaced<'_>>,
        watcher: &mut W,
    ) -> Result<(), Fault>
        requires { conn < most_connections }
        ensures { HearsReplaced W.noted (client_at conn self.entry.now) replaced.entry watcher.old result watcher.new }
    {
        match self.client(conn) {
            Some(client) => match replaced {
                Some(replaced) => watcher.replaced(&client, &replaced),
                None => Ok(()),
            },
            None => Ok(()),
        }
    }
}
