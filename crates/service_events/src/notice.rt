//! The lines of a server's log: what happened on its connections.
ghost use Rattle.std.specs.Prelude.{◌≡◌};
ghost use Rattle.service_events.specs.Notices.{ending_of, ending_word};

use crate::limits::Overdue;
use applications::{KeyName, SessionName};
use codes3270::Aid;
use host_core::{Disbelief, DroppedKey, Rejection, Rule, RuleBreak, Served};
use service_wire::HeaderFault;
use std::fmt;
use std::net::SocketAddr;
use thiserror::Error;
use tn3270e_msg::{Cause, Lu};

/// A connection: its number, 0 to 63, its session's name, and its peer's address.
#[derive(Clone, Copy)]
pub struct Client {
    /// The connection number, which later connections reuse.
    pub conn: usize,
    /// The session's name, which no other session has.
    pub session: SessionName,
    /// The peer's address.
    pub peer: SocketAddr,
}

/// Why a connection is over.
#[derive(Clone, Copy)]
pub enum Ending {
    /// The host closed it for this cause.
    Closed(Cause),
    /// The peer closed it, or it failed.
    Lost,
    /// It was dropped, because this limit was reached.
    Dropped(Overdue),
    /// The application ended its session.
    ByApplication,
    /// An operator stopped the service, or the time to drain it was over.
    Stopped,
    /// The panels were read again while the ends negotiated.
    Reloaded,
}

impl Ending {
    /// The event of the log, which is also the reason that an application gets.
    pub fn word(self) -> &'static str
        ensures { result.now ≡ ending_word self }
    {
        match self {
            Ending::Closed(_) => "closed",
            Ending::Lost => "lost",
            Ending::Dropped(Overdue::NoAgreement) => "no-agreement",
            Ending::Dropped(Overdue::Idle) => "idle",
            Ending::ByApplication => "ended-by-application",
            Ending::Stopped => "stopped",
            Ending::Reloaded => "reloaded",
        }
    }
}

/// What a connection used until it was over.
#[derive(Clone, Copy, Debug, PartialEq, Eq)]
pub struct Usage {
    /// Whether its terminal was bound to an LU.
    pub bound: bool,
    /// How long it lasted, in seconds.
    pub duration: u64,
    /// How many screens the host showed after the first one.
    pub turns: u64,
    /// How many bytes were sent to the client.
    pub sent: u64,
    /// How many bytes came from the client.
    pub received: u64,
}

/// Why a connection that must begin with a header of the PROXY protocol is closed. Prints as one word.
#[derive(Clone, Copy, Debug, PartialEq, Eq, Error)]
pub enum BadHeader {
    /// The header is wrong, or there is none.
    #[error("{0}")]
    Wrong(HeaderFault),
    /// It wasn't complete in time.
    #[error("late")]
    Late,
    /// The peer closed the connection before it was complete, or the connection failed.
    #[error("cut-short")]
    CutShort,
}

/// What came to the control socket.
#[derive(Clone, Copy)]
pub struct Commanded {
    /// The command's name; `unknown` if the line is no command.
    pub name: &'static str,
    /// The LU that a note is for, if it is for one.
    pub lu: Option<Lu>,
    /// Whether the command was done.
    pub done: bool,
}

/// How much a panel text defines.
#[derive(Clone, Copy)]
pub struct PanelCounts {
    /// The number of panels.
    pub panels: usize,
    /// The number of LUs.
    pub lus: usize,
}

/// Prints as two keys.
impl fmt::Display for PanelCounts {
    fn fmt<W: fmt::Write>(&self, f: &mut fmt::Formatter<W>) -> fmt::Result {
        write!(f, "panels={} lus={}", self.panels, self.lus)
    }
}

/// What happened at a server.
#[derive(Clone, Copy)]
pub enum Notice {
    /// The server listens at this address.
    Listening(SocketAddr),
    /// A client at this address connected, and no number was free.
    TurnedAway(SocketAddr),
    /// A connection from this address had no header of the PROXY protocol, and was closed.
    BadProxyHeader(SocketAddr, BadHeader),
    /// A client connected.
    Connected(Client),
    /// The host rejected a request for an LU.
    Rejected(Client, Rejection),
    /// The terminal was bound to an LU.
    Bound(Client, Lu),
    /// The host dropped a key that was pressed before the last one was answered.
    KeyDropped(Client, DroppedKey),
    /// The terminal broke a rule, and the host closed the connection for that.
    RuleBroken(Client, RuleBreak),
    /// The client sent characters that its code page lacks; each was replaced.
    CharacterReplaced(Client),
    /// The client's data couldn't be believed, and the host painted over what it couldn't believe of the screen.
    ScreenRestored(Client, Disbelief),
    /// The connection is over.
    Ended(Client, Ending, Usage),
    /// The application was asked a question.
    Asked,
    /// The application's answer was shown, this many milliseconds after the question.
    Answered(u64),
    /// A client of the control socket was answered.
    Commanded(Commanded),
    /// New sessions are shown new panels, and granted LUs of these panels.
    Reloaded(PanelCounts),
    /// This many lines of the log had no room, and were dropped.
    LogLinesDropped(u64),
}

/// Prints as the keys that begin a connection's log line.
impl fmt::Display for Client {
    fn fmt<W: fmt::Write>(&self, f: &mut fmt::Formatter<W>) -> fmt::Result {
        write!(
            f,
            "conn={} session={} peer={}",
            self.conn, self.session, self.peer
        )
    }
}

/// Prints as the event, with its cause if the host closed the connection.
impl fmt::Display for Ending {
    fn fmt<W: fmt::Write>(&self, f: &mut fmt::Formatter<W>) -> fmt::Result {
        f.write_str(self.word())?;
        match self {
            Ending::Closed(cause) => write!(f, " cause={cause} number={}", cause.number()),
            _ => Ok(()),
        }
    }
}

/// Prints as nothing if the terminal wasn't bound to an LU; otherwise begins with a blank.
impl fmt::Display for Usage {
    fn fmt<W: fmt::Write>(&self, f: &mut fmt::Formatter<W>) -> fmt::Result {
        if !self.bound {
            return Ok(());
        }
        write!(
            f,
            " duration={} turns={} sent={} received={}",
            self.duration, self.turns, self.sent, self.received
        )
    }
}

/// Prints as the command, its LU, and the status of the answer.
impl fmt::Display for Commanded {
    fn fmt<W: fmt::Write>(&self, f: &mut fmt::Formatter<W>) -> fmt::Result {
        let status = if self.done { "ok" } else { "error" };
        match self.lu {
            Some(lu) => write!(f, "command={} lu={lu} status={status}", self.name),
            None => write!(f, "command={} status={status}", self.name),
        }
    }
}

/// Prints where the server listens, or an event in logfmt, without the time.
impl fmt::Display for Notice {
    fn fmt<W: fmt::Write>(&self, f: &mut fmt::Formatter<W>) -> fmt::Result {
        match self {
            Notice::Listening(address) => write!(f, "listening on {address}"),
            Notice::TurnedAway(peer) => write!(f, "peer={peer} event=turned-away"),
            Notice::BadProxyHeader(peer, why) => {
                write!(f, "peer={peer} event=bad-proxy-header reason={why}")
            }
            Notice::Connected(client) => write!(f, "{client} event=connected"),
            Notice::Rejected(client, Rejection { lu, reason }) => match lu {
                Some(lu) => write!(f, "{client} event=rejected lu={lu} reason={reason}"),
                None => write!(f, "{client} event=rejected reason={reason}"),
            },
            Notice::Bound(client, lu) => write!(f, "{client} event=bound lu={lu}"),
            Notice::KeyDropped(client, dropped) => match dropped.aid {
                Aid::NoAid => write!(f, "{client} event=key-dropped key=other"),
                aid => write!(f, "{client} event=key-dropped key={}", KeyName(aid)),
            },
            Notice::RuleBroken(client, RuleBreak { rule, cell }) => {
                let rule = match rule {
                    Rule::Applies => "applies",
                    Rule::Edits => "edits",
                    Rule::Sends => "sends",
                };
                write!(f, "{client} event=rule-broken rule={rule} cell={cell}")
            }
            Notice::CharacterReplaced(client) => { write!(f, "{client} event=character-replaced") }
            Notice::ScreenRestored(client, why) => {
                let reason = match why {
                    Disbelief::Unreadable => "unreadable",
                    Disbelief::NoKey => "no-key",
                    Disbelief::Contradicts => "contradicts",
                };
                write!(f, "{client} event=screen-restored reason={reason}")
            }
            Notice::Ended(client, ending, usage) => write!(f, "{client} event={ending}{usage}"),
            Notice::Asked => f.write_str("event=asked"),
            Notice::Answered(millis) => write!(f, "event=answered millis={millis}"),
            Notice::Commanded(commanded) => write!(f, "event=command {commanded}"),
            Notice::Reloaded(counts) => write!(f, "event=reloaded {counts}"),
            Notice::LogLinesDropped(count) => write!(f, "event=log-lines-dropped lines={count}"),
        }
    }
}

/// Why a connection is over after a turn of serving, given why the host closed it, if it did; None if it continues.
pub fn ending_of(closed: Option<Ending>, served: Served) -> Option<Ending>
    ensures { result ≡ ending_of closed served }
{
    match served {
        Served::Going | Served::Memory => None,
        Served::Lost => Some(closed.unwrap_or(Ending::Lost)),
    }
}
