//! What a server records about each connection of its host.
ghost use Rattle.std.specs.Prelude.{◌≡◌, ◌<◌, IfOk, None, Some, replicate, slice_index_or, slice_set};
ghost use Rattle.host_core.specs.State.{most_connections};
ghost use Rattle.server.specs.ConnectionInfos.{new_info, session_end, usage_of, with_event};

use applications::SessionName;
use host_core::{HostEvent, MOST_CONNECTIONS};
use service_events::{Activity, Client, Ending, Usage};
use std::alloc::{AllocError, Global};
use std::marker::Model;
use tn3270e_msg::Lu;

/// The end of a session in which the application was asked.
#[derive(Clone, Copy)]
pub struct SessionEnd {
    /// Its name.
    pub session: SessionName,
    /// The LU that its terminal was bound to.
    pub lu: Lu,
    /// Why it ended.
    pub ending: Ending,
}

/// What a server records about a connection, beside its socket and the host's own state.
#[derive(Clone, Copy)]
pub struct ConnectionInfo {
    /// Its connection number, its session's name and its peer's address.
    pub client: Client,
    /// When it began, and when it was last active, in milliseconds of the server's time.
    pub activity: Activity,
    /// The LU that its terminal was bound to, if it was.
    pub lu: Option<Lu>,
    /// How many screens were shown on it.
    pub screens: u64,
    /// Whether the host asked the application in its session, and the application hasn't been told its end.
    pub asked: bool,
    /// Whether the application ends its session: the connection is closed once it waits for the operator.
    pub ends: bool,
    /// Why it is over; None while it is open.
    pub ending: Option<Ending>,
}

impl ConnectionInfo {
    /// The record of a connection that begins at `now`, in milliseconds of the server's time.
    pub(crate) fn new(client: Client, now: u64) -> ConnectionInfo
        ensures { result ≡ new_info client now }
    {
        ConnectionInfo {
            client,
            activity: Activity::new(now),
            lu: None,
            screens: 0,
            asked: false,
            ends: false,
            ending: None,
        }
    }

    /// Records an event of the host on this connection.
    pub(crate) fn take_down(&mut self, event: &HostEvent)
        ensures { self.new ≡ with_event event.now self.old }
    {
        match event {
            HostEvent::Bound(lu) => self.lu = Some(*lu),
            HostEvent::Asked => self.asked = true,
            HostEvent::Shown => self.screens = self.screens.saturating_add(1),
            HostEvent::Closed(cause) => self.ending = Some(Ending::Closed(*cause)),
            HostEvent::Rejected(_) => {}
            HostEvent::KeyDropped(_) => {}
            HostEvent::RuleBroken(_) => {}
            HostEvent::CharacterReplaced => {}
            HostEvent::ScreenRestored(_) => {}
        }
    }

    /// What the connection has used by `now`: its duration, its turns, and the bytes sent and received.
    pub(crate) fn usage(&self, now: u64, sent: u64, received: u64) -> Usage
        ensures { result ≡ usage_of now sent received self.now }
    {
        Usage {
            bound: self.lu.is_some(),
            duration: now.saturating_sub(self.activity.began) / 1000,
            turns: self.screens.saturating_sub(1),
            sent,
            received,
        }
    }

    /// The end of its session, if it is over, and the application was asked in it and hasn't been told.
    pub(crate) fn session_end(&self) -> Option<SessionEnd>
        ensures { result ≡ session_end self.now }
    {
        if !self.asked {
            return None;
        }
        Some(SessionEnd {
            session: self.client.session,
            lu: self.lu?,
            ending: self.ending?,
        })
    }
}

/// The record of the last connection of each number, 0 to 63.
#[derive(Drop)]
pub struct ConnectionInfos {
    infos: Vec<Option<ConnectionInfo>>,
}

impl Model for ConnectionInfos {
    ghost use Rattle.std.specs.Prelude.{◌≡◌, List, Option, length};
    ghost use Rattle.host_core.specs.State.{most_connections};
    ghost use Rattle.server.specs.declared.connection_info.ConnectionInfo.{ConnectionInfo};

    ghost Value = { List (Option ConnectionInfo) };

    ghost view = { λ infos. infos.infos.items };

    ghost invariant = { λ infos. length infos.infos.items ≡ most_connections };
}

/// None for each of 64 numbers.
pub(crate) fn none_for_each<T: Drop>(alloc: Global) -> Result<Vec<Option<T>>, AllocError>
    ensures { IfOk result (λ values. values.items ≡ replicate most_connections None) }
{
    let mut values = Vec::with_capacity(alloc, MOST_CONNECTIONS)?;
    for _ in 0..MOST_CONNECTIONS {
        values.push(None)?;
    }
    Ok(values)
}

impl ConnectionInfos {
    /// 64 numbers, none of which had a connection yet. An error if memory is refused.
    pub(crate) fn new(alloc: Global) -> Result<ConnectionInfos, AllocError>
        ensures { IfOk result (λ infos. infos ≡ replicate most_connections None) }
    {
        Ok(ConnectionInfos {
            infos: none_for_each(alloc)?,
        })
    }

    /// The record of a number's last connection; None if it had none.
    pub(crate) fn at(&self, conn: usize) -> Option<ConnectionInfo>
        requires { conn < most_connections }
        ensures { result ≡ slice_index_or self.now conn None }
    {
        self.infos[conn]
    }

    /// Sets the record of a number's last connection.
    pub(crate) fn set(&mut self, conn: usize, info: ConnectionInfo)
        requires { conn < most_connections }
        ensures { self.new ≡ slice_set self.old conn (Some info) }
    {
        self.infos[conn] = Some(info);
    }
}
