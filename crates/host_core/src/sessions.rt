//! The count of sessions.
ghost use Rattle.std.specs.Prelude.{◌≡◌, ◌<◌, IfOk, slice_index_or};
ghost use Rattle.host_core.specs.State.{counted, most_connections, no_sessions};

use crate::host::MOST_CONNECTIONS;
use std::alloc::Global;
use std::marker::Model;
use telnet_wire::Memory;

/// The session that each connection number was last opened for, and the number of the next session. Connection
/// numbers are used again, session numbers are not.
#[derive(Drop)]
pub(crate) struct Sessions {
    latest: Vec<u64>,
    next: u64,
}

impl Model for Sessions {
    ghost use Rattle.std.specs.Prelude.{◌≡◌, length};
    ghost use Rattle.host_core.specs.State.{Sessions as SessionsValue, most_connections};

    ghost Value = { SessionsValue };

    ghost view = { λ sessions. record { latest = sessions.latest.items; next = sessions.next } };

    ghost invariant = { λ sessions. length sessions.latest.items ≡ most_connections };
}

impl Sessions {
    /// The count at the beginning: no session is counted.
    pub(crate) fn new(alloc: Global) -> Result<Sessions, Memory>
        ensures { IfOk result (λ sessions. sessions ≡ no_sessions) }
    {
        let latest = vec![in alloc; 0; MOST_CONNECTIONS]?;
        Ok(Sessions { latest, next: 0 })
    }

    /// Counts a session, for which this connection number is opened.
    pub(crate) fn count(&mut self, conn: usize)
        requires { conn < most_connections }
        ensures { self.new ≡ counted conn self.old }
    {
        self.latest[conn] = self.next;
        self.next = self.next.wrapping_add(1);
    }

    /// Counts on from another count.
    pub(crate) fn count_on_from(&mut self, earlier: &Sessions)
        ensures { self.new ≡ record { latest = self.old.latest; next = earlier.now.next } }
    {
        self.next = earlier.next;
    }

    /// The session that this connection number was last opened for; 0 if it never was.
    pub(crate) fn at(&self, conn: usize) -> u64
        requires { conn < most_connections }
        ensures { result ≡ slice_index_or self.now.latest conn 0 }
    {
        self.latest[conn]
    }
}
