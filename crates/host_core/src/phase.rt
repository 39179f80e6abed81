ghost use Rattle.std.specs.Prelude.{◌↔◌, IsTrue};
ghost use Rattle.host_core.specs.Serves.{IsClosed};

use tn3270e_msg::{Cause, Lu};

/// How far a host is with the terminal of a connection number (our profile).
#[derive(Clone, Copy, Debug, PartialEq, Eq)]
pub enum Phase {
    /// The number is free.
    Free,
    /// The ends negotiate TN3270E (RFC 1647, section 7).
    Talking,
    /// Both ends agreed, and the terminal is bound to this LU.
    Bound(Lu),
    /// The host closed the connection for this cause.
    Closed(Cause),
}

impl Phase {
    /// Whether the host closed the connection.
    pub fn is_closed(&self) -> bool
        ensures { IsTrue result ↔ IsClosed self.now }
    {
        matches!(self, Phase::Closed(_))
    }
}
