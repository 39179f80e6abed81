//! The phase of a terminal's connection to its host.
ghost use Rattle.std.specs.Prelude.{◌≡◌};
ghost use Rattle.term_core.specs.State.{is_bound};

use std::fmt;
use tn3270e_msg::{Cause, Lu, Reason};

/// The phase of a terminal's connection to its host (our profile).
#[derive(Clone, Copy, Debug, PartialEq, Eq)]
pub enum TermPhase {
    /// The terminal isn't attached to a connection.
    Idle,
    /// The terminal is attached, and the negotiation isn't complete.
    Talking,
    /// The terminal is bound to this LU, and the host writes on its screen.
    Bound(Lu),
    /// The host rejected the device request for this reason; the connection is still open.
    Refused(Reason),
    /// The terminal closed the connection for this cause.
    Closed(Cause),
}

impl TermPhase {
    /// Whether the terminal is bound to an LU.
    pub fn is_bound(&self) -> bool
        ensures { result ≡ is_bound self.now }
    {
        matches!(self, TermPhase::Bound(_))
    }
}

/// Prints the phase as `idle`, `talking`, `bound LU`, `refused N` with the reason's code, or `closed N`
/// with the cause's number (our profile).
impl fmt::Display for TermPhase {
    ghost use Rattle.std.specs.Prelude.{Some};
    ghost use Rattle.term_core.specs.PhaseText.{phase_text};

    ghost output = { λ phase. Some (phase_text phase) };

    fn fmt<W: fmt::Write>(&self, f: &mut fmt::Formatter<W>) -> fmt::Result {
        match self {
            TermPhase::Idle => f.write_str("idle"),
            TermPhase::Talking => f.write_str("talking"),
            TermPhase::Bound(lu) => write!(f, "bound {lu}"),
            TermPhase::Refused(reason) => write!(f, "refused {}", reason.0),
            TermPhase::Closed(cause) => write!(f, "closed {}", cause.number()),
        }
    }
}
