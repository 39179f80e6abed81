//! Why a live terminal ends although its operator didn't end it, with the line and the exit status of each reason.
ghost use Rattle.std.specs.Prelude.{◌≡◌};
ghost use Rattle.jobs.specs.LiveFaults.{live_status};

use std::io::ErrorKind;
use std::net::SocketAddr;
use thiserror::Error;
use tn3270e_msg::{Cause, Reason};
use tty::TooSmall;

/// Why a live terminal ends. Prints as the line on standard error.
#[derive(Debug, Drop, PartialEq, Eq, Error)]
pub enum LiveFault {
    /// The input isn't known to be a tty in raw mode.
    #[error("operate needs a tty in raw mode: start it by bin/operate PORT [LU]")]
    NotRaw,
    /// The tty is too small for the screens of the model.
    #[error("{0}")]
    TooSmall(TooSmall),
    /// Connecting to the host at this address failed, with an error of this kind.
    #[error("cannot connect to {0}: {reason}", reason = connect_reason(*.1))]
    CannotConnect(SocketAddr, ErrorKind),
    /// The host rejected the terminal's request for an LU, for this reason.
    #[error("the host refused an LU: {0}")]
    LuRefused(Reason),
    /// The terminal closed the connection, for this cause.
    #[error("the host broke the protocol: {0}")]
    Closed(Cause),
    /// The host ended the connection before the terminal was bound to an LU.
    #[error("the host ended the connection")]
    HostEnded,
}

/// Why connecting failed, in words.
fn connect_reason(kind: ErrorKind) -> &'static str {
    match kind {
        ErrorKind::ConnectionRefused => "connection refused",
        ErrorKind::TimedOut => "timed out",
        _ => "refused by the system",
    }
}

impl LiveFault {
    /// The exit status of the program.
    pub fn status(&self) -> u8
        ensures { result ≡ live_status self.now }
    {
        match self {
            LiveFault::NotRaw | LiveFault::TooSmall(_) => 2,
            LiveFault::CannotConnect(_, _) => 4,
            LiveFault::LuRefused(_) | LiveFault::Closed(_) | LiveFault::HostEnded => 4,
        }
    }
}
