//! Why a run ends early, with the line and the exit status of each reason.
ghost use Rattle.std.specs.Prelude.{◌≡◌};
ghost use Rattle.jobs.specs.Faults.{status_of};

use crate::live_fault::LiveFault;
use crate::streams::WriteFailed;
use application_http::EndpointFault;
use lu_pool::PoolFault;
use panels::PanelFault;
use std::alloc::AllocError;
use std::io::ErrorKind;
use std::net::SocketAddr;
use thiserror::Error;

/// Why a run ends early. Prints as the line on standard error.
#[derive(Debug, Drop, PartialEq, Eq, Error)]
pub enum Fault {
    /// The input could not be read, is too long, or isn't UTF-8.
    #[error("input not read")]
    InputNotRead,
    /// The panel text defines no panels, for this reason.
    #[error("{0}")]
    Panels(PanelFault),
    /// The panels' LUs are no pool, for this reason.
    #[error("{0}")]
    Pool(PoolFault),
    /// The line with this 1-based number isn't pairs of hexadecimal digits.
    #[error("line {0}: not hex")]
    NotHex(usize),
    /// The script's line with this 1-based number is invalid.
    #[error("line {0}: not understood")]
    NotUnderstood(usize),
    /// Memory was refused.
    #[error("no memory")]
    NoMemory,
    /// The system can't open, connect or poll a socket.
    #[error("socket failed")]
    SocketFailed,
    /// The system can't give random bytes.
    #[error("no random bytes")]
    NotRandom,
    /// The system can't listen at this address, with an error of this kind.
    #[error("cannot listen on {0}: {reason}", reason = reason_of(*.1))]
    CannotListen(SocketAddr, ErrorKind),
    /// The URL isn't that of an application, for this reason.
    #[error("--application: {0}")]
    NotAnApplication(EndpointFault),
    /// The run has taken all of its turns.
    #[error("turns over")]
    TurnsOver,
    /// The output couldn't be written completely.
    #[error("{failed}", failed = WriteFailed)]
    OutputFailed,
    /// A live terminal ends for this reason, and not by its operator.
    #[error("{0}")]
    Live(LiveFault),
}

/// Why the system can't listen, in words.
fn reason_of(kind: ErrorKind) -> &'static str {
    match kind {
        ErrorKind::AddrInUse => "address in use",
        ErrorKind::AddrNotAvailable => "address not available",
        ErrorKind::PermissionDenied => "permission denied",
        _ => "refused by the system",
    }
}

impl Fault {
    /// The exit status of the program.
    pub fn status(&self) -> u8
        ensures { result ≡ status_of self.now }
    {
        match self {
            Fault::InputNotRead | Fault::Panels(_) | Fault::Pool(_) => 1,
            Fault::NotHex(_) | Fault::NotUnderstood(_) => 1,
            Fault::NotAnApplication(_) => 2,
            Fault::NoMemory => 3,
            Fault::SocketFailed | Fault::NotRandom | Fault::CannotListen(_, _) => 4,
            Fault::TurnsOver => 5,
            Fault::OutputFailed => 6,
            Fault::Live(fault) => fault.status(),
        }
    }
}

impl From<AllocError> for Fault {
    ghost use Rattle.std.specs.Prelude.{◌≡◌};
    ghost use Rattle.jobs.specs.declared.fault.Fault.TheVariants.{NoMemory};

    ghost from_gives = { λ _ fault. fault ≡ NoMemory };

    fn from(_: AllocError) -> Fault {
        Fault::NoMemory
    }
}
