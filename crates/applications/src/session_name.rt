//! The names of sessions.
ghost use Rattle.std.specs.Prelude.{◌≡◌, IfOk, string_bytes};
ghost use Rattle.applications.specs.SessionNames.{IsDrawn, session_after, session_text};

use jobs::RawRandom;
use std::alloc::{AllocError, Global};
use std::{fmt, io};

/// The name of a session. No other session has it, not even after the host is started again. Prints as `BOOT-N`.
#[derive(Clone, Copy)]
pub struct SessionName {
    /// BOOT: the number that the host drew when it started. Prints as 16 hexadecimal digits.
    pub boot: u64,
    /// N: how many sessions began before it since that start. Prints in decimal digits.
    pub number: u64,
}

impl fmt::Display for SessionName {
    ghost use Rattle.std.specs.Prelude.{Some};
    ghost use Rattle.applications.specs.SessionNames.{session_text};

    ghost output = { λ session. Some (session_text session) };

    fn fmt<W: fmt::Write>(&self, f: &mut fmt::Formatter<W>) -> fmt::Result {
        let SessionName { boot, number } = *self;
        write!(f, "{boot:016x}-{number}")
    }
}

impl SessionName {
    /// The name of the next session of this host. The count wraps round after 2^64 sessions.
    pub fn next(self) -> SessionName
        ensures { result ≡ session_after self }
    {
        SessionName {
            number: self.number.wrapping_add(1),
            ..self
        }
    }
}

/// A session's name as text.
pub(crate) fn session_text(alloc: Global, session: SessionName) -> Result<String, AllocError>
    ensures { IfOk result (λ text. string_bytes text ≡ session_text session) }
{
    format!(in alloc; "{session}")
}

/// Draws the first part of the names of all sessions of one start of the host: 64 random bits from the system. The
/// probability that any two of a thousand starts draw the same bits is below 2^-44.
pub fn draw_boot<R: RawRandom>(source: &R) -> io::Result<u64>
    ensures { IfOk result (IsDrawn (R.filled source.now)) }
{
    let mut bytes = [0; 8];
    source.fill_once(&mut bytes)?;
    Ok(u64::from_be_bytes(bytes))
}
