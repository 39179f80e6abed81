//! Why a line is neither a command nor an answer.
use std::error::Error;
use std::fmt;

/// Why received bytes are no command, or no answer.
#[derive(Clone, Copy, Debug, PartialEq, Eq)]
pub enum LineFault {
    /// There is no LF within the limit.
    TooLong,
    /// The line isn't UTF-8.
    NotText,
    /// The line isn't one of the five commands.
    Unknown,
    /// The recipient of a note is neither an LU name nor `*`.
    BadLu,
    /// The text has more than 131 characters, or one that isn't in code page 037.
    BadText,
    /// The line doesn't begin with a status.
    NoStatus,
}

impl fmt::Display for LineFault {
    ghost use Rattle.std.specs.Prelude.{Some};
    ghost use Rattle.service_wire.specs.Faults.{fault_text};

    ghost output = { λ fault. Some (fault_text fault) };

    fn fmt<W: fmt::Write>(&self, f: &mut fmt::Formatter<W>) -> fmt::Result {
        f.write_str(match self {
            LineFault::TooLong => "the line is too long",
            LineFault::NotText => "the line is not UTF-8",
            LineFault::Unknown => {
                "the command is none of: reload, drain [TEXT], note LU|* TEXT, sessions, stop"
            }
            LineFault::BadLu => "the recipient is neither the name of an LU nor *",
            LineFault::BadText => {
                "the text has more than 131 characters, or one that no 3270 screen has"
            }
            LineFault::NoStatus => "the answer has no status",
        })
    }
}

impl Error for LineFault {}
