//! Why bytes are no command, and the sense that a terminal returns for it.
ghost use Rattle.std.specs.Prelude.{◌≡◌};
ghost use Rattle.datastream.specs.Senses.{sense_of};

use std::error::Error;
use std::fmt;

/// Why bytes are no command: the first fault in reading order (our profile).
#[derive(Clone, Copy, Debug, PartialEq, Eq, Hash)]
pub enum CommandFault {
    /// The first byte is no command's code. Write Structured Field is not supported.
    BadCommand,
    /// A byte is neither an order's code nor storable, or the character of a Repeat to Address isn't storable. The
    /// latter is checked after its address.
    BadOrder,
    /// An address is not on the screen. It is checked once both its bytes are there, against the size after the erase.
    BadAddress,
    /// There are no bytes, or they end before the write control character or inside an order.
    Truncated,
}

/// The sense of a negative response: why a terminal did not execute a command (RFC 1647, section 10.4).
#[derive(Clone, Copy, Debug, PartialEq, Eq)]
pub enum Sense {
    /// COMMAND-REJECT.
    CommandReject,
    /// OPERATION-CHECK.
    OperationCheck,
}

impl CommandFault {
    /// The sense with which a terminal rejects a command that has this fault (our profile).
    pub fn sense(self) -> Sense
        ensures { result ≡ sense_of self }
    {
        match self {
            CommandFault::BadCommand => Sense::CommandReject,
            CommandFault::BadOrder | CommandFault::BadAddress | CommandFault::Truncated => {
                Sense::OperationCheck
            }
        }
    }
}

impl fmt::Display for CommandFault {
    ghost use Rattle.std.specs.Prelude.{Some};
    ghost use Rattle.datastream.specs.Messages.{fault_text};

    ghost output = { λ fault. Some (fault_text fault) };

    fn fmt<W: fmt::Write>(&self, f: &mut fmt::Formatter<W>) -> fmt::Result {
        match self {
            CommandFault::BadCommand => f.write_str("unknown command"),
            CommandFault::BadOrder => f.write_str("neither an order nor a character"),
            CommandFault::BadAddress => f.write_str("address beyond the screen"),
            CommandFault::Truncated => f.write_str("command cut short"),
        }
    }
}

impl Error for CommandFault {}
