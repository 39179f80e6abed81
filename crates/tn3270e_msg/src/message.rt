//! Messages of TN3270E (RFC 1647, section 7), lent from the payload of a subnegotiation.
use crate::reply::Reason;
use std::error::Error;
use std::fmt;

/// A name in a device request: one or more bytes from X'21' to X'7E' (RFC 1647, section 7.1).
#[derive(Clone, Copy, Debug)]
pub enum Name<'a> {
    /// CONNECT: the requested LU.
    Connect(&'a [u8]),
    /// ASSOCIATE: the LU of the terminal with which a printer is associated.
    Associate(&'a [u8]),
}

/// A message of the negotiation (RFC 1647, sections 3 and 7). Device types and names are one or more bytes from X'21'
/// to X'7E'. A list names functions by their codes, in any order and any number of times, and may be empty.
#[derive(Clone, Copy, Debug)]
pub enum SubMessage<'a> {
    /// SEND DEVICE-TYPE: the host asks for the terminal's device type.
    SendType,
    /// DEVICE-TYPE REQUEST: the terminal requests a device type and, if there is a name, an LU.
    TypeRequest {
        /// The type's text.
        device: &'a [u8],
        /// The requested LU, if any.
        name: Option<Name<'a>>,
    },
    /// DEVICE-TYPE IS, with CONNECT: the host grants an LU.
    TypeIs {
        /// The type's text.
        device: &'a [u8],
        /// The granted LU.
        name: &'a [u8],
    },
    /// DEVICE-TYPE REJECT REASON: the host grants no LU.
    TypeReject(Reason),
    /// FUNCTIONS REQUEST: an end proposes these functions.
    FunRequest(&'a [u8]),
    /// FUNCTIONS IS: an end agrees to these functions.
    FunIs(&'a [u8]),
}

/// Why the payload of a subnegotiation is no message.
#[derive(Clone, Copy, Debug, PartialEq, Eq)]
pub enum SubFault {
    /// Its first byte isn't X'28', or there is none: it belongs to another option.
    NotOurs,
    /// It belongs to TN3270E, but is no message.
    Malformed,
}

impl fmt::Display for SubFault {
    ghost use Rattle.std.specs.Prelude.{Some};
    ghost use Rattle.tn3270e_msg.specs.Printed.{sub_fault_text};

    ghost output = { λ fault. Some (sub_fault_text fault) };

    fn fmt<W: fmt::Write>(&self, f: &mut fmt::Formatter<W>) -> fmt::Result {
        match self {
            SubFault::NotOurs => f.write_str("subnegotiation of another option"),
            SubFault::Malformed => f.write_str("no message of TN3270E"),
        }
    }
}

impl Error for SubFault {}
