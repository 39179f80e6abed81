//! The types of the wire.
ghost use Rattle.std.specs.Prelude.{◌≡◌};
ghost use Rattle.telnet_wire.specs.Token.{code_of};
ghost use Rattle.telnet_wire.specs.declared.wire.WireFault.TheVariants as faults;

use crate::codes::{DO, DONT, WILL, WONT};
use std::alloc::AllocError;
use std::error::Error;
use std::fmt;

/// The allocator failed to grow a vector. A `put_` call that fails with it leaves the vector's bytes unchanged.
pub type Memory = AllocError;

/// What the negotiation of an option says (RFC 854, "TELNET Command Structure"; RFC 855 on options).
#[derive(Clone, Copy, Debug, PartialEq, Eq, Hash)]
pub enum Verb {
    /// The sender offers to use the option, or agrees to: byte 251.
    Will,
    /// The sender refuses to use the option, or stops: byte 252.
    Wont,
    /// The sender asks the other end to use the option, or agrees that it does: byte 253.
    Do,
    /// The sender forbids the other end to use the option: byte 254.
    Dont,
}

impl Verb {
    /// The byte after IAC that means it, 251 to 254.
    pub fn code(self) -> u8
        ensures { result ≡ code_of self }
    {
        match self {
            Verb::Will => WILL,
            Verb::Wont => WONT,
            Verb::Do => DO,
            Verb::Dont => DONT,
        }
    }
}

/// An item of the stream, lent from the decoder's buffers until the next push.
#[derive(Clone, Copy, Debug, PartialEq, Eq)]
pub enum Item<'a> {
    /// A record: all data since the end of the previous record, each 255 once (RFC 885).
    Record(&'a [u8]),
    /// The negotiation of the option `code` (RFC 855).
    Opt {
        /// What the sender says of the option.
        verb: Verb,
        /// The option's number.
        code: u8,
    },
    /// A subnegotiation: the bytes between IAC SB and IAC SE, the option's number first, each 255 once (RFC 855).
    Sub(&'a [u8]),
    /// Any other command, by the byte after IAC: 0 to 249 but 239. Our profile gives it no meaning.
    Other(u8),
}

/// Whether a byte completed an item.
#[derive(Clone, Copy, Debug, PartialEq, Eq, Hash)]
pub enum Step {
    /// No item is complete.
    More,
    /// The byte completed an item, which `item` lends until the next push.
    Ready,
}

/// Why a byte was refused, or why a decoder wasn't made.
#[derive(Clone, Copy, Debug, PartialEq, Eq, Hash)]
pub enum WireFault {
    /// A record has more bytes of data than the decoder's limit, or a subnegotiation more than 256 bytes. The byte that
    /// completes the first of these over the limit is refused: for a data byte 255 that is the second 255.
    TooLong,
    /// Inside a subnegotiation, a byte other than IAC and SE follows IAC. That byte is refused.
    BadSub,
    /// The allocator refused memory. Only `Decoder::new` returns it; `?` makes it from the [`Memory`] of a `put_` call.
    Memory,
    /// An earlier byte was refused, and `reset` wasn't called since.
    Failed,
}

impl fmt::Display for WireFault {
    ghost use Rattle.std.specs.Prelude.{Some};
    ghost use Rattle.telnet_wire.specs.Messages.{fault_text};

    ghost output = { λ fault. Some (fault_text fault) };

    fn fmt<W: fmt::Write>(&self, f: &mut fmt::Formatter<W>) -> fmt::Result {
        match self {
            WireFault::TooLong => f.write_str("record or subnegotiation too long"),
            WireFault::BadSub => f.write_str("command inside a subnegotiation"),
            WireFault::Memory => f.write_str("out of memory"),
            WireFault::Failed => f.write_str("stream refused earlier"),
        }
    }
}

impl Error for WireFault {}

impl From<AllocError> for WireFault {
    ghost from_gives = { λ _ fault. fault ≡ faults.Memory };

    fn from(_: AllocError) -> WireFault {
        WireFault::Memory
    }
}
