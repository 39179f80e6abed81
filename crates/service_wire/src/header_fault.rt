//! Why a connection has no header.
use thiserror::Error;

/// Why a connection that must begin with a header of the PROXY protocol has none. Prints as one word.
#[derive(Clone, Copy, Debug, PartialEq, Eq, Error)]
pub enum HeaderFault {
    /// It begins with other bytes.
    #[error("no-header")]
    NoHeader,
    /// Version 1: there is no CRLF in the first 107 bytes.
    #[error("long-line")]
    LongLine,
    /// Version 1: the line names no client: neither UNKNOWN nor TCP4 or TCP6 with two addresses and two ports.
    #[error("bad-line")]
    BadLine,
    /// Version 2: the version isn't 2.
    #[error("version")]
    Version,
    /// Version 2: the command is neither LOCAL nor PROXY.
    #[error("command")]
    Command,
    /// Version 2: the address family or the transport protocol is unassigned.
    #[error("family")]
    Family,
    /// Version 2: the header has fewer bytes than its addresses and ports.
    #[error("short-block")]
    ShortBlock,
    /// Version 2: the header has more than 536 bytes.
    #[error("long-block")]
    LongBlock,
}
