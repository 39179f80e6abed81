//! The header at the front of a connection.
ghost use Rattle.std.specs.Prelude.{IfOk, IfErr, IfSome, IfNone};
ghost use Rattle.service_wire.specs.Header.{HasHeader, IsAwaited, IsRefused};

use crate::fronts::{after, is_part_of};
use crate::header_block::{SIGNATURE, read_block};
use crate::header_fault::HeaderFault;
use crate::header_line::{LINE_MARK, read_line};
use std::net::SocketAddr;

/// A header of the PROXY protocol.
#[derive(Clone, Copy, Debug, PartialEq, Eq)]
pub struct Header {
    /// How many bytes it has.
    pub size: usize,
    /// The client's address and port; None if it names none, so that the connection's own peer is the client.
    pub client: Option<SocketAddr>,
}

/// Reads the header at the front of the first bytes of a connection; None if more are awaited.
pub(crate) fn read_header(bytes: &[u8]) -> Result<Option<Header>, HeaderFault>
    ensures found { IfOk result (λ found. IfSome found (HasHeader bytes.now)) }
    ensures awaited { IfOk result (λ found. IfNone found (IsAwaited bytes.now)) }
    ensures refused { IfErr result (IsRefused bytes.now) }
{
    if let Some(rest) = after(bytes, LINE_MARK) {
        return read_line(rest);
    }
    if let Some(rest) = after(bytes, SIGNATURE) {
        return read_block(rest);
    }
    if is_part_of(bytes, LINE_MARK) || is_part_of(bytes, SIGNATURE) {
        Ok(None)
    } else {
        Err(HeaderFault::NoHeader)
    }
}
