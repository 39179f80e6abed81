//! Version 2: a header is 16 bytes and a block (section 2.2).
ghost use Rattle.std.specs.Prelude.{◌≡◌, ◌+◌, ◌<◌, ◌≤◌, Some, IfOk, IfErr, IfSome, IfNone, OnOk, length};
ghost use Rattle.service_wire.specs.HeaderBlock.{CanHaveLength, Completes, IsBadBlock, IsBadLength, IsBlock, IsMissingInBlock, IsOpenBlock, command_of, contents_of, least_block, number_at};
ghost use Rattle.service_wire.specs.declared.header_block.Contents.TheVariants.{Inet, Inet6};

use crate::header::Header;
use crate::header_fault::HeaderFault;
use std::net::{Ipv4Addr, Ipv6Addr, SocketAddr, SocketAddrV4, SocketAddrV6};

/// What each header of version 2 begins with.
pub(crate) const SIGNATURE: &[u8] = b"\r\n\r\n\0\r\nQUIT\n";

/// The longest block.
const LONGEST_BLOCK: usize = 520;

/// The command of a header.
#[derive(Clone, Copy)]
enum HeaderCommand {
    /// LOCAL: the proxy itself connects, as for a health check.
    Local,
    /// PROXY: the proxy connects for a client.
    Proxy,
}

/// What a block has.
#[derive(Clone, Copy)]
enum Contents {
    /// Nothing that is used.
    Ignored,
    /// Two IPv4 addresses and two ports.
    Inet,
    /// Two IPv6 addresses and two ports.
    Inet6,
}

/// The command of the 13th byte.
fn command_of(byte: u8) -> Result<HeaderCommand, HeaderFault>
    ensures { result ≡ command_of byte }
{
    match byte {
        0x20 => Ok(HeaderCommand::Local),
        0x21 => Ok(HeaderCommand::Proxy),
        _ if byte / 16 == 2 => Err(HeaderFault::Command),
        _ => Err(HeaderFault::Version),
    }
}

/// What the 14th byte says of the block.
fn contents_of(command: HeaderCommand, byte: u8) -> Result<Contents, HeaderFault>
    ensures { result ≡ contents_of command byte }
{
    match command {
        HeaderCommand::Local => Ok(Contents::Ignored),
        HeaderCommand::Proxy => match byte {
            0x11 => Ok(Contents::Inet),
            0x21 => Ok(Contents::Inet6),
            _ if byte < 0x40 && byte % 16 < 3 => Ok(Contents::Ignored),
            _ => Err(HeaderFault::Family),
        },
    }
}

/// A number of 16 bits in network byte order.
fn number_at(bytes: &[u8], place: usize) -> u16
    requires { place + 1 < length bytes.now }
    ensures { result ≡ number_at bytes.now place }
{
    u16::from_be_bytes([bytes[place], bytes[place + 1]])
}

/// The source address and port of two IPv4 addresses and two ports.
fn inet_client(block: &[u8]) -> SocketAddr
    requires { 12 ≤ length block.now }
    ensures { IsBlock Inet block.now (Some result) }
{
    let address = Ipv4Addr::new(block[0], block[1], block[2], block[3]);
    SocketAddr::V4(SocketAddrV4::new(address, number_at(block, 8)))
}

/// The source address and port of two IPv6 addresses and two ports.
fn inet6_client(block: &[u8]) -> SocketAddr
    requires { 36 ≤ length block.now }
    ensures { IsBlock Inet6 block.now (Some result) }
{
    let mut octets = [0; 16];
    octets.copy_from_slice(&block[..16]);
    let address = Ipv6Addr::from_octets(octets);
    SocketAddr::V6(SocketAddrV6::new(address, number_at(block, 32), 0, 0))
}

impl Contents {
    /// Refuses a length that a block of these contents can't have.
    fn check_length(self, size: usize) -> Result<(), HeaderFault>
        ensures can { OnOk result (CanHaveLength self size) }
        ensures bad { IfErr result (IsBadLength self size) }
    {
        let addresses_and_ports = match self {
            Contents::Ignored => 0,
            Contents::Inet => 12,
            Contents::Inet6 => 36,
        };
        if size < addresses_and_ports {
            Err(HeaderFault::ShortBlock)
        } else if size > LONGEST_BLOCK {
            Err(HeaderFault::LongBlock)
        } else {
            Ok(())
        }
    }

    /// The client that a block of these contents names.
    fn client_in(self, block: &[u8]) -> Option<SocketAddr>
        requires { least_block self ≤ length block.now }
        ensures { IsBlock self block.now result }
    {
        match self {
            Contents::Ignored => None,
            Contents::Inet => Some(inet_client(block)),
            Contents::Inet6 => Some(inet6_client(block)),
        }
    }
}

/// How many bytes a header has more, at least, that has these after its signature: one while its length is awaited.
pub(crate) fn missing_in_block(bytes: &[u8]) -> usize
    requires { IsOpenBlock bytes.now }
    ensures { IsMissingInBlock bytes.now result }
{
    if bytes.len() < 4 {
        1
    } else {
        4 + usize::from(number_at(bytes, 2)) - bytes.len()
    }
}

/// Reads the header of version 2 that has these bytes after its signature.
pub(crate) fn read_block(bytes: &[u8]) -> Result<Option<Header>, HeaderFault>
    ensures found { IfOk result (λ found. IfSome found (Completes bytes.now)) }
    ensures awaited { IfOk result (λ found. IfNone found (IsOpenBlock bytes.now)) }
    ensures refused { IfErr result (IsBadBlock bytes.now) }
{
    let [version, rest @ ..] = bytes else {
        return Ok(None);
    };
    let command = command_of(*version)?;
    let [family, rest @ ..] = rest else {
        return Ok(None);
    };
    let contents = contents_of(command, *family)?;
    let [high, low, rest @ ..] = rest else {
        return Ok(None);
    };
    let length = usize::from(u16::from_be_bytes([*high, *low]));
    contents.check_length(length)?;
    if rest.len() < length {
        return Ok(None);
    }
    Ok(Some(Header {
        size: SIGNATURE.len() + 4 + length,
        client: contents.client_in(&rest[..length]),
    }))
}
