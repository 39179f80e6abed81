//! Version 1: a header is a line of text (section 2.1).
ghost use Rattle.std.specs.Prelude.{◌≡◌, ◌∷◌, [], ◌++◌, ℕ, ◌<◌, ◌≢◌, Option, MatchOption, IfOk, IfErr, IfSome, IfNone, length, drop, option_copied, slice_index};
ghost use Rattle.std.specs.Bool.{Decides};
ghost use Rattle.std.specs.Net.Grammar.{IsIpv4Text, IsIpv6Text};
ghost use Rattle.std.specs.declared.net.socket_addr.SocketAddr.{SocketAddr};
ghost use Rattle.service_wire.specs.Header.{HasHeader};
ghost use Rattle.service_wire.specs.HeaderLine.{IsBadLine, IsClient, IsLine, IsNoClient, IsNoPair, IsOpenLine, IsPair, IsPort, begins_with_crlf, line_in, line_mark, list_of, words};

use crate::fronts::{after, front_of, place_of};
use crate::header::Header;
use crate::header_fault::HeaderFault;
use std::net::{IpAddr, Ipv4Addr, Ipv6Addr, SocketAddr};

/// What each header of version 1 begins with.
pub(crate) const LINE_MARK: &[u8] = b"PROXY ";

/// The longest line with CRLF, without these six bytes.
const LONGEST_LINE: usize = 101;

/// The words of a line of TCP over IPv4 or IPv6.
#[derive(Clone, Copy)]
struct Words<'a> {
    family: &'a [u8],
    source: &'a [u8],
    target: &'a [u8],
    source_port: &'a [u8],
    target_port: &'a [u8],
}

/// The first word of a text and what follows the space after it; None if there is no space.
fn split_word(text: &[u8]) -> Option<(&[u8], &[u8])>
    ensures { MatchOption result (words text.now ≡ text.now ∷ []) (λ p. words text.now ≡ p.0.now ∷ words p.1.now) }
{
    let Some(space) = place_of(b' ', text) else {
        return None;
    };
    Some((&text[..space], &text[space + 1..]))
}

/// The five words of a line; None if it has fewer or more.
fn words_of(line: &[u8]) -> Option<Words<'_>>
    ensures found { IfSome result (λ found. words line.now ≡ list_of found) }
    ensures none { IfNone result (length (words line.now) ≢ 5) }
{
    let (family, rest) = split_word(line)?;
    let (source, rest) = split_word(rest)?;
    let (target, rest) = split_word(rest)?;
    let (source_port, target_port) = split_word(rest)?;
    match split_word(target_port) {
        Some(_) => None,
        None => Some(Words {
            family,
            source,
            target,
            source_port,
            target_port,
        }),
    }
}

/// Whether a text of several digits begins with zero.
fn has_heading_zero(text: &[u8]) -> bool
    ensures { Decides result ((1 < length text.now) × (slice_index text.now 0 ≡ 48)) }
{
    text.len() > 1 && text[0] == b'0'
}

/// The port that a text spells.
fn port_of(text: &[u8]) -> Option<u16>
    ensures { MatchOption result ((port : ℕ) → ¬ (IsPort text.now port)) (IsPort text.now) }
{
    if text.is_empty() {
        return None;
    }
    if has_heading_zero(text) {
        return None;
    }
    let mut port = 0u32;
    for byte in text {
        let Some(digit) = char::from(*byte).to_digit(10) else {
            return None;
        };
        port = port * 10 + digit;
        if port > 65_535 {
            return None;
        }
    }
    Some(port as u16)
}

/// The first of two ports.
fn first_port(first: &[u8], second: &[u8]) -> Option<u16>
    ensures { MatchOption result (IsNoPair IsPort first.now second.now) (IsPair IsPort first.now second.now) }
{
    let port = port_of(first)?;
    match port_of(second) {
        Some(_) => Some(port),
        None => None,
    }
}

/// The first of two IPv4 addresses.
fn first_ipv4(first: &[u8], second: &[u8]) -> Option<Ipv4Addr>
    ensures { MatchOption result (IsNoPair IsIpv4Text first.now second.now) (IsPair IsIpv4Text first.now second.now) }
{
    let Ok(address) = Ipv4Addr::parse_ascii(first) else {
        return None;
    };
    match Ipv4Addr::parse_ascii(second) {
        Ok(_) => Some(address),
        Err(_) => None,
    }
}

/// The first of two IPv6 addresses.
fn first_ipv6(first: &[u8], second: &[u8]) -> Option<Ipv6Addr>
    ensures { MatchOption result (IsNoPair IsIpv6Text first.now second.now) (IsPair IsIpv6Text first.now second.now) }
{
    let Ok(address) = Ipv6Addr::parse_ascii(first) else {
        return None;
    };
    match Ipv6Addr::parse_ascii(second) {
        Ok(_) => Some(address),
        Err(_) => None,
    }
}

/// The client that the words name.
fn client_of(words: &Words<'_>) -> Option<SocketAddr>
    ensures { MatchOption result (IsNoClient (list_of words.now)) (IsClient (list_of words.now)) }
{
    let address = match words.family {
        b"TCP4" => IpAddr::V4(first_ipv4(words.source, words.target)?),
        b"TCP6" => IpAddr::V6(first_ipv6(words.source, words.target)?),
        _ => return None,
    };
    let port = first_port(words.source_port, words.target_port)?;
    Some(SocketAddr::new(address, port))
}

/// What a line says of the client; None if it is no line of the protocol.
fn read_words(line: &[u8]) -> Option<Option<SocketAddr>>
    ensures { MatchOption result ((client : Option SocketAddr) → ¬ (IsLine line.now client)) (IsLine line.now) }
{
    if let Some(_ignored) = after(line, b"UNKNOWN") {
        return Some(None);
    }
    let Some(words) = words_of(line) else {
        return None;
    };
    match client_of(&words) {
        Some(client) => Some(Some(client)),
        None => None,
    }
}

/// Whether CRLF begins at this place.
fn is_crlf_at(bytes: &[u8], place: usize) -> bool
    requires { place < length bytes.now }
    ensures { result ≡ begins_with_crlf (drop place bytes.now) }
{
    bytes[place] == b'\r' && place + 1 < bytes.len() && bytes[place + 1] == b'\n'
}

/// What is before the first CRLF.
fn line_in(bytes: &[u8]) -> Option<&[u8]>
    ensures { option_copied result ≡ line_in bytes.now }
{
    for place in 0..bytes.len() {
        if is_crlf_at(bytes, place) {
            return Some(&bytes[..place]);
        }
    }
    None
}

/// Reads the header of version 1 that has these bytes after its mark.
pub(crate) fn read_line(bytes: &[u8]) -> Result<Option<Header>, HeaderFault>
    ensures found { IfOk result (λ found. IfSome found (HasHeader (line_mark ++ bytes.now))) }
    ensures awaited { IfOk result (λ found. IfNone found (IsOpenLine bytes.now)) }
    ensures refused { IfErr result (IsBadLine bytes.now) }
{
    let Some(line) = line_in(front_of(bytes, LONGEST_LINE)) else {
        return if bytes.len() < LONGEST_LINE {
            Ok(None)
        } else {
            Err(HeaderFault::LongLine)
        };
    };
    match read_words(line) {
        Some(client) => Ok(Some(Header {
            size: LINE_MARK.len() + line.len() + 2,
            client,
        })),
        None => Err(HeaderFault::BadLine),
    }
}
