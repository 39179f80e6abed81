//! The URL at which an application listens (our profile).
ghost use Rattle.std.specs.Prelude.{◌≡◌, ◌++◌, None, Ok, IfErr, IfOk, OnOk, option_map, string_bytes};
ghost use Rattle.std.specs.Net.Socket.{socket_ip, socket_port};
ghost use Rattle.url.specs.Host.{borrowed_host};
ghost use Rattle.url.specs.Parser.{parse_url};
ghost use Rattle.url.specs.Parts.{nonempty_host};
ghost use Rattle.application_http.specs.Endpoints.{IsLoopback, IsRefused, IsAddressOf, is_local, port_of, refusal};
ghost use Rattle.application_http.specs.Requests.{field_lines, first_line};

use std::alloc::{AllocError, Global};
use std::marker::Model;
use std::net::{IpAddr, Ipv4Addr, SocketAddr};
use thiserror::Error;
use url::{Host, ParseError, Url, quirks};

/// The port if the URL has none (RFC 9110, section 4.2.1).
const HTTP_PORT: u16 = 80;

/// Why a text is not the URL of an application.
#[derive(Debug, Clone, Copy, PartialEq, Eq, Drop, Error)]
pub enum EndpointFault {
    /// Memory was refused, or the URL would take 4 GiB. This says nothing else about the text.
    #[error("no memory")]
    Memory,
    /// The text is not a URL (URL Standard, section 4.4).
    #[error("not a URL")]
    NotUrl(ParseError),
    /// The scheme is not http.
    #[error("the URL doesn't begin with http://")]
    NotHttp,
    /// The URL has a user name or a password, which wouldn't be sent.
    #[error("the URL has a user name or a password")]
    HasUser,
    /// The URL has a fragment, which wouldn't be sent.
    #[error("the URL has a fragment, behind #")]
    HasFragment,
    /// The host is not localhost, 127.0.0.0/8 or ::1.
    #[error("the URL's host is not this machine: localhost, 127.x.x.x or [::1]")]
    NotThisMachine,
}

/// The URL of an application on this machine: scheme http, host localhost, 127.0.0.0/8 or `[::1]`, a port, a path and a
/// query. Contracts see the parts of the URL.
#[derive(Drop)]
pub struct Endpoint {
    url: Url,
}

impl Model for Endpoint {
    ghost use Rattle.url.specs.Parts.{Parts, parts_code};
    ghost use Rattle.application_http.specs.Endpoints.{IsEndpoint};

    ghost Value = { Parts };

    ghost coded = { parts_code };

    ghost view = { λ endpoint. endpoint.url };

    ghost invariant = { λ endpoint. IsEndpoint endpoint.url };
}

/// Whether a host names this machine.
fn is_local(host: Option<Host<&str>>) -> bool
    ensures { result ≡ is_local (option_map borrowed_host host.entry) }
{
    match host {
        None => false,
        Some(Host::Domain(name)) => name == "localhost",
        Some(Host::Ipv4(address)) => address.octets()[0] == 127,
        Some(Host::Ipv6(address)) => address.segments() == [0, 0, 0, 0, 0, 0, 0, 1],
    }
}

/// The first reason for which a URL is refused; None if it is accepted.
fn refusal(url: &Url) -> Option<EndpointFault>
    ensures { result ≡ refusal url.now }
{
    if url.scheme() != "http" {
        Some(EndpointFault::NotHttp)
    } else if !url.username().is_empty() || url.password().is_some() {
        Some(EndpointFault::HasUser)
    } else if url.fragment().is_some() {
        Some(EndpointFault::HasFragment)
    } else if is_local(url.host()) {
        None
    } else {
        Some(EndpointFault::NotThisMachine)
    }
}

/// The IP address of a host. That of localhost is 127.0.0.1.
fn address_of(host: Option<Host<&str>>) -> IpAddr
    ensures { IsAddressOf (option_map borrowed_host host.entry) result }
{
    match host {
        Some(Host::Ipv4(address)) => IpAddr::V4(address),
        Some(Host::Ipv6(address)) => IpAddr::V6(address),
        _ => IpAddr::V4(Ipv4Addr::LOCALHOST),
    }
}

impl Endpoint {
    /// Parses a URL such as `http://127.0.0.1:8080/bank`. The error says why the text is refused.
    pub fn parse(alloc: Global, text: &str) -> Result<Endpoint, EndpointFault>
        ensures read { IfOk result (λ endpoint. parse_url None text.now ≡ Ok endpoint) }
        ensures accepted { IfOk result (λ endpoint. refusal endpoint ≡ None) }
        ensures refused { IfErr result (IsRefused text.now) }
    {
        let url = match Url::parse(alloc, text) {
            Ok(url) => url,
            Err(ParseError::OutOfMemory | ParseError::Overflow) => {
                return Err(EndpointFault::Memory);
            }
            Err(fault) => return Err(EndpointFault::NotUrl(fault)),
        };
        match refusal(&url) {
            Some(fault) => Err(fault),
            None => Ok(Endpoint { url }),
        }
    }

    /// The socket address to connect to: always one of this machine.
    pub fn address(&self) -> SocketAddr
        ensures ip { IsAddressOf (nonempty_host self.now) (socket_ip result) }
        ensures port { socket_port result ≡ port_of self.now }
        ensures this_machine { IsLoopback (socket_ip result) }
    {
        SocketAddr::new(
            address_of(self.url.host()),
            self.url.port().unwrap_or(HTTP_PORT),
        )
    }

    /// Adds the request line.
    #[tactic(auto, unfolding(crate::specs::Requests::first_line))]
    pub(crate) fn put_first_line(&self, text: &mut String) -> Result<(), AllocError>
        ensures { OnOk result (string_bytes text.new ≡ string_bytes text.old ++ first_line self.now) }
    {
        let path = self.url.path();
        let query = self.url.query();
        let mark = if query.is_some() { "?" } else { "" };
        let query = query.unwrap_or("");
        write!(text, "POST {path}{mark}{query} HTTP/1.1\r\n")
    }

    /// Adds the header fields of a request whose body has this length, in bytes, and the empty line.
    #[tactic(auto, unfolding(crate::specs::Requests::field_lines))]
    pub(crate) fn put_fields(&self, text: &mut String, length: usize) -> Result<(), AllocError>
        ensures { OnOk result (string_bytes text.new ≡ string_bytes text.old ++ field_lines self.now length) }
    {
        let host = quirks::host(&self.url);
        write!(
            text,
            "Host: {host}\r\nContent-Type: application/json\r\nContent-Length: {length}\r\n\r\n"
        )
    }
}
