//! The address and port of a host, as a word of the command line.
ghost use Rattle.std.specs.Prelude.{◌≡◌};
ghost use Rattle.jobs.specs.OptionValues.{endpoint_of};

use crate::number::ServicePort;
use crate::service::address_of;
use crate::word::{after_first, before_first};
use std::net::{IpAddr, Ipv4Addr};

/// The address and port of a host.
#[derive(Clone, Copy, Debug)]
pub struct HostEndpoint {
    /// The address.
    pub host: IpAddr,
    /// The port.
    pub port: ServicePort,
}

impl HostEndpoint {
    /// The host in a word such as `3270`, a port of 127.0.0.1, or `192.0.2.7:3270` or `localhost:3270`, an IPv4 address
    /// and a port. None if the word is neither.
    pub fn read(word: &str) -> Option<HostEndpoint>
        ensures { result ≡ endpoint_of word.now }
    {
        let port = after_first(word, ':');
        if port.is_empty() {
            Some(HostEndpoint {
                host: IpAddr::V4(Ipv4Addr::LOCALHOST),
                port: ServicePort::read(word)?,
            })
        } else {
            Some(HostEndpoint {
                host: address_of(before_first(word, ':'))?,
                port: ServicePort::read(port)?,
            })
        }
    }
}
