//! The options of `serve`: where it listens, its time limits, what it reports, and how it is controlled.
ghost use Rattle.std.specs.Prelude.{◌≡◌};
ghost use Rattle.jobs.specs.OptionValues.{address_of, written_address};

use crate::job::Operand;
use crate::number::{ReplyTime, Seconds, ServicePort};
use host_core::Terminals;
use std::net::{IpAddr, Ipv4Addr};

/// The time limits of a connection, in seconds. 0 is no limit.
#[derive(Clone, Copy, Debug)]
pub struct TimeLimits {
    /// A connection is dropped if it has not agreed on a session this long after it began.
    pub negotiate: Seconds,
    /// A bound connection that sent nothing for this long is sent IAC NOP (RFC 854), so that TCP notices a dead peer.
    pub keepalive: Seconds,
    /// A connection is dropped if it sent nothing for this long.
    pub idle: Seconds,
}

/// The options of `serve`.
#[derive(Clone, Copy, Debug)]
pub struct Service {
    /// The address that it listens on.
    pub listen: IpAddr,
    /// The port that it listens on.
    pub port: ServicePort,
    /// The time limits of each connection.
    pub limits: TimeLimits,
    /// The terminals that connect.
    pub terminals: Terminals,
    /// Whether each connection begins with a header of the PROXY protocol.
    pub proxy_protocol: bool,
    /// Whether the log is left out.
    pub quiet: bool,
    /// The port of 127.0.0.1 at which metrics are served, if any.
    pub metrics: Option<ServicePort>,
}

/// The application that decides for `serve`.
#[derive(Debug, Drop)]
pub struct ApplicationChoice<'a> {
    /// The application's URL; None if there is no application.
    pub url: Option<Operand<'a>>,
    /// How long the application may take for a reply.
    pub reply_time: ReplyTime,
}

/// How an operator controls `serve` while it runs.
#[derive(Debug, Drop)]
pub struct ControlChoice<'a> {
    /// The file name of the control socket; None if there is none.
    pub socket: Option<Operand<'a>>,
    /// After this time a drained service ends the sessions that are left. 0 is no limit.
    pub drain: Seconds,
}

/// The IPv4 or IPv6 address that a word spells; None if it spells none.
fn written_address(word: &str) -> Option<IpAddr>
    ensures { result ≡ written_address word.now }
{
    word.parse::<IpAddr>().ok()
}

/// The address that a word means: 127.0.0.1 for `localhost`, otherwise the IPv4 or IPv6 address that it spells; None if
/// it spells none.
pub fn address_of(word: &str) -> Option<IpAddr>
    ensures { result ≡ address_of word.now }
{
    match word {
        "localhost" => Some(IpAddr::V4(Ipv4Addr::LOCALHOST)),
        _ => written_address(word),
    }
}
