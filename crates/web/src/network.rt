//! The networks of clients, by which they are counted.
ghost use Rattle.std.specs.Prelude.{◌≡◌};
ghost use Rattle.web.specs.Networks.{network_of};

use std::net::IpAddr;

/// The number of a client's network: the 32 bits of an IPv4 address; or 2^64 and the first 64 bits of an IPv6 address, of
/// which one client may have all.
pub(crate) fn network_of(address: IpAddr) -> u128
    ensures { result ≡ network_of address }
{
    match address {
        IpAddr::V4(address) => u128::from(address.to_bits()),
        IpAddr::V6(address) => (1 << 64) + address.to_bits() / (1 << 64),
    }
}
