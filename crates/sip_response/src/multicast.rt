//! Multicast addresses, and over how many hops datagrams go there (RFC 3261 18.2.2).
ghost use Rattle.std.specs.Prelude.{◌≡◌};
ghost use Rattle.ip_text.specs.declared.address.Address.TheVariants.{V4, V6};
ghost use Rattle.sip_response.specs.Multicast as spec;

use sip_uri::{Address, RouteParams};

/// Whether an IPv4 address is one of multicast.
fn is_multicast_v4(octets: [u8; 4]) -> bool
    ensures { result ≡ spec.is_multicast (V4 octets) }
{
    let [first, _, _, _] = octets;
    first >= 224 && first <= 239
}

/// Whether an IPv6 address is one of multicast.
fn is_multicast_v6(octets: [u8; 16]) -> bool
    ensures { result ≡ spec.is_multicast (V6 octets) }
{
    octets[0] == 255
}

/// Whether an address is one of multicast.
fn is_multicast(address: Address) -> bool
    ensures { result ≡ spec.is_multicast address }
{
    match address {
        Address::V4(octets) => is_multicast_v4(octets),
        Address::V6(octets) => is_multicast_v6(octets),
    }
}

/// The TTL of a datagram to an address of `maddr`, where that is one of multicast: that of the
/// parameter `ttl`, or 1.
pub fn multicast_ttl(address: Address, params: &RouteParams<'_>) -> Option<u8>
    ensures { result ≡ spec.multicast_ttl address params.now.ttl }
{
    if !is_multicast(address) {
        return None;
    }
    Some(params.ttl.unwrap_or(1))
}
