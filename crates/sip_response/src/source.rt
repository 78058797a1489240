//! What a server writes into the Via of a request that comes in (RFC 3261 18.2.1, RFC 3581 4).
ghost use Rattle.std.specs.Prelude.{◌≡◌, ◌↔◌, IsTrue, Some};
ghost use Rattle.sip_response.specs.Sources as spec;
ghost use Rattle.sip_uri.specs.declared.route_params.Rport.TheVariants.{Empty};

use crate::endpoint::Endpoint;
use sip_uri::{Address, HostPart, RouteParams, Rport, ViaParts};

/// Whether a host is this address.
fn is_address(host: HostPart<'_>, address: Address) -> bool
    ensures { IsTrue result ↔ (spec.address_of host.entry ≡ Some address) }
{
    match (host, address) {
        (HostPart::V4(host), Address::V4(octets)) => host.octets == octets,
        (HostPart::V6(host), Address::V6(octets)) => host.octets == octets,
        _ => false,
    }
}

/// Whether `rport` has no value.
fn is_asked(rport: Rport) -> bool
    ensures { IsTrue result ↔ (rport ≡ Empty) }
{
    match rport {
        Rport::Empty => true,
        Rport::Absent => false,
        Rport::Port(_) => false,
    }
}

/// What `received` says where the packet came from this address.
fn received_of(host: HostPart<'_>, rport: Rport, source: Address) -> Option<Address>
    ensures { spec.IsReceived host.entry rport source result }
{
    if is_asked(rport) {
        return Some(source);
    }
    if is_address(host, source) {
        return None;
    }
    Some(source)
}

/// What `rport` says where the packet came from this port.
fn rport_of(rport: Rport, source: u16) -> Rport
    ensures { result ≡ spec.rport_of rport source }
{
    match rport {
        Rport::Empty => Rport::Port(source),
        Rport::Absent => Rport::Absent,
        Rport::Port(port) => Rport::Port(port),
    }
}

/// The parameters of a request's top Via, as its server sets them before all else: `received` is
/// the address of the source, where the host of the Via is a name or another address (RFC 3261
/// 18.2.1) or `rport` has no value, which is then the port of the source (RFC 3581 4). What the
/// client wrote in `received` counts for nothing.
pub fn with_source<'a>(
    parts: &ViaParts<'_>,
    params: &RouteParams<'a>,
    source: Endpoint,
) -> RouteParams<'a>
    ensures received { spec.IsReceived parts.now.host params.now.rport source.address
        result.received }
    ensures rport { result.rport ≡ spec.rport_of params.now.rport source.port }
    ensures maddr { result.maddr ≡ params.now.maddr }
    ensures ttl { result.ttl ≡ params.now.ttl }
{
    RouteParams {
        received: received_of(parts.host, params.rport, source.address),
        rport: rport_of(params.rport, source.port),
        maddr: params.maddr,
        ttl: params.ttl,
    }
}
