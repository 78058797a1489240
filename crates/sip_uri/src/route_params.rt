//! What the parameters of a Via say of where a response goes (RFC 3261 18.2, RFC 3581 3).
ghost use Rattle.std.specs.Prelude.{◌≡◌, IfSome, List};
ghost use Rattle.std.specs.Option.{option_map};
ghost use Rattle.ip_text.specs.Readers.{ipv4_number};
ghost use Rattle.sip_uri.specs.Readers.Hosts as host;
ghost use Rattle.sip_uri.specs.Readers.ViaRoutes as spec;
ghost use Rattle.sip_uri.specs.Uris.{Param};
ghost use Rattle.sip_uri.specs.ViaRoutes.{ListText, RouteSays};
ghost use Rattle.sip_uri.specs.Views.{host_of};

use crate::host_part::{HostPart, host_part};
use crate::place::port_number;
use crate::via_values::param_value;
use ip_text::{Address, decimal, ipv6_octets};

/// What the parameter `rport` of a Via says (RFC 3581 3).
#[derive(Clone, Copy, Debug, PartialEq, Eq)]
pub enum Rport {
    /// It is not there, or its value is no port.
    Absent,
    /// It is there without a value: the client asks for the port that its request came from.
    Empty,
    /// The port that the request came from.
    Port(u16),
}

/// What the parameters of a Via say of where a response goes, as they stand in a text (RFC 3261
/// 18.2, 20.42). A parameter whose value is none of its kind counts as not there.
#[derive(Clone, Copy, Debug)]
pub struct RouteParams<'a> {
    /// The address that the request came from.
    pub received: Option<Address>,
    /// The port that the request came from, or that it is asked for (RFC 3581).
    pub rport: Rport,
    /// The host that responses go to in place of the one in front of the parameters.
    pub maddr: Option<HostPart<'a>>,
    /// Over how many hops a response to a multicast address may go.
    pub ttl: Option<u8>,
}

/// The address of the value of `received`.
#[tactic(auto, unfolding(crate::specs::Readers::ViaRoutes::received))]
fn received_address(text: &[u8]) -> Option<Address>
    ensures { result ≡ spec.received text.now }
{
    match host_part(text) {
        None => Some(Address::V6(ipv6_octets(text)?)),
        Some(HostPart::V4(address)) => Some(Address::V4(address.octets)),
        Some(HostPart::V6(address)) => Some(Address::V6(address.octets)),
        Some(HostPart::Domain(_)) => None,
    }
}

/// The number of the value of `ttl`: one to three digits.
fn ttl_number(text: &[u8]) -> Option<u8>
    ensures { result ≡ ipv4_number text.now }
{
    if text.len() > 3 {
        return None;
    }
    Some(decimal(text, 255)? as u8)
}

/// What `received` says.
fn received_of(value: Option<Option<&[u8]>>) -> Option<Address>
    ensures { result ≡ spec.said spec.received
        (option_map (λ value. option_map (λ text. text.now) value) value.entry) }
{
    received_address(value??)
}

/// What `rport` says.
fn rport_of(value: Option<Option<&[u8]>>) -> Rport
    ensures { result ≡ spec.rport
        (option_map (λ value. option_map (λ text. text.now) value) value.entry) }
{
    match value {
        None => Rport::Absent,
        Some(None) => Rport::Empty,
        Some(Some(text)) => match port_number(text) {
            None => Rport::Absent,
            Some(port) => Rport::Port(port),
        },
    }
}

/// What `maddr` says.
fn maddr_of(value: Option<Option<&[u8]>>) -> Option<HostPart<'_>>
    ensures host { option_map host_of result ≡ spec.said host.host
        (option_map (λ value. option_map (λ text. text.now) value) value.entry) }
    ensures hostname { IfSome result host.IsHostPart }
{
    host_part(value??)
}

/// What `ttl` says.
fn ttl_of(value: Option<Option<&[u8]>>) -> Option<u8>
    ensures { result ≡ spec.said ipv4_number
        (option_map (λ value. option_map (λ text. text.now) value) value.entry) }
{
    ttl_number(value??)
}

/// What parameters say of where a response goes.
pub(crate) fn route_params(params: &[u8]) -> RouteParams<'_>
    ensures says { (list : List Param) → ListText params.now list → RouteSays list result }
    ensures hostname { IfSome result.maddr host.IsHostPart }
{
    RouteParams {
        received: received_of(param_value(params, b"received")),
        rport: rport_of(param_value(params, b"rport")),
        maddr: maddr_of(param_value(params, b"maddr")),
        ttl: ttl_of(param_value(params, b"ttl")),
    }
}
