//! Where a response goes (RFC 3261 18.2.2, RFC 3581 4).
ghost use Rattle.std.specs.Prelude.{◌≡◌, Some, None};
ghost use Rattle.sip_response.specs.Multicast.{multicast_ttl};
ghost use Rattle.sip_response.specs.Routes as spec;
ghost use Rattle.sip_response.specs.declared.route.Step.TheVariants.{Maddr, MaddrName, Received, SentBy};

use crate::endpoint::Endpoint;
use crate::multicast::multicast_ttl;
use sip_uri::{Address, HostPart, RouteParams, Rport, Transport, ViaParts};

/// One way to send a response.
#[derive(Clone, Copy, Debug)]
pub enum Step<'a> {
    /// Over the connection that the request came over, if it is still open.
    Connection,
    /// Over a new connection to this endpoint, by the transport that the request came over.
    Opened(Endpoint),
    /// By a datagram to the address of `maddr`; where that is one of multicast, with this TTL.
    Maddr {
        /// The address, and the port.
        to: Endpoint,
        /// The TTL, for an address of multicast.
        ttl: Option<u8>,
    },
    /// By a datagram to an address of the name in `maddr`, and to this port.
    MaddrName {
        /// The name as it stands in the Via.
        name: &'a [u8],
        /// The port.
        port: u16,
    },
    /// By a datagram to the address that the request came from.
    Received {
        /// The address, and the port.
        to: Endpoint,
        /// Whether it has to leave from the address and port that the request came to (RFC 3581).
        symmetric: bool,
    },
    /// Where RFC 3263 5 says that the host and port of the Via are.
    SentBy,
}

/// Where a response goes: what is tried first, and what where that fails.
#[derive(Clone, Copy, Debug)]
pub struct ResponseRoute<'a> {
    /// What is tried first.
    pub first: Step<'a>,
    /// What is tried where the first fails.
    pub second: Option<Step<'a>>,
    /// What is tried where both fail.
    pub third: Option<Step<'a>>,
}

impl<'a> ResponseRoute<'a> {
    /// What is tried first where the connection that the request came over is not used.
    pub fn past_connection(&self) -> Option<Step<'a>>
        ensures { result ≡ spec.past_connection self.now }
    {
        match self.first {
            Step::Connection => self.second,
            Step::Opened(_)
            | Step::Maddr { .. }
            | Step::MaddrName { .. }
            | Step::Received { .. }
            | Step::SentBy => Some(self.first),
        }
    }
}

/// The port that a Via writes, or the default of a transport (RFC 3261 18.2.2).
fn sent_port(over: Transport, written: Option<u16>) -> u16
    ensures { result ≡ spec.sent_port over written }
{
    match written {
        Some(port) => port,
        None => match over {
            Transport::Tls => 5061,
            Transport::Udp | Transport::Tcp | Transport::Sctp => 5060,
        },
    }
}

/// The port that `rport` has.
fn rport_port(rport: Rport) -> Option<u16>
    ensures { result ≡ spec.rport_port rport }
{
    match rport {
        Rport::Port(port) => Some(port),
        Rport::Absent => None,
        Rport::Empty => None,
    }
}

/// Whether the transport is a reliable one.
fn is_reliable(over: Transport) -> bool
    ensures { result ≡ spec.is_reliable over }
{
    match over {
        Transport::Udp => false,
        Transport::Tcp | Transport::Sctp | Transport::Tls => true,
    }
}

/// Over a reliable transport.
fn over_connection<'a>(received: Option<Address>, port: u16) -> ResponseRoute<'a>
    ensures { spec.OverConnection received port result }
{
    match received {
        Some(address) => ResponseRoute {
            first: Step::Connection,
            second: Some(Step::Opened(Endpoint { address, port })),
            third: Some(Step::SentBy),
        },
        None => ResponseRoute {
            first: Step::Connection,
            second: Some(Step::SentBy),
            third: None,
        },
    }
}

/// To the address of `maddr`, and nowhere else.
fn to_maddr<'a>(address: Address, params: &RouteParams<'_>, port: u16) -> ResponseRoute<'a>
    ensures { result ≡ spec.steps
        (Maddr (spec.endpoint address port) (multicast_ttl address params.now.ttl)) None None }
{
    ResponseRoute {
        first: Step::Maddr {
            to: Endpoint { address, port },
            ttl: multicast_ttl(address, params),
        },
        second: None,
        third: None,
    }
}

/// To an address of the name in `maddr`, and nowhere else.
fn to_maddr_name<'a>(name: &'a [u8], port: u16) -> ResponseRoute<'a>
    ensures { result ≡ spec.steps (MaddrName name.entry port) None None }
{
    ResponseRoute {
        first: Step::MaddrName { name, port },
        second: None,
        third: None,
    }
}

/// To where the request came from, and else where RFC 3263 5 says.
fn to_received<'a>(to: Endpoint, symmetric: bool) -> ResponseRoute<'a>
    ensures { result ≡ spec.steps (Received to symmetric) (Some SentBy) None }
{
    ResponseRoute {
        first: Step::Received { to, symmetric },
        second: Some(Step::SentBy),
        third: None,
    }
}

/// By a datagram to the address that the request came from, where there is no `maddr`.
fn to_source<'a>(params: &RouteParams<'a>, address: Address, port: u16) -> ResponseRoute<'a>
    requires maddr { params.now.maddr ≡ None }
    requires received { params.now.received ≡ Some address }
    ensures { spec.ByDatagram params.now port result }
{
    match rport_port(params.rport) {
        Some(source) => to_received(
            Endpoint {
                address,
                port: source,
            },
            true,
        ),
        None => to_received(Endpoint { address, port }, false),
    }
}

/// Where RFC 3263 5 says, and nowhere else.
fn to_sent_by<'a>() -> ResponseRoute<'a>
    ensures { result ≡ spec.steps SentBy None None }
{
    ResponseRoute {
        first: Step::SentBy,
        second: None,
        third: None,
    }
}

/// By a datagram to the host of `maddr`.
fn to_host<'a>(host: HostPart<'a>, params: &RouteParams<'a>, port: u16) -> ResponseRoute<'a>
    requires { params.now.maddr ≡ Some host }
    ensures { spec.ByDatagram params.now port result }
{
    match host {
        HostPart::V4(host) => to_maddr(Address::V4(host.octets), params, port),
        HostPart::V6(host) => to_maddr(Address::V6(host.octets), params, port),
        HostPart::Domain(name) => to_maddr_name(name, port),
    }
}

/// By a datagram, where there is no `maddr`.
fn without_maddr<'a>(params: &RouteParams<'a>, port: u16) -> ResponseRoute<'a>
    requires { params.now.maddr ≡ None }
    ensures { spec.ByDatagram params.now port result }
{
    match params.received {
        Some(address) => to_source(params, address, port),
        None => to_sent_by(),
    }
}

/// By a datagram.
fn by_datagram<'a>(params: &RouteParams<'a>, port: u16) -> ResponseRoute<'a>
    ensures { spec.ByDatagram params.now port result }
{
    match params.maddr {
        Some(host) => to_host(host, params, port),
        None => without_maddr(params, port),
    }
}

/// Where the response to a request goes: by what its top Via says, with the parameters that
/// `with_source` gave, and the transport that it came over. The one that the Via names is not
/// looked at.
pub fn response_route<'a>(
    parts: &ViaParts<'_>,
    params: &RouteParams<'a>,
    over: Transport,
) -> ResponseRoute<'a>
    ensures { spec.IsRoute over parts.now.port params.now result }
{
    let port = sent_port(over, parts.port);
    if is_reliable(over) {
        over_connection(params.received, port)
    } else {
        by_datagram(params, port)
    }
}
