//! The transport of a request (RFC 3263 4.1, 5).
ghost use Rattle.std.specs.Prelude.{◌≡◌, ℕ, [], List, IfSome, None, Ok, Err};
ghost use Rattle.sip_selection.specs.Choice as choice;
ghost use Rattle.sip_selection.specs.Known.{Given};
ghost use Rattle.sip_selection.specs.Requests as spec;
ghost use Rattle.sip_selection.specs.Stages as stages;

use crate::caps::Caps;
use crate::reason::Reason;
use crate::request_view::RequestView;
use sip_uri::{Spoken, Transport};

/// The port of a transport where none is written (RFC 3261 18.1.1 and Table 1).
pub(crate) fn default_port(transport: Transport) -> u16
    ensures { result ≡ spec.default_port transport }
{
    match transport {
        Transport::Udp | Transport::Tcp | Transport::Sctp => 5060,
        Transport::Tls => 5061,
    }
}

/// The transport that is meant by one as it is written.
fn transport_for_sip(spoken: Spoken) -> Result<Transport, Reason>
    ensures { result ≡ spec.transport_for_sip spoken }
{
    match spoken {
        Spoken::Known(transport) => Ok(transport),
        Spoken::Other => Err(Reason::TransportUnsupported),
    }
}

/// The transport that is meant by one of a SIPS URI (RFC 3261 19.1.1, 26.2.2).
fn transport_for_sips(spoken: Spoken) -> Result<Transport, Reason>
    ensures { result ≡ spec.transport_for_sips spoken }
{
    match spoken {
        Spoken::Known(Transport::Tcp | Transport::Tls) => Ok(Transport::Tls),
        Spoken::Known(Transport::Udp) => Err(Reason::TransportNotSecure),
        Spoken::Known(Transport::Sctp) | Spoken::Other => Err(Reason::TransportUnsupported),
    }
}

/// The transport where none is named.
fn default_transport(secure: bool) -> Transport
    ensures { result ≡ spec.default_transport secure }
{
    if secure {
        Transport::Tls
    } else {
        Transport::Udp
    }
}

/// The transport that a request means.
fn transport_of(request: &RequestView<'_>) -> Result<Transport, Reason>
    ensures { result ≡ spec.transport_of (spec.request_of request.now) }
{
    match request.spoken() {
        None => Ok(default_transport(request.is_secure())),
        Some(spoken) if request.is_secure() => transport_for_sips(spoken),
        Some(spoken) => transport_for_sip(spoken),
    }
}

/// The transport that a request means, or TCP in place of UDP where it is too large for that, if it
/// is one of the caller's.
fn offered(caps: &Caps, transport: Result<Transport, Reason>) -> Result<Transport, Reason>
    ensures { result ≡ choice.offered caps.now transport }
{
    let transport = caps.sized(transport?);
    if caps.offers(transport) {
        Ok(transport)
    } else {
        Err(Reason::TransportUnsupported)
    }
}

/// The transport that a request means, if it is one of the caller's.
pub(crate) fn transport_offered(request: &RequestView<'_>, caps: &Caps) -> Result<Transport, Reason>
    ensures { result ≡ choice.offered caps.now (spec.transport_of (spec.request_of request.now)) }
{
    offered(caps, transport_of(request))
}

/// The transport where none is named, if it is one of the caller's.
pub(crate) fn offered_default(secure: bool, caps: &Caps) -> Result<Transport, Reason>
    ensures { result ≡ choice.offered_default secure caps.now }
{
    offered(caps, Ok(default_transport(secure)))
}

/// Why a request to a name is refused whatever is answered, if it is: by its port, the transport
/// that it names and the one that it means.
pub(crate) fn refused_at_once(
    secure: bool,
    caps: &Caps,
    port: Option<u16>,
    spoken: Option<Spoken>,
    transport: Result<Transport, Reason>,
) -> Option<Reason>
    ensures refused { IfSome result (λ reason. (words : List ℕ) (name : List (List ℕ))
        (all : List Given) → stages.domain_choice secure caps.now words name all port spoken
        transport ≡ Ok (Err reason)) }
    ensures asked { result ≡ None → (words : List ℕ) (name : List (List ℕ))
        → choice.IsNotRefused (choice.resolved (stages.domain_choice secure caps.now words name []
        port spoken transport)) }
{
    match (port, spoken, transport) {
        (Some(_), _, transport) => transport.err(),
        (None, Some(_), transport) => transport.err(),
        (None, None, _) if secure => offered_default(secure, caps).err(),
        (None, None, _) => None,
    }
}
