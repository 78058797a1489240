//! Services of a domain that are looked for (RFC 3263 4.1).
ghost use Rattle.std.specs.Prelude.{◌≡◌, IfOk};
ghost use Rattle.sip_selection.specs.Services as spec;

use dns_name::{Name, NameRefusal};
use sip_uri::Transport;
use std::alloc::AllocError;

/// A service that is looked for: by which transport, and the name of its SRV records, unless that
/// would have more than 255 octets.
#[derive(Drop)]
pub(crate) struct Service {
    pub(crate) transport: Transport,
    pub(crate) name: Option<Name>,
}

/// The two labels in front of a domain, by the transport of the service.
fn labels_of(transport: Transport) -> (&'static str, &'static str)
    ensures service_label { result.0.now ≡ spec.service_label transport }
    ensures proto { result.1.now ≡ spec.proto_label transport }
{
    match transport {
        Transport::Udp => ("_sip", "_udp"),
        Transport::Tcp => ("_sip", "_tcp"),
        Transport::Sctp => ("_sip", "_sctp"),
        Transport::Tls => ("_sips", "_tcp"),
    }
}

/// The service of a domain by a transport.
pub(crate) fn service_at(domain: &Name, transport: Transport) -> Result<Service, AllocError>
    ensures { IfOk result (λ service. service ≡ spec.service_at domain.now transport) }
{
    let (service_label, proto) = labels_of(transport);
    match domain.prefixed(service_label, proto) {
        Ok(name) => Ok(Service {
            transport,
            name: Some(name),
        }),
        Err(NameRefusal::Memory) => Err(AllocError),
        Err(_) => Ok(Service {
            transport,
            name: None,
        }),
    }
}

/// The name of the SRV records of a domain's service by a transport (RFC 3263 4.1, RFC 2782),
/// unless it would have more than 255 octets.
pub fn service_name(domain: &Name, transport: Transport) -> Result<Option<Name>, AllocError>
    ensures { IfOk result (λ name. name ≡ (spec.service_at domain.now transport).name) }
{
    let Service { name, .. } = service_at(domain, transport)?;
    Ok(name)
}
