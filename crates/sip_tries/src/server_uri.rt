//! The URI of a server itself.
ghost use Rattle.std.specs.Prelude.{◌≡◌, IfOk};
ghost use Rattle.std.specs.String.{string_bytes};
ghost use Rattle.sip_options.specs.Requests.{host_text};
ghost use Rattle.sip_tries.specs.ServerUris as spec;

use ip_text::{Address, address_text};
use sip_options::Transport;
use sip_selection::Target;
use std::alloc::{AllocError, Global};

/// An address as a host: one of IPv6 stands in brackets.
fn host_words(alloc: Global, address: Address) -> Result<String, AllocError>
    ensures { IfOk result (λ words. string_bytes words ≡ host_text address) }
{
    match address {
        Address::V4(_) => address_text(alloc, address),
        Address::V6(_) => bracketed(alloc, address),
    }
}

/// An address of IPv6 in brackets.
fn bracketed(alloc: Global, address: Address) -> Result<String, AllocError>
    ensures { IfOk result (λ words. string_bytes words ≡ spec.bracketed address) }
{
    let mut words = String::from_str(alloc, "[")?;
    words.push_str(&address_text(alloc, address)?)?;
    words.push_str("]")?;
    Ok(words)
}

/// The parameter of a transport: UDP needs none.
fn transport_param(over: Transport) -> &'static str
    ensures { result.now ≡ spec.transport_param over }
{
    match over {
        Transport::Udp => "",
        Transport::Tcp => ";transport=tcp",
    }
}

/// The URI of the server at a target: its address and port, without a user.
pub(crate) fn server_uri(
    alloc: Global,
    over: Transport,
    target: &Target,
) -> Result<String, AllocError>
    ensures { IfOk result (λ uri. string_bytes uri ≡ spec.server_uri over target.now) }
{
    let port = target.port;
    let mut uri = String::from_str(alloc, "sip:")?;
    uri.push_str(&host_words(alloc, target.address)?)?;
    uri.push_str(&format!(in alloc; ":{port}")?)?;
    uri.push_str(transport_param(over))?;
    Ok(uri)
}
