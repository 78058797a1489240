//! Views of hosts: hosts as they stand in a text (RFC 3261 25.1).
//!
//! What gives or takes a `HostPart` is inlined: in memory it is written in pieces and read as a
//! whole, for which a processor waits. That took a third of the time of reading a URI.
ghost use Rattle.std.specs.Prelude.{◌≡◌, IfOk, IfSome, OnErr};
ghost use Rattle.std.specs.Option.{option_map};
ghost use Rattle.sip_uri.specs.Hosts.{DomainText, IsNamed};
ghost use Rattle.sip_uri.specs.Readers.Hosts as spec;
ghost use Rattle.sip_uri.specs.Views.{name_of, host_of, IsHostView};

use crate::address_octets::{V4Octets, V6Octets};
use crate::host::Host;
use crate::hostname::is_hostname;
use dns_name::Name;
use ip_text::{behind_front, ipv4_octets, ipv6_octets, next_part};
use std::alloc::{AllocError, Global};

/// A host as it stands in a text.
#[derive(Clone, Copy, Debug)]
pub enum HostPart<'a> {
    /// An IPv4 address.
    V4(V4Octets),
    /// An IPv6 address.
    V6(V6Octets),
    /// A hostname, in letters of any case.
    Domain(&'a [u8]),
}

/// The name of a hostname of a text, as a view has it. It is refused for want of memory alone.
pub fn name_of_hostname(alloc: Global, hostname: &[u8]) -> Result<Name, AllocError>
    requires { DomainText hostname.now (name_of hostname.now) }
    ensures { IfOk result (λ name. name ≡ name_of hostname.now) }
{
    Name::of_hostname(alloc, hostname)
}

impl HostPart<'_> {
    /// The host, with memory for its name.
    #[inline(always)]
    pub fn to_host(self, alloc: Global) -> Result<Host, AllocError>
        requires { IsHostView self }
        // It is the host that the view means.
        ensures host { IfOk result (λ host. host ≡ host_of self.entry) }
        // Memory is needed for a name alone.
        ensures memory { OnErr result (IsNamed (host_of self.entry)) }
    {
        match self {
            HostPart::V4(address) => Ok(Host::V4(address.octets)),
            HostPart::V6(address) => Ok(Host::V6(address.octets)),
            HostPart::Domain(hostname) => Ok(Host::Domain(name_of_hostname(alloc, hostname)?)),
        }
    }
}

/// The host of a text that is an IPv4 address or a hostname.
#[inline(always)]
pub(crate) fn plain_host(text: &[u8]) -> Option<HostPart<'_>>
    ensures host { option_map host_of result ≡ spec.plain_host text.now }
    ensures hostname { IfSome result spec.IsHostPart }
{
    if let Some(octets) = ipv4_octets(text) {
        return Some(HostPart::V4(V4Octets::new(octets)));
    }
    if !is_hostname(text) {
        return None;
    }
    Some(HostPart::Domain(text))
}

/// The port after a host, where a colon stands in front of it; nothing else may stand there.
fn port_part(text: &[u8]) -> Option<Option<&[u8]>>
    ensures { option_map (λ port. option_map (λ digits. digits.now) port) result
        ≡ spec.port_part text.now }
{
    match text {
        [] => Some(None),
        [b':', port @ ..] => Some(Some(port)),
        _ => None,
    }
}

/// The host up to a closing bracket, and the port after it.
#[inline(always)]
pub(crate) fn host_in_brackets(text: &[u8]) -> Option<(HostPart<'_>, Option<&[u8]>)>
    ensures host { option_map
        (λ found. (host_of found.0, option_map (λ digits. digits.now) found.1)) result
        ≡ spec.host_in_brackets text.now }
    ensures hostname { IfSome result (λ found. spec.IsHostPart found.0) }
{
    let (inner, behind) = next_part(text, b']');
    let port = port_part(behind?)?;
    let address = V6Octets::new(ipv6_octets(inner)?);
    Some((HostPart::V6(address), port))
}

/// The host at the front of a text, and the port after it, if a colon stands there.
#[inline(always)]
pub(crate) fn host_in_front(text: &[u8]) -> Option<(HostPart<'_>, Option<&[u8]>)>
    ensures host { option_map
        (λ found. (host_of found.0, option_map (λ digits. digits.now) found.1)) result
        ≡ spec.host_in_front text.now }
    ensures hostname { IfSome result (λ found. spec.IsHostPart found.0) }
{
    match behind_front(text, b'[') {
        Some(rest) => host_in_brackets(rest),
        None => {
            let (host, port) = next_part(text, b':');
            Some((plain_host(host)?, port))
        }
    }
}

/// The host of a text.
#[inline(always)]
pub(crate) fn host_part(text: &[u8]) -> Option<HostPart<'_>>
    ensures host { option_map host_of result ≡ spec.host text.now }
    ensures hostname { IfSome result spec.IsHostPart }
{
    match host_in_front(text)? {
        (host, None) => Some(host),
        _ => None,
    }
}
