//! Views of URIs: URIs as they stand in a text (RFC 3261 19.1.1, 25.1).
//!
//! A URI is put together where it stays, and the octets of its host's name are written there: where
//! octets are moved that were just written one by one, they have to be waited for.
ghost use Rattle.std.specs.Prelude.{◌≡◌, IfOk, IfSome, OnOk, OnErr, unwrap_or};
ghost use Rattle.std.specs.Option.{option_map};
ghost use Rattle.sip_uri.specs.Readers.Hosts as host;
ghost use Rattle.sip_uri.specs.Readers.Uris as spec;
ghost use Rattle.sip_uri.specs.Uris.{IsNamedUri};
ghost use Rattle.sip_uri.specs.Hosts.{DomainText, IsNamed};
ghost use Rattle.sip_uri.specs.Views.{name_of, host_of, uri_of, IsHostView, IsUriView};
ghost use Rattle.sip_uri.specs.Blanks.{blank_of, uri_with};
ghost use Rattle.sip_uri.specs.declared.host.Host.TheVariants.{Domain};

use crate::headers::are_headers;
use crate::host::Host;
use crate::host_part::HostPart;
use crate::params::check_params;
use crate::place::{behind_place, place_of};
use crate::refusal::UriRefusal;
use crate::transport::{Spoken, spoken_of};
use crate::uri::SipUri;
use crate::userinfo::is_userinfo;
use dns_name::Name;
use ip_text::next_part;
use std::alloc::{AllocError, Global};

/// A URI as it stands in a text: what it says of where a request goes (RFC 3261 19.1.1).
#[derive(Clone, Copy, Debug)]
pub struct UriParts<'a> {
    /// Whether it is a SIPS URI.
    pub secure: bool,
    /// The host.
    pub host: HostPart<'a>,
    /// The port, where it is written.
    pub port: Option<u16>,
    /// The parameter `transport`, where it is written.
    pub transport: Option<Spoken>,
    /// The parameter `maddr`, where it is written.
    pub maddr: Option<HostPart<'a>>,
}

impl<'a> UriParts<'a> {
    /// The host whose addresses are needed: the parameter `maddr`, where there is one (RFC 3263 4).
    #[inline(always)]
    pub fn target(self) -> HostPart<'a>
        ensures target { result ≡ unwrap_or self.entry.maddr self.entry.host }
        // A name can be made of it.
        ensures host { IsUriView self.entry → IsHostView result }
    {
        self.maddr.unwrap_or(self.host)
    }

    /// The URI with this parameter `maddr`, where the name of its host is still that of the root.
    #[inline(always)]
    fn blank_uri(self, alloc: Global, maddr: Option<Host>) -> SipUri
        ensures { result ≡ uri_with self.entry (blank_of self.entry.host) maddr }
    {
        SipUri {
            secure: self.secure,
            host: blank_host(alloc, self.host),
            port: self.port,
            transport: self.transport,
            maddr,
        }
    }

    /// The URI, with memory for the names of its hosts.
    #[inline(always)]
    pub fn to_uri(self, alloc: Global) -> Result<SipUri, AllocError>
        requires { IsUriView self }
        // It is the URI that the view means.
        ensures uri { IfOk result (λ uri. uri ≡ uri_of self.entry) }
        // Memory is needed for names alone.
        ensures memory { OnErr result (IsNamedUri (uri_of self.entry)) }
    {
        let maddr = match self.maddr {
            None => None,
            Some(maddr) => Some(maddr.to_host(alloc)?),
        };
        let mut uri = self.blank_uri(alloc, maddr);
        fill_host(&mut uri.host, self.host)?;
        Ok(uri)
    }
}

/// The host of a view, where the name of a hostname is still that of the root.
#[inline(always)]
fn blank_host(alloc: Global, part: HostPart<'_>) -> Host
    ensures { result ≡ blank_of part.entry }
{
    match part {
        HostPart::V4(address) => Host::V4(address.octets),
        HostPart::V6(address) => Host::V6(address.octets),
        HostPart::Domain(_) => Host::Domain(Name::root(alloc)),
    }
}

/// Makes the name of a host that of a hostname.
#[inline(always)]
fn name_host(host: &mut Host, hostname: &[u8]) -> Result<(), AllocError>
    requires named { IsNamed host.old }
    requires text { DomainText hostname.now (name_of hostname.now) }
    ensures { OnOk result (host.new ≡ Domain (name_of hostname.now)) }
{
    match host {
        Host::Domain(name) => name.copy_hostname(hostname),
        _ => Ok(()),
    }
}

/// Makes a blank host the one of its view.
#[inline(always)]
fn fill_host(host: &mut Host, part: HostPart<'_>) -> Result<(), AllocError>
    requires blank { host.old ≡ blank_of part }
    requires view { IsHostView part }
    ensures host { OnOk result (host.new ≡ host_of part.entry) }
    ensures memory { OnErr result (IsNamed (host_of part.entry)) }
{
    match part {
        HostPart::Domain(hostname) => name_host(host, hostname),
        _ => Ok(()),
    }
}

/// Whether a scheme is that of SIPS, if it is one of SIP or SIPS.
fn is_secure(scheme: &[u8]) -> Option<bool>
    ensures { result ≡ spec.is_secure scheme.now }
{
    if scheme.eq_ignore_ascii_case(b"sip") {
        Some(false)
    } else if scheme.eq_ignore_ascii_case(b"sips") {
        Some(true)
    } else {
        None
    }
}

/// Whether the scheme is that of SIPS, and what follows its colon.
#[tactic(auto, unfolding(crate::specs::Readers::Uris::behind_scheme))]
#[inline(always)]
fn behind_scheme(text: &[u8]) -> Result<(bool, &[u8]), UriRefusal>
    ensures { spec.seen (λ found. (found.0, found.1.now)) result ≡ spec.behind_scheme text.now }
{
    let (scheme, rest) = next_part(text, b':');
    match (is_secure(scheme), rest) {
        (Some(secure), Some(rest)) => Ok((secure, rest)),
        _ => Err(UriRefusal::BadScheme),
    }
}

/// What follows the user and its `@`, if there is one.
#[tactic(auto, unfolding(crate::specs::Readers::Uris::behind_user))]
#[inline(always)]
fn behind_user(text: &[u8]) -> Result<&[u8], UriRefusal>
    ensures { spec.seen (λ rest. rest.now) result ≡ spec.behind_user text.now }
{
    match next_part(text, b'@') {
        (_, None) => Ok(text),
        (user, Some(rest)) => {
            if is_userinfo(user) {
                Ok(rest)
            } else {
                Err(UriRefusal::BadUser)
            }
        }
    }
}

/// What the parameters say of the transport and of the host.
#[tactic(auto, unfolding(crate::specs::Readers::Uris::said_by))]
#[inline(always)]
fn said_by(params: Option<&[u8]>) -> Result<(Option<Spoken>, Option<HostPart<'_>>), UriRefusal>
    ensures value { spec.seen (λ said. (said.0, option_map host_of said.1)) result
        ≡ spec.said_by (option_map (λ text. text.now) params.entry) }
    ensures hostname { IfOk result (λ said. IfSome said.1 host.IsHostPart) }
{
    let Some(params) = params else {
        return Ok((None, None));
    };
    let values = check_params(params)?;
    let transport = values.transport.map(|name| spoken_of(name));
    Ok((transport, values.maddr))
}

/// Refuses what are no headers.
#[tactic(auto, unfolding(crate::specs::Readers::Uris::check_headers))]
fn check_headers(headers: Option<&[u8]>) -> Result<(), UriRefusal>
    ensures { result ≡ spec.check_headers (option_map (λ text. text.now) headers.entry) }
{
    match headers {
        None => Ok(()),
        Some(headers) => {
            if are_headers(headers) {
                Ok(())
            } else {
                Err(UriRefusal::BadHeader)
            }
        }
    }
}

/// The parts of a URI, or its first fault from the left.
#[tactic(auto, unfolding(crate::specs::Readers::Uris::uri_parts))]
#[inline(always)]
pub(crate) fn uri_parts(text: &[u8]) -> Result<UriParts<'_>, UriRefusal>
    ensures value { spec.seen uri_of result ≡ spec.uri_parts text.now }
    ensures host { IfOk result (λ parts. host.IsHostPart parts.host) }
    ensures maddr { IfOk result (λ parts. IfSome parts.maddr host.IsHostPart) }
{
    let (secure, rest) = behind_scheme(text)?;
    let rest = behind_user(rest)?;
    let (host, port, rest) = place_of(rest)?;
    let (params, headers) = behind_place(rest);
    let (transport, maddr) = said_by(params)?;
    check_headers(headers)?;
    Ok(UriParts {
        secure,
        host,
        port,
        transport,
        maddr,
    })
}
