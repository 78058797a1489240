//! Views of Vias: Vias as they stand in a text (RFC 3261 20.42, 25.1).
ghost use Rattle.std.specs.Prelude.{◌≡◌, IfOk, IfSome, OnErr};
ghost use Rattle.std.specs.Option.{option_map};
ghost use Rattle.sip_uri.specs.Readers.Hosts as host;
ghost use Rattle.sip_uri.specs.Readers.Uris.{seen};
ghost use Rattle.sip_uri.specs.Readers.ViaFronts as spec;
ghost use Rattle.sip_uri.specs.Hosts.{IsNamed};
ghost use Rattle.sip_uri.specs.Views.{host_of, via_of, IsHostView};

use crate::address_octets::V6Octets;
use crate::host_part::{HostPart, plain_host};
use crate::place::port_number;
use crate::refusal::UriRefusal;
use crate::runs::cut;
use crate::transport::{Spoken, spoken_of};
use crate::via::Via;
use crate::via_classes::{Row, behind_blanks, behind_mark};
use ip_text::{behind_front, ipv6_octets, next_part};
use std::alloc::{AllocError, Global};

/// A Via as it stands in a text: what it says of where a response goes (RFC 3261 18.2.2, 20.42).
#[derive(Clone, Copy, Debug)]
pub struct ViaParts<'a> {
    /// The transport.
    pub transport: Spoken,
    /// The host.
    pub host: HostPart<'a>,
    /// The port, where it is written.
    pub port: Option<u16>,
}

impl ViaParts<'_> {
    /// The Via, with memory for the name of its host.
    pub fn to_via(self, alloc: Global) -> Result<Via, AllocError>
        requires { IsHostView self.host }
        // It is the Via that the view means.
        ensures via { IfOk result (λ via. via ≡ via_of self.entry) }
        // Memory is needed for a name alone.
        ensures memory { OnErr result (IsNamed (host_of self.entry.host)) }
    {
        let host = self.host.to_host(alloc)?;
        Ok(Via {
            transport: self.transport,
            host,
            port: self.port,
        })
    }
}

/// What follows a token and a slash, if the token is the one that is wanted, in letters of any
/// case.
#[tactic(auto, unfolding(crate::specs::Readers::ViaFronts::behind_token))]
fn behind_token<'a>(text: &'a [u8], token: &[u8]) -> Option<&'a [u8]>
    ensures { option_map (λ rest. rest.now) result ≡ spec.behind_token text.now token.now }
{
    let (found, rest) = cut(Row::Token, text);
    if !found.eq_ignore_ascii_case(token) {
        return None;
    }
    behind_mark(rest, b'/')
}

/// The transport, and what follows it and the blanks after it.
#[tactic(auto, unfolding(crate::specs::Readers::ViaFronts::behind_protocol))]
fn behind_protocol(text: &[u8]) -> Option<(&[u8], &[u8])>
    ensures { option_map (λ found. (found.0.now, found.1.now)) result
        ≡ spec.behind_protocol text.now }
{
    let rest = behind_token(behind_blanks(text), b"SIP")?;
    let rest = behind_token(rest, b"2.0")?;
    let (transport, rest) = cut(Row::Token, rest);
    let (blanks, rest) = cut(Row::Blank, rest);
    if transport.is_empty() || blanks.is_empty() {
        return None;
    }
    Some((transport, rest))
}

/// The host up to a closing bracket, and what follows it.
#[tactic(auto, unfolding(crate::specs::Readers::ViaFronts::host_in_brackets))]
fn via_host_in_brackets(text: &[u8]) -> Option<(HostPart<'_>, &[u8])>
    ensures host { option_map (λ found. (host_of found.0, found.1.now)) result
        ≡ spec.host_in_brackets text.now }
    ensures hostname { IfSome result (λ found. host.IsHostPart found.0) }
{
    let (inner, behind) = next_part(text, b']');
    let behind = behind?;
    if !cut(Row::Host, behind).0.is_empty() {
        return None;
    }
    let address = V6Octets::new(ipv6_octets(inner)?);
    Some((HostPart::V6(address), behind))
}

/// The host in front, and what follows it.
#[tactic(auto, unfolding(crate::specs::Readers::ViaFronts::via_host))]
fn via_host(text: &[u8]) -> Option<(HostPart<'_>, &[u8])>
    ensures host { option_map (λ found. (host_of found.0, found.1.now)) result
        ≡ spec.via_host text.now }
    ensures hostname { IfSome result (λ found. host.IsHostPart found.0) }
{
    match behind_front(text, b'[') {
        Some(rest) => via_host_in_brackets(rest),
        None => {
            let (host, rest) = cut(Row::Host, text);
            Some((plain_host(host)?, rest))
        }
    }
}

/// The port, where a colon stands before it, and what follows it.
#[tactic(auto, unfolding(crate::specs::Readers::ViaFronts::via_port))]
fn via_port(text: &[u8]) -> Result<(Option<u16>, &[u8]), UriRefusal>
    ensures { seen (λ found. (found.0, found.1.now)) result ≡ spec.via_port text.now }
{
    match behind_mark(text, b':') {
        None => Ok((None, text)),
        Some(behind) => {
            let (digits, rest) = cut(Row::Port, behind);
            match port_number(digits) {
                None => Err(UriRefusal::BadPort),
                port => Ok((port, rest)),
            }
        }
    }
}

/// The parts of a Via and what follows its port, or the first fault from the left.
#[tactic(auto, unfolding(crate::specs::Readers::ViaFronts::via_parts))]
pub(crate) fn via_parts(text: &[u8]) -> Result<(ViaParts<'_>, &[u8]), UriRefusal>
    ensures value { seen (λ found. (via_of found.0, found.1.now)) result
        ≡ spec.via_parts text.now }
    ensures host { IfOk result (λ found. host.IsHostPart found.0.host) }
{
    let (transport, rest) = behind_protocol(text).ok_or(UriRefusal::BadVia)?;
    let (host, rest) = via_host(rest).ok_or(UriRefusal::BadHost)?;
    let (port, rest) = via_port(rest)?;
    let transport = spoken_of(transport);
    Ok((
        ViaParts {
            transport,
            host,
            port,
        },
        rest,
    ))
}
