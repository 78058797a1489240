//! The host and the port of a URI, and what follows them (RFC 3261 19.1.1, 25.1).
ghost use Rattle.std.specs.Prelude.{◌≡◌, IfOk, IfSome};
ghost use Rattle.std.specs.Option.{option_map};
ghost use Rattle.sip_uri.specs.Readers.Hosts as host;
ghost use Rattle.sip_uri.specs.Readers.Places as places;
ghost use Rattle.sip_uri.specs.Readers.Uris as spec;
ghost use Rattle.sip_uri.specs.ViaClasses.{row, behind_row};
ghost use Rattle.sip_uri.specs.Views.{host_of};

use crate::host_part::{HostPart, host_in_brackets, plain_host};
use crate::refusal::UriRefusal;
use crate::runs::{OctetClass, cut};
use ip_text::{behind_front, decimal, next_part};

/// A class of octets of a URI behind its user.
#[derive(Clone, Copy)]
enum PlaceClass {
    /// What does not end a host outside brackets.
    Host,
    /// What does not end a host and its port.
    Place,
}

impl OctetClass for PlaceClass {
    ghost use Rattle.sip_uri.specs.Readers.Places as places;

    ghost octets = { λ class octet. places.octets_of class octet };

    fn has(self, octet: u8) -> bool {
        match self {
            PlaceClass::Host => !(octet == b':' || octet == b';' || octet == b'?'),
            PlaceClass::Place => !(octet == b';' || octet == b'?'),
        }
    }
}

/// A port from 1 to 65535.
#[tactic(auto, unfolding(crate::specs::Readers::Uris::port_number))]
pub(crate) fn port_number(text: &[u8]) -> Option<u16>
    ensures { result ≡ spec.port_number text.now }
{
    match decimal(text, 65535)? {
        0 => None,
        port => Some(port as u16),
    }
}

/// The port of its digits, where a colon stands before them.
#[tactic(auto, unfolding(crate::specs::Readers::Uris::port_of))]
#[inline(always)]
pub(crate) fn port_of(text: Option<&[u8]>) -> Result<Option<u16>, UriRefusal>
    ensures { result ≡ spec.port_of (option_map (λ digits. digits.now) text.entry) }
{
    match text {
        None => Ok(None),
        Some(text) => match port_number(text) {
            None => Err(UriRefusal::BadPort),
            port => Ok(port),
        },
    }
}

/// The digits of a port, where a colon stands in front of them, and what follows.
fn port_in_front(text: &[u8]) -> (Option<&[u8]>, &[u8])
    ensures port { option_map (λ digits. digits.now) result.0 ≡ places.port_in_front text.now }
    ensures behind { result.1.now ≡ places.behind_port text.now }
{
    match text {
        [b':', digits @ ..] => {
            let (digits, behind) = cut(PlaceClass::Place, digits);
            (Some(digits), behind)
        }
        _ => (None, text),
    }
}

/// A host in front, the digits of its port, and what follows.
#[inline(always)]
fn host_and_port(text: &[u8]) -> Option<(HostPart<'_>, Option<&[u8]>, &[u8])>
    ensures host { option_map
        (λ found. (host_of found.0, option_map (λ digits. digits.now) found.1)) result
        ≡ host.host_in_front (row places.is_in_place text.now) }
    ensures behind { IfSome result
        (λ found. found.2.now ≡ behind_row places.is_in_place text.now) }
    ensures hostname { IfSome result (λ found. host.IsHostPart found.0) }
{
    match behind_front(text, b'[') {
        Some(rest) => {
            let (place, behind) = cut(PlaceClass::Place, rest);
            let (host, port) = host_in_brackets(place)?;
            Some((host, port, behind))
        }
        None => {
            let (host, rest) = cut(PlaceClass::Host, text);
            let (port, behind) = port_in_front(rest);
            Some((plain_host(host)?, port, behind))
        }
    }
}

/// The host and the port in front, and what follows them.
#[tactic(auto, unfolding(crate::specs::Readers::Uris::place_of))]
#[inline(always)]
pub(crate) fn place_of(text: &[u8]) -> Result<(HostPart<'_>, Option<u16>, &[u8]), UriRefusal>
    ensures value { spec.seen (λ found. (host_of found.0, found.1)) result
        ≡ spec.place_of (row places.is_in_place text.now) }
    ensures behind { IfOk result
        (λ found. found.2.now ≡ behind_row places.is_in_place text.now) }
    ensures hostname { IfOk result (λ found. host.IsHostPart found.0) }
{
    let (host, port, behind) = host_and_port(text).ok_or(UriRefusal::BadHost)?;
    Ok((host, port_of(port)?, behind))
}

/// The parameters and the headers behind the place.
pub(crate) fn behind_place(text: &[u8]) -> (Option<&[u8]>, Option<&[u8]>)
    ensures params { option_map (λ params. params.now) result.0 ≡ places.params_in text.now }
    ensures headers { option_map (λ headers. headers.now) result.1 ≡ places.headers_in text.now }
{
    match text {
        [b';', rest @ ..] => {
            let (params, headers) = next_part(rest, b'?');
            (Some(params), headers)
        }
        [_, headers @ ..] => (None, Some(headers)),
        [] => (None, None),
    }
}
