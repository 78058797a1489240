//! Vias as texts (RFC 3261 20.42, 25.1).
ghost use Rattle.std.specs.Prelude.{◌≡◌, ◌↔◌, ◌<◌, ◌≤◌, length, IfOk, IfSome, IsOkAnd, MatchResult, Err};
ghost use Rattle.sip_uri.specs.Hosts.{IsNamed};
ghost use Rattle.sip_uri.specs.Readers.ViaRoutes.{ParamsOf};
ghost use Rattle.sip_uri.specs.ViaRoutes.{ViaRouteText};
ghost use Rattle.sip_uri.specs.Vias.{ViaText, HasProtocol};
ghost use Rattle.sip_uri.specs.Views.{via_of, IsHostView};
ghost use Rattle.sip_uri.specs.declared.via.Via.{Via};

use crate::refusal::UriRefusal;
use crate::route_params::{RouteParams, route_params};
use crate::uri_text::TEXT_LIMIT;
use crate::via::Via;
use crate::via_params::check_via_params;
use crate::via_parts::{ViaParts, via_parts};
use std::alloc::Global;

/// The view of the Via that octets spell, with the text of its parameters, or its first fault from
/// the left.
#[inline(always)]
fn via_and_params(octets: &[u8]) -> Result<(ViaParts<'_>, &[u8]), UriRefusal>
    ensures found { IfOk result (λ found. ParamsOf octets.now (via_of found.0) found.1.now) }
    ensures seen { (via : Via) → ViaText octets.now via
        → IsOkAnd result (λ found. via_of found.0 ≡ via) }
    ensures host { IfOk result (λ found. IsHostView found.0.host) }
    ensures memory { result ≡ Err UriRefusal.Memory → ⊥ }
    ensures long { result ≡ Err UriRefusal.TooLong ↔ 1024 < length octets.now }
    ensures protocol { result ≡ Err UriRefusal.BadVia
        ↔ (length octets.now ≤ 1024) × (HasProtocol octets.now → ⊥) }
{
    if octets.len() > TEXT_LIMIT {
        return Err(UriRefusal::TooLong);
    }
    let (parts, params) = via_parts(octets)?;
    check_via_params(params)?;
    Ok((parts, params))
}

/// The view of the Via that octets spell, or its first fault from the left: the protocol and the
/// transport, the host, the port, each parameter. More than 1,024 octets are refused before all
/// else. No memory is taken.
pub fn view_via(octets: &[u8]) -> Result<ViaParts<'_>, UriRefusal>
    // What is seen is the Via of the octets.
    ensures found { IfOk result (λ parts. ViaText octets.now (via_of parts)) }
    // The Via of octets is seen: so a refusal comes only where none is spelled.
    ensures seen { (via : Via) → ViaText octets.now via
        → IsOkAnd result (λ parts. via_of parts ≡ via) }
    // A name can be made of its host.
    ensures host { IfOk result (λ parts. IsHostView parts.host) }
    // Memory is wanted nowhere.
    ensures memory { result ≡ Err UriRefusal.Memory → ⊥ }
    // Octets are too many exactly above 1,024.
    ensures long { result ≡ Err UriRefusal.TooLong ↔ 1024 < length octets.now }
    // Their protocol is bad exactly where they are not too many, and no protocol and transport are
    // in front.
    ensures protocol { result ≡ Err UriRefusal.BadVia
        ↔ (length octets.now ≤ 1024) × (HasProtocol octets.now → ⊥) }
{
    match via_and_params(octets) {
        Ok((parts, _)) => Ok(parts),
        Err(refusal) => Err(refusal),
    }
}

/// The view of the Via that octets spell, and what its parameters say of where a response goes, or
/// the refusal of `view_via`. A parameter whose value is none of its kind refuses nothing: it says
/// nothing. No memory is taken.
pub fn view_via_route(octets: &[u8]) -> Result<(ViaParts<'_>, RouteParams<'_>), UriRefusal>
    // What is seen is the Via of the octets, and what its parameters say.
    ensures found { IfOk result (λ found. ViaRouteText octets.now (via_of found.0) found.1) }
    // The Via of octets is seen: so a refusal comes only where none is spelled.
    ensures seen { (via : Via) → ViaText octets.now via
        → IsOkAnd result (λ found. via_of found.0 ≡ via) }
    // A name can be made of its host, and of that of maddr.
    ensures host { IfOk result (λ found. IsHostView found.0.host) }
    ensures maddr { IfOk result (λ found. IfSome found.1.maddr IsHostView) }
    // Memory is wanted nowhere.
    ensures memory { result ≡ Err UriRefusal.Memory → ⊥ }
    // Octets are too many exactly above 1,024.
    ensures long { result ≡ Err UriRefusal.TooLong ↔ 1024 < length octets.now }
    // Their protocol is bad exactly where they are not too many, and no protocol and transport are
    // in front.
    ensures protocol { result ≡ Err UriRefusal.BadVia
        ↔ (length octets.now ≤ 1024) × (HasProtocol octets.now → ⊥) }
{
    match via_and_params(octets) {
        Ok((parts, params)) => Ok((parts, route_params(params))),
        Err(refusal) => Err(refusal),
    }
}

/// The Via that a text spells, or its first fault from the left: the protocol and the transport,
/// the host, the port, each parameter. A text of more than 1,024 octets is refused before all else.
/// Memory is taken for the name of the host alone, after all else is checked.
pub fn read_via(alloc: Global, text: &str) -> Result<Via, UriRefusal>
    // What is read is the Via of the text.
    ensures found { IfOk result (λ via. ViaText text.now via) }
    // The Via of a text is read, unless memory is refused: so each other refusal comes only where
    // none is spelled.
    ensures read { (via : Via) → ViaText text.now via
        → MatchResult result (λ found. found ≡ via) (λ refusal. refusal ≡ UriRefusal.Memory) }
    // Memory is taken where a Via with a name is spelled, and nowhere else.
    ensures memory { result ≡ Err UriRefusal.Memory
        → (via : Via) × ViaText text.now via × IsNamed via.host }
    // A text is too long exactly above 1,024 octets.
    ensures long { result ≡ Err UriRefusal.TooLong ↔ 1024 < length text.now }
    // Its protocol is bad exactly where it is not too long, and no protocol and transport are in
    // front.
    ensures protocol { result ≡ Err UriRefusal.BadVia
        ↔ (length text.now ≤ 1024) × (HasProtocol text.now → ⊥) }
{
    let parts = view_via(text.as_bytes())?;
    match parts.to_via(alloc) {
        Ok(via) => Ok(via),
        Err(_) => Err(UriRefusal::Memory),
    }
}
