//! The readers of URIs and Vias. Texts come as octets, so each is read by its view: `read_uri` and
//! `read_via` take the same way, and their texts are UTF-8 by their type.
ghost use Rattle.std.specs.Prelude.{◌≡◌, ◌<◌, IfSome, MatchOption};
ghost use Rattle.sip_uri.specs.Uris.{UriText};
ghost use Rattle.sip_uri.specs.Vias.{ViaText};
ghost use Rattle.sip_uri.specs.declared.uri.SipUri as uri;
ghost use Rattle.sip_uri.specs.declared.via.Via as via;

use sip_uri::{SipUri, Via, view_uri, view_via};
use std::alloc::Global;

/// The port where none is written (RFC 3261 18.1.1 and Table 1).
const DEFAULT_PORT: u16 = 5060;

/// The URI that these octets spell.
fn uri_of(alloc: Global, octets: &[u8]) -> Option<SipUri>
    ensures { IfSome result (λ uri. UriText octets.now uri) }
{
    view_uri(octets).ok()?.to_uri(alloc).ok()
}

/// The Via that these octets spell.
fn via_of(alloc: Global, octets: &[u8]) -> Option<Via>
    ensures { IfSome result (λ via. ViaText octets.now via) }
{
    view_via(octets).ok()?.to_via(alloc).ok()
}

/// The port of the URI that these octets spell.
#[unsafe(no_mangle)]
pub extern "C" fn bench_read_uri(alloc: Global, octets: &[u8]) -> usize
    ensures { 0 < result → (uri : uri.SipUri) × UriText octets.now uri
        × MatchOption uri.port (result ≡ DEFAULT_PORT) (λ port. result ≡ port) }
{
    match uri_of(alloc, octets) {
        Some(uri) => usize::from(uri.port.unwrap_or(DEFAULT_PORT)),
        None => 0,
    }
}

/// The port of the Via that these octets spell.
#[unsafe(no_mangle)]
pub extern "C" fn bench_read_via(alloc: Global, octets: &[u8]) -> usize
    ensures { 0 < result → (via : via.Via) × ViaText octets.now via
        × MatchOption via.port (result ≡ DEFAULT_PORT) (λ port. result ≡ port) }
{
    match via_of(alloc, octets) {
        Some(via) => usize::from(via.port.unwrap_or(DEFAULT_PORT)),
        None => 0,
    }
}

/// The port of the URI that these octets spell, by a view of it.
#[unsafe(no_mangle)]
pub extern "C" fn bench_view_uri(octets: &[u8]) -> usize
    ensures { 0 < result → (uri : uri.SipUri) × UriText octets.now uri
        × MatchOption uri.port (result ≡ DEFAULT_PORT) (λ port. result ≡ port) }
{
    match view_uri(octets) {
        Ok(parts) => usize::from(parts.port.unwrap_or(DEFAULT_PORT)),
        Err(_) => 0,
    }
}

/// The port of the Via that these octets spell, by a view of it.
#[unsafe(no_mangle)]
pub extern "C" fn bench_view_via(octets: &[u8]) -> usize
    ensures { 0 < result → (via : via.Via) × ViaText octets.now via
        × MatchOption via.port (result ≡ DEFAULT_PORT) (λ port. result ≡ port) }
{
    match view_via(octets) {
        Ok(parts) => usize::from(parts.port.unwrap_or(DEFAULT_PORT)),
        Err(_) => 0,
    }
}
