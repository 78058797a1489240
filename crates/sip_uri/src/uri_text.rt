//! The reader of URIs (RFC 3261 19.1.1, 25.1).
ghost use Rattle.std.specs.Prelude.{◌≡◌, ◌↔◌, ◌<◌, ◌≤◌, length, IfOk, IsOkAnd, MatchResult, Err};
ghost use Rattle.sip_uri.specs.Uris.{UriText, HasScheme, IsNamedUri};
ghost use Rattle.sip_uri.specs.Views.{uri_of, IsUriView};
ghost use Rattle.sip_uri.specs.declared.uri.SipUri.{SipUri};

use crate::refusal::UriRefusal;
use crate::uri::SipUri;
use crate::uri_parts::{UriParts, uri_parts};
use std::alloc::Global;

/// The most octets of a text that is read.
pub(crate) const TEXT_LIMIT: usize = 1024;

/// The view of the URI that octets spell, or its first fault from the left: the scheme, the user,
/// the host, the port, each parameter, each header. More than 1,024 octets are refused before all
/// else. No memory is taken.
#[inline(always)]
pub fn view_uri(octets: &[u8]) -> Result<UriParts<'_>, UriRefusal>
    // What is seen is the URI of the octets.
    ensures found { IfOk result (λ parts. UriText octets.now (uri_of parts)) }
    // The URI of octets is seen: so a refusal comes only where none is spelled.
    ensures seen { (uri : SipUri) → UriText octets.now uri
        → IsOkAnd result (λ parts. uri_of parts ≡ uri) }
    // Names can be made of its hosts.
    ensures hosts { IfOk result IsUriView }
    // Memory is wanted nowhere.
    ensures memory { result ≡ Err UriRefusal.Memory → ⊥ }
    // Octets are too many exactly above 1,024.
    ensures long { result ≡ Err UriRefusal.TooLong ↔ 1024 < length octets.now }
    // Their scheme is bad exactly where they are not too many, and neither `sip:` nor `sips:` is in
    // front.
    ensures scheme { result ≡ Err UriRefusal.BadScheme
        ↔ (length octets.now ≤ 1024) × (HasScheme octets.now → ⊥) }
{
    if octets.len() > TEXT_LIMIT {
        return Err(UriRefusal::TooLong);
    }
    uri_parts(octets)
}

/// The URI that a text spells, or its first fault from the left: the scheme, the user, the host,
/// the port, each parameter, each header. A text of more than 1,024 octets is refused before all
/// else. Memory is taken for the names of hosts alone, after all else is checked.
pub fn read_uri(alloc: Global, text: &str) -> Result<SipUri, UriRefusal>
    // What is read is the URI of the text.
    ensures found { IfOk result (λ uri. UriText text.now uri) }
    // The URI of a text is read, unless memory is refused: so each other refusal comes only where
    // none is spelled.
    ensures read { (uri : SipUri) → UriText text.now uri
        → MatchResult result (λ found. found ≡ uri) (λ refusal. refusal ≡ UriRefusal.Memory) }
    // Memory is taken where a URI with a name is spelled, and nowhere else.
    ensures memory { result ≡ Err UriRefusal.Memory
        → (uri : SipUri) × UriText text.now uri × IsNamedUri uri }
    // A text is too long exactly above 1,024 octets.
    ensures long { result ≡ Err UriRefusal.TooLong ↔ 1024 < length text.now }
    // Its scheme is bad exactly where it is not too long, and neither `sip:` nor `sips:` is in
    // front.
    ensures scheme { result ≡ Err UriRefusal.BadScheme
        ↔ (length text.now ≤ 1024) × (HasScheme text.now → ⊥) }
{
    let parts = view_uri(text.as_bytes())?;
    match parts.to_uri(alloc) {
        Ok(uri) => Ok(uri),
        Err(_) => Err(UriRefusal::Memory),
    }
}
