//! Where the leftmost fault of a text stands.
ghost use Rattle.std.specs.Prelude.{◌≡◌, ◌↔◌, None, IfSome};
ghost use Rattle.sip_fault.specs.Faults.{IsUri, IsVia, IsUriFault, IsViaFault};

use crate::grammar::Grammar;

/// Where the leftmost fault of octets stands that are no SIP URI: how many of them are in front of
/// it. `None` if they are one.
pub fn uri_fault_at(octets: &[u8]) -> Option<usize>
    // There is none exactly where the octets are a URI.
    ensures none { result ≡ None ↔ IsUri octets.now }
    // It stands where the octets cannot go on as a URI, or is the first one too many.
    ensures at { IfSome result (IsUriFault octets.now) }
{
    Grammar::Uri.fault_at(octets)
}

/// Where the leftmost fault of octets stands that are no Via: how many of them are in front of it.
/// `None` if they are one.
pub fn via_fault_at(octets: &[u8]) -> Option<usize>
    // There is none exactly where the octets are a Via.
    ensures none { result ≡ None ↔ IsVia octets.now }
    // It stands where the octets cannot go on as a Via, or is the first one too many.
    ensures at { IfSome result (IsViaFault octets.now) }
{
    Grammar::Via.fault_at(octets)
}
