//! Where the leftmost fault of a text stands that is no request.
ghost use Rattle.std.specs.Prelude.{◌≡◌, IfSome, None};
ghost use Rattle.sipwhere.specs.LineOutcomes.{IsRequest, IsRequestFault};

use sip_fault::{law_fault_within_text, uri_fault_at, via_fault_at};
use sip_selection::behind_via;

/// How many octets `Via:` has.
const VIA_LEN: usize = 4;

/// How many octets of a text stand in front of its leftmost fault, if it is no request.
pub fn request_fault_at(text: &str) -> Option<usize>
    // There is none only where the text is a request.
    ensures none { result ≡ None → IsRequest text.now }
    ensures at { IfSome result (IsRequestFault text.now) }
{
    law_fault_within_text();
    match behind_via(text) {
        Some(rest) => {
            let at = via_fault_at(rest.as_bytes())?;
            Some(VIA_LEN + at)
        }
        None => uri_fault_at(text.as_bytes()),
    }
}
