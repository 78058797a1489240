//! The values of CSeq and Content-Length (RFC 3261 20.14, 20.16, 25.1).
ghost use Rattle.std.specs.Prelude.{◌≡◌, ◌↔◌, ℕ, List, IsTrue, IfSome, IfNone};
ghost use Rattle.sip_options.specs.Fields.{IsOptionsCSeq, IsNumber, LengthOf};
ghost use Rattle.sip_options.specs.Readers.Headers.{Are};
ghost use Rattle.sip_options.specs.Readers.Numbers.{capped};
ghost use Rattle.sip_options.specs.Readers.Words.{IsMethod};

use crate::class::{Class, is_white};
use crate::pieces::cut;
use crate::values::Values;
use crate::words::{behind_exactly, behind_octet};
use ip_text::decimal;

/// The most octets of a message that is read.
pub(crate) const MESSAGE_LIMIT: usize = 65535;

/// Whether a text is `OPTIONS` and white space.
fn is_method(text: &[u8]) -> bool
    ensures { IsTrue result ↔ IsMethod text.now }
{
    match behind_exactly(text, b"OPTIONS") {
        Some(back) => is_white(back),
        None => false,
    }
}

/// Whether the value of a CSeq is that of the request.
pub(crate) fn is_options_cseq(value: &[u8]) -> bool
    ensures { IsTrue result ↔ IsOptionsCSeq value.now }
{
    match behind_octet(cut(Class::Zero, cut(Class::White, value).1).1, b'1') {
        Some(behind) => {
            let (between, method) = cut(Class::White, behind);
            !between.is_empty() && is_method(method)
        }
        None => false,
    }
}

/// The number of decimal digits with white space around them; where it is above 65,535, 65,536.
fn number(value: &[u8]) -> Option<u32>
    ensures found { IfSome result (λ found. (number : ℕ) × IsNumber value.now number
        × (found ≡ capped number)) }
    ensures none { IfNone result ((number : ℕ) → IsNumber value.now number → ⊥) }
{
    let (digits, back) = cut(Class::Digit, cut(Class::White, value).1);
    if digits.is_empty() {
        return None;
    }
    if !is_white(back) {
        return None;
    }
    match decimal(digits, 65535) {
        Some(number) => Some(number),
        None => Some(65536),
    }
}

/// The length that the values of Content-Length say; where it is above 65,535, 65,536.
pub(crate) fn length_said(values: Values<'_>) -> Option<u32>
    ensures found { (all : List (List ℕ)) → Are values.entry all
        → IfSome result (λ found. (size : ℕ) × LengthOf all size × (found ≡ capped size)) }
    ensures none { (all : List (List ℕ)) → Are values.entry all
        → IfNone result ((size : ℕ) → LengthOf all size → ⊥) }
{
    match values {
        Values::Nothing => Some(0),
        Values::One(value) => number(value),
        Values::Several(_) => None,
    }
}
