//! IPv4 addresses as texts (RFC 3261 25.1).
ghost use Rattle.std.specs.Prelude.{◌≡◌};
ghost use Rattle.std.specs.Option.{option_map};
ghost use Rattle.ip_text.specs.Readers as spec;

use crate::parts::behind_front;

/// The number of the digits in front, one to three and at most 255, and what follows them.
#[inline(always)]
fn number_in_front(text: &[u8]) -> Option<(u8, &[u8])>
    ensures { option_map (λ found. (found.0, found.1.now)) result ≡ spec.number_in_front text.now }
{
    let mut number = 0u32;
    for (at, octet) in text.iter().enumerate() {
        if !octet.is_ascii_digit() {
            return if at == 0 {
                None
            } else {
                Some((number as u8, &text[at..]))
            };
        }
        if at > 2 {
            return None;
        }
        number = 10 * number + u32::from(*octet - b'0');
        if number > 255 {
            return None;
        }
    }
    if text.is_empty() {
        None
    } else {
        Some((number as u8, &text[text.len()..]))
    }
}

/// The number behind a dot in front, and what follows it.
#[inline(always)]
fn dotted_number(text: &[u8]) -> Option<(u8, &[u8])>
    ensures { option_map (λ found. (found.0, found.1.now)) result ≡ spec.dotted_number text.now }
{
    number_in_front(behind_front(text, b'.')?)
}

/// The address of four numbers with dots between them.
#[inline(always)]
pub(crate) fn ipv4(text: &[u8]) -> Option<[u8; 4]>
    ensures { result ≡ spec.ipv4 text.now }
{
    let (first, rest) = number_in_front(text)?;
    let (second, rest) = dotted_number(rest)?;
    let (third, rest) = dotted_number(rest)?;
    let (fourth, rest) = dotted_number(rest)?;
    if !rest.is_empty() {
        return None;
    }
    Some([first, second, third, fourth])
}
