//! Numbers in texts.
ghost use Rattle.std.specs.Prelude.{◌≡◌, ◌≤◌};
ghost use Rattle.ip_text.specs.Numbers.{decimal_within};
ghost use Rattle.ip_text.specs.Readers as spec;

/// The number that one or more decimal digits spell, where it is at most `limit`.
pub fn decimal(text: &[u8], limit: u32) -> Option<u32>
    ensures { result ≡ decimal_within limit text.now }
{
    if text.is_empty() {
        return None;
    }
    let mut number = 0u64;
    for octet in text {
        if !octet.is_ascii_digit() {
            return None;
        }
        number = 10 * number + u64::from(*octet - b'0');
        if number > u64::from(limit) {
            return None;
        }
    }
    Some(number as u32)
}

/// The value of a hexadecimal digit.
pub(crate) fn hexadecimal_digit(octet: u8) -> Option<u8>
    ensures { result ≡ spec.hexadecimal_digit octet }
{
    match octet {
        b'0'..=b'9' => Some(octet - b'0'),
        b'a'..=b'f' => Some(octet - b'a' + 10),
        b'A'..=b'F' => Some(octet - b'A' + 10),
        _ => None,
    }
}
