//! Numbers in messages, the highest octet first (RFC 1035 2.3.2).
ghost use Rattle.std.specs.Prelude.{◌+◌, ◌<◌, length, MatchOption, ◌≡◌, ◌^◌, ◌++◌, OnOk, OnErr};
ghost use Rattle.std.specs.Int.{w16, w32};
ghost use Rattle.dns_message.specs.Offsets.{NumberAt};
ghost use Rattle.dns_message.specs.Written.{two_octets, four_octets};

use crate::datagram::{Datagram, TooLong, push_octets};

/// The number of two octets at an offset.
pub(crate) fn u16_at(bytes: &[u8], offset: usize) -> Option<u16>
    ensures { MatchOption result (length bytes.now < offset + 2)
        (λ number. NumberAt w16 bytes.now offset number) }
{
    match bytes.get(offset..)? {
        [first, second, ..] => Some(u16::from_be_bytes([*first, *second])),
        _ => None,
    }
}

/// Two numbers of two octets, one behind the other, at an offset.
pub(crate) fn two_u16_at(bytes: &[u8], offset: usize) -> Option<(u16, u16)>
    ensures { MatchOption result (length bytes.now < offset + 4)
        (λ numbers. NumberAt w16 bytes.now offset numbers.0
        × NumberAt w16 bytes.now (offset + 2) numbers.1) }
{
    match bytes.get(offset..)? {
        [a, b, c, d, ..] => Some((u16::from_be_bytes([*a, *b]), u16::from_be_bytes([*c, *d]))),
        _ => None,
    }
}

/// The number of four octets at an offset.
pub(crate) fn u32_at(bytes: &[u8], offset: usize) -> Option<u32>
    ensures { MatchOption result (length bytes.now < offset + 4)
        (λ number. NumberAt w32 bytes.now offset number) }
{
    match bytes.get(offset..)? {
        [first, second, third, fourth, ..] => {
            Some(u32::from_be_bytes([*first, *second, *third, *fourth]))
        }
        _ => None,
    }
}

/// Appends a number of two octets.
#[tactic(auto, unfolding(crate::specs::Written::two_octets))]
pub(crate) fn push_u16(number: u16, out: &mut Datagram) -> Result<(), TooLong>
    ensures ok { OnOk result (out.new.items ≡ out.old.items ++ two_octets number) }
    ensures fits { number < 2 ^ 16 }
    ensures too_long { OnErr result (512 < length out.old.items + length (two_octets number)) }
{
    push_octets(&number.to_be_bytes(), out)
}

/// Appends a number of four octets.
#[tactic(auto, unfolding(crate::specs::Written::four_octets))]
pub(crate) fn push_u32(number: u32, out: &mut Datagram) -> Result<(), TooLong>
    ensures ok { OnOk result (out.new.items ≡ out.old.items ++ four_octets number) }
    ensures fits { number < 2 ^ 32 }
    ensures too_long { OnErr result (512 < length out.old.items + length (four_octets number)) }
{
    push_octets(&number.to_be_bytes(), out)
}
