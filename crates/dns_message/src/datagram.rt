//! A message as it is written: the octets of one datagram.
ghost use Rattle.std.specs.Prelude.{◌≡◌, ◌≤◌, ◌<◌, ◌+◌, ◌++◌, ℕ, List, length, OnOk, OnErr};
ghost use Rattle.dns_message.specs.Written.{two_octets};

use arrayvec::ArrayVec;

/// The most octets of a message in one datagram of UDP (RFC 1035 4.2.1).
const DATAGRAM_LIMIT: usize = 512;

/// The octets that are written so far.
pub(crate) type Datagram = ArrayVec<u8, DATAGRAM_LIMIT>;

/// A message has more octets than a datagram can have.
#[derive(Clone, Copy, Debug)]
pub(crate) struct TooLong;

/// Appends octets, if there is room for them.
pub(crate) fn push_octets(octets: &[u8], out: &mut Datagram) -> Result<(), TooLong>
    ensures ok { OnOk result (out.new.items ≡ out.old.items ++ octets.now) }
    ensures too_long { OnErr result (512 < length out.old.items + length octets.now) }
{
    out.try_extend_from_slice(octets).map_err(|_| TooLong)
}

/// Writes a number over the two octets at an offset.
pub(crate) fn set_u16(number: u16, offset: usize, out: &mut Datagram)
    requires { offset + 2 ≤ length out.old.items }
    ensures { (front back : List ℕ) → length front ≡ offset
        → out.old.items ≡ front ++ two_octets 0 ++ back
        → out.new.items ≡ front ++ two_octets number ++ back }
{
    let [high, low] = number.to_be_bytes();
    let octets = out.as_mut_slice();
    octets[offset] = high;
    octets[offset + 1] = low;
}
