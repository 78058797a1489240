//! Names as they are written (RFC 1035 3.1).
ghost use Rattle.std.specs.Prelude.{◌≡◌, ◌+◌, ◌<◌, length, ◌++◌, OnOk, OnErr};
ghost use Rattle.dns_name.specs.Labels.{wire_of, IsName};

use crate::datagram::{Datagram, TooLong, push_octets};
use dns_name::Name;

/// Appends a name.
pub(crate) fn push_name(name: &Name, out: &mut Datagram) -> Result<(), TooLong>
    ensures ok { OnOk result (out.new.items ≡ out.old.items ++ wire_of name.now) }
    ensures fits { IsName name.now }
    ensures too_long { OnErr result (512 < length out.old.items + length (wire_of name.now)) }
{
    push_octets(name.wire(), out)
}
