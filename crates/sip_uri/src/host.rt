//! Hosts of URIs and Vias (RFC 3261 25.1).
ghost use Rattle.std.specs.Prelude.{◌≡◌, ◌↔◌, IsTrue, IfOk, OnErr};
ghost use Rattle.sip_uri.specs.Hosts.{IsNamed};
ghost use Rattle.sip_uri.specs.Same.{same_host};

use dns_name::Name;
use std::alloc::AllocError;

/// A host: an address or a name.
#[derive(Debug, Drop)]
pub enum Host {
    /// An IPv4 address.
    V4([u8; 4]),
    /// An IPv6 address.
    V6([u8; 16]),
    /// A domain name.
    Domain(Name),
}

impl Host {
    /// A copy of the host. Memory is needed for a name alone.
    pub fn try_clone(&self) -> Result<Host, AllocError>
        ensures copy { IfOk result (λ copy. copy ≡ self.now) }
        ensures memory { OnErr result (IsNamed self.now) }
    {
        match self {
            Host::V4(octets) => Ok(Host::V4(*octets)),
            Host::V6(octets) => Ok(Host::V6(*octets)),
            Host::Domain(name) => Ok(Host::Domain(name.try_clone()?)),
        }
    }
}

impl PartialEq for Host {
    ghost use Rattle.std.specs.Cmp.{decided, partial_equiv_from_equiv};
    ghost use Rattle.sip_uri.specs.Same.Decided.{host_decides};

    ghost eq = { same_host };

    ghost laws = { partial_equiv_from_equiv (decided same_host host_decides) };

    /// Hosts are equal exactly where they are of one kind, with the same octets or the same name.
    fn eq(&self, other: &Host) -> bool
        ensures value { result ≡ same_host self.now other.now }
        ensures same { IsTrue result ↔ (self.now ≡ other.now) }
    {
        match (self, other) {
            (Host::V4(octets), Host::V4(others)) => octets == others,
            (Host::V6(octets), Host::V6(others)) => octets == others,
            (Host::Domain(name), Host::Domain(other)) => name == other,
            _ => false,
        }
    }
}

impl Eq for Host {
    ghost use Rattle.std.specs.Cmp.{decided};
    ghost use Rattle.sip_uri.specs.Same.Decided.{host_decides};

    ghost laws = { decided same_host host_decides };
}
