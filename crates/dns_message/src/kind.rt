//! The kinds of question that are asked.
ghost use Rattle.std.specs.Prelude.{◌≡◌};
ghost use Rattle.dns_message.specs.Kinds.{type_of_kind};

use crate::codes::{TYPE_A, TYPE_AAAA, TYPE_NAPTR, TYPE_SRV};

/// The type of records that a question asks for.
#[derive(Clone, Copy, Debug, PartialEq, Eq)]
pub enum Kind {
    /// Addresses of IPv4 (RFC 1035 3.4.1).
    A,
    /// Addresses of IPv6 (RFC 3596 2.1).
    Aaaa,
    /// Servers of a service (RFC 2782).
    Srv,
    /// Services of a domain (RFC 3403).
    Naptr,
}

impl Kind {
    /// The number of the type of records that is asked for (RFC 1035 3.2.2, 3596 2.1, 2782, 3403
    /// 4.1).
    pub fn type_number(self) -> u16
        ensures { result ≡ type_of_kind self }
    {
        match self {
            Kind::A => TYPE_A,
            Kind::Aaaa => TYPE_AAAA,
            Kind::Srv => TYPE_SRV,
            Kind::Naptr => TYPE_NAPTR,
        }
    }
}
