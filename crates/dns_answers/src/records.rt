//! Records that answer a question.
ghost use Rattle.std.specs.Prelude.{◌≡◌, ◌↔◌, IsTrue};
ghost use Rattle.dns_answers.specs.Records.{count_of, kind_of};

use dns_message::{Kind, NaptrRecord, Section, SrvRecord};

/// Records of one kind, in the order of the reply; none where there are none.
#[derive(Debug, Drop)]
pub enum Records {
    /// Services of a domain (RFC 3403).
    Naptr(Section<NaptrRecord>),
    /// Servers of a service (RFC 2782).
    Srv(Section<SrvRecord>),
    /// Addresses of IPv4 (RFC 1035 3.4.1).
    V4(Section<[u8; 4]>),
    /// Addresses of IPv6 (RFC 3596 2.1).
    V6(Section<[u8; 16]>),
}

impl Records {
    /// The kind of question that the records answer.
    pub fn kind(&self) -> Kind
        ensures { result ≡ kind_of self.now }
    {
        match self {
            Records::Naptr(_) => Kind::Naptr,
            Records::Srv(_) => Kind::Srv,
            Records::V4(_) => Kind::A,
            Records::V6(_) => Kind::Aaaa,
        }
    }

    /// How many records there are.
    pub fn len(&self) -> usize
        ensures { result ≡ count_of self.now }
    {
        match self {
            Records::Naptr(rules) => rules.len(),
            Records::Srv(servers) => servers.len(),
            Records::V4(addresses) => addresses.len(),
            Records::V6(addresses) => addresses.len(),
        }
    }

    /// Whether there are no records.
    pub fn is_empty(&self) -> bool
        ensures { IsTrue result ↔ (count_of self.now ≡ 0) }
    {
        self.len() == 0
    }
}
