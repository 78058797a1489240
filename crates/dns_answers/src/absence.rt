//! For how long it may be kept that there is no record (RFC 2308 3, 5).
ghost use Rattle.std.specs.Prelude.{◌≡◌};
ghost use Rattle.dns_answers.specs.Lives as spec;

use crate::chain::life_with;
use dns_message::{Rdata, Record};

/// The TTL that an SOA record gives to negative answers: its MINIMUM, and no longer than the record
/// lasts itself.
fn negative_ttl(entry: &Record) -> Option<u32>
    ensures { result ≡ spec.negative_ttl entry.now }
{
    match &entry.rdata {
        Rdata::Soa(authority) => Some(life_with(authority.minimum, entry.ttl)),
        _ => None,
    }
}

/// The TTL that the first SOA record of an authority section gives to negative answers, whatever
/// its owner; without one they may not be kept.
pub(crate) fn negative_ttl_of(authority: &[Record]) -> u32
    ensures { result ≡ spec.negative_ttl_of authority.now }
{
    for entry in authority {
        if let Some(ttl) = negative_ttl(entry) {
            return ttl;
        }
    }
    0
}
