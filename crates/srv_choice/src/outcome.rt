//! What SRV records say of a service (RFC 2782, "Usage rules").
use crate::indexes::Indexes;

/// What SRV records say of a service.
#[derive(Debug, Drop)]
pub enum SrvOutcome {
    /// There are no records, so nothing is said.
    Absent,
    /// The service is not offered: the target of the one record is the root (RFC 2782, "Target").
    Denied,
    /// The service is listed: the indexes of the records, in the order in which they are to be
    /// tried, and the index of the first random word that is still unused.
    Listed(Indexes, usize),
}
