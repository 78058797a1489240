//! Why a text was refused.
use thiserror::Error;

/// Why a text is no URI or no Via, in the order of the checks.
#[derive(Clone, Copy, Debug, PartialEq, Eq, Error)]
pub enum UriRefusal {
    /// The text has more than 1,024 octets.
    #[error("the text has more than 1024 octets")]
    TooLong,
    /// The text does not begin with `sip:` or `sips:` (RFC 3261 19.1.1).
    #[error("the scheme is neither sip nor sips")]
    BadScheme,
    /// What is before the `@` is no user, or no user and password (RFC 3261 25.1).
    #[error("the user part is bad")]
    BadUser,
    /// The host is no IPv4 address, no IPv6 address in brackets and no hostname (RFC 3261 25.1).
    #[error("the host is bad")]
    BadHost,
    /// The port is no number from 1 to 65535.
    #[error("the port is bad")]
    BadPort,
    /// A parameter is none by the grammar (RFC 3261 25.1), or lacks the value that it needs.
    #[error("a parameter is bad")]
    BadParam,
    /// An earlier parameter has the same name (RFC 3261 19.1.1, 7.3.1).
    #[error("a parameter stands twice")]
    RepeatedParam,
    /// A header is none by the grammar (RFC 3261 25.1).
    #[error("a header is bad")]
    BadHeader,
    /// A Via does not begin with a protocol of SIP 2.0 and a transport (RFC 3261 8.1.1.7).
    #[error("the protocol of the Via is bad")]
    BadVia,
    /// Memory was refused.
    #[error("out of memory")]
    Memory,
}
