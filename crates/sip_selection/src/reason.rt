//! Why a request goes nowhere.
use thiserror::Error;

/// Why a request goes nowhere.
#[derive(Clone, Copy, Debug, PartialEq, Eq, Error)]
pub enum Reason {
    /// The transport of the request is not one of the caller's (RFC 3261 19.1.5), or none that a
    /// SIPS URI can use.
    #[error("the transport is not supported")]
    TransportUnsupported,
    /// The transport of the request is not secure, as a SIPS URI demands (RFC 3261 26.2.2).
    #[error("the transport is not secure")]
    TransportNotSecure,
    /// The domain does not offer the service (RFC 2782).
    #[error("the service is not offered")]
    NotOffered,
    /// There is no address to send the request to.
    #[error("there is no address")]
    NoAddress,
}
