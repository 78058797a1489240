//! Transports that a request is sent over.

/// A transport without TLS (RFC 3261 18).
#[derive(Clone, Copy, Debug, PartialEq, Eq)]
pub enum Transport {
    /// UDP.
    Udp,
    /// TCP.
    Tcp,
}
