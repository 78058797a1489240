//! Where queries go.

use std::net::SocketAddr;

/// Where a query goes, and how.
#[derive(Clone, Copy, Debug, PartialEq, Eq)]
pub struct Route {
    /// The server.
    pub server: SocketAddr,
    /// Whether it goes over TCP, and not over UDP.
    pub over_tcp: bool,
}
