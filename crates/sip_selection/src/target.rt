//! Where a request can be sent.
use sip_uri::{Address, Transport};

/// A target: where a request can be sent.
#[derive(Clone, Copy, Debug, PartialEq, Eq)]
pub struct Target {
    /// The transport to send over.
    pub transport: Transport,
    /// The address to send to.
    pub address: Address,
    /// The port of the address.
    pub port: u16,
}
