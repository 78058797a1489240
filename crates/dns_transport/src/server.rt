//! A server of a wire.
ghost use Rattle.std.specs.Prelude.{◌≡◌, false, true};

use std::net::SocketAddr;

/// A server, whether it refused EDNS, and whether queries to it share a connection.
#[derive(Clone, Copy, Debug)]
pub(crate) struct Server {
    pub(crate) address: SocketAddr,
    pub(crate) refused_edns: bool,
    pub(crate) shares: bool,
}

impl Server {
    /// The server of an address, of which nothing is known yet.
    pub(crate) fn new(address: SocketAddr) -> Server
        ensures { result
            ≡ record { address = address; refused_edns = false; shares = true } }
    {
        Server {
            address,
            refused_edns: false,
            shares: true,
        }
    }
}
