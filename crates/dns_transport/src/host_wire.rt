//! A wire over the sockets of this host.

use crate::draws::{random_draws, random_ports};
use crate::server_wire::{ServerWire, WireOptions};
use crate::system::SystemSockets;
use rand_chacha::ChaCha20Rng;
use std::alloc::Global;
use std::io;
use std::net::{IpAddr, Net, SocketAddr, UdpSocket};
use std::time::Clock;

/// A wire to DNS servers over the sockets of this host.
pub type HostWire<'a, R> = ServerWire<SystemSockets<'a, R, ChaCha20Rng>, ChaCha20Rng>;

/// Whether a socket can be bound to a local address: the error of the system where it can't.
fn try_bind<R: Net>(rt: &R, local: IpAddr) -> io::Result<()> {
    let _socket = UdpSocket::bind(rt, SocketAddr::new(local, 0))?;
    Ok(())
}

/// A wire to these servers over the sockets of this host. Its ids and ports are drawn of a key;
/// datagrams go from this local address, where one is named.
///
/// # Errors
///
/// `OutOfMemory`, those of the system's clock, and that of the system where no socket can have the
/// local address.
pub fn open_wire<'a, R: Net + Clock>(
    rt: &'a R,
    alloc: Global,
    servers: &[SocketAddr],
    local: Option<IpAddr>,
    options: WireOptions,
    key: [u8; 32],
) -> io::Result<HostWire<'a, R>> {
    if let Some(local) = local {
        try_bind(rt, local)?;
    }
    let system = SystemSockets::new(rt, alloc, local, random_ports(key))?;
    Ok(ServerWire::new(alloc, system, random_draws(key), servers, options)?)
}
