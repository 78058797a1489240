//! Servers that are asked over the sockets of this host.
ghost use Rattle.std.specs.Prelude.{◌≡◌};
ghost use Rattle.sip_tries.specs.Draws.{ping_draws};

use crate::pinger::Pinger;
use crate::server_uri::server_uri;
use rand_chacha::ChaCha20Rng;
use rand_core::{Rng, SeedableRng};
use sip_options::{Address, Transport};
use sip_ping::{Answer, Probe, ping};
use sip_selection::Target;
use std::alloc::{AllocError, Global};
use std::net::{IpAddr, Ipv4Addr, Ipv6Addr, Net, SocketAddr};
use std::sync::Wait;
use std::time::Clock;

/// The stream of what pings draw: no number below 2^63 - 3 has it for its ids.
const PING_STREAM: u64 = u64::MAX - 2;

/// Numbers that ChaCha20 (RFC 8439 2.3) makes of a key, for the branches, tags and Call-IDs of
/// pings. Its stream is neither that of a number's words nor, below 2^63 - 3, of its ids.
#[must_use]
pub fn random_pings(key: [u8; 32]) -> ChaCha20Rng
    ensures { result ≡ ping_draws key }
{
    let mut stream = ChaCha20Rng::from_seed(key);
    stream.set_stream(PING_STREAM);
    stream
}

/// How servers are asked.
#[derive(Clone, Copy, Debug, PartialEq, Eq)]
pub struct PingForm {
    /// How often a request may be sent on: 70, or 0 where the server itself is to answer.
    pub max_forwards: u8,
    /// How long a final reply is waited for, in milliseconds.
    pub wait: u32,
}

/// What asks servers over the sockets of this host, each by an OPTIONS request to the URI of the
/// server itself, with numbers of this generator (`random_pings`).
#[derive(Drop)]
pub struct ServerPinger<'a, R, G> {
    rt: &'a R,
    random: G,
    form: PingForm,
}

/// The address of a socket.
fn ip_of(address: Address) -> IpAddr {
    match address {
        Address::V4(octets) => IpAddr::V4(Ipv4Addr::from(octets)),
        Address::V6(octets) => IpAddr::V6(Ipv6Addr::from(octets)),
    }
}

impl<'a, R: Net + Clock + Wait, G: Rng> ServerPinger<'a, R, G> {
    /// What asks servers in this form.
    pub fn new(rt: &'a R, random: G, form: PingForm) -> ServerPinger<'a, R, G> {
        ServerPinger { rt, random, form }
    }
}

impl<'a, R: Net + Clock + Wait, G: Rng> Pinger for ServerPinger<'a, R, G> {
    ghost use Rattle.std.specs.Prelude.{⊤};

    // Nothing is known of what servers answer.
    ghost asks = { λ _ _ _ _ _. ⊤ };

    fn ask(
        &mut self,
        alloc: Global,
        over: Transport,
        target: &Target,
    ) -> Result<Answer, AllocError> {
        let uri = server_uri(alloc, over, target)?;
        let probe = Probe {
            server: SocketAddr::new(ip_of(target.address), target.port),
            transport: over,
            uri: &uri,
            branch: self.random.next_u64(),
            from_tag: self.random.next_u64(),
            call_id: self.random.next_u64(),
            max_forwards: self.form.max_forwards,
            deadline: self.form.wait,
        };
        ping(self.rt, alloc, &probe)
    }
}
