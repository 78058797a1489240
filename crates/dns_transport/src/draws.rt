//! What a wire over the sockets of this host draws of a key.

use rand_chacha::ChaCha20Rng;
use rand_core::SeedableRng;

/// The stream of what a transport draws: no number below 2^63 - 2 has it for its ids.
const DRAW_STREAM: u64 = u64::MAX;

/// The stream of the ports of a transport.
const PORT_STREAM: u64 = u64::MAX - 1;

/// Numbers that ChaCha20 (RFC 8439 2.3) makes of a key, for the ids of what a transport sends.
#[must_use]
pub fn random_draws(key: [u8; 32]) -> ChaCha20Rng {
    let mut stream = ChaCha20Rng::from_seed(key);
    stream.set_stream(DRAW_STREAM);
    stream
}

/// The same for the ports that a transport sends from.
#[must_use]
pub fn random_ports(key: [u8; 32]) -> ChaCha20Rng {
    let mut stream = ChaCha20Rng::from_seed(key);
    stream.set_stream(PORT_STREAM);
    stream
}
