//! Random ids of queries (RFC 5452 9.2).
ghost use Rattle.std.specs.Prelude.{◌≡◌, ◌≢◌, ◌<◌, ◌^◌, ℕ};
ghost use Rattle.sip_resolver.specs.IdStreams.{id_stream, ids_of};

use crate::ids::RandomIds;
use rand_chacha::ChaCha20Rng;
use rand_core::SeedableRng;

/// What sets the numbers of the streams of ids apart from those of words.
const ID_STREAMS: u64 = 1 << 63;

/// Ids that ChaCha20 (RFC 8439 2.3) makes of a key, for a number below 2^63: each number has ids of
/// its own (`law_id_streams_are_apart`). Without the key they can't be foretold.
#[must_use]
pub fn random_ids(key: [u8; 32], number: u64) -> RandomIds<ChaCha20Rng>
    ensures { result.0 ≡ ids_of key number }
{
    let mut stream = ChaCha20Rng::from_seed(key);
    stream.set_stream(number | ID_STREAMS);
    RandomIds(stream)
}

/// Ids of two numbers below 2^63 come of two streams, and neither is the stream of the words of
/// such a number. A call does nothing; its contract states the law.
pub fn law_id_streams_are_apart()
    ensures ids { (one other : ℕ) → one < 2 ^ 63 → other < 2 ^ 63 → one ≢ other
        → id_stream one ≢ id_stream other }
    ensures words { (number words : ℕ) → words < 2 ^ 63 → id_stream number ≢ words }
{}
