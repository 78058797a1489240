//! The order of SRV records.
ghost use Rattle.std.specs.Prelude.{◌≡◌, ◌<◌, ◌≤◌, ℕ, List, length, IfSome};
ghost use Rattle.dns_message.specs.declared.srv.SrvRecord as srv;
ghost use Rattle.srv_choice.specs.Outcomes.{order_from};
ghost use Rattle.srv_choice.specs.declared.outcome.SrvOutcome.TheVariants.{Listed};

use dns_message::{Message, Rdata, Record, SrvRecord, read_message};
use srv_choice::{Indexes, RECORD_LIMIT, SrvOutcome, WORD_COUNT, Words, order};
use std::alloc::{AllocError, Global};

/// The SRV records that answer in a message.
fn servers_of(alloc: Global, message: Message) -> Result<Vec<SrvRecord>, AllocError> {
    let mut servers = Vec::new(alloc);
    for record in message.answers.into_vec() {
        let Record { rdata, .. } = record;
        if let Rdata::Srv(server) = rdata {
            servers.push(server)?;
        }
    }
    Ok(servers)
}

/// Puts the records in order so many times, each time from another word on, and gives the last
/// order.
fn last_order(servers: &[SrvRecord], words: &Words, rounds: usize) -> Option<Indexes>
    requires { length servers.now ≤ RECORD_LIMIT }
    ensures { IfSome result (λ places. (from : ℕ) × (next : ℕ)
        × (order_from servers.now words.now.0 from ≡ Listed places next)) }
{
    let mut last = None;
    for round in 0..rounds {
        let from = round % (WORD_COUNT - RECORD_LIMIT);
        last = match order(servers, words, from) {
            SrvOutcome::Listed(places, _) => Some(places),
            _ => None,
        };
    }
    last
}

/// Puts the SRV records that answer in the message in front of these octets in order, so many
/// times, each time from another word on; writes the last order, and returns how many places it
/// has.
#[unsafe(no_mangle)]
pub extern "C" fn bench_order(
    alloc: Global,
    octets: &[u8],
    words: &[u64],
    places: &mut [usize],
    rounds: usize,
) -> usize
    ensures { 0 < result → (servers : List srv.SrvRecord) × (order : List ℕ) × (from : ℕ)
        × (next : ℕ)
        × (order_from servers words.now from ≡ Listed order next) × (result ≡ length order) }
{
    let Ok(words) = <[u64; WORD_COUNT]>::try_from(words) else {
        return 0;
    };
    let Ok(message) = read_message(alloc, octets) else {
        return 0;
    };
    let Ok(servers) = servers_of(alloc, message) else {
        return 0;
    };
    if servers.len() > RECORD_LIMIT {
        return 0;
    }
    let Some(last) = last_order(servers.as_slice(), &Words(words), rounds) else {
        return 0;
    };
    for (to, place) in places.iter_mut().zip(last.as_slice()) {
        *to = usize::from(*place);
    }
    last.len()
}
