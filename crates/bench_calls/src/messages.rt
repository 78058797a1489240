//! The reader of DNS messages.
ghost use Rattle.std.specs.Prelude.{◌≡◌, ◌+◌, ◌<◌, ℕ, length, take};
ghost use Rattle.dns_message.specs.Messages.{Spells};
ghost use Rattle.dns_message.specs.declared.message.Message as message;

use dns_message::read_message;
use std::alloc::Global;

/// How many records answer in the message in front of these octets.
#[unsafe(no_mangle)]
pub extern "C" fn bench_read_message(alloc: Global, octets: &[u8]) -> usize
    ensures { 0 < result → (end : ℕ) × (message : message.Message)
        × Spells (take end octets.now) message × (result ≡ length message.answers) }
{
    match read_message(alloc, octets) {
        Ok(message) => message.answers.len(),
        Err(_) => 0,
    }
}

/// One more than how many records answer in the message in front of these octets.
#[unsafe(no_mangle)]
pub extern "C" fn bench_reads_message(alloc: Global, octets: &[u8]) -> usize
    ensures { 0 < result → (end : ℕ) × (message : message.Message)
        × Spells (take end octets.now) message × (result ≡ length message.answers + 1) }
{
    match read_message(alloc, octets) {
        Ok(message) => message.answers.len() + 1,
        Err(_) => 0,
    }
}
