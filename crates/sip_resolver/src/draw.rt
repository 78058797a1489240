//! The random words of a draw.
ghost use Rattle.std.specs.Prelude.{◌≡◌};
ghost use Rattle.sip_resolver.specs.Draws.{drawn};

use srv_choice::{RandomWords, WORD_COUNT, Words};

/// The words of the draw of a number: the first of the stream of that number which ChaCha20 (RFC
/// 8439 2.3, with a block counter and a nonce of 64 bits each) makes of the key. Each has 32 bits.
/// `RandomWords::Drawn` has the same, and draws only those that are used.
pub fn draw_words(key: [u8; 32], number: u64) -> Words
    ensures { result.0 ≡ drawn key number }
{
    let mut words = [0; WORD_COUNT];
    RandomWords::Drawn { key, number }.fill(0, &mut words);
    Words(words)
}
