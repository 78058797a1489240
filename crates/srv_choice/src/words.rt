//! Random words: given, or drawn as far as they are used.
ghost use Rattle.std.specs.Prelude.{◌≡◌, ◌+◌, ◌≤◌, length};
ghost use Rattle.srv_choice.specs.Draws.{drawn, words_of};
ghost use Rattle.srv_choice.specs.Outcomes.{words_from};

use rand_chacha::ChaCha20Rng;
use rand_core::SeedableRng;
use rand_core::utils::NextWord;

/// How many words there are.
pub const WORD_COUNT: usize = 256;

/// Random words, of which each choice takes one.
#[derive(Clone, Copy, Debug, PartialEq, Eq)]
pub struct Words(pub [u64; WORD_COUNT]);

/// Random words, given or by what they are drawn. Only the words that a choice uses are drawn.
#[derive(Clone, Copy)]
pub enum RandomWords<'a> {
    /// These words.
    Given(&'a Words),
    /// The first 256 words of the stream of a number which ChaCha20 (RFC 8439 2.3, with a block
    /// counter and a nonce of 64 bits each) makes of a key. Each has 32 bits.
    Drawn { key: [u8; 32], number: u64 },
}

/// Draws words of the stream of a number, by a key, from an index on.
pub(crate) fn draw(key: [u8; 32], number: u64, from: usize, words: &mut [u64])
    requires { from + length words.old ≤ 256 }
    ensures { words.new ≡ words_from (drawn key number) from (length words.old) }
{
    let mut stream = ChaCha20Rng::from_seed(key);
    stream.set_stream(number);
    stream.set_word_pos(from as u128);
    for word in words.iter_mut() {
        *word = u64::from(stream.next_word());
    }
}

impl RandomWords<'_> {
    /// Writes so many of the words as the slice has room for, from an index on.
    pub fn fill(&self, from: usize, words: &mut [u64])
        requires within { from + length words.old ≤ 256 }
        ensures { words.new ≡ words_from (words_of self.now) from (length words.old) }
    {
        match self {
            RandomWords::Given(given) => {
                let given = &given.0[..];
                words.copy_from_slice(&given[from..from + words.len()]);
            }
            RandomWords::Drawn { key, number } => draw(*key, *number, from, words),
        }
    }
}
