//! The group of a question.
ghost use Rattle.std.specs.Prelude.{◌≡◌, ◌<◌, ◌%◌};
ghost use Rattle.answer_log.specs.Groups.{group_of, hash_more, hash_of, hashed_of};

use dns_message::Question;

/// How many groups a log has at least, and where nothing says how many: 64.
pub const LEAST_GROUPS: u32 = 64;

/// How many groups a log can have: 65,536.
pub const MOST_GROUPS: u32 = 65_536;

/// How many stores of one group there can be.
pub const GROUP_LIMIT: usize = 128;

/// The hash with one octet more (FNV-1a, 32 bits).
fn hash_more(hash: u32, octet: u8) -> u32
    ensures { result ≡ hash_more hash octet }
{
    (hash ^ u32::from(octet)).wrapping_mul(16_777_619)
}

/// The hash of a question: FNV-1a over the octets of its name and of its type.
#[must_use]
pub fn hash(question: &Question) -> u32
    ensures { result ≡ hash_of (hashed_of question.now) }
{
    let [high, low] = question.kind.type_number().to_be_bytes();
    let hash = question
        .name
        .wire()
        .iter()
        .fold(2_166_136_261, |hash: u32, octet| hash_more(hash, *octet));
    hash_more(hash_more(hash, high), low)
}

/// The group of a question, from 0 to 63: that of all questions whose name and type have the same
/// hash, modulo 64. Stores of one group are kept together. Takes no memory.
#[must_use]
pub fn group(question: &Question) -> u8
    ensures group { result ≡ group_of question.now }
    ensures below { result < 64 }
{
    group_among(hash(question), LEAST_GROUPS) as u8
}

/// The group of all questions with a hash, one of so many.
#[must_use]
pub fn group_among(hash: u32, groups: u32) -> u32
    requires { 0 < groups }
    ensures { result ≡ hash % groups }
{
    hash % groups
}
