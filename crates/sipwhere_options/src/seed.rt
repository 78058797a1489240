//! Keys in words.
ghost use Rattle.std.specs.Prelude.{IfNone, IfSome};
ghost use Rattle.sipwhere_options.specs.CommandLine.{SeedText};
ghost use Rattle.sipwhere_options.specs.Flags.{SpellsNothing};

/// The octets of a key.
pub const KEY_LENGTH: usize = 32;

/// The hexadecimal digits of a key.
const DIGITS_LENGTH: usize = 2 * KEY_LENGTH;

/// The key of a word: 1 to 64 hexadecimal digits, which are the first ones of it; the others are 0.
pub fn key_from_text(text: &str) -> Option<[u8; KEY_LENGTH]>
    ensures found { IfSome result (SeedText text.now) }
    ensures none { IfNone result (SpellsNothing SeedText text.now) }
{
    let given = text.as_bytes();
    if given.is_empty() || given.len() > DIGITS_LENGTH {
        return None;
    }
    let mut digits = [b'0'; DIGITS_LENGTH];
    digits[..given.len()].copy_from_slice(given);
    let mut key = [0; KEY_LENGTH];
    match hex::decode_to_slice(digits.as_slice(), &mut key) {
        Ok(()) => Some(key),
        Err(_) => None,
    }
}
