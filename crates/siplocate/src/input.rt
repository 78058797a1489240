//! The input of the program, read whole.
ghost use Rattle.std.specs.Prelude.{◌≡◌, ◌≢◌, ◌+◌, ◌<◌, ◌≤◌, ◌++◌, ◌↔◌, length, Err, IfOk, IfErr, IfSome, OnOk, IsUtf8, vec_capacity, []};
ghost use Rattle.std.specs.Io.KnownBytes.{IsAtEnd};
ghost use Rattle.std.specs.String.{string_bytes};

use std::alloc::Global;
use std::io::Read;
use thiserror::Error;

/// The most octets of an input.
const OCTET_LIMIT: usize = 1_048_576;

/// Why an input was not taken.
#[derive(Clone, Copy, Debug, PartialEq, Eq, Error)]
pub enum InputRefusal {
    /// The input is no text or is too long, or a read failed.
    #[error("the input is no text, or too long, or could not be read")]
    Input,
    /// Memory was refused.
    #[error("out of memory")]
    Memory,
}

/// Keeps a further part of the input, within the limit.
fn keep(octets: &mut Vec<u8>, part: &[u8]) -> Result<(), InputRefusal>
    requires { length octets.old.items ≤ 1048576 }
    ensures kept { OnOk result (octets.new.items ≡ octets.old.items ++ part.now) }
    ensures memory { result ≡ Err InputRefusal.Memory
        → vec_capacity octets.old < length octets.old.items + length part.now }
    ensures too_long { (result ≡ Err InputRefusal.Input)
        ↔ (1048576 < length octets.old.items + length part.now) }
{
    if part.len() > OCTET_LIMIT - octets.len() {
        return Err(InputRefusal::Input);
    }
    octets
        .extend_from_slice(part)
        .map_err(|_| InputRefusal::Memory)
}

/// The octets as text.
fn text_of(octets: Vec<u8>) -> Result<String, InputRefusal>
    ensures text { IfOk result (λ text. string_bytes text ≡ octets.items) }
    ensures no_text { IfErr result (λ refusal. (refusal ≡ InputRefusal.Input)
        × (IsUtf8 octets.items → ⊥)) }
{
    String::from_utf8(octets).map_err(|_| InputRefusal::Input)
}

/// The text of all that was left to read. After a refusal what was read stays read.
pub fn input_text<R: Read>(alloc: Global, input: &mut R) -> Result<String, InputRefusal>
    ensures whole { IfOk result (λ text. IfSome (R.remaining input.old)
        (λ octets. string_bytes text ≡ octets)) }
    ensures nothing_left { OnOk result (IsAtEnd (R.remaining input.new)) }
    ensures memory { result ≡ Err InputRefusal.Memory
        → IfSome (R.remaining input.old) (λ octets. octets ≢ []) }
    ensures limit { IfOk result (λ text. length (string_bytes text) ≤ 1048576) }
{
    let mut octets = Vec::new(alloc);
    let mut part = [0; 4096];
    loop {
        let count = input.read(&mut part).map_err(|_| InputRefusal::Input)?;
        if count == 0 {
            return text_of(octets);
        }
        keep(&mut octets, &part[..count])?;
    }
}
