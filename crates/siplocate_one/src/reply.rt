//! Replies in hexadecimal digits, and what is wrong with a line that is none.
ghost use Rattle.std.specs.Prelude.{◌≡◌, ◌⊎◌, ℕ, List, IfErr, IfOk};
ghost use Rattle.siplocate_one.specs.Replies.{digits, Digits, of_locator};
ghost use Rattle.siplocate_one.specs.declared.reply.BadReply.TheVariants as bad;

use dns_answers::ReplyRefusal;
use dns_message::MessageRefusal;
use hex::FromHexError;
use sip_locator::LocatorRefusal;
use std::alloc::{AllocError, Global};

/// Why a line was not taken as a reply, in the order of the checks.
#[derive(Clone, Copy, Debug, PartialEq, Eq)]
pub(crate) enum BadReply {
    /// The digits of the line are not hexadecimal, or not even in number.
    NotHex,
    /// No question is asked.
    NothingAsked,
    /// There are more octets than a message can have.
    TooLong,
    /// The octets begin with no message.
    Malformed,
    /// The message gives no answer to the question.
    NoAnswer(ReplyRefusal),
    /// Memory was refused.
    Memory,
}

impl From<AllocError> for BadReply {
    ghost from_gives = { λ _ reply. reply ≡ bad.Memory };

    fn from(_: AllocError) -> BadReply {
        BadReply::Memory
    }
}

impl From<LocatorRefusal> for BadReply {
    ghost from_gives = { λ refusal reply. reply ≡ of_locator refusal };

    fn from(refusal: LocatorRefusal) -> BadReply {
        match refusal {
            LocatorRefusal::NothingAsked => BadReply::NothingAsked,
            LocatorRefusal::Message(MessageRefusal::TooLong) => BadReply::TooLong,
            LocatorRefusal::Message(MessageRefusal::Malformed(_)) => BadReply::Malformed,
            LocatorRefusal::Reply(refusal) => BadReply::NoAnswer(refusal),
            LocatorRefusal::Message(MessageRefusal::Memory) | LocatorRefusal::Memory => {
                BadReply::Memory
            }
        }
    }
}

/// The digits of a line, without blanks.
fn digits_of(alloc: Global, line: &str) -> Result<Vec<u8>, AllocError>
    ensures { IfOk result (λ found. found.items ≡ digits line.now) }
{
    line.as_bytes()
        .iter()
        .copied()
        .filter(|octet| *octet != b' ')
        .collect(alloc)
}

/// The octets of a line of digits.
pub(crate) fn octets_of(alloc: Global, line: &str) -> Result<Vec<u8>, BadReply>
    ensures found { IfOk result (λ octets. Digits line.now octets.items) }
    ensures bad { IfErr result (λ reply. (reply ≡ BadReply.Memory)
        ⊎ ((reply ≡ BadReply.NotHex) × ((octets : List ℕ) → Digits line.now octets → ⊥))) }
{
    let digits = digits_of(alloc, line)?;
    match hex::decode(alloc, digits) {
        Ok(octets) => Ok(octets),
        Err(FromHexError::OutOfMemory) => Err(BadReply::Memory),
        Err(_) => Err(BadReply::NotHex),
    }
}
