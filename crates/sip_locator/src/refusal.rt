//! Why a reply was not taken.
ghost use Rattle.std.specs.Prelude.{◌≡◌};
ghost use Rattle.sip_locator.specs.Refusals.{of_message, of_reply};
ghost use Rattle.sip_locator.specs.declared.refusal.LocatorRefusal.TheVariants as refusals;

use dns_answers::ReplyRefusal;
use dns_message::MessageRefusal;
use std::alloc::{AllocError, AllocFailed};
use thiserror::Error;

/// Why a reply was not taken, in the order of the checks.
#[derive(Clone, Copy, Debug, PartialEq, Eq, Error)]
pub enum LocatorRefusal {
    /// No question is asked.
    #[error("no question is asked")]
    NothingAsked,
    /// The octets begin with no message.
    #[error("no message is in front of the octets")]
    Message(MessageRefusal),
    /// The message gives no answer to the question.
    #[error("the message does not answer the question")]
    Reply(ReplyRefusal),
    /// Memory was refused.
    #[error("out of memory")]
    Memory,
}

impl From<AllocError> for LocatorRefusal {
    ghost from_gives = { λ _ refusal. refusal ≡ refusals.Memory };

    fn from(_: AllocError) -> LocatorRefusal {
        LocatorRefusal::Memory
    }
}

impl<T: Drop> From<AllocFailed<T>> for LocatorRefusal {
    ghost from_gives = { λ _ refusal. refusal ≡ refusals.Memory };

    fn from(_: AllocFailed<T>) -> LocatorRefusal {
        LocatorRefusal::Memory
    }
}

impl From<MessageRefusal> for LocatorRefusal {
    ghost from_gives = { λ refusal it. it ≡ of_message refusal };

    fn from(refusal: MessageRefusal) -> LocatorRefusal {
        match refusal {
            MessageRefusal::Memory => LocatorRefusal::Memory,
            refusal => LocatorRefusal::Message(refusal),
        }
    }
}

impl From<ReplyRefusal> for LocatorRefusal {
    ghost from_gives = { λ refusal it. it ≡ of_reply refusal };

    fn from(refusal: ReplyRefusal) -> LocatorRefusal {
        match refusal {
            ReplyRefusal::Memory => LocatorRefusal::Memory,
            refusal => LocatorRefusal::Reply(refusal),
        }
    }
}
