//! Why a message was refused.
ghost use Rattle.std.specs.Prelude.{◌≡◌};
ghost use Rattle.dns_message.specs.Refusals.{refusal_of_name, refusal_of_part};
ghost use Rattle.dns_message.specs.declared.refusal.EntryRefusal.TheVariants as entry;

use dns_name::NameReadRefusal;
use std::alloc::{AllocError, AllocFailed};
use thiserror::Error;

/// A part of a message (RFC 1035 4.1).
#[derive(Clone, Copy, Debug, PartialEq, Eq)]
pub enum Part {
    /// The 12 octets of the header.
    Header,
    /// The questions.
    Questions,
    /// The records that answer the question.
    Answers,
    /// The records that point to an authority.
    Authority,
    /// The additional records.
    Additional,
}

/// Why octets were not read as a message.
#[derive(Clone, Copy, Debug, PartialEq, Eq, Error)]
pub enum MessageRefusal {
    /// There are more than 65,535 octets, the most that a message can have (RFC 1035 4.2.2).
    #[error("there are more than 65,535 octets")]
    TooLong,
    /// The octets begin with no message. Reading stopped in this part (RFC 1035 4.1).
    #[error("no message stands there")]
    Malformed(Part),
    /// Memory was refused.
    #[error("out of memory")]
    Memory,
}

/// Why a question or a record was not read.
#[derive(Clone, Copy)]
pub(crate) enum EntryRefusal {
    /// None stands there.
    Malformed,
    /// Memory was refused.
    Memory,
}

impl EntryRefusal {
    /// The refusal of the message, of which this part was read.
    pub(crate) fn of_part(self, part: Part) -> MessageRefusal
        ensures { result ≡ refusal_of_part self part }
    {
        match self {
            EntryRefusal::Malformed => MessageRefusal::Malformed(part),
            EntryRefusal::Memory => MessageRefusal::Memory,
        }
    }
}

impl From<AllocError> for EntryRefusal {
    ghost from_gives = { λ _ refusal. refusal ≡ entry.Memory };

    fn from(_: AllocError) -> EntryRefusal {
        EntryRefusal::Memory
    }
}

impl<T: Drop> From<AllocFailed<T>> for EntryRefusal {
    ghost from_gives = { λ _ refusal. refusal ≡ entry.Memory };

    fn from(_: AllocFailed<T>) -> EntryRefusal {
        EntryRefusal::Memory
    }
}

impl From<NameReadRefusal> for EntryRefusal {
    ghost from_gives = { λ refusal entry. entry ≡ refusal_of_name refusal };

    fn from(refusal: NameReadRefusal) -> EntryRefusal {
        match refusal {
            NameReadRefusal::Malformed => EntryRefusal::Malformed,
            NameReadRefusal::Memory => EntryRefusal::Memory,
        }
    }
}
