//! Why a name was refused.
ghost use Rattle.std.specs.Prelude.{◌≡◌};
ghost use Rattle.dns_name.specs.declared.refusal.NameRefusal.TheVariants as text;
ghost use Rattle.dns_name.specs.declared.refusal.NameReadRefusal.TheVariants as read;

use std::alloc::AllocError;
use thiserror::Error;

/// Why a text is no name.
#[derive(Clone, Copy, Debug, PartialEq, Eq, Error)]
pub enum NameRefusal {
    /// A label has no octet.
    #[error("a label is empty")]
    EmptyLabel,
    /// A label has more than 63 octets (RFC 1035 2.3.4).
    #[error("a label has more than 63 octets")]
    LongLabel,
    /// The name has more than 255 octets on the wire (RFC 1035 2.3.4).
    #[error("the name has more than 255 octets")]
    LongName,
    /// An octet of a label is no letter, digit, `_` or `-`.
    #[error("an octet is no letter, digit, underscore or hyphen")]
    BadOctet,
    /// Memory was refused.
    #[error("out of memory")]
    Memory,
}

/// Why no name was read at an offset of a message.
#[derive(Clone, Copy, Debug, PartialEq, Eq, Error)]
pub enum NameReadRefusal {
    /// No name is there (RFC 1035 3.1, 4.1.4).
    #[error("no name stands there")]
    Malformed,
    /// Memory was refused.
    #[error("out of memory")]
    Memory,
}

impl From<AllocError> for NameRefusal {
    ghost from_gives = { λ _ refusal. refusal ≡ text.Memory };

    fn from(_: AllocError) -> NameRefusal {
        NameRefusal::Memory
    }
}

impl From<AllocError> for NameReadRefusal {
    ghost from_gives = { λ _ refusal. refusal ≡ read.Memory };

    fn from(_: AllocError) -> NameReadRefusal {
        NameReadRefusal::Memory
    }
}
