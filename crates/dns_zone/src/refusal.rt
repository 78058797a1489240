//! Why a zone was not read.
ghost use Rattle.std.specs.Prelude.{◌≡◌};
ghost use Rattle.dns_zone.specs.Refusals.{line_of_name};
ghost use Rattle.dns_zone.specs.declared.refusal.LineRefusal.TheVariants as lines;
ghost use Rattle.dns_zone.specs.declared.refusal.ZoneRefusal.TheVariants as zones;

use dns_name::NameRefusal;
use std::alloc::{AllocError, AllocFailed};
use thiserror::Error;

/// Why a text is no zone.
#[derive(Clone, Copy, Debug, PartialEq, Eq, Error)]
pub enum ZoneRefusal {
    /// The first line that says no record, by its number from 1.
    #[error("line {0} is no record")]
    BadLine(usize),
    /// There are more than 4,096 records.
    #[error("there are more than 4,096 records")]
    TooMany,
    /// Memory was refused.
    #[error("out of memory")]
    Memory,
}

impl From<AllocError> for ZoneRefusal {
    ghost from_gives = { λ _ refusal. refusal ≡ zones.Memory };

    fn from(_: AllocError) -> ZoneRefusal {
        ZoneRefusal::Memory
    }
}

/// Why a line was not read.
#[derive(Clone, Copy)]
pub(crate) enum LineRefusal {
    /// It says no record.
    Bad,
    /// Memory was refused.
    Memory,
}

impl From<AllocError> for LineRefusal {
    ghost from_gives = { λ _ refusal. refusal ≡ lines.Memory };

    fn from(_: AllocError) -> LineRefusal {
        LineRefusal::Memory
    }
}

impl<T: Drop> From<AllocFailed<T>> for LineRefusal {
    ghost from_gives = { λ _ refusal. refusal ≡ lines.Memory };

    fn from(_: AllocFailed<T>) -> LineRefusal {
        LineRefusal::Memory
    }
}

impl From<NameRefusal> for LineRefusal {
    ghost from_gives = { λ refusal line. line ≡ line_of_name refusal };

    fn from(refusal: NameRefusal) -> LineRefusal {
        match refusal {
            NameRefusal::Memory => LineRefusal::Memory,
            _ => LineRefusal::Bad,
        }
    }
}
