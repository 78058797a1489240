//! What ends a run before a text is located.
ghost use Rattle.std.specs.Prelude.{◌≡◌};

use std::alloc::{AllocError, AllocFailed};
use std::io;
use thiserror::Error;

/// Why the program asks nothing.
#[derive(Debug, Drop, Error)]
pub enum RunFault {
    /// The system has a fault: its files, its clock, its entropy, its sockets or its memory.
    #[error("{0}")]
    System(io::Error),
    /// The resolver file can't be read, or the one that was named is not there.
    #[error("the resolver file can't be read: {0}")]
    ResolverFile(io::Error),
    /// No server is of the family of the local address.
    #[error("no server has the family of the local address")]
    Family,
    /// The resolver file asks for TCP, for which no local address can be chosen here.
    #[error("a local address is for UDP, and the resolver file wants TCP")]
    LocalOverTcp,
}

impl From<io::Error> for RunFault {
    ghost use Rattle.sipwhere_options.specs.declared.run_fault.RunFault.TheVariants.{System};

    ghost from_gives = { λ error fault. fault ≡ System error };

    fn from(error: io::Error) -> RunFault {
        RunFault::System(error)
    }
}

impl From<AllocError> for RunFault {
    ghost use Rattle.sipwhere_options.specs.Plans.{IsOfSystem};

    ghost from_gives = { λ _ fault. IsOfSystem fault };

    fn from(error: AllocError) -> RunFault {
        RunFault::System(io::Error::from(error))
    }
}

impl<T: Drop> From<AllocFailed<T>> for RunFault {
    ghost use Rattle.sipwhere_options.specs.Plans.{IsOfSystem};

    ghost from_gives = { λ _ fault. IsOfSystem fault };

    fn from(error: AllocFailed<T>) -> RunFault {
        RunFault::System(io::Error::from(error))
    }
}
