//! Why a row cannot be tried.
use std::alloc::AllocError;
use std::io;
use thiserror::Error;

/// Why a row cannot be tried.
#[derive(Clone, Copy, Debug, PartialEq, Eq, Error)]
pub enum Fault {
    /// The words name no call.
    #[error("the words are to be CRATE CALL, for a call that there is")]
    Call,
    /// A line is not in the form that its call wants.
    #[error("a line is not in the form that its call wants")]
    Form,
    /// The input could not be read.
    #[error("the input could not be read")]
    Input,
    /// Memory was refused.
    #[error("out of memory")]
    Memory,
}

impl From<AllocError> for Fault {
    fn from(_: AllocError) -> Fault {
        Fault::Memory
    }
}

impl From<io::Error> for Fault {
    fn from(_: io::Error) -> Fault {
        Fault::Input
    }
}
