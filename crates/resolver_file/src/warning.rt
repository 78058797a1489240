//! Lines of a resolver file that can't be read.
use thiserror::Error;

/// Why a line, or an option on it, can't be read.
#[derive(Clone, Copy, Debug, PartialEq, Eq, Error)]
pub enum LineFault {
    /// The first word of the line is no keyword of resolv.conf(5).
    #[error("no keyword")]
    NoKeyword,
    /// A blank is in front of the keyword, which has to begin the line.
    #[error("a blank in front of the keyword")]
    Indented,
    /// `nameserver` without an address.
    #[error("no address")]
    NoAddress,
    /// `nameserver` with a word that is no IPv4 or IPv6 address.
    #[error("a bad address")]
    BadAddress,
    /// `nameserver` with an address of a scope, as `fe80::1%eth0`, which is not taken.
    #[error("an address with a scope")]
    ScopedAddress,
    /// `timeout:` or `attempts:` without a decimal number.
    #[error("a bad number")]
    BadNumber,
}

/// A line of a resolver file, from 1, and why it, or an option on it, can't be read.
#[derive(Clone, Copy, Debug, PartialEq, Eq, Error)]
#[error("line {line}: {fault}")]
pub struct LineWarning {
    /// The number of the line, from 1.
    pub line: usize,
    /// Why it can't be read.
    pub fault: LineFault,
}
