//! How the targets of a text came about.
use resolution_paths::ResolutionPath;
use sip_selection::Target;
use std::net::SocketAddr;

/// How often a target came first.
#[derive(Clone, Copy, Debug)]
pub struct FirstCount {
    /// The target.
    pub target: Target,
    /// In how many draws.
    pub times: u32,
}

/// How the targets of a text came about, as far as it is asked for.
#[derive(Debug, Drop)]
pub struct Account {
    /// The paths that lead to the targets.
    pub paths: Vec<ResolutionPath>,
    /// How many draws were made of the order of the targets.
    pub draws: u32,
    /// Which target came first in how many of them.
    pub firsts: Vec<FirstCount>,
    /// The DNS server whose reply came last, if one came.
    pub server: Option<SocketAddr>,
}
