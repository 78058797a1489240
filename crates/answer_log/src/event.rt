//! The events of the log.
use crate::store::Store;

/// What the log has. A link is the key of a cell.
pub enum Event {
    /// The first event of a log, which has this number of seats and this number of groups.
    Opened(u64, u32),
    /// How a seat asks what the log has of it, and says how many events it knows of.
    Asks(u64, u64),
    /// The node of this number has this store and this link.
    Named(u64, Store, u64),
    /// The store of this node is in the history.
    Placed(u64, Store, u64),
}

/// How many events of the asking seat the log had before a step, and how many after it.
#[derive(Clone, Copy)]
pub struct Counted {
    pub before: u64,
    pub after: u64,
}
