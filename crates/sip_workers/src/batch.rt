//! What goes through the channel.

/// A batch of jobs: the place of its first job, and how many there are. A batch of none says that
/// no more come.
#[derive(Clone, Copy, Debug, PartialEq, Eq)]
pub(crate) struct Batch {
    pub(crate) first: usize,
    pub(crate) count: usize,
}
