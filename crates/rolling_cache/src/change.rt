//! What became of a seat.

/// What became of a seat that was to catch up with the present generation.
#[derive(Clone, Copy, Debug, PartialEq, Eq)]
pub enum Change {
    /// The seat is where it was: that is the present generation, or another thread is changing it.
    Stays,
    /// The seat has gone over to a generation that another thread had begun.
    Moved,
    /// The seat has begun a generation, and is at that.
    Renewed,
}
