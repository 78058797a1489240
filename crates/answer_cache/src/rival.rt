//! What comes between the two halves of a try.

/// What runs between the load of a head and the exchange of each try of
/// `SharedCache::store_against`, so that a test can let another seat store just then.
pub trait Rival {
    /// Runs in the try of this number, from 1.
    fn between(&mut self, try_number: u8);
}

/// Nothing comes between.
#[derive(Drop)]
pub(crate) struct NoRival;

impl Rival for NoRival {
    fn between(&mut self, _try_number: u8) {}
}
