//! Where the ids of queries come from (RFC 1035 4.1.1).
ghost use Rattle.std.specs.Prelude.{◌≡◌, ℕ, ◌+◌, ◌%◌, ◌^◌};
ghost use Rattle.rand_core.specs.Stream.{next_u32};

use rand_core::Rng;
use std::marker::Model;

/// The source of the ids of queries. An id under which a question is out is skipped: the next one
/// is drawn then.
pub trait Ids {
    // What a draw gives: the ids before it, the id, and the ids after it.
    ghost draws: { Self → ℕ → Self → Type 0 };

    /// Draws the next id.
    fn draw(&mut self) -> u16
        ensures { draws self.old result self.new };
}

/// Ids that are lent: what draws them goes on to own them.
impl<I: Ids> Ids for &mut I {
    ghost draws = { λ old id new. I.draws old.now id new.now };

    fn draw(&mut self) -> u16 {
        (**self).draw()
    }
}

/// Ids that count up from 0; after 65,535 comes 0.
///
/// Anyone that can send to the resolver's port knows them: use `RandomIds` where replies come over
/// a network (RFC 5452 9.2).
#[derive(Debug, Drop)]
pub struct CountingIds {
    next: u16,
}

impl Model for CountingIds {
    ghost use Rattle.std.specs.Prelude.{ℕ};

    ghost Value = { ℕ };

    ghost view = { λ it. it.next };
}

impl CountingIds {
    /// Ids that count up from 0.
    #[must_use]
    pub fn new() -> CountingIds
        ensures { result ≡ 0 }
    {
        CountingIds { next: 0 }
    }
}

impl Default for CountingIds {
    fn default() -> CountingIds {
        CountingIds::new()
    }
}

impl Ids for CountingIds {
    ghost draws = { λ old id new. (id ≡ old) × (new ≡ (old + 1) % 2 ^ 16) };

    fn draw(&mut self) -> u16 {
        let id = self.next;
        self.next = id.wrapping_add(1);
        id
    }
}

/// Ids from a random generator (RFC 5452 9.2): each is the low 16 bits of the next 32 that it
/// gives.
///
/// Hand in one whose numbers can't be foretold, as ChaCha20 with a key from the operating system.
#[derive(Drop)]
pub struct RandomIds<R>(pub R);

impl<R: Rng> Ids for RandomIds<R> {
    ghost draws = { λ old id new. (id ≡ (next_u32 (R.stream old.0)).0 % 2 ^ 16)
        × (R.stream new.0 ≡ (next_u32 (R.stream old.0)).1) };

    fn draw(&mut self) -> u16 {
        (self.0.next_u32() % 65_536) as u16
    }
}
