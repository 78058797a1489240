//! A book that counts the answers that are found in it.
ghost use Rattle.std.specs.Prelude.{◌≡◌};
ghost use Rattle.dns_transport.specs.WireCounts.{more, one_if};

use answer_cache::{AnswerBook, StoreRefusal, Stores};
use dns_answers::{Answer, FoundAnswer, Moment};
use dns_message::Question;
use std::alloc::AllocError;
use std::sync::Arc;

/// A book, each seat of which counts the look-ups that found an answer.
#[derive(Drop)]
pub struct CountingBook<B> {
    book: B,
}

/// A seat of such a book.
#[derive(Drop)]
pub struct CountingSeat<S> {
    seat: S,
    found: u64,
}

impl<B: AnswerBook> CountingBook<B> {
    /// A counting book over this book and seat, with no answer found yet.
    pub fn new(book: B, seat: B::Seat) -> (CountingBook<B>, CountingSeat<B::Seat>)
        requires { B.belongs book seat }
        ensures book { result.0.book ≡ book }
        ensures seat { result.1.seat ≡ seat }
        ensures none { result.1.found ≡ 0 }
    {
        (CountingBook { book }, CountingSeat { seat, found: 0 })
    }
}

impl<S> CountingSeat<S> {
    /// How many look-ups found an answer, up to `u64::MAX`.
    #[must_use]
    pub fn found(&self) -> u64
        ensures { result ≡ self.now.found }
    {
        self.found
    }

    /// Counts a look-up that found an answer.
    fn note(&mut self, is_found: bool)
        ensures seat { self.new.seat ≡ self.old.seat }
        ensures count { self.new.found ≡ more self.old.found (one_if is_found) }
    {
        self.found = self.found.saturating_add(u64::from(is_found));
    }
}

impl<B: AnswerBook> AnswerBook for CountingBook<B> {
    type Seat = CountingSeat<B::Seat>;

    ghost belongs = { λ book seat. B.belongs book.book seat.seat };

    ghost shown = { λ seat. B.shown seat.seat };

    ghost holds = { λ book seat it. B.holds book.book seat.seat it };

    fn look<'a>(
        &'a self,
        seat: &mut CountingSeat<B::Seat>,
        question: &Question,
        now: Moment,
    ) -> Result<Option<FoundAnswer<'a>>, AllocError> {
        let found = self.book.look(&mut seat.seat, question, now)?;
        seat.note(found.is_some());
        Ok(found)
    }
}

impl<R, B: Stores<R>> Stores<R> for CountingBook<B> {
    fn store(
        &self,
        rt: &R,
        seat: &mut CountingSeat<B::Seat>,
        question: &Question,
        answer: &Arc<Answer>,
        now: Moment,
    ) -> Result<(), StoreRefusal> {
        self.book.store(rt, &mut seat.seat, question, answer, now)
    }
}
