//! A book of answers as the source of a choice.
ghost use Rattle.std.specs.Prelude.{◌≡◌};

use answer_cache::AnswerBook;
use dns_answers::{FoundAnswer, Moment};
use dns_message::Question;
use sip_selection::AnswerSource;
use std::alloc::AllocError;

/// What a book has at a moment: a source of answers, which are asked for through a seat.
#[derive(Drop)]
pub struct BookAt<'a, B> {
    /// The book.
    pub book: &'a B,
    /// The moment.
    pub now: Moment,
}

impl<'a, B: AnswerBook> AnswerSource for BookAt<'a, B> {
    type Seat = B::Seat;

    ghost use Rattle.std.specs.Prelude.{◌≡◌};
    ghost use Rattle.answer_log.specs.Histories.{cached};
    ghost use Rattle.answer_cache.specs.Seats.{GoesOn, StoresNothing};

    ghost ready = { λ it seat. B.belongs it.book.now seat };

    ghost goes = { λ before after. GoesOn (B.shown before) (B.shown after)
        × StoresNothing (B.shown before) (B.shown after) };

    ghost says = { λ it seat question found.
        found ≡ cached (B.shown seat).seen question it.now };

    #[inline(always)]
    fn answer<'s>(
        &'s self,
        seat: &mut B::Seat,
        question: &Question,
    ) -> Result<Option<FoundAnswer<'s>>, AllocError> {
        self.book.look(seat, question, self.now)
    }
}
