//! What a book of answers is.
ghost use Rattle.std.specs.Prelude.{◌≡◌, ◌∷◌, ◌++◌, [], IfErr, IfOk, OnOk};
ghost use Rattle.std.specs.Arc.{arc_value};
ghost use Rattle.std.specs.Option.{option_map};
ghost use Rattle.dns_answers.specs.Records.{kind_of};
ghost use Rattle.answer_log.specs.Histories.{cached};
ghost use Rattle.dns_answers.specs.Found.{answer_in};
ghost use Rattle.answer_cache.specs.Seats.{GoesOn, IsRefused, IsSeat, IsStored, SeatView};
ghost use Rattle.answer_cache.specs.Seats.{StoresNothing, offer_of};

use crate::kept::kept;
use crate::refusal::StoreRefusal;
use dns_answers::{Answer, FoundAnswer, Moment};
use dns_message::Question;
use std::alloc::AllocError;
use std::sync::Arc;

/// A book of answers that seats share: one history of what was stored, which only grows.
///
/// A seat is used by one thread at a time. It sees a history, and each call through it goes on with
/// that history: what it had seen is in front of what it sees then. What is stored stays until the
/// book is dropped.
pub trait AnswerBook {
    /// A seat at the book.
    type Seat;

    // The seat was made with this book.
    ghost belongs: { Self → Self.Seat → Type 0 };

    // Its number, the history that it has seen, its own stores, and what its stores were handed.
    ghost shown: { Self.Seat → SeatView };

    /// The answer of the last store of the question, while it lives: until as many seconds after
    /// the moment of its store as its life is. A look-up at an earlier moment finds it too. An
    /// older store does not come back when the last one has expired.
    ///
    /// A book that owns its answers lends it: a caller that only reads it touches no count that
    /// threads share. The seat is not borrowed, so a caller may look again while it has an answer.
    fn look<'a>(
        &'a self,
        seat: &mut Self::Seat,
        question: &Question,
        now: Moment,
    ) -> Result<Option<FoundAnswer<'a>>, AllocError>
        requires { belongs self.now seat.old }
        ensures stays { belongs self.now seat.new }
        ensures goes_on { GoesOn (shown seat.old) (shown seat.new) }
        ensures stores_nothing { StoresNothing (shown seat.old) (shown seat.new) }
        ensures found { IfOk result
            (λ found. option_map answer_in found ≡ cached (shown seat.new).seen question.now now) };

    /// The answer that `look` finds, to keep.
    fn lookup(
        &self,
        seat: &mut Self::Seat,
        question: &Question,
        now: Moment,
    ) -> Result<Option<Arc<Answer>>, AllocError>
        requires { belongs self.now seat.old }
        ensures stays { belongs self.now seat.new }
        ensures goes_on { GoesOn (shown seat.old) (shown seat.new) }
        ensures stores_nothing { StoresNothing (shown seat.old) (shown seat.new) }
        ensures found { IfOk result
            (λ found. option_map arc_value found ≡ cached (shown seat.new).seen question.now now) }
    {
        kept(self.look(seat, question, now)?)
    }

    // What holds of each seat of the book.
    ghost holds: { (book : Self) (seat : Self.Seat) → belongs book seat → IsSeat (shown seat) };
}

/// A book in which whoever holds an `R` stores answers: in a book that threads share, a runtime
/// that may wait (`Wait`), as the memory for its stores grows; in a book of one thread any type, as
/// `()`.
pub trait Stores<R>: AnswerBook {
    /// Stores an answer at this moment: it lives until as many seconds after it as its life is.
    fn store(
        &self,
        rt: &R,
        seat: &mut Self::Seat,
        question: &Question,
        answer: &Arc<Answer>,
        now: Moment,
    ) -> Result<(), StoreRefusal>
        requires made_here { Self.belongs self.now seat.old }
        requires kind { kind_of (arc_value answer.now).records ≡ question.now.kind }
        ensures stays { Self.belongs self.now seat.new }
        ensures goes_on { GoesOn (Self.shown seat.old) (Self.shown seat.new) }
        ensures offered { (Self.shown seat.new).offered ≡ (Self.shown seat.old).offered
            ++ offer_of question.now (arc_value answer.now) now ∷ [] }
        ensures stored { OnOk result
            (IsStored (Self.shown seat.old) (Self.shown seat.new)
            (offer_of question.now (arc_value answer.now) now)) }
        ensures refused { IfErr result
            (IsRefused (Self.shown seat.old) (Self.shown seat.new)
            (offer_of question.now (arc_value answer.now) now)) };
}
