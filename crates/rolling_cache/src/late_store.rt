//! Stores that may not be carried.
ghost use Rattle.std.specs.Prelude.{◌≡◌, IfOk};
ghost use Rattle.std.specs.Arc.{arc_value};
ghost use Rattle.dns_answers.specs.Records.{kind_of};
ghost use Rattle.answer_cache.specs.Carried.{lives_at};
ghost use Rattle.answer_cache.specs.Seats.{offer_of};

use dns_answers::{Answer, Moment};
use dns_message::Question;
use std::alloc::AllocError;
use std::marker::Model;
use std::sync::Arc;

/// A store that a seat made while its generation was handed on, or after that: what was carried
/// may lack it.
#[derive(Drop)]
pub(crate) struct LateStore {
    pub question: Question,
    pub answer: Arc<Answer>,
    pub moment: Moment,
}

impl Model for LateStore {
    ghost use Rattle.std.specs.Prelude.{◌≡◌};
    ghost use Rattle.std.specs.Arc.{arc_value};
    ghost use Rattle.dns_answers.specs.Records.{kind_of};
    ghost use Rattle.answer_cache.specs.Seats.{Offer, offer_of};

    ghost Value = { Offer };

    ghost view = { λ it. offer_of it.question (arc_value it.answer) it.moment };

    ghost invariant = { λ it. kind_of (arc_value it.answer).records ≡ it.question.kind };
}

impl LateStore {
    /// That of this answer to the question.
    pub(crate) fn new(
        question: &Question,
        answer: &Arc<Answer>,
        moment: Moment,
    ) -> Result<LateStore, AllocError>
        requires { kind_of (arc_value answer.now).records ≡ question.now.kind }
        ensures { IfOk result
            (λ it. it ≡ offer_of question.now (arc_value answer.now) moment) }
    {
        Ok(LateStore {
            question: question.try_clone()?,
            answer: Arc::try_clone(answer)?,
            moment,
        })
    }

    /// Whether its answer lives at a moment.
    pub(crate) fn lives_at(&self, now: Moment) -> bool
        ensures { result ≡ lives_at now self.now }
    {
        now.get() < self.moment.get() + u64::from(self.answer.life())
    }

    /// The last moment at which an answer with this life lives, if it was stored when this was.
    pub(crate) fn end_of(&self, life: u32) -> Option<Moment> {
        let end = self.moment.get().saturating_add(u64::from(life));
        Moment::new(end.saturating_sub(1))
    }
}
