//! What contracts note of a seat, and nothing at run time.
ghost use Rattle.std.specs.Prelude.{◌≡◌, ◌∷◌, ◌++◌, []};
ghost use Rattle.std.specs.Arc.{arc_value};
ghost use Rattle.answer_cache.specs.Seats.{offer_of};

use dns_answers::{Answer, Moment};
use dns_message::Question;
use std::marker::Model;
use std::snapshot::Snapshot;
use std::sync::Arc;

/// A note, and what was noted before it.
#[derive(Drop)]
#[cycle(notes)]
pub(crate) enum Note {
    /// Nothing is noted yet.
    Nothing,
    /// A store was handed this.
    Offered {
        before: Snapshot<Notes>,
        question: Snapshot<Question>,
        answer: Snapshot<Arc<Answer>>,
        moment: Moment,
    },
}

/// What stores were handed: a snapshot of the last note. It has no octets.
#[derive(Drop)]
#[cycle(notes)]
pub(crate) struct Notes {
    last: Snapshot<Note>,
}

impl Model for Notes {
    ghost use Rattle.std.specs.Prelude.{List, length};
    ghost use Rattle.answer_cache.specs.Seats.{Offer};

    ghost Value = { List Offer };

    ghost use Rattle.answer_cache.specs.Notes.{noted_with};

    ghost view = { λ it. noted_with it.last.value };

    // How many notes there are.
    ghost size = { λ it. length it };
}

impl Notes {
    /// None.
    pub(crate) fn none() -> Notes
        ensures { result ≡ [] }
    {
        Notes {
            last: Snapshot::of(&Note::Nothing),
        }
    }

    /// With one more that a store was handed.
    pub(crate) fn with(&self, question: &Question, answer: &Arc<Answer>, now: Moment) -> Notes
        ensures { result
            ≡ self.now ++ offer_of question.now (arc_value answer.now) now ∷ [] }
    {
        Notes {
            last: Snapshot::of(&Note::Offered {
                before: Snapshot::of(self),
                question: Snapshot::of(question),
                answer: Snapshot::of(answer),
                moment: now,
            }),
        }
    }
}
