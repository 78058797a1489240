//! What a cache hands on to the one that comes after it.
ghost use Rattle.std.specs.Prelude.{◌≡◌, ◌↔◌, ◌≤◌, ℕ, [], IfOk, IsTrue, List, None, length};
ghost use Rattle.std.specs.Prelude.{slice_get};
ghost use Rattle.std.specs.Arc.{arc_value};
ghost use Rattle.std.specs.Option.{option_map};
ghost use Rattle.dns_message.specs.declared.question.Question.{Question as Asked};
ghost use Rattle.answer_log.specs.Groups.{group_in};
ghost use Rattle.answer_log.specs.Histories.{cached};
ghost use Rattle.answer_log.specs.declared.store.Store.{Store};
ghost use Rattle.answer_cache.specs.Carried.{IsCarried, carried_stores, lives_at, offer_in};
ghost use Rattle.answer_cache.specs.Seats.{offer_of};

use dns_answers::{Answer, Moment};
use dns_message::{Question, law_same_questions_are_equal};
use std::alloc::AllocError;
use std::marker::Model;
use std::sync::Arc;

/// A store without its seat.
#[derive(Drop)]
pub(crate) struct Entry {
    pub question: Question,
    pub answer: Arc<Answer>,
    pub moment: Moment,
}

impl Entry {
    /// The same store.
    pub(crate) fn try_clone(&self) -> Result<Entry, AllocError>
        ensures { IfOk result (λ entry. offer_in entry ≡ offer_in self.now) }
    {
        Ok(Entry {
            question: self.question.try_clone()?,
            answer: Arc::try_clone(&self.answer)?,
            moment: self.moment,
        })
    }

    /// Whether its answer lives at a moment.
    pub(crate) fn lives_at(&self, now: Moment) -> bool
        ensures { result ≡ lives_at now (offer_in self.now) }
    {
        now.get() < self.moment.get() + u64::from(self.answer.life())
    }
}

/// What a cache hands on to the one that comes after it, which has as many groups: stores without
/// their seats. Each answer has a life above 0 and records of its question's kind, and no group has
/// more than 128 stores.
#[derive(Drop)]
pub struct Carried {
    pub(crate) groups: u32,
    pub(crate) entries: Vec<Entry>,
}

impl Model for Carried {
    ghost use Rattle.std.specs.Prelude.{◌≤◌};
    ghost use Rattle.answer_log.specs.Histories.{IsHistory};
    ghost use Rattle.answer_cache.specs.Carried.{CarriedView, carried_stores, carried_view, offers_in};

    ghost Value = { CarriedView };

    ghost view = { λ it. carried_view it.groups (offers_in it.entries.items) };

    ghost invariant = { λ it. (64 ≤ it.groups) × (it.groups ≤ 65536)
        × IsHistory it.groups (carried_stores (offers_in it.entries.items)) };
}

impl Carried {
    /// Of how many groups the cache is that hands it on, and so the one that comes after it.
    #[must_use]
    pub fn groups(&self) -> u32
        ensures { result ≡ self.now.groups }
    {
        self.groups
    }

    /// How many stores there are.
    #[must_use]
    pub fn len(&self) -> usize
        ensures { result ≡ length self.now.offers }
    {
        self.entries.len()
    }

    /// Whether there are no stores.
    #[must_use]
    pub fn is_empty(&self) -> bool
        ensures { IsTrue result ↔ (self.now.offers ≡ []) }
    {
        self.entries.is_empty()
    }

    /// The question, the answer and the moment of the store at this place, from 0.
    #[must_use]
    pub fn get(&self, place: usize) -> Option<(&Question, &Arc<Answer>, Moment)>
        ensures { option_map (λ it. offer_of it.0.now (arc_value it.1.now) it.2) result
            ≡ slice_get self.now.offers place }
    {
        let entry = self.entries.get(place)?;
        Some((&entry.question, &entry.answer, entry.moment))
    }
}

/// A law: at the moment of the carrying and at each later one, what was carried answers a question
/// as the history did at which its group was carried. What it doesn't answer it doesn't answer
/// later either.
pub fn law_carried_answers_as_before(carried: &Carried)
    ensures same { (before after : List Store) (now later : ℕ) → now ≤ later
        → (it : IsCarried before after now carried.now) → (question : Asked)
        → cached (carried_stores carried.now.offers) question later
        ≡ cached (it.history (group_in carried.now.groups question)) question later }
    ensures no_more { (now later : ℕ) → now ≤ later → (question : Asked)
        → cached (carried_stores carried.now.offers) question now ≡ None
        → cached (carried_stores carried.now.offers) question later ≡ None }
{
    let _ = &carried.entries;
    law_same_questions_are_equal();
}
