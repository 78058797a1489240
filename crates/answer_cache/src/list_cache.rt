//! The book of one thread.
ghost use Rattle.std.specs.Prelude.{◌≡◌, ◌≢◌, ◌≤◌, ℕ, None, [], IfErr, IfNone, IfOk, IfSome, OnErr};
ghost use Rattle.std.specs.Prelude.{OnOk, length};
ghost use Rattle.std.specs.Arc.{arc_value};
ghost use Rattle.std.specs.Option.{option_map};
ghost use Rattle.dns_answers.specs.Records.{kind_of};
ghost use Rattle.dns_message.specs.declared.question.Question.{Question as Asked};
ghost use Rattle.answer_log.specs.Histories.{cached, in_group};
ghost use Rattle.dns_answers.specs.Found.{answer_in};
ghost use Rattle.answer_cache.specs.Carried.{carried_stores, living_of};
ghost use Rattle.answer_cache.specs.Lists.{IsGroupCount, IsListSeat, Refuses, Takes, offered_too};
ghost use Rattle.answer_cache.specs.Lists.{seat_at, stored_too};
ghost use Rattle.answer_cache.specs.Seats.{offer_of};

use crate::book::{AnswerBook, Stores};
use crate::notes::Notes;
use crate::refusal::StoreRefusal;
use crate::store_list::{StoreList, is_group_count};
use answer_log::LEAST_GROUPS;
use dns_answers::{Answer, FoundAnswer, Moment};
use dns_message::{Question, law_same_questions_are_equal};
use std::alloc::{AllocError, Global};
use std::marker::Model;
use std::sync::Arc;

/// A book of one thread: what was stored lies in its one seat.
#[derive(Debug, Drop)]
pub struct ListCache(());

/// The seat at a `ListCache`.
#[derive(Drop)]
pub struct ListSeat {
    stores: StoreList,
    notes: Notes,
}

impl Model for ListSeat {
    ghost use Rattle.answer_cache.specs.Lists.{seat_at};
    ghost use Rattle.answer_cache.specs.Seats.{SeatView};

    ghost Value = { SeatView };

    ghost view = { λ it. seat_at it.stores.groups it.stores.stores it.notes };
}

impl ListCache {
    /// A book in which nothing is stored, of so many groups, and its seat.
    fn empty(alloc: Global, groups: u32) -> (ListCache, ListSeat)
        requires { IsGroupCount groups }
        ensures seat { result.1 ≡ seat_at groups [] [] }
        ensures is { IsListSeat result.1 }
    {
        let seat = ListSeat {
            stores: StoreList::new(alloc, groups),
            notes: Notes::none(),
        };
        seat.is_seat();
        (ListCache(()), seat)
    }

    /// A book of 64 groups in which nothing is stored, and its seat. Takes no memory.
    #[must_use]
    pub fn new(alloc: Global) -> (ListCache, ListSeat)
        ensures seat { result.1 ≡ seat_at 64 [] [] }
        ensures is { IsListSeat result.1 }
    {
        ListCache::empty(alloc, LEAST_GROUPS)
    }

    /// A book of so many groups in which nothing is stored, and its seat: as `new`, for a book that
    /// is to have more than 8,192 answers. `None` where the number of groups is no power of two
    /// from 64 to 65,536. Takes no memory: the first store takes that for the groups, 24 octets for
    /// each.
    #[must_use]
    pub fn with_groups(alloc: Global, groups: u32) -> Option<(ListCache, ListSeat)>
        ensures seat { IfSome result (λ it. it.1 ≡ seat_at groups [] []) }
        ensures is { IfSome result (λ it. IsListSeat it.1) }
        ensures made { IfSome result (λ _. IsGroupCount groups) }
        ensures refused { IfNone result (IsGroupCount groups → ⊥) }
    {
        if !is_group_count(groups) {
            return None;
        }
        Some(ListCache::empty(alloc, groups))
    }

    /// The book that follows another one, of as many groups, and its seat, which was handed nothing
    /// yet. Its history is the last store of each question that lives at a moment, in the order of
    /// time, so from then on it answers as the other does.
    ///
    /// # Errors
    /// Where memory is refused. None is asked for where nothing lives.
    pub fn successor(
        alloc: Global,
        seat: &ListSeat,
        now: Moment,
    ) -> Result<(ListCache, ListSeat), AllocError>
        ensures seat { IfOk result (λ it. it.1
            ≡ seat_at seat.now.groups (carried_stores (living_of now seat.now.seen)) []) }
        ensures is { IfOk result (λ it. IsListSeat it.1) }
        ensures answers { IfOk result (λ it. (question : Asked) (later : ℕ) → now ≤ later
            → cached it.1.seen question later ≡ cached seat.now.seen question later) }
        ensures few { IfOk result (λ it. (group : ℕ)
            → length (in_group it.1.groups group it.1.seen)
            ≤ length (in_group it.1.groups group seat.now.seen)) }
        ensures wanted { OnErr result (living_of now seat.now.seen ≢ []) }
    {
        law_same_questions_are_equal();
        let next = ListSeat {
            stores: seat.stores.living(alloc, now)?,
            notes: Notes::none(),
        };
        next.is_seat();
        Ok((ListCache(()), next))
    }
}

impl ListSeat {
    /// Of how many groups the book is. Each has at most 128 stores. Takes no memory.
    #[must_use]
    pub fn groups(&self) -> u32
        ensures { result ≡ self.now.groups }
    {
        self.stores.groups()
    }

    /// How many stores the book has. Takes no memory.
    #[must_use]
    pub fn store_count(&self) -> usize
        ensures { result ≡ length self.now.seen }
    {
        self.stores.len()
    }

    /// What holds of each seat.
    fn is_seat(&self)
        ensures { IsListSeat self.now }
    {
        self.stores.is_history();
    }
}

impl AnswerBook for ListCache {
    type Seat = ListSeat;

    ghost use Rattle.answer_cache.specs.Lists.{IsListSeat};

    ghost belongs = { λ book seat. IsListSeat seat };

    ghost shown = { λ seat. seat };

    ghost holds = { λ book seat it. it.is };

    // The seat has the answers, and is not borrowed, so none is lent.
    fn look<'a>(
        &'a self,
        seat: &mut ListSeat,
        question: &Question,
        now: Moment,
    ) -> Result<Option<FoundAnswer<'a>>, AllocError>
        ensures leaves { seat.new ≡ seat.old }
        ensures found { IfOk result
            (λ found. option_map answer_in found ≡ cached seat.old.seen question.now now) }
        // Memory is wanted only where there is an answer to give.
        ensures wanted { OnErr result (cached seat.old.seen question.now now ≢ None) }
    {
        match self.lookup(seat, question, now)? {
            Some(answer) => Ok(Some(FoundAnswer::Owned(answer))),
            None => Ok(None),
        }
    }

    fn lookup(
        &self,
        seat: &mut ListSeat,
        question: &Question,
        now: Moment,
    ) -> Result<Option<Arc<Answer>>, AllocError>
        ensures leaves { seat.new ≡ seat.old }
        ensures found { IfOk result
            (λ found. option_map arc_value found ≡ cached seat.old.seen question.now now) }
        // Memory is wanted only where there is an answer to give.
        ensures wanted { OnErr result (cached seat.old.seen question.now now ≢ None) }
    {
        seat.stores.lookup(question, now)
    }
}

impl<R> Stores<R> for ListCache {
    fn store(
        &self,
        _rt: &R,
        seat: &mut ListSeat,
        question: &Question,
        answer: &Arc<Answer>,
        now: Moment,
    ) -> Result<(), StoreRefusal>
        requires kind { kind_of (arc_value answer.now).records ≡ question.now.kind }
        ensures is { IsListSeat seat.new }
        ensures stored { OnOk result
            (seat.new ≡ stored_too seat.old (offer_of question.now (arc_value answer.now) now)) }
        ensures takes { OnOk result
            (Takes seat.old.groups seat.old.seen
            (offer_of question.now (arc_value answer.now) now)) }
        ensures unchanged { OnErr result
            (seat.new ≡ offered_too seat.old (offer_of question.now (arc_value answer.now) now)) }
        ensures refused { IfErr result
            (Refuses seat.old.groups seat.old.seen
            (offer_of question.now (arc_value answer.now) now)) }
    {
        seat.notes = seat.notes.with(question, answer, now);
        let stored = seat.stores.add(question, answer, now);
        seat.is_seat();
        stored
    }
}
