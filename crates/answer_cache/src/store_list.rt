//! Stores in the order of time, found by the groups of their questions.
ghost use Rattle.std.specs.Prelude.{◌≡◌, ◌≢◌, ◌↔◌, ◌+◌, ◌%◌, ◌<◌, ◌≤◌, ◌∷◌, ◌++◌, [], IfErr};
ghost use Rattle.std.specs.Prelude.{IfOk, IsTrue, List, OnErr, OnOk, None, drop, length, not};
ghost use Rattle.std.specs.Prelude.{slice_index_or};
ghost use Rattle.std.specs.List.{All};
ghost use Rattle.std.specs.Arc.{arc_value};
ghost use Rattle.std.specs.List.{last_or};
ghost use Rattle.std.specs.Option.{option_map};
ghost use Rattle.dns_answers.specs.Records.{kind_of};
ghost use Rattle.answer_log.specs.Groups.{group_limit, hash_of, hashed_of};
ghost use Rattle.answer_log.specs.Histories.{IsFull, IsHistory, IsSound, cached, in_group, mine};
ghost use Rattle.answer_log.specs.Histories.{stores_of};
ghost use Rattle.answer_log.specs.declared.store.Store.{Store};
ghost use Rattle.answer_cache.specs.Carried.{carried_stores, has_question, living_of};
ghost use Rattle.answer_cache.specs.Marks.{IsKept, IsLastPlace, store_in, stores_at};
ghost use Rattle.answer_cache.specs.Lists.{IsGroupCount, Refuses, Takes, own_store};
ghost use Rattle.answer_cache.specs.Seats.{offer_of};
ghost use Rattle.answer_cache.specs.declared.carried.Entry.{Entry as Kept};

use crate::carried::Entry;
use crate::refusal::StoreRefusal;
use answer_log::{GROUP_LIMIT, LEAST_GROUPS, MOST_GROUPS, hash};
use dns_answers::{Answer, Moment};
use dns_message::{Question, law_same_questions_are_equal};
use std::alloc::{AllocError, Global};
use std::marker::Model;
use std::sync::Arc;

/// What tells of an entry: the hash of its question, and its place.
#[derive(Clone, Copy)]
struct Mark {
    hash: u32,
    place: u32,
}

/// Whether a book can be of so many groups: a power of two from 64 to 65,536.
#[must_use]
pub fn is_group_count(groups: u32) -> bool
    ensures { IsTrue result ↔ IsGroupCount groups }
{
    (LEAST_GROUPS..=MOST_GROUPS).contains(&groups) && groups.is_power_of_two()
}

/// A list of marks for each group, all empty.
fn empty_lists(alloc: Global, groups: u32) -> Result<Vec<Vec<Mark>>, AllocError>
    ensures count { IfOk result (λ lists. length lists.items ≡ groups) }
    ensures empty { IfOk result (λ lists. All (λ list. list.items ≡ []) lists.items) }
{
    let mut lists = Vec::new(alloc);
    lists.reserve_exact(groups as usize)?;
    'groups: for _group in 0..groups {
        lists.push(Vec::new(alloc))?;
    }
    Ok(lists)
}

/// Makes a list of marks for each group, where there is none yet. What the marks keep they keep.
fn make_lists(marks: &mut Vec<Vec<Mark>>, groups: u32) -> Result<(), AllocError>
    ensures keeps { (entries : List Kept) → IsKept groups entries marks.old.items
        → IsKept groups entries marks.new.items }
    ensures made { OnOk result ((entries : List Kept) → IsKept groups entries marks.old.items
        → length marks.new.items ≡ groups) }
{
    if !marks.is_empty() {
        return Ok(());
    }
    *marks = empty_lists(*marks.allocator(), groups)?;
    Ok(())
}

/// Stores in the order of time, at most 128 of each group. Of each group the marks of its entries
/// lie side by side, so that a look-up reads few entries besides the one that it finds. There is no
/// list of marks before the first store.
#[derive(Drop)]
pub(crate) struct StoreList {
    groups: u32,
    entries: Vec<Entry>,
    marks: Vec<Vec<Mark>>,
}

impl Model for StoreList {
    ghost use Rattle.answer_cache.specs.Marks.{IsKept, StoresView, stores_at, stores_in};

    ghost Value = { StoresView };

    ghost view = { λ it. stores_at it.groups (stores_in it.entries.items) };

    ghost invariant = { λ it. IsKept it.groups it.entries.items it.marks.items };
}

impl StoreList {
    /// None, of so many groups. Takes no memory.
    pub(crate) fn new(alloc: Global, groups: u32) -> StoreList
        requires { IsGroupCount groups }
        ensures { result ≡ stores_at groups [] }
    {
        StoreList {
            groups,
            entries: Vec::new(alloc),
            marks: Vec::new(alloc),
        }
    }

    /// Of how many groups the list is.
    pub(crate) fn groups(&self) -> u32
        ensures { result ≡ self.now.groups }
    {
        self.groups
    }

    /// How many there are.
    pub(crate) fn len(&self) -> usize
        ensures { result ≡ length self.now.stores }
    {
        self.entries.len()
    }

    /// What holds of each list.
    pub(crate) fn is_history(&self)
        ensures history { IsHistory self.now.groups self.now.stores }
        ensures own { mine self.now.stores 0 ≡ self.now.stores }
    {
        let _ = &self.entries;
    }

    /// The group of the questions with a hash.
    fn group(&self, hash: u32) -> usize
        ensures { result ≡ hash % self.now.groups }
    {
        (hash & (self.groups - 1)) as usize
    }

    /// The place of the last store of a question. Hashes are compared before questions.
    fn last_place(&self, hash: u32, question: &Question) -> Option<usize>
        requires { hash ≡ hash_of (hashed_of question.now) }
        ensures { IsLastPlace question.now self.now.stores result }
    {
        law_same_questions_are_equal();
        let mut left = self.marks.get(self.group(hash))?.as_slice();
        while let [front @ .., last] = left {
            let place = last.place as usize;
            if last.hash == hash && self.entries[place].question == *question {
                return Some(place);
            }
            left = front;
        }
        None
    }

    /// The last store of a question.
    fn last_of(&self, question: &Question) -> Option<&Entry>
        ensures { last_or None (stores_of question.now self.now.stores)
            ≡ option_map (λ entry. store_in entry.now) result }
    {
        let place = self.last_place(hash(question), question)?;
        Some(&self.entries[place])
    }

    /// The answer of the last store of a question, while it lives.
    pub(crate) fn lookup(
        &self,
        question: &Question,
        now: Moment,
    ) -> Result<Option<Arc<Answer>>, AllocError>
        ensures found { IfOk result
            (λ found. option_map arc_value found ≡ cached self.now.stores question.now now) }
        ensures wanted { OnErr result (cached self.now.stores question.now now ≢ None) }
    {
        match self.last_of(question) {
            Some(entry) if entry.lives_at(now) => Ok(Some(Arc::try_clone(&entry.answer)?)),
            _ => Ok(None),
        }
    }

    /// Whether the store at a place, which is of this question, is the last one of it.
    fn is_last(&self, place: usize, hash: u32, question: &Question) -> bool
        requires hash { hash ≡ hash_of (hashed_of question.now) }
        requires place { place < length self.now.stores }
        requires its { (other : Store)
            → (slice_index_or self.now.stores place other).question ≡ question.now }
        ensures { has_question question.now (drop (place + 1) self.now.stores) ≡ not result }
    {
        law_same_questions_are_equal();
        match self.last_place(hash, question) {
            Some(last) => last == place,
            None => false,
        }
    }

    /// Whether the group of the questions with this hash is full.
    fn is_full(&self, hash: u32) -> bool
        ensures { IsTrue result ↔ (group_limit
            ≤ length (in_group self.now.groups (hash % self.now.groups) self.now.stores)) }
    {
        match self.marks.get(self.group(hash)) {
            Some(marks) => marks.len() >= GROUP_LIMIT,
            None => false,
        }
    }

    /// Adds a store behind the others. That its answer lives is looked at first, and then that
    /// there is room.
    pub(crate) fn add(
        &mut self,
        question: &Question,
        answer: &Arc<Answer>,
        now: Moment,
    ) -> Result<(), StoreRefusal>
        requires { kind_of (arc_value answer.now).records ≡ question.now.kind }
        ensures added { OnOk result (self.new ≡ stores_at self.old.groups (self.old.stores
            ++ own_store (offer_of question.now (arc_value answer.now) now) ∷ [])) }
        ensures taken { OnOk result (Takes self.old.groups self.old.stores
            (offer_of question.now (arc_value answer.now) now)) }
        ensures unchanged { OnErr result (self.new ≡ self.old) }
        ensures refused { IfErr result (Refuses self.old.groups self.old.stores
            (offer_of question.now (arc_value answer.now) now)) }
    {
        if answer.life() == 0 {
            return Err(StoreRefusal::Lifeless);
        }
        let hash = hash(question);
        if self.is_full(hash) {
            return Err(StoreRefusal::GenerationFull);
        }
        let entry = Entry {
            question: question.try_clone()?,
            answer: Arc::try_clone(answer)?,
            moment: now,
        };
        Ok(self.push(hash, entry)?)
    }

    /// Adds an entry behind the others, in whose group there is room.
    fn push(&mut self, hash: u32, entry: Entry) -> Result<(), AllocError>
        requires hash { hash ≡ hash_of (hashed_of entry.question) }
        requires sound { IsSound (store_in entry) }
        requires room { IsFull self.old.groups self.old.stores entry.question → ⊥ }
        ensures added { OnOk result
            (self.new ≡ stores_at self.old.groups (self.old.stores ++ store_in entry ∷ [])) }
        ensures unchanged { OnErr result (self.new ≡ self.old) }
    {
        let group = self.group(hash);
        make_lists(&mut self.marks, self.groups)?;
        let marks = &mut self.marks[group];
        marks.reserve(1)?;
        let place = self.entries.len() as u32;
        self.entries.push(entry)?;
        marks.push(Mark { hash, place })?;
        Ok(())
    }

    /// Adds the store at a place of another list, where it lives at a moment and is the last one of
    /// its question there. What lives of the stores in front of it was added before.
    fn add_living(&mut self, from: &StoreList, place: usize, now: Moment) -> Result<(), AllocError>
        requires groups { self.old.groups ≡ from.now.groups }
        requires place { place < length from.now.stores }
        requires before { carried_stores (living_of now from.now.stores) ≡ self.old.stores
            ++ carried_stores (living_of now (drop place from.now.stores)) }
        ensures groups { self.new.groups ≡ self.old.groups }
        ensures added { OnOk result (carried_stores (living_of now from.now.stores)
            ≡ self.new.stores
            ++ carried_stores (living_of now (drop (place + 1) from.now.stores))) }
        ensures wanted { OnErr result (living_of now from.now.stores ≢ []) }
    {
        let entry = &from.entries[place];
        if !entry.lives_at(now) {
            return Ok(());
        }
        let hash = hash(&entry.question);
        if !from.is_last(place, hash, &entry.question) {
            return Ok(());
        }
        self.push(hash, entry.try_clone()?)
    }

    /// A list of the last stores of their questions that live at a moment, in their order. It is of
    /// as many groups.
    pub(crate) fn living(&self, alloc: Global, now: Moment) -> Result<StoreList, AllocError>
        ensures living { IfOk result (λ list. list
            ≡ stores_at self.now.groups (carried_stores (living_of now self.now.stores))) }
        ensures wanted { OnErr result (living_of now self.now.stores ≢ []) }
    {
        let mut living = StoreList::new(alloc, self.groups);
        'places: for place in 0..self.entries.len() {
            living.add_living(self, place, now)?;
        }
        Ok(living)
    }
}
