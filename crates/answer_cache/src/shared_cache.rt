//! The cache that threads share.
ghost use Rattle.std.specs.Prelude.{◌≡◌, ℕ, ◌+◌, ◌*◌, ◌<◌, ◌≤◌, ◌^◌, ◌++◌, ◌∷◌, [], List, Option};
ghost use Rattle.std.specs.Prelude.{IfErr, IfOk, IfNone, IfSome, IsTrue, None, MatchBool};
ghost use Rattle.std.specs.Prelude.{MatchResult, OnOk, OnErr, ◌↔◌, length, map};
ghost use mathlib.Core.List.{IsPrefix};
ghost use Rattle.boxcar.specs.Table.{Shows};
ghost use Rattle.logbook.specs.Pages.{may_write};
ghost use Rattle.std.specs.Arc.{arc_value};
ghost use Rattle.std.specs.List.{All, range_with_len};
ghost use Rattle.std.specs.Option.{option_map};
ghost use Rattle.answer_log.specs.Groups.{group_in, group_limit, hash_of, hashed_of};
ghost use Rattle.answer_log.specs.Handles.{AreHandles, EndsWith, IsHandle, IsSame, SeesMore, spent_of};
ghost use Rattle.answer_log.specs.Spending.{one_try};
ghost use Rattle.answer_log.specs.Histories.{IsFull, IsSound, cached, in_group};
ghost use Rattle.answer_log.specs.Logs.{groups_in, history, top};
ghost use Rattle.answer_log.specs.Rules.{node_at};
ghost use Rattle.answer_log.specs.Steps.{HadRoom, store_by};
ghost use Rattle.answer_log.specs.declared.store.Store.{Store};
ghost use Rattle.dns_answers.specs.Records.{kind_of};
ghost use Rattle.dns_answers.specs.Found.{IsBorrowed, answer_in};
ghost use Rattle.answer_cache.specs.Indexes.{AreIndexes, IsIndex, TellsAll};
ghost use Rattle.answer_cache.specs.Nodes.{Costs, Holds, IsLastOf, IsNode, IsReady, LeavesPlaces};
ghost use Rattle.answer_cache.specs.Nodes.{Meets, Says};
ghost use Rattle.answer_cache.specs.Nodes.{WhyLost, WhyNoRoom, WhyNotPut, numbers_of, store_in};
ghost use Rattle.answer_cache.specs.Seats.{GoesOn, GroupHas, IsRefused, IsStored, Offer};
ghost use Rattle.answer_cache.specs.Seats.{StoresNothing, offer_of};
ghost use Rattle.answer_cache.specs.Shared.{Belongs, Leaves, Takes, Refuses, RefusesGroups};
ghost use Rattle.answer_cache.specs.Shared.{WantsForAnswer};
ghost use Rattle.answer_cache.specs.Lists.{IsGroupCount};
ghost use Rattle.answer_cache.specs.Shared.{cache_view, new_seat, view_of};
ghost use Rattle.answer_log.specs.Cursors.{Ahead};
ghost use Rattle.answer_log.specs.declared.event.Event.{Event as Noticed};

use crate::book::{AnswerBook, Stores};
use crate::index::{Index, IndexEntry};
use crate::kept::kept;
use crate::node::{ByBook, Hashed, Node, Shelf, ShelfRefusal, Shelved};
use crate::notes::Notes;
use crate::refusal::{CacheRefusal, StoreRefusal};
use crate::rival::{NoRival, Rival};
use crate::seat::{Notice, Seat};
use crate::store_list::is_group_count;
use answer_log::{
    ClaimedNode, Cursor, GROUP_LIMIT, Handle, Handles, LEAST_GROUPS, Log, MOST_SEATS, NewStore,
    Pen, SeenLog, group_among, hash, law_log_keeps_its_rule, law_placed_is_named, seat_and_place,
};
use boxcar::Pushed;
use boxcar::tag::Tag;
use dns_answers::{Answer, FoundAnswer, Moment};
use dns_message::{Question, law_same_questions_are_equal};
use std::alloc::{AllocError, Global};
use std::marker::Model;
use std::sync::{Arc, Wait};

/// How many times a store is tried.
const TRIES: u8 = 16;

/// How many places a shelf has.
const MOST_PLACES: u64 = 1 << 32;

/// A book of answers that up to 64 seats share without a lock, each in a thread of its own.
#[derive(Drop)]
pub struct SharedCache {
    pub(crate) log: Log,
    pub(crate) shelves: Vec<Shelf>,
}

impl Model for SharedCache {
    ghost use Rattle.std.specs.Prelude.{◌≡◌, length};
    ghost use Rattle.std.specs.List.{All};
    ghost use Rattle.answer_cache.specs.Nodes.{numbers_of};
    ghost use Rattle.answer_cache.specs.Shared.{CacheView, cache_coded, cache_view};

    ghost Value = { CacheView };

    ghost coded = { cache_coded };

    ghost view = { λ it. cache_view it.log.book (length it.shelves.items) it.log.groups };

    ghost invariant = { λ it. All (λ shelf. shelf.tag ≡ numbers_of it.log.book) it.shelves.items };
}

/// What is to be stored.
#[derive(Clone, Copy)]
pub(crate) struct Wanted<'a> {
    pub question: &'a Question,
    pub hash: u32,
    pub answer: &'a Arc<Answer>,
    pub moment: Moment,
}

/// An empty shelf for each seat.
pub(crate) fn empty_shelves(
    alloc: Global,
    seats: usize,
    seen: &SeenLog,
) -> Result<Vec<Shelf>, AllocError>
    ensures tagged { IfOk result
        (λ shelves. All (λ shelf. shelf.tag ≡ numbers_of seen.now.book) shelves.items) }
    ensures count { IfOk result (λ shelves. length shelves.items ≡ seats) }
{
    let mut shelves = Vec::new(alloc);
    'shelves: for _seat in 0..seats {
        shelves.push(Shelf::with_rule(alloc, Tag::of::<SeenLog, ByBook>(seen))?)?;
    }
    Ok(shelves)
}

/// The seats of a new log.
fn new_seats(alloc: Global, seats: usize, handles: &mut Handles) -> Result<Vec<Seat>, AllocError>
    requires handles { AreHandles handles.old }
    requires first { (handles.old.next ≡ 0) × (handles.old.seats ≡ seats) }
    ensures { IfOk result (λ made. made.items
        ≡ map (new_seat (cache_view handles.old.seen.book seats handles.old.groups))
        (range_with_len 0 seats)) }
{
    let mut made = Vec::new(alloc);
    'seats: for _seat in 0..seats {
        made.push(Seat {
            handle: handles.deal(),
            notes: Notes::none(),
            indexes: Vec::new(alloc),
        })?;
    }
    Ok(made)
}

impl SharedCache {
    /// A cache of 64 groups in which nothing is stored, and its seats, numbered from 0.
    ///
    /// # Errors
    /// `BadCount` outside 1 to 64 seats, and then `Memory`.
    pub fn new(alloc: Global, seats: usize) -> Result<(SharedCache, Vec<Seat>), CacheRefusal>
        ensures count { IfOk result (λ made. (0 < seats) × (seats ≤ 64) × (made.0.seats ≡ seats)) }
        ensures groups { IfOk result (λ made. made.0.groups ≡ 64) }
        ensures seats { IfOk result
            (λ made. made.1.items ≡ map (new_seat made.0) (range_with_len 0 seats)) }
        ensures belong { IfOk result (λ made. All (Belongs made.0) made.1.items) }
        ensures refused { IfErr result (Refuses seats) }
    {
        SharedCache::with_groups(alloc, seats, LEAST_GROUPS)
    }

    /// A cache of so many groups in which nothing is stored, and its seats, numbered from 0. Each
    /// group has a head, of 8 octets. A seat takes memory for its groups when it first looks up a
    /// question, about 24 octets for each.
    ///
    /// # Errors
    /// `BadCount` outside 1 to 64 seats, and where the number of groups is no power of two from 64
    /// to 65,536; and then `Memory`.
    pub fn with_groups(
        alloc: Global,
        seats: usize,
        groups: u32,
    ) -> Result<(SharedCache, Vec<Seat>), CacheRefusal>
        ensures count { IfOk result (λ made. (0 < seats) × (seats ≤ 64) × (made.0.seats ≡ seats)) }
        ensures groups { IfOk result (λ made. IsGroupCount groups × (made.0.groups ≡ groups)) }
        ensures seats { IfOk result
            (λ made. made.1.items ≡ map (new_seat made.0) (range_with_len 0 seats)) }
        ensures belong { IfOk result (λ made. All (Belongs made.0) made.1.items) }
        ensures refused { IfErr result (RefusesGroups seats groups) }
    {
        if seats == 0 || seats as u64 > MOST_SEATS || !is_group_count(groups) {
            return Err(CacheRefusal::BadCount);
        }
        let Ok((log, mut handles)) = Log::open(alloc, seats as u64, groups) else {
            return Err(CacheRefusal::Memory);
        };
        let Ok(shelves) = empty_shelves(alloc, seats, &handles.seen) else {
            return Err(CacheRefusal::Memory);
        };
        let Ok(made) = new_seats(alloc, seats, &mut handles) else {
            return Err(CacheRefusal::Memory);
        };
        Ok((SharedCache { log, shelves }, made))
    }

    /// The node of a number.
    fn node(&self, number: u64) -> Option<&Node>
        ensures { IfSome result (λ node. (node.now.node ≡ number) × IsNode self.now.book node.now) }
    {
        let (seat, place) = seat_and_place(number)?;
        let shelf = self.shelves.get(seat as usize)?;
        let node = shelf.get(place as usize)?;
        if node.node == number {
            Some(node)
        } else {
            None
        }
    }

    /// The next node of a cursor: one load of its link.
    pub(crate) fn step(
        &self,
        cursor: &mut Cursor,
        handle: &mut Handle,
    ) -> Result<Option<&Node>, AllocError>
        requires books { (cursor.old.seen.book ≡ self.now.book)
            × (handle.old.book.book ≡ self.now.book) }
        requires handle { IsHandle handle.old }
        requires ahead { (left : List Store) × Ahead cursor.old left }
        ensures same { IsSame handle.old handle.new }
        ensures book { cursor.new.seen.book ≡ self.now.book }
        ensures later { IsPrefix cursor.old.seen.log cursor.new.seen.log }
        ensures number { IfOk result
            (λ found. IfSome found (λ node. node.now.node ≡ cursor.old.next)) }
        ensures met { IfOk result (λ found. (left : List Store) → Ahead cursor.old left
            → Meets self.now.book cursor.new left (option_map (λ node. node.now) found)) }
        ensures tagged { IfOk result
            (λ found. IfSome found (λ node. node.now.tag ≡ hash_of (hashed_of node.now.question))) }
        ensures costs { Costs (spent_of handle.old) (spent_of handle.new) 1 0 }
        ensures missed { IfErr result
            (λ _. (spent_of handle.old).missed < (spent_of handle.new).missed) }
    {
        let Some(next) = cursor.next() else {
            return Ok(None);
        };
        let Some(node) = self.node(next) else {
            handle.miss();
            return Err(AllocError);
        };
        cursor.pass(handle, &node.link, &node.seen);
        Ok(Some(node))
    }

    /// The node of the last store of a question among those that an index tells.
    #[inline(always)]
    fn last_in(
        &self,
        index: &Index,
        handle: &mut Handle,
        asked: &Hashed<'_>,
    ) -> Result<Option<&Node>, AllocError>
        requires hash { asked.now.hash ≡ hash_of (hashed_of asked.now.question.now) }
        requires book { index.now.seen.book ≡ self.now.book }
        requires handle { IsHandle handle.old }
        ensures same { IsSame handle.old handle.new }
        ensures last { IfOk result (λ found. (stores : List Store)
            → TellsAll index.now.seen.log index.now.entries.items stores
            → IsLastOf asked.now.question.now stores (option_map (λ node. node.now) found)) }
        ensures costs { Costs (spent_of handle.old) (spent_of handle.new) 0 0 }
        ensures missed { IfErr result
            (λ _. (spent_of handle.old).missed < (spent_of handle.new).missed) }
    {
        law_same_questions_are_equal();
        let mut left = index.entries.as_slice();
        while let [front @ .., last] = left {
            if last.hash == asked.hash {
                let Some(node) = self.node(last.node) else {
                    handle.miss();
                    return Err(AllocError);
                };
                law_placed_is_named(&index.seen, &node.seen);
                if node.question == *asked.question {
                    return Ok(Some(node));
                }
            }
            left = front;
        }
        Ok(None)
    }

    /// The node of the last store of a question among those ahead of a cursor. The cursor goes to
    /// what the index tells, and the nodes on its way are added to the index, as far as there is
    /// memory.
    fn last_ahead(
        &self,
        cursor: &mut Cursor,
        handle: &mut Handle,
        index: &mut Index,
        asked: &Hashed<'_>,
        links: usize,
    ) -> Result<Option<&Node>, AllocError>
        requires hash { asked.now.hash ≡ hash_of (hashed_of asked.now.question.now) }
        requires books { (cursor.old.seen.book ≡ self.now.book)
            × (handle.old.book.book ≡ self.now.book) }
        requires groups { (groups_in cursor.old.seen.log ≡ self.now.groups)
            × (0 < self.now.groups) }
        requires handle { IsHandle handle.old }
        requires index { IsIndex self.now.groups self.now.book index.old }
        requires behind { IsPrefix index.old.seen.log cursor.old.seen.log }
        requires ahead { (left : List Store) × Ahead cursor.old left × (length left ≤ links) }
        ensures same { IsSame handle.old handle.new }
        ensures book { cursor.new.seen.book ≡ self.now.book }
        ensures later { IsPrefix cursor.old.seen.log cursor.new.seen.log }
        ensures index { IsIndex self.now.groups self.now.book index.new }
        ensures behind { IsPrefix index.new.seen.log cursor.new.seen.log }
        ensures last { IfOk result (λ found. (left : List Store) → Ahead cursor.old left
            → IsLastOf asked.now.question.now left (option_map (λ node. node.now) found)) }
        ensures costs { Costs (spent_of handle.old) (spent_of handle.new) links 0 }
        ensures missed { IfErr result
            (λ _. (spent_of handle.old).missed < (spent_of handle.new).missed) }
    {
        law_log_keeps_its_rule(&cursor.seen);
        if cursor.next == index.top() {
            return self.last_in(index, handle, asked);
        }
        let Some(links) = links.checked_sub(1) else {
            return Ok(None);
        };
        let Some(node) = self.step(cursor, handle)? else {
            return Ok(None);
        };
        let before = cursor.next;
        let older = self.last_ahead(cursor, handle, index, asked, links)?;
        let last = if node.is_of(asked.hash, asked.question) {
            Some(node)
        } else {
            older
        };
        law_log_keeps_its_rule(&cursor.seen);
        if index.top() == before {
            index.seen = cursor.seen.again();
            let _ = index.entries.push(IndexEntry {
                hash: node.tag,
                node: node.node,
            });
        }
        Ok(last)
    }

    /// What `last_ahead` finds. Where the index tells all that is ahead, no step is taken.
    #[inline(always)]
    fn last_told(
        &self,
        cursor: &mut Cursor,
        handle: &mut Handle,
        index: &mut Index,
        asked: &Hashed<'_>,
        links: usize,
    ) -> Result<Option<&Node>, AllocError>
        requires hash { asked.now.hash ≡ hash_of (hashed_of asked.now.question.now) }
        requires books { (cursor.old.seen.book ≡ self.now.book)
            × (handle.old.book.book ≡ self.now.book) }
        requires groups { (groups_in cursor.old.seen.log ≡ self.now.groups)
            × (0 < self.now.groups) }
        requires handle { IsHandle handle.old }
        requires index { IsIndex self.now.groups self.now.book index.old }
        requires behind { IsPrefix index.old.seen.log cursor.old.seen.log }
        requires ahead { (left : List Store) × Ahead cursor.old left × (length left ≤ links) }
        ensures same { IsSame handle.old handle.new }
        ensures book { cursor.new.seen.book ≡ self.now.book }
        ensures later { IsPrefix cursor.old.seen.log cursor.new.seen.log }
        ensures index { IsIndex self.now.groups self.now.book index.new }
        ensures behind { IsPrefix index.new.seen.log cursor.new.seen.log }
        ensures last { IfOk result (λ found. (left : List Store) → Ahead cursor.old left
            → IsLastOf asked.now.question.now left (option_map (λ node. node.now) found)) }
        ensures costs { Costs (spent_of handle.old) (spent_of handle.new) links 0 }
        ensures missed { IfErr result
            (λ _. (spent_of handle.old).missed < (spent_of handle.new).missed) }
    {
        law_log_keeps_its_rule(&cursor.seen);
        if cursor.next == index.top() {
            return self.last_in(index, handle, asked);
        }
        self.last_ahead(cursor, handle, index, asked, links)
    }

    /// The node of the last store of a question, as the seat sees the history now: one load of the
    /// head of its group, and of the link of each node that the index does not tell.
    #[inline(always)]
    fn last_by(
        &self,
        handle: &mut Handle,
        index: &mut Index,
        asked: &Hashed<'_>,
        group: u32,
    ) -> Result<Option<&Node>, AllocError>
        requires group { group ≡ group_in self.now.groups asked.now.question.now }
        requires hash { asked.now.hash ≡ hash_of (hashed_of asked.now.question.now) }
        requires book { (handle.old.book.book ≡ self.now.book)
            × (handle.old.groups ≡ self.now.groups) }
        requires handle { IsHandle handle.old }
        requires index { IsIndex self.now.groups self.now.book index.old }
        ensures holds { Holds self.now.book handle.old handle.new }
        ensures seen { SeesMore handle.old.number handle.old.book.log handle.new.book.log }
        ensures node_count { handle.new.node_count ≡ handle.old.node_count }
        ensures index { IsIndex self.now.groups self.now.book index.new }
        ensures last { IfOk result
            (λ found. IsLastOf asked.now.question.now (history handle.new.book.log)
            (option_map (λ node. node.now) found)) }
        ensures costs { Costs (spent_of handle.old) (spent_of handle.new) group_limit 0 }
        ensures missed { IfErr result
            (λ _. (spent_of handle.old).missed < (spent_of handle.new).missed) }
    {
        law_same_questions_are_equal();
        let mut cursor = self.log.cursor_after(handle, &index.seen, group);
        law_log_keeps_its_rule(&handle.book);
        self.last_told(&mut cursor, handle, index, asked, GROUP_LIMIT)
    }

    /// The node of the last store of a question, as the seat sees the history now. The seat passes
    /// each node once, unless memory was refused for what it remembers.
    #[inline(always)]
    fn last_of(
        &self,
        handle: &mut Handle,
        indexes: &mut Vec<Index>,
        asked: &Hashed<'_>,
    ) -> Result<Option<&Node>, AllocError>
        requires hash { asked.now.hash ≡ hash_of (hashed_of asked.now.question.now) }
        requires book { (handle.old.book.book ≡ self.now.book)
            × (handle.old.groups ≡ self.now.groups) }
        requires handle { IsHandle handle.old }
        requires indexes { AreIndexes self.now.groups self.now.book indexes.old.items }
        ensures holds { Holds self.now.book handle.old handle.new }
        ensures seen { SeesMore handle.old.number handle.old.book.log handle.new.book.log }
        ensures node_count { handle.new.node_count ≡ handle.old.node_count }
        ensures indexes { AreIndexes self.now.groups self.now.book indexes.new.items }
        ensures last { IfOk result
            (λ found. IsLastOf asked.now.question.now (history handle.new.book.log)
            (option_map (λ node. node.now) found)) }
        ensures costs { Costs (spent_of handle.old) (spent_of handle.new) group_limit 0 }
        ensures missed { IfErr result
            (λ _. (spent_of handle.old).missed < (spent_of handle.new).missed) }
    {
        let group = group_among(asked.hash, handle.groups);
        Index::make_ones(indexes, handle.groups, &handle.book);
        if group as usize >= indexes.len() {
            let mut index = Index::empty(*indexes.allocator(), &handle.book);
            return self.last_by(handle, &mut index, asked, group);
        }
        let index = &mut indexes[group as usize];
        self.last_by(handle, index, asked, group)
    }

    /// Whether so many stores at least are ahead of a cursor.
    fn has_ahead(
        &self,
        cursor: &mut Cursor,
        handle: &mut Handle,
        stores: usize,
    ) -> Result<bool, AllocError>
        requires books { (cursor.old.seen.book ≡ self.now.book)
            × (handle.old.book.book ≡ self.now.book) }
        requires handle { IsHandle handle.old }
        requires ahead { (left : List Store) × Ahead cursor.old left }
        ensures same { IsSame handle.old handle.new }
        ensures has { IfOk result (λ has. (left : List Store) → Ahead cursor.old left
            → IsTrue has ↔ (stores ≤ length left)) }
        ensures costs { Costs (spent_of handle.old) (spent_of handle.new) stores 0 }
        ensures missed { IfErr result
            (λ _. (spent_of handle.old).missed < (spent_of handle.new).missed) }
    {
        'stores: for _store in 0..stores {
            let Some(_node) = self.step(cursor, handle)? else {
                return Ok(false);
            };
        }
        Ok(true)
    }

    /// The start of a try: the node of the question's group placed last, where the group is not
    /// full.
    fn room(&self, handle: &mut Handle, asked: &Hashed<'_>) -> Result<u64, StoreRefusal>
        requires hash { asked.now.hash ≡ hash_of (hashed_of asked.now.question.now) }
        requires handle { IsHandle handle.old }
        requires book { (handle.old.book.book ≡ self.now.book)
            × (handle.old.groups ≡ self.now.groups) }
        ensures holds { Holds self.now.book handle.old handle.new }
        ensures seen { SeesMore handle.old.number handle.old.book.log handle.new.book.log }
        ensures node_count { handle.new.node_count ≡ handle.old.node_count }
        ensures costs { Costs (spent_of handle.old) (spent_of handle.new) group_limit 0 }
        ensures room { IfOk result
            (λ old. (old ≡ top self.now.groups (group_in self.now.groups asked.now.question.now)
            handle.new.book.log)
            × (IsFull self.now.groups (history handle.new.book.log) asked.now.question.now → ⊥)) }
        ensures full { IfErr result (WhyNoRoom self.now.groups asked.now.question.now
            (history handle.new.book.log) (spent_of handle.old) (spent_of handle.new)) }
    {
        let group = group_among(asked.hash, handle.groups);
        let mut cursor = self.log.cursor(handle, group);
        let old = cursor.next;
        if self.has_ahead(&mut cursor, handle, GROUP_LIMIT)? {
            return Err(StoreRefusal::GenerationFull);
        }
        Ok(old)
    }

    /// Whether the group of a question has so many stores at least.
    fn has_stores(
        &self,
        handle: &mut Handle,
        asked: &Hashed<'_>,
        stores: usize,
    ) -> Result<bool, AllocError>
        requires hash { asked.now.hash ≡ hash_of (hashed_of asked.now.question.now) }
        requires handle { IsHandle handle.old }
        requires book { (handle.old.book.book ≡ self.now.book)
            × (handle.old.groups ≡ self.now.groups) }
        ensures holds { Holds self.now.book handle.old handle.new }
        ensures seen { SeesMore handle.old.number handle.old.book.log handle.new.book.log }
        ensures node_count { handle.new.node_count ≡ handle.old.node_count }
        ensures costs { Costs (spent_of handle.old) (spent_of handle.new) stores 0 }
        ensures has { IfOk result (λ has. IsTrue has ↔ (stores ≤ length
            (in_group self.now.groups (group_in self.now.groups asked.now.question.now)
            (history handle.new.book.log)))) }
        ensures missed { IfErr result
            (λ _. (spent_of handle.old).missed < (spent_of handle.new).missed) }
    {
        let number = group_among(asked.hash, handle.groups);
        let mut cursor = self.log.cursor(handle, number);
        self.has_ahead(&mut cursor, handle, stores)
    }

    /// Names a node of this place, and puts it on the shelf, wherever it lands there. All memory
    /// that it needs is there before it is named.
    fn shelve<R: Wait>(
        &self,
        rt: &R,
        shelf: &Shelf,
        handle: &mut Handle,
        place: u64,
        wanted: &Wanted<'_>,
    ) -> Result<(Pushed<Node, Global, Shelved>, Pen), ShelfRefusal>
        requires handle { IsHandle handle.old }
        requires book { (handle.old.book.book ≡ self.now.book)
            × (handle.old.groups ≡ self.now.groups) }
        requires shelf { shelf.now.tag ≡ numbers_of self.now.book }
        requires place { handle.old.node_count ≤ place }
        requires hash { wanted.now.hash ≡ hash_of (hashed_of wanted.now.question.now) }
        ensures holds { Holds self.now.book handle.old handle.new }
        ensures seen { SeesMore handle.old.number handle.old.book.log handle.new.book.log }
        ensures spent { spent_of handle.new ≡ spent_of handle.old }
        ensures leaves { IfErr result (LeavesPlaces handle.old handle.new) }
        ensures shown { IfOk result (λ ready. Shows shelf.now ready.0) }
        ensures ready { IfOk result (λ ready. (ready.1.book ≡ self.now.book)
            × IsReady self.now.groups self.now.book handle.new.book.log
            handle.old.number ready.0.value ready.1.nib) }
        ensures numbered { IfOk result
            (λ ready. ready.0.value.node ≡ node_at handle.old.number place) }
        ensures made { IfOk result
            (λ ready. Says ready.0.value wanted.now.question.now
            (arc_value wanted.now.answer.now) wanted.now.moment) }
    {
        if place >= MOST_PLACES {
            return Err(ShelfRefusal::Unnamed);
        }
        let question = wanted.question.try_clone()?;
        let answer = Arc::try_clone(wanted.answer)?;
        shelf.reserve(1)?;
        let ClaimedNode { node, link, pen } = self.log.claim(
            handle,
            place,
            wanted.question,
            wanted.answer,
            wanted.moment,
        );
        let node = Node {
            node,
            tag: wanted.hash,
            link,
            question,
            answer,
            moment: wanted.moment,
            seen: handle.book.again(),
        };
        match shelf.push_shown(rt, node) {
            Ok(pushed) => Ok((pushed, pen)),
            Err(_) => Err(ShelfRefusal::Untaken),
        }
    }

    /// A node on the shelf at the place that its number says. Where it lands elsewhere it is given
    /// up, and one more is tried, at the place after that.
    fn make_ready<R: Wait>(
        &self,
        rt: &R,
        shelf: &Shelf,
        handle: &mut Handle,
        wanted: &Wanted<'_>,
    ) -> Result<(Pushed<Node, Global, Shelved>, Pen), ShelfRefusal>
        requires handle { IsHandle handle.old }
        requires book { (handle.old.book.book ≡ self.now.book)
            × (handle.old.groups ≡ self.now.groups) }
        requires shelf { shelf.now.tag ≡ numbers_of self.now.book }
        requires hash { wanted.now.hash ≡ hash_of (hashed_of wanted.now.question.now) }
        ensures holds { Holds self.now.book handle.old handle.new }
        ensures seen { SeesMore handle.old.number handle.old.book.log handle.new.book.log }
        ensures spent { spent_of handle.new ≡ spent_of handle.old }
        ensures leaves { IfErr result (LeavesPlaces handle.old handle.new) }
        ensures shown { IfOk result (λ ready. Shows shelf.now ready.0) }
        ensures ready { IfOk result (λ ready. (ready.1.book ≡ self.now.book)
            × IsReady self.now.groups self.now.book handle.new.book.log
            handle.old.number ready.0.value ready.1.nib) }
        ensures numbered { IfOk result
            (λ ready. ready.0.value.node ≡ node_at handle.old.number ready.0.index) }
        ensures made { IfOk result
            (λ ready. Says ready.0.value wanted.now.question.now
            (arc_value wanted.now.answer.now) wanted.now.moment) }
    {
        let place = handle.node_count;
        let (pushed, pen) = self.shelve(rt, shelf, handle, place, wanted)?;
        let landed = pushed.index() as u64;
        if landed == place {
            return Ok((pushed, pen));
        }
        let place = handle.node_count.max(landed.saturating_add(1));
        match self.shelve(rt, shelf, handle, place, wanted) {
            Ok((pushed, pen)) if pushed.index() as u64 == place => Ok((pushed, pen)),
            _ => Err(ShelfRefusal::Untaken),
        }
    }

    /// One try to place a node before the node `old`.
    fn attempt<V: Rival>(
        &self,
        handle: &mut Handle,
        node: &Node,
        pen: &mut Pen,
        old: u64,
        number: u8,
        rival: &mut V,
    ) -> bool
        requires handle { IsHandle handle.old }
        requires book { (handle.old.book.book ≡ self.now.book) × (pen.old.book ≡ self.now.book) }
        requires groups { handle.old.groups ≡ self.now.groups }
        requires ready { IsReady self.now.groups self.now.book handle.old.book.log
            handle.old.number node.now pen.old.nib }
        requires sound { IsSound (store_in handle.old.number node.now) }
        requires tagged { node.now.tag ≡ hash_of (hashed_of node.now.question) }
        requires room { HadRoom self.now.groups handle.old.book.log old
            node.now.question }
        ensures holds { Holds self.now.book handle.old handle.new }
        ensures spent { spent_of handle.new ≡ one_try (spent_of handle.old) }
        ensures node_count { handle.new.node_count ≡ handle.old.node_count }
        ensures placed { MatchBool result
            (EndsWith (store_in handle.old.number node.now) (history handle.old.book.log)
            (history handle.new.book.log))
            (SeesMore handle.old.number handle.old.book.log handle.new.book.log) }
        ensures lost { MatchBool result (Unit {0})
            ((seen : List Noticed) → IsPrefix seen handle.old.book.log
            → top self.now.groups (group_in self.now.groups node.now.question) seen ≡ old
            → length (history seen) < length (history handle.new.book.log)) }
        ensures again { MatchBool result (Unit {0})
            ((pen.new.book ≡ self.now.book)
            × IsReady self.now.groups self.now.book handle.new.book.log
            handle.old.number node.now pen.new.nib) }
    {
        rival.between(number);
        node.link.store(pen, old);
        let new_store = NewStore {
            node: node.node,
            seat: handle.number,
            question: &node.question,
            answer: &node.answer,
            moment: node.moment,
        };
        let group = group_among(node.tag, handle.groups);
        self.log
            .place(handle, pen, old, &new_store, group, &node.link)
    }

    /// Up to sixteen tries to place a node. The first one knows the node of its group placed last.
    fn compete<V: Rival>(
        &self,
        handle: &mut Handle,
        node: &Node,
        mut pen: Pen,
        old: u64,
        rival: &mut V,
    ) -> Result<(), StoreRefusal>
        requires handle { IsHandle handle.old }
        requires book { (handle.old.book.book ≡ self.now.book) × (pen.book ≡ self.now.book) }
        requires groups { handle.old.groups ≡ self.now.groups }
        requires ready { IsReady self.now.groups self.now.book handle.old.book.log
            handle.old.number node.now pen.nib }
        requires sound { IsSound (store_in handle.old.number node.now) }
        requires tagged { node.now.tag ≡ hash_of (hashed_of node.now.question) }
        requires room { HadRoom self.now.groups handle.old.book.log old
            node.now.question }
        ensures holds { Holds self.now.book handle.old handle.new }
        ensures costs { Costs (spent_of handle.old) (spent_of handle.new) (15 * group_limit) 16 }
        ensures tried { (spent_of handle.old).tries < (spent_of handle.new).tries }
        ensures competed { MatchResult result
            (λ _. EndsWith (store_in handle.old.number node.now) (history handle.old.book.log)
            (history handle.new.book.log))
            (λ _. SeesMore handle.old.number handle.old.book.log handle.new.book.log) }
        ensures lost { IfErr result (λ refusal. (seen : List Noticed)
            → IsPrefix seen handle.old.book.log
            → top self.now.groups (group_in self.now.groups node.now.question) seen ≡ old
            → WhyLost self.now.groups node.now.question (history seen) (history handle.new.book.log)
            (spent_of handle.old) (spent_of handle.new) refusal) }
    {
        if self.attempt(handle, node, &mut pen, old, 1, rival) {
            return Ok(());
        }
        let asked = Hashed {
            question: &node.question,
            hash: node.tag,
        };
        'tries: for number in 2..TRIES + 1 {
            let old = self.room(handle, &asked)?;
            if self.attempt(handle, node, &mut pen, old, number, rival) {
                return Ok(());
            }
        }
        Err(StoreRefusal::Contended)
    }

    /// Stores what lives.
    pub(crate) fn put<R: Wait, V: Rival>(
        &self,
        rt: &R,
        handle: &mut Handle,
        wanted: &Wanted<'_>,
        rival: &mut V,
    ) -> Result<(), StoreRefusal>
        requires handle { IsHandle handle.old }
        requires book { (handle.old.book.book ≡ self.now.book)
            × (handle.old.groups ≡ self.now.groups) }
        requires shelf { handle.old.number < self.now.seats }
        requires sound { IsSound
            (store_by handle.old.number wanted.now.question.now
            (arc_value wanted.now.answer.now) wanted.now.moment) }
        requires hash { wanted.now.hash ≡ hash_of (hashed_of wanted.now.question.now) }
        ensures holds { Holds self.now.book handle.old handle.new }
        ensures costs { Costs (spent_of handle.old) (spent_of handle.new) (16 * group_limit) 16 }
        ensures put { MatchResult result
            (λ _. EndsWith (store_by handle.old.number wanted.now.question.now
            (arc_value wanted.now.answer.now) wanted.now.moment) (history handle.old.book.log)
            (history handle.new.book.log))
            (λ _. SeesMore handle.old.number handle.old.book.log handle.new.book.log) }
        ensures lost { IfErr result
            (WhyNotPut self.now.groups wanted.now.question.now (history handle.old.book.log)
            (history handle.new.book.log)) }
        ensures leaves { IfErr result (λ refusal. (before after : List Offer)
            → Leaves wanted.now.question.now (view_of handle.old before) (view_of handle.new after)
            refusal) }
    {
        let asked = Hashed {
            question: wanted.question,
            hash: wanted.hash,
        };
        let old = self.room(handle, &asked)?;
        let shelf = &self.shelves[handle.number as usize];
        let (pushed, pen) = self.make_ready(rt, shelf, handle, wanted)?;
        self.compete(handle, shelf.value(&pushed), pen, old, rival)
    }

    /// As `store`, with something that comes between the load of a head and the exchange of each
    /// try. For tests.
    pub fn store_against<R: Wait, V: Rival>(
        &self,
        rt: &R,
        seat: &mut Seat,
        question: &Question,
        answer: &Arc<Answer>,
        now: Moment,
        rival: &mut V,
    ) -> Result<(), StoreRefusal>
        requires made_here { Belongs self.now seat.old }
        requires kind { kind_of (arc_value answer.now).records ≡ question.now.kind }
        ensures stays { Belongs self.now seat.new }
        ensures goes_on { GoesOn seat.old.seat seat.new.seat }
        ensures takes { Takes seat.old seat.new (16 * group_limit) 16 }
        ensures offered { seat.new.seat.offered
            ≡ seat.old.seat.offered ++ offer_of question.now (arc_value answer.now) now ∷ [] }
        ensures stored { OnOk result
            (IsStored seat.old.seat seat.new.seat
            (offer_of question.now (arc_value answer.now) now)) }
        ensures refused { IfErr result
            (IsRefused seat.old.seat seat.new.seat
            (offer_of question.now (arc_value answer.now) now)) }
        ensures leaves { IfErr result (Leaves question.now seat.old seat.new) }
    {
        seat.notes = seat.notes.with(question, answer, now);
        if answer.life() == 0 {
            return Err(StoreRefusal::Lifeless);
        }
        let wanted = Wanted {
            question,
            hash: hash(question),
            answer,
            moment: now,
        };
        let stored = self.put(rt, &mut seat.handle, &wanted, rival);
        law_log_keeps_its_rule(&seat.handle.book);
        stored
    }

    /// Afterwards the seat has seen what the notice says, and what came since: one load of a head.
    /// Takes no memory.
    pub fn learn(&self, seat: &mut Seat, notice: &Notice)
        requires made_here { Belongs self.now seat.old }
        requires told_here { notice.now.cache ≡ self.now }
        ensures stays { Belongs self.now seat.new }
        ensures goes_on { GoesOn seat.old.seat seat.new.seat }
        ensures stores_nothing { StoresNothing seat.old.seat seat.new.seat }
        ensures takes { Takes seat.old seat.new 0 0 }
        ensures told { IsPrefix notice.now.seen seat.new.seat.seen }
    {
        self.log.learn(&mut seat.handle, &notice.seen);
        law_log_keeps_its_rule(&seat.handle.book);
    }

    /// Whether the group of a question has so many stores at least. Afterwards the seat has seen
    /// what is there now: one load of a head, and of the link of each of so many nodes. Takes no
    /// memory.
    ///
    /// # Errors
    /// Where a number led to no node.
    pub fn group_has(
        &self,
        seat: &mut Seat,
        question: &Question,
        stores: usize,
    ) -> Result<bool, AllocError>
        requires made_here { Belongs self.now seat.old }
        ensures stays { Belongs self.now seat.new }
        ensures goes_on { GoesOn seat.old.seat seat.new.seat }
        ensures stores_nothing { StoresNothing seat.old.seat seat.new.seat }
        ensures takes { Takes seat.old seat.new stores 0 }
        ensures has { IfOk result
            (λ has. IsTrue has ↔ GroupHas stores seat.new.seat question.now) }
        ensures missed { OnErr result (seat.old.missed < seat.new.missed) }
    {
        let asked = Hashed {
            question,
            hash: hash(question),
        };
        let has = self.has_stores(&mut seat.handle, &asked, stores);
        law_log_keeps_its_rule(&seat.handle.book);
        has
    }
}

impl AnswerBook for SharedCache {
    type Seat = Seat;

    ghost use Rattle.answer_cache.specs.Shared.{Belongs};

    ghost belongs = { λ cache seat. Belongs cache seat };

    ghost shown = { λ seat. seat.seat };

    ghost holds = { λ cache seat made. made.is };

    #[inline(always)]
    fn look<'a>(
        &'a self,
        seat: &mut Seat,
        question: &Question,
        now: Moment,
    ) -> Result<Option<FoundAnswer<'a>>, AllocError>
        requires made_here { Belongs self.now seat.old }
        ensures stays { Belongs self.now seat.new }
        ensures goes_on { GoesOn seat.old.seat seat.new.seat }
        ensures stores_nothing { StoresNothing seat.old.seat seat.new.seat }
        ensures takes { Takes seat.old seat.new group_limit 0 }
        ensures found { IfOk result
            (λ found. option_map answer_in found ≡ cached seat.new.seat.seen question.now now) }
        ensures lent { IfOk result (λ found. IfSome found IsBorrowed) }
        // It wants no memory: it is refused only where a number led to no node.
        ensures missed { OnErr result (seat.old.missed < seat.new.missed) }
    {
        let asked = Hashed {
            question,
            hash: hash(question),
        };
        let found = self.last_of(&mut seat.handle, &mut seat.indexes, &asked);
        law_log_keeps_its_rule(&seat.handle.book);
        match found? {
            Some(node) if node.lives_at(now) => Ok(Some(FoundAnswer::Borrowed(&node.answer))),
            _ => Ok(None),
        }
    }

    fn lookup(
        &self,
        seat: &mut Seat,
        question: &Question,
        now: Moment,
    ) -> Result<Option<Arc<Answer>>, AllocError>
        requires made_here { Belongs self.now seat.old }
        ensures stays { Belongs self.now seat.new }
        ensures goes_on { GoesOn seat.old.seat seat.new.seat }
        ensures stores_nothing { StoresNothing seat.old.seat seat.new.seat }
        ensures takes { Takes seat.old seat.new group_limit 0 }
        ensures found { IfOk result
            (λ found. option_map arc_value found ≡ cached seat.new.seat.seen question.now now) }
        ensures wanted { OnErr result (WantsForAnswer question.now now seat.old seat.new) }
    {
        kept(self.look(seat, question, now)?)
    }
}

impl<R: Wait> Stores<R> for SharedCache {
    fn store(
        &self,
        rt: &R,
        seat: &mut Seat,
        question: &Question,
        answer: &Arc<Answer>,
        now: Moment,
    ) -> Result<(), StoreRefusal>
        requires made_here { Belongs self.now seat.old }
        requires kind { kind_of (arc_value answer.now).records ≡ question.now.kind }
        ensures stays { Belongs self.now seat.new }
        ensures goes_on { GoesOn seat.old.seat seat.new.seat }
        ensures takes { Takes seat.old seat.new (16 * group_limit) 16 }
        ensures offered { seat.new.seat.offered
            ≡ seat.old.seat.offered ++ offer_of question.now (arc_value answer.now) now ∷ [] }
        ensures stored { OnOk result
            (IsStored seat.old.seat seat.new.seat
            (offer_of question.now (arc_value answer.now) now)) }
        ensures refused { IfErr result
            (IsRefused seat.old.seat seat.new.seat
            (offer_of question.now (arc_value answer.now) now)) }
        ensures leaves { IfErr result (Leaves question.now seat.old seat.new) }
    {
        self.store_against(rt, seat, question, answer, now, &mut NoRival)
    }
}
