//! What a cache hands on.
ghost use Rattle.std.specs.Prelude.{◌≡◌, ◌≢◌, ℕ, ◌*◌, ◌+◌, ◌<◌, ◌≤◌, ◌++◌, [], List, None};
ghost use Rattle.std.specs.Prelude.{IfOk, OnErr, OnOk, length, map, reverse, ◌⊎◌};
ghost use Rattle.std.specs.List.{All, filter, list_any};
ghost use Rattle.dns_message.specs.Questions.{same_question};
ghost use Rattle.dns_message.specs.declared.question.Question.{Question as Asked};
ghost use Rattle.answer_log.specs.Groups.{group_limit, group_of, hash_of, hashed_of};
ghost use Rattle.answer_log.specs.Handles.{IsHandle, IsSame, SeesMore, spent_of};
ghost use Rattle.answer_log.specs.Histories.{cached, in_group};
ghost use Rattle.answer_log.specs.Logs.{history};
ghost use Rattle.answer_log.specs.Cursors.{Ahead};
ghost use Rattle.answer_log.specs.declared.store.Store.{Store};
ghost use Rattle.answer_cache.specs.Carried.{IsCarried, carried_view, lives_at};
ghost use Rattle.answer_cache.specs.Carried.{last_stores, living_of, offers_in, unseated};
ghost use Rattle.answer_cache.specs.Nodes.{Costs, Holds, offer_of_node};
ghost use Rattle.answer_cache.specs.Seats.{GoesOn, StoresNothing};
ghost use Rattle.answer_cache.specs.Shared.{Belongs, Takes};

use crate::carried::{Carried, Entry};
use crate::node::Node;
use crate::seat::Seat;
use crate::shared_cache::SharedCache;
use answer_log::{Cursor, GROUP_LIMIT, Handle, law_log_keeps_its_rule};
use dns_answers::Moment;
use dns_message::law_same_questions_are_equal;
use std::alloc::{AllocError, Global};
use std::sync::Arc;

/// Whether one of the nodes is of the question of this one.
fn is_among(node: &Node, nodes: &[&Node]) -> bool
    requires node { node.now.tag ≡ hash_of (hashed_of node.now.question) }
    requires nodes { All (λ it. it.now.tag ≡ hash_of (hashed_of it.now.question)) nodes.now }
    ensures { result
        ≡ list_any (λ it. same_question it.now.question node.now.question) nodes.now }
{
    'nodes: for it in nodes {
        if it.is_of(node.tag, &node.question) {
            return true;
        }
    }
    false
}

/// Adds the stores of the nodes that live, in their order.
fn add_living(entries: &mut Vec<Entry>, nodes: &[&Node], now: Moment) -> Result<(), AllocError>
    ensures added { OnOk result (offers_in entries.new.items ≡ offers_in entries.old.items
        ++ filter (lives_at now) (map (λ node. offer_of_node node.now) nodes.now)) }
    ensures wanted { OnErr result (nodes.now ≢ []) }
{
    'nodes: for node in nodes {
        if node.lives_at(now) {
            entries.push(Entry {
                question: node.question.try_clone()?,
                answer: Arc::try_clone(&node.answer)?,
                moment: node.moment,
            })?;
        }
    }
    Ok(())
}

impl SharedCache {
    /// The nodes ahead of a cursor that are the last of their questions, the newest first.
    fn last_nodes(
        &self,
        alloc: Global,
        cursor: &mut Cursor,
        handle: &mut Handle,
    ) -> Result<Vec<&Node>, AllocError>
        requires books { (cursor.old.seen.book ≡ self.now.book)
            × (handle.old.book.book ≡ self.now.book) }
        requires handle { IsHandle handle.old }
        requires ahead { (left : List Store) × Ahead cursor.old left × (length left ≤ group_limit) }
        ensures same { IsSame handle.old handle.new }
        ensures last { IfOk result (λ nodes. (left : List Store) → Ahead cursor.old left
            → length left ≤ group_limit
            → map (λ node. offer_of_node node.now) nodes.items
            ≡ reverse (map unseated (last_stores left))) }
        ensures costs { Costs (spent_of handle.old) (spent_of handle.new) group_limit 0 }
        ensures wanted { OnErr result (((left : List Store) → Ahead cursor.old left → left ≢ [])
            ⊎ ((spent_of handle.old).missed < (spent_of handle.new).missed)) }
    {
        law_same_questions_are_equal();
        let mut nodes: Vec<&Node> = Vec::new(alloc);
        'links: for _link in 0..GROUP_LIMIT {
            let Some(node) = self.step(cursor, handle)? else {
                return Ok(nodes);
            };
            if !is_among(node, &nodes) {
                nodes.push(node)?;
            }
        }
        Ok(nodes)
    }

    /// Adds what is carried of a group.
    fn carry_group(
        &self,
        alloc: Global,
        handle: &mut Handle,
        group: u32,
        now: Moment,
        entries: &mut Vec<Entry>,
    ) -> Result<(), AllocError>
        requires handle { IsHandle handle.old }
        requires book { (handle.old.book.book ≡ self.now.book)
            × (handle.old.groups ≡ self.now.groups) }
        requires group { group < self.now.groups }
        ensures holds { Holds self.now.book handle.old handle.new }
        ensures seen { SeesMore handle.old.number handle.old.book.log handle.new.book.log }
        ensures node_count { handle.new.node_count ≡ handle.old.node_count }
        ensures costs { Costs (spent_of handle.old) (spent_of handle.new) group_limit 0 }
        ensures added { OnOk result (offers_in entries.new.items ≡ offers_in entries.old.items
            ++ living_of now (in_group self.now.groups group (history handle.new.book.log))) }
        ensures wanted { OnErr result ((history handle.new.book.log ≢ [])
            ⊎ ((spent_of handle.old).missed < (spent_of handle.new).missed)) }
    {
        let mut cursor = self.log.cursor(handle, group);
        law_log_keeps_its_rule(&cursor.seen);
        let mut nodes = self.last_nodes(alloc, &mut cursor, handle)?;
        nodes.reverse();
        add_living(entries, &nodes, now)
    }

    /// Adds what is carried of each group, one after the other.
    fn carry_groups(
        &self,
        alloc: Global,
        handle: &mut Handle,
        now: Moment,
    ) -> Result<Vec<Entry>, AllocError>
        requires handle { IsHandle handle.old }
        requires book { (handle.old.book.book ≡ self.now.book)
            × (handle.old.groups ≡ self.now.groups) }
        ensures holds { Holds self.now.book handle.old handle.new }
        ensures seen { SeesMore handle.old.number handle.old.book.log handle.new.book.log }
        ensures node_count { handle.new.node_count ≡ handle.old.node_count }
        ensures costs { Costs (spent_of handle.old) (spent_of handle.new)
            (self.now.groups * group_limit) 0 }
        ensures carried { IfOk result
            (λ entries. IsCarried (history handle.old.book.log) (history handle.new.book.log) now
            (carried_view self.now.groups (offers_in entries.items))) }
        ensures wanted { OnErr result ((history handle.new.book.log ≢ [])
            ⊎ ((spent_of handle.old).missed < (spent_of handle.new).missed)) }
    {
        let mut entries = Vec::new(alloc);
        let groups = handle.groups;
        'groups: for group in 0..groups {
            self.carry_group(alloc, handle, group, now, &mut entries)?;
        }
        Ok(entries)
    }

    /// What a cache is to hand on at a moment: of each group the last stores of their questions
    /// that live then. Each group is looked through once, so a store that another seat makes
    /// meanwhile is carried or not. The seat stores nothing.
    ///
    /// # Errors
    /// Where memory is refused. None is asked for where nothing was stored.
    pub fn carry(&self, alloc: Global, seat: &mut Seat, now: Moment) -> Result<Carried, AllocError>
        requires made_here { Belongs self.now seat.old }
        ensures stays { Belongs self.now seat.new }
        ensures goes_on { GoesOn seat.old.seat seat.new.seat }
        ensures stores_nothing { StoresNothing seat.old.seat seat.new.seat }
        ensures node_count { seat.new.node_count ≡ seat.old.node_count }
        ensures takes { Takes seat.old seat.new (self.now.groups * group_limit) 0 }
        ensures groups { IfOk result (λ carried. carried.groups ≡ self.now.groups) }
        ensures carried { IfOk result (IsCarried seat.old.seat.seen seat.new.seat.seen now) }
        ensures wanted { OnErr result
            ((seat.new.seat.seen ≢ []) ⊎ (seat.old.missed < seat.new.missed)) }
    {
        let groups = seat.handle.groups;
        let entries = self.carry_groups(alloc, &mut seat.handle, now);
        law_log_keeps_its_rule(&seat.handle.book);
        Ok(Carried {
            groups,
            entries: entries?,
        })
    }
}
