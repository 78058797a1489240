//! The log that seats share.
ghost use Rattle.std.specs.Prelude.{◌≡◌, ℕ, ◌+◌, ◌-◌, ◌<◌, ◌≤◌, ◌^◌, ◌⊎◌, IfOk, List, MatchBool, length};
ghost use mathlib.Core.List.{IsPrefix};
ghost use Rattle.std.specs.Arc.{arc_value};
ghost use Rattle.logbook.specs.Pages.{Named as Link, may_write};
ghost use Rattle.answer_log.specs.Handles.{AreHandles, EndsWith, IsHandle, IsLog, IsNamed, IsPlaced};
ghost use Rattle.answer_log.specs.Handles.{SeesMore, spent_of};
ghost use Rattle.answer_log.specs.Spending.{one_try};
ghost use Rattle.answer_log.specs.Groups.{group_in};
ghost use Rattle.answer_log.specs.Histories.{IsSound, in_group};
ghost use Rattle.answer_log.specs.Logs.{history, top};
ghost use Rattle.answer_log.specs.Rules.{heads_of, node_at, word_at};
ghost use Rattle.answer_log.specs.Steps.{HadRoom, store_by, store_of};
ghost use Rattle.answer_log.specs.Cursors.{Ahead};
ghost use Rattle.answer_log.specs.declared.event.Event.{Event as Noted};
ghost use Rattle.answer_log.specs.declared.store.Store.{Store};

use crate::cursor::Cursor;
use crate::event::Event;
use crate::handle::{Handle, Handles};
use crate::nodes::node_at;
use crate::steps::{Pen, SeenLog, Word, claim_node, place, top_node};
use crate::store::NewStore;
use crate::tally::Tallies;
use dns_answers::{Answer, Moment};
use dns_message::Question;
use logbook::{Opening, Pens};
use std::alloc::{AllocError, Global};
use std::marker::Model;
use std::sync::Arc;

/// The log of a new book has no store, and says how many seats and how many groups there are.
struct Blank;

impl Opening<(u64, u32), Event> for Blank {
    ghost use Rattle.std.specs.Prelude.{◌∷◌, []};
    ghost use Rattle.answer_log.specs.declared.event.Event.TheVariants.{Opened};

    ghost log = { λ words size. Opened size.0 size.1 ∷ [] };
}

/// The log: the head of each group, which leads to its node placed last, and a word that holds 0.
#[derive(Drop)]
pub struct Log {
    heads: Vec<Word>,
    idle: Word,
}

impl Model for Log {
    ghost use Rattle.std.specs.Prelude.{◌≡◌, length};
    ghost use Rattle.answer_log.specs.Rules.{LogView, heads_of, log_coded, log_view, word_at};

    ghost Value = { LogView };

    ghost coded = { log_coded };

    ghost view = { λ log. log_view log.idle.book (length log.heads.items) };

    ghost invariant = { λ log. (log.heads.items ≡ heads_of log.idle.book (length log.heads.items))
        × (log.idle ≡ word_at log.idle.book (length log.heads.items)) };
}

/// A node that was named, its link, and what writes the link.
#[derive(Drop)]
pub struct ClaimedNode {
    pub node: u64,
    pub link: Word,
    pub pen: Pen,
}

/// The heads of so many groups, by the first rights of a new book.
fn make_heads(alloc: Global, pens: &mut Pens, groups: u32) -> Result<Vec<Word>, AllocError>
    requires pens { (pens.old.next ≡ 0) × (pens.old.left ≡ groups + 1) }
    ensures heads { IfOk result (λ heads. heads.items ≡ heads_of pens.old.book groups) }
    ensures rest { IfOk result (λ _. (pens.new.book ≡ pens.old.book) × (pens.new.next ≡ groups)
        × (pens.new.left ≡ 1)) }
{
    let mut heads = Vec::with_capacity(alloc, groups as usize)?;
    'groups: for _group in 0..groups {
        let mut pen = pens.take();
        heads.push(Word::tracked(0, &mut pen))?;
    }
    Ok(heads)
}

impl Log {
    /// Opens a log without stores, of so many groups, and gives what its seats have at it.
    pub fn open(alloc: Global, seats: u64, groups: u32) -> Result<(Log, Handles), AllocError>
        requires seats { seats ≤ 64 }
        requires groups { (64 ≤ groups) × (groups ≤ 65536) }
        ensures book { IfOk result (λ made. made.0.book ≡ made.1.seen.book) }
        ensures groups { IfOk result
            (λ made. (made.0.groups ≡ groups) × (made.1.groups ≡ groups)) }
        ensures first { IfOk result (λ made. (made.1.next ≡ 0) × (made.1.seats ≡ seats)) }
        ensures handles { IfOk result (λ made. AreHandles made.1) }
    {
        let (start, tallies) = Tallies::open(seats, groups);
        let words = groups as usize + 1;
        let (seen, mut pens) = SeenLog::open_row::<(u64, u32), Blank>(
            &(seats, groups),
            start,
            words,
        );
        let heads = make_heads(alloc, &mut pens, groups)?;
        let mut pen = pens.take();
        let idle = Word::tracked(0, &mut pen);
        let handles = Handles {
            next: 0,
            seats,
            groups,
            tallies,
            seen,
        };
        Ok((Log { heads, idle }, handles))
    }

    /// The head of a group.
    fn head(&self, group: u32) -> &Word
        requires { group < self.now.groups }
        ensures { result.now ≡ word_at self.now.book group }
    {
        &self.heads[group as usize]
    }

    /// Sees what a notice says, and what came since: a cursor from the node of a group placed last,
    /// by one load of its head.
    pub fn cursor_after(&self, handle: &mut Handle, told: &SeenLog, group: u32) -> Cursor
        requires book { handle.old.book.book ≡ self.now.book }
        requires groups { handle.old.groups ≡ self.now.groups }
        requires told { told.now.book ≡ self.now.book }
        requires handle { IsHandle handle.old }
        requires group { group < self.now.groups }
        ensures handle { IsHandle handle.new }
        ensures number { (handle.new.number ≡ handle.old.number)
            × (handle.new.seats ≡ handle.old.seats)
            × (handle.new.groups ≡ handle.old.groups) }
        ensures book { (handle.new.book.book ≡ self.now.book)
            × (handle.new.book.names ≡ handle.old.book.names) }
        ensures seen { SeesMore handle.old.number handle.old.book.log handle.new.book.log }
        ensures told { IsPrefix told.now.log handle.new.book.log }
        ensures node_count { handle.new.node_count ≡ handle.old.node_count }
        ensures spent { spent_of handle.new ≡ spent_of handle.old }
        ensures cursor { (result.seen.book ≡ self.now.book)
            × (result.seen.log ≡ handle.new.book.log)
            × (result.next ≡ top self.now.groups group handle.new.book.log) }
        ensures ahead { Ahead result
            (in_group self.now.groups group (history handle.new.book.log)) }
    {
        handle.book.learn(told);
        let head = self.head(group);
        let next = top_node(
            head,
            group,
            &mut handle.book,
            &mut handle.tally,
            handle.number,
        );
        Cursor {
            seen: handle.book.again(),
            next,
        }
    }

    /// A cursor from the node of a group placed last: one load of its head.
    pub fn cursor(&self, handle: &mut Handle, group: u32) -> Cursor
        requires book { handle.old.book.book ≡ self.now.book }
        requires groups { handle.old.groups ≡ self.now.groups }
        requires handle { IsHandle handle.old }
        requires group { group < self.now.groups }
        ensures handle { IsHandle handle.new }
        ensures number { (handle.new.number ≡ handle.old.number)
            × (handle.new.seats ≡ handle.old.seats)
            × (handle.new.groups ≡ handle.old.groups) }
        ensures book { (handle.new.book.book ≡ self.now.book)
            × (handle.new.book.names ≡ handle.old.book.names) }
        ensures seen { SeesMore handle.old.number handle.old.book.log handle.new.book.log }
        ensures node_count { handle.new.node_count ≡ handle.old.node_count }
        ensures spent { spent_of handle.new ≡ spent_of handle.old }
        ensures cursor { (result.seen.book ≡ self.now.book)
            × (result.seen.log ≡ handle.new.book.log)
            × (result.next ≡ top self.now.groups group handle.new.book.log) }
        ensures ahead { Ahead result
            (in_group self.now.groups group (history handle.new.book.log)) }
    {
        let told = handle.book.again();
        self.cursor_after(handle, &told, group)
    }

    /// Sees what a notice says, and what came since: one load of a head.
    pub fn learn(&self, handle: &mut Handle, told: &SeenLog)
        requires book { handle.old.book.book ≡ self.now.book }
        requires groups { handle.old.groups ≡ self.now.groups }
        requires told { told.now.book ≡ self.now.book }
        requires handle { IsHandle handle.old }
        ensures handle { IsHandle handle.new }
        ensures number { (handle.new.number ≡ handle.old.number)
            × (handle.new.seats ≡ handle.old.seats)
            × (handle.new.groups ≡ handle.old.groups) }
        ensures book { handle.new.book.book ≡ self.now.book }
        ensures seen { SeesMore handle.old.number handle.old.book.log handle.new.book.log }
        ensures spent { spent_of handle.new ≡ spent_of handle.old }
        ensures told { IsPrefix (history told.now.log) (history handle.new.book.log) }
    {
        let _cursor = self.cursor_after(handle, told, 0);
    }

    /// Sees just what a notice says: one load of a head. What it says goes on from what the seat
    /// has seen. The load shows that it has no event of this seat that is new.
    pub fn meet(&self, handle: &mut Handle, told: &SeenLog)
        requires book { handle.old.book.book ≡ self.now.book }
        requires groups { handle.old.groups ≡ self.now.groups }
        requires handle { IsHandle handle.old }
        requires told { (told.now.book ≡ self.now.book)
            × (told.now.names ≡ handle.old.book.names)
            × IsPrefix handle.old.book.log told.now.log }
        ensures handle { IsHandle handle.new }
        ensures number { (handle.new.number ≡ handle.old.number)
            × (handle.new.seats ≡ handle.old.seats)
            × (handle.new.groups ≡ handle.old.groups) }
        ensures node_count { handle.new.node_count ≡ handle.old.node_count }
        ensures spent { spent_of handle.new ≡ spent_of handle.old }
        ensures book { handle.new.book ≡ told.now }
        ensures seen { SeesMore handle.old.number handle.old.book.log told.now.log }
    {
        let mut seen = handle.book.again();
        seen.learn(told);
        let head = self.head(0);
        let _node = top_node(head, 0, &mut seen, &mut handle.tally, handle.number);
        handle.book = told.again();
    }

    /// Names the node of a place for a store, and makes its link: one exchange on the idle word. A
    /// place is named once, so it is none below those that the seat has used.
    pub fn claim(
        &self,
        handle: &mut Handle,
        place: u64,
        question: &Question,
        answer: &Arc<Answer>,
        moment: Moment,
    ) -> ClaimedNode
        requires book { handle.old.book.book ≡ self.now.book }
        requires groups { handle.old.groups ≡ self.now.groups }
        requires handle { IsHandle handle.old }
        requires place { (handle.old.node_count ≤ place) × (place < 2 ^ 32) }
        ensures handle { IsHandle handle.new }
        ensures number { (handle.new.number ≡ handle.old.number)
            × (handle.new.seats ≡ handle.old.seats)
            × (handle.new.groups ≡ handle.old.groups) }
        ensures book { (handle.new.book.book ≡ self.now.book)
            × (handle.new.book.names ≡ handle.old.book.names) }
        ensures node_count { handle.new.node_count ≡ place + 1 }
        ensures spent { spent_of handle.new ≡ spent_of handle.old }
        ensures seen { SeesMore handle.old.number handle.old.book.log handle.new.book.log }
        ensures node { result.node ≡ node_at handle.old.number place }
        ensures named { IsNamed self.now.book handle.new.book.log result.node
            (store_by handle.old.number question.now (arc_value answer.now) moment) result.link }
        ensures pen { (result.pen.book ≡ self.now.book) × (result.pen.nib.right ≡ may_write)
            × (result.pen.nib.key ≡ result.link.key) × (self.now.groups < result.link.key) }
    {
        let node = node_at(handle.number, place);
        let new_store = NewStore {
            node,
            seat: handle.number,
            question,
            answer,
            moment,
        };
        let mut pen = claim_node(
            &self.idle,
            &mut handle.book,
            &mut handle.tally,
            place,
            &new_store,
        );
        handle.node_count = place + 1;
        let link = Word::tracked(0, &mut pen);
        ClaimedNode { node, link, pen }
    }

    /// Tries to place a node on top of the node `old`, which its link holds: one exchange of the
    /// head of its group. Says whether the node was placed. It was not where the head had another
    /// node by then. The seat has spent one try more.
    pub fn place(
        &self,
        handle: &mut Handle,
        pen: &mut Pen,
        old: u64,
        new_store: &NewStore<'_>,
        group: u32,
        link: &Word,
    ) -> bool
        requires book { handle.old.book.book ≡ self.now.book }
        requires groups { handle.old.groups ≡ self.now.groups }
        requires handle { IsHandle handle.old }
        requires seat { new_store.now.seat ≡ handle.old.number }
        requires group { group ≡ group_in self.now.groups new_store.now.question.now }
        requires room { HadRoom self.now.groups handle.old.book.log old
            new_store.now.question.now }
        requires sound { IsSound (store_of new_store.now) }
        requires named { IsNamed self.now.book handle.old.book.log
            new_store.now.node (store_of new_store.now) link.now }
        requires pen { (pen.old.book ≡ self.now.book) × (pen.old.nib.right ≡ may_write)
            × (pen.old.nib.key ≡ link.now.key)
            × (pen.old.nib.value ≡ old) × (self.now.groups < link.now.key) }
        ensures handle { IsHandle handle.new }
        ensures number { (handle.new.number ≡ handle.old.number)
            × (handle.new.seats ≡ handle.old.seats)
            × (handle.new.groups ≡ handle.old.groups) }
        ensures book { (handle.new.book.book ≡ self.now.book)
            × (handle.new.book.names ≡ handle.old.book.names) }
        ensures node_count { handle.new.node_count ≡ handle.old.node_count }
        ensures spent { spent_of handle.new ≡ one_try (spent_of handle.old) }
        ensures placed { MatchBool result
            (EndsWith (store_of new_store.now) (history handle.old.book.log)
            (history handle.new.book.log))
            (SeesMore handle.old.number handle.old.book.log handle.new.book.log) }
        // Other stores came in between.
        ensures lost { MatchBool result (Unit {0})
            ((seen : List Noted) → IsPrefix seen handle.old.book.log
            → top self.now.groups (group_in self.now.groups new_store.now.question.now) seen ≡ old
            → length (history seen) < length (history handle.new.book.log)) }
        ensures pen { MatchBool result (Unit {0})
            ((pen.new.book ≡ self.now.book) × (pen.new.nib.right ≡ may_write)
            × (pen.new.nib.key ≡ link.now.key)) }
    {
        handle.spent = handle.spent.with_try();
        place(
            self.head(group),
            &mut handle.book,
            &mut handle.tally,
            pen,
            old,
            new_store,
            link,
        )
    }
}

/// A law: each log that was seen has a history of sound stores of its seats, at most 128 in a
/// group, and no node 0.
pub fn law_log_keeps_its_rule(book: &SeenLog)
    ensures { IsLog book.now.log }
{
    let mut probe = book.again();
    probe.learn(book);
}

/// A law: a node was placed for the store that it was named for.
pub fn law_placed_is_named(seen: &SeenLog, named: &SeenLog)
    requires { seen.now.book ≡ named.now.book }
    ensures { (node : ℕ) (store other : Store) (link : Link) → IsPlaced seen.now.log node store
        → IsNamed named.now.book named.now.log node other link → store ≡ other }
{
    let mut probe = seen.again();
    probe.learn(named);
}

/// A law: of two histories that were seen of one book, one goes on with the other.
pub fn law_histories_are_one(one: &SeenLog, other: &SeenLog)
    requires { one.now.book ≡ other.now.book }
    ensures { IsPrefix (history one.now.log) (history other.now.log)
        ⊎ IsPrefix (history other.now.log) (history one.now.log) }
{
    let mut probe = one.again();
    probe.learn(other);
}
