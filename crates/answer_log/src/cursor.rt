//! A cursor along the placed nodes of a group.
ghost use Rattle.std.specs.Prelude.{◌≡◌, ◌≢◌, ◌∷◌, ◌++◌, [], IfNone, IfSome, List};
ghost use mathlib.Core.List.{IsPrefix};
ghost use Rattle.answer_log.specs.Handles.{IsHandle, IsNamed, IsPlaced, IsSame, spent_of};
ghost use Rattle.answer_log.specs.Spending.{one_link};
ghost use Rattle.answer_log.specs.Cursors.{Ahead};
ghost use Rattle.answer_log.specs.declared.store.Store.{Store};

use crate::handle::Handle;
use crate::log::law_log_keeps_its_rule;
use crate::steps::{SeenLog, Word, node_before};

/// A cursor from a group's node placed last to its first one: what it has seen, and the next node,
/// 0 at the end.
#[derive(Drop)]
pub struct Cursor {
    pub seen: SeenLog,
    pub next: u64,
}

impl Cursor {
    /// The next node, unless the cursor is at its end.
    pub fn next(&self) -> Option<u64>
        ensures end { IfNone result ((left : List Store) → Ahead self.now left → left ≡ []) }
        ensures node { IfSome result (λ node. (node ≡ self.now.next) × (node ≢ 0)) }
    {
        law_log_keeps_its_rule(&self.seen);
        if self.next == 0 {
            None
        } else {
            Some(self.next)
        }
    }

    /// Passes the next node, which the log that `named` has seen named so: one load of its link.
    /// The seat of the cursor has spent one link more.
    pub fn pass(&mut self, handle: &mut Handle, link: &Word, named: &SeenLog)
        requires books { named.now.book ≡ self.old.seen.book }
        requires handle { IsHandle handle.old }
        requires its_own { handle.old.book.book ≡ self.old.seen.book }
        requires node { self.old.next ≢ 0 }
        requires ahead { (left : List Store) × Ahead self.old left }
        requires named { (store : Store)
            × IsNamed named.now.book named.now.log self.old.next store link.now }
        ensures same { IsSame handle.old handle.new }
        ensures spent { spent_of handle.new ≡ one_link (spent_of handle.old) }
        ensures book { self.new.seen.book ≡ self.old.seen.book }
        ensures later { IsPrefix self.old.seen.log self.new.seen.log }
        ensures passed { (store : Store) (left : List Store)
            → IsNamed named.now.book named.now.log self.old.next store link.now
            → Ahead self.old left → (rest : List Store) × (left ≡ rest ++ store ∷ [])
            × Ahead self.new rest }
        ensures placed { (store : Store) (left : List Store)
            → IsNamed named.now.book named.now.log self.old.next store link.now
            → Ahead self.old left → IsPlaced self.new.seen.log self.old.next store }
    {
        handle.spent = handle.spent.with_link();
        self.next = node_before(link, named, self.next, &mut self.seen);
    }
}
