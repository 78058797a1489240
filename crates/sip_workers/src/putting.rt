//! What is put into the queue of a run: its batches in order, and then an end for each worker.
ghost use Rattle.std.specs.Prelude.{◌≡◌, ◌++◌, true, [], IsTrue, replicate};
ghost use Rattle.crossbeam_channel.specs.Claims.{IsSeatAt, view};
ghost use Rattle.crossbeam_channel.specs.Ends.{sends_on};
ghost use Rattle.sip_workers.specs.Deals.{no_more, stays_with};
ghost use Rattle.sip_workers.specs.Rules.{IsPut};

use crate::batch::Batch;
use crate::queue::{Dealt, Queue, Right};
use std::sync::Wait;

/// Puts the batches in order, and tells whether all were put.
pub(crate) fn put_all<J: Dealt, R: Wait>(
    rt: &R,
    queue: &Queue<J>,
    own: &mut Right,
    batches: &[Batch],
) -> bool
    requires queue { IsSeatAt (sends_on queue.now.sender) own.old }
    requires deals { (view own.old).deals ≡ true }
    requires none { (view own.old).put ≡ [] }
    requires batches { batches.now ≡ J.batches }
    ensures queue { IsSeatAt (sends_on queue.now.sender) own.new }
    ensures stays { stays_with (view own.old) (view own.new).put ≡ view own.new }
    ensures some { IsPut J.batches (view own.new).put }
    ensures all { IsTrue result → (view own.new).put ≡ J.batches }
{
    'batches: for batch in batches {
        if !queue.put(rt, own, *batch) {
            return false;
        }
    }
    true
}

/// Puts so many ends, and tells whether all were put.
pub(crate) fn put_ends<J: Dealt, R: Wait>(
    rt: &R,
    queue: &Queue<J>,
    own: &mut Right,
    count: usize,
) -> bool
    requires queue { IsSeatAt (sends_on queue.now.sender) own.old }
    requires deals { (view own.old).deals ≡ true }
    requires some { IsPut J.batches (view own.old).put }
    ensures queue { IsSeatAt (sends_on queue.now.sender) own.new }
    ensures stays { stays_with (view own.old) (view own.new).put ≡ view own.new }
    ensures all { IsTrue result
        → (view own.new).put ≡ (view own.old).put ++ replicate count no_more }
{
    'ends: for _end in 0..count {
        if !queue.put(rt, own, Batch { first: 0, count: 0 }) {
            return false;
        }
    }
    true
}
