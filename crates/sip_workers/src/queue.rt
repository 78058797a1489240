//! The channel, and its rule: what was taken, followed by what is in the channel, is a prefix of
//! the batches in order, each once, and then end pairs alone.
ghost use Rattle.std.specs.Prelude.{◌≡◌, ◌+◌, ◌-◌, ◌<◌, true, false, List, [], ◌∷◌, ◌++◌, IfOk, MatchBool, MatchOption};
ghost use Rattle.crossbeam_channel.specs.Claims.{IsSeatAt, view};
ghost use Rattle.crossbeam_channel.specs.Ends.{receives_on, sends_on};
ghost use Rattle.sip_workers.specs.Rules.{IsPut, IsWhole, Stands, all_parts, pass_view};
ghost use Rattle.sip_workers.specs.declared.batch.Batch.{Batch as batch};

use crate::batch::Batch;
use crossbeam_channel::protocol::{Join, Lesson, Outcome, Protocol, Split};
use crossbeam_channel::{Pass, RuledReceiver, RuledSender, bounded_with};
use std::alloc::{AllocError, Global};
use std::collections::LinkedList;
use std::marker::{Brand, PhantomData};
use std::sync::Wait;

/// Names the batches of one run.
pub(crate) trait Dealt {
    ghost use Rattle.std.specs.Prelude.{List};
    ghost use Rattle.sip_workers.specs.declared.batch.Batch.{Batch as batch};

    ghost batches: { List batch };
}

impl Dealt for Brand {
    ghost use Rattle.std.specs.Prelude.{[]};

    ghost batches = { [] };
}

/// What a pass knows: whether it deals, its parts of the right to know the whole, what it put and
/// what it took. No value of it is made.
pub(crate) struct PassView {
    pub(crate) deals: bool,
    pub(crate) parts: u64,
    pub(crate) put: LinkedList<Batch>,
    pub(crate) taken: LinkedList<Batch>,
}

/// The rule.
pub(crate) struct InOrder<J> {
    of: PhantomData<J>,
}

impl<J: Dealt> Protocol<Batch, PassView> for InOrder<J> {
    ghost use Rattle.std.specs.Prelude.{true, []};
    ghost use Rattle.sip_workers.specs.Rules.{IsDealt, all_parts, pass_view};

    ghost holds = { λ items views. IsDealt J.batches items views };

    ghost first = { pass_view true all_parts [] [] };
}

/// A worker's pass is cut off.
struct Cut;

impl Split<PassView> for Cut {
    ghost use Rattle.std.specs.Prelude.{◌-◌, false, []};
    ghost use Rattle.sip_workers.specs.Rules.{pass_view};

    ghost left = { λ v. pass_view v.deals (v.parts - 1) v.put v.taken };

    ghost right = { λ v. pass_view false 1 [] [] };
}

impl Join<PassView> for Cut {
    ghost use Rattle.std.specs.Prelude.{◌+◌, ◌++◌, false, []};
    ghost use Rattle.sip_workers.specs.Rules.{pass_view};

    ghost both = { λ v w. pass_view v.deals (v.parts + w.parts) v.put (v.taken ++ w.taken) };

    ghost spent = { pass_view false 0 [] [] };
}

struct Puts;

impl Outcome<Batch, PassView> for Puts {
    ghost use Rattle.std.specs.Prelude.{◌≡◌, ◌++◌, ◌∷◌, []};
    ghost use Rattle.sip_workers.specs.Rules.{pass_view};

    ghost then = { λ v x w. w ≡ pass_view v.deals v.parts (v.put ++ x ∷ []) v.taken };
}

impl Lesson<Batch, PassView> for Puts {
    ghost use Rattle.std.specs.Prelude.{⊤};

    ghost fact = { λ v items. ⊤ };
}

struct Takes<J> {
    of: PhantomData<J>,
}

impl<J: Dealt> Outcome<Batch, PassView> for Takes<J> {
    ghost use Rattle.std.specs.Prelude.{◌≡◌, ◌++◌, ◌∷◌, []};
    ghost use Rattle.sip_workers.specs.Rules.{Stands, pass_view};

    ghost then = { λ v x w.
        (w ≡ pass_view v.deals v.parts v.put (v.taken ++ x ∷ [])) × Stands J.batches x };
}

impl<J> Lesson<Batch, PassView> for Takes<J> {
    ghost use Rattle.std.specs.Prelude.{⊤};

    ghost fact = { λ v items. ⊤ };
}

/// What who has every part learns.
struct Whole;

impl Lesson<Batch, PassView> for Whole {
    ghost use Rattle.sip_workers.specs.Rules.{IsWhole};

    ghost fact = { λ v items. IsWhole v.put v.taken items };
}

/// Both ends of the channel of one run.
#[derive(Drop)]
pub(crate) struct Queue<J: Dealt> {
    pub(crate) sender: RuledSender<Batch, PassView, InOrder<J>>,
    receiver: RuledReceiver<Batch, PassView, InOrder<J>>,
    ghost one: { receives_on receiver ≡ sends_on sender },
}

/// A right to use the queue, and what its holder knows.
pub(crate) type Right = Pass<Batch, PassView>;

impl<J: Dealt> Queue<J> {
    /// A queue with room for so many, and the dealer's right.
    pub(crate) fn new(alloc: Global, room: usize) -> Result<(Queue<J>, Right), AllocError>
        requires { 0 < room }
        ensures { IfOk result (λ it. IsSeatAt (sends_on it.0.sender) it.1
            × (view it.1 ≡ pass_view true all_parts [] [])) }
    {
        let (sender, receiver, pass) = bounded_with(alloc, room)?;
        Ok((Queue { sender, receiver }, pass))
    }

    /// Puts a batch, unless the other ends are gone.
    pub(crate) fn put<R: Wait>(&self, rt: &R, right: &mut Right, batch: Batch) -> bool
        requires queue { IsSeatAt (sends_on self.now.sender) right.old }
        requires deals { (view right.old).deals ≡ true }
        requires next { IsPut J.batches ((view right.old).put ++ batch ∷ []) }
        ensures queue { IsSeatAt (sends_on self.now.sender) right.new }
        ensures put { MatchBool result
            (view right.new ≡ pass_view true (view right.old).parts
            ((view right.old).put ++ batch ∷ []) (view right.old).taken)
            (view right.new ≡ view right.old) }
    {
        self.sender.send_as::<Puts, R>(rt, right, batch).is_ok()
    }

    /// Takes a batch, unless the other ends are gone.
    pub(crate) fn take<R: Wait>(&self, rt: &R, right: &mut Right) -> Option<Batch>
        requires queue { IsSeatAt (sends_on self.now.sender) right.old }
        requires worker { 0 < (view right.old).parts }
        ensures queue { IsSeatAt (sends_on self.now.sender) right.new }
        ensures taken { MatchOption result
            (view right.new ≡ view right.old)
            (λ batch. (view right.new ≡ pass_view (view right.old).deals (view right.old).parts
            (view right.old).put ((view right.old).taken ++ batch ∷ []))
            × Stands J.batches batch) }
    {
        self.receiver.recv_as::<Takes<J>, R>(rt, right).ok()
    }

    /// A worker's right, cut from the dealer's.
    pub(crate) fn cut(&self, right: &mut Right) -> Right
        requires queue { IsSeatAt (sends_on self.now.sender) right.old }
        requires parts { 1 < (view right.old).parts }
        ensures queue { IsSeatAt (sends_on self.now.sender) right.new
            × IsSeatAt (sends_on self.now.sender) result }
        ensures cut { (view right.new ≡ pass_view (view right.old).deals
            ((view right.old).parts - 1) (view right.old).put (view right.old).taken)
            × (view result ≡ pass_view false 1 [] []) }
    {
        self.sender.another::<Cut>(right)
    }

    /// Takes in a worker's right, and what it knows.
    pub(crate) fn take_in(&self, right: &mut Right, other: Right)
        requires queue { IsSeatAt (sends_on self.now.sender) right.old
            × IsSeatAt (sends_on self.now.sender) other }
        ensures queue { IsSeatAt (sends_on self.now.sender) right.new }
        ensures both { view right.new ≡ pass_view (view right.old).deals
            ((view right.old).parts + (view other).parts) (view right.old).put
            ((view right.old).taken ++ (view other).taken) }
    {
        self.sender.absorb::<Cut>(right, other);
    }

    /// What was put is what was taken and what is left.
    pub(crate) fn tell_whole(&self, right: &mut Right)
        requires queue { IsSeatAt (sends_on self.now.sender) right.old }
        requires whole { ((view right.old).deals ≡ true) × ((view right.old).parts ≡ all_parts) }
        ensures queue { IsSeatAt (sends_on self.now.sender) right.new
            × (view right.new ≡ view right.old) }
        ensures whole { (items : List batch)
            × IsWhole (view right.old).put (view right.old).taken items }
    {
        self.sender.learn_as::<Whole>(right);
    }
}
