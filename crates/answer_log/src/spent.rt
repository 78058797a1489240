//! What the calls of a seat have spent, as contracts count it, and nothing at run time.
ghost use Rattle.std.specs.Prelude.{◌≡◌};
ghost use Rattle.answer_log.specs.Spending.{nothing, one_link, one_miss, one_try};

use std::marker::Model;
use std::snapshot::Snapshot;

/// What was spent last, and what was spent before it.
#[derive(Drop)]
#[cycle(spent)]
pub(crate) enum Last {
    /// Nothing is spent yet.
    Nothing,
    /// A cursor passed a link.
    Link(Snapshot<Spent>),
    /// A store tried to place a node.
    Try(Snapshot<Spent>),
    /// A cursor led to a number whose node was not found.
    Miss(Snapshot<Spent>),
}

/// How many links the calls of a seat have passed, how many tries to place a node they have made,
/// and how many numbers led to no node: a snapshot of what was spent last. It has no octets.
#[derive(Drop)]
#[cycle(spent)]
pub struct Spent {
    last: Snapshot<Last>,
}

impl Model for Spent {
    ghost use Rattle.std.specs.Prelude.{◌+◌};
    ghost use Rattle.answer_log.specs.Spending.{Spending};

    ghost Value = { Spending };

    ghost use Rattle.answer_log.specs.Spent.{spent_with};

    ghost view = { λ it. spent_with it.last.value };

    // How much was spent.
    ghost size = { λ it. it.links + it.tries + it.missed };
}

impl Spent {
    /// Nothing.
    pub(crate) fn nothing() -> Spent
        ensures { result ≡ nothing }
    {
        Spent {
            last: Snapshot::of(&Last::Nothing),
        }
    }

    /// With one link more.
    pub(crate) fn with_link(&self) -> Spent
        ensures { result ≡ one_link self.now }
    {
        Spent {
            last: Snapshot::of(&Last::Link(Snapshot::of(self))),
        }
    }

    /// With one try more.
    pub(crate) fn with_try(&self) -> Spent
        ensures { result ≡ one_try self.now }
    {
        Spent {
            last: Snapshot::of(&Last::Try(Snapshot::of(self))),
        }
    }

    /// With one more number that led to no node.
    pub(crate) fn with_miss(&self) -> Spent
        ensures { result ≡ one_miss self.now }
    {
        Spent {
            last: Snapshot::of(&Last::Miss(Snapshot::of(self))),
        }
    }
}
