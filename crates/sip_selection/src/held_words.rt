//! The random words that a choice keeps while it waits.
ghost use Rattle.std.specs.Prelude.{◌≡◌, IfOk, OnErr};
ghost use Rattle.sip_selection.specs.HeldWords.{AreBoxed, AreHeld, AreThere, held_words};
ghost use Rattle.sip_selection.specs.Stages.{IsAsking};
ghost use Rattle.srv_choice.specs.Draws.{words_of};

use crate::boxed::Boxed;
use crate::stage::Step;
use srv_choice::{RandomWords, Words};
use std::alloc::{AllocError, Global};
use std::snapshot::Snapshot;

/// The random words of a choice.
#[derive(Drop)]
pub(crate) enum HeldWords {
    /// Words that were given, as contracts see them; and the same in memory, where a question is
    /// asked.
    Given(Snapshot<Words>, Option<Boxed<Words>>),
    /// Those of a draw. They take no memory.
    Drawn { key: [u8; 32], number: u64 },
}

/// The words in memory of their own, where a question is asked.
fn boxed_words(
    alloc: Global,
    step: &Step,
    words: &Words,
) -> Result<Option<Boxed<Words>>, AllocError>
    ensures boxed { IfOk result (λ boxed. AreBoxed step.now boxed words.now) }
    ensures memory { OnErr result (IsAsking step.now) }
{
    match step {
        Step::Ask(_, _) => Ok(Some(Boxed::new(alloc, *words)?)),
        Step::Found | Step::Refused(_) => Ok(None),
    }
}

impl HeldWords {
    /// These words, for a choice that came to a step.
    pub(crate) fn of(
        alloc: Global,
        step: &Step,
        words: &RandomWords<'_>,
    ) -> Result<HeldWords, AllocError>
        ensures words { IfOk result (λ held. held_words held ≡ words_of words.now) }
        ensures held { IfOk result (AreHeld step.now) }
        ensures memory { OnErr result (IsAsking step.now) }
    {
        match words {
            RandomWords::Given(given) => {
                let boxed = boxed_words(alloc, step, given)?;
                Ok(HeldWords::Given(Snapshot::of(given), boxed))
            }
            RandomWords::Drawn { key, number } => Ok(HeldWords::Drawn {
                key: *key,
                number: *number,
            }),
        }
    }

    /// The words of a choice that asks a question.
    pub(crate) fn random_words(&self) -> RandomWords<'_>
        requires { AreThere self.now }
        ensures { words_of result ≡ held_words self.now }
    {
        match self {
            HeldWords::Given(_, Some(boxed)) => RandomWords::Given(boxed.as_ref()),
            HeldWords::Given(_, None) => unreachable!(),
            HeldWords::Drawn { key, number } => RandomWords::Drawn {
                key: *key,
                number: *number,
            },
        }
    }
}
