//! A request as it was submitted.
ghost use Rattle.std.specs.Prelude.{◌≡◌, IfOk};
ghost use Rattle.sip_resolver.specs.Submissions.{words_in};
ghost use Rattle.srv_choice.specs.Draws.{words_of};

use dns_answers::Moment;
use sip_selection::{Caps, Request};
use srv_choice::{RandomWords, Words};
use std::alloc::{AllocError, Global};

/// The random words of a request.
#[derive(Drop)]
pub(crate) enum SubmittedWords {
    /// Those of a draw.
    Drawn { key: [u8; 32], draw: u64 },
    /// A copy of words that were given.
    Given(Box<Words>),
}

impl SubmittedWords {
    /// These words. Those that are drawn take no memory.
    pub(crate) fn of(alloc: Global, words: &RandomWords<'_>) -> Result<SubmittedWords, AllocError>
        ensures { IfOk result (λ it. words_in it ≡ words_of words.now) }
    {
        match words {
            RandomWords::Drawn { key, number } => Ok(SubmittedWords::Drawn {
                key: *key,
                draw: *number,
            }),
            RandomWords::Given(given) => Ok(SubmittedWords::Given(Box::new(alloc, **given)?)),
        }
    }

    /// The words, for a choice.
    pub(crate) fn random_words(&self) -> RandomWords<'_>
        ensures { words_of result ≡ words_in self.now }
    {
        match self {
            SubmittedWords::Drawn { key, draw } => RandomWords::Drawn {
                key: *key,
                number: *draw,
            },
            SubmittedWords::Given(words) => RandomWords::Given(words),
        }
    }
}

/// A request as it was submitted, which stays as it is until the request ends.
#[derive(Drop)]
pub(crate) struct Submitted {
    pub(crate) number: u64,
    pub(crate) request: Request,
    pub(crate) caps: Caps,
    pub(crate) words: SubmittedWords,
    /// The moment by which it ends, if it has one.
    pub(crate) until: Option<Moment>,
}
