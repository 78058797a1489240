//! The nodes of a shared cache.
ghost use Rattle.std.specs.Prelude.{◌≡◌, ◌↔◌, ◌+◌, ◌<◌, IsTrue};
ghost use Rattle.std.specs.Arc.{arc_value};
ghost use Rattle.dns_message.specs.Questions.{same_question};
ghost use Rattle.answer_log.specs.Groups.{hash_of, hashed_of};
ghost use Rattle.answer_cache.specs.declared.node.ShelfRefusal.TheVariants as refusals;

use answer_log::{SeenLog, Word};
use boxcar::Keeps;
use boxcar::tag::Names;
use dns_answers::{Answer, Moment};
use dns_message::{Question, law_same_questions_are_equal};
use std::alloc::{AllocError, Global};
use std::sync::Arc;

/// A question with its hash.
#[derive(Clone, Copy)]
pub(crate) struct Hashed<'a> {
    pub question: &'a Question,
    pub hash: u32,
}

/// A store with its number, the hash of its question, its link to the node of its group placed
/// before it, and what its seat had seen when it was named. It stays on its shelf as it is, but for
/// the link until it is placed.
#[derive(Drop)]
pub struct Node {
    pub node: u64,
    pub tag: u32,
    pub link: Word,
    pub question: Question,
    pub answer: Arc<Answer>,
    pub moment: Moment,
    pub seen: SeenLog,
}

impl Node {
    /// Whether it is of a question with this hash. Hashes are compared before names.
    pub(crate) fn is_of(&self, tag: u32, question: &Question) -> bool
        requires node { self.now.tag ≡ hash_of (hashed_of self.now.question) }
        requires question { tag ≡ hash_of (hashed_of question.now) }
        ensures { result ≡ same_question self.now.question question.now }
    {
        law_same_questions_are_equal();
        self.tag == tag && self.question == *question
    }

    /// Whether its answer lives at a moment.
    pub(crate) fn lives_at(&self, now: Moment) -> bool
        ensures { IsTrue result ↔ (now < self.now.moment + (arc_value self.now.answer).life) }
    {
        now.get() < self.moment.get() + u64::from(self.answer.life())
    }
}

/// Why there is no node on a shelf.
#[derive(Clone, Copy)]
pub(crate) enum ShelfRefusal {
    /// None was named.
    Unnamed,
    /// A node was named, and the shelf did not take it at its place.
    Untaken,
}

impl From<AllocError> for ShelfRefusal {
    ghost from_gives = { λ _ refusal. refusal ≡ refusals.Unnamed };

    fn from(_: AllocError) -> ShelfRefusal {
        ShelfRefusal::Unnamed
    }
}

/// What holds of each node on a shelf.
pub struct Shelved;

impl Keeps<Node> for Shelved {
    ghost use Rattle.answer_cache.specs.Nodes.{IsShelved};

    ghost holds = { λ tag index node. IsShelved tag node };
}

/// The nodes of a seat, to which it alone adds.
pub(crate) type Shelf = boxcar::Vec<Node, Global, Shelved>;

/// The tag of a shelf has the numbers of the book.
pub(crate) struct ByBook;

impl Names<SeenLog> for ByBook {
    ghost use Rattle.answer_cache.specs.Nodes.{numbers_of};

    ghost numbers = { λ seen. numbers_of seen.book };
}
