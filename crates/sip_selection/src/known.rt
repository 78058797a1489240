//! The answers that a choice has (RFC 3263 4).
ghost use Rattle.std.specs.Prelude.{◌≡◌, ◌∷◌, ◌++◌, [], List, drop, length, IfOk, OnOk, OnErr};
ghost use Rattle.std.specs.Arc.{arc_value};
ghost use Rattle.std.specs.List.{find};
ghost use Rattle.std.specs.Option.{option_map};
ghost use Rattle.dns_answers.specs.Found.{answer_in};
ghost use Rattle.dns_message.specs.Questions.{same_question};
ghost use Rattle.sip_selection.specs.Known.{Given, find_answer};
ghost use Rattle.sip_selection.specs.Views.{hash_of_name};

use dns_answers::{Answer, FoundAnswer};
use dns_message::{Kind, Question};
use dns_name::Name;
use std::alloc::{AllocError, Global};
use std::hash::{FoldHasher, Hasher};
use std::marker::Model;
use std::sync::Arc;

/// The hash of a name.
pub(crate) fn hash_of_name(name: &Name) -> u64
    ensures { result ≡ hash_of_name name.now }
{
    let mut hasher = FoldHasher::default();
    hasher.write(name.wire());
    hasher.finish()
}

/// A question, with the hash of its name.
#[derive(Drop)]
struct Hashed {
    name_hash: u64,
    question: Question,
}

impl Model for Hashed {
    ghost use Rattle.std.specs.Prelude.{◌≡◌};
    ghost use Rattle.dns_message.specs.declared.question.Question.{Question};
    ghost use Rattle.sip_selection.specs.Views.{hash_of_name};

    ghost Value = { Question };

    ghost view = { λ it. it.question };

    ghost invariant = { λ it. it.name_hash ≡ hash_of_name it.question.name };
}

impl Hashed {
    /// Whether it is the question for this kind of records of a name, which has this hash. Names
    /// are compared only where their hashes are the same.
    fn is(&self, name_hash: u64, name: &Name, kind: Kind) -> bool
        requires { name_hash ≡ hash_of_name name.now }
        ensures { result ≡ same_question self.now (record { name = name.now; kind = kind }) }
    {
        if self.name_hash != name_hash {
            return false;
        }
        self.question.kind == kind && self.question.name == *name
    }

    /// A copy.
    fn try_clone(&self) -> Result<Hashed, AllocError>
        ensures { IfOk result (λ it. it ≡ self.now) }
    {
        Ok(Hashed {
            name_hash: self.name_hash,
            question: self.question.try_clone()?,
        })
    }
}

/// The answer that was given to a question.
#[derive(Drop)]
struct GivenAnswer {
    asked: Hashed,
    answer: Arc<Answer>,
}

impl Model for GivenAnswer {
    ghost use Rattle.std.specs.Arc.{arc_value};
    ghost use Rattle.sip_selection.specs.Known.{Given};

    ghost Value = { Given };

    ghost view = { λ it. record { question = it.asked; answer = arc_value it.answer } };
}

impl GivenAnswer {
    /// The same, of whose answer this is one more owner.
    fn try_clone(&self) -> Result<GivenAnswer, AllocError>
        ensures same { IfOk result (λ it. it ≡ self.now) }
    {
        Ok(GivenAnswer {
            asked: self.asked.try_clone()?,
            answer: Arc::try_clone(&self.answer)?,
        })
    }
}

/// The answer to a question that was found since.
#[derive(Drop)]
struct LentAnswer<'s> {
    asked: Hashed,
    answer: FoundAnswer<'s>,
}

impl<'s> Model for LentAnswer<'s> {
    ghost use Rattle.dns_answers.specs.Found.{answer_in};
    ghost use Rattle.sip_selection.specs.Known.{Given};

    ghost Value = { Given };

    ghost view = { λ it. record { question = it.asked; answer = answer_in it.answer } };
}

impl<'s> LentAnswer<'s> {
    /// The same, to keep.
    fn try_to_owned(&self) -> Result<GivenAnswer, AllocError>
        ensures same { IfOk result (λ it. it ≡ self.now) }
    {
        Ok(GivenAnswer {
            asked: self.asked.try_clone()?,
            answer: Arc::try_clone(self.answer.as_arc())?,
        })
    }
}

/// The first one of the question for this kind of records of a name, which has this hash.
fn first_of<'e, 's>(
    entries: &'e [LentAnswer<'s>],
    name_hash: u64,
    name: &Name,
    kind: Kind,
) -> Option<&'e LentAnswer<'s>>
    requires { name_hash ≡ hash_of_name name.now }
    ensures { option_map (λ entry. entry.now) result ≡ find (λ it. same_question it.question
        (record { name = name.now; kind = kind })) entries.now }
{
    entries
        .iter()
        .find(|entry| entry.asked.is(name_hash, name, kind))
}

/// Adds copies of those behind so many.
fn push_given(
    entries: &mut Vec<GivenAnswer>,
    others: &[GivenAnswer],
    count: usize,
) -> Result<(), AllocError>
    ensures { OnOk result (entries.new.items ≡ entries.old.items ++ drop count others.now) }
{
    for at in count..others.len() {
        entries.push(others[at].try_clone()?)?;
    }
    Ok(())
}

/// Adds those behind so many that were found, to keep.
fn push_found(
    entries: &mut Vec<GivenAnswer>,
    others: &[LentAnswer<'_>],
    count: usize,
) -> Result<(), AllocError>
    ensures { OnOk result (entries.new.items ≡ entries.old.items ++ drop count others.now) }
{
    for at in count..others.len() {
        entries.push(others[at].try_to_owned()?)?;
    }
    Ok(())
}

/// The answers that were given, in the order in which they came.
#[derive(Drop)]
pub(crate) struct Known {
    entries: Vec<GivenAnswer>,
}

impl Model for Known {
    ghost use Rattle.std.specs.Prelude.{List};
    ghost use Rattle.sip_selection.specs.Known.{Given};

    ghost Value = { List Given };

    ghost view = { λ it. it.entries.items };
}

impl Known {
    /// None.
    pub(crate) fn new(alloc: Global) -> Known
        ensures { result ≡ [] }
    {
        Known {
            entries: Vec::new(alloc),
        }
    }

    /// The first answer to the question for this kind of records of a name, which has this hash.
    fn answer_to(&self, name_hash: u64, name: &Name, kind: Kind) -> Option<&Arc<Answer>>
        requires { name_hash ≡ hash_of_name name.now }
        ensures { option_map (λ answer. arc_value answer.now) result
            ≡ find_answer self.now (record { name = name.now; kind = kind }) }
    {
        let entry = self
            .entries
            .iter()
            .find(|entry| entry.asked.is(name_hash, name, kind))?;
        Some(&entry.answer)
    }

    /// Adds the answer to a question that had none.
    pub(crate) fn push(
        &mut self,
        question: &Question,
        answer: Arc<Answer>,
    ) -> Result<(), AllocError>
        ensures pushed { OnOk result (self.new
            ≡ self.old ++ record { question = question.now; answer = arc_value answer } ∷ []) }
        ensures unchanged { OnErr result (self.new ≡ self.old) }
    {
        let name_hash = hash_of_name(&question.name);
        let question = question.try_clone()?;
        let asked = Hashed {
            name_hash,
            question,
        };
        self.entries.push(GivenAnswer { asked, answer })?;
        Ok(())
    }

    /// Takes the last one away.
    pub(crate) fn pop(&mut self)
        ensures { (others : List Given) (last : Given) → self.old ≡ others ++ last ∷ []
            → self.new ≡ others }
    {
        let _ = self.entries.pop();
    }

    /// How many there are.
    pub(crate) fn count(&self) -> usize
        ensures { result ≡ length self.now }
    {
        self.entries.len()
    }

    /// Adds these.
    pub(crate) fn append(&mut self, mut others: Known) -> Result<(), AllocError>
        ensures added { OnOk result (self.new ≡ self.old ++ others) }
        ensures unchanged { OnErr result (self.new ≡ self.old) }
    {
        self.entries.append(&mut others.entries)
    }
}

/// The answers that a choice has: those that were given, and behind them those that were found
/// since.
#[derive(Drop)]
pub(crate) struct Answers<'s> {
    given: &'s Known,
    found: Vec<LentAnswer<'s>>,
}

impl<'s> Model for Answers<'s> {
    ghost use Rattle.std.specs.Prelude.{List, ◌++◌};
    ghost use Rattle.sip_selection.specs.Known.{Given};

    ghost Value = { List Given };

    ghost view = { λ it. it.given.now ++ it.found.items };
}

/// How many answers there is room for once one is found: few requests use more.
const FIRST_ROOM: usize = 8;

impl<'s> Answers<'s> {
    /// Those that were given.
    pub(crate) fn given(alloc: Global, given: &'s Known) -> Answers<'s>
        ensures { result ≡ given.now }
    {
        Answers {
            given,
            found: Vec::new(alloc),
        }
    }

    /// The answer to the question for this kind of records of a name, which has this hash.
    #[inline(always)]
    pub(crate) fn answer_to(
        &self,
        name_hash: u64,
        name: &Name,
        kind: Kind,
    ) -> Result<Option<FoundAnswer<'s>>, AllocError>
        requires { name_hash ≡ hash_of_name name.now }
        ensures { IfOk result (λ found. option_map answer_in found
            ≡ find_answer self.now (record { name = name.now; kind = kind })) }
    {
        let given = self.given;
        if let Some(answer) = given.answer_to(name_hash, name, kind) {
            return Ok(Some(FoundAnswer::Borrowed(answer)));
        }
        match first_of(&self.found, name_hash, name, kind) {
            Some(entry) => Ok(Some(entry.answer.try_clone()?)),
            None => Ok(None),
        }
    }

    /// Adds the answer to a question that had none.
    #[inline(always)]
    pub(crate) fn push(
        &mut self,
        name_hash: u64,
        question: Question,
        answer: FoundAnswer<'s>,
    ) -> Result<(), AllocError>
        requires { name_hash ≡ hash_of_name question.name }
        ensures pushed { OnOk result (self.new
            ≡ self.old ++ record { question = question; answer = answer_in answer.entry } ∷ []) }
        ensures unchanged { OnErr result (self.new ≡ self.old) }
    {
        if self.found.is_empty() {
            self.found.reserve(FIRST_ROOM)?;
        }
        let asked = Hashed {
            name_hash,
            question,
        };
        self.found.push(LentAnswer { asked, answer })?;
        Ok(())
    }

    /// Those behind so many of them, to keep.
    pub(crate) fn behind(self, count: usize) -> Result<Known, AllocError>
        ensures { IfOk result (λ known. known ≡ drop count self.entry) }
    {
        let mut entries = Vec::new(*self.found.allocator());
        let given = self.given;
        push_given(&mut entries, &given.entries, count)?;
        push_found(
            &mut entries,
            &self.found,
            count.saturating_sub(given.count()),
        )?;
        Ok(Known { entries })
    }
}
