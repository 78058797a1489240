//! A question on its way along a chain that servers cut short.
ghost use Rattle.std.specs.Prelude.{◌≡◌, ◌∷◌, [], ℕ, IfOk, MatchOption};
ghost use Rattle.dns_message.specs.Kinds.{type_of_kind};
ghost use Rattle.dns_message.specs.Written.{asked_of};
ghost use Rattle.dns_message.specs.declared.kind.Kind as kinds;
ghost use Rattle.dns_message.specs.declared.question.Question as questions;
ghost use Rattle.dns_transport.specs.CnameChains.{Asks};

use dns_answers::{FollowUp, follow_up, is_reply_to, join_replies};
use dns_message::{
    Asked, CLASS_IN, Kind, Message, Question, WriteRefusal, law_one_message_in_front, message_in,
    write_message, write_query,
};
use std::alloc::{AllocError, Global};
use std::marker::Model;

/// A query, and its question.
#[derive(Drop)]
struct Query {
    id: u16,
    question: Question,
}

/// What came of a question on its way: the octets of the query that began it, its id and question,
/// the replies so far put together, and how many links these have.
#[derive(Drop)]
struct SoFar {
    octets: Vec<u8>,
    query: Query,
    reply: Message,
    links: usize,
}

/// A question on its way: what came of it, and its follow-up.
#[derive(Drop)]
pub(crate) struct OpenChain {
    so_far: SoFar,
    follow_up: Question,
    follow_up_octets: Vec<u8>,
}

impl Model for OpenChain {
    ghost use Rattle.std.specs.Prelude.{◌<◌};
    ghost use Rattle.dns_transport.specs.CnameChains.{OpenValue};

    ghost Value = { OpenValue };

    ghost view = { λ it. record {
      query = it.so_far.octets.items;
      id = it.so_far.query.id;
      question = it.so_far.query.question;
      so_far = it.so_far.reply;
      links = it.so_far.links;
      follow_up = it.follow_up;
      follow_up_query = it.follow_up_octets.items;
    } };

    ghost invariant = { λ it. it.so_far.reply.header.opcode < 16 };
}

/// What a message means to a question on its way.
#[derive(Drop)]
pub(crate) enum Step {
    /// It is no reply to the follow-up.
    Stray(OpenChain),
    /// It is one, and is cut short, too.
    FollowUp(OpenChain),
    /// It is one, and these are the octets of the replies, put together.
    Ended(Vec<u8>),
}

/// The kind of a number of a type.
fn kind_of(type_number: u16) -> Option<Kind>
    ensures { MatchOption result ((kind : kinds.Kind) → type_of_kind kind ≡ type_number → ⊥)
        (λ kind. type_of_kind kind ≡ type_number) }
{
    match type_number {
        1 => Some(Kind::A),
        28 => Some(Kind::Aaaa),
        33 => Some(Kind::Srv),
        35 => Some(Kind::Naptr),
        _ => None,
    }
}

/// The question of one in class IN, of a kind that is asked.
fn question_of(asked: &Asked) -> Result<Option<Question>, AllocError>
    ensures { IfOk result (λ it. MatchOption it
        ((question : questions.Question) → asked.now ≡ asked_of question → ⊥)
        (λ question. asked.now ≡ asked_of question)) }
{
    if asked.class_number != CLASS_IN {
        return Ok(None);
    }
    let Some(kind) = kind_of(asked.type_number) else {
        return Ok(None);
    };
    let name = asked.name.try_clone()?;
    Ok(Some(Question { name, kind }))
}

/// The question of these, if there is one alone, in class IN and of a kind that is asked.
fn question_in(asked: &[Asked]) -> Result<Option<Question>, AllocError>
    ensures { IfOk result (λ it. MatchOption it
        ((question : questions.Question) → asked.now ≡ asked_of question ∷ [] → ⊥)
        (λ question. asked.now ≡ asked_of question ∷ [])) }
{
    match asked {
        [asked] => question_of(asked),
        _ => Ok(None),
    }
}

/// The id and the question of a query, if it has one alone, in class IN and of a kind that is
/// asked.
fn query_in(alloc: Global, octets: &[u8]) -> Result<Option<Query>, AllocError>
    ensures { IfOk result (λ it. MatchOption it
        ((id : ℕ) (question : questions.Question) → Asks octets.now id question → ⊥)
        (λ query. Asks octets.now query.id query.question)) }
{
    law_one_message_in_front();
    let Some(message) = message_in(alloc, octets)? else {
        return Ok(None);
    };
    let id = message.header.id;
    let Some(question) = question_in(message.questions.as_slice())? else {
        return Ok(None);
    };
    Ok(Some(Query { id, question }))
}

impl SoFar {
    ghost use Rattle.std.specs.Prelude.{◌≡◌, ◌<◌, IfOk};
    ghost use Rattle.dns_answers.specs.CutChains.{AsksOn, IsWhole, joined};
    ghost use Rattle.dns_message.specs.Written.{plain, query_of};
    ghost use Rattle.dns_transport.specs.Steps.{ComesTo};

    /// The same with a reply put behind the others.
    fn join(self, alloc: Global, reply: Message) -> Result<SoFar, AllocError>
        ensures began { IfOk result (λ it. it.octets ≡ self.octets) }
        ensures query { IfOk result (λ it. it.query ≡ self.query) }
        ensures replies { IfOk result (λ it. it.reply ≡ joined self.reply reply) }
        ensures links { IfOk result (λ it. it.links ≡ self.links) }
    {
        let SoFar {
            octets,
            query,
            reply: first,
            links,
        } = self;
        let reply = join_replies(alloc, first, reply)?;
        Ok(SoFar {
            octets,
            query,
            reply,
            links,
        })
    }

    /// What is on its way where this question follows up.
    fn ask_follow_up(self, alloc: Global, follow_up: FollowUp) -> Result<OpenChain, AllocError>
        requires opcode { self.reply.header.opcode < 16 }
        ensures began { IfOk result (λ it. it.query ≡ self.octets.items) }
        ensures id { IfOk result (λ it. it.id ≡ self.query.id) }
        ensures question { IfOk result (λ it. it.question ≡ self.query.question) }
        ensures replies { IfOk result (λ it. it.so_far ≡ self.reply) }
        ensures links { IfOk result (λ it. it.links ≡ follow_up.links) }
        ensures follow_up { IfOk result (λ it. it.follow_up ≡ follow_up.question) }
        ensures asks { IfOk result
            (λ it. it.follow_up_query ≡ plain (query_of self.query.id follow_up.question)) }
    {
        let follow_up_octets = write_query(alloc, self.query.id, &follow_up.question)?;
        Ok(OpenChain {
            so_far: SoFar {
                links: follow_up.links,
                ..self
            },
            follow_up: follow_up.question,
            follow_up_octets,
        })
    }

    /// What came is followed up by this question.
    fn step_follow_up(self, alloc: Global, follow_up: FollowUp) -> Result<Step, WriteRefusal>
        requires opcode { self.reply.header.opcode < 16 }
        requires follow_up { AsksOn self.query.question self.reply self.links follow_up.question
            follow_up.links }
        ensures { IfOk result (ComesTo self) }
    {
        Ok(Step::FollowUp(self.ask_follow_up(alloc, follow_up)?))
    }

    /// What came is the whole reply.
    fn end(&self, alloc: Global) -> Result<Step, WriteRefusal>
        requires opcode { self.now.reply.header.opcode < 16 }
        requires rcode { self.now.reply.header.rcode < 16 }
        requires whole { IsWhole self.now.query.question self.now.reply self.now.links }
        ensures { IfOk result (ComesTo self.now) }
    {
        Ok(Step::Ended(write_message(alloc, &self.reply)?))
    }

    /// What came is followed up, or it is the whole reply.
    fn go_on(self, alloc: Global) -> Result<Step, WriteRefusal>
        requires opcode { self.reply.header.opcode < 16 }
        requires rcode { self.reply.header.rcode < 16 }
        ensures { IfOk result (ComesTo self) }
    {
        match follow_up(alloc, &self.query.question, &self.reply, self.links)? {
            Some(follow_up) => self.step_follow_up(alloc, follow_up),
            None => self.end(alloc),
        }
    }
}

impl OpenChain {
    ghost use Rattle.std.specs.Prelude.{◌≡◌, ◌<◌, ℕ, List, IfOk, MatchOption};
    ghost use Rattle.std.specs.Str.{bytes_eq};
    ghost use Rattle.dns_answers.specs.CutChains.{AsksOn, IsWhole};
    ghost use Rattle.dns_transport.specs.CnameChains.{Begun, IsNext, IsNotCut, IsStray};
    ghost use Rattle.dns_transport.specs.Steps.{GoesOn, Steps};

    /// What a query and this reply to it begin, where this question follows up.
    fn begin_with(
        alloc: Global,
        octets: &[u8],
        query: Query,
        so_far: Message,
        follow_up: FollowUp,
    ) -> Result<Option<OpenChain>, AllocError>
        requires opcode { so_far.header.opcode < 16 }
        requires follow_up { AsksOn query.question so_far 0 follow_up.question follow_up.links }
        ensures { IfOk result (λ it. MatchOption it ⊥
            (GoesOn octets.now query.id query.question so_far 0)) }
    {
        let octets = Vec::from_slice(alloc, octets)?;
        let so_far = SoFar {
            octets,
            query,
            reply: so_far,
            links: 0,
        };
        Ok(Some(so_far.ask_follow_up(alloc, follow_up)?))
    }

    /// What a query and this reply to it begin, if that is cut short.
    fn begin_by(
        alloc: Global,
        octets: &[u8],
        query: Query,
        so_far: Message,
    ) -> Result<Option<OpenChain>, AllocError>
        requires opcode { so_far.header.opcode < 16 }
        ensures { IfOk result (λ it. MatchOption it (IsWhole query.question so_far 0)
            (GoesOn octets.now query.id query.question so_far 0)) }
    {
        match follow_up(alloc, &query.question, &so_far, 0)? {
            Some(follow_up) => OpenChain::begin_with(alloc, octets, query, so_far, follow_up),
            None => Ok(None),
        }
    }

    /// What a query and the reply to it begin, if that is cut short.
    pub(crate) fn begin(
        alloc: Global,
        octets: &[u8],
        reply: &[u8],
    ) -> Result<Option<OpenChain>, AllocError>
        ensures { IfOk result (λ it. MatchOption it (IsNotCut octets.now reply.now)
            (Begun octets.now reply.now)) }
    {
        law_one_message_in_front();
        let Some(query) = query_in(alloc, octets)? else {
            return Ok(None);
        };
        match message_in(alloc, reply)? {
            Some(so_far) => OpenChain::begin_by(alloc, octets, query, so_far),
            None => Ok(None),
        }
    }

    /// Whether this query began it.
    pub(crate) fn is_of(&self, query: &[u8]) -> bool
        ensures { result ≡ bytes_eq self.now.query query.now }
    {
        self.so_far.octets.as_slice() == query
    }

    /// Whether this query is the follow-up.
    pub(crate) fn asks(&self, query: &[u8]) -> bool
        ensures { result ≡ bytes_eq self.now.follow_up_query query.now }
    {
        self.follow_up_octets.as_slice() == query
    }

    /// The octets of the follow-up.
    pub(crate) fn follow_up_octets(&self) -> &[u8]
        ensures { result.now ≡ self.now.follow_up_query }
    {
        self.follow_up_octets.as_slice()
    }

    /// The message in front of these octets, if it is a reply to the follow-up.
    fn next_in(&self, alloc: Global, octets: &[u8]) -> Result<Option<Message>, AllocError>
        ensures { IfOk result (λ it. MatchOption it (IsStray self.now octets.now)
            (IsNext self.now octets.now)) }
    {
        law_one_message_in_front();
        let Some(reply) = message_in(alloc, octets)? else {
            return Ok(None);
        };
        if is_reply_to(&self.follow_up, &reply) {
            Ok(Some(reply))
        } else {
            Ok(None)
        }
    }

    /// What a reply to the follow-up means to it.
    fn take(self, alloc: Global, reply: Message) -> Result<Step, WriteRefusal>
        requires rcode { reply.header.rcode < 16 }
        ensures { (octets : List ℕ) → IsNext self octets reply → IfOk result (Steps self octets) }
    {
        self.so_far.join(alloc, reply)?.go_on(alloc)
    }

    /// What a message means to it.
    pub(crate) fn step(self, alloc: Global, octets: &[u8]) -> Result<Step, WriteRefusal>
        ensures { IfOk result (Steps self octets.now) }
    {
        match self.next_in(alloc, octets)? {
            Some(reply) => self.take(alloc, reply),
            None => Ok(Step::Stray(self)),
        }
    }
}
