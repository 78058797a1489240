//! Where answers come from that a choice was not given.
ghost use Rattle.std.specs.Prelude.{◌≡◌, ◌≤◌, ◌∷◌, ◌++◌, [], ⊤, IfOk, OnErr, OnOk, MatchResult, Ok, Err, Option, Some, None};
ghost use Rattle.std.specs.Option.{option_map};
ghost use Rattle.dns_answers.specs.Found.{answer_in};
ghost use Rattle.dns_answers.specs.Records.{count_of};
ghost use Rattle.dns_answers.specs.Values.{AnswerValue};
ghost use Rattle.sip_selection.specs.Consulting as spec;
ghost use Rattle.sip_selection.specs.Known.{answer_to};
ghost use Rattle.sip_selection.specs.Stages.{Extends};
ghost use Rattle.sip_selection.specs.Views.{LacksAt, StopsAt, hash_of_name};
ghost use Rattle.sip_selection.specs.declared.source.Stop.TheVariants as stop;
ghost use Rattle.dns_message.specs.declared.question.Question as question;

use crate::boxed::Boxed;
use crate::known::hash_of_name;
use crate::stage::{Context, Walk};
use dns_answers::FoundAnswer;
use dns_message::{Kind, Question};
use dns_name::Name;
use std::alloc::{AllocError, AllocFailed};

/// A source of answers, which a choice asks for those that it was not given.
pub trait AnswerSource {
    /// What a caller asks through.
    type Seat;

    // The source can be asked through the seat.
    ghost ready: { Self → Self.Seat → Type 0 };

    // What a call may do to a seat.
    ghost goes: { Self.Seat → Self.Seat → Type 0 };

    // What the source said last to a question: its answer, or that it has none.
    ghost says: { Self → Self.Seat → question.Question → Option AnswerValue → Type 0 };

    /// The answer to a question, if the source has one.
    fn answer<'s>(
        &'s self,
        seat: &mut Self::Seat,
        question: &Question,
    ) -> Result<Option<FoundAnswer<'s>>, AllocError>
        requires { ready self.now seat.old }
        ensures ready { ready self.now seat.new }
        ensures goes { goes seat.old seat.new }
        ensures says { IfOk result
            (λ found. says self.now seat.new question.now (option_map answer_in found)) };
}

/// A source that has no answer.
#[derive(Clone, Copy)]
pub(crate) struct NoSource;

impl AnswerSource for NoSource {
    type Seat = ();

    ghost use Rattle.std.specs.Prelude.{◌≡◌, ⊤, None};

    ghost ready = { λ _ _. ⊤ };

    ghost goes = { λ _ _. ⊤ };

    ghost says = { λ _ _ _ found. found ≡ None };

    fn answer<'s>(
        &'s self,
        _seat: &mut (),
        _question: &Question,
    ) -> Result<Option<FoundAnswer<'s>>, AllocError> {
        Ok(None)
    }
}

/// Why an answer is not known.
#[derive(Drop)]
pub(crate) enum Stop {
    /// This question has none.
    Need(Boxed<Question>),
    /// Memory was refused.
    Memory,
}

impl From<AllocError> for Stop {
    ghost from_gives = { λ _ it. it ≡ stop.Memory };

    fn from(_: AllocError) -> Stop {
        Stop::Memory
    }
}

impl<T: Drop> From<AllocFailed<T>> for Stop {
    ghost from_gives = { λ _ it. it ≡ stop.Memory };

    fn from(_: AllocFailed<T>) -> Stop {
        Stop::Memory
    }
}

/// Adds an answer of the source, which is given from then on.
#[inline(always)]
fn add<'s>(
    walk: &mut Walk<'s>,
    name_hash: u64,
    question: Question,
    answer: FoundAnswer<'s>,
) -> Result<FoundAnswer<'s>, AllocError>
    requires { name_hash ≡ hash_of_name question.name }
    ensures answer { IfOk result (λ found. answer_in found ≡ answer_in answer.entry) }
    ensures added { OnOk result (walk.new.known ≡ walk.old.known
        ++ record { question = question; answer = answer_in answer.entry } ∷ []) }
    ensures unchanged { OnErr result (walk.new.known ≡ walk.old.known) }
    ensures targets { walk.new.targets ≡ walk.old.targets }
    ensures few { count_of (answer_in answer.entry).records ≤ 32 }
{
    // an answer has few records
    let _records = answer.as_arc().records();
    let found = answer.try_clone()?;
    walk.known.push(name_hash, question, answer)?;
    Ok(found)
}

/// The answer of the source to a question without one, which is given from then on; or that
/// question.
#[inline(always)]
fn drawn<'s, S: AnswerSource>(
    walk: &mut Walk<'s>,
    seat: &mut S::Seat,
    context: &Context<'_, 's, S>,
    name_hash: u64,
    question: Question,
) -> Result<FoundAnswer<'s>, Stop>
    requires hash { name_hash ≡ hash_of_name question.name }
    requires unknown { answer_to walk.old.known question ≡ Err question }
    requires needs { spec.Needs (spec.inquiry context.now) walk.old.known
        (λ all. answer_to all question) }
    requires consulted { spec.Consulted (S.ready context.now.source.now) S.goes
        (S.says context.now.source.now) (spec.inquiry context.now) context.now.start.value
        seat.old walk.old.known }
    ensures consulted { spec.Consulted (S.ready context.now.source.now) S.goes
        (S.says context.now.source.now) (spec.inquiry context.now) context.now.start.value
        seat.new walk.new.known }
    ensures extends { Extends walk.old.known walk.new.known }
    ensures targets { walk.new.targets ≡ walk.old.targets }
    ensures answer { MatchResult result
        (λ answer. answer_to walk.new.known question ≡ Ok (answer_in answer))
        (λ it. StopsAt it (answer_to walk.new.known question)) }
    ensures lacks { MatchResult result (λ _. ⊤)
        (LacksAt (S.says context.now.source.now seat.new)) }
{
    match context.source.answer(seat, &question)? {
        Some(answer) => Ok(add(walk, name_hash, question, answer)?),
        None => Err(Stop::Need(Boxed::new(context.alloc, question)?)),
    }
}

/// The answer to the question for this kind of records of a name: the one that was given, or else
/// the one of the source, which is given from then on; or that question.
#[inline(always)]
pub(crate) fn answer_from<'s, S: AnswerSource>(
    walk: &mut Walk<'s>,
    seat: &mut S::Seat,
    context: &Context<'_, 's, S>,
    name: &Name,
    kind: Kind,
) -> Result<FoundAnswer<'s>, Stop>
    requires needs { spec.Needs (spec.inquiry context.now) walk.old.known
        (λ all. answer_to all (record { name = name.now; kind = kind })) }
    requires consulted { spec.Consulted (S.ready context.now.source.now) S.goes
        (S.says context.now.source.now) (spec.inquiry context.now) context.now.start.value
        seat.old walk.old.known }
    ensures consulted { spec.Consulted (S.ready context.now.source.now) S.goes
        (S.says context.now.source.now) (spec.inquiry context.now) context.now.start.value
        seat.new walk.new.known }
    ensures extends { Extends walk.old.known walk.new.known }
    ensures targets { walk.new.targets ≡ walk.old.targets }
    ensures answer { MatchResult result
        (λ answer. answer_to walk.new.known (record { name = name.now; kind = kind })
        ≡ Ok (answer_in answer))
        (λ it. StopsAt it (answer_to walk.new.known (record { name = name.now; kind = kind }))) }
    ensures lacks { MatchResult result (λ _. ⊤)
        (LacksAt (S.says context.now.source.now seat.new)) }
{
    let name_hash = hash_of_name(name);
    match walk.known.answer_to(name_hash, name, kind)? {
        Some(answer) => Ok(answer),
        None => {
            let name = name.try_clone()?;
            let question = Question { name, kind };
            drawn(walk, seat, context, name_hash, question)
        }
    }
}
