//! The choice of one request, question by question (RFC 3263 4, 5).
ghost use Rattle.std.specs.Prelude.{◌≡◌, ◌≢◌, ◌↔◌, ◌≤◌, ◌++◌, [], List, length, None, IfErr, IfOk, IsTrue, Ok, OnErr, OnOk};
ghost use Rattle.std.specs.Arc.{arc_value};
ghost use Rattle.dns_answers.specs.Records.{count_of, kind_of};
ghost use Rattle.sip_selection.specs.Choice.{IsNotRefused, need, settled, targets};
ghost use Rattle.sip_selection.specs.Choices.{ChoiceIs, ChoiceLacks, IsSettled};
ghost use Rattle.sip_selection.specs.Asked.{ComesAfter, StandsAt, asking, left_after};
ghost use Rattle.sip_selection.specs.Consulting.{Consulted, Needs, StepLacks, asked_with, with_given};
ghost use Rattle.sip_selection.specs.Known.{Given};
ghost use Rattle.sip_selection.specs.Nexts.{next_of};
ghost use Rattle.sip_selection.specs.Requests.{IsRequestView, is_secure, request_of, target_of};
ghost use Rattle.sip_selection.specs.Selections.{AreAskedOneByOne, SelectionValue, begun, given_too, now_of};
ghost use Rattle.sip_selection.specs.Stages.{ComesTo, Extends, IsAsking, StageFits, name_of};
ghost use Rattle.sip_selection.specs.declared.target.Target.{Target};
ghost use Rattle.srv_choice.specs.Draws.{words_of};

use crate::boxed::Boxed;
use crate::caps::Caps;
use crate::choice::{begin, resume};
use crate::choice_laws::{
    law_numeric_targets_ask_nothing, law_questions_are_few, law_targets_are_few,
};
use crate::held_words::HeldWords;
use crate::known::Known;
use crate::reason::Reason;
use crate::request::Request;
use crate::request_view::RequestView;
use crate::source::{AnswerSource, NoSource};
use crate::stage::{Context, Stage, Step, Walk};
use crate::target::Target;
use dns_answers::Answer;
use dns_message::{Question, law_same_questions_are_equal};
use dns_name::Name;
use sip_uri::Host;
use srv_choice::{RandomWords, Words};
use std::alloc::{AllocError, Global};
use std::marker::Model;
use std::mem;
use std::snapshot::Snapshot;
use std::sync::Arc;
use thiserror::Error;

/// What is next for a request: a question, its targets, or the reason why it goes nowhere.
#[derive(Clone, Copy)]
pub enum Next<'a> {
    /// This question has to be answered.
    Ask(&'a Question),
    /// The request can be sent to these targets, which are to be tried in this order. There is at
    /// least one.
    Targets(&'a [Target]),
    /// The request goes nowhere, for this reason.
    Refused(Reason),
}

/// Why an answer was not taken, in the order of the checks.
#[derive(Clone, Copy, Debug, PartialEq, Eq, Error)]
pub enum GiveRefusal {
    /// The question is not the one that is asked.
    #[error("the question is not asked")]
    NotAsked,
    /// The records are of another kind than the question.
    #[error("the records are of another kind")]
    WrongKind,
    /// Memory was refused.
    #[error("out of memory")]
    Memory,
}

/// The choice of where one request goes, which asks for one answer at a time.
#[derive(Drop)]
pub struct Selection {
    request: Request,
    caps: Caps,
    words: HeldWords,
    /// The targets that were found.
    targets: Vec<Target>,
    /// The answers that were given.
    known: Known,
    step: Step,
}

impl Model for Selection {
    ghost use Rattle.sip_selection.specs.Asked.{StandsAt};
    ghost use Rattle.sip_selection.specs.Consulting.{asked_with};
    ghost use Rattle.sip_selection.specs.Selections.{AreAskedOneByOne, SelectionValue};
    ghost use Rattle.sip_selection.specs.HeldWords.{AreHeld, held_words};

    ghost Value = { SelectionValue };

    ghost view = { λ it. record {
      request = it.request;
      caps = it.caps;
      words = held_words it.words;
      given =
          it.known;
    } };

    ghost invariant = { λ it.
        StandsAt (asked_with it.request it.caps (held_words it.words) it.known) it.step
        it.targets.items
        × AreAskedOneByOne it.request it.caps (held_words it.words) it.known
        × AreHeld it.step it.words };
}

/// Adds the targets that were found behind the others. The first ones are not copied.
fn append(targets: &mut Vec<Target>, found: &mut Vec<Target>) -> Result<(), AllocError>
    ensures added { OnOk result (targets.new.items ≡ targets.old.items ++ found.old.items) }
    ensures unchanged { OnErr result (targets.new.items ≡ targets.old.items) }
{
    if targets.is_empty() {
        mem::swap(targets, found);
        return Ok(());
    }
    targets.extend_from_slice(found.as_slice())?;
    Ok(())
}

/// Adds the targets and the answers that were found. Where memory was refused all is as before.
fn keep(
    targets: &mut Vec<Target>,
    known: &mut Known,
    found: Known,
    mut found_targets: Vec<Target>,
) -> Result<(), AllocError>
    ensures targets { OnOk result
        (targets.new.items ≡ targets.old.items ++ found_targets.items) }
    ensures known { OnOk result (known.new ≡ known.old ++ found) }
    ensures unchanged { OnErr result
        ((targets.new.items ≡ targets.old.items) × (known.new ≡ known.old)) }
{
    let count = targets.len();
    append(targets, &mut found_targets)?;
    if known.append(found).is_err() {
        targets.truncate(count);
        return Err(AllocError);
    }
    Ok(())
}

/// What a choice that asks a question goes on from.
#[derive(Drop)]
struct Asked<'a> {
    alloc: Global,
    request: RequestView<'a>,
    caps: &'a Caps,
    words: &'a RandomWords<'a>,
    name: &'a Name,
    stage: &'a Stage,
}

/// What is next from a stage on, and the targets and the answers that are found.
fn resumed<'a, 's, S: AnswerSource>(
    known: &'s Known,
    seat: &mut S::Seat,
    source: &'s S,
    asked: &'a Asked<'a>,
) -> Result<(Step, Vec<Target>, Known), AllocError>
    requires fits { StageFits asked.now.stage.now }
    requires ready { S.ready source.now seat.old }
    requires needs { Needs (asking asked.now known.now) known.now (left_after asked.now []) }
    ensures goes { IfOk result (λ found. (front : List Target) → ComesAfter asked.now
        (known.now ++ found.2) front found.0 (front ++ found.1.items)) }
    ensures consulted { IfOk result (λ found. Consulted (S.ready source.now) S.goes
        (S.says source.now) (asking asked.now known.now) seat.old seat.new
        (known.now ++ found.2)) }
    ensures lacks { IfOk result (λ found. StepLacks (S.says source.now seat.new) found.0) }
    ensures goes_on { (given : List Given) × Consulted (S.ready source.now) S.goes
        (S.says source.now) (asking asked.now known.now) seat.old seat.new given }
{
    let mut walk = Walk::after(asked.alloc, known);
    let context = Context {
        alloc: asked.alloc,
        request: &asked.request,
        secure: asked.request.is_secure(),
        caps: asked.caps,
        words: asked.words,
        name: asked.name,
        source,
        start: Snapshot::of(seat),
        given: Snapshot::of(&walk.known),
    };
    let step = resume(&mut walk, seat, &context, asked.stage)?;
    let (targets, found) = walk.behind(known.count())?;
    Ok((step, targets, found))
}

/// Goes on from a stage, and adds the targets and the answers that are found. Where memory was
/// refused both are as before.
fn go_on<'a, S: AnswerSource>(
    targets: &mut Vec<Target>,
    known: &mut Known,
    seat: &mut S::Seat,
    source: &S,
    asked: &'a Asked<'a>,
) -> Result<Step, AllocError>
    requires fits { StageFits asked.now.stage.now }
    requires ready { S.ready source.now seat.old }
    requires needs { Needs (asking asked.now known.old) known.old
        (left_after asked.now targets.old.items) }
    ensures goes { IfOk result (λ step. ComesAfter asked.now known.new targets.old.items step
        targets.new.items) }
    ensures consulted { OnOk result (Consulted (S.ready source.now) S.goes (S.says source.now)
        (asking asked.now known.old) seat.old seat.new known.new) }
    ensures extends { OnOk result (Extends known.old known.new) }
    ensures lacks { IfOk result (StepLacks (S.says source.now seat.new)) }
    ensures goes_on { (given : List Given) × Consulted (S.ready source.now) S.goes
        (S.says source.now) (asking asked.now known.old) seat.old seat.new given }
    ensures unchanged { OnErr result
        ((targets.new.items ≡ targets.old.items) × (known.new ≡ known.old)) }
{
    let (step, found_targets, found) = resumed(known, seat, source, asked)?;
    keep(targets, known, found, found_targets)?;
    Ok(step)
}

/// What a choice over a source comes to.
#[derive(Drop)]
pub enum Choice {
    /// The request can be sent to these targets, which are to be tried in this order. There is at
    /// least one.
    Targets(Vec<Target>),
    /// The request goes nowhere, for this reason.
    Refused(Reason),
    /// The source lacks an answer. The choice asks for it, and has used the answers before it.
    Asks(Box<Selection>),
}

/// The choice where these targets are all that were found.
fn choice_of(targets: Vec<Target>) -> Choice
    ensures is { (it : SelectionValue) → now_of it ≡ settled (Ok targets.items)
        → ChoiceIs it result }
    ensures settled { IsSettled result }
{
    if targets.is_empty() {
        return Choice::Refused(Reason::NoAddress);
    }
    Choice::Targets(targets)
}

/// The choice of a request that came to a question, in memory of its own.
#[inline(never)]
fn asking_at(
    alloc: Global,
    request: &RequestView<'_>,
    caps: &Caps,
    words: &RandomWords<'_>,
    targets: Vec<Target>,
    known: Known,
    step: Step,
) -> Result<Box<Selection>, AllocError>
    requires view { IsRequestView request.now }
    requires stands { StandsAt
        (asked_with (request_of request.now) caps.now (words_of words.now) known) step
        targets.items }
    requires asked { AreAskedOneByOne (request_of request.now) caps.now (words_of words.now) known }
    ensures { IfOk result (λ it. it.value
        ≡ asked_with (request_of request.now) caps.now (words_of words.now) known) }
{
    let request = request.to_request(alloc)?;
    let selection = Selection::at_step(alloc, request, *caps, words, targets, known, step)?;
    Ok(Box::new(alloc, selection)?)
}

/// The choice of a request over a source: it is asked for the answer to each question that comes
/// up, until it has none to one, or no more are needed. Words that are given are copied into memory
/// of their own only where an answer is missing. No memory is needed for a request that is refused
/// at once.
#[inline(always)]
pub fn choose<S: AnswerSource>(
    alloc: Global,
    request: &RequestView<'_>,
    caps: &Caps,
    words: &RandomWords<'_>,
    source: &S,
    seat: &mut S::Seat,
) -> Result<Choice, AllocError>
    requires ready { S.ready source.now seat.old }
    requires view { IsRequestView request.now }
    ensures chosen { (given : List Given) × Consulted (S.ready source.now) S.goes
        (S.says source.now) (begun (request_of request.now) caps.now (words_of words.now)) seat.old
        seat.new given
        × IfOk result (ChoiceIs (asked_with (request_of request.now) caps.now (words_of words.now)
        given)) }
    ensures lacks { IfOk result (ChoiceLacks (S.says source.now seat.new)) }
    ensures memory { OnErr result
        (IsNotRefused (now_of (begun (request_of request.now) caps.now (words_of words.now)))) }
{
    let none = Known::new(alloc);
    let mut walk = Walk::after(alloc, &none);
    let step = begin(&mut walk, seat, source, alloc, request, caps, words)?;
    match step {
        Step::Found => Ok(choice_of(walk.targets)),
        Step::Refused(reason) => Ok(Choice::Refused(reason)),
        Step::Ask(_, _) => {
            let (targets, known) = walk.behind(0)?;
            let selection = asking_at(alloc, request, caps, words, targets, known, step)?;
            Ok(Choice::Asks(selection))
        }
    }
}

impl Selection {
    /// The choice of a request, without any answer. No memory is needed for a request that is
    /// refused at once.
    pub fn new(
        alloc: Global,
        request: Request,
        caps: Caps,
        words: Words,
    ) -> Result<Selection, AllocError>
        ensures is { IfOk result (λ it. it ≡ begun request caps words.0) }
        ensures memory { OnErr result (IsNotRefused (now_of (begun request caps words.0))) }
    {
        Selection::with_words(alloc, request, caps, &RandomWords::Given(&words))
    }

    /// As `new`, by random words that are given or drawn. Those that are drawn take no memory.
    pub fn with_words(
        alloc: Global,
        request: Request,
        caps: Caps,
        words: &RandomWords<'_>,
    ) -> Result<Selection, AllocError>
        ensures is { IfOk result (λ it. it ≡ begun request caps (words_of words.now)) }
        ensures memory { OnErr result
            (IsNotRefused (now_of (begun request caps (words_of words.now)))) }
    {
        let none = Known::new(alloc);
        let mut walk = Walk::after(alloc, &none);
        let view = RequestView::Read(&request);
        let step = begin(&mut walk, &mut (), &NoSource, alloc, &view, &caps, words)?;
        let targets = walk.targets;
        Selection::at_step(
            alloc,
            request,
            caps,
            words,
            targets,
            Known::new(alloc),
            step,
        )
    }

    /// The choice of a request that came to a step.
    fn at_step(
        alloc: Global,
        request: Request,
        caps: Caps,
        words: &RandomWords<'_>,
        targets: Vec<Target>,
        known: Known,
        step: Step,
    ) -> Result<Selection, AllocError>
        requires stands { StandsAt (asked_with request caps (words_of words.now) known) step
            targets.items }
        requires asked { AreAskedOneByOne request caps (words_of words.now) known }
        ensures is { IfOk result (λ it. it ≡ asked_with request caps (words_of words.now) known) }
        ensures memory { OnErr result (IsAsking step) }
    {
        Ok(Selection {
            request,
            caps,
            words: HeldWords::of(alloc, &step, words)?,
            targets,
            known,
            step,
        })
    }

    /// What is next: the choice over the answers given, or the first question that it lacks. To ask
    /// for it again changes nothing.
    #[must_use]
    pub fn next(&self) -> Next<'_>
        ensures { next_of result ≡ now_of self.now }
    {
        match &self.step {
            Step::Ask(question, _) => Next::Ask(question.as_ref()),
            Step::Refused(reason) => Next::Refused(*reason),
            Step::Found if self.targets.is_empty() => Next::Refused(Reason::NoAddress),
            Step::Found => Next::Targets(self.targets.as_slice()),
        }
    }

    /// At most 521 answers were given, and there are at most 16,384 targets. A call does nothing;
    /// its contract states this.
    pub fn law_answers_are_few(&self)
        ensures few { length self.now.given ≤ 521 }
        ensures few_targets { (found : List Target) → now_of self.now ≡ targets found
            → length found ≤ 16384 }
    {
        law_questions_are_few();
        law_targets_are_few();
        self.caps.law_transports_are_few();
    }

    /// Takes the answer to the question that is asked. After a refusal the choice is unchanged.
    pub fn give(
        &mut self,
        alloc: Global,
        question: &Question,
        answer: Arc<Answer>,
    ) -> Result<(), GiveRefusal>
        ensures given { OnOk result
            (self.new ≡ given_too self.old question.now (arc_value answer)) }
        ensures unchanged { OnErr result (self.new ≡ self.old) }
        ensures not_asked { (result ≡ Err GiveRefusal.NotAsked)
            ↔ (now_of self.old ≢ need question.now) }
        ensures wrong_kind { (result ≡ Err GiveRefusal.WrongKind)
            ↔ ((now_of self.old ≡ need question.now)
            × (kind_of (arc_value answer).records ≢ question.now.kind)) }
    {
        if !self.asks(question) {
            return Err(GiveRefusal::NotAsked);
        }
        if answer.records().kind() != question.kind {
            return Err(GiveRefusal::WrongKind);
        }
        self.take(alloc, answer).map_err(|_| GiveRefusal::Memory)
    }

    /// Whether this is the question that is asked.
    fn asks(&self, question: &Question) -> bool
        ensures { IsTrue result ↔ (now_of self.now ≡ need question.now) }
    {
        law_same_questions_are_equal();
        match self.next() {
            Next::Ask(asked) => asked == question,
            Next::Targets(_) | Next::Refused(_) => false,
        }
    }

    /// Takes the answer to the question that is asked. Where memory was refused the choice is as
    /// before.
    fn take(&mut self, alloc: Global, answer: Arc<Answer>) -> Result<(), AllocError>
        requires asked { (question : Question) × (now_of self.old ≡ need question) }
        requires few { count_of (arc_value answer).records ≤ 32 }
        ensures taken { OnOk result ((question : Question) → now_of self.old ≡ need question
            → self.new ≡ given_too self.old question (arc_value answer)) }
        ensures unchanged { OnErr result (self.new ≡ self.old) }
    {
        law_numeric_targets_ask_nothing();
        let Host::Domain(name) = self.request.target() else {
            unreachable!()
        };
        let Step::Ask(question, stage) = &self.step else {
            unreachable!()
        };
        let words = self.words.random_words();
        self.known.push(question.as_ref(), answer)?;
        let asked = Asked {
            alloc,
            request: RequestView::Read(&self.request),
            caps: &self.caps,
            words: &words,
            name,
            stage: stage.as_ref(),
        };
        match go_on(
            &mut self.targets,
            &mut self.known,
            &mut (),
            &NoSource,
            &asked,
        ) {
            Ok(step) => {
                self.step = step;
                Ok(())
            }
            Err(AllocError) => {
                self.known.pop();
                Err(AllocError)
            }
        }
    }

    /// Asks a source for the answer to each question that comes up, until it has none to one, or
    /// none is asked. Where memory is refused the choice is as before, though the source was asked.
    pub fn consult<S: AnswerSource>(
        &mut self,
        alloc: Global,
        source: &S,
        seat: &mut S::Seat,
    ) -> Result<(), AllocError>
        requires { S.ready source.now seat.old }
        ensures consulted { OnOk result
            ((self.new ≡ with_given self.old self.new.given)
            × Consulted (S.ready source.now) S.goes (S.says source.now) self.old seat.old seat.new
            self.new.given) }
        ensures lacks { OnOk result ((question : Question) → now_of self.new ≡ need question
            → S.says source.now seat.new question None) }
        ensures goes_on { (given : List Given) × Consulted (S.ready source.now) S.goes
            (S.says source.now) self.old seat.old seat.new given }
        ensures unchanged { OnErr result (self.new ≡ self.old) }
        ensures asking { OnErr result
            ((question : Question) × (now_of self.old ≡ need question)) }
    {
        if !self.is_asking() {
            return Ok(());
        }
        law_numeric_targets_ask_nothing();
        let Host::Domain(name) = self.request.target() else {
            unreachable!()
        };
        let Step::Ask(_, stage) = &self.step else {
            unreachable!()
        };
        let words = self.words.random_words();
        let asked = Asked {
            alloc,
            request: RequestView::Read(&self.request),
            caps: &self.caps,
            words: &words,
            name,
            stage: stage.as_ref(),
        };
        self.step = go_on(&mut self.targets, &mut self.known, seat, source, &asked)?;
        Ok(())
    }

    /// Whether a question is asked.
    fn is_asking(&self) -> bool
        ensures { IsTrue result ↔ ((question : Question) × (now_of self.now ≡ need question)) }
    {
        matches!(self.next(), Next::Ask(_))
    }
}
