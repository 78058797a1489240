//! A request on its way.
ghost use Rattle.std.specs.Prelude.{◌≡◌, ◌≢◌, true, false, Err, MatchOption, OnErr, OnOk};
ghost use Rattle.std.specs.Arc.{arc_value};
ghost use Rattle.answer_cache.specs.Seats.{GoesOn, StoresNothing};
ghost use Rattle.dns_answers.specs.Records.{kind_of};
ghost use Rattle.dns_message.specs.declared.question.Question.{Question as question};
ghost use Rattle.sip_selection.specs.Choice.{IsNotRefused, need};
ghost use Rattle.sip_selection.specs.Nexts.{next_of};
ghost use Rattle.sip_selection.specs.Selections.{given_too, now_of};
ghost use Rattle.sip_resolver.specs.Expiries.{is_expired};
ghost use Rattle.sip_resolver.specs.Restarts.{anew};
ghost use Rattle.sip_resolver.specs.Submissions.{IsChoiceOf, task_of_new};
ghost use Rattle.sip_resolver.specs.Tasks.{EndsByChoice, IsCounted, Leaves, Progresses, over_of, sought_of};

use crate::facts::Facts;
use crate::outcome::{Outcome, TargetList};
use crate::queue::{Numbered, Timed};
use crate::submitted::Submitted;
use crate::transmit::DnsTransport;
use answer_cache::AnswerBook;
use dns_answers::{Answer, Moment};
use dns_message::Question;
use sip_locator::Locator;
use sip_selection::{GiveRefusal, Next};
use sip_uri::Host;
use std::alloc::{AllocError, Global};
use std::marker::Model;
use std::sync::Arc;

/// How far a step leads.
#[derive(Drop)]
pub(crate) enum Progress {
    /// A question has to be answered that the book has no answer to.
    Asks,
    /// The request ended so.
    Ended(Outcome),
}

/// A request on its way.
#[derive(Drop)]
pub(crate) struct Task<B> {
    /// What was submitted.
    submitted: Box<Submitted>,
    /// Its choice.
    locator: Box<Locator<B>>,
    /// The reply to its question was cut, which came in a datagram.
    cut: bool,
}

impl<B> Model for Task<B> {
    ghost use Rattle.sip_resolver.specs.Submissions.{IsChoiceOf};
    ghost use Rattle.sip_resolver.specs.Tasks.{TaskView};

    ghost Value = { TaskView };

    ghost view = { λ it. record {
      number = it.submitted.value.number;
      selection = it.locator.value;
      cut = it.cut;
      until = it.submitted.value.until;
    } };

    ghost invariant = { λ it. IsChoiceOf it.submitted.value it.locator.value };
}

impl<B> Task<B> {
    /// Its number.
    pub(crate) fn number(&self) -> u64
        ensures { result ≡ self.now.number }
    {
        self.submitted.number
    }

    /// The moment by which it ends, if it has one.
    pub(crate) fn until(&self) -> Option<Moment>
        ensures { result ≡ self.now.until }
    {
        self.submitted.until
    }

    /// Over what its question goes: over a stream where the reply over a datagram was cut.
    pub(crate) fn over(&self) -> DnsTransport
        ensures { result ≡ over_of self.now }
    {
        if self.cut {
            DnsTransport::Stream
        } else {
            DnsTransport::Datagram
        }
    }

    /// Whether it is to end by this moment.
    pub(crate) fn is_expired(&self, now: Moment) -> bool
        ensures { result ≡ is_expired now self.now.until }
    {
        match self.submitted.until {
            Some(until) => until <= now,
            None => false,
        }
    }

    /// The reply to its question was cut, which came in a datagram.
    pub(crate) fn mark_cut(&mut self)
        ensures { self.new ≡ record self.old { cut = true } }
    {
        self.cut = true;
    }
}

impl<B> Numbered for Task<B> {
    ghost numbered = { λ it. it.number };

    fn number(&self) -> u64 {
        self.submitted.number
    }
}

impl<B> Timed for Task<B> {
    ghost until_of = { λ it. it.until };

    fn its_until(&self) -> Option<u64> {
        match self.submitted.until {
            Some(until) => Some(until.get()),
            None => None,
        }
    }
}

impl<B: AnswerBook> Task<B> {
    /// A request that asks for an answer, by its locator.
    pub(crate) fn asking(submitted: Box<Submitted>, locator: Box<Locator<B>>) -> Task<B>
        requires { IsChoiceOf submitted.value locator.value }
        ensures { result ≡ record (task_of_new submitted.value) { selection = locator.value } }
    {
        Task {
            submitted,
            locator,
            cut: false,
        }
    }

    /// What was submitted, without the answers that its choice has used.
    pub(crate) fn into_submitted(self) -> Box<Submitted>
        ensures { task_of_new result.value ≡ anew self }
    {
        let Task { submitted, .. } = self;
        submitted
    }

    /// The question that it needs the answer to.
    pub(crate) fn question(&self) -> Option<&Question>
        ensures { MatchOption result
            ((asked : question) → now_of self.now.selection ≢ need asked)
            (λ asked. now_of self.now.selection ≡ need asked.now) }
    {
        match self.locator.next() {
            Next::Ask(question) => Some(question),
            Next::Targets(_) | Next::Refused(_) => None,
        }
    }

    /// Lets its choice go on by what the book has.
    pub(crate) fn step<F: Facts>(
        &mut self,
        alloc: Global,
        book: &B,
        seat: &mut B::Seat,
        now: Moment,
    ) -> Progress
        requires made_here { B.belongs book.now seat.old }
        requires shown { F.shows now }
        ensures stays { B.belongs book.now seat.new }
        ensures goes_on { GoesOn (B.shown seat.old) (B.shown seat.new) }
        ensures stores_nothing { StoresNothing (B.shown seat.old) (B.shown seat.new) }
        ensures request { sought_of self.new ≡ sought_of self.old }
        ensures progresses { IsCounted F.gives F.shows (B.shown seat.old) self.old
            → Progresses F.gives F.shows (B.shown seat.new) self.new result }
        ensures ends { EndsByChoice result }
    {
        let locator = &mut *self.locator;
        match locator.step(book, seat, now) {
            Ok(next) => progress_of(alloc, next, self.submitted.request.target()),
            Err(AllocError) => Progress::Ended(Outcome::Memory),
        }
    }

    /// Takes the answer to the question that it needs. After a refusal it is as before.
    pub(crate) fn give(
        &mut self,
        question: &Question,
        answer: &Arc<Answer>,
    ) -> Result<(), GiveRefusal>
        ensures given { OnOk result (self.new ≡ record self.old {
          selection = given_too self.old.selection question.now (arc_value answer.now);
          cut = false;
        }) }
        ensures unchanged { OnErr result (self.new ≡ self.old) }
        ensures not_asked { result ≡ Err GiveRefusal.NotAsked
            → now_of self.old.selection ≢ need question.now }
        ensures wrong_kind { result ≡ Err GiveRefusal.WrongKind
            → kind_of (arc_value answer.now).records ≢ question.now.kind }
    {
        let Ok(answer) = Arc::try_clone(answer) else {
            return Err(GiveRefusal::Memory);
        };
        self.locator.give(question, answer)?;
        self.cut = false;
        Ok(())
    }
}

/// How far it leads that this is next, of a request that asked for this host.
fn progress_of(alloc: Global, next: Next<'_>, host: &Host) -> Progress
    ensures { Leaves (next_of next.entry) host.now result }
{
    match next {
        Next::Ask(_) => Progress::Asks,
        Next::Refused(reason) => Progress::Ended(Outcome::Refused(reason)),
        Next::Targets(targets) => Progress::Ended(match TargetList::of(alloc, targets, host) {
            Ok(targets) => Outcome::Targets(targets),
            Err(AllocError) => Outcome::Memory,
        }),
    }
}
