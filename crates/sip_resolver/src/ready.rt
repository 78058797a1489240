//! A request that can go on.
ghost use Rattle.std.specs.Prelude.{◌≡◌, false, IfOk};
ghost use Rattle.answer_cache.specs.Seats.{GoesOn, StoresNothing};
ghost use Rattle.sip_selection.specs.Requests as requests;
ghost use Rattle.sip_selection.specs.Selections.{begun};
ghost use Rattle.srv_choice.specs.Draws.{words_of};
ghost use Rattle.sip_resolver.specs.Expiries.{is_expired};
ghost use Rattle.sip_resolver.specs.Readies.{EndsSo, Leads, WaitsBy};
ghost use Rattle.sip_resolver.specs.Restarts.{anew};
ghost use Rattle.sip_resolver.specs.Submissions.{IsChoiceOf, task_of_new};
ghost use Rattle.sip_resolver.specs.Tasks.{IsCounted};

use crate::facts::Facts;
use crate::outcome::{Outcome, TargetList};
use crate::queue::{Numbered, Timed};
use crate::submitted::{Submitted, SubmittedWords};
use crate::task::{Progress, Task};
use answer_cache::AnswerBook;
use dns_answers::Moment;
use sip_locator::{BoxedLocator, Located, locate};
use sip_selection::{Caps, Request, RequestView};
use sip_uri::Host;
use srv_choice::RandomWords;
use std::alloc::{AllocError, AllocFailed, Global};
use std::marker::Model;

/// How far a request is that can go on.
#[derive(Drop)]
pub(crate) enum Start<B> {
    /// Nothing was looked up for it.
    New(Box<Submitted>),
    /// Its choice has begun.
    Begun(Task<B>),
}

/// A request that can go on.
#[derive(Drop)]
pub(crate) struct Ready<B> {
    start: Start<B>,
}

impl<B> Model for Ready<B> {
    ghost use Rattle.sip_resolver.specs.Readies.{task_in};
    ghost use Rattle.sip_resolver.specs.Tasks.{TaskView};

    ghost Value = { TaskView };

    ghost view = { λ it. task_in it.start };
}

/// How far a step leads.
#[derive(Drop)]
pub(crate) enum Lead<B> {
    /// A question has to be answered that the book has no answer to.
    Asks(Task<B>),
    /// The request ended so.
    Ended(Outcome),
}

impl<B> Ready<B> {
    /// A request whose choice has begun.
    pub(crate) fn of(task: Task<B>) -> Ready<B>
        ensures { result ≡ task }
    {
        Ready {
            start: Start::Begun(task),
        }
    }

    /// Its number.
    pub(crate) fn number(&self) -> u64
        ensures { result ≡ self.now.number }
    {
        match &self.start {
            Start::New(submitted) => submitted.number,
            Start::Begun(task) => task.number(),
        }
    }

    /// The moment by which it ends, if it has one.
    fn until(&self) -> Option<Moment>
        ensures { result ≡ self.now.until }
    {
        match &self.start {
            Start::New(submitted) => submitted.until,
            Start::Begun(task) => task.until(),
        }
    }

    /// Whether it is to end by this moment.
    pub(crate) fn is_expired(&self, now: Moment) -> bool
        ensures { result ≡ is_expired now self.now.until }
    {
        match self.until() {
            Some(until) => until <= now,
            None => false,
        }
    }
}

impl<B> Numbered for Ready<B> {
    ghost numbered = { λ it. it.number };

    fn number(&self) -> u64 {
        Ready::number(self)
    }
}

impl<B> Timed for Ready<B> {
    ghost until_of = { λ it. it.until };

    fn its_until(&self) -> Option<u64> {
        match self.until() {
            Some(until) => Some(until.get()),
            None => None,
        }
    }
}

/// The host that a request asks for.
fn host_of(request: Request) -> Host
    ensures { result ≡ requests.target_of request }
{
    match request {
        Request::Uri(uri) => uri.maddr.unwrap_or(uri.host),
        Request::Via(via) => via.host,
    }
}

/// How far a request is that waits for the answer which its locator asks for.
#[inline(never)]
fn wait<B: AnswerBook>(
    alloc: Global,
    submitted: Box<Submitted>,
    locator: BoxedLocator<B>,
) -> Lead<B>
    requires { IsChoiceOf submitted.value locator }
    ensures { WaitsBy submitted.value locator result }
{
    match Box::new(alloc, locator.into_locator()) {
        Ok(locator) => Lead::Asks(Task::asking(submitted, locator)),
        Err(AllocFailed { .. }) => Lead::Ended(Outcome::Memory),
    }
}

impl<B: AnswerBook> Ready<B> {
    /// A request of which nothing is known yet.
    pub(crate) fn new(
        alloc: Global,
        number: u64,
        request: Request,
        caps: Caps,
        words: &RandomWords<'_>,
        until: Option<Moment>,
    ) -> Result<Ready<B>, AllocError>
        ensures { IfOk result (λ it. it ≡ record {
          number = number;
          selection = begun request caps (words_of words.now);
          cut = false;
          until = until;
        }) }
    {
        let words = SubmittedWords::of(alloc, words)?;
        let submitted = Submitted {
            number,
            request,
            caps,
            words,
            until,
        };
        Ok(Ready {
            start: Start::New(Box::new(alloc, submitted)?),
        })
    }

    /// The same request, of which nothing is known. Takes no memory.
    pub(crate) fn begin_anew(self) -> Ready<B>
        ensures { result ≡ anew self }
    {
        let submitted = match self.start {
            Start::New(submitted) => submitted,
            Start::Begun(task) => task.into_submitted(),
        };
        Ready {
            start: Start::New(submitted),
        }
    }
}

/// Begins the choice of a request, and lets it go on by what the book has.
fn begin<B: AnswerBook, F: Facts>(
    submitted: Box<Submitted>,
    alloc: Global,
    book: &B,
    seat: &mut B::Seat,
    now: Moment,
) -> Lead<B>
    requires made_here { B.belongs book.now seat.old }
    requires shown { F.shows now }
    ensures stays { B.belongs book.now seat.new }
    ensures goes_on { GoesOn (B.shown seat.old) (B.shown seat.new) }
    ensures stores_nothing { StoresNothing (B.shown seat.old) (B.shown seat.new) }
    ensures leads { Leads F.gives F.shows (B.shown seat.new) (task_of_new submitted.value) result }
    ensures ends { EndsSo result }
{
    let it = &*submitted;
    let words = it.words.random_words();
    let view = RequestView::Read(&it.request);
    match locate(alloc, book, seat, &view, &it.caps, &words, now) {
        Ok(Located::Targets(targets)) => {
            let host = host_of(Box::into_inner(submitted).request);
            Lead::Ended(Outcome::Targets(TargetList::new(targets, host)))
        }
        Ok(Located::Refused(reason)) => Lead::Ended(Outcome::Refused(reason)),
        Ok(Located::Missing(locator)) => wait(alloc, submitted, locator),
        Err(AllocError) => Lead::Ended(Outcome::Memory),
    }
}

/// Lets the choice of a request go on by what the book has.
fn go_on<B: AnswerBook, F: Facts>(
    mut task: Task<B>,
    alloc: Global,
    book: &B,
    seat: &mut B::Seat,
    now: Moment,
) -> Lead<B>
    requires made_here { B.belongs book.now seat.old }
    requires shown { F.shows now }
    ensures stays { B.belongs book.now seat.new }
    ensures goes_on { GoesOn (B.shown seat.old) (B.shown seat.new) }
    ensures stores_nothing { StoresNothing (B.shown seat.old) (B.shown seat.new) }
    ensures leads { IsCounted F.gives F.shows (B.shown seat.old) task
        → Leads F.gives F.shows (B.shown seat.new) task result }
    ensures ends { EndsSo result }
{
    match task.step::<F>(alloc, book, seat, now) {
        Progress::Asks => Lead::Asks(task),
        Progress::Ended(outcome) => Lead::Ended(outcome),
    }
}

impl<B: AnswerBook> Ready<B> {
    /// Lets its choice go on by what the book has.
    pub(crate) fn step<F: Facts>(
        self,
        alloc: Global,
        book: &B,
        seat: &mut B::Seat,
        now: Moment,
    ) -> Lead<B>
        requires made_here { B.belongs book.now seat.old }
        requires shown { F.shows now }
        ensures stays { B.belongs book.now seat.new }
        ensures goes_on { GoesOn (B.shown seat.old) (B.shown seat.new) }
        ensures stores_nothing { StoresNothing (B.shown seat.old) (B.shown seat.new) }
        ensures leads { IsCounted F.gives F.shows (B.shown seat.old) self
            → Leads F.gives F.shows (B.shown seat.new) self result }
        ensures ends { EndsSo result }
    {
        match self.start {
            Start::New(submitted) => begin::<B, F>(submitted, alloc, book, seat, now),
            Start::Begun(task) => go_on::<B, F>(task, alloc, book, seat, now),
        }
    }
}
