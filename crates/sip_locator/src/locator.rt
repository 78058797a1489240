//! The choice of one request, over answers that a book shares.
ghost use Rattle.std.specs.Prelude.{◌≡◌, ◌≢◌, ◌↔◌, ◌≤◌, Err, IfErr, IfOk, OnErr, OnOk, length};
ghost use Rattle.std.specs.Arc.{arc_value};
ghost use Rattle.dns_answers.specs.Records.{kind_of};
ghost use Rattle.answer_cache.specs.Seats.{GoesOn, StoresNothing};
ghost use Rattle.sip_selection.specs.Choice.{IsNotRefused, need};
ghost use Rattle.sip_selection.specs.Nexts.{next_of};
ghost use Rattle.sip_selection.specs.Requests.{IsRequestView, request_of};
ghost use Rattle.sip_selection.specs.Choices.{ChoiceIs, ChoiceLacks};
ghost use Rattle.sip_selection.specs.Selections.{SelectionValue, begun, given_too, now_of};
ghost use Rattle.answer_log.specs.Histories.{cached};
ghost use Rattle.sip_locator.specs.Gains.{Gains, IsAsking, Lacks, LookedUp, Steps};
ghost use Rattle.sip_locator.specs.Locations.{IsLocated};
ghost use Rattle.sip_locator.specs.Replies.{Answers, IsTaken, Refuses};
ghost use Rattle.dns_message.specs.declared.question.Question as question;
ghost use Rattle.srv_choice.specs.Draws.{words_of};

use crate::book_at::BookAt;
use crate::kept::Kept;
use crate::read::read_answer;
use crate::refusal::LocatorRefusal;
use answer_cache::{AnswerBook, Stores};
use dns_answers::{Answer, Moment};
use dns_message::{Question, law_same_questions_are_equal};
use sip_selection::{
    Caps, Choice, GiveRefusal, Next, Reason, Request, RequestView, Selection, Target, choose,
};
use srv_choice::{RandomWords, Words};
use std::alloc::{AllocError, Global};
use std::marker::{Model, PhantomData};
use std::sync::Arc;

/// One more than the answers that a locator can use.
const ROUND_LIMIT: usize = 522;

/// The choice of where one request goes, which looks its questions up in a book.
#[derive(Drop)]
pub struct Locator<B> {
    alloc: Global,
    selection: Selection,
    book: PhantomData<B>,
}

impl<B> Model for Locator<B> {
    ghost use Rattle.sip_selection.specs.Selections.{SelectionValue};

    ghost Value = { SelectionValue };

    ghost view = { λ it. it.selection };
}

/// A locator that asks for an answer, in memory of its own.
#[derive(Drop)]
pub struct BoxedLocator<B> {
    alloc: Global,
    selection: Box<Selection>,
    book: PhantomData<B>,
}

impl<B> Model for BoxedLocator<B> {
    ghost use Rattle.sip_selection.specs.Selections.{SelectionValue};

    ghost Value = { SelectionValue };

    ghost view = { λ it. it.selection.value };
}

impl<B> BoxedLocator<B> {
    /// The locator.
    #[must_use]
    pub fn into_locator(self) -> Locator<B>
        ensures { result ≡ self }
    {
        let BoxedLocator {
            alloc,
            selection,
            book,
        } = self;
        Locator {
            alloc,
            selection: Box::into_inner(selection),
            book,
        }
    }
}

/// Where a request goes, as far as a book has the answers.
#[derive(Drop)]
pub enum Located<B> {
    /// The request can be sent to these targets, which are to be tried in this order. There is at
    /// least one.
    Targets(Vec<Target>),
    /// The request goes nowhere, for this reason.
    Refused(Reason),
    /// The book lacks an answer. The locator asks for it, and has used the answers before it.
    Missing(BoxedLocator<B>),
}

/// The choice of a request over what a book has at a moment.
#[inline(always)]
fn choose_at<B: AnswerBook>(
    alloc: Global,
    book: &B,
    seat: &mut B::Seat,
    request: &RequestView<'_>,
    caps: &Caps,
    words: &RandomWords<'_>,
    now: Moment,
) -> Result<Choice, AllocError>
    requires made_here { B.belongs book.now seat.old }
    requires view { IsRequestView request.now }
    ensures stays { B.belongs book.now seat.new }
    ensures goes_on { GoesOn (B.shown seat.old) (B.shown seat.new) }
    ensures stores_nothing { StoresNothing (B.shown seat.old) (B.shown seat.new) }
    ensures chosen { (new : SelectionValue)
        × Gains (B.shown seat.new).seen now (B.shown seat.old).seen
        (begun (request_of request.now) caps.now (words_of words.now)) new
        × IfOk result (ChoiceIs new) }
    ensures lacks { IfOk result (ChoiceLacks
        (λ question found. found ≡ cached (B.shown seat.new).seen question now)) }
    ensures memory { OnErr result
        (IsNotRefused (now_of (begun (request_of request.now) caps.now (words_of words.now)))) }
{
    choose(alloc, request, caps, words, &BookAt { book, now }, seat)
}

/// Where a request goes: as `Locator::with_words` and one `step`, but the request, and words that
/// are given, are copied only where the book lacks an answer. No memory is needed for a request
/// that is refused at once.
#[inline(always)]
pub fn locate<B: AnswerBook>(
    alloc: Global,
    book: &B,
    seat: &mut B::Seat,
    request: &RequestView<'_>,
    caps: &Caps,
    words: &RandomWords<'_>,
    now: Moment,
) -> Result<Located<B>, AllocError>
    requires made_here { B.belongs book.now seat.old }
    requires view { IsRequestView request.now }
    ensures stays { B.belongs book.now seat.new }
    ensures goes_on { GoesOn (B.shown seat.old) (B.shown seat.new) }
    ensures stores_nothing { StoresNothing (B.shown seat.old) (B.shown seat.new) }
    ensures located { IfOk result (IsLocated (begun (request_of request.now) caps.now
        (words_of words.now))
        (B.shown seat.old).seen (B.shown seat.new).seen now) }
    ensures memory { OnErr result
        (IsNotRefused (now_of (begun (request_of request.now) caps.now (words_of words.now)))) }
{
    match choose_at(alloc, book, seat, request, caps, words, now)? {
        Choice::Targets(targets) => Ok(Located::Targets(targets)),
        Choice::Refused(reason) => Ok(Located::Refused(reason)),
        Choice::Asks(selection) => Ok(Located::Missing(BoxedLocator {
            alloc,
            selection,
            book: PhantomData,
        })),
    }
}

impl<B: AnswerBook> Locator<B> {
    ghost use Rattle.std.specs.Borrow.{sem};
    ghost use Rattle.std.specs.Io.BufRead.{Rests};
    ghost use Rattle.sip_locator.specs.contracts.locator.Locator.{the_row};

    /// The choice of a request, which has used no answer. No memory is needed for a request that is
    /// refused at once.
    pub fn new(
        alloc: Global,
        request: Request,
        caps: Caps,
        words: Words,
    ) -> Result<Locator<B>, AllocError>
        ensures is { IfOk result (λ it. it ≡ begun request caps words.0) }
        ensures memory { OnErr result (IsNotRefused (now_of (begun request caps words.0))) }
    {
        Locator::with_words(alloc, request, caps, &RandomWords::Given(&words))
    }

    /// As `new`, by random words that are given or drawn. Those that are drawn take no memory.
    pub fn with_words(
        alloc: Global,
        request: Request,
        caps: Caps,
        words: &RandomWords<'_>,
    ) -> Result<Locator<B>, AllocError>
        ensures is { IfOk result (λ it. it ≡ begun request caps (words_of words.now)) }
        ensures memory { OnErr result
            (IsNotRefused (now_of (begun request caps (words_of words.now)))) }
    {
        Ok(Locator {
            alloc,
            selection: Selection::with_words(alloc, request, caps, words)?,
            book: PhantomData,
        })
    }

    /// A law: at most 521 answers are used. A call does nothing; its contract states this.
    pub fn law_answers_are_few(&self)
        ensures { length self.now.given ≤ 521 }
    {
        self.selection.law_answers_are_few();
    }

    /// What is next, by the answers used so far: nothing is looked up. Takes no memory.
    #[must_use]
    pub fn next(&self) -> Next<'_>
        ensures { next_of result ≡ now_of self.now }
    {
        self.selection.next()
    }

    /// Looks up the question that is asked, and gives its answer, where there is one.
    fn look_up(&mut self, book: &B, seat: &mut B::Seat, now: Moment) -> Result<bool, AllocError>
        requires { B.belongs book.now seat.old }
        ensures stays { B.belongs book.now seat.new }
        ensures goes_on { GoesOn (B.shown seat.old) (B.shown seat.new) }
        ensures stores_nothing { StoresNothing (B.shown seat.old) (B.shown seat.new) }
        ensures found { IfOk result
            (λ found. LookedUp self.old self.new (B.shown seat.new).seen now found) }
        ensures unchanged { OnErr result (self.new ≡ self.old) }
        ensures asking { OnErr result (IsAsking (now_of self.old)) }
    {
        let Next::Ask(question) = self.selection.next() else {
            return Ok(false);
        };
        let Some(answer) = book.lookup(seat, question, now)? else {
            return Ok(false);
        };
        let question = question.try_clone()?;
        law_same_questions_are_equal();
        self.use_answer(&question, answer)?;
        Ok(true)
    }

    /// Takes the answer to the question that is asked, without a look at the book: for a caller
    /// that read it from a reply. After a refusal all is as before.
    pub fn give(&mut self, question: &Question, answer: Arc<Answer>) -> Result<(), GiveRefusal>
        ensures given { OnOk result
            (self.new ≡ given_too self.old question.now (arc_value answer)) }
        ensures unchanged { OnErr result (self.new ≡ self.old) }
        ensures not_asked { (result ≡ Err GiveRefusal.NotAsked)
            ↔ (now_of self.old ≢ need question.now) }
        ensures wrong_kind { (result ≡ Err GiveRefusal.WrongKind)
            ↔ ((now_of self.old ≡ need question.now)
            × (kind_of (arc_value answer).records ≢ question.now.kind)) }
    {
        self.selection.give(self.alloc, question, answer)
    }

    /// Uses the answer to the question that is asked. Where memory was refused all is as before.
    fn use_answer(&mut self, question: &Question, answer: Arc<Answer>) -> Result<(), AllocError>
        requires asked { now_of self.old ≡ need question.now }
        requires kind { kind_of (arc_value answer).records ≡ question.now.kind }
        ensures given { OnOk result
            (self.new ≡ given_too self.old question.now (arc_value answer)) }
        ensures unchanged { OnErr result (self.new ≡ self.old) }
    {
        match self.give(question, answer) {
            Ok(()) => Ok(()),
            Err(GiveRefusal::Memory) => Err(AllocError),
            Err(GiveRefusal::NotAsked | GiveRefusal::WrongKind) => unreachable!(),
        }
    }

    /// Looks up each question that is asked, until one is not answered or none is asked. Where
    /// memory is refused they are looked up in turn, so that the answers found before stay used.
    fn look_all_up(&mut self, book: &B, seat: &mut B::Seat, now: Moment) -> Result<(), AllocError>
        requires { B.belongs book.now seat.old }
        ensures stays { B.belongs book.now seat.new }
        ensures goes_on { GoesOn (B.shown seat.old) (B.shown seat.new) }
        ensures stores_nothing { StoresNothing (B.shown seat.old) (B.shown seat.new) }
        ensures gains { Gains (B.shown seat.new).seen now (B.shown seat.old).seen
            self.old self.new }
        ensures lacks { OnOk result ((question : question.Question)
            → now_of self.new ≡ need question
            → Lacks (B.shown seat.old).seen (B.shown seat.new).seen now question) }
        ensures asking { OnErr result (IsAsking (now_of self.new)) }
    {
        let source = BookAt { book, now };
        match self.selection.consult(self.alloc, &source, seat) {
            Ok(()) => Ok(()),
            Err(AllocError) => self.look_up_in_turn(book, seat, now),
        }
    }

    /// Looks up one question after the other, until one is not answered or none is asked.
    fn look_up_in_turn(
        &mut self,
        book: &B,
        seat: &mut B::Seat,
        now: Moment,
    ) -> Result<(), AllocError>
        requires { B.belongs book.now seat.old }
        ensures stays { B.belongs book.now seat.new }
        ensures goes_on { GoesOn (B.shown seat.old) (B.shown seat.new) }
        ensures stores_nothing { StoresNothing (B.shown seat.old) (B.shown seat.new) }
        ensures gains { Gains (B.shown seat.new).seen now (B.shown seat.old).seen
            self.old self.new }
        ensures lacks { OnOk result ((question : question.Question)
            → now_of self.new ≡ need question
            → Lacks (B.shown seat.old).seen (B.shown seat.new).seen now question) }
        ensures asking { OnErr result (IsAsking (now_of self.new)) }
    {
        for _round in 0..ROUND_LIMIT {
            if !self.look_up(book, seat, now)? {
                return Ok(());
            }
        }
        self.selection.law_answers_are_few();
        Ok(())
    }

    /// Looks up each question that is asked, until the book has no answer to one, and gives what is
    /// next then. Memory is needed only while a question is asked: where it is refused, the answers
    /// found before it stay used, and `step` can be called again.
    pub fn step(
        &mut self,
        book: &B,
        seat: &mut B::Seat,
        now: Moment,
    ) -> Result<Next<'_>, AllocError>
        requires { B.belongs book.now seat.old }
        ensures stays { B.belongs book.now seat.new }
        ensures goes_on { GoesOn (B.shown seat.old) (B.shown seat.new) }
        ensures stores_nothing { StoresNothing (B.shown seat.old) (B.shown seat.new) }
        ensures* steps { sem 𝓛 (Rests (the_row B.row) self.entry
            (λ ended. Steps self.old ended (B.shown seat.old).seen (B.shown seat.new).seen
            now result)) }
    {
        self.look_all_up(book, seat, now)?;
        Ok(self.selection.next())
    }

    /// Takes the octets of a reply to the question that is asked: its answer is used for this
    /// request, and then stored in the book. Where the book does not store it, it stays used. After
    /// a refusal all is as before.
    pub fn reply<R>(
        &mut self,
        rt: &R,
        book: &B,
        seat: &mut B::Seat,
        now: Moment,
        octets: &[u8],
    ) -> Result<Kept, LocatorRefusal>
    where
        B: Stores<R>,
        requires { B.belongs book.now seat.old }
        ensures stays { B.belongs book.now seat.new }
        ensures goes_on { GoesOn (B.shown seat.old) (B.shown seat.new) }
        ensures taken { IfOk result (IsTaken self.old self.new (B.shown seat.old) (B.shown seat.new)
            octets.now now) }
        ensures refused { IfErr result (Refuses (now_of self.old) octets.now) }
        ensures unchanged { OnErr result ((self.new ≡ self.old) × (seat.new ≡ seat.old)) }
    {
        let (question, answer) = self.take(octets)?;
        Ok(Kept::of(book.store(rt, seat, &question, &answer, now)))
    }

    /// Takes the answer of a reply.
    fn take(&mut self, octets: &[u8]) -> Result<(Question, Arc<Answer>), LocatorRefusal>
        ensures taken { IfOk result (λ taken. (now_of self.old ≡ need taken.0)
            × Answers taken.0 octets.now (arc_value taken.1)
            × (self.new ≡ given_too self.old taken.0 (arc_value taken.1))) }
        ensures kind { IfOk result (λ taken. kind_of (arc_value taken.1).records ≡ taken.0.kind) }
        ensures refused { IfErr result (Refuses (now_of self.old) octets.now) }
        ensures unchanged { OnErr result (self.new ≡ self.old) }
    {
        let Next::Ask(question) = self.selection.next() else {
            return Err(LocatorRefusal::NothingAsked);
        };
        let answer = read_answer(self.alloc, question, octets)?;
        let answer = Arc::new(self.alloc, answer)?;
        let given = Arc::try_clone(&answer)?;
        let question = question.try_clone()?;
        self.use_answer(&question, given)?;
        Ok((question, answer))
    }
}
