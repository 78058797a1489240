//! A locator over a book in which another seat stores in each try of a store.
ghost use Rattle.std.specs.Prelude.{◌≡◌, IfSome};
ghost use Rattle.std.specs.Arc.{arc_value};
ghost use Rattle.dns_answers.specs.Records.{kind_of};
ghost use Rattle.dns_message.specs.declared.kind.Kind.TheVariants.{A};
ghost use Rattle.answer_cache.specs.Shared.{Belongs, CacheView, cache_view};

use crate::seats::{both, two_seats};
use answer_cache::{AnswerBook, Rival, Seat, SharedCache, StoreRefusal, Stores};
use dns_answers::{Answer, FoundAnswer, Moment, Records};
use dns_message::{Kind, Question, Section};
use dns_name::Name;
use sip_locator::{Kept, Locator, LocatorRefusal};
use sip_selection::{Caps, Families, Next, Request};
use sip_uri::{Transport, read_uri};
use srv_choice::{WORD_COUNT, Words};
use std::alloc::{AllocError, Global};
use std::marker::{Brand, Model, PhantomData};
use std::sync::{Arc, Wait};

/// The question for addresses of a.example.
fn question(alloc: Global) -> Option<Question>
    ensures { IfSome result (λ made. made.kind ≡ A) }
{
    Some(Question {
        name: Name::from_text(alloc, "a.example").ok()?,
        kind: Kind::A,
    })
}

/// Its answer of one address.
fn answer(alloc: Global) -> Option<Arc<Answer>>
    ensures { IfSome result (λ made. kind_of (arc_value made).records ≡ A) }
{
    let addresses = Vec::from_slice(alloc, &[[192, 0, 2, 7]]).ok()?;
    let records = Records::V4(Section::from_vec(addresses));
    Arc::new(alloc, Answer::new(records, 10)?).ok()
}

/// The octets of a reply with the address and a TTL of 60, under the id 0 (RFC 1035 4.1).
const REPLY: [u8; 43] = *b"\x00\x00\x81\x80\x00\x01\x00\x01\x00\x00\x00\x00\
    \x01a\x07example\x00\x00\x01\x00\x01\
    \xc0\x0c\x00\x01\x00\x01\x00\x00\x00\x3c\x00\x04\xc0\x00\x02\x07";

/// The moment of all calls.
fn now() -> Moment {
    Moment::new(100).unwrap()
}

/// Random words, of which the request uses none.
const WORDS: Words = Words([0; WORD_COUNT]);

/// The locator of a request to port 5070 of that host, over UDP and IPv4.
fn locator<B: AnswerBook>(alloc: Global) -> Option<Locator<B>> {
    let caps = Caps::new(&[Transport::Udp], Families::V4)?;
    match read_uri(alloc, "sip:a.example:5070") {
        Ok(uri) => Locator::new(alloc, Request::Uri(uri), caps, WORDS).ok(),
        Err(_) => None,
    }
}

/// Whether one target is next.
fn goes(next: Next<'_>) -> bool {
    matches!(next, Next::Targets([_]))
}

/// Which cache the seats are of. Each call of the test picks it.
trait Naming {
    ghost cache: { CacheView };
}

impl Naming for Brand {
    ghost cache = { cache_view (record { number = 0; log_name = 0; cells_name = 0 }) 0 0 };
}

/// Another seat, which stores an answer of its own in each try.
#[derive(Drop)]
struct Other<'a, R: Wait, J: Naming> {
    rt: &'a R,
    cache: &'a SharedCache,
    seat: Seat,
    question: Question,
    answer: Arc<Answer>,
    of: PhantomData<J>,
}

impl<'a, R: Wait, J: Naming> Model for Other<'a, R, J> {
    ghost use Rattle.std.specs.Prelude.{◌≡◌};
    ghost use Rattle.std.specs.Arc.{arc_value};
    ghost use Rattle.dns_answers.specs.Records.{kind_of};
    ghost use Rattle.answer_cache.specs.Shared.{Belongs};

    ghost Value = { Unit {0} };

    ghost view = { λ _. tt };

    ghost invariant = { λ it. (it.cache.now ≡ J.cache) × Belongs J.cache it.seat
        × (kind_of (arc_value it.answer).records ≡ it.question.kind) };
}

impl<'a, R: Wait, J: Naming> Rival for Other<'a, R, J> {
    fn between(&mut self, _try_number: u8) {
        let (question, answer) = (&self.question, &self.answer);
        let _ = self
            .cache
            .store(self.rt, &mut self.seat, question, answer, now());
    }
}

/// A seat, and the other one.
#[derive(Drop)]
struct Pair<'a, R: Wait, J: Naming> {
    seat: Seat,
    other: Other<'a, R, J>,
}

/// A book in which each store has the other seat against it.
#[derive(Drop)]
struct Contended<'a, R: Wait, J: Naming> {
    cache: &'a SharedCache,
    of: PhantomData<(&'a R, J)>,
}

impl<'a, R: Wait + 'a, J: Naming> AnswerBook for Contended<'a, R, J> {
    type Seat = Pair<'a, R, J>;

    ghost use Rattle.answer_cache.specs.Shared.{Belongs};

    ghost belongs = { λ book pair. Belongs book.cache.now pair.seat };

    ghost shown = { λ pair. pair.seat.seat };

    ghost holds = { λ book pair at. at.is };

    fn look<'b>(
        &'b self,
        pair: &mut Pair<'a, R, J>,
        question: &Question,
        now: Moment,
    ) -> Result<Option<FoundAnswer<'b>>, AllocError> {
        self.cache.look(&mut pair.seat, question, now)
    }
}

impl<'a, R: Wait + 'a, J: Naming, S: Wait> Stores<S> for Contended<'a, R, J> {
    fn store(
        &self,
        rt: &S,
        pair: &mut Pair<'a, R, J>,
        question: &Question,
        answer: &Arc<Answer>,
        now: Moment,
    ) -> Result<(), StoreRefusal> {
        let cache = self.cache;
        cache.store_against(rt, &mut pair.seat, question, answer, now, &mut pair.other)
    }
}

/// Whether an answer was used and lost each try of its store.
fn is_contended(kept: &Result<Kept, LocatorRefusal>) -> bool {
    matches!(kept, Ok(Kept::No(StoreRefusal::Contended)))
}

/// Whether the answer of a reply is used and not stored.
fn is_used<R, B: Stores<R>>(rt: &R, locator: &mut Locator<B>, book: &B, seat: &mut B::Seat) -> bool
    requires { B.belongs book.now seat.old }
{
    let kept = locator.reply(rt, book, seat, now(), &REPLY);
    is_contended(&kept) && locator.step(book, seat, now()).is_ok_and(goes)
}

/// The other seat, which stores this answer.
fn other_of<'a, R: Wait, J: Naming>(
    rt: &'a R,
    cache: &'a SharedCache,
    seat: Seat,
    question: Question,
    answer: Arc<Answer>,
) -> Other<'a, R, J>
    requires cache { cache.now ≡ J.cache }
    requires seat { Belongs J.cache seat }
    requires kind { kind_of (arc_value answer).records ≡ question.kind }
{
    Other {
        rt,
        cache,
        seat,
        question,
        answer,
        of: PhantomData,
    }
}

/// The same over this cache.
fn is_used_over<'a, R: Wait, J: Naming>(
    rt: &'a R,
    cache: &'a SharedCache,
    pair: &mut Pair<'a, R, J>,
    locator: &mut Locator<Contended<'a, R, J>>,
) -> bool
    requires { Belongs cache.now pair.old.seat }
{
    let book = Contended {
        cache,
        of: PhantomData,
    };
    is_used(rt, locator, &book, pair)
}

/// The same by a new locator.
fn is_used_by_new<'a, R: Wait, J: Naming>(
    rt: &'a R,
    alloc: Global,
    cache: &'a SharedCache,
    pair: &mut Pair<'a, R, J>,
) -> Option<bool>
    requires { Belongs cache.now pair.old.seat }
{
    match locator(alloc) {
        Some(mut locator) => {
            let is_used = is_used_over(rt, cache, pair, &mut locator);
            drop(locator);
            Some(is_used)
        }
        None => None,
    }
}

/// The same over the two seats of this cache, of which the other stores this answer.
fn is_used_by_two<J: Naming, R: Wait>(
    rt: &R,
    alloc: Global,
    cache: &SharedCache,
    seat: Seat,
    other: Seat,
    question: Question,
    answer: Arc<Answer>,
) -> Option<bool>
    requires cache { cache.now ≡ J.cache }
    requires seat { Belongs J.cache seat }
    requires other { Belongs J.cache other }
    requires kind { kind_of (arc_value answer).records ≡ question.kind }
{
    let other = other_of::<R, J>(rt, cache, other, question, answer);
    let mut pair = Pair { seat, other };
    let is_used = is_used_by_new(rt, alloc, cache, &mut pair);
    drop(pair);
    is_used
}

/// The same over a new cache.
fn over_new_cache(
    rt: &impl Wait,
    alloc: Global,
    question: Question,
    answer: Arc<Answer>,
) -> Option<bool>
    requires { kind_of (arc_value answer).records ≡ question.kind }
{
    match two_seats(alloc) {
        Some((cache, seat, other)) => {
            let is_used = is_used_by_two::<Brand, _>(
                rt, alloc, &cache, seat, other, question, answer,
            );
            drop(cache);
            is_used
        }
        None => None,
    }
}

/// The same of A of a.example.
fn over_two_seats(rt: &(impl Wait + AllocGlobal)) -> Option<bool> {
    match both(question(rt.alloc()), answer(rt.alloc())) {
        Some((question, answer)) => over_new_cache(rt, rt.alloc(), question, answer),
        None => None,
    }
}

#[test]
fn each_try_is_lost(rt: HostRuntime) {
    assert_eq!(rt; over_two_seats(&rt), Some(true));
}
