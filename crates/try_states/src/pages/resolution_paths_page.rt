//! The example of the page of `resolution_paths`.
ghost use Rattle.std.specs.Prelude.{◌≡◌};
ghost use Rattle.std.specs.Arc.{arc_value};
ghost use Rattle.dns_answers.specs.Records.{kind_of};

use crate::pages::answers::{answer, question, request};
use crate::seats::both;
use answer_cache::{AnswerBook, ListCache, Stores};
use dns_answers::{Answer, Moment};
use dns_message::Question;
use resolution_paths::{ResolutionPath, path_to, paths_of};
use sip_locator::BookAt;
use sip_selection::{Request, Target};
use sip_uri::{Address, Transport};
use std::alloc::Global;
use std::sync::Arc;

/// The paths of a request, over a book.
fn paths_over<B: AnswerBook>(
    alloc: Global,
    book: &B,
    seat: &mut B::Seat,
    request: &Request,
    now: Moment,
) -> Option<Vec<ResolutionPath>>
    requires { B.belongs book.now seat.old }
{
    let source = BookAt { book: book, now };
    let paths = paths_of(alloc, &source, seat, request).ok()?;
    Some(paths)
}

/// For how many seconds the target of the example may be kept.
fn life_of(paths: &Vec<ResolutionPath>) -> Option<u32> {
    let target = Target {
        transport: Transport::Udp,
        address: Address::V4([192, 0, 2, 7]),
        port: 5070,
    };
    let found = path_to(paths.as_slice(), &target)?;
    let life = found.life;
    Some(life)
}

/// The same over a book in which the answer to a question is stored.
fn life_over<B: Stores<()>>(
    alloc: Global,
    book: &B,
    seat: &mut B::Seat,
    question: &Question,
    answer: &Arc<Answer>,
    request: &Request,
    now: Moment,
) -> Option<u32>
    requires made_here { B.belongs book.now seat.old }
    requires kind { kind_of (arc_value answer.now).records ≡ question.now.kind }
{
    match book.store(&(), seat, question, answer, now) {
        Ok(()) => match paths_over(alloc, book, seat, request, now) {
            Some(paths) => {
                let life = life_of(&paths);
                drop(paths);
                life
            }
            None => None,
        },
        Err(_) => None,
    }
}

/// The same over a new book.
fn life_in_new(
    alloc: Global,
    question: &Question,
    answer: &Arc<Answer>,
    request: &Request,
    now: Moment,
) -> Option<u32>
    requires { kind_of (arc_value answer.now).records ≡ question.now.kind }
{
    let (book, mut seat) = ListCache::new(alloc);
    let life = life_over(alloc, &book, &mut seat, question, answer, request, now);
    drop(seat);
    drop(book);
    life
}

/// The same of the request to port 5070 of a.example., whose A lives for ten seconds.
fn example(alloc: Global) -> Option<u32> {
    let now = Moment::new(100)?;
    let asked = both(question(alloc), answer(alloc, 10));
    match both(asked, request(alloc)) {
        Some(((question, answer), request)) => {
            life_in_new(alloc, &question, &answer, &request, now)
        }
        None => None,
    }
}

#[test]
fn target_came_by_its_answer(rt: HostRuntime) {
    assert_eq!(rt; example(rt.alloc()), Some(10));
}
