//! Laws of resolvers. A call of one does nothing; its contract states the law.
ghost use denote.Param.Send.{IsSend};
ghost use Rattle.std.specs.Prelude.{◌<◌, ◌≤◌, ℕ, List, Some};
ghost use Rattle.answer_cache.specs.Seats.{GoesOn, SeatView, StoresNothing};
ghost use Rattle.sip_resolver.specs.Dues.{AreAsBefore, AreDealtWith, IsOneDue, PollsAll};
ghost use Rattle.sip_resolver.specs.Expiries.{timeouts_of};
ghost use Rattle.sip_resolver.specs.Idle.{AreAwaited};
ghost use Rattle.sip_resolver.specs.Questions.{IsLeast, deadlines_of};
ghost use Rattle.sip_resolver.specs.Resolvers.{ResolverView};
ghost use Rattle.sip_resolver.specs.Requests.{RequestsView, Stand};
ghost use Rattle.sip_resolver.specs.Runs.{AreKept, Event, Runs};
ghost use Rattle.sip_resolver.specs.Works.{Works};
ghost use Rattle.sip_resolver.specs.contracts.resolver.Resolver.{the_row};

use crate::facts::Facts;
use crate::ids::Ids;

/// Along any calls no request is lost, and none ends twice: the requests that are inside at last,
/// with those whose outcomes were taken and those that were cancelled, are those that were inside
/// at first and those that were submitted, each as often.
pub fn law_requests_are_kept()
    ensures { (first last : ResolverView) (events : List Event) → Runs first events last
        → AreKept first events last }
{}

/// Along any calls, if each request that waits for a reply at first waits for one to a question
/// that is out, so does each that waits at last. In a new resolver no request waits.
pub fn law_requests_are_awaited()
    ensures { (first last : ResolverView) (events : List Event) → Runs first events last
        → AreAwaited first.requests first.questions → AreAwaited last.requests last.questions }
{}

/// Where `poll_transmit` is called at a moment until it gives nothing, each question that was out
/// is dealt with by its deadline. Before its deadline, it is as it was. From its deadline on, it is
/// sent again, or given up where it was sent as often as the schedule says. Only a question that a
/// request waited for whose time is over may be let go. So before the second that `next_timeout`
/// named, nothing is sent again, given up or let go. From the least deadline of a question on, a
/// question whose deadline it was is sent again, given up or let go.
pub fn law_questions_are_dealt_with<F: Facts, I: Ids>()
    ensures dealt { (now asked : ℕ) (first last : ResolverView)
        → PollsAll F.gives F.shows I.draws now asked first last
        → AreDealtWith now asked first last }
    ensures before { (now asked least : ℕ) (first last : ResolverView)
        → PollsAll F.gives F.shows I.draws now asked first last
        → IsLeast (timeouts_of first.requests first.questions) (Some least) → now < least
        → AreAsBefore first last }
    ensures due { (now asked least : ℕ) (first last : ResolverView)
        → PollsAll F.gives F.shows I.draws now asked first last
        → IsLeast (deadlines_of first.questions) (Some least) → least ≤ now
        → IsOneDue least first last }
{}

/// What holds of requests at a seat holds of them as the seat goes on without a store, as a look-up
/// makes it go on; and what a resolver did until then it did.
pub fn law_requests_stand_as_seats_go_on<F: Facts>()
    ensures stand { (old new : SeatView) (requests : RequestsView) → GoesOn old new
        → StoresNothing old new → Stand F.gives F.shows old requests
        → Stand F.gives F.shows new requests }
    ensures quiet { (old new : SeatView) → GoesOn old new → StoresNothing old new
        → Works F.gives F.shows old new }
    ensures works { (first old new : SeatView) → GoesOn old new → StoresNothing old new
        → Works F.gives F.shows first old → Works F.gives F.shows first new }
{}

/// A resolver may go to another thread (`Send`), where its book, its facts and its ids may.
///
/// The prover does not find this by itself: who sends one to a thread answers that goal with the
/// lemma `resolver_send`.
pub fn law_may_change_threads<B, F, I>()
    ensures { IsSend B.row → IsSend F.row → IsSend I.row → IsSend (the_row B.row F.row I.row) }
{}
