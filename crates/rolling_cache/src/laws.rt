//! Laws of a rolling cache. A call of one does nothing; its contract states the law.
ghost use denote.Param.Send.{IsSync};
ghost use Rattle.std.specs.Prelude.{◌≡◌, ◌<◌, ◌≤◌, ◌⊎◌, ℕ, List, Some};
ghost use Rattle.std.specs.List.{Any};
ghost use mathlib.Core.List.{IsPrefix};
ghost use Rattle.dns_answers.specs.Values.{AnswerValue};
ghost use Rattle.dns_message.specs.declared.question.Question.{Question as Asked};
ghost use Rattle.answer_log.specs.Groups.{group_in};
ghost use Rattle.answer_log.specs.Histories.{cached};
ghost use Rattle.answer_log.specs.declared.store.Store.{Store};
ghost use Rattle.answer_cache.specs.Carried.{CarriedView, IsCarried, carried_stores};
ghost use Rattle.rolling_cache.specs.Eras.{Gives, begun_with, handed_in};
ghost use Rattle.rolling_cache.specs.Rolling.{IsAt};
ghost use Rattle.rolling_cache.specs.contracts.rolling.RollingCache.{the_row};

use crate::seat::RollingSeat;
use answer_cache::law_seats_see_one_history;
use dns_message::law_same_questions_are_equal;

/// A law: an answer that a look-up finds was handed in to be stored for that question, in the
/// generation of its seat or in one before it, and its life is not over.
pub fn law_answers_were_handed_in(seat: &RollingSeat)
    requires { IsAt seat.now }
    ensures { (question : Asked) (now : ℕ) (answer : AnswerValue)
        → cached seat.now.seat.seat.seen question now ≡ Some answer
        → Any (Gives question now answer)
        (handed_in seat.now.generation.past seat.now.seat.seat.seen) }
{
    seat.generation().law_descends();
}

/// A law: at the moment of a carrying and at each later one, what a generation began with answers a
/// question as the history did from which its group was carried: no store of the question was
/// later.
pub fn law_renewed_answers_as_before(seat: &RollingSeat)
    ensures { (carried : CarriedView) (before after : List Store) (now later : ℕ)
        → 0 < carried.groups → carried.offers ≡ begun_with seat.now.generation.past
        → now ≤ later → (it : IsCarried before after now carried) → (question : Asked)
        → cached (carried_stores (begun_with seat.now.generation.past)) question later
        ≡ cached (it.history (group_in carried.groups question)) question later }
{
    let _ = seat;
    law_same_questions_are_equal();
}

/// A law: where two seats of a generation have one number, the stores of one are the first ones of
/// the other. A seat's own stores change by its own calls alone (`StoresNothing`, `IsStored`), so
/// two seats that store different answers have two numbers.
pub fn law_one_number_has_one_list_of_stores(one: &RollingSeat, other: &RollingSeat)
    requires one { IsAt one.now }
    requires other { IsAt other.now }
    requires generation { one.now.generation ≡ other.now.generation }
    requires number { one.now.seat.seat.number ≡ other.now.seat.seat.number }
    ensures { IsPrefix one.now.seat.seat.own other.now.seat.seat.own
        ⊎ IsPrefix other.now.seat.seat.own one.now.seat.seat.own }
{
    law_seats_see_one_history(&one.seat, &other.seat);
}

/// A law: threads may share a cache (`Sync`).
///
/// The prover does not find this by itself where threads borrow a cache: who hands one to threads
/// answers that goal with the lemma `rolling_sync`, as `load_met` of the tests does.
pub fn law_threads_may_share()
    ensures { IsSync the_row }
{}
