//! The one history of a run, which its seats and its notices tell of.
ghost use Rattle.std.specs.Prelude.{◌≡◌, ◌<◌, length};
ghost use Rattle.std.specs.List.{All};
ghost use mathlib.Core.List.{IsPrefix};
ghost use Rattle.answer_log.specs.Histories.{mine};
ghost use Rattle.answer_cache.specs.Shared.{Belongs};
ghost use Rattle.sip_workers.specs.Deals.{StaysSo, TellsOneHistory};

use answer_cache::{Notice, Seat, SharedCache, law_stores_are_of_the_seats};
use sip_resolver::Outcome;

/// Lets a seat learn what these notices tell: one load for each.
fn learn_notices(cache: &SharedCache, seat: &mut Seat, made: &[(Outcome, Notice)])
    requires made_here { Belongs cache.now seat.old }
    requires told_here { All (λ it. it.1.cache ≡ cache.now) made.now }
    ensures stays { Belongs cache.now seat.new }
    ensures same { StaysSo seat.old.seat seat.new.seat }
    ensures told { All (λ it. IsPrefix it.1.seen seat.new.seat.seen) made.now }
{
    'notices: for it in made {
        cache.learn(seat, &it.1);
    }
}

/// Lets a seat learn what these seats have seen: one load for each.
fn learn_seats(cache: &SharedCache, seat: &mut Seat, others: &[Seat])
    requires made_here { Belongs cache.now seat.old }
    requires told_here { All (Belongs cache.now) others.now }
    ensures stays { Belongs cache.now seat.new }
    ensures same { StaysSo seat.old.seat seat.new.seat }
    ensures told { All (λ it. IsPrefix it.seat.seen seat.new.seat.seen) others.now }
{
    'seats: for it in others {
        cache.learn(seat, &it.notice());
    }
}

/// A law: a history that a seat has seen the beginning of has no store of this seat that the seat
/// did not make. The seat learns it, and is given up.
fn tell(cache: &SharedCache, mut seat: Seat, notice: &Notice)
    requires made_here { Belongs cache.now seat }
    requires told_here { notice.now.cache ≡ cache.now }
    requires later { IsPrefix seat.seat.seen notice.now.seen }
    ensures { mine notice.now.seen seat.seat.number ≡ seat.seat.own }
{
    cache.learn(&mut seat, notice);
}

/// The same law, of seats that are given up.
fn tell_all(cache: &SharedCache, seats: Vec<Seat>, notice: &Notice)
    requires made_here { All (Belongs cache.now) seats.items }
    requires told_here { notice.now.cache ≡ cache.now }
    requires later { All (λ it. IsPrefix it.seat.seen notice.now.seen) seats.items }
    ensures { All (λ it. mine notice.now.seen it.seat.number ≡ it.seat.own) seats.items }
{
    'seats: for seat in seats {
        tell(cache, seat, notice);
    }
}

/// Sees the one history that these notices and seats tell of, at seats that are then given up.
pub(crate) fn see_one_history(cache: &SharedCache, mut seats: Vec<Seat>, made: &[(Outcome, Notice)])
    requires some { 0 < length seats.items }
    requires made_here { All (Belongs cache.now) seats.items }
    requires told_here { All (λ it. it.1.cache ≡ cache.now) made.now }
    ensures { TellsOneHistory cache.now seats.items made.now }
{
    let Some(mut seat) = seats.pop() else {
        unreachable!()
    };
    learn_notices(cache, &mut seat, made);
    learn_seats(cache, &mut seat, seats.as_slice());
    law_stores_are_of_the_seats(&seat);
    tell_all(cache, seats, &seat.notice());
}
