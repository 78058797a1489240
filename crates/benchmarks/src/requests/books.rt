//! Books, and what is stored in them.
ghost use Rattle.std.specs.Prelude.{IfSome};
ghost use Rattle.answer_cache.specs.Shared.{Belongs};

use crate::requests::known::Known;
use answer_cache::{Seat, SharedCache, Stores};
use dns_answers::Moment;
use std::alloc::Global;

/// Stores answers.
pub fn fill<R, B: Stores<R>>(rt: &R, book: &B, seat: &mut B::Seat, known: &[Known], now: Moment)
    requires { B.belongs book.now seat.old }
    ensures { B.belongs book.now seat.new }
{
    'known: for it in known {
        if it.answer.records().kind() == it.question.kind {
            let _ = book.store(rt, seat, &it.question, &it.answer, now);
        }
    }
}

/// A cache with one seat.
pub fn one_seat(alloc: Global) -> Option<(SharedCache, Seat)>
    ensures { IfSome result (λ made. Belongs made.0 made.1) }
{
    let Ok((cache, mut seats)) = SharedCache::new(alloc, 1) else {
        return None;
    };
    let seat = seats.pop()?;
    Some((cache, seat))
}
