//! A cache of DNS answers for an element that runs for months.
//!
//! A `SharedCache` of `answer_cache` drops no store, so its groups fill up. A `RollingCache` goes
//! over from one to the next: each is a generation, and begins with what lived of the one before
//! it. Threads have a seat each, from 1 to 64, and no look-up waits while generations change.
//!
//! ```
//! // before a request: go over to the present generation, or begin the next one
//! cache.catch_up(rt, seat, now).ok()?;
//! // then the cache is a book of answers like any other
//! if let Some(found) = cache.lookup(seat, question, now).ok()? {
//!     return Some(found.life());
//! }
//! cache.store(rt, seat, question, answer, now).ok()?;
//! ```
//!
//! A seat is at one generation, and that changes in `catch_up` and in `renew` alone. Between these
//! calls the cache is an `AnswerBook` whose one history is that of the seat's generation. So a
//! locator runs over it, and may also go on with a seat that has gone over. What owns its seat, as
//! a worker does, takes the seat out (`RollingSeat::into_parts`), looks from time to time for one
//! at a later generation (`RollingCache::seat_after`), and leaves `renew` to another seat. There
//! the generation's cache lends what `look` finds; a `RollingCache` lends nothing.
//!
//! `catch_up` goes over to the present generation, where that is another one. Where the present one
//! is to end, one thread carries what lives, and begins the next one with that. A generation is to
//! end once a store finds 112 stores in its group, of the 128 that a group can have. A seat notes
//! that (`RollingSeat::is_ending`, `TellsEnd`), and all seats of the generation are told. So it is
//! to end before a store is refused since a group is full, unless 16 others come in between. The
//! next one begins at a later moment: before time has passed nothing is freed. So where more live
//! than a group can have, there is a new generation each second at most. `renew` begins the next
//! one in any case. The others take the present generation out of its place only where they take
//! their seat there. Where another thread has taken it out, they go on at theirs until the next
//! call. No thread waits for another one.
//!
//! What a thread stores at its generation while another one carries may not be carried. So a seat
//! keeps what it stores from the beginning of a carrying on, up to 1,024 stores where there is
//! memory, and `catch_up` and `renew` store it again at the generation that the seat goes over to:
//! what still lives, where no answer that lives was stored there at that moment or later. So a
//! thread does not ask for the same answer again while it lives. Other threads may find it a moment
//! later, and ask meanwhile. A seat that is taken apart (`into_parts`) keeps nothing.
//!
//! Catch up before replies are heard, too, and not before requests alone: a seat that stays where
//! it is for long stores where no other one looks, and keeps no more than those.
//!
//! A seat is one of the cache that gave it: contracts tell a cache by its first generation
//! (`root_of`), and no other cache takes the seat. No seat is given out twice: the stores of seats
//! of one number are one list (`law_one_number_has_one_list_of_stores`), so two seats that store
//! different answers have two numbers. A seat goes over to later generations alone (`IsLater`).
//! That the one it leaves is among those before the next one is so, but no contract says it.
//!
//! A generation is freed when its last seat has left it and a later one is present. So a thread
//! that calls nothing for long keeps one old generation, and no other one.
//!
//! # How large it is
//!
//! A generation takes at most 128 stores in each of its groups, 64 or as many as `with_groups` is
//! told. With 64 it takes 8,192. It is to end after 113 stores at the least, where all are of one
//! group. Where the questions are many, groups fill evenly, and that is after some 5,700 stores. A
//! million names a day, each stored once, are 12 stores a second, and a new generation every eight
//! minutes. As many answers as live at once have to fit, with those that come meanwhile: where a
//! group has 63 that live, it takes 49 more before its generation is to end.
//!
//! With 65,536 groups, the most that there can be, a thousand times as many fit. A group costs 8
//! octets in a generation, and 24 more in each seat that looks something up there.
//!
//! Each generation that a seat is at is in memory: the present one, and while generations change
//! the ones before it, one for each seat at most. Beside its stores it has an index of each seat:
//! with 64 seats that all look everything up, 16 octets a store and seat.
//!
//! Read `specs/Rolling.antt` first: it says what a seat sees, and what becomes of it. Then read
//! `specs/Eras.antt`: it says what generations hand on, and what was handed in to them.
#![tactic(auto)]

mod change;
mod generation;
mod late_store;
mod laws;
mod lineage;
mod present;
mod rolling;
mod seat;

pub use change::Change;
pub use generation::Generation;
pub use laws::{
    law_answers_were_handed_in, law_one_number_has_one_list_of_stores,
    law_renewed_answers_as_before, law_threads_may_share,
};
pub use rolling::RollingCache;
pub use seat::RollingSeat;
