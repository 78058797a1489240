//! A book of DNS answers that seats share, and the one history of what was stored.
//!
//! A resolver asks DNS servers so that a SIP request finds its next hop (RFC 3263). The answers may
//! be kept for as long as they live. This crate keeps them: a book is asked before a server is, and
//! each new answer is stored in it.
//!
//! A book has one history: the list of all stores, the oldest first. It only grows, and what was
//! stored stays until the book is dropped. Each user of a book has a seat at it, and a thread uses
//! its own seat. A seat sees a history, and after each call it sees the same history or a longer
//! one.
//!
//! `look` answers from the last store of the question. It finds the answer while that lives: until
//! as many seconds after the moment of the store as the life of the answer says. A look-up at an
//! earlier moment finds it too. When the life has ended, it finds nothing. An older store of the
//! question does not come back. `lookup` finds the same, and its caller keeps it.
//!
//! A `SharedCache` lends what `look` finds, and that stays until the cache is dropped. So a thread
//! that only reads an answer touches no count that threads share.
//!
//! `store` adds an answer after all others, at the moment that the caller gives. It refuses an
//! answer of life 0, because that may not be kept. It also refuses an answer when the group of its
//! question is full, when other stores came in between 16 times, and when there is no memory.
//! `StoreRefusal` says which it was, and nothing was stored then.
//!
//! A book puts each question, by its name and type, into one of its groups, and a group has at most
//! 128 stores. A book has 64 groups (`group` says which), and so at most 8,192 stores, or as many
//! as `ListCache::with_groups` or `SharedCache::with_groups` is told: 65,536 at most, which have
//! 8,388,608 stores. Stores do not make room for others: when groups are full, the user
//! of a book begins a new one. A `SharedCache` hands on what lives (`carry`), and its successor
//! begins with that. `ListCache::successor` begins with what lives of another list. A successor is
//! of as many groups.
//!
//! `AnswerBook` is the trait of all books: each has `look`, and `lookup` comes with it. `Stores<R>`
//! is the trait of those in which the holder of an `R` stores: in a book that threads share, a
//! runtime that may wait (`Wait`). `ListCache` is the book of one thread, and has one seat. It
//! never waits, so its `store` takes any `R`, also `()`; a lookup looks through the hashes of one
//! group. Its seat has the answers, so it lends none.
//!
//! So an answer of life 10 that is stored at the moment 100 is found at 109, and not at 110.
//!
//! `SharedCache` is the book that up to 64 seats share without a lock, each seat in a thread of its
//! own. All seats see one history: of what two seats have seen, one is the beginning of the other.
//! Each store in it is of one of the seats, so their own stores together are the history. A seat
//! sees what another had seen once it has learned that one's notice. A lookup goes along the stores
//! of its question's group that its seat has not passed yet, 128 at most. Of the others the seat
//! has an index in memory of its own, which its first lookup makes for each group; where there is
//! no memory for it, or to add to it, the lookup answers all the same. A store is tried 16 times at
//! most, and it may lose each try to stores of other seats in the same group. It asks for memory
//! before its first try, and may be made again where that is refused.
//!
//! ```
//! // in the thread of the second seat
//! cache.store(rt, second, &question, &answer, now).ok()?;
//! let notice = second.notice();
//! // in the thread of the first seat, which may not have seen the store before
//! let before = life_of(cache.lookup(first, &question, now).ok()?);
//! cache.learn(first, &notice.again());
//! let after = life_of(cache.lookup(first, &question, now).ok()?);
//! ```
//!
//! `carry` gives what a cache is to hand on at a moment: of each group the last stores of their
//! questions, where they live then. `successor` makes a cache whose history begins with that. Its
//! seats are seats like any other, and look-ups answer as they did before. The old cache goes on by
//! itself: what is stored there afterwards is not in its successor.
//!
//! Read `specs/Histories.antt` of `answer_log` first: it says what a history is, and `cached` is
//! what a lookup answers. Then read `specs/Seats.antt`: it says what a seat sees, how each call
//! changes that, and why a store is refused. `specs/Shared.antt` says what contracts see of the
//! seats of a `SharedCache`, and `specs/Carried.antt` what is carried.
#![tactic(auto)]

mod book;
mod carried;
mod carry;
mod index;
mod kept;
mod list_cache;
mod node;
mod notes;
mod refusal;
mod rival;
mod seat;
mod shared_cache;
mod store_list;
mod successor;

pub use answer_log::group;
pub use book::{AnswerBook, Stores};
pub use carried::{Carried, law_carried_answers_as_before};
pub use list_cache::{ListCache, ListSeat};
pub use refusal::{CacheRefusal, StoreRefusal};
pub use rival::Rival;
pub use seat::{
    Notice, Seat, law_notices_tell_one_history, law_seats_see_one_history,
    law_stores_are_of_the_seats,
};
pub use shared_cache::SharedCache;
pub use store_list::is_group_count;
