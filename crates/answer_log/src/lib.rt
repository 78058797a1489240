//! The log that seats share: a history of stores, and the atomic steps that read it and let it
//! grow.
//!
//! A store says which answer a question had at a moment, and which seat stored it. The log is the
//! list of all events so far, in the order of time. The first event says how many seats and how
//! many groups there are. Each other one names a node for a store, or places a node that was named.
//! The history is the list of the stores whose nodes were placed, the oldest first. Nothing leaves
//! the log, so what was seen of it stays true.
//!
//! No value of the log is made, and what a program has is words. `Log::open` is told how many
//! groups there are, 64 to 65,536 of them. Each question is in one group, by its hash modulo their
//! number, and each group has a head, which holds the number of its node placed last. The link of
//! each placed node holds the number of the node of its group placed before it. 0 is the number of
//! no node. A seat numbers its nodes by its own number and a place: node 1 + seat + 64 * place,
//! where 64 is the greatest number of seats.
//!
//! ```text
//!  events   Opened 2 64, Named 1 a, Placed 1 a, Named 2 b, Named 65 c, Placed 2 b, Placed 65 c,
//!           Named 66 d           2 seats, 64 groups: a and c are in group 6, b and d in group 45
//!
//!  head 6    node 65      node 1
//! +----+     store c      store a
//! | 65 | --> link 1  ---> link 0
//! +----+
//!  head 45   node 2                                                 node 66
//! +----+     store b                                                store d
//! |  2 | --> link 0                                                 link 2
//! +----+                                                            (not placed yet)
//!  idle
//! +----+
//! |  0 |                                          history   a, b, c
//! +----+
//! ```
//!
//! A step is of one of seven kinds. Four of them read or write one word that others may read:
//!
//! - a load of a head: `Log::cursor`, and `Log::learn`, which first takes over what another has
//!   seen. By the rule it shows the whole log, and not that group alone;
//! - a load of a link: `Cursor::pass`;
//! - a store into the link of a node that is not placed yet: `Word::store`, by the pen that
//!   `Log::claim` gives;
//! - an exchange of the head of a group, from the node that the link holds to the new one:
//!   `Log::place`. It fails where the head has another node by then, and the seat may try again
//!   with that one in its link.
//!
//! Three say who may write which word:
//!
//! - the heads and the idle word are made, and the seats have their counts of events: `Log::open`,
//!   before any other step;
//! - a link is made and its node is named, by an exchange of 0 with 0 on the idle word:
//!   `Log::claim`;
//! - the link of a placed node is given over to the log, and nobody writes it again: within the
//!   exchange of `Log::place`.
//!
//! Each seat has a `Handle`, which `Handles::deal` gives: how many events the seat has in the log,
//! what it has seen, and what its calls have spent. Nobody else adds an event of that seat, so a
//! seat knows that its next node has no name yet. What is spent is counted for contracts alone: a
//! link more by `Cursor::pass`, and a try more by `Log::place`.
//!
//! So a store is a row of calls: `Log::cursor` tells the node of the group placed last,
//! `Log::claim` names a node and gives its link and its pen, `Word::store` writes the node placed
//! last into that link, and `Log::place` tries to place the node. The crate `answer_cache` is the
//! one user, and its `SharedCache` makes these calls.
//!
//! A `Cursor` goes from a group's node placed last to its first one. It says which node is next,
//! and whoever finds that node passes its link.
//!
//! Read `specs/Histories.antt` and `specs/Logs.antt` first: what a history answers, and what events
//! say of it. Then `specs/Rules.antt`, what holds at each moment, `specs/Steps.antt`, what each
//! step says, `specs/Handles.antt`, what a seat has, `specs/Spending.antt`, what its calls spend,
//! and `specs/Cursors.antt`, what is ahead of a cursor.
#![tactic(auto)]

mod cursor;
mod event;
mod groups;
mod handle;
mod log;
mod nodes;
mod spent;
mod steps;
mod store;
mod tally;

pub use cursor::Cursor;
pub use event::{Counted, Event};
pub use groups::{GROUP_LIMIT, LEAST_GROUPS, MOST_GROUPS, group, group_among, hash};
pub use handle::{Handle, Handles};
pub use log::{
    ClaimedNode, Log, law_histories_are_one, law_log_keeps_its_rule, law_placed_is_named,
};
pub use nodes::{MOST_SEATS, node_at, seat_and_place};
pub use spent::Spent;
pub use steps::{Pen, SeenLog, Word};
pub use store::{NewStore, Store};
pub use tally::{Law, Tallies, Tally};
