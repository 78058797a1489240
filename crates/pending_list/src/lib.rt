//! A list of items that wait for their deadlines, as questions do that were sent and have no reply
//! yet.
//!
//! The entries are ordered by deadline, and those of one deadline in the order in which they got
//! it. An entry is known by its id, which no other entry of the list ever has. A deadline is a
//! number, and a list knows no clock: its user says what time it is.
//!
//! A list has a limit. When it is made it makes a table of as many places, and `insert` makes a
//! node for its entry, which has one of these places and is linked to its neighbours. An id finds
//! its node by the place. No other call takes memory, and all others always answer.
//!
//! ```
//! let mut list = PendingList::new(alloc, 3, 0)?;
//! let x = list.insert(5, 'x')?;
//! list.insert(5, 'y')?;
//! list.insert(3, 'z')?;
//! // z, x, y
//! list.move_to(x, 9);
//! // z, y, x; the deadline of z is over at 4
//! assert_eq!(rt; list.pop_due(4).map(|due| due.2), Some('z'));
//! assert_eq!(rt; list.remove(x), Some('x'));
//! ```
//!
//! Read `specs/Pending.antt` first: `placed` says where an entry is put, and `moved` what another
//! deadline does.
#![tactic(auto)]

mod entry;
mod id;
mod iter;
mod linked_list;
mod list;
mod lookup;
mod node;
mod nodes;
mod raw_box;
mod refusal;
mod table;

pub use id::PendingId;
pub use iter::Iter;
pub use list::PendingList;
pub use refusal::InsertRefusal;
