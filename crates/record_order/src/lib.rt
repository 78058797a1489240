//! Records in one fixed order, whatever order a reply has them in.
//!
//! A stateless proxy has to send all retransmissions of a request to one server, so it needs an
//! order of its own for the records that RFC 2782 and RFC 3403 let tie (RFC 3263 4.4). Here it is a
//! total order of all records of one kind:
//!
//! - addresses by their octets;
//! - SRV records by priority, the lowest first; then by weight, the largest first; then by the
//!   octets of the target, and by port;
//! - NAPTR records by order and preference, the lowest first; then by the octets of services,
//!   flags, regular expression and replacement.
//!
//! `indexes_in_order` gives the indexes of records in that order, `in_order` copies of addresses,
//! and `rules_in_order` copies of NAPTR records. `specs/RecordOrder.antt` says what the order is.
//! It tells different records apart (`law_orders_are_exact`), so permutations of records have the
//! same order (`law_order_is_fixed`).
#![tactic(auto)]

mod laws;
mod order;
mod ranked;

pub use laws::{law_order_is_fixed, law_order_is_sorted, law_orders_are_exact};
pub use order::{RECORD_LIMIT, in_order, indexes_in_order, rules_in_order};
pub use ranked::Ranked;
