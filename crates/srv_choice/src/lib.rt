//! The order in which the servers of a service are tried (RFC 2782).
//!
//! SRV records say by priority and weight in which order their targets are to be tried, and where
//! weights decide, by chance. The random words are handed in, so the same records and words give
//! the same order.
//!
//! ```
//! // records of priority 20 and 10
//! match order(records.as_slice(), &words, 0) {
//!     // the indexes of the records, and how many words are used
//!     SrvOutcome::Listed(indexes, used) => {
//!         assert_eq!(rt; (indexes.as_slice(), used), ([1, 0].as_slice(), 2));
//!     }
//!     // no records: the addresses of the name itself are tried
//!     SrvOutcome::Absent => assert!(rt; false),
//!     // the service is not offered
//!     SrvOutcome::Denied => assert!(rt; false),
//! }
//! ```
//!
//! `random_order` takes its words as `RandomWords`: given, or by a key and a number, of which only
//! the words that count are drawn.
//!
//! `fixed_order` puts them in one order in which no random word counts, for a stateless proxy (RFC
//! 3263 4.4).
//!
//! `specs/Outcomes.antt` says what `order` gives, as one function of the records, the words and the
//! index of the first word. What RFC 2782 asks of it are laws: `law_order_is_by_priority` (each
//! record comes once, none before one of a lower priority) and `law_weights_are_shares` (records of
//! one priority are picked in proportion to their weights).
#![tactic(auto)]

mod choice;
mod indexes;
mod laws;
mod next_index;
mod order_words;
mod outcome;
mod words;

pub use choice::{fixed_order, order, random_order};
pub use indexes::Indexes;
pub use laws::{law_limits, law_order_is_by_priority, law_weights_are_shares};
pub use next_index::RECORD_LIMIT;
pub use outcome::SrvOutcome;
pub use words::{RandomWords, WORD_COUNT, Words};
