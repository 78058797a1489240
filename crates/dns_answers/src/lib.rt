//! The answer that a DNS reply has for a question (RFC 1034 3.6.2, 5.2.2, 2181 5.2, 2308).
//!
//! A reply to the question is turned into its records and for how long they may be kept; of any
//! other message it is said why it is no reply. Aliases are followed inside the reply, at most
//! eight. No records means that there are none: an answer too, kept for as long as an SOA record in
//! the reply says (RFC 2308 5).
//!
//! A server may cut a chain of aliases short. `follow_up` gives the question that goes on then, and
//! `join_replies` the reply that both together are.
//!
//! ```
//! let name = Name::from_text(alloc, "a.example")?;
//! let question = Question {
//!     name,
//!     kind: Kind::A,
//! };
//! let message = read_message(alloc, octets)?;
//! let answer = answer_of(alloc, &question, &message)?;
//! if let Records::V4(addresses) = answer.records() {
//!     assert_eq!(rt; addresses.as_slice(), [[192, 0, 2, 7]].as_slice());
//! }
//! assert_eq!(rt; answer.life(), 300);
//! ```
#![tactic(auto)]

mod absence;
mod answer;
mod chain;
mod cut_chain;
mod found;
mod kept;
mod laws;
mod moment;
mod records;
mod refusal;
mod reply;

pub use answer::Answer;
pub use cut_chain::{FollowUp, follow_up, is_reply_to, join_replies};
pub use dns_message::Section;
pub use found::FoundAnswer;
pub use laws::{
    law_absence_is_limited, law_answers_are_bounded, law_chain_follows_cnames,
    law_life_is_the_least, law_question_is_repeated,
};
pub use moment::Moment;
pub use records::Records;
pub use refusal::ReplyRefusal;
pub use reply::answer_of;
