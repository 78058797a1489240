//! DNS messages (RFC 1035 section 4).
//!
//! A message is read where octets begin with one, and nothing else is taken for one: octets begin
//! with at most one message, and `read_message` gives that one, with each name spelled out, or says
//! in which part of the octets there is none. It gives up only where memory is refused, and takes
//! memory only for what it reads. Records of types A, AAAA, CNAME, SOA, SRV and NAPTR in class
//! IN have their data as values; all other data is kept as its octets. `message_in` gives the same
//! message, or nothing, for a caller that need not know why there is none.
//!
//! Queries and replies are written without pointers, and what is written is read again as the same
//! message. A reply that does not fit into a datagram of 512 octets is cut to its question;
//! `write_message` writes messages of up to 65,535 octets.
//!
//! ```
//! let name = Name::from_text(alloc, "a.example")?;
//! let question = Question {
//!     name,
//!     kind: Kind::A,
//! };
//! let query = write_query(alloc, 0x1234, &question)?;
//! // the octets that a server gave for these
//! let message = read_message(alloc, octets)?;
//! for record in message.answers.as_slice() {
//!     if let Rdata::Addr4(address) = &record.rdata {
//!         assert_eq!(rt; (*address, record.ttl), ([192, 0, 2, 7], 300));
//!     }
//! }
//! ```
#![tactic(auto)]

mod char_string;
mod codes;
mod datagram;
mod entry;
mod header;
mod kind;
mod laws;
mod message;
mod message_writer;
mod name;
mod naptr;
mod number;
mod other_data;
mod owner;
mod question;
mod rdata;
mod refusal;
mod resource;
mod section;
mod soa;
mod srv;
mod written;

pub use char_string::CharString;
pub use codes::CLASS_IN;
pub use header::Header;
pub use kind::Kind;
pub use laws::{
    law_one_message_in_front, law_same_questions_are_equal, law_written_message_is_read,
};
pub use message::{Message, message_in, read_message};
pub use message_writer::{WriteRefusal, write_message};
pub use naptr::NaptrRecord;
pub use other_data::OtherData;
pub use question::{Asked, Question};
pub use rdata::Rdata;
pub use refusal::{MessageRefusal, Part};
pub use resource::Record;
pub use section::Section;
pub use soa::SoaRecord;
pub use srv::SrvRecord;
pub use written::{write_query, write_reply};
