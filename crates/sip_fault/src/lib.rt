//! Where the leftmost fault of a text stands that is no SIP URI, or no Via (RFC 3261 25.1).
//!
//! `sip_uri` says what is wrong with a text. `uri_fault_at` and `via_fault_at` say where: how many
//! octets stand in front of the first one with which the text stops being the beginning of a URI,
//! or of a Via. Where it only ends too early, that is its length.
//!
//! ```
//! assert_eq!(rt; uri_fault_at(b"sip:alice@b_c.example"), Some(11));
//! assert_eq!(rt; uri_fault_at(b"sip:b.example:99999"), Some(18));
//! assert_eq!(rt; uri_fault_at(b"sip:b.example"), None);
//! assert_eq!(rt; via_fault_at(b"SIP/3.0/UDP b.example"), Some(4));
//! ```
//!
//! # The offset
//!
//! A beginning of a text can go on where an end of one of a few words makes a URI of it: of `sip`
//! the end `:a.a` of `sips:a.a`, of `sip:b;x=` its end `a`, of `sip:[2001:db8` the word `::]`, of a
//! URI no octet. In front of the first `@` of the text `@a` has to follow, since a user stands
//! there. The fault is the first octet with which a beginning cannot go on. A text of more than
//! 1,024 octets has it at 1,024: that octet is too many.
//!
//! So a number of an IPv4 address that is too large has its fault where the host ends: up to there
//! it could become a name (`192.0.2.300.a`). A name that stands twice has it where the second one
//! ends, and an IPv6 address or a quoted string where its `]` or `"` should stand.
//!
//! # The cost
//!
//! A URI is read once, and a text that is none once or twice more for each octet up to its fault,
//! some ten times in an IPv6 address or the name of a header: this is for a message to whoever
//! wrote it. No memory is taken.
#![tactic(auto)]

mod fault;
mod grammar;
mod laws;

pub use fault::{uri_fault_at, via_fault_at};
pub use laws::{law_fault_within_text, law_one_fault_of_a_text};
