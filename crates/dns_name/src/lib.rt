//! Domain names of RFC 1035: read from texts and from messages, and written to both.
//!
//! A name is read exactly where there is one, and each refusal says why not. Capitals of ASCII
//! become small letters, so that two names are equal exactly where their octets are. A pointer in a
//! message leads to a whole run of labels before the one that it closes, so no message makes a
//! reader go round.
//!
//! ```
//! let domain = Name::from_text(alloc, "B.example")?;
//! let service = domain.prefixed("_sip", "_udp")?;
//! assert_eq!(rt; service.text()?.as_str(), "_sip._udp.b.example.");
//! // the name at octet 0 of a message, and the offset after it
//! let (name, after) = read_name(alloc, b"\x01b\x07example\x00", 0)?;
//! assert!(rt; name == domain && after == 11);
//! ```
#![tactic(auto)]

mod builder;
mod landing;
mod laws;
mod message;
mod name;
mod octets;
mod refusal;
mod text;

pub use landing::Landings;
pub use laws::{
    law_name_rests_before_its_end, law_octets_determine_name, law_one_name_at_an_offset,
    law_same_names_are_equal, law_written_name_is_read, law_written_text_is_read,
};
pub use message::{read_name, read_name_by, read_name_into, read_name_into_by, write_name};
pub use name::Name;
pub use refusal::{NameReadRefusal, NameRefusal};
