//! One SIP request and the replies to its questions, as lines of text: what `siplocate one` reads
//! and prints.
//!
//! The first line is a URI, or a Via as a message has it (RFC 3261 20.42). Each further line is the
//! reply to the question that is open then, in hexadecimal digits. `one_text` gives the lines of
//! what is next for the request (RFC 3263 4, 5), and the exit status: its targets, the question
//! that is open, or why it goes nowhere; or what is wrong with the first line that is wrong.
//!
//! The request is located over a book of its own at one moment, by `own_caps` and `own_words`,
//! which `siplocate run` has too.
//!
//! Read `specs/Requests.antt` first: where a text leads. Then `specs/Words.antt`: what is printed.
#![tactic(auto)]

mod caller;
mod one;
mod output;
mod reply;
mod talk;

pub use caller::{own_caps, own_words};
pub use one::one_text;
pub use output::{refusal_word, target_line};
