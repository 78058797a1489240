//! Where a SIP request or response goes (RFC 3263 4, 5), asked for one DNS question at a time.
//!
//! A `Selection` does no input or output. It says which question it needs, takes the answer, and
//! ends with targets in the order in which they are to be tried, or with the reason why there are
//! none. A `Failover` then goes through the targets as the caller says how each try went (RFC 3263
//! 4.3).
//!
//! ```
//! let caps = Caps::new(&[Udp], Families::V4)?;
//! let mut selection = Selection::new(alloc, request, caps, words).ok()?;
//! // it asks for A of a.example., and a name server answers 192.0.2.7
//! if let Next::Ask(question) = selection.next() {
//!     let question = question.try_clone().ok()?;
//!     selection.give(alloc, &question, answer).ok()?;
//! }
//! match selection.next() {
//!     Next::Targets([target]) => Some(target.port),
//!     _ => None,
//! }
//! ```
//!
//! In general `next` is called and its questions are answered in a loop, until it gives targets or
//! the reason (`Next::Refused`) why there are none.
//!
//! For `sip:b.example`, a caller with UDP and TCP, and IPv4 alone, it can go so:
//!
//! ```text
//! next: NAPTR b.example.                give: no records
//! next: SRV   _sip._udp.b.example.      give: one record, whose target is the root
//! next: SRV   _sip._tcp.b.example.      give: port 5070 of s.b.example.
//! next: A     s.b.example.              give: 192.0.2.20
//! next: TCP to 192.0.2.20, port 5070
//! ```
//!
//! What is next depends on the request, the caller's transports and families, the random words and
//! the answers given, and on nothing else. `next` takes no memory, and to call it again changes
//! nothing. `give` takes the answer to the question that is asked, and no other; after a refusal
//! the selection is as before, so the same answer can be given again where memory was refused. An
//! answer is given at most once for a question, though several servers can have the same name.
//!
//! Where answers are at hand, `choose` makes a choice at once: it asks an `AnswerSource` for the
//! answer to each question that comes up, and copies the request and the random words only where
//! one is missing. What the source lends is not copied either. The request is a `RequestView`: one
//! that was read, or a URI or a Via as it stands in its text. `Selection::consult` asks a source
//! for a selection that waits. What a source is asked is the question that was needed with the
//! answers before it (`specs/Consulting.antt`).
//!
//! `specs/Choice.antt` says where a request goes, as one function `locate` of all this. Laws tell
//! what follows from it: a numeric target asks nothing (`law_numeric_targets_ask_nothing`), a SIPS
//! request goes over TLS alone (`law_secure_requests_go_over_tls`), each target has an address that
//! was answered or written (`law_targets_are_answered`), and where a request goes stays so when
//! further answers are given (`law_resolutions_are_final`). There are at most 521 questions
//! (`law_questions_are_few`) and 16,384 targets (`law_targets_are_few`); of a selection as it is,
//! `Selection::law_answers_are_few` says both.
//!
//! A request that is too large for UDP (RFC 3261 18.1.1) goes by `Caps::for_length`, and
//! `with_udp_last` tries it over UDP after all. A stateless proxy (RFC 3263 4.4) asks for one fixed
//! order of records that tie, by `Caps::with_fixed_order`: however servers turn records round, a
//! request then goes the same way (`law_fixed_order_is_of_records`).
//!
//! `service_name` and `service_transport` say which SRV records are those of a service, and over
//! which transport a NAPTR record leads to one.
//!
//! `read_request` reads the request of a line: a URI, or the top Via of a request.
//!
//! Each `give` goes on from where the choice stopped. It takes memory for the answer, for the
//! targets that it leads to and for the next question, and keeps what was found before.
#![tactic(auto)]

mod boxed;
mod caps;
mod choice;
mod choice_laws;
mod failover;
mod fallbacks;
mod held_words;
mod known;
mod laws;
mod position;
mod reason;
mod request;
mod request_line;
mod request_view;
mod rules;
mod selection;
mod service;
mod source;
mod stage;
mod target;
mod targets;
mod transports;

pub use caps::{Caps, Families};
pub use choice_laws::{
    law_fixed_order_is_of_records, law_numeric_targets_ask_nothing, law_questions_are_few,
    law_questions_are_missing, law_secure_requests_go_over_tls, law_targets_are_answered,
    law_targets_are_few, law_targets_are_offered,
};
pub use failover::{Event, Failover, Failure, Progress};
pub use fallbacks::with_udp_last;
pub use laws::{
    law_resolutions_are_final, law_rules_stand_by_preference, law_trials_follow_events,
};
pub use reason::Reason;
pub use request::Request;
pub use request_line::{behind_via, read_request};
pub use request_view::RequestView;
pub use rules::service_transport;
pub use selection::{Choice, GiveRefusal, Next, Selection, choose};
pub use service::service_name;
pub use source::AnswerSource;
pub use target::Target;
