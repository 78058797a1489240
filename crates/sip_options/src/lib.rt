//! An OPTIONS request of SIP that asks whether a server is there, and which octets are its reply.
//!
//! `OptionsRequest::octets` writes the request, and `OptionsRequest::reply_status` gives the status
//! of a message exactly where it is a reply to it (RFC 3261 8.1.3.3, 17.1.3, 18.3). Of a stream
//! `behind_empty_lines` and `frame` say where a message ends. Nothing here sends or receives, and
//! memory is taken for the octets of the request alone.
//!
//! ```
//! let request = OptionsRequest {
//!     transport: Transport::Udp,
//!     address: Address::V4([192, 0, 2, 1]),
//!     port: 5070,
//!     uri: "sip:b.example",
//!     branch: 1,
//!     from_tag: 2,
//!     call_id: 3,
//!     max_forwards: 70,
//! };
//! let octets = request.octets(alloc)?;
//! assert!(rt; octets.starts_with(b"OPTIONS sip:b.example SIP/2.0\r\n"));
//! assert_eq!(rt; request.reply_status(&octets), None);
//! ```
//!
//! # Messages
//!
//! - A line ends with CR and LF. Neither stands anywhere else in a head, and a line that begins
//!   with a space or a tab continues the header before it (RFC 3261 7.3.1). Where a line is no
//!   header, as one without a colon, there is no head.
//! - The version of a status line, the names of headers and parameters and the branch, which is a
//!   token, are read in letters of any case, and headers by their short names too; method and
//!   Call-ID as they stand.
//! - Of several headers or values of Via, and of several parameters `branch`, the first counts;
//!   RFC 3261 8.1.3.3 advises against a reply with several values. Several of Call-ID, CSeq or
//!   Content-Length are refused.
//! - Of a Via the branch alone counts: `SIP/2.0`, the transport and the host are not read (RFC 3261
//!   18.1.2 would have the host and port compared).
//!
//! Wider than RFC 3261 25.1: a line break may stand in front of a header's colon, any octet behind
//! a `\` in a quoted string, and any but CR and LF in a reason, in a quoted string, or in a header
//! or parameter that is not read.
#![tactic(auto)]

mod class;
mod field;
mod frames;
mod header;
mod laws;
mod lines;
mod numbers;
mod pieces;
mod reply;
mod request;
mod tokens;
mod transport;
mod values;
mod via;
mod words;

pub use frames::{FrameRefusal, behind_empty_lines, frame};
pub use ip_text::Address;
pub use laws::law_reply_is_to_one_request;
pub use request::OptionsRequest;
pub use transport::Transport;
