//! Where a SIP request or response goes (RFC 3263 4, 5), over DNS answers that requests share.
//!
//! A `Locator` makes the choice of one request. It does no input or output of its own. It looks its
//! questions up in a book of answers, an `AnswerBook` of `answer_cache`, and asks its caller only
//! for what the book has no answer to. The answers that its caller brings go into the book, where
//! the locators of other requests find them.
//!
//! ```
//! let (book, mut seat) = ListCache::new(alloc);
//! let mut locator = Locator::new(alloc, request, caps, words).ok()?;
//! // it asks for A of a.example.
//! let asks = asks(locator.step(&book, &mut seat, now).ok()?);
//! // the octets that a name server sent: 192.0.2.7 for 300 seconds
//! locator.reply(rt, &book, &mut seat, now, octets).ok()?;
//! let goes = goes(locator.step(&book, &mut seat, now).ok()?);
//! ```
//!
//! Here the request is of `sip:a.example:5070`, and the step after the reply gives one target. In
//! general the two are called in a loop, until `step` gives targets or the reason
//! (`Next::Refused`) why there are none. After a reply that was refused, the next step asks the
//! same question, if the book has no answer by then.
//!
//! Where `now` is the moment 100, a moment being a number of seconds, the first step of another
//! request to that URI, over the same book, gives the target up to the moment 399, and asks at 400.
//!
//! `step` looks up one question after the other, until the book has no answer to one, or no more is
//! asked. Each answer that it uses is the one that the book has for the question at that moment.
//! What it gives is what `sip_selection` says of all answers used. It gives a question only where
//! the book had no answer to it. `step` stores nothing. Where memory is refused, the answers found
//! before it stay used, and `step` can be called again.
//!
//! `locate` is `Locator::new` and one `step`, for a request whose answers are likely in the book.
//! It gives the targets, or the reason why there are none, and makes a locator only where an answer
//! is missing: a `BoxedLocator`, which is small, and gives the locator by `into_locator`. The
//! request is a view, so a URI or a Via of a text need not be read first.
//!
//! `BookAt` is a book as the source of answers that a choice of `sip_selection` asks.
//!
//! `reply` takes the octets of one DNS message. Where the message answers the question that is
//! asked, the answer counts for this request, and the book is then told to store it. `Kept` says
//! whether it did. An answer whose store was refused still counts: one that may not be kept, say,
//! is used for this request, and no other finds it. Otherwise `reply` says why: no question is
//! asked, no message is in front of the octets, the message does not answer the question, or memory
//! was refused. The locator and the seat are then as before, so a bad reply does no harm. The
//! message has to repeat the question that is asked, and no other. Who sent it, and its number, are
//! for the caller to compare. The message in front of the octets decides all this
//! (`law_messages_decide`).
//!
//! A locator uses at most 521 answers (`Locator::law_answers_are_few`), so a caller that brings an
//! answer to each question comes to an end.
//!
//! Read `specs/Gains.antt` first: it says which answers a step uses, and what it gives. Then read
//! `specs/Replies.antt`: it says what the octets of a reply do.
#![tactic(auto)]

mod book_at;
mod kept;
mod laws;
mod locator;
mod read;
mod refusal;

pub use book_at::BookAt;
pub use kept::Kept;
pub use laws::law_messages_decide;
pub use locator::{BoxedLocator, Located, Locator, locate};
pub use refusal::LocatorRefusal;
