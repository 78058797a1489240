//! By which answers of DNS the targets of a request came (RFC 3263 4.1, 4.2, 5).
//!
//! A `ResolutionPath` leads from the host of a request to addresses: by an SRV record of a service,
//! which a NAPTR record or a transport names, or straight to the host's own addresses. `paths_of`
//! asks a source of answers, such as a book at a moment, for all paths of a request. `path_to` says
//! which of them leads to a target, and for how many seconds its answers may be kept.
//!
//! ```
//! let source = BookAt { book: &book, now };
//! let paths = paths_of(alloc, &source, &mut seat, &request).ok()?;
//! let found = path_to(paths.as_slice(), &target)?;
//! let life = found.life;
//! ```
//!
//! What is found is told of the answers that the source gives when it is asked: nothing is noted
//! while a choice is made. No path is missing, and their order is fixed: first those by NAPTR
//! records, then those by the transports alone, records as they stand in their answer, and the
//! host's own addresses last. Services count only where the request writes no port, and NAPTR
//! records only where it names no transport. Where several paths lead to a target, the first one
//! counts.
//!
//! Read `specs/Paths.antt` first: which paths a request has (`ArePathsOf`), what each of them is
//! (`IsPathOf`), and which target it leads to.
#![tactic(auto)]

mod path;
mod paths;
mod source;

pub use path::{PathFound, ResolutionPath, ServiceRecord, path_to};
pub use paths::paths_of;
