//! What the system's resolver file (resolv.conf(5)) says: the name servers, how long and how often
//! each is asked, whether over TCP alone, and whether each question begins with the next server.
//! Its octets are handed in: nothing here opens a file.
//!
//! ```
//! let text = b"nameserver 192.0.2.1\noptions timeout:3 use-vc\nnameserver\n";
//! let file = ResolverFile::read(alloc, text).ok()?;
//! // the one server, which is asked at the port SERVER_PORT
//! let server = file.servers() == [Address::V4([192, 0, 2, 1])].as_slice();
//! // 3 seconds, and twice, since the file doesn't say how often
//! let times = file.timeout() == 3 && file.attempts() == 2;
//! let over_tcp = file.is_over_tcp();
//! // line 3: no address
//! let warned = file.warnings().len() == 1;
//! ```
//!
//! Read `specs/ResolverLines.antt` first: what a line says. `specs/ResolverFiles.antt` says what a
//! file says in all.
#![tactic(auto)]

mod file;
mod resolver_fact;
mod resolver_line;
mod warning;
mod words;

pub use file::{ResolverFile, SERVER_LIMIT, SERVER_PORT};
pub use warning::{LineFault, LineWarning};
