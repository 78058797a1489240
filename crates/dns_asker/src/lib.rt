//! Questions to DNS servers, and a small DNS server: the names of `dns_queries` and `dns_zone`
//! under one.
//!
//! ```
//! // a wire in memory to a server of the zone
//! let mut wire = ZoneWire::new(alloc, zone, &sent);
//! // what an asker sends for a question goes over the wire
//! let query = asker.ask(question, 0x1234, now).ok()?;
//! wire.send(query).ok()?;
//! // and so does the reply, which the asker hears
//! let count = wire.receive(&mut buffer).ok()??;
//! let heard = asker.incoming(&buffer[..count]).ok()?;
//! ```
#![tactic(auto)]

pub use dns_queries::{
    AskRefusal, Asker, Clock, DATAGRAM_LIMIT, Due, Ending, Incoming, MessageWire, PeerWire,
    Received, Schedule, StandingClock, Why, Wire, WireFault, law_asking_stays_in_order,
};
pub use dns_zone::{
    Zone, ZoneEntry, ZoneRefusal, ZoneWire, law_zone_follows_cnames, law_zone_names_its_authority,
    serve,
};
