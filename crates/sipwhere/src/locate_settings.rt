//! By what settings a text is located.
use dns_queries::Schedule;
use sip_selection::Caps;
use sip_tries::Extent;
use std::time::Duration;

/// What can be sent, the key of the random words and ids, how often each question is sent, how long
/// one text may take, whether targets are tried, and whether the parameters of Vias count.
#[derive(Clone, Copy, Debug)]
pub struct LocateSettings {
    /// The transports and families of addresses.
    pub caps: Caps,
    /// The key.
    pub key: [u8; 32],
    /// How often each question is sent, and for how long each query is waited for.
    pub schedule: Schedule,
    /// After how long the time of a text is over.
    pub total: Duration,
    /// How far the targets of URIs are tried, if they are.
    pub extent: Option<Extent>,
    /// Whether a Via is located by its sent-by alone, whatever its parameters say.
    pub by_sent_by: bool,
    /// Whether it is told how the targets of a text came.
    pub accounts: bool,
    /// How many draws of the order of its targets are counted.
    pub draws: u32,
}
