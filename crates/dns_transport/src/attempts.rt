//! How often a query is sent, and how long each send is waited for.

/// How often a query of the caller is sent where no reply comes, and how long each send is waited
/// for (RFC 1035 7.2).
#[derive(Clone, Copy, Debug, PartialEq, Eq)]
pub struct Attempts {
    /// How often it is sent, from 1 on.
    pub count: u8,
    /// For how many milliseconds each send is waited for.
    pub time: u32,
}

impl Attempts {
    /// Those of a caller that has no others: three sends, and a second for each.
    pub const DEFAULT: Attempts = Attempts {
        count: 3,
        time: 1_000,
    };
}
