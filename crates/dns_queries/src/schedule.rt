//! How often a question is sent, and how long each send is waited for.
ghost use Rattle.std.specs.Prelude.{◌≡◌, ◌+◌};

use dns_answers::Moment;

/// How often a question is sent, and how long each send is waited for.
#[derive(Clone, Copy, Debug, PartialEq, Eq)]
pub struct Schedule {
    /// How often a question is sent at most, from 1 to 15.
    pub sends: u8,
    /// For how many seconds each send is waited for, from 1 to 60.
    pub wait: u8,
}

impl Schedule {
    /// Three sends, and one second for each.
    pub const USUAL: Schedule = Schedule { sends: 3, wait: 1 };

    /// The second until which a send at a moment is waited for, counted as moments are.
    pub(crate) fn deadline_after(self, now: Moment) -> u64
        ensures { result ≡ now + self.wait }
    {
        now.get() + u64::from(self.wait)
    }
}
