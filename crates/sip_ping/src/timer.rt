//! Timer E (RFC 3261 17.1.2.2).
ghost use Rattle.std.specs.Prelude.{◌≡◌, ◌+◌, ◌<◌, ◌^◌};
ghost use Rattle.sip_ping.specs.Timers.{next_wait, t1, t2};

/// The first wait, in milliseconds (RFC 3261 17.1.1.1).
const FIRST_WAIT: u32 = 500;

/// The longest wait, in milliseconds (RFC 3261 17.1.1.1).
const LONGEST_WAIT: u32 = 4_000;

/// Timer E: when it fires, and what it is set to then, in milliseconds.
#[derive(Clone, Copy, Debug)]
pub(crate) struct Timer {
    pub(crate) due: u64,
    pub(crate) wait: u32,
}

/// What Timer E is set to next.
fn next_wait(wait: u32) -> u32
    ensures { result ≡ next_wait wait }
{
    if wait < LONGEST_WAIT / 2 {
        wait + wait
    } else {
        LONGEST_WAIT
    }
}

impl Timer {
    /// The request is due.
    pub(crate) fn new() -> Timer
        ensures due { result.due ≡ 0 }
        ensures wait { result.wait ≡ t1 }
    {
        Timer {
            due: 0,
            wait: FIRST_WAIT,
        }
    }

    /// The request was sent at this time.
    pub(crate) fn set(&mut self, now: u64)
        requires { now < 2 ^ 32 }
        ensures due { self.new.due ≡ now + self.old.wait }
        ensures wait { self.new.wait ≡ next_wait self.old.wait }
    {
        self.due = now + u64::from(self.wait);
        self.wait = next_wait(self.wait);
    }

    /// A provisional reply came.
    pub(crate) fn slow_down(&mut self)
        ensures due { self.new.due ≡ self.old.due }
        ensures wait { self.new.wait ≡ t2 }
    {
        self.wait = LONGEST_WAIT;
    }
}
