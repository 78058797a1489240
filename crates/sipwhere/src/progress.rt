//! How many texts are done, shown on standard error.
use std::time::Duration;

/// How many seconds pass at least from one time to the next.
const INTERVAL: u64 = 1;

/// How many texts are done, of all that are known.
#[derive(Drop)]
pub struct Progress {
    is_shown: bool,
    /// Of the parts of the input before this one.
    before: usize,
    known: usize,
    due: Duration,
    /// Whether a line of it stands on the terminal.
    stands: bool,
}

impl Progress {
    /// Progress of which nothing is known yet. It is shown after the first second, if at all.
    pub fn new(is_shown: bool) -> Progress {
        Progress {
            is_shown,
            before: 0,
            known: 0,
            due: Duration::from_secs(INTERVAL),
            stands: false,
        }
    }

    /// Notes that this number of texts more is known, and that all that were known before are done.
    pub fn begin(&mut self, count: usize) {
        self.before = self.known;
        self.known = self.known.saturating_add(count);
    }

    /// Shows that this number of the texts that were begun last is done, at most once a second.
    pub fn tell<R: Eprint>(&mut self, rt: &R, now: Duration, done: usize) {
        if !self.is_shown || now < self.due {
            return;
        }
        self.due = now.saturating_add(Duration::from_secs(INTERVAL));
        self.stands = true;
        let done = self.before.saturating_add(done);
        let known = self.known;
        let _ = eprint!(rt; "\r\u{1b}[K{done} of {known}");
    }

    /// Wipes the line of progress out, if there is one.
    pub fn wipe<R: Eprint>(&mut self, rt: &R) {
        if self.stands {
            self.stands = false;
            let _ = eprint!(rt; "\r\u{1b}[K");
        }
    }
}
