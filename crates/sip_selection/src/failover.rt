//! Targets that are tried one after the other (RFC 3263 4.3).
ghost use Rattle.std.specs.Prelude.{◌≡◌, slice_get};
ghost use Rattle.std.specs.Option.{option_copied};
ghost use Rattle.sip_selection.specs.Trials.{begun, next_trial, progress_of, tried_in};

use crate::target::Target;
use std::marker::Model;

/// How the try of a target failed.
#[derive(Clone, Copy, Debug, PartialEq, Eq)]
pub enum Failure {
    /// The server answered 503 (RFC 3261 21.5.4).
    Status503,
    /// The transport reported an error (RFC 3261 18.4).
    Transport,
    /// Nothing came in time, no provisional response either (RFC 3261 17.1.1.2, 17.1.2.2).
    Timeout,
}

/// How the try of a target went.
#[derive(Clone, Copy, Debug, PartialEq, Eq)]
pub enum Event {
    /// The try failed in this way.
    Failed(Failure),
    /// A final response other than 503 came.
    Responded,
}

/// How far the tries are.
#[derive(Clone, Copy, Debug, PartialEq, Eq)]
pub enum Progress {
    /// A target is being tried.
    Trying,
    /// The last target that was tried answered.
    Answered,
    /// No target is left.
    Exhausted,
}

/// The targets of a request, tried in their order until one answers (RFC 3263 4.3).
#[derive(Debug, Drop)]
pub struct Failover {
    targets: Vec<Target>,
    failures: usize,
    answered: bool,
}

impl Model for Failover {
    ghost use Rattle.std.specs.Prelude.{◌≤◌, length};
    ghost use Rattle.sip_selection.specs.Trials.{Trial};

    ghost Value = { Trial };

    ghost view = { λ it. record {
      targets = it.targets.items;
      failures = it.failures;
      answered =
          it.answered;
    } };

    ghost invariant = { λ it. it.failures ≤ length it.targets.items };
}

impl Failover {
    /// The targets of a request, the first of which is tried.
    pub fn new(targets: Vec<Target>) -> Failover
        ensures { result ≡ begun targets.items }
    {
        Failover {
            targets,
            failures: 0,
            answered: false,
        }
    }

    /// The target that is tried now, or that answered; none where all have failed.
    pub fn current(&self) -> Option<&Target>
        ensures { option_copied result ≡ slice_get self.now.targets self.now.failures }
    {
        self.targets.get(self.failures)
    }

    /// How far the tries are: a target is tried, one answered, or all have failed.
    pub fn progress(&self) -> Progress
        ensures { result ≡ progress_of self.now }
    {
        if self.failures == self.targets.len() {
            Progress::Exhausted
        } else if self.answered {
            Progress::Answered
        } else {
            Progress::Trying
        }
    }

    /// Goes on after an event: to the next target after a failure, and to the end after a response.
    /// After the end an event changes nothing.
    pub fn event(&mut self, event: Event) -> Progress
        ensures next { self.new ≡ next_trial self.old event }
        ensures progress { result ≡ progress_of self.new }
    {
        if self.progress() == Progress::Trying {
            match event {
                Event::Failed(_) => self.failures += 1,
                Event::Responded => self.answered = true,
            }
        }
        self.progress()
    }

    /// The targets that were tried, the current one included.
    pub fn tried(&self) -> &[Target]
        ensures { result.now ≡ tried_in self.now }
    {
        let end = (self.failures + 1).min(self.targets.len());
        &self.targets.as_slice()[..end]
    }
}
