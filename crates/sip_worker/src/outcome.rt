//! What becomes of a job.
ghost use Rattle.std.specs.Prelude.{◌≡◌, IfOk, OnErr};
ghost use Rattle.sip_resolver.specs.Outcomes.{HasParts};
ghost use Rattle.sip_worker.specs.Outcomes.{IsOutcome};

use crate::job::Job;
use answer_cache::Notice;
use dns_queries::{Clock, Wire};
use sip_resolver::Outcome;
use std::alloc::{AllocError, Global};
use std::marker::{Model, PhantomData};

/// What became of a job, with a notice of what its worker had seen then.
#[derive(Drop)]
pub struct JobResult<'a, W: Wire, C: Clock> {
    job: &'a Job,
    outcome: Outcome,
    notice: Notice,
    over: PhantomData<(W, C)>,
}

impl<'a, W: Wire, C: Clock> Model for JobResult<'a, W, C> {
    ghost use Rattle.sip_worker.specs.Outcomes.{IsOutcome, ResultView};

    ghost Value = { ResultView };

    ghost view = { λ it. record { job = it.job.now; outcome = it.outcome; notice = it.notice } };

    ghost invariant = { λ it. IsOutcome W.gives C.shows it.notice.seen it.job.now it.outcome };
}

impl<'a, W: Wire, C: Clock> JobResult<'a, W, C> {
    /// This became of a job.
    pub fn new(job: &'a Job, outcome: Outcome, notice: Notice) -> JobResult<'a, W, C>
        requires { IsOutcome W.gives C.shows notice.seen job.now outcome }
        ensures { result ≡ record { job = job.now; outcome = outcome; notice = notice } }
    {
        JobResult {
            job,
            outcome,
            notice,
            over: PhantomData,
        }
    }

    /// The job that the result is of.
    #[must_use]
    pub fn job(&self) -> &'a Job
        ensures { result.now ≡ self.now.job }
    {
        self.job
    }

    /// What became of the job.
    #[must_use]
    pub fn outcome(&self) -> &Outcome
        ensures is { result.now ≡ self.now.outcome }
        ensures says { IsOutcome W.gives C.shows self.now.notice.seen self.now.job result.now }
    {
        &self.outcome
    }

    /// What the worker of the job had seen when it ended.
    #[must_use]
    pub fn notice(&self) -> &Notice
        ensures { result.now ≡ self.now.notice }
    {
        &self.notice
    }

    /// What became of the job, and what its worker had seen when it ended.
    #[must_use]
    pub fn into_parts(self) -> (Outcome, Notice)
        ensures is { (result.0 ≡ self.entry.outcome) × (result.1 ≡ self.entry.notice) }
        ensures says { IsOutcome W.gives C.shows result.1.seen self.entry.job result.0 }
    {
        let JobResult {
            outcome,
            notice,
            ..
        } = self;
        (outcome, notice)
    }

    /// A copy of the result. Memory is needed for targets and for a question alone.
    pub fn try_clone(&self, alloc: Global) -> Result<JobResult<'a, W, C>, AllocError>
        ensures copy { IfOk result (λ copy. copy ≡ self.now) }
        ensures memory { OnErr result (HasParts self.now.outcome) }
    {
        let outcome = self.outcome.try_clone(alloc)?;
        Ok(JobResult::new(self.job, outcome, self.notice.again()))
    }
}
