//! What a worker reports of a job, and brings home from its thread.
ghost use Rattle.std.specs.Prelude.{◌≡◌, IfOk};
ghost use Rattle.std.specs.List.{All};
ghost use Rattle.sip_workers.specs.Deals.{IsTold};

use answer_cache::Notice;
use dns_queries::{Clock, Wire};
use sip_resolver::Outcome;
use sip_worker::{Job, JobResult};
use std::alloc::{AllocError, Global};
use std::marker::Model;

/// A result, of which no type names the wire and the clock.
#[derive(Drop)]
pub(crate) struct Report<'a> {
    job: &'a Job,
    outcome: Outcome,
    notice: Notice,
}

impl<'a> Model for Report<'a> {
    ghost use Rattle.sip_worker.specs.Outcomes.{ResultView};

    ghost Value = { ResultView };

    ghost view = { λ it. record { job = it.job.now; outcome = it.outcome; notice = it.notice } };
}

impl<'a> Report<'a> {
    /// What a result tells.
    fn of<W: Wire, C: Clock>(it: JobResult<'a, W, C>) -> Report<'a>
        ensures is { result ≡ it.entry }
        ensures told { IsTold W.gives C.shows result }
    {
        let job = it.job();
        let (outcome, notice) = it.into_parts();
        Report {
            job,
            outcome,
            notice,
        }
    }

    /// The result.
    fn into_result<W: Wire, C: Clock>(self) -> JobResult<'a, W, C>
        requires { IsTold W.gives C.shows self }
        ensures { result ≡ self.entry }
    {
        let Report {
            job,
            outcome,
            notice,
        } = self;
        JobResult::new(job, outcome, notice)
    }
}

/// What results tell.
pub(crate) fn reports_of<'a, W: Wire, C: Clock>(
    alloc: Global,
    results: Vec<JobResult<'a, W, C>>,
) -> Result<Vec<Report<'a>>, AllocError>
    ensures are { IfOk result (λ all. all.items ≡ results.entry.items) }
    ensures told { IfOk result (λ all. All (IsTold W.gives C.shows) all.items) }
{
    let mut all = Vec::with_capacity(alloc, results.len())?;
    'results: for it in results {
        all.push(Report::of(it))?;
    }
    Ok(all)
}

/// The results that told so.
pub(crate) fn results_of<'a, W: Wire, C: Clock>(
    alloc: Global,
    reports: Vec<Report<'a>>,
) -> Result<Vec<JobResult<'a, W, C>>, AllocError>
    requires { All (IsTold W.gives C.shows) reports.items }
    ensures { IfOk result (λ all. all.items ≡ reports.entry.items) }
{
    let mut all = Vec::with_capacity(alloc, reports.len())?;
    'reports: for it in reports {
        all.push(it.into_result())?;
    }
    Ok(all)
}
