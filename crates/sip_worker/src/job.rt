//! What is to be resolved.
ghost use Rattle.std.specs.Prelude.{◌≡◌, ◌↔◌, IsTrue};
ghost use Rattle.sip_worker.specs.SameJobs.{same_caps, same_job, same_request};

use sip_selection::{Caps, Request};
use srv_choice::Words;

/// A request that is to be resolved.
#[derive(Debug, Drop)]
pub struct Job {
    /// The number of the job, by which a gate knows it.
    pub number: u64,
    /// What is to be located.
    pub request: Request,
    /// What the sender of the request can do.
    pub caps: Caps,
    /// The random words of its choice (RFC 2782).
    pub words: Words,
}

/// Whether requests are of one kind and the same in each part.
fn is_same_request(request: &Request, other: &Request) -> bool
    ensures { result ≡ same_request request.now other.now }
{
    match (request, other) {
        (Request::Uri(uri), Request::Uri(other)) => uri == other,
        (Request::Via(via), Request::Via(other)) => via == other,
        _ => false,
    }
}

/// Whether their senders can do the same.
fn are_same_caps(caps: &Caps, other: &Caps) -> bool
    ensures { result ≡ same_caps caps.now other.now }
{
    caps.law_transports_are_few();
    other.law_transports_are_few();
    caps == other
}

impl PartialEq for Job {
    ghost use Rattle.std.specs.Cmp.{decided, partial_equiv_from_equiv};
    ghost use Rattle.sip_worker.specs.SameJobs.Decided.{job_decides};

    ghost eq = { same_job };

    ghost laws = { partial_equiv_from_equiv (decided same_job job_decides) };

    /// Jobs are equal exactly where they are in each part.
    fn eq(&self, other: &Job) -> bool
        ensures value { result ≡ same_job self.now other.now }
        ensures same { IsTrue result ↔ (self.now ≡ other.now) }
    {
        self.number == other.number
            && is_same_request(&self.request, &other.request)
            && are_same_caps(&self.caps, &other.caps)
            && self.words == other.words
    }
}

impl Eq for Job {
    ghost use Rattle.std.specs.Cmp.{decided};
    ghost use Rattle.sip_worker.specs.SameJobs.Decided.{job_decides};

    ghost laws = { decided same_job job_decides };
}
