//! The requests of a run.
use crate::workers::zone_text::DOMAINS;
use sip_selection::{Caps, Families, Request};
use sip_uri::Transport::{Tcp, Tls, Udp};
use sip_uri::read_uri;
use sip_workers::Job;
use srv_choice::{WORD_COUNT, Words};
use std::alloc::Global;

/// A request to the domain of this number.
pub fn request_of(alloc: Global, domain: u64) -> Option<Request> {
    let text = format!(in alloc; "sip:user@d{domain}.example").ok()?;
    match read_uri(alloc, text.as_str()) {
        Ok(uri) => Some(Request::Uri(uri)),
        Err(_) => None,
    }
}

/// The job of this number, where there is memory for it: it goes to a domain by its number.
pub fn job_of(alloc: Global, number: u64) -> Option<Job> {
    let caps = Caps::new(&[Udp, Tcp, Tls], Families::V4ThenV6)?;
    match request_of(alloc, number % DOMAINS) {
        Some(request) => Some(Job {
            number,
            request,
            caps,
            words: Words([number; WORD_COUNT]),
        }),
        None => None,
    }
}

/// So many jobs.
pub fn jobs_of(alloc: Global, count: u64) -> Option<Vec<Job>> {
    let mut jobs = Vec::new(alloc);
    for number in 0..count {
        jobs.push(job_of(alloc, number)?).ok()?;
    }
    Some(jobs)
}
