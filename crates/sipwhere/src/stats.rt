//! How much was asked.
use dns_transport::WireCounts;
use std::time::Duration;

/// Reports on standard error how much was asked, how much was found in the cache, and how long it
/// took.
pub fn tell_stats<R: Eprint>(rt: &R, counts: WireCounts, found: u64, time: Duration) {
    let questions = counts.questions;
    let again = counts.again;
    let queries = questions.saturating_add(again);
    let over_tcp = counts.over_tcp;
    let replies = counts.replies;
    let time = time.as_millis();
    let _ = eprintln!(rt;
        "sipwhere: questions {questions}, queries {queries}, again {again}, \
        over TCP {over_tcp}, replies {replies}, from the cache {found}, {time} ms"
    );
}
