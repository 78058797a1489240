//! Requests in lines of text.
ghost use Rattle.std.specs.Prelude.{◌≡◌, ◌<◌, ◌==◌, List, ℕ, length, Some, IfSome, IfOk, MatchOption, MatchResult, Err};
ghost use Rattle.std.specs.List.{position_or_len, before_first, after_first};
ghost use Rattle.std.specs.Option.{option_map};
ghost use Rattle.sip_selection.specs.RequestLines.{BeginsVia, RequestText};
ghost use Rattle.sip_selection.specs.declared.request.Request as request;

use crate::request::Request;
use sip_uri::{UriRefusal, read_uri, read_via};
use std::alloc::Global;

/// What stands before and behind the first colon of a line.
fn at_colon(line: &str) -> Option<(&str, &str)>
    ensures { MatchOption result (position_or_len (λ b. b == 58) line.now ≡ length line.now)
        (λ parts. (parts.0.now ≡ before_first (λ b. b == 58) line.now)
        × (parts.1.now ≡ after_first (λ b. b == 58) line.now)
        × (position_or_len (λ b. b == 58) line.now < length line.now)) }
{
    line.split_once(':')
}

/// What follows `Via:`, where a line begins with it, in letters of any case (RFC 3261 7.3.1). Takes
/// no memory.
#[must_use]
pub fn behind_via(line: &str) -> Option<&str>
    ensures begins { IfSome result (λ rest. BeginsVia line.now rest.now) }
    ensures all { (rest : List ℕ) → BeginsVia line.now rest
        → option_map (λ found. found.now) result ≡ Some rest }
{
    let (word, rest) = at_colon(line)?;
    if word.eq_ignore_ascii_case("via") {
        Some(rest)
    } else {
        None
    }
}

/// The request of a line: a URI, or a Via after `Via:`.
pub fn read_request(alloc: Global, line: &str) -> Result<Request, UriRefusal>
    ensures found { IfOk result (λ request. RequestText line.now request) }
    ensures read { (request : request.Request) → RequestText line.now request
        → MatchResult result (λ found. found ≡ request) (λ refusal. refusal ≡ UriRefusal.Memory) }
    // Memory is wanted for a request alone.
    ensures memory { result ≡ Err UriRefusal.Memory
        → (request : request.Request) × RequestText line.now request }
{
    match behind_via(line) {
        Some(rest) => Ok(Request::Via(read_via(alloc, rest)?)),
        None => Ok(Request::Uri(read_uri(alloc, line)?)),
    }
}
