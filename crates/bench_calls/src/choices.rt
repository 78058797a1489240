//! A whole choice, fed by octets.
ghost use Rattle.std.specs.Prelude.{◌≡◌, ◌<◌, List, length};
ghost use Rattle.sip_selection.specs.Choice.{targets};
ghost use Rattle.sip_selection.specs.Selections.{SelectionValue, now_of};
ghost use Rattle.sip_selection.specs.declared.target.Target as target;

use dns_answers::answer_of;
use dns_message::read_message;
use sip_selection::{Caps, Families, Next, Request, Selection};
use sip_uri::{Transport, read_uri, read_via};
use srv_choice::{WORD_COUNT, Words};
use std::alloc::Global;
use std::sync::Arc;

/// One more than the answers that a choice can use.
const REPLY_LIMIT: usize = 522;

/// The transports of the sender.
const TRANSPORTS: [Transport; 3] = [Transport::Udp, Transport::Tcp, Transport::Tls];

/// The request that a text spells: a URI, or else a Via.
fn request_of(alloc: Global, octets: &[u8]) -> Option<Request> {
    let text = str::from_utf8(octets).ok()?;
    match read_uri(alloc, text) {
        Ok(uri) => Some(Request::Uri(uri)),
        Err(_) => Some(Request::Via(read_via(alloc, text).ok()?)),
    }
}

/// The choice of the request that a text spells.
fn selection_of(alloc: Global, octets: &[u8]) -> Option<Selection> {
    let request = request_of(alloc, octets)?;
    let caps = Caps::new(&TRANSPORTS, Families::V4ThenV6)?;
    Selection::new(alloc, request, caps, Words([0; WORD_COUNT])).ok()
}

/// What stands in front of so many octets of length (RFC 1035 4.2.2), and what behind it.
fn split_reply(octets: &[u8]) -> Option<(&[u8], &[u8])> {
    if octets.len() < 2 {
        return None;
    }
    let (length, rest) = octets.split_at(2);
    let count = usize::from(u16::from_be_bytes([length[0], length[1]]));
    if rest.len() < count {
        return None;
    }
    Some(rest.split_at(count))
}

/// Gives a choice the answer of a reply to the question that is asked, if it is one.
fn give(alloc: Global, selection: &mut Selection, octets: &[u8]) -> Option<()> {
    let Next::Ask(question) = selection.next() else {
        return None;
    };
    let message = read_message(alloc, octets).ok()?;
    let answer = Arc::new(alloc, answer_of(alloc, question, &message).ok()?).ok()?;
    let question = question.try_clone().ok()?;
    selection.give(alloc, &question, answer).ok()
}

/// Gives a choice these replies in turn, until one is no reply to its question.
fn give_all(alloc: Global, selection: &mut Selection, replies: &[u8]) -> Option<()> {
    let mut rest = replies;
    for _reply in 0..REPLY_LIMIT {
        let (reply, behind) = split_reply(rest)?;
        give(alloc, selection, reply)?;
        rest = behind;
    }
    None
}

/// How many targets the request has that the octets in front of the first line feed spell, where
/// the replies behind it are given in turn, each behind the two octets of its length.
#[unsafe(no_mangle)]
pub extern "C" fn bench_choose(alloc: Global, octets: &[u8]) -> usize
    ensures { 0 < result → (it : SelectionValue) × (found : List target.Target)
        × (now_of it ≡ targets found) × (result ≡ length found) }
{
    let Some(end) = octets.iter().position(|octet| *octet == b'\n') else {
        return 0;
    };
    let Some(mut selection) = selection_of(alloc, &octets[..end]) else {
        return 0;
    };
    let _ = give_all(alloc, &mut selection, &octets[end + 1..]);
    match selection.next() {
        Next::Targets(found) => found.len(),
        _ => 0,
    }
}
