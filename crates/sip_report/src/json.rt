//! What became of a text as an object of JSON (RFC 8259). Its keys and types are those of
//! share/sipwhere.schema.json.
ghost use Rattle.std.specs.Prelude.{◌≡◌, ◌++◌, ◌∷◌, [], IfOk};
ghost use Rattle.std.specs.String.{string_bytes};
ghost use Rattle.serde_json.specs.Data.{string};
ghost use Rattle.serde_json.specs.View.{view};
ghost use Rattle.sip_resolver.specs.declared.outcome.Outcome.TheVariants.{Targets};
ghost use Rattle.sip_report.specs.declared.line_outcome.LineOutcome.TheVariants.{Tried};
ghost use Rattle.sip_report.specs.Jsons as spec;

use crate::account::Account;
use crate::address::{AddressForm, address_words};
use crate::explanation::{least_life, targets_in};
use crate::host::host_words;
use crate::line_outcome::{
    BAD_STATUS, FAULT_STATUS, GAVEUP_STATUS, LineOutcome, REFUSED_STATUS, RequestFault,
    TARGETS_STATUS, status_of_tries,
};
use crate::output::{kind_word, reason_word, request_word, transport_word};
use dns_answers::ReplyRefusal;
use dns_message::Question;
use dns_name::Name;
use serde_json::{Value, json};
use sip_ping::{Answer, Reply};
use sip_resolver::{Outcome, TargetList};
use sip_selection::Target;
use sip_tries::{Found, TargetTry, Tries};
use sip_uri::Transport;
use std::alloc::{AllocError, Global};
use std::net::SocketAddr;

/// The number of this format. It changes where a key goes, or means something else; a key that is
/// added does not change it.
const FORMAT: u8 = 1;

/// The RCODE of a reply that says that a name does not exist (RFC 1035 4.1.1).
const NAME_ERROR: u8 = 3;

/// An object with one member more, under this key.
fn with_member(alloc: Global, object: Value, key: &str, member: Value) -> Result<Value, AllocError>
    ensures { IfOk result (λ it.
        view it ≡ spec.with_member key.now (view member) (view object)) }
{
    match object {
        Value::Object(mut members) => {
            let key = String::from_str(alloc, key)?;
            members.insert(key, member)?;
            Ok(Value::Object(members))
        }
        other => Ok(other),
    }
}

/// An object with one member more: a text.
fn with_text(alloc: Global, object: Value, key: &str, text: &str) -> Result<Value, AllocError>
    ensures { IfOk result (λ it.
        view it ≡ spec.with_member key.now (string text.now) (view object)) }
{
    let text = String::from_str(alloc, text)?;
    with_member(alloc, object, key, Value::String(text))
}

/// An object with one member more: a number.
fn with_number(alloc: Global, object: Value, key: &str, number: u64) -> Result<Value, AllocError>
    ensures { IfOk result (λ it.
        view it ≡ spec.with_member key.now (spec.number_data number) (view object)) }
{
    with_member(alloc, object, key, Value::from(number))
}

/// The object of a target, which over TLS has what the certificate of its server has to be of too.
fn verified(
    alloc: Global,
    verify: &str,
    transport: Transport,
    target: Value,
) -> Result<Value, AllocError>
    ensures { IfOk result (λ value.
        view value ≡ spec.verified verify.now transport (view target)) }
{
    match transport {
        Transport::Tls => with_text(alloc, target, "verify", verify),
        Transport::Udp | Transport::Tcp | Transport::Sctp => Ok(target),
    }
}

/// Where a target is.
fn place_value(alloc: Global, form: AddressForm, target: &Target) -> Result<Value, AllocError>
    ensures { IfOk result (λ value. view value ≡ spec.place_data form target.now) }
{
    let address = address_words(alloc, form, target.address)?;
    let transport = transport_word(target.transport);
    json!(in alloc; {"address": &address, "port": target.port, "transport": transport})
}

/// A target, with what a certificate has to be of.
fn target_value(
    alloc: Global,
    form: AddressForm,
    verify: &str,
    target: &Target,
) -> Result<Value, AllocError>
    ensures { IfOk result (λ value. view value ≡ spec.target_data form verify.now target.now) }
{
    let place = place_value(alloc, form, target)?;
    verified(alloc, verify, target.transport, place)
}

/// Targets, in their order.
fn targets_value(
    alloc: Global,
    form: AddressForm,
    verify: &str,
    targets: &[Target],
) -> Result<Value, AllocError>
    ensures { IfOk result (λ value. view value ≡ spec.targets_data form verify.now targets.now) }
{
    let mut items = Vec::new(alloc);
    'targets: for target in targets {
        items.push(target_value(alloc, form, verify, target)?)?;
    }
    Ok(Value::Array(items))
}

/// A target that replied.
fn replied_value(
    alloc: Global,
    form: AddressForm,
    target: &Target,
    reply: Reply,
) -> Result<Value, AllocError>
    ensures { IfOk result (λ value.
        view value ≡ spec.replied_data form target.now reply.status reply.after) }
{
    let place = place_value(alloc, form, target)?;
    let timed = with_number(alloc, place, "rtt", reply.after)?;
    with_number(alloc, timed, "status", u64::from(reply.status))
}

/// A target without a final reply.
fn unreplied_value(
    alloc: Global,
    form: AddressForm,
    target: &Target,
    why: &str,
) -> Result<Value, AllocError>
    ensures { IfOk result (λ value. view value ≡ spec.unreplied_data form target.now why.now) }
{
    let place = place_value(alloc, form, target)?;
    with_text(alloc, place, "why", why)
}

/// What was found at a target.
fn found_value(alloc: Global, form: AddressForm, it: &TargetTry) -> Result<Value, AllocError>
    ensures { IfOk result (λ value.
        view value ≡ spec.found_data form it.now.target it.now.found) }
{
    match it.found {
        Found::Asked(Answer::Replied(reply)) => replied_value(alloc, form, &it.target, reply),
        Found::Asked(Answer::Silent) => unreplied_value(alloc, form, &it.target, "silent"),
        Found::Asked(Answer::Refused) => unreplied_value(alloc, form, &it.target, "refused"),
        Found::Asked(Answer::Unreadable) => {
            unreplied_value(alloc, form, &it.target, "unreadable")
        }
        Found::Untried => unreplied_value(alloc, form, &it.target, "untried"),
    }
}

/// A target that was tried, with what a certificate has to be of.
fn try_value(
    alloc: Global,
    form: AddressForm,
    verify: &str,
    it: &TargetTry,
) -> Result<Value, AllocError>
    ensures { IfOk result (λ value. view value ≡ spec.try_data form verify.now it.now) }
{
    let found = found_value(alloc, form, it)?;
    verified(alloc, verify, it.target.transport, found)
}

/// Targets that were tried, in their order.
fn tries_value(
    alloc: Global,
    form: AddressForm,
    verify: &str,
    tries: &[TargetTry],
) -> Result<Value, AllocError>
    ensures { IfOk result (λ value. view value ≡ spec.tries_data form verify.now tries.now) }
{
    let mut items = Vec::new(alloc);
    'tries: for it in tries {
        items.push(try_value(alloc, form, verify, it)?)?;
    }
    Ok(Value::Array(items))
}

/// A question: its type and its name.
fn question_value(alloc: Global, question: &Question) -> Result<Value, AllocError>
    ensures { IfOk result (λ value. view value ≡ spec.question_data question.now) }
{
    let name = question.name.text()?;
    json!(in alloc; {"kind": kind_word(question.kind), "name": &name})
}

/// A question, and the RCODE of the reply to it.
fn rcode_value(alloc: Global, question: &Question, rcode: u8) -> Result<Value, AllocError>
    ensures { IfOk result (λ value. view value ≡ spec.rcode_data question.now rcode) }
{
    let object = question_value(alloc, question)?;
    with_number(alloc, object, "rcode", u64::from(rcode))
}

/// A question, and why it has no answer.
fn why_value(alloc: Global, question: &Question, why: &str) -> Result<Value, AllocError>
    ensures { IfOk result (λ value. view value ≡ spec.why_data question.now why.now) }
{
    let object = question_value(alloc, question)?;
    with_text(alloc, object, "why", why)
}

/// A question, and what is wrong with the reply to it.
fn reply_value(
    alloc: Global,
    question: &Question,
    refusal: ReplyRefusal,
) -> Result<Value, AllocError>
    ensures { IfOk result (λ value. view value ≡ spec.reply_data question.now refusal) }
{
    match refusal {
        ReplyRefusal::NotReply => why_value(alloc, question, "NotReply"),
        ReplyRefusal::OtherQuestion => why_value(alloc, question, "OtherQuestion"),
        ReplyRefusal::Truncated => why_value(alloc, question, "Truncated"),
        ReplyRefusal::ServerFault(rcode) => rcode_value(alloc, question, rcode),
        ReplyRefusal::Memory => why_value(alloc, question, "Memory"),
    }
}

/// What the object of each text has: its status, the text, the milliseconds that it took, and the
/// number of this format.
fn line_value(alloc: Global, text: &str, took: u64, status: u8) -> Result<Value, AllocError>
    ensures { IfOk result (λ value. view value ≡ spec.line_data text.now took status) }
{
    json!(in alloc; {"status": status, "text": text, "time": took, "v": FORMAT})
}

/// An object of targets.
fn with_targets(alloc: Global, text: &str, took: u64, targets: Value) -> Result<Value, AllocError>
    ensures { IfOk result (λ value. view value ≡ spec.with_targets text.now took (view targets)) }
{
    let object = line_value(alloc, text, took, TARGETS_STATUS)?;
    with_member(alloc, object, "targets", targets)
}

/// An object of targets that were tried.
fn with_tries(
    alloc: Global,
    text: &str,
    took: u64,
    status: u8,
    targets: Value,
    tries: Value,
) -> Result<Value, AllocError>
    ensures { IfOk result (λ value. view value
        ≡ spec.with_tries text.now took status (view targets) (view tries)) }
{
    let object = line_value(alloc, text, took, status)?;
    let object = with_member(alloc, object, "targets", targets)?;
    with_member(alloc, object, "tries", tries)
}

/// The object of targets.
fn listed_value(
    alloc: Global,
    form: AddressForm,
    text: &str,
    took: u64,
    list: &TargetList,
) -> Result<Value, AllocError>
    ensures { IfOk result (λ value. view value
        ≡ spec.outcome_data form text.now took (Targets list.now)) }
{
    let verify = host_words(alloc, form, list.certificate_host())?;
    let targets = targets_value(alloc, form, &verify, list.as_slice())?;
    with_targets(alloc, text, took, targets)
}

/// The object of targets that were tried.
fn tried_value(
    alloc: Global,
    form: AddressForm,
    text: &str,
    took: u64,
    tries: &Tries,
) -> Result<Value, AllocError>
    ensures { IfOk result (λ value. view value
        ≡ spec.line_outcome_data form text.now took (Tried tries.now)) }
{
    let verify = host_words(alloc, form, &tries.certificate_host)?;
    let targets = targets_value(alloc, form, &verify, tries.targets.as_slice())?;
    let tried = tries_value(alloc, form, &verify, tries.tries.as_slice())?;
    with_tries(alloc, text, took, status_of_tries(tries), targets, tried)
}

/// An object of a question without an answer.
fn with_gaveup(alloc: Global, text: &str, took: u64, gaveup: Value) -> Result<Value, AllocError>
    ensures { IfOk result (λ value. view value ≡ spec.with_gaveup text.now took (view gaveup)) }
{
    let object = line_value(alloc, text, took, GAVEUP_STATUS)?;
    with_member(alloc, object, "gaveup", gaveup)
}

/// Why a question has no answer whose time was over.
fn total_value(alloc: Global) -> Result<Value, AllocError>
    ensures { IfOk result (λ value. view value ≡ spec.total_data) }
{
    json!(in alloc; {"why": "total"})
}

/// An object of a text without targets: by its status, with a word for why.
fn with_word(
    alloc: Global,
    text: &str,
    took: u64,
    status: u8,
    key: &str,
    word: &str,
) -> Result<Value, AllocError>
    ensures { IfOk result (λ value. view value
        ≡ spec.with_member key.now (string word.now) (spec.line_data text.now took status)) }
{
    let object = line_value(alloc, text, took, status)?;
    with_text(alloc, object, key, word)
}

/// An object of a refusal.
fn with_refused(alloc: Global, text: &str, took: u64, word: &str) -> Result<Value, AllocError>
    ensures { IfOk result (λ value. view value ≡ spec.with_refused text.now took word.now) }
{
    with_word(alloc, text, took, REFUSED_STATUS, "refused", word)
}

/// An object of a refusal for a name that does not exist.
fn with_no_name(alloc: Global, text: &str, took: u64, name: &Name) -> Result<Value, AllocError>
    ensures { IfOk result (λ value. view value ≡ spec.with_no_name text.now took name.now) }
{
    let name = name.text()?;
    let object = with_refused(alloc, text, took, "NoAddress")?;
    let object = with_number(alloc, object, "rcode", u64::from(NAME_ERROR))?;
    with_text(alloc, object, "name", &name)
}

/// An object of a text that is no request.
fn with_bad(alloc: Global, text: &str, took: u64, word: &str) -> Result<Value, AllocError>
    ensures { IfOk result (λ value. view value ≡ spec.with_bad text.now took word.now) }
{
    with_word(alloc, text, took, BAD_STATUS, "bad", word)
}

/// An object of a text that is no request, with where its fault stands.
fn with_bad_at(
    alloc: Global,
    text: &str,
    took: u64,
    fault: RequestFault,
) -> Result<Value, AllocError>
    ensures { IfOk result (λ value. view value ≡ spec.with_bad_at text.now took fault) }
{
    let object = with_bad(alloc, text, took, request_word(fault.refusal))?;
    with_number(alloc, object, "at", fault.at as u64)
}

/// An object of a fault.
fn with_fault(alloc: Global, text: &str, took: u64) -> Result<Value, AllocError>
    ensures { IfOk result (λ value. view value ≡ spec.with_fault text.now took) }
{
    with_word(alloc, text, took, FAULT_STATUS, "fault", "memory")
}

/// The object of what became of a request.
fn outcome_value(
    alloc: Global,
    form: AddressForm,
    text: &str,
    took: u64,
    outcome: &Outcome,
) -> Result<Value, AllocError>
    ensures { IfOk result (λ value.
        view value ≡ spec.outcome_data form text.now took outcome.now) }
{
    match outcome {
        Outcome::Targets(list) => listed_value(alloc, form, text, took, list),
        Outcome::Refused(reason) => with_refused(alloc, text, took, reason_word(*reason)),
        Outcome::NoAnswer(question) => {
            with_gaveup(alloc, text, took, why_value(alloc, question, "timeout")?)
        }
        Outcome::NoServer(question) => {
            with_gaveup(alloc, text, took, why_value(alloc, question, "closed")?)
        }
        Outcome::BadReply(question, refusal) => {
            with_gaveup(alloc, text, took, reply_value(alloc, question, *refusal)?)
        }
        Outcome::Memory => with_fault(alloc, text, took),
    }
}

/// The object of what became of a text.
fn line_outcome_value(
    alloc: Global,
    form: AddressForm,
    text: &str,
    took: u64,
    line_outcome: &LineOutcome,
) -> Result<Value, AllocError>
    ensures { IfOk result (λ value. view value
        ≡ spec.line_outcome_data form text.now took line_outcome.now) }
{
    match line_outcome {
        LineOutcome::Became(outcome) => outcome_value(alloc, form, text, took, outcome),
        LineOutcome::Tried(tries) => tried_value(alloc, form, text, took, tries),
        LineOutcome::NoSuchName(name) => with_no_name(alloc, text, took, name),
        LineOutcome::TimeOver => with_gaveup(alloc, text, took, total_value(alloc)?),
        LineOutcome::Bad(fault) => with_bad_at(alloc, text, took, *fault),
        LineOutcome::NotText => with_bad(alloc, text, took, "NotText"),
        LineOutcome::Memory => with_fault(alloc, text, took),
    }
}

/// An object with the seconds for which the answers may be kept by which its targets came.
fn with_ttl(alloc: Global, object: Value, life: Option<u32>) -> Result<Value, AllocError>
    ensures { IfOk result (λ it. view it ≡ spec.with_ttl life (view object)) }
{
    match life {
        Some(life) => with_number(alloc, object, "ttl", u64::from(life)),
        None => Ok(object),
    }
}

/// An object with the DNS server whose reply came last.
fn with_server(
    alloc: Global,
    object: Value,
    server: Option<SocketAddr>,
) -> Result<Value, AllocError>
    ensures { IfOk result (λ it. view it ≡ spec.with_server server (view object)) }
{
    match server {
        Some(server) => with_text(alloc, object, "server", &format!(in alloc; "{server}")?),
        None => Ok(object),
    }
}

/// The line of what became of a text after so many milliseconds, with the account of it: its
/// object, without a space between its parts.
pub fn json_line(
    alloc: Global,
    form: AddressForm,
    text: &str,
    took: u64,
    account: &Account,
    line_outcome: &LineOutcome,
) -> Result<String, AllocError>
    ensures { IfOk result (λ line. string_bytes line
        ≡ spec.json_line form text.now took account.now line_outcome.now) }
{
    let life = least_life(account.paths.as_slice(), targets_in(line_outcome));
    let value = line_outcome_value(alloc, form, text, took, line_outcome)?;
    let value = with_ttl(alloc, value, life)?;
    let value = with_server(alloc, value, account.server)?;
    let mut line = value.to_string(alloc)?;
    line.push_str("\n")?;
    Ok(line)
}
