//! What the program prints.
ghost use Rattle.std.specs.Prelude.{◌≡◌, IfOk, codes};
ghost use Rattle.std.specs.List.{flat_map};
ghost use Rattle.std.specs.String.{string_bytes};
ghost use Rattle.dns_name.specs.Texts.{text_of};
ghost use Rattle.sip_ping.specs.declared.answer.Answer.TheVariants.{Replied};
ghost use Rattle.sip_tries.specs.declared.found.Found.TheVariants.{Asked};
ghost use Rattle.sip_report.specs.Lines as spec;

use crate::address::{AddressForm, address_words};
use crate::line_outcome::{LineOutcome, RequestFault};
use dns_answers::ReplyRefusal;
use dns_message::{Kind, Question};
use dns_name::Name;
use sip_ping::{Answer, Reply};
use sip_resolver::Outcome;
use sip_selection::{Reason, Target};
use sip_tries::{Found, TargetTry};
use sip_uri::{Transport, UriRefusal};
use std::alloc::{AllocError, Global};

/// The word that is printed for a transport.
pub fn transport_word(transport: Transport) -> &'static str
    ensures { result.now ≡ spec.transport_word transport }
{
    match transport {
        Transport::Udp => "udp",
        Transport::Tcp => "tcp",
        Transport::Sctp => "sctp",
        Transport::Tls => "tls",
    }
}

/// The word that is printed for the reason why a request goes nowhere.
pub fn reason_word(reason: Reason) -> &'static str
    ensures { result.now ≡ spec.reason_word reason }
{
    match reason {
        Reason::TransportUnsupported => "TransportUnsupported",
        Reason::TransportNotSecure => "TransportNotSecure",
        Reason::NotOffered => "NotOffered",
        Reason::NoAddress => "NoAddress",
    }
}

/// The name of the type of records that a question asks for.
pub fn kind_word(kind: Kind) -> &'static str
    ensures { result.now ≡ spec.kind_word kind }
{
    match kind {
        Kind::A => "A",
        Kind::Aaaa => "AAAA",
        Kind::Srv => "SRV",
        Kind::Naptr => "NAPTR",
    }
}

/// The word that is printed for why a text is no request.
pub fn request_word(refusal: UriRefusal) -> &'static str
    ensures { result.now ≡ spec.request_word refusal }
{
    match refusal {
        UriRefusal::TooLong => "TooLong",
        UriRefusal::BadScheme => "BadScheme",
        UriRefusal::BadUser => "BadUser",
        UriRefusal::BadHost => "BadHost",
        UriRefusal::BadPort => "BadPort",
        UriRefusal::BadParam => "BadParam",
        UriRefusal::RepeatedParam => "RepeatedParam",
        UriRefusal::BadHeader => "BadHeader",
        UriRefusal::BadVia => "BadVia",
        UriRefusal::Memory => "Memory",
    }
}

/// Why a text is no request, and where, in words.
fn fault_words(alloc: Global, fault: RequestFault) -> Result<String, AllocError>
    ensures { IfOk result (λ words. string_bytes words ≡ spec.fault_words fault) }
{
    let word = request_word(fault.refusal);
    let at = fault.at;
    format!(in alloc; "{word} at {at}")
}

/// Why a reply has no answer.
fn why_word(alloc: Global, refusal: ReplyRefusal) -> Result<String, AllocError>
    ensures { IfOk result (λ word. string_bytes word ≡ spec.why_word refusal) }
{
    match refusal {
        ReplyRefusal::NotReply => String::from_str(alloc, "NotReply"),
        ReplyRefusal::OtherQuestion => String::from_str(alloc, "OtherQuestion"),
        ReplyRefusal::Truncated => String::from_str(alloc, "Truncated"),
        ReplyRefusal::ServerFault(rcode) => format!(in alloc; "rcode {rcode}"),
        ReplyRefusal::Memory => String::from_str(alloc, "Memory"),
    }
}

/// A target in words: its transport, address and port.
pub fn target_words(alloc: Global, form: AddressForm, target: &Target) -> Result<String, AllocError>
    ensures { IfOk result (λ words. string_bytes words ≡ spec.target_words form target.now) }
{
    let port = target.port;
    let mut words = String::from_str(alloc, transport_word(target.transport))?;
    words.push_str(" ")?;
    words.push_str(&address_words(alloc, form, target.address)?)?;
    words.push_str(&format!(in alloc; " {port}")?)?;
    Ok(words)
}

/// The line of a target.
fn target_line(
    alloc: Global,
    form: AddressForm,
    front: &str,
    target: &Target,
) -> Result<String, AllocError>
    ensures { IfOk result (λ line.
        string_bytes line ≡ spec.target_line form front.now target.now) }
{
    let mut line = String::from_str(alloc, front)?;
    line.push_str(&target_words(alloc, form, target)?)?;
    line.push_str("\n")?;
    Ok(line)
}

/// The lines of targets.
fn target_lines(
    alloc: Global,
    form: AddressForm,
    front: &str,
    targets: &[Target],
) -> Result<String, AllocError>
    ensures { IfOk result (λ lines.
        string_bytes lines ≡ flat_map (spec.target_line form front.now) targets.now) }
{
    let mut lines = String::new(alloc);
    'targets: for target in targets {
        lines.push_str(&target_line(alloc, form, front, target)?)?;
    }
    Ok(lines)
}

/// A final reply in words: its status, and the milliseconds until it was there.
fn reply_words(alloc: Global, reply: Reply) -> Result<String, AllocError>
    ensures { IfOk result (λ words.
        string_bytes words ≡ spec.found_words (Asked (Replied reply))) }
{
    let status = reply.status;
    let after = reply.after;
    let mut words = format!(in alloc; "{status}")?;
    words.push_str(&format!(in alloc; " {after} ms")?)?;
    Ok(words)
}

/// What an answer says in words.
fn answer_words(alloc: Global, answer: Answer) -> Result<String, AllocError>
    ensures { IfOk result (λ words. string_bytes words ≡ spec.found_words (Asked answer)) }
{
    match answer {
        Answer::Replied(reply) => reply_words(alloc, reply),
        Answer::Silent => String::from_str(alloc, "silent"),
        Answer::Refused => String::from_str(alloc, "refused"),
        Answer::Unreadable => String::from_str(alloc, "unreadable"),
    }
}

/// What was found at a target.
fn found_words(alloc: Global, found: Found) -> Result<String, AllocError>
    ensures { IfOk result (λ words. string_bytes words ≡ spec.found_words found) }
{
    match found {
        Found::Asked(answer) => answer_words(alloc, answer),
        Found::Untried => String::from_str(alloc, "untried"),
    }
}

/// The line of a target that was tried.
fn try_line(
    alloc: Global,
    form: AddressForm,
    front: &str,
    it: &TargetTry,
) -> Result<String, AllocError>
    ensures { IfOk result (λ line. string_bytes line ≡ spec.try_line form front.now it.now) }
{
    let mut line = String::from_str(alloc, front)?;
    line.push_str(&target_words(alloc, form, &it.target)?)?;
    line.push_str(" ")?;
    line.push_str(&found_words(alloc, it.found)?)?;
    line.push_str("\n")?;
    Ok(line)
}

/// The lines of targets that were tried.
fn try_lines(
    alloc: Global,
    form: AddressForm,
    front: &str,
    tries: &[TargetTry],
) -> Result<String, AllocError>
    ensures { IfOk result (λ lines.
        string_bytes lines ≡ flat_map (spec.try_line form front.now) tries.now) }
{
    let mut lines = String::new(alloc);
    'tries: for it in tries {
        lines.push_str(&try_line(alloc, form, front, it)?)?;
    }
    Ok(lines)
}

/// A question in words: its kind and its name.
pub fn question_words(alloc: Global, question: &Question) -> Result<String, AllocError>
    ensures { IfOk result (λ words. string_bytes words ≡ spec.question_words question.now) }
{
    let kind = kind_word(question.kind);
    let name = question.name.text()?;
    format!(in alloc; "{kind} {name}")
}

/// The line of a question that has no answer, and why it has none.
fn gaveup_line(
    alloc: Global,
    front: &str,
    question: &Question,
    why: &str,
) -> Result<String, AllocError>
    ensures { IfOk result (λ line.
        string_bytes line ≡ spec.gaveup_line front.now question.now why.now) }
{
    let mut line = String::from_str(alloc, front)?;
    line.push_str("gaveup ")?;
    line.push_str(&question_words(alloc, question)?)?;
    line.push_str(" ")?;
    line.push_str(why)?;
    line.push_str("\n")?;
    Ok(line)
}

/// A line of two words, after the front.
fn words_line(alloc: Global, front: &str, word: &str, other: &str) -> Result<String, AllocError>
    ensures { IfOk result (λ line.
        string_bytes line ≡ spec.words_line front.now word.now other.now) }
{
    let mut line = String::from_str(alloc, front)?;
    line.push_str(word)?;
    line.push_str(other)?;
    line.push_str("\n")?;
    Ok(line)
}

/// The lines of what became of a text, each after the same front.
pub fn lines_of(
    alloc: Global,
    form: AddressForm,
    front: &str,
    line_outcome: &LineOutcome,
) -> Result<String, AllocError>
    ensures { IfOk result (λ lines. string_bytes lines
        ≡ spec.lines_of form front.now line_outcome.now) }
{
    match line_outcome {
        LineOutcome::Became(outcome) => outcome_lines(alloc, form, front, outcome),
        LineOutcome::Tried(tries) => try_lines(alloc, form, front, tries.tries.as_slice()),
        LineOutcome::NoSuchName(_) => words_line(alloc, front, "refused ", "NoAddress"),
        LineOutcome::TimeOver => words_line(alloc, front, "gaveup ", "total"),
        LineOutcome::Bad(fault) => words_line(alloc, front, "bad ", &fault_words(alloc, *fault)?),
        LineOutcome::NotText => words_line(alloc, front, "bad ", "NotText"),
        LineOutcome::Memory => words_line(alloc, front, "fault ", "memory"),
    }
}

/// The line of a name that does not exist.
fn no_name_line(alloc: Global, front: &str, name: &Name) -> Result<String, AllocError>
    ensures { IfOk result (λ line. string_bytes line
        ≡ spec.words_line front.now (codes "refused NoAddress rcode 3 ") (text_of name.now)) }
{
    words_line(alloc, front, "refused NoAddress rcode 3 ", &name.text()?)
}

/// The lines of what became of a text, each after the same front, with the name that does not
/// exist.
pub fn verbose_lines(
    alloc: Global,
    form: AddressForm,
    front: &str,
    line_outcome: &LineOutcome,
) -> Result<String, AllocError>
    ensures { IfOk result (λ lines. string_bytes lines
        ≡ spec.verbose_lines form front.now line_outcome.now) }
{
    match line_outcome {
        LineOutcome::Became(outcome) => outcome_lines(alloc, form, front, outcome),
        LineOutcome::Tried(_) => lines_of(alloc, form, front, line_outcome),
        LineOutcome::NoSuchName(name) => no_name_line(alloc, front, name),
        LineOutcome::TimeOver => lines_of(alloc, form, front, line_outcome),
        LineOutcome::Bad(_) => lines_of(alloc, form, front, line_outcome),
        LineOutcome::NotText => lines_of(alloc, form, front, line_outcome),
        LineOutcome::Memory => lines_of(alloc, form, front, line_outcome),
    }
}

/// The lines of what became of a request.
pub fn outcome_lines(
    alloc: Global,
    form: AddressForm,
    front: &str,
    outcome: &Outcome,
) -> Result<String, AllocError>
    ensures { IfOk result (λ lines.
        string_bytes lines ≡ spec.outcome_lines form front.now outcome.now) }
{
    match outcome {
        Outcome::Targets(list) => target_lines(alloc, form, front, list.as_slice()),
        Outcome::Refused(reason) => words_line(alloc, front, "refused ", reason_word(*reason)),
        Outcome::NoAnswer(question) => gaveup_line(alloc, front, question, "timeout"),
        Outcome::NoServer(question) => gaveup_line(alloc, front, question, "closed"),
        Outcome::BadReply(question, refusal) => {
            gaveup_line(alloc, front, question, &why_word(alloc, *refusal)?)
        }
        Outcome::Memory => words_line(alloc, front, "fault ", "memory"),
    }
}
