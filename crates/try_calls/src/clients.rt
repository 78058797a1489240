//! Calls of `resolver_file` and `dns_transport`, and of `sip_resolver` what is drawn of a key:
//! resolver files, forms of queries, ids and words.
use crate::lookups::key_of;
use crate::shown::push_address;
use dns_transport::QueryForm;
use resolver_file::{LineWarning, ResolverFile};
use row_fields::{Fault, Output, number16, number64, octets, only_line, split_word};
use sip_resolver::{Ids, draw_words, random_ids};
use sip_uri::Address;
use srv_choice::Words;
use std::alloc::Global;

/// What a call gives for a row's lines.
pub(crate) fn told(output: &mut Output, call: &str, input: &str) -> Result<(), Fault> {
    let line = only_line(input);
    match call {
        "resolver_file" => resolver_file(output, input),
        "query_form" => query_form(output, line),
        "random_ids" => ids(output, line),
        "draw_words" => words(output, line),
        _ => Err(Fault::Call),
    }
}

/// Lines of a resolver file, in the form of fields, give what it says. Where `\c` ends the last
/// line it has no line end.
fn resolver_file(output: &mut Output, input: &str) -> Result<(), Fault> {
    let field = input.strip_suffix("\\c\n").unwrap_or(input);
    let octets = octets(output.alloc(), field)?;
    match ResolverFile::read(output.alloc(), &octets) {
        Ok(file) => {
            push_file(output, &file);
            drop(file);
        }
        Err(_) => output.fail(Fault::Memory),
    }
    Ok(())
}

/// Writes a server of a resolver file.
fn push_server(output: &mut Output, address: Address) {
    output.push("server ");
    push_address(output, address);
    output.push("\n");
}

/// Writes a warning about a line.
fn push_warning(output: &mut Output, warning: &LineWarning) {
    let alloc = output.alloc();
    output.push_made(format!(in alloc; "warning: {warning}\n"));
}

/// Writes what a resolver file says.
fn push_file(output: &mut Output, file: &ResolverFile) {
    for server in file.servers() {
        push_server(output, *server);
    }
    push_times(output, file);
    for warning in file.warnings() {
        push_warning(output, warning);
    }
}

/// Writes how long and how often servers are asked, whether over TCP alone, and whether each query
/// begins with the next one.
fn push_times(output: &mut Output, file: &ResolverFile) {
    output.push_number(u64::from(file.timeout()));
    output.push(" s, ");
    output.push_number(u64::from(file.attempts()));
    output.push(" times");
    if file.is_over_tcp() {
        output.push(", over TCP");
    }
    if file.rotates() {
        output.push(", rotate");
    }
    output.push("\n");
}

/// Whether a field desires recursion.
fn recursion_of(field: &str) -> Result<bool, Fault> {
    match field {
        "recursion" => Ok(true),
        "iteration" => Ok(false),
        _ => Err(Fault::Form),
    }
}

/// The size of an OPT record, where a field has one.
fn edns_of(field: &str) -> Result<Option<u16>, Fault> {
    match field {
        "plain" => Ok(None),
        size => Ok(Some(number16(size)?)),
    }
}

/// The form of two fields: whether recursion is desired, and the size of an OPT record.
fn form_of(recursion: &str, edns: &str) -> Result<QueryForm, Fault> {
    Ok(QueryForm {
        recursion: recursion_of(recursion)?,
        edns: edns_of(edns)?,
    })
}

/// Writes the octets that go out for a query in a form.
fn push_form(output: &mut Output, form: QueryForm, query: &[u8]) {
    match form.octets(output.alloc(), query) {
        Ok(octets) => output.push_octets_line(&octets),
        Err(_) => output.fail(Fault::Memory),
    }
}

/// Fields with a form and the octets of a query give the octets that go out.
fn query_form(output: &mut Output, line: &str) -> Result<(), Fault> {
    let (recursion, rest) = split_word(line);
    let (edns, query) = split_word(rest);
    let form = form_of(recursion, edns)?;
    let query = octets(output.alloc(), query)?;
    push_form(output, form, &query);
    Ok(())
}

/// Writes so many ids, a line each.
fn push_ids(output: &mut Output, key: [u8; 32], stream: u64, count: u16) {
    let mut ids = random_ids(key, stream);
    for _ in 0..count {
        output.push_number(u64::from(ids.draw()));
        output.push("\n");
    }
}

/// A key, a number and a count give so many ids.
fn ids(output: &mut Output, line: &str) -> Result<(), Fault> {
    let (key, rest) = split_word(line);
    let (stream, count) = split_word(rest);
    let (stream, count) = (number64(stream)?, number16(count)?);
    let key = key_of(output.alloc(), key)?;
    push_ids(output, key, stream, count);
    Ok(())
}

/// Writes words, a line each.
fn push_words(output: &mut Output, words: &[u64]) {
    for word in words {
        output.push_number(*word);
        output.push("\n");
    }
}

/// Writes the words at some places.
fn push_drawn(output: &mut Output, words: &Words, place: usize, count: usize) {
    match words.0.get(place..place.saturating_add(count)) {
        Some(words) => push_words(output, words),
        None => output.fail(Fault::Form),
    }
}

/// The draw of a number with a key.
fn draw_of(alloc: Global, key: &str, draw: &str) -> Result<Words, Fault> {
    let draw = number64(draw)?;
    Ok(draw_words(key_of(alloc, key)?, draw))
}

/// A key, the number of a draw, a place and a count give so many of its words from that place on.
fn words(output: &mut Output, line: &str) -> Result<(), Fault> {
    let (key, rest) = split_word(line);
    let (draw, rest) = split_word(rest);
    let (place, count) = split_word(rest);
    let (place, count) = (number16(place)?, number16(count)?);
    let words = draw_of(output.alloc(), key, draw)?;
    push_drawn(output, &words, usize::from(place), usize::from(count));
    Ok(())
}
