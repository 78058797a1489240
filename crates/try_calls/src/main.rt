//! Public calls of the libraries, tried on rows of text: `try_calls CRATE CALL` reads lines from
//! its input, hands them to a call, and prints what that gives.
//!
//! `tests/rows/CRATE/CALL.txt` has rows for it, with what each has to print, which comes from
//! standards, from servers, or was worked out by hand; `tools/run-rows` compares. A further row
//! needs no proof. The comment at the head of a file of rows says how its lines are read and
//! written.
//!
//! A value that owns much is dropped by name: a function that lets it go at its end does so field
//! by field, which costs far more to prove.
#![tactic(auto)]

mod addresses;
mod answers;
mod askers;
mod books;
mod caches;
mod chains;
mod clients;
mod faults;
mod fields;
mod lists;
mod locators;
mod lookups;
mod messages;
mod names;
mod options;
mod orders;
mod pings;
mod replies;
mod request_lines;
mod requests;
mod resolver_calls;
mod resolver_lines;
mod resolver_steps;
mod resolvers;
mod rolling;
mod routes;
mod schedules;
mod selections;
mod servers;
mod shown;
mod successors;
mod uris;
mod zones;

use row_fields::{Fault, Output, print_row};
use std::process::ExitCode;
use std::rt::Env;
use std::sync::Wait;
use std::{env, io};

/// Writes what a call of a crate gives for the lines of an input.
fn tell<R: Wait>(rt: &R, output: &mut Output, crate_name: &str, call: &str, input: &str) {
    let done = match crate_name {
        "dns_answers" => answers::told(output, call, input),
        "dns_message" => messages::told(output, call, input),
        "dns_name" => names::told(output, call, input),
        "dns_queries" => askers::told(output, call, input),
        "dns_transport" | "resolver_file" => clients::told(output, call, input),
        "dns_zone" => zones::told(rt, output, call, input),
        "ip_text" => addresses::told(output, call, input),
        "pending_list" => lists::told(output, call, input),
        "sip_fault" => faults::told(output, call, input),
        "sip_options" => options::told(output, call, input),
        "sip_ping" => pings::told(rt, output, call, input),
        "sip_resolver" => resolvers::told(rt, output, call, input),
        "sip_response" => routes::told(output, call, input),
        "sip_selection" => selections::told(output, call, input),
        "sip_uri" => uris::told(output, call, input),
        "srv_choice" => orders::told(output, call, input),
        _ => return tell_of_books(rt, output, crate_name, call, input),
    };
    output.end(done);
}

/// Writes what a call gives of a crate whose calls are about books.
fn tell_of_books<R: Wait>(rt: &R, output: &mut Output, crate_name: &str, call: &str, input: &str) {
    match crate_name {
        "answer_cache" => caches::told(rt, output, call, input),
        "rolling_cache" => rolling::told(rt, output, call, input),
        "sip_locator" => locators::told(rt, output, call, input),
        _ => output.fail(Fault::Call),
    }
}

/// What the words and the input of the program ask for.
fn tried<R: Env + Input + Wait + AllocGlobal>(rt: &R) -> Result<String, Fault> {
    let alloc = rt.alloc();
    let words = env::args(rt)?.collect::<Vec<String>>(alloc)?;
    match words.as_slice() {
        [_, crate_name, call] => {
            let input = io::read_to_string(alloc, rt.reader())?;
            let mut output = Output::new(alloc);
            tell(rt, &mut output, crate_name, call, &input);
            output.finish()
        }
        _ => Err(Fault::Call),
    }
}

fn main(rt: HostRuntime) -> ExitCode {
    let text = tried(&rt);
    ExitCode::from(print_row(&rt, "try_calls", text))
}
