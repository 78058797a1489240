//! The program `sipwhere`: where SIP requests are sent (RFC 3263), asked of DNS servers.
#![tactic(auto)]

ghost use Rattle.std.specs.Prelude.{◌≡◌, ◌≤◌, IfOk, IsTrue, map, string_bytes};
ghost use Rattle.std.specs.Process.{exit_status};
ghost use Rattle.clap.specs.Values.{kind_of};
ghost use Rattle.sip_report.specs.declared.report.Report.TheVariants.{Check};
ghost use Rattle.sipwhere.specs.Statuses as spec;

mod account;
mod counting_book;
mod destination;
mod line;
mod line_input;
mod line_result;
mod locate_run;
mod locate_settings;
mod noting_wire;
mod open_lines;
mod progress;
mod request_fault;
mod run;
mod run_system;
mod stats;
mod submitted_lines;
mod tell;

use clap::error::ErrorKind;
use clap::{ArgMatches, Error};
use run::run;
use run_system::HostSystem;
use sip_report::{FAULT_STATUS, Report, UNKNOWN_STATUS};
use sipwhere_options::{
    OptionFault, Options, RunFault, Terminals, command, read_options, resolver_path,
};
use std::env;
use std::fmt::Display;
use std::io::{self, IsTerminal};
use std::net::Net;
use std::process::ExitCode;
use std::random::RandomSource;
use std::rt::{Env, Files};
use std::sync::Wait;
use std::time::Clock;

/// The status where the words are none that the program knows.
const USAGE_STATUS: u8 = 4;

/// Whether words ask for a check.
fn ask_for_check(words: &[String]) -> bool
    ensures { result ≡ spec.ask_for_check (map string_bytes words.now) }
{
    'words: for word in words {
        if word.as_str() == "--check" {
            return true;
        }
    }
    false
}

/// Tells how the program is used, or its version, or what is wrong with its words, or that memory
/// was refused for them.
fn tell_usage<R: Print + Eprint>(rt: &R, error: &Error) -> u8
    ensures { spec.IsUsage (kind_of error.now) result }
{
    if error.print(rt).is_err() || error.kind() == ErrorKind::OutOfMemory {
        return FAULT_STATUS;
    }
    if error.use_stderr() { USAGE_STATUS } else { 0 }
}

/// The status where an option is wrong, or memory was refused for the options.
fn option_status(fault: OptionFault) -> u8
    ensures { result ≡ spec.option_status fault }
{
    match fault {
        OptionFault::Memory => FAULT_STATUS,
        _ => USAGE_STATUS,
    }
}

/// The status of a run. A check that ended as none of its states is UNKNOWN, and says why in the
/// line that a monitoring system reads.
fn status_in_form<R: Print, T: Display>(rt: &R, is_check: bool, status: u8, why: &T) -> u8
    ensures form { result ≡ spec.in_form is_check status }
    ensures check { IsTrue is_check → result ≤ 3 }
    ensures range { status ≤ 5 → result ≤ 5 }
{
    if !is_check || status <= UNKNOWN_STATUS {
        return status;
    }
    let _ = println!(rt; "SIP UNKNOWN - {why}");
    UNKNOWN_STATUS
}

/// Whether a check is asked for.
fn is_check(report: Report) -> bool
    ensures { result ≡ spec.is_check report }
{
    report == Report::Check
}

/// Tells on standard error why nothing is asked, and of which resolver file where it is one.
fn tell_fault<R: Eprint>(rt: &R, options: &Options<'_>, fault: &RunFault) {
    let _ = match fault {
        RunFault::ResolverFile(_) => eprintln!(rt; "sipwhere: {}: {fault}", resolver_path(options)),
        _ => eprintln!(rt; "sipwhere: {fault}"),
    };
}

/// Does what the options ask for, and gives the status. A fault is reported on standard error.
fn run_as<R: Wait + Input + Print + Eprint + Files + Net + RandomSource + Clock + AllocGlobal>(
    rt: &R,
    options: &Options<'_>,
) -> u8
    ensures run { spec.IsOfOptions options.now result }
    ensures check { options.now.report ≡ Check → result ≤ 3 }
    ensures range { result ≤ 5 }
{
    let is_check = is_check(options.report);
    match run(rt, &HostSystem::new(rt), options) {
        Ok(status) => status_in_form(rt, is_check, status, &"memory, input or output failed"),
        Err(fault) => {
            tell_fault(rt, options, &fault);
            status_in_form(rt, is_check, FAULT_STATUS, &fault)
        }
    }
}

/// Tells what is wrong with the words, and gives the status.
fn tell_wrong_words<R: Print + Eprint>(rt: &R, error: &Error, words: &[String]) -> u8
    ensures usage { spec.IsOfError (kind_of error.now) (map string_bytes words.now) result }
    ensures range { result ≤ 5 }
{
    let status = tell_usage(rt, error);
    let why = if status == FAULT_STATUS {
        "memory or output failed"
    } else {
        "the words are wrong"
    };
    status_in_form(rt, ask_for_check(words), status, &why)
}

/// Does what words ask for that were found, and gives the status.
fn run_matches<R: Wait + Input + Print + Eprint + Files + Net + RandomSource + Clock + AllocGlobal>(
    rt: &R,
    matches: &ArgMatches<'_>,
    terminals: Terminals,
) -> u8
    ensures run { spec.IsOfMatches matches.now terminals result }
    ensures range { result ≤ 5 }
{
    match read_options(rt.alloc(), matches, terminals) {
        Ok(options) => run_as(rt, &options),
        Err(fault) => {
            let _ = eprintln!(rt; "sipwhere: {fault}");
            let is_check = matches.get_flag("check");
            status_in_form(rt, is_check, option_status(fault), &fault)
        }
    }
}

/// Does what the program is asked to do, and gives its status.
fn perform<
    R: Wait + Env + Input + Print + Eprint + Files + Net + RandomSource + Clock + AllocGlobal,
>(rt: &R, terminals: Terminals) -> io::Result<u8>
    ensures run { IfOk result (spec.IsOfWords terminals) }
    ensures range { IfOk result (λ status. status ≤ 5) }
{
    let words = env::args(rt)?.collect::<Vec<String>>(rt.alloc())?;
    match command(rt.alloc())?.try_get_matches_from(words.as_slice()) {
        Ok(matches) => Ok(run_matches(rt, &matches, terminals)),
        Err(error) => Ok(tell_wrong_words(rt, &error, words.as_slice())),
    }
}

/// Does what the program is asked to do, and ends with its status. A fault of the system is told on
/// standard error.
fn perform_reported<
    R: Wait + Env + Input + Print + Eprint + Files + Net + RandomSource + Clock + AllocGlobal,
>(rt: &R, terminals: Terminals) -> ExitCode
    ensures run { spec.IsOfProgram terminals (exit_status result) }
    ensures range { exit_status result ≤ 5 }
{
    match perform(rt, terminals) {
        Ok(status) => ExitCode::from(status),
        Err(error) => {
            let _ = eprintln!(rt; "sipwhere: {error}");
            ExitCode::from(FAULT_STATUS)
        }
    }
}

fn main(rt: HostRuntime) -> ExitCode {
    let terminals = Terminals {
        output: rt.stdout().is_terminal(),
        errors: rt.stderr().is_terminal(),
    };
    perform_reported(&rt, terminals)
}
