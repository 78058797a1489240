//! The program `siplocate`: where SIP requests are sent (RFC 3263), over DNS replies that it is
//! given, or that it asks a server on this host for.
#![tactic(auto)]

ghost use Rattle.std.specs.Prelude.{◌≡◌, ◌≤◌, ◌↔◌, IfOk, IsErr};

mod arguments;
mod input;
mod job;
mod line_outcome;
mod requests;
mod run;
mod server;

use arguments::{Command, arguments};
use input::input_text;
use job::{Job, JobOutput, output_of, report};
use std::alloc::AllocError;
use std::io::ErrorKind;
use std::net::Net;
use std::process::ExitCode;
use std::random::RandomSource;
use std::rt::Env;
use std::sync::Wait;
use std::thread::Threads;
use std::time::Clock;
use std::{env, io};

/// What the program is asked to do where its words cannot be had: they are no text, but for want of
/// memory.
fn without_words(kind: ErrorKind) -> Result<Command, AllocError>
    ensures usage { IfOk result (λ command. command ≡ Command.Usage) }
    ensures memory { IsErr result ↔ (kind ≡ ErrorKind.OutOfMemory) }
{
    match kind {
        ErrorKind::OutOfMemory => Err(AllocError),
        _ => Ok(Command::Usage),
    }
}

/// What the program is asked to do.
fn command<R: Env + AllocGlobal>(rt: &R) -> Result<Command, AllocError> {
    match env::args(rt) {
        Ok(words) => {
            let words = words.skip(1).collect::<Vec<String>>(rt.alloc())?;
            Ok(arguments(words.as_slice()))
        }
        Err(error) => without_words(error.kind()),
    }
}

/// What the program is to do, with what it reads for it.
fn read_job<R: Env + Input + AllocGlobal>(rt: &R) -> Result<Job, AllocError> {
    match command(rt)? {
        Command::One(families) => {
            let input = input_text(rt.alloc(), &mut rt.reader());
            Ok(Job::One(families, input))
        }
        Command::Run(workers) => {
            let input = input_text(rt.alloc(), &mut rt.reader());
            Ok(Job::Run(workers, input))
        }
        Command::Usage => Ok(Job::Usage),
    }
}

/// Does what the program is asked to do, and gives its status.
fn perform<
    R: Env
        + Input
        + Print
        + Net<Stream: Send, Listener: Send>
        + Threads
        + Wait
        + Clock
        + RandomSource
        + AllocGlobal
        + Sync,
>(rt: &R) -> u8
    ensures { result ≤ 5 }
{
    let told = match read_job(rt) {
        Ok(job) => output_of(rt, rt.alloc(), &job),
        Err(AllocError) => JobOutput::NoMemory,
    };
    report(&mut io::writer(rt), &told)
}

fn main(rt: HostRuntime) -> ExitCode {
    ExitCode::from(perform(&rt))
}
