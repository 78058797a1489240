//! What the program prints for what it was asked and what it read, and its status.
ghost use Rattle.std.specs.Prelude.{◌≡◌, ◌≤◌, IfOk, IfErr, OnOk};
ghost use Rattle.std.specs.Io.KnownBytes.{Appends};
ghost use Rattle.siplocate.specs.Jobs as spec;
ghost use Rattle.siplocate.specs.Jobs.{IsReported};

use crate::input::InputRefusal;
use crate::server::run_output;
use sip_selection::Families;
use siplocate_one::one_text;
use std::alloc::{AllocError, Global};
use std::io::{self, Write};
use std::net::Net;
use std::random::RandomSource;
use std::sync::Wait;
use std::thread::Threads;
use std::time::Clock;

/// The status where memory, input or output failed.
const FAULT_STATUS: u8 = 5;

/// What the program is to do, with what it read for it.
#[derive(Debug, Drop)]
pub enum Job {
    /// To locate one request, from the text that was read.
    One(Families, Result<String, InputRefusal>),
    /// To locate many requests by this number of workers, from the text that was read.
    Run(usize, Result<String, InputRefusal>),
    /// To print how it is used.
    Usage,
}

/// What the program prints, and its exit status.
#[derive(Debug, Drop)]
pub enum JobOutput {
    /// This text, with this status: what becomes of a request, or what is wrong with it.
    Text(String, u8),
    /// How it is used.
    Usage,
    /// There is no input that the program can take.
    NoInput,
    /// Memory was refused.
    NoMemory,
    /// A thread could not be made.
    NoThread,
    /// The results of a run were not those of its requests.
    NotGathered,
    /// A socket could not be opened.
    NoNet,
}

/// What the program prints for the request in a text.
fn one_output<R: Wait>(rt: &R, alloc: Global, families: Families, text: &str) -> JobOutput
    ensures told { spec.IsTextOutput families text.now result }
    ensures range { spec.status result ≤ 5 }
{
    match one_text(rt, alloc, families, text) {
        Ok((printed, status)) => JobOutput::Text(printed, status),
        Err(AllocError) => JobOutput::NoMemory,
    }
}

/// What the program prints for an input that was not taken.
fn refused_output(refusal: InputRefusal) -> JobOutput
    ensures { result ≡ spec.refused refusal }
{
    match refusal {
        InputRefusal::Input => JobOutput::NoInput,
        InputRefusal::Memory => JobOutput::NoMemory,
    }
}

/// What the program prints for a job, and its status.
pub fn output_of<
    R: Net<Stream: Send, Listener: Send> + Threads + Wait + Clock + RandomSource + Sync,
>(rt: &R, alloc: Global, job: &Job) -> JobOutput
    ensures told { spec.IsOutput job.now result }
    ensures range { spec.status result ≤ 5 }
{
    match job {
        Job::One(families, Ok(text)) => one_output(rt, alloc, *families, text),
        Job::Run(workers, Ok(text)) => run_output(rt, alloc, *workers, text),
        Job::One(_, Err(refusal)) | Job::Run(_, Err(refusal)) => refused_output(*refusal),
        Job::Usage => JobOutput::Usage,
    }
}

/// The text that is printed.
fn printed(told: &JobOutput) -> &str
    ensures { result.now ≡ spec.printed told.now }
{
    match told {
        JobOutput::Text(text, _) => text,
        JobOutput::Usage => "usage: siplocate one [4|6|46|64] | run WORKERS\n",
        JobOutput::NoInput => "fault input\n",
        JobOutput::NoMemory => "fault memory\n",
        JobOutput::NoThread => "fault thread\n",
        JobOutput::NotGathered => "fault gather\n",
        JobOutput::NoNet => "fault net\n",
    }
}

/// The status, where the text could be printed.
fn status(told: &JobOutput) -> u8
    ensures { result ≡ spec.status told.now }
{
    match told {
        JobOutput::Text(_, status) => *status,
        JobOutput::Usage => 4,
        JobOutput::NoInput
        | JobOutput::NoMemory
        | JobOutput::NoThread
        | JobOutput::NotGathered
        | JobOutput::NoNet => FAULT_STATUS,
    }
}

/// Writes a text.
fn write_text<W: Write>(output: &mut W, text: &str) -> io::Result<()>
    ensures { OnOk result (Appends (W.contents output.old) (W.contents output.new) text.now) }
{
    output.write_all(text.as_bytes())?;
    output.flush()
}

/// The status in the end: output that failed has its own.
fn status_after(written: &io::Result<()>, status: u8) -> u8
    ensures written { IfOk written.now (λ _. result ≡ status) }
    ensures failed { IfErr written.now (λ _. result ≡ 5) }
{
    match written {
        Ok(()) => status,
        Err(_) => FAULT_STATUS,
    }
}

/// Prints the text of a job, and gives the exit status.
pub fn report<W: Write>(output: &mut W, told: &JobOutput) -> u8
    ensures reported { IsReported (W.contents output.old) (W.contents output.new) told.now result }
    ensures range { spec.status told.now ≤ 5 → result ≤ 5 }
{
    let written = write_text(output, printed(told));
    if written.is_err() {
        let _ = write_text(output, "fault output\n");
    }
    status_after(&written, status(told))
}
