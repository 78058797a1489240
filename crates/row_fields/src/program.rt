//! How a program ends that was handed a row.
ghost use Rattle.std.specs.Prelude.{◌≤◌};

use crate::fault::Fault;

/// The status where the words name no call.
const USAGE_STATUS: u8 = 4;

/// The status where a row cannot be tried, or its text not be written.
const FAULT_STATUS: u8 = 5;

/// Prints a text, and gives the status.
fn print_all<R: Print>(rt: &R, text: &str) -> u8
    ensures { result ≤ 5 }
{
    match print!(rt; "{text}") {
        Ok(()) => 0,
        Err(_) => FAULT_STATUS,
    }
}

/// Says what is wrong with a row, and gives the status.
fn fault_status<R: Eprint>(rt: &R, program: &str, fault: Fault) -> u8
    ensures { result ≤ 5 }
{
    let _ = eprintln!(rt; "{program}: {fault}");
    match fault {
        Fault::Call => USAGE_STATUS,
        _ => FAULT_STATUS,
    }
}

/// Prints what a row gave, or says why it was not tried, and gives the status.
pub fn print_row<R: Print + Eprint>(rt: &R, program: &str, text: Result<String, Fault>) -> u8
    ensures { result ≤ 5 }
{
    match text {
        Ok(text) => print_all(rt, &text),
        Err(fault) => fault_status(rt, program, fault),
    }
}
