//! Calls of `sip_fault`.
use row_fields::{Fault, Output, octets, only_line};
use sip_fault::{uri_fault_at, via_fault_at};

/// What a call gives for a row's lines.
pub(crate) fn told(output: &mut Output, call: &str, input: &str) -> Result<(), Fault> {
    let octets = octets(output.alloc(), only_line(input))?;
    match call {
        "uri_fault_at" => push_at(output, uri_fault_at(&octets)),
        "via_fault_at" => push_at(output, via_fault_at(&octets)),
        _ => return Err(Fault::Call),
    }
    Ok(())
}

/// Writes where a fault stands, or `none`.
fn push_at(output: &mut Output, at: Option<usize>) {
    match at {
        Some(at) => output.push_number(at as u64),
        None => output.push("none"),
    }
    output.push("\n");
}
