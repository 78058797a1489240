//! Calls of `dns_name`.
use crate::fields::{joined, name};
use crate::shown::{push_debug_line, push_name};
use dns_name::{Name, NameRefusal, read_name, write_name};
use row_fields::{Fault, Output, count, first_line, octets, only_line, split_word, text};
use std::alloc::AllocError;

/// What a call gives for a row's lines.
pub(crate) fn told(output: &mut Output, call: &str, input: &str) -> Result<(), Fault> {
    let line = only_line(input);
    match call {
        "from_text" => from_text(output, line),
        "prefixed" => prefixed(output, line),
        "read_name" => at_offset(output, input),
        "write_name" => written(output, line),
        "parent" => parents(output, line),
        "eq" => equal(output, line),
        _ => Err(Fault::Call),
    }
}

/// Writes the octets of a name, or the refusal.
fn push_read(output: &mut Output, read: Result<Name, NameRefusal>) {
    match read {
        Ok(name) => {
            output.push_octets_line(name.wire());
            drop(name);
        }
        Err(refusal) => push_debug_line(output, &refusal),
    }
}

/// A field with a text gives the octets of its name, or the refusal.
fn from_text(output: &mut Output, line: &str) -> Result<(), Fault> {
    let alloc = output.alloc();
    let text = text(alloc, line)?;
    push_read(output, Name::from_text(alloc, &text));
    Ok(())
}

/// Writes the line of a name.
fn push_name_line(output: &mut Output, name: &Name) {
    push_name(output, name);
    output.push("\n");
}

/// Writes the name with two labels in front, or the refusal.
fn push_prefixed(output: &mut Output, prefixed: Result<Name, NameRefusal>) {
    match prefixed {
        Ok(name) => {
            push_name_line(output, &name);
            drop(name);
        }
        Err(refusal) => push_debug_line(output, &refusal),
    }
}

/// The name with two labels in front.
fn in_front(name: &Name, service: &str, proto: &str) -> Result<Name, NameRefusal> {
    name.prefixed(service, proto)
}

/// Writes the name with the labels of two fields in front, or the refusal.
fn prefixed_by(output: &mut Output, name: &Name, service: &str, proto: &str) -> Result<(), Fault> {
    let service = text(output.alloc(), service)?;
    let proto = text(output.alloc(), proto)?;
    push_prefixed(output, in_front(name, &service, &proto));
    Ok(())
}

/// Fields with a name and two labels give the name with these in front, or the refusal.
fn prefixed(output: &mut Output, line: &str) -> Result<(), Fault> {
    let alloc = output.alloc();
    let (domain, rest) = split_word(line);
    let (service, proto) = split_word(rest);
    let domain = name(alloc, domain)?;
    let done = prefixed_by(output, &domain, service, proto);
    drop(domain);
    done
}

/// A line with an offset and lines with the octets of a message give the name there and the offset
/// behind it, or the refusal.
fn at_offset(output: &mut Output, input: &str) -> Result<(), Fault> {
    let (offset, lines) = first_line(input)?;
    let offset = count(offset)?;
    let message = joined(output.alloc(), lines)?;
    push_name_at(output, &message, offset);
    Ok(())
}

/// Writes the line of the name at an offset of a message, or the refusal.
fn push_name_at(output: &mut Output, message: &[u8], offset: usize) {
    match read_name(output.alloc(), message, offset) {
        Ok((name, behind)) => {
            push_name(output, &name);
            output.push(" ");
            output.push_length(behind);
            output.push("\n");
            drop(name);
        }
        Err(refusal) => push_debug_line(output, &refusal),
    }
}

/// Writes a name behind octets.
fn write_behind(name: &Name, out: &mut Vec<u8>) -> Result<(), AllocError> {
    write_name(name, out)
}

/// Writes a copy of a name behind octets.
fn write_copy(name: &Name, out: &mut Vec<u8>) -> Result<(), Fault> {
    let copy = name.try_clone()?;
    let written = write_behind(&copy, out);
    drop(copy);
    Ok(written?)
}

/// Fields with octets and a name give the octets with a copy of the name behind them.
fn written(output: &mut Output, line: &str) -> Result<(), Fault> {
    let alloc = output.alloc();
    let (front, behind) = split_word(line);
    let name = name(alloc, behind)?;
    let mut out = octets(alloc, front)?;
    let written = write_copy(&name, &mut out);
    output.push_octets_line(&out);
    drop(name);
    written
}

/// Writes a parent, or `none`.
fn push_parent(output: &mut Output, parent: Result<Option<Name>, AllocError>) {
    match parent {
        Ok(Some(parent)) => {
            push_name_line(output, &parent);
            drop(parent);
        }
        Ok(None) => output.push_line("none"),
        Err(_) => output.fail(Fault::Memory),
    }
}

/// A field with a name gives its parent, or `none` for the root.
fn parents(output: &mut Output, line: &str) -> Result<(), Fault> {
    let name = name(output.alloc(), line)?;
    push_parent(output, name.parent());
    drop(name);
    Ok(())
}

/// Writes whether the name of a field is equal to another.
fn push_equal(output: &mut Output, first: &Name, second: &str) {
    match name(output.alloc(), second) {
        Ok(second) => {
            output.push_line(if *first == second { "true" } else { "false" });
            drop(second);
        }
        Err(fault) => output.fail(fault),
    }
}

/// Fields with two names give whether they are equal.
fn equal(output: &mut Output, line: &str) -> Result<(), Fault> {
    let (first, second) = split_word(line);
    let first = name(output.alloc(), first)?;
    push_equal(output, &first, second);
    drop(first);
    Ok(())
}
