//! Calls of `sip_options`.
use crate::fields::push_field;
use ip_text::address_from_text;
use row_fields::{Fault, Output, first_line, number16, number64, only_line, split_word};
use sip_options::{Address, FrameRefusal, OptionsRequest, Transport, behind_empty_lines, frame};
use std::alloc::Global;

/// What a call gives for a row's lines.
pub(crate) fn told(output: &mut Output, call: &str, input: &str) -> Result<(), Fault> {
    match call {
        "octets" => written(output, input),
        "reply_status" => status(output, input),
        "reply_fronts" => fronts(output, input),
        "frame" => framed(output, input),
        "behind_empty_lines" => behind(output, input),
        _ => Err(Fault::Call),
    }
}

/// The octets of all lines, each of which is a field in which a space stands for itself.
fn message(alloc: Global, lines: &str) -> Result<Vec<u8>, Fault> {
    let mut all = Vec::new(alloc);
    for line in only_line(lines).split('\n') {
        push_field(alloc, &mut all, line)?;
    }
    Ok(all)
}

/// Writes octets: spaces and visible characters as themselves, all others by two hexadecimal
/// digits, and behind a LF the end of a line.
fn push_message(output: &mut Output, octets: &[u8]) {
    for octet in octets {
        match *octet {
            b'\\' => output.push("\\\\"),
            b' '..=b'~' => output.push_char(char::from(*octet)),
            octet => {
                output.push("\\x");
                output.push_hexadecimal(octet);
            }
        }
        if *octet == b'\n' {
            output.push("\n");
        }
    }
}

/// The transport of a field.
fn transport(field: &str) -> Result<Transport, Fault> {
    match field {
        "udp" => Ok(Transport::Udp),
        "tcp" => Ok(Transport::Tcp),
        _ => Err(Fault::Form),
    }
}

/// The number of a field, of up to 8 bits.
fn number8(field: &str) -> Result<u8, Fault> {
    field.parse::<u8>().map_err(|_| Fault::Form)
}

/// The address of a field.
fn address(field: &str) -> Result<Address, Fault> {
    address_from_text(field).ok_or(Fault::Form)
}

/// The request of a line.
fn request(line: &str) -> Result<OptionsRequest<'_>, Fault> {
    let (transport, rest) = split_word(line);
    let (address, rest) = split_word(rest);
    let (port, rest) = split_word(rest);
    let (uri, rest) = split_word(rest);
    let (branch, rest) = split_word(rest);
    let (from_tag, rest) = split_word(rest);
    let (call_id, max_forwards) = split_word(rest);
    Ok(OptionsRequest {
        transport: self::transport(transport)?,
        address: self::address(address)?,
        port: number16(port)?,
        uri,
        branch: number64(branch)?,
        from_tag: number64(from_tag)?,
        call_id: number64(call_id)?,
        max_forwards: number8(max_forwards)?,
    })
}

/// A line with a request gives its octets.
fn written(output: &mut Output, input: &str) -> Result<(), Fault> {
    let octets = request(only_line(input))?.octets(output.alloc())?;
    push_message(output, &octets);
    Ok(())
}

/// A request of which the branch and the Call-ID alone matter, by a line with their numbers.
fn asked(line: &str) -> Result<OptionsRequest<'static>, Fault> {
    let (branch, call_id) = split_word(line);
    Ok(OptionsRequest {
        transport: Transport::Udp,
        address: Address::V4([192, 0, 2, 1]),
        port: 5070,
        uri: "sip:b.example",
        branch: number64(branch)?,
        from_tag: 0,
        call_id: number64(call_id)?,
        max_forwards: 70,
    })
}

/// Writes a status, or `none`.
fn push_status(output: &mut Output, status: Option<u16>) {
    match status {
        Some(status) => output.push_number(u64::from(status)),
        None => output.push("none"),
    }
    output.push("\n");
}

/// A line with the numbers of branch and Call-ID, and a message, give its status.
fn status(output: &mut Output, input: &str) -> Result<(), Fault> {
    let (line, lines) = first_line(input)?;
    let request = asked(line)?;
    let message = message(output.alloc(), lines)?;
    push_status(output, request.reply_status(&message));
    Ok(())
}

/// Writes the length and the status of each front of a message that has one.
fn push_fronts(output: &mut Output, request: &OptionsRequest<'_>, message: &[u8]) {
    for count in 0..message.len() + 1 {
        if let Some(status) = request.reply_status(&message[..count]) {
            output.push_length(count);
            output.push(" ");
            push_status(output, Some(status));
        }
    }
}

/// The same as a status gives the length and the status of each front that has one.
fn fronts(output: &mut Output, input: &str) -> Result<(), Fault> {
    let (line, lines) = first_line(input)?;
    let request = asked(line)?;
    let message = message(output.alloc(), lines)?;
    push_fronts(output, &request, &message);
    Ok(())
}

/// Writes the length of the message in front, `more`, or the refusal.
fn push_frame(output: &mut Output, octets: &[u8]) {
    match frame(octets) {
        Ok(Some(length)) => output.push_length(length),
        Ok(None) => output.push("more"),
        Err(FrameRefusal::TooLong) => output.push("TooLong"),
        Err(FrameRefusal::BadLength) => output.push("BadLength"),
    }
    output.push("\n");
}

/// Octets give the length of the message in front.
fn framed(output: &mut Output, input: &str) -> Result<(), Fault> {
    let octets = message(output.alloc(), input)?;
    push_frame(output, &octets);
    Ok(())
}

/// Octets give what follows the empty lines in front.
fn behind(output: &mut Output, input: &str) -> Result<(), Fault> {
    let octets = message(output.alloc(), input)?;
    push_message(output, behind_empty_lines(&octets));
    output.push("\n");
    Ok(())
}
