//! Lines of requests, as `read_request` of `sip_selection` reads them.
use crate::requests::transport_word;
use crate::shown::push_debug_line;
use crate::uris::push_host;
use row_fields::{Fault, Output, text};
use sip_selection::{Request, read_request};
use sip_uri::Spoken;

/// The word for the transport that a request names.
fn spoken_word(spoken: Spoken) -> &'static str {
    match spoken {
        Spoken::Known(transport) => transport_word(transport),
        Spoken::Other => "other",
    }
}

/// Writes the port of a request, where it is written.
fn push_port(output: &mut Output, port: Option<u16>) {
    if let Some(port) = port {
        output.push(" ");
        output.push_number(u64::from(port));
    }
}

/// Writes the transport of a request, where it is written.
fn push_spoken(output: &mut Output, spoken: Option<Spoken>) {
    if let Some(spoken) = spoken {
        output.push(" ");
        output.push(spoken_word(spoken));
    }
}

/// The word for the kind of a request.
fn request_word(request: &Request) -> &'static str {
    match request {
        Request::Uri(uri) if uri.secure => "sips ",
        Request::Uri(_) => "sip ",
        Request::Via(_) => "via ",
    }
}

/// Writes the kind of a request, the host whose addresses are needed, the port and the transport.
fn push_request(output: &mut Output, request: &Request) {
    output.push(request_word(request));
    push_host(output, request.target());
    push_port(output, request.port());
    push_spoken(output, request.spoken());
    output.push("\n");
}

/// A line gives the kind of its request, the host whose addresses are needed, the port and the
/// transport, or the refusal.
pub(crate) fn request_line(output: &mut Output, line: &str) -> Result<(), Fault> {
    let text = text(output.alloc(), line)?;
    match read_request(output.alloc(), &text) {
        Ok(request) => {
            push_request(output, &request);
            drop(request);
        }
        Err(refusal) => push_debug_line(output, &refusal),
    }
    Ok(())
}
