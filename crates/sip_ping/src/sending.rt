//! What is sent, and until when.
use sip_options::OptionsRequest;

/// A request, its octets, and the deadline, in milliseconds.
#[derive(Clone, Copy)]
pub(crate) struct Sending<'a> {
    pub(crate) request: &'a OptionsRequest<'a>,
    pub(crate) octets: &'a [u8],
    pub(crate) deadline: u64,
}
