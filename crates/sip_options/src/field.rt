//! The headers that say whether a message is a reply, by their names (RFC 3261 7.3.3, 20).
ghost use Rattle.std.specs.Prelude.{◌≡◌};
ghost use Rattle.sip_options.specs.Heads.{is_field};

/// A kind of headers.
#[derive(Clone, Copy)]
pub(crate) enum Field {
    /// Via, or v.
    Via,
    /// Call-ID, or i.
    CallId,
    /// CSeq.
    CSeq,
    /// Content-Length, or l.
    ContentLength,
}

impl Field {
    /// Whether a name is that of the headers.
    pub(crate) fn is_named(self, name: &[u8]) -> bool
        ensures { result ≡ is_field self name.now }
    {
        match self {
            Field::Via => name.eq_ignore_ascii_case(b"via") || name.eq_ignore_ascii_case(b"v"),
            Field::CallId => {
                name.eq_ignore_ascii_case(b"call-id") || name.eq_ignore_ascii_case(b"i")
            }
            Field::CSeq => name.eq_ignore_ascii_case(b"cseq"),
            Field::ContentLength => {
                name.eq_ignore_ascii_case(b"content-length") || name.eq_ignore_ascii_case(b"l")
            }
        }
    }
}
