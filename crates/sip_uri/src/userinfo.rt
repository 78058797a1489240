//! What is before the `@` of a URI (RFC 3261 25.1).
ghost use Rattle.std.specs.Prelude.{◌≡◌};
ghost use Rattle.sip_uri.specs.Readers.Uris as spec;

use crate::classes::{Class, is_run, run_in_front};
use crate::pairs::behind_end;

/// Whether a text is a user, or a user, `:` and a password.
pub(crate) fn is_userinfo(text: &[u8]) -> bool
    ensures { result ≡ spec.is_userinfo text.now }
{
    let (user, rest) = run_in_front(Class::User, text);
    match behind_end(rest, b':') {
        None => false,
        Some(None) => !user.is_empty(),
        Some(Some(password)) => !user.is_empty() && is_run(Class::Password, password),
    }
}
