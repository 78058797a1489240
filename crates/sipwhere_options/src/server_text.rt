//! Name servers and local addresses in words.
ghost use Rattle.std.specs.Prelude.{IfNone, IfSome};
ghost use Rattle.std.specs.Net.Grammar.{IsIpText};
ghost use Rattle.sipwhere_options.specs.Flags.{SpellsNothing};
ghost use Rattle.sipwhere_options.specs.Servers.{ServerText};

use std::net::{IpAddr, SocketAddr};

/// The port of a server without one.
pub const SERVER_PORT: u16 = 53;

/// The server of a word: an address, which has port 53, or an address with a port, where one of
/// IPv6 is in brackets.
pub fn server_from_text(text: &str) -> Option<SocketAddr>
    ensures found { IfSome result (ServerText text.now) }
    ensures none { IfNone result (SpellsNothing ServerText text.now) }
{
    match text.parse::<IpAddr>() {
        Ok(address) => Some(SocketAddr::new(address, SERVER_PORT)),
        Err(_) => text.parse::<SocketAddr>().ok(),
    }
}

/// The local address of a word: an address without a port.
pub fn local_from_text(text: &str) -> Option<IpAddr>
    ensures found { IfSome result (IsIpText text.now) }
    ensures none { IfNone result (SpellsNothing IsIpText text.now) }
{
    text.parse::<IpAddr>().ok()
}
