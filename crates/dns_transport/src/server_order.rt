//! The order in which a query goes to servers.
ghost use Rattle.std.specs.Prelude.{◌≡◌, ◌%◌, ◌<◌};
ghost use Rattle.dns_transport.specs.ServerOrders as spec;

/// The server that a query goes to after so many sends, where the first one goes to this server.
pub(crate) fn server_at(first: usize, sends: usize, servers: usize) -> usize
    requires { 0 < servers }
    ensures is { result ≡ spec.server_at first sends servers }
    ensures inside { result < servers }
{
    let start = first % servers;
    let place = sends % servers;
    let behind = servers - start;
    if place < behind {
        start + place
    } else {
        place - behind
    }
}

/// The server whose turn it is at the query of a number: the one after that of the number before.
pub(crate) fn turn_of(number: u64, servers: usize) -> usize
    requires { 0 < servers }
    ensures { result ≡ number % servers }
{
    (number % servers as u64) as usize
}
