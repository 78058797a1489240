//! The example of the page of `resolver_file`.
use resolver_file::{ResolverFile, SERVER_PORT};
use sip_uri::Address;
use std::alloc::Global;

/// What the example finds of the server, of the times, of TCP and of the last line.
fn example(alloc: Global) -> Option<[bool; 4]> {
    let text = b"nameserver 192.0.2.1\noptions timeout:3 use-vc\nnameserver\n";
    let file = ResolverFile::read(alloc, text).ok()?;
    // the one server, which is asked at the port SERVER_PORT
    let server = file.servers() == [Address::V4([192, 0, 2, 1])].as_slice();
    // 3 seconds, and twice, since the file doesn't say how often
    let times = file.timeout() == 3 && file.attempts() == 2;
    let over_tcp = file.is_over_tcp();
    // line 3: no address
    let warned = file.warnings().len() == 1;
    Some([server, times, over_tcp, warned])
}

#[test]
fn file_is_read(rt: HostRuntime) {
    assert_eq!(rt; example(rt.alloc()), Some([true; 4]));
    assert_eq!(rt; SERVER_PORT, 53);
}
