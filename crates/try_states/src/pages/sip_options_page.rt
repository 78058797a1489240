//! The example of the page of `sip_options`.
use sip_options::{Address, OptionsRequest, Transport};
use std::test::Fail;

#[test]
fn request_is_written_and_no_reply_comes(rt: HostRuntime) -> Result<(), Fail> {
    let alloc = rt.alloc();
    let request = OptionsRequest {
        transport: Transport::Udp,
        address: Address::V4([192, 0, 2, 1]),
        port: 5070,
        uri: "sip:b.example",
        branch: 1,
        from_tag: 2,
        call_id: 3,
        max_forwards: 70,
    };
    let octets = request.octets(alloc)?;
    assert!(rt; octets.starts_with(b"OPTIONS sip:b.example SIP/2.0\r\n"));
    assert_eq!(rt; request.reply_status(&octets), None);
    Ok(())
}
