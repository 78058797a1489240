//! The example of the page of `ip_text`.
use ip_text::{Address, address_from_text, address_text, decimal};
use std::test::Fail;

#[test]
fn address_is_read_and_written(rt: HostRuntime) -> Result<(), Fail> {
    let alloc = rt.alloc();
    let address = Address::V6([0, 0, 0, 0, 0, 0, 0, 0, 0, 0, 0, 0, 0, 0, 0, 1]);
    assert!(rt; address_from_text("::1") == Some(address));
    assert_eq!(rt; address_text(alloc, address)?.as_str(), "0:0:0:0:0:0:0:1");
    Ok(())
}

#[test]
fn number_is_read(rt: HostRuntime) {
    assert_eq!(rt; decimal(b"5061", 65535), Some(5061));
}
