//! The example of the page of `sip_fault`.
use sip_fault::{uri_fault_at, via_fault_at};

#[test]
fn faults_stand_there(rt: HostRuntime) {
    assert_eq!(rt; uri_fault_at(b"sip:alice@b_c.example"), Some(11));
    assert_eq!(rt; uri_fault_at(b"sip:b.example:99999"), Some(18));
    assert_eq!(rt; uri_fault_at(b"sip:b.example"), None);
    assert_eq!(rt; via_fault_at(b"SIP/3.0/UDP b.example"), Some(4));
}
