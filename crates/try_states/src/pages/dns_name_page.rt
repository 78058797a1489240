//! The example of the page of `dns_name`.
use dns_name::{Name, NameRefusal, read_name};
use std::alloc::Global;
use std::test::Fail;

/// The domain of the example.
fn domain_of(alloc: Global) -> Result<Name, NameRefusal> {
    let domain = Name::from_text(alloc, "B.example")?;
    Ok(domain)
}

/// The name of its service.
fn service_of(domain: &Name) -> Result<Name, NameRefusal> {
    let service = domain.prefixed("_sip", "_udp")?;
    Ok(service)
}

#[test]
fn service_has_text(rt: HostRuntime) -> Result<(), Fail> {
    let service = service_of(&domain_of(rt.alloc())?)?;
    assert_eq!(rt; service.text()?.as_str(), "_sip._udp.b.example.");
    Ok(())
}

#[test]
fn name_is_read(rt: HostRuntime) -> Result<(), Fail> {
    let alloc = rt.alloc();
    let domain = domain_of(alloc)?;
    // the name at octet 0 of a message, and the offset after it
    let (name, after) = read_name(alloc, b"\x01b\x07example\x00", 0)?;
    assert!(rt; name == domain && after == 11);
    Ok(())
}
