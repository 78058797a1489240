//! Laws of texts: a call of one does nothing, and its contract states the law.
ghost use Rattle.ip_text.specs.Addresses.{AddressFits, AddressText};
ghost use Rattle.ip_text.specs.Shown.{address_text};
ghost use Rattle.ip_text.specs.declared.address.Address.{Address};

/// The text that is written for an address is a text of it. Each address of the type fits.
pub fn law_written_address_is_read()
    ensures { (address : Address) → AddressFits address
        → AddressText (address_text address) address }
{}
